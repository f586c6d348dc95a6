ghost use Rattle.std.specs.Prelude.{◌≡◌, ◌<◌, ◌≤◌, ◌↔◌, [], ◌∷◌, ◌++◌, ◌-◌, length, take, drop, slice_index_or, IsTrue};
ghost use Rattle.std.specs.Prelude.{OnOk, OnErr, IfOk};
ghost use Rattle.script_text.specs.Arguments.{words_of};

use line_text::{past_blanks, word_at};
use std::alloc::{AllocError, Global};
use std::marker::Model;

/// How many texts there are at most: the name of a script and nine arguments.
const MOST: usize = 10;

/// The name of a script and its arguments, up to nine, each a text of any bytes.
#[derive(Drop)]
pub struct Arguments {
    bytes: Vec<u8>,
    places: [usize; 11],
    count: usize,
}

impl Model for Arguments {
    ghost use Rattle.std.specs.Prelude.{ℕ, ◌+◌, List, take};

    ghost Value = { List (List ℕ) };

    ghost use Rattle.script_text.specs.Storage.{texts_between, IsStored};

    ghost view = { λ a. texts_between a.bytes.items (take (a.count + 1) a.places) };

    ghost invariant = { λ a. IsStored a.bytes.items a.places a.count };
}

impl Arguments {
    /// No name and no argument yet. It takes no memory.
    pub fn new(alloc: Global) -> Arguments
        ensures { result ≡ [] }
    {
        Arguments {
            bytes: Vec::new(alloc),
            places: [0; 11],
            count: 0,
        }
    }

    /// The name, and as arguments the words of a text, with spaces and tabs between them. Words behind the ninth are
    /// left out.
    pub fn from_text(alloc: Global, name: &[u8], text: &[u8]) -> Result<Arguments, AllocError>
        ensures { IfOk result (λ arguments. arguments ≡ take 10 (name.now ∷ words_of text.now)) }
    {
        let mut arguments = Arguments::new(alloc);
        arguments.push(name)?;
        let mut rest = past_blanks(text);
        while !rest.is_empty() && arguments.len() < MOST {
            let (word, behind) = word_at(rest);
            arguments.push(word)?;
            rest = past_blanks(behind);
        }
        Ok(arguments)
    }

    /// How many texts there are, the name among them.
    pub fn len(&self) -> usize
        ensures length { result ≡ length self.now }
        ensures most { result ≤ 10 }
    {
        self.count
    }

    /// Whether there is no name.
    pub fn is_empty(&self) -> bool
        ensures { IsTrue result ↔ (self.now ≡ []) }
    {
        self.len() == 0
    }

    /// Whether there is no room for another text.
    pub fn is_full(&self) -> bool
        ensures { IsTrue result ↔ (length self.now ≡ 10) }
    {
        self.len() == MOST
    }

    /// The name at 0 and the arguments from 1 on; one that is missing is empty.
    pub fn get(&self, index: usize) -> &[u8]
        ensures { result.now ≡ slice_index_or self.now index [] }
    {
        if index < self.count {
            between(&self.bytes, self.places[index], self.places[index + 1])
        } else {
            &self.bytes[..0]
        }
    }

    /// Adds a text: the name first, and then the arguments. Nothing is added where memory is out.
    pub fn push(&mut self, text: &[u8]) -> Result<(), AllocError>
        requires { length self.old < 10 }
        ensures ok { OnOk result (self.new ≡ self.old ++ text.now ∷ []) }
        ensures err { OnErr result (self.new ≡ self.old) }
    {
        self.bytes.extend_from_slice(text)?;
        self.count += 1;
        self.places[self.count] = self.bytes.len();
        Ok(())
    }
}

// The bytes from a place up to another.
fn between(bytes: &[u8], from: usize, to: usize) -> &[u8]
    requires rise { from ≤ to }
    requires within { to ≤ length bytes.now }
    ensures { result.now ≡ take (to - from) (drop from bytes.now) }
{
    &bytes[from..to]
}
