ghost use Rattle.std.specs.Prelude.{◌≡◌, ◌<◌, ◌≤◌, ◌++◌, [], length, map, option_map, slice_get, OnOk, IfSome};
ghost use Rattle.expect_actions.specs.KeysFile.{WithMemory, IsAnswer, keys_read, due_key};
ghost use Rattle.expect_actions.specs.KeysFile.{KeysHaveOneAnswer, KeysAreComputed};

use crate::keys_lines::{split_line, take_line};
use std::alloc::Global;
use std::marker::Model;

/// Keys that are typed at given times, in the order in which they are taken. A time counts instructions.
#[derive(Drop)]
pub struct Keys {
    list: Vec<(u64, u8)>,
}

impl Model for Keys {
    ghost use Rattle.std.specs.Prelude.{List, ◌≤◌, length};
    ghost use Rattle.expect_actions.specs.KeysFile.{Key};

    ghost Value = { List Key };

    ghost view = { λ k. k.list.items };

    ghost invariant = { λ k. length k.list.items ≤ 65536 };
}

/// Why there are no keys.
#[derive(Clone, Copy, Debug, PartialEq, Eq)]
pub enum KeysFault {
    /// The bytes are no keys file, and its first faulty line begins at this place, counted from 0.
    Bad(usize),
    OutOfMemory,
}

impl Keys {
    /// No keys, of a session without a keys file. It takes no memory.
    pub fn none(alloc: Global) -> Keys
        ensures { result ≡ [] }
    {
        Keys {
            list: Vec::new(alloc),
        }
    }

    /// The keys of a keys file.
    ///
    /// A line of it is a decimal count of instructions up to 2^60, a space and a quoted text, whose bytes are keys that
    /// are due at that count; counts do not fall, there are at most 65536 keys in all, and an LF ends each line but the
    /// last, where it may lack. `Bad` names the place of the first line that is not so: an empty line and a line with a
    /// CR are not.
    pub fn read_keys(alloc: Global, bytes: &[u8]) -> Result<Keys, KeysFault>
        ensures keys { WithMemory result (IsAnswer bytes.now) }
        ensures exact { WithMemory result (λ answer. answer ≡ keys_read bytes.now) }
    {
        let mut text = match Vec::from_elem(alloc, 0u8, bytes.len()) {
            Ok(text) => text,
            Err(_) => return Err(KeysFault::OutOfMemory),
        };
        let mut list = Vec::new(alloc);
        let mut time = 0;
        let mut place = 0;
        let mut rest = bytes;
        while !rest.is_empty() {
            let (line, behind) = split_line(rest);
            match take_line(&mut list, time, line, text.as_mut_slice()) {
                Err(_) => return Err(KeysFault::OutOfMemory),
                Ok(None) => return Err(KeysFault::Bad(place)),
                Ok(Some(next)) => {
                    time = next;
                    place += line.len() + 1;
                    rest = behind;
                }
            }
        }
        Ok(Keys { list })
    }

    /// The byte of the key with that number, counted from 0, where there is one and its time is at most `now`.
    pub fn due(&self, taken: u64, now: u64) -> Option<u8>
        ensures due { result ≡ due_key self.now taken now }
        ensures few { IfSome result (λ b. taken < 65536) }
    {
        match self.list.get(taken as usize) {
            Some(key) => { if key.0 <= now { Some(key.1) } else { None } }
            None => None,
        }
    }

    /// The time at which the key with that number is due, counted from 0; None exactly past the last one.
    pub fn time_of(&self, taken: u64) -> Option<u64>
        ensures { result ≡ option_map (λ key. key.0) (slice_get self.now taken) }
    {
        match self.list.get(taken as usize) {
            Some(key) => Some(key.0),
            None => None,
        }
    }
}

/// The law that no bytes have two answers, and that the one that is computed is an answer.
pub fn keys_files_have_one_answer()
    ensures one { KeysHaveOneAnswer }
    ensures computed { KeysAreComputed }
{}
