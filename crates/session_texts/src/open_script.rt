ghost use Rattle.std.specs.Prelude.{◌≡◌, ◌<◌, IsTrue, length, nat_lt, nat_le, is_some, Some, None, if◌then◌else◌};
ghost use Rattle.fault_counts.specs.Faults.{CountsFault};
ghost use Rattle.file_traits.specs.Streams.{Puts};
ghost use Rattle.script_text.specs.Filling.{filled};

use command_session::{DoFile, ScriptText};
use file_traits::{Failed, Sink, put_all};
use line_text::Text;
use script_text::{Arguments, Line, filled, find_label, line_cost, next_line, piece_at};
use std::marker::Model;

/// A script that is open: its text, and the place in it of its next line.
#[derive(Drop)]
pub struct OpenScript {
    text: ScriptText,
    place: usize,
    arguments: Arguments,
    echo: bool,
    strict: bool,
}

impl Model for OpenScript {
    ghost use Rattle.std.specs.Prelude.{◌≤◌, length};
    ghost use Rattle.session_texts.specs.Scripts.{Script};

    ghost Value = { Script };

    ghost view = { λ s. record {
      text = s.text;
      place = s.place;
      arguments = s.arguments;
      echo = s.echo;
      strict = s.strict;
    } };

    ghost invariant = { λ s. s.place ≤ length s.text };
}

impl OpenScript {
    ghost use Rattle.std.specs.Prelude.{◌++◌, ◌∷◌, [], ◌^◌, ◌≤◌, option_map};
    ghost use Rattle.script_text.specs.Lines.{first_line, command_line, behind_line, lines_of};
    ghost use Rattle.script_text.specs.Labels.{label_place};
    ghost use Rattle.session_texts.specs.Scripts.{begun, rest_of, cost_of_line, text_of_line, echo_text};
    ghost use Rattle.session_texts.specs.Scripts.{past_line, placed_at};

    /// A script at its first line, with its name and its arguments.
    pub fn begin(file: DoFile, arguments: Arguments) -> OpenScript
        ensures first { result ≡ begun arguments file }
        ensures file { length result.text ≤ 2 ^ 20 }
    {
        // It says how long a script can be.
        let _text = file.text.as_slice();
        OpenScript {
            text: file.text,
            place: 0,
            arguments,
            echo: file.echo,
            strict: file.strict,
        }
    }

    /// Whether it has another line.
    pub fn has_line(&self) -> bool
        ensures { result ≡ nat_lt self.now.place (length self.now.text) }
    {
        self.place < self.text.as_slice().len()
    }

    /// Whether its first failed command ends it.
    pub fn is_strict(&self) -> bool
        ensures { result ≡ self.now.strict }
    {
        self.strict
    }

    /// What its next line costs in units of the budget, as it stands there.
    pub fn line_cost(&self) -> u64
        requires { self.now.place < length self.now.text }
        ensures { result ≡ cost_of_line self.now }
    {
        line_cost(self.line().bytes)
    }

    /// Prints its next line, with its arguments filled in, where its lines are printed.
    pub fn put_echo<S: Sink>(&self, out: &mut S) -> Result<(), Failed>
        requires { self.now.place < length self.now.text }
        ensures told { IsTrue S.tells → Puts (S.written out.old) (echo_text self.now) result (S.written out.new) }
        ensures counts { CountsFault (S.fault_count out.old) (S.fault_count out.new) result }
    {
        if !self.echo {
            return Ok(());
        }
        put_all(out, b"do> ")?;
        put_filled(self.line().text, &self.arguments, out)?;
        put_all(out, b"\n")
    }

    /// Goes past its next line, and answers it with its arguments filled in. `None` comes exactly where it has more
    /// than 512 bytes then.
    pub fn take_line(&mut self) -> Option<Text<512>>
        requires { self.old.place < length self.old.text }
        ensures text { result
            ≡ (if nat_le (length (text_of_line self.old)) 512 then Some (text_of_line self.old) else None) }
        ensures past { self.new ≡ past_line self.old }
    {
        let line = self.line();
        let text = filled(line.text, &self.arguments);
        self.place = self.text.as_slice().len() - line.rest.len();
        text
    }

    /// Goes on with the first line that is that label, and answers whether there is one.
    pub fn go_to(&mut self, label: &[u8]) -> bool
        ensures found { result ≡ is_some (label_place label.now (lines_of self.old.text)) }
        ensures place { self.new ≡ placed_at (label_place label.now (lines_of self.old.text)) self.old }
    {
        match find_label(self.text.as_slice(), label) {
            Some(place) => {
                self.place = place;
                true
            }
            None => false,
        }
    }

    // Its next line, and what follows it.
    fn line(&self) -> Line<'_>
        requires { self.now.place < length self.now.text }
        ensures text { result.text.now ≡ command_line (rest_of self.now) }
        ensures bytes { result.bytes ≡ length (first_line (rest_of self.now)) }
        ensures rest { result.rest.now ≡ behind_line (rest_of self.now) }
        ensures within { length result.rest.now ≤ length self.now.text }
    {
        next_line(&self.text.as_slice()[self.place..]).unwrap()
    }
}

// Prints a line with its arguments filled in, however long.
fn put_filled<S: Sink>(line: &[u8], arguments: &Arguments, out: &mut S) -> Result<(), Failed>
    ensures told { IsTrue S.tells
        → Puts (S.written out.old) (filled arguments.now line.now) result (S.written out.new) }
    ensures counts { CountsFault (S.fault_count out.old) (S.fault_count out.new) result }
{
    let mut place = 0;
    while place < line.len() {
        let (piece, width) = piece_at(&line[place..], arguments);
        put_all(out, piece)?;
        place += width;
    }
    Ok(())
}
