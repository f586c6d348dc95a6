ghost use Rattle.std.specs.Prelude.{◌≡◌, ◌≢◌, ◌+◌, ◌≤◌, ◌<◌, ◌^◌, [], true, false, IsTrue};
ghost use Rattle.fault_counts.specs.Faults.{raised};
ghost use Rattle.script_text.specs.Lines.{without_cr};
ghost use Rattle.session_texts.specs.Reading.{is_charged, byte_cost};

use file_traits::{Source, next_byte};
use line_text::Text;
use std::marker::Model;

/// How many bytes of a line are kept: one more than the longest line that is read, for a CR behind it.
const KEPT: usize = 513;

/// What a reading of a line came to.
#[derive(Clone, Copy, Debug, PartialEq, Eq)]
pub enum Reading {
    /// A line of at most 512 bytes.
    Line,
    /// A longer line. Its bytes were read, and are gone.
    TooLong,
    /// The input has ended.
    End,
    /// A unit of the budget was wanted, and none was left.
    Unpaid,
    /// The input failed.
    Failed,
}

/// Reads lines byte by byte, so that nothing behind the line that is being done has been read.
#[derive(Drop)]
pub struct LineReader {
    line: Text<KEPT>,
    open_: bool,
}

impl Model for LineReader {
    ghost use Rattle.session_texts.specs.Reading.{ReaderState};

    ghost Value = { ReaderState };

    ghost view = { λ r. record { line = r.line; open_ = r.open_ } };
}

impl LineReader {
    ghost use Rattle.session_texts.specs.Reading.{IsReading, Pays, LineEnds};

    /// No line was read yet.
    pub fn new() -> LineReader
        ensures { result ≡ record { line = []; open_ = true } }
    {
        LineReader {
            line: Text::new(),
            open_: true,
        }
    }

    /// The line that was read last, without its LF and a CR before that.
    pub fn line(&self) -> &[u8]
        ensures { result.now ≡ self.now.line }
    {
        self.line.as_slice()
    }

    /// Reads the next line, and pays for it while it is read: a unit with its first byte, and one more as bytes 1024,
    /// 1536 and so on come in.
    pub fn read_line<C: Source>(&mut self, input: &mut C, budget: &mut u64) -> Reading
        ensures reads { IsTrue C.tells
            → IsReading budget.old self.old.open_ (C.left input.old) result budget.new self.new (C.left input.new) }
        ensures pays { Pays budget.old result budget.new }
        ensures cause { result ≡ Reading.Failed → C.fault_count input.new ≡ raised (C.fault_count input.old) }
        ensures quiet { result ≢ Reading.Failed → C.fault_count input.new ≡ C.fault_count input.old }
    {
        if self.open_ {
            self.read_open_line(input, budget)
        } else {
            Reading::End
        }
    }

    /// The same, where the end has not been read.
    fn read_open_line<C: Source>(&mut self, input: &mut C, budget: &mut u64) -> Reading
        requires { self.old.open_ ≡ true }
        ensures reads { IsTrue C.tells
            → IsReading budget.old true (C.left input.old) result budget.new self.new (C.left input.new) }
        ensures pays { Pays budget.old result budget.new }
        ensures cause { result ≡ Reading.Failed → C.fault_count input.new ≡ raised (C.fault_count input.old) }
        ensures quiet { result ≢ Reading.Failed → C.fault_count input.new ≡ C.fault_count input.old }
    {
        self.line.clear();
        // Each unit pays for up to 512 bytes, so that there can be more of them than 64 bits count.
        let _budget = *budget;
        let mut count = 0u128;
        loop {
            let Ok(next) = next_byte(input) else {
                return Reading::Failed;
            };
            let Some(b) = next else {
                self.open_ = false;
                return self.finish(count, false);
            };
            if !pay(budget, count, b) {
                return Reading::Unpaid;
            }
            if b == b'\n' {
                return self.finish(count, true);
            }
            self.line.keep(b);
            count += 1;
        }
    }

    /// Ends a line of that many bytes, or the input where it has none and no LF was read.
    fn finish(&mut self, count: u128, lf: bool) -> Reading
        ensures line { LineEnds count lf self.old.line result self.new.line }
        ensures open_ { self.new.open_ ≡ self.old.open_ }
    {
        if count == 0 && !lf {
            return Reading::End;
        }
        if count > KEPT as u128 {
            return Reading::TooLong;
        }
        if lf {
            drop_cr(&mut self.line);
        }
        if self.line.len() == KEPT {
            Reading::TooLong
        } else {
            Reading::Line
        }
    }
}

/// Drops a CR at the end of a line.
fn drop_cr(line: &mut Text<KEPT>)
    ensures { line.new ≡ without_cr line.old }
{
    let count = line.len();
    if count > 0 && line.as_slice()[count - 1] == b'\r' {
        line.truncate(count - 1);
    }
}

/// Pays for the next byte of a line, where it costs a unit. Answers whether it is paid.
fn pay(budget: &mut u64, count: u128, b: u8) -> bool
    requires { count < 2 ^ 80 }
    ensures paid { result ≡ true → budget.new + byte_cost count b ≡ budget.old }
    ensures unpaid { result ≡ false → (budget.old ≡ 0) × (is_charged count b ≡ true) × (budget.new ≡ budget.old) }
{
    if !is_charged(count, b) {
        return true;
    }
    if *budget == 0 {
        return false;
    }
    *budget -= 1;
    true
}

/// Whether the next byte of a line costs a unit, where that many bytes stand before it.
fn is_charged(count: u128, b: u8) -> bool
    requires { count < 2 ^ 80 }
    ensures { result ≡ is_charged count b }
{
    count == 0 || b != b'\n' && count + 1 >= 1024 && (count + 1) % 512 == 0
}
