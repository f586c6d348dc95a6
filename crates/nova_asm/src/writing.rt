ghost use Rattle.std.specs.Prelude.{◌≡◌, ℕ, ◌+◌, ◌/◌, ◌*◌, ◌^◌, ◌≤◌, ◌<◌, ◌++◌, List, [], ◌∷◌, length, take, IfOk, OnOk, Ok, Err};
ghost use Rattle.nova_word.specs.Quoted.{quoted_read};
ghost use Rattle.nova_asm.specs.Labels.{locations};
ghost use Rattle.nova_asm.specs.Meaning.{made_meant, quoted_bytes};
ghost use Rattle.nova_asm.specs.Source.{Listing, text_words, made_of, line_of, first_reading, second_reading, no_labels, source_lines, listing_of};
ghost use Rattle.nova_asm.specs.Written.{image_with, StandsAt, Wrote, FitsMemory, AnswersImage, AnswersSource, images};

use crate::faults::{AsmFault, LineFault};
use crate::first::first_reading;
use crate::labels::Labels;
use crate::second::{Made, made_of};
use crate::writer::{Assembled, Writer};
use nova_word::{Addr, read_quoted};
use script_text::next_line;
use std::alloc::{AllocError, Global};

/// What comes behind a line that was written.
#[derive(Clone, Copy)]
pub enum Step {
    /// The next line stands there.
    Goes(u16),
    /// The source ends, with that start.
    Stops(Option<Addr>),
    /// The line has a fault.
    Wrong(LineFault),
}

// Adds the words of a text to the present run.
fn push_text(writer: &mut Writer, bytes: &[u8]) -> Result<(), AllocError>
    requires room { writer.old.words + length (text_words bytes.now) < 2 ^ 62 }
    ensures image { OnOk result ((rest : Listing) → image_with writer.new rest ≡
        image_with writer.old (record { words = text_words bytes.now ++ rest.words; runs = rest.runs; start = rest.start })) }
    ensures origin { OnOk result (writer.new.origin ≡ writer.old.origin) }
    ensures run { OnOk result (length writer.new.run.items ≡ length writer.old.run.items + length (text_words bytes.now)) }
    ensures words { OnOk result (writer.new.words ≡ writer.old.words + length (text_words bytes.now)) }
{
    let mut rest = bytes;
    while let [high, low, others @ ..] = rest {
        writer.push(u16::from(*high) * 256 + u16::from(*low))?;
        rest = others;
    }
    let last = if rest.is_empty() {
        0
    } else {
        u16::from(rest[0]) * 256
    };
    writer.push(last)
}

// Adds the words of a quoted text to the present run.
fn push_quoted(writer: &mut Writer, alloc: Global, quoted: &[u8]) -> Result<(), AllocError>
    requires room { writer.old.words + length (text_words (quoted_bytes (quoted_read quoted.now))) < 2 ^ 62 }
    ensures image { OnOk result ((rest : Listing) → image_with writer.new rest ≡
        image_with writer.old (record { words = text_words (quoted_bytes (quoted_read quoted.now)) ++ rest.words; runs = rest.runs; start = rest.start })) }
    ensures origin { OnOk result (writer.new.origin ≡ writer.old.origin) }
    ensures run { OnOk result (length writer.new.run.items
        ≡ length writer.old.run.items + length (text_words (quoted_bytes (quoted_read quoted.now)))) }
    ensures words { OnOk result (writer.new.words ≡ writer.old.words + length (text_words (quoted_bytes (quoted_read quoted.now)))) }
{
    let mut bytes = vec![in alloc; 0; quoted.len()]?;
    let count = match read_quoted(quoted, &mut bytes) {
        Some((count, _)) => count,
        None => 0,
    };
    push_text(writer, &bytes[..count])
}

// Writes what a line makes, which stands at that location.
fn put(writer: &mut Writer, alloc: Global, made: &Made<'_>, at: u16) -> Result<Step, AllocError>
    requires stands { StandsAt at writer.old }
    requires fits { FitsMemory at (made_meant made.now) }
    requires room { writer.old.words < 2 ^ 60 }
    ensures wrote { IfOk result (λ step. Wrote at (made_meant made.now) writer.old writer.new step) }
    ensures words { OnOk result (writer.new.words ≤ writer.old.words + 2 ^ 15) }
{
    match *made {
        Made::Nothing => Ok(Step::Goes(at)),
        Made::Word(w) => {
            writer.push(w)?;
            Ok(Step::Goes(at + 1))
        }
        Made::Text(quoted) => {
            push_quoted(writer, alloc, quoted)?;
            Ok(Step::Goes(writer.place()))
        }
        Made::Begins(n) => {
            writer.begin(n)?;
            Ok(Step::Goes(n))
        }
        Made::Stops(start) => Ok(Step::Stops(start)),
        Made::Wrong(fault) => Ok(Step::Wrong(fault)),
    }
}

// Writes what a line makes, which stands at that location.
fn write_line(
    writer: &mut Writer,
    alloc: Global,
    labels: &Labels,
    text: &[u8],
    at: u16,
) -> Result<Step, AllocError>
    requires stands { StandsAt at writer.old }
    requires fits { FitsMemory at (made_of (locations labels.now) at (line_of text.now)) }
    requires room { writer.old.words < 2 ^ 60 }
    ensures wrote { IfOk result (λ step. Wrote at (made_of (locations labels.now) at (line_of text.now)) writer.old writer.new step) }
    ensures words { OnOk result (writer.new.words ≤ writer.old.words + 2 ^ 15) }
{
    match made_of(labels, alloc, at, text) {
        Ok(made) => put(writer, alloc, &made, at),
        Err(fault) => Err(fault),
    }
}

// The whole tape.
fn finished(writer: Writer, start: Option<Addr>) -> Result<Assembled, AsmFault>
    requires { writer.origin + length writer.run.items ≤ 2 ^ 15 }
    ensures { AnswersImage result (Ok (image_with writer (record { words = []; runs = []; start = start }))) }
{
    match writer.finish(start) {
        Ok(assembled) => Ok(assembled),
        Err(_) => Err(AsmFault::OutOfMemory),
    }
}

// Reads the lines once more, with their labels known, and writes them.
fn second_reading(alloc: Global, labels: &Labels, source: &[u8]) -> Result<Assembled, AsmFault>
    requires small { length source.now ≤ 1048576 }
    requires read { first_reading 1 0 no_labels (source_lines source.now) ≡ Ok (locations labels.now) }
    ensures { AnswersImage result (images (second_reading (locations labels.now) 1 0 (source_lines source.now))) }
{
    let mut writer = Writer::new(alloc);
    let mut number = 0;
    let mut at = 0;
    let mut rest = source;
    while let Some(line) = next_line(rest) {
        number += 1;
        match write_line(&mut writer, alloc, labels, line.text, at) {
            Ok(Step::Goes(next)) => at = next,
            Ok(Step::Stops(start)) => return finished(writer, start),
            Ok(Step::Wrong(fault)) => return Err(fault.at_line(number)),
            Err(_) => return Err(AsmFault::OutOfMemory),
        }
        rest = line.rest;
    }
    finished(writer, None)
}

// Reads the lines twice.
fn assembled(alloc: Global, source: &[u8]) -> Result<Assembled, AsmFault>
    requires { length source.now ≤ 1048576 }
    ensures { AnswersImage result (images (listing_of source.now)) }
{
    let labels = first_reading(alloc, source)?;
    second_reading(alloc, &labels, source)
}

/// Assembles a source of at most 1048576 bytes to a loader tape: its words at their addresses, in the order of the
/// source, in data blocks of at most 16 words, of which each `.LOC` begins a new one, and a start block.
///
/// Its lines are read twice, and the first fault of the first reading that has one is answered, with its line, from 1
/// on. The first reading has `BadLine` where a line has none of the forms, `SameLabel` where its label stands on an
/// earlier line, and `PastMemory` where a word would stand at 32768 or above, in this order; the second one `NoLabel`
/// where a label is missing, and `OutOfReach` where a value is 32768 or above or can't be reached. `OutOfMemory` may
/// come at any line. Nothing is left behind a fault.
pub fn assemble(alloc: Global, source: &[u8]) -> Result<Assembled, AsmFault>
    requires { length source.now ≤ 1048576 }
    // The tape says the stores of the source and its start, or the fault is that of the source.
    ensures source { AnswersSource source.now result }
    // The bytes of the tape are those of the listing.
    ensures bytes { AnswersImage result (images (listing_of source.now)) }
{
    assembled(alloc, source)
}
