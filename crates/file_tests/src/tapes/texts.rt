// Lines of text: columns with bars between them, and calls with what they answer.
ghost use Rattle.std.specs.Prelude.{◌≤◌};

use crate::texts::number;

/// A call and its answer, as `write@16:de=26`.
#[derive(Clone, Copy)]
pub struct Call<'a> {
    pub word: &'a str,
    pub verb: &'a str,
    pub place: u64,
    pub operand: &'a str,
    pub answer: &'a str,
}

pub fn call_of(word: &str) -> Call
    ensures { result.place ≤ 1000 }
{
    let (call, answer) = word.split_once('=').unwrap_or((word, "no answer"));
    let (verb, rest) = call.split_once('@').unwrap_or((call, ""));
    let (place, operand) = rest.split_once(':').unwrap_or((rest, ""));
    Call {
        word,
        verb,
        place: place_of(place),
        operand,
        answer,
    }
}

/// A place of an image, as these tests have them.
pub fn place_of(digits: &str) -> u64
    ensures { result ≤ 1000 }
{
    number(digits).unwrap_or(0).min(1000)
}

/// The columns of a line; those that it has not are empty.
#[derive(Clone, Copy)]
pub struct Columns<'a> {
    pub first: &'a str,
    pub second: &'a str,
    pub third: &'a str,
}

pub fn columns_of(line: &str) -> Columns {
    let (first, rest) = line.split_once("| ").unwrap_or((line, ""));
    let (second, third) = rest.split_once("| ").unwrap_or((rest, ""));
    Columns {
        first,
        second,
        third,
    }
}
