// Lines of a script with their arguments filled in.
use crate::checked::holds;
use script_text::{Arguments, filled};
use std::alloc::{AllocError, Global};
use std::test::Fail;

/// A line, and what it is where the name is `go.cmd` and the arguments are `100`, `2` and `a%1`.
const FILLED: [(&str, &str); 17] = [
    ("", ""),
    ("E 0-7", "E 0-7"),
    ("%1-%2", "100-2"),
    ("E %1", "E 100"),
    ("%%1", "%1"),
    ("%%%1", "%100"),
    ("%10", "1000"),
    ("% 1", "% 1"),
    ("D 0 %", "D 0 %"),
    ("%%", "%"),
    ("%%%", "%%"),
    ("%0 %1", "go.cmd 100"),
    ("<%4%9>", "<>"),
    ("%a%1", "%a100"),
    ("%/%:", "%/%:"),
    // what is filled in is not looked at again
    ("%3", "a%1"),
    (":%1", ":100"),
];

fn becomes(line: &[u8], arguments: &Arguments, wanted: &[u8]) -> bool {
    match filled(line, arguments) {
        Some(text) => text.as_slice() == wanted,
        None => false,
    }
}

#[test]
fn arguments_are_filled_in(rt: HostRuntime) -> Result<(), Fail> {
    let arguments = Arguments::from_text(rt.alloc(), b"go.cmd", b" 100\t2  a%1 ")?;
    for row in FILLED.iter() {
        let so = becomes(row.0.as_bytes(), &arguments, row.1.as_bytes());
        holds(&rt, so, row.0);
    }
    Ok(())
}

/// How many letters a line has, what stands behind them, and how many bytes it has once it is filled in, where that is
/// not too long. `%1` stands for three bytes, `%%` for one, and `%2` for none.
const LENGTHS: [(usize, &str, Option<usize>); 6] = [
    (0, "%1", Some(3)),
    (508, "%1", Some(511)),
    (509, "%1", Some(512)),
    (510, "%1", None),
    (600, "%1", None),
    (511, "%%%2", Some(512)),
];

fn filled_length(line: &[u8], arguments: &Arguments) -> Option<usize> {
    match filled(line, arguments) {
        Some(text) => Some(text.len()),
        None => None,
    }
}

fn has_length(
    alloc: Global,
    arguments: &Arguments,
    row: &(usize, &str, Option<usize>),
) -> Result<bool, AllocError> {
    let mut line = vec![in alloc; b'a'; row.0]?;
    line.extend_from_slice(row.1.as_bytes())?;
    Ok(filled_length(line.as_slice(), arguments) == row.2)
}

#[test]
fn a_line_may_have_512_bytes(rt: HostRuntime) -> Result<(), Fail> {
    let arguments = Arguments::from_text(rt.alloc(), b"go", b"100")?;
    for row in LENGTHS.iter() {
        let so = has_length(rt.alloc(), &arguments, row)?;
        holds(&rt, so, "letters and an argument behind them");
    }
    Ok(())
}
