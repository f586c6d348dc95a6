// The lines of a script, and what a line costs.
use crate::checked::holds;
use script_text::{line_cost, next_line};

/// A script, its first line, how many bytes that has in the script, and what follows.
const LINES: [(&str, &str, usize, &str); 10] = [
    ("E 0\nD 0 1\n", "E 0", 3, "D 0 1\n"),
    ("E 0\r\nD", "E 0", 4, "D"),
    ("E 0", "E 0", 3, ""),
    ("E 0\r", "E 0\r", 4, ""),
    ("\n\nE", "", 0, "\nE"),
    ("\n", "", 0, ""),
    ("\r\n", "", 1, ""),
    ("\r\r\n", "\r", 2, ""),
    ("a\rb\nc", "a\rb", 3, "c"),
    ("\r", "\r", 1, ""),
];

fn begins(script: &[u8], text: &[u8], bytes: usize, rest: &[u8]) -> bool {
    match next_line(script) {
        Some(line) => line.text == text && line.bytes == bytes && line.rest == rest,
        None => false,
    }
}

#[test]
fn lines_end_at_line_feeds(rt: HostRuntime) {
    for row in LINES.iter() {
        let so = begins(row.0.as_bytes(), row.1.as_bytes(), row.2, row.3.as_bytes());
        holds(&rt, so, row.0);
    }
    holds(&rt, next_line(b"").is_none(), "no byte is left");
}

/// A script, and how many lines it has.
const COUNTS: [(&str, u8); 5] = [
    ("", 0),
    ("a", 1),
    ("a\n", 1),
    ("a\n\nb", 3),
    ("a\n\nb\n\n", 4),
];

/// How many lines a script has, of which ten are counted at the most.
fn count(script: &[u8]) -> u8 {
    let mut lines = 0u8;
    let mut rest = script;
    for _ in 0..10 {
        if let Some(line) = next_line(rest) {
            lines = lines.saturating_add(1);
            rest = line.rest;
        }
    }
    lines
}

#[test]
fn a_script_ends_behind_its_last_line(rt: HostRuntime) {
    for row in COUNTS.iter() {
        holds(&rt, count(row.0.as_bytes()) == row.1, row.0);
    }
}

/// How many bytes a line has, and what it costs.
const COSTS: [(usize, u64); 8] = [
    (0, 1),
    (1, 1),
    (512, 1),
    (1023, 1),
    (1024, 2),
    (1535, 2),
    (1536, 3),
    (51200, 100),
];

fn all_cost() -> bool {
    for row in COSTS.iter() {
        if line_cost(row.0) != row.1 {
            return false;
        }
    }
    true
}

#[test]
fn long_lines_cost_more(rt: HostRuntime) {
    holds(&rt, all_cost(), "the cost of a line");
}
