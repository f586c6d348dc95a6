// The labels of a script.
use crate::checked::holds;
use script_text::{find_label, is_label_line};

/// A script, a label, and the place of its line.
const LABELS: [(&str, &str, Option<usize>); 14] = [
    (":loop\nE 0\n", "loop", Some(0)),
    ("E 0\n:loop\nGOTO loop\n", "loop", Some(4)),
    ("E 0\r\n:loop\r\n", "loop", Some(5)),
    ("E 0\n:end", "end", Some(4)),
    (":end\r", "end", None),
    (":end\r", "end\r", Some(0)),
    (":a\nE 0\n:b\n:a\n", "a", Some(0)),
    ("\n:x\nE 0\n:x\n", "x", Some(1)),
    (":loop \n", "loop", None),
    (":loop \n", "loop ", Some(0)),
    (":Loop\n:loopy\n:loo\n", "loop", None),
    ("E 0 :loop\n :loop\n", "loop", None),
    ("\n:\n", "", Some(1)),
    ("", "", None),
];

#[test]
fn a_label_is_found_where_its_first_line_begins(rt: HostRuntime) {
    for row in LABELS.iter() {
        let place = find_label(row.0.as_bytes(), row.1.as_bytes());
        holds(&rt, place == row.2, row.0);
    }
}

const LABEL_LINES: [(&str, bool); 5] = [
    (":loop", true),
    (":", true),
    ("", false),
    (" :loop", false),
    ("E 0", false),
];

#[test]
fn labels_begin_with_a_colon(rt: HostRuntime) {
    for row in LABEL_LINES.iter() {
        holds(&rt, is_label_line(row.0.as_bytes()) == row.1, row.0);
    }
}
