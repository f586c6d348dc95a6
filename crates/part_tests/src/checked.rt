use std::process::Abort;

/// Ends the test where that does not hold of a line.
pub fn holds(rt: &impl Abort, so: bool, line: &str) {
    assert!(rt; so, "{line}");
}
