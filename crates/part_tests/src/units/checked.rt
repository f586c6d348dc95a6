// What is asserted of rows of tables.
use std::process::Abort;
use unit_trait::Kind;

/// Ends the test where that does not hold of a kind.
pub fn of_kind(rt: &impl Abort, so: bool, kind: Kind) {
    assert!(rt; so, "{kind:?}");
}

/// Ends the test where that does not hold of a register, or of a unit, of a kind.
pub fn of_one(rt: &impl Abort, so: bool, kind: Kind, number: u8) {
    assert!(rt; so, "{kind:?} {number}");
}
