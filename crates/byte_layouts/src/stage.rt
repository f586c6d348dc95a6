use crate::fault::FieldFault;

/// How far a reading of pieces is.
#[derive(Clone, Copy)]
pub enum Stage {
    /// There is something to read.
    Open,
    /// All was read.
    AtEnd,
    /// There was a fault.
    Faulty(FieldFault),
}
