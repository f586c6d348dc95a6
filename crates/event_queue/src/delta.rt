use unit_trait::UnitName;

/// An event as it is kept: its unit, and how many instructions after the event before it that is due; the first one,
/// after so many from now on.
#[derive(Clone, Copy)]
pub struct Delta {
    pub unit: UnitName,
    pub after: u32,
}
