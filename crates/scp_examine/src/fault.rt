/// Why a list is neither shown nor changed.
#[derive(Clone, Copy, Debug, PartialEq, Eq)]
pub enum ExamineFault {
    /// An item names no register, or an address where a device is named; so does every name of a device that the
    /// machine does not have.
    NoSuchName,
    /// An address is not below the size of memory, a range is empty, or a value is above the largest of its place or
    /// below its least. So is a condition's mask or value above the largest of what it is compared with.
    OutOfRange,
    /// The register is read only.
    ReadOnlyName,
    /// The console refused a byte. What was printed before it stays.
    Console,
}
