/// Why a text is the symbolic text of no word: its leftmost fault. Places are counted in bytes from 0.
#[derive(Clone, Copy, Debug, PartialEq, Eq)]
pub enum SymbolFault {
    /// The first word is no name with its letters.
    UnknownName,
    /// The operand that stands here, or is missing here, does not fit.
    BadField(usize),
    /// The number that stands here is too large for its field.
    OutOfRange(usize),
    /// Here text goes on after the last operand.
    Extra(usize),
}
