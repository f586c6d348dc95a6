/// Why a line is no command. A place is counted in bytes from 0, and is that of the word at fault.
#[derive(Clone, Copy, Debug, PartialEq, Eq)]
pub enum ParseFault {
    /// The first word names no command.
    Unknown,
    /// The line ends before an operand that must be there.
    Missing,
    /// The word is not in the form of its operand, and begins with a digit or stands where only a number may stand.
    BadNumber(usize),
    /// Any other word is not in the form of its operand.
    BadName(usize),
    /// The symbolic text that begins there is no text of a word.
    BadSymbol(usize),
    /// A word stands behind the last operand.
    Extra(usize),
    /// The line is longer than 512 bytes.
    TooLong,
}
