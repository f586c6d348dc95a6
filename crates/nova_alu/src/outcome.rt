use nova_word::Word;

/// What an arithmetic or logical instruction leaves.
#[derive(Clone, Copy, Debug, PartialEq, Eq)]
pub struct Arith {
    /// AC0 to AC3.
    pub acs: [Word; 4],
    /// Carry.
    pub carry: bool,
    /// Whether the next instruction is skipped.
    pub skip: bool,
}
