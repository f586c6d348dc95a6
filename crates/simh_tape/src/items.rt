use file_traits::FileCall;

/// What was read at a place of an image. The `place` of an item is the place behind it, in the direction of reading.
#[derive(Clone, Copy, Debug, PartialEq, Eq)]
pub enum Item {
    /// A block: how many data bytes it has, whether it was read with an error when it was recorded, and how many of its
    /// first data bytes were put into the caller's buffer.
    Block {
        length: u32,
        flagged: bool,
        taken: usize,
        place: u64,
    },
    /// A tape mark.
    Mark {
        place: u64,
    },
    /// The end of what was recorded.
    EndOfMedium,
    /// The beginning of the tape.
    LoadPoint,
}

/// Why no item was read.
#[derive(Clone, Copy, Debug, PartialEq, Eq)]
pub enum TapeFault {
    /// What stands at that place is no item. Backwards the place is that of the last word.
    BadImage(u64),
    /// That call failed.
    Failed(FileCall),
}
