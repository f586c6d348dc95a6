/// The function of a word of input and output, but for a skip.
#[derive(Clone, Copy, Debug, PartialEq, Eq)]
pub enum IoOp {
    /// No function: the pulse alone.
    Nio,
    /// Input from register A, B or C.
    Dia,
    /// Output to register A, B or C.
    Doa,
    Dib,
    Dob,
    Dic,
    Doc,
}

/// The pulse of a word of input and output, which comes behind its function.
#[derive(Clone, Copy, Debug, PartialEq, Eq)]
pub enum Pulse {
    None,
    /// S, which starts the device.
    Start,
    /// C, which clears it.
    Clear,
    /// P, which each device takes in its own way.
    Pulse,
}

/// What a device wishes of the event queue.
#[derive(Clone, Copy, Debug, PartialEq, Eq)]
pub enum Queue {
    /// Nothing.
    Keep,
    /// No event of any of its units.
    Cancel,
    /// An event of one of its units after so many instructions, at least one, where that unit has none.
    After(u32),
}

/// What a device says to a word of input or output.
#[derive(Clone, Copy, Debug, PartialEq, Eq)]
pub struct IoAnswer {
    /// What an input puts into the accumulator.
    pub word: u16,
    pub queue: Queue,
    /// The number of the unit that the wish is for.
    pub unit: u8,
}

/// A tape operation: its command, the place where the tape stands, in bytes, the address of its first word in memory,
/// and how many words or blocks it takes at the most.
#[derive(Clone, Copy, Debug, PartialEq, Eq)]
pub struct TapeOrder {
    pub command: u8,
    pub place: u64,
    pub address: u16,
    pub count: u16,
}

/// What a unit wants of the machine where its event is due.
#[derive(Clone, Copy, Debug, PartialEq, Eq)]
pub enum Want {
    Nothing,
    /// A key of the console.
    Key,
    /// A key of that line.
    LineKey(u8),
    /// A byte is to be printed on the console.
    Console(u8),
    /// A byte is to be sent on a line.
    LinePut {
        line: u8,
        byte: u8,
    },
    /// The byte at that place of its file.
    ReadByte {
        place: u64,
    },
    /// A byte is to be written at that place of its file.
    WriteByte {
        place: u64,
        byte: u8,
    },
    /// A sector is to be moved between its file and memory, from that address on.
    Sector {
        write: bool,
        sector: u16,
        address: u16,
    },
    Tape(TapeOrder),
}

/// Where a tape operation ended.
#[derive(Clone, Copy, Debug, PartialEq, Eq)]
pub enum TapeEnd {
    /// Behind what was asked for.
    Plain,
    /// At a tape mark.
    Mark,
    /// At the end of the medium.
    Medium,
    /// At the load point.
    LoadPoint,
}

/// What a tape operation came to: where it ended, the place of the tape then, how many words were moved and blocks
/// passed, and whether the block had an odd length, an error flag, or more than was asked for.
#[derive(Clone, Copy, Debug, PartialEq, Eq)]
pub struct TapeGot {
    pub end: TapeEnd,
    pub place: u64,
    pub words: u16,
    pub passed: u16,
    pub odd: bool,
    pub flagged: bool,
    pub lost: bool,
}

/// The machine's answer to what a unit wanted.
#[derive(Clone, Copy, Debug, PartialEq, Eq)]
pub enum Got {
    Done,
    Key(u8),
    NoKey,
    Byte(u8),
    /// The place is at the end of the file.
    End,
    /// No file is attached.
    NoFile,
    /// The file is read only.
    ReadOnly,
    /// The line takes no more for now.
    LineFull,
    Tape(TapeGot),
}

/// Whether a unit stops the machine, and why.
#[derive(Clone, Copy, Debug, PartialEq, Eq)]
pub enum UnitStop {
    Go,
    /// Its file is at its end.
    End,
    /// It has no file.
    NoFile,
}

/// What a device says to the machine's answer.
#[derive(Clone, Copy, Debug, PartialEq, Eq)]
pub struct After {
    /// Its wish to the event queue, for the unit that got the answer.
    pub queue: Queue,
    pub stop: UnitStop,
}
