/// The processor, the interrupts and the clock of a session.
#[derive(Drop)]
pub struct SavedCpu {
    /// The size of memory in units of 1024 words: 4, 8 and so on up to 32.
    pub size_k: u8,
    pub acs: [u16; 4],
    pub carry: u8,
    pub pc: u16,
    /// Whether interrupts are on: 0 or 1.
    pub on: u8,
    /// Whether interrupts wait for one more instruction: 0 or 1.
    pub hold: u8,
    /// The interrupt mask word.
    pub mask: u16,
    /// The switch register.
    pub sr: u16,
    /// Whether a word to a device that is not there stops the machine: 0 or 1.
    pub stop_dev: u8,
    /// Whether bit 0 of an auto-index word is tested before the word is changed: 0 or 1.
    pub autobit: u8,
    /// How many instructions were executed.
    pub time: u64,
    /// How many timed keys were taken.
    pub keys_taken: u64,
}

/// The registers of a unit, which is named by its position in bus order, from 0.
#[derive(Drop)]
pub struct SavedUnit {
    pub position: u8,
    pub registers: Vec<u32>,
}

/// An event that waits: its unit, and the instructions that remain to it.
#[derive(Clone, Copy, Debug, PartialEq)]
pub struct SavedEvent {
    pub position: u8,
    pub unit: u8,
    pub remaining: u32,
}

/// A file that is attached to a unit: its name, its length in bytes and the digest of its bytes.
#[derive(Drop)]
pub struct SavedFile {
    pub position: u8,
    pub unit: u8,
    /// Whether it is only read: 0 or 1.
    pub read_only: u8,
    pub name: String,
    pub length: u64,
    /// The SHA-256 of its bytes.
    pub digest: [u8; 32],
}

/// A break: its address, how many more times it is met before it stops, and the actions of its stop.
#[derive(Drop)]
pub struct SavedBreak {
    pub address: u16,
    pub count: u32,
    pub actions: Vec<u8>,
}

/// A text that is waited for: how many more times, the text, and the actions of its stop.
#[derive(Drop)]
pub struct SavedExpect {
    pub count: u32,
    pub text: Vec<u8>,
    pub actions: Vec<u8>,
}

/// A byte that is sent to the keyboard at a time.
#[derive(Clone, Copy, Debug, PartialEq)]
pub struct SavedSend {
    pub time: u64,
    pub byte: u8,
}

/// The ports of the terminal lines, where 0 is none: that of the second teletype, the first of those of the
/// multiplexer's 64 lines, which rise by one, and that of the console.
#[derive(Clone, Copy, Debug, PartialEq)]
pub struct SavedPorts {
    pub tti1: u16,
    pub qty: u16,
    pub console: u16,
}

/// A session as a state file has it.
#[derive(Drop)]
pub struct Saved {
    pub cpu: SavedCpu,
    /// The words of memory, as many as its size says.
    pub words: Vec<u16>,
    /// All units, in bus order.
    pub units: Vec<SavedUnit>,
    /// The events, the next one first.
    pub agenda: Vec<SavedEvent>,
    /// The attached files, in bus order, drives by their numbers.
    pub attachments: Vec<SavedFile>,
    pub ports: SavedPorts,
    /// The breaks, by rising addresses.
    pub breaks: Vec<SavedBreak>,
    /// The texts that are waited for, in the order in which they were added.
    pub expects: Vec<SavedExpect>,
    /// The last bytes that were printed.
    pub tail: Vec<u8>,
    /// The bytes that wait to be sent, the next one first.
    pub sends: Vec<SavedSend>,
}
