/// What the words of the command line choose.
#[derive(Clone, Copy, Debug, PartialEq, Eq)]
pub struct Options {
    /// Whether the prompt is printed before each line.
    pub prompt: bool,
    /// How many instructions a run may execute, from 1 to 2^48.
    pub limit: u64,
    /// The units to pay for lines and actions, from 1 to 2^32.
    pub budget: u64,
    /// Which of the words, counted from 0, names the keys file.
    pub keys: Option<usize>,
    /// The number of the workload that is done in place of a session, from 1 to 65535.
    pub workload: Option<u16>,
    /// Which of the words names the script. Those behind it are its arguments.
    pub script: Option<usize>,
}

/// What the word before asks the next one to be.
#[derive(Clone, Copy, Debug, PartialEq, Eq)]
pub enum Wanted {
    /// An option.
    Option,
    /// The limit of `-l`.
    Limit,
    /// The budget of `-m`.
    Budget,
    /// The file of `-k`.
    Keys,
    /// The number of `-g`.
    Workload,
}

/// What the words up to some place chose.
#[derive(Clone, Copy, Debug, PartialEq, Eq)]
pub struct Choices {
    pub quiet: bool,
    pub limit: Option<u64>,
    pub budget: Option<u64>,
    pub keys: Option<usize>,
    pub workload: Option<u16>,
    pub wanted: Wanted,
}
