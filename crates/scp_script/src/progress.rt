use observations::ExitStatus;
use session_texts::{LineReader, Texts};

/// How a session ended.
#[derive(Clone, Copy, Debug, PartialEq, Eq)]
pub enum Finish {
    /// EXIT, with its status, from 0 to 99; or with 0 the end of all that was to be done, where the input is not read.
    Exit(u8),
    /// The input ended.
    EndOfInput,
    /// The input ended, and what the disk holds could not be written back: no unit has lost its file.
    FlushFailed,
    /// A line or an action was to be paid for, and the budget was spent.
    Commands,
    /// The console failed.
    Console,
    /// The input failed.
    Input,
    /// Memory ran out.
    OutOfMemory,
}

impl Finish {
    ghost use Rattle.std.specs.Prelude.{◌≡◌};
    ghost use Rattle.scp_script.specs.Loop.{status_of, exit_status};

    /// The number of the exit status of the process.
    pub fn status(self) -> u8
        ensures { result ≡ status_of self }
    {
        self.exit_status().number()
    }

    // The exit status of the process.
    fn exit_status(self) -> ExitStatus
        ensures { result ≡ exit_status self }
    {
        match self {
            Finish::Exit(status) => ExitStatus::Exit(status),
            Finish::EndOfInput => ExitStatus::Exit(0),
            Finish::FlushFailed => ExitStatus::FlushFailed,
            Finish::Commands => ExitStatus::Commands,
            Finish::Console => ExitStatus::Console,
            Finish::Input => ExitStatus::Input,
            Finish::OutOfMemory => ExitStatus::OutOfMemory,
        }
    }
}

/// Whether a session goes on behind a text.
#[derive(Clone, Copy, Debug, PartialEq, Eq)]
pub enum Progress {
    GoesOn,
    IsOver(Finish),
}

/// The texts of a session: the actions that wait and the scripts that are open, whether the input is read behind these,
/// the reader of its lines, the units left to pay for texts, and whether a prompt asks for each line of the input.
#[derive(Drop)]
pub struct CommandLoop {
    pub texts: Texts,
    pub reads: bool,
    pub reader: LineReader,
    pub budget: u64,
    pub prompt: bool,
}
