ghost use Rattle.std.specs.Prelude.{◌≡◌};
ghost use Rattle.observations.specs.Status.{number_of};

/// How a session is over, as the exit status of its process says.
#[derive(Clone, Copy, Debug, PartialEq, Eq)]
pub enum ExitStatus {
    /// EXIT was done with that status, from 0 to 99; or with 0 the input has ended, or all was done that was to be
    /// done.
    Exit(u8),
    /// The words of the command line are outside their grammar.
    Usage,
    /// The keys file or the script could not be read.
    Unopened,
    /// The console failed.
    Console,
    /// Memory ran out.
    OutOfMemory,
    /// A text was due for which no unit of the budget was left.
    Commands,
    /// The keys file has a faulty line.
    BadKeys,
    /// The input failed.
    Input,
    /// The input has ended, and what the disk holds could not be written back.
    FlushFailed,
}

impl ExitStatus {
    /// Its number, from 0 to 107.
    pub fn number(self) -> u8
        ensures { result ≡ number_of self }
    {
        match self {
            ExitStatus::Exit(status) => status,
            ExitStatus::Usage => 100,
            ExitStatus::Unopened => 101,
            ExitStatus::Console => 102,
            ExitStatus::OutOfMemory => 103,
            ExitStatus::Commands => 104,
            ExitStatus::BadKeys => 105,
            ExitStatus::Input => 106,
            ExitStatus::FlushFailed => 107,
        }
    }
}
