ghost use Rattle.std.specs.Prelude.{◌≡◌, IsTrue, option_map};
ghost use Rattle.fault_counts.specs.Faults.{CountsFault};
ghost use Rattle.file_traits.specs.Streams.{Puts};
ghost use Rattle.command_session.specs.declared.fault.CommandFault.TheVariants.{Parse};
ghost use Rattle.command_session.specs.FaultText.{attach_fault, detach_fault, whole_fault, tape_fault, add_fault};
ghost use Rattle.command_session.specs.FaultText.{unit_or_nothing};
ghost use Rattle.command_session.specs.FaultText.{parse_words, parse_detail, fault_words, fault_detail, words_line, fault_text};

use crate::unit_names::unit_name;
use binary_load::LoadFault;
use expect_actions::AddFault;
use file_commands::Subject;
use file_traits::{Failed, Sink, put_pieces};
use itoa::Buffer;
use line_text::Text;
use scp_parser::ParseFault;
use unit_files::{AttachFault, DetachFault};
use unit_trait::{UnitName, units_of};
use whole_files::WholeFault;

/// Why a command was not done. Nothing has changed then, but for what the commands' own pages say.
#[derive(Clone, Copy, PartialEq)]
pub enum CommandFault {
    /// The line is no command.
    Parse(ParseFault),
    /// A name names nothing, or a unit or device that the machine lacks.
    NoSuchName,
    /// A number is outside its range.
    OutOfRange,
    /// The register is read only.
    ReadOnlyName,
    /// The unit has a file.
    AlreadyAttached,
    /// The unit has no file.
    NotAttached,
    /// The unit only writes, and was to be attached to be read only.
    ReadOnly,
    /// There is no file of that name.
    NoFile,
    /// The file is longer than is taken.
    FileTooLong,
    /// A call on a file failed; it may have been emptied or made before. A note says which call it was.
    FileFailed(Subject),
    /// Another line has the port.
    PortTaken,
    /// The port is not listened on: the host refused it, as where another program has it.
    PortFailed,
    /// There is no room for another break or expect, or for all bytes of a SEND.
    Full,
    /// The condition of an ASSERT is false.
    AssertFailed,
    /// As many scripts are open as can be: ten.
    TooDeep,
    /// The innermost script has no such label.
    NoLabel,
    /// No script is open.
    NotInDo,
    /// The file is no state file.
    NotState,
    /// The state file is of another version of the format.
    Version(u16),
    /// The digest at the end of the state file is not that of the bytes before it.
    BadDigest { kept: [u8; 32], found: [u8; 32] },
    /// A field of the state file has a value that it cannot have, or a byte stands behind its end. The place is the
    /// field's first byte, from 0.
    BadField(usize),
    /// The state file ends before a field does.
    Truncated,
    /// The state file has a unit that the machine lacks.
    MissingUnit,
    /// The file of a unit is not as it was when the session was saved: it has another length, or another digest.
    Changed(UnitName),
    /// A loader tape ends within a block. The place is its end, in bytes.
    LoadTruncated(usize),
    /// The words of a block of a loader tape do not add up to 0. The place is that of the block, in bytes from 0.
    LoadSum(usize),
    /// A block of a loader tape has an address at which there is no memory. The number is its origin.
    PastMemory(u16),
    /// The console refused a byte, which ends the session. It has no text.
    Console,
    /// Memory ran out, which ends the session. It has no text.
    OutOfMemory,
}

/// What stands behind the words of a fault.
#[derive(Clone, Copy)]
pub(crate) enum Detail {
    Nothing,
    /// A place, in bytes from 0.
    Place(usize),
    Address(u16),
    /// A version, with the words behind it.
    Version(u16),
    Unit(UnitName),
}

impl CommandFault {
    /// The fault of a line that is no command.
    pub fn of_line(fault: ParseFault) -> CommandFault
        ensures { result ≡ Parse fault }
    {
        CommandFault::Parse(fault)
    }

    /// The fault of a file that was not attached.
    pub fn of_attach(fault: AttachFault) -> CommandFault
        ensures { result ≡ attach_fault fault }
    {
        match fault {
            AttachFault::AlreadyAttached => CommandFault::AlreadyAttached,
            AttachFault::ReadOnly => CommandFault::ReadOnly,
            AttachFault::NoFile => CommandFault::NoFile,
            AttachFault::TooLong => CommandFault::FileTooLong,
            AttachFault::Failed(fault) => CommandFault::FileFailed(Subject::Unit(fault.unit)),
            AttachFault::OutOfMemory => CommandFault::OutOfMemory,
        }
    }

    /// The fault of a unit that was not detached.
    pub fn of_detach(fault: DetachFault) -> CommandFault
        ensures { result ≡ detach_fault fault }
    {
        match fault {
            DetachFault::NotAttached => CommandFault::NotAttached,
            DetachFault::Failed(fault) => CommandFault::FileFailed(Subject::Unit(fault.unit)),
        }
    }

    /// The fault of a file that was not read or written whole.
    pub fn of_whole(who: Subject, fault: WholeFault) -> CommandFault
        ensures { result ≡ whole_fault who fault }
    {
        match fault {
            WholeFault::NoFile => CommandFault::NoFile,
            WholeFault::TooLong => CommandFault::FileTooLong,
            WholeFault::Failed => CommandFault::FileFailed(who),
            WholeFault::OutOfMemory => CommandFault::OutOfMemory,
        }
    }

    /// The fault of a loader tape.
    pub fn of_tape(fault: LoadFault) -> CommandFault
        ensures { result ≡ tape_fault fault }
    {
        match fault {
            LoadFault::Truncated(place) => CommandFault::LoadTruncated(place),
            LoadFault::BadSum(place) => CommandFault::LoadSum(place),
            LoadFault::PastMemory(origin) => CommandFault::PastMemory(origin),
        }
    }

    /// The fault of a break or an expect that was not added.
    pub fn of_add(fault: AddFault) -> CommandFault
        ensures { result ≡ add_fault fault }
    {
        match fault {
            AddFault::Full => CommandFault::Full,
            AddFault::OutOfMemory => CommandFault::OutOfMemory,
        }
    }

    // The words of the fault; none for those that end the session.
    fn words(self) -> Option<&'static [u8]>
        ensures { option_map (λ words. words.now) result ≡ fault_words self }
    {
        let words: &'static [u8] = match self {
            CommandFault::Parse(fault) => parse_words(fault),
            CommandFault::NoSuchName => b"No such name",
            CommandFault::OutOfRange => b"Value out of range",
            CommandFault::ReadOnlyName => b"Read only name",
            CommandFault::AlreadyAttached => b"Unit already attached",
            CommandFault::NotAttached => b"Unit not attached",
            CommandFault::ReadOnly => b"Read only not allowed",
            CommandFault::NoFile => b"File not found",
            CommandFault::FileTooLong => b"File too long",
            CommandFault::FileFailed(_) => b"File error",
            CommandFault::PortTaken => b"Port already in use",
            CommandFault::PortFailed => b"Port not available",
            CommandFault::Full => b"Table full",
            CommandFault::AssertFailed => b"Assertion failed",
            CommandFault::TooDeep => b"DO nested too deeply",
            CommandFault::NoLabel => b"Label not found",
            CommandFault::NotInDo => b"Not in a DO file",
            CommandFault::NotState => b"Not a state file",
            CommandFault::Version(_) => b"State version ",
            CommandFault::BadDigest { .. } => b"State digest mismatch",
            CommandFault::BadField(_) => b"State field invalid at ",
            CommandFault::Truncated => b"State file truncated",
            CommandFault::MissingUnit => b"State has a unit that is missing",
            CommandFault::Changed(_) => b"Attached file changed: ",
            CommandFault::LoadTruncated(_) => b"Load file truncated at ",
            CommandFault::LoadSum(_) => b"Load checksum error at ",
            CommandFault::PastMemory(_) => b"Load origin past memory: ",
            CommandFault::Console | CommandFault::OutOfMemory => return None,
        };
        Some(words)
    }

    // What stands behind its words.
    fn detail(self) -> Detail
        ensures { result ≡ fault_detail self }
    {
        match self {
            CommandFault::Parse(fault) => parse_detail(fault),
            CommandFault::BadField(place)
            | CommandFault::LoadTruncated(place)
            | CommandFault::LoadSum(place) => Detail::Place(place),
            CommandFault::Version(version) => Detail::Version(version),
            CommandFault::Changed(unit) => Detail::Unit(unit),
            CommandFault::PastMemory(origin) => Detail::Address(origin),
            _ => Detail::Nothing,
        }
    }

    /// Prints the text of the fault, a line; nothing for `Console` and `OutOfMemory`.
    pub fn put_text<S: Sink>(self, out: &mut S) -> Result<(), Failed>
        ensures told { IsTrue S.tells → Puts (S.written out.old) (fault_text self) result (S.written out.new) }
        ensures counts { CountsFault (S.fault_count out.old) (S.fault_count out.new) result }
    {
        match self.words() {
            None => Ok(()),
            Some(words) => put_words(words, self.detail(), out),
        }
    }
}

// The words of the fault of a line that is no command.
fn parse_words(fault: ParseFault) -> &'static [u8]
    ensures { result.now ≡ parse_words fault }
{
    match fault {
        ParseFault::Unknown => b"Unknown command",
        ParseFault::Missing => b"Too few arguments",
        ParseFault::TooLong => b"Line too long",
        ParseFault::BadNumber(_) => b"Invalid number at ",
        ParseFault::BadName(_) => b"Invalid name at ",
        ParseFault::BadSymbol(_) => b"Invalid instruction at ",
        ParseFault::Extra(_) => b"Too many arguments at ",
    }
}

// The place of such a fault, if it has one.
fn parse_detail(fault: ParseFault) -> Detail
    ensures { result ≡ parse_detail fault }
{
    match fault {
        ParseFault::BadNumber(place)
        | ParseFault::BadName(place)
        | ParseFault::BadSymbol(place)
        | ParseFault::Extra(place) => Detail::Place(place),
        _ => Detail::Nothing,
    }
}

// Prints words and what stands behind them, as a line.
fn put_words<S: Sink>(words: &[u8], detail: Detail, out: &mut S) -> Result<(), Failed>
    ensures told { IsTrue S.tells → Puts (S.written out.old) (words_line words.now detail) result (S.written out.new) }
    ensures counts { CountsFault (S.fault_count out.old) (S.fault_count out.new) result }
{
    match detail {
        Detail::Nothing => put_pieces(out, &[words, b"\n"]),
        Detail::Place(place) => {
            let mut buffer = Buffer::new();
            put_pieces(out, &[words, buffer.format(place).as_bytes(), b"\n"])
        }
        Detail::Address(address) => {
            let mut digits = Text::<12>::new();
            digits.push_octal(u32::from(address), 6);
            put_pieces(out, &[words, digits.as_slice(), b"\n"])
        }
        Detail::Version(version) => {
            let mut buffer = Buffer::new();
            put_pieces(
                out,
                &[
                    words,
                    buffer.format(version).as_bytes(),
                    b" not supported\n",
                ],
            )
        }
        Detail::Unit(unit) => {
            let name = unit_or_nothing(unit);
            put_pieces(out, &[words, name.as_slice(), b"\n"])
        }
    }
}

// The name of a unit; nothing for a number that its kind has not.
fn unit_or_nothing(unit: UnitName) -> Text<8>
    ensures { result ≡ unit_or_nothing unit }
{
    if unit.unit < units_of(unit.kind) {
        unit_name(unit)
    } else {
        Text::new()
    }
}
