ghost use Rattle.std.specs.Prelude.{◌≡◌, take, map};
ghost use Rattle.line_text.specs.Words.{is_spelled};
ghost use Rattle.scp_parser.specs.Names.{row, abbreviates, command_in, command_named, alone_verb};

use crate::command::Verb;
use line_text::is_spelled;

/// The commands that stand alone: nothing follows their names.
#[derive(Clone, Copy, Debug, PartialEq, Eq)]
pub enum AloneName {
    Cont,
    Reset,
    NoExpect,
    NoSend,
}

/// The commands. Some have several names.
#[derive(Clone, Copy, Debug, PartialEq, Eq)]
pub enum CommandName {
    Alone(AloneName),
    Examine,
    Deposit,
    Run,
    Go,
    Step,
    Break,
    NoBreak,
    Expect,
    Send,
    Attach,
    Detach,
    Load,
    Save,
    Dump,
    Restore,
    Set,
    Show,
    Do,
    Goto,
    Assert,
    Echo,
    Exit,
}

// The names of the commands, with how many letters an abbreviation has at least.
const COMMAND_ROWS: [(&str, usize, CommandName); 28] = [
    ("EXAMINE", 1, CommandName::Examine),
    ("DEPOSIT", 1, CommandName::Deposit),
    ("RUN", 2, CommandName::Run),
    ("GO", 1, CommandName::Go),
    ("CONT", 1, CommandName::Alone(AloneName::Cont)),
    ("RESET", 4, CommandName::Alone(AloneName::Reset)),
    ("NOEXPECT", 3, CommandName::Alone(AloneName::NoExpect)),
    ("NOSEND", 3, CommandName::Alone(AloneName::NoSend)),
    ("STEP", 1, CommandName::Step),
    ("BREAK", 1, CommandName::Break),
    ("NOBREAK", 3, CommandName::NoBreak),
    ("EXPECT", 3, CommandName::Expect),
    ("SEND", 3, CommandName::Send),
    ("ATTACH", 2, CommandName::Attach),
    ("DETACH", 3, CommandName::Detach),
    ("LOAD", 1, CommandName::Load),
    ("SAVE", 2, CommandName::Save),
    ("DUMP", 2, CommandName::Dump),
    ("RESTORE", 4, CommandName::Restore),
    ("SET", 3, CommandName::Set),
    ("SHOW", 2, CommandName::Show),
    ("DO", 2, CommandName::Do),
    ("GOTO", 3, CommandName::Goto),
    ("ASSERT", 2, CommandName::Assert),
    ("ECHO", 2, CommandName::Echo),
    ("EXIT", 3, CommandName::Exit),
    ("QUIT", 1, CommandName::Exit),
    ("BYE", 2, CommandName::Exit),
];

/// The command that a word names, by its name or by an abbreviation of it in either case.
#[tactic(auto, unfolding(crate::specs::Names::command_named))]
pub fn command_named(word: &[u8]) -> Option<CommandName>
    ensures { result ≡ command_named word.now }
{
    command_in(&COMMAND_ROWS, word)
}

// What a command that stands alone asks for.
pub(crate) fn alone_verb(which: AloneName) -> Verb
    ensures { result ≡ alone_verb which }
{
    match which {
        AloneName::Cont => Verb::Cont,
        AloneName::Reset => Verb::Reset,
        AloneName::NoExpect => Verb::NoExpect,
        AloneName::NoSend => Verb::NoSend,
    }
}

// The command of the first row whose name a word is.
fn command_in(rows: &[(&'static str, usize, CommandName)], word: &[u8]) -> Option<CommandName>
    ensures { result ≡ command_in (map (λ r. row r.0.now r.1 r.2) rows.now) word.now }
{
    for row in rows {
        if abbreviates(word, row.0, row.1) {
            return Some(row.2);
        }
    }
    None
}

// Whether a word is a name or an abbreviation of it that has letters enough.
fn abbreviates(word: &[u8], name: &str, letters: usize) -> bool
    ensures { result ≡ abbreviates word.now name.now letters }
{
    letters <= word.len() && is_spelled(word, first_bytes(name.as_bytes(), word.len()))
}

// The first bytes of a text, or all where it has fewer.
fn first_bytes(text: &[u8], count: usize) -> &[u8]
    ensures { result.now ≡ take count text.now }
{
    &text[..count.min(text.len())]
}
