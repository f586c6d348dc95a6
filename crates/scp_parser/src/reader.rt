ghost use Rattle.std.specs.Prelude.{◌≡◌, ◌↔◌, ◌⊎◌, ◌≤◌, List, ℕ, length, Result, Ok, Err, IsOk, OnErr, IfOk};
ghost use Rattle.scp_parser.specs.Command.{Request, Keeps};
ghost use Rattle.scp_parser.specs.Faults.{Faults, placed};
ghost use Rattle.scp_parser.specs.Grammar.{Parses};
ghost use Rattle.scp_parser.specs.Laws.{RequestsAreKept};
ghost use Rattle.scp_parser.specs.Reading.{operands, examine, deposit, show, asks_nothing, named, verb_of};
ghost use Rattle.scp_parser.specs.Reading.{reading};
ghost use Rattle.scp_parser.specs.Views.{run, go, step, exit};
ghost use Rattle.scp_parser.specs.declared.fault.ParseFault.{ParseFault};

use crate::attachment::{attach, detach};
use crate::command::{Command, LONGEST_LINE, Verb};
use crate::fault::ParseFault;
use crate::media::{dump, load, restore, save};
use crate::names::{CommandName, alone_verb, command_named};
use crate::operands::{
    ended, instruction, last_decimal, last_octal, listing, needed_octal, needed_subject, next_word,
};
use crate::script_commands::{assert, do_file, echo, goto};
use crate::settings::set;
use crate::watches::{break_at, expect, no_break, send};
use line_text::past_blanks;

/// Reads a line as a command.
///
/// Names are read in either case, and may be abbreviated; blanks (spaces and tabs) stand between words. Addresses and
/// values are octal, counts and statuses decimal. A fault leaves `into` as it was.
pub fn read_command(line: &[u8], into: &mut Command) -> Result<(), ParseFault>
    // A command exactly where the line is that command.
    ensures command { (c : Request) → (IsOk result × (into.new ≡ c)) ↔ Parses line.now c }
    // A fault exactly where the line has that fault.
    ensures fault { (fault : ParseFault) → (result ≡ Err fault) ↔ Faults line.now fault }
    ensures kept { OnErr result (into.new ≡ into.old) }
    // Which of them, as a function of the line.
    ensures exact { IfOk result (λ _. reading line.now ≡ Ok into.new) }
    ensures faulty { (fault : ParseFault) → result ≡ Err fault → reading line.now ≡ Err fault }
{
    read_into(line, into)
}

#[tactic(auto, unfolding(crate::specs::Reading::reading))]
fn read_into(line: &[u8], into: &mut Command) -> Result<(), ParseFault>
    ensures kept { OnErr result (into.new ≡ into.old) }
    ensures exact { IfOk result (λ _. reading line.now ≡ Ok into.new) }
    ensures faulty { (fault : ParseFault) → result ≡ Err fault → reading line.now ≡ Err fault }
{
    let verb = verb_of(line)?;
    into.length = line.len();
    into.line[..line.len()].copy_from_slice(line);
    into.verb = verb;
    Ok(())
}

// What a line asks for.
#[tactic(auto, unfolding(crate::specs::Reading::verb_of))]
fn verb_of(line: &[u8]) -> Result<Verb, ParseFault>
    ensures value { result ≡ verb_of line.now }
    ensures short { IfOk result (λ _. length line.now ≤ 512) }
    ensures keeps { IfOk result (Keeps line.now) }
{
    if line.len() > LONGEST_LINE {
        return Err(ParseFault::TooLong);
    }
    if asks_nothing(line) {
        return Ok(Verb::Nothing);
    }
    match named(line) {
        Ok(verb) => Ok(verb),
        Err(fault) => Err(placed(line.len(), fault)),
    }
}

// A fault by its place from the beginning of a line of that length.
fn placed(length: usize, fault: ParseFault) -> ParseFault
    ensures { result ≡ placed length fault }
{
    match fault {
        ParseFault::BadNumber(left) => ParseFault::BadNumber(length.saturating_sub(left)),
        ParseFault::BadName(left) => ParseFault::BadName(length.saturating_sub(left)),
        ParseFault::BadSymbol(left) => ParseFault::BadSymbol(length.saturating_sub(left)),
        ParseFault::Extra(left) => ParseFault::Extra(length.saturating_sub(left)),
        _ => fault,
    }
}

// Whether a line is blank, a comment or a label.
#[tactic(auto, unfolding(crate::specs::Reading::asks_nothing))]
fn asks_nothing(line: &[u8]) -> bool
    ensures { result ≡ asks_nothing line.now }
{
    matches!(line, [b';' | b'#' | b':', ..]) || past_blanks(line).is_empty()
}

// What a line with a command's name asks for.
#[tactic(auto, unfolding(crate::specs::Reading::named))]
fn named(line: &[u8]) -> Result<Verb, ParseFault>
    requires { length line.now ≤ 512 }
    ensures { result ≡ named line.now }
{
    let (word, rest) = next_word(line);
    match command_named(word) {
        Some(name) => operands(line.len(), name, rest),
        None => Err(ParseFault::Unknown),
    }
}

// What a command asks for, by what stands behind its name in a line of so many bytes.
#[tactic(auto, unfolding(crate::specs::Reading::operands))]
fn operands(bytes: usize, name: CommandName, text: &[u8]) -> Result<Verb, ParseFault>
    requires { length text.now ≤ 512 }
    ensures { result ≡ operands bytes name text.now }
{
    match name {
        CommandName::Alone(which) => ended(alone_verb(which), text),
        CommandName::Examine => examine(text),
        CommandName::Deposit => deposit(text),
        CommandName::Run => run(text),
        CommandName::Go => go(text),
        CommandName::Step => step(text),
        CommandName::Attach => attach(bytes, text),
        CommandName::Detach => detach(text),
        CommandName::Show => show(text),
        CommandName::Exit => exit(text),
        CommandName::Break => break_at(bytes, text),
        CommandName::NoBreak => no_break(text),
        CommandName::Expect => expect(bytes, text),
        CommandName::Send => send(bytes, text),
        CommandName::Load => load(bytes, text),
        CommandName::Save => save(bytes, text),
        CommandName::Dump => dump(bytes, text),
        CommandName::Restore => restore(bytes, text),
        CommandName::Set => set(text),
        CommandName::Do => do_file(bytes, text),
        CommandName::Goto => goto(bytes, text),
        CommandName::Assert => assert(text),
        CommandName::Echo => Ok(echo(bytes, text)),
    }
}

#[tactic(auto, unfolding(crate::specs::Reading::examine))]
fn examine(text: &[u8]) -> Result<Verb, ParseFault>
    ensures { result ≡ examine text.now }
{
    match listing(true, text) {
        Ok((listing, rest)) => ended(Verb::Examine(listing), rest),
        Err(fault) => Err(fault),
    }
}

#[tactic(auto, unfolding(crate::specs::Reading::deposit))]
fn deposit(text: &[u8]) -> Result<Verb, ParseFault>
    ensures { result ≡ deposit text.now }
{
    let (listing, rest) = match listing(false, text) {
        Ok(read) => read,
        Err(fault) => return Err(fault),
    };
    if listing.symbolic {
        let word = instruction(rest)?;
        return Ok(Verb::Deposit(listing, u64::from(word)));
    }
    let (value, rest) = needed_octal(rest)?;
    ended(Verb::Deposit(listing, value), rest)
}

fn run(text: &[u8]) -> Result<Verb, ParseFault>
    ensures { result ≡ run text.now }
{
    let (address, rest) = last_octal(text)?;
    ended(Verb::Run(address), rest)
}

fn go(text: &[u8]) -> Result<Verb, ParseFault>
    ensures { result ≡ go text.now }
{
    let (address, rest) = last_octal(text)?;
    ended(Verb::Go(address), rest)
}

fn step(text: &[u8]) -> Result<Verb, ParseFault>
    ensures { result ≡ step text.now }
{
    let (count, rest) = last_decimal(text)?;
    ended(Verb::Step(count), rest)
}

fn exit(text: &[u8]) -> Result<Verb, ParseFault>
    ensures { result ≡ exit text.now }
{
    let (status, rest) = last_decimal(text)?;
    ended(Verb::Exit(status), rest)
}

#[tactic(auto, unfolding(crate::specs::Reading::show))]
fn show(text: &[u8]) -> Result<Verb, ParseFault>
    ensures { result ≡ show text.now }
{
    let (subject, rest) = needed_subject(text)?;
    ended(Verb::Show(subject), rest)
}

/// The law that a line is the command that it is read as, and that no line is two commands.
pub fn no_line_is_two_commands()
    ensures reading { (line : List ℕ) (c : Request) → (reading line ≡ Ok c) ↔ Parses line c }
    ensures one { (line : List ℕ) (one other : Request) → Parses line one → Parses line other → one ≡ other }
{}

/// The law that a line has the fault that it is read with, and that each line has a command or a fault, and not both,
/// and one of them alone.
pub fn each_line_has_a_command_or_a_fault()
    ensures reading { (line : List ℕ) (fault : ParseFault) → (reading line ≡ Err fault) ↔ Faults line fault }
    ensures either { (line : List ℕ)
        → ((c : Request) × Parses line c) ⊎ ((fault : ParseFault) × Faults line fault) }
    ensures never_both { (line : List ℕ) (c : Request) (fault : ParseFault)
        → Parses line c → Faults line fault → ⊥ }
    ensures one_fault { (line : List ℕ) (one other : ParseFault) → Faults line one → Faults line other → one ≡ other }
{}

/// The law that what a line is read as keeps the facts of its command, and that the texts which it takes from a line of
/// bytes are of bytes.
pub fn requests_are_kept()
    ensures { RequestsAreKept }
{}
