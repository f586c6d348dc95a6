// The answers of commands in words.
use file_commands::Subject;
use nova_machine::Stop;
use scp_commands::{CommandFault, DoFile, Next};
use unit_trait::{Kind, UnitName};

/// The bytes of the script that DO reads.
pub const SCRIPT: &[u8] = b"E 0\nECHO x\n";

/// Whether an answer is the one that is wanted.
pub fn is_wanted(answer: &Result<Next, CommandFault>, wanted: &str) -> bool {
    match answer {
        Ok(next) => wanted == "Anything" || says(next, wanted),
        Err(fault) => wanted == "Anything" || fault_named(wanted) == Some(*fault),
    }
}

fn says(next: &Next, wanted: &str) -> bool {
    match next {
        Next::Go => wanted == "Go",
        Next::Goto => wanted == "Goto",
        Next::Ran(stop) => stop_named(wanted) == Some(*stop),
        Next::Do(file) => is_script(file, wanted),
        Next::Exit(status) => status_named(wanted) == Some(*status),
    }
}

/// `Does`, and whether its lines are echoed and a failed one ends it; `DoesNothing` where the script is empty.
fn is_script(file: &DoFile, wanted: &str) -> bool {
    let text = file.text.as_slice();
    match wanted {
        "Does" => text == SCRIPT && !file.echo && !file.strict,
        "Does V" => text == SCRIPT && file.echo && !file.strict,
        "Does E" => text == SCRIPT && !file.echo && file.strict,
        "Does VE" => text == SCRIPT && file.echo && file.strict,
        "DoesNothing" => text.is_empty() && !file.echo && !file.strict,
        _ => false,
    }
}

fn stop_named(wanted: &str) -> Option<Stop> {
    match wanted {
        "Halt" => Some(Stop::Halt),
        "Stepped" => Some(Stop::Stepped),
        _ => None,
    }
}

fn status_named(wanted: &str) -> Option<u8> {
    match wanted {
        "Exit 3" => Some(3),
        _ => None,
    }
}

fn fault_named(wanted: &str) -> Option<CommandFault> {
    match wanted {
        "OutOfRange" => Some(CommandFault::OutOfRange),
        "ReadOnlyName" => Some(CommandFault::ReadOnlyName),
        "AlreadyAttached" => Some(CommandFault::AlreadyAttached),
        "NotAttached" => Some(CommandFault::NotAttached),
        "PortTaken" => Some(CommandFault::PortTaken),
        "PortFailed" => Some(CommandFault::PortFailed),
        "MissingUnit" => Some(CommandFault::MissingUnit),
        "AssertFailed" => Some(CommandFault::AssertFailed),
        "NoFile" => Some(CommandFault::NoFile),
        "Full" => Some(CommandFault::Full),
        "Console" => Some(CommandFault::Console),
        "BadSum" => Some(CommandFault::LoadSum(0)),
        "ScriptFailed" => Some(CommandFault::FileFailed(Subject::Script)),
        "StateFailed" => Some(CommandFault::FileFailed(Subject::State)),
        "NotState" => Some(CommandFault::NotState),
        "Truncated" => Some(CommandFault::Truncated),
        "DumpFailed" => Some(CommandFault::FileFailed(Subject::Dump)),
        "DiskFailed" => Some(CommandFault::FileFailed(first_unit(Kind::Dsk))),
        "TapeFailed" => Some(CommandFault::FileFailed(first_unit(Kind::Mta))),
        "PunchFailed" => Some(CommandFault::FileFailed(first_unit(Kind::Ptp))),
        _ => None,
    }
}

/// The first unit of a kind.
pub fn first_unit(kind: Kind) -> Subject {
    Subject::Unit(UnitName { kind, unit: 0 })
}
