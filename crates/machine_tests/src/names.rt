// What rows name: words of memory and registers, units, and the ends of runs.
ghost use Rattle.std.specs.Prelude.{IsTrue};
ghost use Rattle.unit_files.specs.Attachments.{takes_attachment};

use crate::row::{count, cut, decimal, octal, small};
use host_files::{FileCall, FileId};
use nova_machine::Stop;
use unit_files::{AttachMode, UnitFault};
use unit_trait::{CpuReg, Kind, UnitName, reg_text};

/// What a machine holds: a word of memory, a register of the processor, or one of a device by its number.
#[derive(Clone, Copy, PartialEq, Eq)]
pub enum Place {
    Cell(u16),
    Cpu(CpuReg),
    Device(Kind, u8),
}

/// A place and its value: `AC0=101`, `TTO.DONE=1`, `[20]=7`. A value is octal, and decimal where a point ends it.
pub fn value_of(word: &str) -> Option<(Place, u32)> {
    let (name, digits) = word.split_once('=')?;
    Some((place_of(name)?, number_of(digits)?))
}

pub fn number_of(digits: &str) -> Option<u32> {
    match digits.strip_suffix('.') {
        Some(digits) => Some(count(digits)),
        None => octal(digits),
    }
}

pub fn place_of(name: &str) -> Option<Place> {
    match name.strip_prefix('[') {
        Some(at) => cell_of(at),
        None => match name.split_once('.') {
            Some((device, register)) => device_of(device, register),
            None => Some(Place::Cpu(processor_register(name)?)),
        },
    }
}

fn cell_of(text: &str) -> Option<Place> {
    let at = octal(text.strip_suffix(']')?)?;
    Some(Place::Cell((at % 65536) as u16))
}

fn device_of(device: &str, register: &str) -> Option<Place> {
    let kind = kind_of(device)?;
    Some(Place::Device(kind, register_of(kind, register)?))
}

pub fn kind_of(name: &str) -> Option<Kind> {
    match name {
        "MTA" => Some(Kind::Mta),
        "LPT" => Some(Kind::Lpt),
        "PTR" => Some(Kind::Ptr),
        "PTP" => Some(Kind::Ptp),
        "CLK" => Some(Kind::Clk),
        "TTI" => Some(Kind::Tti),
        "TTO" => Some(Kind::Tto),
        "TTI1" => Some(Kind::Tti1),
        "TTO1" => Some(Kind::Tto1),
        _ => None,
    }
}

/// The number of a device's register.
fn register_of(kind: Kind, name: &str) -> Option<u8> {
    for i in 0..20u8 {
        let mut out = [0; 8];
        let length = reg_text(kind, i, &mut out).min(8);
        if &out[..length] == name.as_bytes() {
            return Some(i);
        }
    }
    None
}

fn processor_register(name: &str) -> Option<CpuReg> {
    for register in CpuReg::ALL.iter() {
        if register.name() == name {
            return Some(*register);
        }
    }
    None
}

/// A unit that takes a file.
pub fn unit_of(name: &str) -> UnitName
    ensures { IsTrue (takes_attachment result) }
{
    match name {
        "PTR" => UnitName {
            kind: Kind::Ptr,
            unit: 0,
        },
        "PTP" => UnitName {
            kind: Kind::Ptp,
            unit: 0,
        },
        "LPT" => UnitName {
            kind: Kind::Lpt,
            unit: 0,
        },
        "MTA1" => UnitName {
            kind: Kind::Mta,
            unit: 1,
        },
        "MTA3" => UnitName {
            kind: Kind::Mta,
            unit: 3,
        },
        _ => UnitName {
            kind: Kind::Mta,
            unit: 0,
        },
    }
}

pub fn mode_of(name: &str) -> AttachMode {
    match name {
        "any" => AttachMode::Any,
        "new" => AttachMode::New,
        _ => AttachMode::ReadOnly,
    }
}

/// The end of a run: `Halt`, `Break.1`, `UnitEnd.PTR`, `BadImage.MTA0.12`, `FileFault.PTP.0.Write.1`.
pub fn stop_of(text: &str) -> Option<Stop> {
    let (name, rest) = cut(text, '.');
    match name {
        "Halt" => Some(Stop::Halt),
        "ChainLimit" => Some(Stop::ChainLimit),
        "UnknownDevice" => Some(Stop::UnknownDevice),
        "Stepped" => Some(Stop::Stepped),
        "Limit" => Some(Stop::Limit),
        "Wru" => Some(Stop::Wru),
        "ConsoleFault" => Some(Stop::ConsoleFault),
        "Break" => Some(Stop::Break(small(rest))),
        "Expect" => Some(Stop::Expect(small(rest))),
        _ => stop_at_file(name, rest),
    }
}

/// One for which the file of a unit is the cause.
fn stop_at_file(name: &str, rest: &str) -> Option<Stop> {
    let (unit, rest) = cut(rest, '.');
    match name {
        "UnitEnd" => Some(Stop::UnitEnd(unit_of(unit))),
        "UnitNone" => Some(Stop::UnitNone(unit_of(unit))),
        "BadImage" => Some(Stop::BadImage(unit_of(unit), decimal(rest))),
        "FileFault" => Some(Stop::FileFault(fault_of(unit_of(unit), rest)?)),
        _ => None,
    }
}

/// A failed call: its file, which call, and how many bytes it has written.
fn fault_of(unit: UnitName, text: &str) -> Option<UnitFault> {
    let (file, rest) = cut(text, '.');
    let (call, done) = cut(rest, '.');
    Some(UnitFault {
        unit,
        file: Some(FileId(count(file))),
        call: call_of(call)?,
        done: decimal(done),
    })
}

fn call_of(name: &str) -> Option<FileCall> {
    match name {
        "Length" => Some(FileCall::Length),
        "Read" => Some(FileCall::Read),
        "Write" => Some(FileCall::Write),
        "SetLength" => Some(FileCall::SetLength),
        _ => None,
    }
}
