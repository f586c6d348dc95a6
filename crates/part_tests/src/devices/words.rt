// Words of rows.
use nova_word::read_octal;
use unit_trait::{
    After, Got, IoAnswer, IoOp, Pulse, Queue, TapeEnd, TapeGot, TapeOrder, UnitStop, Want,
};

/// The first word of a text, and what stands behind it.
pub fn cut(text: &str) -> (&str, &str) {
    text.split_once(' ').unwrap_or((text, ""))
}

/// A decimal number, or an octal one behind `0o`.
pub fn number(word: &str) -> Option<u32> {
    match word.strip_prefix("0o") {
        Some(digits) => read_octal(digits.as_bytes()).ok(),
        None => word.parse().ok(),
    }
}

pub fn byte(word: &str) -> Option<u8> {
    Some((number(word)? % 256) as u8)
}

fn word16(word: &str) -> Option<u16> {
    Some((number(word)? % 65536) as u16)
}

fn place(word: &str) -> Option<u64> {
    Some(u64::from(number(word)?))
}

/// The name of a word of input and output, behind which its pulse stands.
pub fn io_call(name: &str) -> Option<(IoOp, Pulse)> {
    match function(name) {
        Some(op) => Some((op, Pulse::None)),
        None => with_pulse(name),
    }
}

fn with_pulse(name: &str) -> Option<(IoOp, Pulse)> {
    if let Some(name) = name.strip_suffix('S') {
        return Some((function(name)?, Pulse::Start));
    }
    if let Some(name) = name.strip_suffix('C') {
        return Some((function(name)?, Pulse::Clear));
    }
    let name = name.strip_suffix('P')?;
    Some((function(name)?, Pulse::Pulse))
}

fn function(name: &str) -> Option<IoOp> {
    match name {
        "NIO" => Some(IoOp::Nio),
        "DIA" => Some(IoOp::Dia),
        "DOA" => Some(IoOp::Doa),
        "DIB" => Some(IoOp::Dib),
        "DOB" => Some(IoOp::Dob),
        "DIC" => Some(IoOp::Dic),
        "DOC" => Some(IoOp::Doc),
        _ => None,
    }
}

/// The word that is answered, the wish, and the unit that it is for, which may be left out where it is 0.
pub fn io_answer(text: &str) -> Option<IoAnswer> {
    let (word, wish) = cut(text);
    let (wish, unit) = cut(wish);
    Some(IoAnswer {
        word: word16(word)?,
        queue: queue(wish)?,
        unit: if unit.is_empty() { 0 } else { byte(unit)? },
    })
}

/// `keep`, `cancel` or `after:100`.
pub fn queue(word: &str) -> Option<Queue> {
    match word {
        "keep" => Some(Queue::Keep),
        "cancel" => Some(Queue::Cancel),
        _ => Some(Queue::After(number(word.strip_prefix("after:")?)?)),
    }
}

/// The wish, and `go`, or why the machine stops.
pub fn after(text: &str) -> Option<After> {
    let (wish, stop) = cut(text);
    Some(After {
        queue: queue(wish)?,
        stop: unit_stop(stop)?,
    })
}

fn unit_stop(word: &str) -> Option<UnitStop> {
    match word {
        "go" => Some(UnitStop::Go),
        "end" => Some(UnitStop::End),
        "no_file" => Some(UnitStop::NoFile),
        _ => None,
    }
}

/// `nothing`, `key`, `console 65`, `line_key 0`, `line_put 0 65`, `read 5`, `write 5 65`, `sector_read 7 0`,
/// `sector_write 7 0`, or `tape` with the command, the place, the address and the count.
pub fn want(text: &str) -> Option<Want> {
    let (name, operands) = cut(text);
    match name {
        "nothing" => Some(Want::Nothing),
        "key" => Some(Want::Key),
        "tape" => Some(Want::Tape(tape_order(operands)?)),
        _ => {
            let (first, second) = cut(operands);
            transfer(name, first, second)
        }
    }
}

fn transfer(name: &str, first: &str, second: &str) -> Option<Want> {
    match name {
        "console" => Some(Want::Console(byte(first)?)),
        "line_key" => Some(Want::LineKey(byte(first)?)),
        "line_put" => Some(Want::LinePut {
            line: byte(first)?,
            byte: byte(second)?,
        }),
        "read" => Some(Want::ReadByte {
            place: place(first)?,
        }),
        "write" => Some(Want::WriteByte {
            place: place(first)?,
            byte: byte(second)?,
        }),
        "sector_read" => sector(false, first, second),
        "sector_write" => sector(true, first, second),
        _ => None,
    }
}

fn sector(write: bool, sector: &str, address: &str) -> Option<Want> {
    Some(Want::Sector {
        write,
        sector: word16(sector)?,
        address: word16(address)?,
    })
}

fn tape_order(text: &str) -> Option<TapeOrder> {
    let (command, rest) = cut(text);
    let (at, rest) = cut(rest);
    let (address, count) = cut(rest);
    Some(TapeOrder {
        command: byte(command)?,
        place: place(at)?,
        address: word16(address)?,
        count: word16(count)?,
    })
}

/// `done`, `key 65`, `no_key`, `byte 65`, `end`, `no_file`, `read_only`, `line_full`, or `tape` with what it came to.
pub fn got(text: &str) -> Option<Got> {
    let (name, operand) = cut(text);
    match name {
        "done" => Some(Got::Done),
        "key" => Some(Got::Key(byte(operand)?)),
        "no_key" => Some(Got::NoKey),
        "byte" => Some(Got::Byte(byte(operand)?)),
        "end" => Some(Got::End),
        "no_file" => Some(Got::NoFile),
        "read_only" => Some(Got::ReadOnly),
        "line_full" => Some(Got::LineFull),
        "tape" => Some(Got::Tape(tape_got(operand)?)),
        _ => None,
    }
}

/// Where a tape operation ended, the place, the words, the blocks, and which of `odd`, `flagged` and `lost` it was.
fn tape_got(text: &str) -> Option<TapeGot> {
    let (end, rest) = cut(text);
    let (at, rest) = cut(rest);
    let (words, rest) = cut(rest);
    let (passed, flags) = cut(rest);
    Some(TapeGot {
        end: tape_end(end)?,
        place: place(at)?,
        words: word16(words)?,
        passed: word16(passed)?,
        odd: has(flags, "odd"),
        flagged: has(flags, "flagged"),
        lost: has(flags, "lost"),
    })
}

fn has(flags: &str, flag: &str) -> bool {
    for word in flags.split_whitespace() {
        if word == flag {
            return true;
        }
    }
    false
}

fn tape_end(word: &str) -> Option<TapeEnd> {
    match word {
        "plain" => Some(TapeEnd::Plain),
        "mark" => Some(TapeEnd::Mark),
        "medium" => Some(TapeEnd::Medium),
        "load_point" => Some(TapeEnd::LoadPoint),
        _ => None,
    }
}
