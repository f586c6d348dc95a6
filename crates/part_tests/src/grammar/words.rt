// Words of rows.
use nova_word::{read_decimal, read_octal};
use operand_forms::{Item, Name, Rel};
use unit_trait::{Kind, code_of};

/// How many numbers a command has at most.
pub const MOST_NUMBERS: usize = 6;

/// The numbers of a command. Those that were left out, and those behind the last one, are `None`.
pub type Numbers = [Option<u64>; MOST_NUMBERS];

pub fn numbers(words: &str) -> Numbers {
    let mut list = [None; MOST_NUMBERS];
    for (number_of, word) in list.iter_mut().zip(words.split_whitespace()) {
        *number_of = number(word);
    }
    list
}

/// A decimal number, an octal one behind `0o`, 2^64 - 1, the code of a device, or the letter of an option.
pub fn number(word: &str) -> Option<u64> {
    if let Some(digits) = word.strip_prefix("0o") {
        return match read_octal(digits.as_bytes()) {
            Ok(number) => Some(u64::from(number)),
            Err(_) => None,
        };
    }
    match word {
        "max" => Some(u64::MAX),
        "E" => Some(69),
        "N" => Some(78),
        "R" => Some(82),
        _ => match kind(word) {
            Some(kind) => Some(u64::from(code_of(kind))),
            None => read_decimal(word.as_bytes()).ok(),
        },
    }
}

/// A place in a line.
pub fn place(word: &str) -> usize {
    (number(word).unwrap_or(u64::MAX) % 65536) as usize
}

pub fn kind(name: &str) -> Option<Kind> {
    match name {
        "DSK" => Some(Kind::Dsk),
        "MTA" => Some(Kind::Mta),
        "LPT" => Some(Kind::Lpt),
        "PTR" => Some(Kind::Ptr),
        "PTP" => Some(Kind::Ptp),
        "CLK" => Some(Kind::Clk),
        "TTI" => Some(Kind::Tti),
        "TTO" => Some(Kind::Tto),
        "TTI1" => Some(Kind::Tti1),
        "TTO1" => Some(Kind::Tto1),
        "QTY" => Some(Kind::Qty),
        _ => None,
    }
}

pub fn device(word: &str) -> Option<Name> {
    match word {
        "CPU" => Some(Name::Cpu),
        _ => match kind(word) {
            Some(kind) => Some(Name::Device(kind)),
            None => None,
        },
    }
}

pub fn rel(word: &str) -> Option<Rel> {
    match word {
        "Eq" => Some(Rel::Eq),
        "Ne" => Some(Rel::Ne),
        "Lt" => Some(Rel::Lt),
        "Le" => Some(Rel::Le),
        "Gt" => Some(Rel::Gt),
        "Ge" => Some(Rel::Ge),
        _ => None,
    }
}

/// `All`, `State`, `Unknown`, `At:0o100`, `Range:64-71`, `Count:64/10` or `Reg:0`.
pub fn item(word: &str) -> Option<Item> {
    match word {
        "All" => Some(Item::All),
        "State" => Some(Item::State),
        "Unknown" => Some(Item::Unknown),
        _ => {
            let (form, operand) = word.split_once(':')?;
            numbered(form, operand)
        }
    }
}

fn numbered(form: &str, operand: &str) -> Option<Item> {
    match form {
        "At" => Some(Item::At(number(operand)?)),
        "Reg" => Some(Item::Reg((number(operand)? % 256) as u8)),
        "Range" => {
            let (from, to) = operand.split_once('-')?;
            Some(Item::Range(number(from)?, number(to)?))
        }
        "Count" => {
            let (from, count) = operand.split_once('/')?;
            Some(Item::Count(number(from)?, number(count)?))
        }
        _ => None,
    }
}
