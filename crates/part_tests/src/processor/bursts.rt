// Bursts of instructions.
use crate::checked::holds;
use crate::processor::rows::{at, cut, octal, octals};
use nova_memory::Memory;
use nova_processor::{Burst, BurstEnd, Nowhere, Processor, Stops};
use nova_word::{Addr, Word};
use std::alloc::{AllocError, Global};
use std::test::Fail;

/// The program, from 100 on; the budget, how many instructions are done, AC0 and PC after them; what ends the burst.
const BURSTS: &str = "101400 101400 101400 | 0 0 0 100 | Spent | INC 0,0 three times
101400 101400 101400 | 2 2 2 102 | Spent
101400 063077 | 11 1 1 101 | Transfer | INC 0,0 before HALT
101400 063077 | 1 1 1 101 | Spent
101400 060111 | 11 1 1 101 | Transfer | INC 0,0 before NIOS to the printer
101400 060122 | 11 1 1 101 | Transfer | INC 0,0 before a word to a device that is not there
101401 063077 101400 | 2 2 2 103 | Spent | INC 0,0,SKP over a HALT
101400 002102 100102 | 11 1 1 101 | ChainLimit | JMP @102, which names itself
101400 073301 073101 | 3 3 0 103 | Spent | MUL, which is 0 times 0 plus AC0, and DIV by 0
020104 040107 010107 004107 5 | 4 4 5 107 | Spent | LDA 0,104, STA 0,107, ISZ 107 and JSR 107";

/// Puts words into a memory, from 100 on.
fn put(memory: &mut Memory, program: &str) {
    let mut place = at(0o100);
    for word in program.split_whitespace() {
        memory.write(place, Word(octal(word).unwrap_or(0)));
        place = place.plus(1);
    }
}

/// A processor at 100 with those words from there on.
fn with_words(alloc: Global, program: &str) -> Result<Processor, AllocError> {
    let mut processor = Processor::new(alloc)?;
    put(&mut processor.memory, program);
    processor.cpu.pc = at(0o100);
    Ok(processor)
}

fn end_of(name: &str) -> Option<BurstEnd> {
    match name {
        "Spent" => Some(BurstEnd::Spent),
        "Transfer" => Some(BurstEnd::Transfer),
        "ChainLimit" => Some(BurstEnd::ChainLimit),
        "AtStop" => Some(BurstEnd::AtStop),
        _ => None,
    }
}

/// Whether a burst comes to what stands in those columns.
fn bursts<S: Stops>(processor: &mut Processor, stops: &S, numbers: &str, end: &str) -> bool {
    match octals::<4>(numbers) {
        Some(row) => {
            let [budget, done, ac0, pc] = row;
            let burst = processor.burst(u64::from(budget), stops);
            is_burst(burst, done, end) && stands(processor, ac0, pc)
        }
        None => false,
    }
}

fn is_burst(burst: Burst, done: u16, end: &str) -> bool {
    burst.done == u64::from(done) && Some(burst.end) == end_of(end)
}

fn stands(processor: &Processor, ac0: u16, pc: u16) -> bool {
    processor.accumulator(0) == ac0 && processor.cpu.pc == at(pc)
}

fn ends(alloc: Global, line: &str) -> Result<bool, AllocError> {
    let (program, rest) = cut(line);
    let (numbers, rest) = cut(rest);
    let (end, _what) = cut(rest);
    let mut processor = with_words(alloc, program)?;
    Ok(bursts(&mut processor, &Nowhere, numbers, end))
}

#[test]
fn a_burst_ends_at_its_budget_or_before_what_is_not_its_own(rt: HostRuntime) -> Result<(), Fail> {
    for line in BURSTS.lines() {
        holds(&rt, ends(rt.alloc(), line)?, line);
    }
    Ok(())
}

/// A stop at one address.
#[derive(Drop)]
struct Stop(Addr);

impl Stops for Stop {
    ghost use Rattle.std.specs.Prelude.{◌==◌};

    ghost stops = { λ s a. a == s.0 };

    fn is_at(&self, address: Addr) -> bool {
        address == self.0
    }
}

/// INC 0,0, INC 0,0,SKP, a HALT that is passed over, and JMP 100.
const CIRCLE: &str = "101400 101401 063077 000100";

/// A stop in that program; the budget, how many instructions are done, AC0 and PC after them; what ends the burst.
const STOPS: &str = "100 | 11 0 0 100 | AtStop
101 | 11 1 1 101 | AtStop
102 | 5 5 4 103 | Spent
103 | 11 2 2 103 | AtStop
103 | 2 2 2 103 | Spent";

fn ends_in_circle(alloc: Global, line: &str) -> Result<bool, AllocError> {
    let (stop, rest) = cut(line);
    let (numbers, end) = cut(rest);
    let mut processor = with_words(alloc, CIRCLE)?;
    match octal(stop) {
        Some(n) => Ok(bursts(&mut processor, &Stop(at(n)), numbers, end)),
        None => Ok(false),
    }
}

#[test]
fn a_burst_ends_before_a_stop(rt: HostRuntime) -> Result<(), Fail> {
    for line in STOPS.lines() {
        holds(&rt, ends_in_circle(rt.alloc(), line)?, line);
    }
    Ok(())
}
