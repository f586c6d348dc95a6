// The workload of `-g`.
ghost use Rattle.std.specs.Prelude.{◌≡◌, ◌<◌, ◌^◌, option_map, IfOk};
ghost use Rattle.nova_memory.specs.Memory.{put};
ghost use Rattle.program_start.specs.Workload.{next_number, words_behind, with_words, filled, with_workload};
ghost use Rattle.program_start.specs.Workload.{first_text};

use command_session::ScriptText;
use nova_machine::Machine;
use nova_memory::Memory;
use nova_word::{Addr, Word};
use std::alloc::{AllocError, Global};
use unit_trait::Unit;

/// The addresses of its words, from the first one up to the one behind the last.
const FIRST: u16 = 0o1000;

const BEHIND: u16 = 0o11000;

/// What is done with it: it is run, and what it leaves is printed.
const COMMANDS: &[u8] = b"GO 1000\nEXAMINE AC0,AC1,AC2,AC3,C\nSHOW TIME\n";

/// Puts the workload of a number into a machine's memory, where one is given.
pub fn set_up<U: Unit>(machine: &mut Machine<U>, workload: Option<u16>)
    ensures machine { machine.new ≡ with_workload workload machine.old }
    ensures slots { machine.new.slots ≡ machine.old.slots }
{
    match workload {
        None => (),
        Some(number) => fill(machine.memory_mut(), number),
    }
}

/// The script with which a session begins: the commands of the workload, where there is one, or that of the words.
pub fn first_text(
    alloc: Global,
    workload: Option<u16>,
    script: Option<ScriptText>,
) -> Result<Option<ScriptText>, AllocError>
    ensures { IfOk result (λ text. text ≡ first_text workload script) }
{
    match workload {
        None => Ok(script),
        Some(_number) => Ok(Some(ScriptText::new(Vec::from_slice(alloc, COMMANDS)?))),
    }
}

/// Fills memory with 4096 words that are made of numbers, and puts behind them what runs them 1000 times.
#[tactic(auto, unfolding(crate::specs::Workload::filled))]
fn fill(memory: &mut Memory, number: u16)
    ensures { memory.new ≡ filled number memory.old }
{
    put_numbers(memory, number);
    // MOV 0,0, which a word before it may skip; DSZ 77; JMP @76; HALT.
    put(memory, BEHIND, 0o101000);
    put(memory, BEHIND + 1, 0o014077);
    put(memory, BEHIND + 2, 0o002076);
    put(memory, BEHIND + 3, 0o063077);
    put(memory, 0o76, FIRST);
    put(memory, 0o77, 1000);
}

/// Puts the words of the numbers behind that one.
fn put_numbers(memory: &mut Memory, number: u16)
    ensures { memory.new ≡ with_words memory.old 0o1000 (words_behind number 4096) }
{
    let mut last = number;
    for at in FIRST..BEHIND {
        last = next_number(last);
        put(memory, at, 0o100000 + last % 0o100000);
    }
}

/// The number behind one.
fn next_number(number: u16) -> u16
    ensures { result ≡ next_number number }
{
    ((25173 * u32::from(number) + 13849) % 65536) as u16
}

/// Puts a word at an address.
fn put(memory: &mut Memory, at: u16, word: u16)
    requires { at < 2 ^ 15 }
    ensures { memory.new ≡ put memory.old at word }
{
    memory.write(Addr::of_word(Word(at)), Word(word));
}
