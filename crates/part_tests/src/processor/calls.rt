// The calls of the processor on one word each.
use crate::checked::holds;
use crate::processor::rows::at;
use nova_memory::ChainLimit;
use nova_processor::Processor;
use nova_word::Word;
use std::test::Fail;

fn inputs(processor: &mut Processor) -> bool {
    processor.input(0, 5);
    processor.pass(3, 1, 7);
    processor.pass(2, 1, 9);
    processor.go_past();
    processor.accumulator(0) == 5 && processor.accumulator(1) == 7 && processor.cpu.pc == at(0o104)
}

/// The number of a test of BUSY, which is set, or DONE, which is not, and PC behind it: SKPBN, SKPBZ, SKPDN and SKPDZ.
const SKIPS: [(u16, u16); 4] = [(0, 0o106), (1, 0o107), (2, 0o110), (3, 0o112)];

fn skips(processor: &mut Processor) -> bool {
    for row in SKIPS.iter() {
        processor.test(row.0, true, false);
        if processor.cpu.pc != at(row.1) {
            return false;
        }
    }
    true
}

/// SKPBZ to device 1, MUL, ADD 0,1, and STA 1,@20 at its address.
fn executes(processor: &mut Processor) -> bool {
    processor.unanswered(0o063501);
    processor.multiply_divide(0o073301);
    processor.arithmetic(Word(0o107000));
    processor.memory_reference(0o046020, at(0o777));
    processor.cpu.pc == at(0o117) && processor.memory.read(at(0o777)) == Word(5)
}

/// JMP @1 through a word that names 300.
fn follows(processor: &mut Processor) -> bool {
    processor.memory.write(at(1), Word(0o300));
    let end = processor.follow_interrupt(Word(0o2001));
    end == Ok(at(0o300)) && processor.memory.read(at(0)) == Word(0o117)
}

/// JMP @1 through 20, whose word 77777 becomes 100000. Where the changed word is tested, 0 is passed too, where PC is.
fn follows_through_20(processor: &mut Processor, before: bool) -> bool {
    processor.memory.write(at(1), Word(0o100020));
    processor.memory.write(at(0o20), Word(0o77777));
    processor.memory.set_autobit(before);
    let end = processor.follow_interrupt(Word(0o2001));
    let wanted = if before { at(0) } else { at(0o117) };
    end == Ok(wanted) && processor.memory.read(at(0o20)) == Word(0o100000)
}

/// JMP @1 through a word that names itself.
fn has_no_end(processor: &mut Processor) -> bool {
    processor.memory.write(at(1), Word(0o100001));
    processor.follow_interrupt(Word(0o2001)) == Err(ChainLimit)
}

#[test]
fn each_call_goes_on_behind_its_word(rt: HostRuntime) -> Result<(), Fail> {
    let mut processor = Processor::new(rt.alloc())?;
    processor.cpu.pc = at(0o100);
    holds(&rt, inputs(&mut processor), "inputs");
    holds(&rt, skips(&mut processor), "skips");
    holds(&rt, executes(&mut processor), "other words");
    holds(&rt, follows(&mut processor), "an interrupt");
    holds(
        &rt,
        follows_through_20(&mut processor, true),
        "bit 0 tested before the change",
    );
    holds(
        &rt,
        follows_through_20(&mut processor, false),
        "bit 0 tested behind it",
    );
    holds(&rt, has_no_end(&mut processor), "a chain without an end");
    Ok(())
}
