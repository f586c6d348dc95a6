// A damaged tape through all six calls, over a list of bytes, which tells what it holds.
use crate::texts::{equal, holds};
use host_files::ByteList;
use simh_tape::{
    Item, Spaced, TapeFault, erase_rest, read_next, read_previous, space, write_block, write_mark,
};
use std::alloc::Global;
use std::process::Abort;
use std::test::Fail;
use unit_trait::TapeEnd;

// A block, and one whose two lengths differ.
const DAMAGED: [u8; 20] = [
    2, 0, 0, 0, b'a', b'b', 2, 0, 0, 0, // from 0
    2, 0, 0, 0, b'c', b'd', 3, 0, 0, 0, // from 10
];

// The same with a good block in place of the other, and a mark behind it.
const MENDED: [u8; 24] = [
    2, 0, 0, 0, b'a', b'b', 2, 0, 0, 0, // from 0
    2, 0, 0, 0, b'x', b'y', 2, 0, 0, 0, // from 10
    0, 0, 0, 0, // from 20
];

fn damaged(alloc: Global) -> Result<ByteList, Fail> {
    match ByteList::new(alloc, &DAMAGED, 100) {
        Ok(tape) => Ok(tape),
        Err(_) => Err(Fail::new("the list")),
    }
}

fn block(place: u64) -> Result<Item, TapeFault> {
    Ok(Item::Block {
        length: 2,
        flagged: false,
        taken: 2,
        place,
    })
}

#[test]
fn a_damaged_tape_is_read_over_a_list(rt: HostRuntime) -> Result<(), Fail> {
    let mut tape = damaged(rt.alloc())?;
    let mut into = [0u8; 2];
    equal(&rt, &read_next(&mut tape, 0, &mut into), &block(10), "0");
    holds(&rt, into == *b"ab", "the data");
    let bad = Err(TapeFault::BadImage(10));
    equal(&rt, &read_next(&mut tape, 10, &mut into), &bad, "10");
    let bad = Err(TapeFault::BadImage(16));
    equal(&rt, &read_previous(&mut tape, 20, &mut into), &bad, "20");
    equal(
        &rt,
        &read_previous(&mut tape, 10, &mut into),
        &block(0),
        "back",
    );
    Ok(())
}

fn is_spaced(
    rt: &impl Abort,
    said: Result<Spaced, TapeFault>,
    place: u64,
    passed: u16,
    end: TapeEnd,
) {
    equal(rt, &said, &Ok(Spaced { place, passed, end }), "spacing");
}

#[test]
fn a_damaged_tape_is_spaced_over_a_list(rt: HostRuntime) -> Result<(), Fail> {
    let mut tape = damaged(rt.alloc())?;
    is_spaced(&rt, space(&mut tape, 0, 1, true), 10, 1, TapeEnd::Plain);
    is_spaced(
        &rt,
        space(&mut tape, 10, 2, false),
        0,
        1,
        TapeEnd::LoadPoint,
    );
    let bad = Err(TapeFault::BadImage(10));
    equal(&rt, &space(&mut tape, 0, 5, true), &bad, "on");
    let bad = Err(TapeFault::BadImage(16));
    equal(&rt, &space(&mut tape, 20, 5, false), &bad, "back");
    Ok(())
}

#[test]
fn a_damaged_tape_is_mended_over_a_list(rt: HostRuntime) -> Result<(), Fail> {
    let mut tape = damaged(rt.alloc())?;
    equal(&rt, &write_block(&mut tape, 10, b"xy"), &Ok(20), "a block");
    equal(&rt, &write_mark(&mut tape, 20), &Ok(24), "a mark");
    holds(&rt, tape.bytes() == MENDED.as_slice(), "the mended tape");
    equal(&rt, &erase_rest(&mut tape, 10), &Ok(()), "the rest");
    holds(&rt, tape.bytes() == &MENDED[..10], "the erased tape");
    Ok(())
}
