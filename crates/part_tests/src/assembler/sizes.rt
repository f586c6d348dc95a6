// Sources as large as they may be.
use crate::assembler::sources::LONGEST_SOURCE;
use crate::checked::holds;
use nova_asm::{AsmFault, assemble};
use std::alloc::{AllocError, Global};
use std::process::Abort;
use std::test::Fail;

/// Adds the name of the label with that number: a letter and five octal digits.
fn add_name(source: &mut Vec<u8>, number: u32) -> Result<(), AllocError> {
    source.push(b'L')?;
    for place in 0..5u32 {
        let digit = (number >> (3 * (4 - place))) % 8;
        source.push(b'0' + digit as u8)?;
    }
    Ok(())
}

/// A line for each number below a count, with a label and a word that is the location of the label of the last line.
fn labelled(alloc: Global, count: u32) -> Result<Vec<u8>, AllocError> {
    let mut source = Vec::new(alloc);
    for number in 0..count {
        add_name(&mut source, number)?;
        source.extend_from_slice(b":.WORD ")?;
        add_name(&mut source, count - 1 - number)?;
        source.push(b'\n')?;
    }
    Ok(source)
}

/// A text of so many letters.
fn text_of(alloc: Global, count: u32) -> Result<Vec<u8>, AllocError> {
    let mut source = Vec::new(alloc);
    source.extend_from_slice(b".TXT \"")?;
    for _ in 0..count {
        source.push(b'A')?;
    }
    source.push(b'"')?;
    Ok(source)
}

/// How many words a source has, or its fault.
fn words_of(alloc: Global, source: &[u8]) -> Result<usize, AsmFault> {
    if source.len() > LONGEST_SOURCE {
        return Err(AsmFault::OutOfMemory);
    }
    match assemble(alloc, source) {
        Ok(made) => Ok(made.words),
        Err(fault) => Err(fault),
    }
}

fn are_words(
    rt: &impl Abort,
    alloc: Global,
    source: &[u8],
    wanted: Result<usize, AsmFault>,
    what: &str,
) {
    holds(rt, words_of(alloc, source) == wanted, what);
}

#[test]
fn all_of_memory_is_labelled(rt: HostRuntime) -> Result<(), Fail> {
    let source = labelled(rt.alloc(), 32768)?;
    are_words(
        &rt,
        rt.alloc(),
        source.as_slice(),
        Ok(32768),
        "32768 labels",
    );
    Ok(())
}

#[test]
fn a_text_fills_memory(rt: HostRuntime) -> Result<(), Fail> {
    let source = text_of(rt.alloc(), 65535)?;
    are_words(
        &rt,
        rt.alloc(),
        source.as_slice(),
        Ok(32768),
        "65535 letters",
    );
    Ok(())
}

#[test]
fn a_longer_text_is_past_memory(rt: HostRuntime) -> Result<(), Fail> {
    let source = text_of(rt.alloc(), 65536)?;
    are_words(
        &rt,
        rt.alloc(),
        source.as_slice(),
        Err(AsmFault::PastMemory(1)),
        "65536 letters",
    );
    Ok(())
}
