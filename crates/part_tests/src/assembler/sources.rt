// Sources with their tapes, or their fault, which another program worked out from the rules alone; the tape of the first one
// was added up by hand.
use crate::checked::holds;
use nova_asm::{AsmFault, Assembled, assemble};
use std::alloc::{AllocError, Global};
use std::process::Abort;
use std::test::Fail;

/// The longest source that is assembled, in bytes.
pub const LONGEST_SOURCE: usize = 1_048_576;

/// A source, whose lines end at ~ and in which a ␣ is a CR and an ∅ nothing, and how many words it has and its tape, or the
/// fault and its line. A line that begins with a semicolon and a blank says what those behind it show.
const SOURCES: &str = "; a program: its words, its label's location and its start
.LOC 100~START: LDA 0,VAL~HALT~VAL: .WORD 7~.END START | 3 fdff40003b7942203f66070001004000bfff
; nothing at all
∅ | 0 01000080ff7f
; a reference forward within reach, and out of it
.LOC 1000~LDA 0,V~.LOC 1100~V: .WORD 1 | 2 ffff0002c1dc4021ffff4002c0fd010001000080ff7f
.LOC 1000~LDA 0,V~.LOC 1300~V: .WORD 1 | OutOfReach 2
; the last location within reach on both sides, and the next one
.LOC 1000~JMP V~.LOC 1177~V: .WORD 1 | 2 ffff000282fc7f01ffff7f0281fd010001000080ff7f
.LOC 1000~JMP V~.LOC 1200~V: .WORD 1 | OutOfReach 2
.LOC 600~V: .WORD 1~.LOC 1000~JMP V | 2 ffff800180fe0100ffff000281fc800101000080ff7f
.LOC 577~V: .WORD 1~.LOC 1000~JMP V | OutOfReach 4
; page zero comes first, up to 377
.LOC 376~A: .WORD 1~B: .WORD 2~C: .WORD 3~STA 1,B~ISZ C | 5 fbfffe0004a4010002000300ff48fe1101000080ff7f
; indirect, with a number behind the label, in either case
.LOC 200~jsr @tab+2~dsz TAB+10~Tab: | 2 feff800074da840c8a1801000080ff7f
; a label alone, one behind its statement, and a label that an instruction has as its name
HALT~JMP: JMP JMP~L:~.WORD L | 3 fdff0000c1993f660100020001000080ff7f
; values: a number, a label, a label and a number
A: .WORD 177777~.WORD A~.WORD A+77777 | 3 fdff00000580ffff0000ff7f01000080ff7f
.WORD A+100000~A: .WORD 0 | OutOfReach 1
; texts: of odd length, of even length, empty, with escapes and a comment's sign
.TXT \"AB\"~.TXT \"ABC\"~.TXT \"\"~.TXT \"\\\"\\\\\\r\\n\\t\\001;\" ; text | 9 f7ff00001ec7424100004241004300005c220a0d0109003b01000080ff7f
; comments, blanks, tabs and a CR
 ; nothing~\tLABEL\t:\t.WORD\t5\t;five~.WORD 6␣~ | 2 feff0000f7ff0500060001000080ff7f
.WORD 6␣ | BadLine 1
; each .LOC begins a block, also to the place where it stands
.WORD 1~.LOC 1~.WORD 2~.LOC 20~.LOC 30~.WORD 3 | 3 ffff000000000100ffff0100feff0200ffff1800e6ff030001000080ff7f
; a block has 16 words at most
.WORD 1~.WORD 2~.WORD 3~.WORD 4~.WORD 5~.WORD 6~.WORD 7~.WORD 10~.WORD 11~.WORD 12~.WORD 13~.WORD 14~.WORD 15~.WORD 16~.WORD 17~.WORD 20~.WORD 21 | 17 f0ff000088ff0100020003000400050006000700080009000a000b000c000d000e000f001000ffff1000e0ff110001000080ff7f
; a word is stored twice
.LOC 5~.WORD 1~.LOC 5~.WORD 2 | 2 ffff0500fbff0100ffff0500faff020001000080ff7f
; the source ends at .END, whatever follows, with no start, a number or a label
.WORD 1~.END~this is no line~X: X: X: | 1 ffff00000000010001000080ff7f
.END 77777 | 0 0100ff7f0080
L: .END L | 0 01000000ffff
.END 100000 | OutOfReach 1
.END M | NoLabel 1
; the end of memory: the last word, one past it, a label there, used and unused
.LOC 77777~.WORD 1 | 1 ffffff7f0180010001000080ff7f
.LOC 77777~.WORD 1~HALT | PastMemory 3
.LOC 77776~.TXT \"ABC\" | 2 fefffe7fc2fb4241004301000080ff7f
.LOC 77777~.WORD 1~L: | 1 ffffff7f0180010001000080ff7f
.LOC 77777~.WORD 1~L:~.LOC 0~.WORD L | OutOfReach 5
.LOC 100000 | BadLine 1
; no line is bad in two ways: the form comes first, and the first reading before the second
.WORD NONE~.LOC 8 | BadLine 2
A: HALT~A: .WORD 8 | BadLine 2
A: HALT~A: HALT | SameLabel 2
.WORD NONE~A:~A: | SameLabel 3
.WORD NONE | NoLabel 1
LDA 0,NONE+77777777777777777777 | NoLabel 1
; lines of none of the forms
.WORD 200000 | BadLine 1
.WORD | BadLine 1
.WORD 1 2 | BadLine 1
.WORD A +1 | BadLine 1
.WORD A+ | BadLine 1
.TXT\"a\" | BadLine 1
.TXT \"a | BadLine 1
.TXT \"a\" b | BadLine 1
.LOC | BadLine 1
.END 1 2 | BadLine 1
100: HALT | BadLine 1
: HALT | BadLine 1
A: B: HALT | BadLine 1
ABCDEFGHIJKLMNOPQRSTUVWXYZABCDEFG: HALT | BadLine 1
ABCDEFGHIJKLMNOPQRSTUVWXYZABCDEF: HALT | 1 ffff0000c2993f6601000080ff7f
LDA 4,A | BadLine 1
LDA 0 A | BadLine 1
LDA 0,@ A | BadLine 1
LDA 0,A,2 | BadLine 1
ADD A | BadLine 1
FOO | BadLine 1
\"HALT\" | BadLine 1
.FOO 1 | BadLine 1";

/// The bytes of a source.
fn source_of(alloc: Global, text: &str) -> Result<Vec<u8>, AllocError> {
    let mut source = Vec::new(alloc);
    for letter in text.chars() {
        match letter {
            '~' => source.push(b'\n')?,
            '␣' => source.push(b'\r')?,
            '∅' => (),
            _ => source.push((u32::from(letter) % 256) as u8)?,
        }
    }
    Ok(source)
}

fn digit(value: u8) -> u8 {
    b"0123456789abcdef"[usize::from(value % 16)]
}

/// Whether the bytes of a tape are those digits, two a byte.
fn is_tape(tape: &[u8], digits: &[u8]) -> bool {
    let mut place = 0;
    for byte in tape.iter() {
        if place >= digits.len()
            || digits.len() - place < 2
            || digits[place] != digit(*byte / 16)
            || digits[place + 1] != digit(*byte % 16)
        {
            return false;
        }
        place += 2;
    }
    place == digits.len()
}

/// Whether a tape is that of the row: how many words it has, and its bytes.
fn is_made(made: &Assembled, wanted: &str) -> bool {
    match wanted.split_once(' ') {
        Some((count, digits)) => {
            count.parse::<usize>() == Ok(made.words)
                && is_tape(made.tape.as_slice(), digits.as_bytes())
        }
        None => false,
    }
}

fn fault_of(text: &str) -> Option<AsmFault> {
    let (name, digits) = text.split_once(' ')?;
    let line = digits.parse::<u32>().ok()?;
    match name {
        "BadLine" => Some(AsmFault::BadLine(line)),
        "SameLabel" => Some(AsmFault::SameLabel(line)),
        "PastMemory" => Some(AsmFault::PastMemory(line)),
        "NoLabel" => Some(AsmFault::NoLabel(line)),
        "OutOfReach" => Some(AsmFault::OutOfReach(line)),
        _ => None,
    }
}

/// Whether a source has the tape or the fault of the row.
fn assembles(alloc: Global, source: &[u8], wanted: &str) -> bool {
    if source.len() > LONGEST_SOURCE {
        return false;
    }
    match assemble(alloc, source) {
        Ok(made) => is_made(&made, wanted),
        Err(fault) => fault_of(wanted) == Some(fault),
    }
}

fn plays(rt: &impl Abort, alloc: Global, line: &str) -> Result<(), AllocError> {
    let (text, wanted) = line.split_once(" | ").unwrap_or((line, ""));
    let source = source_of(alloc, text)?;
    holds(rt, assembles(alloc, source.as_slice(), wanted), line);
    Ok(())
}

#[test]
fn sources_have_their_tape_or_their_fault(rt: HostRuntime) -> Result<(), Fail> {
    for line in SOURCES.lines() {
        if !line.starts_with("; ") {
            plays(&rt, rt.alloc(), line)?;
        }
    }
    Ok(())
}
