// Symbolic texts of words, worked out by hand.
use crate::checked::holds;
use nova_symbols::{SymbolFault, print, read};
use nova_word::{Word, read_decimal, read_octal};
use std::process::Abort;

/// A word in octal, and a text of it.
const READ: &str = "0 JMP 0
2377 jmp @377
5 JMP 0005
400 JMP .+0
400 JMP .
400 JMP .-0
4777 JSR .-1
10577 ISZ .+177
14600 DSZ .-200
1005 JMP 5,2
1777 JMP -1 , 3
405 JMP 5,1
773 JMP -5,1
1000 JMP -0,2
33775 LDA 2,@-3,3
54401 STA\t003 ,\t.+1
107132 ADDZL# 0,1,SZC
174000 com 3,3
133767 andcs 1,2,sbn
122416 SUB# 1,0,SEZ
60177 INTEN
60177 NIOS CPU
60177 nios 0,77
62677 IORST
62677 DICC 0,CPU
63077 Halt
73301 MUL
73301 DOCP 2,MDV
73101 DIV
70477 READS 2
65477 INTA 1
76077 MSKO 3
63410 SKPBN TTI
67751 SKPDZ 1,TTO1
70612 DIAC 2,PTR
64414 DIA 1,rtc
62322 DOBP 0,22
60001 NIO 1
64007 NIO 1,07";

/// A fault, its place, and a text between bars.
const REFUSED: &str = "UnknownName ||
UnknownName | JMP 5|
UnknownName |JMPX 5|
UnknownName |JMP,5|
UnknownName |ADD#Z 0,1|
UnknownName |ADDLZ 0,1|
UnknownName |HALTS|
BadField 3 |JMP|
BadField 5 |JMP  |
BadField 4 |JMP 8|
BadField 4 |JMP @|
BadField 4 |JMP .5|
BadField 4 |JMP 5X|
BadField 4 |JMP +5,2|
OutOfRange 4 |JMP 400|
OutOfRange 4 |JMP 7777777777777777777777777777777|
OutOfRange 5 |JMP @400|
OutOfRange 6 |JMP .+200|
OutOfRange 6 |JMP .-201|
OutOfRange 4 |JMP 200,X|
OutOfRange 5 |JMP -201,2|
BadField 6 |JMP -5|
BadField 6 |JMP 5,|
OutOfRange 6 |JMP 5,4|
BadField 6 |JMP 5,0|
BadField 6 |JMP 5,02|
Extra 7 |JMP 5,2,3|
Extra 5 |JMP 5 X|
Extra 7 |JMP .+1,2|
BadField 4 |LDA ,5|
OutOfRange 4 |LDA 4,X|
BadField 4 |LDA AC0,5|
BadField 5 |LDA 0|
BadField 6 |LDA 0 5|
OutOfRange 6 |LDA 0,400|
OutOfRange 6 |MOV 0,4|
BadField 6 |MOV 0,|
BadField 8 |MOV 0,1,SKX|
BadField 8 |MOV 0,1,1|
Extra 11 |MOV 0,1,SKP,2|
BadField 3 |NIO|
OutOfRange 4 |NIO 100|
BadField 4 |NIO 077|
OutOfRange 4 |NIO 4,TTI|
BadField 6 |NIO 0,CLK|
BadField 4 |DIA TTI|
BadField 5 |DIA 0|
OutOfRange 6 |DIA 0,0100|
Extra 9 |SKPBN TTI X|
Extra 4 |HALT X|
BadField 5 |READS|
OutOfRange 6 |READS 4|
Extra 7 |READS 0,1|";

/// A word in octal, and its canonical text.
const PRINTED: &str = "0 JMP 0
400 JMP .+0
777 JMP .-1
1000 JMP 0,2
1777 JMP -1,3
1600 JMP -200,3
33775 LDA 2,@-3,3
40401 STA 0,.+1
107132 ADDZL# 0,1,SZC
100000 COM 0,0
60177 INTEN
64177 NIOS 1,CPU
60001 NIO MDV
60002 NIO 02
63410 SKPBN TTI
67751 SKPDZ 1,TTO1
70477 READS 2
70577 DIAS 2,CPU
60414 DIA 0,RTC
73301 MUL
77301 DOCP 3,MDV
63077 HALT
67077 DOC 1,CPU";

fn word_row(line: &str) -> Option<(Word, &str)> {
    let (digits, text) = line.split_once(' ')?;
    let word = read_octal(digits.as_bytes()).ok()?;
    Some((Word((word % 65536) as u16), text))
}

fn fault_row(line: &str) -> Option<(SymbolFault, &str)> {
    let (fault, text) = line.strip_suffix('|')?.split_once(" |")?;
    Some((fault_of(fault)?, text))
}

fn fault_of(text: &str) -> Option<SymbolFault> {
    let (name, digits) = text.split_once(' ').unwrap_or((text, "0"));
    let place = (read_decimal(digits.as_bytes()).ok()? % 65536) as usize;
    match name {
        "UnknownName" => Some(SymbolFault::UnknownName),
        "BadField" => Some(SymbolFault::BadField(place)),
        "OutOfRange" => Some(SymbolFault::OutOfRange(place)),
        "Extra" => Some(SymbolFault::Extra(place)),
        _ => None,
    }
}

fn is_read(line: &str) -> bool {
    match word_row(line) {
        Some((word, text)) => read(text.as_bytes()) == Ok(word),
        None => false,
    }
}

#[test]
fn reads_the_text_of_a_word(rt: HostRuntime) {
    for line in READ.lines() {
        holds(&rt, is_read(line), line);
    }
}

fn is_refused(line: &str) -> bool {
    match fault_row(line) {
        Some((fault, text)) => read(text.as_bytes()) == Err(fault),
        None => false,
    }
}

#[test]
fn answers_the_leftmost_fault(rt: HostRuntime) {
    for line in REFUSED.lines() {
        holds(&rt, is_refused(line), line);
    }
}

fn reads_back(w: u16) -> bool {
    let mut out = [0u8; 32];
    let count = print(Word(w), &mut out);
    count <= 32 && read(&out[..count]) == Ok(Word(w))
}

fn holds_at(rt: &impl Abort, so: bool, w: u16) {
    assert!(rt; so, "at {w}");
}

#[test]
fn each_canonical_text_reads_back(rt: HostRuntime) {
    for w in 0..=65535u16 {
        holds_at(&rt, reads_back(w), w);
    }
}

fn prints(word: Word, text: &str) -> bool {
    let mut out = [0u8; 32];
    let count = print(word, &mut out);
    count <= 32 && &out[..count] == text.as_bytes()
}

fn is_printed(line: &str) -> bool {
    match word_row(line) {
        Some((word, text)) => prints(word, text),
        None => false,
    }
}

#[test]
fn prints_the_canonical_text(rt: HostRuntime) {
    for line in PRINTED.lines() {
        holds(&rt, is_printed(line), line);
    }
}
