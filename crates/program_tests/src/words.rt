// The words of the command line: what is outside their grammar, what they name, and the workload.
use crate::play::all;
use std::test::Fail;

const REFUSED: &str =
    "lines=DEPOSIT 40 7~DEPOSIT 100 20040~DEPOSIT PC 100~STEP~EXAMINE AC0~EXIT~ | status=100 | prints=usage: nova [-q] [-k keys] [-l instructions] [-m commands] [-g number] [script [arguments]]~";

const BAD_WORDS: &str = "words=-x
words=-q -q
words=∅
; a console fault prevails
words=-x | lines= | room=6 | status=102 | machine=none
; limits
words=-l ∅
words=-l 0
words=-l 05
words=-l -5
words=-l 5␣
words=-l 281474976710657
words=-l 99999999999999999999999999
words=-l 5 -l
words=-q -l -q
words=-l -q 5
; budgets
words=-m 0
words=-m 4294967297
words=-m 02
words=-m ∅
words=-m -1
words=-m 1x
words=-m 5 -m
words=-q -q -m
words=-m -q 5
; workloads
words=-g 0
words=-g 65536
words=-g 1 demo
; scripts and their arguments
words=demo 1 2 3 4 5 6 7 8 9 10
words=demo ∅
words=demo a ∅ b
words=∅ demo
words=-
words=-- demo
; a name of 256 bytes
words=nnnnnnnnnnnnnnnnnnnnnnnnnnnnnnnnnnnnnnnnnnnnnnnnnnnnnnnnnnnnnnnnnnnnnnnnnnnnnnnnnnnnnnnnnnnnnnnnnnnnnnnnnnnnnnnnnnnnnnnnnnnnnnnnnnnnnnnnnnnnnnnnnnnnnnnnnnnnnnnnnnnnnnnnnnnnnnnnnnnnnnnnnnnnnnnnnnnnnnnnnnnnnnnnnnnnnnnnnnnnnnnnnnnnnnnnnnnnnnnnnnnnnnnnnnnnnnnn";

/// In the grammar: the script is looked for, and is not there.
const MISSING: &str =
    "lines=DEPOSIT 40 7~DEPOSIT 100 20040~DEPOSIT PC 100~STEP~EXAMINE AC0~EXIT~ | status=101 | prints=Cannot open demo~";

const SCRIPTS: &str = "words=demo
words=-q demo
words=demo -q
words=-l 5 demo -x --
words=demo 1 2 3 4 5 6 7 8 9
words=-m 5 demo -k
; a console fault prevails
words=demo | lines= | room=8 | status=102 | machine=none";

/// What the workload prints was worked out apart from the program, and so were its words: the first two and the last, what is
/// before and behind them, and the loop.
const WORKLOAD: &str =
    "lines=DEPOSIT 40 7~DEPOSIT 100 20040~DEPOSIT PC 100~STEP~EXAMINE AC0~EXIT~ | left=DEPOSIT 40 7~DEPOSIT 100 20040~DEPOSIT PC 100~STEP~EXAMINE AC0~EXIT~ | prints=~Instruction limit, PC: 01001 (167237)~AC0:\t000000~AC1:\t000000~AC2:\t000000~AC3:\t000000~C:\t0~Time: 1~ | cells=76:1000 77:1750 100:0 777:0 1000:114156 1001:167237 10777:130001 11000:101000 11001:14077 11002:2076 11003:63077 11004:0";

/// Each of its three commands costs a unit.
const WORKLOADS: &str = "words=-g 1 -l 1
words=-m 3 -l 1 -g 1
words=-m 2 -l 1 -g 1 | status=104 | prints=~Instruction limit, PC: 01001 (167237)~AC0:\t000000~AC1:\t000000~AC2:\t000000~AC3:\t000000~C:\t0~";

#[test]
fn words_begin_a_session(rt: HostRuntime) -> Result<(), Fail> {
    all(&rt, rt.alloc(), REFUSED, BAD_WORDS)?;
    all(&rt, rt.alloc(), MISSING, SCRIPTS)?;
    all(&rt, rt.alloc(), WORKLOAD, WORKLOADS)?;
    Ok(())
}
