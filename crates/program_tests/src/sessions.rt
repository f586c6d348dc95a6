// Sessions without files: what they print, and how they end.
use crate::play::all;
use std::test::Fail;

const SESSIONS: &str = "; the first fault of each line, from the left
lines=FOO~E 8~STEP 0~D SIZE 1~E XYZ~D AC0 200000~GO 1 2~ | prints=Unknown command~Invalid number at 2~Value out of range~Read only name~No such name~Value out of range~Too many arguments at 5~
; memory of a size, conditions and texts; a state file without a name
lines=SET CPU 4K~SHOW CPU~D 10000 1~ASSERT SIZE=10000~AS PC>0~ECHO  a b ~RESTORE~SAVE~B ;~SET TTI1 DISCONNECT~SHOW VERSION~ | prints=CPU, 4K~Value out of range~Assertion failed~ a b ~Too few arguments~Too few arguments~Invalid number at 2~Unit not attached~Nova simulator, project version 1~
lines=DEPOSIT 40 7~DEPOSIT 100 20040~DEPOSIT PC 100~STEP~EXAMINE AC0~EXIT~ | prints=~Step expired, PC: 00101 (000000)~AC0:\t000007~
; an empty input ends well, and not for want of memory
lines= | prints=
lines=~~ | prints=
; the last line may lack its end, and a CR before an LF is dropped
lines=DEPOSIT 40 7\r~DEPOSIT 100 20040\r~DEPOSIT PC 100~~STEP~EXAMINE AC0 | prints=~Step expired, PC: 00101 (000000)~AC0:\t000007~
lines=EXIT\r | prints=Unknown command~
; nothing behind EXIT is done or read
lines=EXIT~EXAMINE AC0~ | prints= | left=EXAMINE AC0~
lines=FOO~examine ac0~E\tAC0 ~STEP -1~ATTACH~E DSK BUSY~E PTR~SHOW BREAK~SHOW FOO~ | prints=Unknown command~AC0:\t000000~AC0:\t000000~Invalid number at 5~Too few arguments~BUSY:\t0~Too few arguments~Invalid name at 5~
lines=DEPOSIT 100000 1~DEPOSIT 077777 1~DEPOSIT 8 1~DEPOSIT 1 200000~DEPOSIT 1 0000001~E 1~ | prints=Value out of range~Invalid number at 8~Value out of range~00001:\t000001~
lines=DEPOSIT 77777 177777~EXAMINE 77777~EXAMINE 0~ | prints=77777:\t177777~00000:\t000000~
lines=DEPOSIT PC 77777~EXAMINE PC~DEPOSIT PC 100000~EXAMINE PC~ | prints=PC:\t77777~Value out of range~PC:\t77777~
lines=DEPOSIT AC3 177777~EXAMINE AC3~EXAMINE AC2~ | prints=AC3:\t177777~AC2:\t000000~
; ISZ skips where the sum is 0, around the end of memory
lines=DEPOSIT 77776 10000~DEPOSIT 0 177777~DEPOSIT PC 77776~STEP~EXAMINE 0~ | prints=~Step expired, PC: 00000 (000000)~00000:\t000000~
; JSR forms its address before AC3 changes
lines=DEPOSIT AC3 200~DEPOSIT 100 5401~DEPOSIT PC 100~STEP~EXAMINE AC3~ | prints=~Step expired, PC: 00201 (000000)~AC3:\t000101~
; a word to a device that is not there does nothing, or stops under STOP_DEV, with the machine as it was
lines=DEPOSIT 100 60000~DEPOSIT PC 100~STEP~DEPOSIT STOP_DEV 1~GO 100~EXAMINE PC~SHOW TIME~ | prints=~Step expired, PC: 00101 (000000)~~Unknown device, PC: 00100 (060000)~PC:\t00100~Time: 1~
; the clock ticks after 1000 instructions, and SKPDN sees it
lines=D AC0 3~D 100 61114~D 101 63614~D 102 777~D 103 63077~GO 100~SHOW TIME~E CLK STATE~ | prints=~HALT instruction, PC: 00104 (000000)~Time: 1003~BUSY:\t0~DONE:\t1~SEL:\t3~
; what the teletype prints comes in front of the stop, and RESET clears it
lines=D AC0 101~D 100 61111~D 101 63611~D 102 777~D 103 63077~GO 100~SHOW TIME~SHOW QUEUE~E TTO DONE~RESET~E TTO DONE~E PC~SHOW QUEUE~ | prints=A~HALT instruction, PC: 00104 (000000)~Time: 103~TTI 97~TTI1 97~DONE:\t1~DONE:\t0~PC:\t00104~TTI 100~TTI1 100~
; INC of all ones carries, and HALT counts as an instruction
lines=DEPOSIT AC0 177777~DEPOSIT 100 101400~DEPOSIT 101 63077~GO 100~EXAMINE AC0~EXAMINE C~SHOW TIME~ | prints=~HALT instruction, PC: 00102 (000000)~AC0:\t000000~C:\t1~Time: 2~
; auto-index through 20, whose changed word is the address
lines=DEPOSIT 20 177777~DEPOSIT 0 123~DEPOSIT 100 22020~DEPOSIT PC 100~STEP~EXAMINE 20~EXAMINE AC0~ | prints=~Step expired, PC: 00101 (000000)~00020:\t000000~AC0:\t000123~
; the choice of the other rule, by which bit 0 is tested before the change: 177777 leads on, and 077777 does not
lines=SET CPU AUTOBIT=BEFORE~D 123 456~D 20 177777~D 0 123~D 100 22020~D PC 100~STEP~E 20,AC0~ | prints=~Step expired, PC: 00101 (000000)~00020:\t000000~AC0:\t000456~
lines=SET CPU AUTOBIT=BEFORE~D 123 456~D 20 77777~D 0 123~D 100 22020~D PC 100~STEP~E 20,AC0~ | prints=~Step expired, PC: 00101 (000000)~00020:\t100000~AC0:\t000123~
; and back
lines=SET CPU AUTOBIT=BEFORE~SET CPU AUTOBIT=AFTER~D 20 177777~D 0 123~D 100 22020~D PC 100~STEP~E 20,AC0~ | prints=~Step expired, PC: 00101 (000000)~00020:\t000000~AC0:\t000123~
; a reset and another size of memory leave it
lines=set cpu autobit=before~RESET~SHOW CPU~SET CPU 8K~SHOW CPU~SET CPU AUTOBIT=after~SHOW CPU~ | prints=CPU, 32K, autobit before~CPU, 8K, autobit before~CPU, 8K~
lines=SET CPU AUTOBIT=X~SET CPU AUTOBIT~SET CPU AUTOBIT=BEFORE 1~SHOW CPU~ | prints=Invalid name at 8~Invalid name at 8~Too many arguments at 23~CPU, 32K~
; a chain without end
lines=DEPOSIT 100 100100~DEPOSIT 200 2100~GO 200~SHOW TIME~ | prints=~Indirect chain limit, PC: 00200 (002100)~Time: 0~
; MUL, and DIV that overflows
lines=DEPOSIT AC0 177777~DEPOSIT AC1 177777~DEPOSIT AC2 177777~DEPOSIT 100 73301~DEPOSIT PC 100~STEP~EXAMINE AC0~EXAMINE AC1~ | prints=~Step expired, PC: 00101 (000000)~AC0:\t177777~AC1:\t000000~
lines=DEPOSIT AC0 5~DEPOSIT AC1 3~DEPOSIT AC2 5~DEPOSIT C 0~DEPOSIT 100 73101~DEPOSIT PC 100~STEP~EXAMINE AC1~EXAMINE C~ | prints=~Step expired, PC: 00101 (000000)~AC1:\t000003~C:\t1~
; a count is decimal, may have leading zeros, and is at least 1
lines=DEPOSIT 0 0~STEP 010~SHOW TIME~STEP 0~STEP 281474976710657~STEP 8x~DEPOSIT C 2~ | prints=~Step expired, PC: 00000 (000000)~Time: 10~Value out of range~Value out of range~Invalid number at 5~Value out of range~
; RUN and GO begin at their address, CONT at PC
lines=DEPOSIT 100 63077~DEPOSIT 101 63077~DEPOSIT 102 63077~RUN 100~CONT~GO~GO 100000~RUN x~ | prints=~HALT instruction, PC: 00101 (063077)~~HALT instruction, PC: 00102 (063077)~~HALT instruction, PC: 00103 (000000)~Value out of range~Invalid number at 4~
; a displacement is signed on an index: LDA 0,-1,2
lines=DEPOSIT AC2 200~DEPOSIT 177 5~DEPOSIT 100 21377~DEPOSIT PC 100~STEP~EXAMINE AC0~ | prints=~Step expired, PC: 00101 (000000)~AC0:\t000005~
; symbolic text both ways
lines=D -M 100 SUBZL 0,0~E 100~D PC 100~STEP~E AC0,C~ | prints=00100:\t102520~~Step expired, PC: 00101 (000000)~AC0:\t000001~C:\t0~
lines=D -M 100 ADDZL 1,2,SNC~E 100~E -M 100~ | prints=00100:\t133123~00100:\tADDZL 1,2,SNC~
; each fault with its text
lines=FOO~E 8~STEP 0~D SIZE 1~E XYZ~D AC0 200000~GO 1 2~D -M 1 FOO~ | prints=Unknown command~Invalid number at 2~Value out of range~Read only name~No such name~Value out of range~Too many arguments at 5~Invalid instruction at 7~
; RUN resets and GO does not
lines=D ION 1~D MASK 7~D SR 5~D 100 63077~GO 100~E ION,MASK~RUN 100~E ION,MASK,SR~ | prints=~HALT instruction, PC: 00101 (000000)~ION:\t1~MASK:\t000007~~HALT instruction, PC: 00101 (000000)~ION:\t0~MASK:\t000000~SR:\t000005~
; a status of EXIT is 0 to 99
lines=EXIT 100~quit 42~E AC0~ | prints=Value out of range~ | status=42";

const PROMPTS: &str = "prints=sim>  | status=0
lines=~EXAMINE PC | prints=sim> sim> PC:\t00000~sim>  | status=0";

const BUDGETS: &str = "words=-q -m 2 | status=104 | prints=a~b~ | left=CHO c~
words=-m 3 -q | prints=a~b~c~
words=-q -m 4294967296 | prints=a~b~c~";

const LIMITS: &str = "words=-q -l 5
words=-l 5 -q
words=-q -l 281474976710656 | lines= | prints=";

const RUNS: &str =
    "lines=DEPOSIT 100 400~GO 100~SHOW TIME~STEP 7~STEP 5~SHOW TIME~ | prints=~Instruction limit, PC: 00100 (000400)~Time: 5~~Instruction limit, PC: 00100 (000400)~~Step expired, PC: 00100 (000400)~Time: 15~";

/// A program that loops, while both keyboards look for keys.
const LOOPS: &str =
    "words=-q -l 250 | lines=D 100 400~GO 100~E TTI1 STATE~SHOW QUEUE~ | prints=~Instruction limit, PC: 00100 (000400)~BUSY:\t0~DONE:\t0~TIME:\t000144~BUF:\t000~TTI 50~TTI1 50~";

const CALLERS: &str = "types=A
; without a caller
status=0";

/// A run of one instruction.
const STEPS: &str =
    "words=-q | lines=DEPOSIT 40 7~DEPOSIT 100 20040~DEPOSIT PC 100~STEP~EXAMINE AC0~EXIT~ | prints=~Step expired, PC: 00101 (000000)~AC0:\t000007~ | status=102";

const ROOMS: &str = "room=0
room=1
room=2
room=3
room=4
room=5
room=6
room=7
room=8
room=9
room=10
room=11
room=12
room=13
room=14
room=15
room=16
room=17
room=18
room=19
room=20
room=21
room=22
room=23
room=24
room=25
room=26
room=27
room=28
room=29
room=30
room=31
room=32
room=33
room=34
room=35
room=36
room=37
room=38
room=39
room=40
room=41
room=42
room=43
room=44
room=45
room=46 | status=0";

/// A program that prints the character in AC0 and waits until it is printed.
const PRINTED: &str =
    "words=-q | lines=D AC0 101~D 100 61111~D 101 63611~D 102 777~D 103 63077~GO 100~SHOW TIME~SHOW QUEUE~E TTO DONE~RESET~E TTO DONE~E PC~SHOW QUEUE~ | prints=A | status=102";

const READS: &str = "read=0
read=1
read=2
read=3
read=4
read=5
read=6
read=7
read=8
read=9
read=10
read=11 | prints=PC:\t00000~
read=12 | prints=PC:\t00000~
read=13 | prints=PC:\t00000~
read=14 | prints=PC:\t00000~
read=15 | prints=PC:\t00000~
read=16 | prints=PC:\t00000~
read=17 | prints=PC:\t00000~
read=18 | prints=PC:\t00000~
read=19 | prints=PC:\t00000~
read=20 | prints=PC:\t00000~
read=21 | prints=PC:\t00000~
read=22 | prints=PC:\t00000~
read=23 | prints=PC:\t00000~AC1:\t000000~";

const EXAMINES: &str = "words=-q | lines=EXAMINE PC~EXAMINE AC1~ | prints= | status=106";

#[test]
fn sessions_end_with_their_status(rt: HostRuntime) -> Result<(), Fail> {
    all(&rt, rt.alloc(), "words=-q", SESSIONS)?;
    all(&rt, rt.alloc(), "", PROMPTS)?;
    all(&rt, rt.alloc(), "lines=ECHO a~ECHO b~ECHO c~", BUDGETS)?;
    all(&rt, rt.alloc(), RUNS, LIMITS)?;
    all(&rt, rt.alloc(), LOOPS, CALLERS)?;
    all(&rt, rt.alloc(), STEPS, ROOMS)?;
    all(&rt, rt.alloc(), PRINTED, "room=0\nroom=1")?;
    all(&rt, rt.alloc(), EXAMINES, READS)?;
    Ok(())
}
