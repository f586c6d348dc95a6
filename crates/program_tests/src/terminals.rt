// Sessions whose second teletype has a port, with a caller and without one.
use crate::play::all;
use std::test::Fail;

/// A program that loops, while the caller types one key.
const TYPED: &str =
    "types=A | sent= | lines=ATTACH TTI1 4000~D 100 400~GO 100~E TTI1 BUF~ | prints=~Instruction limit, PC: 00100 (000400)~BUF:\t101~
; the port is another one, and the caller waits
types=A | lines=ATTACH TTI1 4001~D 100 400~GO 100~E TTI1 BUF~ | prints=~Instruction limit, PC: 00100 (000400)~BUF:\t000~
; nobody calls
lines=ATTACH TTI1 4000~D 100 400~GO 100~E TTI1 BUF~ | prints=~Instruction limit, PC: 00100 (000400)~BUF:\t000~
; the call that accepts at the first look fails, and that of the second does not
types=A | sent= | refuses=1 | lost=1 | lines=ATTACH TTI1 4000~D 100 400~GO 100~E TTI1 BUF~ | prints=~Instruction limit, PC: 00100 (000400)~BUF:\t101~";

/// A program that prints each key at once.
const ECHOES: &str =
    "types=A | lines=ATTACH TTI1 4000~D TTO1 TIME 10~D 100 63650~D 101 777~D 102 60650~D 103 61151~D 104 100~GO 100~ | prints=~Instruction limit, PC: 00100 (063650)~";

/// At the look of 200 the key is sent back; at that of 300 the caller has gone.
const HEARD: &str = "words=-q -l 150 | sent=
words=-q -l 250 | sent=A
words=-q -l 350 | sent=A | hangs=0
; what waits at the hang-up is lost
words=-q -l 450 | types=AB | sent=A | hangs=0
; looks after 32 each; eight bits both ways, and FF twice
words=-q -l 250 | lines=ATTACH TTI1 4000~D TTI1 TIME 40~D TTO1 TIME 10~D 100 63650~D 101 777~D 102 60650~D 103 61151~D 104 100~GO 100~ | types=\u{ff}\u{ff}\u{c1} | sent=\u{ff}\u{ff}\u{c1}";

#[test]
fn a_program_prints_on_the_terminal(rt: HostRuntime) -> Result<(), Fail> {
    all(&rt, rt.alloc(), ECHOES, HEARD)
}

const SHOWN: &str = "; a caller is let in by a run, and SET hangs up
types=A | sent= | lines=ATTACH TTI1 4000~SHOW TTI1~D 100 400~GO 100~SHOW TTI1~SET TTI1 DISCONNECT~SHOW TTI1~DETACH TTI1~SHOW TTI1~ | prints=TTI1, listening on port 4000~~Instruction limit, PC: 00100 (000400)~TTI1, listening on port 4000, connected~TTI1, listening on port 4000~TTI1, not attached~
; DETACH hangs up too
types=A | sent= | lines=ATTACH TTI1 4000~D 100 400~GO 100~DETACH TTI1~SHOW TTI1~ATTACH TTI1 4000~SHOW TTI1~ | prints=~Instruction limit, PC: 00100 (000400)~TTI1, not attached~TTI1, listening on port 4000~
; the caller hangs up
words=-q -l 350 | types=A | sent= | hangs=0 | lines=ATTACH TTI1 4000~D 100 400~GO 100~SHOW TTI1~ | prints=~Instruction limit, PC: 00100 (000400)~TTI1, listening on port 4000~
; a call that receives fails, and the program hangs up
types=A | sent= | refuses=4 | lost=1 | lines=ATTACH TTI1 4000~D 100 400~GO 100~SHOW TTI1~DETACH TTI1~ | prints=~Instruction limit, PC: 00100 (000400)~TTI1, listening on port 4000~
; a reset leaves it
types=A | sent= | lines=ATTACH TTI1 4000~D 100 400~GO 100~RESET~SHOW TTI1~ | prints=~Instruction limit, PC: 00100 (000400)~TTI1, listening on port 4000, connected~";

#[test]
fn a_connection_is_shown_and_dropped(rt: HostRuntime) -> Result<(), Fail> {
    all(&rt, rt.alloc(), "words=-q -l 250", SHOWN)
}

const REFUSED: &str =
    "lines=SHOW TTI1~DETACH TTI1~SET TTI1 DISCONNECT~DETACH ALL~ | prints=TTI1, not attached~Unit not attached~Unit not attached~
lines=ATTACH TTI1 0~ATTACH TTI1 65536~ATTACH TTI1 18446744073709551616~SHOW TTI1~ | prints=Value out of range~Value out of range~Value out of range~TTI1, not attached~
lines=ATTACH TTI1 4000~ATTACH TTI1 4000~ATTACH TTI1 0~SHOW TTI1~ | prints=Unit already attached~Unit already attached~TTI1, listening on port 4000~
lines=ATTACH TTI1 65535~DETACH TTI1~DETACH TTI1~ATTACH TTI1 1~SHOW TTI1~ | prints=Unit not attached~TTI1, listening on port 1~
; the listening fails, and the next one does not
refuses=0 | lost=1 | lines=ATTACH TTI1 4000~SHOW TTI1~DETACH TTI1~ATTACH TTI1 4000~SHOW TTI1~ | prints=Port not available~TTI1, not attached~Unit not attached~TTI1, listening on port 4000~
; it is the refused line that makes no call
refuses=1 | lost=1 | lines=ATTACH TTI1 0~ATTACH TTI1 4000~DETACH TTI1~ATTACH TTI1 4000~SHOW TTI1~ | prints=Value out of range~Port not available~TTI1, not attached~";

const ENDS: &str = "status=0
more=EXIT 3~ | status=3
more=DETACH TTI1~EXIT 3~ | status=3
more=ATTACH PTR p~DETACH ALL~SHOW TTI1~SHOW PTR~ | then=TTI1, not attached~PTR, not attached~ | after=p:
; an EXIT that is refused, and early ends: the port is listened on until the program is gone
words=-q -m 2 | more=EXIT 100~EXIT~ | then=Value out of range~ | status=104 | ports=1
words=-q -m 1 | more=E PC~ | status=104 | ports=1
words=-q -m 2 | more=DETACH ALL~E PC~ | status=104
room=0 | more=E PC~EXIT~ | then=PC:\t00000~ | status=102 | ports=1";

/// Sector 0 is written, and can't be written back.
const UNWRITTEN: &str =
    "words=-q | fails=2 0 | lines=ATTACH TTI1 4000~ATTACH -N DSK d~D DSK MA 200~D 100 60320~D 101 63620~D 102 777~D 103 63077~GO 100~ | prints=~HALT instruction, PC: 00104 (000000)~ | after=d:";

const KEPT: &str = "status=107 | note=8 203 Write 0 | ports=1
more=DETACH ALL~SHOW TTI1~EXIT 3~ | then=File error~TTI1, listening on port 4000~ | status=3 | note=9 203 Write 0 | after=d:\0…
more=EXIT 4~SHOW TTI1~EXIT 3~ | then=File error~TTI1, listening on port 4000~ | status=3 | note=9 203 Write 0 | after=d:\0…";

#[test]
fn terminals_are_called(rt: HostRuntime) -> Result<(), Fail> {
    all(&rt, rt.alloc(), "words=-q -l 250", TYPED)?;
    all(&rt, rt.alloc(), "words=-q", REFUSED)?;
    all(&rt, rt.alloc(), "words=-q | lines=ATTACH TTI1 4000~", ENDS)?;
    all(&rt, rt.alloc(), UNWRITTEN, KEPT)?;
    Ok(())
}
