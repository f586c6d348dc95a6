// Sessions whose multiplexer has ports, with a caller and without one.
use crate::play::{all, all_over_lines};
use std::test::Fail;

/// A program that starts a line, waits for a byte of any, and sends back what AC1 has then, on the line of AC0. The
/// caller is that of line 3.
const ECHOES: &str =
    "words=-q | types=A | lines=D 100 62030~D 101 63630~D 102 777~D 103 64530~D 104 65030~D 105 63530~D 106 777~D 107 63077~D AC0 3~ATTACH QTY 3997~";

const HEARD: &str =
    "sent= | more=GO 100~SHOW TIME~E AC1~SHOW QTY~ | then=~HALT instruction, PC: 00110 (000000)~Time: 202~AC1:\t101501~QTY, listening on ports 3997 to 4060, 1 connected~
; the port is line 2's, which the program does not start
more=DETACH QTY~ATTACH QTY 3998~D PC 100~STEP 400~SHOW QTY~ | then=~Step expired, PC: 00102 (000777)~QTY, listening on ports 3998 to 4061~
; behind a DETACH nobody is connected, and what waits to be sent is lost
sent= | more=GO 100~DETACH QTY~SHOW QTY~ATTACH QTY 3997~SHOW QTY~ | then=~HALT instruction, PC: 00110 (000000)~QTY, not attached~QTY, listening on ports 3997 to 4060~
; a reset leaves ports and callers
sent= | more=GO 100~RESET~SHOW QTY~ | then=~HALT instruction, PC: 00110 (000000)~QTY, listening on ports 3997 to 4060, 1 connected~
; the call that accepts at the first service fails, and that of the second does not
sent= | refuses=64 | lost=1 | more=GO 100~SHOW TIME~ | then=~HALT instruction, PC: 00110 (000000)~Time: 302~";

const REFUSED: &str =
    "lines=SHOW QTY~DETACH QTY~DETACH ALL~ | prints=QTY, not attached~Unit not attached~
lines=ATTACH QTY 65473~ATTACH QTY 5000~ATTACH TTI1 5010~SHOW QTY~ | prints=Value out of range~Port already in use~QTY, listening on ports 5000 to 5063~
lines=ATTACH QTY 0~ATTACH QTY 65536~ATTACH QTY 18446744073709551615~SHOW QTY~ | prints=Value out of range~Value out of range~Value out of range~QTY, not attached~
lines=ATTACH QTY 65472~SHOW QTY~DETACH QTY~ATTACH QTY 1~SHOW QTY~ | prints=QTY, listening on ports 65472 to 65535~QTY, listening on ports 1 to 64~
; a unit that has ports is refused others before they are looked at
lines=ATTACH QTY 5000~ATTACH QTY 5000~ATTACH QTY 0~SHOW QTY~ | prints=Unit already attached~Unit already attached~QTY, listening on ports 5000 to 5063~
; the port of the second teletype is the first, the last, and none of those that are wanted
lines=ATTACH TTI1 5000~ATTACH QTY 5000~ATTACH QTY 4937~SHOW QTY~ATTACH QTY 5001~SHOW QTY~ | prints=Port already in use~Port already in use~QTY, not attached~QTY, listening on ports 5001 to 5064~
lines=ATTACH TTI1 5000~ATTACH QTY 4936~SHOW QTY~DETACH TTI1~ATTACH TTI1 4999~ATTACH TTI1 5000~ | prints=QTY, listening on ports 4936 to 4999~Port already in use~
; a listening fails: the first, one in the middle, the last; and what was listened on is given up
refuses=0 | lost=1 | lines=ATTACH QTY 4000~SHOW QTY~DETACH QTY~ATTACH QTY 4000~SHOW QTY~ | prints=Port not available~QTY, not attached~Unit not attached~QTY, listening on ports 4000 to 4063~
refuses=9 | lost=1 | lines=ATTACH QTY 4000~SHOW QTY~ATTACH TTI1 4005~SHOW TTI1~ | prints=Port not available~QTY, not attached~TTI1, listening on port 4005~
refuses=63 | lost=1 | lines=ATTACH QTY 4000~ATTACH QTY 4000~SHOW QTY~ | prints=Port not available~QTY, listening on ports 4000 to 4063~
; forms of no command
lines=ATTACH QTY tape~ATTACH -R QTY 4000~SET QTY DISCONNECT~SHOW QTY5~ | prints=Invalid number at 11~Invalid name at 10~Invalid name at 4~Invalid name at 5~";

const ENDS: &str = "status=0
more=EXIT 3~ | status=3
more=DETACH QTY~EXIT 3~ | status=3
more=ATTACH TTI1 5000~ATTACH PTR p~DETACH ALL~SHOW TTI1~SHOW QTY~ | then=TTI1, not attached~QTY, not attached~ | after=p:
; early ends: the ports are listened on until the program is gone
words=-q -m 1 | more=E PC~ | status=104 | ports=64
room=0 | more=E PC~EXIT~ | then=PC:\t00000~ | status=102 | ports=64";

#[test]
fn a_program_hears_and_answers_on_its_lines(rt: HostRuntime) -> Result<(), Fail> {
    all_over_lines(&rt, rt.alloc(), ECHOES, HEARD)
}

#[test]
fn ports_in_a_row_are_given_or_refused(rt: HostRuntime) -> Result<(), Fail> {
    all_over_lines(&rt, rt.alloc(), "words=-q", REFUSED)?;
    all_over_lines(&rt, rt.alloc(), "words=-q | lines=ATTACH QTY 4000~", ENDS)?;
    Ok(())
}

/// A machine without it: the unit is missing before anything else is wrong, and no other unit lacks anything.
const MISSING: &str =
    "lines=ATTACH QTY 5000~DETACH QTY~SHOW QTY~E QTY BUSY~ | prints=No such name~No such name~No such name~No such name~
lines=ATTACH TTI1 5000~ATTACH QTY 5000~ATTACH QTY 0~SHOW TTI1~ | prints=No such name~No such name~TTI1, listening on port 5000~
lines=DETACH ALL~D QTY TIME 1~ | prints=No such name~";

#[test]
fn a_machine_without_it_has_no_such_name(rt: HostRuntime) -> Result<(), Fail> {
    all(&rt, rt.alloc(), "words=-q", MISSING)
}
