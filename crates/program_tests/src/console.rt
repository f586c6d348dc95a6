// Sessions whose console line gets a port by a RESTORE, with a caller and without one.
use crate::play::all;
use std::test::Fail;

/// A state file of a machine of 4K that has done nothing, and whose console line has the port 4000.
const PORTED: &str =
    "words=-q -l 250 | space=9000 | before=s:NOVASTAT\0\x02\x04…\0…\0…\0…\0…\0…\0…\0…\0…\0…\0…\0…\0…\0…\0…\0…\0\0\0\0\0\0\0\0\0\0\0\0\0\0\0\0\0\0\0\0\0\0\0\0\0\0\0\0\0\0\0\0\0\0\0\0\0\0\0\0\0\0\0\0\0\0~\0\x08\0\0\0\0\0\0\0\0\0\0\0\0\0\0\0\u{c8}\0\0\0\0\0\0\0\0\0\0\0\0\0\0\0\0\x01\x11\0\0\0\0\0\0\0\0\0\0\0\0\0\0\x03\u{e8}\0\0\0\0\0\0\0\0\0\0\0\0\0\0\0\0\0\0\0\0\0\0\0\0\0\0\0\0\0\0\0\0\0\0\0\0\0\0\0\0\0\0\0\0\0\0\0\0\0\0\0\0\x02\x06\0\0\0\0\0\0\0\0\0\0\0\0\0\0\x01\u{f4}\0\0\0\0\0\0\0\0\x03\x06\0\0\0\0\0\0\0\0\0\0\0\0\0\0\x01,\0\0\0\0\0\0\0\0\x04\x06\0\0\0\0\0\0\0\0\0\0\0\0\0\0\0\u{c8}\0\0\0\0\0\0\0\0\x05\x03\0\0\0\0\0\0\0\0\0\0\0\0\x06\x04\0\0\0\0\0\0\0\0\0\0\0d\0\0\0\0\x07\x04\0\0\0\0\0\0\0\0\0\0\0d\0\0\0\0\x08\x04\0\0\0\0\0\0\0\0\0\0\0d\0\0\0\0\x09\x04\0\0\0\0\0\0\0\0\0\0\0d\0\0\0\0\0\x02\x06\0\0\0\0d\x08\0\0\0\0d\0\0\0\0\0\x0f\u{a0}\0\0\0\0\0\0\x11\u{b4}\u{cf}\r J\u{b6}\u{81}'w|\u{e4}\u{ea}bv\u{c7}\u{d9}\u{e7}\u{e0}\r\u{a6}X\u{bc}\u{dc}P~Z_\x03y\u{91}\u{88}";

const KEPT: &str =
    "; no other line can have it, nothing is restored beside it, and DETACH ALL leaves it
lines=RESTORE s~SHOW TTI1~ATTACH TTI1 0~ATTACH TTI1 4000~SHOW TTI1~RESTORE s~DETACH ALL~RESTORE -F s~ATTACH TTI1 4000~ | prints=TTI1, not attached~Value out of range~Port already in use~TTI1, not attached~Unit already attached~Unit already attached~Port already in use~ | ports=1
; the end of the input gives up the other one
lines=RESTORE s~ATTACH TTI1 4001~SHOW TTI1~ | prints=TTI1, listening on port 4001~ | ports=1
lines=RESTORE s~EXIT 3~ | prints= | status=3 | ports=1
; the listening fails, and the next one does not
refuses=0 | lost=1 | lines=RESTORE s~SHOW CPU~RESTORE s~SHOW CPU~ | prints=Port not available~CPU, 32K~CPU, 4K~ | ports=1";

const CALLED: &str = "; a key of a caller comes to the keyboard
types=A | sent= | hangs=0 | lines=RESTORE s~D 100 400~GO 100~E TTI BUF~ | prints=~Instruction limit, PC: 00100 (000400)~BUF:\t101~ | ports=1
; what the console prints is sent at the next look, and goes nowhere else
types=A | sent=A | hangs=0 | lines=RESTORE s~D TTO TIME 10~D 100 63610~D 101 777~D 102 60610~D 103 61111~D 104 100~GO 100~ | prints=~Instruction limit, PC: 00100 (063610)~ | ports=1
; control E of a caller is no key, and stops the run
types=\x05 | sent= | hangs=0 | lines=RESTORE s~D 100 400~GO 100~SHOW TIME~E TTI BUF~ | prints=~Simulation stopped, PC: 00100 (000400)~Time: 100~BUF:\t000~ | ports=1
; a byte of SEND comes first, and nobody is let in at that look
words=-q -l 150 | types=A | lines=RESTORE s~SEND \"x\"~D 100 400~GO 100~E TTI BUF~ | prints=~Instruction limit, PC: 00100 (000400)~BUF:\t170~ | ports=1
; nobody calls: what is printed is lost, and a text is met
lines=RESTORE s~D AC0 101~D 100 61111~D 101 63611~D 102 777~EXPECT \"A\"~GO 100~SHOW TIME~ | prints=~Expect matched, PC: 00102 (000777)~Time: 100~ | ports=1";

#[test]
fn the_console_is_called(rt: HostRuntime) -> Result<(), Fail> {
    all(&rt, rt.alloc(), PORTED, KEPT)?;
    all(&rt, rt.alloc(), PORTED, CALLED)?;
    Ok(())
}
