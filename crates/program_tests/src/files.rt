// Sessions with files and timed keys, whose calls fail one after another.
use crate::play::all;
use std::test::Fail;

const ATTACHES: &str =
    "lines=ATTACH -E PTR p~SHOW PTR~ATTACH PTR p~SHOW PTR~ATTACH PTR q~ATTACH -R PTP p~DETACH LPT~ | prints=File not found~PTR, not attached~PTR, attached to p~Unit already attached~Read only not allowed~Unit not attached~ | after=p: & q
before=p:ab | lines=ATTACH -R PTR p~SHOW PTR~EXIT 4~ | prints=PTR, attached to p, read only~ | status=4 | after=p:ab";

/// A program that punches As without end; its file is looked for, made and measured, and then each byte is a call.
const LOOPS: &str =
    "words=-q | lines=D AC0 101~D 100 61113~D 101 63613~D 102 777~D 103 100~ATTACH PTP out~GO 100~ | prints=~File error on PTP, PC: 00102 (000777)~";

const BYTES: &str = "fails=3 0 | note=7 200 Write 0 | after=out:
fails=3 1 | note=7 200 Write 1 | after=out:A
fails=4 0 | note=7 403 Write 0 | after=out:A
fails=4 1 | note=7 403 Write 1 | after=out:AA
fails=5 0 | note=7 606 Write 0 | after=out:AA
fails=6 0 | note=7 809 Write 0 | after=out:AAA";

/// A file that was attached, and then a session that ends early: no call closes it, so that the call that would have failed is
/// not made.
const STAYS_OPEN: &str =
    "words=-q | fails=3 | lines=ATTACH PTP out~E C~ | prints=C:\t0~ | after=out:";

const ENDS: &str = "room=3 | status=102
words=-q -m 1 | prints= | status=104
; it closes the file where the input ends, and at EXIT
note=2 0 Closing 0
lines=ATTACH PTP out~EXIT 3~ | prints= | status=3 | note=2 0 Closing 0";

/// A program that punches one character, over a file that is not there: it is looked for, made and measured, the byte is
/// written, and at the end of the input it is closed.
const PUNCHES: &str =
    "words=-q | lines=D AC0 101~D 100 61113~D 101 63613~D 102 777~D 103 63077~ATTACH PTP out~GO 100~ | prints=~HALT instruction, PC: 00104 (000000)~ | after=out:A";

const IN_TURN: &str =
    "fails=0 0 | prints=File error~~HALT instruction, PC: 00104 (000000)~ | note=6 0 Opening 0 | after=out
fails=0 1 | prints=File error~~HALT instruction, PC: 00104 (000000)~ | note=6 0 Opening 0 | after=out
fails=1 0 | prints=File error~~HALT instruction, PC: 00104 (000000)~ | note=6 0 Opening 0 | after=out
fails=1 1 | prints=File error~~HALT instruction, PC: 00104 (000000)~ | note=6 0 Opening 0 | after=out
fails=2 0 | prints=File error~~HALT instruction, PC: 00104 (000000)~ | note=6 0 Length 0 | after=out:
fails=2 1 | prints=File error~~HALT instruction, PC: 00104 (000000)~ | note=6 0 Length 0 | after=out:
fails=3 0 | prints=~File error on PTP, PC: 00102 (000777)~ | note=7 200 Write 0 | after=out:
fails=3 1 | prints=~File error on PTP, PC: 00102 (000777)~ | note=7 200 Write 1
fails=4 0 | note=7 203 Closing 0
fails=4 1 | note=7 203 Closing 0
; the call behind the last one
fails=5";

/// A session with a key that is due at 50, and is taken at the first look of the keyboard, at 100.
const TYPED: &str =
    "words=-q -k k -l 200 | before=k:50 \"A\"~ | lines=D 100 60110~D 101 400~GO 100~E TTI BUF~ | prints=~Instruction limit, PC: 00101 (000400)~BUF:\t101~";

const KEYS: &str = "status=0
before=s: | prints=Cannot open k~ | status=101
before=k:1 \"A\"~x~ | prints=Bad keys file at 6~ | status=105
before=k:0 \"\\005\"~ | lines=D 100 400~GO 100~SHOW TIME~ | prints=~Simulation stopped, PC: 00100 (000400)~Time: 100~";

const KEYS_CALLS: &str = "fails=0 | prints=Cannot open k~ | status=101 | note=0 0 Opening 0
fails=1 | prints=Cannot open k~ | status=101 | note=0 0 Length 0
fails=2 | prints=Cannot open k~ | status=101 | note=0 0 Read 0
fails=3 | note=0 0 Closing 0
; the call behind the last one
fails=4";

/// A session whose script prints its arguments and ends at an assertion that fails.
const SCRIPTED: &str =
    "words=-q s a b | before=s:ECHO %1-%2~ASSERT AC0=0~ASSERT AC0=1~ECHO no~ | lines=ECHO end~ | prints=a-b~Assertion failed~end~";

const SCRIPTS: &str = "status=0
; words behind it are its arguments, so the prompt is on
words=s -q | before=s:ECHO %0 %1~ | prints=s -q~sim> end~sim>  | status=0
before=s:EXIT 7~ | prints= | status=7
words=-q -m 2 s a b | prints=a-b~ | status=104
; it reads the keys file of the words, which comes first
words=-q -k k -l 200 s | before=k:50 \"A\"~ & s:D 100 60110~D 101 400~GO 100~E TTI BUF~ | prints=~Instruction limit, PC: 00101 (000400)~BUF:\t101~end~";

const REFUSED: &str = "before=other: | prints=Cannot open s~ | status=101
; the keys file is refused before the script is looked at
words=-k k s | before=other: | prints=Cannot open k~ | status=101
words=-k k s | before=k:x~ | fails=3 | prints=Bad keys file at 0~ | status=105 | note=0 0 Closing 0
words=-k k s | before=k:1 \"A\"~ | prints=Cannot open s~ | status=101";

const SCRIPT_CALLS: &str = "fails=0 | prints=Cannot open s~ | status=101 | note=0 0 Opening 0
fails=1 | prints=Cannot open s~ | status=101 | note=0 0 Length 0
fails=2 | prints=Cannot open s~ | status=101 | note=0 0 Read 0
fails=3 | note=0 0 Closing 0
; the call behind the last one
fails=4
; the calls on the keys file come first
words=-q -k k s a b | before=k: & s:ECHO %1-%2~ | fails=4 | prints=Cannot open s~ | status=101 | note=0 0 Length 0";

/// A call fails, and what it was for is said again: an opening, a length, the opening and the write of a state file, a byte
/// of the console, and a read of the input. A state file has 65910 bytes.
const SAID_AGAIN: &str =
    "lines=ATTACH PTR p~ | fails=0 | prints=File error~ | note=1 0 Opening 0 PTR | after=p
lines=ATTACH PTR p~ATTACH PTR p~SHOW PTR~ | fails=2 | prints=File error~PTR, attached to p~ | note=1 0 Length 0 PTR | after=p:
lines=SAVE s~SAVE s~ATTACH LPT s~E LPT POS~ | fails=0 | prints=File error~POS:\t000200566~ | note=1 0 Opening 0 State
lines=SAVE s~RESTORE s~ | fails=1 10 | prints=File error~State file truncated~ | note=1 0 Write 10 State | after=s:NOVASTAT\0\x02
lines=ECHO a~D 0 1~ | room=0 | prints= | status=102 | cells=0:0
lines= | read=0 | prints= | status=106";

#[test]
fn files_are_attached_and_left(rt: HostRuntime) -> Result<(), Fail> {
    all(&rt, rt.alloc(), "words=-q", ATTACHES)?;
    all(&rt, rt.alloc(), LOOPS, BYTES)?;
    all(&rt, rt.alloc(), STAYS_OPEN, ENDS)?;
    all(&rt, rt.alloc(), PUNCHES, IN_TURN)?;
    all(&rt, rt.alloc(), TYPED, KEYS)?;
    all(&rt, rt.alloc(), TYPED, KEYS_CALLS)?;
    all(&rt, rt.alloc(), SCRIPTED, SCRIPTS)?;
    all(&rt, rt.alloc(), SCRIPTED, REFUSED)?;
    all(&rt, rt.alloc(), SCRIPTED, SCRIPT_CALLS)?;
    all(&rt, rt.alloc(), "words=-q | space=70000", SAID_AGAIN)?;
    Ok(())
}
