// Sessions: the lines of a script and of the input, labels, scripts in scripts, and the actions of a stop.
use crate::scripts::play::all;
use std::test::Fail;

const FINISHES: &str = "input= | budget=0 | finish=EndOfInput | prints=sim>  | faults=0
input=EXIT 3~ | budget=1 | finish=Exit 3 | prints=sim>  | faults=0
input=~X~ | finish=EndOfInput | prints=sim> sim> Unknown command~sim>  | faults=0
input=~~ | budget=1 | finish=Commands | prints=sim> sim>  | faults=0
input=~ | room=7 | finish=Console | prints=sim> si
input=X~ | room=9 | finish=Console | prints=sim> Unkn
; nothing but a line is read before the read that fails
input=~~ | prompt=no | room=0 | read=1 | finish=Input | faults=1";

/// A session with a script.
const PLAIN: &str = "script= | words=main | finish=EndOfInput";

const LINES: &str =
    "script=ECHO %1-%2~ASSERT PC=1~ECHO never~ | words=main a b | input=ECHO c~ | prints=a-b~Assertion failed~sim> c~sim>  | finish=EndOfInput
script=ECHO a~NONSENSE~ASSERT PC=0~ECHO b | prints=a~Unknown command~b~sim>  | finish=EndOfInput
script=ECHO a\r~ECHO b\r | prints=a~b\r~sim>  | finish=EndOfInput
script=ECHO a~EXIT 7~ECHO b~ | input=ECHO c~ | prints=a~ | finish=Exit 7
script=ECHO a~NONSENSE~ECHO b~ | strict=yes | prints=a~Unknown command~sim>  | finish=EndOfInput
script=ECHO %0 %1~; %2~ | echo=yes | words=main x yy | prints=do> ECHO main x~main x~do> ; yy~sim>  | finish=EndOfInput";

const LABELS: &str =
    "script=GOTO end~ECHO a~:end~ECHO b~:end~ECHO c~ | prints=b~c~sim>  | finish=EndOfInput
script=:again~ECHO a~GOTO again~ | budget=5 | prints=a~a~ | finish=Commands
script=GOTO nowhere~ECHO a~ | input=GOTO end~ | prints=Label not found~a~sim> Not in a DO file~sim>  | finish=EndOfInput
script=; one~~ | input=ECHO a~ | budget=2 | prints=sim>  | finish=Commands";

/// A session with a script and others that it may begin.
const WITH_OTHERS: &str =
    "script= | words=main | finish=EndOfInput | files=inner:ECHO <%0 %1 %2>~DO -V last~ECHO %2~ & last:ECHO deep & self:DO self~ & fails:NONSENSE~ECHO no~ & asserts:ASSERT PC=1~ECHO no~";

const OTHERS: &str =
    "script=DO inner a b c~ECHO end~ | prints=<inner a b>~do> ECHO deep~deep~b~end~sim>  | finish=EndOfInput
script= | input=DO self~ECHO a~ | prints=sim> DO nested too deeply~sim> a~sim>  | finish=EndOfInput
script=DO -E fails~ECHO a~ | prints=Unknown command~a~sim>  | finish=EndOfInput
script=DO -E fails~ECHO a~ | strict=yes | prints=Unknown command~sim>  | finish=EndOfInput
script=DO asserts~ECHO a~DO missing~ECHO b~ | prints=Assertion failed~a~File not found~b~sim>  | finish=EndOfInput";

/// Memory is 0, so that GO runs one instruction, JMP 0, and then stops at a break at 0.
const WITH_INNER: &str = "script= | words=main | finish=EndOfInput | files=inner:ECHO inner~";

const ACTIONS: &str = "; actions that end the break and run on; they cost a unit each
script=D 100 101400~D 101 100~BREAK 100[2]; E AC0; NOBREAK ALL; STEP 2~GO 100~ | budget=7 | prints=~Breakpoint, PC: 00100 (101400)~AC0:\t000002~~Step expired, PC: 00100 (101400)~sim>  | finish=EndOfInput
; an empty one too
script=BREAK 0;;ECHO a~GO~ | budget=3 | prints=~Breakpoint, PC: 00000 (000000)~ | finish=Commands
; a failed one ends its script, also behind the last line, and with it those that wait
script=BREAK 0; FOO; ECHO no~GO | strict=yes | input=ECHO typed~ | prints=~Breakpoint, PC: 00000 (000000)~Unknown command~sim> typed~sim>  | finish=EndOfInput
; a failed ASSERT ends none where none is open
input=BREAK 0; ASSERT PC=1; ECHO stays~GO~ | prints=sim> sim> ~Breakpoint, PC: 00000 (000000)~Assertion failed~stays~sim>  | finish=EndOfInput
; 32 wait, and 33 more do not fit, which is no failed command
script=BREAK 0;CONT;;;;;;;;;;;;;;;;;;;;;;;;;;;;;;;;~GO~ECHO goes on~ | strict=yes | prints=~Breakpoint, PC: 00000 (000000)~~Breakpoint, PC: 00000 (000000)~Table full~goes on~sim>  | finish=EndOfInput
; behind a DO they come before its first line, and are its commands
script=BREAK 0; DO inner; ECHO rest~GO~ECHO end~BREAK 0; DO -E inner; FOO; ECHO no~GO~ECHO end~ | prints=~Breakpoint, PC: 00000 (000000)~rest~inner~end~~Breakpoint, PC: 00000 (000000)~Unknown command~end~sim>  | finish=EndOfInput
; their text is not printed as a script's lines are
script=BREAK 0; ECHO a~GO~ | echo=yes | prints=do> BREAK 0; ECHO a~do> GO~~Breakpoint, PC: 00000 (000000)~a~sim>  | finish=EndOfInput
; behind them the session is over where the input is not read
script=BREAK 0; ECHO a~GO | reads=no | input=ECHO typed~ | budget=3 | prints=~Breakpoint, PC: 00000 (000000)~a~ | finish=Exit 0";

#[test]
fn sessions_go_as_their_texts_say(rt: HostRuntime) -> Result<(), Fail> {
    all(&rt, rt.alloc(), "budget=9 | room=100", FINISHES)?;
    all(&rt, rt.alloc(), PLAIN, LINES)?;
    all(&rt, rt.alloc(), PLAIN, LABELS)?;
    all(&rt, rt.alloc(), WITH_OTHERS, OTHERS)?;
    all(&rt, rt.alloc(), WITH_INNER, ACTIONS)?;
    Ok(())
}
