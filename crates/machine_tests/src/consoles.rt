// Runs of a machine whose console line has a port, which a caller reaches.
use crate::machines::{Units, all};
use std::test::Fail;

/// Caller 1 types two letters, no call fails, and nothing is printed.
const BASE: &str =
    "port: console | takes: 100 | types: AB | lost: 0 | room: 100 | prints: | taken: 0";

const A_PROGRAM_ECHOES_WHAT_A_CALLER_OF_THE_CONSOLE_TYPES: &str =
    "; two keys are echoed on the line, and the second of them is sent at the look behind the HALT
words: 63610 777 60610 61111 63611 777 14030 771 63077 | put: [30]=2 | do: run=9999:Halt PC?111 time?312 | shows: TTI.BUF=102 TTO.BUF=102 TTO.DONE=1 | queue: TTI=88 | sent: A | console: 0
words: 63610 777 60610 61111 63611 777 14030 771 63077 | put: [30]=2 | do: run=9999:Halt PC=100 step=100:Stepped | time: 412 | queue: TTI=88 | sent: AB | console: 0
; each look is one poll
words: 400 | do: step=100:Stepped | shows: TTI.DONE=0 | queue: TTI=0 | sent: nothing | console: free
words: 400 | do: step=101:Stepped TTI.DONE?1 TTI.BUF?101 step=100:Stepped | shows: TTI.BUF=102 | sent:  | console: 0
; control E of the line stops the run, and the unit gets no key
words: 400 | types: \x05B | do: run=9999:Wru PC?100 time?100 TTI.DONE?0 step=101:Stepped | shows: TTI.DONE=1 TTI.BUF=102 | sent:  | console: 0";

const OTHER_KEYS_COME_FIRST: &str =
    "; no poll is made where a typed key is due, nor where a byte of SEND is
words: 400 | keys: 100 \"k\"~ | do: step=101:Stepped | shows: TTI.DONE=1 TTI.BUF=153 | taken: 1 | sent: nothing | console: free
words: 400 | keys: 100 \"k\"~ | do: step=201:Stepped | shows: TTI.DONE=1 TTI.BUF=101 | taken: 1 | sent:  | console: 0
words: 400 | sends: 100:1000:Y | do: step=101:Stepped | shows: TTI.DONE=1 TTI.BUF=131 | sent: nothing | console: free
words: 400 | sends: 100:1000:Y | do: step=201:Stepped | shows: TTI.DONE=1 TTI.BUF=101 | sent:  | console: 0";

const A_TEXT_ON_THE_CONSOLE_LINE_STOPS_A_RUN: &str =
    "; also where nobody is connected: the byte goes nowhere
words: 61111 63611 777 63077 | put: AC0=101 | types: | expects: 1:A | do: run=9999:Expect.0 AC0?101 time?100 TTO.DONE?1 run=9999:Halt | sent:  | console: 0
words: 61111 63611 777 63077 | put: AC0=101 | expects: 1:B | matches: 1 | do: run=9999:Halt | shows: TTO.DONE=1 TTO.BUF=101
; without a port the byte is printed, and no call is made: each would fail
words: 61111 63611 777 63077 | put: AC0=101 | port: none | refuses: 0 1 2 3 4 5 | expects: 1:A | do: run=9999:Expect.0 AC0?101 time?100 run=9999:Halt | prints: A | sent: nothing | console: free";

const EACH_KEYBOARD_HAS_ITS_LINE: &str =
    "words: 400 | do: step=101:Stepped | shows: TTI.DONE=1 TTI.BUF=101 TTI1.DONE=0 TTI1.BUF=0 | sent:  | line: free | console: 0
words: 400 | port: given | do: step=101:Stepped | shows: TTI.DONE=0 TTI.BUF=0 TTI1.DONE=1 TTI1.BUF=101 | sent:  | line: 0 | console: free";

#[test]
fn consoles_type_and_print(rt: HostRuntime) -> Result<(), Fail> {
    all(
        &rt,
        rt.alloc(),
        Units::Console,
        BASE,
        A_PROGRAM_ECHOES_WHAT_A_CALLER_OF_THE_CONSOLE_TYPES,
    )?;
    all(&rt, rt.alloc(), Units::Console, BASE, OTHER_KEYS_COME_FIRST)?;
    all(
        &rt,
        rt.alloc(),
        Units::Console,
        BASE,
        A_TEXT_ON_THE_CONSOLE_LINE_STOPS_A_RUN,
    )?;
    all(
        &rt,
        rt.alloc(),
        Units::Keyboards,
        BASE,
        EACH_KEYBOARD_HAS_ITS_LINE,
    )?;
    Ok(())
}
