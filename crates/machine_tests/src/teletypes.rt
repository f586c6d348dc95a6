// Runs of a machine with the second teletype, whose terminal line a caller reaches.
use crate::machines::{Units, all};
use std::test::Fail;

/// Caller 1 types two letters, and no call fails.
const BASE: &str = "port: given | takes: 100 | types: AB | lost: 0";

const A_PROGRAM_ECHOES_WHAT_A_CALLER_TYPES: &str =
    "; two keys are echoed, and the second of them is sent at the look behind the HALT
words: 63650 777 60650 61151 63651 777 14030 771 63077 | put: [30]=2 | do: run=9999:Halt PC?111 time?312 | shows: TTI1.BUF=102 TTO1.BUF=102 TTO1.DONE=1 | queue: TTI1=88 | sent: A | line: 0
words: 63650 777 60650 61151 63651 777 14030 771 63077 | put: [30]=2 | do: run=9999:Halt PC=100 step=100:Stepped | time: 412 | queue: TTI1=88 | sent: AB | line: 0
; each look is one poll: nothing is sent before the first one, and a key waits for the next
words: 400 | do: step=100:Stepped | shows: TTI1.DONE=0 | queue: TTI1=0 | sent: nothing | line: free
words: 400 | do: step=101:Stepped TTI1.DONE?1 TTI1.BUF?101 step=100:Stepped | shows: TTI1.BUF=102 | sent:  | line: 0
; 255 is sent doubled, and with eight bits
words: 61151 400 | put: AC0=377 TTO1.TIME=454 | do: step=401:Stepped | shows: TTO1.DONE=1 TTO1.BUF=377 | sent: \u{ff}\u{ff} | line: 0
words: 61151 400 | put: AC0=301 TTO1.TIME=454 | do: step=401:Stepped | shows: TTO1.DONE=1 TTO1.BUF=301 | sent: \u{c1} | line: 0";

const BOTH_KEYBOARDS_LOOK_TOGETHER: &str =
    "; two keys are echoed, and the second of them is sent at the look behind the HALT
words: 63650 777 60650 61151 63651 777 14030 771 63077 | put: [30]=2 | do: run=9999:Halt PC?111 time?312 | shows: TTI1.BUF=102 TTO1.BUF=102 TTO1.DONE=1 | queue: TTI=88 TTI1=88 | sent: A | line: 0
words: 63650 777 60650 61151 63651 777 14030 771 63077 | put: [30]=2 | do: run=9999:Halt PC=100 step=100:Stepped | time: 412 | queue: TTI=88 TTI1=88 | sent: AB | line: 0
; a key comes between two bursts, and no poll is made behind the last instruction of a run
words: 400 | do: step=100:Stepped | shows: TTI1.DONE=0 | queue: TTI=0 TTI1=0 | sent: nothing | line: free
words: 400 | do: step=200:Stepped | shows: TTI1.DONE=1 TTI1.BUF=101 | queue: TTI=0 TTI1=0 | line: 0
words: 400 | do: step=1000:Stepped | shows: TTI1.DONE=1 TTI1.BUF=102 | queue: TTI=0 TTI1=0 | line: 0
; a key of the console comes at the same look
words: 400 | keys: 200 \"Y\"~ | do: step=1000:Stepped | shows: TTI.DONE=1 TTI.BUF=131 TTI1.DONE=1 TTI1.BUF=102 | queue: TTI=0 TTI1=0 | line: 0
; looks that come at different times
words: 400 | put: TTI1.TIME=62 | do: step=1000:Stepped | shows: TTI1.DONE=1 TTI1.BUF=102 | queue: TTI=0 TTI1=0 | line: 0
; the caller hangs up, and a call fails
words: 400 | hangs: 250 | do: step=1000:Stepped | shows: TTI1.BUF=102 | line: free
words: 400 | refuses: 2 | do: step=1000:Stepped | shows: TTI1.DONE=0 | sent: nothing | lost: 1 | line: free";

const A_RUN_GOES_ON_WITHOUT_ITS_CALLER: &str = "; the caller hangs up before the first byte is sent
words: 63650 777 60650 61151 63651 777 14030 771 63077 | put: [30]=2 | hangs: 250 | do: run=9999:Halt PC?111 time?312 | shows: TTI1.BUF=102 TTO1.BUF=102 TTO1.DONE=1 | queue: TTI1=88 | sent:  | line: free
; no key comes behind that
words: 63650 777 60650 61151 63651 777 14030 771 63077 | put: [30]=3 | hangs: 250 | do: step=999:Stepped | shows: [30]=1 TTI1.DONE=0 | sent:  | line: free
; a call fails: the one that accepts, which the next look makes again; that which receives; that which sends
words: 63650 777 60650 61151 63651 777 14030 771 63077 | put: [30]=2 | refuses: 1 | do: run=9999:Halt PC?111 time?412 | sent: A | lost: 1 | line: 0
words: 63650 777 60650 61151 63651 777 14030 771 63077 | put: [30]=2 | refuses: 2 | do: step=999:Stepped | shows: [30]=2 | sent: nothing | lost: 1 | line: free
words: 63650 777 60650 61151 63651 777 14030 771 63077 | put: [30]=2 | refuses: 3 | do: step=999:Stepped | shows: [30]=1 TTI1.BUF=101 | sent: nothing | lost: 1 | line: free";

/// Nobody calls, and no call fails.
const NOBODY: &str = "port: given | takes: 100 | lost: 0";

const A_LINE_WITHOUT_A_CALLER_TAKES_WHAT_IS_PRINTED: &str =
    "; without a port, no call is made: each would fail
words: 61151 63651 777 400 | put: AC0=101 | types: AB | port: none | refuses: 0 1 2 3 4 5 | do: step=999:Stepped | shows: TTI1.DONE=0 TTO1.DONE=1 TTO1.BUF=101 | sent: nothing | line: free
; a port on which nobody calls
words: 61151 63651 777 400 | put: AC0=101 | do: step=999:Stepped | shows: TTI1.DONE=0 TTO1.DONE=1 TTO1.BUF=101 | sent: nothing | line: free
; a line on which nothing more is sent is full behind 1012 bytes: the printer stays busy
words: 61151 63651 777 14030 774 | put: AC0=101 TTO1.TIME=1 [30]=10000 | types: | takes: 12 | do: step=9999:Stepped step=9999:Stepped | shows: TTO1.BUSY=1 TTO1.DONE=0 | sent:  | line: 0
; a reset leaves the line as it is: its connection stands, and the second key waits there
words: 400 | types: AB | do: step=101:Stepped TTI1.BUF?101 reset TTI1.DONE?0 step=101:Stepped | shows: TTI1.DONE=1 TTI1.BUF=102 | sent:  | line: 0";

const A_MACHINE_WITHOUT_A_SECOND_TELETYPE_HAS_NO_LINE: &str =
    "words: 63650 777 63077 | do: step=999:Stepped | sent: nothing | lost: 0 | line: none
words: 60450 63077 | put: AC0=7 | do: step=999:Halt | shows: AC0=0 | sent: nothing | lost: 0 | line: none
words: 60450 63077 | put: STOP_DEV=1 | do: step=999:UnknownDevice | sent: nothing | lost: 0 | line: none";

#[test]
fn teletypes_type_and_print(rt: HostRuntime) -> Result<(), Fail> {
    all(
        &rt,
        rt.alloc(),
        Units::Teletype,
        BASE,
        A_PROGRAM_ECHOES_WHAT_A_CALLER_TYPES,
    )?;
    all(
        &rt,
        rt.alloc(),
        Units::Keyboards,
        BASE,
        BOTH_KEYBOARDS_LOOK_TOGETHER,
    )?;
    all(
        &rt,
        rt.alloc(),
        Units::Teletype,
        BASE,
        A_RUN_GOES_ON_WITHOUT_ITS_CALLER,
    )?;
    all(
        &rt,
        rt.alloc(),
        Units::Teletype,
        NOBODY,
        A_LINE_WITHOUT_A_CALLER_TAKES_WHAT_IS_PRINTED,
    )?;
    all(
        &rt,
        rt.alloc(),
        Units::Console,
        "types: AB | refuses: 0 1 2 3 4 5",
        A_MACHINE_WITHOUT_A_SECOND_TELETYPE_HAS_NO_LINE,
    )?;
    Ok(())
}
