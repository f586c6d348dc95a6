// Runs that stop at breaks and at printed texts, and whose keyboard takes bytes that were sent and keys at their times.
use crate::machines::{Units, all};
use std::test::Fail;

/// Nothing is watched or printed.
const BASE: &str = "room: 100 | prints: | counts: | matches: | waiting: 0";

const A_BREAK_STOPS_AT_ITS_COUNT_AND_EACH_TIME_BEHIND_IT: &str =
    "; the first turn of a run tests none
words: 101400 100 | breaks: 100:2 | do: run=9999:Break.0 PC?100 AC0?2 time?4 run=9999:Break.0 PC?100 AC0?3 time?6 run=9999:Break.0 PC?100 AC0?4 time?8 | counts: 0
; counts of 0 and 1 are the same; the break at the lower address is the first
words: 101400 100 | breaks: 101:0 100:3 77777:1 | do: run=9999:Break.1 PC?101 AC0?1 time?1 run=9999:Break.1 PC?101 AC0?2 time?3 run=9999:Break.1 PC?101 AC0?3 time?5 run=9999:Break.0 PC?100 AC0?3 time?6 | counts: 0 0 1
; in the loop that waits for the printer, and at the HALT behind it, which is not executed
words: 61111 63611 777 63077 | put: AC0=101 | breaks: 102:3 103:1 | do: run=9999:Break.0 PC?102 AC0?101 time?6 run=9999:Break.0 PC?102 AC0?101 time?8 | counts: 0 1
words: 61111 63611 777 63077 | put: AC0=101 | breaks: 103:1 | do: run=9999:Break.0 PC?103 AC0?101 time?102 run=9999:Halt PC?104 AC0?101 time?103 | counts: 0 | prints: A";

const A_RUN_STOPS_BEHIND_A_TEXT: &str = "; O, O and K
words: 61111 63611 777 61111 63611 777 65111 63611 777 63077 | put: AC0=117 AC1=113 | expects: 1:OK | do: run=9999:Expect.0 PC?110 AC0?117 time?304 run=9999:Halt PC?112 AC0?117 time?307 | prints: OOK
; the first in the list matches, and no text matches across a match
words: 61111 63611 777 100 | put: AC0=117 | expects: 5:OOOO 2:OO 1:O\0 | do: run=9999:Expect.1 PC?102 AC0?117 time?409 | prints: OOOO | matches: 5 1";

const SENT_BYTES_COME_BEFORE_TYPED_ONES: &str =
    "words: 60110 63610 777 60410 63077 | sends: 0:1000:Y | do: run=9999:Halt PC?105 AC0?131 time?104
; the second byte is not due yet, and the key is
words: 60110 63610 777 60410 63077 | sends: 100:50:YZ | keys: 0 \"k\"~ | do: run=9999:Halt PC?105 AC0?131 time?104 | waiting: 1
words: 60110 63610 777 60410 63077 | sends: 101:50:YZ | keys: 0 \"k\"~ | do: run=9999:Halt PC?105 AC0?153 time?104 | waiting: 2
; control E stops
words: 60110 63610 777 60410 63077 | sends: 0:1:\x05Z | do: run=9999:Wru PC?102 AC0?0 time?100 run=9999:Halt PC?105 AC0?132 time?204";

const KEYS_COME_AT_THEIR_TIMES_AND_CONTROL_E_STOPS: &str =
    "; the keyboard looks every 100 instructions
words: 400 | keys: 50 \"a\"~150 \"b\"~250 \"\\005\"~ | do: step=100:Stepped | shows: PC=100 TTI.DONE=0 TTI.BUF=0 | time: 100 | taken: 0
words: 400 | keys: 50 \"a\"~150 \"b\"~250 \"\\005\"~ | do: step=101:Stepped | shows: PC=100 TTI.DONE=1 TTI.BUF=141 | time: 101 | taken: 1
words: 400 | keys: 50 \"a\"~150 \"b\"~250 \"\\005\"~ | do: step=200:Stepped | shows: PC=100 TTI.DONE=1 TTI.BUF=141 | time: 200 | taken: 1
words: 400 | keys: 50 \"a\"~150 \"b\"~250 \"\\005\"~ | do: step=201:Stepped | shows: PC=100 TTI.DONE=1 TTI.BUF=142 | time: 201 | taken: 2
words: 400 | keys: 50 \"a\"~150 \"b\"~250 \"\\005\"~ | do: step=300:Stepped | shows: PC=100 TTI.DONE=1 TTI.BUF=142 | time: 300 | taken: 2
words: 400 | keys: 50 \"a\"~150 \"b\"~250 \"\\005\"~ | do: step=999:Wru | shows: PC=100 TTI.DONE=1 TTI.BUF=142 | time: 300 | taken: 3";

#[test]
fn what_is_watched_stops_a_run(rt: HostRuntime) -> Result<(), Fail> {
    all(
        &rt,
        rt.alloc(),
        Units::Console,
        BASE,
        A_BREAK_STOPS_AT_ITS_COUNT_AND_EACH_TIME_BEHIND_IT,
    )?;
    all(
        &rt,
        rt.alloc(),
        Units::Console,
        BASE,
        A_RUN_STOPS_BEHIND_A_TEXT,
    )?;
    all(
        &rt,
        rt.alloc(),
        Units::Console,
        BASE,
        SENT_BYTES_COME_BEFORE_TYPED_ONES,
    )?;
    all(
        &rt,
        rt.alloc(),
        Units::Console,
        BASE,
        KEYS_COME_AT_THEIR_TIMES_AND_CONTROL_E_STOPS,
    )?;
    Ok(())
}
