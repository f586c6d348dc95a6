// The multiplexer: BUSY, DONE and TIME, RX of line n as register 3 + n, and TX as register 67 + n.
use crate::devices::rows::all;
use qty_mux::Qty;

/// Line 3 is started, gets a key, and sends it back.
const A_KEY_IS_SENT_BACK: &str =
    "| kind = QTY | 0 0 100 | DOB 0o103 = 0 after:100 3 | due 3 = line_key 4 | got 3 key 65 = after:100 go | 0 1 100 0 0 0 0o501 0
| DIAS 0 = 0o101501 keep | 0 0 100 0 0 0 0 0 | DIA 0 = 0 keep | DOA 0o101501 = 0 keep | 1 0 100 | from 70 = 0o501 0
| DIB 0 = 1 keep | due 3 = line_put 4 65 | got 3 done = after:100 go | 0 0 100 | from 70 = 0 | DIB 0 = 0 keep";

/// A byte that the line did not take waits until a look, and a second one is not put over it. Nothing of it touches the
/// lines beside it.
const A_FULL_LINE_IS_LOOKED_AT_FIRST: &str =
    "0 0 7 | DOA 0o37701 = 0 keep | from 130 = 0o701 | due 63 = line_put 64 0o301 | got 63 line_full = after:7 go | from 130 = 0o1701
| due 63 = line_key 64 | got 63 line_full = after:7 go | from 130 = 0o1701 | DOA 0o37501 = 0 keep | from 130 = 0o1701 | from 67 = 0
| got 63 no_key = after:7 go | from 130 = 0o701 | due 63 = line_put 64 0o301 | DOA 0o501 = 0 keep | DIB 0 = 2 keep
| got 63 done = after:7 go | from 129 = 0 0 | 1 0 7 | got 1 done = after:7 go | 0 0 7";

/// The first line with a byte is answered first; C clears all but TIME, over DOB's wish too; S looks at RX.
const LINES_ARE_ANSWERED_IN_ORDER: &str =
    "0 0 9 | got 63 key 0o377 = after:9 go | got 0 key 0 = after:9 go | 0 1 9 0o400 0 | NIOS 0 = 0 keep | 0 1 9
| DIA 0 = 0o100000 keep | 0 1 9 0 0 | DIAS 0 = 0o137777 keep | 0 0 9 | DOBS 0o177777 = 0 after:9 63 | DOBP 1 = 0 after:9 1
| got 5 key 1 = after:9 go | DOA 0o2501 = 0 keep | DOBC 5 = 0 cancel | 0 0 9 0 0 0 0 0 0 | from 72 = 0 | set 2 0 = refused 9
| got 5 byte 1 = keep go | got 5 end = keep go | 0 0 9 0 0 0 0 0 0 | got 5 key 7 = after:9 go | reset = cancel | 0 0 9 0 0 0 0 0 0";

/// What P, NIO, DIC and DOC leave, and a key that comes before the one ahead of it was taken.
const OTHER_WORDS_DO_NOTHING: &str =
    "1 1 9 0o401 | NIO 7 = 0 keep | NIOP 7 = 0 keep | DIC 7 = 0 keep | DOC 7 = 0 keep | DOCP 7 = 0 keep | 1 1 9 0o401 0
| got 0 key 2 = after:9 go | 1 1 9 0o402 0 | DIAC 0 = 0o100002 cancel | 0 0 9 0 0 | DIBC 0 = 0 cancel | DOAC 0o501 = 0 cancel | from 67 = 0 0";

const A_REGISTER_TAKES_ITS_LIMITS: &str =
    "| set 0 2 = refused 0 | set 1 1 = taken 1 | set 2 65535 = taken 65535 | set 2 65536 = refused 65535 | set 3 0o777 = taken 0o777
| set 66 0o1000 = refused 0 | set 67 0o1777 = taken 0o1777 | set 130 0o1777 = taken 0o1777 | set 130 0o2000 = refused 0o1777
| set 131 0 = refused 0 | set 255 0 = refused 0";

#[test]
fn a_multiplexer_sends_a_key_back(rt: HostRuntime) {
    all(&rt, &mut Qty::new(), A_KEY_IS_SENT_BACK);
}

#[test]
fn a_line_of_a_multiplexer_that_is_full_is_looked_at_first(rt: HostRuntime) {
    all(&rt, &mut Qty::new(), A_FULL_LINE_IS_LOOKED_AT_FIRST);
}

#[test]
fn a_multiplexer_answers_its_lines_in_order(rt: HostRuntime) {
    all(&rt, &mut Qty::new(), LINES_ARE_ANSWERED_IN_ORDER);
    all(&rt, &mut Qty::new(), OTHER_WORDS_DO_NOTHING);
    all(&rt, &mut Qty::new(), A_REGISTER_TAKES_ITS_LIMITS);
}
