// The paper tape reader, the paper tape punch and the line printer: BUSY, DONE, STOP_IOE, TIME, BUF and POS of each.
use crate::devices::rows::all;
use paper_tape::{Lpt, Ptp, Ptr};

const THE_READER_ANSWERS_ITS_BYTE_AND_THEN_TAKES_ITS_PULSE: &str =
    "0 1 0 7 0o301 5 | DIA 0o123456 = 0o301 keep | 0 1 0 7 0o301 5
0 1 1 7 0o377 5 | DIAS 0o123456 = 0o377 after:7 | 1 0 1 7 0o377 5
1 1 0 7 0o101 0 | DIAC 0o123456 = 0o101 cancel | 0 0 0 7 0o101 0
1 0 0 300 1 2 | NIOS 0o123456 = 0 after:300 | 1 0 0 300 1 2
0 1 1 300 1 2 | NIOC 0o123456 = 0 cancel | 0 0 1 300 1 2
1 1 0 300 1 2 | NIOP 0o123456 = 0 keep | 1 1 0 300 1 2
1 0 0 300 1 2 | DOA 0o123456 = 0 keep | 1 0 0 300 1 2
0 1 0 300 1 2 | DIB 0o123456 = 0 keep | 0 1 0 300 1 2
0 0 0 1 1 2 | DICS 0o123456 = 0 after:1 | 1 0 0 1 1 2";

const THE_READER_MOVES_ON_BY_A_BYTE_AND_WAITS_AT_ITS_END: &str =
    "1 0 0 9 0 4 | due 0 = read 4 | 1 0 0 9 0 4 | got 0 byte 0o301 = keep go | 0 1 0 9 0o301 5
0 0 1 9 7 0 | due 0 = read 0 | 0 0 1 9 7 0 | got 0 byte 0 = keep go | 0 1 1 9 0 1
1 0 1 9 7 16777215 | due 0 = read 16777215 | 1 0 1 9 7 16777215 | got 0 byte 1 = keep go | 0 1 1 9 1 16777216
1 0 0 9 7 5 | due 0 = read 5 | 1 0 0 9 7 5 | got 0 end = keep go | 1 0 0 9 7 5
1 0 1 9 7 16777216 | due 0 = read 16777216 | 1 0 1 9 7 16777216 | got 0 end = keep end | 1 0 1 9 7 16777216
1 0 0 9 7 5 | due 0 = read 5 | 1 0 0 9 7 5 | got 0 no_file = keep go | 1 0 0 9 7 5
1 0 1 9 7 5 | due 0 = read 5 | 1 0 1 9 7 5 | got 0 no_file = keep no_file | 1 0 1 9 7 5
1 0 1 9 7 5 | due 0 = read 5 | 1 0 1 9 7 5 | got 0 done = keep go | 1 0 1 9 7 5
1 0 1 9 7 5 | due 0 = read 5 | 1 0 1 9 7 5 | got 0 key 1 = keep go | 1 0 1 9 7 5";

const THE_PUNCH_KEEPS_EIGHT_BITS: &str = "0 1 1 7 5 6 | DOAS 0o177701 = 0 after:7 | 1 0 1 7 0o301 6
0 1 1 7 5 6 | DOAS 0o377 = 0 after:7 | 1 0 1 7 0o377 6
0 1 1 7 5 6 | DOAS 0o200 = 0 after:7 | 1 0 1 7 0o200 6
0 1 1 7 5 6 | DOAS 0o400 = 0 after:7 | 1 0 1 7 0 6
0 1 1 7 5 6 | DOAS 0o177 = 0 after:7 | 1 0 1 7 0o177 6
0 1 1 7 5 6 | DOAS 0 = 0 after:7 | 1 0 1 7 0 6";

const THE_PRINTER_KEEPS_SEVEN: &str = "0 1 1 7 5 6 | DOAS 0o177701 = 0 after:7 | 1 0 1 7 0o101 6
0 1 1 7 5 6 | DOAS 0o377 = 0 after:7 | 1 0 1 7 0o177 6
0 1 1 7 5 6 | DOAS 0o200 = 0 after:7 | 1 0 1 7 0 6
0 1 1 7 5 6 | DOAS 0o400 = 0 after:7 | 1 0 1 7 0 6
0 1 1 7 5 6 | DOAS 0o177 = 0 after:7 | 1 0 1 7 0o177 6
0 1 1 7 5 6 | DOAS 0 = 0 after:7 | 1 0 1 7 0 6";

const A_WRITER_TAKES_ITS_PULSE_BEHIND_ITS_FUNCTION: &str =
    "1 0 0 7 5 6 | DOA 0o52 = 0 keep | 1 0 0 7 0o52 6
1 1 0 7 5 6 | DOAC 0o52 = 0 cancel | 0 0 0 7 0o52 6
0 1 1 7 5 6 | DOAP 0o52 = 0 keep | 0 1 1 7 0o52 6
0 1 0 65535 5 6 | NIOS 0o52 = 0 after:65535 | 1 0 0 65535 5 6
1 0 0 1 5 6 | NIOS 0o52 = 0 after:1 | 1 0 0 1 5 6
1 0 1 7 5 6 | NIOC 0o52 = 0 cancel | 0 0 1 7 5 6
0 1 0 7 5 6 | DIA 0o52 = 0 keep | 0 1 0 7 5 6
0 1 0 7 5 6 | DOB 0o52 = 0 keep | 0 1 0 7 5 6
0 1 0 7 5 6 | DOCS 0o52 = 0 after:7 | 1 0 0 7 5 6";

const A_WRITER_IS_DONE_WHETHER_ITS_BYTE_WAS_WRITTEN_OR_NOT: &str =
    "1 0 0 9 0o101 4 | due 0 = write 4 0o101 | 1 0 0 9 0o101 4 | got 0 done = keep go | 0 1 0 9 0o101 5
0 0 1 9 0 0 | due 0 = write 0 0 | 0 0 1 9 0 0 | got 0 done = keep go | 0 1 1 9 0 1
1 0 1 9 7 16777215 | due 0 = write 16777215 7 | 1 0 1 9 7 16777215 | got 0 done = keep go | 0 1 1 9 7 16777216
1 0 0 9 7 16777216 | due 0 = write 16777216 7 | 1 0 0 9 7 16777216 | got 0 end = keep go | 0 1 0 9 7 16777216
1 0 1 9 7 16777216 | due 0 = write 16777216 7 | 1 0 1 9 7 16777216 | got 0 end = keep end | 0 1 1 9 7 16777216
1 0 0 9 7 5 | due 0 = write 5 7 | 1 0 0 9 7 5 | got 0 no_file = keep go | 0 1 0 9 7 5
1 0 1 9 7 5 | due 0 = write 5 7 | 1 0 1 9 7 5 | got 0 no_file = keep no_file | 0 1 1 9 7 5
1 0 1 9 7 5 | due 0 = write 5 7 | 1 0 1 9 7 5 | got 0 read_only = keep go | 1 0 1 9 7 5
1 0 1 9 7 5 | due 0 = write 5 7 | 1 0 1 9 7 5 | got 0 line_full = keep go | 1 0 1 9 7 5
0 1 1 9 7 5 | due 0 = write 5 7 | 0 1 1 9 7 5 | got 0 no_key = keep go | 0 1 1 9 7 5
1 0 1 9 7 5 | due 0 = write 5 7 | 1 0 1 9 7 5 | got 0 byte 1 = keep go | 1 0 1 9 7 5";

const A_RESET_CLEARS_THE_FLAGS_ALONE: &str = "1 1 0 300 0 0 | reset = keep | 0 0 0 300 0 0
1 1 1 1 0o177 16777216 | reset = keep | 0 0 1 1 0o177 16777216
1 1 1 65535 1 77 | reset = keep | 0 0 1 65535 1 77";

const A_REGISTER_TAKES_ITS_LIMITS_AND_NOTHING_PAST_THEM: &str = "0 0 0 300 0 0 | set 0 1 = taken 1
0 0 0 300 0 0 | set 0 2 = refused 0
0 0 0 300 0 0 | set 1 1 = taken 1
0 0 0 300 0 0 | set 1 2 = refused 0
0 0 0 300 0 0 | set 2 1 = taken 1
0 0 0 300 0 0 | set 2 2 = refused 0
0 0 0 300 0 0 | set 3 1 = taken 1
0 0 0 300 0 0 | set 3 65535 = taken 65535
0 0 0 300 0 0 | set 4 0o177 = taken 0o177
0 0 0 300 0 0 | set 4 0o400 = refused 0
0 0 0 300 0 0 | set 4 4294967295 = refused 0
0 0 0 300 0 0 | set 5 1 = taken 1
0 0 0 300 0 0 | set 5 16777216 = taken 16777216
0 0 0 300 0 0 | set 5 16777217 = refused 0
0 0 0 300 0 0 | set 5 4294967295 = refused 0
0 0 0 300 0 0 | set 6 0 = refused 0
0 0 0 300 0 0 | set 6 1 = refused 0
0 0 0 300 0 0 | set 255 0 = refused 0";

const THE_READER_TAKES_EIGHT_BITS: &str = "| set 3 0 = refused 300 | set 3 65536 = refused 300
| set 4 0o200 = taken 0o200 | set 4 0o377 = taken 0o377";

const THE_PUNCH_TAKES_EIGHT_BITS: &str = "| set 3 0 = refused 200 | set 3 65536 = refused 200
| set 4 0o200 = taken 0o200 | set 4 0o377 = taken 0o377";

const THE_PRINTER_TAKES_SEVEN: &str = "| set 3 0 = refused 500 | set 3 65536 = refused 500
| set 4 0o200 = refused 0 | set 4 0o377 = refused 0";

#[test]
fn paper_units_read_punch_and_print(rt: HostRuntime) {
    all(&rt, &mut Ptr::new(), "| 0 0 0 300 0 0");
    all(&rt, &mut Ptp::new(), "| 0 0 0 200 0 0");
    all(&rt, &mut Lpt::new(), "| 0 0 0 500 0 0");
    all(
        &rt,
        &mut Ptr::new(),
        THE_READER_ANSWERS_ITS_BYTE_AND_THEN_TAKES_ITS_PULSE,
    );
    all(
        &rt,
        &mut Ptr::new(),
        THE_READER_MOVES_ON_BY_A_BYTE_AND_WAITS_AT_ITS_END,
    );
    all(&rt, &mut Ptp::new(), THE_PUNCH_KEEPS_EIGHT_BITS);
    all(&rt, &mut Lpt::new(), THE_PRINTER_KEEPS_SEVEN);
    all(
        &rt,
        &mut Ptp::new(),
        A_WRITER_TAKES_ITS_PULSE_BEHIND_ITS_FUNCTION,
    );
    all(
        &rt,
        &mut Lpt::new(),
        A_WRITER_TAKES_ITS_PULSE_BEHIND_ITS_FUNCTION,
    );
    all(
        &rt,
        &mut Ptp::new(),
        A_WRITER_IS_DONE_WHETHER_ITS_BYTE_WAS_WRITTEN_OR_NOT,
    );
    all(
        &rt,
        &mut Lpt::new(),
        A_WRITER_IS_DONE_WHETHER_ITS_BYTE_WAS_WRITTEN_OR_NOT,
    );
    all(&rt, &mut Ptr::new(), A_RESET_CLEARS_THE_FLAGS_ALONE);
    all(&rt, &mut Ptp::new(), A_RESET_CLEARS_THE_FLAGS_ALONE);
    all(&rt, &mut Lpt::new(), A_RESET_CLEARS_THE_FLAGS_ALONE);
    all(
        &rt,
        &mut Ptr::new(),
        A_REGISTER_TAKES_ITS_LIMITS_AND_NOTHING_PAST_THEM,
    );
    all(
        &rt,
        &mut Ptp::new(),
        A_REGISTER_TAKES_ITS_LIMITS_AND_NOTHING_PAST_THEM,
    );
    all(
        &rt,
        &mut Lpt::new(),
        A_REGISTER_TAKES_ITS_LIMITS_AND_NOTHING_PAST_THEM,
    );
    all(&rt, &mut Ptr::new(), THE_READER_TAKES_EIGHT_BITS);
    all(&rt, &mut Ptp::new(), THE_PUNCH_TAKES_EIGHT_BITS);
    all(&rt, &mut Lpt::new(), THE_PRINTER_TAKES_SEVEN);
}
