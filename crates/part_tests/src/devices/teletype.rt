// The keyboards and printers of both teletypes: BUSY, DONE, TIME and BUF of each.
use crate::devices::rows::all;
use tty_units::{Tti, Tti1, Tto, Tto1};

const THE_PULSES_OF_A_KEYBOARD_CHANGE_ITS_FLAGS_ALONE: &str =
    "1 1 7 0o101 | DIA 0o123456 = 0o101 keep | 1 1 7 0o101
1 1 7 0o377 | DIAC 0o123456 = 0o377 keep | 0 0 7 0o377
0 1 7 0o101 | DIAS 0o123456 = 0o101 keep | 1 0 7 0o101
0 1 100 1 | NIOS 0o123456 = 0 keep | 1 0 100 1
1 0 100 1 | NIOC 0o123456 = 0 keep | 0 0 100 1
0 1 100 1 | NIOP 0o123456 = 0 keep | 0 1 100 1
0 1 100 1 | DOA 0o123456 = 0 keep | 0 1 100 1
1 0 100 1 | DIB 0o123456 = 0 keep | 1 0 100 1
1 0 100 1 | DICC 0o123456 = 0 keep | 0 0 100 1";

const A_KEYBOARD_LOOKS_AGAIN_AFTER_TIME: &str =
    "1 0 100 0 | due 0 = key | 1 0 100 0 | got 0 key 0o377 = after:100 go | 0 1 100 0o377
0 1 7 0o102 | due 0 = key | 0 1 7 0o102 | got 0 key 0o101 = after:7 go | 0 1 7 0o101
0 0 9 5 | due 0 = key | 0 0 9 5 | got 0 key 0 = after:9 go | 0 1 9 0
1 0 100 5 | due 0 = key | 1 0 100 5 | got 0 no_key = after:100 go | 1 0 100 5
0 1 1 5 | due 0 = key | 0 1 1 5 | got 0 no_key = after:1 go | 0 1 1 5
1 0 100 5 | due 0 = key | 1 0 100 5 | got 0 done = keep go | 1 0 100 5
1 0 100 5 | due 0 = key | 1 0 100 5 | got 0 byte 1 = keep go | 1 0 100 5";

const A_PRINTER_KEEPS_EIGHT_BITS_AND_THEN_TAKES_ITS_PULSE: &str =
    "0 1 9 0 | DOA 0o177701 = 0 keep | 0 1 9 0o301
0 1 7 0 | DOAS 0o101 = 0 after:7 | 1 0 7 0o101
1 0 100 5 | DOAS 0o400 = 0 after:100 | 1 0 100 0
1 1 7 5 | DOAC 0o102 = 0 cancel | 0 0 7 0o102
1 0 7 5 | DOAP 0o102 = 0 keep | 1 0 7 0o102
0 0 1 5 | NIOS 0o102 = 0 after:1 | 1 0 1 5
1 0 7 5 | NIOC 0 = 0 cancel | 0 0 7 5
0 1 7 5 | DIA 0 = 0 keep | 0 1 7 5
1 0 7 5 | DOB 0o102 = 0 keep | 1 0 7 5";

const A_PRINTER_PRINTS_SEVEN_BITS_AND_WAITS_WHILE_THE_CONSOLE_IS_FULL: &str =
    "1 0 9 0o301 | due 0 = console 0o101 | 1 0 9 0o301 | got 0 done = keep go | 0 1 9 0o301
0 0 9 0o377 | due 0 = console 0o177 | 0 0 9 0o377 | got 0 done = keep go | 0 1 9 0o377
1 0 9 0o205 | due 0 = console 5 | 1 0 9 0o205 | got 0 line_full = after:9 go | 1 0 9 0o205
0 1 1 0o200 | due 0 = console 0 | 0 1 1 0o200 | got 0 line_full = after:1 go | 0 1 1 0o200
1 0 9 5 | due 0 = console 5 | 1 0 9 5 | got 0 no_key = keep go | 1 0 9 5";

const A_RESET_STARTS_THE_KEYBOARD: &str = "1 1 100 0 | reset = after:100 | 0 0 100 0
1 1 5 0o377 | reset = after:5 | 0 0 5 0o377
1 1 65535 1 | reset = after:65535 | 0 0 65535 1";

const A_RESET_DOES_NOT_START_THE_PRINTER: &str = "1 1 100 0 | reset = keep | 0 0 100 0
1 1 5 0o377 | reset = keep | 0 0 5 0o377
1 1 65535 1 | reset = keep | 0 0 65535 1";

const A_REGISTER_TAKES_ITS_LIMITS_AND_NOTHING_PAST_THEM: &str = "| 0 0 100 0
0 0 100 0 | set 0 0 = taken 0
0 0 100 0 | set 0 1 = taken 1
0 0 100 0 | set 0 2 = refused 0
0 0 100 0 | set 1 0 = taken 0
0 0 100 0 | set 1 1 = taken 1
0 0 100 0 | set 1 2 = refused 0
0 0 100 0 | set 2 0 = refused 100
0 0 100 0 | set 2 1 = taken 1
0 0 100 0 | set 2 65535 = taken 65535
0 0 100 0 | set 2 65536 = refused 100
0 0 100 0 | set 3 0 = taken 0
0 0 100 0 | set 3 0o377 = taken 0o377
0 0 100 0 | set 3 0o400 = refused 0
0 0 100 0 | set 3 4294967295 = refused 0
0 0 100 0 | set 4 0 = refused 0
0 0 100 0 | set 4 1 = refused 0
0 0 100 0 | set 255 0 = refused 0";

const THE_SECOND_KEYBOARD_LOOKS_ON_LINE_0: &str =
    "1 0 7 0o101 | DIAC 0 = 0o101 keep | 0 0 7 0o101 | due 0 = line_key 0 | 0 0 7 0o101
1 0 9 5 | due 0 = line_key 0 | 1 0 9 5 | got 0 key 0o377 = after:9 go | 0 1 9 0o377
0 1 1 5 | due 0 = line_key 0 | 0 1 1 5 | got 0 no_key = after:1 go | 0 1 1 5
1 1 5 0o377 | reset = after:5 | 0 0 5 0o377";

const THE_SECOND_PRINTER_PUTS_EIGHT_BITS_ON_LINE_0: &str =
    "0 1 7 0 | DOAS 0o701 = 0 after:7 | 1 0 7 0o301
1 0 9 0o377 | due 0 = line_put 0 0o377 | 1 0 9 0o377 | got 0 done = keep go | 0 1 9 0o377
1 0 9 5 | due 0 = line_put 0 5 | 1 0 9 5 | got 0 line_full = after:9 go | 1 0 9 5
1 1 5 0o377 | reset = keep | 0 0 5 0o377";

#[test]
fn teletypes_type_and_print(rt: HostRuntime) {
    all(
        &rt,
        &mut Tti::new(),
        THE_PULSES_OF_A_KEYBOARD_CHANGE_ITS_FLAGS_ALONE,
    );
    all(&rt, &mut Tti::new(), A_KEYBOARD_LOOKS_AGAIN_AFTER_TIME);
    all(
        &rt,
        &mut Tto::new(),
        A_PRINTER_KEEPS_EIGHT_BITS_AND_THEN_TAKES_ITS_PULSE,
    );
    all(
        &rt,
        &mut Tto::new(),
        A_PRINTER_PRINTS_SEVEN_BITS_AND_WAITS_WHILE_THE_CONSOLE_IS_FULL,
    );
    all(&rt, &mut Tti::new(), A_RESET_STARTS_THE_KEYBOARD);
    all(&rt, &mut Tto::new(), A_RESET_DOES_NOT_START_THE_PRINTER);
    all(
        &rt,
        &mut Tti::new(),
        A_REGISTER_TAKES_ITS_LIMITS_AND_NOTHING_PAST_THEM,
    );
    all(
        &rt,
        &mut Tto::new(),
        A_REGISTER_TAKES_ITS_LIMITS_AND_NOTHING_PAST_THEM,
    );
    all(&rt, &mut Tti1::new(), THE_SECOND_KEYBOARD_LOOKS_ON_LINE_0);
    all(
        &rt,
        &mut Tto1::new(),
        THE_SECOND_PRINTER_PUTS_EIGHT_BITS_ON_LINE_0,
    );
}
