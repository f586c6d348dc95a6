// The magnetic tape: BUSY, DONE, STOP_IOE, TIME, CMD, DRIVE, MA, WC and STAT, and POS0 to POS7.
use crate::devices::rows::{all, plays};
use std::process::Abort;
use tape_unit::Mta;

/// Plays each row with the drives at their places.
fn all_at_places(rt: &impl Abort, table: &str) {
    let mut tape = Mta::new();
    for row in table.lines() {
        plays(rt, &mut tape, AT_PLACES);
        plays(rt, &mut tape, row);
    }
}

/// The same, where no drive moves.
fn all_in_place(rt: &impl Abort, table: &str) {
    let mut tape = Mta::new();
    for row in table.lines() {
        plays(rt, &mut tape, AT_PLACES);
        plays(rt, &mut tape, row);
        plays(rt, &mut tape, STILL_AT_PLACES);
    }
}

const AT_PLACES: &str = "0 0 0 1000 0 0 0 0 0 0 100 200 300 400 500 600 700 | kind = MTA";

const STILL_AT_PLACES: &str = "| from 9 = 0 100 200 300 400 500 600 700";

// Words at rest, and then at work, where no output and no S is taken, but C is. P is no pulse of the tape.
const THE_FUNCTION_COMES_BEFORE_THE_PULSE: &str =
    "0 1 0 9 3 5 6 7 0o120001 | DIA 7 = 0o120001 keep | 0 1 0 9 3 5 6 7 0o120001
0 1 1 9 3 5 6 7 1 | DIAC 7 = 1 cancel | 0 0 1 9 3 5 6 7 0
0 1 1 9 3 5 6 7 1 | DIAS 7 = 1 after:9 5 | 1 0 1 9 3 5 6 7 0
1 0 0 9 3 5 0o77777 7 0 | DIB 0 = 0o77777 keep | 1 0 0 9 3 5 0o77777 7 0
1 0 0 9 3 5 6 0o7777 0 | DIC 0 = 0o7777 keep | 1 0 0 9 3 5 6 0o7777 0
0 1 0 9 3 5 6 7 1 | DOA 0o43 = 0 keep | 0 1 0 9 4 3 6 7 1
0 0 0 9 0 0 6 7 0 | DOA 0o177777 = 0 keep | 0 0 0 9 7 7 6 7 0
0 0 0 9 7 7 6 7 0 | DOA 0o100 = 0 keep | 0 0 0 9 0 0 6 7 0
0 0 0 9 3 5 6 7 0 | DOB 0o177776 = 0 keep | 0 0 0 9 3 5 0o77776 7 0
0 0 0 9 3 5 6 7 0 | DOC 0o177775 = 0 keep | 0 0 0 9 3 5 6 0o7775 0
0 1 0 1000 3 5 6 7 1 | DOAS 0o12 = 0 after:1000 2 | 1 0 0 1000 1 2 6 7 0
0 1 0 1 3 7 6 7 1 | DOBS 0o5 = 0 after:1 7 | 1 0 0 1 3 7 5 7 0
0 1 0 9 3 5 6 7 1 | DOCC 0o5 = 0 cancel | 0 0 0 9 3 5 6 5 0
0 0 0 9 2 0 6 7 0 | NIOS 0 = 0 after:9 | 1 0 0 9 2 0 6 7 0
0 1 0 9 3 5 6 7 1 | NIOP 0 = 0 keep | 0 1 0 9 3 5 6 7 1
0 1 0 9 3 5 6 7 1 | DOAP 0o12 = 0 keep | 0 1 0 9 1 2 6 7 1
1 0 0 9 3 5 6 7 0 | DOA 0o12 = 0 keep | 1 0 0 9 3 5 6 7 0
1 0 0 9 3 5 6 7 0 | DOB 0o12 = 0 keep | 1 0 0 9 3 5 6 7 0
1 0 0 9 3 5 6 7 0 | DOC 0o12 = 0 keep | 1 0 0 9 3 5 6 7 0
1 1 0 9 3 5 6 7 1 | DOAS 0o12 = 0 keep | 1 1 0 9 3 5 6 7 1
1 1 0 9 3 5 6 7 1 | DIAS 0 = 1 keep | 1 1 0 9 3 5 6 7 1
1 0 0 9 3 5 6 7 1 | NIOP 0 = 0 keep | 1 0 0 9 3 5 6 7 1
1 1 1 9 3 5 6 7 1 | NIOC 0 = 0 cancel | 0 0 1 9 3 5 6 7 0
1 0 1 9 3 5 6 7 1 | DOAC 0o12 = 0 cancel | 0 0 1 9 3 5 6 7 0";

const A_REGISTER_TAKES_ITS_LIMITS_AND_NOTHING_PAST_THEM: &str =
    "| kind = MTA | 0 0 0 1000 0 0 0 0 0 0 0 0 0 0 0 0 0
| set 0 2 = refused 0 | set 0 0 = taken 0 | set 0 1 = taken 1
| set 1 2 = refused 0 | set 1 0 = taken 0 | set 1 1 = taken 1
| set 2 2 = refused 0 | set 2 0 = taken 0 | set 2 1 = taken 1
| set 3 65536 = refused 1000 | set 3 1 = taken 1 | set 3 65535 = taken 65535
| set 4 8 = refused 0 | set 4 0 = taken 0 | set 4 7 = taken 7
| set 5 8 = refused 0 | set 5 0 = taken 0 | set 5 7 = taken 7
| set 6 0o100000 = refused 0 | set 6 0 = taken 0 | set 6 0o77777 = taken 0o77777
| set 7 0o10000 = refused 0 | set 7 0 = taken 0 | set 7 0o7777 = taken 0o7777
| set 8 0o200000 = refused 0 | set 8 0 = taken 0 | set 8 0o177777 = taken 0o177777
| set 9 0o400000001 = refused 0 | set 9 0 = taken 0 | set 9 0o400000000 = taken 0o400000000
| set 10 0o400000001 = refused 0 | set 10 0 = taken 0 | set 10 0o400000000 = taken 0o400000000
| set 11 0o400000001 = refused 0 | set 11 0 = taken 0 | set 11 0o400000000 = taken 0o400000000
| set 12 0o400000001 = refused 0 | set 12 0 = taken 0 | set 12 0o400000000 = taken 0o400000000
| set 13 0o400000001 = refused 0 | set 13 0 = taken 0 | set 13 0o400000000 = taken 0o400000000
| set 14 0o400000001 = refused 0 | set 14 0 = taken 0 | set 14 0o400000000 = taken 0o400000000
| set 15 0o400000001 = refused 0 | set 15 0 = taken 0 | set 15 0o400000000 = taken 0o400000000
| set 16 0o400000001 = refused 0 | set 16 0 = taken 0 | set 16 0o400000000 = taken 0o400000000
| set 3 0 = refused 65535 | set 17 0 = refused 0";

#[test]
fn a_register_takes_its_limits_and_nothing_past_them(rt: HostRuntime) {
    all(
        &rt,
        &mut Mta::new(),
        A_REGISTER_TAKES_ITS_LIMITS_AND_NOTHING_PAST_THEM,
    );
}

// DRIVE names another drive by then.
const A_COMMAND_IS_WANTED_AT_THE_PLACE_OF_ITS_DRIVE: &str =
    "1 0 0 9 0 5 0o1000 0o7700 0 | due 3 = tape 0 300 0o1000 0o100 | 1 0 0 9 0 5 0o1000 0o7700 0
1 0 0 9 1 5 0 0 0 | due 0 = tape 1 0 0 4096 | 1 0 0 9 1 5 0 0 0
1 0 0 9 3 5 5 0o7777 0 | due 7 = tape 3 700 5 1 | 1 0 0 9 3 5 5 0o7777 0
1 0 0 9 4 5 5 0o7775 0 | due 6 = tape 4 600 5 3 | 1 0 0 9 4 5 5 0o7775 0
1 0 0 9 5 5 0o77777 1 0 | due 1 = tape 5 100 0o77777 4095 | 1 0 0 9 5 5 0o77777 1 0
1 0 0 9 7 5 5 0o4000 0 | due 4 = tape 7 400 5 2048 | 1 0 0 9 7 5 5 0o4000 0
1 0 0 9 2 5 6 7 0 | due 5 = nothing";

const STAT_SAYS_WHAT_AN_OPERATION_CAME_TO: &str =
    "1 0 0 9 3 5 6 7 0 | got 2 tape plain 8 0 0 = keep go | 0 1 0 9 3 5 6 7 1
1 0 0 9 3 5 6 7 0 | got 2 tape plain 8 0 0 flagged = keep go | 0 1 0 9 3 5 6 7 0o102001
1 0 0 9 3 5 6 7 0 | got 2 tape medium 8 0 0 = keep go | 0 1 0 9 3 5 6 7 0o101001
1 0 0 9 3 5 6 7 0 | got 2 tape mark 8 0 0 = keep go | 0 1 0 9 3 5 6 7 0o401
1 0 0 9 3 5 6 7 0 | got 2 tape load_point 8 0 0 = keep go | 0 1 0 9 3 5 6 7 1
1 0 0 9 3 5 6 7 0 | got 2 tape plain 0 0 0 = keep go | 0 1 0 9 3 5 6 7 0o201
1 0 0 9 3 5 6 7 0 | got 2 tape load_point 0 0 0 = keep go | 0 1 0 9 3 5 6 7 0o201
1 0 0 9 3 5 6 7 0 | got 2 tape medium 0 0 0 = keep go | 0 1 0 9 3 5 6 7 0o101201
1 0 0 9 3 5 6 7 0 | got 2 tape plain 8 0 0 lost = keep go | 0 1 0 9 3 5 6 7 0o100021
1 0 0 9 3 5 6 7 0 | got 2 tape plain 8 0 0 odd = keep go | 0 1 0 9 3 5 6 7 3
1 0 0 9 3 5 6 7 0 | got 2 tape plain 8 0 0 odd lost = keep go | 0 1 0 9 3 5 6 7 0o100023
1 0 0 9 3 5 6 7 0 | got 2 tape plain 8 0 0 odd flagged lost = keep go | 0 1 0 9 3 5 6 7 0o102023";

const MA_AND_WC_MOVE_ON_AND_THE_RIGHT_TAPE_ALONE: &str =
    "1 0 1 9 3 2 0o100 0o7700 0 | got 0 tape plain 8 0o40 0 = keep go | 0 1 1 9 3 2 0o140 0o7740 1 8 100 200 300 400 500 600 700
1 0 1 9 3 2 0o77770 0o7770 0 | got 7 tape plain 67108864 0o10 0 = keep go | 0 1 1 9 3 2 0 0 1 0 100 200 300 400 500 600 67108864
1 0 1 9 3 2 0o77777 0o7777 0 | got 3 tape plain 8 4096 0 = keep go | 0 1 1 9 3 2 0o7777 0o7777 1 0 100 200 8 400 500 600 700
1 0 1 9 3 2 5 0o7776 0 | got 4 tape plain 8 0 3 = keep go | 0 1 1 9 3 2 5 1 1 0 100 200 300 8 500 600 700
1 0 1 9 3 2 0o77777 0o7777 0 | got 5 tape plain 8 65535 65535 = keep go | 0 1 1 9 3 2 0o77776 0o7775 1 0 100 200 300 400 8 600 700";

#[test]
fn a_tape_keeps_its_places(rt: HostRuntime) {
    all_at_places(&rt, STAT_SAYS_WHAT_AN_OPERATION_CAME_TO);
    all_at_places(&rt, MA_AND_WC_MOVE_ON_AND_THE_RIGHT_TAPE_ALONE);
}

const AN_ANSWER_MAY_STOP_THE_MACHINE: &str =
    "1 0 0 9 3 5 6 7 4 | got 2 tape medium 200 0 0 = keep go | 0 1 0 9 3 5 6 7 0o101001 0 100 200 300 400 500 600 700 | reset = keep | 0 0 0 9 0 0 6 7 0
1 0 1 9 3 5 6 7 4 | got 2 tape medium 200 0 0 = keep end | 0 1 1 9 3 5 6 7 0o101001 0 100 200 300 400 500 600 700 | reset = keep | 0 0 1 9 0 0 6 7 0
1 0 1 9 3 5 6 7 4 | got 2 tape mark 200 0 0 = keep go | 0 1 1 9 3 5 6 7 0o401 0 100 200 300 400 500 600 700 | reset = keep | 0 0 1 9 0 0 6 7 0
1 0 0 9 3 5 6 7 4 | got 2 done = keep go | 0 1 0 9 3 5 6 7 0o120000 0 100 200 300 400 500 600 700 | reset = keep | 0 0 0 9 0 0 6 7 0
1 0 1 9 3 5 6 7 4 | got 2 done = keep go | 0 1 1 9 3 5 6 7 0o120000 0 100 200 300 400 500 600 700 | reset = keep | 0 0 1 9 0 0 6 7 0
1 0 0 9 3 5 6 7 4 | got 2 no_file = keep go | 0 1 0 9 3 5 6 7 0o120000 0 100 200 300 400 500 600 700 | reset = keep | 0 0 0 9 0 0 6 7 0
1 0 1 9 3 5 6 7 4 | got 2 no_file = keep no_file | 0 1 1 9 3 5 6 7 0o120000 0 100 200 300 400 500 600 700 | reset = keep | 0 0 1 9 0 0 6 7 0
1 0 0 9 3 5 6 7 4 | got 2 read_only = keep go | 0 1 0 9 3 5 6 7 0o120001 0 100 200 300 400 500 600 700 | reset = keep | 0 0 0 9 0 0 6 7 0
1 0 1 9 3 5 6 7 4 | got 2 read_only = keep go | 0 1 1 9 3 5 6 7 0o120001 0 100 200 300 400 500 600 700 | reset = keep | 0 0 1 9 0 0 6 7 0
1 0 1 9 3 5 6 7 4 | got 2 end = keep go | 1 0 1 9 3 5 6 7 4 0 100 200 300 400 500 600 700 | reset = keep | 0 0 1 9 0 0 6 7 0
1 0 1 9 3 5 6 7 4 | got 2 byte 7 = keep go | 1 0 1 9 3 5 6 7 4 0 100 200 300 400 500 600 700 | reset = keep | 0 0 1 9 0 0 6 7 0
1 0 1 9 3 5 6 7 4 | got 2 no_key = keep go | 1 0 1 9 3 5 6 7 4 0 100 200 300 400 500 600 700 | reset = keep | 0 0 1 9 0 0 6 7 0
1 0 1 9 3 5 6 7 4 | got 2 line_full = keep go | 1 0 1 9 3 5 6 7 4 0 100 200 300 400 500 600 700 | reset = keep | 0 0 1 9 0 0 6 7 0";

#[test]
fn a_tape_does_its_commands(rt: HostRuntime) {
    all_in_place(&rt, THE_FUNCTION_COMES_BEFORE_THE_PULSE);
    all_in_place(&rt, A_COMMAND_IS_WANTED_AT_THE_PLACE_OF_ITS_DRIVE);
    all_in_place(&rt, AN_ANSWER_MAY_STOP_THE_MACHINE);
}
