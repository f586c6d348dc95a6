// The disk: BUSY, DONE, STOP_IOE, TIME, DA, MA, STAT and WRITE.
use crate::devices::rows::all;
use disk_unit::Dsk;

const THE_FUNCTION_COMES_BEFORE_THE_PULSE: &str =
    "0 1 0 9 5 6 0o11 1 | DIA 7 = 0o11 keep | 0 1 0 9 5 6 0o11 1
0 1 1 9 5 6 5 1 | DIAC 7 = 5 cancel | 0 0 1 9 5 6 0 1
0 1 0 9 5 6 5 1 | DIAS 7 = 5 after:9 | 1 0 0 9 5 6 0 0
0 0 0 9 5 0o77777 0 0 | DIB 0 = 0o77777 keep | 0 0 0 9 5 0o77777 0 0
0 1 0 200 5 6 1 0 | DICP 0 = 0o400 after:200 | 1 0 0 200 5 6 0 1
1 0 0 9 5 6 0 1 | DOA 0o177777 = 0 keep | 1 0 0 9 0o17777 6 0 1
0 1 0 9 5 6 1 1 | DOAS 0o20001 = 0 after:9 | 1 0 0 9 1 6 0 0
1 1 1 65535 5 6 0 0 | DOAP 0o160002 = 0 after:65535 | 1 0 1 65535 2 6 0 1
0 0 0 9 5 6 0 0 | DOB 0o177777 = 0 keep | 0 0 0 9 5 0o77777 0 0
1 1 0 9 5 6 1 1 | DOBC 0o100003 = 0 cancel | 0 0 0 9 5 3 0 1
0 0 0 1 5 6 0 0 | DOBS 0o400 = 0 after:1 | 1 0 0 1 5 0o400 0 0
0 1 0 9 5 6 1 1 | DOC 0o177777 = 0 keep | 0 1 0 9 5 6 1 1
0 1 0 9 5 6 1 0 | DOCP 0o177777 = 0 after:9 | 1 0 0 9 5 6 0 1
0 1 0 9 5 6 1 1 | NIO 0o177777 = 0 keep | 0 1 0 9 5 6 1 1
1 0 0 9 5 6 0 1 | NIOS 0 = 0 after:9 | 1 0 0 9 5 6 0 0
1 0 1 9 5 6 0o17 1 | NIOC 0 = 0 cancel | 0 0 1 9 5 6 0 1";

const A_SECTOR_IS_MOVED_AS_THE_REGISTERS_THEN_SAY: &str =
    "1 0 0 9 7 0 0 1 | due 0 = sector_write 7 0 | 1 0 0 9 7 0 0 1 | got 0 done = keep go | 0 1 0 9 7 0o400 0 1
| reset = keep | 0 0 0 9 7 0o400 0 0
1 0 1 9 7 0o77400 0 0 | due 0 = sector_read 7 0o77400 | 1 0 1 9 7 0o77400 0 0 | got 0 done = keep go | 0 1 1 9 7 0 0 0
| reset = keep | 0 0 1 9 7 0 0 0
0 0 1 9 7 0o77777 5 0 | due 0 = sector_read 7 0o77777 | 0 0 1 9 7 0o77777 5 0 | got 0 done = keep go | 0 1 1 9 7 0o377 5 0
| reset = keep | 0 0 1 9 7 0o377 0 0
1 0 0 9 7 6 0 0 | due 0 = sector_read 7 6 | 1 0 0 9 7 6 0 0 | got 0 no_file = keep go | 0 1 0 9 7 6 5 0
| reset = keep | 0 0 0 9 7 6 0 0
1 0 1 9 7 6 0 1 | due 0 = sector_write 7 6 | 1 0 1 9 7 6 0 1 | got 0 no_file = keep no_file | 0 1 1 9 7 6 5 1
| reset = keep | 0 0 1 9 7 6 0 0
1 0 0 9 7 6 0 1 | due 0 = sector_write 7 6 | 1 0 0 9 7 6 0 1 | got 0 read_only = keep go | 0 1 0 9 7 6 0o11 1
| reset = keep | 0 0 0 9 7 6 0 0
1 0 1 9 7 6 0 1 | due 0 = sector_write 7 6 | 1 0 1 9 7 6 0 1 | got 0 read_only = keep go | 0 1 1 9 7 6 0o11 1
| reset = keep | 0 0 1 9 7 6 0 0
1 0 1 9 7 6 1 1 | due 0 = sector_write 7 6 | 1 0 1 9 7 6 1 1 | got 0 end = keep go | 1 0 1 9 7 6 1 1
| reset = keep | 0 0 1 9 7 6 0 0
1 1 1 9 7 6 0 0 | due 0 = sector_read 7 6 | 1 1 1 9 7 6 0 0 | got 0 no_key = keep go | 1 1 1 9 7 6 0 0
| reset = keep | 0 0 1 9 7 6 0 0";

const A_REGISTER_TAKES_ITS_LIMITS_AND_NOTHING_PAST_THEM: &str = "| 0 0 0 200 0 0 0 0
| set 0 2 = refused 0 | set 0 0 = taken 0 | set 0 1 = taken 1
| set 1 2 = refused 0 | set 1 0 = taken 0 | set 1 1 = taken 1
| set 2 2 = refused 0 | set 2 0 = taken 0 | set 2 1 = taken 1
| set 3 65536 = refused 200 | set 3 1 = taken 1 | set 3 65535 = taken 65535
| set 4 0o20000 = refused 0 | set 4 0 = taken 0 | set 4 0o17777 = taken 0o17777
| set 5 0o100000 = refused 0 | set 5 0 = taken 0 | set 5 0o77777 = taken 0o77777
| set 6 0o20 = refused 0 | set 6 0 = taken 0 | set 6 0o17 = taken 0o17
| set 7 2 = refused 0 | set 7 0 = taken 0 | set 7 1 = taken 1
| set 3 0 = refused 65535 | set 8 0 = refused 0";

#[test]
fn a_disk_moves_sectors(rt: HostRuntime) {
    all(&rt, &mut Dsk::new(), THE_FUNCTION_COMES_BEFORE_THE_PULSE);
    all(
        &rt,
        &mut Dsk::new(),
        A_SECTOR_IS_MOVED_AS_THE_REGISTERS_THEN_SAY,
    );
    all(
        &rt,
        &mut Dsk::new(),
        A_REGISTER_TAKES_ITS_LIMITS_AND_NOTHING_PAST_THEM,
    );
}
