// The clock: BUSY, DONE and SEL.
use crate::devices::rows::all;
use clock_unit::Clk;

const THE_FUNCTION_COMES_BEFORE_THE_PULSE: &str = "1 1 1 | DOA 0o177776 = 0 keep | 1 1 2
1 1 3 | DOAS 0 = 0 after:16000 | 1 0 0
0 1 0 | DOAS 1 = 0 after:100000 | 1 0 1
0 0 1 | DOAS 2 = 0 after:10000 | 1 0 2
0 1 2 | DOAS 0o177777 = 0 after:1000 | 1 0 3
1 1 2 | DOAC 1 = 0 cancel | 0 0 1
1 0 2 | DOAP 3 = 0 keep | 1 0 3
1 1 2 | NIO 3 = 0 keep | 1 1 2
0 1 3 | NIOS 0 = 0 after:1000 | 1 0 3
1 0 2 | NIOC 0 = 0 cancel | 0 0 2
0 1 2 | NIOP 0 = 0 keep | 0 1 2
0 1 2 | DIA 3 = 0 keep | 0 1 2
0 1 2 | DOBC 3 = 0 cancel | 0 0 2
0 1 2 | DOCS 3 = 0 after:10000 | 1 0 2";

const A_TICK_IS_DONE_AND_A_RESET_CLEARS_ALL: &str =
    "1 0 3 | due 0 = nothing | 1 0 3 | got 0 done = keep go | 0 1 3 | reset = keep | 0 0 0
0 1 1 | due 0 = nothing | 0 1 1 | got 0 done = keep go | 0 1 1 | reset = keep | 0 0 0
1 0 3 | due 0 = nothing | 1 0 3 | got 0 no_key = keep go | 1 0 3 | reset = keep | 0 0 0
1 1 0 | due 0 = nothing | 1 1 0 | got 0 line_full = keep go | 1 1 0 | reset = keep | 0 0 0";

const A_REGISTER_TAKES_ITS_LIMITS_AND_NOTHING_PAST_THEM: &str = "0 0 0 | set 0 0 = taken 0
0 0 0 | set 0 1 = taken 1
0 0 0 | set 0 2 = refused 0
0 0 0 | set 1 0 = taken 0
0 0 0 | set 1 1 = taken 1
0 0 0 | set 1 2 = refused 0
0 0 0 | set 1 4294967295 = refused 0
0 0 0 | set 2 0 = taken 0
0 0 0 | set 2 3 = taken 3
0 0 0 | set 2 4 = refused 0
0 0 0 | set 2 256 = refused 0
0 0 0 | set 3 0 = refused 0
0 0 0 | set 255 1 = refused 0";

#[test]
fn a_clock_ticks(rt: HostRuntime) {
    all(&rt, &mut Clk::new(), THE_FUNCTION_COMES_BEFORE_THE_PULSE);
    all(&rt, &mut Clk::new(), A_TICK_IS_DONE_AND_A_RESET_CLEARS_ALL);
    all(
        &rt,
        &mut Clk::new(),
        A_REGISTER_TAKES_ITS_LIMITS_AND_NOTHING_PAST_THEM,
    );
}
