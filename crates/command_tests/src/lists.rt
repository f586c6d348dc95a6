// EXAMINE, DEPOSIT and ASSERT over lists of items.
use crate::sessions::Watched::Nothing;
use crate::sessions::play_bare;
use std::test::Fail;

const LISTS: &str = "D 101-102,AC1 177777|0 Go|
E 100-103|100 Go|00100:\t000000$00101:\t177777$00102:\t177777$00103:\t000000$
E AC1|100 Go|AC1:\t177777$
D 100,SIZE 1|0 ReadOnlyName|
E 100|100 Go|00100:\t000000$
D 100 6|0 Go|
ASSERT 100<6|0 AssertFailed|
ASSERT 100<7|0 Go|
ASSERT 100<200000|0 OutOfRange|
D 100 101400|0 Go|
E -M SIZE,77-100|300 Go|SIZE:\t100000$00077:\tJMP 0$00100:\tINC 0,0$
E STATE,5-4|300 OutOfRange|
D 100-102 0|0 Go|
E 100-101,AC0|20 Console|00100:\t000000$00101:";

#[test]
fn a_list_is_done_item_by_item_or_not_at_all(rt: HostRuntime) -> Result<(), Fail> {
    play_bare(&rt, rt.alloc(), Nothing, LISTS)?;
    Ok(())
}
