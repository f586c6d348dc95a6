use crate::sessions::Watched::Nothing;
use crate::sessions::play_bare;
use std::test::Fail;

const COMMANDS: &str = "D 0 7|0 Go|
STEP|100 Stepped|$Step expired, PC: 00007 (000000)$
D 7 63077|0 Go|
CONT|100 Halt|$HALT instruction, PC: 00010 (000000)$
SHOW TIME|7 Console|Time: 2
SHOW TIME|8 Go|Time: 2$
ECHO stop|3 Console|sto
ECHO stop|5 Go|stop$
ATTACH PTR p|0 Go|
DETACH PTR|0 Go|
ATTACH -R PTR p|0 Go|
SHOW PTR|9 Console|PTR, atta
SHOW PTR|100 Go|PTR, attached to p, read only$
BREAK 100|0 Go|
BREAK 0[4294967295];|0 Go|
SHOW BREAK|23 Console|00000:\t[4294967295]$001
EXPECT \"OK\"|0 Go|
SHOW EXPECT|2 Console|[1
SEND \"YZ\"|0 Go|
SHOW SEND|6 Console|Send: \nEXIT 3|0 Exit 3|
SHOW PTR|100 Go|PTR, not attached$";

#[test]
fn a_refused_byte_ends_a_command_and_an_exit_detaches(rt: HostRuntime) -> Result<(), Fail> {
    play_bare(&rt, rt.alloc(), Nothing, COMMANDS)?;
    Ok(())
}

const RUNS: &str = "D 100 61111|0 Go|
D 101 63611|0 Go|
D 102 777|0 Go|
D 103 63077|0 Go|
D AC0 101|0 Go|
GO 100|100 Halt|A$HALT instruction, PC: 00104 (000000)$
SHOW TIME|100 Go|Time: 103$
GO 100|0 Console|
SHOW TIME|100 Go|Time: 203$";

#[test]
fn a_refused_byte_ends_a_run_where_it_was_to_be_printed(rt: HostRuntime) -> Result<(), Fail> {
    play_bare(&rt, rt.alloc(), Nothing, RUNS)?;
    Ok(())
}
