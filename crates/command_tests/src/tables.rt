use crate::sessions::Watched::All;
use crate::sessions::play_bare;
use std::test::Fail;

const FULL: &str = "BREAK 400|0 Full|
BREAK 400[4294967296]|0 OutOfRange|
BREAK 377|0 Go|
NOBREAK 377|0 Go|
BREAK 77777|0 Go|
BREAK 377|0 Full|
EXPECT \"x\"|0 Full|
EXPECT \"\"|0 OutOfRange|
NOEXPECT|0 Go|
EXPECT \"x\"|0 Go|
SHOW SEND|100 Go|Send: 4095 bytes$
SEND \"ab\"|0 Full|
SEND DELAY=4294967296 \"ab\"|0 OutOfRange|
SEND \"\"|0 Go|
SEND \"a\"|0 Go|
SHOW SEND|100 Go|Send: 4096 bytes$
NOSEND|0 Go|
SEND \"ab\"|0 Go|";

#[test]
fn full_tables_take_no_more(rt: HostRuntime) -> Result<(), Fail> {
    play_bare(&rt, rt.alloc(), All, FULL)?;
    Ok(())
}
