use crate::grammar::reading::all;

const SET_TAKES_A_SIZE_OF_MEMORY: &str = "SET CPU 4K|SetSize 4
set cpu 32k|SetSize 32
SET CPU 0K|SetSize 0
SET CPU 007K|SetSize 7
SET\tCPU\t16K\t|SetSize 16
SET CPU 9223372036854775809K|SetSize max";

const SET_TAKES_WHICH_WORD_IS_TESTED: &str = "SET CPU AUTOBIT=BEFORE|SetAutobitBefore
SET CPU AUTOBIT=AFTER|SetAutobitAfter
set cpu autobit=before\t|SetAutobitBefore
Set Cpu AutoBit=After|SetAutobitAfter";

const SET_TAKES_A_DISCONNECTION: &str = "SET TTI1 DISCONNECT|Disconnect TTI1
set tti1 disconnect\t|Disconnect TTI1";

const SETTINGS_HAVE_ONE_FAULT: &str = "SET|Missing
SET \t|Missing
SET 8|BadNumber 4
SET PTR|BadName 4
SET TTI DISCONNECT|BadName 4
SET QTY DISCONNECT|BadName 4
SET CP 8K|BadName 4
SET CPU|Missing
SET CPU 8|BadNumber 8
SET CPU K|BadName 8
SET CPU 8KK|BadNumber 8
SET CPU 8M|BadNumber 8
SET CPU X|BadName 8
SET CPU 8 K|BadNumber 8
SET CPU -8K|BadName 8
SET CPU 8K 8K|Extra 11
SET CPU AUTOBIT|BadName 8
SET CPU AUTOBIT=|BadName 8
SET CPU AUTOBIT=X|BadName 8
SET CPU AUTOBIT=1|BadName 8
SET CPU AUTOBIT=BEFOREX|BadName 8
SET CPU AUTOBIT=AFTE|BadName 8
SET CPU AUTOBIT =AFTER|BadName 8
SET CPU AUTOBIT= AFTER|BadName 8
SET CPU BEFORE|BadName 8
SET CPU 8K AUTOBIT=AFTER|Extra 11
SET CPU AUTOBIT=AFTER 8K|Extra 22
SET TTI1 AUTOBIT=AFTER|BadName 9
SET TTI1|Missing
SET TTI1 8|BadNumber 9
SET TTI1 DISC|BadName 9
SET TTI1 DISCONNECTED|BadName 9
SET TTI1 DISCONNECT 1|Extra 20";

#[test]
fn settings_are_read(rt: HostRuntime) {
    all(&rt, SET_TAKES_A_SIZE_OF_MEMORY);
    all(&rt, SET_TAKES_WHICH_WORD_IS_TESTED);
    all(&rt, SET_TAKES_A_DISCONNECTION);
    all(&rt, SETTINGS_HAVE_ONE_FAULT);
}
