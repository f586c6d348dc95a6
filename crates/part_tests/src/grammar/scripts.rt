use crate::grammar::reading::all;

const DO_TAKES_OPTIONS_A_NAME_AND_ARGUMENTS: &str = "DO s|Do 0 0 3 4 4 4
do s a b|Do 0 0 3 4 5 8
DO -V s|Do 1 0 6 7 7 7
DO -E s|Do 0 1 6 7 7 7
DO -v -e s \"x y\" \t|Do 1 1 9 10 11 16
DO -E -V s|Do 0 1 6 8 9 10
DO -V -V s|Do 1 0 6 8 9 10
DO -q s|Do 0 0 3 5 6 7
DO\ts\t|Do 0 0 3 4 5 5
DO 1 2|Do 0 0 3 4 5 6
DO s -V -E|Do 0 0 3 4 5 10
DO -V -E -E x|Do 1 1 9 11 12 13";

const GOTO_TAKES_A_WORD: &str = "GOTO loop|Goto 5 9
got 1|Goto 4 5
GOTO :x|Goto 5 7
GOTO\t;a\t|Goto 5 7
GOTO é|Goto 5 7";

const ECHO_TAKES_ALL_BEHIND_ONE_BLANK: &str = "ECHO a|Echo 5 6
ec|Echo 2 2
ECHO|Echo 4 4
ECHO |Echo 5 5
ECHO  a |Echo 5 8
ECHO\t\ta|Echo 5 7
 ECHO a; b|Echo 6 10
ECHO \"a\"|Echo 5 8";

const ASSERT_TAKES_AN_ITEM_AND_A_COMPARISON: &str = "ASSERT AC0=1|Assert CPU Reg:0 Eq 1
as pc!=100|Assert CPU Reg:5 Ne 0o100
AS 100<5|Assert CPU At:0o100 Lt 5
AS 100<=5|Assert CPU At:0o100 Le 5
AS 100>5|Assert CPU At:0o100 Gt 5
AS 100>=777777|Assert CPU At:0o100 Ge 0o777777
AS TTI BUF=101|Assert TTI Reg:3 Eq 0o101
AS tti foo=0|Assert TTI Unknown Eq 0
AS XYZ=40000000000|Assert CPU Unknown Eq max
AS 40000000000=0|Assert CPU At:max Eq 0
AS PTR 100=0 |Assert PTR At:0o100 Eq 0
AS PTR=0|Assert CPU Unknown Eq 0
AS QTY RX5=501|Assert QTY Reg:8 Eq 0o501
as qty tx63!=0|Assert QTY Reg:130 Ne 0
AS QTY RX64=0|Assert QTY Unknown Eq 0
AS QTY5=0|Assert CPU Unknown Eq 0";

const SCRIPTS_HAVE_ONE_FAULT: &str = "DO|Missing
DO \t|Missing
DO -V|Missing
DO -V -E|Missing
DO -E \t|Missing
GOT|Missing
GOTO \t|Missing
GOTO a b|Extra 7
AS|Missing
ASSERT TTI|Missing
AS AC0|BadName 3
AS 5|BadNumber 3
AS AC0 = 0|BadName 3
AS AC0= 0|BadName 3
AS AC0=|BadName 3
AS =0|BadName 3
AS AC0=8|BadName 3
AS 1=8|BadNumber 3
AS AC0==0|BadName 3
AS AC0=<0|BadName 3
AS AC0!0|BadName 3
AS AC0=-1|BadName 3
AS &7=5|BadName 3
AS AC0&7=5|BadName 3
AS 0-1=0|BadNumber 3
AS 0/1=0|BadNumber 3
AS ALL=0|BadName 3
AS STATE=0|BadName 3
AS tti STATE=0|BadName 7
AS QTY|Missing
AS QTY STATE=0|BadName 7
AS QTY5 RX0=0|BadName 3
AS TTI 8=0|BadNumber 7
AS AC0=0 1|Extra 9
AS AC0,PC=0|BadName 3
AS TTI TTO BUF=0|BadName 7
AS -M AC0=0|BadName 3";

#[test]
fn the_commands_of_scripts_are_read(rt: HostRuntime) {
    all(&rt, DO_TAKES_OPTIONS_A_NAME_AND_ARGUMENTS);
    all(&rt, GOTO_TAKES_A_WORD);
    all(&rt, ECHO_TAKES_ALL_BEHIND_ONE_BLANK);
    all(&rt, ASSERT_TAKES_AN_ITEM_AND_A_COMPARISON);
    all(&rt, SCRIPTS_HAVE_ONE_FAULT);
}
