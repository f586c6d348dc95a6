use crate::grammar::reading::all;

const BREAK_TAKES_AN_ADDRESS_A_COUNT_AND_ACTIONS: &str = "BREAK 100|Break 0o100 1 9 9
B 7|Break 7 1 3 3
b 0|Break 0 1 3 3
br 77777|Break 0o77777 1 8 8
BREAK 100000|Break 0o100000 1 12 12
BREAK 40000000000|Break max 1 17 17
BREAK 100[2]|Break 0o100 2 12 12
BREAK 100[0]|Break 0o100 0 12 12
BREAK 100[010]|Break 0o100 10 14 14
BREAK 100[4294967296]|Break 0o100 4294967296 21 21
BREAK 100[9223372036854775809]|Break 0o100 max 30 30
BREAK 100;|Break 0o100 1 10 10
BREAK 100 ;|Break 0o100 1 11 11
BREAK 100; \t|Break 0o100 1 12 12
BREAK 100;;|Break 0o100 1 10 11
BREAK 100; E AC0|Break 0o100 1 11 16
BREAK 100 \t; \tE AC0 \t|Break 0o100 1 14 19
BREAK 100[2]; E AC0; NOBREAK ALL; STEP 2|Break 0o100 2 14 40
BREAK 100[2];8|Break 0o100 2 13 14
\tBREAK\t100[2]\t|Break 0o100 2 14 14
BREAK 1;00|Break 1 1 8 10
B 5;\"a;b\";;c|Break 5 1 4 12
BREAK 100 ; ; |Break 0o100 1 12 13";

const NOBREAK_TAKES_AN_ADDRESS_OR_ALL: &str = "NOBREAK ALL|NoBreak -
nob all |NoBreak -
NOB 100|NoBreak 0o100
NOBR 0 \t|NoBreak 0
NOBREAK 77777777777|NoBreak max";

const EXPECT_TAKES_A_COUNT_A_TEXT_AND_ACTIONS: &str = "EXPECT \"OK\"|Expect 1 7 11 11 11
EXP \"\"|Expect 1 4 6 6 6
exp \"a b\"|Expect 1 4 9 9 9
EXPECT [2] \"OK\"|Expect 2 11 15 15 15
EXPECT [0] \"x\"|Expect 0 11 14 14 14
EXPECT [9223372036854775809] \"x\"|Expect max 29 32 32 32
EXPECT \"OK\" SHOW TIME|Expect 1 7 11 12 21
EXPECT \t\"OK\" \t SHOW TIME; E 0 \t|Expect 1 8 12 15 29
EXPECT \"\\r\\n\\t\\\\\\\"\\377\"|Expect 1 7 23 23 23
EXPECT [1] \"A\" ; E 0|Expect 1 11 14 15 20
EXPECT \"A\"\tB|Expect 1 7 10 11 12
EXPECT \"[2]\"|Expect 1 7 12 12 12
EXPECT [3]\t\" \" x|Expect 3 11 14 15 16";

const SEND_TAKES_TIMES_AND_A_TEXT: &str = "SEND \"Y\"|Send 0 1000 5 8
SEN \"\" |Send 0 1000 4 6
send \"a\\r\"|Send 0 1000 5 10
SEND AFTER=5 \"Y\"|Send 5 1000 13 16
SEND after=005 \"Y\"|Send 5 1000 15 18
SEND DELAY=0 \"Y\"|Send 0 0 13 16
SEND delay=7\t\"Y\"|Send 0 7 13 16
SEND AFTER=1 DELAY=2 \"Y Z\"|Send 1 2 21 26
\tSEND\tAfter=4294967295 Delay=4294967296 \"Y\"\t|Send 4294967295 4294967296 40 43
SEND AFTER=9223372036854775809 DELAY=9223372036854775809 \"Y\"|Send max max 57 60
SEND \"AFTER=5\"|Send 0 1000 5 14";

const BREAKS_TEXTS_AND_TIMES_HAVE_ONE_FAULT: &str = "B|Missing
BREAK \t|Missing
BREAK X|BadNumber 6
BREAK 8|BadNumber 6
BREAK ;E 0|BadNumber 6
BREAK  ; E 0|BadNumber 7
BREAK [2]|BadNumber 6
BREAK 100[|BadNumber 6
BREAK 100[]|BadNumber 6
BREAK 100[2|BadNumber 6
BREAK 100[X]|BadNumber 6
BREAK 100]2[|BadNumber 6
BREAK 100[2]3|BadNumber 6
BREAK 100[2;3]|BadNumber 6
BREAK 100,200|BadNumber 6
BREAK 100-200|BadNumber 6
BREAK ALL|BadNumber 6
BREAK \"A\"|BadNumber 6
BREAK 100 [2]|Extra 10
BREAK 100 200|Extra 10
BREAK 100 E;0|Extra 10
BREAK 100[2] x ; E 0|Extra 13
BREAK -1|BadNumber 6
NOB|Missing
NOBREAK \t|Missing
NOBREAK X|BadName 8
NOBREAK 8|BadNumber 8
NOBREAK AL|BadName 8
NOBREAK ALLX|BadName 8
NOBREAK 100[2]|BadNumber 8
NOBREAK ;|BadName 8
NOBREAK ALL 1|Extra 12
nobreak 1 9|Extra 10
EXP|Missing
EXPECT  |Missing
EXPECT [2]|Missing
EXPECT [2] |Missing
EXPECT OK|BadName 7
EXPECT 2 \"A\"|BadNumber 7
EXPECT \"A|BadName 7
EXPECT \"|BadName 7
EXPECT A\"|BadName 7
EXPECT \"OK\"CONT|BadName 7
EXPECT \"OK\"; CONT|BadName 7
EXPECT \"OK\"\"A\"|BadName 7
EXPECT [2]\"A\"|BadName 7
EXPECT [] \"A\"|BadName 7
EXPECT [X] \"A\"|BadName 7
EXPECT [2 ] \"A\"|BadName 7
EXPECT [2] [3] \"A\"|BadName 11
EXPECT [2] A|BadName 11
EXPECT [2] 8|BadNumber 11
EXPECT \"a\tb\"|BadName 7
EXPECT \"\\x\"|BadName 7
EXPECT \"\\40\"|BadName 7
EXPECT \"\\400\"|BadName 7
EXPECT \"é\"|BadName 7
EXPECT 'A'|BadName 7
NOE 1|Extra 4
NOEXPECT X|Extra 9
NOS \"A\"|Extra 4
NOSEND 1|Extra 7
SEN|Missing
SEND \t|Missing
SEND AFTER=5|Missing
SEND AFTER=5 DELAY=2|Missing
SEND Y|BadName 5
SEND 1|BadNumber 5
SEND AFTER= \"Y\"|BadName 5
SEND AFTER=X \"Y\"|BadName 5
SEND AFTER \"Y\"|BadName 5
SEND AFTER =5 \"Y\"|BadName 5
SEND AFTE=5 \"Y\"|BadName 5
SEND DELAY=2 AFTER=5 \"Y\"|BadName 13
SEND AFTER=5 AFTER=5 \"Y\"|BadName 13
SEND DELAY=2 DELAY=2 \"Y\"|BadName 13
SEND \"Y\" AFTER=5|Extra 9
SEND \"Y\" \"Z\"|Extra 9
SEND \"Y\"Z|BadName 5
SEND AFTER=5\"Y\"|BadName 5
SEND AFTER=5 8|BadNumber 13";

#[test]
fn what_is_watched_is_read(rt: HostRuntime) {
    all(&rt, BREAK_TAKES_AN_ADDRESS_A_COUNT_AND_ACTIONS);
    all(&rt, NOBREAK_TAKES_AN_ADDRESS_OR_ALL);
    all(&rt, EXPECT_TAKES_A_COUNT_A_TEXT_AND_ACTIONS);
    all(&rt, SEND_TAKES_TIMES_AND_A_TEXT);
    all(&rt, BREAKS_TEXTS_AND_TIMES_HAVE_ONE_FAULT);
}
