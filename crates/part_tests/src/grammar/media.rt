use crate::grammar::reading::all;

const LOAD_TAKES_THE_REST_OF_THE_LINE: &str = "LOAD prog|Load 5 9
l  my tape \t|Load 3 10
LO 1.bin|Load 3 8
LOAD \"a b\"|Load 5 10
LOAD -F x|Load 5 9";

const SAVE_TAKES_THE_REST_OF_THE_LINE: &str = "SAVE s1|Save 5 7
sa s 1 |Save 3 6
SAV\t-F|Save 4 6";

const DUMP_TAKES_TWO_ADDRESSES_AND_A_NAME: &str = "DUMP 100-177 out|Dump 0o100 0o177 13 16
du 0-0 a b|Dump 0 0 7 10
DUMP 5-4 x |Dump 5 4 9 10
DUMP 40000000000-77777 x|Dump max 0o77777 23 24
DUM 1-40000000000 1-2|Dump 1 max 18 21";

const RESTORE_TAKES_AN_OPTION_AND_A_NAME: &str = "RESTORE s1|Restore 0 8 10
rest -f s1|Restore 1 8 10
RESTORE -F  s 1\t|Restore 1 12 15
RESTO -X|Restore 0 6 8
RESTORE -F -F|Restore 1 11 13
RESTORE s -F|Restore 0 8 12";

const MEDIA_HAVE_ONE_FAULT: &str = "L|Missing
LOAD \t|Missing
SA|Missing
DU|Missing
DUMP 100-177|Missing
DUMP 100-177 \t|Missing
DUMP 100 x|BadNumber 5
DUMP x 100-177|BadNumber 5
DUMP 100- x|BadNumber 5
DUMP -177 x|BadNumber 5
DUMP 100-8 x|BadNumber 5
DUMP 1-2-3 x|BadNumber 5
DUMP 1,2 x|BadNumber 5
DUMP ALL x|BadNumber 5
REST|Missing
RESTORE -F|Missing
RESTORE -F \t|Missing";

#[test]
fn load_dump_save_and_restore_take_names(rt: HostRuntime) {
    all(&rt, LOAD_TAKES_THE_REST_OF_THE_LINE);
    all(&rt, SAVE_TAKES_THE_REST_OF_THE_LINE);
    all(&rt, DUMP_TAKES_TWO_ADDRESSES_AND_A_NAME);
    all(&rt, RESTORE_TAKES_AN_OPTION_AND_A_NAME);
    all(&rt, MEDIA_HAVE_ONE_FAULT);
}
