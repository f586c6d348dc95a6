// Runs with files on the paper tape units and the printer. Attaching the three files takes six calls on files.
use crate::machines::{Units, all};
use std::test::Fail;

/// NIOS PTR and JMP ., with an empty tape.
const BASE: &str =
    "words: 60112 400 | files: tape= | attach: PTP:punched:new=0 LPT:printed:new=0 PTR:tape:read=0 | do: run=1000:Limit | shows: PC=101 PTR.BUSY=1 PTR.DONE=0 PTR.POS=0 | time: 1000 | taken: 0 | left: punched= printed=";

const A_TAPE_IS_COPIED_BYTE_BY_BYTE: &str =
    "words: 60112 63612 777 60412 61113 63613 777 100 | with: PTR.STOP_IOE=1 | files: tape=hi! | attach: PTP:punched:new=0 LPT:printed:new=0 PTR:tape:read=3 | do: run=9999:UnitEnd.PTR | shows: PC=102 AC0=41 PTR.BUSY=1 PTR.DONE=0 PTR.BUF=41 PTR.POS=3 PTP.BUSY=0 PTP.DONE=1 PTP.BUF=41 PTP.POS=3 | time: 1818 | left: punched=hi! printed=";

const THE_END_OF_A_TAPE_STOPS_WHERE_STOP_IOE_SAYS_SO: &str =
    "with: PTR.STOP_IOE=1 | do: run=1000:UnitEnd.PTR | time: 300
with: PTR.STOP_IOE=0 | do: run=1000:Limit | time: 1000";

const A_FAILED_CALL_STOPS_AND_LEAVES_THE_UNIT: &str =
    "; the third write fails: the byte is in the file where the fault says so
words: 61113 63613 777 100 | with: AC0=101 | fails: 8:0 | do: run=1000:FileFault.PTP.0.Write.0 | shows: PC=102 AC0=101 PTP.BUSY=1 PTP.DONE=0 PTP.BUF=101 PTP.POS=2 | time: 606 | left: punched=AA printed=
words: 61113 63613 777 100 | with: AC0=101 | fails: 8:1 | do: run=1000:FileFault.PTP.0.Write.1 | shows: PC=102 AC0=101 PTP.BUSY=1 PTP.DONE=0 PTP.BUF=101 PTP.POS=2 | time: 606 | left: punched=AAA printed=
files: tape=x | attach: PTP:punched:new=0 LPT:printed:new=0 PTR:tape:read=1 | fails: 6:0 | do: run=1000:FileFault.PTR.2.Read.0 | time: 300";

const A_PRINTER_WRITES_THE_LOW_SEVEN_BITS: &str =
    "words: 61117 400 | with: AC0=301 | do: run=501:Limit | shows: PC=101 LPT.BUSY=0 LPT.DONE=1 LPT.BUF=101 LPT.POS=1 | time: 501 | left: punched= printed=A";

const A_READER_WHOSE_TAPE_IS_TAKEN_AWAY_HAS_NONE: &str =
    "with: PTR.STOP_IOE=1 | files: tape=x | attach: PTR:tape:read=1 | do: run=400:Limit time?400 taken?0 PTR.BUF?170 detach=PTR PC=100 run=999:UnitNone.PTR | shows: PC=101 PTR.POS=1 | time: 700 | left:";

#[test]
fn paper_units_work_on_their_files(rt: HostRuntime) -> Result<(), Fail> {
    all(
        &rt,
        rt.alloc(),
        Units::Paper,
        BASE,
        A_TAPE_IS_COPIED_BYTE_BY_BYTE,
    )?;
    all(
        &rt,
        rt.alloc(),
        Units::Paper,
        BASE,
        THE_END_OF_A_TAPE_STOPS_WHERE_STOP_IOE_SAYS_SO,
    )?;
    all(
        &rt,
        rt.alloc(),
        Units::Paper,
        BASE,
        A_FAILED_CALL_STOPS_AND_LEAVES_THE_UNIT,
    )?;
    all(
        &rt,
        rt.alloc(),
        Units::Paper,
        BASE,
        A_PRINTER_WRITES_THE_LOW_SEVEN_BITS,
    )?;
    all(
        &rt,
        rt.alloc(),
        Units::Paper,
        BASE,
        A_READER_WHOSE_TAPE_IS_TAKEN_AWAY_HAS_NONE,
    )?;
    Ok(())
}
