// Runs with magnetic tape: a program gives a command to a drive and waits until it is done. The first drive and that with
// number 3 have a file. Attaching them takes four calls on files.
use crate::machines::{Units, all};
use std::test::Fail;

/// DOA 0,MTA, DOB 1,MTA, DOC 2,MTA, NIOS MTA, SKPDN MTA, JMP .-1, DIA 0,MTA and HALT. AC0 to AC2 are the command and the
/// number of the drive, the address, and 10000 less how many words or blocks. The command is done at time 1003, and the
/// program halts at 1007. A program that was stopped has not come to its DIA.
const BASE: &str =
    "words: 61022 66022 73022 60122 63622 777 60422 63077 | put: [200]=40502 [201]=177600 [202]=1 AC1=200 | files: tape=\x03\0\0\0abc\x7f\x03\0\0\0 other=\x02\0\0\0xy\x02\0\0\0 | attach: MTA0:tape:read=12 MTA3:other:any=10 | do: run=9999:Halt | time: 1007 | queue:";

const A_BLOCK_IS_READ_HIGH_BYTE_FIRST: &str =
    "with: AC0=0 AC2=7776 | shows: AC0=3 MTA.BUSY=0 MTA.DONE=1 MTA.MA=202 MTA.WC=0 MTA.STAT=3 MTA.POS0=12. MTA.POS3=0 [200]=60542 [201]=61400 [202]=1
; the address goes on at 0
put: [77777]=40502 [0]=177600 [1]=1 | with: AC0=0 AC1=77777 AC2=7770 | shows: AC0=3 MTA.BUSY=0 MTA.DONE=1 MTA.MA=1 MTA.WC=7772 MTA.STAT=3 MTA.POS0=12. MTA.POS3=0 [77777]=60542 [0]=61400 [1]=1
; a count of all words, and of one less: the tape stands behind the whole block
with: AC0=0 AC2=7775 | files: tape=\x05\0\0\0abcde\x7f\x05\0\0\0 other=\x02\0\0\0xy\x02\0\0\0 | attach: MTA0:tape:read=14 MTA3:other:any=10 | shows: AC0=3 MTA.BUSY=0 MTA.DONE=1 MTA.MA=203 MTA.WC=0 MTA.STAT=3 MTA.POS0=14. MTA.POS3=0 [200]=60542 [201]=61544 [202]=62400
with: AC0=0 AC2=7776 | files: tape=\x05\0\0\0abcde\x7f\x05\0\0\0 other=\x02\0\0\0xy\x02\0\0\0 | attach: MTA0:tape:read=14 MTA3:other:any=10 | shows: AC0=100023 MTA.BUSY=0 MTA.DONE=1 MTA.MA=202 MTA.WC=0 MTA.STAT=100023 MTA.POS0=14. MTA.POS3=0 [200]=60542 [201]=61544 [202]=1
with: AC0=0 AC2=7777 MTA.POS0=4. | files: tape=\0\0\0\0\x04\0\0\0abcd\x04\0\0\0 other=\x02\0\0\0xy\x02\0\0\0 | attach: MTA0:tape:read=16 MTA3:other:any=10 | shows: AC0=100021 MTA.BUSY=0 MTA.DONE=1 MTA.MA=201 MTA.WC=0 MTA.STAT=100021 MTA.POS0=16. MTA.POS3=0 [200]=60542 [201]=177600 [202]=1
; a block with its error flag
with: AC0=0 AC2=0 | files: tape=\x02\0\0\u{80}ab\x02\0\0\u{80} other=\x02\0\0\0xy\x02\0\0\0 | attach: MTA0:tape:read=10 MTA3:other:any=10 | shows: AC0=102001 MTA.BUSY=0 MTA.DONE=1 MTA.MA=201 MTA.WC=1 MTA.STAT=102001 MTA.POS0=10. MTA.POS3=0 [200]=60542 [201]=177600 [202]=1
; a mark, and the end of the image
with: AC0=0 AC2=5 | files: tape=\0\0\0\0\x04\0\0\0abcd\x04\0\0\0 other=\x02\0\0\0xy\x02\0\0\0 | attach: MTA0:tape:read=16 MTA3:other:any=10 | shows: AC0=401 MTA.BUSY=0 MTA.DONE=1 MTA.MA=200 MTA.WC=5 MTA.STAT=401 MTA.POS0=4. MTA.POS3=0 [200]=40502 [201]=177600 [202]=1
with: AC0=0 AC2=5 MTA.POS0=16. | files: tape=\0\0\0\0\x04\0\0\0abcd\x04\0\0\0 other=\x02\0\0\0xy\x02\0\0\0 | attach: MTA0:tape:read=16 MTA3:other:any=10 | shows: AC0=101001 MTA.BUSY=0 MTA.DONE=1 MTA.MA=200 MTA.WC=5 MTA.STAT=101001 MTA.POS0=16. MTA.POS3=0 [200]=40502 [201]=177600 [202]=1";

const A_BLOCK_IS_WRITTEN_AND_ENDS_THE_IMAGE: &str =
    "with: AC0=50 AC2=7776 MTA.POS0=4. | files: tape=\0\0\0\0\x02\0\0\0xy\x02\0\0\0\0\0\0\0 other=\x02\0\0\0xy\x02\0\0\0 | attach: MTA0:tape:any=18 MTA3:other:any=10 | shows: AC0=1 MTA.BUSY=0 MTA.DONE=1 MTA.MA=202 MTA.WC=0 MTA.STAT=1 MTA.POS0=16. MTA.POS3=0 [200]=40502 [201]=177600 [202]=1 | left: tape=\0\0\0\0\x04\0\0\0AB\u{ff}\u{80}\x04\0\0\0
with: AC0=50 AC2=7777 MTA.POS0=20. | files: tape=\0\0\0\0\x02\0\0\0xy\x02\0\0\0\0\0\0\0 other=\x02\0\0\0xy\x02\0\0\0 | attach: MTA0:tape:any=18 MTA3:other:any=10 | shows: AC0=1 MTA.BUSY=0 MTA.DONE=1 MTA.MA=201 MTA.WC=0 MTA.STAT=1 MTA.POS0=30. MTA.POS3=0 [200]=40502 [201]=177600 [202]=1 | left: tape=\0\0\0\0\x02\0\0\0xy\x02\0\0\0\0\0\0\0\0\0\x02\0\0\0AB\x02\0\0\0
with: AC0=60 AC2=5 MTA.POS0=4. | files: tape=\0\0\0\0\x02\0\0\0xy\x02\0\0\0\0\0\0\0 other=\x02\0\0\0xy\x02\0\0\0 | attach: MTA0:tape:any=18 MTA3:other:any=10 | shows: AC0=401 MTA.BUSY=0 MTA.DONE=1 MTA.MA=200 MTA.WC=5 MTA.STAT=401 MTA.POS0=8. MTA.POS3=0 [200]=40502 [201]=177600 [202]=1 | left: tape=\0\0\0\0\0\0\0\0
with: AC0=70 AC2=5 MTA.POS0=4. | files: tape=\0\0\0\0\x02\0\0\0xy\x02\0\0\0\0\0\0\0 other=\x02\0\0\0xy\x02\0\0\0 | attach: MTA0:tape:any=18 MTA3:other:any=10 | shows: AC0=1 MTA.BUSY=0 MTA.DONE=1 MTA.MA=200 MTA.WC=5 MTA.STAT=1 MTA.POS0=4. MTA.POS3=0 [200]=40502 [201]=177600 [202]=1 | left: tape=\0\0\0\0";

const BLOCKS_ARE_PASSED_IN_BOTH_DIRECTIONS: &str =
    "; blocks up to 10 and to 20, a mark up to 24, and a block up to 34
with: AC0=30 AC2=7776 | files: tape=\x01\0\0\0a\x7f\x01\0\0\0\x02\0\0\0bc\x02\0\0\0\0\0\0\0\x02\0\0\0de\x02\0\0\0 other=\x02\0\0\0xy\x02\0\0\0 | attach: MTA0:tape:read=34 MTA3:other:any=10 | shows: AC0=1 MTA.BUSY=0 MTA.DONE=1 MTA.MA=200 MTA.WC=0 MTA.STAT=1 MTA.POS0=20. MTA.POS3=0 [200]=40502 [201]=177600 [202]=1
with: AC0=30 AC2=7775 | files: tape=\x01\0\0\0a\x7f\x01\0\0\0\x02\0\0\0bc\x02\0\0\0\0\0\0\0\x02\0\0\0de\x02\0\0\0 other=\x02\0\0\0xy\x02\0\0\0 | attach: MTA0:tape:read=34 MTA3:other:any=10 | shows: AC0=401 MTA.BUSY=0 MTA.DONE=1 MTA.MA=200 MTA.WC=7777 MTA.STAT=401 MTA.POS0=24. MTA.POS3=0 [200]=40502 [201]=177600 [202]=1
with: AC0=30 AC2=7770 MTA.POS0=24. | files: tape=\x01\0\0\0a\x7f\x01\0\0\0\x02\0\0\0bc\x02\0\0\0\0\0\0\0\x02\0\0\0de\x02\0\0\0 other=\x02\0\0\0xy\x02\0\0\0 | attach: MTA0:tape:read=34 MTA3:other:any=10 | shows: AC0=101001 MTA.BUSY=0 MTA.DONE=1 MTA.MA=200 MTA.WC=7771 MTA.STAT=101001 MTA.POS0=34. MTA.POS3=0 [200]=40502 [201]=177600 [202]=1
with: AC0=40 AC2=7775 MTA.POS0=34. | files: tape=\x01\0\0\0a\x7f\x01\0\0\0\x02\0\0\0bc\x02\0\0\0\0\0\0\0\x02\0\0\0de\x02\0\0\0 other=\x02\0\0\0xy\x02\0\0\0 | attach: MTA0:tape:read=34 MTA3:other:any=10 | shows: AC0=401 MTA.BUSY=0 MTA.DONE=1 MTA.MA=200 MTA.WC=7776 MTA.STAT=401 MTA.POS0=20. MTA.POS3=0 [200]=40502 [201]=177600 [202]=1
with: AC0=40 AC2=7775 MTA.POS0=20. | files: tape=\x01\0\0\0a\x7f\x01\0\0\0\x02\0\0\0bc\x02\0\0\0\0\0\0\0\x02\0\0\0de\x02\0\0\0 other=\x02\0\0\0xy\x02\0\0\0 | attach: MTA0:tape:read=34 MTA3:other:any=10 | shows: AC0=201 MTA.BUSY=0 MTA.DONE=1 MTA.MA=200 MTA.WC=7777 MTA.STAT=201 MTA.POS0=0 MTA.POS3=0 [200]=40502 [201]=177600 [202]=1
with: AC0=40 AC2=7777 MTA.POS0=40. | files: tape=\x01\0\0\0a\x7f\x01\0\0\0\x02\0\0\0bc\x02\0\0\0\0\0\0\0\x02\0\0\0de\x02\0\0\0 other=\x02\0\0\0xy\x02\0\0\0 | attach: MTA0:tape:read=34 MTA3:other:any=10 | shows: AC0=1 MTA.BUSY=0 MTA.DONE=1 MTA.MA=200 MTA.WC=0 MTA.STAT=1 MTA.POS0=24. MTA.POS3=0 [200]=40502 [201]=177600 [202]=1";

const A_REFUSED_COMMAND_AND_A_REWIND_MAKE_NO_CALL: &str = "; any call would fail
with: AC0=60 AC2=7776 MTA.STOP_IOE=1 MTA.POS0=4. | fails: 4:0 | shows: AC0=120001 MTA.BUSY=0 MTA.DONE=1 MTA.MA=200 MTA.WC=7776 MTA.STAT=120001 MTA.POS0=4. MTA.POS3=0 [200]=40502 [201]=177600 [202]=1
with: AC0=1 AC2=7776 MTA.STOP_IOE=1 MTA.POS0=4. | fails: 4:0 | do: run=9999:UnitNone.MTA1 | time: 1003 | shows: AC0=1 MTA.BUSY=0 MTA.DONE=1 MTA.MA=200 MTA.WC=7776 MTA.STAT=120000 MTA.POS0=4. MTA.POS3=0 [200]=40502 [201]=177600 [202]=1
with: AC0=21 AC2=7776 MTA.STOP_IOE=1 MTA.POS0=4. | fails: 4:0 | shows: AC0=120000 MTA.BUSY=0 MTA.DONE=1 MTA.MA=200 MTA.WC=7776 MTA.STAT=120000 MTA.POS0=4. MTA.POS3=0 [200]=40502 [201]=177600 [202]=1
with: AC0=10 AC2=7776 MTA.STOP_IOE=1 MTA.POS0=4. | fails: 4:0 | shows: AC0=201 MTA.BUSY=0 MTA.DONE=1 MTA.MA=200 MTA.WC=7776 MTA.STAT=201 MTA.POS0=0 MTA.POS3=0 [200]=40502 [201]=177600 [202]=1
; a block and a mark that would pass 64 MiB
with: AC0=50 AC2=7776 MTA.STOP_IOE=1 MTA.POS0=67108853. | attach: MTA0:tape:any=12 MTA3:other:any=10 | fails: 4:0 | do: run=9999:UnitEnd.MTA0 | time: 1003 | shows: AC0=50 MTA.BUSY=0 MTA.DONE=1 MTA.MA=200 MTA.WC=7776 MTA.STAT=101001 MTA.POS0=67108853. MTA.POS3=0 [200]=40502 [201]=177600 [202]=1
with: AC0=60 AC2=7776 MTA.STOP_IOE=1 MTA.POS0=67108861. | attach: MTA0:tape:any=12 MTA3:other:any=10 | fails: 4:0 | do: run=9999:UnitEnd.MTA0 | time: 1003 | shows: AC0=60 MTA.BUSY=0 MTA.DONE=1 MTA.MA=200 MTA.WC=7776 MTA.STAT=101001 MTA.POS0=67108861. MTA.POS3=0 [200]=40502 [201]=177600 [202]=1";

const A_FAILED_CALL_AND_A_BAD_IMAGE_LEAVE_THE_TAPE_AT_WORK: &str =
    "; a block, and a word that is cut
with: AC0=0 AC2=7776 MTA.STOP_IOE=1 | files: tape=\x03\0\0\0abc\x7f\x03\0\0\0\x02 other=\x02\0\0\0xy\x02\0\0\0 | attach: MTA0:tape:any=13 MTA3:other:any=10 | fails: 6:0 | do: run=9999:FileFault.MTA0.0.Read.0 | time: 1003 | shows: AC0=0 MTA.BUSY=1 MTA.DONE=0 MTA.MA=200 MTA.WC=7776 MTA.STAT=0 MTA.POS0=0 MTA.POS3=0 [200]=40502 [201]=177600 [202]=1
with: AC0=40 AC2=7776 MTA.STOP_IOE=1 MTA.POS0=12. | files: tape=\x03\0\0\0abc\x7f\x03\0\0\0\x02 other=\x02\0\0\0xy\x02\0\0\0 | attach: MTA0:tape:any=13 MTA3:other:any=10 | fails: 4:0 | do: run=9999:FileFault.MTA0.0.Length.0 | time: 1003 | shows: AC0=40 MTA.BUSY=1 MTA.DONE=0 MTA.MA=200 MTA.WC=7776 MTA.STAT=0 MTA.POS0=12. MTA.POS3=0 [200]=40502 [201]=177600 [202]=1
with: AC0=50 AC2=7776 MTA.STOP_IOE=1 | files: tape=\x03\0\0\0abc\x7f\x03\0\0\0\x02 other=\x02\0\0\0xy\x02\0\0\0 | attach: MTA0:tape:any=13 MTA3:other:any=10 | fails: 6:3 | do: run=9999:FileFault.MTA0.0.Write.7 | time: 1003 | shows: AC0=50 MTA.BUSY=1 MTA.DONE=0 MTA.MA=200 MTA.WC=7776 MTA.STAT=0 MTA.POS0=0 MTA.POS3=0 [200]=40502 [201]=177600 [202]=1 | left: tape=\x04\0\0\0AB\u{ff}
with: AC0=60 AC2=7776 MTA.STOP_IOE=1 | files: tape=\x03\0\0\0abc\x7f\x03\0\0\0\x02 other=\x02\0\0\0xy\x02\0\0\0 | attach: MTA0:tape:any=13 MTA3:other:any=10 | fails: 5:2 | do: run=9999:FileFault.MTA0.0.Write.2 | time: 1003 | shows: AC0=60 MTA.BUSY=1 MTA.DONE=0 MTA.MA=200 MTA.WC=7776 MTA.STAT=0 MTA.POS0=0 MTA.POS3=0 [200]=40502 [201]=177600 [202]=1 | left: tape=\0\0
with: AC0=70 AC2=7776 MTA.STOP_IOE=1 | files: tape=\x03\0\0\0abc\x7f\x03\0\0\0\x02 other=\x02\0\0\0xy\x02\0\0\0 | attach: MTA0:tape:any=13 MTA3:other:any=10 | fails: 4:0 | do: run=9999:FileFault.MTA0.0.SetLength.0 | time: 1003 | shows: AC0=70 MTA.BUSY=1 MTA.DONE=0 MTA.MA=200 MTA.WC=7776 MTA.STAT=0 MTA.POS0=0 MTA.POS3=0 [200]=40502 [201]=177600 [202]=1
with: AC0=0 AC2=7776 MTA.STOP_IOE=1 MTA.POS0=4. | files: tape=\x03\0\0\0abc\x7f\x03\0\0\0\x02 other=\x02\0\0\0xy\x02\0\0\0 | attach: MTA0:tape:any=13 MTA3:other:any=10 | do: run=9999:BadImage.MTA0.4 | time: 1003 | shows: AC0=0 MTA.BUSY=1 MTA.DONE=0 MTA.MA=200 MTA.WC=7776 MTA.STAT=0 MTA.POS0=4. MTA.POS3=0 [200]=40502 [201]=177600 [202]=1
with: AC0=30 AC2=7776 MTA.STOP_IOE=1 | files: tape=\x03\0\0\0abc\x7f\x03\0\0\0\x02 other=\x02\0\0\0xy\x02\0\0\0 | attach: MTA0:tape:any=13 MTA3:other:any=10 | do: run=9999:BadImage.MTA0.12 | time: 1003 | shows: AC0=30 MTA.BUSY=1 MTA.DONE=0 MTA.MA=200 MTA.WC=7776 MTA.STAT=0 MTA.POS0=0 MTA.POS3=0 [200]=40502 [201]=177600 [202]=1
with: AC0=40 AC2=7776 MTA.STOP_IOE=1 MTA.POS0=13. | files: tape=\x03\0\0\0abc\x7f\x03\0\0\0\x02 other=\x02\0\0\0xy\x02\0\0\0 | attach: MTA0:tape:any=13 MTA3:other:any=10 | do: run=9999:BadImage.MTA0.9 | time: 1003 | shows: AC0=40 MTA.BUSY=1 MTA.DONE=0 MTA.MA=200 MTA.WC=7776 MTA.STAT=0 MTA.POS0=13. MTA.POS3=0 [200]=40502 [201]=177600 [202]=1";

const A_DRIVE_HAS_ITS_OWN_FILE_AND_PLACE: &str =
    "with: AC0=3 AC2=7776 MTA.POS0=12. | shows: AC0=1 MTA.BUSY=0 MTA.DONE=1 MTA.MA=201 MTA.WC=7777 MTA.STAT=1 MTA.POS0=12. MTA.POS3=10. [200]=74171 [201]=177600 [202]=1
with: AC0=53 AC2=7776 MTA.STOP_IOE=1 MTA.POS0=12. | shows: AC0=1 MTA.BUSY=0 MTA.DONE=1 MTA.MA=202 MTA.WC=0 MTA.STAT=1 MTA.POS0=12. MTA.POS3=12. [200]=40502 [201]=177600 [202]=1 | left: other=\x04\0\0\0AB\u{ff}\u{80}\x04\0\0\0
with: AC0=3 AC2=7776 MTA.STOP_IOE=1 MTA.POS0=12. | fails: 4:0 | do: run=9999:FileFault.MTA3.1.Read.0 | time: 1003 | shows: AC0=3 MTA.BUSY=1 MTA.DONE=0 MTA.MA=200 MTA.WC=7776 MTA.STAT=0 MTA.POS0=12. MTA.POS3=0 [200]=40502 [201]=177600 [202]=1
with: AC0=3 AC2=7776 MTA.STOP_IOE=1 MTA.POS0=12. MTA.POS3=4. | do: run=9999:BadImage.MTA3.4 | time: 1003 | shows: AC0=3 MTA.BUSY=1 MTA.DONE=0 MTA.MA=200 MTA.WC=7776 MTA.STAT=0 MTA.POS0=12. MTA.POS3=4. [200]=40502 [201]=177600 [202]=1";

#[test]
fn tapes_are_read_and_written(rt: HostRuntime) -> Result<(), Fail> {
    all(
        &rt,
        rt.alloc(),
        Units::Tape,
        BASE,
        A_BLOCK_IS_READ_HIGH_BYTE_FIRST,
    )?;
    all(
        &rt,
        rt.alloc(),
        Units::Tape,
        BASE,
        A_BLOCK_IS_WRITTEN_AND_ENDS_THE_IMAGE,
    )?;
    all(
        &rt,
        rt.alloc(),
        Units::Tape,
        BASE,
        BLOCKS_ARE_PASSED_IN_BOTH_DIRECTIONS,
    )?;
    all(
        &rt,
        rt.alloc(),
        Units::Tape,
        BASE,
        A_REFUSED_COMMAND_AND_A_REWIND_MAKE_NO_CALL,
    )?;
    all(
        &rt,
        rt.alloc(),
        Units::Tape,
        BASE,
        A_FAILED_CALL_AND_A_BAD_IMAGE_LEAVE_THE_TAPE_AT_WORK,
    )?;
    all(
        &rt,
        rt.alloc(),
        Units::Tape,
        BASE,
        A_DRIVE_HAS_ITS_OWN_FILE_AND_PLACE,
    )?;
    Ok(())
}
