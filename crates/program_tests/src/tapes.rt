// Sessions with tapes, whose calls on their files fail one after another.
use crate::play::all;
use std::test::Fail;

/// Reads the first block of a tape, and writes its first word as a block in the place of the second.
const OVER: &str =
    "words=-q | before=t:\x03\0\0\0abc\0\x03\0\0\0\x04\0\0\0WXYZ\x04\0\0\0 | lines=ATTACH MTA0 t~D 100 61122~D 101 63622~D 102 777~D 103 63077~D MTA MA 200~GO 100~RESET~D AC0 50~D MTA MA 200~D MTA WC 7777~GO 100~E MTA STAT,POS0~ | prints=~HALT instruction, PC: 00104 (000000)~~HALT instruction, PC: 00104 (000000)~STAT:\t000001~POS0:\t000000026~ | after=t:\x03\0\0\0abc\0\x03\0\0\0\x02\0\0\0ab\x02\0\0\0";

const IN_TURN: &str =
    "fails=0 | note=1 0 Opening 0 MTA0 | prints=File error~~HALT instruction, PC: 00104 (000000)~~HALT instruction, PC: 00104 (000000)~STAT:\t120000~POS0:\t000000000~ | after=t:\x03\0\0\0abc\0\x03\0\0\0\x04\0\0\0WXYZ\x04\0\0\0
fails=1 | note=1 0 Length 0 MTA0 | prints=File error~~HALT instruction, PC: 00104 (000000)~~HALT instruction, PC: 00104 (000000)~STAT:\t120000~POS0:\t000000000~ | after=t:\x03\0\0\0abc\0\x03\0\0\0\x04\0\0\0WXYZ\x04\0\0\0
; the place and the memory are left, so that words of 0 are written at the beginning
fails=2 | prints=~File error on MTA0, PC: 00102 (000777)~~HALT instruction, PC: 00104 (000000)~STAT:\t000001~POS0:\t000000012~ | note=7 1000 Read 0 MTA0 | after=t:\x02\0\0\0\0\0\x02\0\0\0
fails=3 | prints=~File error on MTA0, PC: 00102 (000777)~~HALT instruction, PC: 00104 (000000)~STAT:\t000001~POS0:\t000000012~ | note=7 1000 Read 0 MTA0 | after=t:\x02\0\0\0\0\0\x02\0\0\0
fails=4 | prints=~File error on MTA0, PC: 00102 (000777)~~HALT instruction, PC: 00104 (000000)~STAT:\t000001~POS0:\t000000012~ | note=7 1000 Read 0 MTA0 | after=t:\x02\0\0\0\0\0\x02\0\0\0
fails=5 | prints=~HALT instruction, PC: 00104 (000000)~~File error on MTA0, PC: 00102 (000777)~STAT:\t000000~POS0:\t000000014~ | note=12 2003 SetLength 0 MTA0 | after=t:\x03\0\0\0abc\0\x03\0\0\0\x04\0\0\0WXYZ\x04\0\0\0
fails=9 | note=13 2006 Closing 0 MTA0
; the call behind the last one
fails=10";

const PARTS: &str =
    "fails=6 0 | prints=~HALT instruction, PC: 00104 (000000)~~File error on MTA0, PC: 00102 (000777)~STAT:\t000000~POS0:\t000000014~ | note=12 2003 Write 0 MTA0 | after=t:\x03\0\0\0abc\0\x03\0\0\0
fails=6 1 | prints=~HALT instruction, PC: 00104 (000000)~~File error on MTA0, PC: 00102 (000777)~STAT:\t000000~POS0:\t000000014~ | note=12 2003 Write 1 MTA0 | after=t:\x03\0\0\0abc\0\x03\0\0\0\x02
fails=6 4 | prints=~HALT instruction, PC: 00104 (000000)~~File error on MTA0, PC: 00102 (000777)~STAT:\t000000~POS0:\t000000014~ | note=12 2003 Write 4 MTA0 | after=t:\x03\0\0\0abc\0\x03\0\0\0\x02\0\0\0
fails=7 0 | prints=~HALT instruction, PC: 00104 (000000)~~File error on MTA0, PC: 00102 (000777)~STAT:\t000000~POS0:\t000000014~ | note=12 2003 Write 4 MTA0 | after=t:\x03\0\0\0abc\0\x03\0\0\0\x02\0\0\0
fails=7 1 | prints=~HALT instruction, PC: 00104 (000000)~~File error on MTA0, PC: 00102 (000777)~STAT:\t000000~POS0:\t000000014~ | note=12 2003 Write 5 MTA0 | after=t:\x03\0\0\0abc\0\x03\0\0\0\x02\0\0\0a
fails=7 2 | prints=~HALT instruction, PC: 00104 (000000)~~File error on MTA0, PC: 00102 (000777)~STAT:\t000000~POS0:\t000000014~ | note=12 2003 Write 6 MTA0 | after=t:\x03\0\0\0abc\0\x03\0\0\0\x02\0\0\0ab
fails=8 0 | prints=~HALT instruction, PC: 00104 (000000)~~File error on MTA0, PC: 00102 (000777)~STAT:\t000000~POS0:\t000000014~ | note=12 2003 Write 6 MTA0 | after=t:\x03\0\0\0abc\0\x03\0\0\0\x02\0\0\0ab
fails=8 1 | prints=~HALT instruction, PC: 00104 (000000)~~File error on MTA0, PC: 00102 (000777)~STAT:\t000000~POS0:\t000000014~ | note=12 2003 Write 7 MTA0 | after=t:\x03\0\0\0abc\0\x03\0\0\0\x02\0\0\0ab\x02
fails=8 4 | prints=~HALT instruction, PC: 00104 (000000)~~File error on MTA0, PC: 00102 (000777)~STAT:\t000000~POS0:\t000000014~ | note=12 2003 Write 10 MTA0 | after=t:\x03\0\0\0abc\0\x03\0\0\0\x02\0\0\0ab\x02\0\0\0";

/// An operation on a tape of one block, at which a call fails.
const STUCK: &str =
    "words=-q | before=t:\x03\0\0\0abc\0\x03\0\0\0 | prints=~File error on MTA0, PC: 00102 (000777)~BUSY:\t1~STAT:\t000000~POS0:\t000000014~ | after=t:\x03\0\0\0abc\0\x03\0\0\0";

const OPERATIONS: &str = "; the second block would be the end of the medium
fails=2 | lines=ATTACH MTA0 t~D MTA WC 7776~D AC0 30~D 100 61122~D 101 63622~D 102 777~GO 100~E MTA BUSY,STAT,POS0~ | prints=~File error on MTA0, PC: 00102 (000777)~BUSY:\t1~STAT:\t000000~POS0:\t000000000~ | note=7 1000 Read 0 MTA0
fails=3 | lines=ATTACH MTA0 t~D MTA WC 7776~D AC0 30~D 100 61122~D 101 63622~D 102 777~GO 100~E MTA BUSY,STAT,POS0~ | prints=~File error on MTA0, PC: 00102 (000777)~BUSY:\t1~STAT:\t000000~POS0:\t000000000~ | note=7 1000 Read 0 MTA0
fails=4 | lines=ATTACH MTA0 t~D MTA WC 7776~D AC0 30~D 100 61122~D 101 63622~D 102 777~GO 100~E MTA BUSY,STAT,POS0~ | prints=~File error on MTA0, PC: 00102 (000777)~BUSY:\t1~STAT:\t000000~POS0:\t000000000~ | note=7 1000 Read 0 MTA0
fails=2 | lines=ATTACH MTA0 t~D MTA POS0 14~D AC0 40~D 100 61122~D 101 63622~D 102 777~GO 100~E MTA BUSY,STAT,POS0~ | note=7 1000 Length 0 MTA0
fails=3 | lines=ATTACH MTA0 t~D MTA POS0 14~D AC0 40~D 100 61122~D 101 63622~D 102 777~GO 100~E MTA BUSY,STAT,POS0~ | note=7 1000 Read 0 MTA0
fails=4 | lines=ATTACH MTA0 t~D MTA POS0 14~D AC0 40~D 100 61122~D 101 63622~D 102 777~GO 100~E MTA BUSY,STAT,POS0~ | note=7 1000 Read 0 MTA0
fails=2 | lines=ATTACH MTA0 t~D MTA POS0 14~D AC0 60~D 100 61122~D 101 63622~D 102 777~GO 100~E MTA BUSY,STAT,POS0~ | note=7 1000 SetLength 0 MTA0
fails=3 3 | lines=ATTACH MTA0 t~D MTA POS0 14~D AC0 60~D 100 61122~D 101 63622~D 102 777~GO 100~E MTA BUSY,STAT,POS0~ | note=7 1000 Write 3 MTA0 | after=t:\x03\0\0\0abc\0\x03\0\0\0\0\0\0
fails=2 | lines=ATTACH MTA0 t~D MTA POS0 4~D AC0 70~D 100 61122~D 101 63622~D 102 777~GO 100~E MTA BUSY,STAT,POS0~ | prints=~File error on MTA0, PC: 00102 (000777)~BUSY:\t1~STAT:\t000000~POS0:\t000000004~ | note=7 1000 SetLength 0 MTA0";

const DETACHES: &str =
    "words=-q | before=t: & u: & v: | lines=ATTACH MTA7 u~ATTACH LPT v~ATTACH MTA t~DETACH ALL~SHOW MTA~SHOW MTA7~SHOW LPT~ | prints=MTA0, not attached~MTA7, not attached~LPT, not attached~";

const UNITS: &str = "fails=6 | note=4 0 Closing 0 MTA0
fails=7 | note=4 0 Closing 0 MTA7
fails=8 | note=4 0 Closing 0 LPT";

const READ_ONLY: &str =
    "words=-q | before=t:\x02\0\0\0ab\x02\0\0\0 | lines=ATTACH -R MTA7 t~SHOW MTA7~ATTACH MTA t~SHOW MTA~ATTACH MTA0 u~ATTACH -E MTA1 u~DETACH MTA2~D AC0 57~D 100 61122~D 101 63622~D 102 777~D 103 63077~GO 100~E MTA STAT,POS7~DETACH MTA~SHOW MTA0~ | prints=MTA7, attached to t, read only~MTA0, attached to t~Unit already attached~File not found~Unit not attached~~HALT instruction, PC: 00104 (000000)~STAT:\t120001~POS7:\t000000000~MTA0, not attached~ | after=t:\x02\0\0\0ab\x02\0\0\0 & u";

#[test]
fn tapes_are_attached_and_left(rt: HostRuntime) -> Result<(), Fail> {
    all(&rt, rt.alloc(), OVER, IN_TURN)?;
    all(&rt, rt.alloc(), OVER, PARTS)?;
    all(&rt, rt.alloc(), STUCK, OPERATIONS)?;
    all(&rt, rt.alloc(), DETACHES, UNITS)?;
    all(&rt, rt.alloc(), "", READ_ONLY)?;
    Ok(())
}
