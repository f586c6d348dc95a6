// Sessions with the disk, whose calls on its file fail one after another.
use crate::play::all;
use std::test::Fail;

/// Writes a sector of one word and 255 words of 0 twice: as sector 1, and then as sector 0. What is written at the end is the
/// call 2.
const WRITES: &str =
    "words=-q | lines=ATTACH -N DSK d~D DSK DA 1~D DSK MA 200~D 200 123456~D 100 60320~D 101 63620~D 102 777~D 103 63077~GO 100~D DSK DA 0~D DSK MA 200~GO 100~E DSK MA~ | prints=~HALT instruction, PC: 00104 (000000)~~HALT instruction, PC: 00104 (000000)~MA:\t00600~ | after=d:.\u{a7}….\u{a7}…";

const AT_THE_END: &str = "fails=2 0 | status=107 | note=13 406 Write 0 | after=d:
fails=2 1 | status=107 | note=13 406 Write 1 | after=d:.
fails=2 4 | status=107 | note=13 406 Write 4 | after=d:.\u{a7}\0\0
fails=2 512 | status=107 | note=13 406 Write 512 | after=d:.\u{a7}…
fails=2 1024 | status=107 | note=13 406 Write 1024 | after=d:.\u{a7}….\u{a7}…
fails=3 | note=13 406 Closing 0
; the call behind the last one
fails=4
; an early end writes nothing back
words=-q -m 12 | prints=~HALT instruction, PC: 00104 (000000)~~HALT instruction, PC: 00104 (000000)~ | status=104 | after=d:";

const ATTACHING: &str =
    "fails=0 | prints=File error~~HALT instruction, PC: 00104 (000000)~~HALT instruction, PC: 00104 (000000)~MA:\t00200~ | note=1 0 Opening 0 | after=d
fails=1 | prints=File error~~HALT instruction, PC: 00104 (000000)~~HALT instruction, PC: 00104 (000000)~MA:\t00200~ | note=1 0 Length 0 | after=d:
before=d:abc | fails=2 | lines=ATTACH DSK d~SHOW DSK~ | prints=File error~DSK, not attached~ | note=1 0 Read 0 | after=d:abc";

const FLUSHES: &str =
    "fails=2 0 | more=DETACH DSK~SHOW DSK~EXIT 3~ | then=File error~DSK, attached to d~ | status=3 | note=14 406 Write 0
fails=2 1 | more=DETACH DSK~SHOW DSK~EXIT 3~ | then=File error~DSK, attached to d~ | status=3 | note=14 406 Write 1
fails=2 512 | more=DETACH DSK~SHOW DSK~EXIT 3~ | then=File error~DSK, attached to d~ | status=3 | note=14 406 Write 512
fails=2 1024 | more=DETACH DSK~SHOW DSK~EXIT 3~ | then=File error~DSK, attached to d~ | status=3 | note=14 406 Write 1024
fails=2 0 | more=DETACH ALL~SHOW DSK~EXIT 3~ | then=File error~DSK, attached to d~ | status=3 | note=14 406 Write 0
fails=2 1 | more=DETACH ALL~SHOW DSK~EXIT 3~ | then=File error~DSK, attached to d~ | status=3 | note=14 406 Write 1
fails=2 512 | more=DETACH ALL~SHOW DSK~EXIT 3~ | then=File error~DSK, attached to d~ | status=3 | note=14 406 Write 512
fails=2 1024 | more=DETACH ALL~SHOW DSK~EXIT 3~ | then=File error~DSK, attached to d~ | status=3 | note=14 406 Write 1024
fails=2 0 | more=EXIT 4~SHOW DSK~EXIT 3~ | then=File error~DSK, attached to d~ | status=3 | note=14 406 Write 0
fails=2 1 | more=EXIT 4~SHOW DSK~EXIT 3~ | then=File error~DSK, attached to d~ | status=3 | note=14 406 Write 1
fails=2 512 | more=EXIT 4~SHOW DSK~EXIT 3~ | then=File error~DSK, attached to d~ | status=3 | note=14 406 Write 512
fails=2 1024 | more=EXIT 4~SHOW DSK~EXIT 3~ | then=File error~DSK, attached to d~ | status=3 | note=14 406 Write 1024";

/// A sector of one word over a file of eight bytes.
const OVER: &str =
    "words=-q | before=d:abcdefgh | lines=ATTACH DSK d~D DSK MA 200~D 200 123456~D 100 60320~D 101 63620~D 102 777~D 103 63077~GO 100~ | prints=~HALT instruction, PC: 00104 (000000)~ | status=107";

const PARTS: &str = "fails=3 0 | note=8 203 Write 0 | after=d:abcdefgh
fails=3 1 | note=8 203 Write 1 | after=d:.bcdefgh
fails=3 4 | note=8 203 Write 4 | after=d:.\u{a7}\0\0efgh";

#[test]
fn disks_are_kept_and_loaded(rt: HostRuntime) -> Result<(), Fail> {
    all(&rt, rt.alloc(), WRITES, AT_THE_END)?;
    all(&rt, rt.alloc(), WRITES, ATTACHING)?;
    all(&rt, rt.alloc(), WRITES, FLUSHES)?;
    all(&rt, rt.alloc(), OVER, PARTS)?;
    Ok(())
}
