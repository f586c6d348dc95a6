// Sessions one behind another, each over the files that the one before it has left.
ghost use Rattle.std.specs.Prelude.{map};
ghost use Rattle.command_words.specs.Standard.{IsStandard};

use crate::callers::{lines_of, lines_stand};
use crate::play::{files_of, files_stand, with_files};
use crate::row::Row;
use crate::units::standard_units;
use host_files::{Files, MemFiles};
use std::alloc::{AllocError, Global};
use std::process::Abort;
use std::test::Fail;
use unit_trait::Unit;

/// Plays the lines of a table one behind another over the files of its base, each with new units.
fn in_turn(rt: &impl Abort, alloc: Global, base: &str, table: &str) -> Result<(), AllocError> {
    let mut files = files_of(rt, alloc, Row { base, line: "" })?;
    each(rt, alloc, &mut files, base, table)
}

fn each(
    rt: &impl Abort,
    alloc: Global,
    files: &mut MemFiles,
    base: &str,
    table: &str,
) -> Result<(), AllocError> {
    for line in table.lines() {
        let row = Row { base, line };
        play_over(rt, alloc, files, row)?;
        files_stand(rt, alloc, files, row)?;
    }
    Ok(())
}

/// Plays a row over files that are there.
pub fn play_over<F: Files>(
    rt: &impl Abort,
    alloc: Global,
    files: &mut F,
    row: Row<'_>,
) -> Result<(), AllocError> {
    let units = standard_units(alloc)?;
    with_these(rt, alloc, units, files, row)
}

fn with_these<U: Unit, F: Files>(
    rt: &impl Abort,
    alloc: Global,
    units: Vec<U>,
    files: &mut F,
    row: Row<'_>,
) -> Result<(), AllocError>
    requires { IsStandard (map U.unit_state units.items) }
{
    let mut lines = lines_of(alloc, row)?;
    with_files(rt, alloc, units, &mut lines, files, row)?;
    lines_stand(rt, &mut lines, row);
    Ok(())
}

/// Each run executes 500 instructions at most.
const LIMITED: &str = "words=-q -l 500 | space=70000";

/// A sector is written, and a block of the tape is under way. Another session goes on from there, and then the tape is not as
/// it was.
const DAYS: &str =
    "lines=ATTACH -N DSK pack~ATTACH -N MTA0 tape~D 200 51101~D DSK MA 200~D MTA MA 200~D MTA WC 7776~D AC0 50~D -M 100 NIOP DSK~D -M 101 DOAS 0,MTA~D -M 102 SKPDN MTA~D -M 103 JMP .-1~D -M 104 HALT~RUN 100~SAVE work~EXIT 3~ | prints=~Instruction limit, PC: 00102 (063622)~ | status=3 | after=pack:AR… & tape:
lines=RESTORE work~SHOW DSK~SHOW TIME~CONT~CONT~SHOW TIME~E MTA BUSY,POS0~EXIT 4~ | prints=DSK, attached to pack~Time: 500~~Instruction limit, PC: 00102 (063622)~~HALT instruction, PC: 00105 (000000)~Time: 1004~BUSY:\t0~POS0:\t000000014~ | status=4 | cells=200:51101 104:63077 | after=pack:AR… & tape:\x04\0\0\0RA\0\0\x04\0\0\0
lines=D 200 7~RESTORE work~SHOW MTA0~E 200~RESTORE -F work~SHOW MTA0~SHOW TIME~ | prints=Attached file changed: MTA0~MTA0, not attached~00200:\t000007~MTA0, attached to tape~Time: 500~ | cells=200:51101";

#[test]
fn a_session_goes_on_where_another_was_saved(rt: HostRuntime) -> Result<(), Fail> {
    in_turn(&rt, rt.alloc(), LIMITED, DAYS)?;
    Ok(())
}

/// Each state fits.
const ROOMY: &str = "words=-q | space=70000";

/// Interrupts are on, and held for one instruction more.
const HELD: &str =
    "lines=D 1 200~D 100 60177~D 101 101000~D 102 101000~D 200 63077~D TTO DONE 1~D PC 100~STEP~SAVE s1~STEP~STEP~E 0~ | prints=~Step expired, PC: 00101 (101000)~~Step expired, PC: 00102 (101000)~~HALT instruction, PC: 00201 (000000)~00000:\t000102~
lines=RESTORE s1~STEP~STEP~E 0~ | prints=~Step expired, PC: 00102 (101000)~~HALT instruction, PC: 00201 (000000)~00000:\t000102~";

/// Two events are due at one time.
const TIED: &str =
    "lines=D 100 60111~D 101 60113~D 102 400~D TTO TIME 10~D PTP TIME 7~D TTO BUF 101~D PTP STOP_IOE 1~D PC 100~STEP 3~SHOW QUEUE~SAVE s1~ | prints=~Step expired, PC: 00102 (000400)~TTO 5~PTP 5~TTI 97~TTI1 97~
lines=RESTORE s1~CONT~ | prints=A~No file attached to PTP, PC: 00102 (000400)~";

/// An auto-index word is tested before its change, also where a new session has not chosen that.
const RULED: &str = "lines=SET CPU AUTOBIT=BEFORE~SAVE s1~ | prints=
lines=SHOW CPU~RESTORE s1~SHOW CPU~D 123 456~D 20 177777~D 0 123~D 100 22020~D PC 100~STEP~E 20,AC0~ | prints=CPU, 32K~CPU, 32K, autobit before~~Step expired, PC: 00101 (000000)~00020:\t000000~AC0:\t000456~";

#[test]
fn what_is_held_due_or_chosen_is_saved(rt: HostRuntime) -> Result<(), Fail> {
    in_turn(&rt, rt.alloc(), ROOMY, HELD)?;
    in_turn(&rt, rt.alloc(), ROOMY, TIED)?;
    in_turn(&rt, rt.alloc(), ROOMY, RULED)?;
    Ok(())
}

/// The write of the state is call 9 of the first session.
const UNSAVED: &str = "words=-q -l 500 | space=70000 | fails=9 8";

const UNSAVED_DAYS: &str =
    "lines=ATTACH -N DSK pack~ATTACH -N MTA0 tape~D 200 51101~D DSK MA 200~D MTA MA 200~D MTA WC 7776~D AC0 50~D -M 100 NIOP DSK~D -M 101 DOAS 0,MTA~D -M 102 SKPDN MTA~D -M 103 JMP .-1~D -M 104 HALT~RUN 100~SAVE work~EXIT 3~ | prints=~Instruction limit, PC: 00102 (063622)~File error~ | note=14 500 Write 8 State | status=3 | after=pack:AR… & tape: & work:NOVASTAT
lines=RESTORE work~SHOW TIME~ | prints=State file truncated~Time: 0~ | after=pack:AR… & tape: & work:NOVASTAT";

/// The length of the tape is call 40, the last one that the second session makes to put the first one back.
const UNREAD: &str = "words=-q -l 500 | space=70000 | fails=40";

const UNREAD_DAYS: &str =
    "lines=ATTACH -N DSK pack~ATTACH -N MTA0 tape~D 200 51101~D DSK MA 200~D MTA MA 200~D MTA WC 7776~D AC0 50~D -M 100 NIOP DSK~D -M 101 DOAS 0,MTA~D -M 102 SKPDN MTA~D -M 103 JMP .-1~D -M 104 HALT~RUN 100~SAVE work~EXIT 3~ | prints=~Instruction limit, PC: 00102 (063622)~ | status=3 | after=pack:AR… & tape:
lines=RESTORE work~SHOW DSK~SHOW TIME~RESTORE work~SHOW DSK~SHOW TIME~ | prints=File error~DSK, not attached~Time: 0~DSK, attached to pack~Time: 500~ | note=1 0 Length 0 MTA0 | cells=200:51101 | after=pack:AR… & tape:";

#[test]
fn a_call_for_a_saved_session_fails(rt: HostRuntime) -> Result<(), Fail> {
    in_turn(&rt, rt.alloc(), UNSAVED, UNSAVED_DAYS)?;
    in_turn(&rt, rt.alloc(), UNREAD, UNREAD_DAYS)?;
    Ok(())
}
