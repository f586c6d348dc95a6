// How a row is played. It says
//   words      the program, from 100 on, where PC is unless it is put elsewhere
//   put with   what else is put in before, `AC0=101`
//   files      the files that are there, and `fails` calls on them that fail, with how many bytes each writes: `8:1`
//   attach     what is attached to units, how, and its length: `PTR:tape:read=3`
//   breaks expects sends keys
//              what is watched: `100:2`, a break and its count; `2:OK`, a text and its count; `0:1000:Y`, the AFTER, DELAY
//              and bytes of what is sent at time 0; and the lines of a keys file
//   room       how many bytes the console takes
//   types      what a caller of the line with the port types, who connects to it at time 0; `hangs`, when this caller hangs
//              up; `takes`, how many bytes all callers are sent at the most; `refuses`, the calls on the lines that fail
//   port       whether line 0 has its port, `given`, or the console line, `console`
//   do         what is done, in this order: `run=9:Halt` and `step=9:Stepped`, runs and their ends; `turn=Executed`;
//              `reset`; `detach=PTR`; a value that is put; `AC0?101`, `time?300` and `taken?1`, what then is to be
// and what there is to be then, each compared where it is named:
//   has        what places hold; any other register, and what was put in, is as before
//   shows      what places hold, and no more than that
//   time       in instructions, and `taken`, how many of the keys were
//   queue      the events that wait
//   prints     what the console has, and `faults`, how often it has refused a byte
//   counts matches waiting
//              the counts of breaks and of texts that are left, and how many bytes wait for the keyboard
//   sent       `nothing`, or the opening and these bytes, to that caller; `lost`, how many calls on the lines have failed
//   line       `none`, where line 0 is not there; `free`, where it has no connection; else the connection
//   console    the same of the console line, which is always there
//   left       what is in files; any other of `files` is as before
ghost use Rattle.unit_files.specs.Open.{AllOpen};

use crate::acts::{act_all, attach_all};
use crate::lines::{gives_port, lines_of, lines_stand};
use crate::places::{load, put_all, registers};
use crate::row::{Row, bytes, check, cut, decimal, small, text};
use crate::stands::{files_stand, prints, stands};
use crate::watched::{watch_all, watch_stands};
use expect_actions::{Keys, Watch};
use host_files::{ByteSink, Files, MemFiles};
use host_lines::Lines;
use nova_machine::Machine;
use std::alloc::{AllocError, Global};
use std::process::Abort;
use unit_files::Attached;
use unit_trait::Unit;

pub fn play<U: Unit>(
    rt: &impl Abort,
    alloc: Global,
    machine: &mut Machine<U>,
    row: Row<'_>,
) -> Result<(), AllocError> {
    load(rt, machine, text(row, "words"));
    put_all(rt, machine, text(row, "put"));
    put_all(rt, machine, text(row, "with"));
    let stood = registers(machine);
    goes(rt, alloc, machine, row)?;
    stands(rt, machine, row, &stood);
    Ok(())
}

fn goes<U: Unit>(
    rt: &impl Abort,
    alloc: Global,
    machine: &mut Machine<U>,
    row: Row<'_>,
) -> Result<(), AllocError> {
    let mut files = files_of(rt, alloc, row)?;
    with_files(rt, alloc, machine, &mut files, row)?;
    check(rt, files_stand(&files, row), row.line);
    Ok(())
}

/// The files that are there.
fn files_of(rt: &impl Abort, alloc: Global, row: Row<'_>) -> Result<MemFiles, AllocError> {
    let mut files = MemFiles::with_room(alloc, 64)?;
    add_all(rt, alloc, &mut files, text(row, "files"))?;
    fail_all(&mut files, text(row, "fails"))?;
    Ok(files)
}

fn add_all(
    rt: &impl Abort,
    alloc: Global,
    files: &mut MemFiles,
    words: &str,
) -> Result<(), AllocError> {
    for word in words.split(' ') {
        if let Some((name, text)) = word.split_once('=') {
            check(rt, adds(alloc, files, name, text)?, word);
        }
    }
    Ok(())
}

fn adds(alloc: Global, files: &mut MemFiles, name: &str, text: &str) -> Result<bool, AllocError> {
    let bytes = bytes(alloc, text)?;
    Ok(files.add_file(name, bytes.as_slice()).is_ok())
}

fn fail_all(files: &mut MemFiles, words: &str) -> Result<(), AllocError> {
    for word in words.split_whitespace() {
        let (call, done) = cut(word, ':');
        files.fail_call(decimal(call), small(done))?;
    }
    Ok(())
}

fn with_files<U: Unit, F: Files>(
    rt: &impl Abort,
    alloc: Global,
    machine: &mut Machine<U>,
    files: &mut F,
    row: Row<'_>,
) -> Result<(), AllocError> {
    *machine.attached_mut() = Attached::new(alloc)?;
    attach_all(rt, alloc, machine, files, text(row, "attach"));
    watched(rt, alloc, machine, files, row)
}

fn watched<U: Unit, F: Files>(
    rt: &impl Abort,
    alloc: Global,
    machine: &mut Machine<U>,
    files: &mut F,
    row: Row<'_>,
) -> Result<(), AllocError>
    requires { AllOpen machine.old.slots (F.state files.old).opened }
{
    let mut watch = Watch::new(alloc)?;
    with_watch(rt, alloc, machine, &mut watch, files, row)
}

fn with_watch<U: Unit, F: Files>(
    rt: &impl Abort,
    alloc: Global,
    machine: &mut Machine<U>,
    watch: &mut Watch,
    files: &mut F,
    row: Row<'_>,
) -> Result<(), AllocError>
    requires { AllOpen machine.old.slots (F.state files.old).opened }
{
    watch_all(rt, watch, row);
    let mut lines = lines_of(alloc, row)?;
    gives_port(rt, alloc, machine, &mut lines, row);
    with_keys(rt, alloc, machine, watch, files, &mut lines, row)?;
    lines_stand(rt, machine, &lines, row);
    watch_stands(rt, watch, row);
    Ok(())
}

fn with_keys<U: Unit, F: Files, L: Lines>(
    rt: &impl Abort,
    alloc: Global,
    machine: &mut Machine<U>,
    watch: &mut Watch,
    files: &mut F,
    lines: &mut L,
    row: Row<'_>,
) -> Result<(), AllocError>
    requires { AllOpen machine.old.slots (F.state files.old).opened }
{
    let keys = keys_of(rt, alloc, text(row, "keys"))?;
    let mut console = ByteSink::with_room(alloc, small(text(row, "room")))?;
    act_all(rt, machine, watch, &keys, files, lines, &mut console, row);
    prints(rt, &console, row);
    Ok(())
}

fn keys_of(rt: &impl Abort, alloc: Global, lines: &str) -> Result<Keys, AllocError> {
    let bytes = bytes(alloc, lines)?;
    match Keys::read_keys(alloc, bytes.as_slice()) {
        Ok(keys) => Ok(keys),
        Err(_) => {
            check(rt, false, lines);
            Ok(Keys::none(alloc))
        }
    }
}
