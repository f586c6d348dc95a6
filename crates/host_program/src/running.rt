// From the runtime to a session, one thing after another: its words, its units, its streams, its files and its lines.
ghost use Rattle.std.specs.Prelude.{◌≡◌, ◌⊎◌, None, IfOk, map};
ghost use Rattle.std.specs.Process.{exit_status};
ghost use Rattle.unit_trait.specs.declared.kind.Kind.TheVariants.{Qty as multiplexers};
ghost use Rattle.unit_trait.specs.Row.{initial_unit};
ghost use Rattle.command_words.specs.Standard.{IsStandard, standard_units as ten_units};
ghost use Rattle.command_words.specs.Words.{options_of, texts_of};

use crate::program::Program;
use crate::words::command_line;
use file_traits::{Files, Sink, Source};
use host_adapters::{PagedFiles, ReaderSource, RealFiles, RealLines, WriterSink};
use observations::ExitStatus;
use standard_units::{boxed_multiplexer, boxed_units, in_bus_order, with_multiplexer};
use std::alloc::AllocError as OutOfMemory;
use std::env::Env;
use std::io;
use std::net::Net;
use std::os::unix::fs::FileExt;
use std::process::ExitCode;
use std::rt::Files as System;
use unit_trait::Unit;

/// Has a program run a session over the runtime's words, standard streams, files and sockets, with a new unit of each
/// kind that is built. The exit status is the program's; where memory runs out before it is run it is that of want of
/// memory.
pub fn run_on_host<P: Program, R: Env + Input + Print + AllocGlobal + System + Net>(
    program: &P,
    rt: &R,
) -> ExitCode
where
    R::File: FileExt,
{
    match command_line_session(program, rt) {
        Ok(code) => code,
        Err(OutOfMemory) => ExitCode::from(ExitStatus::OutOfMemory.number()),
    }
}

/// Runs a session over the runtime's words, standard streams, files and sockets.
fn command_line_session<P: Program, R: Env + Input + Print + AllocGlobal + System + Net>(
    program: &P,
    rt: &R,
) -> Result<ExitCode, OutOfMemory>
where
    R::File: FileExt,
{
    let words = command_line(rt)?;
    standard_session(program, rt, words.as_slice())
}

/// Runs a session over these words and the runtime's standard streams, files and sockets, with a new unit of each kind
/// that is built.
fn standard_session<P: Program, R: Input + Print + AllocGlobal + System + Net>(
    program: &P,
    rt: &R,
    words: &[String],
) -> Result<ExitCode, OutOfMemory>
where
    R::File: FileExt,
    ensures usage { IfOk result (λ code. exit_status code ≡ 100 → options_of (texts_of words.now) ≡ None) }
    ensures bad_words { options_of (texts_of words.now) ≡ None
        → IfOk result (λ code. (exit_status code ≡ 100) ⊎ (exit_status code ≡ 102)) }
{
    let (
        disk,
        tape,
        printer,
        reader,
        punch,
        clock,
        keyboard,
        teleprinter,
        keyboard_1,
        teleprinter_1,
    ) = boxed_units(rt.alloc())?;
    // The others become such boxes too, since they go into one list with it.
    let disk: Box<dyn Unit> = disk;
    let units = in_bus_order(
        rt.alloc(),
        disk,
        tape,
        printer,
        reader,
        punch,
        clock,
        keyboard,
        teleprinter,
        keyboard_1,
        teleprinter_1,
    )?;
    let multiplexer: Box<dyn Unit> = boxed_multiplexer(rt.alloc())?;
    with_terminals(program, rt, words, units, multiplexer)
}

/// Runs a session with these units, which are the standard ones without the multiplexer, and a multiplexer behind
/// them.
fn with_terminals<P: Program, U: Unit, R: Input + Print + AllocGlobal + System + Net>(
    program: &P,
    rt: &R,
    words: &[String],
    units: Vec<U>,
    multiplexer: U,
) -> Result<ExitCode, OutOfMemory>
where
    R::File: FileExt,
    requires units { map U.unit_state units.items ≡ ten_units }
    requires multiplexer { U.unit_state multiplexer ≡ initial_unit multiplexers }
    ensures usage { IfOk result (λ code. exit_status code ≡ 100 → options_of (texts_of words.now) ≡ None) }
    ensures bad_words { options_of (texts_of words.now) ≡ None
        → IfOk result (λ code. (exit_status code ≡ 100) ⊎ (exit_status code ≡ 102)) }
{
    let units = with_multiplexer(units, multiplexer)?;
    with_streams(program, rt, words, units)
}

/// Runs a session with these units over the runtime's standard streams, files and sockets.
fn with_streams<P: Program, U: Unit, R: Input + Print + AllocGlobal + System + Net>(
    program: &P,
    rt: &R,
    words: &[String],
    units: Vec<U>,
) -> Result<ExitCode, OutOfMemory>
where
    R::File: FileExt,
    requires { IsStandard (map U.unit_state units.items) }
    ensures usage { IfOk result (λ code. exit_status code ≡ 100 → options_of (texts_of words.now) ≡ None) }
    ensures bad_words { options_of (texts_of words.now) ≡ None
        → IfOk result (λ code. (exit_status code ≡ 100) ⊎ (exit_status code ≡ 102)) }
{
    let mut input = ReaderSource::new(rt.alloc(), rt.reader())?;
    let mut output = WriterSink::new(io::writer(rt));
    with_files(program, rt, words, units, &mut input, &mut output)
}

/// Runs a session with these units over any input and output, the files of the system, which are read by pages, and
/// sockets.
fn with_files<P: Program, U: Unit, C: Source, S: Sink, R: System + AllocGlobal + Net>(
    program: &P,
    rt: &R,
    words: &[String],
    units: Vec<U>,
    input: &mut C,
    output: &mut S,
) -> Result<ExitCode, OutOfMemory>
where
    R::File: FileExt,
    requires { IsStandard (map U.unit_state units.items) }
    ensures usage { IfOk result (λ code. exit_status code ≡ 100 → options_of (texts_of words.now) ≡ None) }
    ensures bad_words { options_of (texts_of words.now) ≡ None
        → IfOk result (λ code. (exit_status code ≡ 100) ⊎ (exit_status code ≡ 102)) }
{
    let mut files = PagedFiles::new(rt.alloc(), RealFiles::new(rt.alloc(), rt))?;
    Ok(with_lines(program, rt, words, units, input, output, &mut files))
}

/// Runs a session with these units over any input, output and files, and sockets of this machine as its terminal lines.
fn with_lines<P: Program, U: Unit, C: Source, S: Sink, F: Files, R: AllocGlobal + Net>(
    program: &P,
    rt: &R,
    words: &[String],
    units: Vec<U>,
    input: &mut C,
    output: &mut S,
    files: &mut F,
) -> ExitCode
    requires { IsStandard (map U.unit_state units.items) }
    ensures usage { exit_status result ≡ 100 → options_of (texts_of words.now) ≡ None }
    ensures bad_words { options_of (texts_of words.now) ≡ None
        → (exit_status result ≡ 100) ⊎ (exit_status result ≡ 102) }
{
    let mut lines = RealLines::new(rt.alloc(), rt);
    program.run(rt.alloc(), words, units, input, output, files, &mut lines)
}
