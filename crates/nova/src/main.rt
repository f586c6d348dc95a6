//! A Data General Nova under a control program in the manner of SIMH. The words of its command line, its standard input
//! and its standard output are a session's words, input and console, sockets of this machine are its terminal lines,
//! and the session's status is its exit status. It writes nothing to standard error.
#![tactic(auto)]

ghost use Rattle.std.specs.Prelude.{◌≡◌, ◌⊎◌, None, map};
ghost use Rattle.command_words.specs.Standard.{IsStandard};
ghost use Rattle.std.specs.Process.{exit_status};
ghost use Rattle.command_words.specs.Words.{options_of, texts_of};

mod session;

use file_traits::{Files, Sink, Source};
use host_lines::Lines;
use host_program::{Program, run_on_host};
use session::session;
use std::alloc::Global;
use std::process::ExitCode;
use unit_trait::Unit;

fn main(rt: HostRuntime) -> ExitCode {
    run_on_host(&Nova, &rt)
}

/// The control program.
struct Nova;

impl Program for Nova {
    fn run<U: Unit, C: Source, S: Sink, F: Files, L: Lines>(
        &self,
        alloc: Global,
        words: &[String],
        units: Vec<U>,
        input: &mut C,
        output: &mut S,
        files: &mut F,
        lines: &mut L,
    ) -> ExitCode {
        session(alloc, words, units, input, output, files, lines)
    }
}
