ghost use Rattle.std.specs.Prelude.{◌≡◌, ◌⊎◌, None, map};
ghost use Rattle.std.specs.Process.{exit_status};
ghost use Rattle.command_words.specs.Standard.{IsStandard};
ghost use Rattle.command_words.specs.Words.{options_of, texts_of};

use file_traits::{Files, Sink, Source};
use host_lines::Lines;
use std::alloc::Global;
use std::process::ExitCode;
use unit_trait::Unit;

/// A program that runs a session over whatever it is handed.
pub trait Program {
    /// Runs a session over these words, with these units, which are the standard ones, over any input, output, files
    /// and terminal lines, and gives its exit status. It ends with 100 only at words outside their grammar, and with
    /// 100 or 102 there.
    fn run<U: Unit, C: Source, S: Sink, F: Files, L: Lines>(
        &self,
        alloc: Global,
        words: &[String],
        units: Vec<U>,
        input: &mut C,
        output: &mut S,
        files: &mut F,
        lines: &mut L,
    ) -> ExitCode
        requires { IsStandard (map U.unit_state units.items) }
        ensures usage { exit_status result ≡ 100 → options_of (texts_of words.now) ≡ None }
        ensures bad_words { options_of (texts_of words.now) ≡ None
            → (exit_status result ≡ 100) ⊎ (exit_status result ≡ 102) };
}
