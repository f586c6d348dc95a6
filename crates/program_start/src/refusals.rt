// The texts that refuse the words, or a file that they name.
ghost use Rattle.std.specs.Prelude.{◌≡◌, List, IsTrue, string_bytes};
ghost use Rattle.fault_counts.specs.Faults.{CountsFault};
ghost use Rattle.file_traits.specs.Streams.{Puts};
ghost use Rattle.observations.specs.Status.{number_of};
ghost use Rattle.command_words.specs.Words.{texts_of};
ghost use Rattle.program_start.specs.Start.{usage_text, unopened_text, bad_keys_text};
ghost use Rattle.program_start.specs.WordFiles.{IsRefused, RefusedCause, RefusalCause, IsDenied, DeniedCause, denial_of};
ghost use Rattle.program_start.specs.WordFiles.{status_printed};

use crate::word_files::Refusal;
use command_words::Options;
use file_traits::{Failed, Sink, put_all, put_pieces};
use itoa::Buffer;
use observations::ExitStatus;

/// The line that answers words outside their grammar.
const USAGE: &[u8] =
    b"usage: nova [-q] [-k keys] [-l instructions] [-m commands] [-g number] [script [arguments]]\n";

/// Prints the line that answers words outside their grammar, and gives the status with which the program ends then:
/// `Usage`, or `Console` where the console failed before the line was whole.
pub fn print_usage<S: Sink>(output: &mut S) -> ExitStatus
    ensures told { IsTrue S.tells
        → IsRefused 100 usage_text (number_of result) (S.written output.old) (S.written output.new) }
    ensures cause { RefusedCause 100 (number_of result) (S.fault_count output.old) (S.fault_count output.new) }
{
    let printed = put_all(output, USAGE);
    status_printed(printed, ExitStatus::Usage)
}

/// Prints the text that answers a keys file or a script that was refused, and gives the status with which the program
/// ends then: `Unopened` or `BadKeys`, or `Console` where the console failed before the text was whole. Where memory
/// ran out nothing is printed, and the status is `OutOfMemory`.
pub fn print_refusal<S: Sink>(words: &[String], refusal: Refusal, output: &mut S) -> ExitStatus
    requires { (options : Options) × RefusalCause (texts_of words.now) options refusal }
    ensures told { IsTrue S.tells → IsDenied (denial_of (texts_of words.now) refusal) (number_of result)
        (S.written output.old) (S.written output.new) }
    ensures cause { DeniedCause (denial_of (texts_of words.now) refusal) (number_of result)
        (S.fault_count output.old) (S.fault_count output.new) }
{
    match refusal {
        Refusal::Unopened(place) => {
            let printed = put_unopened(&words[place], output);
            status_printed(printed, ExitStatus::Unopened)
        }
        Refusal::BadKeys(place) => {
            let printed = put_bad_keys(place, output);
            status_printed(printed, ExitStatus::BadKeys)
        }
        Refusal::OutOfMemory => ExitStatus::OutOfMemory,
    }
}

/// Prints the name of a file that was not read.
fn put_unopened<S: Sink>(name: &String, output: &mut S) -> Result<(), Failed>
    ensures told { IsTrue S.tells
        → Puts (S.written output.old) (unopened_text (string_bytes name.now)) result (S.written output.new) }
    ensures counts { CountsFault (S.fault_count output.old) (S.fault_count output.new) result }
{
    put_pieces(output, &[b"Cannot open ", name.as_bytes(), b"\n"])
}

/// Prints the place of the first faulty line of a keys file, in decimal.
fn put_bad_keys<S: Sink>(place: usize, output: &mut S) -> Result<(), Failed>
    ensures told { IsTrue S.tells
        → Puts (S.written output.old) (bad_keys_text place) result (S.written output.new) }
    ensures counts { CountsFault (S.fault_count output.old) (S.fault_count output.new) result }
{
    let mut buffer = Buffer::new();
    put_pieces(
        output,
        &[b"Bad keys file at ", buffer.format(place).as_bytes(), b"\n"],
    )
}

/// The status where a text was printed, which is that of a console that failed where it was not.
fn status_printed(printed: Result<(), Failed>, status: ExitStatus) -> ExitStatus
    ensures { number_of result ≡ status_printed printed (number_of status) }
{
    match printed {
        Ok(()) => status,
        Err(Failed) => ExitStatus::Console,
    }
}
