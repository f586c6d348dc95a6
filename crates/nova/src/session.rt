ghost use Rattle.std.specs.Prelude.{◌≡◌, ◌≢◌, ◌⊎◌, List, [], map, is_some, None, IsTrue};
ghost use Rattle.std.specs.List.{AllByRecursion};
ghost use Rattle.std.specs.Process.{exit_status};
ghost use Rattle.fault_counts.specs.Faults.{Rose};
ghost use Rattle.unit_files.specs.Attachments.{no_files};
ghost use Rattle.file_commands.specs.Notes.{notes_said};
ghost use Rattle.file_commands.specs.Counts.{AreCounted, AreExact};
ghost use Rattle.file_commands.specs.OwnFiles.{IsOwnNote};
ghost use Rattle.host_lines.specs.Traffic.{Answer as LineAnswer};
ghost use Rattle.host_lines.specs.Told.{IsFirst, record_in};
ghost use Rattle.command_session.specs.Live.{beyond};
ghost use Rattle.command_words.specs.Standard.{IsStandard};
ghost use Rattle.command_words.specs.Words.{options_of, texts_of};
ghost use Rattle.nova_top.specs.Ends.{IsOutcome, IsCutShort, StatusCause, MachineThere, IsComplete, FilesAtEnd};
ghost use Rattle.nova_top.specs.Ends.{LinesAtEnd, NoneFailed, KeptUnwritten, OpeningsAtEnd, HasWorkload, InputTells};
ghost use Rattle.program_start.specs.Unread.{IsUnopened, AreMeasured, HasNoKeys};
ghost use Rattle.nova_top.specs.Resumption.{ResumesSaved, SaysNoMore};
ghost use Rattle.nova_top.specs.Used.{ProgramTold};
ghost use Rattle.nova.specs.Ends.{OfSomeEnding, Promised};

use file_traits::{Files, Sink, Source};
use host_lines::Lines;
use nova_top::simulate;
use std::alloc::Global;
use std::process::ExitCode;
use unit_trait::Unit;

/// Runs a session over any input, output, files and terminal lines, with the standard units in whichever types. The
/// exit code is the status that `simulate` has answered, and all that `simulate` promises holds of it, of some machine
/// and of some notes, which are let go.
pub fn session<U: Unit, C: Source, S: Sink, F: Files, L: Lines>(
    alloc: Global,
    words: &[String],
    units: Vec<U>,
    input: &mut C,
    output: &mut S,
    files: &mut F,
    lines: &mut L,
) -> ExitCode
    requires { IsStandard (map U.unit_state units.items) }
    ensures ended { OfSomeEnding (λ machine faults. Promised
        (InputTells (texts_of words.now) C.tells → ProgramTold F.tells L.tells (map U.unit_state units.items) (texts_of words.now)
        (C.left input.old) (F.state files.old).files (L.state lines.old) → IsTrue S.tells
        → exit_status result ≢ 103
        → (whole : List LineAnswer) → IsFirst (record_in (L.state lines.new).told) whole
        → SaysNoMore L.tells (map U.unit_state units.items) (texts_of words.now) (C.left input.old) (C.left input.new) (S.written output.old)
        (S.written output.new) (beyond (F.state files.old).files (L.state lines.old) whole)
        (beyond (F.state files.new).files (L.state lines.new) whole) (notes_said faults)
        ⊎ IsOutcome (map U.unit_state units.items) (texts_of words.now) (C.left input.old) (C.left input.new) (S.written output.old)
        (S.written output.new) (beyond (F.state files.old).files (L.state lines.old) whole)
        (beyond (F.state files.new).files (L.state lines.new) whole) (exit_status result) machine (notes_said faults))
        (InputTells (texts_of words.now) C.tells → ProgramTold F.tells L.tells (map U.unit_state units.items) (texts_of words.now)
        (C.left input.old) (F.state files.old).files (L.state lines.old) → IsTrue S.tells
        → exit_status result ≡ 103
        → (whole : List LineAnswer) → IsFirst (record_in (L.state lines.new).told) whole
        → SaysNoMore L.tells (map U.unit_state units.items) (texts_of words.now) (C.left input.old) (C.left input.new) (S.written output.old)
        (S.written output.new) (beyond (F.state files.old).files (L.state lines.old) whole)
        (beyond (F.state files.new).files (L.state lines.new) whole) (notes_said faults)
        ⊎ IsCutShort (map U.unit_state units.items) (texts_of words.now) (C.left input.old) (C.left input.new) (S.written output.old)
        (S.written output.new) (beyond (F.state files.old).files (L.state lines.old) whole)
        (beyond (F.state files.new).files (L.state lines.new) whole) machine (notes_said faults))
        (InputTells (texts_of words.now) C.tells → ProgramTold F.tells L.tells (map U.unit_state units.items) (texts_of words.now)
        (C.left input.old) (F.state files.old).files (L.state lines.old) → IsTrue S.tells
        → exit_status result ≢ 103 → (Rose (S.fault_count output.old) (S.fault_count output.new) → ⊥)
        → (Rose (C.fault_count input.old) (C.fault_count input.new) → ⊥)
        → NoneFailed (F.state files.old) (F.state files.new)
        → (whole : List LineAnswer) → IsFirst (record_in (L.state lines.new).told) whole
        → SaysNoMore L.tells (map U.unit_state units.items) (texts_of words.now) (C.left input.old) (C.left input.new) (S.written output.old)
        (S.written output.new) (beyond (F.state files.old).files (L.state lines.old) whole)
        (beyond (F.state files.new).files (L.state lines.new) whole) []
        ⊎ IsComplete (map U.unit_state units.items) (texts_of words.now) (C.left input.old) (C.left input.new) (S.written output.old)
        (S.written output.new) (beyond (F.state files.old).files (L.state lines.old) whole)
        (beyond (F.state files.new).files (L.state lines.new) whole) (exit_status result) machine)
        (InputTells (texts_of words.now) C.tells → ProgramTold F.tells L.tells (map U.unit_state units.items) (texts_of words.now)
        (C.left input.old) (F.state files.old).files (L.state lines.old) → IsTrue S.tells
        → exit_status result ≢ 102 → exit_status result ≢ 103 → exit_status result ≢ 106
        → (whole : List LineAnswer) → IsFirst (record_in (L.state lines.new).told) whole
        → SaysNoMore L.tells (map U.unit_state units.items) (texts_of words.now) (C.left input.old) (C.left input.new) (S.written output.old)
        (S.written output.new) (beyond (F.state files.old).files (L.state lines.old) whole)
        (beyond (F.state files.new).files (L.state lines.new) whole) (notes_said faults)
        ⊎ ResumesSaved (map U.unit_state units.items) (texts_of words.now) (C.left input.old) (C.left input.new) (S.written output.old)
        (S.written output.new) (beyond (F.state files.old).files (L.state lines.old) whole)
        (beyond (F.state files.new).files (L.state lines.new) whole) (exit_status result) machine (notes_said faults))
        (LinesAtEnd (map U.unit_state units.items) machine (L.state lines.old) (L.state lines.new))
        (exit_status result ≡ 101 → IsUnopened F.tells (texts_of words.now) faults (F.state files.old)
        (F.state files.new))
        (exit_status result ≡ 103 → AreMeasured F.tells (texts_of words.now) machine (F.state files.old)
        (F.state files.new))
        (AreCounted faults (F.state files.old) (F.state files.new))
        (AreExact (is_some machine) faults (F.state files.old) (F.state files.new))
        (OpeningsAtEnd F.tells (texts_of words.now) (exit_status result) machine faults (F.state files.old)
        (F.state files.new))
        (AllByRecursion (IsOwnNote no_files (F.state files.old) (F.state files.new)) faults)
        (exit_status result ≡ 107 → KeptUnwritten machine faults (F.state files.old) (F.state files.new))
        (MachineThere (texts_of words.now) (exit_status result) machine)
        (FilesAtEnd machine (F.state files.old).opened (F.state files.new).opened)
        (machine ≡ None → input.new ≡ input.old)) }
    ensures cause { StatusCause (texts_of words.now) (exit_status result) (S.fault_count output.old)
        (S.fault_count output.new) (C.fault_count input.old) (C.fault_count input.new) }
    ensures no_keys { exit_status result ≡ 105 → HasNoKeys (F.state files.old) (F.state files.new) }
    ensures unasked { options_of (texts_of words.now) ≡ None → L.state lines.new ≡ L.state lines.old }
    ensures unread { options_of (texts_of words.now) ≡ None → input.new ≡ input.old }
    ensures workload { HasWorkload (texts_of words.now) → input.new ≡ input.old }
{
    let ending = simulate(alloc, words, units, input, output, files, lines);
    ExitCode::from(ending.status)
}
