// Which function does which of the commands that run.
ghost use Rattle.std.specs.Prelude.{◌≡◌, ◌≤◌};
ghost use Rattle.unit_list.specs.Bus.{kinds_of};
ghost use Rattle.unit_files.specs.Open.{AllOpen};
ghost use Rattle.command_session.specs.Live.{live_in, beyond};
ghost use Rattle.command_session.specs.Answers.{AnswersByTables, CanAnswer};
ghost use Rattle.command_session.specs.DiskFile.{StaysWhereAlone};
ghost use Rattle.command_session.specs.Doing.{IsRefused, Grows, RunDone};
ghost use Rattle.command_session.specs.RunStops.{RunStops, run_count, is_step};
ghost use Rattle.run_control.specs.RunEffect.{run_effect, IsRun};

use crate::run_commands::{run, run_from, step};
use command_session::{CommandFault, Next, Session};
use file_traits::{Files, Sink};
use host_lines::Lines;
use scp_parser::{Command, Verb};
use unit_trait::Unit;

/// Does a command that runs.
pub fn obey_run<U: Unit, F: Files, L: Lines, S: Sink>(
    session: &mut Session<U>,
    command: &Command,
    files: &mut F,
    lines: &mut L,
    out: &mut S,
) -> Result<Next, CommandFault>
    requires room { 16 ≤ session.old.spare }
    requires open { AllOpen session.old.machine.slots (F.state files.old).opened }
    requires part { IsRun command.now }
    ensures unasked { IsRefused result → lines.new ≡ lines.old }
    ensures refused { IsRefused result
        → (session.new.machine ≡ session.old.machine) × (session.new.watch ≡ session.old.watch) }
    ensures done { RunDone (λ whole notes. run_effect session.old.limit notes
        (live_in session.old (beyond (F.state files.old).files (L.state lines.old) whole)) command.now)
        result session.old session.new (F.state files.old) (F.state files.new) (L.state lines.old) (L.state lines.new)
        F.tells L.tells S.tells (S.written out.old) (S.written out.new) (S.fault_count out.old) (S.fault_count out.new) }
    ensures stopped { RunStops (is_step command.now session.old.limit) (run_count command.now session.old.limit) result
        session.old session.new S.tells (S.written out.old) (S.written out.new) }
    ensures tables { AnswersByTables session.old.machine command.now result }
    ensures answers { CanAnswer command.now result }
    ensures grows { Grows S.tells (S.written out.old) (S.written out.new) }
    ensures step { StaysWhereAlone session.old session.new (F.state files.old).files (F.state files.new).files }
    ensures kinds { kinds_of session.new.machine.units ≡ kinds_of session.old.machine.units }
{
    match &command.verb {
        Verb::Run(address) => run_from(session, true, *address, files, lines, out),
        Verb::Go(address) => run_from(session, false, *address, files, lines, out),
        Verb::Cont => run(session, files, lines, out),
        Verb::Step(count) => step(session, count.unwrap_or(1), files, lines, out),
        _ => unreachable!(),
    }
}
