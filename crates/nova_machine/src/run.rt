ghost use Rattle.std.specs.Prelude.{◌≡◌, Some};
ghost use Rattle.nova_machine.specs.Comes.{IsOwn};
ghost use Rattle.nova_machine.specs.Notes.{run_note};
ghost use Rattle.nova_machine.specs.Wants.{HasUnit};

use crate::machine::{Machine, RunLimit, Stop, Turn};
use expect_actions::{Keys, Watch};
use file_traits::{Files, Sink};
use host_lines::Lines;
use nova_processor::BurstEnd;
use unit_trait::Unit;

/// The end of time, in instructions.
pub(crate) const LAST_TIME: u64 = 1 << 60;

impl RunLimit {
    ghost use Rattle.nova_machine.specs.Run.{expired};

    /// The stop of a run that has reached its count.
    fn expired(self) -> Stop
        ensures stop { result ≡ expired self.step }
        ensures other { IsOwn (Some result) }
        ensures unit { HasUnit result }
    {
        if self.step {
            Stop::Stepped
        } else {
            Stop::Limit
        }
    }
}

impl<U: Unit> Machine<U> {
    ghost use Rattle.nova_machine.specs.Machine.{attached_files};
    ghost use Rattle.unit_files.specs.InStep.{MarksCover};
    ghost use Rattle.nova_machine.specs.Seen.{seen, beside};
    ghost use Rattle.nova_machine.specs.Comes.{Does, AreTold, StopCounts, FileCause};
    ghost use Rattle.nova_machine.specs.LineChanges.{AreLinesTold, LinesGoOn};
    ghost use Rattle.unit_files.specs.Open.{AllOpen};
    ghost use Rattle.unit_list.specs.Bus.{kinds_of};
    ghost use Rattle.nova_machine.specs.Run.{run};
    ghost use Rattle.nova_machine.specs.StopCauses.{moment_of, Watches, RunCause};
    ghost use Rattle.nova_machine.specs.Steps.{IsRun};

    /// Makes turns until one stops, the count of the limit is reached, or time ends, and answers which. The instruction
    /// of a HALT counts; one that stopped as `ChainLimit` or `UnknownDevice` does not, and PC stays there. `lines` are
    /// the ports and connections of the host, on which the machine's terminal lines are polled.
    pub fn run<S: Sink, F: Files, L: Lines>(
        &mut self,
        limit: RunLimit,
        watch: &mut Watch,
        keys: &Keys,
        files: &mut F,
        lines: &mut L,
        out: &mut S,
    ) -> Stop
        requires open { AllOpen self.old.slots (F.state files.old).opened }
        ensures told { AreTold F.tells self.old.slots → AreLinesTold L.tells (L.state lines.old) self.old.lines
            → Does (run (run_note self.new.time (Some result)) limit.step limit.count) (Some result) (beside watch.old keys.now (F.state files.old).files (L.state lines.old)) self.old
            (beside watch.new keys.now (F.state files.new).files (L.state lines.new)) self.new
            S.tells (S.written out.old) (S.written out.new) }
        ensures counts { StopCounts (Some result) (S.fault_count out.old) (S.fault_count out.new) }
        ensures unit { HasUnit result }
        ensures slots { self.new.slots ≡ self.old.slots }
        ensures covers { MarksCover (attached_files self.old) (attached_files self.new) }
        ensures kinds { kinds_of self.new.units ≡ kinds_of self.old.units }
        ensures lines { LinesGoOn L.tells (L.state lines.old) self.old.lines (L.state lines.new) self.new.lines }
        ensures opened { (F.state files.new).opened ≡ (F.state files.old).opened }
        ensures file_cause { FileCause (Some result) self.old.slots (F.state files.old) (F.state files.new) }
        ensures watches { Watches (Some result) (moment_of watch.old self.old) (moment_of watch.new self.new) S.tells
            (S.written out.old) (S.written out.new) }
        ensures cause { RunCause limit.step limit.count result keys.now (moment_of watch.old self.old) watch.new
            self.new }
        ensures steps { IsRun keys.now limit.step limit.count watch.old self.old result watch.new self.new }
    {
        let mut first = true;
        let mut left = limit.count;
        'turns: while left > 0 {
            if self.time == LAST_TIME {
                return Stop::Limit;
            }
            match self.turn(first, watch, keys, files, lines, out) {
                Turn::Stopped(stop) => return stop,
                Turn::Executed => (),
            }
            first = false;
            let burst = self.go_on(left - 1, watch, keys, lines);
            match burst.end {
                BurstEnd::ChainLimit => return Stop::ChainLimit,
                BurstEnd::Spent | BurstEnd::Transfer | BurstEnd::AtStop => {
                    left -= 1 + burst.done;
                }
            }
        }
        limit.expired()
    }
}
