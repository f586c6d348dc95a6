ghost use Rattle.std.specs.Prelude.{◌≡◌, ◌≤◌, ◌<◌, List, [], map, IsTrue, IfOk, IfErr, OnOk, OnErr};
ghost use Rattle.file_traits.specs.State.{Opened};
ghost use Rattle.unit_list.specs.Bus.{kinds_of};
ghost use Rattle.unit_files.specs.InStep.{InStep};
ghost use Rattle.unit_files.specs.Open.{AllOpen, Around};
ghost use Rattle.file_commands.specs.Notes.{notes_said};
ghost use Rattle.expect_actions.specs.Watch.{empty_watch};
ghost use Rattle.unit_list.specs.BusOrder.{IsBusOrder};
ghost use Rattle.nova_machine.specs.Machine.{attached_files, new_machine};

use crate::terminal::{EVERY_ROW, close_row};
use expect_actions::{Keys, Watch};
use file_commands::{FaultNote, Stamp, detach_all, take_room};
use file_traits::Files;
use host_lines::Lines;
use nova_machine::{Machine, OutOfMemory};
use std::alloc::Global;
use std::marker::Model;
use unit_files::UnitFault;
use unit_trait::Unit;

/// What commands work on.
#[derive(Drop)]
pub struct Session<U: Unit> {
    pub machine: Machine<U>,
    /// The breaks and the expects at which a run stops, and the bytes that wait for the keyboard.
    pub watch: Watch,
    /// The keys that are typed at given times.
    pub keys: Keys,
    /// How many instructions a run may execute, from 1 to 2^48.
    pub limit: u64,
    /// The calls on files that failed, in order, but for the closings of files that a refused ATTACH or RESTORE had
    /// opened for units.
    pub notes: Vec<FaultNote>,
    /// How many units of the budget are spent, those of the command that is done included.
    pub command: u64,
}

impl<U: Unit> Model for Session<U> {
    ghost use Rattle.std.specs.Prelude.{◌-◌, vec_len, vec_capacity};
    ghost use Rattle.command_session.specs.Live.{CommandState};

    ghost Value = { CommandState };

    ghost view = { λ s. record {
      machine = s.machine;
      watch = s.watch;
      keys = s.keys;
      limit = s.limit;
      notes = s.notes.items;
      command = s.command;
      spare = vec_capacity s.notes - vec_len s.notes;
    } };
}

impl<U: Unit> Session<U> {
    ghost use Rattle.host_lines.specs.Traffic.{Answer as LineAnswer};
    ghost use Rattle.host_lines.specs.State.{LineState};
    ghost use Rattle.command_session.specs.Live.{CommandState, live_in, beyond};
    ghost use Rattle.command_session.specs.FileEffects.{kept_answer};
    ghost use Rattle.unit_files.specs.Attachments.{is_disk};
    ghost use Rattle.file_commands.specs.AllUnits.{keeper, IsUnwritten};
    ghost use Rattle.file_commands.specs.OwnFiles.{AreOwn};
    ghost use Rattle.command_session.specs.PortAnswers.{ClosesPorts};
    ghost use Rattle.command_session.specs.Doing.{ClosesFiles, Closes, Keeps};
    ghost use Rattle.nova_machine.specs.LineChanges.{AreLinesTold};
    ghost use Rattle.command_session.specs.LinesLeft.{LinesLeft};
    ghost use Rattle.command_session.specs.declared.next.Next.TheVariants.{Go};

    /// A session of a machine with those units, before its first command. No file is attached, nothing is watched, and
    /// no note kept.
    pub fn new(
        alloc: Global,
        units: Vec<U>,
        keys: Keys,
        limit: u64,
    ) -> Result<Session<U>, OutOfMemory>
        requires { IsBusOrder (map U.unit_state units.items) }
        ensures machine { IfOk result (λ s. s.machine ≡ new_machine (map U.unit_state units.items)) }
        ensures watch { IfOk result (λ s. s.watch ≡ empty_watch) }
        ensures keys { IfOk result (λ s. s.keys ≡ keys) }
        ensures limit { IfOk result (λ s. s.limit ≡ limit) }
        ensures notes { IfOk result (λ s. s.notes ≡ []) }
        ensures command { IfOk result (λ s. s.command ≡ 0) }
        ensures room { IfOk result (λ s. 16 ≤ s.spare) }
        ensures open { IfOk result (λ s. (opened : List Opened) → AllOpen s.machine.slots opened) }
        ensures around { IfOk result (λ s. (opened : List Opened) → Around s.machine.slots opened opened) }
    {
        let mut notes = Vec::new(alloc);
        take_room(&mut notes)?;
        Ok(Session {
            machine: Machine::new(alloc, units)?,
            watch: Watch::new(alloc)?,
            keys,
            limit,
            notes,
            command: 0,
        })
    }

    /// Takes the memory for the notes of one more command. Where it is there already, it is not refused.
    pub fn take_room(&mut self) -> Result<(), OutOfMemory>
        ensures room { OnOk result (16 ≤ self.new.spare) }
        ensures refused { OnErr result (self.old.spare < 16) }
        ensures rest { self.new ≡ record self.old { spare = self.new.spare } }
    {
        take_room(&mut self.notes)
    }

    /// Takes the files of all units away, in bus order, then the port of the second teletype, and then those of the
    /// multiplexer, with their connections, as at the end of the input. What the disk holds is written back first;
    /// where that fails, it is noted and answered, and all units keep their files and their ports. A closing that fails
    /// is noted, and the next one follows.
    pub fn detach_all<F: Files, L: Lines>(
        &mut self,
        files: &mut F,
        lines: &mut L,
    ) -> Result<(), UnitFault>
        requires room { 12 ≤ self.old.spare }
        requires open { AllOpen self.old.machine.slots (F.state files.old).opened }
        ensures closes { AreLinesTold L.tells (L.state lines.old) self.old.machine.lines → (whole : List LineAnswer)
            → Closes (InStep (attached_files self.old.machine) (F.state files.old).files) self.old.command
            (live_in self.old (beyond (F.state files.old).files (L.state lines.old) whole))
            (live_in self.new (beyond (F.state files.new).files (L.state lines.new) whole)) (keeper result)
            (notes_said self.old.notes) (notes_said self.new.notes) }
        ensures step { InStep (attached_files self.old.machine) (F.state files.old).files
            → InStep (attached_files self.new.machine) (F.state files.new).files }
        ensures left { LinesLeft L.tells (L.state lines.old) self.old.machine.lines (L.state lines.new)
            self.new.machine.lines }
        ensures unasked { OnErr result (lines.new ≡ lines.old) }
        ensures sent { (L.state lines.new).sent ≡ (L.state lines.old).sent }
        ensures refused { OnErr result (self.new.machine ≡ self.old.machine) }
        ensures disk { IfErr result (λ f. IsTrue (is_disk f.unit.kind)) }
        ensures kept { OnErr result (self.new.machine.lines ≡ self.old.machine.lines) }
        ensures line { OnOk result
            (ClosesPorts (L.state lines.old) self.old.machine.lines (L.state lines.new) self.new.machine.lines) }
        ensures keeps { Keeps self.old.command self.new.machine.time F.tells (kept_answer (keeper result) Go)
            self.old.notes self.new.notes (F.state files.old) (F.state files.new) }
        ensures cause { OnErr result
            (IsUnwritten self.new.machine.slots self.new.notes (F.state files.old) (F.state files.new)) }
        ensures whose { AreOwn self.old.machine.slots self.new.machine.slots self.old.notes self.new.notes
            (F.state files.old) (F.state files.new) }
        ensures watch { self.new.watch ≡ self.old.watch }
        ensures keys { self.new.keys ≡ self.old.keys }
        ensures limit { self.new.limit ≡ self.old.limit }
        ensures command { self.new.command ≡ self.old.command }
        ensures kinds { kinds_of self.new.machine.units ≡ kinds_of self.old.machine.units }
        ensures open { AllOpen self.new.machine.slots (F.state files.new).opened }
        ensures around { (base : List Opened) → Around self.old.machine.slots base (F.state files.old).opened
            → Around self.new.machine.slots base (F.state files.new).opened }
    {
        self.detach_files(files)?;
        close_row(&mut self.machine, EVERY_ROW, lines);
        Ok(())
    }

    /// Takes the files of all units away.
    fn detach_files<F: Files>(&mut self, files: &mut F) -> Result<(), UnitFault>
        requires room { 12 ≤ self.old.spare }
        requires open { AllOpen self.old.machine.slots (F.state files.old).opened }
        ensures closes { (lines : LineState) (whole : List LineAnswer)
            → ClosesFiles (InStep (attached_files self.old.machine) (F.state files.old).files) self.old.command
            (live_in self.old (beyond (F.state files.old).files lines whole))
            (live_in self.new (beyond (F.state files.new).files lines whole)) (keeper result)
            (notes_said self.old.notes) (notes_said self.new.notes) }
        ensures step { InStep (attached_files self.old.machine) (F.state files.old).files
            → InStep (attached_files self.new.machine) (F.state files.new).files }
        ensures keeps { Keeps self.old.command self.new.machine.time F.tells (kept_answer (keeper result) Go)
            self.old.notes self.new.notes (F.state files.old) (F.state files.new) }
        ensures cause { OnErr result
            (IsUnwritten self.new.machine.slots self.new.notes (F.state files.old) (F.state files.new)) }
        ensures whose { AreOwn self.old.machine.slots self.new.machine.slots self.old.notes self.new.notes
            (F.state files.old) (F.state files.new) }
        ensures refused { OnErr result (self.new.machine ≡ self.old.machine) }
        ensures disk { IfErr result (λ f. IsTrue (is_disk f.unit.kind)) }
        ensures watch { self.new.watch ≡ self.old.watch }
        ensures terminals { self.new.machine.lines ≡ self.old.machine.lines }
        ensures keys { self.new.keys ≡ self.old.keys }
        ensures limit { self.new.limit ≡ self.old.limit }
        ensures command { self.new.command ≡ self.old.command }
        ensures kinds { kinds_of self.new.machine.units ≡ kinds_of self.old.machine.units }
        ensures open { AllOpen self.new.machine.slots (F.state files.new).opened }
        ensures around { (base : List Opened) → Around self.old.machine.slots base (F.state files.old).opened
            → Around self.new.machine.slots base (F.state files.new).opened }
    {
        let stamp = Stamp {
            command: self.command,
            time: self.machine.time(),
        };
        detach_all(self.machine.attached_mut(), files, &mut self.notes, stamp)
    }
}
