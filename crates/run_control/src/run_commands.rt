// RUN, GO, CONT, STEP and RESET.
ghost use Rattle.std.specs.Prelude.{◌≡◌, ◌≢◌, ◌≤◌, ◌++◌, true, false, None, IsTrue, min, nat_le};
ghost use Rattle.unit_list.specs.Bus.{kinds_of};
ghost use Rattle.unit_files.specs.InStep.{MarksCover};
ghost use Rattle.unit_files.specs.Open.{AllOpen};
ghost use Rattle.nova_machine.specs.Machine.{attached_files};
ghost use Rattle.nova_machine.specs.Run.{run};
ghost use Rattle.nova_machine.specs.declared.machine.Stop.TheVariants.{ConsoleFault};
ghost use Rattle.command_session.specs.Live.{live_in, beyond};
ghost use Rattle.command_session.specs.RunEffects.{address_fits, starting_at, reset_where, running, run_from};
ghost use Rattle.command_session.specs.RunEffects.{stepped, count_fits, step_of, run_failure, ran};
ghost use Rattle.command_session.specs.Answers.{IsByTables, OfRun, out_of_range};
ghost use Rattle.command_session.specs.Doing.{IsRefused};
ghost use Rattle.command_session.specs.RunStops.{RunStops};
ghost use Rattle.command_session.specs.Doing.{stop_notes, Grows, RunDone};

use crate::stop_line::put_stop;
use command_session::{CommandFault, Next, Session, is_count, stamp_of, told_or_console};
use file_commands::{keep, note_of};
use file_traits::{Files, Sink};
use host_lines::Lines;
use nova_machine::{CpuReg, Machine, RunLimit, Stop};
use unit_trait::Unit;

/// The largest address.
const LAST_ADDRESS: u64 = 0o77777;

/// Runs up to the limit of the session, from that address where one is given. RUN resets the machine first.
#[tactic(auto, unfolding(command_session::specs::RunEffects::run_from))]
pub fn run_from<U: Unit, F: Files, L: Lines, S: Sink>(
    session: &mut Session<U>,
    resets: bool,
    address: Option<u64>,
    files: &mut F,
    lines: &mut L,
    out: &mut S,
) -> Result<Next, CommandFault>
    requires room { 16 ≤ session.old.spare }
    requires open { AllOpen session.old.machine.slots (F.state files.old).opened }
    ensures unasked { IsRefused result → lines.new ≡ lines.old }
    ensures refused { IsRefused result
        → (session.new.machine ≡ session.old.machine) × (session.new.watch ≡ session.old.watch) }
    ensures done { RunDone
        (λ whole notes. run_from session.old.limit notes resets address (live_in session.old (beyond (F.state files.old).files (L.state lines.old) whole)))
        result session.old session.new (F.state files.old) (F.state files.new) (L.state lines.old) (L.state lines.new)
        F.tells L.tells S.tells (S.written out.old)
        (S.written out.new) (S.fault_count out.old) (S.fault_count out.new) }
    ensures stopped { RunStops false session.old.limit result session.old session.new S.tells (S.written out.old)
        (S.written out.new) }
    ensures tables { IsByTables (out_of_range (address_fits address)) result }
    ensures answers { OfRun result }
    ensures grows { Grows S.tells (S.written out.old) (S.written out.new) }
    ensures covers { MarksCover (attached_files session.old.machine) (attached_files session.new.machine) }
    ensures kinds { kinds_of session.new.machine.units ≡ kinds_of session.old.machine.units }
{
    if !address_fits(address) {
        return Err(CommandFault::OutOfRange);
    }
    start(session, resets, address);
    run(session, files, lines, out)
}

// Whether an address is one of memory's.
fn address_fits(address: Option<u64>) -> bool
    ensures { result ≡ address_fits address }
{
    match address {
        Some(address) => address <= LAST_ADDRESS,
        None => true,
    }
}

// Readies a session for a run.
fn start<U: Unit>(session: &mut Session<U>, resets: bool, address: Option<u64>)
    requires { IsTrue (address_fits address) }
    ensures { session.new ≡ record session.old { machine = starting_at address (reset_where resets session.old.machine) } }
{
    start_machine(&mut session.machine, resets, address);
}

// Readies a machine for a run: resets it, and sets PC, where that is asked for.
fn start_machine<U: Unit>(machine: &mut Machine<U>, resets: bool, address: Option<u64>)
    requires { IsTrue (address_fits address) }
    ensures { machine.new ≡ starting_at address (reset_where resets machine.old) }
{
    reset_where(machine, resets);
    match address {
        None => (),
        Some(address) => {
            let _fits = machine.set_cpu_reg(CpuReg::Pc, address as u32);
        }
    }
}

fn reset_where<U: Unit>(machine: &mut Machine<U>, resets: bool)
    ensures { machine.new ≡ reset_where resets machine.old }
{
    if resets {
        machine.reset();
    }
}

/// Runs from PC up to the limit of the session, and prints the stop behind what the run has printed.
pub fn run<U: Unit, F: Files, L: Lines, S: Sink>(
    session: &mut Session<U>,
    files: &mut F,
    lines: &mut L,
    out: &mut S,
) -> Result<Next, CommandFault>
    requires room { 16 ≤ session.old.spare }
    requires open { AllOpen session.old.machine.slots (F.state files.old).opened }
    ensures never { IsRefused result → ⊥ }
    ensures done { RunDone
        (λ whole notes. running session.old.limit notes (live_in session.old (beyond (F.state files.old).files (L.state lines.old) whole))) result
        session.old session.new (F.state files.old) (F.state files.new) (L.state lines.old) (L.state lines.new)
        F.tells L.tells S.tells (S.written out.old)
        (S.written out.new) (S.fault_count out.old) (S.fault_count out.new) }
    ensures stopped { RunStops false session.old.limit result session.old session.new S.tells (S.written out.old)
        (S.written out.new) }
    ensures tables { IsByTables None result }
    ensures answers { OfRun result }
    ensures grows { Grows S.tells (S.written out.old) (S.written out.new) }
    ensures covers { MarksCover (attached_files session.old.machine) (attached_files session.new.machine) }
    ensures kinds { kinds_of session.new.machine.units ≡ kinds_of session.old.machine.units }
{
    let limit = RunLimit {
        count: session.limit,
        step: false,
    };
    run_up_to(session, limit, files, lines, out)
}

/// Runs that many instructions, from 1 to 2^48, and prints the stop.
#[tactic(auto, unfolding(command_session::specs::RunEffects::step_of))]
pub fn step<U: Unit, F: Files, L: Lines, S: Sink>(
    session: &mut Session<U>,
    count: u64,
    files: &mut F,
    lines: &mut L,
    out: &mut S,
) -> Result<Next, CommandFault>
    requires room { 16 ≤ session.old.spare }
    requires open { AllOpen session.old.machine.slots (F.state files.old).opened }
    ensures unasked { IsRefused result → lines.new ≡ lines.old }
    ensures refused { IsRefused result
        → (session.new.machine ≡ session.old.machine) × (session.new.watch ≡ session.old.watch) }
    ensures done { RunDone
        (λ whole notes. step_of session.old.limit notes count (live_in session.old (beyond (F.state files.old).files (L.state lines.old) whole))) result
        session.old session.new (F.state files.old) (F.state files.new) (L.state lines.old) (L.state lines.new)
        F.tells L.tells S.tells (S.written out.old)
        (S.written out.new) (S.fault_count out.old) (S.fault_count out.new) }
    ensures stopped { RunStops (nat_le count session.old.limit) (min count session.old.limit) result session.old
        session.new S.tells (S.written out.old) (S.written out.new) }
    ensures tables { IsByTables (out_of_range (count_fits count)) result }
    ensures answers { OfRun result }
    ensures grows { Grows S.tells (S.written out.old) (S.written out.new) }
    ensures covers { MarksCover (attached_files session.old.machine) (attached_files session.new.machine) }
    ensures kinds { kinds_of session.new.machine.units ≡ kinds_of session.old.machine.units }
{
    if is_count(count) {
        step_by(session, count, files, lines, out)
    } else {
        Err(CommandFault::OutOfRange)
    }
}

#[tactic(auto, unfolding(command_session::specs::RunEffects::stepped))]
fn step_by<U: Unit, F: Files, L: Lines, S: Sink>(
    session: &mut Session<U>,
    count: u64,
    files: &mut F,
    lines: &mut L,
    out: &mut S,
) -> Result<Next, CommandFault>
    requires room { 16 ≤ session.old.spare }
    requires open { AllOpen session.old.machine.slots (F.state files.old).opened }
    ensures never { IsRefused result → ⊥ }
    ensures done { RunDone
        (λ whole notes. stepped session.old.limit notes count (live_in session.old (beyond (F.state files.old).files (L.state lines.old) whole))) result
        session.old session.new (F.state files.old) (F.state files.new) (L.state lines.old) (L.state lines.new)
        F.tells L.tells S.tells (S.written out.old)
        (S.written out.new) (S.fault_count out.old) (S.fault_count out.new) }
    ensures stopped { RunStops (nat_le count session.old.limit) (min count session.old.limit) result session.old
        session.new S.tells (S.written out.old) (S.written out.new) }
    ensures tables { IsByTables None result }
    ensures answers { OfRun result }
    ensures grows { Grows S.tells (S.written out.old) (S.written out.new) }
    ensures covers { MarksCover (attached_files session.old.machine) (attached_files session.new.machine) }
    ensures kinds { kinds_of session.new.machine.units ≡ kinds_of session.old.machine.units }
{
    let limit = RunLimit {
        count: count.min(session.limit),
        step: count <= session.limit,
    };
    run_up_to(session, limit, files, lines, out)
}

// Runs up to that limit, notes the call on a file that failed, if that is why it stopped, and prints the stop behind
// what the run has printed.
fn run_up_to<U: Unit, F: Files, L: Lines, S: Sink>(
    session: &mut Session<U>,
    limit: RunLimit,
    files: &mut F,
    lines: &mut L,
    out: &mut S,
) -> Result<Next, CommandFault>
    requires room { 16 ≤ session.old.spare }
    requires open { AllOpen session.old.machine.slots (F.state files.old).opened }
    ensures never { IsRefused result → ⊥ }
    ensures done { RunDone
        (λ whole notes. ran
        (run (run_failure notes) limit.step limit.count (live_in session.old (beyond (F.state files.old).files (L.state lines.old) whole))))
        result session.old session.new (F.state files.old) (F.state files.new) (L.state lines.old) (L.state lines.new)
        F.tells L.tells S.tells (S.written out.old)
        (S.written out.new) (S.fault_count out.old) (S.fault_count out.new) }
    ensures stopped { RunStops limit.step limit.count result session.old session.new S.tells (S.written out.old)
        (S.written out.new) }
    ensures tables { IsByTables None result }
    ensures answers { OfRun result }
    ensures grows { Grows S.tells (S.written out.old) (S.written out.new) }
    ensures covers { MarksCover (attached_files session.old.machine) (attached_files session.new.machine) }
    ensures kinds { kinds_of session.new.machine.units ≡ kinds_of session.old.machine.units }
{
    let stop = session.machine.run(limit, &mut session.watch, &session.keys, files, lines, out);
    if is_console_fault(stop) {
        return Err(CommandFault::Console);
    }
    note_stop(session, stop);
    let printed = put_stop(stop, &session.machine, out);
    told_or_console(printed, Next::Ran(stop))
}

// Notes the call on a file that failed, where a run stopped for it.
fn note_stop<U: Unit>(session: &mut Session<U>, stop: Stop)
    requires { 16 ≤ session.old.spare }
    ensures notes { session.new.notes ≡ session.old.notes
        ++ stop_notes (record { command = session.old.command; time = session.old.machine.time }) stop }
    ensures rest { session.new ≡ record session.old { notes = session.new.notes; spare = session.new.spare } }
{
    match stop {
        Stop::FileFault(fault) => {
            let stamp = stamp_of(session);
            keep(&mut session.notes, note_of(fault, stamp));
        }
        _ => (),
    }
}

// Whether a run ended since the console refused a byte.
fn is_console_fault(stop: Stop) -> bool
    ensures yes { result ≡ true → stop ≡ ConsoleFault }
    ensures no { result ≡ false → stop ≢ ConsoleFault }
{
    matches!(stop, Stop::ConsoleFault)
}
