// ECHO and ASSERT.
ghost use Rattle.std.specs.Prelude.{◌≡◌, ◌++◌, ◌∷◌, Bool, [], IsTrue};
ghost use Rattle.fault_counts.specs.Faults.{CountsFault};
ghost use Rattle.file_traits.specs.Streams.{Puts};
ghost use Rattle.operand_forms.specs.Forms.{IsTested};
ghost use Rattle.host_lines.specs.Told.{Heard};
ghost use Rattle.nova_machine.specs.Comes.{Output, output};
ghost use Rattle.command_session.specs.Live.{Live, standing, live_in, Beyond};
ghost use Rattle.plain_commands.specs.ScriptEffects.{echo_reply, assert_answer, assert_reply};
ghost use Rattle.command_session.specs.Doing.{Does, ConsoleCounts, IsShown, IsPlain, IsExitAnswer};

use crate::list_commands::lacks_device;
use crate::list_faults::fault_of_list;
use command_session::{CommandFault, Next, Session, told_or_console};
use file_traits::{Failed, Sink, put_pieces};
use nova_machine::Machine;
use scp_examine::holds;
use scp_parser::Test;
use unit_trait::Unit;

/// ECHO prints its text and a newline.
pub fn echo<S: Sink>(text: &[u8], out: &mut S) -> Result<Next, CommandFault>
    ensures told { (live : Live) (heard : Heard) → Does (echo_reply live text.now) result (standing 0 live) S.tells
        (output (S.written out.old) heard) (output (S.written out.new) heard) }
    ensures counts { ConsoleCounts result (S.fault_count out.old) (S.fault_count out.new) }
    ensures own { IsShown result }
    ensures exit { IsExitAnswer result }
{
    let printed = put_line(text, out);
    told_or_console(printed, Next::Go)
}

// Prints a text and a newline.
fn put_line<S: Sink>(text: &[u8], out: &mut S) -> Result<(), Failed>
    ensures told { IsTrue S.tells → Puts (S.written out.old) (text.now ++ 10 ∷ []) result (S.written out.new) }
    ensures counts { CountsFault (S.fault_count out.old) (S.fault_count out.new) result }
{
    put_pieces(out, &[text, b"\n"])
}

/// ASSERT is refused as `AssertFailed` where its condition is false. Before that come the faults of its item and of its
/// condition, and `NoSuchName` where the machine has no unit of its device. It prints nothing, and changes nothing.
pub fn assert_condition<U: Unit>(session: &Session<U>, what: &Test) -> Result<Next, CommandFault>
    requires { IsTested what.now.item }
    ensures told { (files : Beyond) (tells : Bool) (text : Output)
        → Does (assert_reply (live_in session.now files) what.now) result (standing 0 (live_in session.now files))
        tells text text }
    ensures own { IsPlain result }
    ensures exit { IsExitAnswer result }
{
    tested_answer(&session.machine, what)
}

fn tested_answer<U: Unit>(machine: &Machine<U>, what: &Test) -> Result<Next, CommandFault>
    requires { IsTested what.now.item }
    ensures { result ≡ assert_answer machine.now what.now }
{
    if lacks_device(machine, what.device) {
        return Err(CommandFault::NoSuchName);
    }
    match holds(machine, what) {
        Ok(true) => Ok(Next::Go),
        Ok(false) => Err(CommandFault::AssertFailed),
        Err(fault) => Err(fault_of_list(fault)),
    }
}
