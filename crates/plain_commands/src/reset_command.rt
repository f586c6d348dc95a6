ghost use Rattle.std.specs.Prelude.{◌≡◌, Bool};
ghost use Rattle.nova_machine.specs.Machine.{reset_machine};
ghost use Rattle.nova_machine.specs.Comes.{Output};
ghost use Rattle.command_session.specs.Live.{live_in, standing, Beyond};
ghost use Rattle.command_session.specs.RunEffects.{reset_reply};
ghost use Rattle.command_session.specs.Doing.{Does, IsRefused};
ghost use Rattle.command_session.specs.Doing.{IsPlain, IsExitAnswer};

use command_session::{CommandFault, Next, Session};
use unit_trait::Unit;

/// RESET resets the machine. It prints nothing.
#[tactic(auto, unfolding(command_session::specs::RunEffects::reset_reply))]
pub fn reset<U: Unit>(session: &mut Session<U>) -> Result<Next, CommandFault>
    ensures told { (files : Beyond) (tells : Bool) (text : Output)
        → Does (reset_reply (live_in session.old files)) result (standing 0 (live_in session.new files)) tells text text }
    ensures never { IsRefused result → ⊥ }
    ensures own { IsPlain result }
    ensures exit { IsExitAnswer result }
    ensures rest { session.new ≡ record session.old { machine = reset_machine session.old.machine } }
{
    session.machine.reset();
    Ok(Next::Go)
}
