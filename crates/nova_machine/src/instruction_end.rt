ghost use Rattle.std.specs.Prelude.{◌≡◌, ◌≢◌, Some, IfSome};
ghost use Rattle.nova_machine.specs.declared.machine.Stop.TheVariants.{ConsoleFault};
ghost use Rattle.nova_machine.specs.Ends.{end_stop};
ghost use Rattle.nova_machine.specs.Parts.{stop_of};
ghost use Rattle.nova_machine.specs.Wants.{HasUnit};

use crate::machine::{Stop, Turn};

/// What an instruction came to. It is small, since each instruction answers one.
#[derive(Clone, Copy)]
pub enum InstructionEnd {
    Executed,
    Halt,
    ChainLimit,
    UnknownDevice,
}

impl InstructionEnd {
    /// The turn that ends so.
    #[inline]
    pub fn turn(self) -> Turn
        ensures stop { stop_of result ≡ end_stop self }
        ensures other { stop_of result ≢ Some ConsoleFault }
        ensures unit { IfSome (stop_of result) HasUnit }
    {
        match self {
            InstructionEnd::Executed => Turn::Executed,
            InstructionEnd::Halt => Turn::Stopped(Stop::Halt),
            InstructionEnd::ChainLimit => Turn::Stopped(Stop::ChainLimit),
            InstructionEnd::UnknownDevice => Turn::Stopped(Stop::UnknownDevice),
        }
    }
}
