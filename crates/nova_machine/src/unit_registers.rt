ghost use Rattle.std.specs.Prelude.{◌≡◌, ◌↔◌, IfOk, IsOk, OnOk, OnErr, IsTrue, is_some};

use crate::machine::Machine;
use std::alloc::{AllocError, Global};
use unit_list::{has_unit, reg_at, regs_at, set_reg_at, set_regs_at};
use unit_trait::{Kind, RegFault, Unit, code_of};

impl<U: Unit> Machine<U> {
    ghost use Rattle.unit_trait.specs.Kinds.{code_of};
    ghost use Rattle.unit_trait.specs.Registers.{registers};
    ghost use Rattle.unit_trait.specs.Row.{InRange};
    ghost use Rattle.unit_list.specs.Bus.{unit_at, register_in, takes_value_in, with_register_in};
    ghost use Rattle.unit_list.specs.Whole.{registers_in, with_registers_in};

    /// Whether there is a unit of that kind.
    pub fn has_unit(&self, kind: Kind) -> bool
        ensures { result ≡ is_some (unit_at (code_of kind) self.now.units) }
    {
        has_unit(&self.places, self.units.as_slice(), code_of(kind))
    }

    /// What a register of a unit holds, by its number from 0; none where there is no such unit or register.
    pub fn unit_reg(&self, kind: Kind, i: u8) -> Option<u32>
        ensures { result ≡ register_in kind i self.now.units }
    {
        reg_at(&self.places, self.units.as_slice(), kind, i)
    }

    /// Sets a register of a unit, by its number from 0. A value outside its limits is refused, and so is every value
    /// where there is no such unit or register; nothing has changed then. No event changes.
    pub fn set_unit_reg(&mut self, kind: Kind, i: u8, value: u32) -> Result<(), RegFault>
        ensures fits { IsOk result ↔ IsTrue (takes_value_in kind i value self.old.units) }
        ensures set { OnOk result (self.new ≡ record self.old { units = with_register_in kind i value self.old.units }) }
        ensures refused { OnErr result (self.new ≡ self.old) }
    {
        self.quiet = false;
        set_reg_at(&self.places, self.units.as_mut_slice(), kind, i, value)
    }

    /// What all registers of a unit hold, in the order of their numbers; nothing where there is no such unit. The error
    /// is that there was no memory for them.
    pub fn unit_regs(&self, alloc: Global, kind: Kind) -> Result<Vec<u32>, AllocError>
        ensures { IfOk result (λ values. values.items ≡ registers_in kind self.now.units) }
    {
        regs_at(alloc, &self.places, self.units.as_slice(), kind)
    }

    /// Sets all registers of a unit, in the order of their numbers, to values within their limits. Nothing changes
    /// where there is no such unit. No event changes.
    pub fn set_unit_regs(&mut self, kind: Kind, values: &[u32])
        requires { InRange (registers kind) values.now }
        ensures { self.new ≡ record self.old { units = with_registers_in kind values.now self.old.units } }
    {
        self.quiet = false;
        set_regs_at(&self.places, self.units.as_mut_slice(), kind, values);
    }
}
