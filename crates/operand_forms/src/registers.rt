ghost use Rattle.std.specs.Prelude.{◌≡◌, map, slice_get};
ghost use Rattle.unit_trait.specs.Processor.{register_name, all_registers};
ghost use Rattle.operand_forms.specs.Names.{register_names};
ghost use Rattle.operand_forms.specs.Operands.{register_named};

use crate::listing::Name;
use line_text::{Text, is_spelled};
use unit_trait::{CpuReg, reg_name};

/// The name of a register of the processor or of a device, by its number in order from 0; none past the last one.
pub fn register_name(device: Name, i: u8) -> Option<Text<8>>
    ensures { result ≡ slice_get (register_names device) i }
{
    match device {
        Name::Cpu => processor_name(i),
        Name::Device(kind) => reg_name(kind, i),
    }
}

// The name of a register of the processor.
fn processor_name(i: u8) -> Option<Text<8>>
    ensures { result ≡ slice_get (map register_name all_registers) i }
{
    match CpuReg::ALL.get(usize::from(i)) {
        Some(register) => {
            let mut text = Text::new();
            text.push_all(register.name().as_bytes());
            Some(text)
        }
        None => None,
    }
}

/// The number of a register, by its name in either case.
#[tactic(auto, unfolding(crate::specs::Operands::register_named))]
pub fn register_named(device: Name, word: &[u8]) -> Option<u8>
    ensures { result ≡ register_named device word.now }
{
    for i in 0..u8::MAX {
        match register_name(device, i) {
            Some(name) => {
                if is_spelled(word, name.as_slice()) {
                    return Some(i);
                }
            }
            None => return None,
        }
    }
    None
}
