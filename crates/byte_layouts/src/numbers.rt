// Numbers that are written behind what was written, their high bytes first.
ghost use Rattle.std.specs.Prelude.{◌≡◌, ◌++◌, OnOk};
ghost use Rattle.std.specs.Int.{w8, w16, w32, w64};
ghost use Rattle.byte_layouts.specs.Layout.{number_text};

use std::alloc::AllocError;

/// Writes a number of 8 bits.
#[tactic(auto, unfolding(crate::specs::Layout::number_text))]
pub fn put_u8(out: &mut Vec<u8>, n: u8) -> Result<(), AllocError>
    ensures { OnOk result (out.new.items ≡ out.old.items ++ number_text w8 n) }
{
    out.extend_from_slice(&n.to_be_bytes())
}

/// Writes a number of 16 bits.
#[tactic(auto, unfolding(crate::specs::Layout::number_text))]
pub fn put_u16(out: &mut Vec<u8>, n: u16) -> Result<(), AllocError>
    ensures { OnOk result (out.new.items ≡ out.old.items ++ number_text w16 n) }
{
    out.extend_from_slice(&n.to_be_bytes())
}

/// Writes a number of 32 bits.
#[tactic(auto, unfolding(crate::specs::Layout::number_text))]
pub fn put_u32(out: &mut Vec<u8>, n: u32) -> Result<(), AllocError>
    ensures { OnOk result (out.new.items ≡ out.old.items ++ number_text w32 n) }
{
    out.extend_from_slice(&n.to_be_bytes())
}

/// Writes a number of 64 bits.
#[tactic(auto, unfolding(crate::specs::Layout::number_text))]
pub fn put_u64(out: &mut Vec<u8>, n: u64) -> Result<(), AllocError>
    ensures { OnOk result (out.new.items ≡ out.old.items ++ number_text w64 n) }
{
    out.extend_from_slice(&n.to_be_bytes())
}
