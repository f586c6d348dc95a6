// What is known of the units at a position in bus order.
ghost use Rattle.std.specs.Prelude.{◌≡◌, ◌≤◌};
ghost use Rattle.saved_session.specs.Ranges.{kind_at, register_count, holds_value, longest_file_of, only_writes};

use unit_trait::{Kind, reg_limit};

/// The kinds, in bus order.
const KINDS: [Kind; 11] = [
    Kind::Dsk,
    Kind::Mta,
    Kind::Lpt,
    Kind::Ptr,
    Kind::Ptp,
    Kind::Clk,
    Kind::Tti,
    Kind::Tto,
    Kind::Tti1,
    Kind::Tto1,
    Kind::Qty,
];

/// The kind at a position.
#[tactic(auto, unfolding(crate::specs::Ranges::kind_at))]
pub fn kind_at(position: u8) -> Kind
    ensures { result ≡ kind_at position }
{
    match KINDS.get(usize::from(position)) {
        Some(kind) => *kind,
        None => Kind::Qty,
    }
}

/// How many registers the units of a kind have.
#[tactic(auto, using(unit_trait::proofs::LineRegisters::line_registers), unfolding(crate::specs::Ranges::register_count))]
pub fn register_count(kind: Kind) -> u8
    ensures count { result ≡ register_count kind }
    ensures few { result ≤ 131 }
{
    match kind {
        Kind::Dsk => 8,
        Kind::Mta => 17,
        Kind::Lpt | Kind::Ptr | Kind::Ptp => 6,
        Kind::Clk => 3,
        Kind::Tti | Kind::Tto | Kind::Tti1 | Kind::Tto1 => 4,
        Kind::Qty => 131,
    }
}

/// Whether a register of a kind can hold a value.
#[tactic(auto, unfolding(crate::specs::Ranges::holds_value))]
pub fn holds_value(kind: Kind, i: u8, value: u32) -> bool
    ensures { result ≡ holds_value kind i value }
{
    match reg_limit(kind, i) {
        Some((least, largest)) => least <= value && value <= largest,
        None => false,
    }
}

/// Whether the units of a kind write their files and never read them.
pub fn only_writes(kind: Kind) -> bool
    ensures { result ≡ only_writes kind }
{
    matches!(kind, Kind::Lpt | Kind::Ptp)
}

/// How many bytes the file of a unit has at most.
#[tactic(auto, unfolding(crate::specs::Ranges::longest_file_of))]
pub fn longest_file_of(kind: Kind) -> u64
    ensures { result ≡ longest_file_of kind }
{
    match kind {
        Kind::Dsk => 4194304,
        Kind::Mta => 67108864,
        _ => 16777216,
    }
}
