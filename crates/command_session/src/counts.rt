ghost use Rattle.std.specs.Prelude.{◌≡◌, ◌^◌, nat_le, ◌&&◌};

/// The largest count of a STEP, and the largest limit of a run.
pub const MOST_INSTRUCTIONS: u64 = 1 << 48;

/// Whether a run may execute that many instructions: 1 to 2^48.
pub fn is_count(count: u64) -> bool
    ensures { result ≡ (nat_le 1 count && nat_le count (2 ^ 48)) }
{
    1 <= count && count <= MOST_INSTRUCTIONS
}
