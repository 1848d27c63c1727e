//! The unit of sizes in a block.
ghost use Rattle.std.specs.Prelude.{◌≡◌, ◌+◌, ◌≤◌, ◌^◌};
ghost use Rattle.bs_block.specs.Rounding.{rounded, IsLeastMultiple};

/// The unit, in bytes, of sizes in a block and of its capacity.
pub const UNIT: usize = 16;

/// The size that `n` bytes take in a block: the least multiple of `UNIT` not below `n`.
#[tactic(auto, unfolding(crate::specs::Rounding::rounded))]
pub fn round_up(n: usize) -> usize
    requires { n + UNIT ≤ 2 ^ 64 }
    ensures value { result ≡ rounded n }
    ensures least { IsLeastMultiple UNIT n result }
{
    (n + (UNIT - 1)) / UNIT * UNIT
}
