//! A law of the definitions, the contract of a function that does nothing.

ghost use Rattle.bs_batch.specs.Lasting.{FirstLaw};

/// States that the board of a new game is one of those on which each later turn of
/// `step_small` and `step_large` is exact. Does nothing.
pub fn first_law()
    ensures { FirstLaw }
{}
