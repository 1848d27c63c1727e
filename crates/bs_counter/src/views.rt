//! What a seat at a tally knows, and the rule that relates it to the word and the slots.
use crate::parted::Parted;
use atomic_table::TableRule;

/// What a seat knows. No value of this type is made.
pub enum SeatView {
    /// The seat is to finish the parts from the first number to the second, exclusive.
    Owes(u64, u64),
    /// The seat is finishing that part and holds its slot.
    Writes(u64),
    /// The seat finished its part while others were missing.
    Past,
    /// The seat finished the last part, and has taken that many outcomes, from part 0.
    Last(u64),
}

/// The rule of a tally. The key of its table is the number of parts.
pub struct TallyRule;

impl<T: Parted> TableRule<Option<T>, SeatView, usize> for TallyRule {
    ghost use Rattle.bs_counter.specs.Tally.{Tallied};
    ghost use Rattle.bs_counter.specs.declared.views.SeatView.TheVariants.{Owes};

    ghost holds = { λ n. Tallied T.part_of n };

    ghost first = { λ n. Owes 0 n };
}
