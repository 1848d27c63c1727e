//! A tally is a set of missing parts.
ghost use Rattle.std.specs.Prelude.{ℕ, Option};
ghost use Rattle.atomic_table.specs.Table.{State};
ghost use Rattle.bs_counter.specs.declared.views.SeatView.{SeatView};
ghost use Rattle.bs_counter.specs.Missing.{IsSet};
ghost use Rattle.bs_counter.specs.Tally.{Tallied};

use crate::parted::Parted;

/// Every state that the rule allows is a set of missing parts. The word is 0 exactly where the set
/// is empty, and a seat that finishes its part removes that part and no other. Where no part is
/// missing exactly one seat is the last finisher, else none.
pub fn tally_law<T: Parted>()
    ensures { (n : ℕ) (s : State (Option T) SeatView) → Tallied T.part_of n s → IsSet s }
{}
