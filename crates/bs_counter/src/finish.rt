//! The outcome of finishing a part.
ghost use Rattle.std.specs.Prelude.{◌≡◌, ◌≤◌};
ghost use Rattle.bs_counter.specs.Tally.{IsSeatAt};
ghost use Rattle.bs_counter.specs.Outcomes.{AreOutcomes};
ghost use Rattle.bs_counter.specs.declared.views.SeatView.TheVariants.{Last};

use crate::parted::Parted;
use crate::steps::{TallySeat, TallyTable, fetch};
use arrayvec::ArrayVec;

/// The seat of a key whose part is finished.
#[derive(Drop)]
pub struct Spent<T> {
    pub(crate) seat: TallySeat<T>,
}

/// The answer of `PartKey::finish`.
#[derive(Drop)]
pub enum Finish<T> {
    /// Other parts are still missing.
    More(Spent<T>),
    /// No part is missing: the outcomes of all parts, in part order.
    Last(ArrayVec<Option<T>, 4>),
}

/// Takes the outcomes of all parts out of their slots.
pub(crate) fn fetch_all<T: Parted + Drop>(
    tally: &TallyTable<T>,
    seat: &mut TallySeat<T>,
    parts: usize,
) -> ArrayVec<Option<T>, 4>
    requires seat { IsSeatAt tally.now.shared.table_id seat.old }
    requires all { tally.now.shared.key ≡ parts }
    requires few { parts ≤ 4 }
    requires last { seat.old.me.0 ≡ Last 0 }
    ensures { AreOutcomes T.part_of parts result.items }
{
    let mut outs = ArrayVec::new();
    for part in 0..parts {
        outs.push(Some(fetch(tally, seat, part as u64)));
    }
    outs
}
