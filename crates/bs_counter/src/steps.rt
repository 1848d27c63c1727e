//! The single steps at a tally. Each is one atomic access to the word, and an access to a slot that
//! the calling seat holds alone.
ghost use Rattle.std.specs.Prelude.{◌≡◌, ◌≢◌, ◌+◌, ◌<◌, [], ◌∷◌, Some, None};
ghost use Rattle.bs_counter.specs.Tally.{IsSeatAt, IsSameSeat};
ghost use Rattle.bs_counter.specs.declared.views.SeatView.TheVariants.{Owes, Writes, Past, Last};

use crate::parted::Parted;
use crate::plays::{End, Fetch, FirstPart, Start};
use crate::views::{SeatView, TallyRule};
use atomic_table::{Seat, Table};
use std::alloc::Global;

/// One word, the number of missing parts, and one slot for the outcome of each part.
pub type TallyTable<T> = Table<Option<T>, SeatView, usize, TallyRule, Global>;

/// A seat at that table.
pub type TallySeat<T> = Seat<Option<T>, SeatView>;

/// Splits the first of the seat's parts off to a new seat.
pub(crate) fn split<T: Parted>(
    tally: &TallyTable<T>,
    seat: &mut TallySeat<T>,
    part: u64,
    end: u64,
) -> TallySeat<T>
    requires seat { IsSeatAt tally.now.shared.table_id seat.old }
    requires owes { seat.old.me ≡ (Owes part end, []) }
    requires some { part < end }
    ensures seat { IsSameSeat seat.old seat.new }
    ensures left { seat.new.me ≡ (Owes (part + 1) end, []) }
    ensures result { IsSeatAt tally.now.shared.table_id result }
    ensures right { result.me ≡ (Owes part (part + 1), []) }
{
    tally.shared.split_seat::<FirstPart>(seat)
}

/// Takes the empty slot of the seat's part.
pub(crate) fn start<T: Parted>(tally: &TallyTable<T>, seat: &mut TallySeat<T>, part: u64)
    requires seat { IsSeatAt tally.now.shared.table_id seat.old }
    requires owes { seat.old.me ≡ (Owes part (part + 1), []) }
    ensures seat { IsSameSeat seat.old seat.new }
    ensures writes { seat.new.me ≡ (Writes part, (part, None) ∷ []) }
{
    tally.shared.load::<Start>(seat, 0);
}

/// Writes the outcome into the slot, returns the slot and decrements the word. The result is the
/// word before that: 1 for the last finisher.
pub(crate) fn end<T: Parted>(
    tally: &TallyTable<T>,
    seat: &mut TallySeat<T>,
    part: u64,
    out: T,
) -> u64
    requires seat { IsSeatAt tally.now.shared.table_id seat.old }
    requires writes { seat.old.me ≡ (Writes part, (part, None) ∷ []) }
    requires part { T.part_of out ≡ part }
    ensures seat { IsSameSeat seat.old seat.new }
    ensures last { result ≡ 1 → seat.new.me ≡ (Last 0, []) }
    ensures more { result ≢ 1 → seat.new.me ≡ (Past, []) }
{
    match tally.shared.exchange(seat, part as usize, Some(out)) {
        None => {}
        Some(_) => unreachable!(),
    }
    tally.shared.fetch_sub::<End>(seat, 0, 1)
}

/// Takes the outcome of the part out of its slot.
pub(crate) fn fetch<T: Parted>(tally: &TallyTable<T>, seat: &mut TallySeat<T>, part: u64) -> T
    requires seat { IsSeatAt tally.now.shared.table_id seat.old }
    requires there { part < tally.now.shared.key }
    requires last { seat.old.me.0 ≡ Last part }
    ensures seat { IsSameSeat seat.old seat.new }
    ensures last { seat.new.me.0 ≡ Last (part + 1) }
    ensures part { T.part_of result ≡ part }
{
    tally.shared.load::<Fetch>(seat, 0);
    tally.shared.exchange(seat, part as usize, None).unwrap()
}
