//! What each step at a tally establishes. These types are for the proofs alone.
ghost use Rattle.bs_counter.specs.Tally.{started, ended, fetched, without_first, first_alone};

use crate::parted::Parted;
use crate::views::SeatView;
use atomic_table::{Play, Split};

/// Takes the empty slot of the seat's part.
pub struct Start;

impl<T> Play<Option<T>, SeatView> for Start {
    ghost then = { started };
}

/// Returns the slot and decrements the word.
pub struct End;

impl<T> Play<Option<T>, SeatView> for End {
    ghost then = { ended };
}

/// Takes the next filled slot, for the last finisher.
pub struct Fetch;

impl<T: Parted> Play<Option<T>, SeatView> for Fetch {
    ghost then = { fetched T.part_of };
}

/// Splits the first part off to a new seat.
pub struct FirstPart;

impl Split<SeatView> for FirstPart {
    ghost left = { without_first };

    ghost right = { first_alone };
}
