//! The keys of a tally.
ghost use Rattle.std.specs.Prelude.{◌≡◌};
ghost use Rattle.bs_counter.specs.Outcomes.{Finished};

use crate::finish::{Finish, Spent, fetch_all};
use crate::parted::Parted;
use crate::steps::{TallySeat, TallyTable, end, start};
use std::alloc::Global;
use std::fmt;
use std::fmt::{Debug, Formatter};
use std::marker::Model;
use std::sync::Arc;

/// The right to finish one part, once. Contracts see the part, the number of parts, the tally and
/// the seat.
#[derive(Drop)]
pub struct PartKey<T: Parted> {
    pub(crate) tally: Arc<TallyTable<T>, Global>,
    pub(crate) seat: TallySeat<T>,
    pub(crate) part: usize,
    pub(crate) parts: usize,
}

impl<T: Parted> Model for PartKey<T> {
    ghost use Rattle.std.specs.Arc.{arc_value};
    ghost use Rattle.bs_counter.specs.Keys.{Key};
    ghost use Rattle.bs_counter.specs.inner.Keys.{key_at, IsKeyAt};

    ghost Value = { Key };

    ghost view = { λ k. key_at k.part k.parts k.seat };

    ghost invariant = { λ k. IsKeyAt (arc_value k.tally).shared.table_id (arc_value k.tally).shared.key k.part k.parts k.seat };
}

impl<T: Parted + Drop> PartKey<T> {
    /// The number of the part.
    pub fn part(&self) -> usize
        ensures { result ≡ self.now.part }
    {
        self.part
    }

    /// Finishes the part with its outcome. The last finisher of a tally gets the outcomes of all
    /// parts. Takes no lock and no memory.
    pub fn finish(self, out: T) -> Finish<T>
        requires { T.part_of out ≡ self.part }
        ensures { Finished T.part_of self result }
    {
        let PartKey {
            tally,
            mut seat,
            part,
            parts,
        } = self;
        start(&tally, &mut seat, part as u64);
        if end(&tally, &mut seat, part as u64, out) == 1 {
            Finish::Last(fetch_all(&tally, &mut seat, parts))
        } else {
            Finish::More(Spent { seat })
        }
    }
}

impl<T: Parted> Debug for PartKey<T> {
    fn fmt<W: fmt::Write>(&self, f: &mut Formatter<W>) -> fmt::Result {
        f.debug_struct("PartKey").field("part", &self.part).finish()
    }
}
