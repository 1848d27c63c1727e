//! The name of a tally.
use crate::steps::TallySeat;
use std::fmt;
use std::fmt::{Debug, Formatter};
use std::marker::Model;

/// Says which tally it is. It gives no right there, and has no bytes. Contracts see the tally.
#[derive(Drop)]
pub struct TallyName<T> {
    pub(crate) seat: TallySeat<T>,
}

impl<T> Model for TallyName<T> {
    ghost use Rattle.bs_counter.specs.Keys.{TallyId};

    ghost Value = { TallyId };

    ghost view = { λ n. n.seat.table_id };
}

impl<T> Debug for TallyName<T> {
    fn fmt<W: fmt::Write>(&self, f: &mut Formatter<W>) -> fmt::Result {
        f.debug_struct("TallyName").finish()
    }
}
