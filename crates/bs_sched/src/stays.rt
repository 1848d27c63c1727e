//! Stays that are admitted and leave.
ghost use Rattle.std.specs.Prelude.{◌≡◌, ◌<◌, true, length, Some, IfOk, OnOk, OnErr};
ghost use Rattle.bs_board.specs.plans.Plan.{is_fit_row};
ghost use Rattle.bs_sched.specs.Coming.{Admits, IsFirstRefusal, Leaves};
ghost use Rattle.bs_sched.specs.Core.{core_after};
ghost use Rattle.bs_sched.specs.Lane.{may_leave};
ghost use Rattle.bs_sched.specs.Machine.{lane_of, may_admit};
ghost use Rattle.bs_sched.specs.Games.{setting_of};
ghost use Rattle.bs_sched.specs.declared.event.Event.TheVariants as event;
ghost use Rattle.bs_sched.specs.declared.stays.Admit.TheVariants as admit;
ghost use Rattle.bs_sched.specs.declared.stays.Leave.TheVariants as leave;

use crate::cores::Core;
use crate::event::Event;
use crate::shared_row::SharedRow;
use bs_board::Row;
use bs_registry::Refusal;
use std::alloc::{AllocError, Global};
use thiserror::Error;

/// Why a stay is not admitted, in the order in which the reasons are judged.
#[derive(Clone, Copy, Debug, PartialEq, Eq, Error)]
pub enum Admit {
    /// An open stay has the name.
    #[error("an open stay has this name")]
    NameOpen,
    /// 64 stays are open, or no row is left.
    #[error("no more stays can be opened")]
    Full,
    /// The stay needs more blocks than are free to reserve, which are `free_to_reserve`.
    #[error("no more than {free_to_reserve} blocks are free to reserve")]
    Short { free_to_reserve: usize },
    #[error("out of memory")]
    Memory,
}

impl From<AllocError> for Admit {
    ghost from_gives = { λ _ error. error ≡ admit.Memory };

    fn from(_error: AllocError) -> Admit {
        Admit::Memory
    }
}

impl From<Refusal> for Admit {
    ghost from_gives = { λ refusal error. IsFirstRefusal (Some refusal) error };

    fn from(refusal: Refusal) -> Admit {
        match refusal {
            Refusal::NameOpen => Admit::NameOpen,
            Refusal::Full => Admit::Full,
            Refusal::Short { free_to_reserve } => Admit::Short { free_to_reserve },
        }
    }
}

/// Why a stay can't leave, in the order in which the reasons are judged.
#[derive(Clone, Copy, Debug, PartialEq, Eq, Error)]
pub enum Leave {
    /// It has left before.
    #[error("the stay is closed")]
    Closed,
    /// A command is not answered yet.
    #[error("a command of the stay is not answered yet")]
    Busy,
    #[error("out of memory")]
    Memory,
}

impl From<AllocError> for Leave {
    ghost from_gives = { λ _ error. error ≡ leave.Memory };

    fn from(_error: AllocError) -> Leave {
        Leave::Memory
    }
}

/// Does nothing. Gives the prover the limits of a row, which its type guarantees.
fn keeps_row(row: &Row)
    ensures { is_fit_row row.now ≡ true }
{
    let _quota = row.quota;
}

impl<const CAP: usize> Core<CAP> {
    /// Opens a stay that may be admitted.
    fn open_stay(&mut self, alloc: Global, row: Row) -> Result<usize, AllocError>
        requires { may_admit (setting_of CAP self.old.games) self.old.games.lanes row ≡ true }
        ensures row { IfOk result (λ game. game ≡ length self.old.games.lanes) }
        ensures ok { OnOk result (self.new ≡ core_after CAP self.old (event.Admit row)) }
        ensures err { OnErr result (self.new ≡ self.old) }
    {
        keeps_row(&row);
        let noted = SharedRow::new(alloc, row.copy(alloc)?)?;
        self.journal.reserve(self.out, 1)?;
        let game = self.games.admit(alloc, row)?;
        self.journal.note(Event::Admit(noted));
        Ok(game)
    }

    /// Opens a stay in the next row, reserves its blocks, and returns the row. After a refusal the
    /// core is unchanged.
    pub fn admit(&mut self, alloc: Global, row: Row) -> Result<usize, Admit>
        ensures { Admits CAP self.old row result self.new }
    {
        if let Some(refusal) = self.games.refusal(&row) {
            return Err(Admit::from(refusal));
        }
        Ok(self.open_stay(alloc, row)?)
    }

    /// Closes a stay, which no refusal forbids.
    fn close_stay(&mut self, game: usize) -> Result<(), AllocError>
        requires game { game < length self.old.games.lanes }
        requires may { may_leave (lane_of self.old.games.lanes game) ≡ true }
        ensures ok { OnOk result (self.new ≡ core_after CAP self.old (event.Leave game)) }
        ensures err { OnErr result (self.new ≡ self.old) }
    {
        let row = self.games.row_number(game);
        self.journal.reserve(self.out, 1)?;
        self.games.leave(game);
        self.journal.note(Event::Leave(row));
        Ok(())
    }

    /// Closes the stay of that row, frees its blocks and ends their reservations. Its last board
    /// and its charge are kept. After a refusal the core is unchanged.
    pub fn leave(&mut self, _alloc: Global, game: usize) -> Result<(), Leave>
        requires { game < length self.old.games.lanes }
        ensures { Leaves CAP self.old game result self.new }
    {
        if !self.games.game(game).is_open() {
            return Err(Leave::Closed);
        }
        if !self.games.game(game).is_quiet() {
            return Err(Leave::Busy);
        }
        self.close_stay(game)?;
        Ok(())
    }
}
