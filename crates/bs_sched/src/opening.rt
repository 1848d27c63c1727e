//! Opening a core: a stay for each row of its plan, and the reserved blocks.
ghost use Rattle.std.specs.Prelude.{◌≡◌, ◌≤◌, ◌<◌, true, All, IfOk, IfErr, OnOk};
ghost use Rattle.bs_block.specs.Bytes.{IsCapacity};
ghost use Rattle.bs_pool.specs.Ledger.{opened as new_pool, size};
ghost use Rattle.bs_sched.specs.Core.{opened_core};
ghost use Rattle.bs_sched.specs.Journal.{IsItsJournal};
ghost use Rattle.bs_sched.specs.Lane.{is_idle};
ghost use Rattle.bs_sched.specs.inner.Journal.{core_of};
ghost use Rattle.bs_registry.specs.Blocks.{blocks_of_all};
ghost use Rattle.bs_sched.specs.declared.opening.Open.TheVariants as cause;

use crate::cores::{Core, LEAST_CAPACITY, MOST_SPARES, MOST_WORKERS};
use crate::games::Games;
use crate::journal::Journal;
use bs_board::{Plan, Rows};
use bs_pool::Pool;
use bs_registry::blocks_of_all;
use std::alloc::{AllocError, Global};
use thiserror::Error;

/// Why a core can't be opened.
#[derive(Clone, Copy, Debug, PartialEq, Eq, Error)]
pub enum Open {
    /// The plan's games reserve more blocks than there are.
    #[error("too few blocks for the plan")]
    Short,
    #[error("out of memory")]
    Memory,
}

impl From<AllocError> for Open {
    ghost from_gives = { λ _ error. error ≡ cause.Memory };

    fn from(_error: AllocError) -> Open {
        Open::Memory
    }
}

impl<const CAP: usize> Core<CAP> {
    /// Opens a core with `blocks` blocks, and makes each game's reservations. Workers are numbered
    /// from 0 to `workers`; the last is the caller's own. `Short` if the plan reserves more blocks
    /// than there are.
    pub fn open(alloc: Global, plan: Plan, blocks: usize, workers: usize) -> Result<Self, Open>
        requires capacity { IsCapacity CAP }
        requires wide { LEAST_CAPACITY ≤ CAP }
        requires workers { workers ≤ MOST_WORKERS }
        ensures core { IfOk result (λ core. core ≡ opened_core CAP blocks workers plan.rows) }
        ensures room { OnOk result (blocks_of_all CAP plan.rows ≤ blocks) }
        ensures short { IfErr result (λ fault. fault ≡ cause.Short → blocks < blocks_of_all CAP plan.rows) }
    {
        let games = Games::open(alloc, plan, blocks, workers)?;
        Ok(Core::of_games(alloc, games, Journal::new(alloc))?)
    }

    /// Opens a core over a new pool.
    pub(crate) fn open_in(
        alloc: Global,
        rows: Rows,
        pool: Pool<CAP>,
        workers: usize,
    ) -> Result<Self, AllocError>
        requires wide { LEAST_CAPACITY ≤ CAP }
        requires workers { workers ≤ MOST_WORKERS }
        requires pool { pool ≡ new_pool (size pool) }
        requires room { blocks_of_all CAP rows ≤ size pool }
        ensures { IfOk result (λ core. core ≡ opened_core CAP (size pool.entry) workers rows) }
    {
        let _rows = rows.as_slice();
        let games = Games::open_in(alloc, rows, pool, workers)?;
        Core::of_games(alloc, games, Journal::new(alloc))
    }

    /// Makes a core of games without a job in progress, and of the events that lead to them.
    pub(crate) fn of_games(
        alloc: Global,
        games: Games<CAP>,
        journal: Journal,
    ) -> Result<Self, AllocError>
        requires journal { IsItsJournal CAP (core_of games journal.events) }
        requires room { journal.used ≤ journal.room }
        requires idle { All (λ x. is_idle x.stage ≡ true) games.lanes }
        ensures { IfOk result (λ core. core ≡ core_of games.entry journal.events) }
    {
        Ok(Core {
            games,
            journal,
            out: 0,
            cursor: 0,
            spares: Vec::with_capacity(alloc, MOST_SPARES)?,
        })
    }
}
