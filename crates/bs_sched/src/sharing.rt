//! A core of one row, with the blocks that the row reserves, and what is left of a core.
ghost use Rattle.std.specs.Prelude.{◌≡◌, ◌+◌, ◌∷◌, ◌≤◌, [], true, length, IfOk, OnOk};
ghost use Rattle.bs_pool.specs.Ledger.{opened as new_pool, size};
ghost use Rattle.bs_sched.specs.Core.{opened_core};
ghost use Rattle.bs_registry.specs.Blocks.{blocks_of, blocks_of_all};

use crate::cores::{Core, LEAST_CAPACITY, MOST_WORKERS};
use crate::games::Games;
use crate::journal::Journal;
use bs_block::Block;
use bs_board::{Row, Rows};
use bs_pool::Pool;
use bs_registry::blocks_of;
use std::alloc::{AllocError, Global};

/// The list of that row alone.
fn lone_rows(alloc: Global, row: &Row) -> Result<Rows, AllocError>
    ensures { IfOk result (λ rows. rows ≡ row.now ∷ []) }
{
    let mut rows = Vec::with_capacity(alloc, 1)?;
    rows.push(row.copy(alloc)?)?;
    Ok(Rows::from_vec(rows))
}

impl<const CAP: usize> Core<CAP> {
    /// Opens a core of that row alone, with the blocks that the row reserves. Takes them from the
    /// list. The error is the allocator's.
    pub fn open_alone(
        alloc: Global,
        row: &Row,
        workers: usize,
        blocks: &mut Vec<Block<CAP>>,
    ) -> Result<Self, AllocError>
        requires wide { LEAST_CAPACITY ≤ CAP }
        requires workers { workers ≤ MOST_WORKERS }
        requires room { blocks_of CAP row.now ≤ length blocks.old.items }
        ensures core { IfOk result (λ core. core ≡ opened_core CAP (blocks_of CAP row.now) workers (row.now ∷ [])) }
        ensures blocks { OnOk result (length blocks.new.items + blocks_of CAP row.now ≡ length blocks.old.items) }
    {
        let rows = lone_rows(alloc, row)?;
        let pool = Pool::from_blocks(alloc, blocks, blocks_of(CAP, row))?;
        Core::open_in(alloc, rows, pool, workers)
    }

    pub(crate) fn into_games(self) -> Games<CAP>
        ensures { result ≡ self.entry.games }
    {
        let Core { games, .. } = self;
        games
    }

    pub(crate) fn into_games_and_journal(self) -> (Games<CAP>, Journal)
        ensures games { result.0 ≡ self.entry.games }
        ensures journal { result.1.events ≡ self.entry.journal }
    {
        let Core { games, journal, .. } = self;
        (games, journal)
    }
}
