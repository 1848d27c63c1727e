//! Stays that were played alone, put together to the core of all of them: no event and no record is
//! copied.
ghost use Rattle.std.specs.Prelude.{◌≡◌, ◌+◌, List, ◌≤◌, length, map, IfOk};
ghost use Rattle.bs_sched.specs.Assembly.{setting_with};
ghost use Rattle.bs_sched.specs.Core.{opened_core, without_tallies};
ghost use Rattle.bs_pool.specs.Ledger.{size};
ghost use Rattle.bs_sched.specs.SharedMemory.{IsHosted};
ghost use Rattle.bs_sched.specs.StaysApart.{PlayedStay, stays_assembled};
ghost use Rattle.bs_sched.specs.StaysHeld.{AreHeld, WerePlayed, blocks_held};
ghost use Rattle.bs_sched.specs.declared.event.Event.{Event};

use crate::cores::{Core, MOST_WORKERS};
use crate::games::Games;
use crate::gathering::{GatheredStays, gather_stays};
use crate::journal::Journal;
use crate::lone_stay::LoneStay;
use crate::step::Step;
use bs_block::Block;
use bs_board::Rows;
use bs_pool::Assembly;
use std::alloc::{AllocError, Global};

/// What is left of a newly opened core, all whose stays are played in cores of their own.
#[derive(Drop)]
pub struct Rest<const CAP: usize> {
    /// The rows of its plan.
    pub rows: Rows,
    /// The number of its last worker.
    pub workers: usize,
    /// The number of its blocks.
    pub blocks: usize,
    /// The blocks that no stay has.
    pub free: Vec<Block<CAP>>,
}

impl<const CAP: usize> Core<CAP> {
    /// Takes a newly opened core apart: all its blocks are free. The error is the allocator's.
    pub fn into_rest(self, alloc: Global) -> Result<Rest<CAP>, AllocError>
        requires { self ≡ opened_core CAP (size self.games.storage.pool) self.games.workers self.games.rows }
        ensures rows { IfOk result (λ rest. rest.rows ≡ self.entry.games.rows) }
        ensures workers { IfOk result (λ rest. rest.workers ≡ self.entry.games.workers) }
        ensures few { IfOk result (λ rest. rest.workers ≤ MOST_WORKERS) }
        ensures blocks { IfOk result (λ rest. rest.blocks ≡ size self.entry.games.storage.pool) }
        ensures hosted { IfOk result (λ rest. IsHosted (setting_with CAP rest.blocks rest.workers) rest.rows) }
        ensures free { IfOk result (λ rest. length rest.free.items ≡ rest.blocks) }
    {
        let _events = self.journal();
        let workers = self.workers();
        let blocks = self.counts().size;
        let (rows, pool) = self.into_games().into_rows_and_pool();
        let free = pool.into_blocks(alloc)?;
        Ok(Rest {
            rows,
            workers,
            blocks,
            free,
        })
    }

    /// Puts stays together to the core of all of them, once each was played alone: those of the
    /// plan, then the admitted ones. The blocks of the stays that left are among `rest.free` again.
    /// The acts of the file are in `order`. The error is the allocator's.
    pub fn assemble_stays(
        alloc: Global,
        rest: Rest<CAP>,
        stays: Vec<LoneStay<CAP>>,
        order: Vec<Step>,
    ) -> Result<Self, AllocError>
        requires workers { rest.workers ≤ MOST_WORKERS }
        requires hosted { IsHosted (setting_with CAP rest.blocks rest.workers) rest.rows }
        requires blocks { length rest.free.items + blocks_held stays.items ≡ rest.blocks }
        requires held { AreHeld CAP rest.blocks rest.workers rest.rows stays.items order.items }
        ensures { IfOk result (λ core. (acts : List Event) (played : List PlayedStay)
            → WerePlayed CAP rest.entry.blocks rest.entry.workers rest.entry.rows stays.entry.items order.items acts played
            → without_tallies core ≡ stays_assembled rest.entry.blocks rest.entry.workers rest.entry.rows acts played) }
    {
        let Rest {
            rows,
            workers,
            blocks,
            free,
        } = rest;
        let start = GatheredStays {
            list: Vec::with_capacity(alloc, stays.len())?,
            journals: Vec::with_capacity(alloc, stays.len())?,
            assembly: Assembly::new(alloc, blocks, free)?,
        };
        let GatheredStays {
            list,
            journals,
            assembly,
        } = gather_stays(alloc, start, stays)?;
        let journal = Journal::unmerged(alloc, order, journals);
        let pool = assembly.finish(alloc)?;
        let games = Games::of_list(alloc, rows, workers, list, pool)?;
        Core::of_games(alloc, games, journal)
    }
}
