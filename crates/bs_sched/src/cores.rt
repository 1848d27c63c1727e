//! The core: all stays, and the journal of their events.
ghost use Rattle.std.specs.Prelude.{◌≡◌, ◌+◌, ◌<◌, ◌≤◌, [], ◌++◌, true, length, slice_index_or, map, option_map, IfOk, OnOk, OnErr};
ghost use Rattle.std.specs.List.{list_all};
ghost use Rattle.bs_board.specs.plans.Plan.{IsFitPlan};
ghost use Rattle.bs_game.specs.Game.{game_charge, last_board};
ghost use Rattle.bs_pool.specs.Ledger.{free, size};
ghost use Rattle.bs_sched.specs.Core.{core_after};
ghost use Rattle.bs_sched.specs.Courses.{IsRight};
ghost use Rattle.bs_sched.specs.Registry.{rows_in};
ghost use Rattle.bs_sched.specs.Journal.{IsItsJournal, KeepsApart};
ghost use Rattle.bs_sched.specs.Lane.{is_quiet, kept_of};
ghost use Rattle.bs_sched.specs.Machine.{lane_of};
ghost use Rattle.bs_sched.specs.declared.event.Event.TheVariants as event;

use crate::event::Event;
use crate::fiber::keeps_limits;
use crate::games::Games;
use crate::journal::Journal;
use bs_board::{Board, KeptBoard, Reply, Row};
use bs_fiber::{Contents, SharedCommand};
use std::alloc::{AllocError, Global};
use std::marker::Model;

/// The block counts of a core.
#[derive(Clone, Copy, Debug, PartialEq, Eq)]
pub struct Counts {
    /// The free blocks.
    pub free: usize,
    /// The blocks that games own, for records and for the parts of moves.
    pub held: usize,
    /// All blocks.
    pub size: usize,
}

/// The least size of a block in bytes, twice that of the largest record.
pub const LEAST_CAPACITY: usize = 524_288;

/// The largest worker number: an event has 32 bits for it.
pub const MOST_WORKERS: usize = 4_294_967_295;

/// The most completed tickets whose memory a core keeps for later ones: as many as games can be
/// open.
pub(crate) const MOST_SPARES: usize = 64;

/// All stays, with the blocks of their records and the journal of their events.
#[derive(Drop)]
pub struct Core<const CAP: usize> {
    pub(crate) games: Games<CAP>,
    /// The events, in order.
    pub(crate) journal: Journal,
    /// The number of jobs that are out. The journal has room for the completion of each.
    pub(crate) out: usize,
    /// The row of the last job. The search for a ready job begins there and goes round, so that
    /// many takes do not each go over all open stays.
    pub(crate) cursor: usize,
    /// The contents of completed tickets, whose memory later tickets reuse. At most as many as it
    /// has room for.
    pub(crate) spares: Vec<Box<Contents<CAP>>>,
}

impl<const CAP: usize> Model for Core<CAP> {
    ghost use Rattle.bs_sched.specs.Core.{CoreView};
    ghost use Rattle.bs_sched.specs.inner.Journal.{core_in, IsJournaled};

    ghost Value = { CoreView };

    ghost view = { λ c. core_in c };

    ghost invariant = { λ c. IsJournaled CAP c };
}

impl<const CAP: usize> Core<CAP> {
    /// Queues a command for the open stay of that row. The stay keeps the handle, and the journal
    /// another one. After an error the core is unchanged.
    #[inline(always)]
    pub fn hand(&mut self, game: usize, command: SharedCommand) -> Result<(), AllocError>
        requires game { game < length self.old.games.lanes }
        requires open { (lane_of self.old.games.lanes game).is_open ≡ true }
        ensures ok { OnOk result (self.new ≡ core_after CAP self.old (event.Hand game command)) }
        ensures err { OnErr result (self.new ≡ self.old) }
    {
        keeps_limits(command.get());
        let noted = command.share()?;
        let row = self.games.row_number(game);
        self.journal.reserve(self.out, 1)?;
        self.games.hand(game, command)?;
        self.journal.note(Event::Hand(row, noted));
        Ok(())
    }

    /// Stops the core: no job is taken any more. Jobs that are out may still be completed.
    pub fn fail(&mut self)
        ensures { self.new ≡ record self.old { games = record self.old.games { failed = true } } }
    {
        self.games.fail();
    }

    /// Whether `fail` was called.
    pub fn has_failed(&self) -> bool
        ensures { result ≡ self.now.games.failed }
    {
        self.games.has_failed()
    }

    /// All events in order: each command queued, each job taken and completed, each stay opened and
    /// closed. Every event was enabled when it happened, and a newly opened core reaches this
    /// core's state by them. So the isolation law holds of the core between any two calls.
    pub fn journal(&self) -> &Journal
        ensures value { result.now.events ≡ self.now.journal }
        ensures journal { IsItsJournal CAP self.now }
        ensures apart { KeepsApart CAP self.now }
    {
        &self.journal
    }

    /// The journal alone.
    pub fn into_journal(self) -> Journal
        ensures { result.events ≡ self.entry.journal }
    {
        let Core { journal, .. } = self;
        journal
    }

    /// The number of stays: those of the plan, then those that were admitted.
    pub fn rows(&self) -> usize
        ensures value { result ≡ length self.now.games.lanes }
        ensures plan { IsFitPlan self.now.games.rows }
        ensures made { map (λ x. x.row) self.now.games.lanes ≡ self.now.games.rows ++ rows_in self.now.journal }
    {
        self.games.count_rows()
    }

    /// The number of the last worker, the caller's own.
    pub fn workers(&self) -> usize
        ensures value { result ≡ self.now.games.workers }
        ensures few { result ≤ MOST_WORKERS }
    {
        self.games.workers()
    }

    /// The name and the quota of the stay of that row.
    pub fn row(&self, game: usize) -> &Row
        requires { game < length self.now.games.lanes }
        ensures { result.now ≡ (lane_of self.now.games.lanes game).row }
    {
        self.games.game(game).row()
    }

    /// Whether the stay of that row is open.
    pub fn is_open(&self, game: usize) -> bool
        requires { game < length self.now.games.lanes }
        ensures { result ≡ (lane_of self.now.games.lanes game).is_open }
    {
        self.games.game(game).is_open()
    }

    /// The commands that were taken, in order.
    pub fn taken(&self, game: usize) -> &[SharedCommand]
        requires { game < length self.now.games.lanes }
        ensures { result.now ≡ (lane_of self.now.games.lanes game).taken }
    {
        self.games.game(game).taken()
    }

    /// The replies to the commands that were answered, in order.
    pub fn replies(&self, game: usize) -> &[Reply]
        requires { game < length self.now.games.lanes }
        ensures value { result.now ≡ (lane_of self.now.games.lanes game).replies }
        ensures right { IsRight (lane_of self.now.games.lanes game) }
    {
        self.games.game(game).replies()
    }

    /// The number of kept records; 0 for a stay that has left.
    pub fn count(&self, game: usize) -> usize
        requires { game < length self.now.games.lanes }
        ensures { result ≡ length (kept_of (lane_of self.now.games.lanes game)) }
    {
        self.games.game(game).count()
    }

    /// A kept record by its index, the oldest first.
    pub fn records(&self, game: usize, place: usize) -> &[u8]
        requires game { game < length self.now.games.lanes }
        requires place { place < length (kept_of (lane_of self.now.games.lanes game)) }
        ensures { result.now ≡ slice_index_or (kept_of (lane_of self.now.games.lanes game)) place [] }
    {
        self.games.game(game).record(place)
    }

    /// The newest board, if a game runs; for a stay that has left, its last board.
    pub fn board(&self, alloc: Global, game: usize) -> Result<Option<Board>, AllocError>
        requires { game < length self.now.games.lanes }
        ensures { IfOk result (λ board. board ≡ last_board (lane_of self.now.games.lanes game).game) }
    {
        self.games.game(game).board(alloc)
    }

    /// The record of the newest board, if a game runs; for a stay that has left, of its last board.
    pub fn last(&self, game: usize) -> Option<&KeptBoard>
        requires { game < length self.now.games.lanes }
        ensures { option_map (λ kept. kept.now) result ≡ last_board (lane_of self.now.games.lanes game).game }
    {
        self.games.game(game).last()
    }

    /// The charge of the kept records, in bytes; for a stay that has left, its last charge.
    pub fn charge(&self, game: usize) -> u32
        requires { game < length self.now.games.lanes }
        ensures { result ≡ game_charge (lane_of self.now.games.lanes game).game }
    {
        self.games.game(game).charge()
    }

    /// Whether all commands are answered.
    pub fn is_quiet(&self) -> bool
        ensures { result ≡ list_all is_quiet self.now.games.lanes }
    {
        self.games.is_quiet()
    }

    /// Counts the blocks: free ones, those that games own, and all.
    pub fn counts(&self) -> Counts
        ensures free { result.free ≡ free self.now.games.storage.pool }
        ensures size { result.size ≡ size self.now.games.storage.pool }
        ensures all { result.free + result.held ≡ result.size }
    {
        self.games.counts()
    }
}
