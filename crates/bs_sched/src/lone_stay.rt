//! A stay that was played in a core of its own, without that core.
ghost use Rattle.std.specs.Prelude.{◌≡◌, ◌+◌, true, length, IfOk, OnOk};
ghost use Rattle.std.specs.List.{list_all};
ghost use Rattle.bs_pool.specs.Ledger.{size};
ghost use Rattle.bs_sched.specs.Lane.{is_quiet};
ghost use Rattle.bs_sched.specs.LoneStay.{kept_of_core, left_of_core};
ghost use Rattle.bs_sched.specs.Machine.{lane_of};
ghost use Rattle.bs_sched.specs.StaysHeld.{blocks_of_pool};

use crate::cores::Core;
use crate::game::Game;
use crate::journal::Journal;
use bs_block::Block;
use bs_pool::Pool;
use std::alloc::{AllocError, Global};
use std::marker::Model;

/// The stay of a core of one stay, and the events of that core. A stay that has left has none of
/// the core's blocks.
#[derive(Drop)]
pub struct LoneStay<const CAP: usize> {
    pub(crate) game: Game<CAP>,
    /// The events before the leave.
    pub(crate) journal: Journal,
    /// The blocks of the core, unless the stay has left.
    pub(crate) pool: Option<Pool<CAP>>,
}

impl<const CAP: usize> Model for LoneStay<CAP> {
    ghost use Rattle.bs_sched.specs.LoneStay.{LoneView};
    ghost use Rattle.bs_sched.specs.inner.LoneStays.{lone_in};

    ghost Value = { LoneView };

    ghost view = { λ s. lone_in s };
}

impl<const CAP: usize> LoneStay<CAP> {
    /// The number of its blocks; 0 once it has left.
    pub fn blocks(&self) -> usize
        ensures { result ≡ blocks_of_pool self.now.pool }
    {
        match &self.pool {
            Some(pool) => pool.size(),
            None => 0,
        }
    }
}

impl<const CAP: usize> Core<CAP> {
    /// The only stay of the core, which stays open.
    pub fn into_lone(self) -> LoneStay<CAP>
        requires { length self.games.lanes ≡ 1 }
        ensures { result ≡ kept_of_core self.entry }
    {
        let (games, journal) = self.into_games_and_journal();
        let (game, pool) = games.into_only();
        LoneStay {
            game,
            journal,
            pool: Some(pool),
        }
    }

    /// Closes the only stay of the core, which has nothing left to do, and moves all blocks of the
    /// core to the list. The error is the allocator's; the core's blocks are then freed.
    pub fn close_alone(
        self,
        alloc: Global,
        blocks: &mut Vec<Block<CAP>>,
    ) -> Result<LoneStay<CAP>, AllocError>
        requires one { length self.games.lanes ≡ 1 }
        requires open { (lane_of self.games.lanes 0).is_open ≡ true }
        requires quiet { list_all is_quiet self.games.lanes ≡ true }
        ensures left { IfOk result (λ left. left ≡ left_of_core self.entry) }
        ensures blocks { OnOk result (length blocks.new.items ≡ length blocks.old.items + size self.entry.games.storage.pool) }
    {
        let _events = self.journal();
        let (mut games, journal) = self.into_games_and_journal();
        games.keeps_one();
        games.leave(0);
        let (game, pool) = games.into_only();
        let mut freed = pool.into_blocks(alloc)?;
        blocks.append(&mut freed)?;
        Ok(LoneStay {
            game,
            journal,
            pool: None,
        })
    }
}
