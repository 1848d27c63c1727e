//! A stay of a live host.
ghost use Rattle.std.specs.Prelude.{◌≡◌, ◌≤◌, ◌<◌, ◌++◌, IfOk, OnOk};
ghost use Rattle.bs_block.specs.Bytes.{IsCapacity};
ghost use Rattle.bs_game.specs.Answer.{answer_to};
ghost use Rattle.bs_heap.specs.Charge.{blocks_for};
ghost use Rattle.bs_heap.specs.declared.heap.TheConstants.{MOST_RECORD_BYTES};
ghost use Rattle.bs_json.specs.Replies.{reply_line_of};
ghost use Rattle.bs_live.specs.Stay.{final_line, next_line, opened_stay, stay_after};

use crate::kept_game::KeptGame;
use crate::room::make_room;
use bs_board::{Command, Id, Reply, Row};
use bs_json::{TextBuffer, final_line_bound, push_final_line, push_reply_line, reply_line_bound};
use std::alloc::{AllocError, Global};
use std::marker::Model;

/// A stay of a live host: its row, its game, and the number of its replies. Its memory does not
/// grow with its commands: a pool of `blocks` blocks, and an entry for each kept record.
#[derive(Drop)]
pub struct LiveStay<const CAP: usize> {
    row: Row,
    game: KeptGame<CAP>,
    answered: u64,
}

impl<const CAP: usize> Model for LiveStay<CAP> {
    ghost use Rattle.bs_live.specs.Stay.{Stay};
    ghost use Rattle.bs_live.specs.inner.Stay.{IsStay, stay_in};

    ghost Value = { Stay };

    ghost view = { λ s. stay_in s };

    ghost invariant = { λ s. IsStay s };
}

/// Appends the line of a reply.
#[tactic(auto, using(crate::proofs::Lines::put_within))]
fn push_reply(
    alloc: Global,
    game: &Id,
    seq: u64,
    reply: &Reply,
    text: &mut TextBuffer,
) -> Result<(), AllocError>
    ensures { OnOk result (text.new.bytes ≡ text.old.bytes ++ reply_line_of game.now seq reply.now) }
{
    let bytes = reply_line_bound(game, seq, reply).ok_or(AllocError)?;
    make_room(alloc, text, bytes)?;
    push_reply_line(game, seq, reply, text);
    Ok(())
}

impl<const CAP: usize> LiveStay<CAP> {
    /// Opens a stay of that row without a game. Its pool has exactly `blocks` blocks.
    pub fn open(alloc: Global, row: Row, blocks: usize) -> Result<Self, AllocError>
        requires capacity { IsCapacity CAP }
        requires wide { MOST_RECORD_BYTES < CAP }
        requires room { blocks_for CAP row.quota ≤ blocks }
        ensures { IfOk result (λ stay. stay ≡ opened_stay row blocks) }
    {
        let game = KeptGame::new(alloc, row.quota, blocks)?;
        Ok(LiveStay {
            row,
            game,
            answered: 0,
        })
    }

    /// Answers a command, and appends its reply line.
    pub fn answer(
        &mut self,
        alloc: Global,
        command: &Command,
        text: &mut TextBuffer,
    ) -> Result<(), AllocError>
        ensures stay { OnOk result (self.new ≡ stay_after command.now self.old) }
        ensures text { OnOk result (text.new.bytes ≡ text.old.bytes ++ next_line command.now self.old) }
    {
        let seq = self.answered.checked_add(1).ok_or(AllocError)?;
        let reply = self.game.answer(alloc, command)?;
        self.answered = seq;
        push_reply(alloc, &self.row.game, seq, &reply, text)
    }

    /// Appends the final line.
    #[tactic(auto, using(crate::proofs::Lines::put_within))]
    pub fn push_final(&self, alloc: Global, text: &mut TextBuffer) -> Result<(), AllocError>
        ensures { OnOk result (text.new.bytes ≡ text.old.bytes ++ final_line self.now) }
    {
        let game = &self.row.game;
        let board = self.game.last(alloc)?;
        let board = board.as_ref();
        let charge = self.game.charge();
        let bytes = final_line_bound(game, board, charge).ok_or(AllocError)?;
        make_room(alloc, text, bytes)?;
        push_final_line(game, board, charge, text);
        Ok(())
    }
}
