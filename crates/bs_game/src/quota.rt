//! The quota: the charge of a board, and whether a new record fits.
ghost use Rattle.std.specs.Prelude.{◌≡◌, ◌≤◌, IfOk};
ghost use Rattle.bs_board.specs.declared.commands.reply.Reply.TheVariants as Reply;
ghost use Rattle.bs_board.specs.boards.Legal.{IsLegal};
ghost use Rattle.bs_board.specs.records.Record.{record_of};
ghost use Rattle.bs_game.specs.declared.reply.Effect.TheVariants as Effect;
ghost use Rattle.bs_game.specs.Game.{board_charge};
ghost use Rattle.bs_game.specs.Law.{IsFitEffect};
ghost use Rattle.bs_board.specs.declared.limits.TheConstants.{MOST_QUOTA};
ghost use Rattle.bs_game.specs.inner.Joining.{view_within};
ghost use Rattle.bs_game.specs.View.{answer_with, effect_of_shown};
ghost use Rattle.bs_game.specs.inner.View.{shown_within_quota};

use crate::answering::refuse;
use crate::reply::{Answer, Effect};
use bs_block::round_up;
use bs_board::{Board, KeptBoard, Record, Refusal, Reply, Word, size};
use std::alloc::{AllocError, Global};

/// The largest charge of a board's record, in bytes: 166,888 rounded up.
pub(crate) const MOST_BOARD_CHARGE: u32 = 166_896;

/// The charge of the board's record, in bytes.
#[tactic(auto, using(bs_board::proofs::records::Longest::legal_size_fits, crate::proofs::Games::legal_size_rounds, crate::proofs::Games::board_charge_small))]
pub(crate) fn board_charge(board: &Board) -> u32
    requires { IsLegal board.now }
    ensures value { result ≡ board_charge board.now }
    ensures small { result ≤ MOST_BOARD_CHARGE }
{
    round_up(size(board)) as u32
}

/// Adds a new board to the records if the quota has room for its record, else refuses it. The reply
/// and the effect share the record.
pub(crate) fn record_board(
    alloc: Global,
    quota: u32,
    charge: u32,
    word: Word,
    board: Board,
) -> Result<Answer, AllocError>
    requires within { charge ≤ quota }
    requires small { quota ≤ MOST_QUOTA }
    requires legal { IsLegal board }
    requires adds { effect_of_shown word board ≡ Effect.Add (record_of board) }
    ensures value { IfOk result (λ answer. answer ≡ answer_with (shown_within_quota (view_within quota charge) word board)) }
    ensures fits { IfOk result (λ answer. IsFitEffect quota charge answer.effect) }
{
    record_shown(alloc, quota, charge, word, &board)
}

/// As `record_board`, of a board that the caller drops.
fn record_shown(
    alloc: Global,
    quota: u32,
    charge: u32,
    word: Word,
    board: &Board,
) -> Result<Answer, AllocError>
    requires within { charge ≤ quota }
    requires small { quota ≤ MOST_QUOTA }
    requires legal { IsLegal board.now }
    requires adds { effect_of_shown word board.now ≡ Effect.Add (record_of board.now) }
    ensures value { IfOk result (λ answer. answer ≡ answer_with (shown_within_quota (view_within quota charge) word board.now)) }
    ensures fits { IfOk result (λ answer. IsFitEffect quota charge answer.effect) }
{
    let charge = charge + board_charge(board);
    if charge > quota {
        return Ok(refuse(Refusal::Quota));
    }
    let record = Record::of(alloc, board)?;
    Ok(Answer {
        reply: Reply::Shown(word, KeptBoard::of_record(record.share()?), charge),
        effect: Effect::Add(record),
    })
}
