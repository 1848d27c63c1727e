//! The answer to a move in a game that runs.

ghost use Rattle.std.specs.Prelude.{◌≡◌, ◌+◌, ◌<◌, ◌^◌, IfOk, MatchResult, None, OnErr, Some};
ghost use Rattle.bs_board.specs.declared.boards.board.Board.{Board as AnyBoard};
ghost use Rattle.bs_board.specs.declared.commands.command.Command.TheVariants as command;
ghost use Rattle.bs_board.specs.declared.commands.command.Word.TheVariants as Word;
ghost use Rattle.bs_board.specs.declared.commands.reply.Reply.TheVariants as Reply;
ghost use Rattle.bs_board.specs.declared.limits.TheConstants.{LAST_TURN, MOST_QUOTA};
ghost use Rattle.bs_board.specs.boards.Legal.{IsLegal};
ghost use Rattle.bs_board.specs.records.Record.{record_of};
ghost use Rattle.bs_game.specs.declared.view.View.{View as AnyView};
ghost use Rattle.bs_game.specs.Game.{board_charge};
ghost use Rattle.bs_game.specs.Law.{IsFitEffect};
ghost use Rattle.bs_game.specs.View.{answer_of, answer_with};
ghost use Rattle.bs_plane.specs.Following.{Follows, IsLost, IsNextRecord};
ghost use Rattle.bs_plane.specs.Running.{IsRunningView};
ghost use Rattle.bs_plane.specs.inner.Answered.{FollowsEffect, IsMoveReason};

use crate::stepper::Stepper;
use bs_block::round_up;
use bs_board::{KeptBoard, Move, Record, Refusal, Reply, Word};
use bs_game::{Answer, Effect, check_move, refuse};
use bs_rules::turn;
use std::alloc::{AllocError, Global};

/// Plays the turn on the decoded board.
fn play_decoded(
    alloc: Global,
    stepper: &mut Stepper,
    last: &Record,
    orders: &Move,
) -> Result<Record, AllocError>
    requires early { (b : AnyBoard) → IsLegal b → last.now ≡ record_of b → b.turn < LAST_TURN }
    requires lost { IsLost stepper.old }
    ensures value { IfOk result (IsNextRecord last.now orders.now) }
    ensures follows { IfOk result (Follows stepper.new) }
    ensures err { OnErr result (IsLost stepper.new) }
{
    let board = last.board(alloc)?;
    let next = turn(alloc, &board, orders)?;
    let record = Record::of(alloc, &next)?;
    stepper.load(&next)?;
    Ok(record)
}

/// Plays the turn, over the plane where that can be. The refusal if the move is not allowed.
fn next_record(
    alloc: Global,
    stepper: &mut Stepper,
    last: &Record,
    orders: &Move,
) -> Result<Result<Record, Refusal>, AllocError>
    requires { Follows stepper.old last.now }
    ensures value { IfOk result (λ next. IfOk next (IsNextRecord last.now orders.now)) }
    ensures reason { IfOk result (λ next. MatchResult next (λ _. IsMoveReason last.now None) (λ reason. IsMoveReason last.now (Some reason))) }
    ensures follows { IfOk result (λ next. MatchResult next (Follows stepper.new) (λ _. IsLost stepper.new)) }
    ensures err { OnErr result (IsLost stepper.new) }
{
    if let Some(record) = stepper.step_allowed(alloc, last, orders)? {
        return Ok(Ok(record));
    }
    match check_move(last.is_over(), last.turn()) {
        Some(reason) => Ok(Err(reason)),
        None => Ok(Ok(play_decoded(alloc, stepper, last, orders)?)),
    }
}

/// The answer that shows the record and adds it.
fn added(next: Record, charge: u32) -> Result<Answer, AllocError>
    ensures { (b : AnyBoard) → IsLegal b → next ≡ record_of b → IfOk result (λ answer. answer ≡ answer_with (Reply.Shown Word.Move b charge)) }
{
    Ok(Answer {
        reply: Reply::Shown(Word::Move, KeptBoard::of_record(next.share()?), charge),
        effect: Effect::Add(next),
    })
}

/// The charge of a record, in bytes.
fn record_charge(next: &Record) -> u32
    ensures value { (b : AnyBoard) → IsLegal b → next.now ≡ record_of b → result ≡ board_charge b }
    ensures small { result + MOST_QUOTA < 2 ^ 32 }
{
    round_up(next.as_slice().len()) as u32
}

/// Answers a move in a game that runs, from the record of its last board. After a refusal and after
/// an error the stepper is of no board.
pub(crate) fn answer_move(
    alloc: Global,
    stepper: &mut Stepper,
    last: &Record,
    orders: &Move,
    quota: u32,
    charge: u32,
) -> Result<Answer, AllocError>
    requires view { (view : AnyView) × IsRunningView quota charge last.now view }
    requires follows { Follows stepper.old last.now }
    ensures value { IfOk result (λ answer. (view : AnyView) → IsRunningView quota charge last.now view → answer ≡ answer_of view (command.Move orders.now)) }
    ensures fits { IfOk result (λ answer. IsFitEffect quota charge answer.effect) }
    ensures follows { IfOk result (λ answer. FollowsEffect answer.effect stepper.new) }
    ensures err { OnErr result (IsLost stepper.new) }
{
    let next = match next_record(alloc, stepper, last, orders)? {
        Ok(next) => next,
        Err(reason) => return Ok(refuse(reason)),
    };
    let charge = charge + record_charge(&next);
    if charge > quota {
        stepper.forget();
        return Ok(refuse(Refusal::Quota));
    }
    match added(next, charge) {
        Ok(answer) => Ok(answer),
        Err(error) => {
            stepper.forget();
            Err(error)
        }
    }
}
