//! The reply to a command, and its effect on the records.
ghost use Rattle.std.specs.Prelude.{◌≡◌, ◌<◌, Some, None, IfOk, option_map};
ghost use Rattle.bs_board.specs.declared.commands.command.Command.TheVariants as command;
ghost use Rattle.bs_board.specs.declared.commands.command.Word.TheVariants as Word;
ghost use Rattle.bs_board.specs.declared.commands.reply.Refusal.TheVariants as Refusal;
ghost use Rattle.bs_board.specs.declared.commands.reply.Reply.TheVariants as Reply;
ghost use Rattle.bs_game.specs.declared.reply.Effect.TheVariants as Effect;
ghost use Rattle.bs_board.specs.boards.Legal.{IsLegal};
ghost use Rattle.bs_rules.specs.Motion.{moved_board};
ghost use Rattle.bs_game.specs.Game.{board_charge};
ghost use Rattle.bs_game.specs.declared.view.View.{View as AnyView};
ghost use Rattle.bs_game.specs.Joining.{IsMovedFrom};
ghost use Rattle.bs_game.specs.Law.{IsFitEffect};
ghost use Rattle.bs_game.specs.Reasons.{first_reason};
ghost use Rattle.bs_game.specs.View.{
  IsFitView,
  accepted_reply,
  answer_of,
  answer_with,
};

use crate::checking::check;
use crate::quota::{board_charge, record_board};
use crate::reply::{Answer, Effect};
use crate::view::View;
use bs_board::{Board, Command, KeptBoard, Move, New, Refusal, Reply, TurnNumber, Word};
use bs_modes::start;
use bs_rules::{finish_turn, turn};
use std::alloc::{AllocError, Global};

/// Answers a command with a refusal, which changes nothing.
pub fn refuse(reason: Refusal) -> Answer
    ensures { result ≡ answer_with (Reply.Refused reason) }
{
    Answer {
        reply: Reply::Refused(reason),
        effect: Effect::Keep,
    }
}

/// Answers with a kept board, which changes nothing.
pub fn show(word: Word, board: KeptBoard, charge: u32) -> Answer
    ensures { result ≡ record { reply = Reply.Shown word board charge; effect = Effect.Keep } }
{
    Answer {
        reply: Reply::Shown(word, board, charge),
        effect: Effect::Keep,
    }
}

/// Starts a game with its first board.
#[tactic(auto, using(crate::proofs::Acceptance::first_is_shown))]
fn begin(alloc: Global, view: &View, new: &New) -> Result<Answer, AllocError>
    requires view { IsFitView view.now }
    requires passes { first_reason view.now (command.New new.now) ≡ None }
    ensures value { IfOk result (λ answer. answer ≡ answer_of view.now (command.New new.now)) }
    ensures fits { IfOk result (λ answer. IsFitEffect view.now.quota view.now.charge answer.effect) }
{
    let board = start(alloc, new)?;
    record_board(alloc, view.quota, view.charge, Word::New, board)
}

/// Plays one turn on the last board.
#[tactic(auto, using(crate::proofs::Acceptance::move_is_early, crate::proofs::Acceptance::no_game_no_move, crate::proofs::Acceptance::next_is_shown))]
fn advance(alloc: Global, view: &View, orders: &Move) -> Result<Answer, AllocError>
    requires view { IsFitView view.now }
    requires passes { first_reason view.now (command.Move orders.now) ≡ None }
    ensures value { IfOk result (λ answer. answer ≡ answer_of view.now (command.Move orders.now)) }
    ensures fits { IfOk result (λ answer. IsFitEffect view.now.quota view.now.charge answer.effect) }
{
    match &view.last {
        None => unreachable!(),
        Some(last) => {
            let board = turn(alloc, last, orders)?;
            record_board(alloc, view.quota, view.charge, Word::Move, board)
        }
    }
}

fn show_last(alloc: Global, view: &View) -> Result<Answer, AllocError>
    requires { IsFitView view.now }
    ensures value { IfOk result (λ answer. answer ≡ answer_with (accepted_reply view.now command.Show)) }
    ensures fits { IfOk result (λ answer. IsFitEffect view.now.quota view.now.charge answer.effect) }
{
    match &view.last {
        None => Ok(refuse(Refusal::NoGame)),
        Some(last) => Ok(show(Word::Show, KeptBoard::of(alloc, last)?, view.charge)),
    }
}

fn show_asked(alloc: Global, view: &View, at: TurnNumber) -> Result<Answer, AllocError>
    requires { IsFitView view.now }
    ensures value { IfOk result (λ answer. answer ≡ answer_with (accepted_reply view.now (command.Turn at))) }
    ensures fits { IfOk result (λ answer. IsFitEffect view.now.quota view.now.charge answer.effect) }
{
    match &view.asked {
        None => Ok(refuse(Refusal::NoRecord)),
        Some(board) => Ok(show(Word::Turn, KeptBoard::of(alloc, board)?, view.charge)),
    }
}

fn free(view: &View) -> Answer
    requires { IsFitView view.now }
    ensures value { result ≡ answer_with (accepted_reply view.now command.Free) }
    ensures fits { IsFitEffect view.now.quota view.now.charge result.effect }
{
    match &view.last {
        None => refuse(Refusal::NoGame),
        Some(last) => Answer {
            reply: Reply::Plain(Word::Free, board_charge(last)),
            effect: Effect::Trim,
        },
    }
}

fn end() -> Answer
    ensures { result ≡ record { reply = Reply.Plain Word.End 0; effect = Effect.Drop } }
{
    Answer {
        reply: Reply::Plain(Word::End, 0),
        effect: Effect::Drop,
    }
}

/// Answers a command that `check` allows; so the view has each board that the answer needs.
#[tactic(auto, using(crate::proofs::Acceptance::answered_at_once))]
fn answer_passed(alloc: Global, view: &View, command: &Command) -> Result<Answer, AllocError>
    requires view { IsFitView view.now }
    requires passes { first_reason view.now command.now ≡ None }
    ensures value { IfOk result (λ answer. answer ≡ answer_of view.now command.now) }
    ensures fits { IfOk result (λ answer. IsFitEffect view.now.quota view.now.charge answer.effect) }
{
    match command {
        Command::New(new) => begin(alloc, view, new),
        Command::Move(orders) => advance(alloc, view, orders),
        Command::Show => show_last(alloc, view),
        Command::Turn(at) => show_asked(alloc, view, *at),
        Command::Free => Ok(free(view)),
        Command::End => Ok(end()),
        Command::Bad => Ok(refuse(Refusal::Unknown)),
    }
}

/// Answers a command: its reply, with the charge after it, and its effect on the records. The
/// command is refused for the first reason that `check` finds, else for the quota if that has no
/// room for the record of the new board.
#[tactic(auto, using(crate::proofs::Acceptance::early_reason))]
pub fn answer(alloc: Global, view: &View, command: &Command) -> Result<Answer, AllocError>
    requires { IsFitView view.now }
    ensures value { IfOk result (λ answer. answer ≡ answer_of view.now command.now) }
    ensures fits { IfOk result (λ answer. IsFitEffect view.now.quota view.now.charge answer.effect) }
{
    match check(view, command) {
        Some(reason) => Ok(refuse(reason)),
        None => answer_passed(alloc, view, command),
    }
}

/// Answers a move that `check` allows, as `answer` does, but from the last board with all its seats
/// already moved.
#[tactic(auto, using(crate::proofs::Joining::moved_from))]
pub fn joined(alloc: Global, view: &View, orders: &Move, moved: Board) -> Result<Answer, AllocError>
    requires view { IsFitView view.now }
    requires passes { first_reason view.now (command.Move orders.now) ≡ None }
    requires moved { option_map (moved_board orders.now.moves) view.now.last ≡ Some moved }
    ensures value { IfOk result (λ answer. answer ≡ answer_of view.now (command.Move orders.now)) }
    ensures fits { IfOk result (λ answer. IsFitEffect view.now.quota view.now.charge answer.effect) }
{
    joined_within(alloc, view.quota, view.charge, orders, moved)
}

/// Like `joined`, but from the quota and the charge instead of a view: the only board needed is the
/// moved one.
pub fn joined_within(
    alloc: Global,
    quota: u32,
    charge: u32,
    orders: &Move,
    moved: Board,
) -> Result<Answer, AllocError>
    requires { (view : AnyView) × IsMovedFrom quota charge orders.now moved view }
    ensures value { IfOk result (λ answer. (view : AnyView) → IsMovedFrom quota charge orders.now moved view → answer ≡ answer_of view (command.Move orders.now)) }
    ensures fits { IfOk result (λ answer. IsFitEffect quota charge answer.effect) }
{
    let board = finish_turn(alloc, moved, orders)?;
    record_board(alloc, quota, charge, Word::Move, board)
}
