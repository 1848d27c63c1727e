//! The job that begins a command.
ghost use Rattle.std.specs.Prelude.{◌≡◌, Some, None, nat_le, if◌then◌else◌, IfOk};
ghost use Rattle.bs_board.specs.declared.boards.board.Board.{Board as AnyBoard};
ghost use Rattle.bs_board.specs.declared.commands.reply.Refusal.TheVariants as Refusal;
ghost use Rattle.bs_board.specs.declared.limits.TheConstants.{LAST_TURN};
ghost use Rattle.bs_board.specs.boards.Legal.{IsLegal};
ghost use Rattle.bs_board.specs.boards.Over.{is_over};
ghost use Rattle.bs_board.specs.records.Record.{record_of};
ghost use Rattle.bs_game.specs.declared.view.View.{View as AnyView};
ghost use Rattle.bs_game.specs.View.{IsFitView};
ghost use Rattle.bs_fiber.specs.Fit.{IsFitGame};
ghost use Rattle.bs_fiber.specs.Seeing.{IsSeen};
ghost use Rattle.bs_fiber.specs.Work.{goes, begun};
ghost use Rattle.bs_fiber.specs.inner.Work.{move_begun, shown};

use crate::input::Input;
use crate::out::Out;
use crate::viewing::view_seen;
use bs_board::{Command, KeptBoard, Record, Word};
use bs_game::{View, answer, check, check_move, check_unseen, refuse, show};
use std::alloc::{AllocError, Global};

/// Whether the command is a move that `check` allows, so that its parts follow.
pub(crate) fn goes(view: &View, command: &Command) -> bool
    ensures { result ≡ goes view.now command.now }
{
    matches!(command, Command::Move(_)) && check(view, command).is_none()
}

/// Leaves an accepted move to its parts; answers any other command.
fn begin_on(alloc: Global, view: &View, command: &Command) -> Result<Out, AllocError>
    requires { IsFitView view.now }
    ensures { IfOk result (λ out. out ≡ begun view.now command.now) }
{
    if goes(view, command) {
        return Ok(Out::Goes);
    }
    Ok(Out::Answered(answer(alloc, view, command)?))
}

fn begin_seen(alloc: Global, input: &Input) -> Result<Out, AllocError>
    requires { IsFitGame input.now }
    ensures { IfOk result (λ out. (view : AnyView) → IsSeen view input.now → out ≡ begun view input.now.command) }
{
    let view = view_seen(alloc, input)?;
    begin_on(alloc, &view, input.command.get())
}

/// Accepts a move, unless the record shows that the game is over or at its last turn.
fn begin_move(last: &Record) -> Out
    ensures { (b : AnyBoard) → last.now ≡ record_of b
        → result ≡ move_begun (if is_over b then Some Refusal.Over else (if nat_le LAST_TURN b.turn then Some Refusal.Limit else None)) }
{
    match check_move(last.is_over(), last.turn()) {
        Some(reason) => Out::Answered(refuse(reason)),
        None => Out::Goes,
    }
}

/// Answers with the board of a record. The reply shares the record.
fn begin_show(word: Word, kept: &Record, charge: u32) -> Result<Out, AllocError>
    ensures { IfOk result (λ out. (b : AnyBoard) → IsLegal b → kept.now ≡ record_of b → out ≡ shown word b charge) }
{
    let board = KeptBoard::of_record(kept.share()?);
    Ok(Out::Answered(show(word, board, charge)))
}

/// Begins a command that `check_unseen` does not refuse. Decodes no board, neither for a move nor
/// to show one.
fn begin_unrefused(alloc: Global, input: &Input) -> Result<Out, AllocError>
    requires { IsFitGame input.now }
    ensures { IfOk result (λ out. (view : AnyView) → IsSeen view input.now → out ≡ begun view input.now.command) }
{
    match (input.command.get(), &input.last, &input.asked) {
        (Command::Move(_), Some(last), _) => Ok(begin_move(last)),
        (Command::Show, Some(last), _) => begin_show(Word::Show, last, input.charge),
        (Command::Turn(_), Some(_), Some(asked)) => begin_show(Word::Turn, asked, input.charge),
        _ => begin_seen(alloc, input),
    }
}

/// Runs a Begin. Decodes a board only if the answer depends on it.
pub(crate) fn begin(alloc: Global, input: &Input) -> Result<Out, AllocError>
    requires { IsFitGame input.now }
    ensures { IfOk result (λ out. (view : AnyView) → IsSeen view input.now → out ≡ begun view input.now.command) }
{
    match check_unseen(
        input.command.get(),
        input.last.is_some(),
        input.asked.is_some(),
    ) {
        Some(reason) => Ok(Out::Answered(refuse(reason))),
        None => begin_unrefused(alloc, input),
    }
}
