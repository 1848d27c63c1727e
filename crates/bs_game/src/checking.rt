//! The refusals of a command that need no new board.
ghost use Rattle.std.specs.Prelude.{◌≡◌, ◌&&◌, true, false, Some, None, is_some, nat_le, if◌then◌else◌};
ghost use Rattle.bs_game.specs.declared.view.View.{View as AnyView};
ghost use Rattle.bs_board.specs.declared.commands.reply.Refusal.TheVariants as Refusal;
ghost use Rattle.bs_board.specs.declared.limits.TheConstants.{LAST_TURN};
ghost use Rattle.bs_game.specs.Reasons.{first_reason, is_move};

use crate::view::View;
use bs_board::limits::LAST_TURN;
use bs_board::{Command, Refusal};
use bs_modes::over;

/// The refusal of a move in a running game, by whether it is over and the number of its newest
/// turn.
pub fn check_move(is_over: bool, turn: u16) -> Option<Refusal>
    ensures { result ≡ (if is_over then Some Refusal.Over else (if nat_le LAST_TURN turn then Some Refusal.Limit else None)) }
{
    if is_over {
        Some(Refusal::Over)
    } else if turn >= LAST_TURN {
        Some(Refusal::Limit)
    } else {
        None
    }
}

/// The first refusal that needs no board, by whether a game runs, and whether the turn that the
/// command names is kept. `None` for a move in a running game, which `check_move` judges.
#[tactic(auto, unfolding(crate::specs::Reasons::first_reason))]
pub fn check_unseen(command: &Command, runs: bool, is_kept: bool) -> Option<Refusal>
    ensures told { (view : AnyView) → is_some view.last ≡ runs → is_some view.asked ≡ is_kept → (is_move command.now && runs) ≡ false → result ≡ first_reason view command.now }
    ensures untold { (is_move command.now && runs) ≡ true → result ≡ None }
{
    match (command, runs) {
        (Command::Bad, _) => Some(Refusal::Unknown),
        (Command::New(_), false) => None,
        (Command::New(_), true) => Some(Refusal::Running),
        (_, false) => Some(Refusal::NoGame),
        (Command::Turn(_), true) => if is_kept {
            None
        } else {
            Some(Refusal::NoRecord)
        },
        (Command::Move(_) | Command::Show | Command::Free | Command::End, true) => None,
    }
}

/// The first refusal of the command, in the order of `Refusal`. The last one, `Quota`, needs the
/// new board; `answer` and `joined` judge it.
#[tactic(auto, unfolding(crate::specs::Reasons::first_reason))]
pub fn check(view: &View, command: &Command) -> Option<Refusal>
    ensures { result ≡ first_reason view.now command.now }
{
    match (command, &view.last) {
        (Command::Move(_), Some(last)) => check_move(over(last), last.turn),
        _ => check_unseen(command, view.last.is_some(), view.asked.is_some()),
    }
}
