//! Answers to the commands of a game, and the answer to a move whose seats are already moved.
ghost use Rattle.std.specs.Prelude.{◌≡◌, [], IfOk, All, Some, option_map};
ghost use Rattle.bs_board.specs.boards.Wrap.{AreSides, wrap_of};
ghost use Rattle.bs_board.specs.commands.Orders.{orders_of};
ghost use Rattle.bs_rules.specs.Motion.{moved_board, IsMovable};

use crate::fault::Fault;
use crate::scene::Question;
use crate::values::{new_solo, solo};
use bs_board::{Board, Command, Mode, Move, Moves, TurnNumber, Words, is_legal};
use bs_game::{Answer, View, answer, check, joined};
use bs_rules::move_snakes;
use std::alloc::Global;

/// A command, and the view that its answer reads.
#[derive(Debug, Drop)]
pub struct Asked {
    view: View,
    command: Command,
}

/// `answer`.
pub struct Answered;

impl Question for Answered {
    type On = Asked;

    type Answer = Answer;

    fn call(alloc: Global, on: &Asked) -> Result<Answer, Fault> {
        if !on.view.is_fit() {
            return Err(Fault::NoView);
        }
        Ok(answer(alloc, &on.view, &on.command)?)
    }
}

pub fn first_new(alloc: Global) -> Result<Asked, Fault> {
    let view = View {
        quota: 4096,
        charge: 0,
        kept: 0,
        last: None,
        asked: None,
    };
    Ok(Asked {
        view,
        command: Command::New(new_solo(alloc, Mode::Solo)?),
    })
}

/// Makes the view of a game with the board of one snake.
fn running(alloc: Global, asked: Option<Board>) -> Result<View, Fault> {
    Ok(View {
        quota: 4096,
        charge: 32,
        kept: 1,
        last: Some(solo(alloc)?),
        asked,
    })
}

pub fn of_running(alloc: Global, command: Command) -> Result<Asked, Fault> {
    let view = running(alloc, None)?;
    Ok(Asked { view, command })
}

pub fn new_while_running(alloc: Global) -> Result<Asked, Fault> {
    of_running(alloc, Command::New(new_solo(alloc, Mode::Solo)?))
}

pub fn first_turn(alloc: Global) -> Result<Asked, Fault> {
    let turn = TurnNumber::new(0).ok_or(Fault::NoTurn)?;
    let view = running(alloc, Some(solo(alloc)?))?;
    Ok(Asked {
        view,
        command: Command::Turn(turn),
    })
}

fn no_orders(alloc: Global) -> Move
    ensures { result ≡ orders_of [] [] }
{
    Move::new(Moves::new(alloc), Words::from_vec(Vec::new(alloc)))
}

/// Moves all snakes of the board straight on.
fn gone_on(alloc: Global, board: &Board) -> Result<Board, Fault>
    requires bodies { All IsMovable board.now.snakes }
    requires sides { AreSides (wrap_of board.now) }
    ensures { IfOk result (λ moved. moved ≡ moved_board [] board.now) }
{
    let mut moved = board.copy(alloc)?;
    move_snakes(&mut moved.snakes, &Moves::new(alloc), board.wrap());
    Ok(moved)
}

fn view_of_one(last: Board) -> View
    ensures { result.last ≡ Some last }
{
    View {
        quota: 64,
        charge: 32,
        kept: 1,
        last: Some(last),
        asked: None,
    }
}

/// Answers a move without directions, from the board that is already moved.
fn joined_on(alloc: Global, view: &View, moved: Board) -> Result<Answer, Fault>
    requires { option_map (moved_board []) view.now.last ≡ Some moved }
{
    if check(view, &Command::Move(no_orders(alloc))).is_some() || !view.is_fit() {
        return Err(Fault::NoView);
    }
    let orders = no_orders(alloc);
    Ok(joined(alloc, view, &orders, moved)?)
}

/// Calls `joined` with all that it needs.
#[tactic(auto, using(bs_rules::proofs::Movable::legal_is_movable, bs_rules::proofs::Movable::legal_has_sides))]
fn joined_answer(alloc: Global, board: &Board) -> Result<Answer, Fault> {
    if !is_legal(board) {
        return Err(Fault::NotLegal);
    }
    let moved = gone_on(alloc, board)?;
    let view = view_of_one(board.copy(alloc)?);
    joined_on(alloc, &view, moved)
}

/// `joined`.
pub struct Joined;

impl Question for Joined {
    type On = Board;

    type Answer = Answer;

    fn call(alloc: Global, on: &Board) -> Result<Answer, Fault> {
        joined_answer(alloc, on)
    }
}
