//! First boards, growth, food, and the steps of a turn.
use crate::fault::Fault;
use crate::scene::Question;
use crate::values::{map_orders, new_solo, solo, two_heads};
use bs_board::limits::{LAST_TURN, MOST_SNAKES};
use bs_board::{Board, Direction, Mode, Moves, New, Point, Snake, is_legal};
use bs_food::{free_cells, spawn};
use bs_modes::{grow, start};
use bs_rules::{feed, finish_turn, move_snake, move_snakes, turn};
use std::alloc::Global;

/// `start`.
pub struct FirstBoard;

impl Question for FirstBoard {
    type On = New;

    type Answer = Board;

    fn call(alloc: Global, on: &New) -> Result<Board, Fault> {
        Ok(start(alloc, on)?)
    }
}

/// `grow`, of a copy in constrictor mode. After an error the copy is dropped.
pub struct Growing;

impl Question for Growing {
    type On = Board;

    type Answer = Board;

    fn call(alloc: Global, on: &Board) -> Result<Board, Fault> {
        let mut copy = on.copy(alloc)?;
        copy.mode = Mode::Constrictor;
        grow(alloc, &mut copy)?;
        Ok(copy)
    }
}

/// `free_cells`.
pub struct FreeCells;

impl Question for FreeCells {
    type On = Board;

    type Answer = Vec<Point>;

    fn call(alloc: Global, on: &Board) -> Result<Vec<Point>, Fault> {
        Ok(free_cells(alloc, on)?)
    }
}

/// `spawn` of five foods, on a copy.
pub struct Spawning;

impl Question for Spawning {
    type On = Board;

    type Answer = Board;

    fn call(alloc: Global, on: &Board) -> Result<Board, Fault> {
        let mut copy = on.copy(alloc)?;
        copy.min_food = 6;
        spawn(alloc, &mut copy, &[5, 5, 7, 3, 1])?;
        Ok(copy)
    }
}

#[tactic(auto, using(bs_rules::proofs::Movable::legal_is_movable))]
fn first_moved(alloc: Global, board: &Board) -> Result<Snake, Fault> {
    if !is_legal(board) {
        return Err(Fault::NotLegal);
    }
    match board.snakes.as_slice() {
        [first, ..] => Ok(move_snake(alloc, first, Some(Direction::Down), None)?),
        [] => Err(Fault::NotLegal),
    }
}

/// `move_snake`.
pub struct MoveSnake;

impl Question for MoveSnake {
    type On = Board;

    type Answer = Snake;

    fn call(alloc: Global, on: &Board) -> Result<Snake, Fault> {
        first_moved(alloc, on)
    }
}

#[tactic(auto, using(bs_rules::proofs::Movable::legal_is_movable))]
fn all_moved(alloc: Global, board: Board) -> Result<Board, Fault> {
    if !is_legal(&board) {
        return Err(Fault::NotLegal);
    }
    let mut next = board;
    move_snakes(&mut next.snakes, &Moves::new(alloc), None);
    Ok(next)
}

/// Makes the two snakes with their heads on the food.
pub fn meeting(alloc: Global) -> Result<Board, Fault> {
    all_moved(alloc, two_heads(alloc)?)
}

/// `feed`, of a copy. After an error the copy is dropped.
pub struct Feeding;

impl Question for Feeding {
    type On = Board;

    type Answer = Board;

    fn call(alloc: Global, on: &Board) -> Result<Board, Fault> {
        let mut copy = on.copy(alloc)?;
        feed(alloc, &mut copy)?;
        Ok(copy)
    }
}

/// `finish_turn`, of a copy.
pub struct FinishTurn;

impl Question for FinishTurn {
    type On = Board;

    type Answer = Board;

    fn call(alloc: Global, on: &Board) -> Result<Board, Fault> {
        let mut copy = on.copy(alloc)?;
        copy.min_food = 2;
        if copy.turn >= LAST_TURN || copy.snakes.len() > MOST_SNAKES {
            return Err(Fault::NoTurn);
        }
        Ok(finish_turn(alloc, copy, &map_orders(alloc)?)?)
    }
}

/// `turn`.
pub struct NextBoard;

impl Question for NextBoard {
    type On = Board;

    type Answer = Board;

    fn call(alloc: Global, on: &Board) -> Result<Board, Fault> {
        let orders = map_orders(alloc)?;
        if !is_legal(on) || on.turn >= LAST_TURN {
            return Err(Fault::NoTurn);
        }
        Ok(turn(alloc, on, &orders)?)
    }
}
