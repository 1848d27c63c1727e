//! Food that a move gives, over the plane.
use crate::games::loaded;
use bs_board::{Board, Move, Record, is_legal};
use bs_samples::{Parts, cells, holds, no_orders, orders, same, solo};
use std::alloc::{AllocError, Global};
use std::test::Fail;

/// The board before the turn: the snake `s` goes up, and there is that food.
fn before(alloc: Global, min_food: u8, food: Parts) -> Result<Board, AllocError> {
    let mut board = solo(alloc, 5, 10, 90, &[(2, 2), (2, 1), (2, 0)])?;
    board.min_food = min_food;
    board.food = cells(alloc, food)?;
    Ok(board)
}

/// The board after the turn, with that food.
fn after(alloc: Global, min_food: u8, food: Parts) -> Result<Board, AllocError> {
    let mut board = solo(alloc, 5, 11, 89, &[(2, 3), (2, 2), (2, 1)])?;
    board.min_food = min_food;
    board.food = cells(alloc, food)?;
    Ok(board)
}

/// Checks that the turn is played over the plane, and gives the record of that board.
fn check_step(alloc: Global, last: &Board, orders: &Move, next: &Board) -> Result<(), Fail> {
    holds("a legal board", is_legal(last) && is_legal(next))?;
    let record = Record::of(alloc, last)?;
    let mut stepper = loaded(alloc, last)?;
    let Some(stepped) = stepper.step(alloc, &record, orders)? else {
        return Err(Fail::from("not over the plane"));
    };
    let wanted = Record::of(alloc, next)?;
    same("the record", stepped.as_slice(), wanted.as_slice())
}

/// Of these cells only the free one on the board becomes food, once, and where the tail was. The
/// others are food, under a living body, off the board, and food by the move itself.
#[test]
fn food_on_free_cells(rt: HostRuntime) -> Result<(), Fail> {
    let alloc = rt.alloc();
    let food = cells(alloc, &[(4, 4), (2, 2), (5, 5), (2, 0), (2, 0)])?;
    let given = no_orders(alloc).with_map(None, Some(food));
    let last = before(alloc, 0, &[(4, 4)])?;
    check_step(alloc, &last, &given, &after(alloc, 0, &[(4, 4), (2, 0)])?)
}

/// Two foods are missing, and their words select the first free cell. The food given comes after
/// them, so its first cell is no longer free.
#[test]
fn food_after_that_of_words(rt: HostRuntime) -> Result<(), Fail> {
    let alloc = rt.alloc();
    let food = cells(alloc, &[(0, 0), (3, 3)])?;
    let given = orders(alloc, &[], &[0, 0])?.with_map(None, Some(food));
    let last = before(alloc, 2, &[])?;
    check_step(
        alloc,
        &last,
        &given,
        &after(alloc, 2, &[(0, 0), (1, 0), (3, 3)])?,
    )
}

/// Food under a head is eaten before the move gives food: its cell is under the head, and the next
/// cell beside it is free.
#[test]
fn food_that_was_eaten_is_not_given_again(rt: HostRuntime) -> Result<(), Fail> {
    let alloc = rt.alloc();
    let food = cells(alloc, &[(2, 3), (1, 3)])?;
    let given = no_orders(alloc).with_map(None, Some(food));
    let last = before(alloc, 0, &[(2, 3)])?;
    let mut next = solo(alloc, 5, 11, 100, &[(2, 3), (2, 2), (2, 1), (2, 1)])?;
    next.food = cells(alloc, &[(1, 3)])?;
    check_step(alloc, &last, &given, &next)
}
