//! How a game starts, grows and ends, mode by mode.
use bs_board::{Board, Mode, is_legal};
use bs_modes::{grow, over, start};
use bs_samples::{Parts, Places, cells, holds, same, setup};
use std::alloc::Global;
use std::test::Fail;

/// Checks the body of the snake at that seat.
fn check_body(alloc: Global, board: &Board, seat: usize, parts: Parts) -> Result<(), Fail> {
    let snake = board.snakes.as_slice().get(seat).ok_or("a seat")?;
    same(
        "a body",
        snake.body.as_slice(),
        cells(alloc, parts)?.as_slice(),
    )
}

/// Starts a game of that mode.
fn started(
    alloc: Global,
    mode: Mode,
    side: u8,
    places: Places,
    food: Parts,
) -> Result<Board, Fail> {
    let new = setup(alloc, mode, side, places, food)?.ok_or("a setup")?;
    Ok(start(alloc, &new)?)
}

/// Stretches the first of two snakes.
fn stretch(alloc: Global, board: &mut Board) -> Result<(), Fail> {
    let body = cells(alloc, &[(1, 3), (1, 2), (1, 1)])?;
    holds("two snakes", board.snakes.len() == 2)?;
    let snake = board.snakes.seat_mut(0);
    snake.body = body;
    snake.health = 97;
    Ok(())
}

/// A game of constrictor between two snakes: given food is dropped, and a body grows if it is
/// stretched.
#[test]
fn constrictor_starts_without_food_and_grows(rt: HostRuntime) -> Result<(), Fail> {
    let alloc = rt.alloc();
    let places = [("s", 1, 1), ("t", 5, 1)];
    let mut board = started(alloc, Mode::Constrictor, 7, &places, &[(3, 3)])?;
    holds("a legal board", is_legal(&board))?;
    same("food", board.food.len(), 0)?;
    check_body(alloc, &board, 0, &[(1, 1), (1, 1), (1, 1)])?;
    grow(alloc, &mut board)?;
    check_body(alloc, &board, 1, &[(5, 1), (5, 1), (5, 1)])?;
    stretch(alloc, &mut board)?;
    grow(alloc, &mut board)?;
    check_body(alloc, &board, 0, &[(1, 3), (1, 2), (1, 1), (1, 1)])
}

/// With one snake, solo goes on; in each other mode the game is over at once.
#[test]
fn one_snake_ends_all_but_solo(rt: HostRuntime) -> Result<(), Fail> {
    for (mode, ends) in [
        (Mode::Standard, true),
        (Mode::Solo, false),
        (Mode::Constrictor, true),
        (Mode::Wrapped, true),
    ] {
        let board = started(rt.alloc(), mode, 3, &[("s", 1, 1)], &[])?;
        same("whether it is over", (mode, over(&board)), (mode, ends))?;
    }
    Ok(())
}
