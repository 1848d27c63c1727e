//! When a board is legal, and the limits of setups, rows and turns.
use bs_board::{Board, Cause, Cells, Id, Mode, Row, Snake, TurnNumber, is_legal};
use bs_samples::{Parts, board, cells, holds, same, setup, snake, solo_after};
use std::alloc::{AllocError, Global};
use std::test::Fail;

/// Whether the solo board of three by three is legal after that many turns.
fn is_legal_after(alloc: Global, turn: u16) -> Result<bool, AllocError> {
    Ok(is_legal(&solo_after(alloc, 3, turn)?))
}

/// Makes a board whose snake is out in a turn to come.
fn out_too_late(alloc: Global) -> Result<Board, AllocError> {
    let mut board = solo_after(alloc, 3, 2)?;
    board.turn = 1;
    Ok(board)
}

fn with_chance(alloc: Global, chance: u8) -> Result<Board, AllocError> {
    let mut board = solo_after(alloc, 3, 0)?;
    board.chance = chance;
    Ok(board)
}

fn constrictor_with_food(alloc: Global) -> Result<Board, AllocError> {
    let mut board = solo_after(alloc, 3, 0)?;
    board.mode = Mode::Constrictor;
    board.food = cells(alloc, &[(0, 0)])?;
    Ok(board)
}

#[test]
fn boards_of_a_solo_game_are_legal(rt: HostRuntime) -> Result<(), Fail> {
    let alloc = rt.alloc();
    for turn in 0..3 {
        same("legal", (turn, is_legal_after(alloc, turn)?), (turn, true))?;
    }
    holds(
        "not out in a turn to come",
        !is_legal(&out_too_late(alloc)?),
    )?;
    holds("no chance above 100", !is_legal(&with_chance(alloc, 101)?))?;
    holds(
        "no food in constrictor",
        !is_legal(&constrictor_with_food(alloc)?),
    )
}

/// Makes a wrapped board of five by five on which two snakes have just started.
pub fn wrapped(alloc: Global) -> Result<Board, AllocError> {
    let first = snake(alloc, "s", 100, &[(3, 1), (3, 1), (3, 1)])?;
    let second = snake(alloc, "t", 100, &[(3, 3), (3, 3), (3, 3)])?;
    let snakes = vec![in alloc; first, second]?;
    Ok(board(alloc, Mode::Wrapped, 5, 0, snakes))
}

/// Puts the snake out in turn 1.
fn eliminate(snake: &mut Snake, body: Cells, health: u8, cause: Cause) {
    snake.body = body;
    snake.health = health;
    snake.cause = Some(cause);
    snake.out = Some(1);
}

/// Makes the wrapped board after a turn in which the first snake was eliminated with its head in
/// that column.
fn wrapped_out(alloc: Global, x: i16, cause: Cause, health: u8) -> Result<Board, Fail> {
    let body = cells(alloc, &[(x, 1), (3, 1), (3, 1)])?;
    let mut board = wrapped(alloc)?;
    board.turn = 1;
    holds("two snakes", board.snakes.len() == 2)?;
    eliminate(board.snakes.seat_mut(0), body, health, cause);
    Ok(board)
}

/// A wrapped board is legal only if each head is on it, that of a starved snake too, and no snake
/// is out by the wall.
#[test]
fn heads_of_a_wrapped_board(rt: HostRuntime) -> Result<(), Fail> {
    for (x, cause, health, legal) in [
        (3, Cause::WallCollision, 90, false),
        (5, Cause::WallCollision, 90, false),
        (3, Cause::OutOfHealth, 0, true),
        (5, Cause::OutOfHealth, 0, false),
    ] {
        let board = wrapped_out(rt.alloc(), x, cause, health)?;
        same("legal", (x, cause, is_legal(&board)), (x, cause, legal))?;
    }
    Ok(())
}

/// Snakes and food on a square board of that side, and whether they are a legal setup.
type Setup<'a> = (u8, &'a [(&'a str, i16, i16)], Parts<'a>, bool);

#[test]
fn limits_of_a_setup(rt: HostRuntime) -> Result<(), Fail> {
    let alloc = rt.alloc();
    let cases: [Setup; 5] = [
        (3, &[("s", 1, 1)], &[(0, 2)], true),
        (3, &[("s", 3, 1)], &[], false),
        (26, &[("s", 1, 1)], &[], false),
        (3, &[("s", 1, 1), ("s", 2, 1)], &[], false),
        (3, &[("s", 1, 1)], &[(0, 0), (0, 0)], false),
    ];
    for (side, places, food, fits) in cases {
        let new = setup(alloc, Mode::Standard, side, places, food)?;
        same(
            "a setup",
            (side, places, new.is_some()),
            (side, places, fits),
        )?;
    }
    Ok(())
}

#[test]
fn limits_of_rows_and_turns(rt: HostRuntime) -> Result<(), Fail> {
    let alloc = rt.alloc();
    for (quota, fits) in [
        (15, false),
        (16, true),
        (16_777_216, true),
        (16_777_217, false),
    ] {
        let row = Row::new(Id::from_str(alloc, "a")?, quota);
        same("a row", (quota, row.is_some()), (quota, fits))?;
    }
    for (number, wanted) in [(10_000, Some(10_000)), (10_001, None)] {
        let read = TurnNumber::new(number).map(|turn| turn.number());
        same("a turn", (number, read), (number, wanted))?;
    }
    Ok(())
}
