//! Cells, snakes and boards.
use bs_board::{Board, Cause, Cells, Id, Mode, Point, Snake, Snakes};
use std::alloc::{AllocError, Global};

/// Cells, as pairs of a column and a row.
pub type Parts<'a> = &'a [(i16, i16)];

/// Makes a list of these cells.
pub fn cells(alloc: Global, parts: Parts) -> Result<Cells, AllocError> {
    let mut cells = Cells::new(alloc);
    for &(x, y) in parts {
        cells.push(Point { x, y })?;
    }
    Ok(cells)
}

/// Makes a snake that is not out. Its head is the first cell.
pub fn snake(alloc: Global, id: &str, health: u8, parts: Parts) -> Result<Snake, AllocError> {
    Ok(Snake {
        id: Id::from_str(alloc, id)?,
        body: cells(alloc, parts)?,
        health,
        cause: None,
        killer: None,
        out: None,
    })
}

/// Makes a square board on which no food spawns.
pub fn board(alloc: Global, mode: Mode, side: u8, turn: u16, snakes: Vec<Snake>) -> Board {
    Board {
        mode,
        width: side,
        height: side,
        turn,
        min_food: 0,
        chance: 0,
        food: Cells::new(alloc),
        hazards: None,
        snakes: Snakes::from_vec(snakes),
    }
}

/// Makes a solo board with the snake `s`.
pub fn solo(
    alloc: Global,
    side: u8,
    turn: u16,
    health: u8,
    parts: Parts,
) -> Result<Board, AllocError> {
    let snake = snake(alloc, "s", health, parts)?;
    let snakes = vec![in alloc; snake]?;
    Ok(board(alloc, Mode::Solo, side, turn, snakes))
}

/// Makes the board of `new_solo`'s game after 0 to 2 turns in which the snake goes up. On a board
/// of three by three the second turn takes it into the wall.
pub fn solo_after(alloc: Global, side: u8, turn: u16) -> Result<Board, AllocError> {
    match turn {
        0 => solo(alloc, side, 0, 100, &[(1, 1), (1, 1), (1, 1)]),
        1 => solo(alloc, side, 1, 99, &[(1, 2), (1, 1), (1, 1)]),
        _ => {
            let mut snake = snake(alloc, "s", 98, &[(1, 3), (1, 2), (1, 1)])?;
            if side == 3 {
                snake.cause = Some(Cause::WallCollision);
                snake.out = Some(2);
            }
            let snakes = vec![in alloc; snake]?;
            Ok(board(alloc, Mode::Solo, side, 2, snakes))
        }
    }
}
