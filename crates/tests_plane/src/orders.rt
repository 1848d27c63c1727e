//! Drawn moves.
ghost use Rattle.std.specs.Prelude.{◌≡◌};

use crate::draws::Draws;
use bs_board::limits::MOST_WORDS;
use bs_board::{Board, Cells, Direction, Move, Moves, Point, Snake, Words, has_cell, head_of};
use bs_samples::holds;
use std::alloc::{AllocError, Global};
use std::test::Fail;

fn direction(draws: &mut Draws) -> Direction {
    match draws.next(4) {
        0 => Direction::Up,
        1 => Direction::Down,
        2 => Direction::Left,
        _ => Direction::Right,
    }
}

/// The cell one step further.
fn onward(head: Point, direction: Direction) -> Point {
    match direction {
        Direction::Up => Point {
            x: head.x,
            y: head.y.wrapping_add(1),
        },
        Direction::Down => Point {
            x: head.x,
            y: head.y.wrapping_sub(1),
        },
        Direction::Left => Point {
            x: head.x.wrapping_sub(1),
            y: head.y,
        },
        Direction::Right => Point {
            x: head.x.wrapping_add(1),
            y: head.y,
        },
    }
}

/// Whether the cell is on the board and under no living snake.
fn is_open(board: &Board, cell: Point) -> bool {
    let mut open = cell.is_on_board(board.width, board.height);
    for snake in board.snakes.as_slice() {
        open = open && !(snake.is_living() && has_cell(snake.body.as_slice(), cell));
    }
    open
}

/// A direction to an open cell, if some tries find one.
fn chosen(draws: &mut Draws, board: &Board, snake: &Snake) -> Direction {
    let mut last = direction(draws);
    for _ in 0..6 {
        if is_open(board, onward(head_of(snake.body.as_slice()), last)) {
            return last;
        }
        last = direction(draws);
    }
    last
}

fn moves(alloc: Global, draws: &mut Draws, board: &Board) -> Result<Moves, AllocError> {
    let mut moves = Moves::new(alloc);
    for snake in board.snakes.as_slice() {
        if !draws.once_in(12) {
            moves.push(snake.id.as_bytes(), chosen(draws, board, snake))?;
        }
    }
    Ok(moves)
}

fn words(alloc: Global, draws: &mut Draws) -> Result<Vec<u32>, AllocError> {
    let mut words = Vec::new(alloc);
    for _ in 0..draws.next(6) {
        words.push(draws.next(1 << 31) as u32)?;
    }
    Ok(words)
}

/// The cells of food that a move gives, once in three moves; some of them are off the board.
fn food(alloc: Global, draws: &mut Draws, board: &Board) -> Result<Option<Cells>, AllocError> {
    if !draws.once_in(3) {
        return Ok(None);
    }
    let mut cells = Cells::new(alloc);
    for _ in 0..draws.next(8) {
        cells.push(Point {
            x: draws.next(u64::from(board.width).wrapping_add(1)) as i16,
            y: draws.next(u64::from(board.height).wrapping_add(1)) as i16,
        })?;
    }
    Ok(Some(cells))
}

/// A move of that board's snakes, mostly to open cells.
pub fn orders(alloc: Global, draws: &mut Draws, board: &Board) -> Result<Move, Fail> {
    let moves = moves(alloc, draws, board)?;
    let words = words(alloc, draws)?;
    holds("ids in their order", moves.is_ascending())?;
    holds("few words", words.len() <= MOST_WORDS)?;
    let food = food(alloc, draws, board)?;
    Ok(Move::new(moves, Words::from_vec(words)).with_map(None, food))
}
