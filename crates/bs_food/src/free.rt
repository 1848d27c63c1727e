//! The cells on which food may appear.

ghost use Rattle.std.specs.Prelude.{◌≡◌, ◌≤◌, ◌+◌, ◌*◌, ◌<◌, ◌++◌, IfOk, OnOk, length, replicate, false};
ghost use Rattle.bs_food.specs.Free.{free_cells};
ghost use Rattle.bs_food.specs.inner.Marks.{unmarked, unmarked_cell, unmarked_row};

use crate::marks::{mark_all, mark_snakes};
use bs_board::{Board, Point};
use std::alloc::{AllocError, Global};

#[tactic(auto, using(crate::proofs::FreeCells::unmarked_are_free))]
fn mark_taken(taken: &mut [bool], board: &Board)
    requires { taken.old ≡ replicate (board.now.width * board.now.height) false }
    ensures { unmarked board.now.width board.now.height taken.new ≡ free_cells board.now }
{
    let food = board.food.as_slice();
    mark_all(taken, board.width, board.height, food);
    let snakes = board.snakes.as_slice();
    mark_snakes(taken, board.width, board.height, snakes);
}

/// The cells with no food and no part of a living snake, row by row from the bottom, each from the
/// left.
pub fn free_cells(alloc: Global, board: &Board) -> Result<Vec<Point>, AllocError>
    ensures { IfOk result (λ cells. cells.items ≡ free_cells board.now) }
{
    let count = usize::from(board.width) * usize::from(board.height);
    let mut taken = vec![in alloc; false; count]?;
    mark_taken(&mut taken, board);
    let cells = unmarked(alloc, &taken, board.width, board.height)?;
    Ok(cells)
}

/// Appends the cell if it is not marked.
fn push_unmarked(
    free: &mut Vec<Point>,
    taken: &[bool],
    width: u8,
    column: u8,
    row: u8,
) -> Result<(), AllocError>
    requires { row * width + column < length taken.now }
    ensures { OnOk result (free.new.items ≡ free.old.items ++ unmarked_cell width column row taken.now) }
{
    if !taken[usize::from(row) * usize::from(width) + usize::from(column)] {
        free.push(Point {
            x: i16::from(column),
            y: i16::from(row),
        })?;
    }
    Ok(())
}

fn push_row(free: &mut Vec<Point>, taken: &[bool], width: u8, row: u8) -> Result<(), AllocError>
    requires { row * width + width ≤ length taken.now }
    ensures { OnOk result (free.new.items ≡ free.old.items ++ unmarked_row width row taken.now) }
{
    for column in 0..width {
        push_unmarked(free, taken, width, column, row)?;
    }
    Ok(())
}

#[tactic(auto, using(crate::proofs::Rows::unmarked_more))]
fn unmarked(alloc: Global, taken: &[bool], width: u8, height: u8) -> Result<Vec<Point>, AllocError>
    requires { length taken.now ≡ width * height }
    ensures { IfOk result (λ cells. cells.items ≡ unmarked width height taken.now) }
{
    let mut free = Vec::new(alloc);
    for row in 0..height {
        push_row(&mut free, taken, width, row)?;
    }
    Ok(free)
}
