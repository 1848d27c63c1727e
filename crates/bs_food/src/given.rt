//! Food that a move gives.

ghost use Rattle.std.specs.Prelude.{◌≡◌, OnOk};
ghost use Rattle.std.specs.List.{list_any};
ghost use Rattle.bs_food.specs.Free.{is_free_cell, stands_on};
ghost use Rattle.bs_food.specs.Given.{all_given, given, is_open, with_given_food};

use bs_board::{Board, Cells, Point, Snake, has_cell};
use std::alloc::AllocError;

fn stands_on(cell: Point, snake: &Snake) -> bool
    ensures { result ≡ stands_on cell snake.now }
{
    snake.is_living() && has_cell(snake.body.as_slice(), cell)
}

fn is_taken(cell: Point, snakes: &[Snake]) -> bool
    ensures { result ≡ list_any (stands_on cell) snakes.now }
{
    snakes.iter().any(|snake| stands_on(cell, snake))
}

/// Whether the cell is on the board, with no food and no part of a living snake.
fn is_open(board: &Board, cell: Point) -> bool
    ensures { result ≡ is_open board.now cell }
{
    cell.is_on_board(board.width, board.height)
        && !has_cell(board.food.as_slice(), cell)
        && !is_taken(cell, board.snakes.as_slice())
}

/// Puts food on the cell, if it is free.
#[tactic(auto, unfolding(crate::specs::Given::with_given_food))]
fn give_one(board: &mut Board, cell: Point) -> Result<(), AllocError>
    ensures { OnOk result (board.new ≡ with_given_food board.old cell) }
{
    if is_open(board, cell) {
        board.food.push(cell)
    } else {
        Ok(())
    }
}

#[tactic(auto, using(crate::proofs::GivenFood::none_given))]
fn give_all(board: &mut Board, cells: &[Point]) -> Result<(), AllocError>
    ensures { OnOk result (board.new ≡ all_given cells.now board.old) }
{
    for cell in cells {
        give_one(board, *cell)?;
    }
    Ok(())
}

/// Puts food on each of the cells that is free, in their order. After an error the board is
/// incomplete and must be dropped.
pub fn give(board: &mut Board, cells: &Option<Cells>) -> Result<(), AllocError>
    ensures { OnOk result (board.new ≡ given cells.now board.old) }
{
    match cells {
        None => Ok(()),
        Some(cells) => give_all(board, cells.as_slice()),
    }
}
