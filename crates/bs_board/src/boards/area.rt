//! The sides of a board, and lists of its cells.

ghost use Rattle.std.specs.Prelude.{◌≡◌};
ghost use Rattle.std.specs.List.{list_all, list_any};
ghost use Rattle.bs_board.specs.boards.Cell.{is_on_board, are_distinct_cells, is_same_cell};
ghost use Rattle.bs_board.specs.boards.Hazards.{are_fit_hazards};
ghost use Rattle.bs_board.specs.commands.Setup.{is_side, is_fit_food};

use crate::boards::hazards::Hazards;
use crate::boards::point::Point;
use crate::limits::{LONGEST_SIDE, MOST_DAMAGE, MOST_HAZARDS, SHORTEST_SIDE};

/// Whether a side of a board may have `cells` cells.
pub fn is_side(cells: u8) -> bool
    ensures { result ≡ is_side cells }
{
    SHORTEST_SIDE <= cells && cells <= LONGEST_SIDE
}

/// Whether the cell is in the list.
pub fn has_cell(cells: &[Point], cell: Point) -> bool
    ensures { result ≡ list_any (is_same_cell cell) cells.now }
{
    cells.iter().any(|other| cell.is_same_cell(*other))
}

/// Whether no cell occurs twice.
pub fn are_distinct_cells(cells: &[Point]) -> bool
    ensures { result ≡ are_distinct_cells cells.now }
{
    for index in 0..cells.len() {
        if has_cell(&cells[index + 1..], cells[index]) {
            return false;
        }
    }
    true
}

fn are_on_board(width: u8, height: u8, cells: &[Point]) -> bool
    ensures { result ≡ list_all (is_on_board width height) cells.now }
{
    cells.iter().all(|cell| cell.is_on_board(width, height))
}

/// Whether the food is on the board, with no two on one cell.
pub fn is_fit_food(width: u8, height: u8, food: &[Point]) -> bool
    ensures { result ≡ is_fit_food width height food.now }
{
    are_on_board(width, height, food) && are_distinct_cells(food)
}

/// Whether there are no hazards, or only cells of the board, and not too many, of a damage within
/// its limit.
pub fn are_fit_hazards(width: u8, height: u8, hazards: &Option<Hazards>) -> bool
    ensures { result ≡ are_fit_hazards width height hazards.now }
{
    match hazards {
        None => true,
        Some(hazards) => {
            hazards.damage <= MOST_DAMAGE
                && hazards.cells.len() <= MOST_HAZARDS
                && are_on_board(width, height, hazards.cells.as_slice())
        }
    }
}
