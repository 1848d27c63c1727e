//! Marks of taken cells.

ghost use Rattle.std.specs.Prelude.{◌≡◌, ◌<◌, ◌*◌, true, length};
ghost use Rattle.bs_board.specs.boards.Cell.{is_on_board, cell_index};
ghost use Rattle.bs_food.specs.Marks.{MarksCells, MarksSnakes};
ghost use Rattle.bs_food.specs.inner.Marks.{MarksCell};

use bs_board::{Point, Snake};

/// The index of a cell, row after row from the bottom left.
#[tactic(auto, using(crate::proofs::MarkedCells::place_fits))]
fn cell_index(width: u8, height: u8, cell: Point) -> usize
    requires { is_on_board width height cell ≡ true }
    ensures value { result ≡ cell_index width cell }
    ensures fits { result < width * height }
{
    usize::from(cell.y.unsigned_abs()) * usize::from(width) + usize::from(cell.x.unsigned_abs())
}

/// Marks a cell by its index. A cell off the board is skipped.
#[tactic(auto, using(crate::proofs::MarkedCells::marks_place, crate::proofs::MarkedCells::marks_nothing))]
fn mark(marks: &mut [bool], width: u8, height: u8, cell: Point)
    requires { length marks.old ≡ width * height }
    ensures { MarksCell width height cell marks.old marks.new }
{
    if cell.is_on_board(width, height) {
        marks[cell_index(width, height, cell)] = true;
    }
}

/// Marks all cells that are on the board.
pub fn mark_all(marks: &mut [bool], width: u8, height: u8, cells: &[Point])
    requires { length marks.old ≡ width * height }
    ensures { MarksCells width height cells.now marks.old marks.new }
{
    for cell in cells {
        mark(marks, width, height, *cell);
    }
}

/// Marks all cells of living snakes.
pub fn mark_snakes(marks: &mut [bool], width: u8, height: u8, snakes: &[Snake])
    requires { length marks.old ≡ width * height }
    ensures { MarksSnakes width height snakes.now marks.old marks.new }
{
    for snake in snakes {
        if snake.is_living() {
            mark_all(marks, width, height, snake.body.as_slice());
        }
    }
}
