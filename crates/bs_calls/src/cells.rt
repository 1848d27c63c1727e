//! Cells of the caller as cells of a board.

ghost use Rattle.std.specs.Prelude.{◌≡◌, IfOk, map};
ghost use Rattle.bs_calls.specs.BySeat.{point_of, points_if};

use bs_batch::Cell;
use bs_board::{Cells, Point};
use std::alloc::{AllocError, Global};

pub fn point_of(cell: Cell) -> Point
    ensures { result ≡ point_of cell }
{
    Point {
        x: i16::from(cell.x),
        y: i16::from(cell.y),
    }
}

pub fn points_of(alloc: Global, cells: &[Cell]) -> Result<Cells, AllocError>
    ensures { IfOk result (λ points. points ≡ map point_of cells.now) }
{
    let mut points = Vec::with_capacity(alloc, cells.len())?;
    for cell in cells {
        points.push(point_of(*cell))?;
    }
    Ok(Cells::from_vec(points))
}

/// The cells, if the byte is not 0.
pub fn points_if(alloc: Global, flag: u8, cells: &[Cell]) -> Result<Option<Cells>, AllocError>
    ensures { IfOk result (λ points. points ≡ points_if flag cells.now) }
{
    if flag == 0 {
        Ok(None)
    } else {
        Ok(Some(points_of(alloc, cells)?))
    }
}
