//! The plane of a game: the number of parts of living snakes on each cell, and 128 more for food.

ghost use Rattle.std.specs.Prelude.{◌≡◌, slice_index, slice_set};
ghost use Rattle.bs_batch.specs.Counts.{
  CountsLess,
  CountsMore,
  CountsNone,
  IsOnBoard,
  WritesFood,
};

use crate::layout::{STRIDE, Settings};

/// Added where food is.
pub const FOOD: u8 = 0x80;

/// The bits of the number of parts.
pub const PARTS: u8 = 0x7f;

#[inline]
pub fn at(plane: &[u8], cell: u16) -> u8
    ensures { result ≡ slice_index plane.now cell }
{
    match plane.get(usize::from(cell)) {
        Some(count) => *count,
        None => 0,
    }
}

/// Writes the byte of a cell, if the plane has the cell.
#[inline]
fn put(plane: &mut [u8], cell: u16, byte: u8)
    ensures { plane.new ≡ slice_set plane.old cell byte }
{
    if usize::from(cell) < plane.len() {
        plane[usize::from(cell)] = byte;
    }
}

#[inline]
pub fn add_part(plane: &mut [u8], cell: u16)
    ensures { CountsMore cell plane.old plane.new }
{
    let count = at(plane, cell).wrapping_add(1);
    put(plane, cell, count);
}

#[inline]
pub fn remove_part(plane: &mut [u8], cell: u16)
    ensures { CountsLess cell plane.old plane.new }
{
    let count = at(plane, cell).wrapping_sub(1);
    put(plane, cell, count);
}

#[inline]
pub fn add_food(plane: &mut [u8], cell: u16)
    ensures { WritesFood 128 cell plane.old plane.new }
{
    let byte = (at(plane, cell) & PARTS) + FOOD;
    put(plane, cell, byte);
}

#[inline]
pub fn remove_food(plane: &mut [u8], cell: u16)
    ensures { WritesFood 0 cell plane.old plane.new }
{
    let count = at(plane, cell) & PARTS;
    put(plane, cell, count);
}

/// Removes all parts of a body.
pub fn remove_body(plane: &mut [u8], body: &[u16])
    ensures { CountsNone body.now plane.old plane.new }
{
    for cell in body {
        remove_part(plane, *cell);
    }
}

/// Whether the cell is on the board.
#[inline]
pub fn is_on_board(settings: &Settings, cell: u16) -> bool
    ensures { IsOnBoard settings.now cell result }
{
    let (column, row) = (cell % STRIDE, cell / STRIDE);
    1 <= column
        && column <= u16::from(settings.width)
        && 1 <= row
        && row <= u16::from(settings.height)
}
