//! The food that a move gives.

ghost use Rattle.std.specs.Prelude.{IfOk, IsTrue};
ghost use Rattle.bs_food.specs.Given.{all_given, given, with_given_food};
ghost use Rattle.bs_food.specs.Spawning.{with_new_food};
ghost use Rattle.bs_plane.specs.inner.Food.{AddsFood};

use crate::food::put_food_at;
use crate::plane::Plane;
use bs_board::{Cells, Point};
use std::alloc::AllocError;

/// Puts food on a cell of the board.
fn put_given(plane: &mut Plane, cell: Point, into: &mut Vec<u8>) -> Result<bool, AllocError>
    ensures { IfOk result (λ done. IsTrue done → AddsFood (λ b. with_new_food b cell) plane.old into.old.items plane.new into.new.items) }
{
    match plane.place(cell) {
        None => Ok(false),
        Some(place) => put_food_at(plane, place, into),
    }
}

/// Puts food on the cell, if it is free.
fn give_one(plane: &mut Plane, cell: Point, into: &mut Vec<u8>) -> Result<bool, AllocError>
    ensures { IfOk result (λ done. IsTrue done → AddsFood (λ b. with_given_food b cell) plane.old into.old.items plane.new into.new.items) }
{
    if !cell.is_on_board(plane.width, plane.height) {
        return Ok(true);
    }
    match plane.at(cell) {
        None => Ok(false),
        Some(there) => {
            if !there.is_free() {
                return Ok(true);
            }
            put_given(plane, cell, into)
        }
    }
}

/// Puts food on each of the cells that is free when its turn comes.
fn give_all(plane: &mut Plane, cells: &[Point], into: &mut Vec<u8>) -> Result<bool, AllocError>
    ensures { IfOk result (λ done. IsTrue done → AddsFood (all_given cells.now) plane.old into.old.items plane.new into.new.items) }
{
    for cell in cells {
        if !give_one(plane, *cell, into)? {
            return Ok(false);
        }
    }
    Ok(true)
}

/// Adds the food that the move gives. False if the plane cannot follow.
pub(crate) fn give(
    plane: &mut Plane,
    cells: &Option<Cells>,
    into: &mut Vec<u8>,
) -> Result<bool, AllocError>
    ensures { IfOk result (λ done. IsTrue done → AddsFood (given cells.now) plane.old into.old.items plane.new into.new.items) }
{
    match cells {
        None => Ok(true),
        Some(cells) => give_all(plane, cells.as_slice(), into),
    }
}
