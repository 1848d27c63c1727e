//! The motion of a snake.

ghost use Rattle.std.specs.Prelude.{◌≡◌, ◌≤◌, true};
ghost use Rattle.bs_board.specs.declared.boards.point.Point.{Point};
ghost use Rattle.bs_board.specs.boards.Cell.{is_on_board};
ghost use Rattle.bs_rules.specs.Motion.{one_step};
ghost use Rattle.bs_batch.specs.Directions.{direction_of};
ghost use Rattle.bs_batch.specs.Numbers.{number_of};
ghost use Rattle.bs_batch.specs.Steps.{MovesBody, shifted};
ghost use Rattle.bs_batch.specs.inner.Steps.{
  GoesOn,
  StepsBy,
  StepsCell,
  TakesDirection,
  WrapsCell,
  WrapsSide,
};

use crate::layout::{STRIDE, Settings, WRAPPED};
use std::mem;

const UP: u8 = 0;

const DOWN: u8 = 1;

const LEFT: u8 = 2;

const RIGHT: u8 = 3;

/// A column or row, counted from 1, modulo the side of a wrapped board.
#[tactic(auto, using(crate::proofs::Torus::wraps_low, crate::proofs::Torus::wraps_high, crate::proofs::Torus::wraps_between))]
#[inline]
fn within_side(side: u8, raised: u16) -> u16
    ensures small { result ≤ 255 }
    ensures value { WrapsSide side raised result }
{
    if raised == 0 {
        u16::from(side)
    } else if raised > u16::from(side) {
        1
    } else {
        raised
    }
}

/// The cell modulo the sides of a wrapped board.
#[inline]
fn on_torus(settings: &Settings, cell: u16) -> u16
    ensures { WrapsCell settings.now cell result }
{
    let column = within_side(settings.width, cell % STRIDE);
    let row = within_side(settings.height, cell / STRIDE);
    row * STRIDE + column
}

/// What a step adds to the number of a cell, modulo 2^16. To choose it takes no branch.
#[inline]
fn offset_of(direction: u8) -> u16
    ensures { StepsBy direction result }
{
    match direction {
        UP => STRIDE,
        DOWN => 0u16.wrapping_sub(STRIDE),
        LEFT => u16::MAX,
        _ => 1,
    }
}

#[inline]
fn one_step(cell: u16, direction: u8) -> u16
    ensures { (p : Point) → is_on_board 25 25 p ≡ true → cell ≡ number_of p → result ≡ number_of (one_step p (direction_of direction)) }
{
    cell.wrapping_add(offset_of(direction))
}

#[tactic(auto, using(crate::proofs::Neighbors::steps_plain))]
#[inline]
fn neighbor(settings: &Settings, cell: u16, direction: u8) -> u16
    ensures { StepsCell settings.now cell direction result }
{
    let next = one_step(cell, direction);
    if settings.mode == WRAPPED {
        on_torus(settings, next)
    } else {
        next
    }
}

/// The direction of the step from the second part to the head; up if there is none.
fn onward(settings: &Settings, head: u16, second: u16) -> u8
    ensures { GoesOn settings.now head second result }
{
    if neighbor(settings, second, DOWN) == head {
        DOWN
    } else if neighbor(settings, second, LEFT) == head {
        LEFT
    } else if neighbor(settings, second, RIGHT) == head {
        RIGHT
    } else {
        UP
    }
}

/// The given direction, straight on if it is none.
#[inline]
fn taken(settings: &Settings, head: u16, second: u16, given: u8) -> u8
    ensures { TakesDirection settings.now head second given result }
{
    if given <= RIGHT {
        given
    } else {
        onward(settings, head, second)
    }
}

/// Puts a new head first; the last part is lost.
#[inline]
pub fn push_head(body: &mut [u16], head: u16)
    ensures { body.new ≡ shifted head body.old }
{
    let mut carried = head;
    for part in body.iter_mut() {
        carried = mem::replace(part, carried);
    }
}

/// The new head of a body that moves one step in the direction, straight on if it is none, and the
/// part that it loses; two zeros for a body of less than three parts.
#[inline]
pub fn ends_of(settings: &Settings, body: &[u16], given: u8) -> (u16, u16)
    ensures { MovesBody settings.now given body.now (shifted result.0 body.now) result.0 result.1 }
{
    if body.len() < 3 {
        return (0, 0);
    }
    let (head, second, last) = (body[0], body[1], body[body.len() - 1]);
    let direction = taken(settings, head, second, given);
    let next = neighbor(settings, head, direction);
    (next, last)
}
