//! What a player sees, as planes of bytes.

ghost use Rattle.std.specs.Prelude.{◌≡◌, ◌≤◌, ◌<◌, slice_set};
ghost use Rattle.bs_batch.specs.Showing.{ShowsBoard};
ghost use Rattle.bs_batch.specs.inner.Showing.{
  MarksBody,
  MarksCell,
  MarksFood,
  ShowsFoodPlane,
  ShowsSeatPlane,
};

use crate::layout::{ALIVE, Head, LARGE_SIDE, SEATS, STRIDE, Settings};
use crate::seats::body_of;
use crate::starting::clear_plane;

/// Writes the byte at that index, if the plane has it.
#[inline]
fn put_at(plane: &mut [u8], place: usize, value: u8)
    ensures { plane.new ≡ slice_set plane.old place value }
{
    if place < plane.len() {
        plane[place] = value;
    }
}

/// Writes a byte at the cell's place in a plane of the board, row by row from the bottom.
#[inline]
fn put(settings: &Settings, plane: &mut [u8], cell: u16, value: u8)
    ensures { MarksCell settings.now cell value plane.old plane.new }
{
    let (column, row) = (usize::from(cell % STRIDE), usize::from(cell / STRIDE));
    let width = usize::from(settings.width);
    if column == 0 {
        return;
    }
    if column > width {
        return;
    }
    if row == 0 {
        return;
    }
    put_at(plane, (row - 1) * width + (column - 1), value);
}

fn put_food(settings: &Settings, plane: &mut [u8], food: &[u16])
    ensures { MarksFood settings.now food.now plane.old plane.new }
{
    for cell in food {
        put(settings, plane, *cell, 1);
    }
}

/// Writes each part by the number of turns until it is gone, if nothing is eaten; at most 255.
fn put_body(settings: &Settings, plane: &mut [u8], body: &[u16])
    ensures { MarksBody settings.now body.now plane.old plane.new }
{
    for index in 0..body.len() {
        let cell = body[body.len() - 1 - index];
        put(settings, plane, cell, (index + 1).min(255) as u8);
    }
}

/// Writes the plane of the food, if there is room.
fn show_food(head: &Head, food: &[u16], into: &mut [u8], area: usize)
    ensures { ShowsFoodPlane head.now food.now area into.old into.new }
{
    if area > into.len() {
        return;
    }
    let count = usize::from(head.foods).min(food.len());
    put_food(&head.settings, &mut into[0..area], &food[..count]);
}

/// Writes the plane of a seat whose snake lives, if there is room.
fn show_seat(head: &Head, bodies: &[u16], seat: usize, into: &mut [u8], area: usize)
    requires seat { seat < SEATS }
    requires area { area ≤ 625 }
    ensures { ShowsSeatPlane head.now bodies.now seat area into.old into.new }
{
    if head.seats[seat].cause != ALIVE {
        return;
    }
    let start = (seat + 1) * area;
    if start + area > into.len() {
        return;
    }
    let body = body_of(bodies, seat, head.seats[seat].parts);
    put_body(&head.settings, &mut into[start..start + area], body);
}

/// Writes the planes of a game: its food, then its living snakes by their seats. A plane that has
/// no room is left out.
pub fn show(head: &Head, food: &[u16], bodies: &[u16], into: &mut [u8])
    requires wide { head.now.settings.width ≤ LARGE_SIDE }
    requires high { head.now.settings.height ≤ LARGE_SIDE }
    requires seats { head.now.settings.seats ≤ SEATS }
    ensures { ShowsBoard head.now food.now bodies.now into.new }
{
    let area = usize::from(head.settings.width) * usize::from(head.settings.height);
    clear_plane(into);
    show_food(head, food, into, area);
    for seat in 0..usize::from(head.settings.seats) {
        show_seat(head, bodies, seat, into, area);
    }
}
