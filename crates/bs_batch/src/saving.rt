//! Writes a game as the record of its board. The seats have the ids "0" to "7".

ghost use Rattle.std.specs.Prelude.{◌≡◌, ◌≤◌, ◌<◌};
ghost use Rattle.bs_board.specs.declared.boards.board.Mode.{Mode as AnyMode};
ghost use Rattle.bs_board.specs.records.Record.{mode_byte, plain_version};
ghost use Rattle.bs_batch.specs.Saving.{SavesGame};
ghost use Rattle.bs_batch.specs.inner.Saving.{
  WritesBytes,
  WritesCells,
  WritesHead,
  WritesSeat,
  WritesSnake,
};

use crate::layout::{Head, SEATS, STRIDE, Seat, WRAPPED};
use crate::seats::body_of;

/// Writes the bytes from index `at` on, as far as there is room, and returns the index after them.
fn put(into: &mut [u8], at: usize, bytes: &[u8]) -> usize
    ensures { WritesBytes bytes.now at into.old result into.new }
{
    let end = at.saturating_add(bytes.len());
    if end <= into.len() {
        into[at..end].copy_from_slice(bytes);
    }
    end
}

/// The version of the record of a board of this mode without hazards.
fn version_of(mode: u8) -> u8
    ensures { (m : AnyMode) → mode ≡ mode_byte m → result ≡ plain_version m }
{
    if mode == WRAPPED { 2 } else { 1 }
}

fn put_head(head: &Head, into: &mut [u8]) -> usize
    ensures { WritesHead head.now result into.new }
{
    let (settings, turn, foods) = (head.settings, head.turn, head.foods);
    let bytes = [
        version_of(settings.mode),
        settings.mode,
        settings.width,
        settings.height,
        (turn / 256) as u8,
        (turn % 256) as u8,
        settings.min_food,
        settings.chance,
        settings.seats,
        (foods / 256) as u8,
        (foods % 256) as u8,
    ];
    put(into, 0, &bytes)
}

/// Writes column and row of each cell, counted from `first` at the bottom left.
fn put_cells(into: &mut [u8], at: usize, cells: &[u16], first: u8) -> usize
    ensures { WritesCells first cells.now at into.old result into.new }
{
    let mut end = at;
    for cell in cells {
        let column = (*cell % STRIDE) as u8;
        let row = (*cell / STRIDE).min(255) as u8;
        let bytes = [
            column.wrapping_sub(1).wrapping_add(first),
            row.wrapping_sub(1).wrapping_add(first),
        ];
        end = put(into, end, &bytes);
    }
    end
}

/// Writes the id and the state of a seat.
fn put_seat(into: &mut [u8], at: usize, number: usize, seat: &Seat) -> usize
    requires seat { number < SEATS }
    ensures { WritesSeat number seat.now at into.old result into.new }
{
    let bytes = [
        1,
        b'0' + number as u8,
        seat.health,
        seat.cause,
        seat.killer.wrapping_add(1),
        (seat.out / 256) as u8,
        (seat.out % 256) as u8,
        (seat.parts / 256) as u8,
        (seat.parts % 256) as u8,
    ];
    put(into, at, &bytes)
}

/// Writes the record of a seat's snake.
fn put_snake(head: &Head, bodies: &[u16], seat: usize, into: &mut [u8], at: usize) -> usize
    requires seat { seat < SEATS }
    ensures { WritesSnake head.now bodies.now seat at into.old result into.new }
{
    let state = head.seats[seat];
    let start = put_seat(into, at, seat, &state);
    put_cells(into, start, body_of(bodies, seat, state.parts), 1)
}

/// Writes the record, as far as there is room, and returns its length.
pub fn save(head: &Head, food: &[u16], bodies: &[u16], into: &mut [u8]) -> usize
    requires seats { head.now.settings.seats ≤ SEATS }
    ensures { SavesGame head.now food.now bodies.now into.new result }
{
    let count = usize::from(head.foods).min(food.len());
    let at = put_head(head, into);
    let mut end = put_cells(into, at, &food[..count], 0);
    for seat in 0..usize::from(head.settings.seats) {
        end = put_snake(head, bodies, seat, into, end);
    }
    end
}
