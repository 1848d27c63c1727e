//! The seats of a game and their bodies.

ghost use Rattle.std.specs.Prelude.{◌≡◌, ◌≤◌, ◌<◌, List, count_by, slice_index, take};
ghost use Rattle.bs_board.specs.declared.boards.board.Mode.{Mode as AnyMode};
ghost use Rattle.bs_board.specs.declared.boards.snake.Snake.{Snake};
ghost use Rattle.bs_board.specs.boards.Over.{is_living, last_living};
ghost use Rattle.bs_board.specs.records.Record.{mode_byte};
ghost use Rattle.bs_batch.specs.Living.{CountsBoard, ShowsCauses};
ghost use Rattle.bs_batch.specs.Shown.{room_of};

use crate::layout::{ALIVE, Head, SEATS, SOLO};

/// The parts of a seat, its head first.
#[inline]
pub fn body_of(bodies: &[u16], seat: usize, parts: u16) -> &[u16]
    requires seat { seat < SEATS }
    ensures { result.now ≡ take parts (room_of bodies.now seat) }
{
    let row = bodies.len() / SEATS;
    let start = seat * row;
    let parts = usize::from(parts).min(row);
    match bodies.get(start..start + parts) {
        Some(body) => body,
        None => &[],
    }
}

#[inline]
pub fn head_of(body: &[u16]) -> u16
    ensures { result ≡ slice_index body.now 0 }
{
    match body {
        [] => 0,
        [head, ..] => *head,
    }
}

/// The number of living snakes.
fn count_living(head: &Head) -> u8
    requires seats { head.now.settings.seats ≤ SEATS }
    ensures { (snakes : List Snake) → ShowsCauses head.now snakes → result ≡ count_by is_living snakes }
{
    let mut living = 0u8;
    for seat in 0..usize::from(head.settings.seats) {
        let lives = head.seats[seat].cause == ALIVE;
        living = living.wrapping_add(u8::from(lives));
    }
    living
}

/// The largest number of living snakes with which a game of this mode is over.
#[inline]
fn last_living(mode: u8) -> u8
    ensures { (m : AnyMode) → mode ≡ mode_byte m → result ≡ last_living m }
{
    if mode == SOLO { 0 } else { 1 }
}

/// Counts the living snakes, and decides whether the game is over.
pub fn count(head: &mut Head)
    requires seats { head.old.settings.seats ≤ SEATS }
    ensures board { CountsBoard head.old head.new }
{
    head.living = count_living(head);
    head.over = u8::from(head.living <= last_living(head.settings.mode));
}
