//! One turn of one game.

ghost use Rattle.std.specs.Prelude.{◌≡◌, ◌≤◌, ◌<◌, min, slice_index_or, take};
ghost use Rattle.bs_rules.specs.Elimination.{starved_or_outside};
ghost use Rattle.bs_batch.specs.Shown.{ChangesBoard, room_of};
ghost use Rattle.bs_batch.specs.inner.Eliminations.{ChangesSeat, IsFirstCause, starved_or_outside_at};
ghost use Rattle.bs_batch.specs.inner.Seats.{
  FeedsSeat,
  GrowsAt,
  GrowsSeat,
  GrowsSeats,
  IsStretched,
  MovesAt,
  MovesSeat,
  MovesSeats,
  RepeatsLast,
};
ghost use Rattle.bs_batch.specs.Turn.{PlaysTurn};
ghost use Rattle.bs_batch.specs.inner.Turns.{EndsTurn, MovesAndFeeds, Replenishes};

use crate::collisions::{Verdict, collide, eliminate};
use crate::food::{remove_eaten, spawn};
use crate::hazards::{Hazards, hurt};
use crate::layout::{
    ALIVE, CONSTRICTOR, FULL_HEALTH, Head, LARGE_SIDE, NO_SEAT, OUT_OF_HEALTH, SEATS, Seat,
    Settings, WALL_COLLISION, WRAPPED,
};
use crate::motion::{ends_of, push_head};
use crate::planes::{FOOD, add_part, at, is_on_board, remove_part};
use crate::seats::{body_of, count, head_of};

/// The directions, the words and the hazards of a turn.
#[derive(Clone, Copy)]
pub struct Orders<'a> {
    /// A byte for each seat: 0 to 3 for up, down, left and right, else straight on.
    pub moves: &'a [u8],
    pub words: &'a [u32],
    pub hazards: Hazards<'a>,
}

/// The parts of a body that move at once.
const LANES: usize = 16;

/// Repeats the last part, if there is room.
#[inline]
fn repeat_last(seat: &mut Seat, plane: &mut [u8], room: &mut [u16])
    ensures { RepeatsLast seat.old room.old plane.old seat.new room.new plane.new }
{
    let parts = usize::from(seat.parts);
    if parts == 0 {
        return;
    }
    if parts >= room.len() {
        return;
    }
    let last = room[parts - 1];
    room[parts] = last;
    add_part(plane, last);
    seat.parts = seat.parts.wrapping_add(1);
}

/// The number of parts, rounded up to whole lanes as far as there is room.
#[inline]
fn in_lanes(parts: u16, room: usize) -> usize
    ensures least { min parts room ≤ result }
    ensures most { result ≤ room }
{
    ((usize::from(parts) + LANES - 1) / LANES * LANES).min(room)
}

/// Moves a living snake. Returns the cell of its head. What lies behind the body moves too, up to a
/// whole lane, so that no loop ends by the length of the body.
#[inline]
fn move_seat(
    settings: &Settings,
    seat: &mut Seat,
    plane: &mut [u8],
    room: &mut [u16],
    given: u8,
) -> u16
    ensures { MovesSeat settings.now given seat.old room.old plane.old seat.new room.new plane.new result }
{
    let parts = usize::from(seat.parts).min(room.len());
    let (next, lost) = ends_of(settings, &room[..parts], given);
    let lanes = in_lanes(seat.parts, room.len());
    push_head(&mut room[..lanes], next);
    remove_part(plane, lost);
    add_part(plane, next);
    seat.health = seat.health.saturating_sub(1);
    next
}

/// Feeds a living snake whose head is on the cell, if food is there. Returns whether it ate.
#[inline]
fn feed_seat(seat: &mut Seat, plane: &mut [u8], room: &mut [u16], head: u16) -> bool
    ensures { FeedsSeat seat.old room.old plane.old head seat.new room.new plane.new result }
{
    if at(plane, head) < FOOD {
        return false;
    }
    seat.health = FULL_HEALTH;
    repeat_last(seat, plane, room);
    true
}

/// Moves and feeds the snake of a seat, if it lives. Returns whether it ate.
#[inline]
fn move_at(head: &mut Head, plane: &mut [u8], bodies: &mut [u16], seat: usize, given: u8) -> bool
    requires seat { seat < SEATS }
    ensures settings { head.new.settings ≡ head.old.settings }
    ensures foods { head.new.foods ≡ head.old.foods }
    ensures board { MovesAt seat given head.old bodies.old plane.old head.new bodies.new plane.new result }
{
    if head.seats[seat].cause != ALIVE {
        return false;
    }
    let row = bodies.len() / SEATS;
    let start = seat * row;
    let settings = head.settings;
    let state = &mut head.seats[seat];
    let room = &mut bodies[start..start + row];
    let next = move_seat(&settings, state, plane, room, given);
    feed_seat(state, plane, room, next)
}

/// The byte of a seat; one that is no direction if there is none.
#[inline]
fn given_to(moves: &[u8], seat: usize) -> u8
    ensures { result ≡ slice_index_or moves.now seat 4 }
{
    match moves.get(seat) {
        Some(given) => *given,
        None => 4,
    }
}

/// Moves and feeds all living snakes. Returns whether any ate.
fn move_seats(head: &mut Head, plane: &mut [u8], bodies: &mut [u16], moves: &[u8]) -> bool
    requires seats { head.old.settings.seats ≤ SEATS }
    ensures settings { head.new.settings ≡ head.old.settings }
    ensures foods { head.new.foods ≡ head.old.foods }
    ensures board { MovesSeats moves.now head.old bodies.old plane.old head.new bodies.new plane.new result }
{
    let mut any = false;
    for seat in 0..usize::from(head.settings.seats) {
        let given = given_to(moves, seat);
        any |= move_at(head, plane, bodies, seat, given);
    }
    any
}

/// Why a snake is out before collisions: it starved, or else it left the board; 0 if neither.
#[inline]
fn first_cause(settings: &Settings, health: u8, bodies: &[u16], seat: usize, parts: u16) -> u8
    requires seat { seat < SEATS }
    ensures { IsFirstCause settings.now health (take parts (room_of bodies.now seat)) result }
{
    if health == 0 {
        OUT_OF_HEALTH
    } else if settings.mode != WRAPPED
        && !is_on_board(settings, head_of(body_of(bodies, seat, parts)))
    {
        WALL_COLLISION
    } else {
        ALIVE
    }
}

/// Eliminates the snake of a seat if it starved or left the board.
#[inline]
fn first_out_at(head: &mut Head, plane: &mut [u8], bodies: &[u16], seat: usize)
    requires seat { seat < SEATS }
    ensures settings { head.new.settings ≡ head.old.settings }
    ensures foods { head.new.foods ≡ head.old.foods }
    ensures board { ChangesSeat starved_or_outside_at seat bodies.now head.old plane.old head.new plane.new }
{
    if head.seats[seat].cause == ALIVE {
        let (health, parts) = (head.seats[seat].health, head.seats[seat].parts);
        let cause = first_cause(&head.settings, health, bodies, seat, parts);
        if cause != ALIVE {
            let verdict = Verdict {
                cause,
                killer: NO_SEAT,
            };
            eliminate(head, plane, bodies, seat, verdict);
        }
    }
}

/// Eliminates the snakes that starved and those that left the board.
fn first_out(head: &mut Head, plane: &mut [u8], bodies: &[u16])
    requires seats { head.old.settings.seats ≤ SEATS }
    ensures settings { head.new.settings ≡ head.old.settings }
    ensures foods { head.new.foods ≡ head.old.foods }
    ensures board { ChangesBoard starved_or_outside bodies.now head.old plane.old head.new plane.new }
{
    for seat in 0..usize::from(head.settings.seats) {
        first_out_at(head, plane, bodies, seat);
    }
}

/// Whether the last two parts of a seat differ.
#[inline]
fn is_stretched(seat: &Seat, room: &[u16]) -> bool
    ensures { IsStretched seat.now room.now result }
{
    let parts = usize::from(seat.parts);
    if parts < 2 {
        return false;
    }
    if parts > room.len() {
        return false;
    }
    room[parts - 1] != room[parts - 2]
}

/// Grows a living snake of constrictor.
#[inline]
fn grow_seat(state: &mut Seat, plane: &mut [u8], room: &mut [u16])
    ensures { GrowsSeat state.old room.old plane.old state.new room.new plane.new }
{
    state.health = FULL_HEALTH;
    if !is_stretched(state, room) {
        return;
    }
    repeat_last(state, plane, room);
}

/// Grows the snake of a seat, if it lives.
#[inline]
fn grow_at(head: &mut Head, plane: &mut [u8], bodies: &mut [u16], seat: usize)
    requires seat { seat < SEATS }
    ensures settings { head.new.settings ≡ head.old.settings }
    ensures foods { head.new.foods ≡ head.old.foods }
    ensures board { GrowsAt seat head.old bodies.old plane.old head.new bodies.new plane.new }
{
    if head.seats[seat].cause != ALIVE {
        return;
    }
    let row = bodies.len() / SEATS;
    let from = seat * row;
    let state = &mut head.seats[seat];
    let room = &mut bodies[from..from + row];
    grow_seat(state, plane, room);
}

/// Grows all living snakes.
fn grow(head: &mut Head, plane: &mut [u8], bodies: &mut [u16])
    requires seats { head.old.settings.seats ≤ SEATS }
    ensures settings { head.new.settings ≡ head.old.settings }
    ensures foods { head.new.foods ≡ head.old.foods }
    ensures board { GrowsSeats head.old bodies.old plane.old head.new bodies.new plane.new }
{
    for seat in 0..usize::from(head.settings.seats) {
        grow_at(head, plane, bodies, seat);
    }
}

/// Moves and feeds all living snakes, and removes the food that they ate.
#[inline]
fn move_and_feed(
    head: &mut Head,
    food: &mut [u16],
    plane: &mut [u8],
    bodies: &mut [u16],
    moves: &[u8],
)
    requires seats { head.old.settings.seats ≤ SEATS }
    ensures settings { head.new.settings ≡ head.old.settings }
    ensures board { MovesAndFeeds moves.now head.old food.old plane.old bodies.old head.new food.new plane.new bodies.new }
{
    let any = move_seats(head, plane, bodies, moves);
    if !any {
        return;
    }
    remove_eaten(head, food, plane, bodies);
}

/// Grows the living snakes in constrictor; in the other modes adds food.
#[inline]
fn replenish(head: &mut Head, food: &mut [u16], plane: &mut [u8], bodies: &mut [u16], words: &[u32])
    requires high { head.old.settings.height ≤ LARGE_SIDE }
    requires seats { head.old.settings.seats ≤ SEATS }
    ensures settings { head.new.settings ≡ head.old.settings }
    ensures board { Replenishes words.now head.old food.old plane.old bodies.old head.new food.new plane.new bodies.new }
{
    if head.settings.mode == CONSTRICTOR {
        grow(head, plane, bodies);
        return;
    }
    spawn(head, food, plane, words);
}

/// Raises the turn number, and counts the living snakes.
#[inline]
fn end_turn(head: &mut Head)
    requires seats { head.old.settings.seats ≤ SEATS }
    ensures board { EndsTurn head.old head.new }
{
    head.turn = head.turn.wrapping_add(1);
    count(head);
}

/// Plays a turn of a game.
pub fn step(
    head: &mut Head,
    food: &mut [u16],
    plane: &mut [u8],
    bodies: &mut [u16],
    orders: Orders<'_>,
)
    requires high { head.old.settings.height ≤ LARGE_SIDE }
    requires seats { head.old.settings.seats ≤ SEATS }
    ensures board { PlaysTurn orders.entry.moves.now orders.entry.words.now orders.entry.hazards.counts.now orders.entry.hazards.damage head.old food.old plane.old bodies.old head.new food.new plane.new bodies.new }
{
    move_and_feed(head, food, plane, bodies, orders.moves);
    hurt(head, plane, bodies, orders.hazards);
    first_out(head, plane, bodies);
    collide(head, plane, bodies);
    replenish(head, food, plane, bodies, orders.words);
    end_turn(head);
}
