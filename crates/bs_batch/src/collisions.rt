//! The collisions of a turn, all judged on one board.

ghost use Rattle.std.specs.Prelude.{◌≡◌, ℕ, ◌≤◌, ◌<◌, length, None, IsTrue, slice_index_or};
ghost use Rattle.bs_board.specs.declared.boards.board.Board.{Board};
ghost use Rattle.bs_rules.specs.Collision.{collided, collision_verdict};
ghost use Rattle.bs_board.specs.declared.boards.snake.Cause.TheVariants.{
  BodyCollision,
  HeadCollision,
};
ghost use Rattle.bs_batch.specs.inner.Collisions.{
  FindsKiller,
  Hits,
  IsLonger,
  Judges,
  JudgesSeat,
  is_later_number,
  spared,
};
ghost use Rattle.bs_batch.specs.Eliminations.{Eliminates};
ghost use Rattle.bs_batch.specs.inner.Eliminations.{PutsOut};
ghost use Rattle.bs_batch.specs.Shown.{ChangesBoard, HasRoom, ShowsSeats};

use crate::layout::{ALIVE, BODY_COLLISION, HEAD_COLLISION, Head, NO_SEAT, SEATS, SELF_COLLISION};
use crate::planes::{PARTS, at, remove_body};
use crate::seats::{body_of, head_of};

/// The cause and the killer of a seat.
#[derive(Clone, Copy)]
pub struct Verdict {
    pub cause: u8,
    pub killer: u8,
}

/// The verdict of a snake that stays alive.
const SPARED: Verdict = Verdict {
    cause: ALIVE,
    killer: NO_SEAT,
};

#[inline]
fn is_on_later_part(body: &[u16], cell: u16) -> bool
    ensures { result ≡ is_later_number body.now cell }
{
    body.iter().skip(1).any(|part| *part == cell)
}

/// The longer of the killer so far and the other snake, if that one is hit; the killer so far if
/// equal.
#[inline]
fn longer_of(head: &Head, killer: u8, other: usize, hit: bool) -> u8
    requires other { other < SEATS }
    ensures { IsLonger head.now killer other hit result }
{
    if !hit {
        return killer;
    }
    if killer as usize >= SEATS {
        return other as u8;
    }
    if head.seats[killer as usize].parts >= head.seats[other].parts {
        killer
    } else {
        other as u8
    }
}

/// Whether the other snake is alive and the cell is one of its later parts.
#[inline]
fn hits_body(head: &Head, bodies: &[u16], seat: usize, cell: u16, other: usize) -> bool
    requires other { other < SEATS }
    ensures { Hits BodyCollision head.now bodies.now seat cell other result }
{
    if other == seat {
        return false;
    }
    if head.seats[other].cause != ALIVE {
        return false;
    }
    is_on_later_part(body_of(bodies, other, head.seats[other].parts), cell)
}

/// Whether the other snake is alive, has its head on the cell and is no shorter.
#[inline]
fn hits_head(head: &Head, bodies: &[u16], seat: usize, cell: u16, other: usize) -> bool
    requires seat { seat < SEATS }
    requires other { other < SEATS }
    ensures { Hits HeadCollision head.now bodies.now seat cell other result }
{
    if other == seat {
        return false;
    }
    if head.seats[other].cause != ALIVE {
        return false;
    }
    if head_of(body_of(bodies, other, head.seats[other].parts)) != cell {
        return false;
    }
    head.seats[seat].parts <= head.seats[other].parts
}

/// The longest other living snake whose later parts hold the cell.
fn body_killer(head: &Head, bodies: &[u16], seat: usize, cell: u16) -> u8
    requires seats { head.now.settings.seats ≤ SEATS }
    ensures { FindsKiller BodyCollision head.now bodies.now seat cell result }
{
    let mut killer = NO_SEAT;
    for other in 0..usize::from(head.settings.seats) {
        let hit = hits_body(head, bodies, seat, cell, other);
        killer = longer_of(head, killer, other, hit);
    }
    killer
}

/// The longest other living snake whose head is on the cell and that is no shorter.
fn head_killer(head: &Head, bodies: &[u16], seat: usize, cell: u16) -> u8
    requires seats { head.now.settings.seats ≤ SEATS }
    requires seat { seat < SEATS }
    ensures { FindsKiller HeadCollision head.now bodies.now seat cell result }
{
    let mut killer = NO_SEAT;
    for other in 0..usize::from(head.settings.seats) {
        let hit = hits_head(head, bodies, seat, cell, other);
        killer = longer_of(head, killer, other, hit);
    }
    killer
}

/// The verdict on a living seat.
fn verdict_of(head: &Head, bodies: &[u16], seat: usize) -> Verdict
    requires seats { head.now.settings.seats ≤ SEATS }
    requires seat { seat < SEATS }
    ensures { Judges head.now bodies.now seat result }
{
    let own = body_of(bodies, seat, head.seats[seat].parts);
    let cell = head_of(own);
    if is_on_later_part(own, cell) {
        return Verdict {
            cause: SELF_COLLISION,
            killer: seat as u8,
        };
    }
    let killer = body_killer(head, bodies, seat, cell);
    if killer != NO_SEAT {
        return Verdict {
            cause: BODY_COLLISION,
            killer,
        };
    }
    let killer = head_killer(head, bodies, seat, cell);
    if killer != NO_SEAT {
        return Verdict {
            cause: HEAD_COLLISION,
            killer,
        };
    }
    SPARED
}

/// Eliminates the seat in the turn that is played, and takes its parts off the plane.
#[inline]
pub fn eliminate(head: &mut Head, plane: &mut [u8], bodies: &[u16], seat: usize, verdict: Verdict)
    requires seat { seat < SEATS }
    ensures settings { head.new.settings ≡ head.old.settings }
    ensures foods { head.new.foods ≡ head.old.foods }
    ensures board { Eliminates seat verdict bodies.now head.old plane.old head.new plane.new }
{
    remove_body(plane, body_of(bodies, seat, head.seats[seat].parts));
    let out = head.turn.wrapping_add(1);
    let judged = &mut head.seats[seat];
    judged.cause = verdict.cause;
    judged.killer = verdict.killer;
    judged.out = out;
}

/// Whether the snake of a seat is out, or its head is the only part on its cell. Then it collides
/// with nothing.
#[inline]
fn is_alone(head: &Head, plane: &[u8], bodies: &[u16], seat: usize) -> bool
    requires seat { seat < SEATS }
    ensures { (b : Board) → ShowsSeats head.now plane.now bodies.now b → HasRoom 0 b → seat < length b.snakes → IsTrue result → collision_verdict b.snakes seat ≡ None }
{
    if head.seats[seat].cause != ALIVE {
        return true;
    }
    let cell = head_of(body_of(bodies, seat, head.seats[seat].parts));
    at(plane, cell) & PARTS == 1
}

/// Whether the head of each living snake is the only part on its cell. Then nothing collides.
#[inline]
fn are_all_alone(head: &Head, plane: &[u8], bodies: &[u16]) -> bool
    requires seats { head.now.settings.seats ≤ SEATS }
    ensures { (b : Board) → ShowsSeats head.now plane.now bodies.now b → HasRoom 0 b → IsTrue result → collided b ≡ b }
{
    for seat in 0..usize::from(head.settings.seats) {
        if !is_alone(head, plane, bodies, seat) {
            return false;
        }
    }
    true
}

/// The verdict on a seat, if it lives.
#[inline]
fn verdict_at(head: &Head, bodies: &[u16], seat: usize) -> Verdict
    requires seats { head.now.settings.seats ≤ SEATS }
    requires seat { seat < SEATS }
    ensures { JudgesSeat head.now bodies.now seat result }
{
    if head.seats[seat].cause == ALIVE {
        verdict_of(head, bodies, seat)
    } else {
        SPARED
    }
}

/// The verdicts on all seats, before any is applied.
fn judge(head: &Head, bodies: &[u16]) -> [Verdict; SEATS]
    requires seats { head.now.settings.seats ≤ SEATS }
    ensures { (seat : ℕ) → seat < head.now.settings.seats → JudgesSeat head.now bodies.now seat (slice_index_or result seat spared) }
{
    let mut verdicts = [SPARED; SEATS];
    for seat in 0..usize::from(head.settings.seats) {
        verdicts[seat] = verdict_at(head, bodies, seat);
    }
    verdicts
}

/// Eliminates the snake of a seat, if the verdict says so.
#[inline]
fn put_out(head: &mut Head, plane: &mut [u8], bodies: &[u16], seat: usize, verdict: Verdict)
    requires seat { seat < SEATS }
    ensures settings { head.new.settings ≡ head.old.settings }
    ensures foods { head.new.foods ≡ head.old.foods }
    ensures board { PutsOut seat verdict bodies.now head.old plane.old head.new plane.new }
{
    if verdict.cause != ALIVE {
        eliminate(head, plane, bodies, seat, verdict);
    }
}

/// Eliminates each living snake that collides.
pub fn collide(head: &mut Head, plane: &mut [u8], bodies: &[u16])
    requires seats { head.old.settings.seats ≤ SEATS }
    ensures settings { head.new.settings ≡ head.old.settings }
    ensures foods { head.new.foods ≡ head.old.foods }
    ensures board { ChangesBoard collided bodies.now head.old plane.old head.new plane.new }
{
    if are_all_alone(head, plane, bodies) {
        return;
    }
    let verdicts = judge(head, bodies);
    for seat in 0..usize::from(head.settings.seats) {
        put_out(head, plane, bodies, seat, verdicts[seat]);
    }
}
