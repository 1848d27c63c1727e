//! What hazards do to the snakes of a game.

ghost use Rattle.std.specs.Prelude.{◌≡◌, ◌-◌, ◌*◌, ◌≤◌, ◌<◌};
ghost use Rattle.bs_batch.specs.Shown.{ChangesBoard};
ghost use Rattle.bs_batch.specs.inner.Eliminations.{ChangesSeat};
ghost use Rattle.bs_batch.specs.Hurting.{hurt_all, hurt_at};
ghost use Rattle.bs_batch.specs.inner.Hurting.{CountsAt, SetsHealth};

use crate::collisions::{Verdict, eliminate};
use crate::layout::{ALIVE, FULL_HEALTH, HAZARD, Head, NO_SEAT, SEATS, STRIDE, Settings};
use crate::planes::is_on_board;
use crate::seats::{body_of, head_of};

/// The hazards of a game.
#[derive(Clone, Copy)]
pub struct Hazards<'a> {
    /// How many hazards are on each cell, row by row from the bottom; none where there is no byte.
    pub counts: &'a [u8],
    /// The health that is lost for each.
    pub damage: u8,
}

/// The number of hazards on the cell; none off the board.
#[inline]
fn count_at(settings: &Settings, counts: &[u8], cell: u16) -> u8
    ensures { CountsAt settings.now counts.now cell result }
{
    if !is_on_board(settings, cell) {
        return 0;
    }
    let (column, row) = (usize::from(cell % STRIDE), usize::from(cell / STRIDE));
    let width = usize::from(settings.width);
    match counts.get(row.saturating_sub(1) * width + column.saturating_sub(1)) {
        Some(count) => *count,
        None => 0,
    }
}

/// The health after the damage of so many hazards.
#[inline]
fn health_after(health: u8, damage: u8, count: u8) -> u8
    ensures { result ≡ health - damage * count }
{
    let lost = u16::from(damage) * u16::from(count);
    u16::from(health).saturating_sub(lost) as u8
}

/// Writes the health of a living snake, and eliminates it if none is left.
#[inline]
fn set_health(head: &mut Head, plane: &mut [u8], bodies: &[u16], seat: usize, health: u8)
    requires seat { seat < SEATS }
    ensures settings { head.new.settings ≡ head.old.settings }
    ensures foods { head.new.foods ≡ head.old.foods }
    ensures board { SetsHealth seat health bodies.now head.old plane.old head.new plane.new }
{
    head.seats[seat].health = health;
    if health == 0 {
        let verdict = Verdict {
            cause: HAZARD,
            killer: NO_SEAT,
        };
        eliminate(head, plane, bodies, seat, verdict);
    }
}

/// Hurts the snake of a seat, if it lives, has its head on hazards and has not just eaten: a snake
/// that ate has full health, and no other has after a motion.
#[inline]
fn hurt_at(head: &mut Head, plane: &mut [u8], bodies: &[u16], seat: usize, hazards: Hazards<'_>)
    requires seat { seat < SEATS }
    ensures settings { head.new.settings ≡ head.old.settings }
    ensures foods { head.new.foods ≡ head.old.foods }
    ensures board { ChangesSeat (hurt_at hazards.entry.counts.now hazards.entry.damage) seat bodies.now head.old plane.old head.new plane.new }
{
    let state = head.seats[seat];
    if state.cause != ALIVE {
        return;
    }
    if state.health == FULL_HEALTH {
        return;
    }
    let cell = head_of(body_of(bodies, seat, state.parts));
    let count = count_at(&head.settings, hazards.counts, cell);
    if count == 0 {
        return;
    }
    let health = health_after(state.health, hazards.damage, count);
    set_health(head, plane, bodies, seat, health);
}

/// Hurts the living snakes whose heads are on hazards, after those on food have eaten.
pub fn hurt(head: &mut Head, plane: &mut [u8], bodies: &[u16], hazards: Hazards<'_>)
    requires seats { head.old.settings.seats ≤ SEATS }
    ensures settings { head.new.settings ≡ head.old.settings }
    ensures foods { head.new.foods ≡ head.old.foods }
    ensures board { ChangesBoard (hurt_all hazards.entry.counts.now hazards.entry.damage) bodies.now head.old plane.old head.new plane.new }
{
    if hazards.counts.is_empty() {
        return;
    }
    for seat in 0..usize::from(head.settings.seats) {
        hurt_at(head, plane, bodies, seat, hazards);
    }
}
