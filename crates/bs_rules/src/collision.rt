//! Collisions of a turn.

ghost use Rattle.std.specs.Prelude.{◌≡◌, ℕ, ◌<◌, ◌≤◌, None, length, slice_index_or};
ghost use Rattle.bs_board.specs.boards.Legal.{EachSeat};
ghost use Rattle.bs_rules.specs.Collision.{
  length_at,
  is_on_later_part,
  meets_head,
  runs_into,
  collides,
  longer_of,
  killer_of,
  collision_verdict,
  map_seats,
  collided,
  IsJudged,
};
ghost use Rattle.bs_rules.specs.Elimination.{judged};

use crate::verdict::{Verdict, eliminate};
use bs_board::limits::{LAST_TURN, MOST_SNAKES};
use bs_board::{Board, Cause, Snake, Snakes, head_of};

fn is_on_later_part(snake: &Snake, other: &Snake) -> bool
    ensures { result ≡ is_on_later_part snake.now other.now }
{
    let head = head_of(snake.body.as_slice());
    other
        .body
        .as_slice()
        .iter()
        .skip(1)
        .any(|part| head.is_same_cell(*part))
}

fn meets_head(snake: &Snake, other: &Snake) -> bool
    ensures { result ≡ meets_head snake.now other.now }
{
    head_of(snake.body.as_slice()).is_same_cell(head_of(other.body.as_slice()))
        && snake.body.len() <= other.body.len()
}

fn runs_into(cause: Cause, seat: usize, snake: &Snake, other_seat: usize, other: &Snake) -> bool
    ensures { result ≡ runs_into cause seat snake.now other_seat other.now }
{
    match cause {
        Cause::OutOfHealth => false,
        Cause::WallCollision => false,
        Cause::SelfCollision => seat == other_seat && is_on_later_part(snake, other),
        Cause::BodyCollision => seat != other_seat && is_on_later_part(snake, other),
        Cause::HeadCollision => seat != other_seat && meets_head(snake, other),
        Cause::Hazard => false,
    }
}

#[tactic(auto, unfolding(crate::specs::Collision::collides))]
fn collides(snakes: &[Snake], seat: usize, cause: Cause, other: usize) -> bool
    requires seat { seat < length snakes.now }
    requires other { other < length snakes.now }
    ensures { result ≡ collides snakes.now seat cause other }
{
    let (snake, target) = (&snakes[seat], &snakes[other]);
    snake.is_living() && target.is_living() && runs_into(cause, seat, snake, other, target)
}

fn length_at(snakes: &[Snake], seat: usize) -> usize
    ensures { result ≡ length_at snakes.now seat }
{
    match snakes.get(seat) {
        Some(snake) => snake.body.len(),
        None => 0,
    }
}

/// The longer of the killer so far and `other`; the killer so far if equal. `other` if there is no
/// killer so far.
fn longer_of(snakes: &[Snake], killer: Option<usize>, other: usize) -> Option<usize>
    ensures { result ≡ longer_of snakes.now killer other }
{
    match killer {
        Some(seat) if length_at(snakes, seat) >= length_at(snakes, other) => killer,
        _ => Some(other),
    }
}

#[tactic(auto, using(crate::proofs::Killers::killer_among_none, crate::proofs::Killers::killer_among_next))]
fn find_killer(snakes: &[Snake], seat: usize, cause: Cause) -> Option<usize>
    requires { seat < length snakes.now }
    ensures { result ≡ killer_of snakes.now seat cause }
{
    let mut killer = None;
    for other in 0..snakes.len() {
        if collides(snakes, seat, cause, other) {
            killer = longer_of(snakes, killer, other);
        }
    }
    killer
}

#[tactic(auto, unfolding(crate::specs::Collision::collision_verdict))]
fn collision_verdict(snakes: &[Snake], seat: usize) -> Option<Verdict>
    requires { seat < length snakes.now }
    ensures { result ≡ collision_verdict snakes.now seat }
{
    let killer = find_killer(snakes, seat, Cause::SelfCollision);
    if killer.is_some() {
        return Some(Verdict {
            cause: Cause::SelfCollision,
            killer,
        });
    }
    let killer = find_killer(snakes, seat, Cause::BodyCollision);
    if killer.is_some() {
        return Some(Verdict {
            cause: Cause::BodyCollision,
            killer,
        });
    }
    let killer = find_killer(snakes, seat, Cause::HeadCollision);
    if killer.is_some() {
        return Some(Verdict {
            cause: Cause::HeadCollision,
            killer,
        });
    }
    None
}

/// The verdicts of all seats, before any is applied.
fn judge(snakes: &[Snake]) -> [Option<Verdict>; MOST_SNAKES]
    requires { length snakes.now ≤ MOST_SNAKES }
    ensures { (seat : ℕ) → seat < length snakes.now → slice_index_or result seat None ≡ collision_verdict snakes.now seat }
{
    let mut verdicts = [None; MOST_SNAKES];
    for seat in 0..snakes.len() {
        verdicts[seat] = collision_verdict(snakes, seat);
    }
    verdicts
}

#[tactic(auto, using(crate::proofs::Seats::set_next_seat))]
fn put_all_out(verdicts: &[Option<Verdict>], turn: u16, snakes: &mut Snakes)
    requires { length snakes.old ≤ length verdicts.now }
    ensures { snakes.new ≡ map_seats (λ seat s. judged turn (slice_index_or verdicts.now seat None) s) snakes.old }
{
    for seat in 0..snakes.len() {
        eliminate(verdicts[seat], turn, snakes.seat_mut(seat));
    }
}

#[tactic(auto, using(crate::proofs::Seats::map_seats_agree))]
fn judge_all(turn: u16, snakes: &mut Snakes)
    requires { length snakes.old ≤ MOST_SNAKES }
    ensures { snakes.new ≡ map_seats (λ seat s. judged turn (collision_verdict snakes.old seat) s) snakes.old }
{
    let verdicts = judge(snakes.as_slice());
    put_all_out(&verdicts, turn, snakes);
}

/// Eliminates each colliding snake among those alive after the first eliminations. All are judged
/// on one board before any verdict is applied.
pub fn collide(board: &mut Board)
    requires turn { board.old.turn < LAST_TURN }
    requires few { length board.old.snakes ≤ MOST_SNAKES }
    ensures value { board.new ≡ collided board.old }
    ensures meaning { EachSeat (IsJudged board.old) board.new.snakes }
{
    let turn = board.turn + 1;
    judge_all(turn, &mut board.snakes);
}
