//! The legality of a board.

ghost use Rattle.std.specs.Prelude.{◌≡◌, ◌≢◌, ◌↔◌, ◌+◌, ◌<◌, ◌≤◌, true, length, IsTrue, All, drop};
ghost use Rattle.std.specs.List.{list_any};
ghost use Rattle.bs_board.specs.boards.Cell.{is_on_board};
ghost use Rattle.bs_board.specs.boards.Legal.{
  IsWithinLimits,
  IsFreeOfFood,
  IsLegalFood,
  IsLegalBody,
  IsLegalLiving,
  IsHealthOf,
  is_near,
  is_head_of,
  may_cause,
  IsOtherSeat,
  IsKillerOf,
  IsTurnBy,
  IsLegalOut,
  IsLegalSnake,
  IsLegal,
  EachSeat,
  are_distinct_ids,
};
ghost use Rattle.bs_board.specs.Texts.{is_same_text};

use crate::boards::area::{are_fit_hazards, is_fit_food, is_side};
use crate::boards::board::{Board, Mode};
use crate::boards::body::head_of;
use crate::boards::point::Point;
use crate::boards::snake::{Cause, Snake};
use crate::id::Id;
use crate::limits::{FIRST_PARTS, FULL_HEALTH, LAST_TURN, MOST_CHANCE, MOST_SNAKES};

/// Whether a game can have this board: its sides, turn, chance and number of snakes are within the
/// limits, and each snake is consistent with the turn, its health and its cause.
pub fn is_legal(board: &Board) -> bool
    ensures { IsTrue result ↔ IsLegal board.now }
{
    is_within_limits(board)
        && is_legal_food(board)
        && are_fit_hazards(board.width, board.height, &board.hazards)
        && have_distinct_ids(board.snakes.as_slice())
        && have_legal_seats(board)
}

fn is_within_limits(board: &Board) -> bool
    ensures { IsTrue result ↔ IsWithinLimits board.now }
{
    is_side(board.width)
        && is_side(board.height)
        && board.turn <= LAST_TURN
        && board.chance <= MOST_CHANCE
        && 1 <= board.snakes.len()
        && board.snakes.len() <= MOST_SNAKES
}

fn is_free_of_food(mode: Mode, food: &[Point]) -> bool
    ensures { IsTrue result ↔ IsFreeOfFood mode food.now }
{
    match mode {
        Mode::Standard => true,
        Mode::Solo => true,
        Mode::Constrictor => food.is_empty(),
        Mode::Wrapped => true,
    }
}

fn is_legal_food(board: &Board) -> bool
    ensures { IsTrue result ↔ IsLegalFood board.now }
{
    let _minimum = board.min_food;
    is_fit_food(board.width, board.height, board.food.as_slice())
        && is_free_of_food(board.mode, board.food.as_slice())
}

fn has_snake(snakes: &[Snake], id: &Id) -> bool
    ensures { result ≡ list_any (λ snake. is_same_text id.now snake.id) snakes.now }
{
    snakes.iter().any(|snake| id.is_same(&snake.id))
}

fn have_distinct_ids(snakes: &[Snake]) -> bool
    ensures { result ≡ are_distinct_ids snakes.now }
{
    for seat in 0..snakes.len() {
        if has_snake(&snakes[seat + 1..], &snakes[seat].id) {
            return false;
        }
    }
    true
}

fn have_legal_seats(board: &Board) -> bool
    ensures { IsTrue result ↔ EachSeat (IsLegalSnake board.now) board.now.snakes }
{
    let snakes = board.snakes.as_slice();
    snakes
        .iter()
        .enumerate()
        .all(|(seat, snake)| is_legal_snake(board, seat, snake))
}

fn is_legal_snake(board: &Board, seat: usize, snake: &Snake) -> bool
    ensures { IsTrue result ↔ IsLegalSnake board.now seat snake.now }
{
    snake.id.is_short()
        && is_legal_body(board, snake.body.as_slice())
        && match snake.cause {
            None => is_legal_living(board, snake),
            Some(cause) => is_legal_out(board, seat, snake, cause),
        }
}

fn is_legal_body(board: &Board, body: &[Point]) -> bool
    ensures { IsTrue result ↔ IsLegalBody board.now body.now }
{
    FIRST_PARTS <= body.len()
        && body.len() <= usize::from(board.turn) + FIRST_PARTS
        && body[1..]
            .iter()
            .all(|part| part.is_on_board(board.width, board.height))
}

fn is_legal_living(board: &Board, snake: &Snake) -> bool
    ensures { IsTrue result ↔ IsLegalLiving board.now snake.now }
{
    1 <= snake.health
        && snake.health <= FULL_HEALTH
        && head_of(snake.body.as_slice()).is_on_board(board.width, board.height)
        && snake.killer.is_none()
        && snake.out.is_none()
}

fn is_legal_out(board: &Board, seat: usize, snake: &Snake, cause: Cause) -> bool
    ensures { IsTrue result ↔ IsLegalOut board.now seat snake.now cause }
{
    is_turn_by(board.turn, snake.out)
        && is_health_of(cause, snake.health)
        && is_head_of(
            board.mode.is_wrapped(),
            cause,
            board.width,
            board.height,
            head_of(snake.body.as_slice()),
        )
        && is_killer_of(cause, board.snakes.len(), seat, snake.killer)
        && may_cause(board.hazards.is_some(), cause)
}

fn is_turn_by(turn: u16, out: Option<u16>) -> bool
    ensures { IsTrue result ↔ IsTurnBy turn out }
{
    match out {
        None => false,
        Some(number) => 1 <= number && number <= turn,
    }
}

fn is_health_of(cause: Cause, health: u8) -> bool
    ensures { IsTrue result ↔ IsHealthOf cause health }
{
    match cause {
        Cause::OutOfHealth => health == 0,
        Cause::WallCollision => 1 <= health && health <= FULL_HEALTH,
        Cause::SelfCollision => 1 <= health && health <= FULL_HEALTH,
        Cause::BodyCollision => 1 <= health && health <= FULL_HEALTH,
        Cause::HeadCollision => 1 <= health && health <= FULL_HEALTH,
        Cause::Hazard => health == 0,
    }
}

pub(crate) fn is_near(width: u8, height: u8, cell: Point) -> bool
    ensures { result ≡ is_near width height cell }
{
    -1 <= cell.x && cell.x <= i16::from(width) && -1 <= cell.y && cell.y <= i16::from(height)
}

fn is_head_of(wraps: bool, cause: Cause, width: u8, height: u8, head: Point) -> bool
    ensures { result ≡ is_head_of wraps cause width height head }
{
    match cause {
        Cause::OutOfHealth => {
            if wraps {
                head.is_on_board(width, height)
            } else {
                is_near(width, height, head)
            }
        }
        Cause::WallCollision => {
            !wraps && is_near(width, height, head) && !head.is_on_board(width, height)
        }
        Cause::SelfCollision => head.is_on_board(width, height),
        Cause::BodyCollision => head.is_on_board(width, height),
        Cause::HeadCollision => head.is_on_board(width, height),
        Cause::Hazard => head.is_on_board(width, height),
    }
}

fn may_cause(hazardous: bool, cause: Cause) -> bool
    ensures { result ≡ may_cause hazardous cause }
{
    match cause {
        Cause::OutOfHealth => true,
        Cause::WallCollision => true,
        Cause::SelfCollision => true,
        Cause::BodyCollision => true,
        Cause::HeadCollision => true,
        Cause::Hazard => hazardous,
    }
}

fn is_other_seat(seats: usize, seat: usize, killer: Option<usize>) -> bool
    ensures { IsTrue result ↔ IsOtherSeat seats seat killer }
{
    match killer {
        None => false,
        Some(other) => other < seats && other != seat,
    }
}

fn is_killer_of(cause: Cause, seats: usize, seat: usize, killer: Option<usize>) -> bool
    ensures { IsTrue result ↔ IsKillerOf cause seats seat killer }
{
    match cause {
        Cause::OutOfHealth => killer.is_none(),
        Cause::WallCollision => killer.is_none(),
        Cause::SelfCollision => killer == Some(seat),
        Cause::BodyCollision => is_other_seat(seats, seat, killer),
        Cause::HeadCollision => is_other_seat(seats, seat, killer),
        Cause::Hazard => killer.is_none(),
    }
}
