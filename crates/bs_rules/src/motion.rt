//! The motion of snakes in a turn.

ghost use Rattle.std.specs.Prelude.{◌≡◌, ◌≤◌, [], ◌∷◌, true, IfOk, All, map, length};
ghost use Rattle.bs_board.specs.boards.Legal.{is_near};
ghost use Rattle.bs_board.specs.boards.Wrap.{AreSides};
ghost use Rattle.bs_rules.specs.Motion.{
  second_of,
  one_step,
  on_torus,
  neighbor,
  onward,
  direction_taken,
  moved_body,
  moved,
  moved_seats,
  IsMovable,
};

use crate::parts::second_of;
use bs_board::limits::LONGEST_SIDE;
use bs_board::{Cells, Direction, Moves, Point, Snake, Snakes, head_of};
use std::alloc::{AllocError, Global};

fn one_step(cell: Point, direction: Direction) -> Point
    requires { is_near LONGEST_SIDE LONGEST_SIDE cell ≡ true }
    ensures { result ≡ one_step cell direction }
{
    match direction {
        Direction::Up => Point {
            x: cell.x,
            y: cell.y + 1,
        },
        Direction::Down => Point {
            x: cell.x,
            y: cell.y - 1,
        },
        Direction::Left => Point {
            x: cell.x - 1,
            y: cell.y,
        },
        Direction::Right => Point {
            x: cell.x + 1,
            y: cell.y,
        },
    }
}

/// On a wrapped board, the column modulo the width and the row modulo the height.
fn on_torus(wrap: Option<(u8, u8)>, cell: Point) -> Point
    requires { AreSides wrap }
    ensures { result ≡ on_torus wrap cell }
{
    match wrap {
        None => cell,
        Some((width, height)) => Point {
            x: cell.x.rem_euclid(i16::from(width)),
            y: cell.y.rem_euclid(i16::from(height)),
        },
    }
}

fn neighbor(wrap: Option<(u8, u8)>, cell: Point, direction: Direction) -> Point
    requires sides { AreSides wrap }
    requires near { is_near LONGEST_SIDE LONGEST_SIDE cell ≡ true }
    ensures { result ≡ neighbor wrap cell direction }
{
    on_torus(wrap, one_step(cell, direction))
}

fn onward(wrap: Option<(u8, u8)>, body: &[Point]) -> Direction
    requires sides { AreSides wrap }
    requires near { is_near LONGEST_SIDE LONGEST_SIDE (second_of body.now) ≡ true }
    ensures { result ≡ onward wrap body.now }
{
    let head = head_of(body);
    let second = second_of(body);
    if neighbor(wrap, second, Direction::Down).is_same_cell(head) {
        Direction::Down
    } else if neighbor(wrap, second, Direction::Left).is_same_cell(head) {
        Direction::Left
    } else if neighbor(wrap, second, Direction::Right).is_same_cell(head) {
        Direction::Right
    } else {
        Direction::Up
    }
}

fn direction_taken(wrap: Option<(u8, u8)>, given: Option<Direction>, body: &[Point]) -> Direction
    requires sides { AreSides wrap }
    requires near { is_near LONGEST_SIDE LONGEST_SIDE (second_of body.now) ≡ true }
    ensures { result ≡ direction_taken wrap given body.now }
{
    match given {
        Some(direction) => direction,
        None => onward(wrap, body),
    }
}

fn step_body(body: &mut Cells, given: Option<Direction>, wrap: Option<(u8, u8)>)
    requires sides { AreSides wrap }
    requires some { 1 ≤ length body.old }
    requires near { All (λ p. is_near LONGEST_SIDE LONGEST_SIDE p ≡ true) body.old }
    ensures { body.new ≡ moved_body wrap given body.old }
{
    let parts = body.as_slice();
    let head = neighbor(wrap, head_of(parts), direction_taken(wrap, given, parts));
    body.step_to(head);
}

fn step_snake(snake: &mut Snake, given: Option<Direction>, wrap: Option<(u8, u8)>)
    requires body { IsMovable snake.old }
    requires sides { AreSides wrap }
    ensures { snake.new ≡ moved wrap given snake.old }
{
    if snake.is_living() {
        step_body(&mut snake.body, given, wrap);
        snake.health = snake.health.saturating_sub(1);
    }
}

/// Moves a living snake one step, in the given direction or else straight on: it gets a new head,
/// loses its last part, and has one health less. An eliminated snake is copied unchanged. `wrap` is
/// the width and height of a wrapped board: each step is taken modulo these.
pub fn move_snake(
    alloc: Global,
    snake: &Snake,
    given: Option<Direction>,
    wrap: Option<(u8, u8)>,
) -> Result<Snake, AllocError>
    requires body { IsMovable snake.now }
    requires sides { AreSides wrap }
    ensures { IfOk result (λ next. next ≡ moved wrap given snake.now) }
{
    let mut next = snake.copy(alloc)?;
    step_snake(&mut next, given, wrap);
    Ok(next)
}

/// The cell that the head of a living snake steps to, from the head and the part behind it.
#[inline(always)]
pub fn next_head(
    wrap: Option<(u8, u8)>,
    given: Option<Direction>,
    head: Point,
    second: Point,
) -> Point
    requires sides { AreSides wrap }
    requires head { is_near LONGEST_SIDE LONGEST_SIDE head ≡ true }
    requires second { is_near LONGEST_SIDE LONGEST_SIDE second ≡ true }
    ensures { result ≡ neighbor wrap head (direction_taken wrap given (head ∷ second ∷ [])) }
{
    let direction = match given {
        Some(direction) => direction,
        None => onward(wrap, &[head, second]),
    };
    neighbor(wrap, head, direction)
}

/// Moves any number of seats in place, each in the direction given for its id. A whole turn moves
/// all seats by this call; a part of a move moves some of them.
pub fn move_snakes(snakes: &mut Snakes, moves: &Moves, wrap: Option<(u8, u8)>)
    requires bodies { All IsMovable snakes.old }
    requires sides { AreSides wrap }
    ensures { snakes.new ≡ moved_seats wrap moves.now snakes.old }
{
    for seat in 0..snakes.len() {
        let snake = snakes.seat_mut(seat);
        let given = moves.direction_for(snake.id.as_bytes());
        step_snake(snake, given, wrap);
    }
}
