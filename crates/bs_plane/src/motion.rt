//! The motion of the snakes in a turn: each record of a snake becomes that of the snake moved, fed
//! and grown.

ghost use Rattle.std.specs.Prelude.{◌≡◌, ◌+◌, ◌-◌, ◌<◌, ◌≤◌, ◌∷◌, ◌++◌, [], not, true, IsTrue, IfOk, IfSome, OnOk, length, slice_index_or, take, drop, cond, false};
ghost use Rattle.bs_board.specs.declared.boards.board.Board.{Board as AnyBoard};
ghost use Rattle.bs_board.specs.declared.boards.snake.Snake.{Snake as AnySnake};
ghost use Rattle.bs_board.specs.boards.Cell.{is_same_cell, origin};
ghost use Rattle.bs_board.specs.boards.Wrap.{AreSides, wrap_of};
ghost use Rattle.bs_board.specs.commands.Setup.{is_side};
ghost use Rattle.bs_board.specs.records.Layout.{IsBoardBytes};
ghost use Rattle.bs_board.specs.records.Record.{cell_bytes, snake_record, two_bytes};
ghost use Rattle.bs_board.specs.records.Writing.{IsByteCell};
ghost use Rattle.bs_board.specs.declared.boards.board.Mode.TheVariants.{Constrictor, Standard};
ghost use Rattle.bs_rules.specs.Motion.{moved};
ghost use Rattle.bs_plane.specs.Onward.{AreAlone, MovesSnakes, ShowsSnakes};
ghost use Rattle.bs_plane.specs.inner.Onward.{HasGround, IsFed, IsStep, MovesSnake, SeesSnake, SwapsBody, advanced, repeated, stepped_by};
ghost use Rattle.bs_plane.specs.Plane.{Shows};
ghost use Rattle.bs_plane.specs.declared.cell.Cell.{Cell as AnyCell};
ghost use Rattle.bs_board.specs.declared.boards.point.Point.{Point as AnyPoint};
ghost use Rattle.bs_board.specs.boards.Legal.{IsLegal};

use crate::plane::Plane;
use bs_board::limits::FULL_HEALTH;
use bs_board::{BoardBytes, Direction, Mode, Moves, Point, SnakeBytes, split_snake};
use bs_rules::next_head;
use std::alloc::AllocError;

/// What a living snake does in a turn.
#[derive(Clone, Copy)]
pub struct Step {
    /// Its new head.
    pub head: Point,
    /// Its health after the turn.
    pub health: u8,
    /// Whether its last part is repeated.
    pub grows: bool,
}

/// The width and height that each step is taken modulo; `None` if a step may leave the board.
#[inline(always)]
fn wrap_of(board: &BoardBytes<'_>) -> Option<(u8, u8)>
    ensures value { (b : AnyBoard) → IsBoardBytes b board.now → result ≡ wrap_of b }
    ensures sides { is_side board.now.width ≡ true → is_side board.now.height ≡ true → AreSides result }
{
    if board.mode.is_wrapped() {
        Some((board.width, board.height))
    } else {
        None
    }
}

/// Whether the last two parts differ once the snake has moved.
#[inline(always)]
fn is_stretched(snake: &SnakeBytes<'_>) -> bool
    requires { 6 ≤ length snake.now.body.now }
    ensures { (s : AnySnake) → SeesSnake s snake.now
        → result ≡ not (is_same_cell (repeated s) (slice_index_or s.body (length s.body - 3) origin)) }
{
    let parts = snake.body.len() / 2;
    !snake.part(parts - 2).is_same_cell(snake.part(parts - 3))
}

/// The step of a snake in constrictor, where there is no food; `None` if it starves.
#[inline(always)]
fn grown(snake: &SnakeBytes<'_>, head: Point) -> Option<Step>
    requires { 6 ≤ length snake.now.body.now }
    ensures { IfSome result (IsFed Constrictor snake.now head false) }
{
    if snake.health < 2 {
        return None;
    }
    Some(Step {
        head,
        health: FULL_HEALTH,
        grows: is_stretched(snake),
    })
}

/// The step of a snake that ate, or did not; `None` if it starves.
#[inline(always)]
fn fed(snake: &SnakeBytes<'_>, head: Point, eats: bool) -> Option<Step>
    requires { 6 ≤ length snake.now.body.now }
    ensures { IfSome result (IsFed Standard snake.now head eats) }
{
    if eats {
        return Some(Step {
            head,
            health: FULL_HEALTH,
            grows: true,
        });
    }
    if snake.health < 2 {
        return None;
    }
    Some(Step {
        head,
        health: snake.health - 1,
        grows: false,
    })
}

/// The step of a snake by the mode; `None` if it starves.
#[inline(always)]
fn fed_in(mode: Mode, snake: &SnakeBytes<'_>, head: Point, eats: bool) -> Option<Step>
    requires { 6 ≤ length snake.now.body.now }
    ensures { IfSome result (IsFed mode snake.now head eats) }
{
    match mode {
        Mode::Constrictor => if eats { None } else { grown(snake, head) },
        Mode::Standard => fed(snake, head, eats),
        Mode::Solo => fed(snake, head, eats),
        Mode::Wrapped => fed(snake, head, eats),
    }
}

/// The cell that the head steps to; `None` if a part that this goes by is not on the board.
#[inline(always)]
fn head_after(
    board: &BoardBytes<'_>,
    snake: &SnakeBytes<'_>,
    given: Option<Direction>,
) -> Option<Point>
    requires width { is_side board.now.width ≡ true }
    requires height { is_side board.now.height ≡ true }
    requires long { 6 ≤ length snake.now.body.now }
    ensures { IfSome result (λ next. (b : AnyBoard) (s : AnySnake) → IsBoardBytes b board.now → SeesSnake s snake.now
        → advanced next s ≡ moved (wrap_of b) given s) }
{
    let head = snake.part(0);
    if !head.is_on_board(board.width, board.height) {
        return None;
    }
    if given.is_some() {
        return Some(next_head(wrap_of(board), given, head, head));
    }
    let second = snake.part(1);
    if !second.is_on_board(board.width, board.height) {
        return None;
    }
    Some(next_head(wrap_of(board), given, head, second))
}

/// What a living snake does; `None` if it is hurt, starves or leaves the board.
#[inline(always)]
fn step_of(
    plane: &Plane,
    board: &BoardBytes<'_>,
    snake: &SnakeBytes<'_>,
    given: Option<Direction>,
) -> Option<Step>
    requires width { is_side board.now.width ≡ true }
    requires height { is_side board.now.height ≡ true }
    requires long { 6 ≤ length snake.now.body.now }
    ensures { IfSome result (λ step. (b : AnyBoard) (s : AnySnake) → IsBoardBytes b board.now → HasGround b plane.now → SeesSnake s snake.now
        → IsStep b given s step) }
{
    let next = head_after(board, snake, given)?;
    match plane.at(next) {
        None => None,
        Some(there) => {
            if there.hazard && !there.food {
                return None;
            }
            fed_in(board.mode, snake, next, there.food)
        }
    }
}

/// Takes the last part off the plane and counts the new head, and the part that is repeated.
#[inline(always)]
fn count_step(plane: &mut Plane, snake: &SnakeBytes<'_>, step: Step) -> bool
    requires { 6 ≤ length snake.now.body.now }
    ensures { IsTrue result → (s : AnySnake) → SeesSnake s snake.now → SwapsBody s.body (stepped_by step s).body plane.old plane.new }
{
    let parts = snake.body.len() / 2;
    if !plane.add_part(step.head) || !plane.remove_part(snake.part(parts - 1)) {
        return false;
    }
    if step.grows {
        plane.add_part(snake.part(parts - 2))
    } else {
        true
    }
}

/// The bytes between the id and the second part.
#[inline(always)]
fn state(parts: u16, step: Step) -> [u8; 9]
    requires { IsByteCell 1 step.head }
    ensures { result ≡ ((step.health ∷ 0 ∷ 0 ∷ 0 ∷ 0 ∷ []) ++ two_bytes parts) ++ cell_bytes 1 step.head }
{
    let [high, low] = parts.to_be_bytes();
    [
        step.health,
        0,
        0,
        0,
        0,
        high,
        low,
        (step.head.x + 1) as u8,
        (step.head.y + 1) as u8,
    ]
}

/// The part before the last one, twice.
#[inline(always)]
fn push_body(into: &mut Vec<u8>, body: &[u8], grows: bool) -> Result<(), AllocError>
    requires { 6 ≤ length body.now }
    ensures { OnOk result (into.new.items ≡ into.old.items ++ (take (length body.now - 2) body.now ++ cond grows (take 2 (drop (length body.now - 4) body.now)) [])) }
{
    into.extend_from_slice(&body[..body.len() - 2])?;
    if grows {
        into.extend_from_slice(&body[body.len() - 4..body.len() - 2])?;
    }
    Ok(())
}

#[inline(always)]
fn one_if(grows: bool) -> usize
    ensures { result ≡ cond grows 1 0 }
{
    if grows { 1 } else { 0 }
}

/// Appends the record of the snake after its step.
#[inline(always)]
fn push_stepped(into: &mut Vec<u8>, snake: &SnakeBytes<'_>, step: Step) -> Result<(), AllocError>
    requires long { 6 ≤ length snake.now.body.now }
    requires short { length snake.now.body.now < 131000 }
    requires id { length snake.now.id.now < 256 }
    requires head { IsByteCell 1 step.head }
    ensures { OnOk result ((s : AnySnake) → SeesSnake s snake.now → into.new.items ≡ into.old.items ++ snake_record (stepped_by step s)) }
{
    let parts = snake.body.len() / 2 + one_if(step.grows);
    into.push(snake.id.len() as u8)?;
    into.extend_from_slice(snake.id)?;
    into.extend_from_slice(&state(parts as u16, step))?;
    push_body(into, snake.body, step.grows)
}

/// Moves a living snake, and gives its new head. `None` if the turn is not one that the plane can
/// follow.
#[inline(always)]
fn move_living(
    plane: &mut Plane,
    board: &BoardBytes<'_>,
    snake: &SnakeBytes<'_>,
    given: Option<Direction>,
    into: &mut Vec<u8>,
) -> Result<Option<Point>, AllocError>
    requires width { is_side board.now.width ≡ true }
    requires height { is_side board.now.height ≡ true }
    ensures { IfOk result (λ moved. IfSome moved (λ head. (b : AnyBoard) (s : AnySnake) → IsBoardBytes b board.now → HasGround b plane.old → SeesSnake s snake.now
        → MovesSnake b given s head plane.old plane.new into.old.items into.new.items)) }
{
    if snake.body.len() < 6 || snake.body.len() >= 131_000 || snake.id.len() > 255 {
        return Ok(None);
    }
    let Some(step) = step_of(plane, board, snake, given) else {
        return Ok(None);
    };
    if !step.head.is_on_board(plane.width, plane.height) || !count_step(plane, snake, step) {
        return Ok(None);
    }
    push_stepped(into, snake, step)?;
    Ok(Some(step.head))
}

/// Moves all snakes of the record, counts their parts on the plane, and appends their new records
/// and the new heads of those that live. False if the turn is not one that the plane can follow: a
/// snake is hurt, starves or leaves the board.
pub fn move_snakes(
    plane: &mut Plane,
    board: &BoardBytes<'_>,
    moves: &Moves,
    into: &mut Vec<u8>,
    heads: &mut Vec<Point>,
) -> Result<bool, AllocError>
    requires width { is_side board.now.width ≡ true }
    requires height { is_side board.now.height ≡ true }
    ensures { IfOk result (λ moved. IsTrue moved → (b : AnyBoard) → IsLegal b → IsBoardBytes b board.now → ShowsSnakes b b.snakes plane.old
        → MovesSnakes (length b.snakes) b moves.now plane.new into.old.items into.new.items heads.old.items heads.new.items) }
{
    let mut left = board.snakes;
    for _ in 0..board.seats {
        let (snake, rest) = split_snake(left);
        if snake.is_living() {
            let given = moves.direction_for(snake.id);
            let Some(head) = move_living(plane, board, &snake, given, into)? else {
                return Ok(false);
            };
            heads.push(head)?;
        } else {
            if rest.len() > left.len() {
                return Ok(false);
            }
            into.extend_from_slice(&left[..left.len() - rest.len()])?;
        }
        left = rest;
    }
    Ok(true)
}

/// Whether one part is on the cell.
#[inline(always)]
fn has_one_part(plane: &Plane, cell: Point) -> bool
    ensures { IsTrue result → (on : AnyPoint → AnyCell) → Shows on plane.now → (on cell).parts ≡ 1 }
{
    match plane.at(cell) {
        None => false,
        Some(there) => there.parts == 1,
    }
}

/// Whether each of the heads is the only part on its cell, so that no snake collides.
pub fn are_alone(plane: &Plane, heads: &[Point]) -> bool
    ensures { IsTrue result → AreAlone heads.now plane.now }
{
    for head in heads {
        if !has_one_part(plane, *head) {
            return false;
        }
    }
    true
}
