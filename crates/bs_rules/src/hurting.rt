//! What hazards do in a turn.

ghost use Rattle.std.specs.Prelude.{◌≡◌, ◌+◌, ◌<◌, IfOk, count_by, filter, map};
ghost use Rattle.bs_board.specs.boards.Cell.{is_on_board, is_same_cell};
ghost use Rattle.bs_rules.specs.Hurting.{cells_given, hazard_verdict, hazards_after, health_left, hurt, hurt_by, hurt_snake, is_hurt};

use crate::verdict::{Verdict, eliminate};
use bs_board::limits::{LAST_TURN, MOST_HAZARDS};
use bs_board::{Board, Cause, Cells, Hazards, Point, Snake, Snakes, has_cell, head_of};
use std::alloc::{AllocError, Global};

/// Whether the snake lives, with its head on one of the cells and on no food.
fn is_hurt(cells: &[Point], food: &[Point], snake: &Snake) -> bool
    ensures { result ≡ is_hurt cells.now food.now snake.now }
{
    let head = head_of(snake.body.as_slice());
    snake.is_living() && (has_cell(cells, head) && !has_cell(food, head))
}

fn count_cell(cells: &[Point], cell: Point) -> usize
    ensures { result ≡ count_by (is_same_cell cell) cells.now }
{
    cells
        .iter()
        .filter(|other| cell.is_same_cell(**other))
        .count()
}

/// The health after the damage, which is taken once for each entry of the head's cell.
fn health_left(hazards: &Hazards, snake: &Snake) -> u8
    ensures { result ≡ health_left hazards.now snake.now }
{
    let times = count_cell(hazards.cells.as_slice(), head_of(snake.body.as_slice()));
    let lost = usize::from(hazards.damage).saturating_mul(times);
    usize::from(snake.health).saturating_sub(lost) as u8
}

fn hazard_verdict(health: u8) -> Option<Verdict>
    ensures { result ≡ hazard_verdict health }
{
    if health == 0 {
        Some(Verdict {
            cause: Cause::Hazard,
            killer: None,
        })
    } else {
        None
    }
}

fn hurt_by(hazards: &Hazards, turn: u16, snake: &mut Snake)
    ensures { snake.new ≡ hurt_by hazards.now turn snake.old }
{
    let health = health_left(hazards, snake);
    snake.health = health;
    eliminate(hazard_verdict(health), turn, snake);
}

fn hurt_snake(hazards: &Option<Hazards>, food: &[Point], turn: u16, snake: &mut Snake)
    ensures { snake.new ≡ hurt_snake hazards.now food.now turn snake.old }
{
    match hazards {
        None => {}
        Some(hazards) => {
            if is_hurt(hazards.cells.as_slice(), food, snake) {
                hurt_by(hazards, turn, snake);
            }
        }
    }
}

#[tactic(auto, using(bs_modes::proofs::InPlace::set_next))]
fn hurt_snakes(hazards: &Option<Hazards>, food: &[Point], turn: u16, snakes: &mut Snakes)
    ensures { snakes.new ≡ map (hurt_snake hazards.now food.now turn) snakes.old }
{
    for seat in 0..snakes.len() {
        hurt_snake(hazards, food, turn, snakes.seat_mut(seat));
    }
}

/// Hurts each living snake whose head is on a hazard and on no food: it loses the damage once for
/// each entry of that cell, and is eliminated at once if no health is left.
pub fn hurt(board: &mut Board)
    requires { board.old.turn < LAST_TURN }
    ensures { board.new ≡ hurt board.old }
{
    let turn = board.turn + 1;
    hurt_snakes(
        &board.hazards,
        board.food.as_slice(),
        turn,
        &mut board.snakes,
    );
}

fn cells_on_board(
    alloc: Global,
    width: u8,
    height: u8,
    cells: &[Point],
) -> Result<Cells, AllocError>
    ensures { IfOk result (λ given. given ≡ filter (is_on_board width height) cells.now) }
{
    let given = cells
        .iter()
        .copied()
        .filter(|cell| cell.is_on_board(width, height))
        .collect(alloc)?;
    Ok(Cells::from_vec(given))
}

/// The cells on the board, of as many as a board can have.
fn cells_given(alloc: Global, width: u8, height: u8, cells: &[Point]) -> Result<Cells, AllocError>
    ensures { IfOk result (λ given. given ≡ cells_given width height cells.now) }
{
    let few = &cells[..cells.len().min(MOST_HAZARDS)];
    cells_on_board(alloc, width, height, few)
}

/// The hazards from the end of a turn on: the cells that the move gives, if it gives any.
pub fn hazards_after(
    alloc: Global,
    width: u8,
    height: u8,
    given: &Option<Cells>,
    old: Option<Hazards>,
) -> Result<Option<Hazards>, AllocError>
    ensures { IfOk result (λ hazards. hazards ≡ hazards_after width height given.now old) }
{
    match (given, old) {
        (None, old) => Ok(old),
        (Some(_), None) => Ok(None),
        (Some(cells), Some(hazards)) => Ok(Some(Hazards {
            damage: hazards.damage,
            cells: cells_given(alloc, width, height, cells.as_slice())?,
        })),
    }
}
