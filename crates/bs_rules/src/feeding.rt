//! What snakes eat in a turn.

ghost use Rattle.std.specs.Prelude.{◌≡◌, IfOk, OnOk, map};
ghost use Rattle.std.specs.List.{list_any};
ghost use Rattle.bs_board.specs.boards.Cell.{is_same_cell};
ghost use Rattle.bs_rules.specs.Feeding.{has_head_on, eats, fed_snake, food_left, fed, LeavesFood};

use crate::parts::last_of;
use bs_board::limits::FULL_HEALTH;
use bs_board::{Board, Cells, Point, Snake, Snakes, head_of};
use std::alloc::{AllocError, Global};

fn has_head_on(cell: Point, snake: &Snake) -> bool
    ensures { result ≡ has_head_on cell snake.now }
{
    snake.is_living() && head_of(snake.body.as_slice()).is_same_cell(cell)
}

fn is_eaten(cell: Point, snakes: &[Snake]) -> bool
    ensures { result ≡ list_any (has_head_on cell) snakes.now }
{
    snakes.iter().any(|snake| has_head_on(cell, snake))
}

fn food_left(alloc: Global, snakes: &[Snake], food: &[Point]) -> Result<Cells, AllocError>
    ensures { IfOk result (λ cells. cells ≡ food_left snakes.now food.now) }
{
    let left = food
        .iter()
        .copied()
        .filter(|cell| !is_eaten(*cell, snakes))
        .collect(alloc)?;
    Ok(Cells::from_vec(left))
}

fn is_food(food: &[Point], head: Point) -> bool
    ensures { result ≡ list_any (is_same_cell head) food.now }
{
    food.iter().any(|cell| head.is_same_cell(*cell))
}

fn eats(food: &[Point], snake: &Snake) -> bool
    ensures { result ≡ eats food.now snake.now }
{
    snake.is_living() && is_food(food, head_of(snake.body.as_slice()))
}

fn feed_snake(food: &[Point], snake: &mut Snake) -> Result<(), AllocError>
    ensures { OnOk result (snake.new ≡ fed_snake food.now snake.old) }
{
    if eats(food, snake) {
        let last = last_of(snake.body.as_slice());
        snake.body.push(last)?;
        snake.health = FULL_HEALTH;
    }
    Ok(())
}

#[tactic(auto, using(bs_modes::proofs::InPlace::set_next))]
fn feed_snakes(food: &[Point], snakes: &mut Snakes) -> Result<(), AllocError>
    ensures { OnOk result (snakes.new ≡ map (fed_snake food.now) snakes.old) }
{
    for seat in 0..snakes.len() {
        feed_snake(food, snakes.seat_mut(seat))?;
    }
    Ok(())
}

/// Feeds each living snake whose head is on food: sets its health to full, and repeats its last
/// part. Removes the food under such heads. After an error the board is unspecified.
pub fn feed(alloc: Global, board: &mut Board) -> Result<(), AllocError>
    ensures value { OnOk result (board.new ≡ fed board.old) }
    ensures meaning { OnOk result (LeavesFood board.old board.new) }
{
    let left = food_left(alloc, board.snakes.as_slice(), board.food.as_slice())?;
    feed_snakes(board.food.as_slice(), &mut board.snakes)?;
    board.food = left;
    Ok(())
}
