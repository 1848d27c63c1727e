//! Constrictor's growth.

ghost use Rattle.std.specs.Prelude.{◌≡◌, OnOk, map};
ghost use Rattle.bs_modes.specs.Growth.{grown, grown_snake, grown_body, is_stretched};

use bs_board::limits::FULL_HEALTH;
use bs_board::{Board, Cells, Point, Snakes};
use std::alloc::{AllocError, Global};

fn is_stretched(body: &[Point]) -> bool
    ensures { result ≡ is_stretched body.now }
{
    body.len() >= 2 && !body[body.len() - 1].is_same_cell(body[body.len() - 2])
}

#[tactic(auto, unfolding(crate::specs::Growth::grown_body))]
fn grow_body(body: &mut Cells) -> Result<(), AllocError>
    ensures { OnOk result (body.new ≡ grown_body body.old) }
{
    let parts = body.as_slice();
    if is_stretched(parts) {
        let last = parts[parts.len() - 1];
        body.push(last)
    } else {
        Ok(())
    }
}

#[tactic(auto, using(crate::proofs::InPlace::set_next))]
fn grow_snakes(snakes: &mut Snakes) -> Result<(), AllocError>
    ensures { OnOk result (snakes.new ≡ map grown_snake snakes.old) }
{
    for seat in 0..snakes.len() {
        let snake = snakes.seat_mut(seat);
        if snake.is_living() {
            grow_body(&mut snake.body)?;
            snake.health = FULL_HEALTH;
        }
    }
    Ok(())
}

/// Grows each snake of a constrictor game, after the eliminations of a turn: a living snake has
/// full health, and its last part is repeated if its last two parts differ. After an error the
/// board is incomplete and must be dropped.
pub fn grow(_alloc: Global, board: &mut Board) -> Result<(), AllocError>
    ensures { OnOk result (board.new ≡ grown board.old) }
{
    grow_snakes(&mut board.snakes)
}
