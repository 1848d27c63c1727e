//! The first board of a game.

ghost use Rattle.std.specs.Prelude.{◌≡◌, IfOk, List, map};
ghost use Rattle.bs_board.specs.boards.Legal.{IsLegal};
ghost use Rattle.bs_modes.specs.FirstBoard.{first_board, first_food, first_snake};

use bs_board::limits::{FIRST_PARTS, FULL_HEALTH};
use bs_board::{Board, Cells, Id, Mode, New, Point, Snake, Snakes, copy_hazards};
use std::alloc::{AllocError, Global};

fn first_snake(alloc: Global, id: &Id, cell: Point) -> Result<Snake, AllocError>
    ensures { IfOk result (λ snake. snake ≡ first_snake (id.now, cell)) }
{
    let mut body = Vec::with_capacity(alloc, FIRST_PARTS)?;
    body.push(cell)?;
    body.push(cell)?;
    body.push(cell)?;
    Ok(Snake {
        id: id.copy(alloc)?,
        body: Cells::from_vec(body),
        health: FULL_HEALTH,
        cause: None,
        killer: None,
        out: None,
    })
}

fn first_snakes(alloc: Global, starts: &[(Id, Point)]) -> Result<Snakes, AllocError>
    ensures { IfOk result (λ snakes. snakes ≡ map first_snake starts.now) }
{
    let mut seats = Vec::with_capacity(alloc, starts.len())?;
    for (id, cell) in starts {
        seats.push(first_snake(alloc, id, *cell)?)?;
    }
    Ok(Snakes::from_vec(seats))
}

fn first_food(alloc: Global, mode: Mode, food: &Cells) -> Result<Cells, AllocError>
    ensures { IfOk result (λ cells. cells ≡ first_food mode food.now) }
{
    match mode {
        Mode::Standard => food.copy(alloc),
        Mode::Solo => food.copy(alloc),
        Mode::Constrictor => Ok(Cells::new(alloc)),
        Mode::Wrapped => food.copy(alloc),
    }
}

/// Makes the board of turn 0. Each snake has three parts on its starting cell and full health. In
/// constrictor the given food is dropped.
#[tactic(auto, using(crate::proofs::FirstLegal::first_board_is_legal), unfolding(crate::specs::FirstBoard::first_board))]
pub fn start(alloc: Global, new: &New) -> Result<Board, AllocError>
    ensures value { IfOk result (λ board. board ≡ first_board new.now) }
    ensures legal { IfOk result IsLegal }
{
    Ok(Board {
        mode: new.mode,
        width: new.width,
        height: new.height,
        turn: 0,
        min_food: new.min_food,
        chance: new.chance,
        food: first_food(alloc, new.mode, &new.food)?,
        hazards: copy_hazards(&new.hazards, alloc)?,
        snakes: first_snakes(alloc, new.snakes.as_slice())?,
    })
}
