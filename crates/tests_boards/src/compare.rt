//! Compares boards, member by member.
use bs_board::{Board, Hazards, Snake};
use bs_samples::{holds, same};
use std::test::Fail;

/// Compares two snakes, member by member.
pub fn same_snake(what: &str, snake: &Snake, wanted: &Snake) -> Result<(), Fail> {
    same(what, snake.id.as_str(), wanted.id.as_str())?;
    same(what, snake.body.as_slice(), wanted.body.as_slice())?;
    same(
        what,
        (snake.health, snake.cause),
        (wanted.health, wanted.cause),
    )?;
    same(what, (snake.killer, snake.out), (wanted.killer, wanted.out))
}

/// Compares snakes, seat by seat.
pub fn same_snakes(what: &str, snakes: &[Snake], wanted: &[Snake]) -> Result<(), Fail> {
    same(what, snakes.len(), wanted.len())?;
    for (seat, snake) in snakes.iter().enumerate() {
        same_snake(what, snake, wanted.get(seat).ok_or("a seat")?)?;
    }
    Ok(())
}

/// Compares hazards, entry by entry.
pub fn same_hazards(
    what: &str,
    hazards: &Option<Hazards>,
    wanted: &Option<Hazards>,
) -> Result<(), Fail> {
    match (hazards, wanted) {
        (None, None) => Ok(()),
        (Some(hazards), Some(wanted)) => {
            same(what, hazards.damage, wanted.damage)?;
            same(what, hazards.cells.as_slice(), wanted.cells.as_slice())
        }
        _ => Err(Fail::new(format_args!("{what}: hazards on one side"))),
    }
}

/// Compares two boards, member by member.
pub fn same_board(what: &str, board: &Board, wanted: &Board) -> Result<(), Fail> {
    holds(what, board.mode == wanted.mode)?;
    same(
        what,
        (board.width, board.height),
        (wanted.width, wanted.height),
    )?;
    same(what, board.turn, wanted.turn)?;
    same(
        what,
        (board.min_food, board.chance),
        (wanted.min_food, wanted.chance),
    )?;
    same(what, board.food.as_slice(), wanted.food.as_slice())?;
    same_hazards(what, &board.hazards, &wanted.hazards)?;
    same_snakes(what, board.snakes.as_slice(), wanted.snakes.as_slice())
}
