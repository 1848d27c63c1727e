//! The record of the new board.

ghost use Rattle.std.specs.Prelude.{◌≡◌, ◌+◌, ◌<◌, ◌∷◌, ◌++◌, Option, OnOk, length};
ghost use Rattle.bs_board.specs.declared.boards.hazards.Hazards.{Hazards as AnyHazards};
ghost use Rattle.bs_board.specs.declared.limits.TheConstants.{LAST_TURN};
ghost use Rattle.bs_board.specs.records.Record.{hazard_bytes, mode_byte, two_bytes, version_byte};
ghost use Rattle.bs_plane.specs.Written.{WritesNext};
ghost use Rattle.bs_plane.specs.inner.Written.{SeesHazards, next_head};

use bs_board::limits::LAST_TURN;
use bs_board::{BoardBytes, Mode};
use std::alloc::AllocError;

fn mode_byte(mode: Mode) -> u8
    ensures { result ≡ mode_byte mode }
{
    match mode {
        Mode::Standard => 0,
        Mode::Solo => 1,
        Mode::Constrictor => 2,
        Mode::Wrapped => 3,
    }
}

/// The version of the record.
fn version_byte(hazardous: bool, mode: Mode) -> u8
    ensures { result ≡ version_byte hazardous mode }
{
    if hazardous {
        return 3;
    }
    match mode {
        Mode::Standard => 1,
        Mode::Solo => 1,
        Mode::Constrictor => 1,
        Mode::Wrapped => 2,
    }
}

/// The bytes before the cells of the food, one turn later.
fn next_head_bytes(board: &BoardBytes<'_>, foods: u16) -> [u8; 11]
    requires turn { board.now.turn < LAST_TURN }
    requires seats { board.now.seats < 256 }
    ensures { result ≡ next_head board.now foods }
{
    let [turn_high, turn_low] = (board.turn + 1).to_be_bytes();
    let [food_high, food_low] = foods.to_be_bytes();
    [
        version_byte(board.hazardous, board.mode),
        mode_byte(board.mode),
        board.width,
        board.height,
        turn_high,
        turn_low,
        board.min_food,
        board.chance,
        board.seats as u8,
        food_high,
        food_low,
    ]
}

/// The damage and the number of the cells.
fn hazard_head(damage: u8, count: u16) -> [u8; 3]
    ensures { result ≡ damage ∷ two_bytes count }
{
    let [high, low] = count.to_be_bytes();
    [damage, high, low]
}

/// Appends the hazards, if there are any.
fn push_hazards(board: &BoardBytes<'_>, into: &mut Vec<u8>) -> Result<(), AllocError>
    requires few { length board.now.hazards.now < 131000 }
    ensures { OnOk result ((h : Option AnyHazards) → SeesHazards h board.now → into.new.items ≡ into.old.items ++ hazard_bytes h) }
{
    if !board.hazardous {
        return Ok(());
    }
    into.extend_from_slice(&hazard_head(board.damage, (board.hazards.len() / 2) as u16))?;
    into.extend_from_slice(board.hazards)?;
    Ok(())
}

/// Writes the record of the board one turn later, with these bytes of food and of snakes.
pub fn write_record(
    board: &BoardBytes<'_>,
    food: &[u8],
    snakes: &[u8],
    into: &mut Vec<u8>,
) -> Result<(), AllocError>
    requires turn { board.now.turn < LAST_TURN }
    requires seats { board.now.seats < 256 }
    requires hazards { length board.now.hazards.now < 131000 }
    requires food { length food.now < 131000 }
    ensures { OnOk result (WritesNext board.now food.now snakes.now into.new.items) }
{
    into.clear();
    into.extend_from_slice(&next_head_bytes(board, (food.len() / 2) as u16))?;
    into.extend_from_slice(food)?;
    push_hazards(board, into)?;
    into.extend_from_slice(snakes)?;
    Ok(())
}
