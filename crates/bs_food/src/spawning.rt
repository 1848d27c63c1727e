//! New food.

ghost use Rattle.std.specs.Prelude.{◌≡◌, OnOk};
ghost use Rattle.bs_food.specs.Spawning.{with_food_by_chance, with_food_up_to_minimum, with_one_food, spawned};

use crate::free::free_cells;
use bs_board::Board;
use bs_board::limits::MOST_CHANCE;
use std::alloc::{AllocError, Global};

/// Puts one food on the free cell that the word selects. Does nothing if no cell is free.
#[tactic(auto, unfolding(crate::specs::Spawning::with_one_food))]
fn place_food(alloc: Global, board: &mut Board, word: u32) -> Result<(), AllocError>
    ensures { OnOk result (board.new ≡ with_one_food word board.old) }
{
    let free = free_cells(alloc, board)?;
    if free.is_empty() {
        return Ok(());
    }
    let cell = free[word as usize % free.len()];
    board.food.push(cell)
}

/// Uses a word for each food below the minimum, as far as there are words.
#[tactic(auto, using(crate::proofs::Minimum::one_word_more))]
fn make_up_food(alloc: Global, board: &mut Board, words: &[u32]) -> Result<(), AllocError>
    ensures { OnOk result (board.new ≡ with_food_up_to_minimum words.now board.old) }
{
    let missing = usize::from(board.min_food).saturating_sub(board.food.len());
    let count = missing.min(words.len());
    for word in &words[..count] {
        place_food(alloc, board, *word)?;
    }
    Ok(())
}

fn add_by_chance(alloc: Global, board: &mut Board, words: &[u32]) -> Result<(), AllocError>
    ensures { OnOk result (board.new ≡ with_food_by_chance words.now board.old) }
{
    let [first, second, ..] = words else {
        return Ok(());
    };
    if first % u32::from(MOST_CHANCE) < u32::from(board.chance) {
        place_food(alloc, board, *second)
    } else {
        Ok(())
    }
}

/// Adds food up to the board's minimum, a word for each. If there is enough already, the first word
/// decides by the chance whether one more appears, and the second where. Stops when no word or no
/// free cell is left. After an error the board is incomplete and must be dropped.
#[tactic(auto, unfolding(crate::specs::Spawning::spawned))]
pub fn spawn(alloc: Global, board: &mut Board, words: &[u32]) -> Result<(), AllocError>
    ensures { OnOk result (board.new ≡ spawned words.now board.old) }
{
    if board.food.len() < usize::from(board.min_food) {
        make_up_food(alloc, board, words)
    } else {
        add_by_chance(alloc, board, words)
    }
}
