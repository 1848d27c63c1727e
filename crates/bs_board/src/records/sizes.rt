//! The length of a board's record.

ghost use Rattle.std.specs.Prelude.{◌≡◌, ◌+◌, ◌<◌, ◌^◌, length, sum_by};
ghost use Rattle.bs_board.specs.records.Record.{hazard_bytes, record_of, snake_record};

use crate::boards::board::Board;
use crate::boards::hazards::Hazards;
use crate::boards::snake::Snake;
use crate::records::snake::snake_size;

/// The length of the board's record in bytes: at most 166,888 for a legal board. Requires that the
/// length fits a `usize`.
#[tactic(auto, using(crate::proofs::records::Lengths::length_of_record))]
pub fn size(board: &Board) -> usize
    requires { length (record_of board.now) < 2 ^ 64 }
    ensures { result ≡ length (record_of board.now) }
{
    11 + 2 * board.food.len() + hazards_size(&board.hazards) + snakes_size(board.snakes.as_slice())
}

#[tactic(auto, using(crate::proofs::records::Lengths::length_of_hazards, crate::proofs::records::Lengths::length_of_no_hazards))]
fn hazards_size(hazards: &Option<Hazards>) -> usize
    requires { length (hazard_bytes hazards.now) < 2 ^ 64 }
    ensures { result ≡ length (hazard_bytes hazards.now) }
{
    match hazards {
        None => 0,
        Some(hazards) => 3 + 2 * hazards.cells.len(),
    }
}

fn snakes_size(snakes: &[Snake]) -> usize
    requires { sum_by (λ snake. length (snake_record snake)) snakes.now < 2 ^ 64 }
    ensures { result ≡ sum_by (λ snake. length (snake_record snake)) snakes.now }
{
    let mut total = 0;
    for snake in snakes {
        total += snake_size(snake);
    }
    total
}
