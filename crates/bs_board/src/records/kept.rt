//! Readers of parts of a record. None reads more than it needs.

ghost use Rattle.std.specs.Prelude.{◌≡◌, Ok, IfOk, IfErr, MatchResult, drop, take};
ghost use Rattle.bs_board.specs.declared.boards.board.Board.{Board as AnyBoard};
ghost use Rattle.bs_board.specs.declared.records.decode_error.Decode.TheVariants.{Memory};
ghost use Rattle.bs_board.specs.boards.Legal.{IsLegal};
ghost use Rattle.bs_board.specs.inner.Decoder.{Gives, read_without_snakes};
ghost use Rattle.bs_board.specs.records.Layout.{IsBoardBytes};

use crate::boards::board::Board;
use crate::boards::snakes::Snakes;
use crate::records::decode_error::Decode;
use crate::records::decoding::{read_cells, read_hazards, read_head, read_snakes};
use crate::records::layout::{BoardBytes, skip_snakes};
use std::alloc::{AllocError, Global};

/// Unwraps a read that can fail only for memory.
pub(crate) fn found<T>(read: Result<T, Decode>) -> Result<T, AllocError>
    requires { IfErr read (λ error. error ≡ Memory) }
    ensures { IfOk result (λ x. read ≡ Ok x) }
{
    match read {
        Ok(x) => Ok(x),
        Err(Decode::Memory) => Err(AllocError),
        Err(Decode::NotARecord) => unreachable!(),
    }
}

#[tactic(auto, unfolding(crate::specs::inner::Decoder::read_without_snakes))]
pub(crate) fn read_without_snakes(alloc: Global, bytes: &[u8]) -> Result<Board, Decode>
    ensures { Gives (λ board. board) result (read_without_snakes bytes.now) }
{
    let (head, rest) = read_head(bytes)?;
    let (food, rest) = read_cells(alloc, head.food, 0, rest)?;
    let (hazards, _) = read_hazards(alloc, head.hazardous, rest)?;
    Ok(Board {
        mode: head.mode,
        width: head.width,
        height: head.height,
        turn: head.turn,
        min_food: head.min_food,
        chance: head.chance,
        food,
        hazards,
        snakes: Snakes::from_vec(Vec::new(alloc)),
    })
}

/// Decodes the snakes at `count` seats from `from` on, as far as there are any.
pub(crate) fn read_seats(
    alloc: Global,
    board: &BoardBytes<'_>,
    from: usize,
    count: usize,
) -> Result<Snakes, Decode>
    ensures { (b : AnyBoard) → IsLegal b → IsBoardBytes b board.now
        → MatchResult result (λ snakes. snakes ≡ take count (drop from b.snakes)) (λ error. error ≡ Memory) }
{
    let skipped = from.min(board.seats);
    let rest = skip_snakes(skipped, board.snakes);
    let (snakes, _) = read_snakes(alloc, count.min(board.seats - skipped), rest)?;
    Ok(snakes)
}
