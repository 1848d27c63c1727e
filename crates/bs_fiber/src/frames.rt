//! Frame blocks: a part writes its moved snakes into its own; a Join reads those of all parts, and
//! writes the new record after those of part 0.
ghost use Rattle.std.specs.Prelude.{◌≡◌, List, ◌++◌, length, flat_map, IfOk, OnOk};
ghost use Rattle.bs_block.specs.Bytes.{HasRoom, padded};
ghost use Rattle.bs_board.specs.declared.boards.snake.Snake.{Snake as AnySnake};
ghost use Rattle.bs_board.specs.records.FitSnake.{IsFitSnake};
ghost use Rattle.bs_fiber.specs.inner.Frames.{HoldAll, HoldsSnakes, IsPieceOf};
ghost use Rattle.bs_fiber.specs.Tickets.{bytes_of, frames_in};

use crate::moved::Moved;
use crate::piece::{Piece, SEATS};
use bs_board::{Decode, Snake, Snakes, decode_snake};
use bs_pool::Owned;
use std::alloc::{AllocError, Global};

/// Appends a record to the block.
#[tactic(auto, using(crate::proofs::Framed::filled))]
pub(crate) fn write_record<const CAP: usize>(owned: &mut Owned<CAP>, record: &[u8])
    requires { HasRoom CAP owned.old.block (length record.now) }
    ensures { owned.new ≡ record owned.old { block = owned.old.block ++ padded record.now } }
{
    let (_, piece) = owned.block_mut().fill(record.len());
    piece.copy_from_slice(record);
}

/// Reads the snake whose record is at that piece of the block.
fn snake_at<const CAP: usize>(
    alloc: Global,
    owned: &Owned<CAP>,
    piece: Piece,
) -> Result<Snake, AllocError>
    requires { (s : AnySnake) × IsFitSnake s × IsPieceOf owned.now.block piece s }
    ensures { IfOk result (λ read. (s : AnySnake) → IsFitSnake s → IsPieceOf owned.now.block piece s → read ≡ s) }
{
    match decode_snake(alloc, owned.block().get(piece.at, piece.len)) {
        Ok(snake) => Ok(snake),
        Err(Decode::Memory) => Err(AllocError),
        Err(Decode::NotARecord) => unreachable!(),
    }
}

/// Reads the moved snakes of a part from its block, and appends them to the seats.
fn read_moved<const CAP: usize>(
    alloc: Global,
    owned: &Owned<CAP>,
    moved: &Moved,
    seats: &mut Vec<Snake>,
) -> Result<(), AllocError>
    requires { (snakes : List AnySnake) × HoldsSnakes snakes moved.now owned.now.block }
    ensures { (snakes : List AnySnake) → HoldsSnakes snakes moved.now owned.now.block → OnOk result (seats.new.items ≡ seats.old.items ++ snakes) }
{
    let pieces = moved.as_slice();
    for piece in pieces {
        seats.push(snake_at(alloc, owned, *piece)?)?;
    }
    Ok(())
}

/// Reads the moved snakes of all parts from their blocks, in seat order.
pub(crate) fn read_all<const CAP: usize>(
    alloc: Global,
    frames: &[Owned<CAP>],
    parts: &[Moved],
) -> Result<Snakes, AllocError>
    requires { (all : List (List AnySnake)) × HoldAll all parts.now (bytes_of (frames_in frames.now)) }
    ensures { (all : List (List AnySnake)) → HoldAll all parts.now (bytes_of (frames_in frames.now)) → IfOk result (λ snakes. snakes ≡ flat_map (λ part. part) all) }
{
    let mut seats = Vec::with_capacity(alloc, SEATS.saturating_mul(parts.len()))?;
    for part in 0..parts.len() {
        read_moved(alloc, &frames[part], &parts[part], &mut seats)?;
    }
    Ok(Snakes::from_vec(seats))
}
