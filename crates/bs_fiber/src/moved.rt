//! Where the records of a part's moved snakes lie.

use crate::piece::{Piece, SEATS};
use arrayvec::ArrayVec;
use std::marker::Model;

/// The piece of a part's frame block for the record of each moved snake, in seat order: one after
/// the other, from the start of the block.
#[derive(Debug, Drop)]
pub struct Moved {
    pieces: ArrayVec<Piece, SEATS>,
}

impl Model for Moved {
    ghost use Rattle.std.specs.Prelude.{List};
    ghost use Rattle.bs_fiber.specs.declared.piece.Piece.{Piece};

    ghost Value = { List Piece };

    ghost view = { λ m. m.pieces.items };
}

impl Moved {
    ghost use Rattle.std.specs.Prelude.{◌≡◌};

    /// Makes the list of these pieces.
    pub(crate) fn new(pieces: ArrayVec<Piece, SEATS>) -> Moved
        ensures { result ≡ pieces.items }
    {
        Moved { pieces }
    }

    /// The pieces, in seat order.
    pub fn as_slice(&self) -> &[Piece]
        ensures { result.now ≡ self.now }
    {
        self.pieces.as_slice()
    }
}
