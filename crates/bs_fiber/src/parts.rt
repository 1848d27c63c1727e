//! Where the moved snakes of all parts lie, for the Join.
use crate::moved::Moved;
use std::marker::Model;

/// The places of each part's moved snakes, from part 0.
#[derive(Debug, Drop)]
pub struct Parts {
    parts: Vec<Moved>,
}

impl Model for Parts {
    ghost use Rattle.std.specs.Prelude.{List};
    ghost use Rattle.bs_fiber.specs.declared.piece.Piece.{Piece};

    ghost Value = { List (List Piece) };

    ghost view = { λ p. p.parts.items };
}

impl Parts {
    ghost use Rattle.std.specs.Prelude.{◌≡◌};

    /// Makes the list of these parts.
    pub fn from_vec(parts: Vec<Moved>) -> Parts
        ensures { result ≡ parts.items }
    {
        Parts { parts }
    }

    /// The parts, in order.
    pub fn as_slice(&self) -> &[Moved]
        ensures { result.now ≡ self.now }
    {
        self.parts.as_slice()
    }
}
