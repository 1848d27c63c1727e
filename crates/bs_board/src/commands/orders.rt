//! The contents of a `move` command.

ghost use Rattle.std.specs.Prelude.{◌≡◌};
ghost use Rattle.bs_board.specs.commands.Orders.{is_ascending};

use crate::boards::cells::{Cells, copy_given};
use crate::commands::moves::Moves;
use crate::commands::words::Words;
use crate::limits::MOST_WORDS;
use std::alloc::{AllocError, Global};
use std::marker::Model;

/// The contents of a `move` command. No value of this type names a snake twice or has more than 32
/// words.
#[derive(Debug, Drop)]
pub struct Move {
    pub moves: Moves,
    pub words: Words,
    /// The hazards from the end of the turn on; `None` leaves them as they are.
    pub hazards: Option<Cells>,
    /// Food that is added at the end of the turn, where its cells are free.
    pub food: Option<Cells>,
}

impl Model for Move {
    ghost use Rattle.bs_board.specs.commands.Orders.{Orders};
    ghost use Rattle.bs_board.specs.inner.Orders.{orders_in, IsAscendingOrders};

    ghost Value = { Orders };

    ghost view = { orders_in };

    ghost invariant = { λ m. IsAscendingOrders (orders_in m) };
}

impl Move {
    ghost use Rattle.std.specs.Prelude.{true, ◌≤◌, length, IfOk};
    ghost use Rattle.bs_board.specs.commands.Orders.{Orders, orders_of, IsFitOrders};

    /// Makes a move with these directions and words, no hazards and no food.
    pub fn new(moves: Moves, words: Words) -> Move
        requires ascending { is_ascending moves ≡ true }
        requires few { length words ≤ MOST_WORDS }
        ensures { result ≡ orders_of moves words }
    {
        moves.are_texts();
        let _words = words.as_slice();
        Move {
            moves,
            words,
            hazards: None,
            food: None,
        }
    }

    /// The move with these hazards and this food.
    pub fn with_map(self, hazards: Option<Cells>, food: Option<Cells>) -> Move
        ensures { result ≡ record self { hazards = hazards; food = food } }
    {
        Move {
            moves: self.moves,
            words: self.words,
            hazards,
            food,
        }
    }

    /// Recalls for the prover that the value is within the limits.
    #[tactic(auto, using(crate::proofs::commands::Ascending::ascending_orders_fit))]
    pub fn fits(&self)
        ensures { IsFitOrders self.now }
    {
        let _moves = &self.moves;
    }

    /// Copies the move.
    pub fn copy(&self, alloc: Global) -> Result<Move, AllocError>
        ensures { IfOk result (λ order. order ≡ self.now) }
    {
        Ok(Move {
            moves: self.moves.copy(alloc)?,
            words: self.words.copy(alloc)?,
            hazards: copy_given(&self.hazards, alloc)?,
            food: copy_given(&self.food, alloc)?,
        })
    }
}
