//! The snakes of a board, by their seats.

use crate::boards::snake::Snake;
use std::alloc::{AllocError, Global};
use std::marker::Model;

/// The snakes of a board in the order of their seats, from seat 0.
#[derive(Debug, Drop)]
pub struct Snakes {
    seats: Vec<Snake>,
}

impl Model for Snakes {
    ghost use Rattle.std.specs.Prelude.{List};
    ghost use Rattle.bs_board.specs.declared.boards.snake.Snake.{Snake};

    ghost Value = { List Snake };

    ghost view = { λ s. s.seats.items };
}

impl Snakes {
    ghost use Rattle.std.specs.Prelude.{◌≡◌, ◌<◌, Some, IfOk, length, slice_get};
    ghost use Rattle.std.specs.Borrow.{sem};
    ghost use Rattle.bs_board.specs.boards.Lending.{LendsSeat};

    /// Makes the list of these entries, in order.
    pub fn from_vec(seats: Vec<Snake>) -> Snakes
        ensures { result ≡ seats.items }
    {
        Snakes { seats }
    }

    /// Converts the list into a vector.
    pub fn into_vec(self) -> Vec<Snake>
        ensures { result.items ≡ self }
    {
        let Snakes { seats } = self;
        seats
    }

    /// The entries, in order.
    pub fn as_slice(&self) -> &[Snake]
        ensures { result.now ≡ self.now }
    {
        self.seats.as_slice()
    }

    /// The number of entries.
    pub fn len(&self) -> usize
        ensures { result ≡ length self.now }
    {
        self.seats.len()
    }

    /// One snake, to write; the others are unchanged.
    pub fn seat_mut(&mut self, seat: usize) -> &mut Snake
        requires { seat < length self.old }
        ensures value { slice_get self.old seat ≡ Some result.now }
        ensures* writes_back { sem 𝓛 (LendsSeat self.entry seat result) }
    {
        &mut self.seats[seat]
    }

    /// Copies the list.
    pub fn copy(&self, alloc: Global) -> Result<Snakes, AllocError>
        ensures { IfOk result (λ snakes. snakes ≡ self.now) }
    {
        let mut seats = Vec::with_capacity(alloc, self.len())?;
        for snake in self.as_slice() {
            seats.push(snake.copy(alloc)?)?;
        }
        Ok(Snakes { seats })
    }
}
