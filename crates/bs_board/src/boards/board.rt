//! A board and the modes of a game.

ghost use Rattle.std.specs.Prelude.{◌≡◌, IfOk};
ghost use Rattle.bs_board.specs.boards.Over.{last_living};
ghost use Rattle.bs_board.specs.boards.Wrap.{is_wrapped, wrap_of};

use crate::boards::cells::Cells;
use crate::boards::hazards::{Hazards, copy_hazards};
use crate::boards::snakes::Snakes;
use std::alloc::{AllocError, Global};

/// The rules that a game is played by.
#[derive(Clone, Copy, Debug, PartialEq, Eq)]
pub enum Mode {
    Standard,
    Solo,
    Constrictor,
    /// As standard, on a board whose opposite edges are joined: a step across one enters at the
    /// other.
    Wrapped,
}

impl Mode {
    /// Whether opposite edges of the board are joined.
    pub fn is_wrapped(self) -> bool
        ensures { result ≡ is_wrapped self }
    {
        match self {
            Mode::Standard => false,
            Mode::Solo => false,
            Mode::Constrictor => false,
            Mode::Wrapped => true,
        }
    }

    /// The largest number of living snakes with which a game is over.
    pub fn last_living(self) -> usize
        ensures { result ≡ last_living self }
    {
        match self {
            Mode::Standard => 1,
            Mode::Solo => 0,
            Mode::Constrictor => 1,
            Mode::Wrapped => 1,
        }
    }
}

/// A board after a turn.
#[derive(Debug, Drop)]
pub struct Board {
    pub mode: Mode,
    /// The number of columns.
    pub width: u8,
    /// The number of rows.
    pub height: u8,
    /// The number of turns played.
    pub turn: u16,
    /// The minimum of food; each turn adds food up to it.
    pub min_food: u8,
    /// The chance of one more food in a turn, in percent.
    pub chance: u8,
    pub food: Cells,
    /// The hazards; `None` in a game without hazards.
    pub hazards: Option<Hazards>,
    pub snakes: Snakes,
}

impl Board {
    /// Copies the board.
    pub fn copy(&self, alloc: Global) -> Result<Board, AllocError>
        ensures { IfOk result (λ board. board ≡ self.now) }
    {
        Ok(Board {
            mode: self.mode,
            width: self.width,
            height: self.height,
            turn: self.turn,
            min_food: self.min_food,
            chance: self.chance,
            food: self.food.copy(alloc)?,
            hazards: copy_hazards(&self.hazards, alloc)?,
            snakes: self.snakes.copy(alloc)?,
        })
    }

    /// The width and height that each step is taken modulo; `None` if a step may leave the board.
    pub fn wrap(&self) -> Option<(u8, u8)>
        ensures { result ≡ wrap_of self.now }
    {
        if self.mode.is_wrapped() {
            Some((self.width, self.height))
        } else {
            None
        }
    }
}
