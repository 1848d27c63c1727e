//! Commands of a game.

ghost use Rattle.std.specs.Prelude.{◌≡◌, IfOk};

use crate::commands::orders::Move;
use crate::commands::setup::New;
use crate::limits::LAST_TURN;
use std::alloc::{AllocError, Global};
use std::marker::Model;

/// The number of a turn, 0 to 10,000.
#[derive(Clone, Copy, Debug, PartialEq, Eq)]
pub struct TurnNumber {
    number: u16,
}

impl Model for TurnNumber {
    ghost use Rattle.std.specs.Prelude.{ℕ, ◌≤◌};
    ghost use Rattle.bs_board.specs.declared.limits.TheConstants.{LAST_TURN};

    ghost Value = { ℕ };

    ghost view = { λ t. t.number };

    ghost invariant = { λ t. t.number ≤ LAST_TURN };

    ghost inverse = { λ n. record { number = n } };
}

impl TurnNumber {
    ghost use Rattle.std.specs.Prelude.{◌≤◌, SomeIff};

    /// Makes a turn number. `None` exactly if it is above the last turn.
    pub fn new(number: u16) -> Option<TurnNumber>
        ensures { SomeIff result (number ≤ LAST_TURN) number }
    {
        if number <= LAST_TURN {
            Some(TurnNumber { number })
        } else {
            None
        }
    }

    /// The turn as a number.
    pub fn number(self) -> u16
        ensures value { result ≡ self }
        ensures fits { result ≤ LAST_TURN }
    {
        self.number
    }
}

/// A command of a game, as one line gives it.
#[derive(Debug, Drop)]
pub enum Command {
    New(New),
    Move(Move),
    Show,
    /// The board of an earlier turn.
    Turn(TurnNumber),
    Free,
    End,
    /// A line that names its game and is no valid command.
    Bad,
}

impl Command {
    /// Copies the command.
    pub fn copy(&self, alloc: Global) -> Result<Command, AllocError>
        ensures { IfOk result (λ command. command ≡ self.now) }
    {
        match self {
            Command::New(new) => Ok(Command::New(new.copy(alloc)?)),
            Command::Move(order) => Ok(Command::Move(order.copy(alloc)?)),
            Command::Show => Ok(Command::Show),
            Command::Turn(turn) => Ok(Command::Turn(*turn)),
            Command::Free => Ok(Command::Free),
            Command::End => Ok(Command::End),
            Command::Bad => Ok(Command::Bad),
        }
    }
}

/// The values of a command's `do`.
#[derive(Clone, Copy, Debug, PartialEq, Eq)]
pub enum Word {
    New,
    Move,
    Show,
    Turn,
    Free,
    End,
}
