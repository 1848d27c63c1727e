//! The contents of a `new` command.

ghost use Rattle.std.specs.Prelude.{◌≡◌};

use crate::boards::area::{are_fit_hazards, is_fit_food, is_side};
use crate::boards::board::Mode;
use crate::boards::cells::Cells;
use crate::boards::hazards::{Hazards, copy_hazards};
use crate::commands::starts::{Starts, are_fit_starts};
use crate::limits::MOST_CHANCE;
use std::alloc::{AllocError, Global};
use std::marker::Model;

/// The contents of a `new` command: the board of turn 0. A value of this type is within the limits
/// of a game.
#[derive(Debug, Drop)]
pub struct New {
    pub mode: Mode,
    /// The number of columns, 3 to 25.
    pub width: u8,
    /// The number of rows, 3 to 25.
    pub height: u8,
    /// 1 to 8 snakes on the board, with distinct ids of 1 to 64 bytes and distinct cells.
    pub snakes: Starts,
    /// Distinct cells of the board.
    pub food: Cells,
    /// The hazards, all on the board; `None` for a game without hazards.
    pub hazards: Option<Hazards>,
    pub min_food: u8,
    /// The chance of food in percent, 0 to 100.
    pub chance: u8,
}

impl Model for New {
    ghost use Rattle.std.specs.Prelude.{◌≡◌, true};
    ghost use Rattle.bs_board.specs.commands.Setup.{Setup, is_fit_setup};
    ghost use Rattle.bs_board.specs.inner.Setup.{setup_in};

    ghost Value = { Setup };

    ghost view = { setup_in };

    ghost invariant = { λ n. is_fit_setup (setup_in n) ≡ true };
}

impl New {
    ghost use Rattle.std.specs.Prelude.{◌≡◌, true, Some, None, if◌then◌else◌, IfOk};
    ghost use Rattle.bs_board.specs.commands.Setup.{Setup, is_fit_setup, setup_of};

    /// Makes a setup without hazards. `None` exactly if it exceeds a limit.
    #[tactic(auto, unfolding(crate::specs::commands::Setup::is_fit_setup))]
    pub fn new(
        mode: Mode,
        width: u8,
        height: u8,
        snakes: Starts,
        food: Cells,
        min_food: u8,
        chance: u8,
    ) -> Option<New>
        ensures { let setup = setup_of mode width height snakes food min_food chance
            in result ≡ (if is_fit_setup setup then Some setup else None) }
    {
        let fits = is_side(width)
            && is_side(height)
            && chance <= MOST_CHANCE
            && are_fit_starts(width, height, snakes.as_slice())
            && is_fit_food(width, height, food.as_slice());
        if fits {
            Some(New {
                mode,
                width,
                height,
                snakes,
                food,
                hazards: None,
                min_food,
                chance,
            })
        } else {
            None
        }
    }

    /// The setup with these hazards. `None` exactly if they exceed a limit.
    #[tactic(auto, using(crate::proofs::commands::FitSetup::with_hazards_fits), unfolding(crate::specs::commands::Setup::is_fit_setup))]
    pub fn with_hazards(self, hazards: Hazards) -> Option<New>
        ensures { let setup = record self { hazards = Some hazards }
            in result ≡ (if is_fit_setup setup then Some setup else None) }
    {
        let hazards = Some(hazards);
        if are_fit_hazards(self.width, self.height, &hazards) {
            Some(New { hazards, ..self })
        } else {
            None
        }
    }

    /// Copies the setup.
    pub fn copy(&self, alloc: Global) -> Result<New, AllocError>
        ensures { IfOk result (λ new. new ≡ self.now) }
    {
        Ok(New {
            mode: self.mode,
            width: self.width,
            height: self.height,
            snakes: self.snakes.copy(alloc)?,
            food: self.food.copy(alloc)?,
            hazards: copy_hazards(&self.hazards, alloc)?,
            min_food: self.min_food,
            chance: self.chance,
        })
    }
}
