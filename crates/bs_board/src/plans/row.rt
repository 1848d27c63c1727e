//! One game of a plan.

ghost use Rattle.std.specs.Prelude.{◌≡◌, IfOk};

use crate::id::Id;
use crate::limits::{LEAST_QUOTA, MOST_QUOTA};
use std::alloc::{AllocError, Global};
use std::marker::Model;

/// One game of a plan. A value of this type has a name of 1 to 64 bytes.
#[derive(Debug, Drop)]
pub struct Row {
    pub game: Id,
    /// The largest charge of the game's records, 16 to 16,777,216 bytes.
    pub quota: u32,
}

impl Model for Row {
    ghost use Rattle.std.specs.Prelude.{◌≡◌, true};
    ghost use Rattle.bs_board.specs.plans.Plan.{GameRow, is_fit_row};
    ghost use Rattle.bs_board.specs.inner.Plan.{row_in};

    ghost Value = { GameRow };

    ghost view = { row_in };

    ghost invariant = { λ r. is_fit_row (row_in r) ≡ true };
}

impl Row {
    ghost use Rattle.std.specs.Prelude.{Some, None, if◌then◌else◌};
    ghost use Rattle.bs_board.specs.plans.Plan.{GameRow, row_of, is_fit_row};

    /// Makes a row. `None` exactly if the name or the quota is out of range.
    pub fn new(game: Id, quota: u32) -> Option<Row>
        ensures { result ≡ (if is_fit_row (row_of game quota) then Some (row_of game quota) else None) }
    {
        if game.is_short() && LEAST_QUOTA <= quota && quota <= MOST_QUOTA {
            Some(Row { game, quota })
        } else {
            None
        }
    }

    /// Copies the row.
    pub fn copy(&self, alloc: Global) -> Result<Row, AllocError>
        ensures { IfOk result (λ row. row ≡ self.now) }
    {
        Ok(Row {
            game: self.game.copy(alloc)?,
            quota: self.quota,
        })
    }
}
