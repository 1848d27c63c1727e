//! The row of an admitted stay, shared.
ghost use Rattle.std.specs.Prelude.{◌≡◌, IfOk};

use bs_board::Row;
use std::alloc::{AllocError, Global};
use std::marker::Model;
use std::sync::Arc;

/// The row of an admitted stay in a separate allocation, so that an event stays small. Contracts
/// see the row.
#[derive(Debug, Drop)]
pub struct SharedRow {
    row: Arc<Row>,
}

impl Model for SharedRow {
    ghost use Rattle.std.specs.Arc.{arc_value};
    ghost use Rattle.bs_board.specs.plans.Plan.{GameRow};

    ghost Value = { GameRow };

    ghost view = { λ s. arc_value s.row };
}

impl SharedRow {
    /// Moves the row into a new allocation.
    pub fn new(alloc: Global, row: Row) -> Result<SharedRow, AllocError>
        ensures { IfOk result (λ shared. shared ≡ row) }
    {
        match Arc::new(alloc, row) {
            Ok(row) => Ok(SharedRow { row }),
            Err(_) => Err(AllocError),
        }
    }

    /// Adds a handle without allocating. Fails if the number of handles would overflow.
    pub fn share(&self) -> Result<SharedRow, AllocError>
        ensures { IfOk result (λ shared. shared ≡ self.now) }
    {
        Ok(SharedRow {
            row: Arc::try_clone(&self.row)?,
        })
    }

    /// The row.
    pub fn get(&self) -> &Row
        ensures { result.now ≡ self.now }
    {
        &self.row
    }
}
