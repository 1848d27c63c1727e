//! The hazards of a board.

ghost use Rattle.std.specs.Prelude.{◌≡◌, IfOk};

use crate::boards::cells::Cells;
use std::alloc::{AllocError, Global};

/// Cells that hurt a snake whose head enters them.
#[derive(Debug, Drop)]
pub struct Hazards {
    /// The health that is lost for each entry of the head's cell, 0 to 100.
    pub damage: u8,
    /// Cells of the board. One that occurs several times hurts as many times.
    pub cells: Cells,
}

impl Hazards {
    /// Copies the hazards.
    pub fn copy(&self, alloc: Global) -> Result<Hazards, AllocError>
        ensures { IfOk result (λ hazards. hazards ≡ self.now) }
    {
        Ok(Hazards {
            damage: self.damage,
            cells: self.cells.copy(alloc)?,
        })
    }
}

/// Copies the hazards of a board, if it has any.
pub fn copy_hazards(hazards: &Option<Hazards>, alloc: Global) -> Result<Option<Hazards>, AllocError>
    ensures { IfOk result (λ copy. copy ≡ hazards.now) }
{
    match hazards {
        None => Ok(None),
        Some(hazards) => Ok(Some(hazards.copy(alloc)?)),
    }
}
