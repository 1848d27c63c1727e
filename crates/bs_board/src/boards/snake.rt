//! One snake, and the cause of its elimination.

ghost use Rattle.std.specs.Prelude.{◌≡◌, IfOk, IsTrue, is_none};

use crate::boards::cells::Cells;
use crate::id::Id;
use std::alloc::{AllocError, Global};

/// The cause of a snake's elimination.
#[derive(Clone, Copy, Debug, PartialEq, Eq)]
pub enum Cause {
    OutOfHealth,
    WallCollision,
    SelfCollision,
    BodyCollision,
    HeadCollision,
    Hazard,
}

/// One snake. It is alive while it has no cause; once eliminated it keeps its last body and health.
#[derive(Debug, Drop)]
pub struct Snake {
    pub id: Id,
    /// The parts, the head first.
    pub body: Cells,
    /// The health, 0 to 100.
    pub health: u8,
    pub cause: Option<Cause>,
    /// The seat of the snake that it ran into, from 0.
    pub killer: Option<usize>,
    /// The turn in which it was eliminated.
    pub out: Option<u16>,
}

impl Snake {
    /// Whether it is alive.
    pub fn is_living(&self) -> bool
        ensures { result ≡ is_none self.now.cause }
    {
        self.cause.is_none()
    }

    /// Copies the snake.
    pub fn copy(&self, alloc: Global) -> Result<Snake, AllocError>
        ensures { IfOk result (λ snake. snake ≡ self.now) }
    {
        Ok(Snake {
            id: self.id.copy(alloc)?,
            body: self.body.copy(alloc)?,
            health: self.health,
            cause: self.cause,
            killer: self.killer,
            out: self.out,
        })
    }
}
