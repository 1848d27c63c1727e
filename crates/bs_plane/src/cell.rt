//! What stands on one cell of a board.

ghost use Rattle.std.specs.Prelude.{◌≡◌};
ghost use Rattle.bs_plane.specs.Plane.{is_free};

/// A cell of the plane.
#[derive(Clone, Copy, Debug)]
pub struct Cell {
    /// The number of parts of living snakes.
    pub parts: u16,
    pub food: bool,
    pub hazard: bool,
}

/// A cell on which nothing stands.
pub const EMPTY: Cell = Cell {
    parts: 0,
    food: false,
    hazard: false,
};

impl Cell {
    /// Whether food may appear here: there is no food, and no part of a living snake.
    #[inline(always)]
    pub fn is_free(self) -> bool
        ensures { result ≡ is_free self }
    {
        self.parts == 0 && !self.food
    }
}
