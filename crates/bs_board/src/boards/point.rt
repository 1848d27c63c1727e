//! Cells and directions.

ghost use Rattle.std.specs.Prelude.{◌≡◌, ◌↔◌, IsTrue};
ghost use Rattle.bs_board.specs.boards.Cell.{is_same_cell, is_on_board};

/// A cell by column and row. `(0, 0)` is the bottom left of the board. A head that has left the
/// board is one cell outside it, so both numbers are signed.
#[derive(Clone, Copy, Debug, PartialEq, Eq)]
pub struct Point {
    pub x: i16,
    pub y: i16,
}

impl Point {
    /// Whether both are the same cell.
    pub fn is_same_cell(self, other: Point) -> bool
        ensures { result ≡ is_same_cell self other }
    {
        self.x == other.x && self.y == other.y
    }

    /// Whether the cell is on a board with these sides.
    pub fn is_on_board(self, width: u8, height: u8) -> bool
        ensures { result ≡ is_on_board width height self }
    {
        0 <= self.x && self.x < i16::from(width) && 0 <= self.y && self.y < i16::from(height)
    }
}

/// The bottom left of the board.
pub const ORIGIN: Point = Point { x: 0, y: 0 };

/// The direction of a step. Up is towards higher rows, right towards higher columns.
#[derive(Clone, Copy, Debug, PartialEq, Eq)]
pub enum Direction {
    Up,
    Down,
    Left,
    Right,
}
