//! Lists of cells.

ghost use Rattle.std.specs.Prelude.{◌≡◌, IfOk};

use crate::boards::point::Point;
use std::alloc::{AllocError, Global};
use std::marker::Model;

/// A list of cells: the body of a snake, its head first, the food on a board, the oldest first, or
/// its hazards.
#[derive(Debug, Drop)]
pub struct Cells {
    points: Vec<Point>,
}

impl Model for Cells {
    ghost use Rattle.std.specs.Prelude.{List};
    ghost use Rattle.bs_board.specs.declared.boards.point.Point.{Point};

    ghost Value = { List Point };

    ghost view = { λ c. c.points.items };
}

impl Cells {
    ghost use Rattle.std.specs.Prelude.{◌≡◌, ◌≤◌, ◌-◌, ◌++◌, ◌∷◌, [], IfOk, OnOk, OnErr, length, take};

    /// Makes an empty list.
    pub fn new(alloc: Global) -> Cells
        ensures { result ≡ [] }
    {
        Cells {
            points: Vec::new(alloc),
        }
    }

    /// Makes the list of these entries, in order.
    pub fn from_vec(points: Vec<Point>) -> Cells
        ensures { result ≡ points.items }
    {
        Cells { points }
    }

    /// Converts the list into a vector.
    pub fn into_vec(self) -> Vec<Point>
        ensures { result.items ≡ self }
    {
        let Cells { points } = self;
        points
    }

    /// The entries, in order.
    pub fn as_slice(&self) -> &[Point]
        ensures { result.now ≡ self.now }
    {
        self.points.as_slice()
    }

    /// The number of entries.
    pub fn len(&self) -> usize
        ensures { result ≡ length self.now }
    {
        self.points.len()
    }

    /// Adds a cell at the end: a body grows at its tail, new food comes last.
    pub fn push(&mut self, cell: Point) -> Result<(), AllocError>
        ensures ok { OnOk result (self.new ≡ self.old ++ cell ∷ []) }
        ensures err { OnErr result (self.new ≡ self.old) }
    {
        self.points.push(cell)?;
        Ok(())
    }

    /// Puts a cell in front and removes the last one: a body moves by one step.
    #[inline(always)]
    pub fn step_to(&mut self, head: Point)
        requires { 1 ≤ length self.old }
        ensures { self.new ≡ head ∷ take (length self.old - 1) self.old }
    {
        let kept = self.points.len() - 1;
        self.points.copy_within(0..kept, 1);
        self.points[0] = head;
    }

    /// Copies the list.
    pub fn copy(&self, alloc: Global) -> Result<Cells, AllocError>
        ensures { IfOk result (λ cells. cells ≡ self.now) }
    {
        Ok(Cells {
            points: Vec::from_slice(alloc, self.as_slice())?,
        })
    }
}

/// Copies a list that may be missing.
pub fn copy_given(cells: &Option<Cells>, alloc: Global) -> Result<Option<Cells>, AllocError>
    ensures { IfOk result (λ copy. copy ≡ cells.now) }
{
    match cells {
        None => Ok(None),
        Some(cells) => Ok(Some(cells.copy(alloc)?)),
    }
}
