//! The plane of a board: what stands on each cell, by the index of the cell.

ghost use Rattle.std.specs.Prelude.{IfSome, IsTrue, OnOk};
ghost use Rattle.bs_plane.specs.Plane.{Changes, IsBlank, IsThere, TakesPart, with_food, with_foods, with_hazards, with_part, with_snakes};
ghost use Rattle.bs_plane.specs.inner.Plane.{IsPlace, with_body, with_hazard};

use crate::cell::{Cell, EMPTY};
use bs_board::{Point, Snake};
use std::alloc::{AllocError, Global};

/// The cells of a board, row after row from the bottom left.
#[derive(Debug, Drop)]
pub struct Plane {
    pub width: u8,
    pub height: u8,
    pub cells: Vec<Cell>,
}

impl Plane {
    /// A plane without cells.
    pub fn new(alloc: Global) -> Plane {
        Plane {
            width: 0,
            height: 0,
            cells: Vec::new(alloc),
        }
    }

    /// Makes it the plane of an empty board.
    pub fn clear(&mut self, width: u8, height: u8) -> Result<(), AllocError>
        ensures { OnOk result (IsBlank width height self.new) }
    {
        self.width = width;
        self.height = height;
        self.cells.clear();
        self.cells
            .resize(usize::from(width) * usize::from(height), EMPTY)?;
        Ok(())
    }

    /// The index of a cell; `None` for a cell that is not on the board.
    #[inline(always)]
    pub(crate) fn place(&self, cell: Point) -> Option<usize>
        ensures { IfSome result (IsPlace self.now cell) }
    {
        if !cell.is_on_board(self.width, self.height) {
            return None;
        }
        let place = cell.y as usize * usize::from(self.width) + cell.x as usize;
        if place < self.cells.len() {
            Some(place)
        } else {
            None
        }
    }

    /// What stands on a cell; `None` for a cell that is not on the board.
    #[inline(always)]
    pub fn at(&self, cell: Point) -> Option<Cell>
        ensures { IfSome result (IsThere self.now cell) }
    {
        match self.place(cell) {
            None => None,
            Some(place) => Some(self.cells[place]),
        }
    }

    /// Counts a part more on the cell. False if that cannot be counted.
    #[inline(always)]
    pub fn add_part(&mut self, cell: Point) -> bool
        ensures { IsTrue result → Changes (with_part cell) self.old self.new }
    {
        match self.place(cell) {
            None => false,
            Some(place) => {
                if self.cells[place].parts == u16::MAX {
                    return false;
                }
                self.cells[place].parts += 1;
                true
            }
        }
    }

    /// Counts a part less on the cell. False if that cannot be counted.
    #[inline(always)]
    pub fn remove_part(&mut self, cell: Point) -> bool
        ensures { IsTrue result → TakesPart cell self.old self.new }
    {
        match self.place(cell) {
            None => false,
            Some(place) => {
                if self.cells[place].parts == 0 {
                    return false;
                }
                self.cells[place].parts -= 1;
                true
            }
        }
    }

    /// Adds food on the cell, or removes it. False for a cell that is not on the board.
    #[inline(always)]
    pub fn put_food(&mut self, cell: Point, food: bool) -> bool
        ensures { IsTrue result → Changes (with_food cell food) self.old self.new }
    {
        match self.place(cell) {
            None => false,
            Some(place) => {
                self.cells[place].food = food;
                true
            }
        }
    }

    /// Adds a hazard on the cell. False for a cell that is not on the board.
    fn put_hazard(&mut self, cell: Point) -> bool
        ensures { IsTrue result → Changes (with_hazard cell) self.old self.new }
    {
        match self.place(cell) {
            None => false,
            Some(place) => {
                self.cells[place].hazard = true;
                true
            }
        }
    }

    /// Adds food on each of the cells.
    pub fn add_food(&mut self, food: &[Point]) -> bool
        ensures { IsTrue result → Changes (with_foods food.now) self.old self.new }
    {
        for cell in food {
            if !self.put_food(*cell, true) {
                return false;
            }
        }
        true
    }

    /// Adds a hazard on each of the cells.
    pub fn add_hazards(&mut self, cells: &[Point]) -> bool
        ensures { IsTrue result → Changes (with_hazards cells.now) self.old self.new }
    {
        for cell in cells {
            if !self.put_hazard(*cell) {
                return false;
            }
        }
        true
    }

    /// Counts the parts of a body.
    fn add_body(&mut self, body: &[Point]) -> bool
        ensures { IsTrue result → Changes (with_body body.now) self.old self.new }
    {
        for part in body {
            if !self.add_part(*part) {
                return false;
            }
        }
        true
    }

    /// Counts the parts of the living snakes.
    pub fn add_snakes(&mut self, snakes: &[Snake]) -> bool
        ensures { IsTrue result → Changes (with_snakes snakes.now) self.old self.new }
    {
        for snake in snakes {
            if snake.is_living() && !self.add_body(snake.body.as_slice()) {
                return false;
            }
        }
        true
    }
}
