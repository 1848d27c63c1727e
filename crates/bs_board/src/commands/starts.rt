//! The starting cells of a new board, and their limits.

ghost use Rattle.std.specs.Prelude.{◌≡◌};
ghost use Rattle.std.specs.List.{list_all, list_any};
ghost use Rattle.bs_board.specs.boards.Cell.{is_same_cell};
ghost use Rattle.bs_board.specs.commands.Setup.{is_fit_start, are_fit_starts};
ghost use Rattle.bs_board.specs.Distinct.{are_distinct};
ghost use Rattle.bs_board.specs.Texts.{is_same_text};

use crate::boards::point::Point;
use crate::id::Id;
use crate::limits::MOST_SNAKES;
use std::alloc::{AllocError, Global};
use std::marker::Model;

/// The id and the starting cell of each snake, in the order of the seats.
#[derive(Debug, Drop)]
pub struct Starts {
    starts: Vec<(Id, Point)>,
}

impl Model for Starts {
    ghost use Rattle.std.specs.Prelude.{ℕ, List};
    ghost use Rattle.bs_board.specs.declared.boards.point.Point.{Point};

    ghost Value = { List (List ℕ × Point) };

    ghost view = { λ s. s.starts.items };
}

impl Starts {
    ghost use Rattle.std.specs.Prelude.{IfOk, length};

    /// Makes the list of these entries, in order.
    pub fn from_vec(starts: Vec<(Id, Point)>) -> Starts
        ensures { result ≡ starts.items }
    {
        Starts { starts }
    }

    /// The entries, in order.
    pub fn as_slice(&self) -> &[(Id, Point)]
        ensures { result.now ≡ self.now }
    {
        self.starts.as_slice()
    }

    /// Copies the list.
    pub fn copy(&self, alloc: Global) -> Result<Starts, AllocError>
        ensures { IfOk result (λ starts. starts ≡ self.now) }
    {
        let mut starts = Vec::with_capacity(alloc, self.starts.len())?;
        for (id, cell) in self.as_slice() {
            starts.push((id.copy(alloc)?, *cell))?;
        }
        Ok(Starts { starts })
    }
}

fn is_fit_start(width: u8, height: u8, start: &(Id, Point)) -> bool
    ensures { result ≡ is_fit_start width height start.now }
{
    start.0.is_short() && start.1.is_on_board(width, height)
}

fn has_id(starts: &[(Id, Point)], id: &Id) -> bool
    ensures { result ≡ list_any (λ start. is_same_text id.now start.0) starts.now }
{
    starts.iter().any(|start| id.is_same(&start.0))
}

fn has_distinct_ids(starts: &[(Id, Point)]) -> bool
    ensures { result ≡ are_distinct (λ s t. is_same_text s.0 t.0) starts.now }
{
    for seat in 0..starts.len() {
        if has_id(&starts[seat + 1..], &starts[seat].0) {
            return false;
        }
    }
    true
}

fn has_start(starts: &[(Id, Point)], cell: Point) -> bool
    ensures { result ≡ list_any (λ start. is_same_cell cell start.1) starts.now }
{
    starts.iter().any(|start| cell.is_same_cell(start.1))
}

fn has_distinct_cells(starts: &[(Id, Point)]) -> bool
    ensures { result ≡ are_distinct (λ s t. is_same_cell s.1 t.1) starts.now }
{
    for seat in 0..starts.len() {
        if has_start(&starts[seat + 1..], starts[seat].1) {
            return false;
        }
    }
    true
}

fn have_fit_members(width: u8, height: u8, starts: &[(Id, Point)]) -> bool
    ensures { result ≡ list_all (is_fit_start width height) starts.now }
{
    starts
        .iter()
        .all(|start| is_fit_start(width, height, start))
}

/// Whether the starts are within the limits: 1 to 8 snakes, all on the board, with distinct ids and
/// starting cells.
pub fn are_fit_starts(width: u8, height: u8, starts: &[(Id, Point)]) -> bool
    ensures { result ≡ are_fit_starts width height starts.now }
{
    1 <= starts.len()
        && starts.len() <= MOST_SNAKES
        && have_fit_members(width, height, starts)
        && has_distinct_ids(starts)
        && has_distinct_cells(starts)
}
