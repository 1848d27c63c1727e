//! The games of a plan, in order.

ghost use Rattle.std.specs.Prelude.{◌≡◌, true, All, IfOk};
ghost use Rattle.std.specs.List.{list_any};
ghost use Rattle.bs_board.specs.plans.Plan.{have_distinct_names, is_fit_row};
ghost use Rattle.bs_board.specs.Texts.{is_same_text};

use crate::limits::MOST_ROWS;
use crate::plans::row::Row;
use crate::plans::version::Version;
use std::alloc::{AllocError, Global};
use std::marker::Model;

fn has_name(rows: &[Row], row: &Row) -> bool
    ensures { result ≡ list_any (λ other. is_same_text row.now.game other.game) rows.now }
{
    rows.iter().any(|other| row.game.is_same(&other.game))
}

/// Whether no name occurs twice.
pub fn have_distinct_names(rows: &[Row]) -> bool
    ensures { result ≡ have_distinct_names rows.now }
{
    for index in 0..rows.len() {
        if has_name(&rows[index + 1..], &rows[index]) {
            return false;
        }
    }
    true
}

/// The games of a plan in order, at most 64, with distinct names.
#[derive(Debug, Drop)]
pub struct Rows {
    rows: Vec<Row>,
}

impl Model for Rows {
    ghost use Rattle.std.specs.Prelude.{List};
    ghost use Rattle.bs_board.specs.plans.Plan.{GameRow, IsFitPlan};

    ghost Value = { List GameRow };

    ghost view = { λ r. r.rows.items };

    ghost invariant = { λ r. IsFitPlan r.rows.items };
}

fn row_fits(row: &Row)
    ensures { is_fit_row row.now ≡ true }
{
    let _quota = row.quota;
}

#[tactic(auto, using(crate::proofs::Seen::all_and_next, crate::proofs::Seen::all_seen))]
/// Recalls for the prover that each game of a list is within its limits, as any `Row` is.
fn rows_fit(rows: &[Row])
    ensures { All (λ row. is_fit_row row ≡ true) rows.now }
{
    for row in rows {
        row_fits(row);
    }
}

impl Rows {
    ghost use Rattle.std.specs.Prelude.{◌≤◌, true, length};
    ghost use Rattle.bs_board.specs.plans.Plan.{GameRow, IsFitPlan};

    /// Makes the list of these entries, in order.
    pub fn from_vec(rows: Vec<Row>) -> Rows
        requires distinct { have_distinct_names rows.items ≡ true }
        requires few { length rows.items ≤ MOST_ROWS }
        ensures { result ≡ rows.items }
    {
        rows_fit(rows.as_slice());
        Rows { rows }
    }

    /// The entries, in order.
    pub fn as_slice(&self) -> &[Row]
        ensures value { result.now ≡ self.now }
        ensures fits { IsFitPlan self.now }
    {
        self.rows.as_slice()
    }

    /// Copies the list.
    pub fn copy(&self, alloc: Global) -> Result<Rows, AllocError>
        ensures { IfOk result (λ rows. rows ≡ self.now) }
    {
        let mut rows = Vec::with_capacity(alloc, self.rows.len())?;
        for row in self.as_slice() {
            rows.push(row.copy(alloc)?)?;
        }
        Ok(Rows { rows })
    }
}

/// The first line of a command file: the games that it hosts, and the version of its format.
#[derive(Debug, Drop)]
pub struct Plan {
    pub rows: Rows,
    pub version: Version,
}

impl Plan {
    /// Copies the plan.
    pub fn copy(&self, alloc: Global) -> Result<Plan, AllocError>
        ensures { IfOk result (λ plan. plan ≡ self.now) }
    {
        Ok(Plan {
            rows: self.rows.copy(alloc)?,
            version: self.version,
        })
    }
}
