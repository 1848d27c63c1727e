//! The first line of a command file, which is its plan.
ghost use Rattle.std.specs.Prelude.{◌≡◌, codes, option_map, IfOk, MatchResult};
ghost use Rattle.serde_json.specs.Find.{get};
ghost use Rattle.serde_json.specs.View.{view};
ghost use Rattle.bs_json.specs.PlanLine.{version_of, row_from, plan_of_rows, plan_from, plan_line_of, IsPlanFault};

use crate::limits::MAX_LINE;
use crate::values::{FromItem, each, id_at, number_at, parsed};
use bs_board::limits::{MOST_QUOTA, MOST_ROWS};
use bs_board::plans::plan::have_distinct_names;
use bs_board::{Plan, Row, Rows, Version};
use serde_json::Value;
use std::alloc::{AllocError, Global};
use thiserror::Error;

/// Why the first line of a file is no plan.
#[derive(Clone, Copy, Debug, Drop, Error, PartialEq, Eq)]
pub enum PlanFault {
    /// P1: it is too long, not JSON, not an object with an array of games, or of an unknown
    /// version.
    #[error("the first line is no plan")]
    Malformed,
    /// P2: a row is out of range, or a name occurs twice.
    #[error("the plan has a bad row")]
    BadRow,
    /// P3: there are more than 64 games.
    #[error("the plan has too many games")]
    TooMany,
    #[error("out of memory")]
    Memory,
}

impl From<AllocError> for PlanFault {
    ghost use Rattle.bs_json.specs.declared.plan.PlanFault.TheVariants.{Memory};

    ghost from_gives = { λ _ e. e ≡ Memory };

    fn from(_e: AllocError) -> PlanFault {
        PlanFault::Memory
    }
}

fn version_of(line: &Value) -> Option<Version>
    ensures { result ≡ version_of (get (codes "version") (view line.now)) }
{
    match line.get("version") {
        Some(version) => Version::from_number(version.as_u64()?),
        None => Some(Version::One),
    }
}

/// Reads a row. `None` if its name or its quota is missing or out of range.
pub(crate) fn row_from(alloc: Global, value: &Value) -> Result<Option<Row>, AllocError>
    ensures { IfOk result (λ row. row ≡ row_from (view value.now)) }
{
    let Some(game) = id_at(alloc, value, "game")? else {
        return Ok(None);
    };
    match number_at(value, "quota", MOST_QUOTA) {
        Some(quota) => Ok(Row::new(game, quota)),
        None => Ok(None),
    }
}

impl FromItem for Row {
    ghost read = { row_from };

    fn from_item(alloc: Global, item: &Value) -> Result<Option<Row>, AllocError> {
        row_from(alloc, item)
    }
}

fn plan_of_rows(version: Version, rows: Option<Vec<Row>>) -> Result<Plan, PlanFault>
    ensures { result ≡ plan_of_rows version (option_map (λ r. r.items) rows) }
{
    let Some(rows) = rows else {
        return Err(PlanFault::BadRow);
    };
    if !have_distinct_names(rows.as_slice()) {
        return Err(PlanFault::BadRow);
    }
    if rows.len() > MOST_ROWS {
        return Err(PlanFault::TooMany);
    }
    Ok(Plan {
        rows: Rows::from_vec(rows),
        version,
    })
}

fn plan_from(alloc: Global, line: &Value) -> Result<Plan, PlanFault>
    ensures { let plan = plan_from (Some (view line.now))
        in MatchResult result (λ p. plan ≡ Ok p) (IsPlanFault plan) }
{
    let Some(version) = version_of(line) else {
        return Err(PlanFault::Malformed);
    };
    match line.get("games").and_then(Value::as_array) {
        Some(games) => plan_of_rows(version, each(alloc, games.as_slice())?),
        None => Err(PlanFault::Malformed),
    }
}

/// Parses the first line of a command file, given without its line feed.
#[tactic(auto, unfolding(crate::specs::PlanLine::plan_line_of))]
pub fn read_plan(alloc: Global, line: &[u8]) -> Result<Plan, PlanFault>
    ensures { let plan = plan_line_of line.now
        in MatchResult result (λ p. plan ≡ Ok p) (IsPlanFault plan) }
{
    if line.len() > MAX_LINE {
        return Err(PlanFault::Malformed);
    }
    match parsed(alloc, line)? {
        Some(value) => plan_from(alloc, &value),
        None => Err(PlanFault::Malformed),
    }
}
