//! Plans and their rows.
ghost use Rattle.std.specs.Prelude.{◌≡◌, IfOk, length};

use crate::check::holds;
use bs_board::limits::MOST_ROWS;
use bs_board::plans::plan::have_distinct_names;
use bs_board::{Id, Plan, Row, Rows, Version};
use std::alloc::Global;
use std::test::Fail;

/// Makes the row of a game.
pub fn row(alloc: Global, name: &str, quota: u32) -> Result<Row, Fail> {
    Ok(Row::new(Id::from_str(alloc, name)?, quota).ok_or("a row")?)
}

/// Makes a plan of version 1 with these games and their quotas.
pub fn plan_of(alloc: Global, games: &[(&str, u32)]) -> Result<Plan, Fail>
    ensures { IfOk result (λ plan. length plan.rows ≡ length games.now) }
{
    let mut rows = Vec::new(alloc);
    for &(name, quota) in games {
        rows.push(row(alloc, name, quota)?)?;
    }
    holds("distinct names", have_distinct_names(&rows))?;
    holds("few rows", rows.len() <= MOST_ROWS)?;
    holds("a row each", rows.len() == games.len())?;
    Ok(Plan {
        rows: Rows::from_vec(rows),
        version: Version::One,
    })
}
