//! The rows of a plan, all of them open.
ghost use Rattle.std.specs.Prelude.{◌≡◌, map, IfOk};
ghost use Rattle.bs_registry.specs.Registry.{listed_from, seen};
ghost use Rattle.bs_registry.specs.Stays.{open_stay};
ghost use Rattle.bs_registry.specs.OpenStays.{open_stays_of};
ghost use Rattle.bs_registry.specs.inner.OpenStays.{nothing_kept};

use crate::registry::{Listed, Registry};
use bs_board::{Row, Rows};
use std::alloc::{AllocError, Global};

#[tactic(auto, using(crate::proofs::Planned::one_more_listed, crate::proofs::Planned::all_listed))]
fn list_rows(alloc: Global, rows: &[Row]) -> Result<Vec<Listed<()>>, AllocError>
    ensures { IfOk result (λ stays. stays.items ≡ listed_from nothing_kept 0 rows.now) }
{
    let mut stays = Vec::with_capacity(alloc, rows.len())?;
    for number in 0..rows.len() {
        let row = rows[number].copy(alloc)?;
        stays.push(Listed {
            number,
            row,
            kept: (),
        })?;
    }
    Ok(stays)
}

/// Opens the rows of a plan, with nothing kept for them.
#[tactic(auto, using(crate::proofs::Planned::listed_rows, crate::proofs::Planned::plan_open))]
pub fn open_rows(alloc: Global, rows: &Rows) -> Result<Registry<()>, AllocError>
    ensures { IfOk result (λ registry. seen registry ≡ open_stays_of (map open_stay rows.now)) }
{
    let stays = list_rows(alloc, rows.as_slice())?;
    Ok(Registry::from_plan(rows, stays))
}
