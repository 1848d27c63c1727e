//! Whether acts are acceptable in their order.
ghost use Rattle.std.specs.Prelude.{◌≡◌, ◌≤◌, true, IfOk, IsTrue, List};
ghost use Rattle.bs_registry.specs.OpenStays.{open_stays_of};
ghost use Rattle.bs_registry.specs.Registry.{seen};
ghost use Rattle.bs_registry.specs.Stays.{Stay};
ghost use Rattle.bs_sched.specs.declared.cores.TheConstants.{LEAST_CAPACITY};
ghost use Rattle.bs_workers.specs.Acts.{are_acceptable, opened};
ghost use Rattle.bs_workers.specs.inner.Stays.{IsFollowed};

use crate::act::Act;
use bs_board::Rows;
use bs_registry::{Registry, blocks_of, open_rows};
use bs_sched::LEAST_CAPACITY;
use std::alloc::{AllocError, Global};

/// Makes the act where these stays are open and there are that many blocks, if it is acceptable.
fn follow<const CAP: usize>(
    alloc: Global,
    listed: &mut Registry<()>,
    blocks: usize,
    act: &Act,
) -> Result<bool, AllocError>
    requires { LEAST_CAPACITY ≤ CAP }
    ensures { (registry : List Stay) → seen listed.old ≡ open_stays_of registry
        → IfOk result (λ goes_on. IsTrue goes_on → IsFollowed (record { cap = CAP; blocks = blocks }) registry act.now (seen listed.new)) }
{
    match act {
        Act::Hand(stay, _) => Ok(listed.place_of(*stay).is_some()),
        Act::Admit(row) => {
            let needed = blocks_of(CAP, row.get());
            let left = listed.left_of(CAP, blocks);
            if listed.refusal(row.get(), needed, left).is_some() {
                return Ok(false);
            }
            listed.push(row.get().copy(alloc)?, ())?;
            Ok(true)
        }
        Act::Leave(stay) => {
            if listed.place_of(*stay).is_none() {
                return Ok(false);
            }
            listed.remove(*stay);
            Ok(true)
        }
    }
}

/// Whether the acts are acceptable after the rows of a plan, where there are that many blocks.
pub(crate) fn are_acceptable<const CAP: usize>(
    alloc: Global,
    rows: &Rows,
    blocks: usize,
    acts: &[Act],
) -> Result<bool, AllocError>
    ensures { IfOk result (λ all. IsTrue all → are_acceptable (record { cap = CAP; blocks = blocks }) (opened rows.now) acts.now ≡ true) }
{
    if CAP < LEAST_CAPACITY {
        return Ok(false);
    }
    let mut open = open_rows(alloc, rows)?;
    for act in acts {
        if !follow::<CAP>(alloc, &mut open, blocks, act)? {
            return Ok(false);
        }
    }
    Ok(true)
}
