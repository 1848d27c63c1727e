//! The open stays of a file, of which only the rows matter.
ghost use Rattle.std.specs.Prelude.{◌≡◌, true, IfOk, OnOk};
ghost use Rattle.bs_registry.specs.Registry.{seen};
ghost use Rattle.bs_host.specs.inner.OpenStays.{may_follow, open_stays_then};
ghost use Rattle.bs_host.specs.inner.Parsed.{route_parsed};
ghost use Rattle.bs_host.specs.Routing.{capacity_of};

use crate::parse::ParsedLine;
use crate::route::{Route, route_line};
use bs_registry::Registry;
use bs_workers::Act;
use std::alloc::{AllocError, Global};

/// Opens the stay that a route admits, or closes the one that it dismisses.
#[tactic(auto, using(crate::proofs::OpenStayRoutes::may_push, crate::proofs::OpenStayRoutes::seen_pushed, crate::proofs::OpenStayRoutes::seen_removed))]
fn follow(stays: &mut Registry<()>, alloc: Global, route: &Route) -> Result<(), AllocError>
    requires { may_follow (seen stays.old) route.now ≡ true }
    ensures { OnOk result (seen stays.new ≡ open_stays_then (seen stays.old) route.now) }
{
    match route {
        Route::Act(Act::Hand(_, _)) => Ok(()),
        Route::Act(Act::Admit(row)) => stays.push(row.get().copy(alloc)?, ()),
        Route::Act(Act::Leave(stay)) => {
            stays.remove(*stay);
            Ok(())
        }
        Route::Stray(_) => Ok(()),
        Route::Nowhere => Ok(()),
    }
}

/// Routes a parsed line of a file that is served with `blocks` blocks. Opens the stay that the line
/// admits, and closes the stay that it dismisses.
pub(crate) fn route_row(
    stays: &mut Registry<()>,
    alloc: Global,
    blocks: usize,
    line: ParsedLine<'_>,
) -> Result<Route, AllocError>
    ensures route { IfOk result (λ route. route ≡ route_parsed (capacity_of blocks) (seen stays.old) line.entry) }
    ensures after { IfOk result (λ route. seen stays.new ≡ open_stays_then (seen stays.old) route) }
{
    let route = route_line(stays, blocks, line);
    follow(stays, alloc, &route)?;
    Ok(route)
}
