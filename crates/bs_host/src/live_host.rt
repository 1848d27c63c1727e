//! A live host between two lines: an automaton over the lines.
ghost use Rattle.std.specs.Prelude.{◌≡◌, ◌<◌, ◌++◌, true, length, IfOk, IfErr, OnOk};
ghost use Rattle.bs_json.specs.Replies.{stray_line_of};
ghost use Rattle.bs_json.specs.PlanLine.{plan_line_of};
ghost use Rattle.bs_host.specs.Faults.{refusal_of_plan};
ghost use Rattle.bs_host.specs.declared.limits.TheConstants.{LONG_TEXT};
ghost use Rattle.bs_host.specs.inner.Live.{HasOpened};
ghost use Rattle.bs_host.specs.inner.LiveFaults.{IsLiveRefusal};
ghost use Rattle.bs_host.specs.inner.OpenStays.{may_follow};
ghost use Rattle.bs_registry.specs.Registry.{seen};
ghost use Rattle.bs_host.specs.inner.LiveHost.{live_after, live_end, live_text, stays_then, text_then};

use crate::fault::{Fault, PlanRefusal};
use crate::limits::BLOCK_BYTES;
use crate::live_stays::{LiveStays, answer_in, list_stays, open_stay, push_final_of, push_finals};
use crate::parse::parse_line;
use crate::route::{Route, route_line};
use bs_board::Version;
use bs_json::{Stray, TextBuffer, push_stray_line, read_plan, stray_line_bound};
use bs_live::make_room;
use bs_registry::{Registry, blocks_of_all};
use bs_workers::Act;
use std::alloc::{AllocError, Global};

/// The number of the first line after the plan.
const FIRST_NUMBER: u64 = 2;

/// A live host that has answered all lines so far. It keeps only the open stays.
#[derive(Drop)]
pub(crate) struct LiveHost {
    pub(crate) blocks: usize,
    pub(crate) version: Version,
    pub(crate) stays: LiveStays,
    /// The number of the next line.
    pub(crate) number: u64,
}

/// Appends the line of a stray.
#[tactic(auto, using(bs_live::proofs::Lines::put_within))]
fn push_stray(
    alloc: Global,
    number: u64,
    kind: Stray,
    text: &mut TextBuffer,
) -> Result<(), AllocError>
    ensures { OnOk result (text.new.bytes ≡ text.old.bytes ++ stray_line_of number kind) }
{
    make_room(alloc, text, stray_line_bound(number, kind))?;
    push_stray_line(number, kind, text);
    Ok(())
}

impl LiveHost {
    /// Opens the plan in the first line of a file. Checks the plan and the number of blocks, and
    /// returns the first fault.
    #[tactic(auto, using(bs_registry::proofs::Planned::listed_rows))]
    pub(crate) fn open(alloc: Global, first: &[u8], blocks: usize) -> Result<LiveHost, Fault>
        ensures opened { IfOk result (HasOpened blocks first.now) }
        ensures fault { IfErr result (IsLiveRefusal (refusal_of_plan blocks (plan_line_of first.now))) }
    {
        let plan = read_plan(alloc, first)?;
        let rows = plan.rows.as_slice();
        if blocks_of_all(BLOCK_BYTES, rows) > blocks {
            return Err(Fault::Plan(PlanRefusal::Short));
        }
        Ok(LiveHost {
            blocks,
            version: plan.version,
            stays: Registry::from_plan(&plan.rows, list_stays(alloc, rows)?),
            number: FIRST_NUMBER,
        })
    }

    /// Executes a routed line, and appends its answer.
    #[tactic(auto, using(crate::proofs::OpenStayRoutes::may_push))]
    fn follow(
        &mut self,
        alloc: Global,
        route: &Route,
        text: &mut TextBuffer,
    ) -> Result<(), AllocError>
        requires { may_follow (seen self.old.stays) route.now ≡ true }
        ensures host { OnOk result (self.new ≡ record self.old { stays = stays_then route.now self.old.stays }) }
        ensures text { OnOk result (text.new.bytes ≡ text.old.bytes ++ text_then self.old.number route.now self.old.stays) }
    {
        match route {
            Route::Act(Act::Hand(stay, command)) => {
                answer_in(&mut self.stays, alloc, *stay, command.get(), text)
            }
            Route::Act(Act::Admit(row)) => {
                let stay = open_stay(alloc, row.get())?;
                self.stays.push(row.get().copy(alloc)?, stay)
            }
            Route::Act(Act::Leave(stay)) => {
                push_final_of(alloc, &self.stays, *stay, text)?;
                self.stays.remove(*stay);
                Ok(())
            }
            Route::Stray(kind) => push_stray(alloc, self.number, *kind, text),
            Route::Nowhere => Ok(()),
        }
    }

    /// Routes and executes the next line, and appends its answer to a text that is not long.
    pub(crate) fn answer(
        &mut self,
        alloc: Global,
        line: &[u8],
        text: &mut TextBuffer,
    ) -> Result<(), AllocError>
        requires { length text.old.bytes < LONG_TEXT }
        ensures host { OnOk result (self.new ≡ live_after self.old line.now) }
        ensures text { OnOk result (text.new.bytes ≡ text.old.bytes ++ live_text self.old line.now) }
    {
        let number = self.number.checked_add(1).ok_or(AllocError)?;
        let parsed = parse_line(alloc, self.version, line, None)?;
        let route = route_line(&mut self.stays, self.blocks, parsed);
        self.follow(alloc, &route, text)?;
        self.number = number;
        Ok(())
    }

    /// Appends the final lines of the open stays, in the order of their rows.
    pub(crate) fn close(&self, alloc: Global, text: &mut TextBuffer) -> Result<(), AllocError>
        ensures { OnOk result (text.new.bytes ≡ text.old.bytes ++ live_end self.now) }
    {
        push_finals(alloc, self.stays.as_slice(), text)
    }
}
