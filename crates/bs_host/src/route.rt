//! Routes the parsed lines of a file: to the core as acts, to the stray lines, or nowhere.
ghost use Rattle.std.specs.Prelude.{◌≡◌, ◌++◌, ◌∷◌, ℕ, List, true, IfOk, OnOk, option_copied, option_to_list};
ghost use Rattle.bs_workers.specs.Acts.{opened};
ghost use Rattle.bs_registry.specs.OpenStays.{found_in, open_stays_of};
ghost use Rattle.bs_registry.specs.inner.OpenStays.{refusal_by};
ghost use Rattle.bs_registry.specs.Registry.{rows_in, seen};
ghost use Rattle.bs_host.specs.inner.OpenStays.{may_follow};
ghost use Rattle.bs_host.specs.inner.File.{pieces_after};
ghost use Rattle.bs_host.specs.inner.Parsed.{all_lines, parsed_lines, route_parsed, routes_parsed};
ghost use Rattle.bs_host.specs.Routing.{act_in, admit_route, capacity_of, hand_route, leave_route, numbered_stray, stray_for};
ghost use Rattle.bs_host.specs.declared.route.Route.{Route};
ghost use Rattle.bs_host.specs.inner.Routing.{IsRouted, WillRoute};

use crate::limits::BLOCK_BYTES;
use crate::lines::split_line;
use crate::open_rows::route_row;
use crate::parse::{ParsedLine, Share, parse_line};
use bs_board::{Plan, Rows};
use bs_fiber::SharedCommand;
use bs_json::Stray;
use bs_registry::{Refusal, Registry, blocks_of, open_rows};
use bs_sched::SharedRow;
use bs_workers::Act;
use std::alloc::{AllocError, Global};

/// The route of a line.
#[derive(Debug, Drop)]
pub enum Route {
    /// To the core.
    Act(Act),
    /// To the stray lines, for that reason.
    Stray(Stray),
    /// Nowhere: the line is blank.
    Nowhere,
}

fn hand<T: Drop>(stays: &mut Registry<T>, game: &[u8], command: SharedCommand) -> Route
    ensures route { result ≡ hand_route (found_in game.now (rows_in stays.old)) command }
    ensures same { stays.new ≡ stays.old }
{
    match stays.find(game) {
        Some(stay) => Route::Act(Act::Hand(stay, command)),
        None => Route::Stray(Stray::Game),
    }
}

fn admit<T: Drop>(stays: &Registry<T>, blocks: usize, row: SharedRow) -> Route
    ensures { result ≡ admit_route (stray_for (refusal_by (capacity_of blocks) (seen stays.now) row)) row }
{
    let left = stays.left_of(BLOCK_BYTES, blocks);
    match stays.refusal(row.get(), blocks_of(BLOCK_BYTES, row.get()), left) {
        None => Route::Act(Act::Admit(row)),
        Some(Refusal::NameOpen) => Route::Stray(Stray::NameOpen),
        Some(Refusal::Full) => Route::Stray(Stray::Full),
        Some(Refusal::Short { .. }) => Route::Stray(Stray::Short),
    }
}

fn leave<T: Drop>(stays: &mut Registry<T>, game: &[u8]) -> Route
    ensures route { result ≡ leave_route (found_in game.now (rows_in stays.old)) }
    ensures same { stays.new ≡ stays.old }
{
    match stays.find(game) {
        Some(stay) => Route::Act(Act::Leave(stay)),
        None => Route::Stray(Stray::NoStay),
    }
}

/// Routes a parsed line of a file that is served with `blocks` blocks. Opens and closes no stay.
#[tactic(auto, using(crate::proofs::OpenStayRoutes::routed_follows))]
pub(crate) fn route_line<T: Drop>(
    stays: &mut Registry<T>,
    blocks: usize,
    line: ParsedLine<'_>,
) -> Route
    ensures route { result ≡ route_parsed (capacity_of blocks) (seen stays.old) line.entry }
    ensures same { stays.new ≡ stays.old }
    ensures follows { may_follow (seen stays.old) result ≡ true }
{
    match line {
        ParsedLine::Command(game, command) => hand(stays, game.as_bytes(), command),
        ParsedLine::Admit(row) => admit(stays, blocks, row),
        ParsedLine::Leave(game) => leave(stays, game.as_bytes()),
        ParsedLine::Stray(kind) => Route::Stray(kind),
        ParsedLine::Blank => Route::Nowhere,
    }
}

/// The number of the first line after the plan.
const FIRST_NUMBER: u64 = 2;

/// The acts of a file, and its stray lines with their line numbers.
#[derive(Debug, Drop)]
pub struct Requests {
    pub(crate) acts: Vec<Act>,
    pub(crate) strays: Vec<(u64, Stray)>,
}

/// Adds the line of that number to the acts or to the stray lines.
#[inline(always)]
fn push_route(requests: &mut Requests, number: u64, route: Route) -> Result<(), AllocError>
    ensures acts { OnOk result
        (requests.new.acts.items ≡ requests.old.acts.items ++ option_to_list (act_in route)) }
    ensures strays { OnOk result
        (requests.new.strays.items ≡ requests.old.strays.items ++ option_to_list (numbered_stray (number, route))) }
{
    match route {
        Route::Act(act) => requests.acts.push(act)?,
        Route::Stray(kind) => requests.strays.push((number, kind))?,
        Route::Nowhere => {}
    }
    Ok(())
}

/// The requests so far, and what the later lines are routed by.
#[derive(Drop)]
struct Router {
    open_stays: Registry<()>,
    requests: Requests,
    /// The number of the next line.
    number: u64,
}

impl Router {
    /// The command of the last act, if it has one.
    #[inline(always)]
    fn last_command(&self) -> Option<&SharedCommand> {
        match self.requests.acts.last() {
            Some(Act::Hand(_, command)) => Some(command),
            _ => None,
        }
    }

    /// Routes the next line of a file that is served with `blocks` blocks.
    #[tactic(auto, using(crate::proofs::ParsedLines::goes_on))]
    #[inline(always)]
    fn route(
        &mut self,
        alloc: Global,
        blocks: usize,
        line: ParsedLine<'_>,
    ) -> Result<(), AllocError>
        ensures { (all : List (ℕ × Route)) (later : List ParsedLine) → WillRoute (capacity_of blocks) all self.old (line.entry ∷ later)
            → OnOk result (WillRoute (capacity_of blocks) all self.new later) }
    {
        let route = route_row(&mut self.open_stays, alloc, blocks, line)?;
        push_route(&mut self.requests, self.number, route)?;
        self.number = self.number.checked_add(1).ok_or(AllocError)?;
        Ok(())
    }

    /// Routes the lines of a share.
    fn route_share(
        &mut self,
        alloc: Global,
        blocks: usize,
        share: Share<'_>,
    ) -> Result<(), AllocError>
        ensures { (all : List (ℕ × Route)) (later : List ParsedLine) → WillRoute (capacity_of blocks) all self.old (share.entry ++ later)
            → OnOk result (WillRoute (capacity_of blocks) all self.new later) }
    {
        let Share { lines } = share;
        for line in lines {
            self.route(alloc, blocks, line)?;
        }
        Ok(())
    }
}

/// Parses and routes the lines after the plan of a file in one pass, without a list of the parsed
/// lines.
#[tactic(auto, using(crate::proofs::ParsedLines::fewer_left, crate::proofs::ParsedLines::none_read, crate::proofs::ParsedLines::all_read))]
pub(crate) fn route_text(
    alloc: Global,
    blocks: usize,
    plan: &Plan,
    text: Option<&[u8]>,
) -> Result<Requests, AllocError>
    ensures { IfOk result (IsRouted (routes_parsed (capacity_of blocks) (open_stays_of (opened plan.now.rows)) 2 (parsed_lines plan.now.version (pieces_after (option_copied text.entry))))) }
{
    let mut router = Router {
        open_stays: open_rows(alloc, &plan.rows)?,
        requests: Requests {
            acts: Vec::new(alloc),
            strays: Vec::new(alloc),
        },
        number: FIRST_NUMBER,
    };
    let mut left = text;
    'lines: while let Some(text) = left {
        let (line, more) = split_line(text);
        let parsed = parse_line(alloc, plan.version, line, router.last_command())?;
        router.route(alloc, blocks, parsed)?;
        left = more;
    }
    let Router { requests, .. } = router;
    Ok(requests)
}

/// The number of lines of all shares.
fn count_lines(shares: &[Share<'_>]) -> usize {
    let mut count = 0usize;
    for share in shares {
        count = count.saturating_add(share.len());
    }
    count
}

/// Routes the lines after the plan of a file in their order. The file is served with `blocks`
/// blocks; these, the plan and the lines alone determine which games are admitted.
#[tactic(auto, using(crate::proofs::ParsedLines::none_read, crate::proofs::ParsedLines::all_read))]
pub(crate) fn route_lines(
    alloc: Global,
    blocks: usize,
    rows: &Rows,
    shares: Vec<Share<'_>>,
) -> Result<Requests, AllocError>
    ensures { IfOk result (IsRouted (routes_parsed (capacity_of blocks) (open_stays_of (opened rows.now)) 2 (all_lines shares.entry.items))) }
{
    let mut router = Router {
        open_stays: open_rows(alloc, rows)?,
        requests: Requests {
            acts: Vec::with_capacity(alloc, count_lines(shares.as_slice()))?,
            strays: Vec::new(alloc),
        },
        number: FIRST_NUMBER,
    };
    for share in shares {
        router.route_share(alloc, blocks, share)?;
    }
    let Router { requests, .. } = router;
    Ok(requests)
}
