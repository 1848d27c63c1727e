//! Cuts a command file to one stay's own lines, and states the law that the stay is answered there
//! as it is among the others.
ghost use Rattle.std.specs.Prelude.{◌≡◌, ◌-◌, ◌&&◌, nat_eq, if◌then◌else◌, length, [], ◌∷◌, ◌++◌, None, Some, is_some, IfOk, IfErr, OnOk, MatchOption, option_copied, option_map};
ghost use Rattle.serde_json.specs.Data.{array};
ghost use Rattle.serde_json.specs.View.{items_of, view};
ghost use Rattle.bs_host.specs.declared.lines.TheConstants.{LINE_FEED};
ghost use Rattle.bs_board.specs.Texts.{is_same_text};
ghost use Rattle.bs_json.specs.Line.{line_of};
ghost use Rattle.bs_workers.specs.Acts.{opened};
ghost use Rattle.bs_host.specs.Cut.{row_data, lone_plan_data, lone_plan_of, is_too_small, nth_from, nth_stay, own_lines_in, cut_of, cut_refusal_of, IsCutRefusal, SectionLaw};
ghost use Rattle.bs_host.specs.inner.Cut.{behind_feeds, planned_cut, planned_refusal, planned_stay};
ghost use Rattle.bs_host.specs.inner.File.{pieces_after};
ghost use Rattle.bs_registry.specs.OpenStays.{open_stays_of};
ghost use Rattle.bs_registry.specs.Registry.{seen};
ghost use Rattle.bs_host.specs.inner.OpenStays.{open_stays_then, route_by, rows_by_open_stays, rows_in_route};
ghost use Rattle.bs_host.specs.Laws.{CoreLaw, EarlyLaw, FoundLaw, FullLaw, OwnLinesLaw};
ghost use Rattle.bs_host.specs.Routing.{command_to, capacity_of, stays_behind};

use crate::cut_fault::Cut;
use crate::fault::PlanRefusal;
use crate::file::CommandFile;
use crate::limits::{BLOCK_BYTES, MOST_FILE_BYTES};
use crate::lines::split_line;
use crate::open_rows::route_row;
use crate::parse::parse_line;
use crate::route::Route;
use bs_board::{Id, Plan, Row, Version};
use bs_json::read_plan;
use bs_registry::{Registry, blocks_of_all, open_rows};
use bs_sched::SharedRow;
use bs_workers::Act;
use serde_json::{Value, json};
use std::alloc::{AllocError, Global};

fn lone_games(alloc: Global, row: &Row) -> Result<Value, AllocError>
    ensures { IfOk result (λ games. view games ≡ array (items_of (row_data row.now ∷ []))) }
{
    json!(in alloc; [{"game": row.game.as_str(), "quota": row.quota}])
}

/// Makes the plan of that version with this row alone. A plan of version 1 does not name its
/// version.
#[tactic(auto, unfolding(crate::specs::Cut::lone_plan_data))]
fn lone_plan(alloc: Global, version: Version, row: &Row) -> Result<Value, AllocError>
    ensures { IfOk result (λ plan. view plan ≡ lone_plan_data version row.now) }
{
    let games = lone_games(alloc, row)?;
    match version {
        Version::One => json!(in alloc; {"games": games}),
        Version::Two | Version::Three | Version::Five => {
            json!(in alloc; {"games": games, "version": version.number()})
        }
    }
}

#[tactic(auto, using(crate::proofs::CutPlan::lone_plan_has_no_float))]
fn lone_plan_text(alloc: Global, version: Version, row: &Row) -> Result<Vec<u8>, AllocError>
    ensures { IfOk result (λ text. text.items ≡ lone_plan_of version row.now) }
{
    let plan = lone_plan(alloc, version, row)?;
    plan.to_vec(alloc)
}

fn goes_to(stay: usize, route: &Route) -> bool
    ensures { result ≡ is_some (command_to stay route.now) }
{
    match route {
        Route::Act(Act::Hand(to, _)) => *to == stay,
        Route::Act(Act::Admit(_)) => false,
        Route::Act(Act::Leave(_)) => false,
        Route::Stray(_) => false,
        Route::Nowhere => false,
    }
}

/// Parses a line of the file and routes it.
#[tactic(auto, using(crate::proofs::ParsedLines::route_of_parsed))]
fn route_text(
    alloc: Global,
    open_stays: &mut Registry<()>,
    file: CommandFile<'_>,
    line: &[u8],
) -> Result<Route, AllocError>
    ensures route { IfOk result (λ route. route ≡ route_by (capacity_of file.entry.blocks) (seen open_stays.old) (line_of file.entry.plan.now.version line.now)) }
    ensures after { IfOk result (λ route. seen open_stays.new ≡ open_stays_then (seen open_stays.old) route) }
{
    let parsed = parse_line(alloc, file.plan.version, line, None)?;
    route_row(open_stays, alloc, file.blocks, parsed)
}

fn push_line(line: &[u8], text: &mut Vec<u8>) -> Result<(), AllocError>
    ensures { OnOk result (text.new.items ≡ text.old.items ++ LINE_FEED ∷ line.now) }
{
    text.push(b'\n')?;
    text.extend_from_slice(line)?;
    Ok(())
}

/// Appends each line of that stay, with a line feed before it.
#[tactic(auto, using(crate::proofs::CutFile::none_left, crate::proofs::CutFile::own_line_goes, crate::proofs::CutFile::other_line_goes))]
fn push_own_lines(
    alloc: Global,
    file: CommandFile<'_>,
    stay: usize,
    text: &mut Vec<u8>,
) -> Result<(), AllocError>
    ensures { OnOk result
        (text.new.items ≡ text.old.items ++ behind_feeds (own_lines_in (capacity_of file.entry.blocks) file.entry.plan.now.version (opened file.entry.plan.now.rows) stay (pieces_after (option_copied file.entry.rest)))) }
{
    let mut open_stays = open_rows(alloc, &file.plan.rows)?;
    let mut left = file.rest;
    'lines: while let Some(lines) = left {
        let (line, more) = split_line(lines);
        let route = route_text(alloc, &mut open_stays, file, line)?;
        if goes_to(stay, &route) {
            push_line(line, text)?;
        }
        left = more;
    }
    Ok(())
}

fn cut_to(
    alloc: Global,
    file: CommandFile<'_>,
    stay: usize,
    row: &Row,
) -> Result<Vec<u8>, AllocError>
    ensures { IfOk result (λ text. text.items
        ≡ lone_plan_of file.entry.plan.now.version row.now
        ++ behind_feeds (own_lines_in (capacity_of file.entry.blocks) file.entry.plan.now.version (opened file.entry.plan.now.rows) stay (pieces_after (option_copied file.entry.rest)))) }
{
    let mut text = lone_plan_text(alloc, file.plan.version, row)?;
    push_own_lines(alloc, file, stay, &mut text)?;
    Ok(text)
}

/// A search for a stay by its game's name. `left` is the number of rows of that name still to be
/// seen, that of the stay included.
#[derive(Drop)]
struct Search<'n> {
    name: &'n Id,
    left: usize,
}

impl Search<'_> {
    /// Whether the row is that of the stay. Counts the row if it has the name.
    fn is_found_in(&mut self, row: &Row) -> bool
        ensures found { result ≡ (is_same_text self.old.name.now row.now.game && nat_eq self.old.left 1) }
        ensures left { self.new.left ≡ (if is_same_text self.old.name.now row.now.game then self.old.left - 1 else self.old.left) }
        ensures name { self.new.name ≡ self.old.name }
    {
        if !self.name.is_same(&row.game) {
            return false;
        }
        let is_last = self.left == 1;
        self.left = self.left.saturating_sub(1);
        is_last
    }
}

/// Returns the row that a line admits.
fn admitted(route: Route) -> Option<SharedRow>
    ensures { MatchOption result (rows_in_route route ≡ []) (λ row. rows_in_route route ≡ row ∷ []) }
{
    match route {
        Route::Act(Act::Hand(_, _)) => None,
        Route::Act(Act::Admit(row)) => Some(row),
        Route::Act(Act::Leave(_)) => None,
        Route::Stray(_) => None,
        Route::Nowhere => None,
    }
}

/// Searches the stays that lines admit, which follow those of the plan.
#[tactic(auto, using(crate::proofs::FoundLines::found_admitted, crate::proofs::FoundLines::passed_admitted, crate::proofs::FoundLines::passed_others))]
fn find_admitted(
    alloc: Global,
    file: CommandFile<'_>,
    mut search: Search<'_>,
) -> Result<Option<(usize, Row)>, AllocError>
    ensures { IfOk result (λ found. found
        ≡ nth_from (length file.entry.plan.now.rows) (rows_by_open_stays (capacity_of file.entry.blocks) file.entry.plan.now.version (open_stays_of (opened file.entry.plan.now.rows)) (pieces_after (option_copied file.entry.rest))) search.entry.name.now search.entry.left) }
{
    let mut open_stays = open_rows(alloc, &file.plan.rows)?;
    let mut left = file.rest;
    'lines: while let Some(lines) = left {
        let (line, more) = split_line(lines);
        let stay = open_stays.made();
        let route = route_text(alloc, &mut open_stays, file, line)?;
        if let Some(row) = admitted(route) {
            if search.is_found_in(row.get()) {
                return Ok(Some((stay, row.get().copy(alloc)?)));
            }
        }
        left = more;
    }
    Ok(None)
}

/// Finds the `nth` stay of that name, counted from 1. Returns its number and its row.
#[tactic(auto, using(crate::proofs::FoundLines::passed_planned))]
fn find_stay(
    alloc: Global,
    file: CommandFile<'_>,
    name: &Id,
    nth: usize,
) -> Result<Option<(usize, Row)>, AllocError>
    ensures { IfOk result (λ found. found
        ≡ nth_from 0 (stays_behind (capacity_of file.entry.blocks) file.entry.plan.now.version file.entry.plan.now.rows (pieces_after (option_copied file.entry.rest))) name.now nth) }
{
    let mut search = Search { name, left: nth };
    let rows = file.plan.rows.as_slice();
    for stay in 0..rows.len() {
        if search.is_found_in(&rows[stay]) {
            return Ok(Some((stay, rows[stay].copy(alloc)?)));
        }
    }
    if file.plan.version.has_stays() {
        find_admitted(alloc, file, search)
    } else {
        Ok(None)
    }
}

/// Whether the plan reserves more than `blocks` blocks. Always false in versions without stays,
/// where the blocks do not decide which games are admitted.
fn is_too_small(plan: &Plan, blocks: usize) -> bool
    ensures { result ≡ is_too_small blocks plan.now }
{
    plan.version.has_stays() && blocks_of_all(BLOCK_BYTES, plan.rows.as_slice()) > blocks
}

/// Cuts a file whose plan was parsed. Checks the number of blocks, then the stay.
#[tactic(auto, using(crate::proofs::CutRefusals::none_against, crate::proofs::CutRefusals::too_small, crate::proofs::CutRefusals::not_there, crate::proofs::CutRefusals::cut_of_found))]
fn cut_planned(
    alloc: Global,
    file: CommandFile<'_>,
    game: &str,
    stay: usize,
) -> Result<Vec<u8>, Cut>
    ensures cut { OnOk result
        (planned_refusal file.entry.blocks file.entry.plan.now (pieces_after (option_copied file.entry.rest)) game.now stay ≡ None) }
    ensures text { IfOk result (λ text.
        option_map (planned_cut file.entry.blocks file.entry.plan.now (pieces_after (option_copied file.entry.rest))) (planned_stay file.entry.blocks file.entry.plan.now (pieces_after (option_copied file.entry.rest)) game.now stay) ≡ Some text.items) }
    ensures fault { IfErr result
        (IsCutRefusal (planned_refusal file.entry.blocks file.entry.plan.now (pieces_after (option_copied file.entry.rest)) game.now stay)) }
{
    if is_too_small(file.plan, file.blocks) {
        return Err(Cut::Plan(PlanRefusal::Short));
    }
    let name = Id::from_str(alloc, game)?;
    match find_stay(alloc, file, &name, stay)? {
        Some((stay, row)) => Ok(cut_to(alloc, file, stay, &row)?),
        None => Err(Cut::NoSuchGame),
    }
}

/// Makes the file of one stay alone: a plan of the same version with its row alone, then its own
/// lines, unchanged, each after a line feed. `stay` counts from 1 among the stays of that name, of
/// the file as it is served with `blocks` blocks. Checks the file's length, its plan, in versions 3
/// and 5 the number of blocks, and the stay, in this order, and returns the first fault.
#[tactic(auto, using(crate::proofs::CutFile::refusal_of_long, crate::proofs::CutFile::refusal_of_first, crate::proofs::CutFile::refusal_of_planned, crate::proofs::CutFile::cut_of_planned))]
pub fn cut(
    alloc: Global,
    input: &[u8],
    blocks: usize,
    game: &str,
    stay: usize,
) -> Result<Vec<u8>, Cut>
    ensures cut { OnOk result (cut_refusal_of blocks input.now game.now stay ≡ None) }
    ensures text { IfOk result
        (λ text. option_map (cut_of blocks input.now) (nth_stay blocks input.now game.now stay) ≡ Some text.items) }
    ensures fault { IfErr result (IsCutRefusal (cut_refusal_of blocks input.now game.now stay)) }
{
    if input.len() > MOST_FILE_BYTES {
        return Err(Cut::TooLong);
    }
    let (first, rest) = split_line(input);
    let plan = read_plan(alloc, first)?;
    let file = CommandFile {
        blocks,
        plan: &plan,
        rest,
    };
    cut_planned(alloc, file, game, stay)
}

/// States that each stay of each file is answered by its own lines alone as it is in the file; that
/// its own lines are those between its `admit` and its `leave` that name its game; that a stay that
/// is found by name and number is one of the file's; and that in versions 1 and 2 the number of
/// blocks changes nothing. A line is refused if and only if the core would refuse its act, and an
/// admission for the core's first reason; no row is refused as `Full` while fewer stays are open
/// than a plan may have games. Does nothing.
pub fn section_law()
    ensures cut { SectionLaw }
    ensures own { OwnLinesLaw }
    ensures found { FoundLaw }
    ensures early { EarlyLaw }
    ensures core { CoreLaw }
    ensures full { FullLaw }
{}
