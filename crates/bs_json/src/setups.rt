//! The contents of a `new` line.
ghost use Rattle.std.specs.Prelude.{◌≡◌, [], IfOk, codes};
ghost use Rattle.serde_json.specs.Find.{get};
ghost use Rattle.serde_json.specs.View.{view};
ghost use Rattle.bs_json.specs.Setups.{mode_named, mode_at, cell_from, start_from, hazardous, hazards_from, setup_from};
ghost use Rattle.bs_json.specs.Values.{list_at, list_of, or_default};

use crate::limits::{USUAL_CHANCE, USUAL_DAMAGE, USUAL_MIN_FOOD};
use crate::values::{FromItem, byte_at, byte_or, each, id_at, text_at};
use bs_board::limits::{LONGEST_SIDE, MOST_CHANCE, MOST_DAMAGE, MOST_MIN_FOOD};
use bs_board::{Cells, Hazards, Id, Mode, New, Point, Starts, Version};
use serde_json::Value;
use std::alloc::{AllocError, Global};

fn mode_named(version: Version, word: &str) -> Option<Mode>
    ensures { result ≡ mode_named version word.now }
{
    match word {
        "standard" => Some(Mode::Standard),
        "solo" => Some(Mode::Solo),
        "constrictor" => Some(Mode::Constrictor),
        "wrapped" if version.has_wrapped() => Some(Mode::Wrapped),
        _ => None,
    }
}

fn mode_at(version: Version, line: &Value) -> Option<Mode>
    ensures { result ≡ mode_at version (view line.now) }
{
    mode_named(version, text_at(line, "mode")?)
}

fn cell_from(value: &Value) -> Option<Point>
    ensures { result ≡ cell_from (view value.now) }
{
    let x = byte_at(value, "x", LONGEST_SIDE - 1)?;
    let y = byte_at(value, "y", LONGEST_SIDE - 1)?;
    Some(Point {
        x: i16::from(x),
        y: i16::from(y),
    })
}

fn start_from(alloc: Global, value: &Value) -> Result<Option<(Id, Point)>, AllocError>
    ensures { IfOk result (λ start. start ≡ start_from (view value.now)) }
{
    let Some(id) = id_at(alloc, value, "id")? else {
        return Ok(None);
    };
    match cell_from(value) {
        Some(cell) => Ok(Some((id, cell))),
        None => Ok(None),
    }
}

impl FromItem for Point {
    ghost read = { cell_from };

    fn from_item(_alloc: Global, item: &Value) -> Result<Option<Point>, AllocError> {
        Ok(cell_from(item))
    }
}

impl FromItem for (Id, Point) {
    ghost read = { start_from };

    fn from_item(alloc: Global, item: &Value) -> Result<Option<(Id, Point)>, AllocError> {
        start_from(alloc, item)
    }
}

fn starts_at(alloc: Global, line: &Value) -> Result<Option<Starts>, AllocError>
    ensures { IfOk result (λ starts. starts ≡ list_at (codes "snakes") start_from (view line.now)) }
{
    match line.get("snakes").and_then(Value::as_array) {
        Some(items) => Ok(each(alloc, items.as_slice())?.map(Starts::from_vec)),
        None => Ok(None),
    }
}

fn food_at(alloc: Global, line: &Value) -> Result<Option<Cells>, AllocError>
    ensures { IfOk result (λ cells. cells ≡ list_at (codes "food") cell_from (view line.now)) }
{
    match line.get("food").and_then(Value::as_array) {
        Some(items) => Ok(each(alloc, items.as_slice())?.map(Cells::from_vec)),
        None => Ok(None),
    }
}

/// The cells of the hazards; none if they are left out.
fn hazard_cells_at(alloc: Global, line: &Value) -> Result<Option<Cells>, AllocError>
    ensures { IfOk result (λ cells. cells ≡ or_default (list_of cell_from) [] (get (codes "hazards") (view line.now))) }
{
    let Some(value) = line.get("hazards") else {
        return Ok(Some(Cells::new(alloc)));
    };
    match value.as_array() {
        Some(items) => Ok(each(alloc, items.as_slice())?.map(Cells::from_vec)),
        None => Ok(None),
    }
}

fn hazards_from(alloc: Global, line: &Value) -> Result<Option<Hazards>, AllocError>
    ensures { IfOk result (λ hazards. hazards ≡ hazards_from (view line.now)) }
{
    let Some(damage) = byte_or(line, "hazard_damage", MOST_DAMAGE, USUAL_DAMAGE) else {
        return Ok(None);
    };
    match hazard_cells_at(alloc, line)? {
        Some(cells) => Ok(Some(Hazards { damage, cells })),
        None => Ok(None),
    }
}

/// The setup with the hazards of the line, in versions that have hazards.
fn hazardous(
    alloc: Global,
    version: Version,
    line: &Value,
    setup: New,
) -> Result<Option<New>, AllocError>
    ensures { IfOk result (λ new. new ≡ hazardous version (view line.now) setup) }
{
    if !version.has_hazards() {
        return Ok(Some(setup));
    }
    match hazards_from(alloc, line)? {
        Some(hazards) => Ok(setup.with_hazards(hazards)),
        None => Ok(None),
    }
}

/// Reads a setup. `None` if a member is missing, of another type or out of range, or if the version
/// does not have the mode.
#[tactic(auto, unfolding(crate::specs::Setups::setup_from))]
pub fn setup_from(alloc: Global, version: Version, line: &Value) -> Result<Option<New>, AllocError>
    ensures { IfOk result (λ new. new ≡ setup_from version (view line.now)) }
{
    let Some(mode) = mode_at(version, line) else {
        return Ok(None);
    };
    let Some(width) = byte_at(line, "width", LONGEST_SIDE) else {
        return Ok(None);
    };
    let Some(height) = byte_at(line, "height", LONGEST_SIDE) else {
        return Ok(None);
    };
    let Some(snakes) = starts_at(alloc, line)? else {
        return Ok(None);
    };
    let Some(food) = food_at(alloc, line)? else {
        return Ok(None);
    };
    let Some(min_food) = byte_or(line, "min_food", MOST_MIN_FOOD, USUAL_MIN_FOOD) else {
        return Ok(None);
    };
    let Some(chance) = byte_or(line, "food_chance", MOST_CHANCE, USUAL_CHANCE) else {
        return Ok(None);
    };
    match New::new(mode, width, height, snakes, food, min_food, chance) {
        Some(setup) => hazardous(alloc, version, line, setup),
        None => Ok(None),
    }
}
