//! The contents of a `move` line.
ghost use Rattle.std.specs.Prelude.{◌≡◌, [], IfOk, codes, option_map, true};
ghost use Rattle.serde_json.specs.Find.{get};
ghost use Rattle.serde_json.specs.View.{view, members_view};
ghost use Rattle.bs_board.specs.commands.Orders.{is_ascending};
ghost use Rattle.bs_json.specs.Moves.{moves_of, direction_named, direction_from, directions_of, words_from, cells_at, cells_from, map_from, orders_from};
ghost use Rattle.bs_json.specs.Values.{or_default, whole_to};

use crate::limits::{MOST_FOOD, MOST_WORD};
use crate::values::{FromItem, each, whole_to};
use bs_board::limits::{MOST_HAZARDS, MOST_WORDS};
use bs_board::{Cells, Direction, Id, Move, Moves, Version, Words};
use serde_json::{Map, Value};
use std::alloc::{AllocError, Global};
use std::mem;

pub(crate) fn direction_named(word: &str) -> Option<Direction>
    ensures { result ≡ direction_named word.now }
{
    match word {
        "up" => Some(Direction::Up),
        "down" => Some(Direction::Down),
        "left" => Some(Direction::Left),
        "right" => Some(Direction::Right),
        _ => None,
    }
}

fn direction_from(value: &Value) -> Option<Direction>
    ensures { result ≡ direction_from (view value.now) }
{
    direction_named(value.as_str()?)
}

/// Turns the members of the object into directions. Their names become the ids.
fn directions_of(alloc: Global, members: Map<String, Value>) -> Result<Moves, AllocError>
    ensures value { IfOk result (λ found. found ≡ directions_of (members_view members.entries)) }
    ensures ascending { IfOk result (λ found. is_ascending found ≡ true) }
{
    let _count = members.len();
    let mut found = Moves::new(alloc);
    for (id, value) in members {
        if let Some(direction) = direction_from(&value) {
            found.push(Id::from_string(id).as_bytes(), direction)?;
        }
    }
    Ok(found)
}

impl FromItem for u32 {
    ghost use Rattle.bs_json.specs.declared.limits.TheConstants.{MOST_WORD};

    ghost read = { whole_to MOST_WORD };

    fn from_item(_alloc: Global, item: &Value) -> Result<Option<u32>, AllocError> {
        Ok(whole_to(item, MOST_WORD))
    }
}

fn words_from(alloc: Global, value: &Value) -> Result<Option<Words>, AllocError>
    ensures { IfOk result (λ words. words ≡ words_from (view value.now)) }
{
    let Some(items) = value.as_array() else {
        return Ok(None);
    };
    match each(alloc, items.as_slice())? {
        Some(words) if words.len() <= MOST_WORDS => Ok(Some(Words::from_vec(words))),
        _ => Ok(None),
    }
}

fn words_at(alloc: Global, line: &Value) -> Result<Option<Words>, AllocError>
    ensures { IfOk result
        (λ words. words ≡ or_default words_from [] (get (codes "words") (view line.now))) }
{
    match line.get("words") {
        Some(value) => words_from(alloc, value),
        None => Ok(Some(Words::from_vec(Vec::new(alloc)))),
    }
}

fn cells_from(
    alloc: Global,
    most: usize,
    value: &Value,
) -> Result<Option<Option<Cells>>, AllocError>
    ensures { IfOk result (λ given. given ≡ cells_from most (view value.now)) }
{
    let Some(items) = value.as_array() else {
        return Ok(None);
    };
    match each(alloc, items.as_slice())? {
        Some(cells) if cells.len() <= most => Ok(Some(Some(Cells::from_vec(cells)))),
        _ => Ok(None),
    }
}

/// The cells of a member; none if it is left out.
fn cells_at(
    alloc: Global,
    name: &str,
    most: usize,
    line: &Value,
) -> Result<Option<Option<Cells>>, AllocError>
    ensures { IfOk result (λ given. given ≡ cells_at name.now most (view line.now)) }
{
    match line.get(name) {
        Some(value) => cells_from(alloc, most, value),
        None => Ok(Some(None)),
    }
}

/// Reads the hazards and the food that a move gives, in versions that have hazards.
#[tactic(auto, unfolding(crate::specs::Moves::map_from))]
fn map_from(
    alloc: Global,
    version: Version,
    line: &Value,
) -> Result<Option<(Option<Cells>, Option<Cells>)>, AllocError>
    ensures { IfOk result (λ given. given ≡ map_from version (view line.now)) }
{
    if !version.has_hazards() {
        return Ok(Some((None, None)));
    }
    let Some(hazards) = cells_at(alloc, "hazards", MOST_HAZARDS, line)? else {
        return Ok(None);
    };
    match cells_at(alloc, "food", MOST_FOOD, line)? {
        Some(food) => Ok(Some((hazards, food))),
        None => Ok(None),
    }
}

/// Takes the object of the moves out of the line.
fn take_moves(alloc: Global, line: &mut Value) -> Option<Map<String, Value>>
    ensures { option_map (λ m. members_view m.entries) result
        ≡ moves_of (view line.old) }
{
    let members = line.get_mut("moves")?.as_object_mut()?;
    Some(mem::replace(members, Map::new(alloc)))
}

/// Reads a move. `None` if a member is missing, of another type or out of range. Takes the moves
/// out of the line.
#[tactic(auto, unfolding(crate::specs::Moves::orders_from))]
pub fn orders_from(
    alloc: Global,
    version: Version,
    line: &mut Value,
) -> Result<Option<Move>, AllocError>
    ensures { IfOk result (λ orders. orders ≡ orders_from version (view line.old)) }
{
    let Some(words) = words_at(alloc, line)? else {
        return Ok(None);
    };
    let Some((hazards, food)) = map_from(alloc, version, line)? else {
        return Ok(None);
    };
    let Some(members) = take_moves(alloc, line) else {
        return Ok(None);
    };
    let moves = directions_of(alloc, members)?;
    Ok(Some(Move::new(moves, words).with_map(hazards, food)))
}
