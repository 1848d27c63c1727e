//! Parses the hazards and the food that a move gives, in their compact form.
ghost use Rattle.std.specs.Prelude.{◌≡◌, ◌≤◌, ◌∷◌, ◌++◌, length, true, false, IfOk, IfSome};
ghost use Rattle.std.specs.List.{list_all};
ghost use Rattle.serde_json.specs.Written.{comma_if};
ghost use Rattle.bs_json.specs.inner.BoardText.{coordinate_text};
ghost use Rattle.bs_json.specs.inner.Maps.{is_near, is_near_cell, place_text, cells_text, given_text, map_text, IsMap};

use crate::compact::{is_exactly, strip_prefix};
use crate::limits::MOST_FOOD;
use crate::numbers::split_number;
use bs_board::limits::{LONGEST_SIDE, MOST_HAZARDS};
use bs_board::{Cells, Point, Version};
use std::alloc::{AllocError, Global};

/// Parses a number below the longest side.
fn split_coordinate<'l>(line: &'l [u8]) -> Option<(i16, &'l [u8])>
    ensures text { IfSome result (λ found. line.now ≡ coordinate_text found.0 ++ found.1.now) }
    ensures near { IfSome result (λ found. is_near found.0 ≡ true) }
{
    let (number, rest) = split_number(line)?;
    if number >= u32::from(LONGEST_SIDE) {
        return None;
    }
    Some((i16::from(number as u8), rest))
}

/// Parses the members of a cell, and the brace that closes it.
pub(crate) fn split_place<'l>(line: &'l [u8]) -> Option<(Point, &'l [u8])>
    ensures text { IfSome result (λ found. line.now ≡ place_text found.0 ++ found.1.now) }
    ensures near { IfSome result (λ found. is_near_cell found.0 ≡ true) }
{
    let (x, rest) = split_coordinate(strip_prefix(line, b"\"x\":")?)?;
    let (y, rest) = split_coordinate(strip_prefix(rest, b",\"y\":")?)?;
    Some((Point { x, y }, strip_prefix(rest, b"}")?))
}

/// Parses a cell, after a comma unless it is the first.
fn split_next_cell<'l>(line: &'l [u8], later: bool) -> Option<(Point, &'l [u8])>
    ensures text { IfSome result (λ found. line.now ≡ comma_if later ++ ((123 ∷ place_text found.0) ++ found.1.now)) }
    ensures near { IfSome result (λ found. is_near_cell found.0 ≡ true) }
{
    if later {
        split_place(strip_prefix(line, b",{")?)
    } else {
        split_place(strip_prefix(line, b"{")?)
    }
}

/// Parses all cells up to the closing bracket.
pub(crate) fn split_cells<'l>(
    alloc: Global,
    line: &'l [u8],
) -> Result<Option<(Cells, &'l [u8])>, AllocError>
    ensures text { IfOk result
        (λ cut. IfSome cut (λ found. line.now ≡ cells_text false found.0 ++ 93 ∷ found.1.now)) }
    ensures near { IfOk result (λ cut. IfSome cut (λ found. list_all is_near_cell found.0 ≡ true)) }
{
    let mut cells = Cells::new(alloc);
    let mut left = line;
    let mut later = false;
    for _turn in 0..line.len() {
        if let Some(rest) = strip_prefix(left, b"]") {
            return Ok(Some((cells, rest)));
        }
        let Some((cell, rest)) = split_next_cell(left, later) else {
            return Ok(None);
        };
        cells.push(cell)?;
        left = rest;
        later = true;
    }
    Ok(None)
}

/// Parses cells that may be left out, of at most that number, behind the text before their list.
fn split_given<'l>(
    alloc: Global,
    most: usize,
    name: &[u8],
    line: &'l [u8],
) -> Result<Option<(Option<Cells>, &'l [u8])>, AllocError>
    ensures text { IfOk result
        (λ cut. IfSome cut (λ found. line.now ≡ given_text name.now found.0 ++ found.1.now)) }
    ensures near { IfOk result (λ cut. IfSome cut (λ found. IfSome found.0 (λ cells. list_all is_near_cell cells ≡ true))) }
    ensures few { IfOk result (λ cut. IfSome cut (λ found. IfSome found.0 (λ cells. length cells ≤ most))) }
{
    let Some(list) = strip_prefix(line, name) else {
        return Ok(Some((None, line)));
    };
    let Some((cells, rest)) = split_cells(alloc, list)? else {
        return Ok(None);
    };
    if cells.len() > most {
        return Ok(None);
    }
    Ok(Some((Some(cells), rest)))
}

/// Parses the hazards and the food up to the end of the line. `None` in a version without hazards.
pub(crate) fn parse_map(
    alloc: Global,
    version: Version,
    line: &[u8],
) -> Result<Option<(Option<Cells>, Option<Cells>)>, AllocError>
    ensures text { IfOk result (λ o. IfSome o (λ given. line.now ≡ map_text given.0 given.1)) }
    ensures fit { IfOk result (λ o. IfSome o (λ given. IsMap version given.0 given.1)) }
{
    if !version.has_hazards() {
        return Ok(None);
    }
    let Some((hazards, rest)) = split_given(alloc, MOST_HAZARDS, b",\"hazards\":[", line)? else {
        return Ok(None);
    };
    let Some((food, rest)) = split_given(alloc, MOST_FOOD, b",\"food\":[", rest)? else {
        return Ok(None);
    };
    if !is_exactly(rest, b"}") {
        return Ok(None);
    }
    Ok(Some((hazards, food)))
}
