//! Parses one line of a command file, after the first.
ghost use Rattle.std.specs.Prelude.{◌≡◌, codes, IfOk};
ghost use Rattle.std.specs.List.{list_all};
ghost use Rattle.serde_json.specs.View.{view};
ghost use Rattle.bs_json.specs.Line.{admit_line, command_line, does, is_space, line_from, line_in, line_of};
ghost use Rattle.bs_json.specs.PlanLine.{row_from};
ghost use Rattle.bs_json.specs.Values.{text_at};

use crate::commands::command_of;
use crate::compact::compact_line;
use crate::limits::MAX_LINE;
use crate::minified::spaced_line;
use crate::name::Name;
use crate::plan::row_from;
use crate::values::{id_at, parsed, text_at};
use bs_board::{Command, Row, Version};
use serde_json::Value;
use std::alloc::{AllocError, Global};

/// Why a line is refused before it reaches a game.
#[derive(Clone, Copy, Debug, PartialEq, Eq)]
pub enum Stray {
    /// L1: it is not JSON, or not an object.
    Json,
    /// L2: it names no open game.
    Game,
    /// L3: it is too long.
    Long,
    /// A1: it admits a game whose name or quota is missing or out of range.
    BadRow,
    /// A2: it admits a game with the name of an open game.
    NameOpen,
    /// A3: it admits a game while as many are open as a plan may have.
    Full,
    /// A4: it admits a game that needs more blocks than are free besides those reserved for the
    /// open games.
    Short,
    /// A5: it dismisses a game that is not open.
    NoStay,
}

/// A parsed line of a command file, after its first.
#[derive(Debug, Drop)]
pub enum Line<'l> {
    /// Only white space; the line is skipped.
    Blank,
    Command { game: Name<'l>, command: Command },
    /// It names its game, and is no valid command.
    Bad { game: Name<'l> },
    Stray(Stray),
    /// It admits a game, from version 3 on.
    Admit(Row),
    /// It admits a game, but its name or its quota is missing or out of range.
    BadAdmit,
    /// It dismisses the game of that name, from version 3 on. `None` if the name is missing or not
    /// a string.
    Leave { game: Option<Name<'l>> },
}

pub(crate) fn is_space(byte: u8) -> bool
    ensures { result ≡ is_space byte }
{
    matches!(byte, b' ' | b'\t' | b'\n' | b'\r')
}

pub(crate) fn is_blank(line: &[u8]) -> bool
    ensures { result ≡ list_all is_space line.now }
{
    line.iter().all(|byte| is_space(*byte))
}

/// Whether the member `do` is that word.
fn does(value: &Value, word: &str) -> bool
    ensures { result ≡ does word.now (view value.now) }
{
    match text_at(value, "do") {
        Some(text) => text == word,
        None => false,
    }
}

/// The member `game`, if it is a string.
fn name_at<'l>(alloc: Global, value: &Value) -> Result<Option<Name<'l>>, AllocError>
    ensures { IfOk result (λ name. name ≡ text_at (codes "game") (view value.now)) }
{
    match id_at(alloc, value, "game")? {
        Some(id) => Ok(Some(Name::own(alloc, id)?)),
        None => Ok(None),
    }
}

/// Reads a line that neither admits nor dismisses a game.
fn command_line<'l>(
    alloc: Global,
    version: Version,
    value: &mut Value,
) -> Result<Line<'l>, AllocError>
    ensures { IfOk result
        (λ line. line ≡ command_line version (view value.old) (text_at (codes "game") (view value.old))) }
{
    let Some(game) = name_at(alloc, value)? else {
        return Ok(Line::Stray(Stray::Game));
    };
    match command_of(alloc, version, value)? {
        Some(command) => Ok(Line::Command { game, command }),
        None => Ok(Line::Bad { game }),
    }
}

/// Reads a line that admits a game.
fn admit_line<'l>(alloc: Global, value: &Value) -> Result<Line<'l>, AllocError>
    ensures { IfOk result (λ line. line ≡ admit_line (row_from (view value.now))) }
{
    match row_from(alloc, value)? {
        Some(row) => Ok(Line::Admit(row)),
        None => Ok(Line::BadAdmit),
    }
}

fn line_in<'l>(alloc: Global, version: Version, value: &mut Value) -> Result<Line<'l>, AllocError>
    ensures { IfOk result (λ line. line ≡ line_in version (view value.old)) }
{
    if version.has_stays() && does(value, "admit") {
        return admit_line(alloc, value);
    }
    if version.has_stays() && does(value, "leave") {
        let game = name_at(alloc, value)?;
        return Ok(Line::Leave { game });
    }
    command_line(alloc, version, value)
}

fn line_from<'l>(alloc: Global, version: Version, value: &mut Value) -> Result<Line<'l>, AllocError>
    ensures { IfOk result (λ line. line ≡ line_from version (Some (view value.old))) }
{
    if !value.is_object() {
        return Ok(Line::Stray(Stray::Json));
    }
    line_in(alloc, version, value)
}

/// Parses one line of a file whose plan has that version. The line is given without its line feed.
/// Does not check that the plan has the game. A line in its compact form is parsed without a JSON
/// value, and lends its game's name.
#[tactic(auto, unfolding(crate::specs::Line::line_of))]
#[inline(always)]
pub fn read_line<'l>(
    alloc: Global,
    line: &'l [u8],
    version: Version,
) -> Result<Line<'l>, AllocError>
    ensures { IfOk result (λ l. l ≡ line_of version line.now) }
{
    if line.len() > MAX_LINE {
        return Ok(Line::Stray(Stray::Long));
    }
    if let Some(found) = compact_line(alloc, version, line)? {
        return Ok(found);
    }
    if is_blank(line) {
        return Ok(Line::Blank);
    }
    if let Some(found) = spaced_line(alloc, version, line)? {
        return Ok(found);
    }
    match parsed(alloc, line)? {
        Some(mut value) => line_from(alloc, version, &mut value),
        None => Ok(Line::Stray(Stray::Json)),
    }
}
