//! Drops the white space between the tokens of a line, so that a line with spaces is parsed as one
//! in its compact form.
ghost use Rattle.std.specs.Prelude.{◌≡◌, ◌≤◌, [], ◌++◌, false, length, option_map, IfOk, IfSome, OnOk};
ghost use Rattle.std.specs.List.{list_all};
ghost use Rattle.json.specs.Lex.{class};
ghost use Rattle.bs_json.specs.inner.Minified.{before_rest, behind_first_digit, behind_digit, behind_plain, is_kept, minified, next_place};
ghost use Rattle.bs_json.specs.declared.minified.Place.TheVariants as place;
ghost use Rattle.bs_json.specs.declared.limits.TheConstants.{MAX_LINE};
ghost use Rattle.bs_json.specs.Line.{is_space, line_of};

use crate::compact::{compact_line, is_plain, owned_line};
use crate::line::{Line, is_blank, is_space};
use bs_board::Version;
use memchr::memchr3;
use std::alloc::{AllocError, Global};

/// What is before a byte of a line.
#[derive(Clone, Copy)]
pub(crate) enum Place {
    /// A token that has ended, or none.
    Between,
    /// Digits of a number that may go on.
    Number,
    /// A number behind which only an operator may stand.
    Ended,
    /// The start of a string.
    Text,
}

fn behind_first_digit(byte: u8) -> Option<Place>
    ensures { result ≡ behind_first_digit byte }
{
    if byte == b'0' {
        Some(Place::Ended)
    } else if byte.is_ascii_digit() {
        Some(Place::Number)
    } else {
        None
    }
}

fn behind_digit(byte: u8) -> Option<Place>
    ensures { result ≡ behind_digit byte }
{
    if byte.is_ascii_digit() {
        Some(Place::Number)
    } else {
        None
    }
}

fn behind_plain(byte: u8) -> Option<Place>
    ensures { result ≡ behind_plain byte }
{
    if is_plain(byte) {
        Some(Place::Text)
    } else {
        None
    }
}

/// The place behind a byte between two tokens.
fn behind_token(byte: u8) -> Option<Place>
    ensures { result ≡ next_place place.Between (class byte) byte }
{
    match byte {
        b'"' => Some(Place::Text),
        b'{' | b'}' | b'[' | b']' | b':' | b',' => Some(Place::Between),
        b' ' | b'\t' | b'\n' | b'\r' => Some(Place::Between),
        b'\\' => None,
        _ => behind_first_digit(byte),
    }
}

/// The place behind a byte that follows digits.
fn behind_number(byte: u8) -> Option<Place>
    ensures { result ≡ next_place place.Number (class byte) byte }
{
    match byte {
        b'{' | b'}' | b'[' | b']' | b':' | b',' => Some(Place::Between),
        b' ' | b'\t' | b'\n' | b'\r' => Some(Place::Ended),
        b'"' | b'\\' => None,
        _ => behind_digit(byte),
    }
}

/// The place behind a byte that follows a number that has ended.
fn behind_ended(byte: u8) -> Option<Place>
    ensures { result ≡ next_place place.Ended (class byte) byte }
{
    match byte {
        b'{' | b'}' | b'[' | b']' | b':' | b',' => Some(Place::Between),
        b' ' | b'\t' | b'\n' | b'\r' => Some(Place::Ended),
        _ => None,
    }
}

/// The place behind a byte of a string.
fn behind_text(byte: u8) -> Option<Place>
    ensures { result ≡ next_place place.Text (class byte) byte }
{
    match byte {
        b'"' => Some(Place::Between),
        b'\\' => None,
        _ => behind_plain(byte),
    }
}

/// The place behind a byte. `None` behind a byte that is left to the JSON reader.
#[inline(always)]
fn next_place(place: Place, byte: u8) -> Option<Place>
    ensures { result ≡ next_place place (class byte) byte }
{
    match place {
        Place::Between => behind_token(byte),
        Place::Number => behind_number(byte),
        Place::Ended => behind_ended(byte),
        Place::Text => behind_text(byte),
    }
}

/// Whether a byte is kept: white space is kept within a string alone.
#[inline(always)]
fn is_kept(place: Place, byte: u8) -> bool
    ensures { result ≡ is_kept place (class byte) }
{
    match place {
        Place::Text => true,
        Place::Between | Place::Number | Place::Ended => !is_space(byte),
    }
}

/// Appends a byte, if it is kept.
#[inline(always)]
fn push_kept(place: Place, byte: u8, short: &mut Vec<u8>) -> Result<(), AllocError>
    ensures { OnOk result
        (short.new.items ≡ short.old.items ++ before_rest (is_kept place (class byte)) byte []) }
{
    if is_kept(place, byte) {
        short.push(byte)?;
    }
    Ok(())
}

/// The line without the white space between its tokens. `None` if it has other tokens than
/// operators, whole numbers and strings of plain bytes.
fn minified(alloc: Global, line: &[u8]) -> Result<Option<Vec<u8>>, AllocError>
    ensures { IfOk result
        (λ found. option_map (λ short. short.items) found ≡ minified place.Between line.now) }
{
    let mut short = Vec::with_capacity(alloc, line.len())?;
    let mut place = Place::Between;
    for byte in line {
        let Some(next) = next_place(place, *byte) else {
            return Ok(None);
        };
        push_kept(place, *byte, &mut short)?;
        place = next;
    }
    Ok(Some(short))
}

/// Whether the first white space of the line seems to stand between tokens: not behind a letter, as
/// in a name. It spares a pass over other lines that are not compact.
fn seems_spaced(line: &[u8]) -> bool {
    let Some(at) = memchr3(b' ', b'\t', b'\r', line) else {
        return false;
    };
    match at.checked_sub(1) {
        Some(before) => match line.get(before) {
            Some(byte) => !byte.is_ascii_alphabetic(),
            None => false,
        },
        None => true,
    }
}

/// Parses a line that is compact but for the white space between its tokens; `None` for any other
/// line.
pub(crate) fn spaced_line<'l>(
    alloc: Global,
    version: Version,
    line: &'l [u8],
) -> Result<Option<Line<'l>>, AllocError>
    requires fits { length line.now ≤ MAX_LINE }
    requires some { list_all is_space line.now ≡ false }
    ensures { IfOk result (λ found. IfSome found (λ l. l ≡ line_of version line.now)) }
{
    if !seems_spaced(line) {
        return Ok(None);
    }
    if !line.is_ascii() {
        return Ok(None);
    }
    let Some(short) = minified(alloc, line)? else {
        return Ok(None);
    };
    if short.len() >= line.len() || is_blank(short.as_slice()) {
        return Ok(None);
    }
    let Some(lent) = compact_line(alloc, version, short.as_slice())? else {
        return Ok(None);
    };
    match owned_line(alloc, lent)? {
        Some(found) => Ok(Some(found)),
        None => Ok(None),
    }
}
