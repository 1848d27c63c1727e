//! Parses lines in their compact form, as programs write most of them: in one pass, without a JSON
//! value.
ghost use Rattle.std.specs.Prelude.{◌≡◌, ◌≤◌, [], ◌∷◌, ◌++◌, codes, decimal, length, false, true, not, IfOk, IfSome};
ghost use Rattle.std.specs.List.{position};
ghost use Rattle.serde_json.specs.Written.{comma_if};
ghost use Rattle.bs_board.specs.commands.Orders.{AreFitWords, is_ascending, moves_in, orders_of};
ghost use Rattle.bs_json.specs.inner.Compact.{is_plain, are_plain, direction_name, move_text, words_text, tail_text, GivenMoves, ReadMoves, IsFitTail, IsMoveText, IsOrderText};
ghost use Rattle.bs_json.specs.Line.{line_of};
ghost use Rattle.bs_json.specs.declared.limits.TheConstants.{MAX_LINE};

use crate::line::Line;
use crate::maps::parse_map;
use crate::name::Name;
use crate::numbers::split_number;
use crate::ordered_moves::{insert, is_above, packed, put};
use crate::short::parse_short_order;
use bs_board::limits::MOST_WORDS;
use bs_board::{Cells, Command, Direction, Id, Move, Moves, Version, Words};
use std::alloc::{AllocError, Global};
use std::str;

/// The most bytes of an id whose move is packed as it comes. Those of longer ids soon take memory
/// outside of the value, which would be wasted where a later id is out of order.
const SHORT_ID: usize = 8;

/// Whether the byte is printable ASCII and needs no escape in a string.
pub(crate) fn is_plain(byte: u8) -> bool
    ensures { result ≡ is_plain byte }
{
    32 <= byte && byte < 127 && byte != b'"' && byte != b'\\'
}

/// Strips the text from the start of the line. `None` if the line does not start with it.
#[tactic(auto, using(crate::proofs::CutTexts::behind_prefix))]
pub(crate) fn strip_prefix<'l>(line: &'l [u8], text: &[u8]) -> Option<&'l [u8]>
    ensures { IfSome result (λ rest. line.now ≡ text.now ++ rest.now) }
{
    match line.strip_prefix(text) {
        Some(rest) => Some(rest),
        None => None,
    }
}

/// The index of the first byte that is not plain.
fn plain_end(line: &[u8]) -> Option<usize>
    ensures { result ≡ position (λ byte. not (is_plain byte)) line.now }
{
    line.iter().position(|byte| !is_plain(*byte))
}

/// Splits off the plain text up to the next quotation mark, which is dropped.
#[tactic(auto, using(crate::proofs::CutTexts::plain_front))]
fn split_text<'l>(line: &'l [u8]) -> Option<(&'l [u8], &'l [u8])>
    ensures text { IfSome result (λ found. line.now ≡ found.0.now ++ 34 ∷ found.1.now) }
    ensures plain { IfSome result (λ found. are_plain found.0.now ≡ true) }
{
    let (text, rest) = line.split_at(plain_end(line)?);
    match rest {
        [b'"', rest @ ..] => Some((text, rest)),
        _ => None,
    }
}

fn as_text(bytes: &[u8]) -> Option<&str>
    ensures { IfSome result (λ text. text.now ≡ bytes.now) }
{
    match str::from_utf8(bytes) {
        Ok(text) => Some(text),
        Err(_) => None,
    }
}

/// Parses the name of a direction, and the quotation mark after it.
fn split_direction(line: &[u8]) -> Option<(Direction, &[u8])>
    ensures { IfSome result (λ found. line.now ≡ direction_name found.0 ++ 34 ∷ found.1.now) }
{
    match line {
        [b'u', b'p', b'"', rest @ ..] => Some((Direction::Up, rest)),
        [b'd', b'o', b'w', b'n', b'"', rest @ ..] => Some((Direction::Down, rest)),
        [b'l', b'e', b'f', b't', b'"', rest @ ..] => Some((Direction::Left, rest)),
        [b'r', b'i', b'g', b'h', b't', b'"', rest @ ..] => Some((Direction::Right, rest)),
        _ => None,
    }
}

/// Parses a snake's id and its direction.
#[tactic(auto, using(crate::proofs::CutTexts::move_parts))]
fn split_move<'l>(line: &'l [u8]) -> Option<(&'l [u8], Direction, &'l [u8])>
    ensures text { IfSome result (λ found. line.now ≡ move_text (found.0.now, found.1) ++ found.2.now) }
    ensures plain { IfSome result (λ found. are_plain found.0.now ≡ true) }
{
    let (id, rest) = split_text(strip_prefix(line, b"\"")?)?;
    let (direction, rest) = split_direction(strip_prefix(rest, b":\"")?)?;
    Some((id, direction, rest))
}

/// Parses a move, after a comma unless it is the first.
fn split_next_move<'l>(line: &'l [u8], later: bool) -> Option<(&'l [u8], Direction, &'l [u8])>
    ensures text { IfSome result (λ found. line.now ≡ comma_if later ++ (move_text (found.0.now, found.1) ++ found.2.now)) }
    ensures plain { IfSome result (λ found. are_plain found.0.now ≡ true) }
{
    if later {
        split_move(strip_prefix(line, b",")?)
    } else {
        split_move(line)
    }
}

/// Parses the moves that are left, up to the closing brace, after those of these entries. Returns
/// all in the order of their ids, each id once, with the direction that it has last.
#[tactic(auto, using(crate::proofs::GivenMoves::one_more, crate::proofs::GivenMoves::are_plain_in_order, crate::proofs::GivenMoves::ascend_in_order))]
fn split_others<'e, 'l: 'e>(
    alloc: Global,
    line: &[u8],
    before: Vec<(&'e [u8], Direction)>,
    others: &'l [u8],
) -> Result<Option<(Moves, &'l [u8])>, AllocError>
    requires { ReadMoves line.now (moves_in before.items) others.now true }
    ensures text { IfOk result (λ cut. IfSome cut (λ found. GivenMoves line.now found.0 (125 ∷ found.1.now))) }
    ensures ascending { IfOk result (λ cut. IfSome cut (λ found. is_ascending found.0 ≡ true)) }
{
    let mut moves = before;
    let mut left = others;
    for _turn in 0..line.len() {
        if let Some(rest) = strip_prefix(left, b"}") {
            return Ok(Some((packed(alloc, moves.as_slice())?, rest)));
        }
        let Some((id, direction, rest)) = split_next_move(left, true) else {
            return Ok(None);
        };
        put(&mut moves, id, direction)?;
        left = rest;
    }
    Ok(None)
}

/// Parses all moves up to the closing brace. Returns them in the order of their ids, each id once,
/// with the direction that it has last. Moves whose ids are short and ascend are packed as they
/// come.
#[tactic(auto, using(crate::proofs::GivenMoves::no_moves, crate::proofs::GivenMoves::one_more, crate::proofs::GivenMoves::are_plain_in_order, crate::proofs::GivenMoves::ascend_in_order))]
fn split_moves<'l>(alloc: Global, line: &'l [u8]) -> Result<Option<(Moves, &'l [u8])>, AllocError>
    ensures text { IfOk result (λ cut. IfSome cut (λ found. GivenMoves line.now found.0 (125 ∷ found.1.now))) }
    ensures ascending { IfOk result (λ cut. IfSome cut (λ found. is_ascending found.0 ≡ true)) }
{
    let mut moves = Moves::new(alloc);
    let mut last = None;
    let mut left = line;
    for _turn in 0..line.len() {
        if let Some(rest) = strip_prefix(left, b"}") {
            return Ok(Some((moves, rest)));
        }
        let Some((id, direction, rest)) = split_next_move(left, last.is_some()) else {
            return Ok(None);
        };
        if id.len() > SHORT_ID || !is_above(id, last) {
            let mut entries = moves.entries(alloc)?;
            insert(&mut entries, id, direction)?;
            return split_others(alloc, line, entries, rest);
        }
        moves.push(id, direction)?;
        last = Some(id);
        left = rest;
    }
    Ok(None)
}

pub(crate) fn is_exactly(line: &[u8], text: &[u8]) -> bool
    ensures { result ≡ true → line.now ≡ text.now }
{
    line == text
}

/// Parses a word, after a comma unless it is the first.
fn split_next_word<'l>(line: &'l [u8], later: bool) -> Option<(u32, &'l [u8])>
    ensures { IfSome result (λ found. line.now ≡ comma_if later ++ (decimal found.0 ++ found.1.now)) }
{
    if later {
        split_number(strip_prefix(line, b",")?)
    } else {
        split_number(line)
    }
}

/// Parses all words up to the closing bracket.
fn split_words<'l>(
    alloc: Global,
    line: &'l [u8],
) -> Result<Option<(Vec<u32>, &'l [u8])>, AllocError>
    ensures { IfOk result
        (λ cut. IfSome cut (λ found. line.now ≡ words_text false found.0.items ++ 93 ∷ found.1.now)) }
{
    let mut words = Vec::new(alloc);
    let mut left = line;
    let mut later = false;
    for _turn in 0..line.len() {
        if let Some(rest) = strip_prefix(left, b"]") {
            return Ok(Some((words, rest)));
        }
        let Some((word, rest)) = split_next_word(left, later) else {
            return Ok(None);
        };
        words.push(word)?;
        left = rest;
        later = true;
    }
    Ok(None)
}

/// Parses the words of a `move` line from the first one on, up to the end of the line.
fn parse_words(alloc: Global, line: &[u8]) -> Result<Option<Words>, AllocError>
    ensures text { IfOk result (λ o. IfSome o (λ words. line.now ≡ words_text false words ++ codes "]}")) }
    ensures fit { IfOk result (λ o. IfSome o AreFitWords) }
{
    let Some((words, rest)) = split_words(alloc, line)? else {
        return Ok(None);
    };
    if !is_exactly(rest, b"}") || words.len() > MOST_WORDS {
        return Ok(None);
    }
    let words = Words::from_vec(words);
    let _small = words.as_slice();
    Ok(Some(words))
}

/// The move that gives these directions and a map, and has no words.
fn map_move(alloc: Global, moves: Moves, given: (Option<Cells>, Option<Cells>)) -> Move
    requires { is_ascending moves ≡ true }
    ensures { result ≡ record (orders_of moves []) { hazards = given.0; food = given.1 } }
{
    let (hazards, food) = given;
    Move::new(moves, Words::from_vec(Vec::new(alloc))).with_map(hazards, food)
}

/// Parses what follows the moves of a `move` line: words, or hazards and food. Returns the move,
/// and whether its words are written: a line without words may leave them out.
fn parse_tail(
    alloc: Global,
    version: Version,
    moves: Moves,
    line: &[u8],
) -> Result<Option<(Move, bool)>, AllocError>
    requires { is_ascending moves ≡ true }
    ensures text { IfOk result (λ o. IfSome o (λ found. line.now ≡ tail_text found.1 found.0)) }
    ensures moves { IfOk result (λ o. IfSome o (λ found. found.0.moves ≡ moves)) }
    ensures fit { IfOk result (λ o. IfSome o (λ found. IsFitTail version found.1 found.0)) }
{
    if is_exactly(line, b"}") {
        return Ok(Some((map_move(alloc, moves, (None, None)), false)));
    }
    if let Some(list) = strip_prefix(line, b",\"words\":[") {
        return Ok(match parse_words(alloc, list)? {
            Some(words) => Some((Move::new(moves, words), true)),
            None => None,
        });
    }
    Ok(match parse_map(alloc, version, line)? {
        Some(given) => Some((map_move(alloc, moves, given), false)),
        None => None,
    })
}

/// Parses a `move` from its first id on. Also returns whether its words are written.
fn parse_move(
    alloc: Global,
    version: Version,
    line: &[u8],
) -> Result<Option<(Move, bool)>, AllocError>
    ensures { IfOk result (λ o. IfSome o (λ found. IsMoveText version line.now found.1 found.0)) }
{
    let Some((moves, rest)) = split_moves(alloc, line)? else {
        return Ok(None);
    };
    parse_tail(alloc, version, moves, rest)
}

/// Strips the text before the moves of a move.
#[inline(always)]
fn behind_move(order: &[u8]) -> Option<&[u8]>
    ensures { IfSome result (λ rest. order.now ≡ codes "move\",\"moves\":{" ++ rest.now) }
{
    match order.split_first_chunk::<15>() {
        Some((b"move\",\"moves\":{", rest)) => Some(rest),
        _ => None,
    }
}

/// Parses a command from its name on. Also returns whether its words are written.
fn parse_order(
    alloc: Global,
    version: Version,
    order: &[u8],
) -> Result<Option<(Command, bool)>, AllocError>
    ensures { IfOk result (λ o. IfSome o (λ found. IsOrderText version order.now found.1 found.0)) }
{
    if let Some(moves) = behind_move(order) {
        return Ok(match parse_move(alloc, version, moves)? {
            Some((orders, written)) => Some((Command::Move(orders), written)),
            None => None,
        });
    }
    Ok(match parse_short_order(order) {
        Some(short) => Some((short.command(), false)),
        None => None,
    })
}

/// Strips the text before a game's name.
#[inline(always)]
fn behind_game(line: &[u8]) -> Option<&[u8]>
    ensures { IfSome result (λ rest. line.now ≡ codes "{\"game\":\"" ++ rest.now) }
{
    match line.split_first_chunk::<9>() {
        Some((b"{\"game\":\"", rest)) => Some(rest),
        _ => None,
    }
}

/// Strips the text between a game's name and its command's name.
#[inline(always)]
fn behind_name(line: &[u8]) -> Option<&[u8]>
    ensures { IfSome result (λ rest. line.now ≡ codes "\",\"do\":\"" ++ rest.now) }
{
    match line.split_first_chunk::<8>() {
        Some((b"\",\"do\":\"", rest)) => Some(rest),
        _ => None,
    }
}

/// Parses the line up to its command's name. Returns the game's name, and the rest of the line.
#[tactic(auto, using(crate::proofs::CutTexts::plain_front))]
#[inline(always)]
pub(crate) fn split_game<'l>(line: &'l [u8]) -> Option<(&'l [u8], &'l [u8])>
    ensures text { IfSome result
        (λ found. line.now ≡ codes "{\"game\":\"" ++ (found.0.now ++ (codes "\",\"do\":\"" ++ found.1.now))) }
    ensures plain { IfSome result (λ found. are_plain found.0.now ≡ true) }
{
    let rest = behind_game(line)?;
    let (game, rest) = rest.split_at(plain_end(rest)?);
    Some((game, behind_name(rest)?))
}

/// Parses a line in its compact form, in a file of that version; `None` for any other line. The
/// name of its game is not copied.
#[tactic(auto, using(crate::proofs::CompactLines::line_of_compact))]
#[inline(always)]
pub(crate) fn compact_line<'l>(
    alloc: Global,
    version: Version,
    line: &'l [u8],
) -> Result<Option<Line<'l>>, AllocError>
    requires { length line.now ≤ MAX_LINE }
    ensures { IfOk result (λ found. IfSome found (λ l. l ≡ line_of version line.now)) }
{
    let Some((name, order)) = split_game(line) else {
        return Ok(None);
    };
    let Some((command, _written)) = parse_order(alloc, version, order)? else {
        return Ok(None);
    };
    let game = Name::lent(name);
    Ok(Some(Line::Command { game, command }))
}

/// Copies the name of a command's game out of the line. `None` if it is no text, which a name in a
/// line in its compact form is.
pub(crate) fn owned_line<'l>(alloc: Global, line: Line<'_>) -> Result<Option<Line<'l>>, AllocError>
    ensures { IfOk result (λ found. IfSome found (λ l. l ≡ line.entry)) }
{
    let Line::Command { game, command } = line else {
        return Ok(None);
    };
    let Some(name) = as_text(game.as_bytes()) else {
        return Ok(None);
    };
    let game = Name::own(alloc, Id::from_str(alloc, name)?)?;
    Ok(Some(Line::Command { game, command }))
}
