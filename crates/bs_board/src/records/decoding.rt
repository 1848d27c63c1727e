//! Decodes the record of a board.

ghost use Rattle.std.specs.Prelude.{◌≡◌, true, false, IfOk, MatchOption, MatchResult};
ghost use Rattle.std.specs.Str.{is_utf8};
ghost use Rattle.bs_board.specs.declared.boards.board.Board.{Board as AnyBoard};
ghost use Rattle.bs_board.specs.declared.records.decode_error.Decode.TheVariants.{NotARecord, Memory};
ghost use Rattle.bs_board.specs.boards.Legal.{IsLegal};
ghost use Rattle.bs_board.specs.inner.Decoder.{Gives, kind_from_bytes, cause_from_byte, killer_from_byte, out_from_number, from_two_bytes, read_cell, read_many, read_piece, read_id, read_state, read_snake, read_head, read_hazards, read_board};
ghost use Rattle.bs_board.specs.records.Record.{record_of};

use crate::boards::board::{Board, Mode};
use crate::boards::cells::Cells;
use crate::boards::hazards::Hazards;
use crate::boards::legal::is_legal;
use crate::boards::point::Point;
use crate::boards::snake::{Cause, Snake};
use crate::boards::snakes::Snakes;
use crate::id::Id;
use crate::records::decode_error::Decode;
use std::alloc::Global;

/// Decodes a board from its record. `NotARecord` if the bytes are not the record of a legal board,
/// trailing bytes included; `Memory` only if memory runs out.
pub fn decode(alloc: Global, bytes: &[u8]) -> Result<Board, Decode>
    // The result is a legal board, and the bytes are its record.
    ensures found { IfOk result (λ b. IsLegal b × (bytes.now ≡ record_of b)) }
    // The record of a legal board is decoded unless memory runs out.
    ensures only { (b : AnyBoard) → IsLegal b → bytes.now ≡ record_of b
        → MatchResult result (λ read. read ≡ b) (λ error. error ≡ Memory) }
{
    let board = read_board(alloc, bytes)?;
    if_legal(board)
}

/// Returns the board if it is legal.
fn if_legal(board: Board) -> Result<Board, Decode>
    ensures { MatchResult result (λ b. IsLegal board × (b ≡ board)) (λ error. (error ≡ NotARecord) × (IsLegal board → ⊥)) }
{
    if is_legal(&board) {
        Ok(board)
    } else {
        Err(Decode::NotARecord)
    }
}

/// The fields before the cells of the food.
#[derive(Drop)]
pub(crate) struct Head {
    pub(crate) hazardous: bool,
    pub(crate) mode: Mode,
    pub(crate) width: u8,
    pub(crate) height: u8,
    pub(crate) turn: u16,
    pub(crate) min_food: u8,
    pub(crate) chance: u8,
    pub(crate) snakes: u8,
    pub(crate) food: u16,
}

/// The fields between the id and the parts of a snake.
#[derive(Drop)]
struct State {
    health: u8,
    cause: Option<Cause>,
    killer: Option<usize>,
    out: Option<u16>,
    parts: u16,
}

/// Whether there are hazards, and the mode, by the version and the mode's byte. No record has any
/// other pair.
fn kind_from_bytes(version: u8, byte: u8) -> Result<(bool, Mode), Decode>
    ensures { Gives (λ kind. kind) result (kind_from_bytes version byte) }
{
    match (version, byte) {
        (1, 0) => Ok((false, Mode::Standard)),
        (1, 1) => Ok((false, Mode::Solo)),
        (1, 2) => Ok((false, Mode::Constrictor)),
        (2, 3) => Ok((false, Mode::Wrapped)),
        (3, 0) => Ok((true, Mode::Standard)),
        (3, 1) => Ok((true, Mode::Solo)),
        (3, 2) => Ok((true, Mode::Constrictor)),
        (3, 3) => Ok((true, Mode::Wrapped)),
        _ => Err(Decode::NotARecord),
    }
}

#[inline(always)]
fn cause_from_byte(byte: u8) -> Result<Option<Cause>, Decode>
    ensures { Gives (λ cause. cause) result (cause_from_byte byte) }
{
    match byte {
        0 => Ok(None),
        1 => Ok(Some(Cause::OutOfHealth)),
        2 => Ok(Some(Cause::WallCollision)),
        3 => Ok(Some(Cause::SelfCollision)),
        4 => Ok(Some(Cause::BodyCollision)),
        5 => Ok(Some(Cause::HeadCollision)),
        6 => Ok(Some(Cause::Hazard)),
        _ => Err(Decode::NotARecord),
    }
}

#[inline(always)]
pub(crate) fn killer_from_byte(byte: u8) -> Option<usize>
    ensures { result ≡ killer_from_byte byte }
{
    usize::from(byte).checked_sub(1)
}

#[inline(always)]
pub(crate) fn out_from_number(number: u16) -> Option<u16>
    ensures { result ≡ out_from_number number }
{
    if number == 0 { None } else { Some(number) }
}

/// Reads a number of two bytes, the higher byte first.
#[inline(always)]
pub(crate) fn from_two_bytes(high: u8, low: u8) -> u16
    ensures { result ≡ from_two_bytes high low }
{
    u16::from_be_bytes([high, low])
}

#[tactic(auto, unfolding(crate::specs::inner::Decoder::read_cell))]
#[inline(always)]
fn read_cell(raised: u8, bytes: &[u8]) -> Result<(Point, &[u8]), Decode>
    ensures { Gives (λ x. (x.0, x.1.now)) result (read_cell raised bytes.now) }
{
    match bytes {
        [x, y, rest @ ..] => Ok((
            Point {
                x: i16::from(*x) - i16::from(raised),
                y: i16::from(*y) - i16::from(raised),
            },
            rest,
        )),
        _ => Err(Decode::NotARecord),
    }
}

#[tactic(auto, unfolding(crate::specs::inner::Decoder::read_state))]
#[inline(always)]
fn read_state(bytes: &[u8]) -> Result<(State, &[u8]), Decode>
    ensures { Gives (λ x. (x.0, x.1.now)) result (read_state bytes.now) }
{
    match bytes {
        [
            health,
            cause,
            killer,
            out_high,
            out_low,
            parts_high,
            parts_low,
            rest @ ..,
        ] => {
            let state = State {
                health: *health,
                cause: cause_from_byte(*cause)?,
                killer: killer_from_byte(*killer),
                out: out_from_number(from_two_bytes(*out_high, *out_low)),
                parts: from_two_bytes(*parts_high, *parts_low),
            };
            Ok((state, rest))
        }
        _ => Err(Decode::NotARecord),
    }
}

/// Reads `count` cells, each coordinate stored with `raised` added.
#[inline(always)]
pub(crate) fn read_cells(
    alloc: Global,
    count: u16,
    raised: u8,
    bytes: &[u8],
) -> Result<(Cells, &[u8]), Decode>
    ensures { Gives (λ x. (x.0, x.1.now)) result (read_many (read_cell raised) count bytes.now) }
{
    let mut cells = Vec::with_capacity(alloc, usize::from(count))?;
    let mut rest = bytes;
    for _ in 0..count {
        let (cell, after) = read_cell(raised, rest)?;
        cells.push_reserved(cell);
        rest = after;
    }
    Ok((Cells::from_vec(cells), rest))
}

/// Reads a length, then that many bytes.
#[tactic(auto, unfolding(crate::specs::inner::Decoder::read_piece))]
#[inline(always)]
pub(crate) fn read_piece(bytes: &[u8]) -> Result<(&[u8], &[u8]), Decode>
    ensures { Gives (λ x. (x.0.now, x.1.now)) result (read_piece bytes.now) }
{
    match bytes {
        [] => Err(Decode::NotARecord),
        [len, rest @ ..] => {
            let len = usize::from(*len);
            if rest.len() < len {
                return Err(Decode::NotARecord);
            }
            Ok(rest.split_at(len))
        }
    }
}

#[tactic(auto, using(crate::proofs::Utf8::is_text, crate::proofs::Utf8::is_no_text))]
#[inline(always)]
fn utf8_text(bytes: &[u8]) -> Option<&str>
    ensures { MatchOption result (is_utf8 bytes.now ≡ false) (λ text. (text.now ≡ bytes.now) × (is_utf8 bytes.now ≡ true)) }
{
    str::from_utf8(bytes).ok()
}

#[tactic(auto, unfolding(crate::specs::inner::Decoder::read_id))]
#[inline(always)]
fn read_id(alloc: Global, bytes: &[u8]) -> Result<(Id, &[u8]), Decode>
    ensures { Gives (λ x. (x.0, x.1.now)) result (read_id is_utf8 bytes.now) }
{
    let (piece, rest) = read_piece(bytes)?;
    match utf8_text(piece) {
        Some(text) => Ok((Id::from_str(alloc, text)?, rest)),
        None => Err(Decode::NotARecord),
    }
}

#[tactic(auto, unfolding(crate::specs::inner::Decoder::read_snake))]
#[inline(always)]
pub(crate) fn read_snake(alloc: Global, bytes: &[u8]) -> Result<(Snake, &[u8]), Decode>
    ensures { Gives (λ x. (x.0, x.1.now)) result (read_snake is_utf8 bytes.now) }
{
    let (id, rest) = read_id(alloc, bytes)?;
    let (state, rest) = read_state(rest)?;
    let (body, rest) = read_cells(alloc, state.parts, 1, rest)?;
    let snake = Snake {
        id,
        body,
        health: state.health,
        cause: state.cause,
        killer: state.killer,
        out: state.out,
    };
    Ok((snake, rest))
}

#[inline(always)]
pub(crate) fn read_snakes(
    alloc: Global,
    count: usize,
    bytes: &[u8],
) -> Result<(Snakes, &[u8]), Decode>
    ensures { Gives (λ x. (x.0, x.1.now)) result (read_many (read_snake is_utf8) count bytes.now) }
{
    let mut snakes = Vec::with_capacity(alloc, count)?;
    let mut rest = bytes;
    for _ in 0..count {
        let (snake, after) = read_snake(alloc, rest)?;
        snakes.push_reserved(snake);
        rest = after;
    }
    Ok((Snakes::from_vec(snakes), rest))
}

#[tactic(auto, unfolding(crate::specs::inner::Decoder::read_head))]
#[inline(always)]
pub(crate) fn read_head(bytes: &[u8]) -> Result<(Head, &[u8]), Decode>
    ensures { Gives (λ x. (x.0, x.1.now)) result (read_head bytes.now) }
{
    match bytes {
        [
            version,
            mode,
            width,
            height,
            turn_high,
            turn_low,
            min_food,
            chance,
            snakes,
            food_high,
            food_low,
            rest @ ..,
        ] => {
            let (hazardous, mode) = kind_from_bytes(*version, *mode)?;
            let head = Head {
                hazardous,
                mode,
                width: *width,
                height: *height,
                turn: from_two_bytes(*turn_high, *turn_low),
                min_food: *min_food,
                chance: *chance,
                snakes: *snakes,
                food: from_two_bytes(*food_high, *food_low),
            };
            Ok((head, rest))
        }
        _ => Err(Decode::NotARecord),
    }
}

/// Reads the damage, the number of the cells and the cells; nothing where there are no hazards.
#[tactic(auto, unfolding(crate::specs::inner::Decoder::read_hazards))]
pub(crate) fn read_hazards(
    alloc: Global,
    hazardous: bool,
    bytes: &[u8],
) -> Result<(Option<Hazards>, &[u8]), Decode>
    ensures { Gives (λ x. (x.0, x.1.now)) result (read_hazards hazardous bytes.now) }
{
    if !hazardous {
        return Ok((None, bytes));
    }
    match bytes {
        [damage, high, low, rest @ ..] => {
            let (cells, rest) = read_cells(alloc, from_two_bytes(*high, *low), 0, rest)?;
            let hazards = Hazards {
                damage: *damage,
                cells,
            };
            Ok((Some(hazards), rest))
        }
        _ => Err(Decode::NotARecord),
    }
}

/// Reads a board, legal or not, that takes all of the bytes.
#[tactic(auto, unfolding(crate::specs::inner::Decoder::read_board))]
pub(crate) fn read_board(alloc: Global, bytes: &[u8]) -> Result<Board, Decode>
    ensures { Gives (λ b. b) result (read_board is_utf8 bytes.now) }
{
    let (head, rest) = read_head(bytes)?;
    let (food, rest) = read_cells(alloc, head.food, 0, rest)?;
    let (hazards, rest) = read_hazards(alloc, head.hazardous, rest)?;
    let (snakes, rest) = read_snakes(alloc, usize::from(head.snakes), rest)?;
    if !rest.is_empty() {
        return Err(Decode::NotARecord);
    }
    Ok(Board {
        mode: head.mode,
        width: head.width,
        height: head.height,
        turn: head.turn,
        min_food: head.min_food,
        chance: head.chance,
        food,
        hazards,
        snakes,
    })
}
