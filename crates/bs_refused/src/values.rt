//! The boards, commands and plans of the scenes.
use crate::fault::Fault;
use bs_board::limits::{MOST_ROWS, MOST_WORDS};
use bs_board::plans::plan::have_distinct_names;
use bs_board::{
    Board, Cells, Direction, Hazards, Id, KeptBoard, Mode, Move, Moves, New, Plan, Point, Reply,
    Row, Rows, Starts, Version, Word, Words, decode, is_legal,
};
use std::alloc::Global;

/// The record of turn 0 on a board of three by three.
pub const RECORD: [u8; 26] = [
    1, 1, 3, 3, 0, 0, 0, 0, 1, 0, 0, 1, 115, 100, 0, 0, 0, 0, 0, 3, 2, 2, 2, 2, 2, 2,
];

/// A standard board of turn 10 with two snakes and a food between their heads.
pub const TWO_HEADS: [u8; 43] = [
    1, 0, 5, 5, 0, 10, 0, 0, 2, 0, 1, 2, 2, 1, 65, 90, 0, 0, 0, 0, 0, 3, 2, 3, 1, 3, 1, 2, 1, 66,
    90, 0, 0, 0, 0, 0, 3, 4, 3, 5, 3, 5, 2,
];

/// The same board with three hazards of damage 14: one where the first snake goes, and its own cell
/// twice.
pub const ON_HAZARDS: [u8; 52] = [
    3, 0, 5, 5, 0, 10, 0, 0, 2, 0, 1, 2, 2, 14, 0, 3, 1, 3, 1, 2, 1, 2, 1, 65, 90, 0, 0, 0, 0, 0,
    3, 2, 3, 1, 3, 1, 2, 1, 66, 90, 0, 0, 0, 0, 0, 3, 4, 3, 5, 3, 5, 2,
];

/// A name too long to be stored in its `Id`.
pub const LONG_NAME: &str = "a name that is longer than the bytes that an Id holds in itself";

pub fn bytes_of(alloc: Global, bytes: &[u8]) -> Result<Vec<u8>, Fault> {
    let mut copy = Vec::new(alloc);
    copy.extend_from_slice(bytes)?;
    Ok(copy)
}

/// Makes a board of one snake.
pub fn solo(alloc: Global) -> Result<Board, Fault> {
    Ok(decode(alloc, &RECORD)?)
}

/// Makes a board of two snakes whose heads are at one food.
pub fn two_heads(alloc: Global) -> Result<Board, Fault> {
    Ok(decode(alloc, &TWO_HEADS)?)
}

/// Makes the board of two snakes with hazards.
pub fn on_hazards(alloc: Global) -> Result<Board, Fault> {
    Ok(decode(alloc, &ON_HAZARDS)?)
}

/// Makes the record of the board of two snakes.
pub fn kept_of(alloc: Global) -> Result<KeptBoard, Fault> {
    let board = two_heads(alloc)?;
    if !is_legal(&board) {
        return Err(Fault::NotLegal);
    }
    Ok(KeptBoard::of(alloc, &board)?)
}

/// Makes a reply that shows that board.
pub fn shown_reply(alloc: Global) -> Result<Reply, Fault> {
    Ok(Reply::Shown(Word::Move, kept_of(alloc)?, 96))
}

/// Makes a setup of one snake below the only food.
pub fn new_solo(alloc: Global, mode: Mode) -> Result<New, Fault> {
    let starts = vec![in alloc; (Id::from_str(alloc, "s")?, Point { x: 1, y: 1 })]?;
    let mut food = Cells::new(alloc);
    food.push(Point { x: 1, y: 2 })?;
    New::new(mode, 5, 5, Starts::from_vec(starts), food, 2, 0).ok_or(Fault::NoSetup)
}

/// Makes a list of one cell.
fn cell(alloc: Global, x: i16, y: i16) -> Result<Cells, Fault> {
    let mut cells = Cells::new(alloc);
    cells.push(Point { x, y })?;
    Ok(cells)
}

/// Makes that setup with a hazard.
pub fn hazardous_solo(alloc: Global) -> Result<New, Fault> {
    let hazards = Hazards {
        damage: 14,
        cells: cell(alloc, 4, 4)?,
    };
    let setup = new_solo(alloc, Mode::Solo)?;
    setup.with_hazards(hazards).ok_or(Fault::NoSetup)
}

/// Makes a move with these directions, in the order of their names, and these words.
pub fn move_of(moves: Moves, words: Vec<u32>) -> Result<Move, Fault> {
    if !moves.is_ascending() || words.len() > MOST_WORDS {
        return Err(Fault::NoSetup);
    }
    Ok(Move::new(moves, Words::from_vec(words)))
}

/// Makes a move of three directions and two words. The third direction, which is of no snake of the
/// boards here, is one too long to be stored in the value of the list.
pub fn three_orders(alloc: Global) -> Result<Move, Fault> {
    let mut moves = Moves::new(alloc);
    moves.push(Id::from_str(alloc, "A")?.as_bytes(), Direction::Up)?;
    moves.push(Id::from_str(alloc, "B")?.as_bytes(), Direction::Left)?;
    let long = Id::from_str(alloc, LONG_NAME)?;
    moves.push(long.as_bytes(), Direction::Down)?;
    move_of(moves, vec![in alloc; 5, 7]?)
}

/// Makes that move, which gives a hazard and a food too.
pub fn map_orders(alloc: Global) -> Result<Move, Fault> {
    let (hazards, food) = (cell(alloc, 0, 0)?, cell(alloc, 0, 4)?);
    Ok(three_orders(alloc)?.with_map(Some(hazards), Some(food)))
}

pub fn row_of(alloc: Global, name: &str) -> Result<Row, Fault> {
    Row::new(Id::from_str(alloc, name)?, 4096).ok_or(Fault::NoPlan)
}

/// Makes a plan of these games.
pub fn plan_of(alloc: Global, names: &[&str]) -> Result<Plan, Fault> {
    let mut rows = Vec::with_capacity(alloc, names.len())?;
    for &name in names {
        rows.push(row_of(alloc, name)?)?;
    }
    if !have_distinct_names(rows.as_slice()) || rows.len() > MOST_ROWS {
        return Err(Fault::NoPlan);
    }
    Ok(Plan {
        rows: Rows::from_vec(rows),
        version: Version::One,
    })
}
