//! Drawn boards.
use crate::draws::Draws;
use bs_board::{Board, Cells, Hazards, Id, Mode, New, Point, Snake, Snakes, Starts, has_cell};
use std::alloc::{AllocError, Global};
use std::test::Fail;

/// The ids of the seats.
pub const IDS: [&str; 8] = ["a", "b", "c", "d", "e", "f", "g", "h"];

pub fn mode(draws: &mut Draws) -> Mode {
    match draws.next(4) {
        0 => Mode::Standard,
        1 => Mode::Solo,
        2 => Mode::Constrictor,
        _ => Mode::Wrapped,
    }
}

/// A cell of the board.
fn cell(draws: &mut Draws, width: u8, height: u8) -> Point {
    Point {
        x: draws.next(u64::from(width)) as i16,
        y: draws.next(u64::from(height)) as i16,
    }
}

/// Up to `count` distinct cells of the board.
fn distinct(
    alloc: Global,
    draws: &mut Draws,
    sides: (u8, u8),
    count: u64,
) -> Result<Cells, AllocError> {
    let mut cells = Cells::new(alloc);
    for _ in 0..count {
        let next = cell(draws, sides.0, sides.1);
        if !has_cell(cells.as_slice(), next) {
            cells.push(next)?;
        }
    }
    Ok(cells)
}

/// Up to `count` cells of the board, some of them several times.
fn any_cells(
    alloc: Global,
    draws: &mut Draws,
    sides: (u8, u8),
    count: u64,
) -> Result<Cells, AllocError> {
    let mut cells = Cells::new(alloc);
    for _ in 0..count {
        cells.push(cell(draws, sides.0, sides.1))?;
    }
    Ok(cells)
}

/// Hazards on a third of the boards.
fn hazards(
    alloc: Global,
    draws: &mut Draws,
    sides: (u8, u8),
) -> Result<Option<Hazards>, AllocError> {
    if !draws.once_in(3) {
        return Ok(None);
    }
    let damage = draws.from(0, 20);
    let count = draws.next(12);
    let cells = any_cells(alloc, draws, sides, count)?;
    Ok(Some(Hazards { damage, cells }))
}

/// The snakes of a setup, on distinct cells.
fn starts(
    alloc: Global,
    draws: &mut Draws,
    sides: (u8, u8),
    count: u64,
) -> Result<Starts, AllocError> {
    let cells = distinct(alloc, draws, sides, count)?;
    let mut starts = Vec::new(alloc);
    for (id, cell) in IDS.iter().zip(cells.as_slice()) {
        starts.push((Id::from_str(alloc, id)?, *cell))?;
    }
    Ok(Starts::from_vec(starts))
}

/// A drawn setup; small boards are as frequent as large ones.
pub fn setup(alloc: Global, draws: &mut Draws) -> Result<New, Fail> {
    let longest = if draws.once_in(2) { 9 } else { 23 };
    let sides = (draws.from(3, longest), draws.from(3, longest));
    let seats = draws.from(1, 8);
    let starts = starts(alloc, draws, sides, u64::from(seats))?;
    let foods = draws.next(6);
    let food = distinct(alloc, draws, sides, foods)?;
    let (mode, least, chance) = (mode(draws), draws.from(0, 4), draws.from(0, 101));
    let new = New::new(mode, sides.0, sides.1, starts, food, least, chance).ok_or("a setup")?;
    match hazards(alloc, draws, sides)? {
        None => Ok(new),
        Some(hazards) => Ok(new.with_hazards(hazards).ok_or("hazards")?),
    }
}

/// A living snake whose parts are anywhere on the board, some of them on one cell.
fn anywhere(
    alloc: Global,
    draws: &mut Draws,
    id: &str,
    sides: (u8, u8),
    most: u64,
) -> Result<Snake, AllocError> {
    let parts = 3u64.wrapping_add(draws.next(most));
    let mut body = any_cells(alloc, draws, sides, parts)?;
    if draws.once_in(2) {
        let last = body.as_slice().last().copied();
        body.push(last.unwrap_or(Point { x: 0, y: 0 }))?;
    }
    Ok(Snake {
        id: Id::from_str(alloc, id)?,
        body,
        health: draws.from(1, 100),
        cause: None,
        killer: None,
        out: None,
    })
}

/// A drawn board whose snakes lie anywhere, also over food.
pub fn laid(alloc: Global, draws: &mut Draws) -> Result<Board, Fail> {
    let sides = (draws.from(3, 23), draws.from(3, 23));
    let mode = mode(draws);
    let (seats, most) = (draws.from(1, 8), if draws.once_in(4) { 300 } else { 6 });
    let mut snakes = Vec::new(alloc);
    for id in IDS.iter().take(usize::from(seats)) {
        snakes.push(anywhere(alloc, draws, id, sides, most)?)?;
    }
    let foods = if matches!(mode, Mode::Constrictor) {
        0
    } else {
        draws.next(40)
    };
    Ok(Board {
        mode,
        width: sides.0,
        height: sides.1,
        turn: 400,
        min_food: draws.from(0, 30),
        chance: draws.from(0, 101),
        food: distinct(alloc, draws, sides, foods)?,
        hazards: hazards(alloc, draws, sides)?,
        snakes: Snakes::from_vec(snakes),
    })
}
