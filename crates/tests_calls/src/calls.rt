//! A game of three by three cells, by the calls on records and by value.

use bs_batch::Cell;
use bs_board::limits::LAST_TURN;
use bs_board::{Board, Mode, New};
use bs_calls::{
    Fault, SeatOrders, SeatSetup, is_legal, is_over, setup_by_seat, start, turn, turn_by_seat,
    turn_in_place,
};
use bs_samples::{holds, same};
use std::alloc::Global;
use std::test::Fail;

const CENTRE: Cell = Cell { x: 1, y: 1 };

/// The record of the solo game before its first turn.
const FIRST: [u8; 26] = [
    1, 1, 3, 3, 0, 0, 0, 0, 1, 0, 0, 1, 0x30, 0x64, 0, 0, 0, 0, 0, 3, 2, 2, 2, 2, 2, 2,
];

/// That after a step up, and that after two, which leave the board.
const SECOND: [u8; 26] = [
    1, 1, 3, 3, 0, 1, 0, 0, 1, 0, 0, 1, 0x30, 0x63, 0, 0, 0, 0, 0, 3, 2, 3, 2, 2, 2, 2,
];

const LAST: [u8; 26] = [
    1, 1, 3, 3, 0, 2, 0, 0, 1, 0, 0, 1, 0x30, 0x62, 2, 0, 0, 2, 0, 3, 2, 4, 2, 3, 2, 2,
];

fn solo<'a>(starts: &'a [Cell]) -> SeatSetup<'a> {
    SeatSetup {
        starts,
        food: &[],
        hazards: &[],
        mode: 1,
        width: 3,
        height: 3,
        min_food: 0,
        chance: 0,
        has_hazards: 0,
        damage: 0,
    }
}

fn up() -> SeatOrders<'static> {
    SeatOrders {
        moves: &[0],
        words: &[],
        hazards: &[],
        food: &[],
        has_hazards: 0,
        has_food: 0,
    }
}

fn same_over(alloc: Global, bytes: &[u8], over: bool) -> Result<(), Fail> {
    holds("a legal record", is_legal(alloc, bytes).is_ok())?;
    same("whether it is over", is_over(alloc, bytes), Ok(over))
}

/// Compares the first 26 bytes with a record.
fn same_record(what: &str, bytes: &[u8], record: &[u8]) -> Result<(), Fail> {
    match bytes.get(..26) {
        Some(front) => same(what, front, record),
        None => Err(Fail::new(format_args!("{what}: there are too few bytes"))),
    }
}

/// A slot of 40 bytes with the record in front.
fn slot_of(record: &[u8; 26]) -> [u8; 40] {
    let mut slot = [7u8; 40];
    for index in 0..26usize {
        slot[index] = record[index];
    }
    slot
}

/// Plays the turn from one record to another.
fn check_turn(alloc: Global, from: &[u8; 26], to: &[u8; 26]) -> Result<(), Fail> {
    let mut into = [7u8; 40];
    let written = turn(alloc, from.as_slice(), &up(), &mut into);
    same("the length", written, Ok(26))?;
    same_record("the record", into.as_slice(), to.as_slice())
}

/// Plays it in the place of the record.
fn check_turn_in_place(alloc: Global, from: &[u8; 26], to: &[u8; 26]) -> Result<(), Fail> {
    let mut slot = slot_of(from);
    let written = turn_in_place(alloc, &mut slot, 26, &up());
    same("the length in its place", written, Ok(26))?;
    same_record("the record in its place", slot.as_slice(), to.as_slice())
}

fn check_start(alloc: Global) -> Result<(), Fail> {
    let mut into = [7u8; 40];
    let written = start(alloc, &solo(&[CENTRE]), &mut into);
    same("the length", written, Ok(26))?;
    same_record("the first record", into.as_slice(), FIRST.as_slice())
}

#[test]
fn a_game_of_records(rt: HostRuntime) -> Result<(), Fail> {
    check_start(rt.alloc())?;
    same_over(rt.alloc(), &FIRST, false)?;
    check_turn(rt.alloc(), &FIRST, &SECOND)?;
    check_turn_in_place(rt.alloc(), &FIRST, &SECOND)?;
    check_turn(rt.alloc(), &SECOND, &LAST)?;
    same_over(rt.alloc(), &LAST, true)
}

#[test]
fn what_is_refused(rt: HostRuntime) -> Result<(), Fail> {
    let mut into = [7u8; 25];
    let setup = solo(&[CENTRE, CENTRE]);
    same(
        "one cell twice",
        start(rt.alloc(), &setup, &mut into),
        Err(Fault::NotASetup),
    )?;
    same(
        "no room",
        start(rt.alloc(), &solo(&[CENTRE]), &mut into),
        Err(Fault::Room),
    )?;
    same(
        "no room",
        turn(rt.alloc(), &FIRST, &up(), &mut into),
        Err(Fault::Room),
    )?;
    let cut = turn_in_place(rt.alloc(), &mut into, 25, &up());
    same("no record", cut, Err(Fault::NotARecord))?;
    same("unchanged", into.as_slice(), [7u8; 25].as_slice())
}

/// The board before the first turn, if the setup is the game's.
fn first_board(alloc: Global, setup: Option<New>) -> Result<Board, Fail> {
    match setup {
        Some(new) => {
            same("the mode", new.mode, Mode::Solo)?;
            Ok(bs_modes::start(alloc, &new)?)
        }
        None => Err(Fail::new(format_args!("no setup"))),
    }
}

#[test]
fn a_turn_by_value(rt: HostRuntime) -> Result<(), Fail> {
    let setup = setup_by_seat(rt.alloc(), &solo(&[CENTRE]))?;
    let board = first_board(rt.alloc(), setup)?;
    holds("a legal board", bs_board::is_legal(&board))?;
    holds("a turn that is not the last", board.turn < LAST_TURN)?;
    let next = turn_by_seat(rt.alloc(), board, &up())?;
    let record = bs_board::encode(rt.alloc(), &next)?;
    same("the record", record.as_slice(), SECOND.as_slice())
}
