//! Records written out by hand from docs/FORMATS.md: sides, minimum and chance differ, and snakes
//! are out by each cause of a collision, or by a hazard.
use crate::compare::same_board;
use crate::texts::board;
use bs_board::{Board, Decode, Hazards, Point, decode, encode, is_legal};
use bs_samples::{cells, holds, same};
use std::alloc::Global;
use std::test::Fail;

/// The front of the record of a board of 7 by 5 cells at turn 258, with minimum 2 and chance 15.
const FRONT: [u8; 15] = [1, 0, 7, 5, 1, 2, 2, 15, 4, 0, 2, 5, 4, 0, 3];

/// It has hit itself.
const P: [u8; 15] = [1, 0x70, 50, 3, 1, 0, 255, 0, 3, 4, 3, 4, 4, 5, 4];

/// It lives, and has killed the other two.
const Q: [u8; 17] = [1, 0x71, 90, 0, 0, 0, 0, 0, 4, 7, 5, 7, 4, 7, 3, 7, 3];

/// It has hit a body.
const R: [u8; 15] = [1, 0x72, 1, 4, 2, 0, 200, 0, 3, 1, 1, 2, 1, 3, 1];

/// It has hit a head.
const S: [u8; 15] = [1, 0x73, 100, 5, 2, 0, 255, 0, 3, 1, 5, 1, 4, 1, 3];

/// The place of its killer in the record.
const KILLER_OF_S: usize = 66;

const BOARD: &str = "standard 7x5 0 2|5,4 0,3|p 50 3,2 3,3 4,3 SelfCollision by 0 in 255\
    |q 90 6,4 6,3 6,2 6,2|r 1 0,0 1,0 2,0 BodyCollision by 1 in 200\
    |s 100 0,4 0,3 0,2 HeadCollision by 1 in 255";

/// A solo board of 4 by 3 cells at turn 9 with two hazards of damage 14, whose snake is out by one.
const ON_A_HAZARD: [u8; 35] = [
    3, 1, 4, 3, 0, 9, 1, 2, 1, 0, 1, 3, 2, 14, 0, 2, 0, 0, 3, 1, 1, 0x73, 0, 6, 0, 0, 9, 0, 3, 2,
    2, 2, 3, 3, 3,
];

fn record(alloc: Global) -> Result<Vec<u8>, Fail> {
    let mut record = Vec::from_slice(alloc, &FRONT)?;
    record.extend_from_slice(&P)?;
    record.extend_from_slice(&Q)?;
    record.extend_from_slice(&R)?;
    record.extend_from_slice(&S)?;
    Ok(record)
}

/// Checks that these bytes are the record of the board.
fn check(alloc: Global, wanted: &Board, record: &[u8]) -> Result<Board, Fail> {
    holds("a legal board", is_legal(wanted))?;
    same("the record", encode(alloc, wanted)?.as_slice(), record)?;
    let read = decode(alloc, record)?;
    same_board("the board", &read, wanted)?;
    Ok(read)
}

#[test]
fn each_cause_of_a_collision(rt: HostRuntime) -> Result<(), Fail> {
    let alloc = rt.alloc();
    let mut wanted = board(alloc, BOARD)?;
    (wanted.turn, wanted.chance) = (258, 15);
    check(alloc, &wanted, &record(alloc)?)?;
    Ok(())
}

/// Seats from 1 as the killer of a head collision: its own and those beyond the last are refused.
#[test]
fn a_snake_kills_no_head_of_its_own(rt: HostRuntime) -> Result<(), Fail> {
    let alloc = rt.alloc();
    for (killer, is_record) in [
        (0, false),
        (1, true),
        (2, true),
        (3, true),
        (4, false),
        (5, false),
    ] {
        let mut bytes = record(alloc)?;
        *bytes.get_mut(KILLER_OF_S).ok_or("a place")? = killer;
        let is_read = match decode(alloc, &bytes) {
            Ok(_) => true,
            Err(Decode::NotARecord) => false,
            Err(Decode::Memory) => return Err(Fail::from("memory")),
        };
        same("killer", (killer, is_read), (killer, is_record))?;
    }
    Ok(())
}

#[test]
fn a_record_with_hazards(rt: HostRuntime) -> Result<(), Fail> {
    let alloc = rt.alloc();
    let mut wanted = board(alloc, "solo 4x3 9 1|3,2|s 0 1,1 1,2 2,2 Hazard in 9")?;
    wanted.chance = 2;
    wanted.hazards = Some(Hazards {
        damage: 14,
        cells: cells(alloc, &[(0, 0), (3, 1)])?,
    });
    let read = check(alloc, &wanted, &ON_A_HAZARD)?;
    let hazards = read.hazards.as_ref().ok_or("hazards")?;
    same("the damage", hazards.damage, 14)?;
    let places = [Point { x: 0, y: 0 }, Point { x: 3, y: 1 }];
    same("the hazards", hazards.cells.as_slice(), places.as_slice())
}
