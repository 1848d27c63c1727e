//! Hazards: what they do in a turn, the hazards and the food that a move gives, and their records.

use crate::compare::same_board;
use crate::texts::{board, board_after, cells, hazards, order};
use bs_board::limits::LAST_TURN;
use bs_board::{Board, Decode, Hazards, Move, copy_hazards, decode, encode, is_legal};
use bs_rules::{hurt, turn};
use bs_samples::{holds, no_orders, same};
use std::alloc::Global;
use std::test::Fail;

/// The board of the second text, with the hazards of the first.
fn with_hazards(alloc: Global, listed: &str, text: &str) -> Result<Board, Fail> {
    let mut board = board(alloc, text)?;
    board.hazards = Some(hazards(alloc, listed)?);
    Ok(board)
}

/// Heads on a cell that is listed twice, on a hazard with food, and on one that takes all health.
const ON_HAZARDS: &str =
    "standard 5 10 0|4,4|A 50 2,2 1,2 0,2|B 28 2,2 3,2 4,2|C 9 4,4 4,3 4,2|D 9 0,0 0,1 0,2";

const HURT: &str =
    "10|4,4|A 22 2,2 1,2 0,2|B 0 2,2 3,2 4,2 Hazard in 11|C 9 4,4 4,3 4,2|D 0 0,0 0,1 0,2 Hazard in 11";

#[test]
fn hazards_hurt_by_the_entry(rt: HostRuntime) -> Result<(), Fail> {
    let alloc = rt.alloc();
    let mut next = with_hazards(alloc, "14 2,2 4,4 0,0 2,2", ON_HAZARDS)?;
    let wanted = board_after(alloc, &next, HURT)?;
    holds("a turn to come", next.turn < LAST_TURN)?;
    hurt(&mut next);
    same_board("after the hazards", &next, &wanted)
}

// Hazards, a board, the directions given, and the board after the turn.

/// A cell that is listed once, twice, and with food on it. No health is left: the snake is out at
/// once, and its body blocks no other. A snake that starves on a hazard, whose damage may be 0, and
/// next to one.
const HURTING: &str = r"14 2,3>standard 5 10 0||s 90 2,2 2,1 2,0>s=up>11||s 75 2,3 2,2 2,1
14 2,3 2,3>standard 5 10 0||s 90 2,2 2,1 2,0>s=up>11||s 61 2,3 2,2 2,1
14 2,3>standard 5 10 0|2,3|s 90 2,2 2,1 2,0>s=up>11||s 100 2,3 2,2 2,1 2,1
14 2,3>standard 5 10 0||A 15 2,2 2,1 2,0|B 90 1,2 0,2 0,1>A=up B=right>11||A 0 2,3 2,2 2,1 Hazard in 11|B 89 2,2 1,2 0,2
14 2,3>solo 5 10 0||s 1 2,2 2,1 2,0>s=up>11||s 0 2,3 2,2 2,1 Hazard in 11
0 2,3>solo 5 10 0||s 1 2,2 2,1 2,0>s=up>11||s 0 2,3 2,2 2,1 Hazard in 11
14 1,3>solo 5 10 0||s 1 2,2 2,1 2,0>s=up>11||s 0 2,3 2,2 2,1 OutOfHealth in 11
0 2,3>solo 5 10 0||s 90 2,2 2,1 2,0>s=up>11||s 89 2,3 2,2 2,1
100 2,3 2,3>solo 5 10 0||s 100 2,2 2,1 2,0>s=up>11||s 0 2,3 2,2 2,1 Hazard in 11";

/// Two heads on one hazard, equally long, of which one is out before the collisions; a head off the
/// board is on no hazard; a head is taken modulo a wrapped board; constrictor fills health up.
const MEETING: &str =
    r"14 2,2>standard 5 10 0||A 10 1,2 0,2 0,1|B 90 3,2 4,2 4,1>A=right B=left>11||A 0 2,2 1,2 0,2 Hazard in 11|B 75 2,2 3,2 4,2
14 2,2>standard 5 10 0||A 30 1,2 0,2 0,1|B 90 3,2 4,2 4,1>A=right B=left>11||A 15 2,2 1,2 0,2 HeadCollision by 1 in 11|B 75 2,2 3,2 4,2 HeadCollision by 0 in 11
14 2,4>solo 5 10 0||s 90 2,4 2,3 2,2>s=up>11||s 89 2,5 2,4 2,3 WallCollision in 11
14 2,0>wrapped 5 10 0||s 90 2,4 2,3 2,2>s=up>11||s 75 2,0 2,4 2,3
14 1,2>constrictor 7 0 0||s 100 1,1 1,1 1,1|t 100 5,1 5,1 5,1>s=up t=up>1||s 100 1,2 1,1 1,1|t 100 5,2 5,1 5,1";

/// Returns the board after one turn.
fn next_board(alloc: Global, before: &Board, order: &Move) -> Result<Board, Fail> {
    holds("a legal board", is_legal(before))?;
    holds("a turn to come", before.turn < LAST_TURN)?;
    Ok(turn(alloc, before, order)?)
}

/// Plays "HAZARDS>BEFORE>ORDERS>AFTER".
fn check_row(alloc: Global, row: &str) -> Result<(), Fail> {
    let (listed, rest) = row.split_once('>').ok_or("hazards")?;
    let (before, rest) = rest.split_once('>').ok_or("a board")?;
    let (ordered, after) = rest.split_once('>').ok_or("orders")?;
    let before = with_hazards(alloc, listed, before)?;
    let next = next_board(alloc, &before, &order(alloc, ordered)?)?;
    same_board(row, &next, &board_after(alloc, &before, after)?)
}

#[test]
fn hazards_in_whole_turns(rt: HostRuntime) -> Result<(), Fail> {
    for table in [HURTING, MEETING] {
        for row in table.split('\n') {
            check_row(rt.alloc(), row)?;
        }
    }
    Ok(())
}

/// The order of the second text, with the hazards of the first.
fn given(alloc: Global, listed: &str, ordered: &str) -> Result<Move, Fail> {
    let listed = cells(alloc, listed)?;
    Ok(order(alloc, ordered)?.with_map(Some(listed), None))
}

/// Compares the board with that board of the same game, which has these hazards.
fn check_after(alloc: Global, board: &Board, listed: &str, text: &str) -> Result<(), Fail> {
    let mut wanted = board_after(alloc, board, text)?;
    wanted.hazards = Some(hazards(alloc, listed)?);
    same_board(text, board, &wanted)
}

/// A hazard that comes with a move does not hurt the snake that moves onto it, and hurts in the
/// next turn the head that comes there, which then runs into a body.
#[test]
fn hazards_that_come_hurt_in_the_next_turn(rt: HostRuntime) -> Result<(), Fail> {
    let alloc = rt.alloc();
    let text = "standard 5 10 0||A 90 2,2 2,1 2,0|B 90 0,3 0,2 0,1";
    let before = with_hazards(alloc, "14 4,4", text)?;
    let come = given(alloc, "2,3", "A=up B=right")?;
    let next = next_board(alloc, &before, &come)?;
    check_after(
        alloc,
        &next,
        "14 2,3",
        "11||A 89 2,3 2,2 2,1|B 89 1,3 0,3 0,2",
    )?;
    let last = next_board(alloc, &next, &order(alloc, "A=up B=right")?)?;
    let hurt = "12||A 88 2,4 2,3 2,2|B 74 2,3 1,3 0,3 BodyCollision by 0 in 12";
    check_after(alloc, &last, "14 2,3", hurt)
}

/// Hazards off the board are dropped, an empty list clears them, and no turn gives some to a game
/// that has none.
#[test]
fn hazards_that_a_move_gives(rt: HostRuntime) -> Result<(), Fail> {
    let alloc = rt.alloc();
    let text = "solo 5 10 0||s 90 2,2 2,1 2,0";
    let before = with_hazards(alloc, "20 4,4", text)?;
    let drawn = next_board(alloc, &before, &given(alloc, "2,3 5,0 0,24 2,3", "s=up")?)?;
    check_after(alloc, &drawn, "20 2,3 2,3", "11||s 89 2,3 2,2 2,1")?;
    let cleared = next_board(alloc, &drawn, &given(alloc, "", "s=up")?)?;
    check_after(alloc, &cleared, "20 ", "12||s 88 2,4 2,3 2,2")?;
    let plain = next_board(alloc, &board(alloc, text)?, &given(alloc, "2,3", "s=up")?)?;
    holds("no hazards", plain.hazards.is_none())
}

/// Of the cells of food that a move gives, only the free one on the board becomes food, once. The
/// others are food, under a living body, off the board, and food by the move itself. Constrictor
/// has no food.
#[test]
fn food_that_a_move_gives(rt: HostRuntime) -> Result<(), Fail> {
    let alloc = rt.alloc();
    let before = with_hazards(alloc, "14 0,0", "solo 5 10 0|4,4|s 90 2,2 2,1 2,0")?;
    let food = cells(alloc, "4,4 2,2 5,5 2,0 2,0")?;
    let order = no_orders(alloc).with_map(None, Some(food));
    let next = next_board(alloc, &before, &order)?;
    check_after(alloc, &next, "14 0,0", "11|4,4 2,0|s 89 2,3 2,2 2,1")?;
    let constrictor = "constrictor 7 0 0||s 100 1,1 1,1 1,1|t 100 5,1 5,1 5,1";
    let grown = next_board(alloc, &with_hazards(alloc, "14 0,0", constrictor)?, &order)?;
    let wanted = "1||s 100 1,2 1,1 1,1|t 100 5,2 5,1 5,1";
    check_after(alloc, &grown, "14 0,0", wanted)
}

/// The record of a board of 7 by 5 with two hazards, a food and two snakes, of which one is out by
/// a hazard.
const RECORD: [u8; 50] = [
    3, 0, 7, 5, 0, 10, 2, 0, 2, 0, 1, 6, 4, 14, 0, 2, 0, 0, 6, 1, 1, 0x73, 90, 0, 0, 0, 0, 0, 3, 3,
    3, 3, 2, 3, 1, 1, 0x74, 0, 6, 0, 0, 9, 0, 3, 2, 2, 2, 3, 2, 4,
];

const RECORDED: &str = "standard 7x5 10 2|6,4|s 90 2,2 2,1 2,0|t 0 1,1 1,2 1,3 Hazard in 9";

/// Whether the record with another byte at that place is a record.
fn is_record_with(alloc: Global, place: usize, byte: u8) -> Result<bool, Fail> {
    let mut bytes = Vec::from_slice(alloc, &RECORD)?;
    *bytes.get_mut(place).ok_or("a place")? = byte;
    match decode(alloc, &bytes) {
        Ok(_) => Ok(true),
        Err(Decode::NotARecord) => Ok(false),
        Err(Decode::Memory) => Err(Fail::from("memory")),
    }
}

#[test]
fn record_of_a_board_with_hazards(rt: HostRuntime) -> Result<(), Fail> {
    let alloc = rt.alloc();
    let board = with_hazards(alloc, "14 0,0 6,1", RECORDED)?;
    holds("a legal board", is_legal(&board))?;
    same(
        "the record",
        encode(alloc, &board)?.as_slice(),
        RECORD.as_slice(),
    )?;
    same_board("the board", &decode(alloc, &RECORD)?, &board)
}

/// At both sides of their limits: versions, modes (a constrictor has no food), damages, a hazard
/// cell, the number of hazards, causes.
#[test]
fn bytes_of_a_record_with_hazards(rt: HostRuntime) -> Result<(), Fail> {
    let alloc = rt.alloc();
    for (place, byte, is_record) in [
        (0, 2, false),
        (0, 1, false),
        (1, 1, true),
        (1, 2, false),
        (1, 3, true),
        (1, 4, false),
        (13, 100, true),
        (13, 101, false),
        (16, 6, true),
        (16, 7, false),
        (15, 1, false),
        (15, 3, false),
        (38, 1, true),
        (38, 2, false),
        (38, 7, false),
    ] {
        let found = (place, byte, is_record_with(alloc, place, byte)?);
        same("a record", found, (place, byte, is_record))?;
    }
    Ok(())
}

/// The board with that many hazards on its first cell.
fn stacked(alloc: Global, count: usize) -> Result<Board, Fail> {
    let mut board = with_hazards(alloc, "14 ", "solo 5 10 0||s 90 2,2 2,1 2,0")?;
    let mut stack = hazards(alloc, "14 ")?;
    for _ in 0..count {
        stack.cells.push(bs_board::Point { x: 0, y: 0 })?;
    }
    board.hazards = Some(stack);
    Ok(board)
}

/// At most 2,500 hazards, which a copy has too.
#[test]
fn the_number_of_hazards(rt: HostRuntime) -> Result<(), Fail> {
    let alloc = rt.alloc();
    let most = stacked(alloc, 2_500)?;
    holds("2,500 are legal", is_legal(&most))?;
    holds("2,501 are not", !is_legal(&stacked(alloc, 2_501)?))?;
    let copy = copy_hazards(&most.hazards, alloc)?;
    let copied = copy.as_ref().map(|hazards: &Hazards| hazards.cells.len());
    same("copied", copied, Some(2_500))
}
