//! The record of one snake: each of its bytes changed, and bytes that are no snake's record; and
//! the record of a snake that moves one step.
ghost use Rattle.bs_board.specs.records.Writing.{IsByteCell};

use crate::compare::same_snake;
use bs_board::{
    Cause, Decode, Point, Snake, decode_snake, encode_snake_into, encode_stepped_into, snake_size,
    split_snake,
};
use bs_samples::{holds, same, snake};
use std::alloc::{AllocError, Global};
use std::test::Fail;

// Bytes 12 to 26 of the first record of the three by three solo game.
const S: [u8; 15] = [1, 115, 100, 0, 0, 0, 0, 0, 3, 2, 2, 2, 2, 2, 2];

/// Makes the snake of these bytes, with another head and health.
fn snake_at(alloc: Global, x: i16, y: i16, health: u8) -> Result<Snake, AllocError> {
    snake(alloc, "s", health, &[(x, y), (1, 1), (1, 1)])
}

/// Reads the bytes as that snake, and writes it as the same bytes again.
fn check_both_ways(alloc: Global, bytes: &[u8; 15], snake: &Snake) -> Result<(), Fail> {
    let read = decode_snake(alloc, bytes)?;
    same_snake("read", &read, snake)?;
    holds("15 bytes", snake_size(&read) == 15)?;
    let mut written = [0; 15];
    encode_snake_into(&read, &mut written);
    same("written again", written.as_slice(), bytes.as_slice())
}

#[test]
fn a_snake_both_ways(rt: HostRuntime) -> Result<(), Fail> {
    let alloc = rt.alloc();
    let first = snake_at(alloc, 1, 1, 100)?;
    same_snake("read", &decode_snake(alloc, &S)?, &first)?;
    check_both_ways(alloc, &S, &first)
}

/// A snake that has just moved may have no health left or its head off the board, with no cause
/// yet.
#[test]
fn a_snake_that_has_just_moved(rt: HostRuntime) -> Result<(), Fail> {
    let alloc = rt.alloc();
    let starved = [1, 115, 0, 0, 0, 0, 0, 0, 3, 2, 3, 2, 2, 2, 2];
    check_both_ways(alloc, &starved, &snake_at(alloc, 1, 2, 0)?)?;
    let below = [1, 115, 99, 0, 0, 0, 0, 0, 3, 2, 0, 2, 2, 2, 2];
    check_both_ways(alloc, &below, &snake_at(alloc, 1, -1, 99)?)?;
    let beside = [1, 115, 99, 0, 0, 0, 0, 0, 3, 26, 2, 2, 2, 2, 2];
    check_both_ways(alloc, &beside, &snake_at(alloc, 25, 1, 99)?)
}

/// The first and the last value that one byte of the snake may have while the others stay.
fn range(place: usize) -> (u8, u8) {
    match place {
        // the length of the id, and its only byte, which is a text by itself
        0 => (1, 1),
        1 => (0, 127),
        // health, cause, the killer's seat plus 1
        2 => (0, 100),
        3 => (0, 6),
        4 => (0, 8),
        // the turn of elimination, at most 10,000: 39 times 256, and 16
        5 => (0, 39),
        6 => (0, 255),
        // the length of the body
        7 => (0, 0),
        8 => (3, 3),
        // columns and rows
        _ => (0, 26),
    }
}

/// Whether the bytes are read. Checks that a snake that is read is written as those bytes again.
fn is_read(alloc: Global, bytes: &[u8; 15]) -> Result<bool, Fail> {
    match decode_snake(alloc, bytes) {
        Ok(read) => {
            holds("15 bytes", snake_size(&read) == 15)?;
            let mut written = [0; 15];
            encode_snake_into(&read, &mut written);
            same("written again", written.as_slice(), bytes.as_slice())?;
            Ok(true)
        }
        Err(Decode::NotARecord) => Ok(false),
        Err(Decode::Memory) => Err(Fail::from("memory")),
    }
}

#[test]
fn a_snake_with_one_byte_changed(rt: HostRuntime) -> Result<(), Fail> {
    let alloc = rt.alloc();
    for place in 0..15 {
        let (first, last) = range(place);
        for byte in 0..=255u8 {
            let mut bytes = S;
            bytes[place] = byte;
            let wanted = first <= byte && byte <= last;
            same(
                "read",
                (place, byte, is_read(alloc, &bytes)?),
                (place, byte, wanted),
            )?;
        }
    }
    Ok(())
}

/// Checks that the bytes are no snake's record.
fn check_no_snake(alloc: Global, bytes: &[u8]) -> Result<(), Fail> {
    match decode_snake(alloc, bytes) {
        Err(Decode::NotARecord) => Ok(()),
        Err(Decode::Memory) => Err(Fail::from("memory")),
        Ok(_) => Err(Fail::new(format_args!("a snake of {} bytes", bytes.len()))),
    }
}

#[test]
fn a_snake_cut_short_or_followed(rt: HostRuntime) -> Result<(), Fail> {
    let alloc = rt.alloc();
    for len in 0..15 {
        check_no_snake(alloc, &S[..len])?;
    }
    let mut longer = Vec::from_slice(alloc, &S)?;
    longer.push(0)?;
    check_no_snake(alloc, &longer)
}

/// The last turn of elimination that two bytes may hold, 10,000, and the turn after it.
#[test]
fn a_snake_that_is_out_last(rt: HostRuntime) -> Result<(), Fail> {
    let alloc = rt.alloc();
    let last = [1, 115, 0, 1, 0, 0x27, 0x10, 0, 3, 2, 2, 2, 2, 2, 2];
    let read = decode_snake(alloc, &last)?;
    same("cause", read.cause, Some(Cause::OutOfHealth))?;
    same("turn", read.out, Some(10_000))?;
    check_no_snake(
        alloc,
        &[1, 115, 0, 1, 0, 0x27, 0x11, 0, 3, 2, 2, 2, 2, 2, 2],
    )
}

// A living snake: health 100, seat 2 as its killer, turn 258, parts on (1, 1), (1, 0) and (0, 0).
const LIVING: [u8; 15] = [1, 115, 100, 0, 3, 1, 2, 0, 3, 2, 2, 2, 1, 1, 1];

/// Writes the record of the living snake one step further, with its head on that cell.
fn stepped(alloc: Global, bytes: &[u8; 15], head: Point) -> Result<[u8; 15], Fail>
    requires { IsByteCell 1 head }
{
    let before = decode_snake(alloc, bytes)?;
    holds("a living snake", before.is_living())?;
    let (parts, _) = split_snake(bytes);
    let mut after = [0; 15];
    encode_stepped_into(&parts, head, &mut after);
    Ok(after)
}

/// The cell of a part of the body.
fn part_of(bytes: &[u8; 15], index: usize) -> Result<Point, Fail> {
    let (snake, _) = split_snake(bytes);
    holds("a part", index < snake.body.len() / 2)?;
    Ok(snake.part(index))
}

/// Each part comes after the one before it, the last is lost, and health goes down to 0 at most.
#[test]
fn a_snake_that_moves_one_step(rt: HostRuntime) -> Result<(), Fail> {
    let alloc = rt.alloc();
    let up = stepped(alloc, &LIVING, Point { x: 1, y: 2 })?;
    let wanted = [1, 115, 99, 0, 3, 1, 2, 0, 3, 2, 3, 2, 2, 2, 1];
    same("up", up.as_slice(), wanted.as_slice())?;
    same("the head", part_of(&up, 0)?, Point { x: 1, y: 2 })?;
    same("the second", part_of(&up, 1)?, Point { x: 1, y: 1 })?;
    same("the last", part_of(&up, 2)?, Point { x: 1, y: 0 })?;
    let starved = [1, 115, 0, 0, 0, 0, 0, 0, 3, 1, 2, 2, 2, 3, 2];
    let beside = stepped(alloc, &starved, Point { x: -1, y: 1 })?;
    let wanted = [1, 115, 0, 0, 0, 0, 0, 0, 3, 0, 2, 1, 2, 2, 2];
    same("off the board", beside.as_slice(), wanted.as_slice())?;
    same("the head", part_of(&beside, 0)?, Point { x: -1, y: 1 })
}
