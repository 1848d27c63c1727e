//! Records of boards: written, read, with bytes changed, and read in part.
use crate::boards::wrapped;
use crate::compare::{same_board, same_snakes};
use bs_board::{
    Board, Cause, Decode, KeptBoard, Mode, Record, Snake, Snakes, decode, encode, encode_into,
    is_legal, size, skip_snakes, split_snake,
};
use bs_samples::{board, cells, holds, same, snake, solo_after};
use std::alloc::{AllocError, Global};
use std::test::Fail;

// The records of the three by three game before its first turn, and after the snake has hit the
// wall.
const FIRST: [u8; 26] = [
    1, 1, 3, 3, 0, 0, 0, 0, 1, 0, 0, 1, 0x73, 0x64, 0, 0, 0, 0, 0, 3, 2, 2, 2, 2, 2, 2,
];

const LAST: [u8; 26] = [
    1, 1, 3, 3, 0, 2, 0, 0, 1, 0, 0, 1, 0x73, 0x62, 2, 0, 0, 2, 0, 3, 2, 4, 2, 3, 2, 2,
];

/// Writes the record of a legal board.
fn record_of(alloc: Global, board: &Board) -> Result<Vec<u8>, Fail> {
    holds("a legal board", is_legal(board))?;
    Ok(encode(alloc, board)?)
}

fn kept_of(alloc: Global, board: &Board) -> Result<Record, Fail> {
    holds("a legal board", is_legal(board))?;
    Ok(Record::of(alloc, board)?)
}

/// Checks that these bytes are the record of the board.
fn check_record(alloc: Global, board: &Board, record: &[u8]) -> Result<(), Fail> {
    let written = record_of(alloc, board)?;
    same("the record", written.as_slice(), record)?;
    same_board("the board", &decode(alloc, record)?, board)
}

/// Compares the turn and the number of seats by the record of the board.
fn check_numbers(alloc: Global, board: &Board, numbers: (u16, usize)) -> Result<(), Fail> {
    let kept = kept_of(alloc, board)?;
    same("its turn and seats", (kept.turn(), kept.seats()), numbers)
}

/// Compares the record of the solo board after that many turns.
fn check_solo(alloc: Global, turn: u16, record: &[u8]) -> Result<(), Fail> {
    let board = solo_after(alloc, 3, turn)?;
    check_record(alloc, &board, record)?;
    check_numbers(alloc, &board, (turn, 1))
}

#[test]
fn records_both_ways(rt: HostRuntime) -> Result<(), Fail> {
    check_solo(rt.alloc(), 0, &FIRST)?;
    check_solo(rt.alloc(), 2, &LAST)
}

/// The two bytes of turn 10,000.
#[test]
#[tactic(auto, using(bs_board::proofs::records::Longest::legal_size_fits))]
fn a_record_of_the_last_turn(rt: HostRuntime) -> Result<(), Fail> {
    let mut board = solo_after(rt.alloc(), 3, 0)?;
    board.turn = 10_000;
    holds("a legal board", is_legal(&board))?;
    let mut record = [0; 26];
    holds("26 bytes", size(&board) == record.len())?;
    encode_into(&board, &mut record);
    same("the turn's bytes", (record[4], record[5]), (0x27, 0x10))
}

/// Checks that the bytes are no record.
fn check_no_record(alloc: Global, what: &str, bytes: &[u8]) -> Result<(), Fail> {
    match decode(alloc, bytes) {
        Err(Decode::NotARecord) => Ok(()),
        Err(Decode::Memory) => Err(Fail::from("memory")),
        Ok(_) => Err(Fail::new(format_args!("{what}: it is a record"))),
    }
}

/// Checks that the first record with another byte at that place is no record.
fn check_wrong(alloc: Global, what: &str, place: usize, byte: u8) -> Result<(), Fail> {
    let mut wrong = Vec::from_slice(alloc, &FIRST)?;
    *wrong.get_mut(place).ok_or("a place")? = byte;
    check_no_record(alloc, what, &wrong)
}

#[test]
fn bytes_that_are_no_record(rt: HostRuntime) -> Result<(), Fail> {
    let alloc = rt.alloc();
    let mut longer = Vec::from_slice(alloc, &FIRST)?;
    longer.push(0)?;
    check_no_record(alloc, "a byte more", &longer)?;
    check_no_record(alloc, "a byte less", &FIRST[..25])?;
    check_wrong(alloc, "the mode byte of version 2 in version 1", 1, 3)?;
    check_wrong(alloc, "a health of 101", 13, 101)
}

const WRAPPED_FRONT: [u8; 11] = [2, 3, 5, 5, 0, 0, 0, 0, 2, 0, 0];

/// Compares the sides over which the board wraps by its record.
fn check_wrap(alloc: Global, board: &Board, wrap: Option<(u8, u8)>) -> Result<(), Fail> {
    same("sides by the record", kept_of(alloc, board)?.wrap(), wrap)
}

/// Checks that the board of the record has that record.
fn check_again(alloc: Global, record: &[u8]) -> Result<(), Fail> {
    let again = record_of(alloc, &decode(alloc, record)?)?;
    same("the record again", again.as_slice(), record)
}

#[test]
fn record_of_a_wrapped_board(rt: HostRuntime) -> Result<(), Fail> {
    let alloc = rt.alloc();
    let board = wrapped(alloc)?;
    let record = record_of(alloc, &board)?;
    holds("its front", record.starts_with(&WRAPPED_FRONT))?;
    same("its sides", board.wrap(), Some((5, 5)))?;
    check_wrap(alloc, &board, Some((5, 5)))?;
    check_wrap(alloc, &solo_after(alloc, 3, 0)?, None)?;
    check_again(alloc, record.as_slice())
}

/// Four pairs of a version and a mode byte are read, in a record whose board is legal in each mode.
#[test]
fn versions_and_modes(rt: HostRuntime) -> Result<(), Fail> {
    let alloc = rt.alloc();
    for version in 0..=255u8 {
        for mode in 0..=255u8 {
            let mut bytes = FIRST;
            (bytes[0], bytes[1]) = (version, mode);
            let is_read = matches!((version, mode), (1, 0) | (1, 1) | (1, 2) | (2, 3));
            let read = decode(alloc, &bytes).is_ok();
            same("read", (version, mode, read), (version, mode, is_read))?;
        }
    }
    Ok(())
}

/// Checks the parts of the only snake, which has hit the wall.
fn check_last_snake(bytes: &[u8]) -> Result<(), Fail> {
    let (snake, rest) = split_snake(bytes);
    same("the id", snake.id, b"s".as_slice())?;
    let end = (snake.health, snake.cause, snake.killer, snake.out);
    let wanted = (98, Some(Cause::WallCollision), None, Some(2));
    same("its end", end, wanted)?;
    same("the cells", snake.body, &LAST[20..])?;
    holds("no second snake", rest.is_empty())?;
    same("the snake skipped", skip_snakes(1, bytes), rest)
}

/// The parts of the record of the three by three game whose snake has hit the wall.
#[test]
fn parts_of_a_record(rt: HostRuntime) -> Result<(), Fail> {
    let alloc = rt.alloc();
    let kept = kept_of(alloc, &solo_after(alloc, 3, 2)?)?;
    let parts = kept.parts();
    same("the sides", (parts.width, parts.height), (3, 3))?;
    same("the snakes", parts.snakes, &LAST[11..])?;
    holds("the game is over", parts.is_over())?;
    check_last_snake(parts.snakes)
}

#[test]
fn last_living_of_each_mode(_rt: HostRuntime) -> Result<(), Fail> {
    for (mode, last) in [
        (Mode::Standard, 1),
        (Mode::Solo, 0),
        (Mode::Constrictor, 1),
        (Mode::Wrapped, 1),
    ] {
        same("the last living", (mode, mode.last_living()), (mode, last))?;
    }
    Ok(())
}

/// Whether the bytes are read. Checks that a board that is read is written as those bytes again.
fn is_read(alloc: Global, bytes: &[u8]) -> Result<bool, Fail> {
    match decode(alloc, bytes) {
        Ok(board) => {
            same("written again", encode(alloc, &board)?.as_slice(), bytes)?;
            Ok(true)
        }
        Err(Decode::NotARecord) => Ok(false),
        Err(Decode::Memory) => Err(Fail::from("memory")),
    }
}

/// Whatever value one byte is set to, a board that is read is written as those bytes again; and no
/// proper prefix of a record is a record.
#[test]
fn records_with_one_byte_changed(rt: HostRuntime) -> Result<(), Fail> {
    let alloc = rt.alloc();
    let mut read = 0u32;
    for place in 0..26 {
        for byte in 0..=255u8 {
            let mut bytes = FIRST;
            bytes[place] = byte;
            if is_read(alloc, &bytes)? {
                read = read.wrapping_add(1);
            }
        }
        check_no_record(alloc, "a front", &FIRST[..place])?;
    }
    holds("more than the record itself is read", read > 26)
}

/// Makes a snake that the first one eliminated.
fn third(alloc: Global) -> Result<Snake, AllocError> {
    let parts = [(3, 2), (4, 2), (5, 2), (6, 2)];
    let mut third = snake(alloc, "one-with-a-long-name", 88, &parts)?;
    third.cause = Some(Cause::BodyCollision);
    third.killer = Some(0);
    third.out = Some(4);
    Ok(third)
}

fn seats(alloc: Global) -> Result<Vec<Snake>, AllocError> {
    let first = [(3, 3), (3, 2), (3, 1), (2, 1), (1, 1)];
    let mut seats = Vec::new(alloc);
    seats.push(snake(alloc, "a", 97, &first)?)?;
    seats.push(snake(alloc, "second", 100, &[(5, 5), (5, 4), (5, 4)])?)?;
    seats.push(third(alloc)?)?;
    seats.push(snake(alloc, "zz", 1, &[(0, 6), (0, 5), (0, 4)])?)?;
    Ok(seats)
}

/// Makes a board of seven by seven with three food and four snakes, of which the first eliminated
/// the third.
fn four_snakes(alloc: Global) -> Result<Board, AllocError> {
    let food = cells(alloc, &[(6, 6), (0, 0), (1, 4)])?;
    let board = board(alloc, Mode::Standard, 7, 4, seats(alloc)?);
    Ok(Board {
        min_food: 2,
        chance: 15,
        food,
        ..board
    })
}

/// Makes a record of the bytes of the board's record.
fn of_bytes(alloc: Global, board: &Board) -> Result<Record, Fail> {
    holds("a legal board", is_legal(board))?;
    let bytes = encode(alloc, board)?;
    let kept = Record::of_bytes(alloc, bytes.as_slice())?;
    same("the bytes", kept.as_slice(), bytes.as_slice())?;
    Ok(kept)
}

/// Checks what a record of turn 4 gives.
fn check_kept(alloc: Global, kept: &Record, board: &Board) -> Result<(), Fail> {
    same("turn and seats", (kept.turn(), kept.seats()), (4, 4))?;
    same_board("the board", &kept.board(alloc)?, board)
}

/// Checks the record of turn 4 by another handle.
fn check_shared(shared: &KeptBoard, record: &[u8]) -> Result<(), Fail> {
    let again = shared.share()?;
    same("the record of a handle", again.record(), record)?;
    same("its turn", again.shared().turn(), 4)
}

#[test]
fn a_kept_board_is_read(rt: HostRuntime) -> Result<(), Fail> {
    let alloc = rt.alloc();
    let board = four_snakes(alloc)?;
    let kept = of_bytes(alloc, &board)?;
    check_kept(alloc, &kept, &board)?;
    let shared = KeptBoard::of_record(kept.share()?);
    same_board("the shared one", &shared.board(alloc)?, &board)?;
    check_shared(&shared, kept.as_slice())
}

#[test]
fn a_kept_ground_is_read(rt: HostRuntime) -> Result<(), Fail> {
    let alloc = rt.alloc();
    let board = four_snakes(alloc)?;
    let ground = kept_of(alloc, &board)?.without_snakes(alloc)?;
    let snakes = Snakes::from_vec(Vec::new(alloc));
    same_board("the ground", &ground, &Board { snakes, ..board })
}

/// Ranges of seats: the first seat and the number of seats that a row asks for, then the first seat
/// that it gets and the seat after the last.
const ASKED: [(usize, usize, usize, usize); 7] = [
    (0, 2, 0, 2),
    (1, 2, 1, 3),
    (2, 1, 2, 3),
    (2, 0, 2, 2),
    (3, 2, 3, 4),
    (4, 2, 4, 4),
    (usize::MAX, usize::MAX, 4, 4),
];

/// Checks that the record gives these snakes for the seats that are asked for.
fn check_seats(
    alloc: Global,
    kept: &Record,
    from: usize,
    count: usize,
    wanted: &[Snake],
) -> Result<(), Fail> {
    let read = kept.snakes(alloc, from, count)?;
    same_snakes("seats", read.as_slice(), wanted)
}

/// Checks that the record gives the snakes at each range of seats.
fn check_asked(alloc: Global, kept: &Record, snakes: &[Snake]) -> Result<(), Fail> {
    for (from, count, first, end) in ASKED {
        let wanted = snakes.get(first..end).ok_or("seats")?;
        check_seats(alloc, kept, from, count, wanted)?;
    }
    Ok(())
}

#[test]
fn kept_snakes_are_read(rt: HostRuntime) -> Result<(), Fail> {
    let alloc = rt.alloc();
    let board = four_snakes(alloc)?;
    let kept = kept_of(alloc, &board)?;
    check_asked(alloc, &kept, board.snakes.as_slice())
}

fn check_over(alloc: Global, board: &Board, is_over: bool) -> Result<(), Fail> {
    same("over", kept_of(alloc, board)?.is_over(), is_over)
}

/// Checks whether the solo game is over after that many turns.
fn check_over_after(alloc: Global, turn: u16, is_over: bool) -> Result<(), Fail> {
    check_over(alloc, &solo_after(alloc, 3, turn)?, is_over)
}

/// Of four snakes three are alive; a snake that is alone is eliminated in turn 2.
#[test]
fn games_are_over_by_their_records(rt: HostRuntime) -> Result<(), Fail> {
    let alloc = rt.alloc();
    check_over(alloc, &four_snakes(alloc)?, false)?;
    for (turn, is_over) in [(0, false), (1, false), (2, true)] {
        check_over_after(alloc, turn, is_over)?;
    }
    Ok(())
}
