//! Free cells, and food from words.
use bs_board::{Board, Cause, Cells};
use bs_food::{free_cells, spawn};
use bs_samples::{Parts, cells, holds, same, solo};
use std::alloc::{AllocError, Global};
use std::test::Fail;

/// Makes a three by three board on which one snake has just moved up from the middle.
fn board(alloc: Global, min_food: u8, chance: u8) -> Result<Board, AllocError> {
    let mut board = solo(alloc, 3, 1, 99, &[(1, 2), (1, 1), (1, 1)])?;
    board.min_food = min_food;
    board.chance = chance;
    Ok(board)
}

const FREE: [(i16, i16); 7] = [(0, 0), (1, 0), (2, 0), (0, 1), (2, 1), (0, 2), (2, 2)];

#[test]
fn seven_cells_are_free(rt: HostRuntime) -> Result<(), Fail> {
    let alloc = rt.alloc();
    let free = free_cells(alloc, &board(alloc, 0, 0)?)?;
    same(
        "free cells",
        free.as_slice(),
        cells(alloc, &FREE)?.as_slice(),
    )
}

/// A minimum, a chance, words, and the food that results.
type Case<'a> = (u8, u8, &'a [u32], Parts<'a>);

/// Of m free cells a word w selects number w mod m; the chance is compared with w mod 100. 65,536
/// mod 7 is 2, and 4,294,967,295 mod 7 is 3.
const CASES: [Case; 11] = [
    (1, 0, &[5], &[(0, 2)]),
    (1, 0, &[], &[]),
    (2, 0, &[5, 5], &[(0, 2), (2, 2)]),
    (0, 15, &[115, 8], &[]),
    (0, 15, &[114, 8], &[(1, 0)]),
    (0, 15, &[114], &[]),
    (0, 0, &[100, 8], &[]),
    (1, 0, &[65_536], &[(2, 0)]),
    (1, 0, &[4_294_967_295], &[(0, 1)]),
    (0, 15, &[65_600, 65_537], &[(0, 1)]),
    (0, 15, &[65_550, 0], &[]),
];

/// Returns the food that spawns by these words.
fn food_of(alloc: Global, min_food: u8, chance: u8, words: &[u32]) -> Result<Cells, AllocError> {
    let mut board = board(alloc, min_food, chance)?;
    spawn(alloc, &mut board, words)?;
    Ok(board.food)
}

#[test]
fn words_decide_the_food(rt: HostRuntime) -> Result<(), Fail> {
    let alloc = rt.alloc();
    for (min_food, chance, words, expected) in CASES {
        let food = food_of(alloc, min_food, chance, words)?;
        let expected = cells(alloc, expected)?;
        same(
            "food",
            (words, food.as_slice()),
            (words, expected.as_slice()),
        )?;
    }
    Ok(())
}

/// Puts the only snake out.
fn eliminate(board: &mut Board) -> Result<(), Fail> {
    holds("one snake", board.snakes.len() == 1)?;
    let snake = board.snakes.seat_mut(0);
    snake.out = Some(1);
    snake.cause = Some(Cause::OutOfHealth);
    Ok(())
}

/// Spawns food by these words, and compares the number of food.
fn check_spawned(
    alloc: Global,
    board: &mut Board,
    words: &[u32],
    count: usize,
) -> Result<(), Fail> {
    spawn(alloc, board, words)?;
    same("food", board.food.len(), count)
}

/// A snake that is out leaves its cells free, and a full board takes no more food.
#[test]
fn the_dead_leave_their_cells(rt: HostRuntime) -> Result<(), Fail> {
    let alloc = rt.alloc();
    let mut board = board(alloc, 9, 0)?;
    eliminate(&mut board)?;
    same("free cells", free_cells(alloc, &board)?.len(), 9)?;
    check_spawned(alloc, &mut board, &[0, 0, 0, 0, 0, 0, 0, 0, 0, 0], 9)?;
    board.min_food = 10;
    check_spawned(alloc, &mut board, &[3], 9)
}
