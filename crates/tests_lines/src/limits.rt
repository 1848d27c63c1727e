//! The limits as numbers. Contracts cite their names.
use bs_block::{MOST_CAPACITY, UNIT};
use bs_board::limits::{
    FIRST_PARTS, FULL_HEALTH, LAST_TURN, LEAST_QUOTA, LONGEST_ID, LONGEST_RECORD, LONGEST_SIDE,
    MOST_CHANCE, MOST_MIN_FOOD, MOST_QUOTA, MOST_ROWS, MOST_SNAKES, MOST_WORDS, SHORTEST_SIDE,
};
use bs_heap::MOST_RECORD_BYTES;
use bs_host::{BLOCK_BYTES, MOST_FILE_BYTES};
use bs_json::{MAX_LINE, MOST_WORD, USUAL_CHANCE, USUAL_MIN_FOOD};
use bs_samples::same;
use bs_sched::{LEAST_CAPACITY, MOST_STAYS, MOST_WORKERS};
use std::test::Fail;

// The limits of boards and snakes.
fn are_of_boards() -> Result<(), Fail> {
    same("sides", (SHORTEST_SIDE, LONGEST_SIDE), (3, 25))?;
    same("snakes", MOST_SNAKES, 8)?;
    same(
        "first parts and health",
        (FIRST_PARTS, FULL_HEALTH),
        (3, 100),
    )?;
    same("turns", LAST_TURN, 10_000)?;
    same("food", (MOST_MIN_FOOD, MOST_CHANCE), (255, 100))?;
    same("usual food", (USUAL_MIN_FOOD, USUAL_CHANCE), (1, 15))?;
    same("words", (MOST_WORDS, MOST_WORD), (32, 4_294_967_295))
}

// The limits of files, plans and quotas.
fn are_of_files() -> Result<(), Fail> {
    same("games", MOST_ROWS, 64)?;
    same("names", LONGEST_ID, 64)?;
    same("quotas", (LEAST_QUOTA, MOST_QUOTA), (16, 16_777_216))?;
    same("bytes of a file", MOST_FILE_BYTES, 16_777_216)?;
    same("bytes of a line", MAX_LINE, 65_536)?;
    same("stays of a file", MOST_STAYS, 2_147_483_648)
}

// The limits of blocks and records.
fn are_of_memory() -> Result<(), Fail> {
    same("bytes of a block", BLOCK_BYTES, 2_097_152)?;
    same(
        "bytes of any block",
        (UNIT, MOST_CAPACITY),
        (16, 1_073_741_824),
    )?;
    same("bytes of a core's block", LEAST_CAPACITY, 524_288)?;
    same(
        "bytes of a record",
        (LONGEST_RECORD, MOST_RECORD_BYTES),
        (166_888, 262_144),
    )?;
    same("workers of a core", MOST_WORKERS, 4_294_967_295)
}

#[test]
fn limits_are_these_numbers(_rt: HostRuntime) -> Result<(), Fail> {
    are_of_boards()?;
    are_of_files()?;
    are_of_memory()
}
