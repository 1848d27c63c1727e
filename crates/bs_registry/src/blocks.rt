//! The blocks that are reserved for a stay.
ghost use Rattle.std.specs.Prelude.{◌≡◌, ◌*◌, ◌≤◌, length};
ghost use Rattle.bs_registry.specs.Blocks.{blocks_of, blocks_of_all, record_blocks};

use bs_board::Row;
use bs_board::limits::MOST_ROWS;
use bs_heap::{MOST_RECORD_BYTES, blocks_for};

/// The frame blocks that are reserved for a stay: one for each part of a move.
pub const FRAME_BLOCKS: usize = 4;

/// The largest number of rows in a core: a tag has 32 bits, and a stay has two tags.
pub const MOST_STAYS: usize = 2_147_483_648;

/// The number of blocks of `cap` bytes that are reserved for the records of one stay.
pub fn record_blocks(cap: usize, row: &Row) -> usize
    requires { 2 * MOST_RECORD_BYTES ≤ cap }
    ensures value { result ≡ record_blocks cap row.now }
    ensures few { result ≤ 66 }
{
    blocks_for(cap, row.quota)
}

/// The number of blocks of `cap` bytes that are reserved for one stay.
pub fn blocks_of(cap: usize, row: &Row) -> usize
    requires { 2 * MOST_RECORD_BYTES ≤ cap }
    ensures value { result ≡ blocks_of cap row.now }
    ensures few { result ≤ 70 }
{
    record_blocks(cap, row) + FRAME_BLOCKS
}

/// The number of blocks of `cap` bytes that are reserved for all games of a plan.
pub fn blocks_of_all(cap: usize, rows: &[Row]) -> usize
    requires wide { 2 * MOST_RECORD_BYTES ≤ cap }
    requires few { length rows.now ≤ MOST_ROWS }
    ensures { result ≡ blocks_of_all cap rows.now }
{
    let mut total = 0;
    for row in rows {
        total += blocks_of(cap, row);
    }
    total
}
