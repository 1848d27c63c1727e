//! The blocks that are reserved for the stays of a core.
ghost use Rattle.std.specs.Prelude.{◌≡◌, ◌+◌, ◌*◌, ◌<◌, ◌≤◌, None, [], All, length, IfOk, OnOk, OnErr};
ghost use Rattle.bs_heap.specs.Charge.{blocks_for};
ghost use Rattle.bs_pool.specs.Ledger.{size, held, reserved, reservation_of, unreserved, with_reservation};
ghost use Rattle.bs_pool.specs.Reservations.{all_reserved};
ghost use Rattle.bs_sched.specs.Games.{pool_left};
ghost use Rattle.bs_registry.specs.Blocks.{blocks_of, blocks_of_all};
ghost use Rattle.bs_sched.specs.PlanBlocks.{reservations_of, reservations_from, with_row};
ghost use Rattle.bs_sched.specs.Storage.{record_tag, frame_tag};

use bs_board::Row;
use bs_board::limits::MOST_ROWS;
use bs_heap::MOST_RECORD_BYTES;
use bs_pool::{Pool, Reserve};
use bs_registry::{FRAME_BLOCKS, MOST_STAYS, record_blocks};
use std::alloc::AllocError;

/// The tag of a stay's records.
pub(crate) fn record_tag(game: usize) -> u32
    requires { game < MOST_STAYS }
    ensures { result ≡ record_tag game }
{
    2 * game as u32
}

fn set_aside<const CAP: usize>(
    pool: &mut Pool<CAP>,
    tag: u32,
    blocks: usize,
) -> Result<(), AllocError>
    requires some { 1 ≤ blocks }
    requires fresh { reservation_of tag pool.old ≡ None }
    requires room { blocks ≤ unreserved pool.old }
    ensures ok { OnOk result (pool.new ≡ with_reservation tag blocks pool.old) }
    ensures err { OnErr result (pool.new ≡ pool.old) }
{
    match pool.reserve(tag, blocks) {
        Ok(()) => Ok(()),
        Err(Reserve::Memory) => Err(AllocError),
        Err(Reserve::TagTaken) => unreachable!(),
        Err(Reserve::Short { .. }) => unreachable!(),
    }
}

/// Reserves the blocks of a stay for both its tags. After an error the pool is unchanged.
#[tactic(auto, using(crate::proofs::PlanBlocks::none_from, crate::proofs::PlanBlocks::none_beside))]
pub(crate) fn reserve_row<const CAP: usize>(
    pool: &mut Pool<CAP>,
    game: usize,
    row: &Row,
) -> Result<(), AllocError>
    requires wide { 2 * MOST_RECORD_BYTES ≤ CAP }
    requires game { game < MOST_STAYS }
    requires fresh { All (λ r. r.tag < record_tag game) pool.old.reservations }
    requires room { all_reserved pool.old.reservations + blocks_of CAP row.now ≤ size pool.old }
    ensures ok { OnOk result (pool.new ≡ with_row CAP game row.now pool.old) }
    ensures err { OnErr result (pool.new ≡ pool.old) }
{
    let tag = record_tag(game);
    let _blocks = pool.size();
    set_aside(pool, tag, record_blocks(CAP, row))?;
    match set_aside(pool, tag + 1, FRAME_BLOCKS) {
        Ok(()) => Ok(()),
        Err(error) => {
            pool.unreserve(tag);
            Err(error)
        }
    }
}

/// Ends the reservations of a stay that owns no block.
pub(crate) fn release_row<const CAP: usize>(pool: &mut Pool<CAP>, game: usize)
    requires game { game < MOST_STAYS }
    requires records { 0 < reserved (record_tag game) pool.old }
    requires frames { 0 < reserved (frame_tag game) pool.old }
    requires no_records { held (record_tag game) pool.old ≡ 0 }
    requires no_frames { held (frame_tag game) pool.old ≡ 0 }
    ensures { pool.new ≡ pool_left game pool.old }
{
    let tag = record_tag(game);
    pool.unreserve(tag);
    pool.unreserve(tag + 1);
}

/// Makes the reservations of each game.
pub(crate) fn reserve_rows<const CAP: usize>(
    pool: &mut Pool<CAP>,
    rows: &[Row],
) -> Result<(), AllocError>
    requires wide { 2 * MOST_RECORD_BYTES ≤ CAP }
    requires few { length rows.now ≤ MOST_ROWS }
    requires none { pool.old.reservations ≡ [] }
    requires room { blocks_of_all CAP rows.now ≤ size pool.old }
    ensures owners { OnOk result (pool.new.owners ≡ pool.old.owners) }
    ensures reservations { OnOk result (pool.new.reservations ≡ reservations_of CAP rows.now) }
{
    for game in 0..rows.len() {
        reserve_row(pool, game, &rows[game])?;
    }
    Ok(())
}
