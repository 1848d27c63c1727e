//! Heaps in one pool: within a quota, over two blocks, and freed.
ghost use Rattle.std.specs.Prelude.{◌≡◌, ◌≤◌, ◌<◌, IfOk, length};
ghost use Rattle.bs_pool.specs.Ledger.{reserved};
ghost use Rattle.bs_heap.specs.Charge.{blocks_for};
ghost use Rattle.bs_heap.specs.HeldBlocks.{IsKeptIn};

use bs_heap::{MOST_RECORD_BYTES, Quota, TagHeap, blocks_for};
use bs_pool::Pool;
use bs_samples::{holds, same};
use std::alloc::{AllocError, Global};
use std::test::Fail;

/// Makes a heap, for which the pool reserves what its quota can need.
#[tactic(auto, using(bs_heap::proofs::HeldBlocks::kept_empty))]
fn open_heap<const CAP: usize>(
    alloc: Global,
    pool: &mut Pool<CAP>,
    tag: u32,
    quota: u32,
) -> Result<TagHeap<CAP>, Fail>
    requires { MOST_RECORD_BYTES < CAP }
    ensures kept { IfOk result (λ heap. IsKeptIn heap pool.new) }
    ensures reserved { IfOk result (λ heap. blocks_for CAP heap.quota ≤ reserved heap.tag pool.new) }
{
    let blocks = blocks_for(CAP, quota);
    pool.reserve(tag, blocks)?;
    holds("blocks are reserved", pool.reserved(tag) == blocks)?;
    holds("none is held", pool.held(tag) == 0)?;
    Ok(TagHeap::new(alloc, tag, quota)?)
}

/// Grows the index, and adds the record, which is within the quota.
#[tactic(auto, using(bs_heap::proofs::Charges::small_enough, bs_heap::proofs::HeldBlocks::kept_with_room))]
fn add<const CAP: usize>(
    heap: &mut TagHeap<CAP>,
    pool: &mut Pool<CAP>,
    bytes: &[u8],
) -> Result<(), Fail>
    requires size { length bytes.now ≤ MOST_RECORD_BYTES }
    requires reserved { blocks_for CAP heap.old.quota ≤ reserved heap.old.tag pool.old }
    requires kept { IsKeptIn heap.old pool.old }
    ensures reserved { IfOk result (λ _. blocks_for CAP heap.new.quota ≤ reserved heap.new.tag pool.new) }
    ensures kept { IfOk result (λ _. IsKeptIn heap.new pool.new) }
{
    heap.grow_index()?;
    heap.add(pool, bytes)?;
    Ok(())
}

/// Checks that the quota has no room for the record.
#[tactic(auto, using(bs_heap::proofs::Charges::small_enough, bs_heap::proofs::HeldBlocks::kept_with_room))]
fn check_refused<const CAP: usize>(
    heap: &mut TagHeap<CAP>,
    pool: &mut Pool<CAP>,
    bytes: &[u8],
) -> Result<(), Fail>
    requires size { length bytes.now ≤ MOST_RECORD_BYTES }
    requires reserved { blocks_for CAP heap.old.quota ≤ reserved heap.old.tag pool.old }
    requires kept { IsKeptIn heap.old pool.old }
    ensures kept { IfOk result (λ _. IsKeptIn heap.new pool.new) }
{
    heap.grow_index()?;
    holds("it is refused", heap.add(pool, bytes) == Err(Quota))
}

/// Frees the heap of that tag and ends its reservation.
#[tactic(auto, using(bs_heap::proofs::Charges::has_reservation))]
fn close_heap<const CAP: usize>(
    heap: &mut TagHeap<CAP>,
    pool: &mut Pool<CAP>,
    tag: u32,
) -> Result<(), Fail>
    requires { IsKeptIn heap.old pool.old }
{
    heap.free(pool);
    holds("no block is held", pool.held(tag) == 0)?;
    holds("blocks are reserved", pool.reserved(tag) > 0)?;
    pool.unreserve(tag);
    Ok(())
}

/// Draws block 0, and checks that it is empty and that `split_fill` lends zeros.
fn draw_an_empty_block<const CAP: usize>(pool: &mut Pool<CAP>, tag: u32) -> Result<(), Fail> {
    let mut owned = pool.draw(tag).ok_or("a block is reserved")?;
    same("its number", owned.number(), 0)?;
    same("its bytes", owned.block().len(), 0)?;
    let (front, fresh) = owned
        .block_mut()
        .split_fill(16)
        .ok_or("the block is empty")?;
    same("no old bytes", front.len(), 0)?;
    same("zeros", &*fresh, [0; 16].as_slice())
}

/// Uses and closes a heap of tag 0.
fn use_first(alloc: Global, pool: &mut Pool<524_288>) -> Result<(), Fail> {
    let mut heap = open_heap(alloc, pool, 0, 64)?;
    add(&mut heap, pool, &[170; 32])?;
    same("blocks held", pool.held(0), 1)?;
    close_heap(&mut heap, pool, 0)?;
    same("records at its end", heap.count(), 0)
}

/// Uses a heap of tag 1, and gives its blocks back.
fn use_second(alloc: Global, pool: &mut Pool<524_288>) -> Result<(), Fail> {
    let mut heap = open_heap(alloc, pool, 1, 64)?;
    add(&mut heap, pool, &[1, 2, 3])?;
    check_one(&heap, pool, 1, &[1, 2, 3], 16)?;
    heap.free(pool);
    Ok(())
}

#[test]
fn pool_of_two_with_two_heaps(rt: HostRuntime) -> Result<(), Fail> {
    let mut pool = Pool::<524_288>::open(rt.alloc(), 2)?;
    use_first(rt.alloc(), &mut pool)?;
    same("free", pool.free(), 2)?;
    use_second(rt.alloc(), &mut pool)?;
    draw_an_empty_block(&mut pool, 1)
}

/// Checks that the heap has these two records.
fn check_two<const CAP: usize>(
    heap: &TagHeap<CAP>,
    first: &[u8],
    second: &[u8],
) -> Result<(), Fail> {
    holds("two records", heap.count() == 2)?;
    same("the first", heap.record(0), first)?;
    same("the second", heap.record(1), second)
}

/// Checks that the heap has this record alone, in one block, and that charge.
fn check_one<const CAP: usize>(
    heap: &TagHeap<CAP>,
    pool: &Pool<CAP>,
    tag: u32,
    record: &[u8],
    charge: u32,
) -> Result<(), Fail> {
    holds("one record", heap.count() == 1)?;
    same("its bytes", heap.record(0), record)?;
    same("its charge", heap.charge(), charge)?;
    same("blocks held", pool.held(tag), 1)
}

/// Drops all records but the last, and checks that this one is left.
fn keep_last<const CAP: usize>(
    heap: &mut TagHeap<CAP>,
    pool: &mut Pool<CAP>,
    tag: u32,
    record: &[u8],
    charge: u32,
) -> Result<(), Fail>
    requires { IsKeptIn heap.old pool.old }
{
    heap.keep_last(pool);
    check_one(heap, pool, tag, record, charge)
}

/// Adds two records and a third one to a heap of tag 7, and drops the first.
fn use_quota<const CAP: usize>(heap: &mut TagHeap<CAP>, pool: &mut Pool<CAP>) -> Result<(), Fail>
    requires reserved { blocks_for CAP heap.old.quota ≤ reserved heap.old.tag pool.old }
    requires kept { IsKeptIn heap.old pool.old }
{
    add(heap, pool, &[1; 26])?;
    check_one(heap, pool, 7, &[1; 26], 32)?;
    add(heap, pool, &[2; 32])?;
    same("charge of two", heap.charge(), 64)?;
    check_refused(heap, pool, &[3])?;
    check_two(heap, &[1; 26], &[2; 32])?;
    keep_last(heap, pool, 7, &[2; 32], 32)
}

#[test]
fn quota_of_two_records(rt: HostRuntime) -> Result<(), Fail> {
    let mut pool = Pool::<524_288>::open(rt.alloc(), 2)?;
    let mut heap = open_heap(rt.alloc(), &mut pool, 7, 64)?;
    same("room in the index", heap.index_room(), 0)?;
    use_quota(&mut heap, &mut pool)
}

/// A heap without a block has no room, a new block has it, and one that is half full has not.
#[test]
fn room_for_the_largest_record(rt: HostRuntime) -> Result<(), Fail> {
    let mut pool = Pool::<278_528>::open(rt.alloc(), 20)?;
    let mut heap = open_heap(rt.alloc(), &mut pool, 1, 300_000)?;
    same("room without a block", heap.has_room(), false)?;
    add(&mut heap, &mut pool, &[1; 26])?;
    same("room in a new block", heap.has_room(), true)?;
    let half = bytes(rt.alloc(), 5, 150_000)?;
    add(&mut heap, &mut pool, &half)?;
    same("room in a block that is half full", heap.has_room(), false)
}

/// Drops all records but the last of a heap of tag 1, and then this one too.
fn keep_last_and_free<const CAP: usize>(
    heap: &mut TagHeap<CAP>,
    pool: &mut Pool<CAP>,
    record: &[u8],
) -> Result<(), Fail>
    requires { IsKeptIn heap.old pool.old }
{
    heap.keep_last(pool);
    check_one(heap, pool, 1, record, 150_000)?;
    heap.free(pool);
    Ok(())
}

fn bytes(alloc: Global, byte: u8, n: usize) -> Result<Vec<u8>, AllocError>
    ensures { IfOk result (λ bytes. length bytes.items ≡ n) }
{
    let mut bytes = Vec::new(alloc);
    bytes.resize(n, byte)?;
    Ok(bytes)
}

/// A block has room for only one of the two records.
#[test]
fn keeps_the_last_of_two_blocks(rt: HostRuntime) -> Result<(), Fail> {
    let mut pool = Pool::<278_528>::open(rt.alloc(), 20)?;
    let mut heap = open_heap(rt.alloc(), &mut pool, 1, 300_000)?;
    let old = bytes(rt.alloc(), 5, 150_000)?;
    let new = bytes(rt.alloc(), 6, 150_000)?;
    add(&mut heap, &mut pool, &old)?;
    add(&mut heap, &mut pool, &new)?;
    same("blocks held by both", pool.held(1), 2)?;
    check_two(&heap, &old, &new)?;
    keep_last_and_free(&mut heap, &mut pool, &new)?;
    same("records at the end", heap.count(), 0)?;
    same("free at the end", pool.free(), 20)
}

/// Renames the blocks of a heap with one record, which is the same afterwards.
fn rename_heap<const CAP: usize>(heap: &mut TagHeap<CAP>, pool: &Pool<CAP>) -> Result<(), Fail>
    requires { IsKeptIn heap.old pool.now }
    ensures { IfOk result (λ _. heap.new.tag ≡ 7) }
{
    holds("two blocks", pool.size() == 2)?;
    heap.rename(7, &[1, 0]);
    holds("one record", heap.count() == 1)?;
    same("its bytes", heap.record(0), [1, 2, 3].as_slice())?;
    same("its charge", heap.charge(), 16)
}

#[test]
fn a_heap_gets_another_tag(rt: HostRuntime) -> Result<(), Fail> {
    let mut pool = Pool::<524_288>::open(rt.alloc(), 2)?;
    let mut heap = open_heap(rt.alloc(), &mut pool, 1, 64)?;
    add(&mut heap, &mut pool, &[1, 2, 3])?;
    rename_heap(&mut heap, &pool)
}
