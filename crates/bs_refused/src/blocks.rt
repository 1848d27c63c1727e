//! Blocks, a pool and the heap of a tag.
use crate::fault::Fault;
use crate::page::Page;
use crate::scene::{Act, Question, look, tried};
use bs_block::Block;
use bs_heap::TagHeap;
use bs_pool::Pool;
use std::alloc::Global;

const CAP: usize = 524_288;

/// `Block::new`: its length and its room.
pub struct NewBlock;

impl Question for NewBlock {
    type On = ();

    type Answer = (usize, usize);

    fn call(alloc: Global, _on: &()) -> Result<(usize, usize), Fault> {
        let block = Block::<64>::new(alloc)?;
        Ok((block.len(), block.room()))
    }
}

/// What the readers of a pool return: for the whole, for the first tag and for another.
#[derive(Debug, Drop)]
pub struct PoolSeen {
    size: usize,
    free: usize,
    unreserved: usize,
    reserved: [usize; 2],
    held: [usize; 2],
}

pub fn seen_pool(pool: &Pool<64>, tag: u32) -> PoolSeen {
    PoolSeen {
        size: pool.size(),
        free: pool.free(),
        unreserved: pool.unreserved(),
        reserved: [pool.reserved(0), pool.reserved(tag)],
        held: [pool.held(0), pool.held(tag)],
    }
}

/// `Pool::open`, with a number of blocks.
pub struct OpenPool;

impl Question for OpenPool {
    type On = usize;

    type Answer = PoolSeen;

    fn call(alloc: Global, on: &usize) -> Result<PoolSeen, Fault> {
        let pool = Pool::<64>::open(alloc, *on)?;
        Ok(seen_pool(&pool, 0))
    }
}

/// A pool, and the tag that is shown and makes the next reservation.
#[derive(Drop)]
struct PoolAt {
    pool: Pool<64>,
    tag: u32,
}

/// `Pool::reserve`.
struct ReserveOne;

impl Act for ReserveOne {
    type State = PoolAt;

    type Seen = PoolSeen;

    type Answer = ();

    fn readers(_alloc: Global, state: &PoolAt) -> Result<PoolSeen, Fault> {
        Ok(seen_pool(&state.pool, state.tag))
    }

    fn call(&self, _alloc: Global, state: &mut PoolAt) -> Result<(), Fault> {
        Ok(state.pool.reserve(state.tag, 1)?)
    }
}

/// Reserves and draws one block.
fn reserve_at(page: &mut Page, state: &mut PoolAt, tag: u32) -> Result<(), Fault> {
    state.tag = tag;
    tried(page, &ReserveOne, state)?;
    drop(state.pool.draw(tag));
    look::<ReserveOne>(page, "answer", state)
}

/// Makes reservations until their list grows.
fn reserve_all(page: &mut Page, state: &mut PoolAt) -> Result<(), Fault> {
    for tag in 0..10u32 {
        reserve_at(page, state, tag)?;
    }
    Ok(())
}

pub fn play_reserve(page: &mut Page) -> Result<(), Fault> {
    let pool = Pool::<64>::open(page.alloc(), 12)?;
    reserve_all(page, &mut PoolAt { pool, tag: 0 })
}

/// What the readers of a heap return: its records, its charge and the room of its index.
fn seen_heap(heap: &TagHeap<CAP>) -> (usize, u32, usize) {
    (heap.count(), heap.charge(), heap.index_room())
}

/// `TagHeap::new`, with that quota.
pub struct NewHeap;

impl Question for NewHeap {
    type On = u32;

    type Answer = (usize, u32, usize);

    fn call(alloc: Global, on: &u32) -> Result<(usize, u32, usize), Fault> {
        let heap = TagHeap::<CAP>::new(alloc, 7, *on)?;
        Ok(seen_heap(&heap))
    }
}

/// `TagHeap::grow_index`.
struct GrowIndex;

impl Act for GrowIndex {
    type State = TagHeap<CAP>;

    type Seen = (usize, u32, usize);

    type Answer = ();

    fn readers(_alloc: Global, state: &TagHeap<CAP>) -> Result<(usize, u32, usize), Fault> {
        Ok(seen_heap(state))
    }

    fn call(&self, _alloc: Global, state: &mut TagHeap<CAP>) -> Result<(), Fault> {
        Ok(state.grow_index()?)
    }
}

fn grow_in(page: &mut Page, heap: &mut TagHeap<CAP>) -> Result<(), Fault> {
    tried(page, &GrowIndex, heap)?;
    look::<GrowIndex>(page, "answer", heap)
}

pub fn play_grow_index(page: &mut Page) -> Result<(), Fault> {
    let mut heap = TagHeap::<CAP>::new(page.alloc(), 7, 4096)?;
    grow_in(page, &mut heap)
}
