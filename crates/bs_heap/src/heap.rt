//! A heap: the records of one tag, within a quota.
ghost use Rattle.std.specs.Prelude.{◌≡◌, ◌≢◌, ◌<◌, ◌≤◌, false, Some, length, slice_index_or, [], All, AllPairs, IfOk, OnOk, OnErr};
ghost use Rattle.bs_block.specs.Rounding.{rounded};
ghost use Rattle.bs_pool.specs.Ledger.{held, reserved, least_free};
ghost use Rattle.bs_heap.specs.AddAnswer.{AddsRecord};
ghost use Rattle.bs_heap.specs.Charge.{charge_of, blocks_for};
ghost use Rattle.bs_heap.specs.Fullness.{AreFull};
ghost use Rattle.bs_heap.specs.Heap.{empty_heap, with_index_room, with_last, without_records};
ghost use Rattle.bs_heap.specs.HeldBlocks.{IsKeptIn, LeavesOthers, all_given, next_number};
ghost use Rattle.bs_heap.specs.PackedPlaces.{AreApart};
ghost use Rattle.bs_heap.specs.Packing.{numbers_of, closed_numbers, fits};
ghost use Rattle.bs_heap.specs.Renaming.{renamed_heap};

use crate::blocks::{Entry, TagBlocks};
use bs_block::round_up;
use bs_pool::Pool;
use std::alloc::{AllocError, Global};
use std::marker::Model;
use thiserror::Error;

/// The largest rounded size of a record.
pub const MOST_RECORD_BYTES: usize = 262_144;

/// The most blocks of `cap` bytes that records of one tag can need within the quota. A block is
/// closed when the next record does not fit, so it has more than `cap - MOST_RECORD_BYTES` bytes in
/// use. Two blocks are added: the oldest, which may hold bytes of dropped records, and the newest,
/// which may have room left.
pub fn blocks_for(cap: usize, quota: u32) -> usize
    requires { MOST_RECORD_BYTES < cap }
    ensures { result ≡ blocks_for cap quota }
{
    quota as usize / (cap - MOST_RECORD_BYTES) + 2
}

/// Adding the record would raise the charge above the quota.
#[derive(Clone, Copy, Debug, PartialEq, Eq, Error)]
#[error("quota exceeded")]
pub struct Quota;

/// The records of one tag. Each is charged its size rounded up to a multiple of 16; the sum never
/// exceeds the quota.
#[derive(Drop)]
pub struct TagHeap<const CAP: usize> {
    blocks: TagBlocks<CAP>,
    index: Vec<Entry>,
    charge: u32,
    quota: u32,
}

impl<const CAP: usize> Model for TagHeap<CAP> {
    ghost use Rattle.bs_heap.specs.Heap.{Heap};

    ghost Value = { Heap };

    ghost use Rattle.bs_heap.specs.inner.HeapLayout.{heap_in, IsHeap};

    ghost view = { λ h. heap_in h };

    ghost invariant = { λ h. IsHeap CAP h };
}

impl<const CAP: usize> TagHeap<CAP> {
    /// Makes an empty heap with room in its block list for as many blocks as the quota allows.
    pub fn new(alloc: Global, tag: u32, quota: u32) -> Result<Self, AllocError>
        requires { MOST_RECORD_BYTES < CAP }
        ensures { IfOk result (λ heap. heap ≡ empty_heap tag quota) }
    {
        let room = blocks_for(CAP, quota);
        Ok(TagHeap {
            blocks: TagBlocks::new(alloc, tag, room)?,
            index: Vec::new(alloc),
            charge: 0,
            quota,
        })
    }

    /// The number of records. No two of them share a byte.
    pub fn count(&self) -> usize
        ensures value { result ≡ length self.now.records }
        ensures apart { AreApart self.now.packing }
    {
        self.index.len()
    }

    /// The sum of the rounded sizes of the records, which also bounds the number of blocks.
    pub fn charge(&self) -> u32
        ensures value { result ≡ charge_of self.now.records }
        ensures within { result ≤ self.now.quota }
        ensures full { AreFull CAP result self.now.packing }
    {
        self.charge
    }

    /// The bytes of record `i`; record 0 is the oldest.
    pub fn record(&self, i: usize) -> &[u8]
        requires { i < length self.now.records }
        ensures { result.now ≡ slice_index_or self.now.records i [] }
    {
        let entry = self.index[i];
        self.blocks.get(entry.position, entry.at, entry.len)
    }

    /// The number of records that can be added before the index has to grow.
    pub fn index_room(&self) -> usize
        ensures { result ≡ self.now.index_room }
    {
        self.index.capacity() - self.index.len()
    }

    /// Makes room in the index for one more record. The only error is the allocator's; the heap is
    /// then unchanged.
    pub fn grow_index(&mut self) -> Result<(), AllocError>
        ensures heap { self.new ≡ with_index_room self.new.index_room self.old }
        ensures more { self.old.index_room ≤ self.new.index_room }
        ensures ok { OnOk result (1 ≤ self.new.index_room) }
        ensures err { OnErr result (self.new ≡ self.old) }
    {
        self.index.reserve(1)
    }

    /// Whether the current block has room for the largest record, so that no record needs another.
    pub fn has_room(&self) -> bool
        ensures { result ≡ fits CAP (rounded MOST_RECORD_BYTES) self.now.packing.current }
    {
        self.blocks.fits(MOST_RECORD_BYTES)
    }

    /// Appends a record. `Quota` if its rounded size and the charge together exceed the quota.
    pub fn add(&mut self, pool: &mut Pool<CAP>, bytes: &[u8]) -> Result<(), Quota>
        requires index { 0 < self.old.index_room }
        requires size { rounded (length bytes.now) ≤ MOST_RECORD_BYTES }
        requires reserved { blocks_for CAP self.old.quota ≤ reserved self.old.tag pool.old }
        requires kept { IsKeptIn self.old pool.old }
        ensures added { AddsRecord CAP bytes.now self.old pool.old result self.new pool.new }
        ensures free { OnOk result (fits CAP (rounded (length bytes.now)) self.old.packing.current ≡ false → least_free pool.old ≡ Some (next_number pool.old)) }
        ensures kept { IsKeptIn self.new pool.new }
        ensures held { held self.new.tag pool.new ≤ blocks_for CAP self.new.quota }
        ensures others { LeavesOthers self.old.tag pool.old pool.new }
    {
        let size = round_up(bytes.len());
        let left = (self.quota - self.charge) as usize;
        if size > left {
            return Err(Quota);
        }
        let entry = self.blocks.put(pool, bytes);
        self.index.push_reserved(entry);
        self.charge += size as u32;
        Ok(())
    }

    /// Drops all records but the last and gives the closed blocks back. The last record stays where
    /// it is.
    pub fn keep_last(&mut self, pool: &mut Pool<CAP>)
        requires { IsKeptIn self.old pool.old }
        ensures heap { self.new ≡ with_last self.old }
        ensures pool { pool.new ≡ all_given (closed_numbers self.old.packing) pool.old }
        ensures none { self.old.records ≡ [] → (self.new ≡ self.old) × (pool.new ≡ pool.old) }
        ensures kept { IsKeptIn self.new pool.new }
        ensures others { LeavesOthers self.old.tag pool.old pool.new }
    {
        self.blocks.give_closed(pool);
        if let Some(last) = self.index.pop() {
            self.index.clear();
            self.index.push_reserved(Entry {
                position: 0,
                ..last
            });
            self.charge = round_up(last.len) as u32;
        }
    }

    /// Drops all records and gives all blocks back.
    pub fn free(&mut self, pool: &mut Pool<CAP>)
        requires { IsKeptIn self.old pool.old }
        ensures heap { self.new ≡ without_records self.old }
        ensures pool { pool.new ≡ all_given (numbers_of self.old.packing) pool.old }
        ensures kept { IsKeptIn self.new pool.new }
        ensures others { LeavesOthers self.old.tag pool.old pool.new }
    {
        self.blocks.give_all(pool);
        self.index.clear();
        self.charge = 0;
    }

    /// Gives the heap the tag, and each of its blocks the number that stands in the list at its old
    /// one. No byte moves.
    pub fn rename(&mut self, tag: u32, numbers: &[usize])
        requires within { All (λ number. number < length numbers.now) (numbers_of self.old.packing) }
        requires once { AllPairs (λ m n. m ≢ n) numbers.now }
        ensures { self.new ≡ renamed_heap tag (λ number. slice_index_or numbers.now number 0) self.old }
    {
        self.blocks.rename(tag, numbers);
    }
}
