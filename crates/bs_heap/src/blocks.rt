//! The blocks of one tag: the closed ones, and the current one, to which records are appended.
ghost use Rattle.std.specs.Prelude.{◌≡◌, ◌+◌, ◌^◌, ◌<◌, ◌≤◌, ◌++◌, true, false, if◌then◌else◌, Some, [], length, map, All, option_map, unwrap_or, IfOk, IfSome, vec_capacity};
ghost use Rattle.bs_block.specs.Bytes.{HasRoom, padded, range};
ghost use Rattle.bs_block.specs.Rounding.{rounded};
ghost use Rattle.bs_pool.specs.Ledger.{held, reserved, least_free, drawn};
ghost use Rattle.bs_heap.specs.HeldBlocks.{AreOwned, all_given, next_number};
ghost use Rattle.bs_heap.specs.inner.Lent.{AreLent, owned_numbers};
ghost use Rattle.bs_heap.specs.inner.Renaming.{number_at, renamed_owned};

use bs_block::{Block, round_up};
use bs_pool::{Owned, Pool};
use std::alloc::{AllocError, Global};
use std::marker::Model;

/// Where a record lies: the position of its block among its tag's, its first byte in it, and its
/// length.
#[derive(Clone, Copy, Debug, PartialEq, Eq)]
pub struct Entry {
    pub(crate) position: usize,
    pub(crate) at: usize,
    pub(crate) len: usize,
}

/// The blocks of a tag in the order in which they were drawn.
#[derive(Drop)]
pub struct TagBlocks<const CAP: usize> {
    tag: u32,
    closed: Vec<Owned<CAP>>,
    current: Option<Owned<CAP>>,
}

impl<const CAP: usize> Model for TagBlocks<CAP> {
    ghost use Rattle.bs_heap.specs.Blocks.{Blocks};

    ghost Value = { Blocks };

    ghost use Rattle.bs_heap.specs.inner.OwnedBlocks.{blocks_in, AreTagged};

    ghost view = { λ b. blocks_in b };

    ghost invariant = { λ b. AreTagged b };
}

/// Appends the bytes, then zeros up to a multiple of 16, and returns where the bytes begin.
fn append<const CAP: usize>(owned: &mut Owned<CAP>, bytes: &[u8]) -> usize
    requires { HasRoom CAP owned.old.block (length bytes.now) }
    ensures at { result ≡ length owned.old.block }
    ensures owned { owned.new ≡ record owned.old { block = owned.old.block ++ padded bytes.now } }
{
    owned.block_mut().push(bytes).unwrap()
}

/// Gives all the blocks back to the pool, the last one first.
fn give_back<const CAP: usize>(blocks: &mut Vec<Owned<CAP>>, pool: &mut Pool<CAP>)
    requires { AreLent blocks.old.items pool.old }
    ensures none { blocks.new.items ≡ [] }
    ensures room { vec_capacity blocks.new ≡ vec_capacity blocks.old }
    ensures given { pool.new ≡ all_given (owned_numbers blocks.old.items) pool.old }
{
    while let Some(owned) = blocks.pop() {
        pool.give(owned);
    }
}

/// Gives the block the tag, and the number that stands in the list at its old one.
fn rename_block<const CAP: usize>(owned: &mut Owned<CAP>, tag: u32, numbers: &[usize])
    requires { owned.old.number < length numbers.now }
    ensures { owned.new ≡ renamed_owned tag (number_at numbers.now) owned.old }
{
    owned.rename(tag, numbers[owned.number()]);
}

/// Does that for each of the blocks.
fn rename_blocks<const CAP: usize>(blocks: &mut Vec<Owned<CAP>>, tag: u32, numbers: &[usize])
    requires { All (λ owned. owned.number < length numbers.now) blocks.old.items }
    ensures items { blocks.new.items ≡ map (renamed_owned tag (number_at numbers.now)) blocks.old.items }
    ensures room { vec_capacity blocks.new ≡ vec_capacity blocks.old }
{
    for at in 0..blocks.len() {
        rename_block(&mut blocks[at], tag, numbers);
    }
}

/// Does that for the block if there is one.
fn rename_current<const CAP: usize>(current: &mut Option<Owned<CAP>>, tag: u32, numbers: &[usize])
    requires { IfSome current.old (λ owned. owned.number < length numbers.now) }
    ensures { current.new ≡ option_map (renamed_owned tag (number_at numbers.now)) current.old }
{
    if let Some(owned) = current {
        rename_block(owned, tag, numbers);
    }
}

impl<const CAP: usize> TagBlocks<CAP> {
    ghost use Rattle.bs_heap.specs.Blocks.{NumberedBlock};
    ghost use Rattle.bs_heap.specs.inner.Renaming.{renamed_blocks};
    ghost use Rattle.bs_heap.specs.inner.Blocks.{no_blocks, all_blocks, block_at, block_numbers, fits_current};
    ghost use Rattle.bs_heap.specs.inner.Entries.{PutsRecord};

    /// Makes an empty list of blocks, with memory for `room` closed ones.
    pub(crate) fn new(alloc: Global, tag: u32, room: usize) -> Result<Self, AllocError>
        ensures { IfOk result (λ blocks. blocks ≡ no_blocks tag room) }
    {
        Ok(TagBlocks {
            tag,
            closed: Vec::with_capacity(alloc, room)?,
            current: None,
        })
    }

    /// The `n` bytes from `at` on of the block at that position.
    pub(crate) fn get(&self, position: usize, at: usize, n: usize) -> &[u8]
        requires position { position < length (all_blocks self.now) }
        requires range { at + n ≤ length (block_at self.now position).bytes }
        ensures { result.now ≡ range at n (block_at self.now position).bytes }
    {
        self.block(position).get(at, n)
    }

    fn block(&self, position: usize) -> &Block<CAP>
        requires { position < length (all_blocks self.now) }
        ensures { result.now ≡ (block_at self.now position).bytes }
    {
        match self.closed.get(position) {
            Some(owned) => owned.block(),
            None => match &self.current {
                Some(owned) => owned.block(),
                None => unreachable!(),
            },
        }
    }

    /// Whether a record of `len` bytes fits into the current block.
    pub(crate) fn fits(&self, len: usize) -> bool
        requires { len + 15 < 2 ^ 64 }
        ensures { result ≡ fits_current CAP len self.now }
    {
        match &self.current {
            Some(owned) => round_up(len) <= owned.block().room(),
            None => false,
        }
    }

    /// Closes the current block, and draws another.
    fn draw(&mut self, pool: &mut Pool<CAP>)
        requires reserved { held self.old.tag pool.old < reserved self.old.tag pool.old }
        requires room { length self.old.closed < self.old.room }
        ensures blocks { self.new ≡ record self.old { closed = all_blocks self.old; current = Some (record { number = next_number pool.old; bytes = [] }) } }
        ensures pool { pool.new ≡ drawn self.old.tag (next_number pool.old) pool.old }
        ensures number { least_free pool.old ≡ Some (next_number pool.old) }
    {
        let Some(owned) = pool.draw(self.tag) else {
            unreachable!()
        };
        if let Some(full) = self.current.replace(owned) {
            self.closed.push_reserved(full);
        }
    }

    /// Appends the bytes to the current block.
    fn write(&mut self, bytes: &[u8]) -> Entry
        requires { fits_current CAP (length bytes.now) self.old ≡ true }
        ensures blocks { self.new ≡ record self.old { current = option_map (λ (b : NumberedBlock). record b { bytes = b.bytes ++ padded bytes.now }) self.old.current } }
        ensures entry { result ≡ record { position = length self.old.closed; at = unwrap_or (option_map (λ (b : NumberedBlock). length b.bytes) self.old.current) 0; len = length bytes.now } }
    {
        match &mut self.current {
            Some(owned) => {
                let at = append(owned, bytes);
                Entry {
                    position: self.closed.len(),
                    at,
                    len: bytes.len(),
                }
            }
            None => unreachable!(),
        }
    }

    /// Appends the bytes to the current block if they fit, else to a block that it draws.
    pub(crate) fn put(&mut self, pool: &mut Pool<CAP>, bytes: &[u8]) -> Entry
        requires size { rounded (length bytes.now) ≤ CAP }
        requires reserved { fits_current CAP (length bytes.now) self.old ≡ false → held self.old.tag pool.old < reserved self.old.tag pool.old }
        requires room { length self.old.closed < self.old.room }
        ensures put { PutsRecord CAP (next_number pool.old) bytes.now self.old self.new result }
        ensures pool { pool.new ≡ (if fits_current CAP (length bytes.now) self.old then pool.old else drawn self.old.tag (next_number pool.old) pool.old) }
        ensures number { fits_current CAP (length bytes.now) self.old ≡ false → least_free pool.old ≡ Some (next_number pool.old) }
    {
        if !self.fits(bytes.len()) {
            self.draw(pool);
        }
        self.write(bytes)
    }

    /// Gives the closed blocks back.
    pub(crate) fn give_closed(&mut self, pool: &mut Pool<CAP>)
        requires { AreOwned self.old.tag (block_numbers self.old.closed) pool.old }
        ensures blocks { self.new ≡ record self.old { closed = [] } }
        ensures pool { pool.new ≡ all_given (block_numbers self.old.closed) pool.old }
    {
        give_back(&mut self.closed, pool);
    }

    /// Gives all the blocks back.
    pub(crate) fn give_all(&mut self, pool: &mut Pool<CAP>)
        requires { AreOwned self.old.tag (block_numbers (all_blocks self.old)) pool.old }
        ensures blocks { self.new ≡ no_blocks self.old.tag self.old.room }
        ensures pool { pool.new ≡ all_given (block_numbers (all_blocks self.old)) pool.old }
    {
        self.give_closed(pool);
        if let Some(owned) = self.current.take() {
            pool.give(owned);
        }
    }

    /// Gives each block the tag, and the number that stands in the list at its old one.
    pub(crate) fn rename(&mut self, tag: u32, numbers: &[usize])
        requires { All (λ number. number < length numbers.now) (block_numbers (all_blocks self.old)) }
        ensures { self.new ≡ renamed_blocks tag (number_at numbers.now) self.old }
    {
        self.tag = tag;
        rename_blocks(&mut self.closed, tag, numbers);
        rename_current(&mut self.current, tag, numbers);
    }
}
