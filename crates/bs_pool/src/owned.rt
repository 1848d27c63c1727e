//! A block that was drawn from its pool.
ghost use Rattle.std.specs.Prelude.{◌≡◌};
ghost use Rattle.std.specs.Borrow.{sem};

use bs_block::Block;
use std::fmt;

/// One block of a pool, owned by a tag. Only `Pool::draw` makes one, and it cannot be copied, so
/// nothing else reads or writes the block. `Pool::give` takes it back; if it is dropped instead,
/// its number stays owned in the pool.
#[derive(Drop)]
pub struct Owned<const CAP: usize> {
    tag: u32,
    number: usize,
    block: Block<CAP>,
}

impl<const CAP: usize> Owned<CAP> {
    ghost use Rattle.bs_pool.specs.OwnedLends.{lends_block};

    pub(crate) fn new(tag: u32, number: usize, block: Block<CAP>) -> Self
        ensures tag { result.tag ≡ tag }
        ensures number { result.number ≡ number }
        ensures block { result.block ≡ block.entry }
    {
        Owned { tag, number, block }
    }

    pub(crate) fn into_block(self) -> Block<CAP>
        ensures { result ≡ self.entry.block }
    {
        self.block
    }

    /// The tag that owns the block in the pool.
    pub fn tag(&self) -> u32
        ensures { result ≡ self.now.tag }
    {
        self.tag
    }

    /// The number of the block in the pool.
    pub fn number(&self) -> usize
        ensures { result ≡ self.now.number }
    {
        self.number
    }

    /// Changes the tag and the number. The block does not change.
    pub fn rename(&mut self, tag: u32, number: usize)
        ensures tag { self.new.tag ≡ tag }
        ensures number { self.new.number ≡ number }
        ensures block { self.new.block ≡ self.old.block }
    {
        self.tag = tag;
        self.number = number;
    }

    /// The block, to read.
    pub fn block(&self) -> &Block<CAP>
        ensures { result.now ≡ self.now.block }
    {
        &self.block
    }

    /// The block, to write. Its tag and its number do not change.
    pub fn block_mut(&mut self) -> &mut Block<CAP>
        ensures* writes_back { sem 𝓛 (lends_block CAP.row self.entry result) }
        ensures value { result.now ≡ self.old.block }
    {
        &mut self.block
    }
}

impl<const CAP: usize> fmt::Debug for Owned<CAP> {
    fn fmt<W: fmt::Write>(&self, f: &mut fmt::Formatter<W>) -> fmt::Result {
        write!(f, "block {} of tag {}", self.number, self.tag)
    }
}
