//! The slot of one block in a pool. A clause sees it as the tag that owns the block, or None if the
//! block is free.
ghost use Rattle.std.specs.Prelude.{◌≡◌, ◌+◌, ◌≤◌, IfOk, OnOk, OnErr, None, length, count_by, replicate};
ghost use Rattle.bs_block.specs.Bytes.{IsCapacity};
ghost use Rattle.std.specs.Option.{is_some};
ghost use Rattle.bs_pool.specs.Ledger.{is_unowned};

use bs_block::{Block, MOST_BLOCKS};
use std::alloc::{AllocError, Global};
use std::marker::Model;
use std::mem;

/// The block of a number, or the tag that owns it.
#[derive(Drop)]
pub enum Whereabouts<const CAP: usize> {
    /// The block is free.
    Home(Block<CAP>),
    /// The tag owns the block.
    Out(u32),
}

/// The slot of a block. A block in its slot is empty.
#[derive(Drop)]
pub struct Slot<const CAP: usize> {
    whereabouts: Whereabouts<CAP>,
}

impl<const CAP: usize> Model for Slot<CAP> {
    ghost use Rattle.std.specs.Prelude.{Option, ℕ};

    ghost Value = { Option ℕ };

    ghost use Rattle.bs_pool.specs.inner.Whereabouts.{owner_in, IsEmptyAtHome};

    ghost view = { λ s. owner_in s.whereabouts };

    ghost invariant = { λ s. IsEmptyAtHome s.whereabouts };
}

impl<const CAP: usize> Slot<CAP> {
    ghost use Rattle.std.specs.Prelude.{Some, None, []};

    /// Empties the block and makes its slot.
    pub(crate) fn home(mut block: Block<CAP>) -> Self
        ensures { result ≡ None }
    {
        block.clear();
        Slot {
            whereabouts: Whereabouts::Home(block),
        }
    }

    pub(crate) fn is_unowned(&self) -> bool
        ensures { result ≡ is_unowned self.now }
    {
        matches!(self.whereabouts, Whereabouts::Home(_))
    }

    /// The tag that owns the block.
    pub(crate) fn owner(&self) -> Option<u32>
        ensures { result ≡ self.now }
    {
        match &self.whereabouts {
            Whereabouts::Home(_) => None,
            Whereabouts::Out(tag) => Some(*tag),
        }
    }

    /// The slot of a block that the tag owns.
    pub(crate) fn out(tag: u32) -> Self
        ensures { result ≡ Some tag }
    {
        Slot {
            whereabouts: Whereabouts::Out(tag),
        }
    }

    /// The block, if it is free.
    pub(crate) fn into_block(self) -> Option<Block<CAP>>
        ensures { is_some result ≡ is_unowned self.entry }
    {
        match self.whereabouts {
            Whereabouts::Home(block) => Some(block),
            Whereabouts::Out(_) => None,
        }
    }

    /// Takes the block out of its slot for the tag.
    pub(crate) fn hand_out(&mut self, tag: u32) -> Block<CAP>
        requires { self.old ≡ None }
        ensures block { result ≡ [] }
        ensures owner { self.new ≡ Some tag }
    {
        match mem::replace(&mut self.whereabouts, Whereabouts::Out(tag)) {
            Whereabouts::Home(block) => block,
            Whereabouts::Out(_) => unreachable!(),
        }
    }
}

/// Makes `n` new blocks, as many to an allocation as one may have.
pub(crate) fn new_blocks<const CAP: usize>(
    alloc: Global,
    n: usize,
) -> Result<Vec<Block<CAP>>, AllocError>
    requires { IsCapacity CAP }
    ensures { IfOk result (λ blocks. length blocks.items ≡ n) }
{
    let mut blocks = Vec::with_capacity(alloc, n)?;
    let mut left = n;
    while left > 0 {
        let few = left.min(MOST_BLOCKS);
        Block::append_group(alloc, few, &mut blocks)?;
        left -= few;
    }
    Ok(blocks)
}

/// The number of free blocks.
pub(crate) fn count_free<const CAP: usize>(slots: &[Slot<CAP>]) -> usize
    ensures { result ≡ count_by is_unowned slots.now }
{
    slots
        .iter()
        .filter(
            |slot| -> bool
                ensures { result ≡ is_unowned slot.now.now }
            { slot.is_unowned() },
        )
        .count()
}

/// Moves the free blocks of the slots behind the others.
pub(crate) fn gather<const CAP: usize>(
    mut slots: Vec<Slot<CAP>>,
    blocks: &mut Vec<Block<CAP>>,
) -> Result<(), AllocError>
    ensures { OnOk result (length blocks.new.items ≡ length blocks.old.items + count_by is_unowned slots.entry.items) }
{
    while let Some(slot) = slots.pop() {
        if let Some(block) = slot.into_block() {
            blocks.push(block)?;
        }
    }
    Ok(())
}

/// Makes `n` slots of the last blocks.
pub(crate) fn home_slots<const CAP: usize>(
    alloc: Global,
    n: usize,
    blocks: &mut Vec<Block<CAP>>,
) -> Result<Vec<Slot<CAP>>, AllocError>
    requires { n ≤ length blocks.old.items }
    ensures ok { IfOk result (λ slots. slots.items ≡ replicate n None) }
    ensures blocks { OnOk result (length blocks.new.items + n ≡ length blocks.old.items) }
    ensures err { OnErr result (blocks.new.items ≡ blocks.old.items) }
{
    let mut slots = Vec::with_capacity(alloc, n)?;
    for _ in 0..n {
        slots.push_reserved(Slot::home(blocks.pop().unwrap()));
    }
    Ok(slots)
}

/// Makes the slots of these owners, with a block for each free number.
pub(crate) fn slots_of<const CAP: usize>(
    alloc: Global,
    owners: &[Option<u32>],
    blocks: &mut Vec<Block<CAP>>,
) -> Result<Vec<Slot<CAP>>, AllocError>
    requires { count_by is_unowned owners.now ≤ length blocks.old.items }
    ensures ok { IfOk result (λ slots. slots.items ≡ owners.now) }
    ensures blocks { OnOk result (length blocks.new.items + count_by is_unowned owners.now ≡ length blocks.old.items) }
    ensures err { OnErr result (blocks.new.items ≡ blocks.old.items) }
{
    let mut slots = Vec::with_capacity(alloc, owners.len())?;
    for number in 0..owners.len() {
        match owners[number] {
            Some(tag) => slots.push_reserved(Slot::out(tag)),
            None => slots.push_reserved(Slot::home(blocks.pop().unwrap())),
        }
    }
    Ok(slots)
}
