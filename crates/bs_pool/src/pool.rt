//! The pool and its calls. A clause sees a pool as its ledger: the owner of each number, and the
//! reservation of each tag.
ghost use Rattle.std.specs.Prelude.{◌≡◌, ◌+◌, ◌≤◌, length, IfOk, OnOk, OnErr, IsSome};
ghost use Rattle.bs_block.specs.Bytes.{IsCapacity};
ghost use Rattle.bs_pool.specs.Ledger.{IsSound, Owns, opened, free, size, held, reserved, unreserved, reservation_of, given, without_reservation};
ghost use Rattle.bs_pool.specs.DrawAnswer.{Draws};
ghost use Rattle.bs_pool.specs.ReserveAnswer.{Reserves};
ghost use Rattle.bs_pool.specs.inner.Accounts.{AreCounted};
ghost use Rattle.bs_pool.specs.inner.PoolParts.{ledger_in, AreParts};

use crate::owned::Owned;
use crate::reservation::{
    Account, Reservation, Reserve, all_reserved, count_drawn, count_given, counted, is_reserved,
    reserved_by, withdraw,
};
use crate::slot::{Slot, count_free, gather, home_slots, new_blocks};
use crate::words::{first_marked, mark, new_words, unmark};
use bs_block::Block;
use std::alloc::{AllocError, Global};
use std::marker::Model;

/// A fixed number of blocks of `CAP` bytes, numbered from 0. A free block is empty and in the pool;
/// an owned block is inside an `Owned` with its tag.
#[derive(Drop)]
pub struct Pool<const CAP: usize> {
    slots: Vec<Slot<CAP>>,
    reservations: Vec<Account>,
    // One bit per block number, set if the block is free.
    words: Vec<u64>,
}

/// What a pool keeps beside the words of its free numbers.
pub(crate) struct Parts<const CAP: usize> {
    pub(crate) slots: Vec<Slot<CAP>>,
    pub(crate) accounts: Vec<Account>,
}

impl<const CAP: usize> Model for Pool<CAP> {
    ghost use Rattle.bs_pool.specs.Ledger.{Ledger};
    ghost use Rattle.bs_pool.specs.inner.PoolParts.{ledger_in, AreParts};

    ghost Value = { Ledger };

    ghost view = { λ p. ledger_in p.slots.items p.reservations.items };

    ghost invariant = { λ p. AreParts p.slots.items p.reservations.items p.words.items };
}

impl<const CAP: usize> Pool<CAP> {
    /// Makes a pool of `n` free blocks without reservations. Allocates all of them; the error is
    /// the allocator's.
    #[tactic(auto, using(crate::proofs::Soundness::sound_opened))]
    pub fn open(alloc: Global, n: usize) -> Result<Self, AllocError>
        requires { IsCapacity CAP }
        ensures { IfOk result (λ pool. pool ≡ opened n) }
    {
        let mut blocks = new_blocks(alloc, n)?;
        Pool::from_blocks(alloc, &mut blocks, n)
    }

    /// Makes a pool of `n` free blocks without reservations from the last `n` of the blocks. The
    /// error is the allocator's; the blocks are then the same.
    #[tactic(auto, using(crate::proofs::Soundness::sound_opened))]
    pub fn from_blocks(
        alloc: Global,
        blocks: &mut Vec<Block<CAP>>,
        n: usize,
    ) -> Result<Self, AllocError>
        requires { n ≤ length blocks.old.items }
        ensures pool { IfOk result (λ pool. pool ≡ opened n) }
        ensures blocks { OnOk result (length blocks.new.items + n ≡ length blocks.old.items) }
        ensures err { OnErr result (blocks.new.items ≡ blocks.old.items) }
    {
        let words = new_words(alloc, n)?;
        let slots = home_slots(alloc, n, blocks)?;
        Ok(Pool {
            slots,
            reservations: Vec::new(alloc),
            words,
        })
    }

    /// The free blocks of a pool that is no longer needed.
    pub fn into_blocks(self, alloc: Global) -> Result<Vec<Block<CAP>>, AllocError>
        ensures { IfOk result (λ blocks. length blocks.items ≡ free self.entry) }
    {
        let Parts { slots, accounts } = self.into_parts();
        drop(accounts);
        let mut blocks = Vec::with_capacity(alloc, slots.len())?;
        gather(slots, &mut blocks)?;
        Ok(blocks)
    }

    pub(crate) fn into_parts(self) -> Parts<CAP>
        ensures ledger { ledger_in result.slots.items result.accounts.items ≡ self.entry }
        ensures sound { IsSound self.entry }
        ensures counts { AreCounted result.slots.items result.accounts.items }
    {
        let Pool {
            slots,
            reservations: accounts,
            words,
        } = self;
        drop(words);
        Parts { slots, accounts }
    }

    pub(crate) fn from_parts(parts: Parts<CAP>, words: Vec<u64>) -> Self
        requires { AreParts parts.slots.items parts.accounts.items words.items }
        ensures { result ≡ ledger_in parts.entry.slots.items parts.entry.accounts.items }
    {
        let Parts { slots, accounts } = parts;
        Pool {
            slots,
            reservations: accounts,
            words,
        }
    }

    /// The number of free blocks.
    pub fn free(&self) -> usize
        ensures { result ≡ free self.now }
    {
        count_free(self.slots.as_slice())
    }

    /// The number of blocks that the tag owns.
    pub fn held(&self, tag: u32) -> usize
        ensures { result ≡ held tag self.now }
    {
        counted(self.reservations.as_slice(), tag)
    }

    /// The number of blocks that the tag reserved; 0 if it has no reservation.
    pub fn reserved(&self, tag: u32) -> usize
        ensures { result ≡ reserved tag self.now }
    {
        reserved_by(self.reservations.as_slice(), tag)
    }

    /// The number of blocks, free or owned.
    pub fn size(&self) -> usize
        ensures value { result ≡ size self.now }
        ensures sound { IsSound self.now }
    {
        self.slots.len()
    }

    /// The number of blocks that are not reserved, which is the largest possible reservation.
    pub fn unreserved(&self) -> usize
        ensures { result ≡ unreserved self.now }
    {
        self.size() - all_reserved(self.reservations.as_slice())
    }

    /// Reserves `n` blocks for the tag, which may then own up to `n`. `TagTaken` if the tag has a
    /// reservation already. `Short` if fewer than `n` blocks are unreserved; ownership does not
    /// matter. `Memory` if memory runs out.
    #[tactic(auto, using(crate::proofs::Accounts::none_in, crate::proofs::Accounts::some_in, crate::proofs::Accounts::pushed_in))]
    pub fn reserve(&mut self, tag: u32, n: usize) -> Result<(), Reserve>
        requires { 1 ≤ n }
        ensures { Reserves tag n self.old result self.new }
    {
        if is_reserved(self.reservations.as_slice(), tag) {
            return Err(Reserve::TagTaken);
        }
        let free_to_reserve = self.unreserved();
        if n > free_to_reserve {
            return Err(Reserve::Short { free_to_reserve });
        }
        let reservation = Reservation { tag, blocks: n };
        let account = Account {
            reservation,
            held: 0,
        };
        if self.reservations.push(account).is_err() {
            return Err(Reserve::Memory);
        }
        Ok(())
    }

    /// Draws the lowest-numbered free block, which is empty, for the tag. None if the tag owns as
    /// many blocks as it reserved.
    pub fn draw(&mut self, tag: u32) -> Option<Owned<CAP>>
        ensures { Draws tag self.old result self.new }
    {
        if !count_drawn(&mut self.reservations, tag) {
            return None;
        }
        let number = first_marked(self.words.as_slice()).unwrap();
        unmark(&mut self.words, number);
        let block = self.slots[number].hand_out(tag);
        Some(Owned::new(tag, number, block))
    }

    /// Takes a block back: empties it and frees its number.
    pub fn give(&mut self, owned: Owned<CAP>)
        requires { Owns owned.tag owned.number self.old }
        ensures { self.new ≡ given owned.entry.number self.old }
    {
        let number = owned.number();
        mark(&mut self.words, number);
        count_given(&mut self.reservations, owned.tag());
        self.slots[number] = Slot::home(owned.into_block());
    }

    /// Ends the reservation of a tag that owns no block.
    pub fn unreserve(&mut self, tag: u32)
        requires reserved { IsSome (reservation_of tag self.old) }
        requires idle { held tag self.old ≡ 0 }
        ensures { self.new ≡ without_reservation tag self.old }
    {
        withdraw(&mut self.reservations, tag);
    }
}
