//! A pool that is put together from the pools of groups. A clause sees it as the ledger so far, and
//! how many free numbers have no block yet.
ghost use Rattle.std.specs.Prelude.{◌≡◌, ◌≤◌, length, replicate, None, IfOk};
ghost use Rattle.bs_pool.specs.Assembly.{AreNew, laid, unlaid};
ghost use Rattle.bs_pool.specs.Ledger.{IsSound, size, free};
ghost use Rattle.bs_pool.specs.Woven.{ArePlaces};

use crate::free_numbers::{append_numbers, lay_owners, numbers_left, words_of};
use crate::pool::{Parts, Pool};
use crate::reservation::{Account, append_raised};
use crate::slot::{gather, slots_of};
use bs_block::Block;
use std::alloc::{AllocError, Global};
use std::marker::Model;

/// The owners of the numbers of a pool to be, and the blocks for its free numbers.
#[derive(Drop)]
pub struct Assembly<const CAP: usize> {
    owners: Vec<Option<u32>>,
    blocks: Vec<Block<CAP>>,
    accounts: Vec<Account>,
    // The free numbers in ascending order: these, and then all from `next` on.
    low: Vec<usize>,
    next: usize,
}

impl<const CAP: usize> Model for Assembly<CAP> {
    ghost use Rattle.std.specs.Prelude.{length};
    ghost use Rattle.bs_pool.specs.Assembly.{Assembled};
    ghost use Rattle.bs_pool.specs.inner.AssemblyParts.{assembled_in, AreAssembled};

    ghost Value = { Assembled };

    ghost view = { λ a. assembled_in a.owners.items a.accounts.items (length a.blocks.items) };

    ghost invariant = { λ a. AreAssembled a.owners.items a.accounts.items (length a.blocks.items) a.low.items a.next };
}

/// The owners of `n` free numbers.
fn no_owners(alloc: Global, n: usize) -> Result<Vec<Option<u32>>, AllocError>
    ensures { IfOk result (λ owners. owners.items ≡ replicate n None) }
{
    let mut owners = Vec::with_capacity(alloc, n)?;
    for _ in 0..n {
        owners.push(None)?;
    }
    Ok(owners)
}

impl<const CAP: usize> Assembly<CAP> {
    /// Begins a pool of `n` free numbers without reservations, with blocks for some of them. The
    /// error is the allocator's.
    #[tactic(auto, using(crate::proofs::Assembled::begins))]
    pub fn new(alloc: Global, n: usize, blocks: Vec<Block<CAP>>) -> Result<Self, AllocError>
        requires { length blocks.items ≤ n }
        ensures { IfOk result (λ assembly. assembly ≡ unlaid n (length blocks.entry.items)) }
    {
        Ok(Assembly {
            owners: no_owners(alloc, n)?,
            blocks,
            accounts: Vec::new(alloc),
            low: Vec::new(alloc),
            next: 0,
        })
    }

    /// Lays the owners of a pool into the free numbers, its n-th number into the n-th free one, and
    /// adds the offset to their tags. Its free blocks become the assembly's, and its reservations
    /// follow the others. Also returns the new number of each of its numbers, at the place of the
    /// old one. The error is the allocator's; assembly and pool are then dropped.
    pub fn lay(
        self,
        alloc: Global,
        pool: Pool<CAP>,
        offset: u32,
    ) -> Result<(Self, Vec<usize>), AllocError>
        requires room { size pool ≤ self.missing }
        requires tags { AreNew offset pool self.ledger }
        ensures assembly { IfOk result (λ done. done.0 ≡ laid offset pool.entry self.entry) }
        ensures numbers { IfOk result (λ done. ArePlaces self.entry.ledger.owners (size pool.entry) done.1.items) }
        ensures sound { IsSound self.entry.ledger }
        ensures enough { size pool.entry ≤ free self.entry.ledger }
    {
        let Parts {
            slots,
            accounts: more,
        } = pool.into_parts();
        let Assembly {
            mut owners,
            mut blocks,
            mut accounts,
            mut low,
            next,
        } = self;
        let lacking = slots.len().saturating_sub(low.len());
        append_numbers(&mut low, next, lacking)?;
        let left = numbers_left(alloc, low.as_slice(), slots.as_slice())?;
        lay_owners(&mut owners, low.as_slice(), slots.as_slice(), offset);
        append_raised(&mut accounts, more.as_slice(), offset)?;
        gather(slots, &mut blocks)?;
        Ok((
            Assembly {
                owners,
                blocks,
                accounts,
                low: left,
                next: next + lacking,
            },
            low,
        ))
    }

    /// The pool, once each free number has a block. The error is the allocator's.
    pub fn finish(self, alloc: Global) -> Result<Pool<CAP>, AllocError>
        requires { self.missing ≡ 0 }
        ensures { IfOk result (λ pool. pool ≡ self.entry.ledger) }
    {
        let Assembly {
            owners,
            mut blocks,
            accounts,
            low,
            ..
        } = self;
        drop(low);
        let words = words_of(alloc, owners.as_slice())?;
        let slots = slots_of(alloc, owners.as_slice(), &mut blocks)?;
        Ok(Pool::from_parts(Parts { slots, accounts }, words))
    }
}
