//! The free numbers of a pool that is put together, and its owners once a group is laid into them.
ghost use Rattle.std.specs.Prelude.{◌≡◌, ℕ, ◌+◌, ◌/◌, ◌<◌, ◌≤◌, ◌++◌, ◌^◌, length, slice_index_or, count_by, None, IfOk, OnOk, OnErr};
ghost use Rattle.std.specs.List.{range_with_len};
ghost use Rattle.bs_pool.specs.Ledger.{is_unowned};
ghost use Rattle.bs_pool.specs.Woven.{woven, ArePlaces};
ghost use Rattle.bs_pool.specs.inner.FreeNumbers.{still_free, HaveRoom};
ghost use Rattle.bs_pool.specs.inner.Marks.{MarksFree, mark_of};

use crate::slot::Slot;
use crate::words::mark;
use std::alloc::{AllocError, Global};

/// Appends the `more` numbers from `next` on.
pub(crate) fn append_numbers(
    low: &mut Vec<usize>,
    next: usize,
    more: usize,
) -> Result<(), AllocError>
    requires { next + more < 2 ^ 64 }
    ensures ok { OnOk result (low.new.items ≡ low.old.items ++ range_with_len next more) }
    ensures err { OnErr result (low.new.items ≡ low.old.items) }
{
    low.reserve(more)?;
    for number in next..next + more {
        low.push_reserved(number);
    }
    Ok(())
}

/// Whether the slot of that number is free or does not exist.
fn is_left<const CAP: usize>(slots: &[Slot<CAP>], number: usize) -> bool
    ensures { result ≡ is_unowned (slice_index_or slots.now number None) }
{
    match slots.get(number) {
        Some(slot) => slot.is_unowned(),
        None => true,
    }
}

/// The numbers of the list that are still free once the slots are laid into them.
pub(crate) fn numbers_left<const CAP: usize>(
    alloc: Global,
    low: &[usize],
    slots: &[Slot<CAP>],
) -> Result<Vec<usize>, AllocError>
    requires { length slots.now ≤ length low.now }
    ensures { IfOk result (λ left. left.items ≡ still_free low.now slots.now) }
{
    let mut left = Vec::with_capacity(alloc, low.len())?;
    for at in 0..low.len() {
        if is_left(slots, at) {
            left.push(low[at])?;
        }
    }
    Ok(left)
}

/// Lays the owners of the slots into the free numbers, which begin with the list; each tag has the
/// offset added.
pub(crate) fn lay_owners<const CAP: usize>(
    owners: &mut Vec<Option<u32>>,
    low: &[usize],
    slots: &[Slot<CAP>],
    offset: u32,
)
    requires free { ArePlaces owners.old.items (length slots.now) low.now }
    requires room { length slots.now ≤ count_by is_unowned owners.old.items }
    requires tags { HaveRoom offset slots.now }
    ensures { owners.new.items ≡ woven (λ tag. tag + offset) owners.old.items slots.now }
{
    for at in 0..slots.len() {
        if let Some(tag) = slots[at].owner() {
            owners[low[at]] = Some(tag + offset);
        }
    }
}

fn is_nobody(owner: Option<u32>) -> bool
    ensures { result ≡ is_unowned owner }
{
    owner.is_none()
}

/// Sets the bits of the free numbers.
fn mark_free(words: &mut [u64], owners: &[Option<u32>])
    requires enough { length words.old ≡ (length owners.now + 63) / 64 }
    requires clear { (i : ℕ) → mark_of words.old i ≡ 0 }
    ensures { MarksFree words.new owners.now }
{
    for number in 0..owners.len() {
        if is_nobody(owners[number]) {
            mark(words, number);
        }
    }
}

/// The words of the free numbers of these owners.
pub(crate) fn words_of(alloc: Global, owners: &[Option<u32>]) -> Result<Vec<u64>, AllocError>
    ensures { IfOk result (λ words. MarksFree words.items owners.now) }
{
    let mut words = vec![in alloc; 0; owners.len().div_ceil(64)]?;
    mark_free(&mut words, owners);
    Ok(words)
}
