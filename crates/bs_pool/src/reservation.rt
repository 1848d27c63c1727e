//! Reservations, and why one is refused.
ghost use Rattle.std.specs.Prelude.{◌≡◌, ◌+◌, ◌-◌, ◌<◌, ◌^◌, ◌++◌, map, All, true, false, nat_lt, position, OnOk};
ghost use Rattle.bs_pool.specs.inner.Accounts.{is_account_of, has_account, granted, all_granted, without_account, counted, raised_account, AreDistinct, Recounts};

use std::alloc::AllocError;
use thiserror::Error;

/// The largest number of blocks that a tag may own.
#[derive(Clone, Copy, Debug, PartialEq, Eq)]
pub struct Reservation {
    pub tag: u32,
    pub blocks: usize,
}

/// A reservation, and the number of blocks that its tag owns.
#[derive(Clone, Copy, Debug, PartialEq, Eq)]
pub struct Account {
    pub(crate) reservation: Reservation,
    pub(crate) held: usize,
}

/// Why a reservation is refused, in the order in which the reasons are judged.
#[derive(Clone, Copy, Debug, PartialEq, Eq, Error)]
pub enum Reserve {
    /// The tag has a reservation already.
    #[error("the tag has a reservation")]
    TagTaken,
    /// More blocks were requested than can be reserved, which are `free_to_reserve`.
    #[error("no more than {free_to_reserve} blocks are free to reserve")]
    Short { free_to_reserve: usize },
    /// There is no memory for the list of reservations.
    #[error("out of memory")]
    Memory,
}

/// Whether the tag has a reservation.
pub(crate) fn is_reserved(accounts: &[Account], tag: u32) -> bool
    ensures { result ≡ has_account tag accounts.now }
{
    accounts
        .iter()
        .any(|account| account.reservation.tag == tag)
}

/// The number of blocks that the tag reserved; 0 if it has no reservation.
pub(crate) fn reserved_by(accounts: &[Account], tag: u32) -> usize
    ensures { result ≡ granted tag accounts.now }
{
    match accounts
        .iter()
        .find(|account| account.reservation.tag == tag)
    {
        Some(account) => account.reservation.blocks,
        None => 0,
    }
}

/// The number of blocks that all tags together reserved.
pub(crate) fn all_reserved(accounts: &[Account]) -> usize
    requires { all_granted accounts.now < 2 ^ 64 }
    ensures { result ≡ all_granted accounts.now }
{
    accounts
        .iter()
        .map(|account| account.reservation.blocks)
        .sum()
}

/// The place of the tag's account. It is looked for at the tag itself first, since the stays of a
/// plan reserve in the order of their tags.
fn place(accounts: &[Account], tag: u32) -> Option<usize>
    requires { AreDistinct accounts.now }
    ensures { result ≡ position (is_account_of tag) accounts.now }
{
    if let Some(account) = accounts.get(tag as usize) {
        if account.reservation.tag == tag {
            return Some(tag as usize);
        }
    }
    accounts
        .iter()
        .position(|account| account.reservation.tag == tag)
}

/// The number of blocks that the tag owns, as its account counts them.
pub(crate) fn counted(accounts: &[Account], tag: u32) -> usize
    requires { AreDistinct accounts.now }
    ensures { result ≡ counted tag accounts.now }
{
    let Some(at) = place(accounts, tag) else {
        return 0;
    };
    accounts[at].held
}

/// Counts one block more of the tag where it owns less than it reserved. False where it owns all
/// that it reserved; then nothing is changed.
pub(crate) fn count_drawn(accounts: &mut [Account], tag: u32) -> bool
    requires { AreDistinct accounts.old }
    ensures room { result ≡ nat_lt (counted tag accounts.old) (granted tag accounts.old) }
    ensures drawn { result ≡ true → Recounts (λ n. n + 1) tag accounts.old accounts.new }
    ensures full { result ≡ false → accounts.new ≡ accounts.old }
{
    let Some(at) = place(accounts, tag) else {
        return false;
    };
    let account = accounts[at];
    if account.held >= account.reservation.blocks {
        return false;
    }
    accounts[at].held += 1;
    true
}

/// Takes 1 from the count of the tag's blocks.
pub(crate) fn count_given(accounts: &mut [Account], tag: u32)
    requires distinct { AreDistinct accounts.old }
    requires some { 0 < counted tag accounts.old }
    ensures { Recounts (λ n. n - 1) tag accounts.old accounts.new }
{
    if let Some(at) = place(accounts, tag) {
        accounts[at].held -= 1;
    }
}

/// Removes the account of the tag.
pub(crate) fn withdraw(accounts: &mut Vec<Account>, tag: u32)
    ensures { accounts.new.items ≡ without_account tag accounts.old.items }
{
    accounts.retain(|account| account.reservation.tag != tag);
}

/// Appends the accounts with the offset added to each tag.
pub(crate) fn append_raised(
    accounts: &mut Vec<Account>,
    more: &[Account],
    offset: u32,
) -> Result<(), AllocError>
    requires { All (λ a. a.reservation.tag + offset < 2 ^ 32) more.now }
    ensures { OnOk result (accounts.new.items ≡ accounts.old.items ++ map (raised_account offset) more.now) }
{
    for at in 0..more.len() {
        let Account { reservation, held } = more[at];
        let tag = reservation.tag + offset;
        let blocks = reservation.blocks;
        accounts.push(Account {
            reservation: Reservation { tag, blocks },
            held,
        })?;
    }
    Ok(())
}
