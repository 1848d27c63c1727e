//! A small pool: blocks are drawn, given back and drawn again.
ghost use Rattle.std.specs.Prelude.{◌≡◌, ◌-◌, ◌<◌, ◌≤◌, ◌^◌, ◌++◌, ◌∷◌, [], None, IfOk};
ghost use Rattle.bs_pool.specs.Ledger.{reservation_of, size};

use bs_pool::{Assembly, Owned, Pool, Reserve};
use bs_samples::{holds, same};
use std::alloc::Global;
use std::marker::Send;
use std::test::Fail;

fn may_cross_threads<T: Send>(_value: &T) {}

/// Checks that tag 1 owns and has reserved two of the three blocks.
fn check_counts(pool: &Pool<64>) -> Result<(), Fail> {
    same("free", pool.free(), 1)?;
    same("held by tag 1", pool.held(1), 2)?;
    same("reserved by tag 1", pool.reserved(1), 2)?;
    same("reserved by tag 2", pool.reserved(2), 0)?;
    same("unreserved", pool.unreserved(), 1)?;
    same("size", pool.size(), 3)
}

/// Reserves two of three blocks for tag 1. No tag gets a second reservation, nor more than is left.
fn check_reservations(pool: &mut Pool<64>) -> Result<(), Fail> {
    holds("two blocks", pool.reserve(1, 2) == Ok(()))?;
    holds("again", pool.reserve(1, 1) == Err(Reserve::TagTaken))?;
    let short = Err(Reserve::Short { free_to_reserve: 1 });
    holds("two blocks of one", pool.reserve(2, 2) == short)
}

/// Draws a block of tag 1 and compares its number.
fn draw_number(pool: &mut Pool<64>, number: usize) -> Result<Owned<64>, Fail> {
    let owned = pool.draw(1).ok_or("a block is reserved")?;
    same(
        "its number and tag",
        (owned.number(), owned.tag()),
        (number, 1),
    )?;
    Ok(owned)
}

fn check_no_block(pool: &mut Pool<64>, tag: u32) -> Result<(), Fail> {
    holds("no block for the tag", pool.draw(tag).is_none())
}

#[test]
fn a_pool_of_three_blocks(rt: HostRuntime) -> Result<(), Fail> {
    let mut pool = Pool::<64>::open(rt.alloc(), 3)?;
    check_reservations(&mut pool)?;
    drop(draw_number(&mut pool, 0)?);
    drop(draw_number(&mut pool, 1)?);
    check_no_block(&mut pool, 1)?;
    check_no_block(&mut pool, 9)?;
    check_counts(&pool)
}

/// Draws a block of tag 7, writes three bytes and gives it back.
#[tactic(auto, using(bs_pool::proofs::Owners::owns_drawn))]
fn write_and_give(pool: &mut Pool<64>) -> Result<(), Fail> {
    let mut owned = pool.draw(7).ok_or("a first block of two")?;
    let pushed = owned.block_mut().push(&[1, 2, 3]);
    holds("three bytes fit", pushed == Some(0))?;
    same("the bytes", owned.block().get(0, 3), [1, 2, 3].as_slice())?;
    may_cross_threads(&owned);
    pool.give(owned);
    Ok(())
}

/// Draws the same block again, which is empty, and gives it back.
#[tactic(auto, using(bs_pool::proofs::Owners::owns_drawn))]
fn draw_again(pool: &mut Pool<64>) -> Result<(), Fail> {
    let owned = pool.draw(7).ok_or("the same block again")?;
    same("its number", owned.number(), 0)?;
    same("its bytes", owned.block().len(), 0)?;
    pool.give(owned);
    Ok(())
}

/// Ends the reservation of tag 7.
#[tactic(auto, using(bs_pool::proofs::Reservations::reserved_some))]
fn end_reservation(pool: &mut Pool<64>) -> Result<(), Fail> {
    holds("no block is held", pool.held(7) == 0)?;
    holds("two are reserved", pool.reserved(7) == 2)?;
    pool.unreserve(7);
    same("no longer reserved", pool.reserved(7), 0)
}

#[test]
fn a_block_that_is_given_back_is_drawn_empty(rt: HostRuntime) -> Result<(), Fail> {
    let mut pool = Pool::<64>::open(rt.alloc(), 2)?;
    holds("two blocks", pool.reserve(7, 2) == Ok(()))?;
    write_and_give(&mut pool)?;
    may_cross_threads(&pool);
    same("free", pool.free(), 2)?;
    draw_again(&mut pool)?;
    end_reservation(&mut pool)?;
    holds("by another tag", pool.reserve(8, 2) == Ok(()))
}

/// Draws the blocks up to the last one of 130, in order.
fn draw_129(pool: &mut Pool<64>) -> Result<(), Fail> {
    holds("all blocks", pool.reserve(1, 130) == Ok(()))?;
    for number in 0..129 {
        drop(draw_number(pool, number)?);
    }
    Ok(())
}

/// Draws the last block. None is left, and it is given back.
#[tactic(auto, using(bs_pool::proofs::Owners::owns_drawn, bs_pool::proofs::Owners::still_owns_draw))]
fn draw_last(pool: &mut Pool<64>) -> Result<(), Fail> {
    let kept = pool.draw(1).ok_or("the last block")?;
    same("its number", kept.number(), 129)?;
    holds("no block is left", pool.draw(1).is_none())?;
    same("held", pool.held(1), 130)?;
    same("free", pool.free(), 0)?;
    pool.give(kept);
    Ok(())
}

/// Numbers are drawn in order over three words of the pool's bit set, and a number that is given
/// back is drawn next.
#[test]
fn a_pool_of_130_blocks(rt: HostRuntime) -> Result<(), Fail> {
    let mut pool = Pool::<64>::open(rt.alloc(), 130)?;
    draw_129(&mut pool)?;
    draw_last(&mut pool)?;
    drop(draw_number(&mut pool, 129)?);
    Ok(())
}

/// Makes a pool of two blocks, which tag 0 reserves, and of which it owns the first.
#[tactic(auto, using(bs_pool::proofs::Owners::size_drawn))]
fn open_group(alloc: Global) -> Result<Pool<64>, Fail>
    ensures size { IfOk result (λ pool. size pool ≡ 2) }
    ensures tag { IfOk result (λ pool. pool.reservations ≡ record { tag = 0; blocks = 2 } ∷ []) }
{
    let mut pool = Pool::<64>::open(alloc, 2)?;
    pool.reserve(0, 2)?;
    drop(pool.draw(0).ok_or("a first block")?);
    Ok(pool)
}

/// Lays such a pool into the assembly, and checks its two numbers.
fn lay_group(
    alloc: Global,
    assembly: Assembly<64>,
    offset: u32,
    first: usize,
    second: usize,
) -> Result<Assembly<64>, Fail>
    requires room { 2 ≤ assembly.missing }
    requires tag { reservation_of offset assembly.ledger ≡ None }
    ensures missing { IfOk result (λ a. a.missing ≡ assembly.missing - 2) }
    ensures tags { IfOk result (λ a. a.ledger.reservations ≡ assembly.ledger.reservations ++ record { tag = offset; blocks = 2 } ∷ []) }
{
    let (assembly, numbers) = assembly.lay(alloc, open_group(alloc)?, offset)?;
    same("its first number", numbers[0], first)?;
    same("its second number", numbers[1], second)?;
    Ok(assembly)
}

/// Checks that tags 0 and 1 own a block each of four, and that tag 1 draws the third.
fn check_both(pool: &mut Pool<64>) -> Result<(), Fail> {
    same("free", pool.free(), 2)?;
    same("held by tag 0", pool.held(0), 1)?;
    same("held by tag 1", pool.held(1), 1)?;
    same("reserved by tag 1", pool.reserved(1), 2)?;
    drop(draw_number(pool, 2)?);
    check_no_block(pool, 2)
}

/// The second group's numbers are those that the first one left free.
#[test]
fn a_pool_of_two_groups(rt: HostRuntime) -> Result<(), Fail> {
    let assembly = Assembly::<64>::new(rt.alloc(), 4, Vec::new(rt.alloc()))?;
    let assembly = lay_group(rt.alloc(), assembly, 0, 0, 1)?;
    let assembly = lay_group(rt.alloc(), assembly, 1, 1, 2)?;
    check_both(&mut assembly.finish(rt.alloc())?)
}

/// Two of three free blocks go to another pool.
#[test]
fn a_pool_of_the_blocks_of_another(rt: HostRuntime) -> Result<(), Fail> {
    let mut blocks = Pool::<64>::open(rt.alloc(), 3)?.into_blocks(rt.alloc())?;
    holds("three blocks", blocks.len() == 3)?;
    let pool = Pool::from_blocks(rt.alloc(), &mut blocks, 2)?;
    same("its free blocks", pool.free(), 2)?;
    same("the blocks left", blocks.len(), 1)
}
