//! The calls of small blocks; and a test that new blocks take no memory until they are written.
use bs_block::{Block, MOST_BLOCKS, round_up};
use bs_samples::{holds, same};
use std::marker::{Send, Sync};
use std::test::Fail;

fn crosses_threads<T: Send + Sync>(value: T) -> T {
    value
}

/// Compares the place of the bytes that are pushed.
fn check_push(
    what: &str,
    block: &mut Block<64>,
    bytes: &[u8],
    place: Option<usize>,
) -> Result<(), Fail> {
    same(what, block.push(bytes), place)
}

/// Compares the bytes of the block from that place on.
fn check_bytes(what: &str, block: &Block<64>, from: usize, bytes: &[u8]) -> Result<(), Fail> {
    holds(
        what,
        from <= block.len() && bytes.len() <= block.len() - from,
    )?;
    same(what, block.get(from, bytes.len()), bytes)
}

const SEVENS: [u8; 64] = [7; 64];

#[test]
fn pushes_into_a_block_of_64_bytes(rt: HostRuntime) -> Result<(), Fail> {
    let mut block = crosses_threads(Block::<64>::new(rt.alloc())?);
    check_push("no bytes", &mut block, &[], Some(0))?;
    same("bytes in use", block.len(), 0)?;

    check_push("64 bytes", &mut block, &SEVENS, Some(0))?;
    same("room", block.room(), 0)?;
    check_push("a byte too many", &mut block, &[1], None)?;
    same("bytes in use", block.len(), 64)?;
    check_bytes("the bytes", &block, 0, &SEVENS)?;
    check_push("no bytes into no room", &mut block, &[], Some(64))?;
    same("bytes in use", block.len(), 64)
}

const OLD: [u8; 16] = [1, 2, 3, 4, 5, 6, 7, 8, 9, 10, 11, 12, 13, 14, 15, 16];

/// Compares the 17 bytes that are written over lent zeros, and the zeros up to the next unit.
fn check_filled(block: &Block<64>) -> Result<(), Fail> {
    same("bytes in use", block.len(), 48)?;
    check_bytes("the old bytes", block, 0, &OLD)?;
    check_bytes("the written bytes", block, 16, &[3; 17])?;
    check_bytes("the zeros behind them", block, 33, &[0; 15])
}

/// Checks what the block lends for 17 bytes, and writes them.
fn fill_17(block: &mut Block<64>) -> Result<(), Fail> {
    let (front, fresh) = block.split_fill(17).ok_or("17 bytes fit into 48")?;
    same("the old bytes, lent", front, OLD.as_slice())?;
    same("the fresh bytes, lent", &*fresh, [0; 17].as_slice())?;
    fresh.copy_from_slice(&[3; 17]);
    Ok(())
}

fn check_too_many(block: &mut Block<64>) -> Result<(), Fail> {
    holds("17 bytes more do not fit", block.split_fill(17).is_none())
}

#[test]
fn split_fill_lends_the_old_bytes_and_fresh_zeros(rt: HostRuntime) -> Result<(), Fail> {
    let mut block = Block::<64>::new(rt.alloc())?;
    check_push("16 bytes", &mut block, &OLD, Some(0))?;
    fill_17(&mut block)?;
    check_filled(&block)?;
    check_too_many(&mut block)?;
    check_filled(&block)
}

/// Writes two bytes into the 48 that are in use.
fn write_at_31(block: &mut Block<64>) -> Result<(), Fail> {
    holds("48 bytes in use", block.len() == 48)?;
    block.get_mut(31, 2).copy_from_slice(&[5, 6]);
    Ok(())
}

/// Clears the block, and checks what it lends for 64 bytes.
#[tactic(auto, unfolding(bs_block::specs::Rounding::rounded))]
fn check_cleared(block: &mut Block<64>) -> Result<(), Fail> {
    block.clear();
    let (front, fresh) = block.fill(64);
    same("no old bytes", front.len(), 0)?;
    same("zeros", &*fresh, [0; 64].as_slice())
}

#[test]
fn a_cleared_block_lends_zeros(rt: HostRuntime) -> Result<(), Fail> {
    let mut block = Block::<64>::new(rt.alloc())?;
    check_push("33 bytes", &mut block, &[7; 33], Some(0))?;
    same("33 bytes rounded up", round_up(33), 48)?;
    write_at_31(&mut block)?;
    same("bytes in use", block.len(), 48)?;
    check_bytes("what was written", &block, 30, &[7, 5, 6, 0])?;
    check_cleared(&mut block)
}

/// They would take 8 GiB if the memory of a new block were written.
#[test]
fn opens_and_drops_4096_blocks_of_2_mebibytes(rt: HostRuntime) -> Result<(), Fail> {
    let mut blocks = Vec::new(rt.alloc());
    for _ in 0..4096 {
        blocks.push(Block::<2_097_152>::new(rt.alloc())?)?;
    }
    same("blocks", blocks.len(), 4096)
}

/// Pushes the number of each block into it, and compares it in each.
fn check_own_bytes(blocks: &mut [Block<64>]) -> Result<(), Fail> {
    for (number, block) in blocks.iter_mut().enumerate() {
        check_push("a byte", block, &[number as u8], Some(0))?;
    }
    for (number, block) in blocks.iter().enumerate() {
        check_bytes("its byte", block, 0, &[number as u8])?;
    }
    Ok(())
}

#[test]
fn blocks_of_a_group_have_bytes_of_their_own(rt: HostRuntime) -> Result<(), Fail> {
    let mut blocks = Vec::new(rt.alloc());
    Block::append_group(rt.alloc(), 3, &mut blocks)?;
    Block::append_group(rt.alloc(), 0, &mut blocks)?;
    Block::append_group(rt.alloc(), MOST_BLOCKS, &mut blocks)?;
    same("blocks", blocks.len(), 35)?;
    check_own_bytes(blocks.as_mut_slice())?;

    drop(crosses_threads(blocks.pop()));
    same("blocks that are left", blocks.len(), 34)?;
    let first = blocks.first().ok_or("no block is left")?;
    check_bytes("the byte of the first", first, 0, &[0])
}
