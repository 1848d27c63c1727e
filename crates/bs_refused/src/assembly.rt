//! Pools that are taken apart to their blocks, and put together from others.
ghost use Rattle.std.specs.Prelude.{◌≡◌, ◌-◌, ◌≤◌, ◌++◌, ◌∷◌, [], None, IfOk};
ghost use Rattle.bs_pool.specs.Ledger.{reservation_of, size};

use crate::blocks::{PoolSeen, seen_pool};
use crate::fault::Fault;
use crate::page::Page;
use crate::scene::{Act, Question, look, tried};
use bs_block::Block;
use bs_pool::{Assembly, Pool};
use std::alloc::Global;

/// `Pool::into_blocks`, of a pool with a number of blocks: how many there are.
pub struct IntoBlocks;

impl Question for IntoBlocks {
    type On = usize;

    type Answer = usize;

    fn call(alloc: Global, on: &usize) -> Result<usize, Fault> {
        let blocks = Pool::<64>::open(alloc, *on)?.into_blocks(alloc)?;
        Ok(blocks.len())
    }
}

/// `Pool::from_blocks`, with two blocks of a list: the readers of the pool.
struct FromBlocks;

impl Act for FromBlocks {
    type State = Vec<Block<64>>;

    type Seen = Vec<usize>;

    type Answer = PoolSeen;

    /// The number of bytes of each block.
    fn readers(alloc: Global, state: &Vec<Block<64>>) -> Result<Vec<usize>, Fault> {
        let mut lengths = Vec::new(alloc);
        for block in state {
            lengths.push(block.len())?;
        }
        Ok(lengths)
    }

    fn call(&self, alloc: Global, state: &mut Vec<Block<64>>) -> Result<PoolSeen, Fault> {
        if state.len() < 2 {
            return Err(Fault::NoBlock);
        }
        let pool = Pool::from_blocks(alloc, state, 2)?;
        Ok(seen_pool(&pool, 0))
    }
}

/// Makes three blocks, no two with as many bytes.
fn three_blocks(alloc: Global) -> Result<Vec<Block<64>>, Fault> {
    let mut blocks = Vec::new(alloc);
    for bytes in [[7].as_slice(), &[7; 17], &[7; 33]] {
        let mut block = Block::<64>::new(alloc)?;
        block.push(bytes).ok_or(Fault::NoBlock)?;
        blocks.push(block)?;
    }
    Ok(blocks)
}

pub fn play_from_blocks(page: &mut Page) -> Result<(), Fault> {
    let mut blocks = three_blocks(page.alloc())?;
    let pool = tried(page, &FromBlocks, &mut blocks)?;
    page.line("answer", &pool);
    look::<FromBlocks>(page, "answer", &blocks)
}

/// Makes a pool of two blocks, which tag 0 reserves, and of which it owns the first.
#[tactic(auto, using(bs_pool::proofs::Owners::size_drawn))]
fn open_group(alloc: Global) -> Result<Pool<64>, Fault>
    ensures size { IfOk result (λ pool. size pool ≡ 2) }
    ensures tag { IfOk result (λ pool. pool.reservations ≡ record { tag = 0; blocks = 2 } ∷ []) }
{
    let mut pool = Pool::<64>::open(alloc, 2)?;
    pool.reserve(0, 2)?;
    drop(pool.draw(0));
    Ok(pool)
}

/// Lays such a pool into the assembly. Returns its new numbers too.
fn lay_group(
    alloc: Global,
    assembly: Assembly<64>,
    offset: u32,
) -> Result<(Assembly<64>, Vec<usize>), Fault>
    requires room { 2 ≤ assembly.missing }
    requires tag { reservation_of offset assembly.ledger ≡ None }
    ensures missing { IfOk result (λ done. done.0.missing ≡ assembly.missing - 2) }
    ensures tags { IfOk result (λ done. done.0.ledger.reservations ≡ assembly.ledger.reservations ++ record { tag = offset; blocks = 2 } ∷ []) }
{
    Ok(assembly.lay(alloc, open_group(alloc)?, offset)?)
}

/// The new numbers of two pools that were put together, and what the readers of the whole return.
#[derive(Debug, Drop)]
pub struct WholeSeen {
    first: Vec<usize>,
    second: Vec<usize>,
    whole: PoolSeen,
}

/// `Assembly::new`, `lay` and `finish`, of two such pools.
pub struct PutTogether;

impl Question for PutTogether {
    type On = ();

    type Answer = WholeSeen;

    fn call(alloc: Global, _on: &()) -> Result<WholeSeen, Fault> {
        let assembly = Assembly::<64>::new(alloc, 4, Vec::new(alloc))?;
        let (assembly, first) = lay_group(alloc, assembly, 0)?;
        let (assembly, second) = lay_group(alloc, assembly, 1)?;
        let pool = assembly.finish(alloc)?;
        Ok(WholeSeen {
            first,
            second,
            whole: seen_pool(&pool, 1),
        })
    }
}
