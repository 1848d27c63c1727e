//! Stays that were played alone, gathered one after the other: their games, journals and blocks.
ghost use Rattle.std.specs.Prelude.{◌≡◌, ◌<◌, IfOk};
ghost use Rattle.bs_sched.specs.inner.LoneStays.{AreNextStays, AreNumbersOf, HasRoom, IsNextStay, gathered_stay, gathered_stays, laid_if, stays_in};

use crate::game::Game;
use crate::lone_stay::LoneStay;
use crate::packed::Packed;
use crate::plan_blocks::record_tag;
use bs_pool::{Assembly, Pool};
use bs_registry::MOST_STAYS;
use std::alloc::{AllocError, Global};

/// The games, the journals and the blocks of the stays so far.
#[derive(Drop)]
pub(crate) struct GatheredStays<const CAP: usize> {
    pub(crate) list: Vec<Game<CAP>>,
    pub(crate) journals: Vec<Packed>,
    pub(crate) assembly: Assembly<CAP>,
}

/// Lays the blocks of the stay of that row into the free numbers, if it has any. Also returns the
/// new number of each.
fn lay_blocks<const CAP: usize>(
    alloc: Global,
    assembly: Assembly<CAP>,
    pool: Option<Pool<CAP>>,
    row: usize,
) -> Result<(Assembly<CAP>, Vec<usize>), AllocError>
    requires few { row < MOST_STAYS }
    requires room { HasRoom row pool assembly }
    ensures assembly { IfOk result (λ done. done.0 ≡ laid_if row pool.entry assembly.entry) }
    ensures numbers { IfOk result (λ done. AreNumbersOf pool.entry assembly.entry.ledger.owners done.1.items) }
{
    match pool {
        None => Ok((assembly, Vec::new(alloc))),
        Some(pool) => assembly.lay(alloc, pool, record_tag(row)),
    }
}

impl<const CAP: usize> GatheredStays<CAP> {
    /// Adds the stay of that row, the next one: its game gets the row, and its blocks the free
    /// numbers in order. The error is the allocator's.
    fn with_stay(self, alloc: Global, row: usize, stay: LoneStay<CAP>) -> Result<Self, AllocError>
        requires { IsNextStay row stay (stays_in self.list.items self.journals.items self.assembly) }
        ensures { IfOk result (λ done. stays_in done.list.items done.journals.items done.assembly
            ≡ gathered_stay row stay.entry (stays_in self.entry.list.items self.entry.journals.items self.entry.assembly)) }
    {
        let GatheredStays {
            mut list,
            mut journals,
            assembly,
        } = self;
        let LoneStay {
            mut game,
            journal,
            pool,
        } = stay;
        journals.push(journal.into_packed(alloc)?)?;
        let (assembly, numbers) = lay_blocks(alloc, assembly, pool, row)?;
        game.rename(row, numbers.as_slice());
        list.push(game)?;
        Ok(GatheredStays {
            list,
            journals,
            assembly,
        })
    }
}

/// Gathers the stays, the first of which has row 0.
pub(crate) fn gather_stays<const CAP: usize>(
    alloc: Global,
    mut gathered: GatheredStays<CAP>,
    stays: Vec<LoneStay<CAP>>,
) -> Result<GatheredStays<CAP>, AllocError>
    requires { AreNextStays 0 stays.items (stays_in gathered.list.items gathered.journals.items gathered.assembly) }
    ensures { IfOk result (λ done. stays_in done.list.items done.journals.items done.assembly
        ≡ gathered_stays 0 stays.entry.items (stays_in gathered.entry.list.items gathered.entry.journals.items gathered.entry.assembly)) }
{
    let mut row = 0;
    for stay in stays {
        gathered = gathered.with_stay(alloc, row, stay)?;
        row += 1;
    }
    Ok(gathered)
}
