//! A run: each stay is played in a core of its own, then the stays are put together.
ghost use Rattle.std.specs.Prelude.{◌≡◌, ◌≢◌, ◌+◌, ◌≤◌, ◌++◌, ◌∷◌, [], true, IfErr, IfOk, IfSome, IsTrue, OnOk, length, map, Some};
ghost use Rattle.bs_pool.specs.Ledger.{size};
ghost use Rattle.bs_sched.specs.Assembly.{setting_with};
ghost use Rattle.bs_sched.specs.Core.{CoreView};
ghost use Rattle.bs_sched.specs.SharedMemory.{IsHosted};
ghost use Rattle.bs_sched.specs.StaysHeld.{blocks_held};
ghost use Rattle.bs_sched.specs.declared.cores.TheConstants.{MOST_WORKERS};
ghost use Rattle.bs_workers.specs.Acts.{are_acceptable, opened};
ghost use Rattle.bs_workers.specs.Run.{IsRunOf};
ghost use Rattle.bs_workers.specs.inner.Stays.{AreListed, ArePlayedStays};
ghost use Rattle.bs_workers.specs.inner.Stops.{IsStopCause};
ghost use Rattle.bs_workers.specs.declared.stop.Stop.TheVariants as reason;

use crate::act::Act;
use crate::alone::keeps_apart;
use crate::boxed::BoxedStay;
use crate::gate::Gate;
use crate::player::Player;
use crate::request::Request;
use crate::stays::Stays;
use crate::stop::Stop;
use bs_block::Block;
use bs_sched::{Core, LoneStay, Rest};
use std::alloc::{AllocError, Global};
use std::thread::Threads;

fn put_stay<const CAP: usize>(
    stays: &mut Vec<LoneStay<CAP>>,
    stay: LoneStay<CAP>,
) -> Result<(), AllocError>
    ensures { OnOk result (stays.new.items ≡ stays.old.items ++ stay.entry ∷ []) }
{
    Ok(stays.push(stay)?)
}

/// The stays in the order of their rows. `Failed` if one was not played.
fn in_order<const CAP: usize>(
    alloc: Global,
    slots: Vec<Option<BoxedStay<CAP>>>,
) -> Result<Vec<LoneStay<CAP>>, Stop>
    ensures all { IfOk result (λ stays. map Some stays.items ≡ slots.entry.items) }
    ensures cause { IfErr result (λ stop. stop ≢ reason.Refused) }
{
    let mut stays = Vec::with_capacity(alloc, slots.len())?;
    for slot in slots {
        match slot {
            Some(stay) => put_stay(&mut stays, stay.into_inner())?,
            None => return Err(Stop::Failed),
        }
    }
    Ok(stays)
}

/// The number of the blocks that the stays have, if it is a number of the machine.
fn held_by<const CAP: usize>(stays: &[LoneStay<CAP>]) -> Option<usize>
    ensures { IfSome result (λ held. held ≡ blocks_held stays.now) }
{
    let mut held = 0usize;
    for stay in stays {
        held = held.checked_add(stay.blocks())?;
    }
    Some(held)
}

/// Whether the stays and the free blocks are all blocks.
fn have_all<const CAP: usize>(rest: &Rest<CAP>, stays: &[LoneStay<CAP>]) -> bool
    ensures { IsTrue result → length rest.now.free.items + blocks_held stays.now ≡ rest.now.blocks }
{
    match held_by(stays) {
        Some(held) => rest.free.len().checked_add(held) == Some(rest.blocks),
        None => false,
    }
}

/// Puts stays together that were played, and looks whether all is done.
fn put_together<const CAP: usize>(
    alloc: Global,
    rest: Rest<CAP>,
    acts: &[Act],
    stays: Stays,
    played: Vec<LoneStay<CAP>>,
) -> Result<Core<CAP>, Stop>
    requires workers { rest.workers ≤ MOST_WORKERS }
    requires hosted { IsHosted (setting_with CAP rest.blocks rest.workers) rest.rows }
    requires acceptable { are_acceptable (record { cap = CAP; blocks = rest.blocks }) (opened rest.rows) acts.now ≡ true }
    requires listed { AreListed rest.rows acts.now stays }
    requires played { ArePlayedStays CAP rest.workers acts.now stays (map Some played.items) }
    ensures run { (old : CoreView) → rest.entry.rows ≡ old.games.rows → rest.entry.blocks ≡ size old.games.storage.pool
        → IfOk result (λ done. IsRunOf old acts.now done) }
    ensures cause { IfErr result (λ stop. stop ≢ reason.Refused) }
{
    if played.len() != stays.rows.len() || !have_all(&rest, played.as_slice()) {
        return Err(Stop::Failed);
    }
    let blocks = rest.blocks;
    let Stays { order, .. } = stays;
    let core = Core::assemble_stays(alloc, rest, played, order)?;
    if !core.is_quiet() || core.counts().size != blocks {
        return Err(Stop::Failed);
    }
    keeps_apart(&core);
    Ok(core)
}

impl<R: Threads + Sync, G: Gate> Request<'_, R, G> {
    /// Runs acceptable acts in a newly opened core that was taken apart, each thread with a worker
    /// number of its own.
    pub(crate) fn run_apart<const CAP: usize>(&self, rest: Rest<CAP>) -> Result<Core<CAP>, Stop>
        requires workers { rest.workers ≤ MOST_WORKERS }
        requires hosted { IsHosted (setting_with CAP rest.blocks rest.workers) rest.rows }
        requires acceptable { are_acceptable (record { cap = CAP; blocks = rest.blocks }) (opened rest.rows) self.now.acts.now ≡ true }
        ensures run { (old : CoreView) → rest.entry.rows ≡ old.games.rows → rest.entry.blocks ≡ size old.games.storage.pool
            → IfOk result (λ done. IsRunOf old self.now.acts.now done) }
        ensures cause { IfErr result (IsStopCause (G.may_refuse self.now.gate.now)) }
    {
        let Rest {
            rows,
            workers,
            blocks,
            free,
        } = rest;
        let stays = Stays::of_acts(self.alloc, &rows, self.acts)?;
        let player = Player {
            rt: self.rt,
            alloc: self.alloc,
            acts: self.acts,
            stays: &stays,
            workers,
            gate: self.gate,
        };
        let table = player.play_all(self.threads, free)?;
        let played = in_order(self.alloc, table.slots)?;
        let rest = Rest {
            rows,
            workers,
            blocks,
            free: table.free,
        };
        Ok(put_together(self.alloc, rest, self.acts, stays, played)?)
    }
}
