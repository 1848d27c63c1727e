//! A run: every act is made, and every command answered.
ghost use Rattle.std.specs.Prelude.{◌≡◌, ◌≤◌, false, true, IfErr, IfOk, IsTrue};
ghost use Rattle.bs_block.specs.Bytes.{IsCapacity};
ghost use Rattle.bs_pool.specs.Ledger.{size};
ghost use Rattle.bs_sched.specs.Assembly.{setting_with};
ghost use Rattle.bs_sched.specs.Core.{CoreView, opened_core};
ghost use Rattle.bs_sched.specs.SharedMemory.{IsHosted};
ghost use Rattle.bs_sched.specs.declared.cores.TheConstants.{MOST_WORKERS};
ghost use Rattle.bs_workers.specs.Acts.{are_acceptable, capacity_of_core, opened};
ghost use Rattle.bs_workers.specs.Causes.{IsCause};
ghost use Rattle.bs_workers.specs.declared.fault.Run.TheVariants as cause;
ghost use Rattle.bs_workers.specs.Run.{IsRunOf};

use crate::acceptable::are_acceptable;
use crate::act::Act;
use crate::alone::run_in_order;
use crate::fault::Run;
use crate::gate::Gate;
use crate::request::Request;
use crate::stop::Stop;
use bs_block::{MOST_CAPACITY, UNIT};
use bs_board::{Plan, Rows, Version};
use bs_sched::{Core, Open, Rest};
use std::alloc::{AllocError, Global};
use std::thread::Threads;

/// Whether cores with blocks of that capacity can be opened.
fn can_open<const CAP: usize>() -> bool
    ensures { IsTrue result → IsCapacity CAP }
{
    CAP % UNIT == 0 && CAP >= UNIT && CAP <= MOST_CAPACITY
}

/// What a newly opened core is opened with.
#[derive(Drop)]
struct Opening {
    rows: Rows,
    blocks: usize,
    workers: usize,
}

/// What the core was opened with.
fn opening_of<const CAP: usize>(alloc: Global, rest: &Rest<CAP>) -> Result<Opening, AllocError>
    ensures rows { IfOk result (λ given. given.rows ≡ rest.now.rows) }
    ensures blocks { IfOk result (λ given. given.blocks ≡ rest.now.blocks) }
    ensures workers { IfOk result (λ given. given.workers ≡ rest.now.workers) }
{
    Ok(Opening {
        rows: rest.rows.copy(alloc)?,
        blocks: rest.blocks,
        workers: rest.workers,
    })
}

/// Opens the core again. The first one was dropped, with its blocks.
fn open_again<const CAP: usize>(alloc: Global, given: Opening) -> Result<Core<CAP>, Run>
    requires capacity { IsCapacity CAP }
    requires workers { given.workers ≤ MOST_WORKERS }
    requires hosted { IsHosted (setting_with CAP given.blocks given.workers) given.rows }
    ensures core { IfOk result (λ core. core ≡ opened_core CAP given.blocks given.workers given.rows) }
    ensures cause { IfErr result (λ fault. fault ≡ cause.Memory) }
{
    let Opening {
        rows,
        blocks,
        workers,
    } = given;
    let plan = Plan {
        rows,
        version: Version::One,
    };
    match Core::open(alloc, plan, blocks, workers) {
        Ok(core) => Ok(core),
        Err(Open::Memory) => Err(Run::Memory),
        Err(Open::Short) => unreachable!(),
    }
}

impl<R: Threads + Sync, G: Gate> Request<'_, R, G> {
    /// Runs acceptable acts in a newly opened core that was taken apart. If a check of the run
    /// failed, the acts are run once more, in order.
    fn run<const CAP: usize>(&self, rest: Rest<CAP>) -> Result<Core<CAP>, Run>
        requires capacity { IsCapacity CAP }
        requires workers { rest.workers ≤ MOST_WORKERS }
        requires hosted { IsHosted (setting_with CAP rest.blocks rest.workers) rest.rows }
        requires acts { are_acceptable (record { cap = CAP; blocks = rest.blocks }) (opened rest.rows) self.now.acts.now ≡ true }
        ensures run { (old : CoreView) → old ≡ opened_core CAP rest.entry.blocks rest.entry.workers rest.entry.rows → rest.entry.rows ≡ old.games.rows
            → rest.entry.blocks ≡ size old.games.storage.pool → IfOk result (λ done. IsRunOf old self.now.acts.now done) }
        ensures cause { (old : CoreView) → old ≡ opened_core CAP rest.entry.blocks rest.entry.workers rest.entry.rows
            → are_acceptable (capacity_of_core CAP old) (opened old.games.rows) self.now.acts.now ≡ true → IfErr result (IsCause (G.may_refuse self.now.gate.now)) }
    {
        let given = opening_of(self.alloc, &rest)?;
        match self.run_apart(rest) {
            Ok(core) => Ok(core),
            Err(Stop::Memory) => Err(Run::Memory),
            Err(Stop::Refused) => Err(Run::Broken),
            Err(Stop::Failed) => {
                let core = open_again(self.alloc, given)?;
                run_in_order(self.alloc, core, self.acts, self.gate)
            }
        }
    }
}

/// Like `run`, for any acts. An act that the core refuses for a reason other than memory stops the
/// run with `Broken`. Acts that are not acceptable are made in order by the calling thread.
pub fn run_any<const CAP: usize, R: Threads + Sync, G: Gate>(
    rt: &R,
    alloc: Global,
    core: Core<CAP>,
    acts: &[Act],
    threads: usize,
    gate: &G,
) -> Result<Core<CAP>, Run>
    requires { core
        ≡ opened_core CAP (size core.games.storage.pool) core.games.workers core.games.rows }
    ensures run { IfOk result (λ done. IsRunOf core.entry acts.now done) }
    ensures cause { are_acceptable (capacity_of_core CAP core.entry) (opened core.entry.games.rows) acts.now ≡ true
        → IfErr result (IsCause (G.may_refuse gate.now)) }
{
    if !can_open::<CAP>() {
        return run_in_order(alloc, core, acts, gate);
    }
    let threads = threads.min(core.workers());
    let rest = core.into_rest(alloc)?;
    if !are_acceptable::<CAP>(alloc, &rest.rows, rest.blocks, acts)? {
        let given = opening_of(alloc, &rest)?;
        drop(rest);
        let core = open_again(alloc, given)?;
        return run_in_order(alloc, core, acts, gate);
    }
    let request = Request {
        rt,
        alloc,
        acts,
        threads,
        gate,
    };
    request.run(rest)
}

/// Makes the acts in order in a newly opened core, and answers all commands. At most `threads`
/// threads work at a time; they are at most as many as workers in the core, and no more than stays,
/// if there are several. While threads share the stays, the calling one waits for them. One thread
/// runs the commands of a single stay without moves. `gate` gets the number of the thread, from 0.
/// Each act must be acceptable in its place, judged by the open stays alone: a command and a leave
/// name an open stay; for an admitted row no open stay has its name, one more stay may be open, and
/// its blocks are free besides those reserved for the open stays.
pub fn run<const CAP: usize, R: Threads + Sync, G: Gate>(
    rt: &R,
    alloc: Global,
    core: Core<CAP>,
    acts: &[Act],
    threads: usize,
    gate: &G,
) -> Result<Core<CAP>, Run>
    requires fresh { core
        ≡ opened_core CAP (size core.games.storage.pool) core.games.workers core.games.rows }
    requires acts { are_acceptable (capacity_of_core CAP core) (opened core.games.rows) acts.now
        ≡ true }
    ensures run { IfOk result (λ done. IsRunOf core.entry acts.now done) }
    ensures cause { IfErr result (IsCause (G.may_refuse gate.now)) }
{
    if !can_open::<CAP>() {
        return run_in_order(alloc, core, acts, gate);
    }
    let threads = threads.min(core.workers());
    let rest = core.into_rest(alloc)?;
    let request = Request {
        rt,
        alloc,
        acts,
        threads,
        gate,
    };
    request.run(rest)
}
