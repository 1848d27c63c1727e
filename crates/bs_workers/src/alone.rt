//! A core that one thread has by value, so that what each call does to it is known. Each command is
//! answered where it is. A run in order makes all acts in one such core: it compares nothing, and
//! ends.
ghost use Rattle.std.specs.Prelude.{◌≡◌, ◌+◌, ◌≤◌, ◌∷◌, ◌++◌, [], true, false, IfErr, IfOk, OnOk, IsTrue, map};
ghost use Rattle.std.specs.List.{filter_map};
ghost use Rattle.bs_pool.specs.Ledger.{size};
ghost use Rattle.bs_sched.specs.Answering.{CanAnswer, HasNoneWaiting};
ghost use Rattle.bs_sched.specs.Core.{opened_core};
ghost use Rattle.bs_sched.specs.Journal.{KeepsApart, setting_in};
ghost use Rattle.bs_sched.specs.Machine.{is_enabled};
ghost use Rattle.bs_sched.specs.declared.event.Event.TheVariants as event;
ghost use Rattle.bs_workers.specs.Acceptable.{MayBeMade};
ghost use Rattle.bs_workers.specs.Acts.{are_acceptable, capacity_of_core, command_in, opened};
ghost use Rattle.bs_workers.specs.Causes.{IsCause};
ghost use Rattle.bs_workers.specs.Run.{IsRunOf};
ghost use Rattle.bs_workers.specs.inner.Apart.{acts_at};
ghost use Rattle.bs_workers.specs.inner.Faults.{refused_fault};
ghost use Rattle.bs_workers.specs.inner.Making.{AreNext, IsCalm, IsNext, Makes, waiting_in};
ghost use Rattle.bs_workers.specs.declared.act.Act.TheVariants as act;

use crate::act::Act;
use crate::fault::Run;
use crate::gate::Gate;
use bs_board::Row;
use bs_fiber::{JobKind, JobName, SharedCommand};
use bs_sched::{Admit, Core, Leave, NextCommand};
use std::alloc::Global;

/// The fault of a run whose core refuses an admission.
fn fault_of(refusal: Admit) -> Run
    ensures { result ≡ refused_fault refusal }
{
    match refusal {
        Admit::Memory => Run::Memory,
        Admit::NameOpen => Run::Broken,
        Admit::Full => Run::Broken,
        Admit::Short { .. } => Run::Broken,
    }
}

/// A core, and the thread that makes its acts and runs its jobs.
#[derive(Drop)]
pub(crate) struct Alone<'a, const CAP: usize, G> {
    pub(crate) alloc: Global,
    pub(crate) core: Core<CAP>,
    /// The row in the run that the core's row 0 is. The `Gate` sees the run's rows.
    pub(crate) first: u32,
    /// The worker in the core. The `Gate` gets its number as that of the thread.
    pub(crate) worker: usize,
    pub(crate) gate: &'a G,
}

impl<const CAP: usize, G: Gate> Alone<'_, CAP, G> {
    /// Whether the gate lets the job pass.
    #[inline(always)]
    pub(crate) fn may_run(&self, job: JobName) -> bool
        ensures { result ≡ false → G.may_refuse self.now.gate.now }
    {
        let game = job.game.saturating_add(self.first);
        self.gate.at(
            self.worker,
            JobName {
                kind: job.kind,
                game,
                part: job.part,
            },
        )
    }

    /// Whether the gate lets that many parts of the game's move pass, one after the other.
    fn may_run_parts(&self, game: u32, parts: u8) -> bool
        ensures { result ≡ false → G.may_refuse self.now.gate.now }
    {
        for part in 0..parts {
            let job = JobName {
                kind: JobKind::Part,
                game,
                part,
            };
            if !self.may_run(job) {
                return false;
            }
        }
        true
    }

    /// Whether the gate lets each job of the command pass, in their order.
    #[inline(always)]
    fn may_answer(&self, next: NextCommand) -> bool
        ensures { result ≡ false → G.may_refuse self.now.gate.now }
    {
        let game = next.game;
        let begin = JobName {
            kind: JobKind::Begin,
            game,
            part: 0,
        };
        let join = JobName {
            kind: JobKind::Join,
            game,
            part: 0,
        };
        if next.parts == 0 {
            return self.may_run(begin);
        }
        self.may_run(begin) && self.may_run_parts(game, next.parts) && self.may_run(join)
    }

    /// Answers that next command, so that one command fewer waits.
    #[inline(always)]
    pub(crate) fn answer(&mut self, next: NextCommand) -> Result<(), Run>
        requires { CanAnswer self.old.core self.old.worker next.game next.parts }
        ensures made { OnOk result (Makes [] self.old.core self.new.core) }
        ensures fewer { OnOk result (waiting_in self.new.core.games.lanes + 1 ≡ waiting_in self.old.core.games.lanes) }
        ensures worker { self.new.worker ≡ self.old.worker }
        ensures gate { self.new.gate ≡ self.old.gate }
        ensures cause { IfErr result (IsCause (G.may_refuse self.old.gate.now)) }
    {
        if !self.may_answer(next) {
            return Err(Run::Broken);
        }
        Ok(self.core.answer_here(self.alloc, self.worker, next)?)
    }

    /// Answers the next command, so that one command fewer waits. Returns false if none waits.
    #[inline(always)]
    fn step(&mut self) -> Result<bool, Run>
        requires { self.old.worker ≤ self.old.core.games.workers }
        ensures made { OnOk result (Makes [] self.old.core self.new.core) }
        ensures fewer { IfOk result (λ more. more ≡ true → waiting_in self.new.core.games.lanes + 1 ≡ waiting_in self.old.core.games.lanes) }
        ensures none { IfOk result (λ more. more ≡ false → HasNoneWaiting self.new.core self.old.worker) }
        ensures worker { self.new.worker ≡ self.old.worker }
        ensures gate { self.new.gate ≡ self.old.gate }
        ensures cause { IfErr result (IsCause (G.may_refuse self.old.gate.now)) }
    {
        let Some(next) = self.core.next_command(self.worker) else {
            return Ok(false);
        };
        self.answer(next)?;
        Ok(true)
    }

    /// Answers all commands that wait, one in each turn of the loop.
    #[tactic(auto, using(crate::proofs::MadeActs::makes_none, crate::proofs::MadeActs::makes_after))]
    pub(crate) fn answer_all(&mut self) -> Result<(), Run>
        requires { self.old.worker ≤ self.old.core.games.workers }
        ensures made { OnOk result (Makes [] self.old.core self.new.core) }
        ensures none { OnOk result (HasNoneWaiting self.new.core self.old.worker) }
        ensures worker { self.new.worker ≡ self.old.worker }
        ensures gate { self.new.gate ≡ self.old.gate }
        ensures cause { IfErr result (IsCause (G.may_refuse self.old.gate.now)) }
    {
        'commands: while self.step()? {}
        Ok(())
    }

    /// Queues the command for the game of that row. `Broken` if the stay is not open.
    #[inline(always)]
    fn hand(&mut self, stay: usize, command: SharedCommand) -> Result<(), Run>
        ensures made { OnOk result (Makes (act.Hand stay command ∷ []) self.old.core self.new.core) }
        ensures journal { OnOk result (self.new.core.journal ≡ self.old.core.journal ++ event.Hand stay command ∷ []) }
        ensures worker { self.new.worker ≡ self.old.worker }
        ensures gate { self.new.gate ≡ self.old.gate }
        ensures cause { is_enabled (setting_in CAP self.old.core) self.old.core.games.lanes (event.Hand stay command) ≡ true
            → IfErr result (IsCause (G.may_refuse self.old.gate.now)) }
    {
        if stay >= self.core.rows() || !self.core.is_open(stay) {
            return Err(Run::Broken);
        }
        Ok(self.core.hand(stay, command)?)
    }

    /// Admits a game. `Broken` if the core refuses it for a reason other than memory.
    fn admit(&mut self, row: Row) -> Result<(), Run>
        ensures made { OnOk result (Makes (act.Admit row ∷ []) self.old.core self.new.core) }
        ensures worker { self.new.worker ≡ self.old.worker }
        ensures gate { self.new.gate ≡ self.old.gate }
        ensures cause { is_enabled (setting_in CAP self.old.core) self.old.core.games.lanes (event.Admit row) ≡ true
            → IfErr result (IsCause (G.may_refuse self.old.gate.now)) }
    {
        match self.core.admit(self.alloc, row) {
            Ok(_) => Ok(()),
            Err(refusal) => Err(fault_of(refusal)),
        }
    }

    /// Dismisses the game of that row. `Broken` if it has left or has something left to do.
    fn leave(&mut self, stay: usize) -> Result<(), Run>
        ensures made { OnOk result (Makes (act.Leave stay ∷ []) self.old.core self.new.core) }
        ensures worker { self.new.worker ≡ self.old.worker }
        ensures gate { self.new.gate ≡ self.old.gate }
        ensures cause { is_enabled (setting_in CAP self.old.core) self.old.core.games.lanes (event.Leave stay) ≡ true
            → IfErr result (IsCause (G.may_refuse self.old.gate.now)) }
    {
        if stay >= self.core.rows() {
            return Err(Run::Broken);
        }
        match self.core.leave(self.alloc, stay) {
            Ok(()) => Ok(()),
            Err(Leave::Memory) => Err(Run::Memory),
            Err(_) => Err(Run::Broken),
        }
    }

    /// Does nothing. Gives the prover that an act may be made if it is acceptable after those that
    /// the core has made.
    fn keeps_acceptable(&self, next: &Act)
        ensures { IsNext CAP self.now.core next.now → MayBeMade (setting_in CAP self.now.core) self.now.core.games.lanes next.now }
    {
        let _journal = self.core.journal();
    }

    /// Makes the act. Before a game leaves, all commands are answered.
    #[tactic(auto, using(crate::proofs::MadeActs::makes_after))]
    fn make(&mut self, next: &Act) -> Result<(), Run>
        requires { self.old.worker ≤ self.old.core.games.workers }
        ensures made { OnOk result (Makes (next.now ∷ []) self.old.core self.new.core) }
        ensures worker { self.new.worker ≡ self.old.worker }
        ensures gate { self.new.gate ≡ self.old.gate }
        ensures cause { IsCalm self.old.core → IsNext CAP self.old.core next.now
            → IfErr result (IsCause (G.may_refuse self.old.gate.now)) }
    {
        match next {
            Act::Hand(stay, command) => {
                self.keeps_acceptable(next);
                self.hand(*stay, command.share()?)
            }
            Act::Admit(row) => {
                self.keeps_acceptable(next);
                self.admit(row.get().copy(self.alloc)?)
            }
            Act::Leave(stay) => {
                self.answer_all()?;
                self.keeps_acceptable(next);
                self.leave(*stay)
            }
        }
    }

    /// Queues the act's command in the core's row 0, if it is for that row of the run.
    fn queue_if_for(&mut self, row: usize, act: &Act) -> Result<(), Run>
        ensures journal { OnOk result (self.new.core.journal
            ≡ self.old.core.journal ++ map (event.Hand 0) (filter_map (command_in row) (act.now ∷ []))) }
        ensures worker { self.new.worker ≡ self.old.worker }
    {
        match act {
            Act::Hand(stay, command) => {
                if *stay != row {
                    return Ok(());
                }
                self.hand(0, command.share()?)
            }
            Act::Admit(_) => Ok(()),
            Act::Leave(_) => Ok(()),
        }
    }

    /// Queues the commands of the acts at these places in the core's row 0, if they are for that
    /// row of the run.
    pub(crate) fn queue(&mut self, row: usize, acts: &[Act], places: &[usize]) -> Result<(), Run>
        ensures journal { OnOk result (self.new.core.journal
            ≡ self.old.core.journal ++ map (event.Hand 0) (filter_map (command_in row) (acts_at acts.now places.now))) }
        ensures worker { self.new.worker ≡ self.old.worker }
    {
        for place in places {
            let Some(act) = acts.get(*place) else {
                return Err(Run::Broken);
            };
            self.queue_if_for(row, act)?;
        }
        Ok(())
    }

    /// Whether the core has no event yet.
    pub(crate) fn is_new(&self) -> bool
        ensures { IsTrue result → self.now.core.journal ≡ [] }
    {
        self.core.journal().is_empty()
    }

    /// Makes the acts in order, and answers all commands.
    #[tactic(auto, using(crate::proofs::MadeActs::makes_none, crate::proofs::MadeActs::makes_next, crate::proofs::MadeActs::makes_all))]
    fn make_all(&mut self, acts: &[Act]) -> Result<(), Run>
        requires { self.old.worker ≤ self.old.core.games.workers }
        ensures made { OnOk result (Makes acts.now self.old.core self.new.core) }
        ensures none { OnOk result (HasNoneWaiting self.new.core self.old.worker) }
        ensures cause { IsCalm self.old.core → AreNext CAP self.old.core acts.now
            → IfErr result (IsCause (G.may_refuse self.old.gate.now)) }
    {
        for next in acts {
            self.make(next)?;
        }
        self.answer_all()?;
        Ok(())
    }
}

/// Does nothing. Gives the prover the stays of a core, which its journal determines.
pub(crate) fn keeps_apart<const CAP: usize>(core: &Core<CAP>)
    ensures { KeepsApart CAP core.now }
{
    let _journal = core.journal();
}

/// Like `run_any`, on the calling thread, act by act in one core. If the acts are acceptable, only a
/// gate that may refuse makes the run `Broken`.
pub(crate) fn run_in_order<const CAP: usize, G: Gate>(
    alloc: Global,
    core: Core<CAP>,
    acts: &[Act],
    gate: &G,
) -> Result<Core<CAP>, Run>
    requires { core
        ≡ opened_core CAP (size core.games.storage.pool) core.games.workers core.games.rows }
    ensures run { IfOk result (λ done. IsRunOf core.entry acts.now done) }
    ensures cause { are_acceptable (capacity_of_core CAP core.entry) (opened core.entry.games.rows) acts.now ≡ true
        → IfErr result (IsCause (G.may_refuse gate.now)) }
{
    let mut alone = Alone {
        alloc,
        core,
        first: 0,
        worker: 0,
        gate,
    };
    alone.make_all(acts)?;
    let Alone { core, .. } = alone;
    keeps_apart(&core);
    Ok(core)
}
