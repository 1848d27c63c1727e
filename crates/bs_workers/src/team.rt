//! The threads of one game: they run the parts of a move at the same time.
ghost use Rattle.std.proofs.Props.{props};
ghost use Rattle.std.specs.Thread.{IsSync};
ghost use Rattle.std.specs.Prelude.{◌≡◌, false, IfErr, IfOk, OnOk};
ghost use Rattle.bs_fiber.specs.Tickets.{IsFresh};
ghost use Rattle.bs_fiber.specs.declared.job.JobKind.TheVariants as kind;
ghost use Rattle.bs_workers.specs.inner.Apart.{GoesOn};
ghost use Rattle.bs_workers.specs.inner.Stops.{IsStopCause};

use crate::gate::Gate;
use crate::stop::Stop;
use arrayvec::ArrayVec;
use bs_counter::{Finish, PartKey};
use bs_fiber::{Done, JobName, Ticket, work};
use bs_sched::{Core, Taken};
use std::alloc::Global;
use std::sync::Mutex;
use std::thread::{Threads, join};

/// The results of all parts of a move, in part order.
type Parts<const CAP: usize> = ArrayVec<Option<Done<CAP>>, 4>;

/// What threads return: the results of all parts, if one of them finished the last part.
type Ended<const CAP: usize> = Result<Option<Parts<CAP>>, Stop>;

/// A part that was taken, with its key.
#[derive(Drop)]
struct PartJob<const CAP: usize> {
    ticket: Ticket<CAP>,
    key: PartKey<Done<CAP>>,
    ghost fresh: { IsFresh ticket },
    ghost its_key: { (ticket.input.job.kind ≡ kind.Part) × (key.part ≡ ticket.input.job.part) } by { Prim.hlevel props },
}

/// The parts that the thread of that number runs, one after the other: at most two, since a move
/// has at most four and is shared by at least two threads.
#[derive(Drop)]
struct Share<const CAP: usize> {
    thread: usize,
    first: Option<PartJob<CAP>>,
    second: Option<PartJob<CAP>>,
}

impl<const CAP: usize> Share<CAP> {
    fn new(thread: usize) -> Self {
        Share {
            thread,
            first: None,
            second: None,
        }
    }

    /// Adds the part. Returns false if there is no room.
    fn put(&mut self, job: PartJob<CAP>) -> bool {
        if self.first.is_none() {
            self.first = Some(job);
            return true;
        }
        if self.second.is_none() {
            self.second = Some(job);
            return true;
        }
        false
    }

    fn is_empty(&self) -> bool {
        self.first.is_none()
    }
}

/// A share that waits for the thread that runs it.
#[derive(Drop)]
struct Slot<const CAP: usize> {
    /// Whether no thread is needed for it.
    is_empty: bool,
    share: Mutex<Option<Share<CAP>>>,
}

impl<const CAP: usize> Slot<CAP> {
    fn new(share: Share<CAP>) -> Self {
        Slot {
            is_empty: share.is_empty(),
            share: Mutex::new(Some(share)),
        }
    }

    /// Takes the share, if no thread has taken it yet.
    fn take(&self) -> Option<Share<CAP>> {
        let mut share = self.share.try_lock()?;
        share.take()
    }
}

/// The parts of a move, shared out to threads 0 to 3.
#[derive(Drop)]
struct Shares<const CAP: usize> {
    first: Share<CAP>,
    second: Share<CAP>,
    third: Share<CAP>,
    fourth: Share<CAP>,
}

impl<const CAP: usize> Shares<CAP> {
    fn new() -> Self {
        Shares {
            first: Share::new(0),
            second: Share::new(1),
            third: Share::new(2),
            fourth: Share::new(3),
        }
    }

    /// Adds the part to those of that thread. Returns false if there is no room.
    fn put(&mut self, thread: usize, job: PartJob<CAP>) -> bool {
        match thread {
            0 => self.first.put(job),
            1 => self.second.put(job),
            2 => self.third.put(job),
            3 => self.fourth.put(job),
            _ => false,
        }
    }
}

/// The threads of one game, the caller's included, which is number 0. Each has the worker of its
/// number.
#[derive(Drop)]
pub(crate) struct Team<'a, R, G> {
    pub(crate) rt: &'a R,
    pub(crate) alloc: Global,
    pub(crate) gate: &'a G,
    /// The row of the game in the run. The `Gate` sees the run's rows.
    pub(crate) row: u32,
    /// How many threads there are.
    pub(crate) threads: usize,
}

impl<R: Threads + Sync, G: Gate> Team<'_, R, G> {
    /// Whether the gate lets the thread run the job.
    fn may_run(&self, thread: usize, job: JobName) -> bool
        ensures { result ≡ false → G.may_refuse self.now.gate.now }
    {
        self.gate.at(
            thread,
            JobName {
                kind: job.kind,
                game: self.row,
                part: job.part,
            },
        )
    }

    /// Runs the job as that thread, if the gate lets it.
    fn run_ticket<const CAP: usize>(
        &self,
        thread: usize,
        ticket: Ticket<CAP>,
    ) -> Result<Done<CAP>, Stop>
        requires { IsFresh ticket }
        ensures input { IfOk result (λ done. done.input ≡ ticket.entry.input) }
        ensures cause { IfErr result (IsStopCause (G.may_refuse self.now.gate.now)) }
    {
        if !self.may_run(thread, ticket.job()) {
            return Err(Stop::Refused);
        }
        match work(self.alloc, ticket) {
            Ok(done) => Ok(done),
            Err(_) => Err(Stop::Memory),
        }
    }

    /// Runs a part, and finishes it by its key.
    fn run_part<const CAP: usize>(&self, thread: usize, job: PartJob<CAP>) -> Ended<CAP>
        ensures cause { IfErr result (IsStopCause (G.may_refuse self.now.gate.now)) }
    {
        let PartJob { ticket, key } = job;
        let done = self.run_ticket(thread, ticket)?;
        match key.finish(done) {
            Finish::More(_) => Ok(None),
            Finish::Last(parts) => Ok(Some(parts)),
        }
    }

    /// Runs the parts of a share, the second one only if the first was run.
    fn run_share<const CAP: usize>(&self, share: Share<CAP>) -> Ended<CAP>
        ensures cause { IfErr result (IsStopCause (G.may_refuse self.now.gate.now)) }
    {
        let Share {
            thread,
            first,
            second,
        } = share;
        let Some(job) = first else {
            return Ok(None);
        };
        let last = self.run_part(thread, job)?;
        match second {
            Some(job) => self.run_part(thread, job),
            None => Ok(last),
        }
    }

    /// What threads return together. If several stopped, one reason is kept.
    fn both<const CAP: usize>(&self, one: Ended<CAP>, other: Ended<CAP>) -> Ended<CAP>
        requires one { IfErr one (IsStopCause (G.may_refuse self.now.gate.now)) }
        requires other { IfErr other (IsStopCause (G.may_refuse self.now.gate.now)) }
        ensures cause { IfErr result (IsStopCause (G.may_refuse self.now.gate.now)) }
    {
        match one {
            Ok(parts) => match other {
                Ok(more) => Ok(parts.or(more)),
                Err(stop) => Err(stop),
            },
            Err(stop) => match other {
                Ok(_) => Err(stop),
                Err(later) => Err(later.after(Some(stop))),
            },
        }
    }

    /// Runs the share of a slot.
    fn run_slot<const CAP: usize>(&self, slot: &Slot<CAP>) -> Ended<CAP>
        ensures cause { IfErr result (IsStopCause (G.may_refuse self.now.gate.now)) }
    {
        match slot.take() {
            Some(share) => self.run_share(share),
            None => Err(Stop::Failed),
        }
    }

    /// Runs two shares, the second one in a thread of its own if it has a part.
    fn run_two<const CAP: usize>(&self, one: &Slot<CAP>, other: &Slot<CAP>) -> Ended<CAP>
        ensures cause { IfErr result (IsStopCause (G.may_refuse self.now.gate.now)) }
    {
        if other.is_empty {
            return self.run_slot(one);
        }
        let back = || -> Ended<CAP>
            requires { IsSync R.row }
            ensures { IfErr result (IsStopCause (G.may_refuse self.entry.now.gate.now)) }
        { self.run_slot(other) };
        let front = || -> Ended<CAP>
            requires { IsSync R.row }
            ensures { IfErr result (IsStopCause (G.may_refuse self.entry.now.gate.now)) }
        { self.run_slot(one) };
        let (later, earlier) = join(self.rt, back, front);
        self.both(earlier, later)
    }

    /// Runs all shares, each but the first in a thread of its own if it has a part.
    fn run_four<const CAP: usize>(
        &self,
        first: &Slot<CAP>,
        second: &Slot<CAP>,
        third: &Slot<CAP>,
        fourth: &Slot<CAP>,
    ) -> Ended<CAP>
        ensures cause { IfErr result (IsStopCause (G.may_refuse self.now.gate.now)) }
    {
        if third.is_empty {
            return self.run_two(first, second);
        }
        let back = || -> Ended<CAP>
            requires { IsSync R.row }
            ensures { IfErr result (IsStopCause (G.may_refuse self.entry.now.gate.now)) }
        { self.run_two(third, fourth) };
        let front = || -> Ended<CAP>
            requires { IsSync R.row }
            ensures { IfErr result (IsStopCause (G.may_refuse self.entry.now.gate.now)) }
        { self.run_two(first, second) };
        let (later, earlier) = join(self.rt, back, front);
        self.both(earlier, later)
    }

    /// Runs all shares, each by the thread of its number.
    fn run_shares<const CAP: usize>(&self, shares: Shares<CAP>) -> Ended<CAP>
        ensures cause { IfErr result (IsStopCause (G.may_refuse self.now.gate.now)) }
    {
        let Shares {
            first,
            second,
            third,
            fourth,
        } = shares;
        let first = Slot::new(first);
        let second = Slot::new(second);
        let third = Slot::new(third);
        let fourth = Slot::new(fourth);
        self.run_four(&first, &second, &third, &fourth)
    }

    /// Takes a Begin or a Join for the caller's worker.
    fn take_job<const CAP: usize>(&self, core: &mut Core<CAP>) -> Result<Ticket<CAP>, Stop>
        ensures made { OnOk result (GoesOn core.old core.new) }
        ensures fresh { IfOk result (λ ticket. IsFresh ticket) }
        ensures cause { IfErr result (IsStopCause (G.may_refuse self.now.gate.now)) }
    {
        match core.take(self.alloc, 0)? {
            Taken::Job(ticket) => Ok(ticket),
            _ => Err(Stop::Failed),
        }
    }

    /// Completes a Begin or a Join of the caller's worker.
    fn put_job<const CAP: usize>(&self, core: &mut Core<CAP>, done: Done<CAP>) -> Result<(), Stop>
        ensures made { OnOk result (GoesOn core.old core.new) }
        ensures cause { IfErr result (IsStopCause (G.may_refuse self.now.gate.now)) }
    {
        match core.put(0, done) {
            Ok(()) => Ok(()),
            Err(_) => Err(Stop::Failed),
        }
    }

    /// Takes a Begin or a Join, runs it and completes it, on the calling thread.
    fn run_job<const CAP: usize>(&self, core: &mut Core<CAP>) -> Result<(), Stop>
        ensures made { OnOk result (GoesOn core.old core.new) }
        ensures cause { IfErr result (IsStopCause (G.may_refuse self.now.gate.now)) }
    {
        let ticket = self.take_job(core)?;
        let done = self.run_ticket(0, ticket)?;
        self.put_job(core, done)?;
        Ok(())
    }

    /// Takes a part for that worker.
    fn take_part<const CAP: usize>(
        &self,
        core: &mut Core<CAP>,
        worker: usize,
    ) -> Result<PartJob<CAP>, Stop>
        ensures made { OnOk result (GoesOn core.old core.new) }
        ensures cause { IfErr result (IsStopCause (G.may_refuse self.now.gate.now)) }
    {
        if worker > core.workers() {
            return Err(Stop::Failed);
        }
        match core.take(self.alloc, worker)? {
            Taken::Part(ticket, key) => Ok(PartJob { ticket, key }),
            _ => Err(Stop::Failed),
        }
    }

    /// Takes all parts of a move, part by part for the workers of the threads by turns.
    #[tactic(auto, using(crate::proofs::GoneOn::goes_on_none, crate::proofs::GoneOn::goes_on_both))]
    fn take_parts<const CAP: usize>(
        &self,
        core: &mut Core<CAP>,
        parts: usize,
    ) -> Result<Shares<CAP>, Stop>
        ensures made { OnOk result (GoesOn core.old core.new) }
        ensures cause { IfErr result (IsStopCause (G.may_refuse self.now.gate.now)) }
    {
        let mut shares = Shares::new();
        for part in 0..parts {
            let thread = part % self.threads.max(1);
            let job = self.take_part(core, thread)?;
            if !shares.put(thread, job) {
                return Err(Stop::Failed);
            }
        }
        Ok(shares)
    }

    /// Completes all parts of a move, which the last finisher had.
    #[tactic(auto, using(crate::proofs::GoneOn::goes_on_parts))]
    fn put_parts<const CAP: usize>(
        &self,
        core: &mut Core<CAP>,
        parts: Option<Parts<CAP>>,
    ) -> Result<(), Stop>
        ensures made { OnOk result (GoesOn core.old core.new) }
        ensures cause { IfErr result (IsStopCause (G.may_refuse self.now.gate.now)) }
    {
        let Some(parts) = parts else {
            return Err(Stop::Failed);
        };
        match core.put_parts(parts) {
            Ok(()) => Ok(()),
            Err(_) => Err(Stop::Failed),
        }
    }

    /// Answers the next command, a move of that many parts: the threads run the parts, the caller
    /// the Begin and the Join.
    pub(crate) fn answer<const CAP: usize>(
        &self,
        core: &mut Core<CAP>,
        parts: usize,
    ) -> Result<(), Stop>
        ensures made { OnOk result (GoesOn core.old core.new) }
        ensures cause { IfErr result (IsStopCause (G.may_refuse self.now.gate.now)) }
    {
        self.run_job(core)?;
        let shares = self.take_parts(core, parts)?;
        let ended = self.run_shares(shares)?;
        self.put_parts(core, ended)?;
        self.run_job(core)?;
        Ok(())
    }
}
