//! Taking jobs: which job a worker gets, and the ticket with all that the job reads.
ghost use Rattle.std.specs.Prelude.{◌≡◌, ◌≤◌, true, IfOk, OnOk, OnErr};
ghost use Rattle.bs_fiber.specs.Tickets.{IsFresh, names_of};
ghost use Rattle.bs_sched.specs.Core.{core_taken};
ghost use Rattle.bs_sched.specs.Games.{KeepsTallies};
ghost use Rattle.bs_sched.specs.Inputs.{input_of, names_for};
ghost use Rattle.bs_sched.specs.Machine.{is_busy, is_enabled_there, lane_of};
ghost use Rattle.bs_sched.specs.Taking.{HasKeyOf, TakesAs};
ghost use Rattle.bs_sched.specs.inner.Taking.{AreNoneOpenReady, AreNoneReady, FindsJob};
ghost use Rattle.bs_sched.specs.declared.event.Event.TheVariants as event;

use crate::cores::Core;
use crate::event::Event;
use bs_counter::PartKey;
use bs_fiber::{Done, JobName, Ticket};
use std::alloc::{AllocError, Global};

/// The result of a worker's request for a job.
#[derive(Debug, Drop)]
pub enum Taken<const CAP: usize> {
    /// No job: `fail` was called.
    Failed,
    /// No job: the worker has a Begin or a Join out.
    Busy,
    /// No job: none is ready in any game.
    Nothing,
    /// A Begin or a Join.
    Job(Ticket<CAP>),
    /// A part, with its key.
    Part(Ticket<CAP>, PartKey<Done<CAP>>),
}

/// The result of a search for a worker's next job.
#[derive(Clone, Copy, Debug)]
pub(crate) enum Found {
    Busy,
    Nothing,
    Job(JobName),
}

impl<const CAP: usize> Core<CAP> {
    /// Whether the worker has a Begin or a Join out.
    fn is_busy(&self, worker: usize) -> bool
        ensures { result ≡ is_busy worker self.now.games.lanes }
    {
        self.out > 0 && self.games.is_busy(worker)
    }

    /// Does nothing. Gives the prover that if no open stay has a job ready, no stay has one: a stay
    /// that has left has none.
    fn has_none(&self)
        requires { AreNoneOpenReady self.now.games.lanes }
        ensures { AreNoneReady self.now.games.lanes }
    {
        let _out = self.out;
    }

    /// Finds a job for the worker: in the game of the last job, while that has a ready job; then in
    /// the later games, then in the earlier ones.
    #[inline(always)]
    pub(crate) fn find(&self, worker: usize) -> Found
        ensures { FindsJob worker self.now.games.lanes result }
    {
        if self.is_busy(worker) {
            return Found::Busy;
        }
        match self.games.find(self.cursor) {
            None => {
                self.has_none();
                Found::Nothing
            }
            Some(job) => Found::Job(job),
        }
    }

    /// Takes that job for the worker, with a ticket that reuses the memory of a completed one if
    /// there is one. Reserves room in the journal for the job's completion too.
    fn take_job(
        &mut self,
        alloc: Global,
        worker: usize,
        job: JobName,
    ) -> Result<(Ticket<CAP>, Option<PartKey<Done<CAP>>>), AllocError>
        requires enabled { is_enabled_there self.old.games.workers self.old.games.lanes (event.Take worker job) ≡ true }
        ensures ticket { IfOk result (λ taken. taken.0.input ≡ input_of (lane_of self.new.games.lanes job.game) worker job) }
        ensures fresh { IfOk result (λ taken. IsFresh taken.0) }
        ensures names { IfOk result (λ taken. names_of taken.0.frames ≡ names_for self.new.games.storage job) }
        ensures key { IfOk result (λ taken. HasKeyOf self.new job taken.1) }
        ensures ok { OnOk result (self.new ≡ core_taken CAP self.old worker job self.new.games.tallies) }
        ensures tallies { OnOk result (KeepsTallies job self.old.games.tallies self.new.games.tallies) }
        ensures err { OnErr result (self.new ≡ self.old) }
    {
        let number = self.games.worker_number(worker);
        self.journal.reserve(self.out, 2)?;
        let taken = self.games.take_job(alloc, number, job, self.spares.pop())?;
        self.journal.note(Event::Take(number, job));
        self.out += 1;
        self.cursor = job.game as usize;
        Ok(taken)
    }

    /// Takes a job for that worker, with a ticket that holds all that the job reads. Reserves the
    /// memory for its completion. After an error the core is unchanged.
    pub fn take(&mut self, alloc: Global, worker: usize) -> Result<Taken<CAP>, AllocError>
        requires { worker ≤ self.old.games.workers }
        ensures ok { IfOk result (λ taken. TakesAs CAP self.old worker taken self.new) }
        ensures err { OnErr result (self.new ≡ self.old) }
    {
        if self.games.has_failed() {
            return Ok(Taken::Failed);
        }
        match self.find(worker) {
            Found::Busy => Ok(Taken::Busy),
            Found::Nothing => Ok(Taken::Nothing),
            Found::Job(job) => match self.take_job(alloc, worker, job)? {
                (ticket, None) => Ok(Taken::Job(ticket)),
                (ticket, Some(key)) => Ok(Taken::Part(ticket, key)),
            },
        }
    }
}
