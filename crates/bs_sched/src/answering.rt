//! Answering a command where it is: a worker that has the core to itself takes and completes all
//! jobs of a game's next command at once.
ghost use Rattle.std.specs.Prelude.{◌≡◌, ◌≢◌, ◌≤◌, true, MatchOption, OnOk, OnErr};
ghost use Rattle.bs_fiber.specs.declared.job.JobKind.TheVariants as kind;
ghost use Rattle.bs_sched.specs.Answering.{CanAnswer, HasNoneWaiting, answer_events};
ghost use Rattle.bs_sched.specs.Isolation.{are_enabled};
ghost use Rattle.bs_sched.specs.Journal.{setting_in};
ghost use Rattle.bs_sched.specs.Machine.{is_enabled_there};
ghost use Rattle.bs_sched.specs.Parts.{core_run};
ghost use Rattle.bs_sched.specs.declared.event.Event.TheVariants as event;

use crate::cores::Core;
use crate::taking::Found;
use bs_fiber::{JobKind, JobName};
use std::alloc::{AllocError, Global};

/// The next command that a worker can answer.
#[derive(Clone, Copy, Debug)]
pub struct NextCommand {
    /// The row of its stay.
    pub game: u32,
    /// The number of the parts of its move; 0 if it is no move that goes on.
    pub parts: u8,
}

impl<const CAP: usize> Core<CAP> {
    /// The command that the job begins, if it is a Begin.
    #[inline(always)]
    fn begun_by(&self, worker: usize, job: JobName) -> Option<NextCommand>
        requires { is_enabled_there self.now.games.workers self.now.games.lanes (event.Take worker job) ≡ true }
        ensures { MatchOption result (job.kind ≢ kind.Begin) (λ next. CanAnswer self.now worker next.game next.parts) }
    {
        match job.kind {
            JobKind::Begin => {
                let parts = self.games.next_parts(job.game as usize);
                Some(NextCommand {
                    game: job.game,
                    parts: parts as u8,
                })
            }
            JobKind::Part => None,
            JobKind::Join => None,
        }
    }

    /// The next command that the worker can answer by itself. `None` if no command waits, if the
    /// worker is busy, if a stay is not idle, or after `fail`.
    #[inline(always)]
    pub fn next_command(&self, worker: usize) -> Option<NextCommand>
        requires { worker ≤ self.now.games.workers }
        ensures { MatchOption result (HasNoneWaiting self.now worker) (λ next. CanAnswer self.now worker next.game next.parts) }
    {
        if self.games.has_failed() {
            return None;
        }
        match self.find(worker) {
            Found::Busy => None,
            Found::Nothing => None,
            Found::Job(job) => self.begun_by(worker, job),
        }
    }

    /// Answers that next command at once, as that worker: the core is as after all jobs of the
    /// command, each taken and completed by the worker. After an error the core is unchanged.
    pub fn answer_here(
        &mut self,
        alloc: Global,
        worker: usize,
        next: NextCommand,
    ) -> Result<(), AllocError>
        requires { CanAnswer self.old worker next.game next.parts }
        ensures ok { OnOk result (self.new ≡ core_run CAP self.old (answer_events worker next.game next.parts)) }
        ensures enabled { OnOk result (are_enabled (setting_in CAP self.old) self.old.games.lanes (answer_events worker next.game next.parts) ≡ true) }
        ensures err { OnErr result (self.new ≡ self.old) }
    {
        let number = self.games.worker_number(worker);
        let game = next.game as usize;
        self.journal.reserve(self.out, 1)?;
        self.games.answer_here(alloc, game, next.parts as usize)?;
        self.journal.note_answer(number, next.game, next.parts);
        self.cursor = game;
        Ok(())
    }
}
