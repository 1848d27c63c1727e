//! Completing jobs: Begins and Joins one by one, and all parts of a move at once.
ghost use Rattle.std.specs.Prelude.{◌≡◌, ◌<◌, OnOk, IfErr, ℕ, true, None, [], ◌∷◌};
ghost use Rattle.bs_sched.specs.Core.{core_after};
ghost use Rattle.bs_sched.specs.Putting.{IsOwn, IsOwnJob};
ghost use Rattle.bs_sched.specs.Isolation.{are_enabled};
ghost use Rattle.bs_sched.specs.Journal.{setting_in};
ghost use Rattle.bs_sched.specs.Parts.{AreOwnParts, IsOwnPart, core_run, puts_of};
ghost use Rattle.bs_sched.specs.declared.event.Event.TheVariants as event;

use crate::cores::Core;
use crate::event::Event;
use arrayvec::ArrayVec;
use bs_fiber::{Contents, Done};
use thiserror::Error;

/// The done is not of a Begin or Join that the worker has out: the job is not out with that worker,
/// or is a part, or its ticket does not hold the core's input and frame blocks for it.
#[derive(Debug, Drop, Error)]
#[error("no such job is out with this worker")]
pub struct Stray<const CAP: usize> {
    /// The done, unchanged.
    pub done: Done<CAP>,
}

/// The list is not all parts of one game's move, in part order, each out with its worker.
#[derive(Debug, Drop, Error)]
#[error("these are not the parts of a move that is out")]
pub struct Strays<const CAP: usize> {
    /// The list, unchanged.
    pub parts: ArrayVec<Option<Done<CAP>>, 4>,
}

/// Keeps the contents, unless the list is full.
fn keep_spare<const CAP: usize>(spares: &mut Vec<Box<Contents<CAP>>>, spent: Box<Contents<CAP>>) {
    if spares.len() < spares.capacity() {
        spares.push_reserved(spent);
    }
}

impl<const CAP: usize> Core<CAP> {
    /// Completes a job that the worker is known to have out: one that was just taken, say. Takes no
    /// memory: the journal has room for the event, which `take` reserved. Keeps the memory of the
    /// ticket for a later one.
    pub fn put_own(&mut self, worker: usize, done: Done<CAP>)
        requires { IsOwn self.old.games worker done }
        ensures { self.new ≡ core_after CAP self.old (event.Put worker done.entry.input.job) }
    {
        let job = done.ticket().job();
        let number = done.ticket().worker();
        let spent = self.games.complete(done);
        self.journal.note(Event::Put(number, job));
        self.out -= 1;
        keep_spare(&mut self.spares, spent);
    }

    /// Completes a Begin or a Join of the worker. Takes no memory. Any other done, each part
    /// included, is returned in `Stray`, and the core is unchanged.
    pub fn put(&mut self, worker: usize, done: Done<CAP>) -> Result<(), Stray<CAP>>
        ensures own { OnOk result (IsOwnJob self.old.games worker done.entry) }
        ensures ok { OnOk result (self.new ≡ core_after CAP self.old (event.Put worker done.entry.input.job)) }
        ensures stray { IfErr result (λ stray. (stray.done ≡ done.entry) × (self.new ≡ self.old) × (IsOwnJob self.old.games worker done.entry → ⊥)) }
    {
        if !self.games.is_own_job(worker, &done) {
            return Err(Stray { done });
        }
        self.put_own(worker, done);
        Ok(())
    }

    /// Completes one part of a move of this core.
    fn complete_part(&mut self, completed: Option<Done<CAP>>)
        requires { (game part : ℕ) × IsOwnPart self.old.games game part completed }
        ensures { self.new ≡ core_run CAP self.old (puts_of (completed.entry ∷ [])) }
    {
        match completed {
            Some(done) => {
                let taker = done.ticket().worker() as usize;
                self.put_own(taker, done);
            }
            None => unreachable!(),
        }
    }

    /// Completes all parts of one move of this core. The journal has room for their events.
    fn complete_parts(&mut self, parts: &mut [Option<Done<CAP>>])
        requires { AreOwnParts self.old.games parts.old }
        ensures { self.new ≡ core_run CAP self.old (puts_of parts.old) }
    {
        for part in 0..parts.len() {
            let done = parts[part].take();
            self.complete_part(done);
        }
    }

    /// Completes all parts of one game's move, in part order, each for the worker that has it out.
    /// Takes no memory. Any other list is returned in `Strays`, and the core is unchanged.
    #[tactic(auto, using(crate::proofs::OwnParts::all_enabled))]
    pub fn put_parts(&mut self, parts: ArrayVec<Option<Done<CAP>>, 4>) -> Result<(), Strays<CAP>>
        ensures own { OnOk result (AreOwnParts self.old.games parts.entry.items) }
        ensures enabled { OnOk result (are_enabled (setting_in CAP self.old) self.old.games.lanes (puts_of parts.entry.items) ≡ true) }
        ensures ok { OnOk result (self.new ≡ core_run CAP self.old (puts_of parts.entry.items)) }
        ensures strays { IfErr result (λ strays. (strays.parts ≡ parts.entry) × (self.new ≡ self.old) × (AreOwnParts self.old.games parts.entry.items → ⊥)) }
    {
        if !self.games.are_own_parts(parts.as_slice()) {
            return Err(Strays { parts });
        }
        let mut parts = parts;
        self.complete_parts(parts.as_mut_slice());
        Ok(())
    }
}
