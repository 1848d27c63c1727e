//! The journal of a core.
ghost use Rattle.std.specs.Prelude.{◌≡◌, ◌↔◌, ◌+◌, ◌++◌, ◌∷◌, [], ◌<◌, ◌≤◌, ◌^◌, true, length, IfOk, IsTrue, OnOk};
ghost use Rattle.bs_sched.specs.Answering.{answer_events};
ghost use Rattle.bs_sched.specs.inner.Merging.{merged};

use crate::entry::{Entry, push_all, share_onto};
use crate::event::Event;
use crate::merging::merge;
use crate::packed::{Packed, share_all_apart, take_all_apart};
use crate::step::Step;
use bs_registry::MOST_STAYS;
use std::alloc::{AllocError, Global};
use std::marker::Model;

/// The journals of the cores of one row each that a core was put together of.
#[derive(Drop)]
struct Unmerged {
    /// The acts of the file.
    order: Vec<Step>,
    /// The journal of each row's core.
    journals: Vec<Packed>,
}

/// The events of a core, in order. A command that is answered in place is kept as one entry, and a
/// core that was put together has the journals of its parts as they are: `to_vec` and `into_vec`
/// alone make a list of events of them.
#[derive(Drop)]
pub struct Journal {
    unmerged: Option<Unmerged>,
    /// The entries of the events after those.
    later: Vec<Entry>,
}

impl Model for Journal {
    ghost use Rattle.bs_sched.specs.Events.{JournalView};
    ghost use Rattle.bs_sched.specs.inner.Merging.{AreFew, journal_in};

    ghost Value = { JournalView };

    ghost view = { λ j. journal_in j };

    ghost invariant = { λ j. AreFew j.unmerged };
}

impl Journal {
    /// A journal without events.
    pub(crate) fn new(alloc: Global) -> Self
        ensures events { result.events ≡ [] }
        ensures room { result.used ≤ result.room }
    {
        Journal {
            unmerged: None,
            later: Vec::new(alloc),
        }
    }

    /// The journal of a core that was put together: first the acts in their order, before each
    /// leave the jobs of the stay that leaves, then the jobs of the other stays.
    pub(crate) fn unmerged(alloc: Global, order: Vec<Step>, journals: Vec<Packed>) -> Self
        requires { length journals.items ≤ MOST_STAYS }
        ensures events { result.events ≡ merged order.items journals.items }
        ensures room { result.used ≤ result.room }
    {
        Journal {
            unmerged: Some(Unmerged { order, journals }),
            later: Vec::new(alloc),
        }
    }

    /// Makes room for `more` entries besides the completions of the jobs that are out. The sum
    /// cannot overflow, since each of the 64 open stays has at most four jobs out; an overflow
    /// would be reported as out of memory.
    pub(crate) fn reserve(&mut self, out: usize, more: usize) -> Result<(), AllocError>
        ensures events { self.new.events ≡ self.old.events }
        ensures used { self.new.used ≡ self.old.used }
        ensures grown { self.old.room ≤ self.new.room }
        ensures room { OnOk result (self.new.used + out + more ≤ self.new.room) }
        ensures fits { OnOk result (out + more < 2 ^ 64) }
    {
        let room = out.checked_add(more).ok_or(AllocError)?;
        self.later.reserve(room)
    }

    /// Appends an event, for which there is room.
    #[tactic(auto, using(crate::proofs::Entries::one_more_entry))]
    pub(crate) fn note(&mut self, event: Event)
        requires { self.old.used < self.old.room }
        ensures events { self.new.events ≡ self.old.events ++ event ∷ [] }
        ensures used { self.new.used ≡ self.old.used + 1 }
        ensures room { self.new.room ≡ self.old.room }
    {
        self.later.push_reserved(Entry::of_event(event));
    }

    /// Appends, as one entry, that the worker took and completed all jobs of a command with that
    /// many parts.
    #[tactic(auto, using(crate::proofs::Entries::one_more_entry))]
    pub(crate) fn note_answer(&mut self, worker: u32, game: u32, parts: u8)
        requires { self.old.used < self.old.room }
        ensures events { self.new.events ≡ self.old.events ++ answer_events worker game parts }
        ensures used { self.new.used ≡ self.old.used + 1 }
        ensures room { self.new.room ≡ self.old.room }
    {
        let answer = Entry::Answered(worker, game, parts);
        self.later.push_reserved(answer);
    }

    /// Whether there are no events, and the core was not put together of others.
    #[tactic(auto, using(crate::proofs::Entries::none_counted, crate::proofs::Entries::count_none))]
    pub fn is_empty(&self) -> bool
        ensures { IsTrue result ↔ (self.now.is_whole ≡ true) × (self.now.events ≡ []) }
    {
        match self.unmerged {
            None => self.later.is_empty(),
            Some(_) => false,
        }
    }

    /// A list of the events, as `into_vec` makes it, while the journal stays: commands and rows are
    /// shared. The error is the allocator's.
    pub fn to_vec(&self, alloc: Global) -> Result<Vec<Event>, AllocError>
        ensures { IfOk result (λ events. events.items ≡ self.now.events) }
    {
        let mut events = match &self.unmerged {
            None => Vec::new(alloc),
            Some(unmerged) => {
                let lefts = share_all_apart(alloc, unmerged.journals.as_slice())?;
                merge(alloc, lefts, unmerged.order.as_slice())?
            }
        };
        share_onto(self.later.as_slice(), &mut events)?;
        Ok(events)
    }

    /// The events as one list. Those of a core that was put together are merged: each is moved, and
    /// the error is the allocator's.
    pub fn into_vec(self, alloc: Global) -> Result<Vec<Event>, AllocError>
        ensures { IfOk result (λ events. events.items ≡ self.events) }
    {
        let Journal { unmerged, later } = self;
        let mut events = match unmerged {
            None => Vec::new(alloc),
            Some(Unmerged { order, journals }) => {
                let lefts = take_all_apart(alloc, journals)?;
                merge(alloc, lefts, order.as_slice())?
            }
        };
        push_all(later, &mut events)?;
        Ok(events)
    }

    /// The events, packed as they are, unless the core was put together of others: then they are
    /// merged, and the error is the allocator's.
    pub(crate) fn into_packed(self, alloc: Global) -> Result<Packed, AllocError>
        ensures { IfOk result (λ packed. packed ≡ self.events) }
    {
        if self.unmerged.is_some() {
            return Packed::of_events(alloc, self.into_vec(alloc)?);
        }
        let Journal { later, .. } = self;
        Ok(Packed::new(later))
    }
}
