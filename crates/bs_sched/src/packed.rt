//! The journal of a core that is put together with others, packed as it was kept.
ghost use Rattle.std.specs.Prelude.{◌≡◌, IfOk};
ghost use Rattle.bs_sched.specs.inner.Entries.{all_events};

use crate::entry::{Entry, push_all, share_onto};
use crate::event::Event;
use crate::merging::Left;
use std::alloc::{AllocError, Global};
use std::marker::Model;

/// The events of a core, packed as its journal kept them. Contracts see the events.
#[derive(Drop)]
pub(crate) struct Packed {
    entries: Vec<Entry>,
}

impl Model for Packed {
    ghost use Rattle.std.specs.Prelude.{List};
    ghost use Rattle.bs_sched.specs.declared.event.Event.{Event};
    ghost use Rattle.bs_sched.specs.inner.Entries.{all_events};

    ghost Value = { List Event };

    ghost view = { λ p. all_events p.entries.items };
}

impl Packed {
    pub(crate) fn new(entries: Vec<Entry>) -> Self
        ensures { result ≡ all_events entries.items }
    {
        Packed { entries }
    }

    /// An entry for each event.
    pub(crate) fn of_events(alloc: Global, events: Vec<Event>) -> Result<Self, AllocError>
        ensures { IfOk result (λ packed. packed ≡ events.items) }
    {
        let mut entries = Vec::with_capacity(alloc, events.len())?;
        for event in events {
            entries.push(Entry::of_event(event))?;
        }
        Ok(Packed { entries })
    }

    /// The events one by one.
    fn take_apart(self, alloc: Global) -> Result<Left, AllocError>
        ensures { IfOk result (λ left. left ≡ self) }
    {
        let Packed { entries } = self;
        let mut events = Vec::with_capacity(alloc, entries.len())?;
        push_all(entries, &mut events)?;
        Ok(Left::new(events))
    }

    /// Copies of the events one by one, which share their commands and rows.
    fn share_apart(&self, alloc: Global) -> Result<Left, AllocError>
        ensures { IfOk result (λ left. left ≡ self.now) }
    {
        let mut events = Vec::with_capacity(alloc, self.entries.len())?;
        share_onto(self.entries.as_slice(), &mut events)?;
        Ok(Left::new(events))
    }
}

/// Takes the journals of cores apart.
pub(crate) fn take_all_apart(alloc: Global, journals: Vec<Packed>) -> Result<Vec<Left>, AllocError>
    ensures { IfOk result (λ lefts. lefts.items ≡ journals.items) }
{
    let mut lefts = Vec::with_capacity(alloc, journals.len())?;
    for journal in journals {
        lefts.push(journal.take_apart(alloc)?)?;
    }
    Ok(lefts)
}

/// Takes copies of the journals of cores apart.
pub(crate) fn share_all_apart(alloc: Global, journals: &[Packed]) -> Result<Vec<Left>, AllocError>
    ensures { IfOk result (λ lefts. lefts.items ≡ journals.now) }
{
    let mut lefts = Vec::with_capacity(alloc, journals.len())?;
    for journal in journals {
        lefts.push(journal.share_apart(alloc)?)?;
    }
    Ok(lefts)
}
