//! The entries of a journal: a command that is answered in place is one.
ghost use Rattle.std.specs.Prelude.{◌≡◌, ◌++◌, ◌∷◌, [], IfOk, OnOk};
ghost use Rattle.bs_sched.specs.Answering.{answer_events, job_events, move_events, part_puts, part_takes};
ghost use Rattle.bs_sched.specs.Parts.{part_job};
ghost use Rattle.bs_sched.specs.inner.Entries.{all_events, events_of};

use crate::event::Event;
use crate::shared_row::SharedRow;
use bs_fiber::{JobKind, JobName, SharedCommand};
use std::alloc::AllocError;

/// What a journal keeps. It has 16 bytes, as an event has: with an `Event` in a field it would have
/// 24.
#[derive(Drop)]
pub(crate) enum Entry {
    /// The event of that name, and so below.
    Hand(u32, SharedCommand),
    Take(u32, JobName),
    Put(u32, JobName),
    Admit(SharedRow),
    Leave(u32),
    /// All events of a command that a worker answered in place: the worker, the row of the stay and
    /// the number of the parts. A move of four parts has twelve events.
    Answered(u32, u32, u8),
}

const _: () = prove!(size_of::<Entry>() == 16);

/// The name of a part.
fn part_of(game: u32, part: u8) -> JobName
    ensures { result ≡ part_job game part }
{
    JobName {
        kind: JobKind::Part,
        game,
        part,
    }
}

/// Appends that the worker takes a job and completes it.
fn push_job(events: &mut Vec<Event>, worker: u32, job: JobName) -> Result<(), AllocError>
    ensures { OnOk result (events.new.items ≡ events.old.items ++ job_events worker job) }
{
    events.push(Event::Take(worker, job))?;
    events.push(Event::Put(worker, job))?;
    Ok(())
}

/// Appends that the worker takes the parts of a move.
fn push_takes(events: &mut Vec<Event>, worker: u32, game: u32, parts: u8) -> Result<(), AllocError>
    ensures { OnOk result (events.new.items ≡ events.old.items ++ part_takes worker game parts) }
{
    for part in 0..parts {
        events.push(Event::Take(worker, part_of(game, part)))?;
    }
    Ok(())
}

/// Appends that the worker completes the parts of a move.
fn push_puts(events: &mut Vec<Event>, worker: u32, game: u32, parts: u8) -> Result<(), AllocError>
    ensures { OnOk result (events.new.items ≡ events.old.items ++ part_puts worker game parts) }
{
    for part in 0..parts {
        events.push(Event::Put(worker, part_of(game, part)))?;
    }
    Ok(())
}

/// Appends that the worker takes and completes the parts and the Join of a move.
#[tactic(auto, using(crate::proofs::Entries::all_pushed))]
fn push_move(events: &mut Vec<Event>, worker: u32, game: u32, parts: u8) -> Result<(), AllocError>
    ensures { OnOk result (events.new.items ≡ events.old.items ++ move_events worker game parts) }
{
    push_takes(events, worker, game, parts)?;
    push_puts(events, worker, game, parts)?;
    let join = JobName {
        kind: JobKind::Join,
        game,
        part: 0,
    };
    push_job(events, worker, join)?;
    Ok(())
}

/// Appends that the worker takes and completes all jobs of a command with that many parts.
fn push_answer(events: &mut Vec<Event>, worker: u32, game: u32, parts: u8) -> Result<(), AllocError>
    ensures { OnOk result (events.new.items ≡ events.old.items ++ answer_events worker game parts) }
{
    let begin = JobName {
        kind: JobKind::Begin,
        game,
        part: 0,
    };
    push_job(events, worker, begin)?;
    if parts > 0 {
        push_move(events, worker, game, parts)?;
    }
    Ok(())
}

impl Entry {
    /// The entry of one event.
    pub(crate) fn of_event(event: Event) -> Self
        ensures { events_of result ≡ event ∷ [] }
    {
        match event {
            Event::Hand(row, command) => Entry::Hand(row, command),
            Event::Take(worker, job) => Entry::Take(worker, job),
            Event::Put(worker, job) => Entry::Put(worker, job),
            Event::Admit(row) => Entry::Admit(row),
            Event::Leave(row) => Entry::Leave(row),
        }
    }

    /// The same entry again, which shares the command or the row.
    fn share(&self) -> Result<Entry, AllocError>
        ensures { IfOk result (λ copy. copy ≡ self.now) }
    {
        match self {
            Entry::Hand(row, command) => Ok(Entry::Hand(*row, command.share()?)),
            Entry::Take(worker, job) => Ok(Entry::Take(*worker, *job)),
            Entry::Put(worker, job) => Ok(Entry::Put(*worker, *job)),
            Entry::Admit(row) => Ok(Entry::Admit(row.share()?)),
            Entry::Leave(row) => Ok(Entry::Leave(*row)),
            Entry::Answered(worker, game, parts) => Ok(Entry::Answered(*worker, *game, *parts)),
        }
    }

    /// Appends its events.
    fn push_onto(self, events: &mut Vec<Event>) -> Result<(), AllocError>
        ensures { OnOk result (events.new.items ≡ events.old.items ++ events_of self) }
    {
        match self {
            Entry::Hand(row, command) => events.push(Event::Hand(row, command))?,
            Entry::Take(worker, job) => events.push(Event::Take(worker, job))?,
            Entry::Put(worker, job) => events.push(Event::Put(worker, job))?,
            Entry::Admit(row) => events.push(Event::Admit(row))?,
            Entry::Leave(row) => events.push(Event::Leave(row))?,
            Entry::Answered(worker, game, parts) => push_answer(events, worker, game, parts)?,
        }
        Ok(())
    }
}

/// Appends the events of these entries.
pub(crate) fn push_all(entries: Vec<Entry>, events: &mut Vec<Event>) -> Result<(), AllocError>
    ensures { OnOk result (events.new.items ≡ events.old.items ++ all_events entries.items) }
{
    for entry in entries {
        entry.push_onto(events)?;
    }
    Ok(())
}

/// Appends copies of the events of these entries.
pub(crate) fn share_onto(entries: &[Entry], events: &mut Vec<Event>) -> Result<(), AllocError>
    ensures { OnOk result (events.new.items ≡ events.old.items ++ all_events entries.now) }
{
    for entry in entries {
        entry.share()?.push_onto(events)?;
    }
    Ok(())
}
