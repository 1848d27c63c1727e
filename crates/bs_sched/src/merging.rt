//! The journals of cores of one row each, merged to the journal of the core of all rows.
ghost use Rattle.std.specs.Prelude.{◌≡◌, ◌++◌, ◌∷◌, [], drop, ◌<◌, ◌≤◌, length, option_to_list, slice_index_or, slice_set, IfOk, OnOk};
ghost use Rattle.bs_sched.specs.Assembly.{job_at, job_event, jobs_at};
ghost use Rattle.bs_sched.specs.declared.event.Event.TheVariants as event;
ghost use Rattle.bs_sched.specs.inner.Merging.{act_taken, acts_taken, all_jobs, first_event, first_hand, hand_at, lefts_after, lefts_then, merged, taken_from};

use crate::event::Event;
use crate::step::Step;
use bs_fiber::JobName;
use bs_registry::MOST_STAYS;
use std::alloc::{AllocError, Global};
use std::collections::VecDeque;
use std::marker::Model;
use std::mem::replace;

/// The job with another row.
fn job_at(row: usize, job: JobName) -> JobName
    requires { row < MOST_STAYS }
    ensures { result ≡ job_at row job }
{
    JobName {
        kind: job.kind,
        game: row as u32,
        part: job.part,
    }
}

/// The event with another row, if it is a job's.
fn job_event(row: usize, event: Event) -> Option<Event>
    requires { row < MOST_STAYS }
    ensures { result ≡ job_event row event }
{
    match event {
        Event::Hand(_, _) => None,
        Event::Take(worker, job) => Some(Event::Take(worker, job_at(row, job))),
        Event::Put(worker, job) => Some(Event::Put(worker, job_at(row, job))),
        Event::Admit(_) => None,
        Event::Leave(_) => None,
    }
}

/// The event with another row, if it queues a command.
fn hand_at(row: u32, event: Event) -> Option<Event>
    ensures { result ≡ hand_at row event }
{
    match event {
        Event::Hand(_, command) => Some(Event::Hand(row, command)),
        Event::Take(_, _) => None,
        Event::Put(_, _) => None,
        Event::Admit(_) => None,
        Event::Leave(_) => None,
    }
}

/// What is left of a core's journal.
#[derive(Drop)]
pub(crate) struct Left {
    events: VecDeque<Event>,
}

impl Model for Left {
    ghost use Rattle.std.specs.Prelude.{List};
    ghost use Rattle.bs_sched.specs.declared.event.Event.{Event};

    ghost Value = { List Event };

    ghost view = { λ l. l.events.items };
}

impl Left {
    pub(crate) fn new(journal: Vec<Event>) -> Self
        ensures { result ≡ journal.items }
    {
        Left {
            events: VecDeque::from_vec(journal),
        }
    }

    fn len(&self) -> usize {
        self.events.len()
    }

    #[tactic(auto, using(crate::proofs::Merged::is_first, crate::proofs::Merged::is_rest))]
    fn take_first(&mut self) -> Option<Event>
        ensures first { result ≡ first_event self.old }
        ensures left { self.new ≡ drop 1 self.old }
    {
        self.events.pop_front()
    }

    /// Takes the first event, with that row, if it queues a command.
    fn take_hand(&mut self, row: u32) -> Option<Event>
        ensures hand { result ≡ first_hand row self.old }
        ensures left { self.new ≡ drop 1 self.old }
    {
        hand_at(row, self.take_first()?)
    }

    /// Moves the jobs that are left to the end of a journal, with another row.
    fn move_jobs(self, row: usize, journal: &mut Vec<Event>) -> Result<(), AllocError>
        requires { row < MOST_STAYS }
        ensures { OnOk result (journal.new.items ≡ journal.old.items ++ jobs_at row self) }
    {
        let Left { events } = self;
        for event in events {
            if let Some(job) = job_event(row, event) {
                journal.push(job)?;
            }
        }
        Ok(())
    }
}

/// Takes the next hand of that row's journal.
fn next_hand(lefts: &mut Vec<Left>, row: u32) -> Option<Event>
    ensures hand { result ≡ first_hand row (slice_index_or lefts.old.items row []) }
    ensures lefts { lefts.new.items ≡ taken_from row lefts.old.items }
{
    let at = row as usize;
    if at < lefts.len() {
        lefts[at].take_hand(row)
    } else {
        None
    }
}

/// Moves the next hand of that row's journal to the end of the whole's.
fn move_hand(lefts: &mut Vec<Left>, row: u32, journal: &mut Vec<Event>) -> Result<(), AllocError>
    ensures journal { OnOk result (journal.new.items
        ≡ journal.old.items ++ option_to_list (first_hand row (slice_index_or lefts.old.items row []))) }
    ensures lefts { OnOk result (lefts.new.items ≡ taken_from row lefts.old.items) }
{
    if let Some(hand) = next_hand(lefts, row) {
        journal.push(hand)?;
    }
    Ok(())
}

/// Removes and returns what is left of that row's journal.
fn take_left(alloc: Global, lefts: &mut Vec<Left>, row: usize) -> Left
    requires { row < length lefts.old.items }
    ensures left { result ≡ slice_index_or lefts.old.items row [] }
    ensures lefts { lefts.new.items ≡ slice_set lefts.old.items row [] }
{
    replace(&mut lefts[row], Left::new(Vec::new(alloc)))
}

/// Moves the jobs that are left for a stay to the end of the whole's, and appends its leave.
/// Nothing is left of its journal.
fn move_leave(
    alloc: Global,
    lefts: &mut Vec<Left>,
    row: u32,
    journal: &mut Vec<Event>,
) -> Result<(), AllocError>
    requires { length lefts.old.items ≤ MOST_STAYS }
    ensures journal { OnOk result (journal.new.items
        ≡ journal.old.items ++ (jobs_at row (slice_index_or lefts.old.items row []) ++ event.Leave row ∷ [])) }
    ensures lefts { OnOk result (lefts.new.items ≡ slice_set lefts.old.items row []) }
{
    let at = row as usize;
    if at < lefts.len() {
        take_left(alloc, lefts, at).move_jobs(at, journal)?;
    }
    journal.push(Event::Leave(row))?;
    Ok(())
}

/// Moves the events of an act to the end of the whole's.
fn move_step(
    alloc: Global,
    lefts: &mut Vec<Left>,
    step: &Step,
    journal: &mut Vec<Event>,
) -> Result<(), AllocError>
    requires { length lefts.old.items ≤ MOST_STAYS }
    ensures journal { OnOk result (journal.new.items ≡ journal.old.items ++ act_taken step.now lefts.old.items) }
    ensures lefts { OnOk result (lefts.new.items ≡ lefts_then step.now lefts.old.items) }
{
    match step {
        Step::Hand(row) => move_hand(lefts, *row, journal)?,
        Step::Admit(row) => journal.push(Event::Admit(row.share()?))?,
        Step::Leave(row) => move_leave(alloc, lefts, *row, journal)?,
    }
    Ok(())
}

/// Moves the events of each act of the order.
#[tactic(auto, using(crate::proofs::Merged::many_then))]
fn move_steps(
    alloc: Global,
    lefts: &mut Vec<Left>,
    order: &[Step],
    journal: &mut Vec<Event>,
) -> Result<(), AllocError>
    requires { length lefts.old.items ≤ MOST_STAYS }
    ensures journal { OnOk result (journal.new.items ≡ journal.old.items ++ acts_taken order.now lefts.old.items) }
    ensures lefts { OnOk result (lefts.new.items ≡ lefts_after order.now lefts.old.items) }
{
    for step in order {
        move_step(alloc, lefts, step, journal)?;
    }
    Ok(())
}

/// Moves the jobs of each row's journal to the end of the whole's.
fn move_all_jobs(lefts: Vec<Left>, journal: &mut Vec<Event>) -> Result<(), AllocError>
    requires { length lefts.items ≤ MOST_STAYS }
    ensures { OnOk result (journal.new.items ≡ journal.old.items ++ all_jobs 0 lefts.items) }
{
    let mut row = 0;
    for left in lefts {
        left.move_jobs(row, journal)?;
        row += 1;
    }
    Ok(())
}

/// The number of all events.
fn count_events(lefts: &[Left]) -> usize {
    let mut count = 0usize;
    for left in lefts {
        count = count.saturating_add(left.len());
    }
    count
}

/// The number of admissions and leaves.
fn count_changes(order: &[Step]) -> usize {
    let mut count = 0usize;
    for step in order {
        if !matches!(step, Step::Hand(_)) {
            count = count.saturating_add(1);
        }
    }
    count
}

/// Merges the journals of the cores: first the acts in their order, before each leave the jobs of
/// the stay that leaves, then the jobs that are left.
pub(crate) fn merge(
    alloc: Global,
    mut lefts: Vec<Left>,
    order: &[Step],
) -> Result<Vec<Event>, AllocError>
    requires { length lefts.items ≤ MOST_STAYS }
    ensures { IfOk result (λ journal. journal.items ≡ merged order.now lefts.items) }
{
    let events = count_events(lefts.as_slice()).saturating_add(count_changes(order));
    let mut journal = Vec::with_capacity(alloc, events)?;
    move_steps(alloc, &mut lefts, order, &mut journal)?;
    move_all_jobs(lefts, &mut journal)?;
    Ok(journal)
}
