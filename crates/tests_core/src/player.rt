//! Plays the jobs of a core one by one: a worker takes, runs and completes each.
ghost use Rattle.bs_fiber.specs.Tickets.{IsFresh};

use arrayvec::ArrayVec;
use bs_board::Command;
use bs_counter::{Finish, PartKey, Parted};
use bs_fiber::{Done, SharedCommand, Ticket, work};
use bs_samples::{holds, plan_of};
use bs_sched::{Core, Taken};
use std::alloc::Global;
use std::sync::Wait;
use std::test::Fail;

pub(crate) const CAP: usize = 524_288;

/// The completed parts of a move.
pub(crate) type DoneParts = ArrayVec<Option<Done<CAP>>, 4>;

/// Opens a core of two workers.
pub(crate) fn core_of(
    alloc: Global,
    rows: &[(&str, u32)],
    blocks: usize,
) -> Result<Core<CAP>, Fail> {
    Ok(Core::<CAP>::open(alloc, plan_of(alloc, rows)?, blocks, 2)?)
}

/// Queues a command for that open game.
pub(crate) fn hand(
    alloc: Global,
    core: &mut Core<CAP>,
    game: usize,
    command: Command,
) -> Result<(), Fail> {
    holds("the game is there", game < core.rows())?;
    holds("the game is open", core.is_open(game))?;
    Ok(core.hand(game, SharedCommand::new(alloc, command)?)?)
}

/// Takes a job as that worker.
pub(crate) fn take(alloc: Global, core: &mut Core<CAP>, worker: usize) -> Result<Taken<CAP>, Fail> {
    holds("the worker is there", worker <= core.workers())?;
    Ok(core.take(alloc, worker)?)
}

/// A job that was run, with its key if it is a part.
#[derive(Drop)]
pub(crate) struct Worked {
    pub(crate) done: Done<CAP>,
    key: Option<PartKey<Done<CAP>>>,
}

/// Takes a job as that worker and runs it. `None` if no job is ready or the worker is busy.
pub(crate) fn take_worked(
    alloc: Global,
    core: &mut Core<CAP>,
    worker: usize,
) -> Result<Option<Worked>, Fail> {
    holds("the worker is there", worker <= core.workers())?;
    match core.take(alloc, worker)? {
        Taken::Job(ticket) => run_job(alloc, ticket, None),
        Taken::Part(ticket, key) => run_job(alloc, ticket, Some(key)),
        Taken::Failed => Err(Fail::from("failed")),
        _ => Ok(None),
    }
}

/// Runs the job of a fresh ticket.
fn run_job(
    alloc: Global,
    ticket: Ticket<CAP>,
    key: Option<PartKey<Done<CAP>>>,
) -> Result<Option<Worked>, Fail>
    requires { IsFresh ticket }
{
    let done = work(alloc, ticket)?;
    Ok(Some(Worked { done, key }))
}

/// Takes a Begin or Join as that worker and runs it.
pub(crate) fn take_done(
    alloc: Global,
    core: &mut Core<CAP>,
    worker: usize,
) -> Result<Done<CAP>, Fail> {
    let Worked { done, key } = take_worked(alloc, core, worker)?.ok_or("a job")?;
    holds("no part", key.is_none())?;
    Ok(done)
}

/// Takes a part as that worker and runs it. Returns it with its key.
pub(crate) fn take_part(
    alloc: Global,
    core: &mut Core<CAP>,
    worker: usize,
) -> Result<(Done<CAP>, PartKey<Done<CAP>>), Fail> {
    let Worked { done, key } = take_worked(alloc, core, worker)?.ok_or("a job")?;
    Ok((done, key.ok_or("a part")?))
}

/// Finishes the part by its key. Returns all parts if this was the last.
pub(crate) fn finish(key: PartKey<Done<CAP>>, done: Done<CAP>) -> Result<Option<DoneParts>, Fail> {
    holds("the key of the part", key.part() == done.part())?;
    match key.finish(done) {
        Finish::More(spent) => {
            drop(spent);
            Ok(None)
        }
        Finish::Last(parts) => Ok(Some(parts)),
    }
}

/// Completes all parts of a move.
pub(crate) fn put_parts(core: &mut Core<CAP>, parts: DoneParts) -> Result<(), Fail> {
    core.put_parts(parts)
        .map_err(|_| Fail::from("strays of its own core"))
}

/// Completes a Begin or a Join.
pub(crate) fn put(core: &mut Core<CAP>, worker: usize, done: Done<CAP>) -> Result<(), Fail> {
    core.put(worker, done)
        .map_err(|_| Fail::from("a stray of its own core"))
}

/// Completes the job. A part is finished by its key; the last one completes all parts.
pub(crate) fn complete(core: &mut Core<CAP>, worker: usize, worked: Worked) -> Result<(), Fail> {
    let Worked { done, key } = worked;
    let Some(key) = key else {
        return put(core, worker, done);
    };
    match finish(key, done)? {
        Some(parts) => put_parts(core, parts),
        None => Ok(()),
    }
}

/// Takes, runs and completes a Begin or Join as that worker.
pub(crate) fn play_one(alloc: Global, core: &mut Core<CAP>, worker: usize) -> Result<(), Fail> {
    let done = take_done(alloc, core, worker)?;
    put(core, worker, done)
}

/// Plays all ready jobs as that worker.
pub(crate) fn play_all<R: Wait>(
    rt: &R,
    alloc: Global,
    core: &mut Core<CAP>,
    worker: usize,
) -> Result<(), Fail> {
    for _ in rt.forever() {
        match take_worked(alloc, core, worker)? {
            Some(worked) => complete(core, worker, worked)?,
            None => break,
        }
    }
    Ok(())
}
