//! Each job of a game, run while its memory is refused; and a core after `fail`.
ghost use Rattle.bs_fiber.specs.Tickets.{IsFresh};

use crate::cores::Taking;
use crate::fault::Fault;
use crate::page::Page;
use crate::play::{CAP, Job, WORKERS, next_job, played, put_job, take};
use crate::scene::look;
use bs_fiber::{Done, Stopped, Ticket, work};
use bs_pool::Owned;
use bs_sched::{Core, Taken};
use std::alloc::Global;
use std::test::Fail;

/// The number of jobs of the game's commands.
const JOBS: usize = 10;

/// The tags and the numbers of the blocks.
fn names_of(alloc: Global, frames: &[Owned<CAP>]) -> Result<Vec<(u32, usize)>, Fault> {
    let mut names = Vec::new(alloc);
    for frame in frames {
        names.push((frame.tag(), frame.number()))?;
    }
    Ok(names)
}

fn tell_frames(page: &mut Page, what: &str, frames: &[Owned<CAP>]) -> Result<(), Fault> {
    let names = names_of(page.alloc(), frames)?;
    page.line(what, &names);
    Ok(())
}

/// Takes the job after `jobs` others.
fn job_behind(alloc: Global, jobs: usize) -> Result<Job, Fail> {
    let mut core = played(alloc, jobs)?;
    Ok(next_job(alloc, &mut core)?)
}

fn tell_done(page: &mut Page, done: &Done<CAP>) {
    page.line("answer", &done.ticket().job());
    page.line("answer", done.out());
}

/// Writes the names of the blocks that a stopped job returned. Then runs the same job of another
/// core, which was played in the same way.
fn work_again(page: &mut Page, jobs: usize, stopped: Stopped<CAP>) -> Result<Done<CAP>, Fail> {
    tell_frames(page, "memory", stopped.blocks.as_slice())?;
    let Job { ticket, key: _key } = job_behind(page.alloc(), jobs)?;
    match work(page.alloc(), ticket) {
        Ok(done) => Ok(done),
        Err(_stopped) => Err(Fail::from(Fault::Memory)),
    }
}

fn marked_work(page: &mut Page, ticket: Ticket<CAP>) -> Result<Done<CAP>, Stopped<CAP>>
    requires { IsFresh ticket }
{
    page.begin();
    let first = work(page.alloc(), ticket);
    page.end();
    first
}

fn try_work(page: &mut Page, jobs: usize) -> Result<(), Fail> {
    let Job { ticket, key: _key } = job_behind(page.alloc(), jobs)?;
    tell_frames(page, "before", ticket.frames())?;
    let done = match marked_work(page, ticket) {
        Ok(done) => done,
        Err(stopped) => work_again(page, jobs, stopped)?,
    };
    tell_done(page, &done);
    Ok(())
}

/// Runs `work` of each job in turn.
pub fn worked(page: &mut Page) -> Result<(), Fail> {
    for jobs in 0..JOBS {
        try_work(page, jobs)?;
    }
    Ok(())
}

/// Whether `take` reports to the worker that the core failed.
fn is_failed(alloc: Global, core: &mut Core<CAP>, worker: usize) -> Result<bool, Fault> {
    if worker > core.workers() {
        return Err(Fault::NoWorker);
    }
    match core.take(alloc, worker)? {
        Taken::Failed => Ok(true),
        _ => Ok(false),
    }
}

/// Writes for each worker whether `take` reports that the core failed.
fn tell_failed(page: &mut Page, core: &mut Core<CAP>) -> Result<(), Fault> {
    for worker in 0..WORKERS + 1 {
        let is_failed = is_failed(page.alloc(), core, worker)?;
        page.line("answer", &is_failed);
    }
    Ok(())
}

/// If the job is a part, takes the other part for the next worker.
fn other_of(alloc: Global, core: &mut Core<CAP>, job: &Job) -> Result<Option<Job>, Fault> {
    match &job.key {
        Some(_) => take(alloc, core, 1),
        None => Ok(None),
    }
}

/// Completes the jobs that are out.
fn put_all(alloc: Global, core: &mut Core<CAP>, job: Job, other: Option<Job>) -> Result<(), Fault> {
    put_job(alloc, core, 0, job)?;
    match other {
        Some(other) => put_job(alloc, core, 1, other),
        None => Ok(()),
    }
}

/// Calls `fail` while a job is out, which is then completed.
fn fail_out(page: &mut Page, core: &mut Core<CAP>) -> Result<(), Fault> {
    let job = next_job(page.alloc(), core)?;
    let other = other_of(page.alloc(), core, &job)?;
    core.fail();
    tell_failed(page, core)?;
    put_all(page.alloc(), core, job, other)
}

/// Calls `fail` with each job out in turn: no worker gets a job, and the jobs that are out are
/// completed.
fn fail_behind(page: &mut Page, jobs: usize) -> Result<(), Fail> {
    let mut core = played(page.alloc(), jobs)?;
    fail_out(page, &mut core)?;
    look::<Taking>(page, "answer", &core)?;
    Ok(tell_failed(page, &mut core)?)
}

pub fn play_failed(page: &mut Page) -> Result<(), Fail> {
    for jobs in 0..JOBS {
        fail_behind(page, jobs)?;
    }
    Ok(())
}
