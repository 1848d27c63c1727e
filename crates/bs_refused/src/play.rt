//! A core in which the commands of a game are queued, and whose jobs are taken, run and completed.
ghost use Rattle.bs_fiber.specs.Tickets.{IsFresh};

use crate::fault::Fault;
use crate::values::plan_of;
use bs_board::{Command, Direction, TurnNumber};
use bs_counter::{Finish, PartKey, Parted};
use bs_fiber::{Done, SharedCommand, Ticket, work};
use bs_samples::{new_of_three, straight_on, third_goes};
use bs_sched::{Core, Taken};
use std::alloc::Global;
use std::test::Fail;

pub const CAP: usize = 524_288;

/// The number of the last worker.
pub const WORKERS: usize = 2;

/// Opens a core with one game.
pub fn opened(alloc: Global, blocks: usize) -> Result<Core<CAP>, Fault> {
    let plan = plan_of(alloc, &["a"])?;
    Ok(Core::<CAP>::open(alloc, plan, blocks, WORKERS)?)
}

/// Makes the commands of the game, with a move of two parts among them.
pub fn commands(alloc: Global) -> Result<Vec<Command>, Fail> {
    let turn = TurnNumber::new(0).ok_or(Fault::NoTurn)?;
    let (down, on) = (third_goes(alloc, Direction::Down)?, straight_on(alloc));
    let new = new_of_three(alloc)?;
    Ok(vec![in alloc; new, down, Command::Turn(turn), Command::Free, on]?)
}

/// Queues the command for the open stay of that row.
pub fn hand(
    alloc: Global,
    core: &mut Core<CAP>,
    game: usize,
    command: &Command,
) -> Result<(), Fault> {
    let copy = SharedCommand::new(alloc, command.copy(alloc)?)?;
    if game >= core.rows() || !core.is_open(game) {
        return Err(Fault::NoStay);
    }
    Ok(core.hand(game, copy)?)
}

/// A job that was taken and not run: its blocks are as it needs them.
#[derive(Drop)]
pub struct Job {
    pub ticket: Ticket<CAP>,
    pub key: Option<PartKey<Done<CAP>>>,
    pub ghost fresh: { IsFresh ticket },
}

/// Takes the next job for that worker, if there is one.
pub fn take(alloc: Global, core: &mut Core<CAP>, worker: usize) -> Result<Option<Job>, Fault> {
    if worker > core.workers() {
        return Err(Fault::NoWorker);
    }
    match core.take(alloc, worker)? {
        Taken::Job(ticket) => Ok(Some(Job { ticket, key: None })),
        Taken::Part(ticket, key) => Ok(Some(Job {
            ticket,
            key: Some(key),
        })),
        Taken::Nothing => Ok(None),
        Taken::Busy => Err(Fault::Busy),
        Taken::Failed => Err(Fault::Failed),
    }
}

/// Answers the next command as that worker, where it is. Returns whether there was one.
pub fn answer_next(alloc: Global, core: &mut Core<CAP>, worker: usize) -> Result<bool, Fault> {
    if worker > core.workers() {
        return Err(Fault::NoWorker);
    }
    let Some(next) = core.next_command(worker) else {
        return Ok(false);
    };
    core.answer_here(alloc, worker, next)?;
    Ok(true)
}

/// Completes a part that was run; the last part completes them all.
fn put_part(core: &mut Core<CAP>, done: Done<CAP>, key: PartKey<Done<CAP>>) -> Result<(), Fault> {
    if key.part() != done.part() {
        return Err(Fault::OtherKey);
    }
    match key.finish(done) {
        Finish::More(_spent) => Ok(()),
        Finish::Last(parts) => match core.put_parts(parts) {
            Ok(()) => Ok(()),
            Err(_) => Err(Fault::Strays),
        },
    }
}

/// Completes a job that was run.
fn put(
    core: &mut Core<CAP>,
    worker: usize,
    done: Done<CAP>,
    key: Option<PartKey<Done<CAP>>>,
) -> Result<(), Fault> {
    if let Some(key) = key {
        return put_part(core, done, key);
    }
    match core.put(worker, done) {
        Ok(()) => Ok(()),
        Err(_) => Err(Fault::Stray),
    }
}

/// Runs the job and completes it.
pub fn put_job(alloc: Global, core: &mut Core<CAP>, worker: usize, job: Job) -> Result<(), Fault> {
    let Job { ticket, key } = job;
    match work(alloc, ticket) {
        Ok(done) => put(core, worker, done, key),
        Err(_) => Err(Fault::Memory),
    }
}

/// Takes the next job for the caller's own worker, which must exist.
pub fn next_job(alloc: Global, core: &mut Core<CAP>) -> Result<Job, Fault> {
    take(alloc, core, 0)?.ok_or(Fault::NoJob)
}

fn hand_all(alloc: Global, core: &mut Core<CAP>, commands: &[Command]) -> Result<(), Fault> {
    for command in commands {
        hand(alloc, core, 0, command)?;
    }
    Ok(())
}

fn play_jobs(alloc: Global, core: &mut Core<CAP>, jobs: usize) -> Result<(), Fault> {
    for _ in 0..jobs {
        let job = next_job(alloc, core)?;
        put_job(alloc, core, 0, job)?;
    }
    Ok(())
}

fn play_behind(alloc: Global, core: &mut Core<CAP>, jobs: usize) -> Result<(), Fail> {
    let commands = commands(alloc)?;
    hand_all(alloc, core, commands.as_slice())?;
    Ok(play_jobs(alloc, core, jobs)?)
}

/// Opens a core in which all commands are queued and the first `jobs` jobs are completed.
pub fn played(alloc: Global, jobs: usize) -> Result<Core<CAP>, Fail> {
    let mut core = opened(alloc, 6)?;
    play_behind(alloc, &mut core, jobs)?;
    Ok(core)
}
