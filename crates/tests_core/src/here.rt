//! Commands that a worker answers where they are, without a ticket: replies, records and journal.
use crate::cores::{check_moved, check_over_quota, core_of_one, fail, hand_over_quota};
use crate::player::{CAP, core_of, hand, play_all, take_done};
use crate::threads::{check_records, check_replies};
use bs_board::{Command, Direction};
use bs_fiber::{JobKind, JobName};
use bs_samples::{holds, new_of_three, new_solo, same, third_goes};
use bs_sched::{Core, Event};
use std::alloc::Global;
use std::sync::Wait;
use std::test::Fail;

/// The stay and the number of parts of the next command that the worker can answer.
fn next_of(core: &Core<CAP>, worker: usize) -> Result<Option<(u32, u8)>, Fail> {
    holds("the worker is there", worker <= core.workers())?;
    Ok(
        core.next_command(worker)
            .map(|next| (next.game, next.parts)),
    )
}

/// Answers the next command as that worker. Returns its stay and the number of its parts; `None` if
/// the worker can answer none.
pub(crate) fn answer_next(
    alloc: Global,
    core: &mut Core<CAP>,
    worker: usize,
) -> Result<Option<(u32, u8)>, Fail> {
    holds("the worker is there", worker <= core.workers())?;
    let Some(next) = core.next_command(worker) else {
        return Ok(None);
    };
    core.answer_here(alloc, worker, next)?;
    Ok(Some((next.game, next.parts)))
}

/// Answers all commands that wait, of which there are that many, as worker 2.
fn answer_all(alloc: Global, core: &mut Core<CAP>, commands: usize) -> Result<(), Fail> {
    for _ in 0..commands {
        answer_next(alloc, core, 2)?.ok_or("a command")?;
    }
    same("the next command", next_of(core, 2)?, None)?;
    holds("quiet", core.is_quiet())
}

/// A core of the game "b" in which a `new` of three snakes and a move of them wait.
fn core_with_a_move(alloc: Global) -> Result<Core<CAP>, Fail> {
    let mut core = core_of_one(alloc, "b", 4096)?;
    hand(alloc, &mut core, 0, new_of_three(alloc)?)?;
    hand(alloc, &mut core, 0, third_goes(alloc, Direction::Down)?)?;
    Ok(core)
}

/// A `new` has no parts. A move of three snakes has two, one for each pair of seats.
#[test]
fn a_move_is_answered_where_it_is(rt: HostRuntime) -> Result<(), Fail> {
    let alloc = rt.alloc();
    let mut core = core_with_a_move(alloc)?;
    same("new", answer_next(alloc, &mut core, 1)?, Some((0, 0)))?;
    same("move", answer_next(alloc, &mut core, 1)?, Some((0, 2)))?;
    same("none", answer_next(alloc, &mut core, 1)?, None)?;
    check_moved(alloc, &core)
}

/// The worker and the job of an event, and whether the job was taken. `None` if it is no job's.
fn job_of(event: &Event) -> Option<(bool, u32, JobName)> {
    match event {
        Event::Take(worker, job) => Some((true, *worker, *job)),
        Event::Put(worker, job) => Some((false, *worker, *job)),
        _ => None,
    }
}

/// The jobs of a journal in order: whether each was taken, its kind and its part. All are of the
/// first stay and of that worker.
fn jobs_of(
    alloc: Global,
    journal: &[Event],
    number: u32,
) -> Result<Vec<(bool, JobKind, u8)>, Fail> {
    let mut jobs = Vec::new(alloc);
    for event in journal {
        if let Some((is_take, worker, job)) = job_of(event) {
            same("worker and stay", (worker, job.game), (number, 0))?;
            jobs.push((is_take, job.kind, job.part))?;
        }
    }
    Ok(jobs)
}

/// The jobs of a `new` and of a move of two parts: all parts are taken, then all are completed.
const JOBS: [(bool, JobKind, u8); 10] = [
    (true, JobKind::Begin, 0),
    (false, JobKind::Begin, 0),
    (true, JobKind::Begin, 0),
    (false, JobKind::Begin, 0),
    (true, JobKind::Part, 0),
    (true, JobKind::Part, 1),
    (false, JobKind::Part, 0),
    (false, JobKind::Part, 1),
    (true, JobKind::Join, 0),
    (false, JobKind::Join, 0),
];

/// The journal has the Begin, each part and the Join of a move, as if they had been taken and
/// completed one by one.
#[test]
fn the_journal_has_all_jobs_of_a_command(rt: HostRuntime) -> Result<(), Fail> {
    let alloc = rt.alloc();
    let mut core = core_with_a_move(alloc)?;
    answer_all(alloc, &mut core, 2)?;
    let journal = core.into_journal().into_vec(alloc)?;
    let jobs = jobs_of(alloc, journal.as_slice(), 2)?;
    same("jobs", jobs.as_slice(), &JOBS[..])
}

/// A game with a quota of two records is refused a third one, frees one, and goes on.
#[test]
fn a_quota_is_kept_where_commands_are_answered(rt: HostRuntime) -> Result<(), Fail> {
    let alloc = rt.alloc();
    let mut core = core_of_one(alloc, "a", 64)?;
    hand_over_quota(alloc, &mut core)?;
    answer_all(alloc, &mut core, 7)?;
    check_over_quota(alloc, &core)
}

/// Queues a command in each of two games, and takes the first as worker 0: worker 1 answers the
/// second alone.
fn check_while_a_job_is_out(alloc: Global, core: &mut Core<CAP>) -> Result<(), Fail> {
    for game in 0..2usize {
        hand(alloc, core, game, new_solo(alloc, 3)?)?;
    }
    let done = take_done(alloc, core, 0)?;
    same("the job's stay", done.ticket().job().game, 0)?;
    same("a busy worker", next_of(core, 0)?, None)?;
    same("another worker", answer_next(alloc, core, 1)?, Some((1, 0)))?;
    same("no other stay", next_of(core, 1)?, None)?;
    holds("not quiet", !core.is_quiet())
}

/// A busy worker answers nothing, and no worker answers for a stay with a job out.
#[test]
fn a_stay_with_a_job_out_is_not_answered(rt: HostRuntime) -> Result<(), Fail> {
    let alloc = rt.alloc();
    let mut core = core_of(alloc, &[("a", 4096), ("b", 4096)], 12)?;
    check_while_a_job_is_out(alloc, &mut core)
}

/// After `fail` no command is answered, though one waits.
#[test]
fn nothing_is_answered_after_a_failure(rt: HostRuntime) -> Result<(), Fail> {
    let alloc = rt.alloc();
    let mut core = core_with_a_move(alloc)?;
    fail(&mut core)?;
    same("the next command", next_of(&core, 0)?, None)?;
    holds("not quiet", !core.is_quiet())
}

/// Opens a core of two games in which seven commands wait for each.
fn core_of_many(alloc: Global) -> Result<Core<CAP>, Fail> {
    let mut core = core_of(alloc, &[("a", 128), ("b", 4096)], 12)?;
    for game in 0..2usize {
        hand(alloc, &mut core, game, new_of_three(alloc)?)?;
        hand(alloc, &mut core, game, third_goes(alloc, Direction::Down)?)?;
        hand(alloc, &mut core, game, third_goes(alloc, Direction::Left)?)?;
        hand(alloc, &mut core, game, Command::Free)?;
        hand(alloc, &mut core, game, third_goes(alloc, Direction::Up)?)?;
        hand(alloc, &mut core, game, Command::Show)?;
        hand(alloc, &mut core, game, Command::End)?;
    }
    Ok(core)
}

/// A core whose commands are answered where they are has the replies, the records, the blocks and
/// the journal of one whose jobs are taken, run and completed one by one.
#[test]
fn job_by_job_gives_the_same(rt: HostRuntime) -> Result<(), Fail> {
    let alloc = rt.alloc();
    let (mut one, mut other) = (core_of_many(alloc)?, core_of_many(alloc)?);
    play_all(&rt, alloc, &mut one, 2)?;
    answer_all(alloc, &mut other, 14)?;
    same("blocks", other.counts(), one.counts())?;
    for game in 0..2usize {
        check_replies(alloc, &other, &one, game)?;
        check_records(&other, &one, game)?;
    }
    let one = one.into_journal().into_vec(alloc)?;
    let other = other.into_journal().into_vec(alloc)?;
    let (one, other) = (
        format!(in alloc; "{one:?}")?,
        format!(in alloc; "{other:?}")?,
    );
    same("journal", other.as_str(), one.as_str())
}
