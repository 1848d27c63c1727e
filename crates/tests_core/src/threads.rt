//! Runs on one thread and several: each has the replies, the records and the jobs of a core that is
//! played call by call.
use crate::player::CAP;
use crate::runs::{TWO, commands, made_by_calls, push, run_games, run_with};
use bs_fiber::JobName;
use bs_samples::{holds, new_of_three, same};
use bs_sched::{Core, Event};
use bs_workers::{Act, Gate, OpenGate, Run};
use std::alloc::Global;
use std::sync::atomic::AtomicBool;
use std::sync::atomic::Ordering::SeqCst;
use std::test::Fail;
use std::thread::Threads;

/// Returns the replies of that game and of the next one, nine each, as text.
fn replies(alloc: Global, core: &Core<CAP>, game: usize) -> Result<String, Fail> {
    holds("quiet", core.is_quiet())?;
    holds("two games", core.rows() > 1)?;
    holds("not the last game", game < core.rows() - 1)?;
    let (first, second) = (core.replies(game), core.replies(game + 1));
    same("replies", first.len(), 9)?;
    same("replies", second.len(), 9)?;
    Ok(format!(in alloc; "{first:?} {second:?}")?)
}

fn replies_by<R: Threads + Sync + AllocGlobal>(rt: &R, threads: usize) -> Result<String, Fail> {
    let acts = commands(rt.alloc())?;
    let core = run_games(rt, &TWO, acts.as_slice(), threads, &OpenGate)??;
    replies(rt.alloc(), &core, 0)
}

fn replies_by_calls(alloc: Global) -> Result<String, Fail> {
    let acts = commands(alloc)?;
    let core = made_by_calls(alloc, &TWO, acts.as_slice())?;
    replies(alloc, &core, 0)
}

#[test]
fn any_number_of_threads_gives_the_same_replies(rt: HostRuntime) -> Result<(), Fail> {
    let wanted = replies_by_calls(rt.alloc())?;
    for threads in [0usize, 1, 2, 4] {
        let others = replies_by(&rt, threads)?;
        same("replies", others.as_str(), wanted.as_str())?;
    }
    Ok(())
}

const SIXTEEN: [(&str, u32); 16] = [
    ("a", 4096),
    ("b", 4096),
    ("c", 4096),
    ("d", 4096),
    ("e", 4096),
    ("f", 4096),
    ("g", 4096),
    ("h", 4096),
    ("i", 4096),
    ("j", 4096),
    ("k", 4096),
    ("l", 4096),
    ("m", 4096),
    ("n", 4096),
    ("o", 4096),
    ("p", 4096),
];

/// Makes the commands of both games, for each pair of sixteen games by turns.
fn commands_of_pairs(alloc: Global) -> Result<Vec<Act>, Fail> {
    let mut all = Vec::new(alloc);
    for act in commands(alloc)?.as_slice() {
        if let Act::Hand(game, command) = act {
            for pair in 0..8usize {
                all.push(Act::Hand(2 * pair + (*game).min(1), command.share()?))?;
            }
        }
    }
    Ok(all)
}

/// Checks that each pair of sixteen games has these replies.
fn check_pairs(alloc: Global, core: &Core<CAP>, wanted: &str) -> Result<(), Fail> {
    for pair in 0..8usize {
        let others = replies(alloc, core, 2 * pair)?;
        same("replies", others.as_str(), wanted)?;
    }
    Ok(())
}

/// Each pair of sixteen games is answered as it is alone, also if the number of workers is below
/// the number of threads, or no multiple of it.
#[test]
fn any_number_of_workers_gives_the_same_replies(rt: HostRuntime) -> Result<(), Fail> {
    let wanted = replies_by_calls(rt.alloc())?;
    let acts = commands_of_pairs(rt.alloc())?;
    for (threads, workers) in [
        (0usize, 3usize),
        (1, 8),
        (2, 8),
        (2, 16),
        (3, 3),
        (3, 8),
        (4, 8),
        (4, 3),
        (4, 0),
    ] {
        let ran = run_with(
            &rt,
            &SIXTEEN,
            acts.as_slice(),
            (threads, workers),
            &OpenGate,
        )?;
        check_pairs(rt.alloc(), &ran?, wanted.as_str())?;
    }
    Ok(())
}

/// Checks that a game of both cores has the same replies, as text.
pub(crate) fn check_replies(
    alloc: Global,
    one: &Core<CAP>,
    other: &Core<CAP>,
    game: usize,
) -> Result<(), Fail> {
    holds("rows", game < one.rows() && game < other.rows())?;
    let (own, others) = (one.replies(game), other.replies(game));
    let own = format!(in alloc; "{own:?}")?;
    let others = format!(in alloc; "{others:?}")?;
    same("replies", own.as_str(), others.as_str())
}

/// Checks that a game of both cores has as many commands, the same charge and the same records.
pub(crate) fn check_records(one: &Core<CAP>, other: &Core<CAP>, game: usize) -> Result<(), Fail> {
    holds("rows", game < one.rows() && game < other.rows())?;
    same("taken", one.taken(game).len(), other.taken(game).len())?;
    same("charge", one.charge(game), other.charge(game))?;
    same("records", one.count(game), other.count(game))?;
    for place in 0..one.count(game) {
        holds("places", place < other.count(game))?;
        holds(
            "record",
            one.records(game, place) == other.records(game, place),
        )?;
    }
    Ok(())
}

/// Row by row, a run has the replies and the records of a core that is played call by call, and as
/// many blocks are free, whatever the number of threads.
#[test]
fn any_number_of_threads_keeps_the_same_records(rt: HostRuntime) -> Result<(), Fail> {
    let acts = commands_of_pairs(rt.alloc())?;
    let wanted = made_by_calls(rt.alloc(), &SIXTEEN, acts.as_slice())?;
    for threads in [1usize, 2, 3, 4, 7] {
        let core = run_games(&rt, &SIXTEEN, acts.as_slice(), threads, &OpenGate)??;
        same("free", core.counts().free, wanted.counts().free)?;
        for game in 0..16usize {
            check_replies(rt.alloc(), &core, &wanted, game)?;
            check_records(&core, &wanted, game)?;
        }
    }
    Ok(())
}

/// The row of the event's job. `None` if it is no job's.
fn row_of(event: &Event) -> Option<u32> {
    match event {
        Event::Take(_, job) => Some(job.game),
        Event::Put(_, job) => Some(job.game),
        _ => None,
    }
}

/// The jobs of that row, in order: whether each was taken, its kind and its part.
fn jobs_of(alloc: Global, journal: &[Event], row: u32) -> Result<String, Fail> {
    let mut jobs = Vec::new(alloc);
    for event in journal {
        match event {
            Event::Take(_, job) if job.game == row => jobs.push((true, job.kind, job.part))?,
            Event::Put(_, job) if job.game == row => jobs.push((false, job.kind, job.part))?,
            _ => {}
        }
    }
    Ok(format!(in alloc; "{jobs:?}")?)
}

/// Checks that the jobs of the journal come after that many commands, and row by row.
fn check_order(journal: &[Event], commands: usize) -> Result<(), Fail> {
    let (mut before, mut last) = (0usize, 0u32);
    for event in journal {
        let row = row_of(event);
        same("a job", row.is_some(), before >= commands)?;
        let row = row.unwrap_or(0);
        holds("the same row or a later one", row >= last)?;
        before = before.saturating_add(1);
        last = row;
    }
    Ok(())
}

/// Checks that both journals have the same jobs of each of sixteen rows, whatever the workers.
fn check_jobs(alloc: Global, one: &[Event], other: &[Event]) -> Result<(), Fail> {
    for row in 0..16u32 {
        let (jobs, others) = (jobs_of(alloc, one, row)?, jobs_of(alloc, other, row)?);
        same("the jobs of a row", jobs.as_str(), others.as_str())?;
    }
    Ok(())
}

/// The journal of a run has all commands in the order of the acts, and then row by row the jobs of
/// a core that is played call by call, whatever the number of threads.
#[test]
fn a_run_writes_commands_and_then_jobs(rt: HostRuntime) -> Result<(), Fail> {
    let acts = commands_of_pairs(rt.alloc())?;
    let wanted = made_by_calls(rt.alloc(), &SIXTEEN, acts.as_slice())?;
    let wanted = wanted.into_journal().into_vec(rt.alloc())?;
    for threads in [1usize, 2, 3, 4, 7] {
        let core = run_games(&rt, &SIXTEEN, acts.as_slice(), threads, &OpenGate)??;
        let events = core.into_journal().into_vec(rt.alloc())?;
        check_journal(events.as_slice(), acts.as_slice())?;
        check_order(events.as_slice(), acts.len())?;
        check_jobs(rt.alloc(), events.as_slice(), wanted.as_slice())?;
    }
    Ok(())
}

/// Whether the event queues the command of the act.
fn hands(event: &Event, act: &Act) -> bool {
    match (event, act) {
        (Event::Hand(row, queued), Act::Hand(game, command)) => {
            *row as usize == *game && queued.get().is_same(command.get())
        }
        _ => false,
    }
}

/// Checks that the commands of the journal are those of the acts, in order.
fn check_journal(journal: &[Event], acts: &[Act]) -> Result<(), Fail> {
    let mut made = 0usize;
    for event in journal {
        if matches!(event, Event::Hand(_, _)) {
            let act = acts.get(made).ok_or("a command too many")?;
            holds("the next command", hands(event, act))?;
            made = made.saturating_add(1);
        }
    }
    same("commands", made, acts.len())
}

/// The core of a run has its plan, its blocks and its commands, and has not failed.
#[test]
fn a_run_has_its_plan_and_commands(rt: HostRuntime) -> Result<(), Fail> {
    let acts = commands(rt.alloc())?;
    let core = run_games(&rt, &TWO, acts.as_slice(), 2, &OpenGate)??;
    check_state(&core)?;
    check_names(&core)?;
    let events = core.into_journal().into_vec(rt.alloc())?;
    check_journal(events.as_slice(), acts.as_slice())
}

/// Checks a core of twelve blocks after its run.
fn check_state(core: &Core<CAP>) -> Result<(), Fail> {
    same("blocks", core.counts().size, 12)?;
    holds("not failed", !core.has_failed())?;
    holds("quiet", core.is_quiet())
}

/// Checks the names of both games.
fn check_names(core: &Core<CAP>) -> Result<(), Fail> {
    holds("two games", core.rows() == 2)?;
    same("first game", core.row(0).game.as_str(), "a")?;
    same("second game", core.row(1).game.as_str(), "b")
}

/// Delays the jobs until `wanted` threads have begun one.
#[derive(Drop)]
struct Together {
    wanted: usize,
    /// For each thread number, whether that thread is at a job.
    here: [AtomicBool; 5],
}

impl Together {
    fn new(wanted: usize) -> Together {
        Together {
            wanted,
            here: [
                AtomicBool::new(false),
                AtomicBool::new(false),
                AtomicBool::new(false),
                AtomicBool::new(false),
                AtomicBool::new(false),
            ],
        }
    }

    /// Counts the threads that have been at a job.
    fn count(&self) -> usize {
        self.here
            .iter()
            .filter(|thread| thread.load(SeqCst))
            .count()
    }
}

impl Gate for Together {
    fn at(&self, worker: usize, _job: JobName) -> bool {
        let Some(own) = self.here.get(worker) else {
            return false;
        };
        own.store(true, SeqCst);
        for _ in 0..100_000_000u32 {
            if self.count() >= self.wanted {
                return true;
            }
        }
        false
    }
}

/// As many threads work as were requested, each with another number.
#[test]
fn as_many_threads_work_as_are_asked(rt: HostRuntime) -> Result<(), Fail> {
    let alloc = rt.alloc();
    let mut acts = Vec::new(alloc);
    for game in 0..4usize {
        push(alloc, &mut acts, game, new_of_three(alloc)?)?;
    }
    for threads in 1..5usize {
        let gate = Together::new(threads);
        let ran = run_games(&rt, &SIXTEEN, acts.as_slice(), threads, &gate)?;
        same("fault", ran.err(), None::<Run>)?;
        same("threads", gate.count(), threads)?;
    }
    Ok(())
}
