//! The `Gate` of a run: for which jobs it is consulted, and how a run ends if it refuses one.
use crate::coming::coming_and_going;
use crate::runs::{TWO, commands, push, run_with};
use bs_board::{Command, Direction};
use bs_fiber::{JobKind, JobName};
use bs_samples::{holds, new_of_three, same, third_goes};
use bs_sched::Event;
use bs_workers::{Act, Gate, Run};
use std::alloc::Global;
use std::sync::Mutex;
use std::sync::atomic::AtomicUsize;
use std::sync::atomic::Ordering::SeqCst;
use std::test::Fail;
use std::thread::Threads;

/// Refuses the jobs of one kind.
#[derive(Clone, Copy)]
struct Refusing {
    kind: JobKind,
}

impl Gate for Refusing {
    fn at(&self, _worker: usize, job: JobName) -> bool {
        job.kind != self.kind
    }
}

fn check_refused<R: Threads + Sync + AllocGlobal>(
    rt: &R,
    acts: &[Act],
    kind: JobKind,
) -> Result<(), Fail> {
    for threads in [1usize, 2, 4] {
        let ran = run_with(rt, &TWO, acts, (threads, threads), &Refusing { kind })?;
        same("fault", ran.err(), Some(Run::Broken))?;
    }
    Ok(())
}

/// A `Gate` that refuses a Begin, a part or a Join stops the run.
#[test]
fn a_shut_gate_breaks_the_run(rt: HostRuntime) -> Result<(), Fail> {
    let acts = commands(rt.alloc())?;
    for kind in [JobKind::Begin, JobKind::Part, JobKind::Join] {
        check_refused(&rt, acts.as_slice(), kind)?;
    }
    Ok(())
}

/// A run ends even though the game that is to leave never becomes idle.
#[test]
fn a_shut_gate_breaks_the_run_at_a_leave(rt: HostRuntime) -> Result<(), Fail> {
    let acts = coming_and_going(rt.alloc())?;
    for kind in [JobKind::Begin, JobKind::Part, JobKind::Join] {
        check_refused(&rt, acts.as_slice(), kind)?;
    }
    Ok(())
}

/// Acts of which the last is not acceptable are made in order by the calling thread: it consults
/// the gate for each of the eight jobs of those before, and then the run is broken.
#[test]
fn acts_before_a_refused_one_are_made(rt: HostRuntime) -> Result<(), Fail> {
    let mut acts = coming_and_going(rt.alloc())?;
    acts.push(Act::Leave(7))?;
    for threads in [1usize, 2, 4] {
        let gate = Noting::new(rt.alloc());
        let ran = run_with(&rt, &TWO, acts.as_slice(), (threads, threads), &gate)?;
        same("fault", ran.err(), Some(Run::Broken))?;
        let noted = gate.into_noted();
        same("jobs", noted.len(), 8)?;
        holds("the caller's", noted.iter().all(|note| note.0 == 0))?;
    }
    Ok(())
}

/// Records each job for which it is consulted, with the number of the thread.
#[derive(Drop)]
pub(crate) struct Noting {
    noted: Mutex<Vec<(usize, JobName)>>,
}

impl Noting {
    pub(crate) fn new(alloc: Global) -> Noting {
        Noting {
            noted: Mutex::new(Vec::new(alloc)),
        }
    }

    pub(crate) fn into_noted(self) -> Vec<(usize, JobName)> {
        self.noted.into_inner()
    }
}

impl Gate for Noting {
    fn at(&self, worker: usize, job: JobName) -> bool {
        for _ in 0..1_000_000_000u32 {
            if let Some(mut noted) = self.noted.try_lock() {
                return noted.push((worker, job)).is_ok();
            }
        }
        false
    }
}

/// Checks that each job that was taken, by the journal, was recorded once, with the number of the
/// worker as that of the thread; and no other job.
pub(crate) fn check_noted(journal: &[Event], mut noted: Vec<(usize, JobName)>) -> Result<(), Fail> {
    for event in journal {
        if let Event::Take(worker, job) = event {
            let place = noted
                .iter()
                .position(|note| *note == (*worker as usize, *job))
                .ok_or("a job that was not noted")?;
            noted.swap_remove(place);
        }
    }
    same("jobs too many", noted.len(), 0)
}

/// The `Gate` is consulted once for each job, by the thread that takes it. Threads have the first
/// worker numbers, however many there are.
#[test]
fn the_gate_is_asked_about_each_job(rt: HostRuntime) -> Result<(), Fail> {
    let acts = commands(rt.alloc())?;
    for (threads, workers) in [(1usize, 1usize), (2, 2), (4, 4), (2, 8)] {
        let gate = Noting::new(rt.alloc());
        let core = run_with(&rt, &TWO, acts.as_slice(), (threads, workers), &gate)??;
        let events = core.into_journal().into_vec(rt.alloc())?;
        check_noted(events.as_slice(), gate.noted.into_inner())?;
    }
    Ok(())
}

/// A `new` of three snakes and a `show` for each of the first `games` games.
fn commands_without_moves(alloc: Global, games: usize) -> Result<Vec<Act>, Fail> {
    let mut acts = Vec::new(alloc);
    for game in 0..games {
        push(alloc, &mut acts, game, new_of_three(alloc)?)?;
        push(alloc, &mut acts, game, Command::Show)?;
    }
    Ok(acts)
}

/// The commands of a single game without moves have nothing to share: the caller's thread runs
/// their two jobs, however many threads are requested.
#[test]
fn one_thread_runs_a_game_without_moves(rt: HostRuntime) -> Result<(), Fail> {
    let acts = commands_without_moves(rt.alloc(), 1)?;
    for threads in [1usize, 2, 4] {
        let gate = Noting::new(rt.alloc());
        run_with(
            &rt,
            &[("a", 4096)],
            acts.as_slice(),
            (threads, threads),
            &gate,
        )??;
        let noted = gate.noted.into_inner();
        same("jobs", noted.len(), 2)?;
        let is_callers = noted.iter().all(|note| note.0 == 0);
        holds("jobs of the caller", is_callers)?;
    }
    Ok(())
}

/// Holds the jobs of the first game until six jobs of other games were asked about.
#[derive(Drop)]
struct Holding {
    others: AtomicUsize,
}

impl Gate for Holding {
    fn at(&self, _worker: usize, job: JobName) -> bool {
        if job.game > 0 {
            self.others.fetch_add(1, SeqCst);
            return true;
        }
        for _ in 0..1_000_000_000u32 {
            if self.others.load(SeqCst) >= 6 {
                return true;
            }
        }
        false
    }
}

/// While one of two threads is held in the first of four games, the other one runs the three that
/// are left, two jobs each.
#[test]
fn a_held_game_holds_up_no_other(rt: HostRuntime) -> Result<(), Fail> {
    let games = [("a", 4096), ("b", 4096), ("c", 4096), ("d", 4096)];
    let acts = commands_without_moves(rt.alloc(), 4)?;
    let gate = Holding {
        others: AtomicUsize::new(0),
    };
    run_with(&rt, &games, acts.as_slice(), (2, 2), &gate)??;
    same("jobs of the others", gate.others.load(SeqCst), 6)
}

/// Refuses one job of those that it records: the first of that kind and part.
#[derive(Drop)]
pub(crate) struct RefusingOne {
    asked: Noting,
    kind: JobKind,
    part: u8,
}

impl RefusingOne {
    pub(crate) fn new(alloc: Global, kind: JobKind, part: u8) -> RefusingOne {
        RefusingOne {
            asked: Noting::new(alloc),
            kind,
            part,
        }
    }
}

impl Gate for RefusingOne {
    fn at(&self, worker: usize, job: JobName) -> bool {
        self.asked.at(worker, job) && !(job.kind == self.kind && job.part == self.part)
    }
}

/// The jobs of a `new` and of a move of three snakes, in the order in which one thread asks.
const ASKED: [(JobKind, u8); 5] = [
    (JobKind::Begin, 0),
    (JobKind::Begin, 0),
    (JobKind::Part, 0),
    (JobKind::Part, 1),
    (JobKind::Join, 0),
];

/// A `new` and a move of three snakes for one game.
pub(crate) fn commands_of_a_move(alloc: Global) -> Result<Vec<Act>, Fail> {
    let mut acts = Vec::new(alloc);
    push(alloc, &mut acts, 0, new_of_three(alloc)?)?;
    push(alloc, &mut acts, 0, third_goes(alloc, Direction::Down)?)?;
    Ok(acts)
}

/// Checks that the gate was consulted for the first `count` of these jobs, in order, and no other.
fn check_asked(noted: &[(usize, JobName)], count: usize) -> Result<(), Fail> {
    same("jobs", noted.len(), count)?;
    for (note, wanted) in noted.iter().zip(ASKED.iter()) {
        let (worker, job) = *note;
        same("worker and game", (worker, job.game), (0, 0))?;
        same("job", (job.kind, job.part), *wanted)?;
    }
    Ok(())
}

/// One thread consults the gate for the Begin of a command, each part of its move and the Join, in
/// this order.
#[test]
fn one_thread_asks_for_begin_parts_and_join(rt: HostRuntime) -> Result<(), Fail> {
    let acts = commands_of_a_move(rt.alloc())?;
    let gate = Noting::new(rt.alloc());
    run_with(&rt, &[("a", 4096)], acts.as_slice(), (1, 1), &gate)??;
    check_asked(gate.noted.into_inner().as_slice(), 5)
}

/// Runs a `new` and a move on one thread with a gate that refuses the job: the run is broken, and
/// that job is the last one, of that many, for which the gate is consulted.
fn check_refused_at<R: Threads + Sync + AllocGlobal>(
    rt: &R,
    (kind, part): (JobKind, u8),
    count: usize,
) -> Result<(), Fail> {
    let acts = commands_of_a_move(rt.alloc())?;
    let gate = RefusingOne::new(rt.alloc(), kind, part);
    let ran = run_with(rt, &[("a", 4096)], acts.as_slice(), (1, 1), &gate)?;
    same("fault", ran.err(), Some(Run::Broken))?;
    check_asked(gate.asked.noted.into_inner().as_slice(), count)
}

/// A refused Begin breaks a run on one thread.
#[test]
fn a_refused_begin_is_heard(rt: HostRuntime) -> Result<(), Fail> {
    check_refused_at(&rt, (JobKind::Begin, 0), 1)
}

/// The first part of a move breaks a run on one thread if it is refused.
#[test]
fn a_refused_first_part_is_heard(rt: HostRuntime) -> Result<(), Fail> {
    check_refused_at(&rt, (JobKind::Part, 0), 3)
}

/// The second part of a move breaks a run on one thread if it is refused, though the first was not.
#[test]
fn a_refused_second_part_is_heard(rt: HostRuntime) -> Result<(), Fail> {
    check_refused_at(&rt, (JobKind::Part, 1), 4)
}

/// A refused Join breaks a run on one thread.
#[test]
fn a_refused_join_is_heard(rt: HostRuntime) -> Result<(), Fail> {
    check_refused_at(&rt, (JobKind::Join, 0), 5)
}
