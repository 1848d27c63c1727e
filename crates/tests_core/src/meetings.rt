//! Moves of a lone game whose parts run on several threads at the same time.
use crate::gates::{Noting, RefusingOne, check_noted, commands_of_a_move};
use crate::player::CAP;
use crate::runs::{TWO, push, run_games};
use bs_board::{Command, Direction, Mode};
use bs_fiber::{JobKind, JobName};
use bs_samples::{holds, new_of_three, same, setup, straight_on, third_goes};
use bs_sched::Core;
use bs_workers::{Act, Gate, Run, is_shared};
use std::alloc::Global;
use std::sync::atomic::Ordering::SeqCst;
use std::sync::atomic::{AtomicBool, AtomicUsize};
use std::test::Fail;
use std::thread::Threads;

const ONE: [(&str, u32); 1] = [("a", 16384)];

/// Delays the first `wanted` parts of one move until all of them have begun. Refuses them if they
/// do not in time.
#[derive(Drop)]
struct Meeting {
    wanted: usize,
    /// The number of the move's Begin among those of all commands, from 1.
    at: usize,
    begun: AtomicUsize,
    /// Whether each part has begun.
    here: [AtomicBool; 4],
    /// The number of the thread of each part, and 1.
    threads: [AtomicUsize; 4],
}

impl Meeting {
    fn new(at: usize, wanted: usize) -> Meeting {
        Meeting {
            wanted,
            at,
            begun: AtomicUsize::new(0),
            here: [
                AtomicBool::new(false),
                AtomicBool::new(false),
                AtomicBool::new(false),
                AtomicBool::new(false),
            ],
            threads: [
                AtomicUsize::new(0),
                AtomicUsize::new(0),
                AtomicUsize::new(0),
                AtomicUsize::new(0),
            ],
        }
    }

    /// Counts the parts that have begun, of those that wait.
    fn count(&self) -> usize {
        self.here
            .iter()
            .take(self.wanted)
            .filter(|part| part.load(SeqCst))
            .count()
    }

    /// Records the part's thread, and waits for the others.
    fn meet(&self, thread: usize, part: usize) -> bool {
        let (Some(here), Some(own)) = (self.here.get(part), self.threads.get(part)) else {
            return false;
        };
        own.store(thread.saturating_add(1), SeqCst);
        here.store(true, SeqCst);
        if part >= self.wanted {
            return true;
        }
        for _ in 0..100_000_000u32 {
            if self.count() >= self.wanted {
                return true;
            }
        }
        false
    }
}

impl Gate for Meeting {
    fn at(&self, worker: usize, job: JobName) -> bool {
        if job.kind == JobKind::Begin {
            self.begun.fetch_add(1, SeqCst);
        }
        if job.kind == JobKind::Part && self.begun.load(SeqCst) == self.at {
            return self.meet(worker, job.part as usize);
        }
        true
    }
}

/// Runs the acts once on that many threads: as many parts as wait meet, and of `parts` parts each
/// runs on the thread of its number, or of the rest by the number of threads.
fn check_meeting<R: Threads + Sync + AllocGlobal>(
    rt: &R,
    games: &[(&str, u32)],
    acts: &[Act],
    threads: usize,
    (gate, parts): (Meeting, usize),
) -> Result<(), Fail> {
    let core = run_games(rt, games, acts, threads, &gate)??;
    holds("quiet", core.is_quiet())?;
    for part in 0..parts {
        let own = gate.threads.get(part).ok_or("a part")?.load(SeqCst);
        let wanted = part.checked_rem(threads).ok_or("a thread")?;
        same("the thread of a part", own, wanted.saturating_add(1))?;
    }
    Ok(())
}

/// The two parts of the first move run on two threads at the same time, each time.
#[test]
fn two_parts_meet_at_the_first_move(rt: HostRuntime) -> Result<(), Fail> {
    let acts = commands_of_a_move(rt.alloc())?;
    check_meeting(&rt, &ONE, acts.as_slice(), 2, (Meeting::new(2, 2), 2))
}

/// So do those of the first move of a second game.
#[test]
fn two_parts_meet_at_the_first_move_of_a_second_game(rt: HostRuntime) -> Result<(), Fail> {
    let alloc = rt.alloc();
    let mut acts = Vec::new(alloc);
    for _ in 0..2u8 {
        push(alloc, &mut acts, 0, new_of_three(alloc)?)?;
        push(alloc, &mut acts, 0, third_goes(alloc, Direction::Down)?)?;
        push(alloc, &mut acts, 0, Command::End)?;
    }
    check_meeting(&rt, &ONE, acts.as_slice(), 2, (Meeting::new(5, 2), 2))
}

/// A `new` of eight snakes and a move of four parts.
fn move_of_four_parts(alloc: Global) -> Result<Vec<Act>, Fail> {
    let places = [
        ("a", 1, 1),
        ("b", 4, 1),
        ("c", 7, 1),
        ("d", 10, 1),
        ("e", 13, 1),
        ("f", 16, 1),
        ("g", 19, 1),
        ("h", 22, 1),
    ];
    let new = setup(alloc, Mode::Standard, 25, &places, &[])?;
    let mut acts = Vec::new(alloc);
    push(alloc, &mut acts, 0, Command::New(new.ok_or("a setup")?))?;
    push(alloc, &mut acts, 0, straight_on(alloc))?;
    Ok(acts)
}

/// Of four parts the first two meet on two threads.
#[test]
fn four_parts_meet_on_two_threads(rt: HostRuntime) -> Result<(), Fail> {
    let acts = move_of_four_parts(rt.alloc())?;
    check_meeting(&rt, &ONE, acts.as_slice(), 2, (Meeting::new(2, 2), 4))
}

/// Three of four parts meet on three threads.
#[test]
fn four_parts_meet_on_three_threads(rt: HostRuntime) -> Result<(), Fail> {
    let acts = move_of_four_parts(rt.alloc())?;
    check_meeting(&rt, &ONE, acts.as_slice(), 3, (Meeting::new(2, 3), 4))
}

/// Four parts meet on four threads.
#[test]
fn four_parts_meet_on_four_threads(rt: HostRuntime) -> Result<(), Fail> {
    let acts = move_of_four_parts(rt.alloc())?;
    check_meeting(&rt, &ONE, acts.as_slice(), 4, (Meeting::new(2, 4), 4))
}

/// In a file of two games of which one moves, the parts of its first move meet. Its Begin is the
/// last of four.
#[test]
fn two_parts_meet_beside_a_game_without_moves(rt: HostRuntime) -> Result<(), Fail> {
    let alloc = rt.alloc();
    let mut acts = Vec::new(alloc);
    push(alloc, &mut acts, 0, new_of_three(alloc)?)?;
    push(alloc, &mut acts, 1, new_of_three(alloc)?)?;
    push(alloc, &mut acts, 1, third_goes(alloc, Direction::Down)?)?;
    push(alloc, &mut acts, 0, Command::Show)?;
    check_meeting(&rt, &TWO, acts.as_slice(), 2, (Meeting::new(4, 2), 2))
}

/// A lone game is shared at its first move, then after 64 turns, after 128 more, and so on.
#[test]
fn a_game_is_shared_less_and_less(_rt: HostRuntime) -> Result<(), Fail> {
    let wanted = [0u16, 64, 192, 448, 960, 1984, 4032, 8128];
    for turn in 0..10_000u16 {
        same("a shared turn", is_shared(1, turn), wanted.contains(&turn))?;
    }
    for games in 0..1_000u64 {
        let wanted = [1u64, 2, 4, 8, 16, 32, 64, 128, 256, 512].contains(&games);
        same("a shared game", is_shared(games, 0), wanted)?;
    }
    Ok(())
}

/// The gate is consulted once for each job of a shared move, by the thread that runs it.
#[test]
fn the_gate_is_asked_about_each_shared_job(rt: HostRuntime) -> Result<(), Fail> {
    let acts = move_of_four_parts(rt.alloc())?;
    for threads in [2usize, 3, 4] {
        let gate = Noting::new(rt.alloc());
        let core: Core<CAP> = run_games(&rt, &ONE, acts.as_slice(), threads, &gate)??;
        let events = core.into_journal().into_vec(rt.alloc())?;
        check_noted(events.as_slice(), gate.into_noted())?;
    }
    Ok(())
}

/// A run on two threads with a gate that refuses the job is broken.
fn check_refused<R: Threads + Sync + AllocGlobal>(
    rt: &R,
    kind: JobKind,
    part: u8,
) -> Result<(), Fail> {
    let acts = commands_of_a_move(rt.alloc())?;
    let gate = RefusingOne::new(rt.alloc(), kind, part);
    let ran = run_games(rt, &ONE, acts.as_slice(), 2, &gate)?;
    same("fault", ran.err(), Some(Run::Broken))
}

/// A refused Begin breaks a run on two threads.
#[test]
fn a_shared_begin_is_heard(rt: HostRuntime) -> Result<(), Fail> {
    check_refused(&rt, JobKind::Begin, 0)
}

/// A part that the caller's thread is refused breaks the run.
#[test]
fn a_shared_first_part_is_heard(rt: HostRuntime) -> Result<(), Fail> {
    check_refused(&rt, JobKind::Part, 0)
}

/// A part that the other thread is refused breaks the run.
#[test]
fn a_shared_second_part_is_heard(rt: HostRuntime) -> Result<(), Fail> {
    check_refused(&rt, JobKind::Part, 1)
}

/// A refused Join of a move that two threads share breaks the run.
#[test]
fn a_shared_join_is_heard(rt: HostRuntime) -> Result<(), Fail> {
    check_refused(&rt, JobKind::Join, 0)
}

/// Refuses the jobs of that game.
#[derive(Clone, Copy)]
struct RefusingGame {
    game: u32,
}

impl Gate for RefusingGame {
    fn at(&self, _worker: usize, job: JobName) -> bool {
        job.game != self.game
    }
}

/// A refusal of any thread breaks a run of four games, whichever of them it is.
#[test]
fn a_refusal_of_any_thread_is_heard(rt: HostRuntime) -> Result<(), Fail> {
    let alloc = rt.alloc();
    let games = [("a", 4096), ("b", 4096), ("c", 4096), ("d", 4096)];
    let mut acts = Vec::new(alloc);
    for game in 0..4usize {
        push(alloc, &mut acts, game, new_of_three(alloc)?)?;
        push(alloc, &mut acts, game, third_goes(alloc, Direction::Down)?)?;
    }
    for threads in [2usize, 3, 4] {
        for game in 0..4u32 {
            let gate = RefusingGame { game };
            let ran = run_games(&rt, &games, acts.as_slice(), threads, &gate)?;
            same("fault", ran.err(), Some(Run::Broken))?;
        }
    }
    Ok(())
}
