//! For which jobs the `Gate` is consulted in runs of every shape, on one thread to four: once for
//! each, so no run was repeated. The shapes are those of tests/shapes.py, with fewer games and
//! turns.
use crate::gates::{Noting, check_noted};
use crate::player::CAP;
use crate::runs::{Ran, push, run_games};
use bs_board::{Command, Mode, TurnNumber};
use bs_samples::{row, same, setup, straight_on};
use bs_sched::SharedRow;
use bs_workers::Act;
use std::alloc::Global;
use std::test::Fail;
use std::thread::Threads;

const GAMES: [(&str, u32); 16] = [
    ("a", 16384),
    ("b", 16384),
    ("c", 16384),
    ("d", 16384),
    ("e", 16384),
    ("f", 16384),
    ("g", 16384),
    ("h", 16384),
    ("i", 16384),
    ("j", 16384),
    ("k", 16384),
    ("l", 16384),
    ("m", 16384),
    ("n", 16384),
    ("o", 16384),
    ("p", 16384),
];

const SNAKES: [(&str, i16, i16); 8] = [
    ("a", 1, 1),
    ("b", 4, 1),
    ("c", 7, 1),
    ("d", 10, 1),
    ("e", 13, 1),
    ("f", 16, 1),
    ("g", 19, 1),
    ("h", 22, 1),
];

/// Games that are played in parallel and ended, round by round.
#[derive(Clone, Copy)]
struct Shape {
    mode: Mode,
    games: usize,
    snakes: usize,
    rounds: usize,
    turns: usize,
}

/// A `new` of that many snakes, which go up side by side.
fn new_of(alloc: Global, mode: Mode, snakes: usize) -> Result<Command, Fail> {
    let places = SNAKES.get(..snakes).ok_or("the snakes")?;
    let new = setup(alloc, mode, 25, places, &[])?;
    Ok(Command::New(new.ok_or("a setup")?))
}

impl Shape {
    /// How many jobs there are: one of each `new` and `end`; of a move its Begin, its Join and a
    /// part for each two snakes.
    fn jobs(self) -> usize {
        let parts = self.snakes.saturating_add(1) / 2;
        let of_a_game = parts
            .saturating_add(2)
            .saturating_mul(self.turns)
            .saturating_add(2);
        of_a_game
            .saturating_mul(self.games)
            .saturating_mul(self.rounds)
    }

    fn push_turns(self, alloc: Global, acts: &mut Vec<Act>) -> Result<(), Fail> {
        for _ in 0..self.turns {
            for game in 0..self.games {
                push(alloc, acts, game, straight_on(alloc))?;
            }
        }
        Ok(())
    }

    fn acts(self, alloc: Global) -> Result<Vec<Act>, Fail> {
        let mut acts = Vec::new(alloc);
        for _ in 0..self.rounds {
            for game in 0..self.games {
                push(
                    alloc,
                    &mut acts,
                    game,
                    new_of(alloc, self.mode, self.snakes)?,
                )?;
            }
            self.push_turns(alloc, &mut acts)?;
            for game in 0..self.games {
                push(alloc, &mut acts, game, Command::End)?;
            }
        }
        Ok(acts)
    }
}

/// Checks that the gate was consulted for that many jobs, for each job of the journal once.
fn check_once(alloc: Global, ran: Ran, gate: Noting, jobs: usize) -> Result<(), Fail> {
    let events = ran?.into_journal().into_vec(alloc)?;
    let noted = gate.into_noted();
    same("jobs", noted.len(), jobs)?;
    check_noted(events.as_slice(), noted)
}

/// Runs the acts for the first games, on one thread to four.
fn check_acts<R: Threads + Sync + AllocGlobal>(
    rt: &R,
    acts: &[Act],
    games: usize,
    jobs: usize,
) -> Result<(), Fail> {
    let games = GAMES.get(..games).ok_or("the games")?;
    for threads in 1..5usize {
        let gate = Noting::new(rt.alloc());
        let ran = run_games(rt, games, acts, threads, &gate)?;
        check_once(rt.alloc(), ran, gate, jobs)?;
    }
    Ok(())
}

fn check_shape<R: Threads + Sync + AllocGlobal>(rt: &R, shape: Shape) -> Result<(), Fail> {
    let acts = shape.acts(rt.alloc())?;
    check_acts(rt, acts.as_slice(), shape.games, shape.jobs())
}

/// Many games of four snakes.
#[test]
fn each_job_of_many_games(rt: HostRuntime) -> Result<(), Fail> {
    let shape = Shape {
        mode: Mode::Standard,
        games: 16,
        snakes: 4,
        rounds: 2,
        turns: 6,
    };
    check_shape(&rt, shape)
}

/// A lone game of one snake, whose moves have one part.
#[test]
fn each_job_of_a_long_game(rt: HostRuntime) -> Result<(), Fail> {
    let shape = Shape {
        mode: Mode::Solo,
        games: 1,
        snakes: 1,
        rounds: 3,
        turns: 20,
    };
    check_shape(&rt, shape)
}

/// Lone games of four snakes one after the other: moves of turns 0 and 64 are shared in the first
/// game, the second and the fourth.
#[test]
fn each_job_of_lone_games(rt: HostRuntime) -> Result<(), Fail> {
    let shape = Shape {
        mode: Mode::Wrapped,
        games: 1,
        snakes: 4,
        rounds: 4,
        turns: 70,
    };
    check_shape(&rt, shape)
}

/// Two and three games: fewer than threads, or as many.
#[test]
fn each_job_of_few_games(rt: HostRuntime) -> Result<(), Fail> {
    for games in [2usize, 3] {
        let shape = Shape {
            mode: Mode::Standard,
            games,
            snakes: 3,
            rounds: 2,
            turns: 10,
        };
        check_shape(&rt, shape)?;
    }
    Ok(())
}

/// Games of eight snakes, in the modes in which there are files of them.
#[test]
fn each_job_of_large_games(rt: HostRuntime) -> Result<(), Fail> {
    for mode in [Mode::Constrictor, Mode::Wrapped, Mode::Standard] {
        let shape = Shape {
            mode,
            games: 8,
            snakes: 8,
            rounds: 1,
            turns: 8,
        };
        check_shape(&rt, shape)?;
    }
    Ok(())
}

/// A lone game of short commands, one job each.
#[test]
fn each_job_of_short_commands(rt: HostRuntime) -> Result<(), Fail> {
    let alloc = rt.alloc();
    let mut acts = Vec::new(alloc);
    push(alloc, &mut acts, 0, new_of(alloc, Mode::Solo, 1)?)?;
    for _ in 0..200u8 {
        let turn = TurnNumber::new(9).ok_or("a turn")?;
        push(alloc, &mut acts, 0, Command::Turn(turn))?;
    }
    check_acts(&rt, acts.as_slice(), 1, 201)
}

/// Stays that are admitted one after the other, play three moves of two snakes, and leave: ten jobs
/// each. They get the blocks of the plan's game, which leaves first.
#[test]
fn each_job_of_many_stays(rt: HostRuntime) -> Result<(), Fail> {
    let alloc = rt.alloc();
    let mut acts = Vec::new(alloc);
    acts.push(Act::Leave(0))?;
    for stay in 1..21usize {
        let admitted = SharedRow::new(alloc, row(alloc, "stay", 16384)?)?;
        acts.push(Act::Admit(admitted))?;
        push(alloc, &mut acts, stay, new_of(alloc, Mode::Standard, 2)?)?;
        for _ in 0..3u8 {
            push(alloc, &mut acts, stay, straight_on(alloc))?;
        }
        acts.push(Act::Leave(stay))?;
    }
    check_acts(&rt, acts.as_slice(), 1, 200)
}
