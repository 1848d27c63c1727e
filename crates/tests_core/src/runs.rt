//! Runs of two games of three snakes: their acts, and runs of any acts, also call by call.
use crate::here::answer_next;
use crate::player::{CAP, core_of};
use bs_board::{Command, Direction, TurnNumber};
use bs_fiber::SharedCommand;
use bs_samples::{holds, new_of_three, plan_of, same, third_goes};
use bs_sched::{Core, MOST_WORKERS};
use bs_workers::{Act, Gate, Run, run_any};
use std::alloc::{AllocError, Global};
use std::test::Fail;
use std::thread::Threads;

/// The result of a run.
pub(crate) type Ran = Result<Core<CAP>, Run>;

/// The two games of a run.
pub(crate) const TWO: [(&str, u32); 2] = [("a", 4096), ("b", 4096)];

/// Adds a command for that game.
pub(crate) fn push(
    alloc: Global,
    acts: &mut Vec<Act>,
    game: usize,
    command: Command,
) -> Result<(), AllocError> {
    acts.push(Act::Hand(game, SharedCommand::new(alloc, command)?))?;
    Ok(())
}

/// Adds six moves of the third snake, three in each game, each with a `show` in the other game.
fn push_moves(alloc: Global, acts: &mut Vec<Act>) -> Result<(), Fail> {
    for (game, direction) in [
        (0usize, Direction::Down),
        (1, Direction::Left),
        (1, Direction::Down),
        (0, Direction::Right),
        (1, Direction::Right),
        (0, Direction::Up),
    ] {
        push(alloc, acts, game, third_goes(alloc, direction)?)?;
        push(alloc, acts, 1 - game, Command::Show)?;
    }
    Ok(())
}

/// Makes the commands of both games by turns, nine for each.
pub(crate) fn commands(alloc: Global) -> Result<Vec<Act>, Fail> {
    let mut acts = Vec::new(alloc);
    for game in 0..2usize {
        push(alloc, &mut acts, game, new_of_three(alloc)?)?;
    }
    push_moves(alloc, &mut acts)?;
    push_others(alloc, &mut acts)?;
    Ok(acts)
}

/// Adds two commands for each game after its moves.
fn push_others(alloc: Global, acts: &mut Vec<Act>) -> Result<(), Fail> {
    let turn = TurnNumber::new(1).ok_or("a turn")?;
    push(alloc, acts, 0, Command::Turn(turn))?;
    push(alloc, acts, 1, Command::End)?;
    push(alloc, acts, 1, Command::Show)?;
    push(alloc, acts, 0, Command::Bad)?;
    Ok(())
}

/// Answers the commands that wait in the core, at most that many, one after the other.
fn answer_waiting(alloc: Global, core: &mut Core<CAP>, most: usize) -> Result<(), Fail> {
    for _ in 0..most {
        if answer_next(alloc, core, 0)?.is_none() {
            break;
        }
    }
    holds("quiet", core.is_quiet())
}

/// Makes the act by its call. Before a stay leaves, all commands are answered, at most that many.
fn make(alloc: Global, core: &mut Core<CAP>, act: &Act, most: usize) -> Result<(), Fail> {
    match act {
        Act::Hand(stay, command) => {
            holds("a stay", *stay < core.rows())?;
            holds("an open stay", core.is_open(*stay))?;
            Ok(core.hand(*stay, command.share()?)?)
        }
        Act::Admit(row) => {
            let admitted = core.admit(alloc, row.get().copy(alloc)?);
            holds("admitted", admitted.is_ok())
        }
        Act::Leave(stay) => {
            answer_waiting(alloc, core, most)?;
            holds("a stay", *stay < core.rows())?;
            holds("left", core.leave(alloc, *stay).is_ok())
        }
    }
}

/// Makes the acts in a core of those games with six blocks for each, call by call, with no run.
pub(crate) fn made_by_calls(
    alloc: Global,
    games: &[(&str, u32)],
    acts: &[Act],
) -> Result<Core<CAP>, Fail> {
    let mut core = core_of(alloc, games, games.len().saturating_mul(6))?;
    for act in acts {
        make(alloc, &mut core, act, acts.len())?;
    }
    answer_waiting(alloc, &mut core, acts.len())?;
    Ok(core)
}

/// Runs the acts in a core of those games with six blocks for each, on that many threads.
pub(crate) fn run_games<R: Threads + Sync + AllocGlobal, G: Gate>(
    rt: &R,
    games: &[(&str, u32)],
    acts: &[Act],
    threads: usize,
    gate: &G,
) -> Result<Ran, Fail> {
    run_with(rt, games, acts, (threads, threads), gate)
}

/// Runs the acts in a core of those games with six blocks for each, on that many threads and
/// workers.
pub(crate) fn run_with<R: Threads + Sync + AllocGlobal, G: Gate>(
    rt: &R,
    games: &[(&str, u32)],
    acts: &[Act],
    (threads, workers): (usize, usize),
    gate: &G,
) -> Result<Ran, Fail> {
    holds("few workers", workers <= MOST_WORKERS)?;
    let alloc = rt.alloc();
    let blocks = games.len().saturating_mul(6);
    let core = Core::<CAP>::open(alloc, plan_of(alloc, games)?, blocks, workers)?;
    Ok(run_any(rt, alloc, core, acts, threads, gate))
}
