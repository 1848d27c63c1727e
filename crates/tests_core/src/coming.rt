//! Runs in which games are admitted and leave, and runs whose acts are refused.
use crate::player::CAP;
use crate::runs::{TWO, push, run_games};
use bs_board::{Command, Direction};
use bs_fiber::SharedCommand;
use bs_samples::{holds, new_of_three, new_solo, row, same, third_goes};
use bs_sched::{Core, SharedRow};
use bs_workers::{Act, OpenGate, Run};
use std::alloc::{AllocError, Global};
use std::test::Fail;
use std::thread::Threads;

/// A game is admitted, plays and leaves while another plays; then one of the same name. There are
/// blocks for each of them only once another game has left.
pub(crate) fn coming_and_going(alloc: Global) -> Result<Vec<Act>, Fail> {
    let mut acts = Vec::new(alloc);
    push(alloc, &mut acts, 0, new_of_three(alloc)?)?;
    push_first_stay(alloc, &mut acts)?;
    push_second_stay(alloc, &mut acts)?;
    Ok(acts)
}

pub(crate) fn push_admit(alloc: Global, acts: &mut Vec<Act>, name: &str) -> Result<(), Fail> {
    acts.push(Act::Admit(SharedRow::new(alloc, row(alloc, name, 64)?)?))?;
    Ok(())
}

/// Adds the stay of `c` that plays a move.
fn push_first_stay(alloc: Global, acts: &mut Vec<Act>) -> Result<(), Fail> {
    acts.push(Act::Leave(1))?;
    push_admit(alloc, acts, "c")?;
    push(alloc, acts, 2, new_of_three(alloc)?)?;
    push(alloc, acts, 2, third_goes(alloc, Direction::Down)?)?;
    acts.push(Act::Leave(2))?;
    Ok(())
}

/// Adds another stay of `c`, and a `show` for each game that is open.
fn push_second_stay(alloc: Global, acts: &mut Vec<Act>) -> Result<(), Fail> {
    push_admit(alloc, acts, "c")?;
    push(alloc, acts, 3, Command::Show)?;
    push(alloc, acts, 0, Command::Show)?;
    Ok(())
}

/// Checks whether the stay is open, how many replies it has, and whether it has a board.
fn check_stay(
    alloc: Global,
    core: &Core<CAP>,
    game: usize,
    is_open: bool,
    (replies, has_board): (usize, bool),
) -> Result<(), Fail> {
    holds("a stay", game < core.rows())?;
    same("open", core.is_open(game), is_open)?;
    same("replies", core.replies(game).len(), replies)?;
    same("a board", core.board(alloc, game)?.is_some(), has_board)
}

/// Each game leaves once it has answered, whatever the number of threads, and its answers are kept.
#[test]
fn games_come_and_go(rt: HostRuntime) -> Result<(), Fail> {
    let alloc = rt.alloc();
    let acts = coming_and_going(alloc)?;
    for threads in [1usize, 2, 4] {
        let core = run_games(&rt, &TWO, acts.as_slice(), threads, &OpenGate)??;
        check_stays(alloc, &core)?;
    }
    Ok(())
}

/// Checks the four stays of games that came and went.
fn check_stays(alloc: Global, core: &Core<CAP>) -> Result<(), Fail> {
    same("stays", core.rows(), 4)?;
    check_stay(alloc, core, 0, true, (2, true))?;
    check_stay(alloc, core, 1, false, (0, false))?;
    check_stay(alloc, core, 2, false, (2, true))?;
    check_stay(alloc, core, 3, true, (1, false))
}

fn check_broken<R: Threads + Sync + AllocGlobal>(
    rt: &R,
    acts: &[Act],
    threads: usize,
) -> Result<(), Fail> {
    let ran = run_games(rt, &TWO, acts, threads, &OpenGate)?;
    same("fault", ran.err(), Some(Run::Broken))
}

/// A command for a row that the plan does not have stops the run, alone and among other acts.
#[test]
fn a_command_for_no_row_breaks_the_run(rt: HostRuntime) -> Result<(), Fail> {
    let alloc = rt.alloc();
    let mut acts = crate::runs::commands(alloc)?;
    push(alloc, &mut acts, 2, Command::Show)?;
    for threads in [0usize, 1, 2, 4] {
        check_broken(&rt, acts.as_slice(), threads)?;
    }
    let mut alone = Vec::new(alloc);
    push(alloc, &mut alone, usize::MAX, Command::Show)?;
    check_broken(&rt, alone.as_slice(), 2)
}

/// Makes lists of acts of which the last is refused: an admission whose name is taken, and one
/// whose blocks are not free; a leave and a command of a game that has left; a leave of a game that
/// was never admitted.
fn refused(alloc: Global) -> Result<Vec<Vec<Act>>, Fail> {
    let mut lists = Vec::new(alloc);
    lists.push(left_and_admitted(alloc, &[0], "b")?)?;
    lists.push(left_and_admitted(alloc, &[], "c")?)?;
    lists.push(left(alloc, &[1, 1])?)?;
    lists.push(left_and_handed(alloc)?)?;
    lists.push(left(alloc, &[2])?)?;
    Ok(lists)
}

/// Makes a leave of each of these games.
fn left(alloc: Global, games: &[usize]) -> Result<Vec<Act>, AllocError> {
    let mut acts = Vec::new(alloc);
    for &game in games {
        acts.push(Act::Leave(game))?;
    }
    Ok(acts)
}

/// Makes a leave of each of these games, and an admission.
fn left_and_admitted(alloc: Global, games: &[usize], name: &str) -> Result<Vec<Act>, Fail> {
    let mut acts = left(alloc, games)?;
    push_admit(alloc, &mut acts, name)?;
    Ok(acts)
}

/// Makes a leave of a game and a command for it.
fn left_and_handed(alloc: Global) -> Result<Vec<Act>, AllocError> {
    let mut acts = left(alloc, &[1])?;
    push(alloc, &mut acts, 1, Command::Show)?;
    Ok(acts)
}

/// A refused act stops the run, both as the last act and before others.
#[test]
fn a_refused_act_breaks_the_run(rt: HostRuntime) -> Result<(), Fail> {
    let alloc = rt.alloc();
    for threads in [1usize, 2, 4] {
        for acts in refused(alloc)? {
            check_refused(&rt, acts, threads)?;
        }
    }
    Ok(())
}

/// Checks that the last act is refused, also if a command follows it.
fn check_refused<R: Threads + Sync + AllocGlobal>(
    rt: &R,
    acts: Vec<Act>,
    threads: usize,
) -> Result<(), Fail> {
    let mut acts = acts;
    check_broken(rt, acts.as_slice(), threads)?;
    push(rt.alloc(), &mut acts, 0, Command::Show)?;
    check_broken(rt, acts.as_slice(), threads)
}

/// The number of acts in one list: more than four times 1,024.
const MANY: usize = 5_000;

/// Makes a setup, and `show` for the two games by turns.
fn many_acts(alloc: Global) -> Result<Vec<Act>, Fail> {
    let show = SharedCommand::new(alloc, Command::Show)?;
    let mut acts = Vec::new(alloc);
    push(alloc, &mut acts, 0, new_solo(alloc, 3)?)?;
    for number in 1..MANY {
        acts.push(Act::Hand(number % 2, show.share()?))?;
    }
    Ok(acts)
}

/// All acts of a long list are made, and all its commands answered.
#[test]
fn all_acts_of_a_long_list_are_made(rt: HostRuntime) -> Result<(), Fail> {
    let acts = many_acts(rt.alloc())?;
    for threads in [1usize, 2] {
        let core = run_games(&rt, &TWO, acts.as_slice(), threads, &OpenGate)??;
        holds("two games", core.rows() == 2)?;
        same("replies", core.replies(0).len(), 2_500)?;
        same("replies", core.replies(1).len(), 2_500)?;
    }
    Ok(())
}
