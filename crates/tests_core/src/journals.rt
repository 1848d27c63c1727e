//! Copies of a core's journal, which the core keeps.
use crate::player::{CAP, core_of};
use crate::runs::{TWO, commands, made_by_calls, push, run_games};
use bs_board::{Command, Direction};
use bs_samples::{holds, new_of_three, same, third_goes};
use bs_sched::{Core, Event, LoneStay, Rest, Step};
use bs_workers::{Act, OpenGate};
use std::alloc::Global;
use std::test::Fail;

fn written(alloc: Global, events: &[Event]) -> Result<String, Fail> {
    Ok(format!(in alloc; "{events:?}")?)
}

fn count_hands(events: &[Event]) -> usize {
    let mut count = 0usize;
    for event in events {
        if let Event::Hand(_, _) = event {
            count = count.saturating_add(1);
        }
    }
    count
}

/// Two copies have the events of the journal, among them a hand for each command.
fn check_copies(alloc: Global, core: Core<CAP>, commands: usize) -> Result<(), Fail> {
    let first = core.journal().to_vec(alloc)?;
    let second = core.journal().to_vec(alloc)?;
    let own = core.into_journal().into_vec(alloc)?;
    same("hands", count_hands(first.as_slice()), commands)?;
    let own = written(alloc, own.as_slice())?;
    for copy in [first, second] {
        let copy = written(alloc, copy.as_slice())?;
        same("events", copy.as_str(), own.as_str())?;
    }
    Ok(())
}

/// The journal of a core that is played call by call is one list; of the two games of a run the
/// lists are merged.
#[test]
fn a_copy_has_the_events_of_the_journal(rt: HostRuntime) -> Result<(), Fail> {
    let alloc = rt.alloc();
    let acts = commands(alloc)?;
    let core = made_by_calls(alloc, &TWO, acts.as_slice())?;
    check_copies(alloc, core, acts.len())?;
    for threads in [1usize, 2] {
        let core = run_games(&rt, &TWO, acts.as_slice(), threads, &OpenGate)??;
        check_copies(alloc, core, acts.len())?;
    }
    Ok(())
}

/// The plan of a single game, which takes six blocks.
const ONE: [(&str, u32); 1] = [("a", 4096)];

/// Makes four commands of the game, two of them moves.
fn moves_of_one(alloc: Global) -> Result<Vec<Act>, Fail> {
    let mut acts = Vec::new(alloc);
    push(alloc, &mut acts, 0, new_of_three(alloc)?)?;
    push(alloc, &mut acts, 0, third_goes(alloc, Direction::Down)?)?;
    push(alloc, &mut acts, 0, third_goes(alloc, Direction::Left)?)?;
    push(alloc, &mut acts, 0, Command::Show)?;
    Ok(acts)
}

/// What is left of a core of the game whose blocks the stay has.
fn rest_of_one(alloc: Global) -> Result<Rest<CAP>, Fail> {
    let rest = core_of(alloc, &ONE, 6)?.into_rest(alloc)?;
    Ok(Rest {
        free: Vec::new(alloc),
        ..rest
    })
}

/// Puts the stay together to a core, as a run of that many commands does.
fn put_together(alloc: Global, stay: LoneStay<CAP>, commands: usize) -> Result<Core<CAP>, Fail> {
    let mut stays = Vec::new(alloc);
    stays.push(stay)?;
    let mut order = Vec::new(alloc);
    for _ in 0..commands {
        order.push(Step::Hand(0))?;
    }
    let rest = rest_of_one(alloc)?;
    Ok(Core::assemble_stays(alloc, rest, stays, order)?)
}

/// The stay of a core that was put together has that core's events when it is put together anew.
#[test]
fn a_core_is_put_together_twice(rt: HostRuntime) -> Result<(), Fail> {
    let alloc = rt.alloc();
    let acts = moves_of_one(alloc)?;
    let core = run_games(&rt, &ONE, acts.as_slice(), 1, &OpenGate)??;
    let events = core.journal().to_vec(alloc)?;
    holds("events", events.len() > acts.len())?;
    let first = written(alloc, events.as_slice())?;
    holds("one stay", core.rows() == 1)?;
    let again = put_together(alloc, core.into_lone(), acts.len())?;
    let second = written(alloc, again.into_journal().into_vec(alloc)?.as_slice())?;
    same("events", second.as_str(), first.as_str())
}
