//! Stays that come and go, played on one thread and several.
use crate::coming::push_admit;
use crate::gates::{Noting, check_noted};
use crate::player::CAP;
use crate::runs::{made_by_calls, push, run_games};
use crate::threads::{check_records, check_replies};
use bs_board::{Command, Direction};
use bs_fiber::JobName;
use bs_samples::{holds, new_of_three, same, third_goes};
use bs_sched::{Core, Event};
use bs_workers::{Act, Gate, OpenGate};
use std::alloc::Global;
use std::sync::atomic::AtomicUsize;
use std::sync::atomic::Ordering::SeqCst;
use std::test::Fail;
use std::thread::Threads;

const FOUR: [(&str, u32); 4] = [("a", 4096), ("b", 4096), ("c", 4096), ("d", 4096)];

const NAMES: [&str; 4] = ["e", "f", "g", "h"];

/// The stays of the plan and three rounds of four that are admitted.
const STAYS: usize = 16;

/// Adds a game of two moves for the stay.
fn push_game(alloc: Global, acts: &mut Vec<Act>, stay: usize) -> Result<(), Fail> {
    push(alloc, acts, stay, new_of_three(alloc)?)?;
    push(alloc, acts, stay, third_goes(alloc, Direction::Down)?)?;
    push(alloc, acts, stay, third_goes(alloc, Direction::Left)?)?;
    Ok(())
}

/// Adds a `show` and a leave for each stay of a round, from that number on, if the stay leaves. The
/// first two of the last round stay open.
fn push_leaves(alloc: Global, acts: &mut Vec<Act>, first: usize) -> Result<(), Fail> {
    for stay in first..first.saturating_add(4) {
        push(alloc, acts, stay, Command::Show)?;
        if stay != 12 && stay != 13 {
            acts.push(Act::Leave(stay))?;
        }
    }
    Ok(())
}

/// The games of the plan play and leave; then three rounds of four stays are admitted, play, and
/// leave, but for two of them.
fn rounds(alloc: Global) -> Result<Vec<Act>, Fail> {
    let mut acts = Vec::new(alloc);
    for first in [0usize, 4, 8, 12] {
        for (place, name) in NAMES.iter().enumerate() {
            if first > 0 {
                push_admit(alloc, &mut acts, name)?;
            }
            push_game(alloc, &mut acts, first.saturating_add(place))?;
        }
        push_leaves(alloc, &mut acts, first)?;
    }
    Ok(acts)
}

/// Checks that the stay of both cores is open or not, and has the same replies and records.
fn check_stay(alloc: Global, one: &Core<CAP>, other: &Core<CAP>, stay: usize) -> Result<(), Fail> {
    holds("a stay", stay < one.rows() && stay < other.rows())?;
    same("open", one.is_open(stay), other.is_open(stay))?;
    same("replies", one.replies(stay).len(), 4)?;
    check_replies(alloc, one, other, stay)?;
    check_records(one, other, stay)
}

/// Stays that come and go have the replies, boards and records of a core that is played call by
/// call, whatever the number of threads, and as many blocks are free.
#[test]
fn any_number_of_threads_plays_the_same_stays(rt: HostRuntime) -> Result<(), Fail> {
    let acts = rounds(rt.alloc())?;
    let wanted = made_by_calls(rt.alloc(), &FOUR, acts.as_slice())?;
    same("stays", wanted.rows(), STAYS)?;
    for threads in [1usize, 2, 3, 4, 7] {
        let core = run_games(&rt, &FOUR, acts.as_slice(), threads, &OpenGate)??;
        same("stays", core.rows(), STAYS)?;
        same("free", core.counts().free, wanted.counts().free)?;
        for stay in 0..STAYS {
            check_stay(rt.alloc(), &core, &wanted, stay)?;
        }
    }
    Ok(())
}

/// The kind and the row of an act; none of a job.
fn act_of(event: &Event) -> Option<(u8, u32)> {
    match event {
        Event::Hand(row, _) => Some((0, *row)),
        Event::Admit(_) => Some((1, 0)),
        Event::Leave(row) => Some((2, *row)),
        _ => None,
    }
}

/// The acts that the core's journal makes, in its order, as text. There are that many.
fn acts_in(alloc: Global, core: Core<CAP>, acts: usize) -> Result<String, Fail> {
    let events = core.into_journal().into_vec(alloc)?;
    let mut seen = Vec::new(alloc);
    for event in events.iter() {
        if let Some(act) = act_of(event) {
            seen.push(act)?;
        }
    }
    same("acts", seen.len(), acts)?;
    Ok(format!(in alloc; "{seen:?}")?)
}

/// The journal has the acts in their order, whatever the number of threads.
#[test]
fn the_journal_of_stays_has_the_acts_in_order(rt: HostRuntime) -> Result<(), Fail> {
    let alloc = rt.alloc();
    let acts = rounds(alloc)?;
    let wanted = made_by_calls(alloc, &FOUR, acts.as_slice())?;
    let wanted = acts_in(alloc, wanted, acts.len())?;
    for threads in [1usize, 2, 4] {
        let core = run_games(&rt, &FOUR, acts.as_slice(), threads, &OpenGate)??;
        let others = acts_in(alloc, core, acts.len())?;
        same("acts", others.as_str(), wanted.as_str())?;
    }
    Ok(())
}

/// The `Gate` is consulted once for each job of stays that come and go, by the thread that runs it.
#[test]
fn the_gate_is_asked_about_each_job_of_stays(rt: HostRuntime) -> Result<(), Fail> {
    let acts = rounds(rt.alloc())?;
    for threads in [1usize, 2, 4] {
        let gate = Noting::new(rt.alloc());
        let core = run_games(&rt, &FOUR, acts.as_slice(), threads, &gate)??;
        let events = core.into_journal().into_vec(rt.alloc())?;
        check_noted(events.as_slice(), gate.into_noted())?;
    }
    Ok(())
}

/// Holds the jobs of a stay until six jobs of other stays were asked about.
#[derive(Drop)]
struct HoldingStay {
    held: u32,
    others: AtomicUsize,
}

impl Gate for HoldingStay {
    fn at(&self, _worker: usize, job: JobName) -> bool {
        if job.game != self.held {
            self.others.fetch_add(1, SeqCst);
            return true;
        }
        for _ in 0..1_000_000_000u32 {
            if self.others.load(SeqCst) >= 6 {
                return true;
            }
        }
        false
    }
}

/// While one of two threads is held in a stay that leaves, the other one plays the next ones.
#[test]
fn a_held_stay_holds_up_no_other(rt: HostRuntime) -> Result<(), Fail> {
    let acts = rounds(rt.alloc())?;
    let gate = HoldingStay {
        held: 0,
        others: AtomicUsize::new(0),
    };
    let core = run_games(&rt, &FOUR, acts.as_slice(), 2, &gate)??;
    same("stays", core.rows(), STAYS)
}
