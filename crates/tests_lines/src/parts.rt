//! The parts of a move: their number, and that two threads run two of them at the same time.
use crate::files::{SECOND_TEXT, TWO_GAMES};
use crate::serving::{Run, StayName, cut_text, outcome, transcript};
use bs_fiber::{JobKind, JobName};
use bs_samples::{holds, same};
use bs_workers::Gate;
use std::alloc::{AllocError, Global};
use std::sync::atomic::Ordering::SeqCst;
use std::sync::atomic::{AtomicBool, AtomicUsize};
use std::test::Fail;
use std::thread::Threads;

/// Delays each part of the first move until both are out.
#[derive(Drop)]
struct Meeting {
    first: AtomicBool,
    second: AtomicBool,
}

fn new_meeting() -> Meeting {
    Meeting {
        first: AtomicBool::new(false),
        second: AtomicBool::new(false),
    }
}

/// Sets its own flag and waits for the other's. Returns false if that is never set.
fn meet(own: &AtomicBool, other: &AtomicBool) -> bool {
    own.store(true, SeqCst);
    for _ in 0..1_000_000_000u32 {
        if other.load(SeqCst) {
            return true;
        }
    }
    false
}

impl Gate for Meeting {
    fn at(&self, _worker: usize, job: JobName) -> bool {
        match (job.kind, job.part) {
            (JobKind::Part, 0) => meet(&self.first, &self.second),
            (JobKind::Part, 1) => meet(&self.second, &self.first),
            _ => true,
        }
    }
}

// Two threads run parts of one move at the same time, each time: on one thread no part would see
// the other's flag, and the run would be broken off.
#[test]
fn two_parts_of_one_move_at_once(rt: HostRuntime) -> Result<(), Fail> {
    let alloc = rt.alloc();
    let stay = StayName {
        game: "b",
        number: 1,
    };
    let own = cut_text(alloc, TWO_GAMES, 12, stay)?;
    let run = Run {
        file: own.as_str(),
        blocks: 6,
        workers: 2,
    };
    let gate = new_meeting();
    let mut written = Vec::new(alloc);
    let told = outcome(&rt, alloc, run, &gate, &mut written)?;
    same("the outcome", told.as_str(), "served")?;
    let text = String::from_utf8(written).ok().ok_or("text")?;
    same("the transcript", text.as_str(), SECOND_TEXT)?;
    holds("the first part met", gate.first.load(SeqCst))?;
    holds("the second part met", gate.second.load(SeqCst))
}

// A game with the snakes that replace `SNAKES`. In its first move a snake b leaves the board.
const TWO_MOVES: &str = r#"{"games":[{"game":"g","quota":4096}]}
{"game":"g","do":"new","mode":"solo","width":25,"height":25,"snakes":[SNAKES],"food":[]}
{"game":"g","do":"move","moves":{"b":"down"}}
{"game":"g","do":"move","moves":{}}"#;

/// Counts the parts of moves.
#[derive(Drop)]
struct CountedParts {
    count: AtomicUsize,
}

impl Gate for CountedParts {
    fn at(&self, _worker: usize, job: JobName) -> bool {
        if job.kind == JobKind::Part {
            self.count.fetch_add(1, SeqCst);
        }
        true
    }
}

// Makes a snake for each letter, side by side at the lower edge.
fn snakes_of(alloc: Global, names: &str) -> Result<String, AllocError> {
    let mut snakes = String::new(alloc);
    for (index, name) in names.chars().enumerate() {
        let comma = if index > 0 { "," } else { "" };
        let x = 3 * index.min(8);
        snakes.push_str(format!(in alloc;
            "{comma}{{\"id\":\"{name}\",\"x\":{x},\"y\":0}}"
        )?.as_str())?;
    }
    Ok(snakes)
}

// Counts the parts of the two moves of these snakes.
fn parts_of<R: Threads + Sync>(rt: &R, alloc: Global, names: &str) -> Result<usize, Fail> {
    let snakes = snakes_of(alloc, names)?;
    let file = TWO_MOVES.replace(alloc, "SNAKES", snakes.as_str())?;
    let run = Run {
        file: file.as_str(),
        blocks: 6,
        workers: 2,
    };
    let gate = CountedParts {
        count: AtomicUsize::new(0),
    };
    transcript(rt, alloc, run, &gate)?;
    Ok(gate.count.load(SeqCst))
}

// The parts of two moves: n/2 for n seats, rounded up. Seats of eliminated snakes count.
#[test]
fn parts_of_each_number_of_snakes(rt: HostRuntime) -> Result<(), Fail> {
    for (names, parts) in [
        ("a", 2),
        ("ab", 2),
        ("abc", 4),
        ("abcd", 4),
        ("abcde", 6),
        ("abcdef", 6),
        ("abcdefg", 8),
        ("abcdefgh", 8),
    ] {
        same(names, parts_of(&rt, rt.alloc(), names)?, parts)?;
    }
    Ok(())
}
