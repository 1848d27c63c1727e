//! Whole files, with any number of workers.
use crate::files::{
    AGAIN, AGAIN_TEXT, SOLO, SOLO_TEXT, STRAYS, STRAYS_TEXT, TINY, TINY_TEXT, TWO_GAMES,
    TWO_RECORDS, TWO_RECORDS_TEXT, WRAPPED, WRAPPED_TEXT, WRAPPED_TOO_EARLY_TEXT,
};
use crate::serving::{Run, is_refused, is_served, is_served_by_all, transcript};
use bs_fiber::JobName;
use bs_host::serve;
use bs_samples::{holds, same};
use bs_workers::{Gate, OpenGate};
use std::alloc::{AllocError, Global};
use std::test::Fail;
use std::thread::Threads;

#[test]
fn files_and_their_transcripts(rt: HostRuntime) -> Result<(), Fail> {
    for (file, text) in [
        (SOLO, SOLO_TEXT),
        (TWO_RECORDS, TWO_RECORDS_TEXT),
        (AGAIN, AGAIN_TEXT),
        (STRAYS, STRAYS_TEXT),
        (TINY, TINY_TEXT),
        (WRAPPED, WRAPPED_TEXT),
    ] {
        is_served_by_all(&rt, rt.alloc(), file, 12, text)?;
    }
    Ok(())
}

#[test]
fn no_snake_crosses_an_edge_in_version_one(rt: HostRuntime) -> Result<(), Fail> {
    let alloc = rt.alloc();
    let (_, lines) = WRAPPED.split_once('\n').ok_or("a plan")?;
    for plan in [
        r#"{"games":[{"game":"a","quota":4096}]}"#,
        r#"{"games":[{"game":"a","quota":4096}],"version":1}"#,
    ] {
        let file = format!(in alloc; "{plan}\n{lines}")?;
        is_served_by_all(&rt, alloc, file.as_str(), 6, WRAPPED_TOO_EARLY_TEXT)?;
    }
    Ok(())
}

#[test]
fn files_without_a_game(rt: HostRuntime) -> Result<(), Fail> {
    is_served_by_all(&rt, rt.alloc(), r#"{"games":[]}"#, 0, "")?;
    is_served_by_all(&rt, rt.alloc(), r#"{"games":[],"version":2}"#, 64, "")?;
    let stray = "{\"line\":2,\"no\":\"L1\",\"why\":\"json\"}\n";
    is_served_by_all(&rt, rt.alloc(), "{\"games\":[]}\nx", 0, stray)
}

// Compares a core that served both games with `workers` workers: its replies and charges.
fn is_finished<R: Threads + Sync>(rt: &R, alloc: Global, workers: usize) -> Result<(), Fail> {
    let mut written = Vec::new(alloc);
    let file = TWO_GAMES.as_bytes();
    let core = serve(rt, alloc, file, 12, workers, &OpenGate, &mut written)
        .ok()
        .ok_or("served")?;
    holds("the core is quiet", core.is_quiet())?;
    same("workers", core.workers(), workers)?;
    same("blocks", core.counts().size, 12)?;
    holds("two rows", core.rows() == 2)?;
    same(
        "replies",
        (core.replies(0).len(), core.replies(1).len()),
        (3, 3),
    )?;
    same("charges", (core.charge(0), core.charge(1)), (0, 128))
}

// The core that is returned has answered all commands.
#[test]
fn any_workers_answer_all(rt: HostRuntime) -> Result<(), Fail> {
    for workers in 1..5 {
        is_finished(&rt, rt.alloc(), workers)?;
    }
    Ok(())
}

/// The number of rounds in the file, which has some 90,000 bytes: several threads parse it if there
/// are several workers.
const ROUNDS: u16 = 400;

const MANY_PLAN: &str =
    r#"{"games":[{"game":"a","quota":4096},{"game":"b","quota":64},{"game":"c","quota":4096}]}
{"game":"a","do":"new","mode":"solo","width":9,"height":9,"snakes":[{"id":"s","x":1,"y":1}],"food":[],"min_food":0,"food_chance":0}
{"game":"b","do":"new","mode":"solo","width":9,"height":9,"snakes":[{"id":"s","x":1,"y":1}],"food":[],"min_food":0,"food_chance":0}"#;

// A line of each game, one of an unknown game, a blank line, and one that is not JSON.
const ROUND: &str = r#"
{"game":"a","do":"turn","at":0}
{"game":"b","do":"turn","at":0}
{"game":"z","do":"turn","at":0}
{"game":"b","do":"turn","at":1}
{"game":"c","do":"turn","at":0}
{"game":"a","do":"move","moves":{}}

{oops"#;

// Compares the number of lines of the file, and that each number of workers writes the same.
#[test]
fn any_workers_share_the_work(rt: HostRuntime) -> Result<(), Fail> {
    let alloc = rt.alloc();
    let mut file = String::from_str(alloc, MANY_PLAN)?;
    file.push_str(ROUND.repeat(alloc, ROUNDS as usize)?.as_str())?;
    let alone = Run {
        file: file.as_str(),
        blocks: 18,
        workers: 1,
    };
    let text = transcript(&rt, alloc, alone, &OpenGate)?;
    same("lines", text.lines().count(), 2 + 7 * ROUNDS as usize + 3)?;
    for workers in 2..6 {
        let run = Run { workers, ..alone };
        is_served(&rt, alloc, run, text.as_str())?;
    }
    Ok(())
}

/// Lets no job pass.
struct ShutGate;

impl Gate for ShutGate {
    fn at(&self, _worker: usize, _job: JobName) -> bool {
        false
    }
}

// A run that its `Gate` stops writes nothing. If there is no job, the `Gate` is not consulted.
#[test]
fn runs_that_are_broken_off(rt: HostRuntime) -> Result<(), Fail> {
    let alloc = rt.alloc();
    for workers in 1..5 {
        let run = Run {
            file: SOLO,
            blocks: 6,
            workers,
        };
        is_refused(&rt, alloc, run, &ShutGate, "broken")?;
    }
    let run = Run {
        file: "{\"games\":[]}\nx",
        blocks: 0,
        workers: 2,
    };
    let text = transcript(&rt, alloc, run, &ShutGate)?;
    let wanted = "{\"line\":2,\"no\":\"L1\",\"why\":\"json\"}\n";
    same("the transcript", text.as_str(), wanted)
}
