//! Serves files and compares their transcripts.
use bs_host::{cut, serve};
use bs_samples::same;
use bs_workers::{Gate, OpenGate};
use std::alloc::{AllocError, Global};
use std::io::Write;
use std::test::Fail;
use std::thread::Threads;

/// A file and how it is served.
#[derive(Clone, Copy)]
pub struct Run<'a> {
    pub file: &'a str,
    pub blocks: usize,
    pub workers: usize,
}

// The name of a file in the message of a failed check.
fn first_line(file: &str) -> &str {
    match file.split_once('\n') {
        Some((first, _)) => first,
        None => file,
    }
}

/// Serves a file to a writer, and returns "served" or the fault.
pub fn outcome<R: Threads + Sync, G: Gate, W: Write>(
    rt: &R,
    alloc: Global,
    run: Run<'_>,
    gate: &G,
    output: &mut W,
) -> Result<String, AllocError> {
    let file = run.file.as_bytes();
    match serve(rt, alloc, file, run.blocks, run.workers, gate, output) {
        Ok(_) => String::from_str(alloc, "served"),
        Err(fault) => format!(in alloc; "{fault}"),
    }
}

/// Returns the transcript of a file that is served with this `Gate`, which lets all jobs pass.
pub fn transcript<R: Threads + Sync, G: Gate>(
    rt: &R,
    alloc: Global,
    run: Run<'_>,
    gate: &G,
) -> Result<String, Fail> {
    let mut written = Vec::new(alloc);
    let told = outcome(rt, alloc, run, gate, &mut written)?;
    same(first_line(run.file), told.as_str(), "served")?;
    Ok(String::from_utf8(written).ok().ok_or("text")?)
}

/// Compares the transcript of a file with a text.
pub fn is_served<R: Threads + Sync>(
    rt: &R,
    alloc: Global,
    run: Run<'_>,
    wanted: &str,
) -> Result<(), Fail> {
    let text = transcript(rt, alloc, run, &OpenGate)?;
    same(first_line(run.file), text.as_str(), wanted)
}

/// Compares the transcripts by 1 to 4 workers with a text.
pub fn is_served_by_all<R: Threads + Sync>(
    rt: &R,
    alloc: Global,
    file: &str,
    blocks: usize,
    wanted: &str,
) -> Result<(), Fail> {
    for workers in 1..5 {
        let run = Run {
            file,
            blocks,
            workers,
        };
        is_served(rt, alloc, run, wanted)?;
    }
    Ok(())
}

/// Compares the fault of a file that is refused, and checks that nothing is written.
pub fn is_refused<R: Threads + Sync, G: Gate>(
    rt: &R,
    alloc: Global,
    run: Run<'_>,
    gate: &G,
    fault: &str,
) -> Result<(), Fail> {
    let mut written = Vec::new(alloc);
    let told = outcome(rt, alloc, run, gate, &mut written)?;
    same(first_line(run.file), told.as_str(), fault)?;
    same("what is written", written.len(), 0)
}

/// A game, and which of its stays a file is cut to.
#[derive(Clone, Copy)]
pub struct StayName<'a> {
    pub game: &'a str,
    pub number: usize,
}

/// Returns the cut of a file to one stay, or the fault.
pub fn cut_text(
    alloc: Global,
    file: &str,
    blocks: usize,
    stay: StayName<'_>,
) -> Result<String, Fail> {
    match cut(alloc, file.as_bytes(), blocks, stay.game, stay.number) {
        Ok(text) => Ok(String::from_utf8(text).ok().ok_or("text")?),
        Err(fault) => Ok(format!(in alloc; "{fault}")?),
    }
}
