//! Readers and writers that fail at each place.
use crate::devices::{Input, Output};
use crate::files::{BLOCKS, STAYS, answers_to, stays_file, told, whole_text};
use bs_host::serve_live;
use bs_samples::same;
use std::alloc::Global;
use std::io::ErrorKind;
use std::test::Fail;

// The lines that were complete before the reader failed are answered.
#[test]
fn readers_that_fail(rt: HostRuntime) -> Result<(), Fail> {
    let alloc = rt.alloc();
    let file = stays_file(alloc)?;
    for place in 0..file.len() + 1 {
        let mut input = Input::new(file.as_bytes(), 64);
        input.fails_behind = Some(place);
        let text = told(alloc, &mut input, BLOCKS)?;
        let answers = answers_to(alloc, place)?;
        let wanted = format!(in alloc; "{answers}cannot read the file")?;
        same("the text", text.as_str(), wanted.as_str())?;
    }
    Ok(())
}

// Returns what the writer took of the file's answers, and the fault.
fn taken(alloc: Global, most: usize, mut output: Output) -> Result<(Vec<u8>, String), Fail> {
    let file = stays_file(alloc)?;
    let mut input = Input::new(file.as_bytes(), most);
    let end = match serve_live(alloc, &mut input, BLOCKS, &mut output) {
        Ok(()) => String::from_str(alloc, "served")?,
        Err(fault) => format!(in alloc; "{fault}")?,
    };
    Ok((output.taken, end))
}

// The fault gives the number of bytes that the writer took since the start.
#[test]
fn writers_that_fail(rt: HostRuntime) -> Result<(), Fail> {
    let alloc = rt.alloc();
    let text = whole_text(alloc)?;
    let failures = [
        Some(ErrorKind::BrokenPipe),
        Some(ErrorKind::Interrupted),
        Some(ErrorKind::WouldBlock),
        None,
    ];
    for place in 0..text.len() + 1 {
        let output = Output {
            taken: Vec::new(alloc),
            room: place,
            failure: failures[place % 4],
            flushes: usize::MAX,
        };
        let most = [1, 64, 65_536][place % 3];
        let (bytes, end) = taken(alloc, most, output)?;
        let wanted = if place < text.len() {
            format!(in alloc; "write failed after {place} bytes")?
        } else {
            String::from_str(alloc, "served")?
        };
        same("the fault", end.as_str(), wanted.as_str())?;
        same("the bytes", bytes.as_slice(), &text.as_bytes()[..place])?;
    }
    Ok(())
}

// Each line is read alone, so each flush writes the answer to one line.
#[test]
fn flushes_that_fail(rt: HostRuntime) -> Result<(), Fail> {
    let alloc = rt.alloc();
    let text = whole_text(alloc)?;
    let mut end = 0usize;
    for flushes in 0..STAYS.len() + 1 {
        let output = Output {
            taken: Vec::new(alloc),
            room: usize::MAX,
            failure: None,
            flushes,
        };
        let (bytes, fault) = taken(alloc, 1, output)?;
        let (answered, wanted) = if flushes + 1 < STAYS.len() {
            end = end.saturating_add(STAYS[flushes + 1].1.len());
            (end, "flush failed")
        } else if flushes + 1 == STAYS.len() {
            (text.len(), "flush failed")
        } else {
            (text.len(), "served")
        };
        same("the fault", fault.as_str(), wanted)?;
        same(
            "the bytes",
            bytes.as_slice(),
            &text.as_bytes()[..answered.min(text.len())],
        )?;
    }
    Ok(())
}
