//! Writers and readers that fail at each place: the host retries nothing.
use crate::fakes::{FalteringReader, NarrowWriter, StumblingWriter};
use crate::files::{SOLO, SOLO_TEXT, TWO_GAMES};
use crate::serving::{Run, outcome};
use bs_host::read_input;
use bs_samples::same;
use bs_workers::OpenGate;
use std::alloc::{AllocError, Global};
use std::io::ErrorKind;
use std::test::Fail;
use std::thread::Threads;

const SOLO_RUN: Run<'static> = Run {
    file: SOLO,
    blocks: 6,
    workers: 2,
};

const KINDS: [Option<ErrorKind>; 4] = [
    Some(ErrorKind::BrokenPipe),
    Some(ErrorKind::Interrupted),
    Some(ErrorKind::WouldBlock),
    None,
];

// How serving ends with a writer that fails after `place` bytes of the text.
fn fault_after(alloc: Global, place: usize) -> Result<String, AllocError> {
    if place < SOLO_TEXT.len() {
        format!(in alloc; "write failed after {place} bytes")
    } else {
        String::from_str(alloc, "served")
    }
}

fn is_front(taken: &[u8], place: usize) -> Result<(), Fail> {
    let text = SOLO_TEXT.as_bytes();
    same("what was taken", taken, &text[..place.min(text.len())])
}

// Wherever a writer fails, the run ends, and its output is what the writer took before.
#[test]
fn writers_that_fail_once(rt: HostRuntime) -> Result<(), Fail> {
    let alloc = rt.alloc();
    for place in 0..SOLO_TEXT.len() + 1 {
        let mut output = StumblingWriter::new(alloc, place, KINDS[place % 4]);
        let told = outcome(&rt, alloc, SOLO_RUN, &OpenGate, &mut output)?;
        same(
            "the fault",
            told.as_str(),
            fault_after(alloc, place)?.as_str(),
        )?;
        is_front(output.taken.as_slice(), place)?;
    }
    Ok(())
}

// Compares the fault of a writer that takes `room` bytes, one a call, and what it took.
fn is_cut_off<R: Threads + Sync>(
    rt: &R,
    alloc: Global,
    room: usize,
    failure: Option<ErrorKind>,
    fault: &str,
) -> Result<(), Fail> {
    let mut output = NarrowWriter::new(alloc, room, 1, failure);
    let told = outcome(rt, alloc, SOLO_RUN, &OpenGate, &mut output)?;
    same("the fault", told.as_str(), fault)?;
    is_front(output.taken.as_slice(), room)
}

#[test]
fn writers_that_fail_have_a_prefix(rt: HostRuntime) -> Result<(), Fail> {
    let (pipe, signal) = (Some(ErrorKind::BrokenPipe), Some(ErrorKind::Interrupted));
    is_cut_off(
        &rt,
        rt.alloc(),
        1_000,
        pipe,
        "write failed after 1000 bytes",
    )?;
    is_cut_off(&rt, rt.alloc(), 10, signal, "write failed after 10 bytes")?;
    is_cut_off(&rt, rt.alloc(), 0, None, "write failed after 0 bytes")?;
    is_cut_off(&rt, rt.alloc(), 5_000, None, "served")
}

// Describes the fault of a reader that fails at that place.
fn told_of_reader(alloc: Global, place: usize, kind: ErrorKind) -> Result<String, AllocError> {
    let mut reader = FalteringReader::new(TWO_GAMES.as_bytes(), place, kind);
    match read_input(alloc, &mut reader) {
        Ok(_) => String::from_str(alloc, "read"),
        Err(fault) => format!(in alloc; "{fault}"),
    }
}

// Wherever a reader fails, also after the last byte, the file is not read.
#[test]
fn readers_that_fail_once(rt: HostRuntime) -> Result<(), Fail> {
    let alloc = rt.alloc();
    let kinds = [
        ErrorKind::BrokenPipe,
        ErrorKind::Interrupted,
        ErrorKind::WouldBlock,
    ];
    for place in 0..TWO_GAMES.len() + 1 {
        let told = told_of_reader(alloc, place, kinds[place % 3])?;
        same("the fault", told.as_str(), "cannot read the file")?;
    }
    Ok(())
}
