//! Lines and files at their longest.
use crate::serving::{Run, is_refused, is_served, transcript};
use bs_host::read_input;
use bs_samples::{holds, same};
use bs_workers::OpenGate;
use std::alloc::{AllocError, Global};
use std::test::Fail;
use std::thread::Threads;

const SHOW: &str = r#"{"game":"a","do":"show"}"#;

const REFUSED: &str = r#"{"game":"a","no":"G2","seq":1,"why":"none"}"#;

const END: &str = r#"{"board":null,"charge":0,"final":true,"game":"a"}"#;

const LONG: &str = r#"{"line":2,"no":"L3","why":"long"}"#;

// Compares the first and the last line of the transcript of a file with a line padded with spaces.
fn filled_line_is_answered<R: Threads + Sync>(
    rt: &R,
    alloc: Global,
    line: &str,
    length: usize,
    (first, last): (&str, &str),
) -> Result<(), Fail> {
    let spaces = " ".repeat(alloc, length.saturating_sub(line.len()))?;
    let file = format!(in alloc;
        "{{\"games\":[{{\"game\":\"a\",\"quota\":16}}]}}\n{line}{}",
        spaces.as_str()
    )?;
    let run = Run {
        file: file.as_str(),
        blocks: 6,
        workers: 1,
    };
    let text = transcript(rt, alloc, run, &OpenGate)?;
    same("the first line", text.lines().next(), Some(first))?;
    same("the last line", text.lines().last(), Some(last))
}

// A line may have 65,536 bytes without its line feed. A longer one is a stray, even if it is blank.
#[test]
fn lines_at_their_limit(rt: HostRuntime) -> Result<(), Fail> {
    let alloc = rt.alloc();
    filled_line_is_answered(&rt, alloc, SHOW, 65_536, (REFUSED, END))?;
    filled_line_is_answered(&rt, alloc, SHOW, 65_537, (END, LONG))?;
    filled_line_is_answered(&rt, alloc, "", 65_536, (END, END))?;
    filled_line_is_answered(&rt, alloc, "", 65_537, (END, LONG))
}

/// Makes a file of that length, 65,536 bytes or more: a plan without a game, then lines of spaces.
pub fn blanks_to(alloc: Global, length: usize) -> Result<String, AllocError> {
    let mut file = String::from_str(alloc, "{\"games\":[]}\n")?;
    let line = format!(in alloc; "{}\n", " ".repeat(alloc, 65_535)?.as_str())?;
    file.push_str(
        line.as_str()
            .repeat(alloc, (length / 65_536).saturating_sub(1))?
            .as_str(),
    )?;
    file.push_str(
        " ".repeat(alloc, length.saturating_sub(file.len()))?
            .as_str(),
    )?;
    Ok(file)
}

// Describes how a file is read: "read", or the fault.
fn told_of_reading(alloc: Global, file: &str) -> Result<String, Fail> {
    match read_input(alloc, &mut file.as_bytes()) {
        Ok(read) => {
            holds("all bytes are read", read.as_slice() == file.as_bytes())?;
            Ok(String::from_str(alloc, "read")?)
        }
        Err(fault) => Ok(format!(in alloc; "{fault}")?),
    }
}

// Compares how a file is read with a text.
fn is_read(alloc: Global, file: &str, wanted: &str) -> Result<(), Fail> {
    let told = told_of_reading(alloc, file)?;
    same("what is read", told.as_str(), wanted)
}

// Makes a run of a file without a game.
fn run_of(file: &str) -> Run<'_> {
    Run {
        file,
        blocks: 0,
        workers: 2,
    }
}

// A file may have 16,777,216 bytes, and not one more. All lines of this one after its plan are
// blank.
#[test]
fn files_have_a_longest_length(rt: HostRuntime) -> Result<(), Fail> {
    let alloc = rt.alloc();
    let mut file = blanks_to(alloc, 16_777_216)?;
    same("its length", file.len(), 16_777_216)?;
    is_read(alloc, file.as_str(), "read")?;
    is_served(&rt, alloc, run_of(file.as_str()), "")?;
    file.push(' ')?;
    is_read(alloc, file.as_str(), "file too long")?;
    is_refused(
        &rt,
        alloc,
        run_of(file.as_str()),
        &OpenGate,
        "file too long",
    )
}
