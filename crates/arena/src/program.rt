//! A run of the program, over any reader and writers.
ghost use Rattle.std.specs.Prelude.{◌≡◌, ◌⊎◌, true, map, IfOk, IfErr, OnOk};
ghost use Rattle.arena.specs.Outcome.{IsDone, IsRefused, Explains};
ghost use Rattle.bs_program.specs.Outcome.{Reports};
ghost use Rattle.bs_program.specs.Lines.{fault_of_words};
ghost use Rattle.bs_program.specs.Streams.{has_bytes, has_failed, is_flushed, left_in, HasReadFailed};
ghost use Rattle.std.specs.IoError.{error_kind};
ghost use Rattle.clap.specs.Words.{kind_of};

use crate::command_line::read_words;
use bs_host::Fault;
use bs_program::{Input, Output, Sources, concluded, reported, run_request};
use clap::error::ErrorKind;
use std::alloc::Global;
use std::io::{self, Read, Write};
use std::thread::Threads;

/// The status of a command line that `clap` refuses.
const REFUSED: u8 = 2;

/// Writes `clap`'s text to the output, and flushes it.
fn show<W: Write>(error: &clap::Error, output: &mut Output<W>) -> io::Result<()>
    ensures flushed { OnOk result (is_flushed output.new ≡ true) }
    ensures bytes { OnOk result (has_bytes output.new ≡ true) }
{
    write!(output, "{error}")?;
    if !output.has_bytes() {
        return Err(io::Error::from(io::ErrorKind::WriteZero));
    }
    output.flush()
}

/// Writes `clap`'s text for words that are no request: help or the version to the output, a mistake
/// to the errors. Returns the status.
fn explained<W: Write, E: Write>(
    error: &clap::Error,
    output: &mut Output<W>,
    errors: &mut Output<E>,
) -> u8
    ensures { Explains E.contents (kind_of error.now) result output.old output.new errors.old errors.new }
{
    match error.kind() {
        ErrorKind::OutOfMemory => reported(Fault::Memory, errors),
        ErrorKind::DisplayHelp | ErrorKind::DisplayVersion => match show(error, output) {
            Ok(()) => 0,
            Err(_) if output.has_failed() => reported(Fault::Flush, errors),
            Err(_) => reported(Fault::Memory, errors),
        },
        _ => {
            let _ = write!(errors, "{error}");
            REFUSED
        }
    }
}

/// Runs the program on these words, the first of which is its own name, and returns its exit
/// status. The transcript goes to `output`, which is flushed at the end; a fault is one line on
/// `errors`.
pub fn arena_run<H: Sources + Threads + Sync, R: Read, W: Write, E: Write>(
    rt: &H,
    alloc: Global,
    words: &[&str],
    input: &mut Input<R>,
    output: &mut Output<W>,
    errors: &mut Output<E>,
) -> u8
    ensures { IsDone W.contents E.contents (HasReadFailed input.new) (H.unread rt.now) (left_in R.remaining input.old) (H.named rt.now) (map (λ word. word.now) words.now) result output.old output.new errors.old errors.new
        ⊎ IsRefused E.contents (map (λ word. word.now) words.now) result output.old output.new errors.old errors.new }
{
    match read_words(alloc, words) {
        Err(error) => explained(&error, output, errors),
        Ok(request) => concluded(run_request(rt, alloc, request, input, output), errors),
    }
}

/// Reports why the words of the command line were not read: one of them is not UTF-8, or memory ran
/// out. Returns the status.
pub fn unread_words<E: Write>(error: &io::Error, errors: &mut Output<E>) -> u8
    ensures { Reports E.contents (fault_of_words (error_kind error.now)) result errors.old errors.new }
{
    let fault = match error.kind() {
        io::ErrorKind::InvalidData => Fault::NoText,
        _ => Fault::Memory,
    };
    reported(fault, errors)
}
