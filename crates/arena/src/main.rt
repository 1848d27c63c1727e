//! The program `arena`: reads the command line and the file, serves it, and writes the transcript
//! to the standard output.
#![tactic(auto)]

ghost use Rattle.std.specs.Prelude.{◌≡◌, ◌⊎◌, map, string_bytes, OnErr, IfOk};
ghost use Rattle.arena.specs.Outcome.{IsDone, IsRefused};
ghost use Rattle.bs_program.specs.Streams.{left_in, HasReadFailed};

mod command_line;
mod program;

use bs_host::Fault;
use bs_program::{Input, Output, Sources, reported};
use program::{arena_run, unread_words};
use std::alloc::{AllocError, Global};
use std::io::{Read, Write};
use std::process::ExitCode;
use std::thread::Threads;
use std::{env, io};

/// The words of the command line, the program's name first.
fn words_of(rt: &HostRuntime) -> io::Result<Vec<String>> {
    Ok(env::args(rt)?.collect(rt.alloc())?)
}

/// The words as texts.
fn texts_of(alloc: Global, words: &[String]) -> Result<Vec<&str>, AllocError>
    ensures { IfOk result (λ texts. map (λ text. text.now) texts.items ≡ map (λ word. string_bytes word) words.now) }
{
    words.iter().map(|word| word.as_str()).collect(alloc)
}

/// Runs the program on these words, and returns its exit status.
fn status_on<H: Sources + Threads + Sync, R: Read, W: Write, E: Write>(
    rt: &H,
    alloc: Global,
    words: &[String],
    input: &mut Input<R>,
    output: &mut Output<W>,
    errors: &mut Output<E>,
) -> Result<u8, AllocError>
    ensures status { IfOk result (λ status. IsDone W.contents E.contents (HasReadFailed input.new) (H.unread rt.now) (left_in R.remaining input.old) (H.named rt.now) (map (λ word. string_bytes word) words.now) status output.old output.new errors.old errors.new
        ⊎ IsRefused E.contents (map (λ word. string_bytes word) words.now) status output.old output.new errors.old errors.new) }
    ensures output { OnErr result (output.new ≡ output.old) }
    ensures errors { OnErr result (errors.new ≡ errors.old) }
{
    let texts = texts_of(alloc, words)?;
    Ok(arena_run(rt, alloc, texts.as_slice(), input, output, errors))
}

fn main(rt: HostRuntime) -> ExitCode {
    let mut errors = Output::new(rt.stderr());
    let words = match words_of(&rt) {
        Ok(words) => words,
        Err(error) => return ExitCode::from(unread_words(&error, &mut errors)),
    };
    let (mut input, mut output) = (Input::new(rt.stdin()), Output::new(rt.stdout()));
    let status = status_on(
        &rt,
        rt.alloc(),
        words.as_slice(),
        &mut input,
        &mut output,
        &mut errors,
    );
    match status {
        Ok(status) => ExitCode::from(status),
        Err(AllocError) => ExitCode::from(reported(Fault::Memory, &mut errors)),
    }
}
