//! A request, done over any reader and any writer.
ghost use Rattle.std.specs.Prelude.{◌≡◌, IfOk, IfErr};
ghost use Rattle.bs_program.specs.Asked.{asked_for};
ghost use Rattle.bs_program.specs.Outcome.{Does, IsInput, IsReadFault, PlaysAlone, Serves, ServesFile, ServesLive};
ghost use Rattle.bs_program.specs.Streams.{left_in, HasReadFailed};
ghost use Rattle.bs_program.specs.inner.Outcome.{Finishes};

use crate::input::Input;
use crate::opened::read_named;
use crate::recorded::Recorded;
use crate::request::{Request, STANDARD_INPUT, Serving, Solo};
use crate::source::Sources;
use crate::stream::Output;
use bs_host::{Fault, cut, read_input_by, serve_by, serve_live_by};
use bs_workers::OpenGate;
use std::alloc::Global;
use std::io::{Read, Write};
use std::mem;
use std::thread::Threads;

/// The number of workers of `arena alone`.
const LONE_WORKER: u16 = 1;

/// The memory and the workers that a file is served with.
#[derive(Clone, Copy)]
struct Resources {
    blocks: u16,
    workers: u16,
}

/// Reads all bytes of the file of that name; `-` is the standard input.
fn read_file<S: Sources, R: Read>(
    rt: &S,
    alloc: Global,
    name: &str,
    input: &mut Input<R>,
) -> Result<Vec<u8>, Fault>
    ensures bytes { IfOk result (λ bytes. IsInput (left_in R.remaining input.old) (S.named rt.now) name.now bytes.items) }
    ensures fault { IfErr result (IsReadFault (HasReadFailed input.new) (S.unread rt.now) (left_in R.remaining input.old) (S.named rt.now) name.now) }
{
    if name == STANDARD_INPUT {
        return Ok(read_input_by::<Input<R>, Recorded>(alloc, input)?);
    }
    Ok(read_named(rt, alloc, name)?)
}

/// Flushes the output.
fn finish<W: Write>(output: &mut Output<W>) -> Result<(), Fault>
    ensures { Finishes W.contents output.old output.new result }
{
    output.flush().map_err(|_| Fault::Flush)
}

/// Writes the transcript of a file, then flushes the output. The core is left to the system, which
/// frees its memory at once when the program ends; after a fault it is dropped.
#[tactic(auto, using(crate::proofs::Served::serve_fails))]
fn serve_bytes<H: Threads + Sync, W: Write>(
    rt: &H,
    alloc: Global,
    bytes: &[u8],
    with: Resources,
    output: &mut Output<W>,
) -> Result<(), Fault>
    ensures { Serves W.contents with.blocks bytes.now output.old output.new result }
{
    let blocks = usize::from(with.blocks);
    let workers = usize::from(with.workers);
    match serve_by::<H, OpenGate, Output<W>, Recorded>(
        rt, alloc, bytes, blocks, workers, &OpenGate, output,
    ) {
        Ok(core) => {
            finish(output)?;
            mem::forget(core);
            Ok(())
        }
        Err(fault) => Err(fault),
    }
}

/// Serves a file whole.
fn serve_file<H: Sources + Threads + Sync, R: Read, W: Write>(
    rt: &H,
    alloc: Global,
    request: Serving<'_>,
    input: &mut Input<R>,
    output: &mut Output<W>,
) -> Result<(), Fault>
    ensures { ServesFile W.contents (HasReadFailed input.new) (H.unread rt.now) (left_in R.remaining input.old) (H.named rt.now) request.entry.file.now request.entry.blocks output.old output.new result }
{
    let bytes = read_file(rt, alloc, request.file, input)?;
    let with = Resources {
        blocks: request.blocks,
        workers: request.workers,
    };
    serve_bytes(rt, alloc, &bytes, with, output)
}

/// Serves one stay's own lines of a file.
fn play_alone<H: Sources + Threads + Sync, R: Read, W: Write>(
    rt: &H,
    alloc: Global,
    request: Solo<'_>,
    input: &mut Input<R>,
    output: &mut Output<W>,
) -> Result<(), Fault>
    ensures { PlaysAlone W.contents (HasReadFailed input.new) (H.unread rt.now) (left_in R.remaining input.old) (H.named rt.now) request.entry.file.now (record { game = request.entry.game.now; nth = request.entry.stay }) request.entry.blocks output.old output.new result }
{
    let bytes = read_file(rt, alloc, request.file, input)?;
    let blocks = usize::from(request.blocks);
    let lines = cut(alloc, &bytes, blocks, request.game, request.stay as usize)?;
    let with = Resources {
        blocks: request.blocks,
        workers: LONE_WORKER,
    };
    serve_bytes(rt, alloc, &lines, with, output)
}

/// Answers the lines of the standard input as they arrive.
fn play_live<R: Read, W: Write>(
    alloc: Global,
    blocks: u16,
    input: &mut Input<R>,
    output: &mut Output<W>,
) -> Result<(), Fault>
    ensures { ServesLive W.contents (HasReadFailed input.new) (left_in R.remaining input.old) blocks output.old output.new result }
{
    let blocks = usize::from(blocks);
    serve_live_by::<Input<R>, Output<W>, Recorded>(alloc, input, blocks, output)?;
    finish(output)
}

/// Does what is asked for. Output that is written is flushed at the end.
pub fn run_request<H: Sources + Threads + Sync, R: Read, W: Write>(
    rt: &H,
    alloc: Global,
    request: Request<'_>,
    input: &mut Input<R>,
    output: &mut Output<W>,
) -> Result<(), Fault>
    ensures { Does W.contents (HasReadFailed input.new) (H.unread rt.now) (left_in R.remaining input.old) (H.named rt.now) (asked_for request.entry) output.old output.new result }
{
    match request {
        Request::Serve(request) => serve_file(rt, alloc, request, input, output),
        Request::Alone(request) => play_alone(rt, alloc, request, input, output),
        Request::Live(blocks) => play_live(alloc, blocks, input, output),
    }
}
