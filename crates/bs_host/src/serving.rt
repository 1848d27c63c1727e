//! Serves a command file, one stage after the other: opens it, parses and routes its lines, runs
//! the core, and writes the transcript.
ghost use Rattle.std.specs.Prelude.{◌≡◌, ◌≤◌, ℕ, None, Ok, IfOk, IfErr, OnOk, option_copied};
ghost use Rattle.std.specs.Io.KnownBytes.{Appends};
ghost use Rattle.std.specs.Thread.{IsSync};
ghost use Rattle.bs_host.specs.File.{pieces_of};
ghost use Rattle.bs_host.specs.inner.File.{pieces_after};
ghost use Rattle.bs_host.specs.Hosted.{Hosts};
ghost use Rattle.bs_host.specs.inner.Hosted.{IsCoreOf, IsRead};
ghost use Rattle.bs_workers.specs.Acts.{opened};
ghost use Rattle.bs_host.specs.Routing.{capacity_of, routes_from};
ghost use Rattle.bs_host.specs.inner.Parsed.{all_lines, parsed_lines};
ghost use Rattle.bs_host.specs.inner.Routing.{IsRouted};
ghost use Rattle.bs_host.specs.Faults.{refusal_of, refusal_of_plan, HasCause, IsFault, Leaves};
ghost use Rattle.bs_host.specs.inner.Faults.{IsRefusal};
ghost use Rattle.bs_host.specs.Transcript.{transcript_of};

use crate::fault::Fault;
use crate::file::CommandFile;
use crate::limits::{BLOCK_BYTES, MOST_FILE_BYTES};
use crate::lines::split_line;
use crate::parse::{Share, parse_text};
use crate::played::Played;
use crate::route::{Requests, route_lines, route_text};
use bs_board::Plan;
use bs_json::read_plan;
use bs_sched::Core;
use bs_transcript::{Unrecorded, WriteCalls};
use bs_workers::{Gate, run};
use std::alloc::{AllocError, Global};
use std::io::Write;
use std::thread::{Threads, join};

/// The largest number of threads. If more are requested, this many are used.
const MOST_THREADS: usize = 1_024;

/// The plan of a file, and the text after the plan, if there is any. Checks the file's length, then
/// its plan.
fn read_file(alloc: Global, input: &[u8]) -> Result<(Plan, Option<&[u8]>), Fault>
    ensures read { IfOk result (λ read. IsRead input.now read.0 (pieces_after (option_copied read.1))) }
    ensures fault { IfErr result (λ fault. (blocks : ℕ) → IsRefusal (refusal_of blocks input.now) fault) }
{
    if input.len() > MOST_FILE_BYTES {
        return Err(Fault::TooLong);
    }
    let (first, rest) = split_line(input);
    Ok((read_plan(alloc, first)?, rest))
}

/// Opens a core for a plan. Checks the number of blocks.
fn open_core(
    alloc: Global,
    plan: &Plan,
    blocks: usize,
    threads: usize,
) -> Result<Core<BLOCK_BYTES>, Fault>
    requires { threads ≤ MOST_THREADS }
    ensures core { IfOk result (IsCoreOf blocks plan.now) }
    ensures fault { IfErr result (IsRefusal (refusal_of_plan blocks (Ok plan.now))) }
{
    Ok(Core::open(alloc, plan.copy(alloc)?, blocks, threads)?)
}

/// The core of a file with its lines, or the fault of opening, else that of parsing.
fn opened_with<'f>(
    file: CommandFile<'f>,
    core: Result<Core<BLOCK_BYTES>, Fault>,
    lines: Result<Vec<Share<'f>>, AllocError>,
) -> Result<(Core<BLOCK_BYTES>, Vec<Share<'f>>), Fault>
    requires core { IfOk core (IsCoreOf file.blocks file.plan.now) }
    requires fault { IfErr core (IsRefusal (refusal_of_plan file.blocks (Ok file.plan.now))) }
    requires lines { IfOk lines
        (λ shares. all_lines shares.items ≡ parsed_lines file.plan.now.version (pieces_after (option_copied file.rest))) }
    ensures core { IfOk result (λ opened. IsCoreOf file.entry.blocks file.entry.plan.now opened.0) }
    ensures lines { IfOk result
        (λ opened. all_lines opened.1.items ≡ parsed_lines file.entry.plan.now.version (pieces_after (option_copied file.entry.rest))) }
    ensures fault { IfErr result (IsRefusal (refusal_of_plan file.entry.blocks (Ok file.entry.plan.now))) }
{
    Ok((core?, lines?))
}

/// Opens a core for the plan of a file on a new thread, while its lines are parsed. That thread is
/// started first: it may get the processor of the calling one, which parses too, and is soon done.
/// The fault of opening comes before that of parsing.
fn open_file<'f, R: Threads + Sync>(
    rt: &R,
    alloc: Global,
    file: CommandFile<'f>,
    threads: usize,
) -> Result<(Core<BLOCK_BYTES>, Vec<Share<'f>>), Fault>
    requires { threads ≤ MOST_THREADS }
    ensures core { IfOk result (λ opened. IsCoreOf file.entry.blocks file.entry.plan.now opened.0) }
    ensures lines { IfOk result
        (λ opened. all_lines opened.1.items ≡ parsed_lines file.entry.plan.now.version (pieces_after (option_copied file.entry.rest))) }
    ensures fault { IfErr result (IsRefusal (refusal_of_plan file.entry.blocks (Ok file.entry.plan.now))) }
{
    let CommandFile { blocks, plan, rest } = file;
    let version = plan.version;
    let Some(text) = rest else {
        let core = open_core(alloc, plan, blocks, threads);
        return opened_with(file, core, Ok(Vec::new(alloc)));
    };
    let (core, lines) = join(
        rt,
        || -> Result<Core<BLOCK_BYTES>, Fault>
            requires { threads ≤ MOST_THREADS }
            ensures core { IfOk result (IsCoreOf blocks plan.entry.now) }
            ensures fault { IfErr result (IsRefusal (refusal_of_plan blocks (Ok plan.entry.now))) }
        { open_core(alloc, plan, blocks, threads) },
        || -> Result<Vec<Share>, AllocError>
            requires { IsSync R.row }
            ensures { IfOk result (λ shares. all_lines shares.items ≡ parsed_lines version (pieces_of text.entry.now)) }
        { parse_text(rt, alloc, version, text, threads) },
    );
    opened_with(file, core, lines)
}

/// Opens a core for the plan of a file; then parses and routes its lines, on the calling thread.
fn read_alone(
    alloc: Global,
    file: CommandFile<'_>,
    threads: usize,
) -> Result<(Core<BLOCK_BYTES>, Requests), Fault>
    requires { threads ≤ MOST_THREADS }
    ensures core { IfOk result (λ read. IsCoreOf file.entry.blocks file.entry.plan.now read.0) }
    ensures routed { IfOk result
        (λ read. IsRouted (routes_from (capacity_of file.entry.blocks) file.entry.plan.now.version (opened file.entry.plan.now.rows) 2 (pieces_after (option_copied file.entry.rest))) read.1) }
    ensures fault { IfErr result (IsRefusal (refusal_of_plan file.entry.blocks (Ok file.entry.plan.now))) }
{
    let core = open_core(alloc, file.plan, file.blocks, threads)?;
    let requests = route_text(alloc, file.blocks, file.plan, file.rest)?;
    Ok((core, requests))
}

/// Opens a core for the plan of a file, and routes its lines.
fn read_requests<R: Threads + Sync>(
    rt: &R,
    alloc: Global,
    file: CommandFile<'_>,
    threads: usize,
) -> Result<(Core<BLOCK_BYTES>, Requests), Fault>
    requires { threads ≤ MOST_THREADS }
    ensures core { IfOk result (λ read. IsCoreOf file.entry.blocks file.entry.plan.now read.0) }
    ensures routed { IfOk result
        (λ read. IsRouted (routes_from (capacity_of file.entry.blocks) file.entry.plan.now.version (opened file.entry.plan.now.rows) 2 (pieces_after (option_copied file.entry.rest))) read.1) }
    ensures fault { IfErr result (IsRefusal (refusal_of_plan file.entry.blocks (Ok file.entry.plan.now))) }
{
    if threads <= 1 {
        return read_alone(alloc, file, threads);
    }
    let (core, lines) = open_file(rt, alloc, file, threads)?;
    Ok((
        core,
        route_lines(alloc, file.blocks, &file.plan.rows, lines)?,
    ))
}

/// Like `serve`, by the calls `C`: a fault of the writer is a call that failed.
pub fn serve_by<R: Threads + Sync, G: Gate, W: Write, C: WriteCalls<W>>(
    rt: &R,
    alloc: Global,
    input: &[u8],
    blocks: usize,
    workers: usize,
    gate: &G,
    output: &mut W,
) -> Result<Core<BLOCK_BYTES>, Fault>
    ensures served { OnOk result (refusal_of blocks input.now ≡ None) }
    ensures core { IfOk result (Hosts blocks input.now) }
    ensures written { OnOk result (Appends (W.contents output.old) (W.contents output.new) (transcript_of blocks input.now)) }
    ensures fault { IfErr result (IsFault (G.may_refuse gate.now) (refusal_of blocks input.now)) }
    ensures left { IfErr result (Leaves W.contents (transcript_of blocks input.now) output.old output.new) }
    ensures failed { IfErr result (HasCause (C.has_failed output.new)) }
{
    let threads = workers.min(MOST_THREADS);
    let (plan, text) = read_file(alloc, input)?;
    let file = CommandFile {
        blocks,
        plan: &plan,
        rest: text,
    };
    let (core, Requests { acts, strays }) = read_requests(rt, alloc, file, threads)?;
    let core = run(rt, alloc, core, acts.as_slice(), threads, gate)?;
    let played = Played { core, acts, strays };
    Ok(played.write::<R, W, C>(rt, alloc, threads, output)?)
}

/// Serves a command file with `blocks` blocks of memory and `workers` threads: a core answers each
/// game's commands in the order of their lines, then the transcript is written. If there are
/// several threads, the calling one is among those that parse; one more opens the core meanwhile,
/// and one more frees the acts while the transcript is rendered. `gate` is consulted before each
/// job, with the thread's number. After every fault but a writer's the writer is unchanged, and
/// nothing is allocated once the first byte is written. Returns the core.
pub fn serve<R: Threads + Sync, G: Gate, W: Write>(
    rt: &R,
    alloc: Global,
    input: &[u8],
    blocks: usize,
    workers: usize,
    gate: &G,
    output: &mut W,
) -> Result<Core<BLOCK_BYTES>, Fault>
    ensures served { OnOk result (refusal_of blocks input.now ≡ None) }
    ensures core { IfOk result (Hosts blocks input.now) }
    ensures written { OnOk result (Appends (W.contents output.old) (W.contents output.new) (transcript_of blocks input.now)) }
    ensures fault { IfErr result (IsFault (G.may_refuse gate.now) (refusal_of blocks input.now)) }
    ensures left { IfErr result (Leaves W.contents (transcript_of blocks input.now) output.old output.new) }
{
    serve_by::<R, G, W, Unrecorded>(rt, alloc, input, blocks, workers, gate, output)
}
