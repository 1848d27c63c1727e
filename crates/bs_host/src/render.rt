//! Writes the transcript of a finished core.
ghost use Rattle.std.specs.Prelude.{◌≡◌, ◌<◌, length, IfErr, IfOk, OnOk};
ghost use Rattle.std.specs.Io.KnownBytes.{Appends};
ghost use Rattle.std.specs.List.{flat_map};
ghost use Rattle.bs_sched.specs.Machine.{lane_of};
ghost use Rattle.bs_transcript.specs.Lines.{section_lines_of};
ghost use Rattle.bs_transcript.specs.Written.{HasCause, Leaves};
ghost use Rattle.bs_host.specs.inner.Transcript.{lane_lines_of, core_text_of};

use crate::limits::BLOCK_BYTES;
use bs_json::Stray;
use bs_sched::Core;
use bs_transcript::{Section, Transcript, TranscriptFault, WriteCalls, write_transcript_by};
use std::alloc::{AllocError, Global};
use std::io::Write;
use std::thread::Threads;

/// The section of one stay: its name, its replies, its last board and its charge.
fn section_of_game<'c>(core: &'c Core<BLOCK_BYTES>, game: usize) -> Section<'c>
    requires { game < length core.now.games.lanes }
    ensures { section_lines_of result ≡ lane_lines_of (lane_of core.now.games.lanes game) }
{
    Section {
        name: &core.row(game).game,
        replies: core.replies(game),
        board: core.last(game),
        charge: core.charge(game),
    }
}

#[tactic(auto, using(crate::proofs::HostedCore::one_more_section))]
fn sections_of_games<'c>(
    alloc: Global,
    core: &'c Core<BLOCK_BYTES>,
) -> Result<Vec<Section<'c>>, AllocError>
    ensures { IfOk result
        (λ sections. flat_map section_lines_of sections.items ≡ flat_map lane_lines_of core.now.games.lanes) }
{
    let mut sections = Vec::with_capacity(alloc, core.rows())?;
    for game in 0..core.rows() {
        sections.push(section_of_game(core, game))?;
    }
    Ok(sections)
}

/// A finished core, and the lines of its file that belong to no game.
#[derive(Clone, Copy)]
pub(crate) struct PlayedFile<'c> {
    pub(crate) core: &'c Core<BLOCK_BYTES>,
    pub(crate) strays: &'c [(u64, Stray)],
}

/// Writes the sections of all stays in the order of their rows, then the stray lines.
pub(crate) fn write_core<R: Threads + Sync, W: Write, C: WriteCalls<W>>(
    rt: &R,
    alloc: Global,
    file: PlayedFile<'_>,
    threads: usize,
    output: &mut W,
) -> Result<(), TranscriptFault>
    ensures written { OnOk result (Appends (W.contents output.old) (W.contents output.new) (core_text_of file.entry.core.now file.entry.strays.now)) }
    ensures left { IfErr result (Leaves W.contents (core_text_of file.entry.core.now file.entry.strays.now) output.old output.new) }
    ensures failed { IfErr result (HasCause (C.has_failed output.new)) }
{
    let sections = sections_of_games(alloc, file.core)?;
    let transcript = Transcript {
        sections: sections.as_slice(),
        strays: file.strays,
    };
    write_transcript_by::<R, W, C>(rt, alloc, transcript, threads, output)?;
    Ok(())
}
