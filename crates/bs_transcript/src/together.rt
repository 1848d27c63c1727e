//! Several threads render a transcript, and the calling thread writes it.
ghost use Rattle.std.specs.Prelude.{◌≡◌, ◌<◌, ◌≤◌, ◌^◌, List, ℕ, Option, drop, length, min, IfErr, IfOk, MatchResult, OnOk, OnErr};
ghost use Rattle.std.specs.Io.KnownBytes.{Appends};
ghost use Rattle.std.specs.Thread.{IsSync};
ghost use Rattle.bs_transcript.specs.Lines.{text_of};
ghost use Rattle.bs_transcript.specs.Written.{HasCause, IsCutOff, Leaves};
ghost use Rattle.bs_transcript.specs.inner.Buffer.{AreBounded, IsOnItsWay};
ghost use Rattle.bs_transcript.specs.inner.Parts.{all_lines_of};

use crate::bounds::Bounds;
use crate::calls::WriteCalls;
use crate::cursor::{Cursor, Lines};
use crate::fault::TranscriptFault;
use crate::finished::Finished;
use crate::line_buffer::LineBuffer;
use crate::rendered::Rendered;
use crate::renderer::{Pair, Renderer, open_all, render_all};
use crate::round::Round;
use crate::section::Section;
use crate::write::WriteFault;
use crate::writing::Writing;
use bs_json::Stray;
use std::alloc::{AllocError, Global};
use std::io::Write;
use std::thread::{Threads, join, yield_now};

/// The sections and stray lines of a transcript, with the bounds of their lines.
#[derive(Clone, Copy)]
pub(crate) struct Source<'t> {
    pub(crate) sections: &'t [Section<'t>],
    pub(crate) strays: &'t [(u64, Stray)],
    pub(crate) bounds: Bounds,
}

impl<'t> Source<'t> {
    /// The renderer of the thread of that number, before the first line. Its buffers have no room.
    fn renderer<L: Lines>(&self, alloc: Global, thread: usize) -> Result<Pair<'t, L>, AllocError>
        requires { (length L.lines < 2 ^ 64) × (L.lines ≡ all_lines_of self.now.sections.now self.now.strays.now) }
    {
        Ok(Pair {
            renderer: Renderer {
                thread,
                at: Cursor::start(self.sections, self.strays),
                rendered: Rendered::none(alloc, 0)?,
            },
            written: Rendered::none(alloc, 0)?,
        })
    }

    /// The renderers of that many threads.
    fn renderers<L: Lines>(
        &self,
        alloc: Global,
        count: usize,
    ) -> Result<Vec<Pair<'t, L>>, AllocError>
        requires { (length L.lines < 2 ^ 64) × (L.lines ≡ all_lines_of self.now.sections.now self.now.strays.now) }
    {
        let mut pairs = Vec::with_capacity(alloc, count)?;
        for thread in 0..count {
            pairs.push(self.renderer(alloc, thread)?)?;
        }
        Ok(pairs)
    }
}

/// Has each thread open its buffers and render its lines of the first round. `own` is the calling
/// one.
fn open_together<L: Lines + Send + Sync, R: Threads + Sync>(
    rt: &R,
    alloc: Global,
    round: Round,
    pairs: &mut [Pair<'_, L>],
    own: &mut Pair<'_, L>,
) -> Result<(), AllocError> {
    let finished = Finished::none();
    let finished = &finished;
    let pairs = &mut *pairs;
    let (others, mine) = join(
        rt,
        move || -> Result<(), AllocError>
            requires { IsSync R.row }
        { open_all::<L, R>(rt, alloc, round, finished, pairs) },
        || {
            yield_now();
            own.open(alloc, round, finished)
        },
    );
    others?;
    mine?;
    Ok(())
}

/// The buffers of the other threads, and those that are written meanwhile.
#[derive(Drop)]
struct Buffers<'t, L: Lines> {
    renderers: Vec<Renderer<'t, L>>,
    /// What is written: the lines of each renderer, and then those of the calling thread.
    rendered: Vec<Rendered<L>>,
}

impl<'t, L: Lines + Send + Sync> Buffers<'t, L> {
    /// The buffers of these renderers. `own` is what the calling one writes.
    fn of(alloc: Global, pairs: Vec<Pair<'t, L>>, own: Rendered<L>) -> Result<Self, AllocError> {
        let mut renderers = Vec::with_capacity(alloc, pairs.len())?;
        let mut rendered = Vec::new(alloc);
        for pair in pairs {
            renderers.push(pair.renderer)?;
            rendered.push(pair.written)?;
        }
        rendered.push(own)?;
        Ok(Buffers {
            renderers,
            rendered,
        })
    }

    /// Takes what the threads rendered, to be written. `own` is the calling one.
    fn exchange(&mut self, own: &mut Renderer<'_, L>) {
        for index in 0..self.renderers.len() {
            let Some(renderer) = self.renderers.get_mut(index) else {
                return;
            };
            if let Some(rendered) = self.rendered.get_mut(index) {
                renderer.exchange(rendered);
            }
        }
        if let Some(rendered) = self.rendered.last_mut() {
            own.exchange(rendered);
        }
    }

    /// The number of the line behind those that are written.
    fn end(&self) -> usize {
        match self.rendered.last() {
            Some(rendered) => rendered.to,
            None => 0,
        }
    }
}

/// Writes rendered lines, and those up to the next round, while that round is rendered. It yields
/// first, so that the thread that starts the renderers runs at once, on whichever processor it is.
fn write_while<'t, L: Lines + Send + Sync, R: Threads + Sync, W: Write, C: WriteCalls<W>>(
    rt: &R,
    next: Round,
    buffers: &mut Buffers<'_, L>,
    writing: Writing<'t, L>,
    output: &mut W,
) -> Result<Writing<'t, L>, WriteFault>
    ensures sent { (first : Option (List ℕ)) (text : List ℕ) → IsOnItsWay first (W.contents output.old) writing.entry.buffer text (drop writing.entry.at.number L.lines)
        → MatchResult result (λ left. IsOnItsWay first (W.contents output.new) left.buffer text (drop left.at.number L.lines)) (λ fault. IsCutOff fault.written first (W.contents output.new) text) }
    ensures end { IfOk result (λ left. min next.first (length L.lines) ≤ left.at.number) }
    ensures failed { OnErr result (C.has_failed output.new) }
{
    let rendered = buffers.rendered.as_slice();
    let finished = Finished::none();
    let finished = &finished;
    if next.is_empty() {
        return writing.with_round::<W, C>(rendered, next, finished, output);
    }
    let renderers = buffers.renderers.as_mut_slice();
    let (_, (written, _output)) = join(
        rt,
        move ||
            requires { IsSync R.row }
        { render_all::<L, R>(rt, next, finished, renderers) },
        move || -> (Result<Writing<'_, L>, WriteFault>, &mut W)
            ensures sent { (first : Option (List ℕ)) (text : List ℕ) → IsOnItsWay first (W.contents output.entry.now) writing.entry.buffer text (drop writing.entry.at.number L.lines)
                → MatchResult result.0 (λ left. IsOnItsWay first (W.contents result.1.now) left.buffer text (drop left.at.number L.lines)) (λ fault. IsCutOff fault.written first (W.contents result.1.now) text) }
            ensures end { IfOk result.0 (λ left. min next.first (length L.lines) ≤ left.at.number) }
            ensures failed { OnErr result.0 (C.has_failed result.1.now) }
            ensures same { result.1.ghost_name ≡ output.entry.ghost_name }
        {
            yield_now();
            let written = writing.with_round::<W, C>(rendered, next, finished, output);
            (written, output)
        },
    );
    written
}

/// Writes a transcript that the threads of these buffers render, round by round.
fn write_rounds<L: Lines + Send + Sync, R: Threads + Sync, W: Write, C: WriteCalls<W>>(
    rt: &R,
    mut round: Round,
    buffers: &mut Buffers<'_, L>,
    mut writing: Writing<'_, L>,
    output: &mut W,
) -> Result<(), WriteFault>
    ensures sent { (first : Option (List ℕ)) (text : List ℕ) → IsOnItsWay first (W.contents output.old) writing.entry.buffer text (drop writing.entry.at.number L.lines)
        → MatchResult result (λ _. Appends first (W.contents output.new) text) (λ fault. IsCutOff fault.written first (W.contents output.new) text) }
    ensures failed { OnErr result (C.has_failed output.new) }
{
    'rounds: while writing.at.has_line() {
        buffers.exchange(&mut writing.own);
        round = round.next(
            writing.at.number,
            buffers.end(),
            buffers.rendered.as_slice(),
        );
        writing = write_while::<L, R, W, C>(rt, round, buffers, writing, output)?;
    }
    writing.write_last::<W, C>(output)?;
    Ok(())
}

/// Writes a transcript that `renderers` further threads render. Allocates before it writes.
pub(crate) fn write_together<L: Lines + Send + Sync, R: Threads + Sync, W: Write, C: WriteCalls<W>>(
    rt: &R,
    alloc: Global,
    source: Source<'_>,
    renderers: usize,
    output: &mut W,
) -> Result<(), TranscriptFault>
    requires lines { L.lines ≡ all_lines_of source.sections.now source.strays.now }
    requires bounds { AreBounded source.bounds L.lines }
    ensures written { OnOk result (Appends (W.contents output.old) (W.contents output.new) (text_of source.entry.sections.now source.entry.strays.now)) }
    ensures left { IfErr result (Leaves W.contents (text_of source.entry.sections.now source.entry.strays.now) output.old output.new) }
    ensures failed { IfErr result (HasCause (C.has_failed output.new)) }
{
    let round = Round::start(renderers, source.bounds);
    let mut pairs: Vec<Pair<'_, L>> = source.renderers(alloc, renderers)?;
    let mut own: Pair<'_, L> = source.renderer(alloc, renderers)?;
    open_together::<L, R>(rt, alloc, round, pairs.as_mut_slice(), &mut own)?;
    let mut buffers = Buffers::of(alloc, pairs, own.written)?;
    let writing: Writing<'_, L> = Writing {
        buffer: LineBuffer::open(alloc, source.bounds.longest)?,
        at: Cursor::start(source.sections, source.strays),
        own: own.renderer,
    };
    write_rounds::<L, R, W, C>(rt, round, &mut buffers, writing, output)?;
    Ok(())
}
