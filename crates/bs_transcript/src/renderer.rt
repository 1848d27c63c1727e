//! A thread that renders lines of a transcript.
ghost use Rattle.std.specs.Thread.{IsSync};

use crate::cursor::{Cursor, Lines};
use crate::finished::{Finished, Limits};
use crate::rendered::Rendered;
use crate::round::Round;
use std::alloc::{AllocError, Global};
use std::mem;
use std::thread::{Threads, join};

/// A thread's place in the transcript, and the lines before it that it rendered last.
#[derive(Drop)]
pub(crate) struct Renderer<'t, L: Lines> {
    /// The number of the thread in each round.
    pub(crate) thread: usize,
    pub(crate) at: Cursor<'t, L>,
    pub(crate) rendered: Rendered<L>,
}

impl<L: Lines> Renderer<'_, L> {
    /// Renders the lines from that number on within these limits, as long as there is room for the
    /// longest.
    pub(crate) fn render(&mut self, from: usize, limits: Limits<'_>) {
        self.at.skip(from);
        self.rendered.render(&mut self.at, limits);
    }

    /// Renders the thread's lines of a round, and counts the thread.
    pub(crate) fn render_share(&mut self, round: Round, finished: &Finished) {
        let thread = self.thread;
        self.render(round.line(thread), round.limits(thread, finished));
        finished.add();
    }

    /// Takes the rendered lines, and leaves others.
    pub(crate) fn exchange(&mut self, rendered: &mut Rendered<L>) {
        mem::swap(&mut self.rendered, rendered);
    }
}

/// A renderer with both its buffers: while one is rendered into, the other is written.
#[derive(Drop)]
pub(crate) struct Pair<'t, L: Lines> {
    pub(crate) renderer: Renderer<'t, L>,
    pub(crate) written: Rendered<L>,
}

impl<L: Lines> Pair<'_, L> {
    /// Opens the buffers, and renders the thread's lines of the first round.
    pub(crate) fn open(
        &mut self,
        alloc: Global,
        round: Round,
        finished: &Finished,
    ) -> Result<(), AllocError> {
        self.written = Rendered::none(alloc, round.room())?;
        self.renderer.rendered = Rendered::none(alloc, round.room())?;
        self.renderer.render_share(round, finished);
        Ok(())
    }
}

/// Opens the buffers of all these renderers, and renders the first round. Starts threads as
/// `render_all` does.
#[cycle(opening)]
pub(crate) fn open_all<L: Lines + Send + Sync, R: Threads + Sync>(
    rt: &R,
    alloc: Global,
    round: Round,
    finished: &Finished,
    pairs: &mut [Pair<'_, L>],
) -> Result<(), AllocError> {
    let Some((pair, others)) = pairs.split_first_mut() else {
        return Ok(());
    };
    let first = move || pair.open(alloc, round, finished);
    let rest = move || -> Result<(), AllocError>
        requires { IsSync R.row }
    { open_all::<L, R>(rt, alloc, round, finished, others) };
    let (first, rest) = join(rt, first, rest);
    first?;
    rest?;
    Ok(())
}

/// Renders the lines of a round, one thread for each renderer, and counts those that have. The
/// calling thread starts them and renders nothing: the kernel often puts the first of them on the
/// caller's own processor, where it cannot run before the caller waits.
#[cycle(rendering)]
pub(crate) fn render_all<L: Lines + Send + Sync, R: Threads + Sync>(
    rt: &R,
    round: Round,
    finished: &Finished,
    renderers: &mut [Renderer<'_, L>],
) {
    let Some((renderer, others)) = renderers.split_first_mut() else {
        return;
    };
    let first = move || renderer.render_share(round, finished);
    let rest = move ||
        requires { IsSync R.row }
    { render_all::<L, R>(rt, round, finished, others) };
    join(rt, first, rest);
}
