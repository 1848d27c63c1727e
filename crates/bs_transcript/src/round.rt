//! Which lines of a transcript are rendered together, and by which thread.
ghost use Rattle.std.specs.Prelude.{◌≡◌, ◌<◌, ◌≤◌, ◌^◌, ◌-◌};

use crate::bounds::Bounds;
use crate::cursor::Lines;
use crate::finished::{Finished, Limits};
use crate::rendered::Rendered;

/// The sum of the bounds of the lines of a thread in the first round. Their text is much shorter.
const FIRST_BOUND: usize = 3_145_728;

/// The most lines of a thread in the first round.
const FIRST_LINES: usize = 1_024;

/// The room of a buffer besides that for the longest line, in bytes. With less, threads are started
/// too often: each round starts them anew.
const USUAL_TEXT: usize = 524_288;

/// The bytes that a thread is to render in a round: most of a buffer.
const FULL_TEXT: usize = 458_752;

/// Consecutive lines: those of each rendering thread, and behind them those that the calling thread
/// renders until the others have.
#[derive(Clone, Copy)]
pub(crate) struct Round {
    /// The number of the first line.
    first: usize,
    /// The number of rendering threads besides the calling one.
    threads: usize,
    /// The number of lines of a rendering thread.
    lines: usize,
    /// The bounds of all lines of the transcript.
    bounds: Bounds,
}

impl Round {
    /// The first round of lines of these bounds.
    pub(crate) fn start(threads: usize, bounds: Bounds) -> Round {
        let bound = bounds.total / bounds.count.max(1);
        let lines = (FIRST_BOUND / bound.max(1)).min(FIRST_LINES);
        Round {
            first: 0,
            threads,
            lines: 0,
            bounds,
        }
        .of_lines(lines)
    }

    /// The round with that many lines for each rendering thread, or fewer if fewer are left.
    fn of_lines(self, lines: usize) -> Round
        ensures { result.first ≡ self.first }
    {
        let left = self.bounds.count.saturating_sub(self.first);
        let most = left / self.threads.saturating_add(1).max(1);
        Round {
            first: self.first,
            threads: self.threads,
            lines: lines.min(most).max(1),
            bounds: self.bounds,
        }
    }

    /// The room of a thread's buffer, in bytes.
    pub(crate) fn room(&self) -> usize {
        self.bounds.longest.saturating_add(USUAL_TEXT)
    }

    /// The number of the first line.
    pub(crate) fn first(&self) -> usize
        ensures { result ≡ self.now.first }
    {
        self.first
    }

    /// Whether no line of the transcript is in it.
    pub(crate) fn is_empty(&self) -> bool {
        self.first >= self.bounds.count
    }

    /// The number of the first line of the rendering thread of that number. The calling thread has
    /// the number behind the last.
    pub(crate) fn line(&self, thread: usize) -> usize {
        self.first.saturating_add(self.lines.saturating_mul(thread))
    }

    /// The number of the first line of the calling thread.
    fn own_line(&self) -> usize {
        self.line(self.threads)
    }

    /// The limits of the thread of that number. The calling thread renders twice as many lines as
    /// another at most, and stops once the others have rendered.
    pub(crate) fn limits<'f>(&self, thread: usize, finished: &'f Finished) -> Limits<'f> {
        let (behind, threads) = if thread < self.threads {
            (1, u64::MAX)
        } else {
            (2, self.threads as u64)
        };
        Limits {
            end: self.line(thread.saturating_add(behind)),
            longest: self.bounds.longest,
            finished,
            threads,
        }
    }

    /// The first line of a round that begins at that one: if the lines that are left fill a quarter
    /// of a buffer at most, the line behind the last, so that the calling thread renders them alone.
    fn worth(&self, first: usize, fitting: usize) -> usize
        ensures { first ≤ result }
    {
        let left = self.bounds.count.saturating_sub(first);
        if left <= fitting / 4 {
            first.max(self.bounds.count)
        } else {
            first
        }
    }

    /// The round behind the lines up to `end`, and behind the line of that number, once the lines
    /// of this one were rendered: each thread gets as many as fill its buffer.
    pub(crate) fn next<L: Lines>(
        &self,
        number: usize,
        end: usize,
        rendered: &[Rendered<L>],
    ) -> Round
        ensures { number < 2 ^ 64 - 1 → number < result.first }
    {
        let mut fitting = self.lines.saturating_mul(2);
        for lines in rendered {
            fitting = lines.fitting(FULL_TEXT).min(fitting);
        }
        let first = end.max(self.own_line()).max(number.saturating_add(1));
        Round {
            first: self.worth(first, fitting),
            threads: self.threads,
            lines: self.lines,
            bounds: self.bounds,
        }
        .of_lines(fitting)
    }
}
