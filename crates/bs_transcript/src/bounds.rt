//! Bounds of the lines of a transcript. Allocates nothing and renders no line.
ghost use Rattle.std.specs.List.{flat_map};
ghost use Rattle.std.specs.Prelude.{◌≤◌, ◌++◌, ◌∷◌, [], List, ℕ, length, IfOk, OnOk};
ghost use Rattle.std.specs.Thread.{IsSync};
ghost use Rattle.bs_transcript.specs.inner.Buffer.{AreBounded};
ghost use Rattle.bs_transcript.specs.inner.Parts.{all_lines_of, lines_of_part, lines_of_section, lines_of_strays};

use crate::section::{Part, Section};
use bs_json::Stray;
use std::alloc::AllocError;
use std::thread::{Threads, join};

/// The fewest replies for each bounding thread. To bound them takes some times as long as to start
/// a thread.
const FEWEST_REPLIES: usize = 2_048;

/// Upper bounds of the bounds of some lines, in bytes.
#[derive(Clone, Copy)]
pub(crate) struct Bounds {
    /// Of each line.
    pub(crate) longest: usize,
    /// Of all lines together.
    pub(crate) total: usize,
    /// How many lines there are.
    pub(crate) count: usize,
}

impl Bounds {
    /// Of no lines.
    fn none() -> Bounds
        ensures { AreBounded result [] }
    {
        Bounds {
            longest: 0,
            total: 0,
            count: 0,
        }
    }

    /// The bounds of these lines and of those behind them. Fails if a sum overflows.
    #[tactic(auto, using(crate::proofs::Sent::bounded_both))]
    fn and(self, behind: Bounds) -> Result<Bounds, AllocError>
        ensures { (lines others : List (List ℕ)) → AreBounded self lines → AreBounded behind others
            → IfOk result (λ bounds. AreBounded bounds (lines ++ others)) }
    {
        Ok(Bounds {
            longest: self.longest.max(behind.longest),
            total: self.total.checked_add(behind.total).ok_or(AllocError)?,
            count: self.count.checked_add(behind.count).ok_or(AllocError)?,
        })
    }

    /// Adds the bound of one more line. Fails if the sum overflows.
    fn add(&mut self, bytes: usize) -> Result<(), AllocError>
        ensures { (lines : List (List ℕ)) (line : List ℕ) → length line ≤ bytes → AreBounded self.old lines
            → OnOk result (AreBounded self.new (lines ++ line ∷ [])) }
    {
        self.total = self.total.checked_add(bytes).ok_or(AllocError)?;
        self.count = self.count.checked_add(1).ok_or(AllocError)?;
        self.longest = self.longest.max(bytes);
        Ok(())
    }

    /// Adds the bounds of the stray lines.
    fn with_strays(self, strays: &[(u64, Stray)]) -> Result<Bounds, AllocError>
        ensures { (lines : List (List ℕ)) → AreBounded self lines
            → IfOk result (λ bounds. AreBounded bounds (lines ++ lines_of_strays strays.now)) }
    {
        let mut bounds = self;
        bound_part(&Part::Strays(strays), &mut bounds)?;
        Ok(bounds)
    }
}

/// Adds the bounds of the lines of a part.
fn bound_part(part: &Part<'_>, bounds: &mut Bounds) -> Result<(), AllocError>
    ensures { (before : List (List ℕ)) → AreBounded bounds.old before
        → OnOk result (AreBounded bounds.new (before ++ lines_of_part part.now)) }
{
    for index in 0..part.len() {
        let bytes = part.line_bound(index).ok_or(AllocError)?;
        bounds.add(bytes)?;
    }
    Ok(())
}

/// Bounds the lines of sections.
fn bound_sections(sections: &[Section<'_>]) -> Result<Bounds, AllocError>
    ensures { IfOk result (λ bounds. AreBounded bounds (flat_map lines_of_section sections.now)) }
{
    let mut bounds = Bounds::none();
    for section in sections {
        bound_part(&Part::Game(section), &mut bounds)?;
    }
    Ok(bounds)
}

/// Bounds the lines of sections on that many threads, one for each range of sections. The calling
/// thread starts them and only waits. With no thread it bounds the lines itself.
#[cycle(bounding)]
fn bound_on<R: Threads + Sync>(
    rt: &R,
    sections: &[Section<'_>],
    threads: usize,
) -> Result<Bounds, AllocError>
    ensures { IfOk result (λ bounds. AreBounded bounds (flat_map lines_of_section sections.now)) }
{
    if threads == 0 {
        return bound_sections(sections);
    }
    let (some, others) = sections.split_at(sections.len() / threads);
    let left = threads - 1;
    let first = || -> Result<Bounds, AllocError>
        ensures { IfOk result (λ bounds. AreBounded bounds (flat_map lines_of_section some.entry.now)) }
    { bound_sections(some) };
    let rest = || -> Result<Bounds, AllocError>
        requires { IsSync R.row }
        ensures { IfOk result (λ bounds. AreBounded bounds (flat_map lines_of_section others.entry.now)) }
    { bound_on::<R>(rt, others, left) };
    let (first, rest) = join(rt, first, rest);
    first?.and(rest?)
}

/// How many threads bound the lines of these sections: none if the calling one is as fast.
fn bounding_threads(sections: &[Section<'_>], most: usize) -> usize {
    let mut replies = 0usize;
    for section in sections {
        replies = replies.saturating_add(section.replies.len());
    }
    let threads = (replies / FEWEST_REPLIES).min(most);
    if threads < 2 {
        return 0;
    }
    threads
}

/// Bounds all lines of a transcript.
pub(crate) fn bound_all(
    sections: &[Section<'_>],
    strays: &[(u64, Stray)],
) -> Result<Bounds, AllocError>
    ensures { IfOk result (λ bounds. AreBounded bounds (all_lines_of sections.now strays.now)) }
{
    bound_sections(sections)?.with_strays(strays)
}

/// Bounds all lines of a transcript, on at most that many threads.
pub(crate) fn bound_together<R: Threads + Sync>(
    rt: &R,
    sections: &[Section<'_>],
    strays: &[(u64, Stray)],
    most: usize,
) -> Result<Bounds, AllocError>
    ensures { IfOk result (λ bounds. AreBounded bounds (all_lines_of sections.now strays.now)) }
{
    let bounds = bound_on::<R>(rt, sections, bounding_threads(sections, most))?;
    bounds.with_strays(strays)
}
