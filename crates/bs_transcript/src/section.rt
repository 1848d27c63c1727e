//! The parts of a transcript: the sections of the games, and the stray lines.
ghost use Rattle.std.specs.Prelude.{◌≡◌, ◌<◌, ◌≤◌, ◌+◌, IfSome, length, slice_index_or, []};
ghost use Rattle.bs_json.specs.Text.{put};
ghost use Rattle.bs_transcript.specs.inner.Parts.{lines_of_part, lines_of_section, lines_of_strays};

use bs_board::{Id, KeptBoard, Reply};
use bs_json::{
    Stray, TextBuffer, final_line_bound, push_final_line, push_reply_line, push_stray_line,
    reply_line_bound, stray_line_bound,
};

/// What the transcript shows of one game.
#[derive(Debug, Drop)]
pub struct Section<'t> {
    pub name: &'t Id,
    pub replies: &'t [Reply],
    /// The last board; `None` if no game runs.
    pub board: Option<&'t KeptBoard>,
    pub charge: u32,
}

/// The sections of the games, in order, and the lines that belong to no game, with their numbers in
/// the file.
#[derive(Clone, Copy)]
pub struct Transcript<'t> {
    pub sections: &'t [Section<'t>],
    pub strays: &'t [(u64, Stray)],
}

/// Appends one line of a game's section by its index: a reply line, or the final line, which comes
/// after all replies.
#[tactic(auto, using(crate::proofs::PartLines::reply_line_at, crate::proofs::PartLines::final_line_at))]
fn push_section_line(section: &Section<'_>, index: usize, text: &mut TextBuffer)
    requires { index < length (lines_of_section section.now) }
    ensures { text.new ≡ put text.old (slice_index_or (lines_of_section section.now) index []) }
{
    if index < section.replies.len() {
        let seq = index as u64 + 1;
        push_reply_line(section.name, seq, &section.replies[index], text);
    } else {
        push_final_line(section.name, section.board, section.charge, text);
    }
}

/// An upper bound of the length of the line of that index of a game's section. `None` if it is
/// above `usize::MAX`.
#[tactic(auto, using(crate::proofs::PartLines::reply_line_at, crate::proofs::PartLines::final_line_at))]
fn section_line_bound(section: &Section<'_>, index: usize) -> Option<usize>
    requires { index < length (lines_of_section section.now) }
    ensures { IfSome result (λ bound. length (slice_index_or (lines_of_section section.now) index []) ≤ bound) }
{
    if index < section.replies.len() {
        reply_line_bound(section.name, index as u64 + 1, &section.replies[index])
    } else {
        final_line_bound(section.name, section.board, section.charge)
    }
}

/// Appends the stray line of that index.
#[tactic(auto, using(crate::proofs::PartLines::stray_line_at))]
fn push_stray(strays: &[(u64, Stray)], index: usize, text: &mut TextBuffer)
    requires { index < length strays.now }
    ensures { text.new ≡ put text.old (slice_index_or (lines_of_strays strays.now) index []) }
{
    let (number, stray) = strays[index];
    push_stray_line(number, stray, text);
}

/// An upper bound of the length of the stray line of that index.
fn stray_bound(strays: &[(u64, Stray)], index: usize) -> usize
    requires { index < length strays.now }
    ensures { length (slice_index_or (lines_of_strays strays.now) index []) ≤ result }
{
    let line = strays[index];
    stray_line_bound(line.0, line.1)
}

/// The lines of one game, or those that belong to no game, each with its number in the file.
#[derive(Clone, Copy)]
pub(crate) enum Part<'t> {
    Game(&'t Section<'t>),
    Strays(&'t [(u64, Stray)]),
}

impl Part<'_> {
    /// The number of lines.
    #[tactic(auto, using(crate::proofs::PartLines::section_count, crate::proofs::PartLines::strays_count))]
    pub(crate) fn len(&self) -> usize
        ensures { result ≡ length (lines_of_part self.now) }
    {
        match self {
            Part::Game(section) => section.replies.len() + 1,
            Part::Strays(strays) => strays.len(),
        }
    }

    /// Appends the line of that index.
    #[tactic(auto, using(crate::proofs::PartLines::strays_count))]
    pub(crate) fn push_line(&self, index: usize, text: &mut TextBuffer)
        requires { index < length (lines_of_part self.now) }
        ensures { text.new ≡ put text.old (slice_index_or (lines_of_part self.now) index []) }
    {
        match self {
            Part::Game(section) => push_section_line(section, index, text),
            Part::Strays(strays) => push_stray(strays, index, text),
        }
    }

    /// An upper bound of the length of the line of that index, computed without rendering it.
    /// `None` if it is above `usize::MAX`.
    #[tactic(auto, using(crate::proofs::PartLines::strays_count))]
    pub(crate) fn line_bound(&self, index: usize) -> Option<usize>
        requires { index < length (lines_of_part self.now) }
        ensures { IfSome result (λ bound. length (slice_index_or (lines_of_part self.now) index []) ≤ bound) }
    {
        match self {
            Part::Game(section) => section_line_bound(section, index),
            Part::Strays(strays) => Some(stray_bound(strays, index)),
        }
    }
}
