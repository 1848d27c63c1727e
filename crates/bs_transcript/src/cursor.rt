//! A place between the lines of a transcript.
ghost use Rattle.std.specs.Prelude.{◌≡◌, ◌+◌, ◌<◌, ◌≤◌, ◌^◌, [], List, ℕ, drop, length, min, nat_lt, slice_index_or};
ghost use Rattle.bs_json.specs.Text.{put};
ghost use Rattle.bs_transcript.specs.inner.Between.{between, lines_of_first};
ghost use Rattle.bs_transcript.specs.inner.Parts.{all_lines_of, lines_of_part};

use crate::finished::Limits;
use crate::section::{Part, Section};
use bs_json::{Stray, TextBuffer};
use std::marker::{Brand, PhantomData};

/// The lines of a transcript, in order.
pub(crate) trait Lines {
    ghost lines: { List (List ℕ) };
}

impl Lines for Brand {
    ghost lines = { [] };
}

/// A place in a transcript: before the line of that number.
#[derive(Drop)]
pub(crate) struct Cursor<'t, L: Lines> {
    sections: &'t [Section<'t>],
    strays: &'t [(u64, Stray)],
    /// How many sections are passed.
    section: usize,
    /// How many lines of the next section are passed, or of the stray lines if no section is left.
    pub(crate) index: usize,
    /// How many lines of the transcript are passed.
    pub(crate) number: usize,
    of: PhantomData<L>,
    ghost few: { length L.lines < 2 ^ 64 },
    ghost left: { drop index (all_lines_of (drop section sections.now) strays.now) ≡ drop number L.lines },
    ghost within: { index < lines_of_first index (drop section sections.now) },
    ghost passed: { number ≤ length L.lines },
}

impl<'t, L: Lines> Cursor<'t, L> {
    /// The place before the first line.
    pub(crate) fn start(sections: &'t [Section<'t>], strays: &'t [(u64, Stray)]) -> Self
        requires few { length L.lines < 2 ^ 64 }
        requires lines { L.lines ≡ all_lines_of sections.now strays.now }
        ensures { result.number ≡ 0 }
    {
        Cursor {
            sections,
            strays,
            section: 0,
            index: 0,
            number: 0,
            of: PhantomData,
        }
    }

    /// Whether there is a line behind this place.
    pub(crate) fn has_line(&self) -> bool
        ensures { result ≡ nat_lt self.now.number (length L.lines) }
    {
        self.section < self.sections.len() || self.index < self.strays.len()
    }

    /// The part that has the next line, at `index`.
    pub(crate) fn part(&self) -> Part<'t>
        requires { self.now.number < length L.lines }
        ensures within { self.now.index < length (lines_of_part result) }
        ensures count { self.now.section < length self.now.sections.now → length (lines_of_part result) ≡ lines_of_first self.now.index (drop self.now.section self.now.sections.now) }
        ensures line { slice_index_or (lines_of_part result) self.now.index [] ≡ slice_index_or L.lines self.now.number [] }
    {
        if self.section < self.sections.len() {
            Part::Game(&self.sections[self.section])
        } else {
            Part::Strays(self.strays)
        }
    }

    /// Passes a line.
    pub(crate) fn advance(&mut self)
        requires { self.old.number < length L.lines }
        ensures { self.new.number ≡ self.old.number + 1 }
    {
        let count = self.part().len();
        self.number += 1;
        self.index += 1;
        if self.index == count && self.section < self.sections.len() {
            self.section += 1;
            self.index = 0;
        }
    }

    /// Passes the lines up to that number, or all.
    pub(crate) fn skip(&mut self, end: usize)
        ensures later { self.old.number ≤ self.new.number }
        ensures end { min end (length L.lines) ≤ self.new.number }
        ensures exact { self.old.number ≤ end → end ≤ length L.lines → self.new.number ≡ end }
    {
        'lines: while self.number < end && self.has_line() {
            self.advance();
        }
    }

    /// Appends the next line.
    pub(crate) fn push_line(&self, text: &mut TextBuffer)
        requires { self.now.number < length L.lines }
        ensures { text.new ≡ put text.old (slice_index_or L.lines self.now.number []) }
    {
        self.part().push_line(self.index, text);
    }

    /// Appends the next lines within these limits, as long as there is room for the longest.
    pub(crate) fn render(&mut self, limits: Limits<'_>, text: &mut TextBuffer)
        ensures later { self.old.number ≤ self.new.number }
        ensures text { text.new ≡ put text.old (between self.old.number self.new.number L.lines) }
    {
        'lines: while self.number < limits.end
            && self.has_line()
            && text.left() >= limits.longest
            && !limits.finished.has(limits.threads)
        {
            self.push_line(text);
            self.advance();
        }
    }
}
