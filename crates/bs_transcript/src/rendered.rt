//! Rendered lines of a transcript.
ghost use Rattle.std.specs.Prelude.{◌≡◌, ◌≤◌, length};
ghost use Rattle.bs_transcript.specs.inner.Between.{between};

use crate::cursor::{Cursor, Lines};
use crate::finished::Limits;
use bs_json::TextBuffer;
use std::alloc::{AllocError, Global};
use std::marker::PhantomData;

/// Rendered lines of a transcript: those from the number `from` on, up to the number `to`.
#[derive(Drop)]
pub(crate) struct Rendered<L: Lines> {
    pub(crate) from: usize,
    pub(crate) to: usize,
    pub(crate) text: TextBuffer,
    of: PhantomData<L>,
    ghost inside: { to ≤ length L.lines },
    ghost is: { text.bytes ≡ between from to L.lines },
}

impl<L: Lines> Rendered<L> {
    /// No lines, and an empty buffer of that capacity.
    pub(crate) fn none(alloc: Global, room: usize) -> Result<Self, AllocError> {
        Ok(Rendered {
            from: 0,
            to: 0,
            text: TextBuffer::with_room(alloc, room)?,
            of: PhantomData,
        })
    }

    /// Renders the next lines within these limits in place of the ones before, as long as there is
    /// room for the longest. Renders none if there was no room for a line.
    pub(crate) fn render(&mut self, at: &mut Cursor<'_, L>, limits: Limits<'_>)
        ensures { at.old.number ≤ at.new.number }
    {
        self.text.clear();
        self.from = at.number;
        at.render(limits, &mut self.text);
        self.to = at.number;
        if self.text.missing() > 0 {
            self.text.clear();
            self.to = self.from;
        }
    }
    /// How many lines of this length fill a text of that many bytes. `usize::MAX` if there are none.
    pub(crate) fn fitting(&self, bytes: usize) -> usize {
        if self.to <= self.from {
            return usize::MAX;
        }
        (self.to - self.from).saturating_mul(bytes) / self.text.as_slice().len().max(1)
    }
}
