//! A buffer between the lines of a transcript and a writer.
ghost use Rattle.std.specs.Prelude.{◌≡◌, ◌+◌, ◌<◌, ◌≤◌, ◌++◌, ◌∷◌, [], List, ℕ, Option, length, slice_index_or, IfOk, MatchResult, OnOk, OnErr};
ghost use Rattle.bs_json.specs.Text.{blank};
ghost use Rattle.bs_transcript.specs.inner.Buffer.{IsOnItsWay};
ghost use Rattle.bs_transcript.specs.inner.Parts.{all_lines_of, joined, lines_of_part};
ghost use Rattle.bs_transcript.specs.Written.{IsCutOff};

use crate::calls::WriteCalls;
use crate::section::{Part, Section};
use crate::write::{WriteFault, write_all_by};
use bs_json::{Stray, TextBuffer};
use std::alloc::{AllocError, Global};
use std::io::Write;

/// The room of the buffer besides that for the longest line, in bytes. A larger buffer saves no
/// time.
const USUAL_WRITE: usize = 65_536;

/// Lines that the writer has not taken yet. Only `open` allocates.
#[derive(Drop)]
pub(crate) struct LineBuffer {
    text: TextBuffer,
    /// No line has more bytes.
    longest: usize,
    /// The number of bytes that the writer took.
    written: usize,
}

impl LineBuffer {
    /// Makes an empty buffer with room for 64 KiB and the longest line.
    pub(crate) fn open(alloc: Global, longest: usize) -> Result<LineBuffer, AllocError>
        ensures empty { IfOk result (λ buffer. buffer.text ≡ blank buffer.text.room) }
        ensures longest { IfOk result (λ buffer. buffer.longest ≡ longest) }
        ensures room { IfOk result (λ buffer. longest ≤ buffer.text.room) }
        ensures written { IfOk result (λ buffer. buffer.written ≡ 0) }
    {
        let room = longest.saturating_add(USUAL_WRITE);
        Ok(LineBuffer {
            text: TextBuffer::with_room(alloc, room)?,
            longest,
            written: 0,
        })
    }

    /// Writes what is in the buffer, and empties it.
    pub(crate) fn write_out<W: Write, C: WriteCalls<W>>(
        &mut self,
        output: &mut W,
    ) -> Result<(), WriteFault>
        ensures sent { (first : Option (List ℕ)) (text : List ℕ) (left : List (List ℕ)) → IsOnItsWay first (W.contents output.old) self.old text left
            → MatchResult result (λ _. IsOnItsWay first (W.contents output.new) self.new text left) (λ fault. IsCutOff fault.written first (W.contents output.new) text) }
        ensures empty { OnOk result (self.new.text ≡ blank self.old.text.room) }
        ensures longest { OnOk result (self.new.longest ≡ self.old.longest) }
        ensures failed { OnErr result (C.has_failed output.new) }
    {
        if let Err(fault) = write_all_by::<W, C>(self.text.as_slice(), output) {
            return Err(WriteFault {
                written: self.written.saturating_add(fault.written),
            });
        }
        self.written = self.written.saturating_add(self.text.as_slice().len());
        self.text.clear();
        Ok(())
    }

    /// Writes a text that is not in the buffer. Nothing is in the buffer.
    pub(crate) fn write_text<W: Write, C: WriteCalls<W>>(
        &mut self,
        text: &[u8],
        output: &mut W,
    ) -> Result<(), WriteFault>
        requires { self.old.text.bytes ≡ [] }
        ensures sent { (first : Option (List ℕ)) (whole : List ℕ) (some left : List (List ℕ)) → joined some ≡ text.now → IsOnItsWay first (W.contents output.old) self.old whole (some ++ left)
            → MatchResult result (λ _. IsOnItsWay first (W.contents output.new) self.new whole left) (λ fault. IsCutOff fault.written first (W.contents output.new) whole) }
        ensures failed { OnErr result (C.has_failed output.new) }
    {
        if let Err(fault) = write_all_by::<W, C>(text, output) {
            return Err(WriteFault {
                written: self.written.saturating_add(fault.written),
            });
        }
        self.written = self.written.saturating_add(text.len());
        Ok(())
    }

    /// Writes out the buffer if it has no room for the longest line.
    fn make_room<W: Write, C: WriteCalls<W>>(&mut self, output: &mut W) -> Result<(), WriteFault>
        ensures sent { (first : Option (List ℕ)) (text : List ℕ) (left : List (List ℕ)) → IsOnItsWay first (W.contents output.old) self.old text left
            → MatchResult result (λ _. IsOnItsWay first (W.contents output.new) self.new text left) (λ fault. IsCutOff fault.written first (W.contents output.new) text) }
        ensures room { self.old.longest ≤ self.old.text.room → OnOk result (length self.new.text.bytes + self.new.longest ≤ self.new.text.room) }
        ensures failed { OnErr result (C.has_failed output.new) }
    {
        if self.text.left() < self.longest {
            self.write_out::<W, C>(output)?;
        }
        Ok(())
    }

    /// Appends the line of that index. Before that, writes out the buffer if it has no room for the
    /// longest line.
    pub(crate) fn push_line<W: Write, C: WriteCalls<W>>(
        &mut self,
        part: &Part<'_>,
        index: usize,
        output: &mut W,
    ) -> Result<(), WriteFault>
        requires { index < length (lines_of_part part.now) }
        ensures sent { (first : Option (List ℕ)) (text : List ℕ) (left : List (List ℕ)) → IsOnItsWay first (W.contents output.old) self.old text (slice_index_or (lines_of_part part.now) index [] ∷ left)
            → MatchResult result (λ _. IsOnItsWay first (W.contents output.new) self.new text left) (λ fault. IsCutOff fault.written first (W.contents output.new) text) }
        ensures failed { OnErr result (C.has_failed output.new) }
    {
        self.make_room::<W, C>(output)?;
        part.push_line(index, &mut self.text);
        Ok(())
    }

    fn push_part<W: Write, C: WriteCalls<W>>(
        &mut self,
        part: &Part<'_>,
        output: &mut W,
    ) -> Result<(), WriteFault>
        ensures sent { (first : Option (List ℕ)) (text : List ℕ) (left : List (List ℕ)) → IsOnItsWay first (W.contents output.old) self.old text (lines_of_part part.now ++ left)
            → MatchResult result (λ _. IsOnItsWay first (W.contents output.new) self.new text left) (λ fault. IsCutOff fault.written first (W.contents output.new) text) }
        ensures failed { OnErr result (C.has_failed output.new) }
    {
        for index in 0..part.len() {
            self.push_line::<W, C>(part, index, output)?;
        }
        Ok(())
    }

    /// Appends all lines of a transcript. Writes out the buffer whenever it has no room for the
    /// longest line.
    pub(crate) fn push_all<W: Write, C: WriteCalls<W>>(
        &mut self,
        sections: &[Section<'_>],
        strays: &[(u64, Stray)],
        output: &mut W,
    ) -> Result<(), WriteFault>
        ensures sent { (first : Option (List ℕ)) (text : List ℕ) → IsOnItsWay first (W.contents output.old) self.old text (all_lines_of sections.now strays.now)
            → MatchResult result (λ _. IsOnItsWay first (W.contents output.new) self.new text []) (λ fault. IsCutOff fault.written first (W.contents output.new) text) }
        ensures failed { OnErr result (C.has_failed output.new) }
    {
        for section in sections {
            self.push_part::<W, C>(&Part::Game(section), output)?;
        }
        self.push_part::<W, C>(&Part::Strays(strays), output)?;
        Ok(())
    }
}
