//! The lines of a transcript that the calling thread writes, in order.
ghost use Rattle.std.specs.Io.KnownBytes.{Appends};
ghost use Rattle.std.specs.Prelude.{◌≡◌, ◌+◌, ◌<◌, ◌≤◌, [], List, ℕ, Option, drop, length, min, IfOk, IsTrue, MatchResult, OnOk, OnErr};
ghost use Rattle.bs_transcript.specs.inner.Buffer.{IsOnItsWay};
ghost use Rattle.bs_transcript.specs.Written.{IsCutOff};

use crate::calls::WriteCalls;
use crate::cursor::{Cursor, Lines};
use crate::finished::Finished;
use crate::line_buffer::LineBuffer;
use crate::rendered::Rendered;
use crate::renderer::Renderer;
use crate::round::Round;
use crate::write::WriteFault;
use std::io::Write;

/// The lines before a place are written, or in the buffer.
#[derive(Drop)]
pub(crate) struct Writing<'t, L: Lines> {
    pub(crate) buffer: LineBuffer,
    pub(crate) at: Cursor<'t, L>,
    /// What the calling thread renders of the next round.
    pub(crate) own: Renderer<'t, L>,
}

impl<L: Lines> Writing<'_, L> {
    /// Renders the next line.
    fn push_line<W: Write, C: WriteCalls<W>>(&mut self, output: &mut W) -> Result<(), WriteFault>
        requires { self.old.at.number < length L.lines }
        ensures sent { (first : Option (List ℕ)) (text : List ℕ) → IsOnItsWay first (W.contents output.old) self.old.buffer text (drop self.old.at.number L.lines)
            → MatchResult result (λ _. IsOnItsWay first (W.contents output.new) self.new.buffer text (drop self.new.at.number L.lines)) (λ fault. IsCutOff fault.written first (W.contents output.new) text) }
        ensures next { OnOk result (self.new.at.number ≡ self.old.at.number + 1) }
        ensures failed { OnErr result (C.has_failed output.new) }
    {
        self.buffer
            .push_line::<W, C>(&self.at.part(), self.at.index, output)?;
        self.at.advance();
        Ok(())
    }

    /// Renders the lines up to that number, or all.
    fn push_until<W: Write, C: WriteCalls<W>>(
        &mut self,
        end: usize,
        output: &mut W,
    ) -> Result<(), WriteFault>
        ensures sent { (first : Option (List ℕ)) (text : List ℕ) → IsOnItsWay first (W.contents output.old) self.old.buffer text (drop self.old.at.number L.lines)
            → MatchResult result (λ _. IsOnItsWay first (W.contents output.new) self.new.buffer text (drop self.new.at.number L.lines)) (λ fault. IsCutOff fault.written first (W.contents output.new) text) }
        ensures end { OnOk result (min end (length L.lines) ≤ self.new.at.number) }
        ensures failed { OnErr result (C.has_failed output.new) }
    {
        'lines: while self.at.number < end && self.at.has_line() {
            self.push_line::<W, C>(output)?;
        }
        Ok(())
    }

    /// Writes rendered lines. Returns false if they are not the next ones.
    fn write_rendered<W: Write, C: WriteCalls<W>>(
        &mut self,
        rendered: &Rendered<L>,
        output: &mut W,
    ) -> Result<bool, WriteFault>
        ensures sent { (first : Option (List ℕ)) (text : List ℕ) → IsOnItsWay first (W.contents output.old) self.old.buffer text (drop self.old.at.number L.lines)
            → MatchResult result (λ _. IsOnItsWay first (W.contents output.new) self.new.buffer text (drop self.new.at.number L.lines)) (λ fault. IsCutOff fault.written first (W.contents output.new) text) }
        ensures later { OnOk result (self.old.at.number ≤ self.new.at.number) }
        ensures more { IfOk result (λ written. IsTrue written → self.old.at.number < self.new.at.number) }
        ensures failed { OnErr result (C.has_failed output.new) }
    {
        if rendered.from != self.at.number || rendered.to <= rendered.from {
            return Ok(false);
        }
        self.buffer.write_out::<W, C>(output)?;
        self.buffer
            .write_text::<W, C>(rendered.text.as_slice(), output)?;
        self.at.skip(rendered.to);
        Ok(true)
    }

    /// Writes rendered lines, and before them those up to theirs, which it renders itself.
    fn write_next<W: Write, C: WriteCalls<W>>(
        &mut self,
        rendered: &Rendered<L>,
        output: &mut W,
    ) -> Result<(), WriteFault>
        ensures sent { (first : Option (List ℕ)) (text : List ℕ) → IsOnItsWay first (W.contents output.old) self.old.buffer text (drop self.old.at.number L.lines)
            → MatchResult result (λ _. IsOnItsWay first (W.contents output.new) self.new.buffer text (drop self.new.at.number L.lines)) (λ fault. IsCutOff fault.written first (W.contents output.new) text) }
        ensures failed { OnErr result (C.has_failed output.new) }
    {
        self.push_until::<W, C>(rendered.from, output)?;
        self.write_rendered::<W, C>(rendered, output)?;
        Ok(())
    }

    /// Writes rendered lines in their order, then the lines up to that number.
    fn write_round<W: Write, C: WriteCalls<W>>(
        &mut self,
        rendered: &[Rendered<L>],
        end: usize,
        output: &mut W,
    ) -> Result<(), WriteFault>
        ensures sent { (first : Option (List ℕ)) (text : List ℕ) → IsOnItsWay first (W.contents output.old) self.old.buffer text (drop self.old.at.number L.lines)
            → MatchResult result (λ _. IsOnItsWay first (W.contents output.new) self.new.buffer text (drop self.new.at.number L.lines)) (λ fault. IsCutOff fault.written first (W.contents output.new) text) }
        ensures end { OnOk result (min end (length L.lines) ≤ self.new.at.number) }
        ensures failed { OnErr result (C.has_failed output.new) }
    {
        for lines in rendered {
            self.write_next::<W, C>(lines, output)?;
        }
        self.push_until::<W, C>(end, output)?;
        Ok(())
    }

    /// Writes rendered lines, and those up to the next round; then renders its own lines of that
    /// round, until the other threads have.
    pub(crate) fn with_round<W: Write, C: WriteCalls<W>>(
        mut self,
        rendered: &[Rendered<L>],
        next: Round,
        finished: &Finished,
        output: &mut W,
    ) -> Result<Self, WriteFault>
        ensures sent { (first : Option (List ℕ)) (text : List ℕ) → IsOnItsWay first (W.contents output.old) self.entry.buffer text (drop self.entry.at.number L.lines)
            → MatchResult result (λ writing. IsOnItsWay first (W.contents output.new) writing.buffer text (drop writing.at.number L.lines)) (λ fault. IsCutOff fault.written first (W.contents output.new) text) }
        ensures end { IfOk result (λ writing. min next.first (length L.lines) ≤ writing.at.number) }
        ensures failed { OnErr result (C.has_failed output.new) }
    {
        self.write_round::<W, C>(rendered, next.first(), output)?;
        self.own.render_share(next, finished);
        Ok(self)
    }

    /// Writes what is in the buffer once no line is left.
    pub(crate) fn write_last<W: Write, C: WriteCalls<W>>(
        &mut self,
        output: &mut W,
    ) -> Result<(), WriteFault>
        requires { length L.lines ≤ self.old.at.number }
        ensures sent { (first : Option (List ℕ)) (text : List ℕ) → IsOnItsWay first (W.contents output.old) self.old.buffer text (drop self.old.at.number L.lines)
            → MatchResult result (λ _. Appends first (W.contents output.new) text) (λ fault. IsCutOff fault.written first (W.contents output.new) text) }
        ensures failed { OnErr result (C.has_failed output.new) }
    {
        self.buffer.write_out::<W, C>(output)?;
        Ok(())
    }
}
