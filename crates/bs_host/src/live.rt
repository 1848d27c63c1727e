//! Serves a command file while it is read: answers each line as soon as it is complete. The output
//! is a function of the lines alone: their answers, in order.
ghost use Rattle.std.specs.Prelude.{◌≡◌, ◌≢◌, ◌↔◌, ◌==◌, ◌+◌, ◌<◌, ◌≤◌, None, IsTrue, ℕ, true, false, List, [], ◌++◌, drop, length, Option, option_copied, IfOk, IfErr, IfSome, OnOk};
ghost use Rattle.std.specs.Io.KnownBytes.{Appends, Consumes, IsAtEnd};
ghost use Rattle.std.specs.List.{position};
ghost use Rattle.bs_board.specs.declared.plans.version.Version.{Version};
ghost use Rattle.bs_board.specs.plans.Plan.{GameRow};
ghost use Rattle.bs_host.specs.declared.limits.TheConstants.{LONG_TEXT};
ghost use Rattle.bs_host.specs.declared.lines.TheConstants.{LINE_FEED};
ghost use Rattle.bs_json.specs.declared.limits.TheConstants.{MAX_LINE};
ghost use Rattle.bs_host.specs.File.{pieces_of};
ghost use Rattle.bs_host.specs.Live.{LiveLaw, PrefixLaw, TranscriptLaw, live_lines_of, live_of};
ghost use Rattle.bs_host.specs.inner.Live.{EndsServing, HasAnswered, IsSameText, KeepsServing, StopsAtEnd, StopsServing, lines_behind};
ghost use Rattle.bs_host.specs.inner.LiveAnswers.{HasAnswers, LeavesTexts};
ghost use Rattle.bs_host.specs.LiveFaults.{HasLiveCause, IsLiveFault, LeavesLive, live_refusal_of};
ghost use Rattle.bs_host.specs.inner.LiveFaults.{IsReadFault, LeavesLines, LeavesText};

use crate::calls::ReadCalls;
use crate::fault::Fault;
use crate::limits::LONG_TEXT;
use crate::lines::{first_feed, last_feed, split_first, split_line};
use crate::live_host::LiveHost;
use bs_json::{MAX_LINE, TextBuffer};
use bs_transcript::{Unrecorded, WriteCalls, write_all_by};
use std::alloc::{AllocError, Global};
use std::io::{Read, Write};

/// The largest number of bytes of one read.
const BLOCK: usize = 8_192;

/// Writes the text and flushes the writer. Counts in `written` the bytes that it took.
fn write_out<W: Write, C: WriteCalls<W>>(
    text: &[u8],
    written: &mut usize,
    output: &mut W,
) -> Result<(), Fault>
    ensures text { OnOk result (Appends (W.contents output.old) (W.contents output.new) text.now) }
    ensures count { OnOk result (written.new ≡ written.old + length text.now) }
    ensures left { IfErr result (LeavesText text.now written.old (W.contents output.old) (W.contents output.new)) }
    ensures failed { IfErr result (HasLiveCause ⊥ (C.has_failed output.new)) }
{
    let after = written.checked_add(text.len()).ok_or(AllocError)?;
    if let Err(fault) = write_all_by::<W, C>(text, output) {
        return Err(Fault::Write(*written + fault.written));
    }
    let Ok(()) = C::flush(output) else {
        return Err(Fault::Flush);
    };
    *written = after;
    Ok(())
}

/// A host, and its answers that are not written yet.
#[derive(Drop)]
pub(crate) struct Answers {
    pub(crate) host: LiveHost,
    pub(crate) text: TextBuffer,
    /// The number of bytes that the writer took.
    pub(crate) written: usize,
}

/// Writes the answers and drops them.
fn write_answers<W: Write, C: WriteCalls<W>>(
    answers: &mut Answers,
    output: &mut W,
) -> Result<(), Fault>
    ensures host { OnOk result (answers.new.host ≡ answers.old.host) }
    ensures dropped { OnOk result (answers.new.text.bytes ≡ []) }
    ensures text { OnOk result (Appends (W.contents output.old) (W.contents output.new) answers.old.text.bytes) }
    ensures count { OnOk result (answers.new.written ≡ answers.old.written + length answers.old.text.bytes) }
    ensures left { IfErr result (LeavesText answers.old.text.bytes answers.old.written (W.contents output.old) (W.contents output.new)) }
    ensures failed { IfErr result (HasLiveCause ⊥ (C.has_failed output.new)) }
{
    write_out::<W, C>(answers.text.as_slice(), &mut answers.written, output)?;
    answers.text.clear();
    Ok(())
}

/// Answers the lines of a text, split at its line feeds, one after the other. Writes the answers
/// whenever they are long, and leaves the last ones unwritten.
fn answer_lines<W: Write, C: WriteCalls<W>>(
    alloc: Global,
    lines: &[u8],
    answers: &mut Answers,
    output: &mut W,
) -> Result<(), Fault>
    ensures answered { OnOk result (HasAnswers answers.old answers.new (pieces_of lines.now) [] (W.contents output.old) (W.contents output.new)) }
    ensures held { OnOk result (length answers.new.text.bytes < LONG_TEXT) }
    ensures left { IfErr result (LeavesTexts answers.old (pieces_of lines.now) (W.contents output.old) (W.contents output.new)) }
    ensures failed { IfErr result (HasLiveCause ⊥ (C.has_failed output.new)) }
{
    answers.text.clear();
    let mut left = Some(lines);
    'lines: while let Some(lines) = left {
        let (line, more) = split_line(lines);
        answers.host.answer(alloc, line, &mut answers.text)?;
        if answers.text.as_slice().len() >= LONG_TEXT {
            write_answers::<W, C>(answers, output)?;
        }
        left = more;
    }
    Ok(())
}

/// What is between the reader and the writer.
#[derive(Drop)]
pub(crate) struct Flow {
    /// Bytes that were read: the begin of the next line.
    pub(crate) pending: Vec<u8>,
    pub(crate) answers: Answers,
}

/// Drops the first bytes, and moves the others to the front.
#[tactic(auto, using(crate::proofs::LiveAnswers::moved_front))]
fn drop_first(bytes: &mut Vec<u8>, count: usize)
    requires { count ≤ length bytes.old.items }
    ensures { bytes.new.items ≡ drop count bytes.old.items }
{
    let left = bytes.len() - count;
    bytes.copy_within(count.., 0);
    bytes.truncate(left);
}

/// Answers the complete lines of the pending bytes, and writes their answers. The rest stays
/// pending.
fn answer_ready<W: Write, C: WriteCalls<W>>(
    alloc: Global,
    flow: &mut Flow,
    output: &mut W,
) -> Result<(), Fault>
    ensures serving { OnOk result (KeepsServing flow.old (W.contents output.old) flow.new (W.contents output.new)) }
    ensures ready { OnOk result (position (λ byte. byte == LINE_FEED) flow.new.pending.items ≡ None) }
    ensures left { IfErr result (StopsServing flow.old (W.contents output.old) (W.contents output.new)) }
    ensures failed { IfErr result (HasLiveCause ⊥ (C.has_failed output.new)) }
{
    let Some(at) = last_feed(&flow.pending) else {
        return Ok(());
    };
    answer_lines::<W, C>(alloc, &flow.pending[..at], &mut flow.answers, output)?;
    write_answers::<W, C>(&mut flow.answers, output)?;
    drop_first(&mut flow.pending, at + 1);
    Ok(())
}

/// Whether no line feed is in the text.
fn lacks_feed(text: &[u8]) -> bool
    ensures { IsTrue result ↔ position (λ byte. byte == LINE_FEED) text.now ≡ None }
{
    first_feed(text).is_none()
}

/// Drops the pending bytes after the first 65,537 if there is no line feed: the line is too long,
/// whatever follows.
#[tactic(auto, using(crate::proofs::LiveHeld::same_text))]
fn hold_line(pending: &mut Vec<u8>)
    ensures text { IsSameText pending.old.items pending.new.items }
    ensures ready { position (λ byte. byte == LINE_FEED) pending.old.items ≡ None → position (λ byte. byte == LINE_FEED) pending.new.items ≡ None }
    ensures held { position (λ byte. byte == LINE_FEED) pending.new.items ≡ None → length pending.new.items ≤ MAX_LINE + 1 }
{
    if pending.len() > MAX_LINE && lacks_feed(pending) {
        pending.truncate(MAX_LINE + 1);
    }
}

/// Waits until a byte can be read, reads once, and appends the bytes. Returns false at the end of
/// the input. Before the read all complete lines are answered, and of one that is not complete at
/// most 65,537 bytes are held.
fn read_more<R: Read, C: ReadCalls<R>>(input: &mut R, pending: &mut Vec<u8>) -> Result<bool, Fault>
    requires answered { position (λ byte. byte == LINE_FEED) pending.old.items ≡ None }
    requires held { length pending.old.items ≤ MAX_LINE + 1 }
    ensures bytes { OnOk result
        ((bytes : List ℕ) × Consumes (R.remaining input.old) (R.remaining input.new) bytes × (pending.new.items ≡ pending.old.items ++ bytes)) }
    ensures more { IfOk result (λ more. more ≡ true → length pending.old.items < length pending.new.items) }
    ensures none { IfOk result (λ more. more ≡ false → pending.new.items ≡ pending.old.items) }
    ensures end { IfOk result (λ more. more ≡ false → IsAtEnd (R.remaining input.new)) }
    ensures fault { IfErr result IsReadFault }
    ensures device { IfErr result (HasLiveCause (C.has_failed input.new) ⊥) }
{
    let mut block = [0u8; BLOCK];
    let Ok(count) = C::read(input, &mut block) else {
        return Err(Fault::Device);
    };
    pending.extend_from_slice(&block[..count])?;
    Ok(count > 0)
}

/// Reads until the first line is complete or longer than 65,536 bytes, or until the end of the
/// input.
#[tactic(auto, using(crate::proofs::LiveBytes::consumes_none, crate::proofs::LiveBytes::reads_more))]
fn read_first<R: Read, C: ReadCalls<R>>(alloc: Global, input: &mut R) -> Result<Vec<u8>, Fault>
    ensures bytes { IfOk result (λ bytes. Consumes (R.remaining input.old) (R.remaining input.new) bytes.items) }
    ensures end { IfOk result (λ bytes. position (λ byte. byte == LINE_FEED) bytes.items ≡ None → length bytes.items ≤ MAX_LINE → IsAtEnd (R.remaining input.new)) }
    ensures fault { IfErr result IsReadFault }
    ensures device { IfErr result (HasLiveCause (C.has_failed input.new) ⊥) }
{
    let mut bytes = Vec::new(alloc);
    'reads: while bytes.len() <= MAX_LINE && lacks_feed(&bytes) {
        if !read_more::<R, C>(input, &mut bytes)? {
            return Ok(bytes);
        }
    }
    Ok(bytes)
}

/// Answers the pending bytes at the end of the input, which are one line. Writes the answer and the
/// final lines of the open stays.
fn end_live<W: Write, C: WriteCalls<W>>(
    alloc: Global,
    flow: &mut Flow,
    output: &mut W,
) -> Result<(), Fault>
    requires { position (λ byte. byte == LINE_FEED) flow.old.pending.items ≡ None }
    ensures written { OnOk result (EndsServing flow.old (W.contents output.old) (W.contents output.new)) }
    ensures left { IfErr result (StopsAtEnd flow.old (W.contents output.old) (W.contents output.new)) }
    ensures failed { IfErr result (HasLiveCause ⊥ (C.has_failed output.new)) }
{
    let answers = &mut flow.answers;
    answers.text.clear();
    answers
        .host
        .answer(alloc, &flow.pending, &mut answers.text)?;
    answers.host.close(alloc, &mut answers.text)?;
    write_answers::<W, C>(answers, output)?;
    Ok(())
}

/// Answers the lines after the plan as they are read. The bytes `rest` were read already.
fn serve_lines<R: Read, W: Write, C: ReadCalls<R> + WriteCalls<W>>(
    alloc: Global,
    host: LiveHost,
    rest: &[u8],
    input: &mut R,
    output: &mut W,
) -> Result<(), Fault>
    ensures written { (blocks : ℕ) (version : Version) (plan : List GameRow) → HasAnswered blocks version plan [] host
        → OnOk result (IfSome (R.remaining input.old) (λ left. Appends (W.contents output.old) (W.contents output.new) (live_lines_of blocks version plan (pieces_of (rest.now ++ left))))) }
    ensures left { IfErr result (λ fault. (blocks : ℕ) (version : Version) (plan : List GameRow) → HasAnswered blocks version plan [] host
        → IfSome (R.remaining input.old) (λ left. LeavesLines blocks version plan (pieces_of (rest.now ++ left)) (W.contents output.old) (W.contents output.new) fault)) }
    ensures failed { IfErr result (HasLiveCause (C.ReadCalls.has_failed input.new) (C.WriteCalls.has_failed output.new)) }
{
    let mut flow = Flow {
        pending: Vec::from_slice(alloc, rest)?,
        answers: Answers {
            host,
            text: TextBuffer::new(alloc),
            written: 0,
        },
    };
    for _ in 0..u64::MAX {
        answer_ready::<W, C>(alloc, &mut flow, output)?;
        hold_line(&mut flow.pending);
        if !read_more::<R, C>(input, &mut flow.pending)? {
            end_live::<W, C>(alloc, &mut flow, output)?;
            return Ok(());
        }
    }
    Err(Fault::Memory)
}

/// Writes the final lines of the stays of a file without lines after its plan.
fn end_plan<W: Write, C: WriteCalls<W>>(
    alloc: Global,
    host: &LiveHost,
    output: &mut W,
) -> Result<(), Fault>
    ensures written { (blocks : ℕ) (version : Version) (plan : List GameRow) → HasAnswered blocks version plan [] host.now
        → OnOk result (Appends (W.contents output.old) (W.contents output.new) (live_lines_of blocks version plan [])) }
    ensures left { IfErr result (λ fault. (blocks : ℕ) (version : Version) (plan : List GameRow) → HasAnswered blocks version plan [] host.now
        → LeavesLines blocks version plan [] (W.contents output.old) (W.contents output.new) fault) }
    ensures failed { IfErr result (HasLiveCause ⊥ (C.has_failed output.new)) }
{
    let mut text = TextBuffer::new(alloc);
    host.close(alloc, &mut text)?;
    let mut written = 0;
    write_out::<W, C>(text.as_slice(), &mut written, output)?;
    Ok(())
}

/// Answers the lines after the plan, of which the bytes `rest` were read already. If the plan's line
/// is not complete, there are none.
fn serve_rest<R: Read, W: Write, C: ReadCalls<R> + WriteCalls<W>>(
    alloc: Global,
    host: LiveHost,
    rest: Option<&[u8]>,
    input: &mut R,
    output: &mut W,
) -> Result<(), Fault>
    ensures written { (blocks : ℕ) (version : Version) (plan : List GameRow) → HasAnswered blocks version plan [] host
        → OnOk result (IfSome (R.remaining input.old) (λ left. Appends (W.contents output.old) (W.contents output.new) (live_lines_of blocks version plan (lines_behind (option_copied rest.entry) left)))) }
    ensures left { IfErr result (λ fault. (blocks : ℕ) (version : Version) (plan : List GameRow) → HasAnswered blocks version plan [] host
        → IfSome (R.remaining input.old) (λ left. LeavesLines blocks version plan (lines_behind (option_copied rest.entry) left) (W.contents output.old) (W.contents output.new) fault)) }
    ensures failed { IfErr result (HasLiveCause (C.ReadCalls.has_failed input.new) (C.WriteCalls.has_failed output.new)) }
{
    match rest {
        Some(rest) => {
            serve_lines::<R, W, C>(alloc, host, rest, input, output)?;
            Ok(())
        }
        None => {
            end_plan::<W, C>(alloc, &host, output)?;
            Ok(())
        }
    }
}

/// Like `serve_live`, by the calls `C`: a fault of the reader or of the writer is a call that
/// failed.
pub fn serve_live_by<R: Read, W: Write, C: ReadCalls<R> + WriteCalls<W>>(
    alloc: Global,
    input: &mut R,
    blocks: usize,
    output: &mut W,
) -> Result<(), Fault>
    ensures served { OnOk result (IfSome (R.remaining input.old) (λ file. live_refusal_of blocks file ≡ None)) }
    ensures written { OnOk result (IfSome (R.remaining input.old) (λ file. Appends (W.contents output.old) (W.contents output.new) (live_of blocks file))) }
    ensures fault { IfErr result (λ fault. IfSome (R.remaining input.old) (λ file. IsLiveFault (live_refusal_of blocks file) fault)) }
    ensures left { IfErr result (λ fault. IfSome (R.remaining input.old) (λ file. LeavesLive blocks file (W.contents output.old) (W.contents output.new) fault)) }
    ensures refused { IfSome (R.remaining input.old) (λ file. live_refusal_of blocks file ≢ None → output.new ≡ output.old) }
    ensures failed { IfErr result (HasLiveCause (C.ReadCalls.has_failed input.new) (C.WriteCalls.has_failed output.new)) }
{
    let bytes = read_first::<R, C>(alloc, input)?;
    let (first, rest) = split_first(&bytes);
    let host = LiveHost::open(alloc, first, blocks)?;
    serve_rest::<R, W, C>(alloc, host, rest, input, output)?;
    Ok(())
}

/// Serves a command file with `blocks` blocks of memory while it is read. After each read it
/// answers the complete lines, writes their answers, and flushes the writer. At the end of the
/// input it answers the text after the last line feed, and writes the final lines of the open
/// stays. The input may have any length; of a line that is not complete at most 65,537 bytes are
/// held, and the bytes of one read.
///
/// A plan that is refused is a fault as soon as its line is complete or too long, and nothing is
/// written for it. After any other fault the answers to the first lines are still written.
pub fn serve_live<R: Read, W: Write>(
    alloc: Global,
    input: &mut R,
    blocks: usize,
    output: &mut W,
) -> Result<(), Fault>
    ensures served { OnOk result (IfSome (R.remaining input.old) (λ file. live_refusal_of blocks file ≡ None)) }
    ensures written { OnOk result (IfSome (R.remaining input.old) (λ file. Appends (W.contents output.old) (W.contents output.new) (live_of blocks file))) }
    ensures fault { IfErr result (λ fault. IfSome (R.remaining input.old) (λ file. IsLiveFault (live_refusal_of blocks file) fault)) }
    ensures left { IfErr result (λ fault. IfSome (R.remaining input.old) (λ file. LeavesLive blocks file (W.contents output.old) (W.contents output.new) fault)) }
    ensures refused { IfSome (R.remaining input.old) (λ file. live_refusal_of blocks file ≢ None → output.new ≡ output.old) }
    ensures kind { IfErr result (HasLiveCause (Unit {0}) (Unit {0})) }
{
    serve_live_by::<R, W, Unrecorded>(alloc, input, blocks, output)
}

/// States for every file, number of blocks and stay: the lines that a live host writes for a stay
/// are the stay's section of the transcript, and it writes the same stray lines; so the transcript
/// is the output sorted by stays. Later lines do not change what is written for earlier ones. Does
/// nothing.
pub fn live_law()
    ensures sections { LiveLaw }
    ensures transcript { TranscriptLaw }
    ensures prefix { PrefixLaw }
{}
