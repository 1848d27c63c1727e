//! The lines of a file, parsed by several threads: they take chunks of the text by turns.
ghost use Rattle.std.specs.Prelude.{◌≡◌, ◌<◌, All, IfOk, IfSome, None, OnOk, Some, length, slice_index_or, slice_set};
ghost use Rattle.std.specs.Thread.{IsSync};
ghost use Rattle.bs_json.specs.Line.{line_of};
ghost use Rattle.bs_json.specs.Short.{command_of_short};
ghost use Rattle.bs_host.specs.File.{pieces_of};
ghost use Rattle.bs_host.specs.inner.Parsed.{AreShares, IsShare, all_lines, parsed_line, parsed_lines, pieces_in};

use crate::lines::{split_from, split_line};
use bs_board::{Command, Version};
use bs_fiber::SharedCommand;
use bs_json::{Line, Name, ShortCommand, ShortLine, Stray, read_line, read_short};
use bs_sched::SharedRow;
use bs_workers::take_ahead;
use std::alloc::{AllocError, Global};
use std::marker::Model;
use std::sync::atomic::{AtomicU64, Ordering};
use std::thread::{Threads, join};

/// A parsed line of a file. It depends on the line's bytes and on the plan's version alone.
#[derive(Debug, Drop)]
pub enum ParsedLine<'l> {
    /// A command for the game of that name.
    Command(Name<'l>, SharedCommand),
    /// A line that admits a game.
    Admit(SharedRow),
    /// A line that dismisses the game of that name.
    Leave(Name<'l>),
    /// A line of no game, for that reason.
    Stray(Stray),
    /// A line of white space only.
    Blank,
}

/// Allocates the command; or shares the one before, if both are equal and have neither setup nor
/// moves.
fn to_shared(
    alloc: Global,
    command: Command,
    before: Option<&SharedCommand>,
) -> Result<SharedCommand, AllocError>
    ensures { IfOk result (λ shared. shared ≡ command) }
{
    match before {
        Some(before) if before.is_bare() && before.get().is_same(&command) => before.share(),
        _ => SharedCommand::new(alloc, command),
    }
}

/// Parses a line that may have a setup or moves. Its command may share the memory of the one before.
#[inline(never)]
fn parse_any<'l>(
    alloc: Global,
    version: Version,
    line: &'l [u8],
    before: Option<&SharedCommand>,
) -> Result<ParsedLine<'l>, AllocError>
    ensures { IfOk result (λ parsed. parsed ≡ parsed_line (line_of version line.now)) }
{
    match read_line(alloc, line, version)? {
        Line::Blank => Ok(ParsedLine::Blank),
        Line::Command { game, command } => {
            let command = to_shared(alloc, command, before)?;
            Ok(ParsedLine::Command(game, command))
        }
        Line::Bad { game } => {
            let command = to_shared(alloc, Command::Bad, before)?;
            Ok(ParsedLine::Command(game, command))
        }
        Line::Stray(kind) => Ok(ParsedLine::Stray(kind)),
        Line::Admit(row) => Ok(ParsedLine::Admit(SharedRow::new(alloc, row)?)),
        Line::BadAdmit => Ok(ParsedLine::Stray(Stray::BadRow)),
        Line::Leave { game: Some(game) } => Ok(ParsedLine::Leave(game)),
        Line::Leave { game: None } => Ok(ParsedLine::Stray(Stray::NoStay)),
    }
}

/// Shares the command before, if it is this one; else allocates this one.
#[inline(always)]
fn share_or_new(
    alloc: Global,
    command: ShortCommand,
    before: &SharedCommand,
) -> Result<SharedCommand, AllocError>
    ensures { IfOk result (λ shared. shared ≡ command_of_short command) }
{
    if command.is(before.get()) {
        return before.share();
    }
    SharedCommand::new(alloc, command.command())
}

/// Allocates a short command, or shares the one before if they are equal.
#[inline(always)]
fn share_short(
    alloc: Global,
    command: ShortCommand,
    before: Option<&SharedCommand>,
) -> Result<SharedCommand, AllocError>
    ensures { IfOk result (λ shared. shared ≡ command_of_short command) }
{
    match before {
        Some(before) => share_or_new(alloc, command, before),
        None => SharedCommand::new(alloc, command.command()),
    }
}

/// Parses a line. Its command may share the memory of the one before.
#[tactic(auto, using(crate::proofs::ParsedLines::parsed_short))]
#[inline(always)]
pub(crate) fn parse_line<'l>(
    alloc: Global,
    version: Version,
    line: &'l [u8],
    before: Option<&SharedCommand>,
) -> Result<ParsedLine<'l>, AllocError>
    ensures { IfOk result (λ parsed. parsed ≡ parsed_line (line_of version line.now)) }
{
    match read_short(line) {
        Some(ShortLine { game, command }) => {
            let command = share_short(alloc, command, before)?;
            Ok(ParsedLine::Command(game, command))
        }
        None => parse_any(alloc, version, line, before),
    }
}

/// The command of the last line, if it has one.
#[inline(always)]
fn last_command<'s>(lines: &'s [ParsedLine<'_>]) -> Option<&'s SharedCommand> {
    match lines.last() {
        Some(ParsedLine::Command(_, command)) => Some(command),
        _ => None,
    }
}

/// The parsed lines of a chunk of a text, in order.
#[derive(Debug, Drop)]
pub struct Share<'l> {
    pub(crate) lines: Vec<ParsedLine<'l>>,
}

impl<'l> Model for Share<'l> {
    ghost use Rattle.std.specs.Prelude.{List};
    ghost use Rattle.bs_host.specs.declared.parse.ParsedLine.{ParsedLine};

    ghost Value = { List ParsedLine };

    ghost view = { λ s. s.lines.items };
}

impl Share<'_> {
    pub(crate) fn len(&self) -> usize {
        self.lines.len()
    }
}

/// Parses the lines of a text one after the other.
#[tactic(auto, using(crate::proofs::ParsedLines::fewer_left, crate::proofs::ParsedLines::one_more_parsed))]
fn parse_share<'l>(alloc: Global, version: Version, text: &'l [u8]) -> Result<Share<'l>, AllocError>
    ensures { IfOk result (λ share. share ≡ parsed_lines version (pieces_of text.now)) }
{
    let mut lines: Vec<ParsedLine<'l>> = Vec::new(alloc);
    let mut left = Some(text);
    'lines: while let Some(text) = left {
        let (line, more) = split_line(text);
        let parsed = parse_line(alloc, version, line, last_command(lines.as_slice()))?;
        lines.push(parsed)?;
        left = more;
    }
    Ok(Share { lines })
}

/// The least size of a chunk, in bytes: parsing it takes a few times as long as starting a thread.
const FEWEST_BYTES: usize = 32_768;

/// The number of chunks for each thread. A thread that starts late or has longer lines leaves some
/// of them to the others.
const CHUNKS_PER_THREAD: usize = 16;

/// The size of the chunks in which at most that many threads parse a text of that length.
fn chunk_size(len: usize, threads: usize) -> usize {
    if threads <= 1 {
        return len;
    }
    (len / threads.saturating_mul(CHUNKS_PER_THREAD)).max(FEWEST_BYTES)
}

/// Cuts a text at line feeds into chunks of at least `size` bytes; the last one may be shorter.
#[tactic(auto, using(crate::proofs::ParsedLines::one_more_chunk, crate::proofs::ParsedLines::last_chunk))]
fn cut_text(alloc: Global, text: &[u8], size: usize) -> Result<Vec<&[u8]>, AllocError>
    ensures { IfOk result (λ chunks. pieces_in chunks.items ≡ pieces_of text.now) }
{
    let mut chunks = Vec::new(alloc);
    let mut left = text;
    while left.len() / 2 >= size {
        let Some((chunk, more)) = split_from(left, size) else {
            break;
        };
        chunks.push(chunk)?;
        left = more;
    }
    chunks.push(left)?;
    Ok(chunks)
}

/// A chunk that was parsed.
#[derive(Drop)]
struct ParsedChunk<'l> {
    /// The chunk's place in the text, from 0.
    number: usize,
    share: Share<'l>,
}

/// The share of each chunk, once it was parsed.
#[derive(Drop)]
struct Slots<'l> {
    shares: Vec<Option<Share<'l>>>,
}

impl<'l> Slots<'l> {
    /// Slots of which none is filled.
    fn new(alloc: Global, many: usize) -> Result<Self, AllocError>
        ensures { IfOk result (λ slots. All (λ slot. slot ≡ None) slots.shares.items) }
    {
        let mut shares = Vec::with_capacity(alloc, many)?;
        for _ in 0..many {
            shares.push(None)?;
        }
        Ok(Slots { shares })
    }

    /// Fills the slot of that number, if there is one.
    fn put(&mut self, number: usize, share: Share<'l>)
        ensures { self.new.shares.items ≡ slice_set self.old.shares.items number (Some share.entry) }
    {
        if number < self.shares.len() {
            self.shares[number] = Some(share);
        }
    }

    /// Empties the slot of that number, and returns what was in it.
    fn take(&mut self, number: usize) -> Option<Share<'l>>
        ensures taken { result ≡ slice_index_or self.old.shares.items number None }
        ensures left { self.new.shares.items ≡ slice_set self.old.shares.items number None }
    {
        if number < self.shares.len() {
            self.shares[number].take()
        } else {
            None
        }
    }
}

/// Threads that parse the chunks of a text, one after the other.
#[derive(Drop)]
struct Parser<'r, 'l, R> {
    rt: &'r R,
    alloc: Global,
    version: Version,
    chunks: Vec<&'l [u8]>,
    /// The number of the first chunk that no thread has asked for.
    next: AtomicU64,
}

impl<'l, R: Threads + Sync> Parser<'_, 'l, R> {
    /// The number of the next chunk. Each is returned once.
    fn next(&self) -> Option<usize>
        ensures { IfSome result (λ number. number < length self.now.chunks.items) }
    {
        let number = self.next.fetch_add(1, Ordering::SeqCst) as usize;
        if number < self.chunks.len() {
            Some(number)
        } else {
            None
        }
    }

    /// Parses the chunk of that number.
    fn parse_chunk(&self, number: usize) -> Result<Share<'l>, AllocError>
        requires { number < length self.now.chunks.items }
        ensures { IfOk result (IsShare self.now.version self.now.chunks.items number) }
    {
        parse_share(self.alloc, self.version, self.chunks[number])
    }

    /// Parses chunks until none is left.
    fn parse_chunks(&self) -> Result<Vec<ParsedChunk<'l>>, AllocError>
        ensures { IfOk result (λ list. All (λ parsed. IsShare self.now.version self.now.chunks.items parsed.number parsed.share) list.items) }
    {
        take_ahead(self.alloc);
        let mut list = Vec::new(self.alloc);
        for _ in 0..self.chunks.len() {
            let Some(number) = self.next() else {
                break;
            };
            let share = self.parse_chunk(number)?;
            list.push(ParsedChunk { number, share })?;
        }
        Ok(list)
    }

    /// Puts a share into its slot.
    #[tactic(auto, using(crate::proofs::ParsedLines::one_more_share))]
    fn put(&self, parsed: ParsedChunk<'l>, slots: &mut Slots<'l>)
        requires parsed { IsShare self.now.version self.now.chunks.items parsed.number parsed.share }
        requires before { AreShares self.now.version self.now.chunks.items slots.old.shares.items }
        ensures { AreShares self.now.version self.now.chunks.items slots.new.shares.items }
    {
        let ParsedChunk { number, share } = parsed;
        slots.put(number, share);
    }

    /// Puts the shares that a thread has parsed into their slots.
    fn put_all(&self, mut list: Vec<ParsedChunk<'l>>, slots: &mut Slots<'l>)
        requires parsed { All (λ parsed. IsShare self.now.version self.now.chunks.items parsed.number parsed.share) list.items }
        requires before { AreShares self.now.version self.now.chunks.items slots.old.shares.items }
        ensures { AreShares self.now.version self.now.chunks.items slots.new.shares.items }
    {
        for _ in 0..list.len() {
            if let Some(parsed) = list.pop() {
                self.put(parsed, slots);
            }
        }
    }

    /// Parses the chunks on that many threads, of which the calling one is the last.
    #[cycle(parsing)]
    fn parse_on(&self, threads: usize) -> Result<Vec<ParsedChunk<'l>>, AllocError>
        ensures { IfOk result (λ list. All (λ parsed. IsShare self.now.version self.now.chunks.items parsed.number parsed.share) list.items) }
    {
        if threads <= 1 {
            return self.parse_chunks();
        }
        let fewer = threads - 1;
        let first = || -> Result<Vec<ParsedChunk>, AllocError>
            ensures { IfOk result (λ list. All (λ parsed. IsShare self.entry.now.version self.entry.now.chunks.items parsed.number parsed.share) list.items) }
        { self.parse_chunks() };
        let others = || -> Result<Vec<ParsedChunk>, AllocError>
            requires { IsSync R.row }
            ensures { IfOk result (λ list. All (λ parsed. IsShare self.entry.now.version self.entry.now.chunks.items parsed.number parsed.share) list.items) }
        { self.parse_on(fewer) };
        let (list, more) = join(self.rt, first, others);
        let mut list = list?;
        let mut more = more?;
        list.append(&mut more)?;
        Ok(list)
    }

    /// Has that many threads parse chunks.
    fn parse_all(&self, threads: usize, slots: &mut Slots<'l>) -> Result<(), AllocError>
        requires { AreShares self.now.version self.now.chunks.items slots.old.shares.items }
        ensures { OnOk result (AreShares self.now.version self.now.chunks.items slots.new.shares.items) }
    {
        let list = self.parse_on(threads)?;
        self.put_all(list, slots);
        Ok(())
    }

    /// The share of the chunk of that number. The calling thread parses it if no thread has.
    #[tactic(auto, using(crate::proofs::ParsedLines::one_share_less))]
    fn share_of(&self, number: usize, slots: &mut Slots<'l>) -> Result<Share<'l>, AllocError>
        requires number { number < length self.now.chunks.items }
        requires before { AreShares self.now.version self.now.chunks.items slots.old.shares.items }
        ensures share { IfOk result (IsShare self.now.version self.now.chunks.items number) }
        ensures left { AreShares self.now.version self.now.chunks.items slots.new.shares.items }
    {
        match slots.take(number) {
            Some(share) => Ok(share),
            None => self.parse_chunk(number),
        }
    }

    /// The share of each chunk, in order.
    #[tactic(auto, using(crate::proofs::ParsedLines::next_share))]
    fn in_order(&self, mut slots: Slots<'l>) -> Result<Vec<Share<'l>>, AllocError>
        requires { AreShares self.now.version self.now.chunks.items slots.shares.items }
        ensures { IfOk result (λ shares. all_lines shares.items ≡ parsed_lines self.now.version (pieces_in self.now.chunks.items)) }
    {
        let mut shares = Vec::with_capacity(self.alloc, self.chunks.len())?;
        for number in 0..self.chunks.len() {
            let share = self.share_of(number, &mut slots)?;
            shares.push(share)?;
        }
        Ok(shares)
    }
}

/// Parses the lines of a text on at most `threads` threads, of which the calling one is one.
/// The lists of the chunks are not joined to one: that would move each line once more.
#[tactic(auto, using(crate::proofs::ParsedLines::no_share))]
pub(crate) fn parse_text<'l, R: Threads + Sync>(
    rt: &R,
    alloc: Global,
    version: Version,
    text: &'l [u8],
    threads: usize,
) -> Result<Vec<Share<'l>>, AllocError>
    ensures { IfOk result (λ shares. all_lines shares.items ≡ parsed_lines version (pieces_of text.now)) }
{
    let chunks = cut_text(alloc, text, chunk_size(text.len(), threads))?;
    let mut slots = Slots::new(alloc, chunks.len())?;
    let threads = threads.min(chunks.len());
    let parser = Parser {
        rt,
        alloc,
        version,
        chunks,
        next: AtomicU64::new(0),
    };
    if threads > 1 {
        take_ahead(alloc);
        parser.parse_all(threads, &mut slots)?;
    }
    Ok(parser.in_order(slots)?)
}
