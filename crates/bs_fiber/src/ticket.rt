//! Jobs to be run.
ghost use Rattle.std.specs.Prelude.{◌≡◌, ◌↔◌, IsTrue, option_map};
ghost use Rattle.bs_fiber.specs.Expected.{HasNumbersOf, HasContentsOf, IsOf};

use crate::contents::{Contents, LEAST_CAPACITY};
use crate::expected::Expected;
use crate::input::Input;
use crate::job::JobName;
use crate::moved::Moved;
use crate::out::Out;
use bs_board::{Command, Record};
use bs_pool::Owned;
use std::marker::Model;

fn bytes_in(kept: Option<&Record>) -> Option<&[u8]>
    ensures { option_map (λ bytes. bytes.now) result ≡ option_map (λ kept. kept.now) kept.entry }
{
    match kept {
        None => None,
        Some(kept) => Some(kept.as_slice()),
    }
}

fn is_same_record(kept: &Option<Record>, expected: Option<&[u8]>) -> bool
    ensures { IsTrue result ↔ kept.now ≡ option_map (λ bytes. bytes.now) expected.entry }
{
    match (kept, expected) {
        (None, None) => true,
        (Some(record), Some(bytes)) => record.as_slice() == bytes,
        (None, Some(_)) => false,
        (Some(_), None) => false,
    }
}

fn has_numbers_of(input: &Input, expected: &Expected) -> bool
    ensures { IsTrue result ↔ HasNumbersOf input.now expected.now }
{
    input.job == expected.job
        && input.worker == expected.worker
        && input.seq == expected.seq
        && input.quota == expected.quota
        && input.charge == expected.charge
        && input.kept == expected.kept
}

fn has_contents_of(input: &Input, expected: &Expected) -> bool
    ensures { IsTrue result ↔ HasContentsOf input.now expected.now }
{
    is_same_record(&input.last, bytes_in(expected.last))
        && is_same_record(&input.asked, expected.asked)
        && input.command.get().is_same(expected.command.get())
}

/// A job to be run, with all that it reads and its frame blocks. Boxed: a ticket is moved often,
/// and its contents exceed 100 bytes. Clauses see its input and its blocks.
#[derive(Debug, Drop)]
pub struct Ticket<const CAP: usize> {
    contents: Box<Contents<CAP>>,
}

impl<const CAP: usize> Model for Ticket<CAP> {
    ghost use Rattle.bs_fiber.specs.Tickets.{TicketView, IsTicket, ticket_in};

    ghost Value = { TicketView };

    ghost view = { λ t. ticket_in t.contents.value };

    ghost invariant = { λ t. IsTicket CAP t.contents.value };
}

impl<const CAP: usize> Ticket<CAP> {
    ghost use Rattle.std.specs.Prelude.{◌≤◌};
    ghost use Rattle.bs_fiber.specs.Fit.{IsFitInput};
    ghost use Rattle.bs_fiber.specs.Tickets.{IsFresh, IsTicket, ticket_in, frames_in};

    /// Makes a ticket. Requires records of legal boards, an `asked` record only for a `turn`, a
    /// charge within the quota, and for a Part or a Join an accepted move. A Part has one empty
    /// block; a Join has the block that each part wrote, and the places of the snakes there.
    pub fn new(contents: Box<Contents<CAP>>) -> Ticket<CAP>
        requires wide { LEAST_CAPACITY ≤ CAP }
        requires fit { IsFitInput contents.value.input }
        requires fresh { IsFresh (ticket_in contents.value) }
        ensures { result ≡ ticket_in contents.entry.value }
    {
        Ticket { contents }
    }

    /// Rebuilds the ticket of a job that was run, whose blocks may be written.
    pub(crate) fn rebuilt(contents: Box<Contents<CAP>>) -> Ticket<CAP>
        requires { IsTicket CAP contents.value }
        ensures { result ≡ ticket_in contents.entry.value }
    {
        Self { contents }
    }

    /// Converts the ticket into its contents, without copying them.
    pub fn into_contents(self) -> Box<Contents<CAP>>
        ensures value { ticket_in result.value ≡ self.entry }
        ensures fit { IsTicket CAP result.value }
    {
        let Ticket { contents } = self;
        contents
    }

    /// All that the job reads except its blocks.
    pub(crate) fn input(&self) -> &Input
        ensures value { result.now ≡ self.now.input }
        ensures fit { IsFitInput self.now.input }
    {
        &self.contents.input
    }

    /// Its frame blocks: a part's own, or for a Join those of all parts.
    pub fn frames(&self) -> &[Owned<CAP>]
        ensures value { frames_in result.now ≡ self.now.frames }
        ensures fit { IsFitInput self.now.input }
    {
        self.contents.frames.as_slice()
    }

    /// The output, if the job was run.
    pub(crate) fn out(&self) -> Option<&Out>
        ensures { option_map (λ out. out.now) result ≡ self.now.out }
    {
        self.contents.out.as_ref()
    }

    /// The name of the job.
    pub fn job(&self) -> JobName
        ensures { result ≡ self.now.input.job }
    {
        self.contents.input.job
    }

    /// The worker that took it.
    pub fn worker(&self) -> u32
        ensures { result ≡ self.now.input.worker }
    {
        self.contents.input.worker
    }

    /// The number of the command in its game, from 1.
    pub fn seq(&self) -> u64
        ensures { result ≡ self.now.input.seq }
    {
        self.contents.input.seq
    }

    /// The largest charge of the game's records, in bytes.
    pub fn quota(&self) -> u32
        ensures { result ≡ self.now.input.quota }
    {
        self.contents.input.quota
    }

    /// The charge of the kept records, in bytes.
    pub fn charge(&self) -> u32
        ensures { result ≡ self.now.input.charge }
    {
        self.contents.input.charge
    }

    /// The number of kept turns.
    pub fn kept(&self) -> usize
        ensures { result ≡ self.now.input.kept }
    {
        self.contents.input.kept
    }

    /// The record of the newest board.
    pub fn last(&self) -> Option<&Record>
        ensures { option_map (λ kept. kept.now) result ≡ self.now.input.last }
    {
        self.contents.input.last.as_ref()
    }

    /// The record of the turn that the command names, if it is kept.
    pub fn asked(&self) -> Option<&Record>
        ensures { option_map (λ kept. kept.now) result ≡ self.now.input.asked }
    {
        self.contents.input.asked.as_ref()
    }

    /// The command in progress.
    pub fn command(&self) -> &Command
        ensures { result.now ≡ self.now.input.command }
    {
        self.contents.input.command.get()
    }

    /// The places of each part's moved snakes, from part 0.
    pub fn parts(&self) -> &[Moved]
        ensures { result.now ≡ self.now.input.parts }
    {
        self.contents.input.parts.as_slice()
    }

    /// Whether all fields except the parts are the expected ones.
    pub fn is_of(&self, expected: &Expected) -> bool
        ensures value { IsTrue result ↔ IsOf self.now.input expected.now }
        ensures fit { IsFitInput self.now.input }
    {
        has_numbers_of(self.input(), expected) && has_contents_of(self.input(), expected)
    }
}
