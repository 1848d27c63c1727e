//! Completed jobs, and running one.
ghost use Rattle.std.specs.Prelude.{◌≡◌, ◌≤◌, IfOk, IfErr, OnOk, map, option_map};
ghost use Rattle.bs_fiber.specs.declared.input.Input.{Input as AnyInput};
ghost use Rattle.bs_fiber.specs.Fit.{IsFitInput};
ghost use Rattle.bs_fiber.specs.inner.Output.{HasOutput};
ghost use Rattle.bs_fiber.specs.Tickets.{HoldsWork, IsFresh, bytes_of, fresh_bytes, frames_in, names_of, ticket_in, without_output, worked_bytes};
ghost use Rattle.bs_game.specs.declared.view.View.{View as AnyView};
ghost use Rattle.bs_fiber.specs.Seeing.{IsSeen};
ghost use Rattle.bs_fiber.specs.Work.{IsWorked, added_seen};

use crate::beginning::begin;
use crate::contents::{Contents, LEAST_CAPACITY};
use crate::input::Input;
use crate::job::JobKind;
use crate::joining::join_parts;
use crate::moving::move_part;
use crate::out::Out;
use crate::stopped::Stopped;
use crate::ticket::Ticket;
use bs_pool::Owned;
use std::alloc::{AllocError, Global};
use std::marker::Model;

/// A completed job: its ticket, which holds its output. Contracts see the ticket. Only `work` makes
/// one.
#[derive(Debug, Drop)]
pub struct Done<const CAP: usize> {
    ticket: Ticket<CAP>,
}

impl<const CAP: usize> Model for Done<CAP> {
    ghost use Rattle.bs_fiber.specs.Tickets.{TicketView};

    ghost Value = { TicketView };

    ghost view = { λ d. d.ticket };

    ghost use Rattle.bs_fiber.specs.inner.Output.{HasOutput};
    ghost use Rattle.bs_fiber.specs.Tickets.{HoldsWork};

    ghost invariant = { λ d. HasOutput d.ticket × HoldsWork d.ticket };
}

impl<const CAP: usize> Done<CAP> {
    /// The ticket, with the frame blocks as the job left them.
    pub fn ticket(&self) -> &Ticket<CAP>
        ensures { result.now ≡ self.now }
    {
        &self.ticket
    }

    /// The output of the job.
    pub fn out(&self) -> &Out
        ensures out { IsWorked self.now.input result.now }
        ensures holds { HoldsWork self.now }
    {
        match self.ticket.out() {
            Some(out) => out,
            None => unreachable!(),
        }
    }

    /// The record that a Join adds, read from part 0's block.
    pub fn added(&self) -> Option<&[u8]>
        ensures { (view : AnyView) → IsSeen view self.now.input → option_map (λ bytes. bytes.now) result ≡ added_seen self.now.input.job.kind view self.now.input.command }
    {
        added_in(&self.ticket, self.out())
    }

    /// Splits it into the ticket and the output.
    pub fn into_parts(self) -> (Ticket<CAP>, Out)
        ensures ticket { result.0 ≡ without_output self.entry }
        ensures out { IsWorked self.entry.input result.1 }
        ensures holds { HoldsWork self.entry }
    {
        let mut contents = self.ticket.into_contents();
        match contents.out.take() {
            Some(out) => (Ticket::rebuilt(contents), out),
            None => unreachable!(),
        }
    }
}

fn added_in<'a, const CAP: usize>(ticket: &'a Ticket<CAP>, out: &Out) -> Option<&'a [u8]>
    requires worked { IsWorked ticket.now.input out.now }
    requires holds { HoldsWork ticket.now }
    ensures { (view : AnyView) → IsSeen view ticket.now.input → option_map (λ bytes. bytes.now) result ≡ added_seen ticket.now.input.job.kind view ticket.now.input.command }
{
    let frames = ticket.frames();
    match out {
        Out::Goes => None,
        Out::Answered(_) => None,
        Out::Moved(_) => None,
        Out::Joined(_, piece) => match piece {
            None => None,
            Some(piece) => Some(frames[0].block().get(piece.at, piece.len)),
        },
    }
}

fn out_of<const CAP: usize>(
    alloc: Global,
    input: &Input,
    frames: &mut Vec<Owned<CAP>>,
) -> Result<Out, AllocError>
    requires wide { LEAST_CAPACITY ≤ CAP }
    requires fit { IsFitInput input.now }
    requires fresh { (view : AnyView) → IsSeen view input.now → bytes_of (frames_in frames.old.items) ≡ fresh_bytes input.now.job.kind view input.now.command }
    ensures worked { IfOk result (λ out. IsWorked input.now out) }
    ensures holds { OnOk result ((view : AnyView) → IsSeen view input.now → bytes_of (frames_in frames.new.items) ≡ worked_bytes input.now.job.kind input.now.job.part view input.now.command) }
    ensures names { names_of (frames_in frames.new.items) ≡ names_of (frames_in frames.old.items) }
{
    match input.job.kind {
        JobKind::Begin => begin(alloc, input),
        JobKind::Part => Ok(Out::Moved(move_part(input, frames))),
        JobKind::Join => join_parts(alloc, input, frames),
    }
}

/// Runs the job, and keeps its output in the contents.
fn work_in<const CAP: usize>(alloc: Global, contents: &mut Contents<CAP>) -> Result<(), AllocError>
    requires wide { LEAST_CAPACITY ≤ CAP }
    requires fit { IsFitInput contents.old.input }
    requires fresh { IsFresh (ticket_in contents.old) }
    ensures input { contents.new.input ≡ contents.old.input }
    ensures worked { OnOk result (HasOutput (ticket_in contents.new)) }
    ensures holds { OnOk result (HoldsWork (ticket_in contents.new)) }
    ensures names { names_of (frames_in contents.new.frames.items) ≡ names_of (frames_in contents.old.frames.items) }
{
    contents.out = Some(out_of(alloc, &contents.input, &mut contents.frames)?);
    Ok(())
}

/// Runs the job. If memory runs out, `Stopped` returns its frame blocks.
pub fn work<const CAP: usize>(alloc: Global, ticket: Ticket<CAP>) -> Result<Done<CAP>, Stopped<CAP>>
    requires { IsFresh ticket }
    ensures input { IfOk result (λ done. done.input ≡ ticket.entry.input) }
    ensures frames { IfOk result (λ done. names_of done.frames ≡ names_of ticket.entry.frames) }
    ensures stopped { IfErr result (λ stopped. names_of (frames_in stopped.blocks.items) ≡ names_of ticket.entry.frames) }
{
    let mut contents = ticket.into_contents();
    match work_in(alloc, &mut contents) {
        Ok(()) => Ok(Done {
            ticket: Ticket::rebuilt(contents),
        }),
        Err(_) => Err(Stopped {
            blocks: Box::into_inner(contents).frames,
        }),
    }
}
