//! The exit status, and the line on the errors.
ghost use Rattle.std.specs.Prelude.{◌++◌, codes, decimal};
ghost use Rattle.bs_program.specs.Outcome.{Concludes, Puts, Reports};
ghost use Rattle.bs_host.specs.Statuses.{plan_text_of, text_of};
ghost use Rattle.bs_program.specs.Lines.{line_of};

use crate::stream::Output;
use bs_host::{Fault, PlanRefusal};
use itoa::Buffer;
use std::io::Write;

/// Writes the text. Stops at the first write that fails.
#[tactic(auto, using(crate::proofs::Written::appends_more, crate::proofs::Written::appends_nothing))]
fn put<E: Write>(text: &[u8], errors: &mut Output<E>)
    ensures { Puts E.contents text.now errors.old errors.new }
{
    let mut written = 0;
    'writes: while written < text.len() {
        match errors.write(&text[written..]) {
            Ok(0) => return,
            Ok(count) => written += count,
            Err(_) => return,
        }
    }
}

fn put_plan<E: Write>(refusal: PlanRefusal, errors: &mut Output<E>)
    ensures { Puts E.contents (plan_text_of refusal) errors.old errors.new }
{
    match refusal {
        PlanRefusal::Malformed => put(b"plan P1", errors),
        PlanRefusal::BadRow => put(b"plan P2", errors),
        PlanRefusal::TooMany => put(b"plan P3", errors),
        PlanRefusal::Short => put(b"plan P4", errors),
    }
}

fn put_written<E: Write>(written: usize, errors: &mut Output<E>)
    ensures { Puts E.contents (codes "write failed after " ++ decimal written ++ codes " bytes") errors.old errors.new }
{
    put(b"write failed after ", errors);
    put(Buffer::new().format(written).as_bytes(), errors);
    put(b" bytes", errors);
}

fn put_text<E: Write>(fault: Fault, errors: &mut Output<E>)
    ensures { Puts E.contents (text_of fault) errors.old errors.new }
{
    match fault {
        Fault::NoText => put(b"a word of the command line is no UTF-8", errors),
        Fault::Device => put(b"cannot read the file", errors),
        Fault::TooLong => put(b"file too long", errors),
        Fault::Plan(refusal) => put_plan(refusal, errors),
        Fault::NoSuchGame => put(b"no such game", errors),
        Fault::Memory => put(b"out of memory", errors),
        Fault::Write(written) => put_written(written, errors),
        Fault::Flush => put(b"flush failed", errors),
        Fault::Broken => put(b"broken", errors),
    }
}

/// Writes the line of a fault.
#[tactic(auto, using(crate::proofs::Written::puts_three))]
fn put_line<E: Write>(fault: Fault, errors: &mut Output<E>)
    ensures { Puts E.contents (line_of fault) errors.old errors.new }
{
    put(b"arena: ", errors);
    put_text(fault, errors);
    put(b"\n", errors);
}

/// Writes the line of a fault, and returns its status.
pub fn reported<E: Write>(fault: Fault, errors: &mut Output<E>) -> u8
    ensures { Reports E.contents fault result errors.old errors.new }
{
    put_line(fault, errors);
    fault.status()
}

/// Returns the status of an answer to a request. Writes the line of a fault.
pub fn concluded<E: Write>(answer: Result<(), Fault>, errors: &mut Output<E>) -> u8
    ensures { Concludes E.contents answer result errors.old errors.new }
{
    match answer {
        Ok(()) => 0,
        Err(fault) => reported(fault, errors),
    }
}
