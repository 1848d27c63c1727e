//! The status and the line of each fault, as docs/USAGE.md gives them.
use crate::devices::Device;
use bs_host::{Cut, Fault, PlanRefusal, ReadFault};
use bs_program::{Output, concluded, reported};
use bs_samples::same;
use std::alloc::Global;
use std::test::Fail;

/// An output with room for that many bytes.
fn device(alloc: Global, room: usize) -> Device {
    Device {
        taken: Vec::new(alloc),
        room,
        flushes: 0,
        flushed: None,
    }
}

/// Compares what is reported of a fault, and what a request that fails with it ends with.
fn check(alloc: Global, fault: Fault, status: u8, line: &str) -> Result<(), Fail> {
    let mut errors = device(alloc, 100);
    let reported = reported(fault, &mut Output::new(&mut errors));
    same(line, reported, status)?;
    same(line, errors.taken.as_slice(), line.as_bytes())?;
    let mut errors = device(alloc, 100);
    let answer = concluded(Err(fault), &mut Output::new(&mut errors));
    same(line, answer, status)?;
    same(line, errors.taken.as_slice(), line.as_bytes())
}

#[test]
fn each_fault(rt: HostRuntime) -> Result<(), Fail> {
    let alloc = rt.alloc();
    let none = "arena: a word of the command line is no UTF-8\n";
    check(alloc, Fault::NoText, 2, none)?;
    check(alloc, Fault::Device, 3, "arena: cannot read the file\n")?;
    check(alloc, Fault::TooLong, 3, "arena: file too long\n")?;
    check(alloc, Fault::NoSuchGame, 4, "arena: no such game\n")?;
    check(alloc, Fault::Memory, 5, "arena: out of memory\n")?;
    check(alloc, Fault::Flush, 6, "arena: flush failed\n")?;
    check(alloc, Fault::Broken, 7, "arena: broken\n")
}

#[test]
fn each_refused_plan(rt: HostRuntime) -> Result<(), Fail> {
    let alloc = rt.alloc();
    let plan = |refusal| Fault::Plan(refusal);
    check(alloc, plan(PlanRefusal::Malformed), 4, "arena: plan P1\n")?;
    check(alloc, plan(PlanRefusal::BadRow), 4, "arena: plan P2\n")?;
    check(alloc, plan(PlanRefusal::TooMany), 4, "arena: plan P3\n")?;
    check(alloc, plan(PlanRefusal::Short), 4, "arena: plan P4\n")
}

#[test]
fn each_number_of_written_bytes(rt: HostRuntime) -> Result<(), Fail> {
    let alloc = rt.alloc();
    let write = |written| Fault::Write(written);
    check(alloc, write(0), 6, "arena: write failed after 0 bytes\n")?;
    check(alloc, write(10), 6, "arena: write failed after 10 bytes\n")?;
    let most = "arena: write failed after 18446744073709551615 bytes\n";
    check(alloc, write(usize::MAX), 6, most)
}

/// The faults of calls that have a type of their own.
#[test]
fn each_fault_of_reading_and_of_cutting(rt: HostRuntime) -> Result<(), Fail> {
    let alloc = rt.alloc();
    let unread = Fault::from(ReadFault::Device);
    check(alloc, unread, 3, "arena: cannot read the file\n")?;
    let long = "arena: file too long\n";
    check(alloc, Fault::from(ReadFault::TooLong), 3, long)?;
    check(alloc, Fault::from(Cut::TooLong), 3, long)?;
    let memory = "arena: out of memory\n";
    check(alloc, Fault::from(ReadFault::Memory), 5, memory)?;
    check(alloc, Fault::from(Cut::Memory), 5, memory)?;
    let game = Fault::from(Cut::NoSuchGame);
    check(alloc, game, 4, "arena: no such game\n")?;
    let plan = Fault::from(Cut::Plan(PlanRefusal::TooMany));
    check(alloc, plan, 4, "arena: plan P3\n")
}

/// The errors take a part of the line, or nothing: the status is the same, and no byte is skipped.
#[test]
fn errors_that_take_no_line(rt: HostRuntime) -> Result<(), Fail> {
    let line = "arena: write failed after 10 bytes\n";
    for room in 0..line.len() {
        let mut errors = device(rt.alloc(), room);
        let status = reported(Fault::Write(10), &mut Output::new(&mut errors));
        same("the status", status, 6)?;
        same("a part", errors.taken.as_slice(), &line.as_bytes()[..room])?;
    }
    Ok(())
}

/// A success has status 0, and no line.
#[test]
fn a_success(rt: HostRuntime) -> Result<(), Fail> {
    let mut errors = device(rt.alloc(), 100);
    same(
        "the status",
        concluded(Ok(()), &mut Output::new(&mut errors)),
        0,
    )?;
    same("no line", errors.taken.len(), 0)
}
