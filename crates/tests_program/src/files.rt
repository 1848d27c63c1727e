//! Files by their names, and want of memory.
use crate::devices::{Device, Shelf, Unreadable};
use bs_host::Fault;
use bs_program::{Input, Output, Request, Serving, Solo, run_request};
use bs_samples::{holds, same};
use std::alloc::Global;
use std::io::ErrorKind;
use std::test::Fail;
use std::thread::Threads;

const PLAN_OF_A: &str = "{\"games\":[{\"game\":\"a\",\"quota\":64}]}";

const PLAN_OF_B: &str = "{\"games\":[{\"game\":\"b\",\"quota\":64}]}";

const END_OF_A: &str = "{\"board\":null,\"charge\":0,\"final\":true,\"game\":\"a\"}\n";

/// Does what is asked for on a system with the one file `games.jsonl`, of which the plan is that of
/// `a`; the standard input has the plan of `b`.
fn served<H: Threads + Sync>(
    rt: &H,
    alloc: Global,
    request: Request<'_>,
    error: ErrorKind,
    device: &mut Device,
) -> Result<(), Fault> {
    let system = Shelf {
        rt,
        name: "games.jsonl",
        bytes: PLAN_OF_A.as_bytes(),
        error,
        is_unreadable: false,
    };
    let mut input = Input::new(PLAN_OF_B.as_bytes());
    run_request(
        &system,
        alloc,
        request,
        &mut input,
        &mut Output::new(device),
    )
}

fn serve(file: &str) -> Request<'_> {
    Request::Serve(Serving {
        file,
        blocks: 6,
        workers: 1,
    })
}

fn device(alloc: Global) -> Device {
    Device {
        taken: Vec::new(alloc),
        room: 1000,
        flushes: 100,
        flushed: None,
    }
}

#[test]
fn a_file_is_read_by_its_name(rt: HostRuntime) -> Result<(), Fail> {
    let alloc = rt.alloc();
    let alone = Request::Alone(Solo {
        file: "games.jsonl",
        game: "a",
        stay: 1,
        blocks: 6,
    });
    for request in [serve("games.jsonl"), alone] {
        let mut device = device(alloc);
        let answer = served(&rt, alloc, request, ErrorKind::NotFound, &mut device);
        holds("it is done", answer.is_ok())?;
        same("of a", device.taken.as_slice(), END_OF_A.as_bytes())?;
    }
    Ok(())
}

/// A file that is missing, and one that cannot be opened for want of memory: nothing is written.
#[test]
fn a_file_that_cannot_be_opened(rt: HostRuntime) -> Result<(), Fail> {
    let alloc = rt.alloc();
    for (error, is_memory) in [
        (ErrorKind::NotFound, false),
        (ErrorKind::PermissionDenied, false),
        (ErrorKind::OutOfMemory, true),
    ] {
        let mut device = device(alloc);
        let answer = served(&rt, alloc, serve("other.jsonl"), error, &mut device);
        let seen = match answer {
            Err(Fault::Device) => Some(false),
            Err(Fault::Memory) => Some(true),
            _ => None,
        };
        same("memory", seen, Some(is_memory))?;
        same("nothing is written", device.taken.len(), 0)?;
    }
    Ok(())
}

/// A standard input whose reads fail is not read; a named file is served beside it.
#[test]
fn a_standard_input_that_fails(rt: HostRuntime) -> Result<(), Fail> {
    let alloc = rt.alloc();
    let system = Shelf {
        rt: &rt,
        name: "games.jsonl",
        bytes: PLAN_OF_A.as_bytes(),
        error: ErrorKind::NotFound,
        is_unreadable: false,
    };
    for (file, is_read) in [("-", false), ("games.jsonl", true)] {
        let mut device = device(alloc);
        let mut input = Input::new(Unreadable);
        let mut output = Output::new(&mut device);
        let answer = run_request(&system, alloc, serve(file), &mut input, &mut output);
        let fails = matches!(answer, Err(Fault::Device));
        same("cannot be read", fails, !is_read)?;
        same("is done", answer.is_ok(), is_read)?;
    }
    Ok(())
}

/// A named file whose reads fail is not read, whatever the standard input has; the standard input
/// is served beside it.
#[test]
fn a_file_whose_reads_fail(rt: HostRuntime) -> Result<(), Fail> {
    let alloc = rt.alloc();
    let system = Shelf {
        rt: &rt,
        name: "games.jsonl",
        bytes: PLAN_OF_A.as_bytes(),
        error: ErrorKind::BrokenPipe,
        is_unreadable: true,
    };
    for (file, is_read) in [("games.jsonl", false), ("-", true)] {
        let mut device = device(alloc);
        let mut input = Input::new(PLAN_OF_B.as_bytes());
        let mut output = Output::new(&mut device);
        let answer = run_request(&system, alloc, serve(file), &mut input, &mut output);
        let fails = matches!(answer, Err(Fault::Device));
        same("cannot be read", fails, !is_read)?;
        same("is done", answer.is_ok(), is_read)?;
        same("is written", device.taken.is_empty(), !is_read)?;
    }
    Ok(())
}
