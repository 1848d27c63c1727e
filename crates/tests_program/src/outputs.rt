//! Outputs that count their flushes, and outputs that fail.
use crate::devices::Device;
use bs_host::Fault;
use bs_program::{Input, Output, Request, Serving, Solo, Sources, run_request};
use bs_samples::{holds, same};
use std::alloc::Global;
use std::io::Write;
use std::test::Fail;
use std::thread::Threads;

const TWO_GAMES: &str = "{\"games\":[{\"game\":\"a\",\"quota\":64},{\"game\":\"b\",\"quota\":64}]}";

const TWO_GAMES_END: &str = "{\"board\":null,\"charge\":0,\"final\":true,\"game\":\"a\"}\n\
    {\"board\":null,\"charge\":0,\"final\":true,\"game\":\"b\"}\n";

const SERVE: Request<'static> = Request::Serve(Serving {
    file: "-",
    blocks: 12,
    workers: 2,
});

const ALONE: Request<'static> = Request::Alone(Solo {
    file: "-",
    game: "b",
    stay: 1,
    blocks: 12,
});

const LIVE: Request<'static> = Request::Live(12);

fn device(alloc: Global, room: usize, flushes: usize) -> Device {
    Device {
        taken: Vec::new(alloc),
        room,
        flushes,
        flushed: None,
    }
}

/// Does what is asked for with the plan of two games, and compares the bytes that were written and
/// how many of them were flushed.
fn check<H: Sources + Threads + Sync>(
    rt: &H,
    alloc: Global,
    request: Request<'_>,
    text: &str,
) -> Result<(), Fail> {
    let mut device = device(alloc, 1000, 100);
    let mut input = Input::new(TWO_GAMES.as_bytes());
    let mut output = Output::new(&mut device);
    holds(
        "it is done",
        run_request(rt, alloc, request, &mut input, &mut output).is_ok(),
    )?;
    same("the text", device.taken.as_slice(), text.as_bytes())?;
    same("flushed", device.flushed, Some(text.len()))
}

#[test]
fn all_is_flushed_at_the_end(rt: HostRuntime) -> Result<(), Fail> {
    let alloc = rt.alloc();
    let (_, end_of_b) = TWO_GAMES_END.split_at(50);
    check(&rt, alloc, SERVE, TWO_GAMES_END)?;
    check(&rt, alloc, ALONE, end_of_b)?;
    check(&rt, alloc, LIVE, TWO_GAMES_END)
}

/// The flush fails, but every byte was taken.
#[test]
fn an_output_that_cannot_be_flushed(rt: HostRuntime) -> Result<(), Fail> {
    let alloc = rt.alloc();
    let mut device = device(alloc, 1000, 0);
    let mut input = Input::new(TWO_GAMES.as_bytes());
    let mut output = Output::new(&mut device);
    let answer = run_request(&rt, alloc, SERVE, &mut input, &mut output);
    holds("a flush that failed", matches!(answer, Err(Fault::Flush)))?;
    same(
        "the text",
        device.taken.as_slice(),
        TWO_GAMES_END.as_bytes(),
    )
}

/// The writer takes each number of bytes that is less than all.
#[test]
fn an_output_that_fails(rt: HostRuntime) -> Result<(), Fail> {
    let alloc = rt.alloc();
    for room in 0..TWO_GAMES_END.len() {
        let mut device = device(alloc, room, 100);
        let mut input = Input::new(TWO_GAMES.as_bytes());
        let mut output = Output::new(&mut device);
        let answer = run_request(&rt, alloc, SERVE, &mut input, &mut output);
        let Err(Fault::Write(written)) = answer else {
            return Err(Fail::from("a write that failed"));
        };
        same("written", written, room)?;
        same(
            "the bytes",
            device.taken.as_slice(),
            &TWO_GAMES_END.as_bytes()[..room],
        )?;
    }
    Ok(())
}

/// An output passes each call to its writer once.
#[test]
fn each_call_reaches_the_writer(rt: HostRuntime) -> Result<(), Fail> {
    let mut device = device(rt.alloc(), 8, 1);
    let mut output = Output::new(&mut device);
    holds("no byte yet", !output.has_bytes())?;
    same("a long write", output.write(b"ten bytes.").ok(), Some(7))?;
    holds("a byte", output.has_bytes())?;
    holds("a flush", output.flush().is_ok())?;
    same("a short write", output.write(b"es.").ok(), Some(1))?;
    same("no room", output.write(b"s.").ok(), Some(0))?;
    holds("no second flush", output.flush().is_err())?;
    same("the bytes", device.taken.as_slice(), b"ten byte".as_slice())?;
    same("flushed", device.flushed, Some(7))
}
