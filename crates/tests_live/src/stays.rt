//! A live stay by itself.
use crate::files::STAYS;
use bs_board::{Command, Version};
use bs_heap::blocks_for;
use bs_json::{Line, TextBuffer, read_line};
use bs_live::{LiveStay, make_room};
use bs_samples::{row, same};
use std::alloc::Global;
use std::test::Fail;

const CAP: usize = 524_288;

const SHOWN: &str =
    "{\"board\":{\"food\":[],\"food_chance\":0,\"height\":5,\"min_food\":0,\"mode\":\"solo\",\"over\":false,\"snakes\":[{\"body\":[{\"x\":1,\"y\":1},{\"x\":1,\"y\":1},{\"x\":1,\"y\":1}],\"by\":null,\"cause\":null,\"health\":100,\"id\":\"s\",\"out\":null}],\"turn\":0,\"width\":5},\"charge\":32,\"do\":\"show\",\"game\":\"b\",\"seq\":2}\n";

/// Answers the command of the line.
fn answer(
    alloc: Global,
    stay: &mut LiveStay<CAP>,
    line: &str,
    text: &mut TextBuffer,
) -> Result<(), Fail> {
    match read_line(alloc, line.as_bytes(), Version::Three)? {
        Line::Command { game: _, command } => Ok(stay.answer(alloc, &command, text)?),
        Line::Bad { game: _ } => Ok(stay.answer(alloc, &Command::Bad, text)?),
        _ => Err(Fail::from("a command")),
    }
}

/// Compares what is new in the buffer.
fn told(what: &str, text: &mut TextBuffer, wanted: &str) -> Result<(), Fail> {
    same(what, text.as_slice(), wanted.as_bytes())?;
    text.clear();
    Ok(())
}

// The lines of a stay's commands and its final line. A refused command has a number too.
#[test]
fn a_stay_answers_and_ends(rt: HostRuntime) -> Result<(), Fail> {
    let alloc = rt.alloc();
    let row = row(alloc, "b", 64)?;
    let blocks = blocks_for(CAP, row.quota);
    let mut stay = LiveStay::<CAP>::open(alloc, row, blocks)?;
    let mut text = TextBuffer::new(alloc);
    stay.push_final(alloc, &mut text)?;
    told(
        "no board",
        &mut text,
        "{\"board\":null,\"charge\":0,\"final\":true,\"game\":\"b\"}\n",
    )?;
    answer(alloc, &mut stay, STAYS[3].0, &mut text)?;
    told("new", &mut text, STAYS[3].1)?;
    answer(
        alloc,
        &mut stay,
        "{\"game\":\"b\",\"do\":\"show\"}",
        &mut text,
    )?;
    told("show", &mut text, SHOWN)?;
    answer(
        alloc,
        &mut stay,
        "{\"game\":\"b\",\"do\":\"jump\"}",
        &mut text,
    )?;
    told(
        "jump",
        &mut text,
        "{\"game\":\"b\",\"no\":\"G1\",\"seq\":3,\"why\":\"command\"}\n",
    )?;
    stay.push_final(alloc, &mut text)?;
    told("final", &mut text, STAYS[4].1)
}

// A buffer that has the room is left alone; another one grows, and keeps its text.
#[test]
fn a_buffer_grows(rt: HostRuntime) -> Result<(), Fail> {
    let alloc = rt.alloc();
    let mut text = TextBuffer::with_room(alloc, 4)?;
    text.push(b"abc");
    make_room(alloc, &mut text, 1)?;
    same("left", text.left(), 1)?;
    make_room(alloc, &mut text, 2)?;
    same("doubled", text.left(), 3)?;
    same("the text", text.as_slice(), b"abc".as_slice())
}
