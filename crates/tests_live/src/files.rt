//! A file whose games are admitted and leave, with the answer to each line, split at every place.
use crate::devices::{Halves, Input};
use bs_host::serve_live;
use bs_samples::same;
use std::alloc::{AllocError, Global};
use std::io::Read;
use std::test::Fail;

/// Two stays of one name, an admission that fits only once another game has left, and stray lines.
/// For 12 blocks, of which each game reserves six. Each line is beside its answer.
pub(crate) const STAYS: [(&str, &str); 15] = [
    (
        "{\"games\":[{\"game\":\"a\",\"quota\":64}],\"version\":3}\n",
        "",
    ),
    ("{\"game\":\"b\",\"do\":\"admit\",\"quota\":64}\n", ""),
    (
        "{\"game\":\"c\",\"do\":\"admit\",\"quota\":64}\n",
        "{\"line\":3,\"no\":\"A4\",\"why\":\"pool\"}\n",
    ),
    (
        "{\"game\":\"b\",\"do\":\"new\",\"mode\":\"solo\",\"width\":5,\"height\":5,\"snakes\":[{\"id\":\"s\",\"x\":1,\"y\":1}],\"food\":[],\"min_food\":0,\"food_chance\":0}\n",
        "{\"board\":{\"food\":[],\"food_chance\":0,\"height\":5,\"min_food\":0,\"mode\":\"solo\",\"over\":false,\"snakes\":[{\"body\":[{\"x\":1,\"y\":1},{\"x\":1,\"y\":1},{\"x\":1,\"y\":1}],\"by\":null,\"cause\":null,\"health\":100,\"id\":\"s\",\"out\":null}],\"turn\":0,\"width\":5},\"charge\":32,\"do\":\"new\",\"game\":\"b\",\"seq\":1}\n",
    ),
    (
        "{\"game\":\"b\",\"do\":\"leave\"}\n",
        "{\"board\":{\"food\":[],\"food_chance\":0,\"height\":5,\"min_food\":0,\"mode\":\"solo\",\"over\":false,\"snakes\":[{\"body\":[{\"x\":1,\"y\":1},{\"x\":1,\"y\":1},{\"x\":1,\"y\":1}],\"by\":null,\"cause\":null,\"health\":100,\"id\":\"s\",\"out\":null}],\"turn\":0,\"width\":5},\"charge\":32,\"final\":true,\"game\":\"b\"}\n",
    ),
    (
        "{\"game\":\"b\",\"do\":\"show\"}\n",
        "{\"line\":6,\"no\":\"L2\",\"why\":\"game\"}\n",
    ),
    ("{\"game\":\"c\",\"do\":\"admit\",\"quota\":64}\n", ""),
    (
        "{\"game\":\"c\",\"do\":\"show\"}\n",
        "{\"game\":\"c\",\"no\":\"G2\",\"seq\":1,\"why\":\"none\"}\n",
    ),
    (
        "{\"game\":\"c\",\"do\":\"admit\",\"quota\":64}\n",
        "{\"line\":9,\"no\":\"A2\",\"why\":\"open\"}\n",
    ),
    (
        "{\"game\":\"d\",\"do\":\"admit\",\"quota\":15}\n",
        "{\"line\":10,\"no\":\"A1\",\"why\":\"admit\"}\n",
    ),
    (" \n", ""),
    (
        "{\"game\":\"c\",\"do\":\"show\"}\n",
        "{\"game\":\"c\",\"no\":\"G2\",\"seq\":2,\"why\":\"none\"}\n",
    ),
    (
        "{\"game\":\"c\",\"do\":\"leave\"}\n",
        "{\"board\":null,\"charge\":0,\"final\":true,\"game\":\"c\"}\n",
    ),
    ("{\"game\":\"b\",\"do\":\"admit\",\"quota\":64}\n", ""),
    (
        "{\"game\":\"b\",\"do\":\"show\"}\n",
        "{\"game\":\"b\",\"no\":\"G2\",\"seq\":1,\"why\":\"none\"}\n",
    ),
];

/// The closing lines of that file.
pub(crate) const CLOSING: &str =
    "{\"board\":null,\"charge\":0,\"final\":true,\"game\":\"a\"}\n{\"board\":null,\"charge\":0,\"final\":true,\"game\":\"b\"}\n";

pub(crate) const BLOCKS: usize = 12;

/// Makes the file.
pub(crate) fn stays_file(alloc: Global) -> Result<String, AllocError> {
    let mut file = String::new(alloc);
    for (line, _) in &STAYS {
        file.push_str(line)?;
    }
    Ok(file)
}

/// The answers to the lines that are complete in the first `count` bytes of the file.
pub(crate) fn answers_to(alloc: Global, count: usize) -> Result<String, AllocError> {
    let mut answers = String::new(alloc);
    let mut left = count;
    for (line, answer) in &STAYS {
        if left < line.len() {
            break;
        }
        left = left.saturating_sub(line.len());
        answers.push_str(answer)?;
    }
    Ok(answers)
}

/// The whole output for the file.
pub(crate) fn whole_text(alloc: Global) -> Result<String, AllocError> {
    let mut text = answers_to(alloc, usize::MAX)?;
    text.push_str(CLOSING)?;
    Ok(text)
}

/// Returns the output for an input, then the fault, if there is one.
pub(crate) fn told<R: Read>(alloc: Global, input: &mut R, blocks: usize) -> Result<String, Fail> {
    let mut output = Vec::new(alloc);
    let end = match serve_live(alloc, input, blocks, &mut output) {
        Ok(()) => String::new(alloc),
        Err(fault) => format!(in alloc; "{fault}")?,
    };
    let mut told = String::from_utf8(output).ok().ok_or("a text")?;
    told.push_str(&end)?;
    Ok(told)
}

#[test]
fn each_line_is_answered_in_its_place(rt: HostRuntime) -> Result<(), Fail> {
    let alloc = rt.alloc();
    let file = stays_file(alloc)?;
    let wanted = whole_text(alloc)?;
    for most in [1, 2, 7, 64, 65_536] {
        let mut input = Input::new(file.as_bytes(), most);
        let text = told(alloc, &mut input, BLOCKS)?;
        same("the text", text.as_str(), wanted.as_str())?;
    }
    Ok(())
}

#[test]
fn reads_may_cut_anywhere(rt: HostRuntime) -> Result<(), Fail> {
    let alloc = rt.alloc();
    let file = stays_file(alloc)?;
    let wanted = whole_text(alloc)?;
    for place in 0..file.len() {
        let (first, second) = file.as_bytes().split_at(place);
        let mut input = Halves { first, second };
        let text = told(alloc, &mut input, BLOCKS)?;
        same("the text", text.as_str(), wanted.as_str())?;
    }
    Ok(())
}

// The text after the last line feed is a line too.
#[test]
fn the_last_line_needs_no_feed(rt: HostRuntime) -> Result<(), Fail> {
    let alloc = rt.alloc();
    let file = stays_file(alloc)?;
    let wanted = whole_text(alloc)?;
    let (_feed, lines) = file.as_bytes().split_last().ok_or("a last line feed")?;
    let mut input = Input::new(lines, 64);
    let text = told(alloc, &mut input, BLOCKS)?;
    same("the text", text.as_str(), wanted.as_str())?;
    Ok(())
}

// The games of a plan of version 1 close at the end.
#[test]
fn a_plan_alone_closes_its_games(rt: HostRuntime) -> Result<(), Fail> {
    let alloc = rt.alloc();
    let wanted =
        "{\"board\":null,\"charge\":0,\"final\":true,\"game\":\"a\"}\n{\"board\":null,\"charge\":0,\"final\":true,\"game\":\"b\"}\n";
    for plan in [
        "{\"games\":[{\"game\":\"a\",\"quota\":64},{\"game\":\"b\",\"quota\":64}]}",
        "{\"games\":[{\"game\":\"a\",\"quota\":64},{\"game\":\"b\",\"quota\":64}]}\n",
        "{\"games\":[{\"game\":\"a\",\"quota\":64},{\"game\":\"b\",\"quota\":64}]}\n\n",
    ] {
        let mut input = Input::new(plan.as_bytes(), 10);
        let text = told(alloc, &mut input, 12)?;
        same("the text", text.as_str(), wanted)?;
    }
    Ok(())
}
