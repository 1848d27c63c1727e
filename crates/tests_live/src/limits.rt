//! Lines at their longest, and plans that are refused.
use crate::devices::Input;
use crate::files::told;
use bs_samples::same;
use std::alloc::{AllocError, Global};
use std::test::Fail;

const PLAN: &str = "{\"games\":[{\"game\":\"a\",\"quota\":64}]}\n";

const SHOW: &str = "{\"game\":\"a\",\"do\":\"show\"}";

const FIRST: &str = "{\"game\":\"a\",\"no\":\"G2\",\"seq\":1,\"why\":\"none\"}\n";

const SECOND: &str = "{\"game\":\"a\",\"no\":\"G2\",\"seq\":2,\"why\":\"none\"}\n";

const LONG: &str = "{\"line\":2,\"no\":\"L3\",\"why\":\"long\"}\n";

const LAST: &str = "{\"board\":null,\"charge\":0,\"final\":true,\"game\":\"a\"}\n";

/// Pads the text with spaces up to that length.
fn padded(alloc: Global, text: &str, length: usize) -> Result<String, AllocError> {
    let mut line = String::from_str(alloc, text)?;
    for _ in text.len()..length {
        line.push(' ')?;
    }
    Ok(line)
}

// A line of 65,536 bytes is read. A longer one is refused, whatever its length, and the next line
// is read as usual.
#[test]
fn lines_at_their_longest(rt: HostRuntime) -> Result<(), Fail> {
    let alloc = rt.alloc();
    for (length, answers) in [
        (65_535, [FIRST, SECOND]),
        (65_536, [FIRST, SECOND]),
        (65_537, [LONG, FIRST]),
        (65_538, [LONG, FIRST]),
        (300_000, [LONG, FIRST]),
    ] {
        let long = padded(alloc, SHOW, length)?;
        let file = format!(in alloc; "{PLAN}{long}\n{SHOW}\n")?;
        let wanted = format!(in alloc; "{}{}{LAST}", answers[0], answers[1])?;
        for most in [1_000, 40_000, 65_536] {
            let mut input = Input::new(file.as_bytes(), most);
            let text = told(alloc, &mut input, 6)?;
            same("the text", text.as_str(), wanted.as_str())?;
        }
    }
    Ok(())
}

// A first line that is too long is refused before its end arrives: the reader would fail next.
#[test]
fn a_long_first_line_is_refused_at_once(rt: HostRuntime) -> Result<(), Fail> {
    let alloc = rt.alloc();
    let long = padded(alloc, "{\"games\":[]}", 65_537)?;
    for (behind, wanted) in [(65_536, "cannot read the file"), (65_537, "plan P1")] {
        let mut input = Input::new(long.as_bytes(), 4_096);
        input.fails_behind = Some(behind);
        let text = told(alloc, &mut input, 6)?;
        same("the fault", text.as_str(), wanted)?;
    }
    Ok(())
}

// Nothing is written for a refused plan, whatever follows it.
#[test]
fn plans_that_are_refused(rt: HostRuntime) -> Result<(), Fail> {
    let alloc = rt.alloc();
    for (plan, blocks, wanted) in [
        ("", 6, "plan P1"),
        ("\n", 6, "plan P1"),
        ("{}\n{\"game\":\"a\",\"do\":\"show\"}\n", 6, "plan P1"),
        (
            "{\"games\":[{\"game\":\"\",\"quota\":64}]}\nx\n",
            6,
            "plan P2",
        ),
        (
            "{\"games\":[{\"game\":\"a\",\"quota\":64}]}\nx\n",
            5,
            "plan P4",
        ),
        ("{\"games\":[{\"game\":\"a\",\"quota\":64}]}", 5, "plan P4"),
    ] {
        let mut input = Input::new(plan.as_bytes(), 65_536);
        let text = told(alloc, &mut input, blocks)?;
        same("the fault", text.as_str(), wanted)?;
    }
    let mut plan = String::from_str(alloc, "{\"games\":[")?;
    for index in 0..65 {
        let row = format!(in alloc;
            "{}{{\"game\":\"g{index}\",\"quota\":64}}",
            if index == 0 { "" } else { "," }
        )?;
        plan.push_str(&row)?;
    }
    plan.push_str("]}\n")?;
    let mut input = Input::new(plan.as_bytes(), 65_536);
    let text = told(alloc, &mut input, 4_096)?;
    same("the fault", text.as_str(), "plan P3")?;
    Ok(())
}
