//! Members of lines at both sides of each limit, and the answers to the lines.
use crate::serving::{Run, transcript};
use bs_samples::holds;
use bs_workers::OpenGate;
use std::alloc::Global;
use std::test::Fail;
use std::thread::Threads;

const BAD: &str = r#"{"game":"a","no":"G1","seq":1,"why":"command"}"#;

const NO_GAME: &str = r#"{"game":"a","no":"G2","seq":1,"why":"none"}"#;

const SHOWN: &str = r#"{"board":{"food":["#;

/// Members of a `new`, and the answer to the line. `ID` is replaced by 64 bytes.
const SETUPS: [(&str, &str); 17] = [
    (
        r#""width":3,"height":25,"snakes":[{"id":"ID","x":2,"y":24}]"#,
        SHOWN,
    ),
    (
        r#""width":25,"height":3,"snakes":[{"id":"s","x":24,"y":2}]"#,
        SHOWN,
    ),
    (
        r#""width":2,"height":3,"snakes":[{"id":"s","x":1,"y":1}]"#,
        BAD,
    ),
    (
        r#""width":3,"height":2,"snakes":[{"id":"s","x":1,"y":1}]"#,
        BAD,
    ),
    (
        r#""width":26,"height":3,"snakes":[{"id":"s","x":1,"y":1}]"#,
        BAD,
    ),
    (
        r#""width":3,"height":26,"snakes":[{"id":"s","x":1,"y":1}]"#,
        BAD,
    ),
    (
        r#""width":3,"height":3,"snakes":[{"id":"IDx","x":1,"y":1}]"#,
        BAD,
    ),
    (
        r#""width":3,"height":3,"snakes":[{"id":"","x":1,"y":1}]"#,
        BAD,
    ),
    (
        r#""width":3,"height":3,"snakes":[{"id":"s","x":3,"y":1}]"#,
        BAD,
    ),
    (
        r#""width":3,"height":3,"snakes":[{"id":"s","x":1,"y":3}]"#,
        BAD,
    ),
    (r#""width":3,"height":3,"snakes":[]"#, BAD),
    (
        r#""width":9,"height":3,"snakes":[{"id":"0","x":0,"y":1},{"id":"1","x":1,"y":1},{"id":"2","x":2,"y":1},{"id":"3","x":3,"y":1},{"id":"4","x":4,"y":1},{"id":"5","x":5,"y":1},{"id":"6","x":6,"y":1},{"id":"7","x":7,"y":1},{"id":"8","x":8,"y":1}]"#,
        BAD,
    ),
    (
        r#""width":3,"height":3,"snakes":[{"id":"s","x":1,"y":1}],"min_food":255"#,
        SHOWN,
    ),
    (
        r#""width":3,"height":3,"snakes":[{"id":"s","x":1,"y":1}],"min_food":256"#,
        BAD,
    ),
    (
        r#""width":3,"height":3,"snakes":[{"id":"s","x":1,"y":1}],"food_chance":100"#,
        SHOWN,
    ),
    (
        r#""width":3,"height":3,"snakes":[{"id":"s","x":1,"y":1}],"food_chance":101"#,
        BAD,
    ),
    (
        r#""width":3,"height":3,"snakes":[{"id":"s","x":1,"y":1}],"food_chance":0"#,
        SHOWN,
    ),
];

/// Lines of a game that does not run, and the answers.
const LINES: [(&str, &str); 4] = [
    (r#""do":"turn","at":10000"#, NO_GAME),
    (r#""do":"turn","at":10001"#, BAD),
    (r#""do":"move","moves":{},"words":[4294967295]"#, NO_GAME),
    (r#""do":"move","moves":{},"words":[4294967296]"#, BAD),
];

// Compares the beginning of the transcript of a game whose one line has these members.
fn is_answered<R: Threads + Sync>(
    rt: &R,
    alloc: Global,
    members: &str,
    answer: &str,
) -> Result<(), Fail> {
    let file = format!(in alloc;
        "{{\"games\":[{{\"game\":\"a\",\"quota\":4096}}]}}\n{{\"game\":\"a\",{members}}}"
    )?;
    let run = Run {
        file: file.as_str(),
        blocks: 6,
        workers: 1,
    };
    let text = transcript(rt, alloc, run, &OpenGate)?;
    holds(members, text.starts_with(answer))
}

#[test]
fn setups_at_their_limits(rt: HostRuntime) -> Result<(), Fail> {
    let alloc = rt.alloc();
    let name = "i".repeat(alloc, 64)?;
    for (members, answer) in SETUPS {
        let members = members.replace(alloc, "ID", name.as_str())?;
        let line = format!(in alloc;
            "\"do\":\"new\",\"mode\":\"solo\",\"food\":[],{}",
            members.as_str()
        )?;
        is_answered(&rt, alloc, line.as_str(), answer)?;
    }
    Ok(())
}

#[test]
fn turns_and_words_at_their_limits(rt: HostRuntime) -> Result<(), Fail> {
    for (members, answer) in LINES {
        is_answered(&rt, rt.alloc(), members, answer)?;
    }
    Ok(())
}

// A move may have up to 32 words.
#[test]
fn as_many_words_as_there_may_be(rt: HostRuntime) -> Result<(), Fail> {
    let alloc = rt.alloc();
    for (more, answer) in [(31, NO_GAME), (32, BAD)] {
        let words = ",0".repeat(alloc, more)?;
        let line = format!(in alloc;
            "\"do\":\"move\",\"moves\":{{}},\"words\":[0{}]",
            words.as_str()
        )?;
        is_answered(&rt, alloc, line.as_str(), answer)?;
    }
    Ok(())
}
