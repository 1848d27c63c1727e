//! Files whose games are admitted and leave: their transcripts, and the cut of each stay.
use crate::files::TWO_GAMES;
use crate::rows::{joined, rows_text};
use crate::serving::{StayName, cut_text, is_served_by_all};
use bs_samples::{holds, same};
use std::alloc::{AllocError, Global};
use std::test::Fail;

// Two stays of one name, an admission that fits only once another game has left, and each refusal
// except that of the 65th game. For 12 blocks, of which each game reserves six.
pub(crate) const STAYS: &str = r#"{"games":[{"game":"a","quota":64}],"version":3}
{"game":"b","do":"admit","quota":64}
{"game":"c","do":"admit","quota":64}
{"game":"b","do":"new","mode":"solo","width":5,"height":5,"snakes":[{"id":"s","x":1,"y":1}],"food":[],"min_food":0,"food_chance":0}
{"game":"b","do":"leave"}
{"game":"b","do":"show"}
{"game":"c","do":"admit","quota":64}
{"game":"c","do":"show"}
{"game":"c","do":"admit","quota":64}
{"game":"d","do":"admit","quota":15}
{"game":"z","do":"leave"}
{"game":"c","do":"leave"}
{"game":"b","do":"admit","quota":64}
{"game":"b","do":"show"}
"#;

// The section of each stay of the file.
const STAY_A: &str = r#"{"board":null,"charge":0,"final":true,"game":"a"}
"#;

const STAY_B: &str =
    r#"{"board":{"food":[],"food_chance":0,"height":5,"min_food":0,"mode":"solo","over":false,"snakes":[{"body":[{"x":1,"y":1},{"x":1,"y":1},{"x":1,"y":1}],"by":null,"cause":null,"health":100,"id":"s","out":null}],"turn":0,"width":5},"charge":32,"do":"new","game":"b","seq":1}
{"board":{"food":[],"food_chance":0,"height":5,"min_food":0,"mode":"solo","over":false,"snakes":[{"body":[{"x":1,"y":1},{"x":1,"y":1},{"x":1,"y":1}],"by":null,"cause":null,"health":100,"id":"s","out":null}],"turn":0,"width":5},"charge":32,"final":true,"game":"b"}
"#;

const STAY_C: &str = r#"{"game":"c","no":"G2","seq":1,"why":"none"}
{"board":null,"charge":0,"final":true,"game":"c"}
"#;

const SECOND_STAY_B: &str = r#"{"game":"b","no":"G2","seq":1,"why":"none"}
{"board":null,"charge":0,"final":true,"game":"b"}
"#;

// The strays of the file with 12 blocks, with 18, and with 11.
const STRAYS: &str = r#"{"line":3,"no":"A4","why":"pool"}
{"line":6,"no":"L2","why":"game"}
{"line":9,"no":"A2","why":"open"}
{"line":10,"no":"A1","why":"admit"}
{"line":11,"no":"A5","why":"none"}
"#;

const STRAYS_OF_MANY_BLOCKS: &str = r#"{"line":6,"no":"L2","why":"game"}
{"line":7,"no":"A2","why":"open"}
{"line":9,"no":"A2","why":"open"}
{"line":10,"no":"A1","why":"admit"}
{"line":11,"no":"A5","why":"none"}
"#;

const STRAYS_OF_FEW_BLOCKS: &str = r#"{"line":2,"no":"A4","why":"pool"}
{"line":3,"no":"A4","why":"pool"}
{"line":4,"no":"L2","why":"game"}
{"line":5,"no":"A5","why":"none"}
{"line":6,"no":"L2","why":"game"}
{"line":7,"no":"A4","why":"pool"}
{"line":8,"no":"L2","why":"game"}
{"line":9,"no":"A4","why":"pool"}
{"line":10,"no":"A1","why":"admit"}
{"line":11,"no":"A5","why":"none"}
{"line":12,"no":"A5","why":"none"}
{"line":13,"no":"A4","why":"pool"}
{"line":14,"no":"L2","why":"game"}
"#;

// The number of blocks decides which games are admitted: with blocks for three, line 3 admits c,
// which has not left at line 7; with blocks for one, no game is admitted.
#[test]
fn lines_admit_and_dismiss_games(rt: HostRuntime) -> Result<(), Fail> {
    let cases: [(usize, &[&str]); 3] = [
        (12, &[STAY_A, STAY_B, STAY_C, SECOND_STAY_B, STRAYS]),
        (
            18,
            &[STAY_A, STAY_B, STAY_C, SECOND_STAY_B, STRAYS_OF_MANY_BLOCKS],
        ),
        (11, &[STAY_A, STRAYS_OF_FEW_BLOCKS]),
    ];
    for (blocks, texts) in cases {
        let text = joined(rt.alloc(), texts)?;
        is_served_by_all(&rt, rt.alloc(), STAYS, blocks, text.as_str())?;
    }
    Ok(())
}

const FIRST_STAY: &str = r#"{"games":[{"game":"b","quota":64}],"version":3}
{"game":"b","do":"new","mode":"solo","width":5,"height":5,"snakes":[{"id":"s","x":1,"y":1}],"food":[],"min_food":0,"food_chance":0}"#;

const SECOND_STAY: &str = r#"{"games":[{"game":"b","quota":64}],"version":3}
{"game":"b","do":"show"}"#;

const OTHER_STAY: &str = r#"{"games":[{"game":"c","quota":64}],"version":3}
{"game":"c","do":"show"}"#;

const PLANNED_STAY: &str = r#"{"games":[{"game":"a","quota":64}],"version":3}"#;

#[test]
fn stays_and_their_cuts(rt: HostRuntime) -> Result<(), Fail> {
    for (blocks, game, number, wanted) in [
        (12, "a", 1, PLANNED_STAY),
        (12, "b", 1, FIRST_STAY),
        (12, "b", 2, SECOND_STAY),
        (12, "b", 3, "no such game"),
        (12, "b", 0, "no such game"),
        (12, "c", 1, OTHER_STAY),
        (12, "c", 2, "no such game"),
        (12, "d", 1, "no such game"),
        (11, "b", 1, "no such game"),
        (5, "a", 1, "plan P4"),
        (5, "z", 1, "plan P4"),
    ] {
        let text = cut_text(rt.alloc(), STAYS, blocks, StayName { game, number })?;
        same(game, text.as_str(), wanted)?;
    }
    Ok(())
}

// The cut of a cut is the cut itself. In earlier versions no number of blocks is too small.
#[test]
fn cuts_of_cuts_and_of_earlier_versions(rt: HostRuntime) -> Result<(), Fail> {
    let alloc = rt.alloc();
    let b = StayName {
        game: "b",
        number: 1,
    };
    let again = cut_text(alloc, SECOND_STAY, 6, b)?;
    same("a cut of a cut", again.as_str(), SECOND_STAY)?;
    let of_two = cut_text(alloc, TWO_GAMES, 0, b)?;
    let plan = r#"{"games":[{"game":"b","quota":4096}]}"#;
    holds("a cut from no block", of_two.as_str().starts_with(plan))?;
    let none = cut_text(alloc, TWO_GAMES, 0, StayName { number: 2, ..b })?;
    same("a second stay", none.as_str(), "no such game")
}

// The section of each stay's cut is its part of the file's transcript.
#[test]
fn stays_are_answered_alone(rt: HostRuntime) -> Result<(), Fail> {
    for (game, number, section) in [
        ("a", 1, STAY_A),
        ("b", 1, STAY_B),
        ("c", 1, STAY_C),
        ("b", 2, SECOND_STAY_B),
    ] {
        let own = cut_text(rt.alloc(), STAYS, 12, StayName { game, number })?;
        is_served_by_all(&rt, rt.alloc(), own.as_str(), 12, section)?;
        is_served_by_all(&rt, rt.alloc(), own.as_str(), 6, section)?;
    }
    Ok(())
}

// In a file of version 2 no line admits a game, and all lines of such games are strays.
#[test]
fn earlier_versions_have_no_stays(rt: HostRuntime) -> Result<(), Fail> {
    let alloc = rt.alloc();
    let mut file = String::from_str(alloc, r#"{"games":[{"game":"a","quota":64}],"version":2}"#)?;
    let (_, lines) = STAYS.split_once('\n').ok_or("a plan")?;
    file.push('\n')?;
    file.push_str(lines)?;
    let mut text = String::from_str(alloc, STAY_A)?;
    for line in 2..15u8 {
        text.push_str(&format!(in alloc; "{{\"line\":{line},\"no\":\"L2\",\"why\":\"game\"}}\n")?)?;
    }
    is_served_by_all(&rt, alloc, file.as_str(), 12, text.as_str())
}

// Makes the last lines of the 64 games, none of which had a command.
fn full_ends(alloc: Global) -> Result<String, AllocError> {
    let mut text = String::new(alloc);
    for index in 0..64u8 {
        text.push_str(&format!(in alloc;
            "{{\"board\":null,\"charge\":0,\"final\":true,\"game\":\"g{index}\"}}\n"
        )?)?;
    }
    Ok(text)
}

const MORE_GAMES: &str = r#"{"game":"new","do":"admit","quota":64}
{"game":"g7","do":"admit","quota":64}
{"game":"g63","do":"leave"}
{"game":"g63","do":"admit","quota":64}
{"game":"new","do":"admit","quota":64}
{"game":"g63","do":"show"}"#;

const MORE_GAMES_TEXT: &str = r#"{"game":"g63","no":"G2","seq":1,"why":"none"}
{"board":null,"charge":0,"final":true,"game":"g63"}
{"line":2,"no":"A3","why":"games"}
{"line":3,"no":"A2","why":"open"}
{"line":6,"no":"A3","why":"games"}
"#;

// While 64 games are open a new one is refused, and before that the name of an open one; once one
// has left another is admitted in its place.
#[test]
fn at_most_as_many_open_games_as_a_plan_has(rt: HostRuntime) -> Result<(), Fail> {
    let alloc = rt.alloc();
    let rows = rows_text(alloc, 64, 64)?;
    let plan = [
        "{\"version\":3,\"games\":[",
        rows.as_str(),
        "]}\n",
        MORE_GAMES,
    ];
    let file = joined(alloc, &plan)?;
    let ends = full_ends(alloc)?;
    let text = joined(alloc, &[ends.as_str(), MORE_GAMES_TEXT])?;
    is_served_by_all(&rt, alloc, file.as_str(), 400, text.as_str())
}
