//! The cut of a file to one game.
use crate::files::{SOLO, TWO_GAMES};
use crate::lengths::blanks_to;
use crate::rows::{joined, rows_text};
use crate::serving::{StayName, cut_text};
use bs_samples::same;
use std::alloc::Global;
use std::test::Fail;

const FIRST_GAME: &str = r#"{"games":[{"game":"a","quota":64}]}
{"game":"a","do":"new","mode":"solo","width":5,"height":5,"snakes":[{"id":"s","x":1,"y":1}],"food":[],"min_food":0,"food_chance":0}
{"game":"a","do":"move","moves":{}}
{"game":"a","do":"end"}"#;

const SECOND_GAME: &str = r#"{"games":[{"game":"b","quota":4096}]}
{"game":"b","do":"new","mode":"standard","width":7,"height":7,"snakes":[{"id":"s","x":1,"y":1},{"id":"t","x":5,"y":1},{"id":"u","x":3,"y":5}],"food":[{"x":1,"y":2}],"min_food":0,"food_chance":0}
{"game":"b","do":"move","moves":{"u":"down"}}
{"game":"b","do":"show"}"#;

// A plan that is not written in the shortest form, a game without lines, and lines that the cut
// copies unchanged: a bad one, one with spaces, one whose name has an escape. Blank lines and
// strays are left out.
const LOOSE: &str =
    r#" { "version" : 1, "games": [ {"quota": 16, "game": "\u0061\n", "more": 0}, {"game":"b","quota":17} ] }
{"do":"jump","game":"a\n"}
{oops

  {"game" : "\u0061\u000a", "do" : "show" } 
{"game":"z","do":"show"}
{"game":"a\n","do":"end"}
"#;

const LOOSE_FIRST: &str = r#"{"games":[{"game":"a\n","quota":16}]}
{"do":"jump","game":"a\n"}
  {"game" : "\u0061\u000a", "do" : "show" } 
{"game":"a\n","do":"end"}"#;

// The cut of a file of version 2 has version 2, however the plan is written.
const VERSION_TWO: &str =
    r#"{"version":2, "games":[{"game":"a","quota":64},{"game":"b","quota":4096}]}
{"game":"b","do":"new","mode":"wrapped","width":5,"height":5,"snakes":[{"id":"s","x":3,"y":1},{"id":"t","x":3,"y":3}],"food":[],"min_food":0,"food_chance":0}
{"game":"a","do":"show"}
{"game":"b","do":"move","moves":{"s":"right"}}
"#;

const VERSION_TWO_SECOND: &str = r#"{"games":[{"game":"b","quota":4096}],"version":2}
{"game":"b","do":"new","mode":"wrapped","width":5,"height":5,"snakes":[{"id":"s","x":3,"y":1},{"id":"t","x":3,"y":3}],"food":[],"min_food":0,"food_chance":0}
{"game":"b","do":"move","moves":{"s":"right"}}"#;

// Compares the cut of a file to the first stay of a game.
fn is_cut_to(alloc: Global, file: &str, game: &str, wanted: &str) -> Result<(), Fail> {
    let text = cut_text(alloc, file, 64, StayName { game, number: 1 })?;
    same(game, text.as_str(), wanted)
}

#[test]
fn files_and_their_cuts(rt: HostRuntime) -> Result<(), Fail> {
    for (file, game, wanted) in [
        (TWO_GAMES, "a", FIRST_GAME),
        (TWO_GAMES, "b", SECOND_GAME),
        (FIRST_GAME, "a", FIRST_GAME),
        (LOOSE, "a\n", LOOSE_FIRST),
        (VERSION_TWO, "b", VERSION_TWO_SECOND),
        (VERSION_TWO_SECOND, "b", VERSION_TWO_SECOND),
        (LOOSE, "b", r#"{"games":[{"game":"b","quota":17}]}"#),
        (SOLO, "z", "no such game"),
        (TWO_GAMES, "c", "no such game"),
        (TWO_GAMES, "", "no such game"),
        ("", "a", "plan P1"),
        (r#"{"games":[{"game":"a","quota":15}]}"#, "b", "plan P2"),
    ] {
        is_cut_to(rt.alloc(), file, game, wanted)?;
    }
    Ok(())
}

// The length is judged before the plan, and the plan before the name.
#[test]
fn cuts_are_refused_in_order(rt: HostRuntime) -> Result<(), Fail> {
    let alloc = rt.alloc();
    let rows = rows_text(alloc, 65, 64)?;
    let plan = joined(alloc, &["{\"games\":[", rows.as_str(), "]}"])?;
    is_cut_to(alloc, plan.as_str(), "a", "plan P3")?;
    let mut file = blanks_to(alloc, 16_777_216)?;
    is_cut_to(alloc, file.as_str(), "a", "no such game")?;
    file.push(' ')?;
    is_cut_to(alloc, file.as_str(), "a", "file too long")
}
