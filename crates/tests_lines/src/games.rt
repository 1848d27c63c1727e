//! Games whose lines alternate, and a game with stray lines among its own.
use crate::files::{
    FIRST_TEXT, SECOND_TEXT, SOLO, SOLO_STRAYS, SOLO_STRAYS_TEXT, SOLO_TEXT, TWO_GAMES,
};
use crate::serving::{StayName, cut_text, is_served_by_all};
use std::alloc::Global;
use std::test::Fail;

// A stray line is written after all games, and is not counted in any game's numbers.
#[test]
fn solo_game_with_strays(rt: HostRuntime) -> Result<(), Fail> {
    is_served_by_all(&rt, rt.alloc(), SOLO_STRAYS, 6, SOLO_STRAYS_TEXT)
}

// Each game is written as its own lines alone give, together and alone.
#[test]
fn two_games_interleaved(rt: HostRuntime) -> Result<(), Fail> {
    let alloc = rt.alloc();
    let mut both = String::from_str(alloc, FIRST_TEXT)?;
    both.push_str(SECOND_TEXT)?;
    is_served_by_all(&rt, alloc, TWO_GAMES, 12, both.as_str())?;
    for (game, text) in [("a", FIRST_TEXT), ("b", SECOND_TEXT)] {
        let own = cut_text(alloc, TWO_GAMES, 12, StayName { game, number: 1 })?;
        is_served_by_all(&rt, alloc, own.as_str(), 6, text)?;
    }
    Ok(())
}

const NAMES: [&str; 8] = ["a", "b", "c", "d", "e", "f", "g", "h"];

const EIGHT_PLAN: &str =
    r#"{"games":[{"game":"a","quota":4096},{"game":"b","quota":4096},{"game":"c","quota":4096},{"game":"d","quota":4096},{"game":"e","quota":4096},{"game":"f","quota":4096},{"game":"g","quota":4096},{"game":"h","quota":4096}]}"#;

// The lines of a game of three snakes.
const THREE_SNAKES: [&str; 3] = [
    r#"{"game":"b","do":"new","mode":"standard","width":7,"height":7,"snakes":[{"id":"s","x":1,"y":1},{"id":"t","x":5,"y":1},{"id":"u","x":3,"y":5}],"food":[{"x":1,"y":2}],"min_food":0,"food_chance":0}"#,
    r#"{"game":"b","do":"move","moves":{"u":"down"}}"#,
    r#"{"game":"b","do":"show"}"#,
];

// A line of a game. Every other game is the solo game, the rest are the game of three snakes.
fn line_of(game: usize, line: usize) -> Option<&'static str> {
    if game % 2 == 0 {
        SOLO.lines().nth(line)
    } else {
        THREE_SNAKES.get(line.checked_sub(1)?).copied()
    }
}

// The section of that game.
fn text_of(game: usize) -> &'static str {
    if game % 2 == 0 {
        SOLO_TEXT
    } else {
        SECOND_TEXT
    }
}

// Replaces the name of the game in the text.
fn named(alloc: Global, text: &str, name: &str) -> Result<String, Fail> {
    let own = format!(in alloc; "\"game\":\"{name}\"")?;
    let text = text.replace(alloc, "\"game\":\"a\"", own.as_str())?;
    Ok(text.replace(alloc, "\"game\":\"b\"", own.as_str())?)
}

// Makes a file of eight games whose lines alternate.
fn eight_games(alloc: Global) -> Result<String, Fail> {
    let mut file = String::from_str(alloc, EIGHT_PLAN)?;
    for line in 1..5 {
        for (game, name) in NAMES.iter().enumerate() {
            if let Some(text) = line_of(game, line) {
                file.push('\n')?;
                file.push_str(named(alloc, text, name)?.as_str())?;
            }
        }
    }
    Ok(file)
}

// With two or more games for each thread, a thread takes several jobs at once.
#[test]
fn eight_games_by_all_numbers_of_workers(rt: HostRuntime) -> Result<(), Fail> {
    let alloc = rt.alloc();
    let file = eight_games(alloc)?;
    let mut text = String::new(alloc);
    for (game, name) in NAMES.iter().enumerate() {
        text.push_str(named(alloc, text_of(game), name)?.as_str())?;
    }
    is_served_by_all(&rt, alloc, file.as_str(), 48, text.as_str())
}
