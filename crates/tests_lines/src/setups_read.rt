//! Members of a new game at both ends of each range, and outside it.
use bs_board::Version;
use bs_json::{Line, read_line};
use bs_samples::same;
use std::alloc::{AllocError, Global};
use std::test::Fail;

// Each row: whether the line is parsed as a command, a bar, and the line.
const NEW_GAMES: &str =
    r#"read|{"game":"a","do":"new","mode":"solo","width":25,"height":25,"snakes":[{"id":"a","x":0,"y":0},{"id":"b","x":3,"y":0},{"id":"c","x":6,"y":0},{"id":"d","x":9,"y":0},{"id":"e","x":12,"y":0},{"id":"f","x":15,"y":0},{"id":"g","x":18,"y":0},{"id":"h","x":21,"y":0}],"food":[]}
bad|{"game":"a","do":"new","mode":"solo","width":25,"height":25,"snakes":[{"id":"a","x":0,"y":0},{"id":"b","x":3,"y":0},{"id":"c","x":6,"y":0},{"id":"d","x":9,"y":0},{"id":"e","x":12,"y":0},{"id":"f","x":15,"y":0},{"id":"g","x":18,"y":0},{"id":"h","x":21,"y":0},{"id":"s","x":1,"y":1}],"food":[]}
bad|{"game":"a","do":"new","mode":"solo","width":26,"height":25,"snakes":[{"id":"s","x":1,"y":1}],"food":[]}
bad|{"game":"a","do":"new","mode":"solo","width":25,"height":26,"snakes":[{"id":"s","x":1,"y":1}],"food":[]}
bad|{"game":"a","do":"new","mode":"solo","width":2,"height":3,"snakes":[{"id":"s","x":1,"y":1}],"food":[]}
bad|{"game":"a","do":"new","mode":"solo","width":-3,"height":3,"snakes":[{"id":"s","x":1,"y":1}],"food":[]}
bad|{"game":"a","do":"new","mode":"solo","width":3,"height":3,"snakes":[],"food":[]}
bad|{"game":"a","do":"new","mode":"solo","width":3,"height":3,"snakes":[{"id":"s","x":1,"y":1},{"id":"s","x":1,"y":1}],"food":[]}
bad|{"game":"a","do":"new","mode":"solo","width":3,"height":3,"snakes":[{"id":"s","x":1,"y":1},{"id":"t","x":1,"y":1}],"food":[]}
read|{"game":"a","do":"new","mode":"solo","width":3,"height":3,"snakes":[{"id":"0123456789012345678901234567890123456789012345678901234567890123","x":2,"y":2}],"food":[]}
bad|{"game":"a","do":"new","mode":"solo","width":3,"height":3,"snakes":[{"id":"01234567890123456789012345678901234567890123456789012345678901234","x":2,"y":2}],"food":[]}
read|{"game":"a","do":"new","mode":"solo","width":3,"height":3,"snakes":[{"id":"éééééééééééééééééééééééééééééééé","x":2,"y":2}],"food":[]}
bad|{"game":"a","do":"new","mode":"solo","width":3,"height":3,"snakes":[{"id":"ééééééééééééééééééééééééééééééééé","x":2,"y":2}],"food":[]}
bad|{"game":"a","do":"new","mode":"solo","width":3,"height":3,"snakes":[{"id":"","x":2,"y":2}],"food":[]}
bad|{"game":"a","do":"new","mode":"solo","width":3,"height":3,"snakes":[{"id":"s","x":3,"y":2}],"food":[]}
read|{"game":"a","do":"new","mode":"solo","width":3,"height":3,"snakes":[{"id":"s","x":1,"y":1}],"food":[{"x":1,"y":1}]}
bad|{"game":"a","do":"new","mode":"solo","width":3,"height":3,"snakes":[{"id":"s","x":1,"y":1}],"food":[{"x":1,"y":3}]}
bad|{"game":"a","do":"new","mode":"solo","width":3,"height":3,"snakes":[{"id":"s","x":1,"y":1}],"food":[{"x":1,"y":1},{"x":1,"y":1}]}
read|{"game":"a","do":"new","mode":"solo","width":3,"height":3,"snakes":[{"id":"s","x":1,"y":1}],"food":[],"min_food":255,"food_chance":100}
bad|{"game":"a","do":"new","mode":"solo","width":3,"height":3,"snakes":[{"id":"s","x":1,"y":1}],"food":[],"min_food":256}
bad|{"game":"a","do":"new","mode":"solo","width":3,"height":3,"snakes":[{"id":"s","x":1,"y":1}],"food":[],"food_chance":101}
bad|{"game":"a","do":"new","mode":"solo","width":3,"height":3,"snakes":[{"id":"s","x":1,"y":1}],"food":[],"food_chance":null}"#;

fn kind_of(alloc: Global, line: &str) -> Result<&'static str, AllocError> {
    match read_line(alloc, line.as_bytes(), Version::One)? {
        Line::Command { .. } => Ok("read"),
        Line::Bad { .. } => Ok("bad"),
        _ => Ok("no line of a game"),
    }
}

#[test]
fn a_new_game_is_within_the_limits(rt: HostRuntime) -> Result<(), Fail> {
    for row in NEW_GAMES.split('\n') {
        let (wanted, line) = row.split_once('|').ok_or("a bar in each row")?;
        same(line, kind_of(rt.alloc(), line)?, wanted)?;
    }
    Ok(())
}
