//! How each line of a file is parsed, in each version of the format.
use crate::summaries::summary_of;
use bs_board::Version;
use bs_json::{Line, read_line, read_short};
use bs_samples::same;
use std::alloc::Global;
use std::test::Fail;

/// Compares how a line is parsed in that version.
fn is_read(alloc: Global, line: &str, version: Version, wanted: &str) -> Result<(), Fail> {
    let read = read_line(alloc, line.as_bytes(), version)?;
    same(line, summary_of(alloc, &read)?.as_str(), wanted)
}

// Each row: how the line is parsed in each version, a bar, and the line.
const LINES: &str =
    r#"a: new Solo 3x3 min 0 chance 0 s@1,1|{"game":"a","do":"new","mode":"solo","width":3,"height":3,"snakes":[{"id":"s","x":1,"y":1}],"food":[],"min_food":0,"food_chance":0}
b: new Standard 7x7 min 0 chance 0 s@1,1 t@5,1 u@3,5 food 1,2|{"game":"b","do":"new","mode":"standard","width":7,"height":7,"snakes":[{"id":"s","x":1,"y":1},{"id":"t","x":5,"y":1},{"id":"u","x":3,"y":5}],"food":[{"x":1,"y":2}],"min_food":0,"food_chance":0}
c: new Constrictor 7x7 min 1 chance 15 s@1,1 t@5,1 food 3,3|{"game":"c","do":"new","mode":"constrictor","width":7,"height":7,"snakes":[{"id":"s","x":1,"y":1},{"id":"t","x":5,"y":1}],"food":[{"x":3,"y":3}]}
a: move|{"game":"a","do":"move","moves":{}}
b: move u Down|{"game":"b","do":"move","moves":{"u":"down"}}
a: move  Right t Left v Up|{"do":"move","game":"a","moves":{"v":"up","s":"north","t":"left","u":1,"":"right"},"more":null}
a: move 5 4294967295|{"game":"a","do":"move","moves":{},"words":[5,4294967295]}
a: bad|{"game":"a","do":"move","moves":{},"words":[4294967296]}
a: move 0 0 0 0 0 0 0 0 0 0 0 0 0 0 0 0 0 0 0 0 0 0 0 0 0 0 0 0 0 0 0 9|{"game":"a","do":"move","moves":{},"words":[0,0,0,0,0,0,0,0,0,0,0,0,0,0,0,0,0,0,0,0,0,0,0,0,0,0,0,0,0,0,0,9]}
a: bad|{"game":"a","do":"move","moves":{},"words":[0,0,0,0,0,0,0,0,0,0,0,0,0,0,0,0,0,0,0,0,0,0,0,0,0,0,0,0,0,0,0,0,9]}
a: bad|{"game":"a","do":"move","moves":{},"words":[1.0]}
a: bad|{"game":"a","do":"move","moves":{},"words":null}
a: bad|{"game":"a","do":"move","moves":[]}
a: bad|{"game":"a","do":"move"}
b: show|{"game":"b","do":"show"}
z: show| {"game" : "z", "do" : "show"} 
a: turn 0|{"game":"a","do":"turn","at":0}
a: turn 10000|{"game":"a","do":"turn","at":10000}
a: bad|{"game":"a","do":"turn","at":10001}
a: bad|{"game":"a","do":"turn"}
a: turn 9|{"game":"a","do":"turn","at":9,"more":0}
a: turn 9|{"game":"a","do":"turn","at": 9}
a: bad|{"game":"a","do":"turn","at":-1}
a: bad|{"game":"a","do":"turn","at":4294967296}
stray Json|{"game":"a","do":"turn","at":}
stray Json|{"game":"a","do":"turn","at":09}
stray Json|{"game":"a","do":"turn","at":9}}
a: move s Left t Up|{"game":"a","do":"move","moves":{"s":"left","t":"up"}}
a: move s Left t Up|{"game":"a","do":"move","moves":{"t":"up","s":"left"}}
a: move s Left|{"game":"a","do":"move","moves":{"s":"up","s":"left"}}
a: move s Left|{"game":"a","do":"move","moves":{"\u0073":"left","t":"Up"}}
a: move A Down a Right b Left t Up|{"game":"a","do":"move","moves":{"t":"up","a":"right","A":"down","b":"left"}}
a: move  Up s Down s2 Left s20 Right|{"game":"a","do":"move","moves":{"s20":"right","s2":"left","s":"down","":"up"}}
a: move s Down t Right u Left|{"game":"a","do":"move","moves":{"t":"up","s":"up","u":"left","t":"right","s":"down"}}
a: move a Up b Left c Down|{"game":"a","do":"move","moves":{"a":"up","c":"up","b":"left","c":"down"}}
a: move s Down 7 10|{"game":"a","do":"move","moves":{"s":"up","s":"down"},"words":[7,10]}
a: move s Down|{"game":"a","do":"move","moves":{"t":"up","s":"down","t":"Up"}}
a: move gs_WVH7vQX8 Up gs_mYk4Pphr Left gs_mYk4Pphx Right 3|{"game":"a","do":"move","moves":{"gs_mYk4Pphx":"right","gs_WVH7vQX8":"up","gs_mYk4Pphr":"left"},"words":[3]}
a: move s Left t Up 7 10| { "game" : "a" ,"do": "move", "moves": { "t" : "up", "s" :"left" } , "words" : [ 7 , 10 ] } 
a: turn 9|{"game": "a", "do": "turn", "at": 9 }
a: turn 0| {"game":"a","do":"turn","at":0 }
stray Json|{"game": "a", "do": "turn", "at": 1 0}
stray Json|{"game": "a", "do": "turn", "at": 0 9}
stray Json|{"game": "a", "do": "turn", "at": 00 }
stray Json|{"game": "a", "do": "turn", "at": 9"}
a b: show|{"game": "a b", "do": "show"}
a: move s t Up|{"game": "a", "do": "move", "moves": {"s t": "up", "u": " up"}}
a: bad|{"game": "a", "do": "show "}
stray Json|{"game": "a", "do": "show"} x
stray Json|{"game": "a", "do" "show"}
stray Json|{"game": "a", , "do": "show"}
stray Json|{"game": "a", "do": "show
a: move s Left 7 10|{"game":"a","do":"move","moves":{"s":"left"},"words":[7,10]}
a: move s Left|{"game":"a","do":"move","moves":{"s":"left"},"words":[]}
a: move s Left 7|{"game":"a","do":"move","moves":{"s":"left"},"words":[7],"more":0}
stray Json|{"game":"a","do":"move","moves":{"s":"left"},"words":[7,]}
stray Json|{"game":"a","do":"move","moves":{"s":"left",}}
stray Json|{"game":"a","do":"move","moves":{,"s":"left"}}
stray Json|{"game":"a","do":"move","moves":{"s":"left"}
é: show|{"game":"é","do":"show"}
a\: show|{"game":"a\\","do":"show"}
a: end|{"game":"a","do":"end"} 
stray Json|{"game":"a","do":"end"}x
a: free|{"game":"a","do":"free"}
a: end|{"game":"a","do":"end"}
a: bad|{"game":"a","do":"jump"}
a: bad|{"game":"a"}
stray Game|{"game":1,"do":"show"}
stray Game|{"do":"show"}
stray Json|{oops
stray Json|show
stray Json|[{"game":"a"}]
blank|
blank|  "#;

#[test]
fn lines_are_read(rt: HostRuntime) -> Result<(), Fail> {
    for row in LINES.split('\n') {
        let (wanted, line) = row.split_once('|').ok_or("a bar in each row")?;
        for version in [Version::One, Version::Two, Version::Three] {
            is_read(rt.alloc(), line, version, wanted)?;
        }
    }
    Ok(())
}

#[test]
fn white_space_between_tokens_is_dropped(rt: HostRuntime) -> Result<(), Fail> {
    let line =
        "\t{\r\"game\"\t:\"a\"\r,\"do\":\t\"move\",\"moves\":{\"t\":\"up\",\t\"s\":\"left\"\t}}\r";
    is_read(rt.alloc(), line, Version::Five, "a: move s Left t Up")?;
    let cut = "{\"game\": \"a\", \"do\": \"sh\tow\"}\r";
    is_read(rt.alloc(), cut, Version::Five, "stray Json")?;
    is_read(rt.alloc(), "\t\r \r", Version::Five, "blank")
}

const NEW_WRAPPED: &str =
    r#"{"game":"w","do":"new","mode":"wrapped","width":5,"height":5,"snakes":[{"id":"s","x":3,"y":1},{"id":"t","x":3,"y":3}],"food":[],"min_food":0,"food_chance":0}"#;

#[test]
fn wrapped_is_a_mode_from_version_two_on(rt: HostRuntime) -> Result<(), Fail> {
    let wrapped = "w: new Wrapped 5x5 min 0 chance 0 s@3,1 t@3,3";
    is_read(rt.alloc(), NEW_WRAPPED, Version::One, "w: bad")?;
    is_read(rt.alloc(), NEW_WRAPPED, Version::Two, wrapped)?;
    is_read(rt.alloc(), NEW_WRAPPED, Version::Three, wrapped)
}

// Each row: how the line is parsed in version 3, how in earlier versions, and the line, between
// bars.
const STAYS: &str = r#"admit c 64|c: bad|{"game":"c","do":"admit","quota":64}
admit c 16|c: bad|{"do":"admit","quota":16,"more":[1],"game":"c"}
admit c 16777216|c: bad| {"quota":16777216,"game":"c", "do":"admit"}
bad admit|c: bad|{"game":"c","do":"admit","quota":15}
bad admit|c: bad|{"game":"c","do":"admit","quota":16777217}
bad admit|c: bad|{"game":"c","do":"admit","quota":"64"}
bad admit|c: bad|{"game":"c","do":"admit"}
bad admit|: bad|{"game":"","do":"admit","quota":64}
bad admit|stray Game|{"game":1,"do":"admit","quota":64}
bad admit|stray Game|{"do":"admit","quota":64}
leave c|c: bad|{"game":"c","do":"leave"}
leave c|c: bad|{"do":"leave","quota":1,"game":"c"}
leave |: bad|{"game":"","do":"leave"}
leave nothing|stray Game|{"game":null,"do":"leave"}
leave nothing|stray Game|{"do":"leave"}
c: bad|c: bad|{"game":"c","do":"Admit","quota":64}
c: bad|c: bad|{"game":"c","do":["admit"],"quota":64}
c: bad|c: bad|{"game":"c","do":"leave "}
stray Json|stray Json|["admit"]
stray Json|stray Json|{"game":"c","do":"leave""#;

#[test]
fn games_are_admitted_and_dismissed_in_version_three_alone(rt: HostRuntime) -> Result<(), Fail> {
    for row in STAYS.split('\n') {
        let (wanted, rest) = row.split_once('|').ok_or("a bar in each row")?;
        let (before, line) = rest.split_once('|').ok_or("two bars in each row")?;
        is_read(rt.alloc(), line, Version::One, before)?;
        is_read(rt.alloc(), line, Version::Two, before)?;
        is_read(rt.alloc(), line, Version::Three, wanted)?;
    }
    Ok(())
}

// Short commands in their compact form.
const SHORT: &str = r#"{"game":"a","do":"show"}
{"game":"a","do":"free"}
{"game":"a","do":"end"}
{"game":"","do":"end"}
{"game":"a","do":"turn","at":0}
{"game":"a","do":"turn","at":10}
{"game":"a","do":"turn","at":10000}"#;

#[test]
fn short_commands_are_read(rt: HostRuntime) -> Result<(), Fail> {
    for line in SHORT.split('\n') {
        let short = read_short(line.as_bytes()).ok_or(line)?;
        let wanted = summary_of(
            rt.alloc(),
            &read_line(rt.alloc(), line.as_bytes(), Version::One)?,
        )?;
        let read = Line::Command {
            game: short.game,
            command: short.command.command(),
        };
        same(
            line,
            summary_of(rt.alloc(), &read)?.as_str(),
            wanted.as_str(),
        )?;
    }
    Ok(())
}
