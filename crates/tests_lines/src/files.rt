//! Command files, and the transcript of each.

/// A solo snake goes straight on and into the wall; the commands after that are refused.
pub const SOLO: &str = r#"{"games":[{"game":"a","quota":4096}]}
{"game":"a","do":"new","mode":"solo","width":3,"height":3,"snakes":[{"id":"s","x":1,"y":1}],"food":[],"min_food":0,"food_chance":0}
{"game":"a","do":"move","moves":{}}
{"game":"a","do":"move","moves":{}}
{"game":"a","do":"move","moves":{}}
"#;

pub const SOLO_TEXT: &str =
    r#"{"board":{"food":[],"food_chance":0,"height":3,"min_food":0,"mode":"solo","over":false,"snakes":[{"body":[{"x":1,"y":1},{"x":1,"y":1},{"x":1,"y":1}],"by":null,"cause":null,"health":100,"id":"s","out":null}],"turn":0,"width":3},"charge":32,"do":"new","game":"a","seq":1}
{"board":{"food":[],"food_chance":0,"height":3,"min_food":0,"mode":"solo","over":false,"snakes":[{"body":[{"x":1,"y":2},{"x":1,"y":1},{"x":1,"y":1}],"by":null,"cause":null,"health":99,"id":"s","out":null}],"turn":1,"width":3},"charge":64,"do":"move","game":"a","seq":2}
{"board":{"food":[],"food_chance":0,"height":3,"min_food":0,"mode":"solo","over":true,"snakes":[{"body":[{"x":1,"y":3},{"x":1,"y":2},{"x":1,"y":1}],"by":null,"cause":"wall-collision","health":98,"id":"s","out":2}],"turn":2,"width":3},"charge":96,"do":"move","game":"a","seq":3}
{"game":"a","no":"G4","seq":4,"why":"over"}
{"board":{"food":[],"food_chance":0,"height":3,"min_food":0,"mode":"solo","over":true,"snakes":[{"body":[{"x":1,"y":3},{"x":1,"y":2},{"x":1,"y":1}],"by":null,"cause":"wall-collision","health":98,"id":"s","out":2}],"turn":2,"width":3},"charge":96,"final":true,"game":"a"}
"#;

/// Two games whose lines alternate: each is answered by its own lines alone.
pub const TWO_GAMES: &str = r#"{"games":[{"game":"a","quota":64},{"game":"b","quota":4096}]}
{"game":"a","do":"new","mode":"solo","width":5,"height":5,"snakes":[{"id":"s","x":1,"y":1}],"food":[],"min_food":0,"food_chance":0}
{"game":"b","do":"new","mode":"standard","width":7,"height":7,"snakes":[{"id":"s","x":1,"y":1},{"id":"t","x":5,"y":1},{"id":"u","x":3,"y":5}],"food":[{"x":1,"y":2}],"min_food":0,"food_chance":0}
{"game":"a","do":"move","moves":{}}
{"game":"b","do":"move","moves":{"u":"down"}}
{"game":"a","do":"end"}
{"game":"b","do":"show"}
"#;

/// The sections of the first and of the second of the two games whose lines alternate.
pub const FIRST_TEXT: &str =
    r#"{"board":{"food":[],"food_chance":0,"height":5,"min_food":0,"mode":"solo","over":false,"snakes":[{"body":[{"x":1,"y":1},{"x":1,"y":1},{"x":1,"y":1}],"by":null,"cause":null,"health":100,"id":"s","out":null}],"turn":0,"width":5},"charge":32,"do":"new","game":"a","seq":1}
{"board":{"food":[],"food_chance":0,"height":5,"min_food":0,"mode":"solo","over":false,"snakes":[{"body":[{"x":1,"y":2},{"x":1,"y":1},{"x":1,"y":1}],"by":null,"cause":null,"health":99,"id":"s","out":null}],"turn":1,"width":5},"charge":64,"do":"move","game":"a","seq":2}
{"charge":0,"do":"end","game":"a","seq":3}
{"board":null,"charge":0,"final":true,"game":"a"}
"#;

pub const SECOND_TEXT: &str =
    r#"{"board":{"food":[{"x":1,"y":2}],"food_chance":0,"height":7,"min_food":0,"mode":"standard","over":false,"snakes":[{"body":[{"x":1,"y":1},{"x":1,"y":1},{"x":1,"y":1}],"by":null,"cause":null,"health":100,"id":"s","out":null},{"body":[{"x":5,"y":1},{"x":5,"y":1},{"x":5,"y":1}],"by":null,"cause":null,"health":100,"id":"t","out":null},{"body":[{"x":3,"y":5},{"x":3,"y":5},{"x":3,"y":5}],"by":null,"cause":null,"health":100,"id":"u","out":null}],"turn":0,"width":7},"charge":64,"do":"new","game":"b","seq":1}
{"board":{"food":[],"food_chance":0,"height":7,"min_food":0,"mode":"standard","over":false,"snakes":[{"body":[{"x":1,"y":2},{"x":1,"y":1},{"x":1,"y":1},{"x":1,"y":1}],"by":null,"cause":null,"health":100,"id":"s","out":null},{"body":[{"x":5,"y":2},{"x":5,"y":1},{"x":5,"y":1}],"by":null,"cause":null,"health":99,"id":"t","out":null},{"body":[{"x":3,"y":4},{"x":3,"y":5},{"x":3,"y":5}],"by":null,"cause":null,"health":99,"id":"u","out":null}],"turn":1,"width":7},"charge":128,"do":"move","game":"b","seq":2}
{"board":{"food":[],"food_chance":0,"height":7,"min_food":0,"mode":"standard","over":false,"snakes":[{"body":[{"x":1,"y":2},{"x":1,"y":1},{"x":1,"y":1},{"x":1,"y":1}],"by":null,"cause":null,"health":100,"id":"s","out":null},{"body":[{"x":5,"y":2},{"x":5,"y":1},{"x":5,"y":1}],"by":null,"cause":null,"health":99,"id":"t","out":null},{"body":[{"x":3,"y":4},{"x":3,"y":5},{"x":3,"y":5}],"by":null,"cause":null,"health":99,"id":"u","out":null}],"turn":1,"width":7},"charge":128,"do":"show","game":"b","seq":3}
{"board":{"food":[],"food_chance":0,"height":7,"min_food":0,"mode":"standard","over":false,"snakes":[{"body":[{"x":1,"y":2},{"x":1,"y":1},{"x":1,"y":1},{"x":1,"y":1}],"by":null,"cause":null,"health":100,"id":"s","out":null},{"body":[{"x":5,"y":2},{"x":5,"y":1},{"x":5,"y":1}],"by":null,"cause":null,"health":99,"id":"t","out":null},{"body":[{"x":3,"y":4},{"x":3,"y":5},{"x":3,"y":5}],"by":null,"cause":null,"health":99,"id":"u","out":null}],"turn":1,"width":7},"charge":128,"final":true,"game":"b"}
"#;

/// A quota of two records: the third is refused until the older ones are freed.
pub const TWO_RECORDS: &str = r#"{"games":[{"game":"a","quota":64}]}
{"game":"a","do":"new","mode":"solo","width":5,"height":5,"snakes":[{"id":"s","x":1,"y":1}],"food":[],"min_food":0,"food_chance":0}
{"game":"a","do":"move","moves":{}}
{"game":"a","do":"move","moves":{}}
{"game":"a","do":"free"}
{"game":"a","do":"move","moves":{}}
{"game":"a","do":"turn","at":0}
{"game":"a","do":"turn","at":1}
"#;

pub const TWO_RECORDS_TEXT: &str =
    r#"{"board":{"food":[],"food_chance":0,"height":5,"min_food":0,"mode":"solo","over":false,"snakes":[{"body":[{"x":1,"y":1},{"x":1,"y":1},{"x":1,"y":1}],"by":null,"cause":null,"health":100,"id":"s","out":null}],"turn":0,"width":5},"charge":32,"do":"new","game":"a","seq":1}
{"board":{"food":[],"food_chance":0,"height":5,"min_food":0,"mode":"solo","over":false,"snakes":[{"body":[{"x":1,"y":2},{"x":1,"y":1},{"x":1,"y":1}],"by":null,"cause":null,"health":99,"id":"s","out":null}],"turn":1,"width":5},"charge":64,"do":"move","game":"a","seq":2}
{"game":"a","no":"G7","seq":3,"why":"quota"}
{"charge":32,"do":"free","game":"a","seq":4}
{"board":{"food":[],"food_chance":0,"height":5,"min_food":0,"mode":"solo","over":false,"snakes":[{"body":[{"x":1,"y":3},{"x":1,"y":2},{"x":1,"y":1}],"by":null,"cause":null,"health":98,"id":"s","out":null}],"turn":2,"width":5},"charge":64,"do":"move","game":"a","seq":5}
{"game":"a","no":"G6","seq":6,"why":"record"}
{"board":{"food":[],"food_chance":0,"height":5,"min_food":0,"mode":"solo","over":false,"snakes":[{"body":[{"x":1,"y":2},{"x":1,"y":1},{"x":1,"y":1}],"by":null,"cause":null,"health":99,"id":"s","out":null}],"turn":1,"width":5},"charge":64,"do":"turn","game":"a","seq":7}
{"board":{"food":[],"food_chance":0,"height":5,"min_food":0,"mode":"solo","over":false,"snakes":[{"body":[{"x":1,"y":3},{"x":1,"y":2},{"x":1,"y":1}],"by":null,"cause":null,"health":98,"id":"s","out":null}],"turn":2,"width":5},"charge":64,"final":true,"game":"a"}
"#;

/// A running game cannot be started again; after its end another may start.
pub const AGAIN: &str = r#"{"games":[{"game":"a","quota":4096}]}
{"game":"a","do":"new","mode":"solo","width":3,"height":3,"snakes":[{"id":"s","x":1,"y":1}],"food":[],"min_food":0,"food_chance":0}
{"game":"a","do":"new","mode":"solo","width":3,"height":3,"snakes":[{"id":"s","x":1,"y":1}],"food":[],"min_food":0,"food_chance":0}
{"game":"a","do":"end"}
{"game":"a","do":"move","moves":{}}
{"game":"a","do":"new","mode":"solo","width":3,"height":3,"snakes":[{"id":"s","x":1,"y":1}],"food":[],"min_food":0,"food_chance":0}
"#;

pub const AGAIN_TEXT: &str =
    r#"{"board":{"food":[],"food_chance":0,"height":3,"min_food":0,"mode":"solo","over":false,"snakes":[{"body":[{"x":1,"y":1},{"x":1,"y":1},{"x":1,"y":1}],"by":null,"cause":null,"health":100,"id":"s","out":null}],"turn":0,"width":3},"charge":32,"do":"new","game":"a","seq":1}
{"game":"a","no":"G3","seq":2,"why":"running"}
{"charge":0,"do":"end","game":"a","seq":3}
{"game":"a","no":"G2","seq":4,"why":"none"}
{"board":{"food":[],"food_chance":0,"height":3,"min_food":0,"mode":"solo","over":false,"snakes":[{"body":[{"x":1,"y":1},{"x":1,"y":1},{"x":1,"y":1}],"by":null,"cause":null,"health":100,"id":"s","out":null}],"turn":0,"width":3},"charge":32,"do":"new","game":"a","seq":5}
{"board":{"food":[],"food_chance":0,"height":3,"min_food":0,"mode":"solo","over":false,"snakes":[{"body":[{"x":1,"y":1},{"x":1,"y":1},{"x":1,"y":1}],"by":null,"cause":null,"health":100,"id":"s","out":null}],"turn":0,"width":3},"charge":32,"final":true,"game":"a"}
"#;

/// Lines that belong to no game, among those of one game.
pub const STRAYS: &str = r#"{"games":[{"game":"a","quota":4096}]}
{"game":"a","do":"jump"}
{oops
{"game":"z","do":"show"}

{"game":"a","do":"show"}
"#;

pub const STRAYS_TEXT: &str = r#"{"game":"a","no":"G1","seq":1,"why":"command"}
{"game":"a","no":"G2","seq":2,"why":"none"}
{"board":null,"charge":0,"final":true,"game":"a"}
{"line":3,"no":"L1","why":"json"}
{"line":4,"no":"L2","why":"game"}
"#;

/// A quota smaller than one record.
pub const TINY: &str = r#"{"games":[{"game":"a","quota":16}]}
{"game":"a","do":"new","mode":"solo","width":3,"height":3,"snakes":[{"id":"s","x":1,"y":1}],"food":[],"min_food":0,"food_chance":0}
"#;

pub const TINY_TEXT: &str = r#"{"game":"a","no":"G7","seq":1,"why":"quota"}
{"board":null,"charge":0,"final":true,"game":"a"}
"#;

/// Two snakes that cross the right edge of a wrapped board, first by a direction, then straight on.
pub const WRAPPED: &str = r#"{"games":[{"game":"a","quota":4096}],"version":2}
{"game":"a","do":"new","mode":"wrapped","width":5,"height":5,"snakes":[{"id":"s","x":3,"y":1},{"id":"t","x":3,"y":3}],"food":[],"min_food":0,"food_chance":0}
{"game":"a","do":"move","moves":{"s":"right","t":"right"}}
{"game":"a","do":"move","moves":{}}
{"game":"a","do":"move","moves":{}}
"#;

pub const WRAPPED_TEXT: &str =
    r#"{"board":{"food":[],"food_chance":0,"height":5,"min_food":0,"mode":"wrapped","over":false,"snakes":[{"body":[{"x":3,"y":1},{"x":3,"y":1},{"x":3,"y":1}],"by":null,"cause":null,"health":100,"id":"s","out":null},{"body":[{"x":3,"y":3},{"x":3,"y":3},{"x":3,"y":3}],"by":null,"cause":null,"health":100,"id":"t","out":null}],"turn":0,"width":5},"charge":48,"do":"new","game":"a","seq":1}
{"board":{"food":[],"food_chance":0,"height":5,"min_food":0,"mode":"wrapped","over":false,"snakes":[{"body":[{"x":4,"y":1},{"x":3,"y":1},{"x":3,"y":1}],"by":null,"cause":null,"health":99,"id":"s","out":null},{"body":[{"x":4,"y":3},{"x":3,"y":3},{"x":3,"y":3}],"by":null,"cause":null,"health":99,"id":"t","out":null}],"turn":1,"width":5},"charge":96,"do":"move","game":"a","seq":2}
{"board":{"food":[],"food_chance":0,"height":5,"min_food":0,"mode":"wrapped","over":false,"snakes":[{"body":[{"x":0,"y":1},{"x":4,"y":1},{"x":3,"y":1}],"by":null,"cause":null,"health":98,"id":"s","out":null},{"body":[{"x":0,"y":3},{"x":4,"y":3},{"x":3,"y":3}],"by":null,"cause":null,"health":98,"id":"t","out":null}],"turn":2,"width":5},"charge":144,"do":"move","game":"a","seq":3}
{"board":{"food":[],"food_chance":0,"height":5,"min_food":0,"mode":"wrapped","over":false,"snakes":[{"body":[{"x":1,"y":1},{"x":0,"y":1},{"x":4,"y":1}],"by":null,"cause":null,"health":97,"id":"s","out":null},{"body":[{"x":1,"y":3},{"x":0,"y":3},{"x":4,"y":3}],"by":null,"cause":null,"health":97,"id":"t","out":null}],"turn":3,"width":5},"charge":192,"do":"move","game":"a","seq":4}
{"board":{"food":[],"food_chance":0,"height":5,"min_food":0,"mode":"wrapped","over":false,"snakes":[{"body":[{"x":1,"y":1},{"x":0,"y":1},{"x":4,"y":1}],"by":null,"cause":null,"health":97,"id":"s","out":null},{"body":[{"x":1,"y":3},{"x":0,"y":3},{"x":4,"y":3}],"by":null,"cause":null,"health":97,"id":"t","out":null}],"turn":3,"width":5},"charge":192,"final":true,"game":"a"}
"#;

/// The transcript of the same lines in version 1, which has no such mode.
pub const WRAPPED_TOO_EARLY_TEXT: &str = r#"{"game":"a","no":"G1","seq":1,"why":"command"}
{"game":"a","no":"G2","seq":2,"why":"none"}
{"game":"a","no":"G2","seq":3,"why":"none"}
{"game":"a","no":"G2","seq":4,"why":"none"}
{"board":null,"charge":0,"final":true,"game":"a"}
"#;

/// A game of one snake, and lines that are not JSON, of no game of the plan, or no command.
pub const SOLO_STRAYS: &str = r#"{"games":[{"game":"a","quota":4096}]}
{"game":"a","do":"new","mode":"solo","width":3,"height":3,"snakes":[{"id":"s","x":1,"y":1}],"food":[],"min_food":0,"food_chance":0}
{oops
{"game":"z","do":"show"}
{"game":"a","do":"jump"}
{"game":"a","do":"show"}
"#;

pub const SOLO_STRAYS_TEXT: &str =
    r#"{"board":{"food":[],"food_chance":0,"height":3,"min_food":0,"mode":"solo","over":false,"snakes":[{"body":[{"x":1,"y":1},{"x":1,"y":1},{"x":1,"y":1}],"by":null,"cause":null,"health":100,"id":"s","out":null}],"turn":0,"width":3},"charge":32,"do":"new","game":"a","seq":1}
{"game":"a","no":"G1","seq":2,"why":"command"}
{"board":{"food":[],"food_chance":0,"height":3,"min_food":0,"mode":"solo","over":false,"snakes":[{"body":[{"x":1,"y":1},{"x":1,"y":1},{"x":1,"y":1}],"by":null,"cause":null,"health":100,"id":"s","out":null}],"turn":0,"width":3},"charge":32,"do":"show","game":"a","seq":3}
{"board":{"food":[],"food_chance":0,"height":3,"min_food":0,"mode":"solo","over":false,"snakes":[{"body":[{"x":1,"y":1},{"x":1,"y":1},{"x":1,"y":1}],"by":null,"cause":null,"health":100,"id":"s","out":null}],"turn":0,"width":3},"charge":32,"final":true,"game":"a"}
{"line":3,"no":"L1","why":"json"}
{"line":4,"no":"L2","why":"game"}
"#;
