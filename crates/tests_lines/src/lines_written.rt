//! The lines of replies, final boards and strays.
use bs_board::{Board, Cause, Id, KeptBoard, Mode, Refusal, Reply, Snake, Snakes, Word, is_legal};
use bs_json::{
    Stray, TextBuffer, board_value, final_line, final_line_bound, push_final_line, push_reply_line,
    push_stray_line, reply_line, reply_line_bound, stray_line, stray_line_bound,
};
use bs_samples::{cells, holds, same, snake, solo_after};
use std::alloc::{AllocError, Global};
use std::test::Fail;

/// Compares written bytes with a text.
fn is_text(what: &str, written: Vec<u8>, wanted: &str) -> Result<(), Fail> {
    let text = String::from_utf8(written).ok().ok_or("text")?;
    same(what, text.as_str(), wanted)
}

// Makes the line of each reply with its number, by itself.
fn lines_of(alloc: Global, game: &Id, replies: &[(u64, Reply)]) -> Result<Vec<u8>, AllocError> {
    let mut text = Vec::new(alloc);
    for (seq, reply) in replies {
        text.extend_from_slice(&reply_line(alloc, game, *seq, reply)?)?;
    }
    Ok(text)
}

fn push_lines(game: &Id, replies: &[(u64, Reply)], text: &mut TextBuffer) {
    for (seq, reply) in replies {
        push_reply_line(game, *seq, reply, text);
    }
}

// The same lines, counted first and then pushed one after the other.
fn pushed_lines_of(
    alloc: Global,
    game: &Id,
    replies: &[(u64, Reply)],
) -> Result<Vec<u8>, AllocError> {
    let mut counted = TextBuffer::new(alloc);
    push_lines(game, replies, &mut counted);
    let mut text = TextBuffer::with_room(alloc, counted.missing())?;
    push_lines(game, replies, &mut text);
    Ok(text.into_vec())
}

// Compares the lines of replies, made in both ways, with a text.
fn are_written(
    alloc: Global,
    game: &str,
    replies: &[(u64, Reply)],
    wanted: &str,
) -> Result<(), Fail> {
    let game = Id::from_str(alloc, game)?;
    is_text("lines", lines_of(alloc, &game, replies)?, wanted)?;
    is_text(
        "pushed lines",
        pushed_lines_of(alloc, &game, replies)?,
        wanted,
    )
}

// The replies of a game of one snake that goes up until it is off the board.
const SOLO_REPLIES: &str =
    r#"{"board":{"food":[],"food_chance":0,"height":3,"min_food":0,"mode":"solo","over":false,"snakes":[{"body":[{"x":1,"y":1},{"x":1,"y":1},{"x":1,"y":1}],"by":null,"cause":null,"health":100,"id":"s","out":null}],"turn":0,"width":3},"charge":32,"do":"new","game":"a","seq":1}
{"board":{"food":[],"food_chance":0,"height":3,"min_food":0,"mode":"solo","over":false,"snakes":[{"body":[{"x":1,"y":2},{"x":1,"y":1},{"x":1,"y":1}],"by":null,"cause":null,"health":99,"id":"s","out":null}],"turn":1,"width":3},"charge":64,"do":"move","game":"a","seq":2}
{"board":{"food":[],"food_chance":0,"height":3,"min_food":0,"mode":"solo","over":true,"snakes":[{"body":[{"x":1,"y":3},{"x":1,"y":2},{"x":1,"y":1}],"by":null,"cause":"wall-collision","health":98,"id":"s","out":2}],"turn":2,"width":3},"charge":96,"do":"move","game":"a","seq":3}
{"game":"a","no":"G4","seq":4,"why":"over"}
"#;

const SOLO_END: &str =
    r#"{"board":{"food":[],"food_chance":0,"height":3,"min_food":0,"mode":"solo","over":true,"snakes":[{"body":[{"x":1,"y":3},{"x":1,"y":2},{"x":1,"y":1}],"by":null,"cause":"wall-collision","health":98,"id":"s","out":2}],"turn":2,"width":3},"charge":96,"final":true,"game":"a"}
"#;

fn shown(alloc: Global, word: Word, board: &Board, charge: u32) -> Result<Reply, Fail> {
    holds("the board is legal", is_legal(board))?;
    Ok(Reply::Shown(word, KeptBoard::of(alloc, board)?, charge))
}

#[test]
fn a_solo_game_is_written(rt: HostRuntime) -> Result<(), Fail> {
    let alloc = rt.alloc();
    let replies = [
        (1, shown(alloc, Word::New, &solo_after(alloc, 3, 0)?, 32)?),
        (2, shown(alloc, Word::Move, &solo_after(alloc, 3, 1)?, 64)?),
        (3, shown(alloc, Word::Move, &solo_after(alloc, 3, 2)?, 96)?),
        (4, Reply::Refused(Refusal::Over)),
    ];
    are_written(alloc, "a", &replies, SOLO_REPLIES)
}

#[test]
fn a_last_board_is_written(rt: HostRuntime) -> Result<(), Fail> {
    let alloc = rt.alloc();
    let game = Id::from_str(alloc, "a")?;
    let board = solo_after(alloc, 3, 2)?;
    let end = final_line(alloc, &game, Some(&board), 96)?;
    is_text("the last board", end, SOLO_END)?;
    holds("the board is legal", is_legal(&board))?;
    let kept = KeptBoard::of(alloc, &board)?;
    is_text(
        "pushed",
        pushed_final(alloc, &game, Some(&kept), 96)?,
        SOLO_END,
    )?;
    let game = Id::from_str(alloc, "a\"")?;
    let end = final_line(alloc, &game, None, 0)?;
    is_text("no board", end, NO_BOARD)?;
    is_text("pushed", pushed_final(alloc, &game, None, 0)?, NO_BOARD)
}

// Makes a final line in an empty buffer with ample room.
fn pushed_final(
    alloc: Global,
    game: &Id,
    board: Option<&KeptBoard>,
    charge: u32,
) -> Result<Vec<u8>, AllocError> {
    let mut text = TextBuffer::with_room(alloc, 4096)?;
    push_final_line(game, board, charge, &mut text);
    Ok(text.into_vec())
}

const NO_BOARD: &str = r#"{"board":null,"charge":0,"final":true,"game":"a\""}
"#;

// Makes a board with sides of two digits: a snake that left it, one that collided with that, and
// one that is alive.
fn wide_board(alloc: Global, first: &str) -> Result<Board, AllocError> {
    let mut outside = snake(alloc, first, 7, &[(-1, 12), (0, 12), (1, 12)])?;
    outside.cause = Some(Cause::WallCollision);
    outside.out = Some(100);
    let mut struck = snake(alloc, "b", 100, &[(10, 9), (9, 9), (9, 10), (10, 10)])?;
    struck.cause = Some(Cause::BodyCollision);
    struck.killer = Some(0);
    struck.out = Some(10_000);
    let living = snake(alloc, "c", 10, &[(18, 0), (17, 0), (17, 0)])?;
    Ok(Board {
        mode: Mode::Standard,
        width: 19,
        height: 19,
        turn: 10_000,
        min_food: 0,
        chance: 10,
        food: cells(alloc, &[(0, 0), (9, 10), (18, 18)])?,
        hazards: None,
        snakes: Snakes::from_vec(vec![in alloc; outside, struck, living]?),
    })
}

const WIDE_REPLY: &str =
    r#"{"board":{"food":[{"x":0,"y":0},{"x":9,"y":10},{"x":18,"y":18}],"food_chance":10,"height":19,"min_food":0,"mode":"standard","over":true,"snakes":[{"body":[{"x":-1,"y":12},{"x":0,"y":12},{"x":1,"y":12}],"by":null,"cause":"wall-collision","health":7,"id":"q","out":100},{"body":[{"x":10,"y":9},{"x":9,"y":9},{"x":9,"y":10},{"x":10,"y":10}],"by":"q","cause":"snake-collision","health":100,"id":"b","out":10000},{"body":[{"x":18,"y":0},{"x":17,"y":0},{"x":17,"y":0}],"by":null,"cause":null,"health":10,"id":"c","out":null}],"turn":10000,"width":19},"charge":4294967295,"do":"move","game":"a","seq":12}
"#;

const WIDE_REPLY_ESCAPED: &str =
    r#"{"board":{"food":[{"x":0,"y":0},{"x":9,"y":10},{"x":18,"y":18}],"food_chance":10,"height":19,"min_food":0,"mode":"standard","over":true,"snakes":[{"body":[{"x":-1,"y":12},{"x":0,"y":12},{"x":1,"y":12}],"by":null,"cause":"wall-collision","health":7,"id":"q\"","out":100},{"body":[{"x":10,"y":9},{"x":9,"y":9},{"x":9,"y":10},{"x":10,"y":10}],"by":"q\"","cause":"snake-collision","health":100,"id":"b","out":10000},{"body":[{"x":18,"y":0},{"x":17,"y":0},{"x":17,"y":0}],"by":null,"cause":null,"health":10,"id":"c","out":null}],"turn":10000,"width":19},"charge":4294967295,"do":"move","game":"a","seq":12}
"#;

// The board with an id that needs no escape, and with one that does.
#[test]
fn a_wide_board_is_written(rt: HostRuntime) -> Result<(), Fail> {
    let alloc = rt.alloc();
    let plain = [(
        12,
        shown(alloc, Word::Move, &wide_board(alloc, "q")?, u32::MAX)?,
    )];
    are_written(alloc, "a", &plain, WIDE_REPLY)?;
    let escaped = [(
        12,
        shown(alloc, Word::Move, &wide_board(alloc, "q\"")?, u32::MAX)?,
    )];
    are_written(alloc, "a", &escaped, WIDE_REPLY_ESCAPED)
}

// Food in every column and every row of the largest board.
const EVERYWHERE: [(i16, i16); 25] = [
    (0, 24),
    (1, 23),
    (2, 22),
    (3, 21),
    (4, 20),
    (5, 19),
    (6, 18),
    (7, 17),
    (8, 16),
    (9, 15),
    (10, 14),
    (11, 13),
    (12, 12),
    (13, 11),
    (14, 10),
    (15, 9),
    (16, 8),
    (17, 7),
    (18, 6),
    (19, 5),
    (20, 4),
    (21, 3),
    (22, 2),
    (23, 1),
    (24, 0),
];

// Makes a board with that food, a snake that left it on the right, and one that is alive.
fn largest_board(alloc: Global) -> Result<Board, AllocError> {
    let mut outside = snake(alloc, "a", 97, &[(25, 9), (24, 9), (24, 10)])?;
    outside.cause = Some(Cause::WallCollision);
    outside.out = Some(3);
    let living = snake(alloc, "b", 97, &[(3, 24), (2, 24), (1, 24)])?;
    Ok(Board {
        mode: Mode::Standard,
        width: 25,
        height: 25,
        turn: 3,
        min_food: 0,
        chance: 0,
        food: cells(alloc, &EVERYWHERE)?,
        hazards: None,
        snakes: Snakes::from_vec(vec![in alloc; outside, living]?),
    })
}

const LARGEST_REPLY: &str =
    r#"{"board":{"food":[{"x":0,"y":24},{"x":1,"y":23},{"x":2,"y":22},{"x":3,"y":21},{"x":4,"y":20},{"x":5,"y":19},{"x":6,"y":18},{"x":7,"y":17},{"x":8,"y":16},{"x":9,"y":15},{"x":10,"y":14},{"x":11,"y":13},{"x":12,"y":12},{"x":13,"y":11},{"x":14,"y":10},{"x":15,"y":9},{"x":16,"y":8},{"x":17,"y":7},{"x":18,"y":6},{"x":19,"y":5},{"x":20,"y":4},{"x":21,"y":3},{"x":22,"y":2},{"x":23,"y":1},{"x":24,"y":0}],"food_chance":0,"height":25,"min_food":0,"mode":"standard","over":true,"snakes":[{"body":[{"x":25,"y":9},{"x":24,"y":9},{"x":24,"y":10}],"by":null,"cause":"wall-collision","health":97,"id":"a","out":3},{"body":[{"x":3,"y":24},{"x":2,"y":24},{"x":1,"y":24}],"by":null,"cause":null,"health":97,"id":"b","out":null}],"turn":3,"width":25},"charge":99,"do":"move","game":"a","seq":4}
"#;

#[test]
fn every_column_and_row_is_written(rt: HostRuntime) -> Result<(), Fail> {
    let alloc = rt.alloc();
    let replies = [(4, shown(alloc, Word::Move, &largest_board(alloc)?, 99)?)];
    are_written(alloc, "a", &replies, LARGEST_REPLY)
}

// The replies that show no board, of a game whose name needs an escape, then of one whose name
// needs none.
const PLAIN_REPLIES: &str = r#"{"charge":0,"do":"end","game":"a\"","seq":3}
{"charge":32,"do":"free","game":"a\"","seq":3}
{"game":"a\"","no":"G1","seq":3,"why":"command"}
{"game":"a\"","no":"G2","seq":3,"why":"none"}
{"game":"a\"","no":"G3","seq":3,"why":"running"}
{"game":"a\"","no":"G5","seq":3,"why":"limit"}
{"game":"a\"","no":"G6","seq":3,"why":"record"}
{"game":"a\"","no":"G7","seq":3,"why":"quota"}
"#;

const UNMARKED_REPLIES: &str = r#"{"charge":0,"do":"end","game":"a","seq":3}
{"charge":32,"do":"free","game":"a","seq":3}
{"game":"a","no":"G1","seq":3,"why":"command"}
{"game":"a","no":"G2","seq":3,"why":"none"}
{"game":"a","no":"G3","seq":3,"why":"running"}
{"game":"a","no":"G5","seq":3,"why":"limit"}
{"game":"a","no":"G6","seq":3,"why":"record"}
{"game":"a","no":"G7","seq":3,"why":"quota"}
"#;

fn plain_replies() -> [(u64, Reply); 8] {
    [
        (3, Reply::Plain(Word::End, 0)),
        (3, Reply::Plain(Word::Free, 32)),
        (3, Reply::Refused(Refusal::Unknown)),
        (3, Reply::Refused(Refusal::NoGame)),
        (3, Reply::Refused(Refusal::Running)),
        (3, Reply::Refused(Refusal::Limit)),
        (3, Reply::Refused(Refusal::NoRecord)),
        (3, Reply::Refused(Refusal::Quota)),
    ]
}

#[test]
fn replies_without_a_board_are_written(rt: HostRuntime) -> Result<(), Fail> {
    are_written(rt.alloc(), "a\"", &plain_replies(), PLAIN_REPLIES)?;
    are_written(rt.alloc(), "a", &plain_replies(), UNMARKED_REPLIES)
}

// Replies with the largest numbers.
const GREATEST: &str = r#"{"charge":4294967295,"do":"end","game":"a\"","seq":18446744073709551615}
{"game":"a\"","no":"G4","seq":18446744073709551615,"why":"over"}
"#;

#[test]
fn the_greatest_numbers_are_written(rt: HostRuntime) -> Result<(), Fail> {
    let replies = [
        (u64::MAX, Reply::Plain(Word::End, u32::MAX)),
        (u64::MAX, Reply::Refused(Refusal::Over)),
    ];
    are_written(rt.alloc(), "a\"", &replies, GREATEST)
}

const STRAYS: &str = r#"{"line":2,"no":"L1","why":"json"}
{"line":4,"no":"L2","why":"game"}
{"line":18446744073709551615,"no":"L3","why":"long"}
{"line":3,"no":"A1","why":"admit"}
{"line":5,"no":"A2","why":"open"}
{"line":6,"no":"A3","why":"games"}
{"line":7,"no":"A4","why":"pool"}
{"line":8,"no":"A5","why":"none"}
"#;

#[test]
fn strays_are_written(rt: HostRuntime) -> Result<(), Fail> {
    let mut text = Vec::new(rt.alloc());
    let mut pushed = TextBuffer::with_room(rt.alloc(), 4096)?;
    for (line, stray) in [
        (2, Stray::Json),
        (4, Stray::Game),
        (u64::MAX, Stray::Long),
        (3, Stray::BadRow),
        (5, Stray::NameOpen),
        (6, Stray::Full),
        (7, Stray::Short),
        (8, Stray::NoStay),
    ] {
        text.extend_from_slice(&stray_line(rt.alloc(), line, stray)?)?;
        push_stray_line(line, stray, &mut pushed);
    }
    is_text("strays", text, STRAYS)?;
    is_text("pushed strays", pushed.into_vec(), STRAYS)
}

/// A line has at most 246 bytes, 6 for each byte of the game's name, 10 for the charge, and for a
/// board 16,384 and 10 for each byte of its record, here 26.
#[test]
fn lines_are_bounded(rt: HostRuntime) -> Result<(), Fail> {
    let alloc = rt.alloc();
    let game = Id::from_str(alloc, "solo")?;
    let board = solo_after(alloc, 3, 0)?;
    holds("the board is legal", is_legal(&board))?;
    let board = KeptBoard::of(alloc, &board)?;
    let last = final_line_bound(&game, Some(&board), 4);
    same("a final line", last, Some(16_924))?;
    let none = final_line_bound(&game, None, 4);
    same("a final line without a board", none, Some(284))?;
    let shown = Reply::Shown(Word::Show, board, 4);
    let shown = reply_line_bound(&game, 1, &shown);
    same("a board", shown, Some(16_924))?;
    let plain = reply_line_bound(&game, 1, &Reply::Plain(Word::End, 4));
    same("no board", plain, Some(280))?;
    let refused = reply_line_bound(&game, 1, &Reply::Refused(Refusal::Over));
    same("a refusal", refused, Some(270))?;
    same("a stray line", stray_line_bound(2, Stray::Json), 256)
}

// Of the control characters five have a short escape; a delete, a slash and what is not ASCII have
// none.
const MARKED: &str = "\u{8}\u{c}\n\r\t\"\\\u{0}\u{1f}\u{7f}/é\u{10348}";

const MARKED_REPLY: &str = concat!(
    r#"{"charge":0,"do":"end","game":"\b\f\n\r\t\"\\\u0000\u001f"#,
    "\u{7f}/é\u{10348}",
    r#"","seq":1}
"#
);

#[test]
fn marks_are_escaped(rt: HostRuntime) -> Result<(), Fail> {
    let replies = [(1, Reply::Plain(Word::End, 0))];
    are_written(rt.alloc(), MARKED, &replies, MARKED_REPLY)
}

#[test]
fn a_buffer_keeps_to_its_room(rt: HostRuntime) -> Result<(), Fail> {
    let mut text = TextBuffer::with_room(rt.alloc(), 5)?;
    text.push(b"abc");
    same("what is left", text.left(), 2)?;
    text.push(b"defg");
    text.push(b"h");
    same("the text", text.as_slice(), b"abcde".as_slice())?;
    same("what is missing", text.missing(), 3)?;
    text.clear();
    same("what is left", text.left(), 5)?;
    same("what is missing", text.missing(), 0)
}

fn out(
    alloc: Global,
    id: &str,
    health: u8,
    (cause, killer): (Cause, Option<usize>),
    turn: u16,
) -> Result<Snake, AllocError> {
    let mut snake = snake(alloc, id, health, &[(-1, 2), (0, 2), (1, 2)])?;
    snake.cause = Some(cause);
    snake.killer = killer;
    snake.out = Some(turn);
    Ok(snake)
}

// Makes a snake for each cause of elimination, and one that is alive.
fn seats_of_all_causes(alloc: Global) -> Result<Vec<Snake>, AllocError> {
    let mut seats = Vec::new(alloc);
    seats.push(out(alloc, "a", 0, (Cause::OutOfHealth, None), 9)?)?;
    seats.push(out(alloc, "b", 90, (Cause::WallCollision, None), 10)?)?;
    seats.push(out(alloc, "c", 91, (Cause::SelfCollision, Some(2)), 11)?)?;
    seats.push(out(alloc, "d", 92, (Cause::BodyCollision, Some(0)), 11)?)?;
    seats.push(out(alloc, "e", 93, (Cause::HeadCollision, Some(3)), 11)?)?;
    seats.push(snake(alloc, "f", 94, &[(4, 0), (4, 1)])?)?;
    Ok(seats)
}

const ALL_CAUSES: &str = concat!(
    r#"{"food":[{"x":0,"y":3},{"x":2,"y":0}],"food_chance":15,"height":4,"min_food":3,"mode":"standard","over":true,"snakes":["#,
    r#"{"body":[{"x":-1,"y":2},{"x":0,"y":2},{"x":1,"y":2}],"by":null,"cause":"out-of-health","health":0,"id":"a","out":9},"#,
    r#"{"body":[{"x":-1,"y":2},{"x":0,"y":2},{"x":1,"y":2}],"by":null,"cause":"wall-collision","health":90,"id":"b","out":10},"#,
    r#"{"body":[{"x":-1,"y":2},{"x":0,"y":2},{"x":1,"y":2}],"by":"c","cause":"snake-self-collision","health":91,"id":"c","out":11},"#,
    r#"{"body":[{"x":-1,"y":2},{"x":0,"y":2},{"x":1,"y":2}],"by":"a","cause":"snake-collision","health":92,"id":"d","out":11},"#,
    r#"{"body":[{"x":-1,"y":2},{"x":0,"y":2},{"x":1,"y":2}],"by":"d","cause":"head-collision","health":93,"id":"e","out":11},"#,
    r#"{"body":[{"x":4,"y":0},{"x":4,"y":1}],"by":null,"cause":null,"health":94,"id":"f","out":null}],"turn":11,"width":5}"#
);

#[test]
fn a_board_is_shown(rt: HostRuntime) -> Result<(), Fail> {
    let alloc = rt.alloc();
    let board = Board {
        mode: Mode::Standard,
        width: 5,
        height: 4,
        turn: 11,
        min_food: 3,
        chance: 15,
        food: cells(alloc, &[(0, 3), (2, 0)])?,
        hazards: None,
        snakes: Snakes::from_vec(seats_of_all_causes(alloc)?),
    };
    let shown = board_value(alloc, &board)?.to_string(alloc)?;
    same("the board", shown.as_str(), ALL_CAUSES)
}
