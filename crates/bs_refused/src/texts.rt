//! Lines that are parsed and written, the text of a transcript, and the cut of a file.
use crate::fault::Fault;
use crate::scene::Question;
use crate::values::{kept_of, shown_reply, solo};
use bs_board::{Board, Id, Plan, Refusal, Reply, Version, Word};
use bs_host::cut;
use bs_json::{
    Line, Stray, TextBuffer, board_value, final_line, push_reply_line, read_line, read_plan,
    reply_line, stray_line,
};
use bs_transcript::{Section, text};
use std::alloc::Global;

/// The number of blocks that the file is served with.
const BLOCKS: usize = 24;

/// Games that are admitted and leave, and a line of each kind.
pub const FILE: &str = r#"{"games":[{"game":"a","quota":64},{"game":"b","quota":4096}],"version":3}
{"game":"a","do":"new","mode":"solo","width":5,"height":5,"snakes":[{"id":"s","x":1,"y":1}],"food":[],"min_food":0,"food_chance":0}
{"game":"b","do":"new","mode":"wrapped","width":7,"height":7,"snakes":[{"id":"s","x":1,"y":1},{"id":"t","x":5,"y":1}],"food":[{"x":1,"y":2}]}
{"game":"a","do":"move","moves":{"s":"up","t":"left"},"words":[5,4294967295]}
{ "game" : "b", "words" : [ 7 ], "moves" : { "\u0074" : "down" }, "do" : "move" }
{"game":"a","do":"turn","at":10000}
{"game":"b","do":"jump"}
{"game":"b","do":"leave"}
{"game":"b","do":"admit","quota":64}
{"do":"admit","game":"c","quota":1}
{"do":"leave"}
{"game":"b","do":"show"}
{"game":"z","do":"show"}
{oops"#;

fn text_of(bytes: Vec<u8>) -> Result<String, Fault> {
    match String::from_utf8(bytes) {
        Ok(text) => Ok(text),
        Err(_) => Err(Fault::NoText),
    }
}

pub fn two_replies(alloc: Global) -> Result<Vec<Reply>, Fault> {
    let shown = shown_reply(alloc)?;
    Ok(vec![in alloc; shown, Reply::Refused(Refusal::Over)]?)
}

pub fn last_board(alloc: Global) -> Result<Option<Board>, Fault> {
    Ok(Some(solo(alloc)?))
}

/// `read_plan`.
pub struct ReadPlan;

impl Question for ReadPlan {
    type On = &'static str;

    type Answer = Plan;

    fn call(alloc: Global, on: &&'static str) -> Result<Plan, Fault> {
        Ok(read_plan(alloc, on.as_bytes())?)
    }
}

/// `read_line`, of each line of the file.
pub struct ReadLines;

impl Question for ReadLines {
    type On = &'static str;

    type Answer = Vec<Line<'static>>;

    fn call(alloc: Global, on: &&'static str) -> Result<Vec<Line<'static>>, Fault> {
        let mut lines = Vec::new(alloc);
        for line in on.lines() {
            lines.push(read_line(alloc, line.as_bytes(), Version::Three)?)?;
        }
        Ok(lines)
    }
}

/// `board_value`.
pub struct ShowBoard;

impl Question for ShowBoard {
    type On = Board;

    type Answer = String;

    fn call(alloc: Global, on: &Board) -> Result<String, Fault> {
        Ok(board_value(alloc, on)?.to_string(alloc)?)
    }
}

/// `reply_line`.
pub struct ReplyLine;

impl Question for ReplyLine {
    type On = Reply;

    type Answer = String;

    fn call(alloc: Global, on: &Reply) -> Result<String, Fault> {
        let game = Id::from_str(alloc, "a")?;
        text_of(reply_line(alloc, &game, 7, on)?)
    }
}

/// `TextBuffer::with_room`, for the line of a reply.
pub struct PushReply;

impl Question for PushReply {
    type On = Reply;

    type Answer = String;

    fn call(alloc: Global, on: &Reply) -> Result<String, Fault> {
        let game = Id::from_str(alloc, "a")?;
        let mut text = TextBuffer::with_room(alloc, 4096)?;
        push_reply_line(&game, 7, on, &mut text);
        text_of(text.into_vec())
    }
}

/// `final_line`.
pub struct FinalLine;

impl Question for FinalLine {
    type On = Option<Board>;

    type Answer = String;

    fn call(alloc: Global, on: &Option<Board>) -> Result<String, Fault> {
        let game = Id::from_str(alloc, "a")?;
        text_of(final_line(alloc, &game, on.as_ref(), 96)?)
    }
}

/// `stray_line`.
pub struct StrayLine;

impl Question for StrayLine {
    type On = Stray;

    type Answer = String;

    fn call(alloc: Global, on: &Stray) -> Result<String, Fault> {
        text_of(stray_line(alloc, 12, *on)?)
    }
}

/// Renders the text of a game with these replies and a last board.
fn whole_text(alloc: Global, replies: &[Reply]) -> Result<Vec<u8>, Fault> {
    let game = Id::from_str(alloc, "a")?;
    let kept = kept_of(alloc)?;
    let board = Some(&kept);
    let section = Section {
        name: &game,
        replies,
        board,
        charge: 96,
    };
    Ok(text(alloc, &[section], &[(3, Stray::Json)])?)
}

/// `text`.
pub struct WholeText;

impl Question for WholeText {
    type On = Vec<Reply>;

    type Answer = String;

    fn call(alloc: Global, on: &Vec<Reply>) -> Result<String, Fault> {
        text_of(whole_text(alloc, on.as_slice())?)
    }
}

/// `cut`, to that stay of the game.
pub struct Cutting;

impl Question for Cutting {
    type On = (&'static str, usize);

    type Answer = String;

    fn call(alloc: Global, on: &(&'static str, usize)) -> Result<String, Fault> {
        text_of(cut(alloc, FILE.as_bytes(), BLOCKS, on.0, on.1)?)
    }
}
