//! The scenes, each a test that is named for its calls.
use crate::apart::{OpenAgain, TakeApart, play_apart};
use crate::assembly::{IntoBlocks, PutTogether, play_from_blocks};
use crate::blocks::{NewBlock, NewHeap, OpenPool, play_grow_index, play_reserve};
use crate::boards::{
    CopyBoard, CopyCommand, CopyId, CopyPlan, CopyReply, DecodeSnake, Decoding, Encoding, Keep,
    KeepBytes, MakeId, OpenRows, PushCells, PushMoves, Unkeep, id_of, new_of, orders_of,
};
use crate::cores::{OpenCore, OpenTally, play_core, play_here, play_stays};
use crate::games::{Answered, Joined, first_new, first_turn, new_while_running, of_running};
use crate::jobs::{play_failed, worked};
use crate::live::PlayStay;
use crate::page::Page;
use crate::play::commands;
use crate::scene::ask;
use crate::texts::{
    Cutting, FILE, FinalLine, PushReply, ReadLines, ReadPlan, ReplyLine, ShowBoard, StrayLine,
    WholeText, last_board, two_replies,
};
use crate::turns::{
    Feeding, FinishTurn, FirstBoard, FreeCells, Growing, MoveSnake, NextBoard, Spawning, meeting,
};
use crate::values::{
    LONG_NAME, ON_HAZARDS, TWO_HEADS, bytes_of, kept_of, new_solo, on_hazards, plan_of,
    shown_reply, solo, three_orders, two_heads,
};
use bs_board::{Command, Mode, Refusal, Reply, Word};
use bs_json::Stray;
use bs_samples::straight_on;
use std::env;
use std::test::Fail;

/// Makes the page of a scene. `REFUSING_MARKS` is set when `tests/refused_calls` plays it.
fn page_of(rt: &HostRuntime) -> Page {
    let is_watched = env::var(rt, "REFUSING_MARKS").is_ok();
    Page::new(rt.alloc(), rt.stdout(), rt.stderr(), is_watched)
}

#[test]
fn block(rt: HostRuntime) -> Result<(), Fail> {
    ask::<NewBlock>(page_of(&rt), ())
}

#[test]
fn pool(rt: HostRuntime) -> Result<(), Fail> {
    ask::<OpenPool>(page_of(&rt), 12)
}

#[test]
fn reserve(rt: HostRuntime) -> Result<(), Fail> {
    let mut page = page_of(&rt);
    play_reserve(&mut page)?;
    page.close()
}

#[test]
fn into_blocks(rt: HostRuntime) -> Result<(), Fail> {
    ask::<IntoBlocks>(page_of(&rt), 3)
}

#[test]
fn from_blocks(rt: HostRuntime) -> Result<(), Fail> {
    let mut page = page_of(&rt);
    play_from_blocks(&mut page)?;
    page.close()
}

#[test]
fn put_together(rt: HostRuntime) -> Result<(), Fail> {
    ask::<PutTogether>(page_of(&rt), ())
}

#[test]
fn heap(rt: HostRuntime) -> Result<(), Fail> {
    ask::<NewHeap>(page_of(&rt), 4096)
}

#[test]
fn grow_index(rt: HostRuntime) -> Result<(), Fail> {
    let mut page = page_of(&rt);
    play_grow_index(&mut page)?;
    page.close()
}

#[test]
fn id(rt: HostRuntime) -> Result<(), Fail> {
    ask::<MakeId>(page_of(&rt), LONG_NAME)
}

#[test]
fn cells(rt: HostRuntime) -> Result<(), Fail> {
    ask::<PushCells>(page_of(&rt), 5)
}

#[test]
fn decode(rt: HostRuntime) -> Result<(), Fail> {
    let alloc = rt.alloc();
    ask::<Decoding>(page_of(&rt), bytes_of(alloc, &TWO_HEADS)?)
}

#[test]
fn decode_hazards(rt: HostRuntime) -> Result<(), Fail> {
    let alloc = rt.alloc();
    ask::<Decoding>(page_of(&rt), bytes_of(alloc, &ON_HAZARDS)?)
}

#[test]
fn decode_snake(rt: HostRuntime) -> Result<(), Fail> {
    let alloc = rt.alloc();
    ask::<DecodeSnake>(page_of(&rt), bytes_of(alloc, &TWO_HEADS[13..28])?)
}

#[test]
fn encode(rt: HostRuntime) -> Result<(), Fail> {
    let alloc = rt.alloc();
    ask::<Encoding>(page_of(&rt), on_hazards(alloc)?)
}

#[test]
fn keep(rt: HostRuntime) -> Result<(), Fail> {
    let alloc = rt.alloc();
    ask::<Keep>(page_of(&rt), two_heads(alloc)?)
}

#[test]
fn unkeep(rt: HostRuntime) -> Result<(), Fail> {
    let alloc = rt.alloc();
    ask::<Unkeep>(page_of(&rt), kept_of(alloc)?)
}

#[test]
fn keep_bytes(rt: HostRuntime) -> Result<(), Fail> {
    let alloc = rt.alloc();
    ask::<KeepBytes>(page_of(&rt), two_heads(alloc)?)
}

#[test]
fn copy_id(rt: HostRuntime) -> Result<(), Fail> {
    let alloc = rt.alloc();
    ask::<CopyId>(page_of(&rt), id_of(alloc)?)
}

#[test]
fn copy_board(rt: HostRuntime) -> Result<(), Fail> {
    let alloc = rt.alloc();
    ask::<CopyBoard>(page_of(&rt), on_hazards(alloc)?)
}

#[test]
fn copy_reply(rt: HostRuntime) -> Result<(), Fail> {
    let alloc = rt.alloc();
    ask::<CopyReply>(page_of(&rt), shown_reply(alloc)?)
}

#[test]
fn copy_new(rt: HostRuntime) -> Result<(), Fail> {
    let alloc = rt.alloc();
    ask::<CopyCommand>(page_of(&rt), new_of(alloc)?)
}

#[test]
fn copy_move(rt: HostRuntime) -> Result<(), Fail> {
    let alloc = rt.alloc();
    ask::<CopyCommand>(page_of(&rt), orders_of(alloc)?)
}

#[test]
fn push_moves(rt: HostRuntime) -> Result<(), Fail> {
    let alloc = rt.alloc();
    ask::<PushMoves>(page_of(&rt), three_orders(alloc)?)
}

#[test]
fn copy_plan(rt: HostRuntime) -> Result<(), Fail> {
    let alloc = rt.alloc();
    ask::<CopyPlan>(page_of(&rt), plan_of(alloc, &[LONG_NAME])?)
}

#[test]
fn open_rows(rt: HostRuntime) -> Result<(), Fail> {
    let alloc = rt.alloc();
    ask::<OpenRows>(page_of(&rt), plan_of(alloc, &[LONG_NAME])?)
}

#[test]
fn start_solo(rt: HostRuntime) -> Result<(), Fail> {
    let alloc = rt.alloc();
    ask::<FirstBoard>(page_of(&rt), new_solo(alloc, Mode::Solo)?)
}

#[test]
fn start_constrictor(rt: HostRuntime) -> Result<(), Fail> {
    let alloc = rt.alloc();
    ask::<FirstBoard>(page_of(&rt), new_solo(alloc, Mode::Constrictor)?)
}

#[test]
fn grow(rt: HostRuntime) -> Result<(), Fail> {
    let alloc = rt.alloc();
    ask::<Growing>(page_of(&rt), two_heads(alloc)?)
}

#[test]
fn free_cells(rt: HostRuntime) -> Result<(), Fail> {
    let alloc = rt.alloc();
    ask::<FreeCells>(page_of(&rt), two_heads(alloc)?)
}

#[test]
fn spawn(rt: HostRuntime) -> Result<(), Fail> {
    let alloc = rt.alloc();
    ask::<Spawning>(page_of(&rt), two_heads(alloc)?)
}

#[test]
fn move_snake(rt: HostRuntime) -> Result<(), Fail> {
    let alloc = rt.alloc();
    ask::<MoveSnake>(page_of(&rt), two_heads(alloc)?)
}

#[test]
fn feed(rt: HostRuntime) -> Result<(), Fail> {
    let alloc = rt.alloc();
    ask::<Feeding>(page_of(&rt), meeting(alloc)?)
}

#[test]
fn finish_turn(rt: HostRuntime) -> Result<(), Fail> {
    let alloc = rt.alloc();
    ask::<FinishTurn>(page_of(&rt), meeting(alloc)?)
}

#[test]
fn turn_solo(rt: HostRuntime) -> Result<(), Fail> {
    let alloc = rt.alloc();
    ask::<NextBoard>(page_of(&rt), solo(alloc)?)
}

#[test]
fn turn(rt: HostRuntime) -> Result<(), Fail> {
    let alloc = rt.alloc();
    ask::<NextBoard>(page_of(&rt), two_heads(alloc)?)
}

#[test]
fn turn_on_hazards(rt: HostRuntime) -> Result<(), Fail> {
    let alloc = rt.alloc();
    ask::<NextBoard>(page_of(&rt), on_hazards(alloc)?)
}

#[test]
fn joined(rt: HostRuntime) -> Result<(), Fail> {
    let alloc = rt.alloc();
    ask::<Joined>(page_of(&rt), solo(alloc)?)
}

#[test]
fn answer_new(rt: HostRuntime) -> Result<(), Fail> {
    let alloc = rt.alloc();
    ask::<Answered>(page_of(&rt), first_new(alloc)?)
}

#[test]
fn answer_running(rt: HostRuntime) -> Result<(), Fail> {
    let alloc = rt.alloc();
    ask::<Answered>(page_of(&rt), new_while_running(alloc)?)
}

#[test]
fn answer_move(rt: HostRuntime) -> Result<(), Fail> {
    let alloc = rt.alloc();
    ask::<Answered>(page_of(&rt), of_running(alloc, straight_on(alloc))?)
}

#[test]
fn answer_show(rt: HostRuntime) -> Result<(), Fail> {
    let alloc = rt.alloc();
    ask::<Answered>(page_of(&rt), of_running(alloc, Command::Show)?)
}

#[test]
fn answer_free(rt: HostRuntime) -> Result<(), Fail> {
    let alloc = rt.alloc();
    ask::<Answered>(page_of(&rt), of_running(alloc, Command::Free)?)
}

#[test]
fn answer_end(rt: HostRuntime) -> Result<(), Fail> {
    let alloc = rt.alloc();
    ask::<Answered>(page_of(&rt), of_running(alloc, Command::End)?)
}

#[test]
fn answer_turn(rt: HostRuntime) -> Result<(), Fail> {
    let alloc = rt.alloc();
    ask::<Answered>(page_of(&rt), first_turn(alloc)?)
}

#[test]
fn tally(rt: HostRuntime) -> Result<(), Fail> {
    ask::<OpenTally>(page_of(&rt), 4)
}

#[test]
fn open(rt: HostRuntime) -> Result<(), Fail> {
    ask::<OpenCore>(page_of(&rt), 6)
}

#[test]
fn core(rt: HostRuntime) -> Result<(), Fail> {
    let mut page = page_of(&rt);
    play_core(&mut page)?;
    page.close()
}

#[test]
fn core_here(rt: HostRuntime) -> Result<(), Fail> {
    let mut page = page_of(&rt);
    play_here(&mut page)?;
    page.close()
}

#[test]
fn taken_apart(rt: HostRuntime) -> Result<(), Fail> {
    ask::<TakeApart>(page_of(&rt), 13)
}

#[test]
fn alone(rt: HostRuntime) -> Result<(), Fail> {
    ask::<OpenAgain>(page_of(&rt), 6)
}

#[test]
fn apart(rt: HostRuntime) -> Result<(), Fail> {
    let mut page = page_of(&rt);
    play_apart(&rt, &mut page)?;
    page.close()
}

#[test]
fn stays(rt: HostRuntime) -> Result<(), Fail> {
    let mut page = page_of(&rt);
    play_stays(&mut page)?;
    page.close()
}

#[test]
fn live_stay(rt: HostRuntime) -> Result<(), Fail> {
    let alloc = rt.alloc();
    ask::<PlayStay>(page_of(&rt), commands(alloc)?)
}

#[test]
fn work(rt: HostRuntime) -> Result<(), Fail> {
    let mut page = page_of(&rt);
    worked(&mut page)?;
    page.close()
}

#[test]
fn failed(rt: HostRuntime) -> Result<(), Fail> {
    let mut page = page_of(&rt);
    play_failed(&mut page)?;
    page.close()
}

#[test]
fn read_plan(rt: HostRuntime) -> Result<(), Fail> {
    ask::<ReadPlan>(page_of(&rt), FILE.lines().next().ok_or("a line")?)
}

#[test]
fn read_line(rt: HostRuntime) -> Result<(), Fail> {
    ask::<ReadLines>(page_of(&rt), FILE)
}

#[test]
fn cut_planned(rt: HostRuntime) -> Result<(), Fail> {
    ask::<Cutting>(page_of(&rt), ("a", 1))
}

#[test]
fn cut_admitted(rt: HostRuntime) -> Result<(), Fail> {
    ask::<Cutting>(page_of(&rt), ("b", 2))
}

#[test]
fn board_value(rt: HostRuntime) -> Result<(), Fail> {
    let alloc = rt.alloc();
    ask::<ShowBoard>(page_of(&rt), solo(alloc)?)
}

#[test]
fn reply_shown(rt: HostRuntime) -> Result<(), Fail> {
    let alloc = rt.alloc();
    ask::<ReplyLine>(page_of(&rt), shown_reply(alloc)?)
}

#[test]
fn reply_plain(rt: HostRuntime) -> Result<(), Fail> {
    ask::<ReplyLine>(page_of(&rt), Reply::Plain(Word::End, 0))
}

#[test]
fn reply_refused(rt: HostRuntime) -> Result<(), Fail> {
    ask::<ReplyLine>(page_of(&rt), Reply::Refused(Refusal::Over))
}

#[test]
fn push_shown(rt: HostRuntime) -> Result<(), Fail> {
    let alloc = rt.alloc();
    ask::<PushReply>(page_of(&rt), shown_reply(alloc)?)
}

#[test]
fn push_refused(rt: HostRuntime) -> Result<(), Fail> {
    ask::<PushReply>(page_of(&rt), Reply::Refused(Refusal::Over))
}

#[test]
fn final_line(rt: HostRuntime) -> Result<(), Fail> {
    let alloc = rt.alloc();
    ask::<FinalLine>(page_of(&rt), last_board(alloc)?)
}

#[test]
fn final_none(rt: HostRuntime) -> Result<(), Fail> {
    ask::<FinalLine>(page_of(&rt), None)
}

#[test]
fn stray_line(rt: HostRuntime) -> Result<(), Fail> {
    ask::<StrayLine>(page_of(&rt), Stray::Json)
}

#[test]
fn stray_admit(rt: HostRuntime) -> Result<(), Fail> {
    ask::<StrayLine>(page_of(&rt), Stray::NameOpen)
}

#[test]
fn text(rt: HostRuntime) -> Result<(), Fail> {
    let alloc = rt.alloc();
    ask::<WholeText>(page_of(&rt), two_replies(alloc)?)
}
