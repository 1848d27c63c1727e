//! The lines of a transcript. All calls but `final_line` put a line together from pieces of text,
//! without a JSON value. Appending a line to a buffer allocates nothing.
ghost use Rattle.std.specs.Prelude.{◌≡◌, IfOk, decimal};
ghost use Rattle.std.specs.Option.{option_copied};
ghost use Rattle.json.specs.Print.{escape};
ghost use Rattle.serde_json.specs.Data.{string};
ghost use Rattle.serde_json.specs.Events.{SendsValue};
ghost use Rattle.serde_json.specs.View.{view};
ghost use Rattle.serde_json.specs.Written.{compact_text};
ghost use Rattle.bs_board.specs.declared.commands.reply.Reply.TheVariants.{Refused};
ghost use Rattle.bs_json.specs.Replies.{word_text, refusal_code, refusal_text, stray_code, stray_text, reply_data, last_data, final_data, stray_data, reply_line_of, final_line_of, stray_line_of};
ghost use Rattle.bs_json.specs.inner.Replies.{IsLineOf, answer_pieces, code_text, reason_text, seq_pieces, tail_pieces};
ghost use Rattle.bs_json.specs.Text.{put};

use crate::boards::board_value;
use crate::line::Stray;
use crate::pieces::{push_bytes, push_number, push_string};
use crate::shown_bytes::push_board;
use crate::text_buffer::TextBuffer;
use crate::written::{write_answer, write_seq};
use bs_board::{Board, Id, KeptBoard, Refusal, Reply, Word};
use serde_json::{Value, json};
use std::alloc::{AllocError, Global};

/// The text of a refusal between the game's name and the command's number.
#[tactic(auto, unfolding(json::specs::Print::escape_byte))]
fn code_piece(refusal: Refusal) -> &'static [u8; 18]
    ensures { result.now ≡ code_text refusal }
{
    match refusal {
        Refusal::Unknown => b"\",\"no\":\"G1\",\"seq\":",
        Refusal::NoGame => b"\",\"no\":\"G2\",\"seq\":",
        Refusal::Running => b"\",\"no\":\"G3\",\"seq\":",
        Refusal::Over => b"\",\"no\":\"G4\",\"seq\":",
        Refusal::Limit => b"\",\"no\":\"G5\",\"seq\":",
        Refusal::NoRecord => b"\",\"no\":\"G6\",\"seq\":",
        Refusal::Quota => b"\",\"no\":\"G7\",\"seq\":",
    }
}

/// The text of a refusal behind the command's number.
#[tactic(auto, unfolding(json::specs::Print::escape_byte))]
fn reason_piece(refusal: Refusal) -> &'static [u8]
    ensures { result.now ≡ reason_text refusal }
{
    match refusal {
        Refusal::Unknown => b",\"why\":\"command\"}",
        Refusal::NoGame => b",\"why\":\"none\"}",
        Refusal::Running => b",\"why\":\"running\"}",
        Refusal::Over => b",\"why\":\"over\"}",
        Refusal::Limit => b",\"why\":\"limit\"}",
        Refusal::NoRecord => b",\"why\":\"record\"}",
        Refusal::Quota => b",\"why\":\"quota\"}",
    }
}

fn stray_code(stray: Stray) -> &'static str
    ensures { result.now ≡ stray_code stray }
{
    match stray {
        Stray::Json => "L1",
        Stray::Game => "L2",
        Stray::Long => "L3",
        Stray::BadRow => "A1",
        Stray::NameOpen => "A2",
        Stray::Full => "A3",
        Stray::Short => "A4",
        Stray::NoStay => "A5",
    }
}

fn stray_text(stray: Stray) -> &'static str
    ensures { result.now ≡ stray_text stray }
{
    match stray {
        Stray::Json => "json",
        Stray::Game => "game",
        Stray::Long => "long",
        Stray::BadRow => "admit",
        Stray::NameOpen => "open",
        Stray::Full => "games",
        Stray::Short => "pool",
        Stray::NoStay => "none",
    }
}

/// Appends the code of a stray.
fn push_stray_code(stray: Stray, text: &mut TextBuffer)
    ensures { text.new ≡ put text.old (compact_text (string (stray_code stray))) }
{
    push_string(stray_code(stray).as_bytes(), text);
}

/// Appends the reason of a stray.
fn push_stray_reason(stray: Stray, text: &mut TextBuffer)
    ensures { text.new ≡ put text.old (compact_text (string (stray_text stray))) }
{
    push_string(stray_text(stray).as_bytes(), text);
}

/// Appends a game's name.
#[inline(always)]
fn push_game(game: &Id, text: &mut TextBuffer)
    ensures { text.new ≡ put text.old (compact_text (string game.now)) }
{
    push_string(game.as_bytes(), text);
}

/// Appends a charge.
#[inline(always)]
fn push_charge(charge: u32, text: &mut TextBuffer)
    ensures { text.new ≡ put text.old (decimal charge) }
{
    push_number(u64::from(charge), text);
}

/// Appends a charge, the name of a command, and the text up to the game's name.
#[inline(always)]
fn push_answer(word: Word, charge: u32, text: &mut TextBuffer)
    ensures { text.new ≡ put text.old (answer_pieces word charge) }
{
    if 48 <= text.left() {
        text.store_answer(word, charge);
    } else {
        let mut piece = [0; 48];
        let end = write_answer(word, charge, &mut piece, 0);
        text.push(&piece[..end]);
    }
}

/// Appends a command's number, and the text around it.
#[inline(always)]
fn push_seq(seq: u64, text: &mut TextBuffer)
    ensures { text.new ≡ put text.old (seq_pieces seq) }
{
    if 32 <= text.left() {
        text.store_seq(seq);
    } else {
        let mut piece = [0; 32];
        let end = write_seq(seq, &mut piece, 0);
        text.push(&piece[..end]);
    }
}

/// Appends the bytes of a game's name, without quotation marks.
#[inline(always)]
fn push_name(game: &Id, text: &mut TextBuffer)
    ensures { text.new ≡ put text.old (escape game.now) }
{
    push_bytes(game.as_bytes(), text);
}

/// Appends a reply's members from the charge's number on, and the closing bracket.
#[inline(always)]
fn push_tail(game: &Id, seq: u64, word: Word, charge: u32, text: &mut TextBuffer)
    ensures { text.new ≡ put text.old (tail_pieces game.now seq word charge) }
{
    push_answer(word, charge, text);
    push_name(game, text);
    push_seq(seq, text);
}

/// Appends the members of a refusal between the game's name and the command's number.
#[inline(always)]
fn push_code(refusal: Refusal, text: &mut TextBuffer)
    ensures { text.new ≡ put text.old (code_text refusal) }
{
    text.push(code_piece(refusal));
}

/// Appends the members of a refusal behind the command's number.
#[inline(always)]
fn push_reason(refusal: Refusal, text: &mut TextBuffer)
    ensures { text.new ≡ put text.old (reason_text refusal) }
{
    text.push(reason_piece(refusal));
}

/// Appends a refusal, without the line feed.
fn push_refused(game: &Id, seq: u64, refusal: Refusal, text: &mut TextBuffer)
    ensures { text.new ≡ put text.old (compact_text (reply_data game.now seq (Refused refusal))) }
{
    text.push(b"{\"game\":\"");
    push_name(game, text);
    push_code(refusal, text);
    push_number(seq, text);
    push_reason(refusal, text);
}

/// Appends a reply, without the line feed.
#[inline(always)]
fn push_reply(game: &Id, seq: u64, reply: &Reply, text: &mut TextBuffer)
    ensures { text.new ≡ put text.old (compact_text (reply_data game.now seq reply.now)) }
{
    match reply {
        Reply::Shown(word, board, charge) => {
            text.push(b"{\"board\":");
            push_board(board, text);
            text.push(b",\"charge\":");
            push_tail(game, seq, *word, *charge, text);
        }
        Reply::Plain(word, charge) => {
            text.push(b"{\"charge\":");
            push_tail(game, seq, *word, *charge, text);
        }
        Reply::Refused(refusal) => push_refused(game, seq, *refusal, text),
    }
}

/// Appends the line of an answered command. `seq` is its number within the game, from 1.
#[tactic(auto, using(crate::proofs::Puts::put_put))]
pub fn push_reply_line(game: &Id, seq: u64, reply: &Reply, text: &mut TextBuffer)
    ensures { text.new ≡ put text.old (reply_line_of game.now seq reply.now) }
{
    push_reply(game, seq, reply, text);
    text.push(b"\n");
}

/// Appends a game's last board, or `null`.
fn push_last(board: Option<&KeptBoard>, text: &mut TextBuffer)
    ensures { text.new ≡ put text.old (compact_text (last_data (option_copied board.entry))) }
{
    match board {
        Some(board) => push_board(board, text),
        None => text.push(b"null"),
    }
}

/// Appends a final line, without the line feed.
fn push_final(game: &Id, board: Option<&KeptBoard>, charge: u32, text: &mut TextBuffer)
    ensures { text.new ≡ put text.old (compact_text (final_data game.now (option_copied board.entry) charge)) }
{
    text.push(b"{\"board\":");
    push_last(board, text);
    text.push(b",\"charge\":");
    push_charge(charge, text);
    text.push(b",\"final\":true,\"game\":");
    push_game(game, text);
    text.push(b"}");
}

/// Appends the final line of a game. `board` is `None` if no game runs.
#[tactic(auto, using(crate::proofs::Puts::put_put))]
pub fn push_final_line(game: &Id, board: Option<&KeptBoard>, charge: u32, text: &mut TextBuffer)
    ensures { text.new ≡ put text.old (final_line_of game.now (option_copied board.entry) charge) }
{
    push_final(game, board, charge, text);
    text.push(b"\n");
}

/// Appends the line of a stray, without the line feed.
fn push_stray(line: u64, stray: Stray, text: &mut TextBuffer)
    ensures { text.new ≡ put text.old (compact_text (stray_data line stray)) }
{
    text.push(b"{\"line\":");
    push_number(line, text);
    text.push(b",\"no\":");
    push_stray_code(stray, text);
    text.push(b",\"why\":");
    push_stray_reason(stray, text);
    text.push(b"}");
}

/// Appends the line of a stray. `line` is its number in the file, from 1.
#[tactic(auto, using(crate::proofs::Puts::put_put))]
pub fn push_stray_line(line: u64, stray: Stray, text: &mut TextBuffer)
    ensures { text.new ≡ put text.old (stray_line_of line stray) }
{
    push_stray(line, stray, text);
    text.push(b"\n");
}

/// Makes the line of one answered command. `seq` is its number within the game, from 1.
#[tactic(auto, using(crate::proofs::Puts::put_measured))]
pub fn reply_line(alloc: Global, game: &Id, seq: u64, reply: &Reply) -> Result<Vec<u8>, AllocError>
    ensures { IfOk result (λ line. line.items ≡ reply_line_of game.now seq reply.now) }
{
    let mut counted = TextBuffer::new(alloc);
    push_reply_line(game, seq, reply, &mut counted);
    let mut line = TextBuffer::with_room(alloc, counted.missing())?;
    push_reply_line(game, seq, reply, &mut line);
    Ok(line.into_vec())
}

/// Makes the line of a stray. `line` is its number in the file, from 1.
#[tactic(auto, using(crate::proofs::Puts::put_measured))]
pub fn stray_line(alloc: Global, line: u64, stray: Stray) -> Result<Vec<u8>, AllocError>
    ensures { IfOk result (λ text. text.items ≡ stray_line_of line stray) }
{
    let mut counted = TextBuffer::new(alloc);
    push_stray_line(line, stray, &mut counted);
    let mut text = TextBuffer::with_room(alloc, counted.missing())?;
    push_stray_line(line, stray, &mut text);
    Ok(text.into_vec())
}

/// The value of a last board, or null.
fn last_value(alloc: Global, board: Option<&Board>) -> Result<Value, AllocError>
    ensures { IfOk result (λ v. view v ≡ last_data (option_copied board.entry)) }
{
    match board {
        Some(board) => board_value(alloc, board),
        None => Ok(Value::Null),
    }
}

#[tactic(auto, unfolding(crate::specs::Replies::final_data))]
fn final_value(
    alloc: Global,
    game: &Id,
    board: Option<&Board>,
    charge: u32,
) -> Result<Value, AllocError>
    ensures { IfOk result (λ v. view v ≡ final_data game.now (option_copied board.entry) charge) }
{
    let board = last_value(alloc, board)?;
    let game = game.as_str();
    json!(in alloc; {
        "board": board,
        "charge": charge,
        "final": true,
        "game": game
    })
}

/// Makes the text of a JSON value, and a line feed.
fn value_line(alloc: Global, value: &Value) -> Result<Vec<u8>, AllocError>
    ensures { IfOk result (λ line. IsLineOf (SendsValue (view value.now)) line.items) }
{
    match serde_json::to_vec(alloc, value) {
        Ok(mut line) => {
            line.push(b'\n')?;
            Ok(line)
        }
        // The serializer fails on such a value only if memory runs out.
        Err(_) => Err(AllocError),
    }
}

/// Makes the final line of a game, with a board that need not be legal. `board` is `None` if no
/// game runs.
#[tactic(auto, using(crate::proofs::Lines::final_text))]
pub fn final_line(
    alloc: Global,
    game: &Id,
    board: Option<&Board>,
    charge: u32,
) -> Result<Vec<u8>, AllocError>
    ensures { IfOk result
        (λ line. line.items ≡ final_line_of game.now (option_copied board.entry) charge) }
{
    value_line(alloc, &final_value(alloc, game, board, charge)?)
}
