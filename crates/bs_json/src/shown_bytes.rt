//! Appends the JSON text of a board directly from the bytes of its record: no board is decoded, and
//! no JSON value is made.
ghost use Rattle.std.specs.Prelude.{◌≡◌, ◌++◌, ◌∷◌, ◌-ℤ◌, All, List, [], None, Some, codes, flat_map, option_copied, option_map, pos, slice_get};
ghost use Rattle.serde_json.specs.Data.{no_items, null};
ghost use Rattle.serde_json.specs.Written.{comma_if, compact_text};
ghost use Rattle.bs_board.specs.declared.boards.board.Board.{Board as AnyBoard};
ghost use Rattle.bs_board.specs.declared.boards.snake.Snake.{Snake as AnySnake};
ghost use Rattle.bs_board.specs.records.Layout.{IsBoardBytes, IsSnakeBytes};
ghost use Rattle.bs_board.specs.records.Record.{snake_record};
ghost use Rattle.bs_board.specs.records.Writing.{IsWritable};
ghost use Rattle.bs_board.specs.inner.Writing.{IsWritableBoard};
ghost use Rattle.bs_json.specs.Boards.{board_data, cause_data, cell_data, cells_data, killer_data, out_data, snake_data, snakes_data};
ghost use Rattle.bs_json.specs.inner.BoardText.{back_pieces, board_of, cell_of, cells_of, coordinate_text, front_pieces, hazard_pieces, hazards_of, list_rest, rule_pieces, snake_of, snake_pieces, text_data};
ghost use Rattle.bs_json.specs.Text.{put};

use crate::boards::cause_text;
use crate::cell_texts::byte_before;
use crate::pieces::{push_small, push_string, push_string_or_null, push_turn};
use crate::text_buffer::TextBuffer;
use crate::written::{write_back, write_rules};
use bs_board::{BoardBytes, Cause, KeptBoard, SnakeBytes, skip_snakes, split_snake};

/// Appends a column or a row, which the record stores with `raised` added.
#[tactic(auto, using(crate::proofs::ShownCells::coordinate_inside, crate::proofs::ShownCells::beyond_pieces))]
#[inline(always)]
fn push_coordinate(raised: u8, byte: u8, text: &mut TextBuffer)
    ensures { text.new ≡ put text.old (coordinate_text (pos byte -ℤ pos raised)) }
{
    if raised <= byte {
        push_small(byte - raised, text);
    } else {
        text.push(b"-");
        push_small(raised - byte, text);
    }
}

/// Appends the byte before a cell, and its column.
#[tactic(auto, using(crate::proofs::ShownCells::column_pieces))]
fn push_column(lead: u8, raised: u8, x: u8, text: &mut TextBuffer)
    ensures { text.new ≡ put text.old (lead ∷ (codes "{\"x\":" ++ coordinate_text (pos x -ℤ pos raised))) }
{
    let mut piece = *b",{\"x\":";
    piece[0] = lead;
    text.push(&piece);
    push_coordinate(raised, x, text);
}

/// Appends the row of a cell, and its end.
#[tactic(auto, using(crate::proofs::ShownCells::row_pieces))]
fn push_row(raised: u8, y: u8, text: &mut TextBuffer)
    ensures { text.new ≡ put text.old (codes ",\"y\":" ++ (coordinate_text (pos y -ℤ pos raised) ++ codes "}")) }
{
    text.push(b",\"y\":");
    push_coordinate(raised, y, text);
    text.push(b"}");
}

/// Appends the cell of these two bytes, which the record stores with `raised` added, behind the
/// byte `lead`.
#[tactic(auto, using(crate::proofs::ShownCells::cell_pieces))]
fn push_cell(lead: u8, raised: u8, x: u8, y: u8, text: &mut TextBuffer)
    ensures { text.new ≡ put text.old (lead ∷ compact_text (cell_data (cell_of raised x y))) }
{
    push_column(lead, raised, x, text);
    push_row(raised, y, text);
}

/// Appends the end of a list of cells; both brackets if the list is empty.
#[inline(always)]
fn push_end(later: bool, text: &mut TextBuffer)
    ensures { text.new ≡ put text.old (list_rest later no_items) }
{
    if later {
        text.push(b"]");
    } else {
        text.push(b"[]");
    }
}

/// Appends a list of any cells, also of those beside the board, where there may be no room.
#[inline(never)]
fn push_any_cells(raised: u8, cells: &[u8], text: &mut TextBuffer)
    ensures { text.new ≡ put text.old (compact_text (cells_data (cells_of raised cells.now))) }
{
    let mut left = cells;
    let mut later = false;
    while let [x, y, rest @ ..] = left {
        push_cell(byte_before(later), raised, *x, *y, text);
        left = rest;
        later = true;
    }
    push_end(later, text);
}

/// Appends a list of cells from their bytes, two for each cell.
#[inline(always)]
fn push_cells(raised: u8, cells: &[u8], text: &mut TextBuffer)
    ensures { text.new ≡ put text.old (compact_text (cells_data (cells_of raised cells.now))) }
{
    if !text.store_cells(raised, cells) {
        push_any_cells(raised, cells, text);
    }
}

/// Appends the cause of a snake's elimination, or `null`.
#[inline(always)]
fn push_cause(cause: Option<Cause>, text: &mut TextBuffer)
    ensures { text.new ≡ put text.old (compact_text (cause_data cause)) }
{
    match cause {
        Some(cause) => push_string(cause_text(cause).as_bytes(), text),
        None => text.push(b"null"),
    }
}

/// Appends the turn of a snake's elimination, or `null`.
#[inline(always)]
fn push_out(out: Option<u16>, text: &mut TextBuffer)
    ensures { text.new ≡ put text.old (compact_text (out_data out)) }
{
    match out {
        Some(turn) => push_turn(turn, text),
        None => text.push(b"null"),
    }
}

/// Appends a snake with its killer's id, member by member.
fn push_members(killer: Option<&[u8]>, snake: &SnakeBytes<'_>, text: &mut TextBuffer)
    ensures { text.new ≡ put text.old (snake_pieces (text_data (option_copied killer.entry)) (snake_of snake.now)) }
{
    text.push(b"{\"body\":");
    push_cells(1, snake.body, text);
    text.push(b",\"by\":");
    push_string_or_null(killer, text);
    text.push(b",\"cause\":");
    push_cause(snake.cause, text);
    text.push(b",\"health\":");
    push_small(snake.health, text);
    text.push(b",\"id\":");
    push_string(snake.id, text);
    text.push(b",\"out\":");
    push_out(snake.out, text);
    text.push(b"}");
}

/// Appends a snake from the parts of its record, with its killer's id.
#[inline(always)]
fn push_parts(killer: Option<&[u8]>, snake: &SnakeBytes<'_>, text: &mut TextBuffer)
    ensures { text.new ≡ put text.old (snake_pieces (text_data (option_copied killer.entry)) (snake_of snake.now)) }
{
    if killer.is_some() || !text.store_living(snake) {
        push_members(killer, snake, text);
    }
}

/// Finds the id of the snake in a seat.
fn id_in_seat<'r>(snakes: &'r [u8], seat: usize) -> &'r [u8]
    ensures { (all : List AnySnake) (s : AnySnake) → snakes.now ≡ flat_map snake_record all → slice_get all seat ≡ Some s → result.now ≡ s.id }
{
    let (snake, _) = split_snake(skip_snakes(seat, snakes));
    snake.id
}

/// Finds the id of the killer from its seat.
fn killer_id<'r>(board: &BoardBytes<'r>, killer: Option<usize>) -> Option<&'r [u8]>
    ensures { (b : AnyBoard) → IsBoardBytes b board.now → text_data (option_copied result) ≡ killer_data b.snakes killer }
{
    match killer {
        Some(seat) if seat < board.seats => Some(id_in_seat(board.snakes, seat)),
        _ => None,
    }
}

/// Appends a comma before every snake but the first.
#[tactic(auto, using(crate::proofs::Puts::put_none))]
#[inline(always)]
fn push_comma(later: bool, text: &mut TextBuffer)
    ensures { text.new ≡ put text.old (comma_if later) }
{
    if later {
        text.push(b",");
    }
}

/// Appends one of the board's snakes, after a comma unless it is the first.
#[inline(always)]
fn push_snake(later: bool, board: &BoardBytes<'_>, snake: &SnakeBytes<'_>, text: &mut TextBuffer)
    ensures { (b : AnyBoard) (s : AnySnake) → IsWritableBoard b → IsWritable s → IsBoardBytes b board.now → IsSnakeBytes s snake.now
        → text.new ≡ put text.old (comma_if later ++ compact_text (snake_data b.snakes s)) }
{
    push_comma(later, text);
    push_parts(killer_id(board, snake.killer), snake, text);
}

/// Appends the list of the snakes.
#[inline(always)]
fn push_snakes(board: &BoardBytes<'_>, text: &mut TextBuffer)
    ensures { (b : AnyBoard) → IsWritableBoard b → IsBoardBytes b board.now → text.new ≡ put text.old (compact_text (snakes_data b.snakes)) }
{
    text.push(b"[");
    let mut left = board.snakes;
    let mut later = false;
    for _ in 0..board.seats {
        let (snake, rest) = split_snake(left);
        push_snake(later, board, &snake, text);
        left = rest;
        later = true;
    }
    text.push(b"]");
}

/// Appends the hazards, in a game that has some.
#[tactic(auto, using(crate::proofs::Puts::put_none))]
fn push_hazards(board: &BoardBytes<'_>, text: &mut TextBuffer)
    ensures { text.new ≡ put text.old (hazard_pieces (hazards_of board.now.hazardous board.now.damage board.now.hazards.now)) }
{
    if board.hazardous {
        text.push(b",\"hazard_damage\":");
        push_small(board.damage, text);
        text.push(b",\"hazards\":");
        push_cells(0, board.hazards, text);
    }
}

/// Appends the members of a board between its hazards and its snakes.
#[inline(always)]
fn push_rules(over: bool, board: &BoardBytes<'_>, text: &mut TextBuffer)
    ensures { text.new ≡ put text.old (rule_pieces over (board_of board.now [])) }
{
    if 128 <= text.left() {
        text.store_rules(over, board);
    } else {
        let mut piece = [0; 128];
        let end = write_rules(over, board, &mut piece, 0);
        text.push(&piece[..end]);
    }
}

/// Appends a board up to its snakes, and whether its game is over.
#[inline(always)]
fn push_front(over: bool, board: &BoardBytes<'_>, text: &mut TextBuffer)
    ensures { text.new ≡ put text.old (front_pieces over (board_of board.now [])) }
{
    text.push(b"{\"food\":");
    push_cells(0, board.food, text);
    text.push(b",\"food_chance\":");
    push_small(board.chance, text);
    push_hazards(board, text);
    push_rules(over, board, text);
}

/// Appends the rest of a board, after its snakes.
#[inline(always)]
fn push_back(board: &BoardBytes<'_>, text: &mut TextBuffer)
    ensures { text.new ≡ put text.old (back_pieces (board_of board.now [])) }
{
    if 64 <= text.left() {
        text.store_back(board);
    } else {
        let mut piece = [0; 64];
        let end = write_back(board, &mut piece, 0);
        text.push(&piece[..end]);
    }
}

/// Appends a board from the parts of its record.
fn push_board_parts(board: &BoardBytes<'_>, text: &mut TextBuffer)
    ensures { (b : AnyBoard) → IsWritableBoard b → IsBoardBytes b board.now → text.new ≡ put text.old (compact_text (board_data b)) }
{
    push_front(board.is_over(), board, text);
    push_snakes(board, text);
    push_back(board, text);
}

/// Appends a board.
pub(crate) fn push_board(kept: &KeptBoard, text: &mut TextBuffer)
    ensures { text.new ≡ put text.old (compact_text (board_data kept.now)) }
{
    push_board_parts(&kept.shared().parts(), text);
}
