//! Parts of lines that are written from an index of a slice on, where there is room. A part that
//! can't be written this way leaves what is before that index.
ghost use Rattle.std.specs.Prelude.{◌≡◌, ◌++◌, ◌+◌, ◌*◌, ◌-◌, ◌&&◌, ◌∷◌, ◌≤◌, ◌<◌, IfSome, [], codes, decimal, length, nat_le, nat_lt, take};
ghost use Rattle.serde_json.specs.Data.{boolean, no_items, null, string};
ghost use Rattle.serde_json.specs.Written.{compact_text};
ghost use Rattle.bs_board.specs.inner.Writing.{Puts};
ghost use Rattle.bs_json.specs.Boards.{cells_data, mode_text};
ghost use Rattle.bs_json.specs.inner.BoardText.{back_pieces, board_of, cells_of, list_rest, rule_pieces, snake_of, snake_pieces};
ghost use Rattle.bs_json.specs.Replies.{word_text};
ghost use Rattle.bs_json.specs.inner.Replies.{answer_pieces, seq_pieces};
ghost use Rattle.bs_json.specs.inner.Writing.{Writes};

use crate::cell_texts::{SIDE, byte_before, column_text, row_text, text_len};
use crate::pieces::are_plain;
use bs_board::{BoardBytes, Mode, SnakeBytes, Word};
use itoa::Buffer;

/// Writes a piece, and returns the index behind it.
#[inline(always)]
fn write(piece: &[u8], bytes: &mut [u8], at: usize) -> usize
    requires { at + length piece.now ≤ length bytes.old }
    ensures { Puts at piece.now bytes.old bytes.new result }
{
    let end = at + piece.len();
    bytes[at..end].copy_from_slice(piece);
    end
}

/// Writes the first `count` bytes of a piece of eight, where there is room for all eight.
#[inline(always)]
fn write_first(piece: &[u8; 8], count: usize, bytes: &mut [u8], at: usize) -> usize
    requires room { at + 8 ≤ length bytes.old }
    requires within { count ≤ 8 }
    ensures { Puts at (take count piece.now) bytes.old bytes.new result }
{
    write(piece, bytes, at);
    at + count
}

/// Writes a cell behind the byte `lead`.
#[inline(always)]
fn write_cell(lead: u8, column: u8, row: u8, bytes: &mut [u8], at: usize) -> usize
    requires column { column < 25 }
    requires row { row < 25 }
    requires room { at + 16 ≤ length bytes.old }
    ensures value { Puts at ((lead ∷ (codes "{\"x\":" ++ decimal column)) ++ (codes ",\"y\":" ++ (decimal row ++ codes "}"))) bytes.old bytes.new result }
    ensures within { result ≤ at + 16 }
{
    let middle = write_first(&column_text(lead, column), text_len(column), bytes, at);
    write_first(&row_text(row), text_len(row), bytes, middle)
}

/// Writes the end of a list of cells; both brackets if the list is empty.
#[inline(always)]
fn write_end(later: bool, bytes: &mut [u8], at: usize) -> usize
    requires { at + 2 ≤ length bytes.old }
    ensures { Puts at (list_rest later no_items) bytes.old bytes.new result }
{
    if later {
        let end = *b"]";
        write(&end, bytes, at)
    } else {
        let both = *b"[]";
        write(&both, bytes, at)
    }
}

/// Whether a column or a row, stored with `raised` added, is one of the largest board.
#[inline(always)]
fn is_near(raised: u8, byte: u8) -> bool
    ensures { result ≡ nat_le raised byte && nat_lt (byte - raised) 25 }
{
    raised <= byte && byte - raised < SIDE
}

/// Writes a list of cells from their bytes, two for each cell. Gives up at one beside the largest
/// board.
#[inline(always)]
fn write_cells(raised: u8, cells: &[u8], bytes: &mut [u8], at: usize) -> Option<usize>
    requires { at + (8 * length cells.now + 2) ≤ length bytes.old }
    ensures value { Writes at (compact_text (cells_data (cells_of raised cells.now))) bytes.old bytes.new result }
    ensures within { IfSome result (λ next. next ≤ at + (8 * length cells.now + 2)) }
{
    let mut left = cells;
    let mut later = false;
    let mut next = at;
    while let [x, y, rest @ ..] = left {
        if !is_near(raised, *x) || !is_near(raised, *y) {
            return None;
        }
        next = write_cell(byte_before(later), *x - raised, *y - raised, bytes, next);
        left = rest;
        later = true;
    }
    let end = write_end(later, bytes, next);
    Some(end)
}

/// Writes a list of cells, if there is plenty of room.
#[inline(always)]
pub(crate) fn write_list(raised: u8, cells: &[u8], bytes: &mut [u8], at: usize) -> Option<usize>
    requires { at ≤ length bytes.old }
    ensures { Writes at (compact_text (cells_data (cells_of raised cells.now))) bytes.old bytes.new result }
{
    if (bytes.len() - at) / 8 <= cells.len() {
        return None;
    }
    let end = write_cells(raised, cells, bytes, at)?;
    Some(end)
}

/// Writes the digits of a number below 100.
#[inline(always)]
fn write_short(number: u8, bytes: &mut [u8], at: usize) -> usize
    requires few { number < 100 }
    requires room { at + 2 ≤ length bytes.old }
    ensures value { Puts at (decimal number) bytes.old bytes.new result }
    ensures within { result ≤ at + 2 }
{
    if number < 10 {
        let digits = [b'0' + number];
        write(&digits, bytes, at)
    } else {
        let digits = [b'0' + number / 10, b'0' + number % 10];
        write(&digits, bytes, at)
    }
}

/// Writes the digits of a number.
#[inline(always)]
fn write_number(number: u64, bytes: &mut [u8], at: usize) -> usize
    requires { at + 20 ≤ length bytes.old }
    ensures value { Puts at (decimal number) bytes.old bytes.new result }
    ensures within { result ≤ at + 20 }
{
    if number < 100 {
        write_short(number as u8, bytes, at)
    } else if number < 10000 {
        let middle = write_short((number / 100) as u8, bytes, at);
        let last = (number % 100) as u8;
        let digits = [b'0' + last / 10, b'0' + last % 10];
        write(&digits, bytes, middle)
    } else {
        write(Buffer::new().format(number).as_bytes(), bytes, at)
    }
}

/// Writes a number of one byte.
#[inline(always)]
fn write_small(number: u8, bytes: &mut [u8], at: usize) -> usize
    requires { at + 20 ≤ length bytes.old }
    ensures value { Puts at (decimal number) bytes.old bytes.new result }
    ensures within { result ≤ at + 20 }
{
    write_number(u64::from(number), bytes, at)
}

/// Writes the number of a turn.
#[inline(always)]
fn write_turn(turn: u16, bytes: &mut [u8], at: usize) -> usize
    requires { at + 20 ≤ length bytes.old }
    ensures value { Puts at (decimal turn) bytes.old bytes.new result }
    ensures within { result ≤ at + 20 }
{
    write_number(u64::from(turn), bytes, at)
}

/// Writes the name of a mode.
#[tactic(auto, unfolding(json::specs::Print::escape_byte))]
#[inline(always)]
fn write_mode(mode: Mode, bytes: &mut [u8], at: usize) -> usize
    requires { at + 30 ≤ length bytes.old }
    ensures value { Puts at (codes ",\"mode\":" ++ compact_text (string (mode_text mode))) bytes.old bytes.new result }
    ensures within { result ≤ at + 30 }
{
    let standard = *b",\"mode\":\"standard\"";
    let solo = *b",\"mode\":\"solo\"";
    let constrictor = *b",\"mode\":\"constrictor\"";
    let wrapped = *b",\"mode\":\"wrapped\"";
    match mode {
        Mode::Standard => write(&standard, bytes, at),
        Mode::Solo => write(&solo, bytes, at),
        Mode::Constrictor => write(&constrictor, bytes, at),
        Mode::Wrapped => write(&wrapped, bytes, at),
    }
}

/// Writes whether a game is over, and the name of the snakes' list.
#[inline(always)]
fn write_over(over: bool, bytes: &mut [u8], at: usize) -> usize
    requires { at + 25 ≤ length bytes.old }
    ensures { Puts at (codes ",\"over\":" ++ (compact_text (boolean over) ++ codes ",\"snakes\":")) bytes.old bytes.new result }
{
    let yes = *b",\"over\":true,\"snakes\":";
    let no = *b",\"over\":false,\"snakes\":";
    if over {
        write(&yes, bytes, at)
    } else {
        write(&no, bytes, at)
    }
}

/// Writes the members of a board between its hazards and its snakes.
#[inline(always)]
pub(crate) fn write_rules(over: bool, board: &BoardBytes<'_>, bytes: &mut [u8], at: usize) -> usize
    requires { at + 128 ≤ length bytes.old }
    ensures { Puts at (rule_pieces over (board_of board.now [])) bytes.old bytes.new result }
{
    let height_name = *b",\"height\":";
    let min_food_name = *b",\"min_food\":";
    let height = write(&height_name, bytes, at);
    let height = write_small(board.height, bytes, height);
    let fewest = write(&min_food_name, bytes, height);
    let fewest = write_small(board.min_food, bytes, fewest);
    let mode = write_mode(board.mode, bytes, fewest);
    write_over(over, bytes, mode)
}

/// Writes the members of a board behind its snakes.
#[inline(always)]
pub(crate) fn write_back(board: &BoardBytes<'_>, bytes: &mut [u8], at: usize) -> usize
    requires { at + 64 ≤ length bytes.old }
    ensures { Puts at (back_pieces (board_of board.now [])) bytes.old bytes.new result }
{
    let turn_name = *b",\"turn\":";
    let width_name = *b",\"width\":";
    let end = *b"}";
    let turn = write(&turn_name, bytes, at);
    let turn = write_turn(board.turn, bytes, turn);
    let width = write(&width_name, bytes, turn);
    let width = write_small(board.width, bytes, width);
    write(&end, bytes, width)
}

/// Writes a snake that is not eliminated.
#[inline(always)]
pub(crate) fn write_living(snake: &SnakeBytes<'_>, bytes: &mut [u8], at: usize) -> Option<usize>
    requires { at ≤ length bytes.old }
    ensures { Writes at (snake_pieces null (snake_of snake.now)) bytes.old bytes.new result }
{
    let eights = (bytes.len() - at) / 8;
    let parts = snake.body.len();
    if snake.cause.is_some() || snake.out.is_some() || !are_plain(snake.id) {
        return None;
    }
    if eights < parts || eights - parts < snake.id.len() + 11 {
        return None;
    }
    let body = *b"{\"body\":";
    let health = *b",\"by\":null,\"cause\":null,\"health\":";
    let id = *b",\"id\":\"";
    let last = *b"\",\"out\":null}";
    let cells = write(&body, bytes, at);
    let by = write_cells(1, snake.body, bytes, cells)?;
    let number = write(&health, bytes, by);
    let named = write_small(snake.health, bytes, number);
    let own = write(&id, bytes, named);
    let out = write(snake.id, bytes, own);
    let end = write(&last, bytes, out);
    Some(end)
}

/// Writes the name of a command, and the text around it.
#[tactic(auto, unfolding(json::specs::Print::escape_byte))]
#[inline(always)]
fn write_word(word: Word, bytes: &mut [u8], at: usize) -> usize
    requires { at + 24 ≤ length bytes.old }
    ensures { Puts at (codes ",\"do\":" ++ (compact_text (string (word_text word)) ++ codes ",\"game\":\"")) bytes.old bytes.new result }
{
    let new = *b",\"do\":\"new\",\"game\":\"";
    let moved = *b",\"do\":\"move\",\"game\":\"";
    let show = *b",\"do\":\"show\",\"game\":\"";
    let turn = *b",\"do\":\"turn\",\"game\":\"";
    let free = *b",\"do\":\"free\",\"game\":\"";
    let end = *b",\"do\":\"end\",\"game\":\"";
    match word {
        Word::New => write(&new, bytes, at),
        Word::Move => write(&moved, bytes, at),
        Word::Show => write(&show, bytes, at),
        Word::Turn => write(&turn, bytes, at),
        Word::Free => write(&free, bytes, at),
        Word::End => write(&end, bytes, at),
    }
}

/// Writes a charge.
#[inline(always)]
fn write_charge(charge: u32, bytes: &mut [u8], at: usize) -> usize
    requires { at + 20 ≤ length bytes.old }
    ensures value { Puts at (decimal charge) bytes.old bytes.new result }
    ensures within { result ≤ at + 20 }
{
    write_number(u64::from(charge), bytes, at)
}

/// Writes a charge, the name of a command, and the text up to the game's name.
#[inline(always)]
pub(crate) fn write_answer(word: Word, charge: u32, bytes: &mut [u8], at: usize) -> usize
    requires { at + 48 ≤ length bytes.old }
    ensures { Puts at (answer_pieces word charge) bytes.old bytes.new result }
{
    let next = write_charge(charge, bytes, at);
    write_word(word, bytes, next)
}

/// Writes a command's number, and the text around it.
#[inline(always)]
pub(crate) fn write_seq(seq: u64, bytes: &mut [u8], at: usize) -> usize
    requires { at + 32 ≤ length bytes.old }
    ensures { Puts at (seq_pieces seq) bytes.old bytes.new result }
{
    let name = *b"\",\"seq\":";
    let end = *b"}";
    let named = write(&name, bytes, at);
    let next = write_number(seq, bytes, named);
    write(&end, bytes, next)
}
