//! A text buffer of fixed capacity, which is allocated once.
ghost use Rattle.std.specs.Prelude.{◌≡◌, ◌+◌, ◌<◌, ◌≤◌, ◌^◌, [], if◌then◌else◌, length, IfOk};
ghost use Rattle.serde_json.specs.Data.{null};
ghost use Rattle.serde_json.specs.Written.{compact_text};
ghost use Rattle.bs_json.specs.Boards.{cells_data};
ghost use Rattle.bs_json.specs.inner.BoardText.{back_pieces, board_of, cells_of, rule_pieces, snake_of, snake_pieces};
ghost use Rattle.bs_json.specs.inner.Replies.{answer_pieces, seq_pieces};
ghost use Rattle.bs_json.specs.Text.{blank, put};

use crate::written::{write_answer, write_back, write_list, write_living, write_rules, write_seq};
use bs_board::{BoardBytes, SnakeBytes, Word};
use std::alloc::{AllocError, Global};
use std::marker::Model;

/// Text that is appended piece by piece. The capacity is fixed; the bytes beyond it are counted and
/// dropped. Contracts see the stored bytes, the count and the capacity.
#[derive(Debug, Drop)]
pub struct TextBuffer {
    /// The capacity: the first `len` bytes are the stored ones.
    bytes: Vec<u8>,
    len: usize,
    missing: usize,
}

impl Model for TextBuffer {
    ghost use Rattle.std.specs.Prelude.{◌≤◌, length, take};
    ghost use Rattle.bs_json.specs.Text.{Text};

    ghost Value = { Text };

    ghost view = { λ t. record { bytes = take t.len t.bytes.items; missing = t.missing; room = length t.bytes.items } };

    ghost invariant = { λ t. t.len ≤ length t.bytes.items };
}

impl TextBuffer {
    /// Makes a buffer without capacity, which counts the bytes that are appended. Allocates
    /// nothing.
    pub fn new(alloc: Global) -> TextBuffer
        ensures { result ≡ blank 0 }
    {
        TextBuffer {
            bytes: Vec::new(alloc),
            len: 0,
            missing: 0,
        }
    }

    /// Makes an empty buffer with a capacity of `room` bytes. No other call allocates. Fails if
    /// memory runs out or `room` is above `isize::MAX`.
    pub fn with_room(alloc: Global, room: usize) -> Result<TextBuffer, AllocError>
        ensures value { IfOk result (λ text. text ≡ blank room) }
        ensures most { IfOk result (λ _. room < 2 ^ 63) }
    {
        if room > isize::MAX as usize {
            return Err(AllocError);
        }
        Ok(TextBuffer {
            bytes: Vec::from_elem(alloc, 0, room)?,
            len: 0,
            missing: 0,
        })
    }

    /// Empties the buffer and resets its count. Keeps its memory.
    pub fn clear(&mut self)
        ensures { self.new ≡ blank self.old.room }
    {
        self.len = 0;
        self.missing = 0;
    }

    /// The stored bytes.
    pub fn as_slice(&self) -> &[u8]
        ensures { result.now ≡ self.now.bytes }
    {
        &self.bytes[..self.len]
    }

    /// Converts the buffer into the stored bytes.
    pub fn into_vec(self) -> Vec<u8>
        ensures { result.items ≡ self.bytes }
    {
        let mut bytes = self.bytes;
        bytes.truncate(self.len);
        bytes
    }

    /// The number of bytes for which there is still room.
    #[inline(always)]
    pub fn left(&self) -> usize
        ensures { result + length self.now.bytes ≡ self.now.room }
    {
        self.bytes.len() - self.len
    }

    /// The number of bytes for which there was no room, at most `usize::MAX`.
    pub fn missing(&self) -> usize
        ensures { result ≡ self.now.missing }
    {
        self.missing
    }

    /// Appends a piece for which there is room.
    #[tactic(auto, using(crate::proofs::Puts::put_whole))]
    #[inline(always)]
    fn store(&mut self, piece: &[u8])
        requires { length self.old.bytes + length piece.now ≤ self.old.room }
        ensures { self.new ≡ put self.old piece.now }
    {
        let end = self.len + piece.len();
        self.bytes[self.len..end].copy_from_slice(piece);
        self.len = end;
    }

    /// Appends the first bytes of a piece, as many as there is room for, and counts the others.
    #[tactic(auto, using(crate::proofs::Puts::put_part))]
    fn push_part(&mut self, piece: &[u8])
        requires { self.old.room < length self.old.bytes + length piece.now }
        ensures { self.new ≡ put self.old piece.now }
    {
        let (front, rest) = piece.split_at(self.left());
        self.store(front);
        self.missing = self.missing.saturating_add(rest.len());
    }

    /// Appends a list of cells of a board, if there is plenty of room; else changes nothing.
    #[inline(always)]
    pub(crate) fn store_cells(&mut self, raised: u8, cells: &[u8]) -> bool
        ensures { self.new ≡ (if result then put self.old (compact_text (cells_data (cells_of raised cells.now))) else self.old) }
    {
        match write_list(raised, cells, &mut self.bytes, self.len) {
            Some(end) => {
                self.len = end;
                true
            }
            None => false,
        }
    }

    /// Appends a snake that is not eliminated, if there is plenty of room; else changes nothing.
    #[inline(always)]
    pub(crate) fn store_living(&mut self, snake: &SnakeBytes<'_>) -> bool
        ensures { self.new ≡ (if result then put self.old (snake_pieces null (snake_of snake.now)) else self.old) }
    {
        match write_living(snake, &mut self.bytes, self.len) {
            Some(end) => {
                self.len = end;
                true
            }
            None => false,
        }
    }

    /// Appends the members of a board between its hazards and its snakes.
    #[inline(always)]
    pub(crate) fn store_rules(&mut self, over: bool, board: &BoardBytes<'_>)
        requires { length self.old.bytes + 128 ≤ self.old.room }
        ensures { self.new ≡ put self.old (rule_pieces over (board_of board.now [])) }
    {
        self.len = write_rules(over, board, &mut self.bytes, self.len);
    }

    /// Appends the members of a board behind its snakes.
    #[inline(always)]
    pub(crate) fn store_back(&mut self, board: &BoardBytes<'_>)
        requires { length self.old.bytes + 64 ≤ self.old.room }
        ensures { self.new ≡ put self.old (back_pieces (board_of board.now [])) }
    {
        self.len = write_back(board, &mut self.bytes, self.len);
    }

    /// Appends a charge, the name of a command, and the text up to the game's name.
    #[inline(always)]
    pub(crate) fn store_answer(&mut self, word: Word, charge: u32)
        requires { length self.old.bytes + 48 ≤ self.old.room }
        ensures { self.new ≡ put self.old (answer_pieces word charge) }
    {
        self.len = write_answer(word, charge, &mut self.bytes, self.len);
    }

    /// Appends a command's number, and the text around it.
    #[inline(always)]
    pub(crate) fn store_seq(&mut self, seq: u64)
        requires { length self.old.bytes + 32 ≤ self.old.room }
        ensures { self.new ≡ put self.old (seq_pieces seq) }
    {
        self.len = write_seq(seq, &mut self.bytes, self.len);
    }

    /// Appends a piece; counts the bytes for which there is no room. Allocates nothing.
    #[inline(always)]
    pub fn push(&mut self, piece: &[u8])
        ensures { self.new ≡ put self.old piece.now }
    {
        if piece.len() <= self.left() {
            self.store(piece);
        } else {
            self.push_part(piece);
        }
    }
}
