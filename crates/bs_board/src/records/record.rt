//! The record of a legal board, shared by several owners, and what is read of it.

use crate::boards::board::{Board, Mode};
use crate::boards::snakes::Snakes;
use crate::records::decoding::read_board;
use crate::records::encoding::encode;
use crate::records::kept::{found, read_seats, read_without_snakes};
use crate::records::layout::{BoardBytes, split_board};
use std::alloc::{AllocError, Global};
use std::marker::Model;
use std::sync::Arc;

/// A counted handle to the record of a legal board. A copy of the handle takes no memory. Contracts
/// see the bytes.
#[derive(Debug, Drop)]
pub struct Record {
    bytes: Arc<Vec<u8>>,
}

impl Model for Record {
    ghost use Rattle.std.specs.Prelude.{ℕ, List};
    ghost use Rattle.std.specs.Arc.{arc_value};
    ghost use Rattle.bs_board.specs.records.Kept.{IsLegalRecord};

    ghost Value = { List ℕ };

    ghost view = { λ r. (arc_value r.bytes).items };

    ghost invariant = { λ r. IsLegalRecord (arc_value r.bytes).items };
}

impl Record {
    ghost use Rattle.std.specs.Prelude.{◌≡◌, [], take, drop, length, IfOk};
    ghost use Rattle.bs_board.specs.declared.boards.board.Board.{Board as AnyBoard};
    ghost use Rattle.bs_board.specs.boards.Legal.{IsLegal};
    ghost use Rattle.bs_board.specs.boards.Over.{is_over};
    ghost use Rattle.bs_board.specs.boards.Wrap.{wrap_of};
    ghost use Rattle.bs_board.specs.records.Kept.{IsLegalRecord};
    ghost use Rattle.bs_board.specs.records.Layout.{IsBoardBytes};
    ghost use Rattle.bs_board.specs.records.Record.{record_of};

    fn from_vec(alloc: Global, bytes: Vec<u8>) -> Result<Record, AllocError>
        requires { IsLegalRecord bytes.items }
        ensures { IfOk result (λ kept. kept ≡ bytes.items) }
    {
        match Arc::new(alloc, bytes) {
            Ok(bytes) => Ok(Record { bytes }),
            Err(_) => Err(AllocError),
        }
    }

    /// Copies the bytes of a legal board's record.
    pub fn of_bytes(alloc: Global, bytes: &[u8]) -> Result<Record, AllocError>
        requires { IsLegalRecord bytes.now }
        ensures { IfOk result (λ kept. kept ≡ bytes.now) }
    {
        Record::from_vec(alloc, Vec::from_slice(alloc, bytes)?)
    }

    /// Encodes a legal board.
    pub fn of(alloc: Global, board: &Board) -> Result<Record, AllocError>
        requires { IsLegal board.now }
        ensures { IfOk result (λ kept. kept ≡ record_of board.now) }
    {
        Record::from_vec(alloc, encode(alloc, board)?)
    }

    /// Adds a handle without allocating. Fails if the number of handles would overflow.
    pub fn share(&self) -> Result<Record, AllocError>
        ensures { IfOk result (λ kept. kept ≡ self.now) }
    {
        Ok(Record {
            bytes: Arc::try_clone(&self.bytes)?,
        })
    }

    /// The bytes.
    pub fn as_slice(&self) -> &[u8]
        ensures value { result.now ≡ self.now }
        ensures legal { IsLegalRecord self.now }
    {
        self.bytes.as_slice()
    }

    /// A view of its parts. Nothing is decoded.
    pub fn parts(&self) -> BoardBytes<'_>
        ensures value { (b : AnyBoard) → self.now ≡ record_of b → IsBoardBytes b result }
        ensures legal { IsLegalRecord self.now }
    {
        match split_board(self.as_slice()) {
            Some(board) => board,
            None => unreachable!(),
        }
    }

    /// Decodes the board.
    #[tactic(auto, using(crate::proofs::records::KeptRecord::board_fails_for_memory))]
    pub fn board(&self, alloc: Global) -> Result<Board, AllocError>
        ensures legal { IfOk result IsLegal }
        ensures record { IfOk result (λ board. self.now ≡ record_of board) }
        ensures only { (b : AnyBoard) → IsLegal b → self.now ≡ record_of b → IfOk result (λ board. board ≡ b) }
    {
        found(read_board(alloc, self.as_slice()))
    }

    /// Decodes the board without its snakes.
    #[tactic(auto, using(crate::proofs::records::KeptRecord::ground_fails_for_memory))]
    pub fn without_snakes(&self, alloc: Global) -> Result<Board, AllocError>
        ensures { (b : AnyBoard) → IsLegal b → self.now ≡ record_of b → IfOk result (λ board. board ≡ record b { snakes = [] }) }
    {
        found(read_without_snakes(alloc, self.as_slice()))
    }

    /// Decodes the snakes at `count` seats from `from` on; fewer if the board has no more. The
    /// others are skipped by their lengths.
    pub fn snakes(&self, alloc: Global, from: usize, count: usize) -> Result<Snakes, AllocError>
        ensures { (b : AnyBoard) → IsLegal b → self.now ≡ record_of b → IfOk result (λ snakes. snakes ≡ take count (drop from b.snakes)) }
    {
        found(read_seats(alloc, &self.parts(), from, count))
    }

    /// The turn of the board.
    pub fn turn(&self) -> u16
        ensures { (b : AnyBoard) → self.now ≡ record_of b → result ≡ b.turn }
    {
        self.parts().turn
    }

    /// The number of seats.
    pub fn seats(&self) -> usize
        ensures { (b : AnyBoard) → self.now ≡ record_of b → result ≡ length b.snakes }
    {
        self.parts().seats
    }

    /// Whether the game is over.
    pub fn is_over(&self) -> bool
        ensures { (b : AnyBoard) → self.now ≡ record_of b → result ≡ is_over b }
    {
        self.parts().is_over()
    }

    /// The width and height that each step is taken modulo; `None` if a step may leave the board.
    pub fn wrap(&self) -> Option<(u8, u8)>
        ensures { (b : AnyBoard) → self.now ≡ record_of b → result ≡ wrap_of b }
    {
        let board = self.parts();
        if board.mode.is_wrapped() {
            Some((board.width, board.height))
        } else {
            None
        }
    }
}
