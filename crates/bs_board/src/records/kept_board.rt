//! Legal boards, kept as their records.

use crate::boards::board::Board;
use crate::records::record::Record;
use std::alloc::{AllocError, Global};
use std::marker::Model;

/// A legal board, kept as its record, which is smaller than the board. It is one pointer, so that a
/// reply of any kind takes two machine words. Contracts see the board.
#[derive(Debug, Drop)]
pub struct KeptBoard {
    record: Record,
}

impl Model for KeptBoard {
    ghost use Rattle.bs_board.specs.declared.boards.board.Board.{Board};
    ghost use Rattle.bs_board.specs.records.Kept.{IsLegalRecord};
    ghost use Rattle.bs_board.specs.inner.Kept.{board_in};

    ghost Value = { Board };

    ghost view = { λ k. board_in k.record };

    ghost invariant = { λ k. IsLegalRecord k.record };
}

impl KeptBoard {
    ghost use Rattle.std.specs.Prelude.{◌≡◌, IfOk};
    ghost use Rattle.bs_board.specs.declared.boards.board.Board.{Board as AnyBoard};
    ghost use Rattle.bs_board.specs.boards.Legal.{IsLegal};
    ghost use Rattle.bs_board.specs.records.Record.{record_of};

    /// The board of a record.
    #[tactic(auto, using(crate::proofs::records::KeptRecord::only_board_in))]
    pub fn of_record(shared: Record) -> KeptBoard
        ensures { (b : AnyBoard) → IsLegal b → shared ≡ record_of b → result ≡ b }
    {
        let _bytes = shared.as_slice();
        KeptBoard { record: shared }
    }

    /// Encodes a legal board.
    pub fn of(alloc: Global, board: &Board) -> Result<KeptBoard, AllocError>
        requires { IsLegal board.now }
        ensures { IfOk result (λ kept. kept ≡ board.now) }
    {
        Ok(KeptBoard::of_record(Record::of(alloc, board)?))
    }

    /// Decodes the board.
    #[tactic(auto, using(crate::proofs::records::KeptRecord::legal_board_in, crate::proofs::records::KeptRecord::record_of_board_in))]
    pub fn board(&self, alloc: Global) -> Result<Board, AllocError>
        ensures value { IfOk result (λ board. board ≡ self.now) }
        ensures legal { IsLegal self.now }
    {
        self.record.board(alloc)
    }

    /// The record of the board.
    #[tactic(auto, using(crate::proofs::records::KeptRecord::record_of_board_in))]
    pub fn shared(&self) -> &Record
        ensures value { result.now ≡ record_of self.now }
        ensures legal { IsLegal self.now }
    {
        &self.record
    }

    /// The bytes of the board's record.
    #[tactic(auto, using(crate::proofs::records::KeptRecord::record_of_board_in))]
    pub fn record(&self) -> &[u8]
        ensures value { result.now ≡ record_of self.now }
        ensures legal { IsLegal self.now }
    {
        self.record.as_slice()
    }

    /// Adds a handle to the same record. Allocates nothing.
    pub fn share(&self) -> Result<KeptBoard, AllocError>
        ensures { IfOk result (λ kept. kept ≡ self.now) }
    {
        Ok(KeptBoard {
            record: self.record.share()?,
        })
    }
}
