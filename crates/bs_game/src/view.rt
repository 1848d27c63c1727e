//! What an answer reads of a game.
ghost use Rattle.std.specs.Prelude.{◌↔◌, IsTrue, IfSome};
ghost use Rattle.bs_board.specs.boards.Legal.{IsLegal};

use bs_board::limits::MOST_QUOTA;
use bs_board::{Board, is_legal};

/// What an answer reads of a game. No game runs if there is no last board.
#[derive(Debug, Drop)]
pub struct View {
    /// The largest charge of the game's records, in bytes.
    pub quota: u32,
    /// The charge of the kept records, in bytes.
    pub charge: u32,
    /// The number of kept turns, which end with the last board's.
    pub kept: usize,
    /// The newest board.
    pub last: Option<Board>,
    /// The board of the turn that the command names: present exactly if the command is `Turn` and
    /// that turn is kept.
    pub asked: Option<Board>,
}

fn is_legal_if_some(board: &Option<Board>) -> bool
    ensures { IsTrue result ↔ IfSome board.now IsLegal }
{
    match board {
        None => true,
        Some(board) => is_legal(board),
    }
}

impl View {
    ghost use Rattle.bs_game.specs.View.{IsFitView};

    /// Whether its boards are legal, and its charge is within a quota of at most 16,777,216 bytes.
    pub fn is_fit(&self) -> bool
        ensures { IsTrue result ↔ IsFitView self.now }
    {
        is_legal_if_some(&self.last)
            && is_legal_if_some(&self.asked)
            && self.charge <= self.quota
            && self.quota <= MOST_QUOTA
    }
}
