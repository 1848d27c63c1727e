//! Replies to commands.

ghost use Rattle.std.specs.Prelude.{◌≡◌, IfOk};

use crate::commands::command::Word;
use crate::records::kept_board::KeptBoard;
use std::alloc::{AllocError, Global};

/// Why a command was refused, in the order in which the reasons are judged.
#[derive(Clone, Copy, Debug, PartialEq, Eq)]
pub enum Refusal {
    /// G1: the line is no valid command.
    Unknown,
    /// G2: no game runs.
    NoGame,
    /// G3: a game runs already.
    Running,
    /// G4: the game is over.
    Over,
    /// G5: the last turn number is reached.
    Limit,
    /// G6: no record of that turn is kept.
    NoRecord,
    /// G7: the new record would exceed the quota.
    Quota,
}

/// The reply to a command. Its number is the charge of the game after the command, in bytes. A
/// board is kept as its record, since a transcript has as many boards as there are moves.
#[derive(Debug, Drop)]
pub enum Reply {
    Shown(Word, KeptBoard, u32),
    Plain(Word, u32),
    Refused(Refusal),
}

impl Reply {
    /// Copies the reply. A board that it shows is shared, so nothing is allocated.
    pub fn copy(&self, _alloc: Global) -> Result<Reply, AllocError>
        ensures { IfOk result (λ reply. reply ≡ self.now) }
    {
        match self {
            Reply::Shown(word, board, charge) => Ok(Reply::Shown(*word, board.share()?, *charge)),
            Reply::Plain(word, charge) => Ok(Reply::Plain(*word, *charge)),
            Reply::Refused(refusal) => Ok(Reply::Refused(*refusal)),
        }
    }
}
