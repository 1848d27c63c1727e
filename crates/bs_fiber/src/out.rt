//! The output of a job.
use crate::moved::Moved;
use crate::piece::Piece;
use bs_game::Answer;

/// The output of a job.
#[derive(Debug, Drop)]
pub enum Out {
    /// Begin: the move is accepted, and its parts are next.
    Goes,
    /// Begin: the answer, unless the command is an accepted move.
    Answered(Answer),
    /// Part: the places of its moved snakes in its block.
    Moved(Moved),
    /// Join: the answer to the move, and the piece of part 0's block with the record that it adds.
    Joined(Answer, Option<Piece>),
}
