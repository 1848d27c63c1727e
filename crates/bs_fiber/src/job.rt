//! The names of jobs.
/// The kind of a job of the command in progress.
#[derive(Clone, Copy, Debug, PartialEq, Eq)]
pub enum JobKind {
    /// Judges the command, and answers it unless it is an accepted move.
    Begin,
    /// Moves the snakes of two seats.
    Part,
    /// Answers the move once all parts are done.
    Join,
}

/// A job of one game. It has 8 bytes, since a core's journal keeps each job's name twice.
#[derive(Clone, Copy, Debug, PartialEq, Eq)]
pub struct JobName {
    /// The row of the stay.
    pub game: u32,
    /// The kind of the job.
    pub kind: JobKind,
    /// The part of the move: part `p` moves the seats `2p` and `2p + 1`. 0 for a Begin or a Join.
    pub part: u8,
}
