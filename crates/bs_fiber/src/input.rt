//! What a job reads.
use crate::job::JobName;
use crate::parts::Parts;
use crate::shared::SharedCommand;
use bs_board::Record;

/// All that a job reads.
#[derive(Debug, Drop)]
pub struct Input {
    /// The job.
    pub job: JobName,
    /// The worker that took the job, by its number in a core's journal.
    pub worker: u32,
    /// The number of the command in its game, from 1.
    pub seq: u64,
    /// The largest charge of the game's records, in bytes.
    pub quota: u32,
    /// The charge of the kept records, in bytes.
    pub charge: u32,
    /// The number of kept turns.
    pub kept: usize,
    /// The record of the newest board.
    pub last: Option<Record>,
    /// The record of the turn that the command names, if it is kept.
    pub asked: Option<Record>,
    /// The command in progress.
    pub command: SharedCommand,
    /// The places of the parts' moved snakes; only a Join reads them.
    pub parts: Parts,
}
