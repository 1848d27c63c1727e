//! The events of a core.
use crate::shared_row::SharedRow;
use bs_fiber::{JobName, SharedCommand};

/// A change of a game. Each call that changes a game is one event; `put_parts` is one for each
/// part, and `answer_here` one for each job taken or completed. A row and a worker have 32 bits
/// here, so that an event has 16 bytes.
#[derive(Debug, Drop)]
pub enum Event {
    /// A command is queued for the stay of that row.
    Hand(u32, SharedCommand),
    /// That worker takes a job.
    Take(u32, JobName),
    /// A job that the worker had out is completed.
    Put(u32, JobName),
    /// A stay is opened, in the next row.
    Admit(SharedRow),
    /// The stay of that row is closed.
    Leave(u32),
}

const _: () = prove!(size_of::<Event>() == 16);
