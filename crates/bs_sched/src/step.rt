//! The acts of a file in their order, without the commands themselves.
use crate::shared_row::SharedRow;

/// An act of a file: a command, an admission or a leave. The command itself is the next one of its
/// stay, in the stay's journal.
#[derive(Debug, Drop)]
pub enum Step {
    /// A command is queued for the stay of that row.
    Hand(u32),
    /// A stay is opened, in the next row.
    Admit(SharedRow),
    /// The stay of that row is closed.
    Leave(u32),
}
