//! Commands, their contents, and replies.

pub mod command;
pub mod equality;
pub mod moves;
pub mod orders;
mod packed;
pub mod reply;
pub mod setup;
pub mod starts;
pub mod words;
