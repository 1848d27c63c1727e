//! Writes a transcript: each game's replies and final line, then the lines that belong to no game.
//! Its text is never in memory whole: lines are put into a buffer, and the buffer is written.
#![tactic(auto)]

mod bounds;
mod calls;
mod cursor;
mod fault;
mod finished;
mod line_buffer;
mod lines;
mod rendered;
mod renderer;
mod round;
mod section;
mod together;
mod write;
mod writing;

pub use calls::{Unrecorded, WriteCalls};
pub use fault::TranscriptFault;
pub use lines::{text, write_transcript, write_transcript_by};
pub use section::{Section, Transcript};
pub use write::{WriteFault, write_all_by, write_all_of};
