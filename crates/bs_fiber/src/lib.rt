//! The jobs of a command and their results: a Begin; for a move also the parts, which move the
//! snakes, and a Join. A job reads its ticket alone.
#![tactic(auto)]

mod beginning;
mod contents;
mod done;
mod expected;
mod frames;
mod input;
mod job;
mod joining;
mod moved;
mod moving;
mod out;
mod parted;
mod parts;
mod piece;
mod shared;
mod stopped;
mod ticket;
mod viewing;

pub use contents::{Contents, LEAST_CAPACITY};
pub use done::{Done, work};
pub use expected::Expected;
pub use input::Input;
pub use job::{JobKind, JobName};
pub use moved::Moved;
pub use out::Out;
pub use parts::Parts;
pub use piece::{Piece, SEATS};
pub use shared::SharedCommand;
pub use stopped::Stopped;
pub use ticket::Ticket;
