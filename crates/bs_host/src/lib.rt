//! Serves a command file: reads its bytes, answers the commands of each game in a core, and writes
//! the transcript. Also cuts a file to one stay of a game: its own lines as a file.
#![tactic(auto)]

mod calls;
mod cut_fault;
mod cutting;
mod fault;
mod file;
mod limits;
mod lines;
mod live;
mod live_host;
mod live_stays;
mod open_rows;
mod parse;
mod plain;
mod played;
mod read;
mod render;
mod route;
mod serving;

pub use calls::ReadCalls;
pub use cut_fault::Cut;
pub use cutting::{cut, section_law};
pub use fault::{Fault, PlanRefusal};
pub use limits::{BLOCK_BYTES, MOST_FILE_BYTES};
pub use live::{live_law, serve_live, serve_live_by};
pub use plain::plain_law;
pub use read::{ReadFault, read_input, read_input_by};
pub use serving::{serve, serve_by};
