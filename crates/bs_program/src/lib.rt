//! Does what a command line asks for, over any reader and any writers: reads the file, serves it,
//! and returns the exit status.
#![tactic(auto)]

mod input;
mod opened;
mod recorded;
mod report;
mod request;
mod running;
mod source;
mod stream;

pub use input::Input;
pub use report::{concluded, reported};
pub use request::{Request, STANDARD_INPUT, Serving, Solo};
pub use running::run_request;
pub use source::Sources;
pub use stream::Output;
