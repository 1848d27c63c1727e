//! A command file whose plan was parsed.
use bs_board::Plan;

/// A command file: its plan, the text after it, and the number of blocks to serve it with.
#[derive(Clone, Copy)]
pub(crate) struct CommandFile<'f> {
    pub(crate) blocks: usize,
    pub(crate) plan: &'f Plan,
    pub(crate) rest: Option<&'f [u8]>,
}
