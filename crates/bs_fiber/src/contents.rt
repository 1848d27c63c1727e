//! The contents of a ticket: the input of its job, the job's frame blocks and its output.
use crate::input::Input;
use crate::out::Out;
use bs_pool::Owned;

/// The least capacity of a block in bytes: room for the moved snakes of a part, then a record.
pub const LEAST_CAPACITY: usize = 524_288;

/// The input of a job, its frame blocks and its output.
#[derive(Debug, Drop)]
pub struct Contents<const CAP: usize> {
    pub input: Input,
    /// The block of a part; for a Join the blocks of all parts, from part 0; none for a Begin.
    pub frames: Vec<Owned<CAP>>,
    /// The output, if the job was run. It lies here so that a `Done` is one pointer.
    pub(crate) out: Option<Out>,
}
