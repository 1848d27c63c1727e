//! A job for which memory ran out.
use bs_pool::Owned;
use thiserror::Error;

/// Memory ran out before the job was completed. The frame blocks of the job are returned.
#[derive(Debug, Drop, Error)]
#[error("out of memory")]
pub struct Stopped<const CAP: usize> {
    pub blocks: Vec<Owned<CAP>>,
}
