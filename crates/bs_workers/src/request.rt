//! What a run is asked to do, and with what.
use crate::act::Act;
use std::alloc::Global;

/// The acts of a run, with all that stays the same while it goes on.
#[derive(Drop)]
pub(crate) struct Request<'a, R, G> {
    pub(crate) rt: &'a R,
    pub(crate) alloc: Global,
    pub(crate) acts: &'a [Act],
    /// How many threads may work at a time.
    pub(crate) threads: usize,
    pub(crate) gate: &'a G,
}
