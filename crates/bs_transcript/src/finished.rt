//! How many threads have rendered their lines of a round.
use std::sync::atomic::{AtomicU64, Ordering};

/// Counts the threads that have rendered their lines. It decides how much the calling thread
/// renders, and never what is written.
#[derive(Drop)]
pub(crate) struct Finished {
    count: AtomicU64,
}

impl Finished {
    /// None so far.
    pub(crate) fn none() -> Finished {
        Finished {
            count: AtomicU64::new(0),
        }
    }

    /// Counts one more.
    pub(crate) fn add(&self) {
        self.count.fetch_add(1, Ordering::SeqCst);
    }

    /// Whether at least that many have.
    pub(crate) fn has(&self, threads: u64) -> bool {
        self.count.load(Ordering::SeqCst) >= threads
    }
}

/// Where a thread stops to render.
#[derive(Clone, Copy)]
pub(crate) struct Limits<'f> {
    /// The number of the first line behind its lines.
    pub(crate) end: usize,
    /// No line has more bytes.
    pub(crate) longest: usize,
    /// It stops once at least `threads` of these have.
    pub(crate) finished: &'f Finished,
    pub(crate) threads: u64,
}
