//! Stays that threads take one after the other, and blocks for them.
ghost use Rattle.std.specs.Prelude.{◌<◌, IfSome, length};

use bs_block::Block;
use std::sync::Mutex;
use std::sync::atomic::{AtomicU64, Ordering};

/// A list of blocks that waits for the thread that plays with them.
#[derive(Drop)]
pub(crate) struct Lot<const CAP: usize> {
    blocks: Mutex<Option<Vec<Block<CAP>>>>,
}

impl<const CAP: usize> Lot<CAP> {
    pub(crate) fn new(blocks: Vec<Block<CAP>>) -> Self {
        Lot {
            blocks: Mutex::new(Some(blocks)),
        }
    }

    /// Takes the list, if no thread has taken it.
    fn take(&self) -> Option<Vec<Block<CAP>>> {
        self.blocks.try_lock()?.take()
    }

    /// The list, if no thread has taken it.
    pub(crate) fn into_blocks(self) -> Option<Vec<Block<CAP>>> {
        let Lot { mut blocks } = self;
        blocks.get_mut().take()
    }
}

/// The rows of stays that no thread has taken yet.
#[derive(Drop)]
pub(crate) struct Turns<const CAP: usize> {
    pub(crate) rows: Vec<usize>,
    /// The first place of `rows` that no thread has asked for.
    next: AtomicU64,
    /// A list of blocks for each thread, if all their stays leave.
    pub(crate) shares: Vec<Lot<CAP>>,
    /// A list of blocks for each stay, if they stay open.
    pub(crate) lots: Vec<Lot<CAP>>,
}

impl<const CAP: usize> Turns<CAP> {
    pub(crate) fn new(rows: Vec<usize>, shares: Vec<Lot<CAP>>, lots: Vec<Lot<CAP>>) -> Self {
        Turns {
            rows,
            next: AtomicU64::new(0),
            shares,
            lots,
        }
    }

    /// The next place of `rows`. Each is returned once.
    pub(crate) fn next(&self) -> Option<usize>
        ensures { IfSome result (λ place. place < length self.now.rows.items) }
    {
        let place = self.next.fetch_add(1, Ordering::SeqCst) as usize;
        if place < self.rows.len() {
            Some(place)
        } else {
            None
        }
    }

    /// Takes the blocks of the thread of that number.
    pub(crate) fn take_share(&self, thread: usize) -> Option<Vec<Block<CAP>>> {
        self.shares.get(thread)?.take()
    }

    /// Takes the blocks of the stay at that place.
    pub(crate) fn take_lot(&self, place: usize) -> Option<Vec<Block<CAP>>> {
        self.lots.get(place)?.take()
    }
}
