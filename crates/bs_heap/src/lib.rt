//! The records of one tag within a quota, kept in blocks that the heap itself draws from a pool.
#![tactic(auto)]

mod blocks;
mod heap;

// A crate can name a heap in a contract only if the types of its fields are exported.
#[doc(hidden)]
pub use blocks::{Entry, TagBlocks};
pub use heap::{MOST_RECORD_BYTES, Quota, TagHeap, blocks_for};
