//! Memory that a thread takes from the system at once.
use std::alloc::{AllocError, Global};

/// The number of bytes of a piece. Once one was freed, glibc serves requests up to this size from
/// heaps; larger ones it still takes from the system one by one.
const PIECE: usize = 1_048_576;

/// The number of pieces for a thread.
const PIECES: usize = 8;

/// Has the allocator take memory from the system for the small requests of the calling thread that
/// follow: it takes pieces, and frees them all. glibc gives each thread but the first a heap that
/// grows by as little as a page, each time by a system call for which the page faults of all threads
/// wait. A page is not used before it is written. If the system refuses a piece, there are fewer.
pub fn take_ahead(alloc: Global) {
    let mut pieces: Vec<Vec<u8>> = Vec::new(alloc);
    for _ in 0..PIECES {
        let piece: Result<Vec<u8>, AllocError> = Vec::with_capacity(alloc, PIECE);
        let Ok(piece) = piece else {
            return;
        };
        if pieces.push(piece).is_err() {
            return;
        }
    }
}
