//! A piece of a block.

/// The number of seats of a part; the last part may have fewer.
pub const SEATS: usize = 2;

/// A piece of a block: its first byte and its length.
#[derive(Clone, Copy, Debug, Default, PartialEq, Eq)]
pub struct Piece {
    pub at: usize,
    pub len: usize,
}
