//! The sizes in the host.
use bs_board::limits::MOST_ROWS;
use bs_registry::MOST_STAYS;

/// The size of a block, in bytes.
pub const BLOCK_BYTES: usize = 2_097_152;

/// The largest size of a command file, in bytes.
pub const MOST_FILE_BYTES: usize = 16_777_216;

/// A line opens at most one stay, so a file opens no more stays than a core has rows for.
const _: () = prove!(MOST_ROWS + MOST_FILE_BYTES <= MOST_STAYS);

/// A live host writes its answers once they have this number of bytes, before the next line. So at
/// most this number of bytes and one answer are held.
pub(crate) const LONG_TEXT: usize = 65_536;
