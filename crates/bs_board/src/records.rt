//! Records: the bytes of a board.

pub mod decode_error;
pub mod decoding;
pub mod encoding;
pub mod kept;
pub mod kept_board;
pub mod layout;
pub mod record;
pub mod sizes;
pub mod snake;
pub mod stepped;
