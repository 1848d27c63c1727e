//! A Battlesnake board, its snakes, and the values that the crates above pass to one another: the
//! contents of commands, replies and plans. Each type has a copy; a board can be tested for
//! legality, and written to and read from its record.
#![tactic(auto)]

pub mod boards;
pub mod commands;
pub mod id;
pub mod limits;
pub mod plans;
pub mod records;

pub use boards::area::has_cell;
pub use boards::board::{Board, Mode};
pub use boards::body::head_of;
pub use boards::cells::Cells;
pub use boards::hazards::{Hazards, copy_hazards};
pub use boards::legal::is_legal;
pub use boards::point::{Direction, Point};
pub use boards::snake::{Cause, Snake};
pub use boards::snakes::Snakes;
pub use commands::command::{Command, TurnNumber, Word};
pub use commands::moves::Moves;
pub use commands::orders::Move;
pub use commands::reply::{Refusal, Reply};
pub use commands::setup::New;
pub use commands::starts::Starts;
pub use commands::words::Words;
pub use id::Id;
pub use plans::plan::{Plan, Rows};
pub use plans::row::Row;
pub use plans::version::Version;
pub use records::decode_error::Decode;
pub use records::decoding::decode;
pub use records::encoding::{encode, encode_into};
pub use records::kept_board::KeptBoard;
pub use records::layout::{BoardBytes, SnakeBytes, skip_snakes, split_snake};
pub use records::record::Record;
pub use records::sizes::size;
pub use records::snake::{decode_snake, encode_snake_into, snake_size};
pub use records::stepped::encode_stepped_into;
