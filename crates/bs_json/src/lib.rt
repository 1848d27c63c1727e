//! The lines of command files and of transcripts: parses a line as a plan or a command, and writes
//! a reply as a line. Each line is taken by itself; bs_host combines the lines of a file.
#![tactic(auto)]

mod boards;
mod cell_texts;
mod commands;
mod compact;
mod limits;
pub mod line;
mod line_bounds;
mod maps;
mod minified;
mod moves;
pub mod name;
mod numbers;
mod ordered_moves;
mod pieces;
pub mod plan;
mod replies;
mod setups;
pub mod short;
mod shown_bytes;
mod text_buffer;
mod values;
mod written;

pub use boards::board_value;
pub use limits::{MAX_LINE, MOST_WORD, USUAL_CHANCE, USUAL_MIN_FOOD};
pub use line::{Line, Stray, read_line};
pub use line_bounds::{final_line_bound, reply_line_bound, stray_line_bound};
pub use name::Name;
pub use plan::{PlanFault, read_plan};
pub use replies::{
    final_line, push_final_line, push_reply_line, push_stray_line, reply_line, stray_line,
};
pub use short::{ShortCommand, ShortLine, read_short};
pub use text_buffer::TextBuffer;
