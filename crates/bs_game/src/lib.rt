//! One command of a game: whether it is refused, its reply, and its effect on the kept records.
#![tactic(auto)]

mod answering;
mod checking;
mod law;
mod quota;
mod reply;
mod turns;
mod view;

pub use answering::{answer, joined, joined_within, refuse, show};
pub use checking::{check, check_move, check_unseen};
pub use law::{answer_law, course_law};
pub use reply::{Answer, Effect};
pub use turns::{place_law, place_of_turn};
pub use view::View;
