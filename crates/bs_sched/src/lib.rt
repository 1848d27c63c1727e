//! The core: all stays, those of the plan and those admitted later; the jobs that execute their
//! commands; their records; and the journal of all events.
#![tactic(auto)]

mod answering;
mod answers;
mod assembling;
mod cores;
mod entry;
mod event;
mod fiber;
mod game;
mod games;
mod gathering;
mod journal;
mod law;
mod lone_stay;
mod merging;
mod opening;
mod packed;
mod parts;
mod plan_blocks;
mod putting;
mod ran;
mod shared_row;
mod sharing;
mod stage;
mod stays;
mod step;
mod taking;

pub use answering::NextCommand;
pub use assembling::Rest;
pub use bs_registry::{MOST_STAYS, blocks_of, blocks_of_all};
pub use cores::{Core, Counts, LEAST_CAPACITY, MOST_WORKERS};
pub use event::Event;
pub use journal::Journal;
pub use law::{assembly_law, isolation_law, stays_apart_law};
pub use lone_stay::LoneStay;
pub use opening::Open;
pub use putting::{Stray, Strays};
pub use shared_row::SharedRow;
pub use stage::Stage;
pub use stays::{Admit, Leave};
pub use step::Step;
pub use taking::Taken;
