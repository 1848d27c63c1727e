//! A turn from record to record: a plane of counts is kept beside a game, and a move in which no
//! snake goes out is played from the bytes of the last record to those of the new one.
#![tactic(auto)]

mod answering;
mod cache;
mod cell;
mod food;
mod given;
mod law;
mod motion;
mod plane;
mod stepper;
mod writing;

pub use cache::PlaneCache;
pub use law::quiet_law;
pub use stepper::Stepper;
