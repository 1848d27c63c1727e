//! The rules for C: exact calls on records, and the calls of bs_batch on games in the caller's
//! memory.
#![tactic(auto)]

mod large;
mod layout;
mod records;
mod slots;
mod small;
mod status;
