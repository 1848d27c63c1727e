//! Tests of bs_calls and bs_batch.
#![tactic(auto)]

#[cfg(test)]
mod calls;
#[cfg(test)]
mod steps;
