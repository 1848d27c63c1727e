//! Tests of the crates below the core: blocks, pools, heaps, boards and their records, and the
//! rules of a game.
#![tactic(auto)]

#[cfg(test)]
mod blocks;
#[cfg(test)]
mod boards;
#[cfg(test)]
mod compare;
#[cfg(test)]
mod food;
#[cfg(test)]
mod games;
#[cfg(test)]
mod hazards;
#[cfg(test)]
mod heaps;
#[cfg(test)]
mod modes;
#[cfg(test)]
mod pools;
#[cfg(test)]
mod records;
#[cfg(test)]
mod rules;
#[cfg(test)]
mod snake_records;
#[cfg(test)]
mod texts;
#[cfg(test)]
mod values;
#[cfg(test)]
mod written_out;
