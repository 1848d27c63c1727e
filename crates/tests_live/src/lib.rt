//! Tests of the live host: its output for each line, and when it is flushed.
#![tactic(auto)]

#[cfg(test)]
mod devices;
#[cfg(test)]
mod faults;
#[cfg(test)]
mod files;
#[cfg(test)]
mod limits;
#[cfg(test)]
mod prompt;
#[cfg(test)]
mod stays;
