//! Tests of the program's requests over memory: statuses, outputs, files by their names.
#![tactic(auto)]

#[cfg(test)]
mod devices;
#[cfg(test)]
mod files;
#[cfg(test)]
mod outputs;
#[cfg(test)]
mod statuses;
