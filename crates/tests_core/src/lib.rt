//! Tests of bs_registry, bs_counter, bs_fiber, bs_sched and bs_workers, over their public calls.
#![tactic(auto)]

#[cfg(test)]
mod asked;
#[cfg(test)]
mod coming;
#[cfg(test)]
mod cores;
#[cfg(test)]
mod counters;
#[cfg(test)]
mod drawn;
#[cfg(test)]
mod fibers;
#[cfg(test)]
mod gates;
#[cfg(test)]
mod here;
#[cfg(test)]
mod journals;
#[cfg(test)]
mod meetings;
#[cfg(test)]
mod player;
#[cfg(test)]
mod registry;
#[cfg(test)]
mod runs;
#[cfg(test)]
mod stays;
#[cfg(test)]
mod stays_runs;
#[cfg(test)]
mod threads;
