//! Scenes that make the calls of the libraries one by one, each a second time if it reported that
//! memory ran out. Each is a test, which passes if nothing is refused. `tests/refused_calls`
//! refuses the requests of each call in turn.
#![tactic(auto)]

#[cfg(test)]
mod apart;
#[cfg(test)]
mod assembly;
#[cfg(test)]
mod blocks;
#[cfg(test)]
mod boards;
#[cfg(test)]
mod cores;
#[cfg(test)]
mod fault;
#[cfg(test)]
mod games;
#[cfg(test)]
mod jobs;
#[cfg(test)]
mod live;
#[cfg(test)]
mod page;
#[cfg(test)]
mod play;
#[cfg(test)]
mod scene;
#[cfg(test)]
mod scenes;
#[cfg(test)]
mod texts;
#[cfg(test)]
mod turns;
#[cfg(test)]
mod values;
