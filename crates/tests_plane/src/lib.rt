//! Tests of bs_plane: turns over a plane are compared with turns of the decoded board.
#![tactic(auto)]

#[cfg(test)]
mod answers;
#[cfg(test)]
mod boards;
#[cfg(test)]
mod draws;
#[cfg(test)]
mod games;
#[cfg(test)]
mod given;
#[cfg(test)]
mod orders;
