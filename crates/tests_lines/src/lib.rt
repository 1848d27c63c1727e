//! Tests of bs_json, bs_transcript and bs_host by their public calls.
#![tactic(auto)]

#[cfg(test)]
mod cuts;
#[cfg(test)]
mod devices;
#[cfg(test)]
mod fakes;
#[cfg(test)]
mod files;
#[cfg(test)]
mod games;
#[cfg(test)]
mod gates;
#[cfg(test)]
mod lengths;
#[cfg(test)]
mod limits;
#[cfg(test)]
mod lines_read;
#[cfg(test)]
mod lines_written;
#[cfg(test)]
mod members;
#[cfg(test)]
mod parts;
#[cfg(test)]
mod plans;
#[cfg(test)]
mod plans_read;
#[cfg(test)]
mod rows;
#[cfg(test)]
mod serving;
#[cfg(test)]
mod setups_read;
#[cfg(test)]
mod stays;
#[cfg(test)]
mod summaries;
#[cfg(test)]
mod transcripts;
#[cfg(test)]
mod whole_files;
