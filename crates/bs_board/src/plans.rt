//! Plans: the version and the games of a command file.

pub mod plan;
pub mod row;
pub mod version;
