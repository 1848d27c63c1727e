//! What a command line asks for.

/// The file name of the standard input.
pub const STANDARD_INPUT: &str = "-";

/// `arena serve`.
#[derive(Clone, Copy, Debug)]
pub struct Serving<'a> {
    pub file: &'a str,
    pub blocks: u16,
    pub workers: u16,
}

/// `arena alone`.
#[derive(Clone, Copy, Debug)]
pub struct Solo<'a> {
    pub file: &'a str,
    pub game: &'a str,
    /// The number of the stay among those of that game, from 1.
    pub stay: u32,
    pub blocks: u16,
}

/// The request of a command line.
#[derive(Clone, Copy, Debug)]
pub enum Request<'a> {
    Serve(Serving<'a>),
    Alone(Solo<'a>),
    /// The number of blocks.
    Live(u16),
}
