//! The limits of boards, games, commands and plans, each named once.

/// The shortest side of a board, in cells.
pub const SHORTEST_SIDE: u8 = 3;

/// The longest side of a board, in cells.
pub const LONGEST_SIDE: u8 = 25;

/// The largest number of snakes on a board.
pub const MOST_SNAKES: usize = 8;

/// The number of parts that a snake starts with. It never has fewer, and at most one more for each
/// turn.
pub const FIRST_PARTS: usize = 3;

/// The health of a snake at the start and after food.
pub const FULL_HEALTH: u8 = 100;

/// The largest minimum of food, which fits into a byte.
pub const MOST_MIN_FOOD: u8 = 255;

/// The largest chance of food, in percent.
pub const MOST_CHANCE: u8 = 100;

/// The largest damage of a hazard.
pub const MOST_DAMAGE: u8 = 100;

/// The largest number of entries of a board's list of hazards.
pub const MOST_HAZARDS: usize = 2_500;

/// The number of the last turn of a game.
pub const LAST_TURN: u16 = 10_000;

/// The largest length of the id of a snake or a game, in bytes.
pub const LONGEST_ID: usize = 64;

/// The largest number of words of a move.
pub const MOST_WORDS: usize = 32;

/// The largest number of games of a plan.
pub const MOST_ROWS: usize = 64;

/// The smallest quota of a game, in bytes.
pub const LEAST_QUOTA: u32 = 16;

/// The largest quota of a game, in bytes.
pub const MOST_QUOTA: u32 = 16_777_216;

/// The largest length of a legal board's record, in bytes.
pub const LONGEST_RECORD: usize = 166_888;
