//! The limits of lines and of their members.

/// The largest length of a line in bytes, without its line feed.
pub const MAX_LINE: usize = 65_536;

/// The default of the minimum of food.
pub const USUAL_MIN_FOOD: u8 = 1;

/// The default of the chance of food, in percent.
pub const USUAL_CHANCE: u8 = 15;

/// The default of the damage of hazards.
pub const USUAL_DAMAGE: u8 = 14;

/// The largest number of cells of food that a move gives.
pub const MOST_FOOD: usize = 625;

/// The largest word.
pub const MOST_WORD: u32 = u32::MAX;
