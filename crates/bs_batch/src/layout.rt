//! The memory of a game.

ghost use Rattle.std.specs.Prelude.{◌≡◌, ◌↔◌, ◌≤◌, ◌<◌, IsTrue};
ghost use Rattle.bs_batch.specs.Numbers.{number_of};
ghost use Rattle.bs_batch.specs.Starting.{AreSettings, point_of};
ghost use Rattle.bs_batch.specs.Listing.{PlacesCell};

/// The most seats of a game.
pub const SEATS: usize = 8;

/// The columns of a plane with a margin. The cell in column x and row y has the number
/// `(y + 1) * 32 + x + 1`, so a head that has left the board by one cell has a number too.
pub const STRIDE: u16 = 32;

pub const STANDARD: u8 = 0;

pub const SOLO: u8 = 1;

pub const CONSTRICTOR: u8 = 2;

pub const WRAPPED: u8 = 3;

pub const ALIVE: u8 = 0;

pub const OUT_OF_HEALTH: u8 = 1;

pub const WALL_COLLISION: u8 = 2;

pub const SELF_COLLISION: u8 = 3;

pub const BODY_COLLISION: u8 = 4;

pub const HEAD_COLLISION: u8 = 5;

pub const HAZARD: u8 = 6;

/// The killer of a seat that has none.
pub const NO_SEAT: u8 = 255;

pub const FULL_HEALTH: u8 = 100;

/// The number of the last turn.
pub const LAST_TURN: u16 = 10_000;

/// The longest side of a small game.
pub const SMALL_SIDE: u8 = 11;

/// The longest side of a large game.
pub const LARGE_SIDE: u8 = 25;

/// The settings of a game.
#[repr(C)]
#[derive(Clone, Copy)]
pub struct Settings {
    /// 0 to 3: standard, solo, constrictor, wrapped.
    pub mode: u8,
    pub width: u8,
    pub height: u8,
    /// The number of seats, 1 to 8.
    pub seats: u8,
    pub min_food: u8,
    /// The chance of food in percent.
    pub chance: u8,
}

/// One seat of a game.
#[repr(C)]
#[derive(Clone, Copy)]
pub struct Seat {
    /// The number of parts of the body.
    pub parts: u16,
    /// The turn in which it went out, 0 for none.
    pub out: u16,
    pub health: u8,
    /// 0 for a living snake, else 1 to 5 as in a board's record.
    pub cause: u8,
    /// The seat of the killer, 255 for none.
    pub killer: u8,
    pub spare: u8,
}

/// A game without its cells.
#[repr(C)]
#[derive(Clone, Copy)]
pub struct Head {
    pub settings: Settings,
    pub turn: u16,
    /// The number of cells with food.
    pub foods: u16,
    /// The number of living snakes.
    pub living: u8,
    /// 1 once the game is over, else 0.
    pub over: u8,
    pub seats: [Seat; SEATS],
}

/// A game on a board of at most 11 by 11 cells. The body of seat i takes `bodies` from 125 i on,
/// its head first.
#[repr(C)]
#[derive(Drop)]
pub struct SmallGame {
    pub head: Head,
    pub food: [u16; 121],
    /// The number of parts of living snakes on each cell, and 128 more where food is.
    pub plane: [u8; 416],
    pub bodies: [u16; 1000],
}

/// A game on a board of at most 25 by 25 cells. The body of seat i takes `bodies` from 629 i on,
/// its head first.
#[repr(C)]
#[derive(Drop)]
pub struct LargeGame {
    pub head: Head,
    pub food: [u16; 625],
    /// The number of parts of living snakes on each cell, and 128 more where food is.
    pub plane: [u8; 864],
    pub bodies: [u16; 5032],
}

/// A cell of a board.
#[repr(C)]
#[derive(Clone, Copy)]
pub struct Cell {
    pub x: u8,
    pub y: u8,
}

/// A cell of a board, or one that is next to it.
#[repr(C)]
#[derive(Clone, Copy)]
pub struct Place {
    pub x: i8,
    pub y: i8,
}

/// A seat that has not started.
pub const NO_SNAKE: Seat = Seat {
    parts: 0,
    out: 0,
    health: 0,
    cause: 255,
    killer: NO_SEAT,
    spare: 0,
};

/// Whether the settings are those of a board with sides up to `longest`.
pub fn is_fit(settings: &Settings, longest: u8) -> bool
    ensures seats { IsTrue result → settings.now.seats ≤ SEATS }
    ensures wide { IsTrue result → settings.now.width ≤ longest }
    ensures high { IsTrue result → settings.now.height ≤ longest }
    ensures exactly { IsTrue result ↔ AreSettings longest settings.now }
{
    settings.mode <= WRAPPED
        && 3 <= settings.width
        && settings.width <= longest
        && 3 <= settings.height
        && settings.height <= longest
        && 1 <= settings.seats
        && settings.seats as usize <= SEATS
        && settings.chance <= 100
}

/// The number of the cell.
#[inline]
pub fn number_of(cell: Cell) -> u16
    ensures { result ≡ number_of (point_of cell) }
{
    (u16::from(cell.y) + 1) * STRIDE + u16::from(cell.x) + 1
}

/// The cell of the number.
#[inline]
pub fn place_of(number: u16) -> Place
    ensures { PlacesCell number result }
{
    Place {
        x: (number % STRIDE) as i8 - 1,
        y: (number / STRIDE).min(100) as i8 - 1,
    }
}
