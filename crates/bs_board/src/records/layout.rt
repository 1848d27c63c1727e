//! Views of the fields of a record. Ids, cells and snakes are borrowed from its bytes; the other
//! fields are decoded. No board is built, and legality is not checked.
ghost use Rattle.std.specs.Prelude.{◌≡◌, ◌++◌, ◌≤◌, ℕ, List, MatchOption, None, Option, false, is_some, nat_le, count_by, drop, flat_map, length, take, unwrap_or};
ghost use Rattle.bs_board.specs.declared.boards.board.Board.{Board as AnyBoard};
ghost use Rattle.bs_board.specs.declared.boards.board.Mode.TheVariants.{Standard};
ghost use Rattle.bs_board.specs.declared.boards.hazards.Hazards.{Hazards as AnyHazards};
ghost use Rattle.bs_board.specs.declared.boards.snake.Snake.{Snake as AnySnake};
ghost use Rattle.bs_board.specs.boards.Over.{is_living};
ghost use Rattle.bs_board.specs.records.Layout.{IsSnakeBytes, IsBoardBytes, cells_of, damage_of};
ghost use Rattle.bs_board.specs.inner.Decoder.{cause_from_byte, kind_from_bytes};
ghost use Rattle.bs_board.specs.records.Record.{cell_bytes, hazard_bytes, record_of, snake_record, state_bytes};

use crate::boards::board::Mode;
use crate::boards::snake::Cause;
use crate::records::decoding::{from_two_bytes, killer_from_byte, out_from_number};

/// The number of bytes of a cell.
const CELL: usize = 2;

/// A view of a snake's record.
#[derive(Clone, Copy)]
pub struct SnakeBytes<'r> {
    pub id: &'r [u8],
    pub health: u8,
    pub cause: Option<Cause>,
    pub killer: Option<usize>,
    pub out: Option<u16>,
    /// The cells of the body, two bytes each.
    pub body: &'r [u8],
}

/// A view of a board's record.
#[derive(Clone, Copy)]
pub struct BoardBytes<'r> {
    pub mode: Mode,
    pub width: u8,
    pub height: u8,
    pub turn: u16,
    pub min_food: u8,
    pub chance: u8,
    /// The cells of the food, two bytes each.
    pub food: &'r [u8],
    /// Whether the game has hazards.
    pub hazardous: bool,
    /// The damage of the hazards; 0 if there are none.
    pub damage: u8,
    /// The cells of the hazards, two bytes each.
    pub hazards: &'r [u8],
    /// The number of snakes.
    pub seats: usize,
    /// The records of the snakes, one after the other.
    pub snakes: &'r [u8],
}

/// Splits the bytes at `count`, or at their end if there are fewer.
#[inline(always)]
pub(crate) fn cut(count: usize, bytes: &[u8]) -> (&[u8], &[u8])
    ensures front { result.0.now ≡ take count bytes.now }
    ensures rest { result.1.now ≡ drop count bytes.now }
{
    if count <= bytes.len() {
        bytes.split_at(count)
    } else {
        (bytes, &[])
    }
}

/// Splits off an id, whose length comes first.
#[inline(always)]
fn split_id(bytes: &[u8]) -> (&[u8], &[u8])
    ensures { (s : AnySnake) (rest : List ℕ) → bytes.now ≡ snake_record s ++ rest
        → (result.0.now ≡ s.id) × (result.1.now ≡ state_bytes s ++ (flat_map (cell_bytes 1) s.body ++ rest)) }
{
    match bytes {
        [len, rest @ ..] => cut(usize::from(*len), rest),
        [] => (&[], &[]),
    }
}

/// The cause that the byte stands for; `None` for 0 and for an unknown byte.
#[inline(always)]
fn known_cause(byte: u8) -> Option<Cause>
    ensures { result ≡ unwrap_or (cause_from_byte byte) None }
{
    match byte {
        1 => Some(Cause::OutOfHealth),
        2 => Some(Cause::WallCollision),
        3 => Some(Cause::SelfCollision),
        4 => Some(Cause::BodyCollision),
        5 => Some(Cause::HeadCollision),
        6 => Some(Cause::Hazard),
        _ => None,
    }
}

/// Whether there are hazards, and the mode, by the version and the byte; no hazards and `Standard`
/// for an unknown pair.
#[inline(always)]
fn known_kind(version: u8, byte: u8) -> (bool, Mode)
    ensures { result ≡ unwrap_or (kind_from_bytes version byte) (false, Standard) }
{
    match (version, byte) {
        (1, 1) => (false, Mode::Solo),
        (1, 2) => (false, Mode::Constrictor),
        (2, 3) => (false, Mode::Wrapped),
        (3, 0) => (true, Mode::Standard),
        (3, 1) => (true, Mode::Solo),
        (3, 2) => (true, Mode::Constrictor),
        (3, 3) => (true, Mode::Wrapped),
        _ => (false, Mode::Standard),
    }
}

/// The damage of the hazards, their cells, and the bytes that follow.
#[inline(always)]
fn split_hazards(hazardous: bool, bytes: &[u8]) -> (u8, &[u8], &[u8])
    ensures { (h : Option AnyHazards) (rest : List ℕ) → hazardous ≡ is_some h → bytes.now ≡ hazard_bytes h ++ rest
        → (result.0 ≡ damage_of h) × (result.1.now ≡ flat_map (cell_bytes 0) (cells_of h)) × (result.2.now ≡ rest) }
{
    if !hazardous {
        return (0, &[], bytes);
    }
    match bytes {
        [damage, high, low, cells @ ..] => {
            let count = usize::from(from_two_bytes(*high, *low));
            let (hazards, rest) = cut(CELL * count, cells);
            (*damage, hazards, rest)
        }
        _ => (0, &[], &[]),
    }
}

/// Splits the bytes after a snake's id into the snake's fields and the bytes that follow.
#[inline(always)]
fn split_state<'r>(id: &'r [u8], bytes: &'r [u8]) -> (SnakeBytes<'r>, &'r [u8])
    ensures { (s : AnySnake) (rest : List ℕ) → id.now ≡ s.id → bytes.now ≡ state_bytes s ++ (flat_map (cell_bytes 1) s.body ++ rest)
        → IsSnakeBytes s result.0 × (result.1.now ≡ rest) }
{
    match bytes {
        [
            health,
            cause,
            killer,
            out_high,
            out_low,
            parts_high,
            parts_low,
            cells @ ..,
        ] => {
            let parts = usize::from(from_two_bytes(*parts_high, *parts_low));
            let (body, rest) = cut(CELL * parts, cells);
            let snake = SnakeBytes {
                id,
                health: *health,
                cause: known_cause(*cause),
                killer: killer_from_byte(*killer),
                out: out_from_number(from_two_bytes(*out_high, *out_low)),
                body,
            };
            (snake, rest)
        }
        _ => {
            let nobody = SnakeBytes {
                id,
                health: 0,
                cause: None,
                killer: None,
                out: None,
                body: &[],
            };
            (nobody, &[])
        }
    }
}

/// Splits off the first of several snakes' records.
#[inline(always)]
pub fn split_snake(bytes: &[u8]) -> (SnakeBytes<'_>, &[u8])
    ensures { (s : AnySnake) (rest : List ℕ) → bytes.now ≡ snake_record s ++ rest → IsSnakeBytes s result.0 × (result.1.now ≡ rest) }
{
    let (id, rest) = split_id(bytes);
    split_state(id, rest)
}

/// Splits the record of a board. `None` if the bytes are too few for one.
#[inline(always)]
pub(crate) fn split_board(bytes: &[u8]) -> Option<BoardBytes<'_>>
    ensures { (b : AnyBoard) → bytes.now ≡ record_of b → MatchOption result ⊥ (IsBoardBytes b) }
{
    match bytes {
        [
            version,
            mode,
            width,
            height,
            turn_high,
            turn_low,
            min_food,
            chance,
            seats,
            food_high,
            food_low,
            rest @ ..,
        ] => {
            let count = usize::from(from_two_bytes(*food_high, *food_low));
            let (food, rest) = cut(CELL * count, rest);
            let (hazardous, mode) = known_kind(*version, *mode);
            let (damage, hazards, snakes) = split_hazards(hazardous, rest);
            Some(BoardBytes {
                mode,
                width: *width,
                height: *height,
                turn: from_two_bytes(*turn_high, *turn_low),
                min_food: *min_food,
                chance: *chance,
                food,
                hazardous,
                damage,
                hazards,
                seats: usize::from(*seats),
                snakes,
            })
        }
        _ => None,
    }
}

impl SnakeBytes<'_> {
    ghost use Rattle.std.specs.Prelude.{◌≡◌, is_none};

    /// Whether the snake is alive.
    pub fn is_living(&self) -> bool
        ensures { result ≡ is_none self.now.cause }
    {
        self.cause.is_none()
    }
}

/// Whether a snake is alive, by the bytes of its record after the id.
#[inline(always)]
fn lives(state: &[u8]) -> bool
    ensures { (s : AnySnake) (rest : List ℕ) → state.now ≡ state_bytes s ++ (flat_map (cell_bytes 1) s.body ++ rest)
        → result ≡ is_living s }
{
    match state {
        [_, cause, _, _, _, _, _, ..] => *cause == 0,
        _ => false,
    }
}

/// Skips the bytes after a snake's id. `None` if they are too few for a record.
#[inline(always)]
fn skip_state(state: &[u8]) -> Option<&[u8]>
    ensures { (s : AnySnake) (rest : List ℕ) → state.now ≡ state_bytes s ++ (flat_map (cell_bytes 1) s.body ++ rest)
        → MatchOption result ⊥ (λ left. left.now ≡ rest) }
{
    match state {
        [_, _, _, _, _, high, low, cells @ ..] => {
            let size = CELL * usize::from(from_two_bytes(*high, *low));
            if cells.len() < size {
                return None;
            }
            Some(cells.split_at(size).1)
        }
        _ => None,
    }
}

/// Whether at most `most` of the first `count` snakes are alive.
fn live_at_most(most: usize, count: usize, bytes: &[u8]) -> bool
    ensures { (snakes : List AnySnake) → length snakes ≡ count → bytes.now ≡ flat_map snake_record snakes
        → result ≡ nat_le (count_by is_living snakes) most }
{
    let mut spare = most;
    let mut left = bytes;
    for _ in 0..count {
        let (_, state) = split_id(left);
        if lives(state) {
            if spare == 0 {
                return false;
            }
            spare -= 1;
        }
        let Some(rest) = skip_state(state) else {
            return true;
        };
        left = rest;
    }
    true
}

/// Skips the records of the first `count` snakes.
pub fn skip_snakes(count: usize, bytes: &[u8]) -> &[u8]
    ensures { (snakes : List AnySnake) → bytes.now ≡ flat_map snake_record snakes → count ≤ length snakes
        → result.now ≡ flat_map snake_record (drop count snakes) }
{
    let mut left = bytes;
    for _ in 0..count {
        let (_, rest) = split_snake(left);
        left = rest;
    }
    left
}

impl BoardBytes<'_> {
    ghost use Rattle.std.specs.Prelude.{◌≡◌};
    ghost use Rattle.bs_board.specs.declared.boards.board.Board.{Board as AnyBoard};
    ghost use Rattle.bs_board.specs.boards.Over.{is_over};
    ghost use Rattle.bs_board.specs.records.Layout.{IsBoardBytes};

    /// Whether the game is over.
    pub fn is_over(&self) -> bool
        ensures { (b : AnyBoard) → IsBoardBytes b self.now → result ≡ is_over b }
    {
        live_at_most(self.mode.last_living(), self.seats, self.snakes)
    }
}
