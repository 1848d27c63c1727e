//! The lists of many games: game i has the i-th piece of each.

ghost use Rattle.std.specs.Prelude.{◌≡◌, ◌↔◌, ◌≤◌, IsTrue, slice_index};
ghost use Rattle.bs_batch.specs.Advancing.{act_of};
ghost use Rattle.bs_batch.specs.Starting.{food_of, has_to_start, piece_of, starts_of};
ghost use Rattle.bs_batch.specs.Games.{MayStep, words_of};

use crate::hazards::Hazards;
use crate::layout::{Cell, Head, LAST_TURN, SEATS, Settings, is_fit};
use crate::starting::FirstCells;
use crate::turns::Orders;
use bs_board::limits::MOST_WORDS;

/// The directions, words and hazards of many games.
#[repr(C)]
#[derive(Clone, Copy)]
pub struct ManyOrders<'a> {
    /// A byte for each seat: 0 to 3 for up, down, left and right, else straight on.
    pub moves: &'a [u8],
    /// The number of bytes of `moves` for each game.
    pub moves_each: usize,
    pub words: &'a [u32],
    /// The number of words for each game, of which the first 32 are used.
    pub words_each: usize,
    /// How many hazards are on each cell, row by row from the bottom; none where there is no byte.
    pub hazards: &'a [u8],
    /// The number of bytes of `hazards` for each game.
    pub hazards_each: usize,
    /// A byte for each game: the health that is lost for each hazard, 0 without one.
    pub damages: &'a [u8],
}

/// The settings and the first cells of many games.
#[repr(C)]
#[derive(Clone, Copy)]
pub struct ManyStarts<'a> {
    /// The starting cells of each game, one for each seat.
    pub starts: &'a [Cell],
    pub food: &'a [Cell],
    /// The number of cells of `food` for each game.
    pub food_each: usize,
    /// A byte for each game. `start_small` leaves a game of byte 0 as it is; what the bytes mean to
    /// `advance_small` is said there.
    pub which: &'a [u8],
    pub settings: Settings,
}

/// The piece of that number, of pieces of `each` entries; empty if the list is too short.
#[inline]
fn piece<T>(list: &[T], number: usize, each: usize) -> &[T]
    ensures { result.now ≡ piece_of list.now number each }
{
    let from = number.saturating_mul(each);
    if from > list.len() {
        return &[];
    }
    if each > list.len() - from {
        return &[];
    }
    &list[from..from + each]
}

/// The byte of the game of that number; 0 if there is none.
#[inline]
fn damage_of(damages: &[u8], number: usize) -> u8
    ensures { result ≡ slice_index damages.now number }
{
    if number < damages.len() {
        damages[number]
    } else {
        0
    }
}

/// The directions, words and hazards of the game of that number.
#[inline]
pub fn orders_of<'a>(orders: &ManyOrders<'a>, number: usize) -> Orders<'a>
    ensures moves { result.moves.now ≡ piece_of orders.now.moves.now number orders.now.moves_each }
    ensures words { result.words.now ≡ words_of orders.now.words.now number orders.now.words_each }
    ensures hazards { result.hazards.counts.now ≡ piece_of orders.now.hazards.now number orders.now.hazards_each }
    ensures damage { result.hazards.damage ≡ slice_index orders.now.damages.now number }
{
    let words = piece(orders.words, number, orders.words_each);
    let few = words.len().min(MOST_WORDS);
    Orders {
        moves: piece(orders.moves, number, orders.moves_each),
        words: &words[..few],
        hazards: Hazards {
            counts: piece(orders.hazards, number, orders.hazards_each),
            damage: damage_of(orders.damages, number),
        },
    }
}

/// The first cells of the game of that number.
pub fn cells_of<'a>(first: &ManyStarts<'a>, number: usize) -> FirstCells<'a>
    ensures starts { result.starts.now ≡ starts_of first.now number }
    ensures food { result.food.now ≡ food_of first.now number }
{
    let seats = usize::from(first.settings.seats);
    FirstCells {
        starts: piece(first.starts, number, seats),
        food: piece(first.food, number, first.food_each),
    }
}

/// Whether the game of that number is to start.
pub fn has_to_start(first: &ManyStarts<'_>, number: usize) -> bool
    ensures { result ≡ has_to_start first.now number }
{
    match first.which.get(number) {
        Some(byte) => *byte != 0,
        None => false,
    }
}

/// What is done with the game of that number: 0 for a turn, also if it has no byte, 1 for a start,
/// another for nothing.
#[inline]
pub fn act_of(first: &ManyStarts<'_>, number: usize) -> u8
    ensures { result ≡ act_of first.now number }
{
    match first.which.get(number) {
        Some(byte) => *byte,
        None => 0,
    }
}

/// Whether a turn can be played.
#[inline]
pub fn may_step(head: &Head, longest: u8) -> bool
    ensures seats { IsTrue result → head.now.settings.seats ≤ SEATS }
    ensures high { IsTrue result → head.now.settings.height ≤ longest }
    ensures exactly { IsTrue result ↔ MayStep longest head.now }
{
    head.over == 0 && head.turn < LAST_TURN && is_fit(&head.settings, longest)
}
