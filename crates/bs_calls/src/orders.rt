//! A move by seats.

ghost use Rattle.std.specs.Prelude.{◌≡◌, ◌≤◌, ◌++◌, [], IfOk, OnOk, length, take};
ghost use Rattle.bs_board.specs.declared.limits.TheConstants.{MOST_WORDS};
ghost use Rattle.bs_calls.specs.BySeat.{direction_from, in_front, moves_by_seat, rest_of};

use crate::cells::points_if;
use crate::front::front;
use bs_batch::Cell;
use bs_board::limits::MOST_WORDS;
use bs_board::{Direction, Id, Move, Moves, Snake, Words};
use std::alloc::{AllocError, Global};

/// The orders of one turn.
#[repr(C)]
#[derive(Clone, Copy)]
pub struct SeatOrders<'a> {
    /// A byte for each seat: 0 to 3 for up, down, left and right, else straight on, as for a seat
    /// without a byte.
    pub moves: &'a [u8],
    /// The words for food, of which the first 32 are used.
    pub words: &'a [u32],
    /// The hazards after the turn, if `has_hazards` is not 0.
    pub hazards: &'a [Cell],
    /// Food that is added at the end of the turn, if `has_food` is not 0.
    pub food: &'a [Cell],
    pub has_hazards: u8,
    pub has_food: u8,
}

fn direction_from(byte: u8) -> Option<Direction>
    ensures { result ≡ direction_from byte }
{
    if byte == 0 {
        Some(Direction::Up)
    } else if byte == 1 {
        Some(Direction::Down)
    } else if byte == 2 {
        Some(Direction::Left)
    } else if byte == 3 {
        Some(Direction::Right)
    } else {
        None
    }
}

/// Appends the direction of one seat, if it has one.
fn push_move(given: &mut Moves, id: &Id, direction: Option<Direction>) -> Result<(), AllocError>
    ensures { OnOk result (given.new ≡ given.old ++ in_front direction id.now []) }
{
    match direction {
        Some(direction) => given.push(id.as_bytes(), direction),
        None => Ok(()),
    }
}

/// The directions of the seats, as a move names them.
pub fn moves_by_seat(alloc: Global, bytes: &[u8], snakes: &[Snake]) -> Result<Moves, AllocError>
    ensures { IfOk result (λ moves. moves ≡ moves_by_seat bytes.now snakes.now) }
{
    let mut given = Moves::new(alloc);
    let count = bytes.len().min(snakes.len());
    for seat in 0..count {
        let direction = direction_from(bytes[seat]);
        push_move(&mut given, &snakes[seat].id, direction)?;
    }
    Ok(given)
}

fn words_of(alloc: Global, words: &[u32]) -> Result<Words, AllocError>
    ensures value { IfOk result (λ w. w ≡ take MOST_WORDS words.now) }
    ensures few { IfOk result (λ w. length w ≤ MOST_WORDS) }
{
    Ok(Words::from_vec(Vec::from_slice(alloc, front(words, MOST_WORDS))?))
}

/// The move without its directions.
pub fn rest_of(alloc: Global, orders: &SeatOrders<'_>) -> Result<Move, AllocError>
    ensures { IfOk result (λ rest. rest ≡ rest_of orders.now) }
{
    let words = words_of(alloc, orders.words)?;
    let hazards = points_if(alloc, orders.has_hazards, orders.hazards)?;
    let food = points_if(alloc, orders.has_food, orders.food)?;
    Ok(Move::new(Moves::new(alloc), words).with_map(hazards, food))
}
