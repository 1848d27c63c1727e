//! One snake's part of a record, by itself: its size, writing it and reading it.

ghost use Rattle.std.specs.Prelude.{◌≡◌, ◌↔◌, ◌<◌, ◌≤◌, ◌^◌, true, length, IsTrue, All, IfOk, MatchResult};
ghost use Rattle.std.specs.Str.{is_utf8};
ghost use Rattle.bs_board.specs.declared.boards.snake.Snake.{Snake as AnySnake};
ghost use Rattle.bs_board.specs.declared.records.decode_error.Decode.TheVariants.{NotARecord, Memory};
ghost use Rattle.bs_board.specs.boards.Legal.{is_near};
ghost use Rattle.bs_board.specs.inner.Decoder.{Gives, read_only_snake};
ghost use Rattle.bs_board.specs.records.FitSnake.{IsFitSnake, IsKillerInRange, IsOutInRange};
ghost use Rattle.bs_board.specs.records.Record.{snake_record};

use crate::boards::legal::is_near;
use crate::boards::point::Point;
use crate::boards::snake::Snake;
use crate::limits::{FIRST_PARTS, FULL_HEALTH, LAST_TURN, LONGEST_SIDE, MOST_SNAKES};
use crate::records::decode_error::Decode;
use crate::records::decoding::read_snake;
use crate::records::encoding::put_snake;
use std::alloc::Global;

/// Returns the number of bytes of the snake's part of a record: at most 20,078 for a fit snake.
#[tactic(auto, using(crate::proofs::records::Lengths::length_of_snake))]
pub fn snake_size(snake: &Snake) -> usize
    requires { length (snake_record snake.now) < 2 ^ 64 }
    ensures { result ≡ length (snake_record snake.now) }
{
    8 + snake.id.len() + 2 * snake.body.len()
}

/// Writes the snake's part of a record over the whole slice, which has just that length.
#[tactic(auto, using(crate::proofs::records::FitSnake::fit_is_writable, crate::proofs::records::FitSnake::puts_all))]
pub fn encode_snake_into(snake: &Snake, into: &mut [u8])
    requires fit { IsFitSnake snake.now }
    requires room { length into.old ≡ length (snake_record snake.now) }
    ensures { into.new ≡ snake_record snake.now }
{
    put_snake(into, 0, snake);
}

/// Decodes a snake from its record. `NotARecord` if the bytes are not the record of a fit snake,
/// trailing bytes included; `Memory` only if memory runs out. A snake that has just moved is fit
/// too: it may have health 0, or its head off the board, with no cause yet.
pub fn decode_snake(alloc: Global, bytes: &[u8]) -> Result<Snake, Decode>
    // The snake that is read is fit, and the bytes are its part of a record.
    ensures found { IfOk result (λ s. IsFitSnake s × (bytes.now ≡ snake_record s)) }
    // The bytes of a fit snake are read unless memory runs out.
    ensures only { (s : AnySnake) → IsFitSnake s → bytes.now ≡ snake_record s
        → MatchResult result (λ read. read ≡ s) (λ error. error ≡ Memory) }
{
    let snake = read_only_snake(alloc, bytes)?;
    if_fit(snake)
}

/// Reads a snake, fit or not, from all of the bytes.
#[tactic(auto, unfolding(crate::specs::inner::Decoder::read_only_snake))]
fn read_only_snake(alloc: Global, bytes: &[u8]) -> Result<Snake, Decode>
    ensures { Gives (λ s. s) result (read_only_snake is_utf8 bytes.now) }
{
    let (snake, rest) = read_snake(alloc, bytes)?;
    if !rest.is_empty() {
        return Err(Decode::NotARecord);
    }
    Ok(snake)
}

/// Returns the snake if it is fit.
fn if_fit(snake: Snake) -> Result<Snake, Decode>
    ensures { MatchResult result
        (λ s. IsFitSnake snake × (s ≡ snake))
        (λ error. (error ≡ NotARecord) × (IsFitSnake snake → ⊥)) }
{
    if is_fit_snake(&snake) {
        Ok(snake)
    } else {
        Err(Decode::NotARecord)
    }
}

fn is_killer_in_range(killer: Option<usize>) -> bool
    ensures { IsTrue result ↔ IsKillerInRange killer }
{
    match killer {
        None => true,
        Some(seat) => seat < MOST_SNAKES,
    }
}

fn is_out_in_range(out: Option<u16>) -> bool
    ensures { IsTrue result ↔ IsOutInRange out }
{
    match out {
        None => true,
        Some(turn) => 1 <= turn && turn <= LAST_TURN,
    }
}

/// Whether no cell is more than one cell outside the largest board.
fn are_near(body: &[Point]) -> bool
    ensures { IsTrue result ↔ All (λ p. is_near LONGEST_SIDE LONGEST_SIDE p ≡ true) body.now }
{
    body.iter()
        .all(|part| is_near(LONGEST_SIDE, LONGEST_SIDE, *part))
}

/// Checks each field of the snake by itself, in the order of its record.
fn is_fit_snake(snake: &Snake) -> bool
    ensures { IsTrue result ↔ IsFitSnake snake.now }
{
    snake.id.is_short()
        && snake.health <= FULL_HEALTH
        && is_killer_in_range(snake.killer)
        && is_out_in_range(snake.out)
        && FIRST_PARTS <= snake.body.len()
        && snake.body.len() <= usize::from(LAST_TURN) + FIRST_PARTS
        && are_near(snake.body.as_slice())
}
