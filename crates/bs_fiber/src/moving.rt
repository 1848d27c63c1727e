//! The jobs that move the snakes, two seats each.
ghost use Rattle.std.specs.Prelude.{◌≡◌, ◌≤◌, [], ◌∷◌, ◌++◌, ℕ, List, length};
ghost use Rattle.bs_block.specs.Bytes.{HasRoom, padded};
ghost use Rattle.bs_board.specs.declared.boards.board.Board.{Board as AnyBoard};
ghost use Rattle.bs_board.specs.declared.boards.snake.Snake.{Snake as AnySnake};
ghost use Rattle.bs_board.specs.boards.Legal.{IsLegal};
ghost use Rattle.bs_board.specs.boards.Wrap.{wrap_of};
ghost use Rattle.bs_board.specs.records.Layout.{IsSnakeBytes};
ghost use Rattle.bs_board.specs.records.Record.{record_of, snake_record};
ghost use Rattle.bs_game.specs.declared.view.View.{View as AnyView};
ghost use Rattle.bs_rules.specs.Motion.{given_to, moved_seats};
ghost use Rattle.bs_fiber.specs.Fit.{IsFitGame};
ghost use Rattle.bs_fiber.specs.Frames.{frame_of, pieces_from};
ghost use Rattle.bs_fiber.specs.Seeing.{IsSeen};
ghost use Rattle.bs_fiber.specs.Tickets.{bytes_of, frames_in, names_of};
ghost use Rattle.bs_fiber.specs.Work.{moves_in, seats_of, moved_part};
ghost use Rattle.bs_fiber.specs.inner.Moving.{BeginWith, IsSeat, moved_by};

use crate::contents::LEAST_CAPACITY;
use crate::input::Input;
use crate::moved::Moved;
use crate::piece::{Piece, SEATS};
use arrayvec::ArrayVec;
use bs_board::{
    Command, Direction, Record, SnakeBytes, encode_stepped_into, skip_snakes, split_snake,
};
use bs_pool::Owned;
use bs_rules::next_head;

/// The direction that the command gives to the id of these bytes.
#[inline(always)]
fn given_in(command: &Command, id: &[u8]) -> Option<Direction>
    ensures { result ≡ given_to (moves_in command.now) id.now }
{
    match command {
        Command::Move(orders) => orders.moves.direction_for(id),
        _ => None,
    }
}

/// Writes the record of the moved snake. `before` is the one that it had.
fn write_moved(
    snake: &SnakeBytes<'_>,
    before: &[u8],
    command: &Command,
    wrap: Option<(u8, u8)>,
    into: &mut [u8],
)
    requires { (s : AnySnake) × IsSeat wrap s × IsSnakeBytes s snake.now × (before.now ≡ snake_record s) × (length into.old ≡ length before.now) }
    ensures { (s : AnySnake) → IsSeat wrap s → IsSnakeBytes s snake.now → before.now ≡ snake_record s → into.new ≡ snake_record (moved_by wrap (moves_in command.now) s) }
{
    if snake.is_living() {
        let given = given_in(command, snake.id);
        let head = next_head(wrap, given, snake.part(0), snake.part(1));
        encode_stepped_into(snake, head, into);
    } else {
        into.copy_from_slice(before);
    }
}

/// Writes the moved snake of the first record behind the block's bytes. Returns its piece, and the
/// records of the seats after it.
fn move_seat<'r, const CAP: usize>(
    records: &'r [u8],
    command: &Command,
    wrap: Option<(u8, u8)>,
    owned: &mut Owned<CAP>,
) -> (Piece, &'r [u8])
    requires { (s : AnySnake) × (rest : List ℕ) × BeginWith wrap s rest records.now × HasRoom CAP owned.old.block (length (snake_record s)) }
    ensures piece { (s : AnySnake) (rest : List ℕ) → BeginWith wrap s rest records.now → result.0 ≡ record { at = length owned.old.block; len = length (snake_record s) } }
    ensures rest { (s : AnySnake) (rest : List ℕ) → BeginWith wrap s rest records.now → result.1.now ≡ rest }
    ensures block { (s : AnySnake) (rest : List ℕ) → BeginWith wrap s rest records.now
        → owned.new ≡ record owned.old { block = owned.old.block ++ padded (snake_record (moved_by wrap (moves_in command.now) s)) } }
{
    let (snake, rest) = split_snake(records);
    let len = records.len() - rest.len();
    let at = owned.block().len();
    let (_, into) = owned.block_mut().fill(len);
    write_moved(&snake, &records[..len], command, wrap, into);
    (Piece { at, len }, rest)
}

/// Writes the moved snakes of a part of the board into an empty block; none if there is no such
/// part. The snakes of other parts are skipped by their lengths.
fn move_seats<const CAP: usize>(
    last: &Record,
    part: u8,
    command: &Command,
    owned: &mut Owned<CAP>,
) -> Moved
    requires wide { LEAST_CAPACITY ≤ CAP }
    requires empty { owned.old.block ≡ [] }
    ensures pieces { (b : AnyBoard) → IsLegal b → last.now ≡ record_of b → result ≡ pieces_from 0 (moved_seats (wrap_of b) (moves_in command.now) (seats_of part b.snakes)) }
    ensures name { (owned.new.tag ≡ owned.old.tag) × (owned.new.number ≡ owned.old.number) }
    ensures block { (b : AnyBoard) → IsLegal b → last.now ≡ record_of b
        → owned.new ≡ record owned.old { block = frame_of (moved_seats (wrap_of b) (moves_in command.now) (seats_of part b.snakes)) } }
{
    let board = last.parts();
    let wrap = last.wrap();
    let from = (SEATS * usize::from(part)).min(board.seats);
    let count = (board.seats - from).min(SEATS);
    let mut left = skip_snakes(from, board.snakes);
    let mut pieces = ArrayVec::new();
    for _ in 0..count {
        let (piece, rest) = move_seat(left, command, wrap, owned);
        pieces.push(piece);
        left = rest;
    }
    Moved::new(pieces)
}

/// Moves the snakes of a part, and writes them into the part's block.
pub(crate) fn move_part<const CAP: usize>(input: &Input, frames: &mut Vec<Owned<CAP>>) -> Moved
    requires wide { LEAST_CAPACITY ≤ CAP }
    requires fresh { bytes_of (frames_in frames.old.items) ≡ [] ∷ [] }
    ensures pieces { (view : AnyView) → IsSeen view input.now → result ≡ pieces_from 0 (moved_part input.now.job.part view input.now.command) }
    ensures holds { (view : AnyView) → IsSeen view input.now → bytes_of (frames_in frames.new.items) ≡ frame_of (moved_part input.now.job.part view input.now.command) ∷ [] }
    ensures names { names_of (frames_in frames.new.items) ≡ names_of (frames_in frames.old.items) }
{
    match &input.last {
        None => Moved::new(ArrayVec::new()),
        Some(last) => {
            let command = input.command.get();
            move_seats(last, input.job.part, command, &mut frames[0])
        }
    }
}
