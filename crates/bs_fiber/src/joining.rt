//! The job that answers a move once all parts are done.
ghost use Rattle.std.specs.Prelude.{◌≡◌, ◌≤◌, true, [], Some, is_some, IfOk, OnOk, List, flat_map, map, slice_index_or};
ghost use Rattle.bs_board.specs.declared.boards.board.Board.{Board as AnyBoard};
ghost use Rattle.bs_board.specs.declared.boards.snake.Snake.{Snake as AnySnake};
ghost use Rattle.bs_board.specs.declared.commands.command.Command.TheVariants as command;
ghost use Rattle.bs_board.specs.boards.Legal.{IsLegal};
ghost use Rattle.bs_board.specs.records.Record.{record_of};
ghost use Rattle.bs_game.specs.declared.view.View.{View as AnyView};
ghost use Rattle.bs_game.specs.Law.{IsFitEffect};
ghost use Rattle.bs_game.specs.Reasons.{is_move};
ghost use Rattle.bs_game.specs.View.{answer_of};
ghost use Rattle.bs_fiber.specs.declared.job.JobKind.TheVariants as kind;
ghost use Rattle.bs_fiber.specs.Fit.{IsFitInput};
ghost use Rattle.bs_fiber.specs.Frames.{frame_of};
ghost use Rattle.bs_fiber.specs.Seeing.{IsSeen};
ghost use Rattle.bs_fiber.specs.Tickets.{bytes_of, frames_in, names_of, with_added};
ghost use Rattle.bs_fiber.specs.Work.{IsWorked, moved_parts, piece_added};
ghost use Rattle.bs_fiber.specs.inner.Frames.{AreFewAndFit, HoldAll};

use crate::contents::LEAST_CAPACITY;
use crate::frames::{read_all, write_record};
use crate::input::Input;
use crate::moved::Moved;
use crate::out::Out;
use crate::piece::Piece;
use bs_board::{Board, Command, Move, Record};
use bs_game::{Answer, Effect, joined_within};
use bs_pool::Owned;
use std::alloc::{AllocError, Global};

/// Makes the newest board with all seats moved, from the snakes in the parts' blocks and from the
/// record.
fn moved_board<const CAP: usize>(
    alloc: Global,
    last: &Record,
    frames: &[Owned<CAP>],
    parts: &[Moved],
) -> Result<Board, AllocError>
    requires { (all : List (List AnySnake)) × HoldAll all parts.now (bytes_of (frames_in frames.now)) }
    ensures { (board : AnyBoard) (all : List (List AnySnake)) → IsLegal board → last.now ≡ record_of board → HoldAll all parts.now (bytes_of (frames_in frames.now))
        → IfOk result (λ moved. moved ≡ record board { snakes = flat_map (λ part. part) all }) }
{
    let mut board = last.without_snakes(alloc)?;
    board.snakes = read_all(alloc, frames, parts)?;
    Ok(board)
}

fn join_move<const CAP: usize>(
    alloc: Global,
    input: &Input,
    frames: &[Owned<CAP>],
    orders: &Move,
    last: &Record,
) -> Result<Answer, AllocError>
    requires fit { IsFitInput input.now }
    requires kind { input.now.job.kind ≡ kind.Join }
    requires fresh { (view : AnyView) → IsSeen view input.now → bytes_of (frames_in frames.now) ≡ map frame_of (moved_parts view input.now.command) }
    requires command { input.now.command ≡ command.Move orders.now }
    requires last { input.now.last ≡ Some last.now }
    ensures value { IfOk result (λ answer. (view : AnyView) → IsSeen view input.now → answer ≡ answer_of view input.now.command) }
    ensures fits { IfOk result (λ answer. IsFitEffect input.now.quota input.now.charge answer.effect) }
{
    let moved = moved_board(alloc, last, frames, input.parts.as_slice())?;
    joined_within(alloc, input.quota, input.charge, orders, moved)
}

/// Answers an accepted move from the moved snakes of its parts.
fn join<const CAP: usize>(
    alloc: Global,
    input: &Input,
    frames: &[Owned<CAP>],
) -> Result<Answer, AllocError>
    requires fit { IsFitInput input.now }
    requires kind { input.now.job.kind ≡ kind.Join }
    requires fresh { (view : AnyView) → IsSeen view input.now → bytes_of (frames_in frames.now) ≡ map frame_of (moved_parts view input.now.command) }
    requires goes { is_move input.now.command ≡ true }
    requires runs { is_some input.now.last ≡ true }
    ensures value { IfOk result (λ answer. (view : AnyView) → IsSeen view input.now → answer ≡ answer_of view input.now.command) }
    ensures fits { IfOk result (λ answer. IsFitEffect input.now.quota input.now.charge answer.effect) }
{
    match (input.command.get(), &input.last) {
        (Command::Move(orders), Some(last)) => join_move(alloc, input, frames, orders, last),
        _ => unreachable!(),
    }
}

/// Appends the record that the answer adds to part 0's block, and returns its piece.
fn write_added<const CAP: usize>(
    frames: &mut Vec<Owned<CAP>>,
    effect: &Effect,
    quota: u32,
    charge: u32,
) -> Option<Piece>
    requires wide { LEAST_CAPACITY ≤ CAP }
    requires parts { (all : List (List AnySnake)) × AreFewAndFit all × (bytes_of (frames_in frames.old.items) ≡ map frame_of all) }
    requires fits { IsFitEffect quota charge effect.now }
    ensures piece { (all : List (List AnySnake)) → bytes_of (frames_in frames.old.items) ≡ map frame_of all → result ≡ piece_added effect.now (slice_index_or all 0 []) }
    ensures holds { bytes_of (frames_in frames.new.items) ≡ with_added effect.now (bytes_of (frames_in frames.old.items)) }
    ensures names { names_of (frames_in frames.new.items) ≡ names_of (frames_in frames.old.items) }
{
    match effect {
        Effect::Keep => None,
        Effect::Add(record) => {
            let bytes = record.as_slice();
            let at = frames[0].block().len();
            write_record(&mut frames[0], bytes);
            Some(Piece {
                at,
                len: bytes.len(),
            })
        }
        Effect::Trim => None,
        Effect::Drop => None,
    }
}

/// Joins the parts: answers the move, and writes its record into part 0's block.
#[tactic(auto, using(crate::proofs::Joined::join_is_of_a_move, crate::proofs::Joined::join_has_a_board))]
pub(crate) fn join_parts<const CAP: usize>(
    alloc: Global,
    input: &Input,
    frames: &mut Vec<Owned<CAP>>,
) -> Result<Out, AllocError>
    requires wide { LEAST_CAPACITY ≤ CAP }
    requires fit { IsFitInput input.now }
    requires kind { input.now.job.kind ≡ kind.Join }
    requires fresh { (view : AnyView) → IsSeen view input.now → bytes_of (frames_in frames.old.items) ≡ map frame_of (moved_parts view input.now.command) }
    ensures worked { IfOk result (λ out. IsWorked input.now out) }
    ensures holds { OnOk result ((view : AnyView) → IsSeen view input.now → bytes_of (frames_in frames.new.items) ≡ with_added (answer_of view input.now.command).effect (map frame_of (moved_parts view input.now.command))) }
    ensures names { names_of (frames_in frames.new.items) ≡ names_of (frames_in frames.old.items) }
{
    let answer = join(alloc, input, frames.as_slice())?;
    let piece = write_added(frames, &answer.effect, input.quota, input.charge);
    Ok(Out::Joined(answer, piece))
}
