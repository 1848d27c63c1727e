//! A turn of a board by seats.

ghost use Rattle.std.specs.Prelude.{◌≡◌, ◌≤◌, ◌<◌, IfOk, All, length};
ghost use Rattle.bs_board.specs.boards.Legal.{IsLegal};
ghost use Rattle.bs_board.specs.boards.Wrap.{AreSides, wrap_of};
ghost use Rattle.bs_board.specs.declared.limits.TheConstants.{LAST_TURN, MOST_SNAKES};
ghost use Rattle.bs_calls.specs.BySeat.{turn_by_seat, turn_with};
ghost use Rattle.bs_rules.specs.Motion.{moved_board, IsMovable};

use crate::orders::{SeatOrders, moves_by_seat, rest_of};
use bs_board::{Board, Move, Moves};
use bs_rules::{finish_turn, move_snakes};
use std::alloc::{AllocError, Global};

fn move_board(board: Board, moves: &Moves) -> Board
    requires bodies { All IsMovable board.snakes }
    requires sides { AreSides (wrap_of board) }
    ensures { result ≡ moved_board moves.now board }
{
    let wrap = board.wrap();
    let mut next = board;
    move_snakes(&mut next.snakes, moves, wrap);
    next
}

/// Plays one turn of a legal board below the last turn.
#[tactic(auto, using(bs_rules::proofs::Movable::legal_is_movable, bs_rules::proofs::Movable::legal_has_sides))]
fn turn_with(alloc: Global, board: Board, bytes: &[u8], rest: &Move) -> Result<Board, AllocError>
    requires legal { IsLegal board }
    requires turn { board.turn < LAST_TURN }
    ensures value { IfOk result (λ next. next ≡ turn_with bytes.now rest.now board) }
    ensures legal { IfOk result IsLegal }
{
    let moves = moves_by_seat(alloc, bytes, board.snakes.as_slice())?;
    let moved = move_board(board, &moves);
    finish_turn(alloc, moved, rest)
}

/// Plays one turn of a legal board below the last turn, with a direction for each seat.
pub fn turn_by_seat(
    alloc: Global,
    board: Board,
    orders: &SeatOrders<'_>,
) -> Result<Board, AllocError>
    requires legal { IsLegal board }
    requires turn { board.turn < LAST_TURN }
    ensures value { IfOk result (λ next. next ≡ turn_by_seat orders.now board) }
    ensures legal { IfOk result IsLegal }
{
    let rest = rest_of(alloc, orders)?;
    turn_with(alloc, board, orders.moves, &rest)
}
