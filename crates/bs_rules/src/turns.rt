//! One whole turn.

ghost use Rattle.std.specs.Prelude.{◌≡◌, ◌<◌, ◌≤◌, IfOk, OnOk, All, length};
ghost use Rattle.bs_board.specs.boards.Legal.{IsLegal};
ghost use Rattle.bs_board.specs.boards.Wrap.{AreSides, wrap_of};
ghost use Rattle.bs_rules.specs.Motion.{moved_board, IsMovable};
ghost use Rattle.bs_rules.specs.Turn.{redrawn, refilled, replenished, finished, turn_of};

use crate::collision::collide;
use crate::feeding::feed;
use crate::hurting::{hazards_after, hurt};
use crate::motion::move_snakes;
use crate::starved_or_outside::first_out;
use bs_board::limits::{LAST_TURN, MOST_SNAKES};
use bs_board::{Board, Mode, Move, Moves};
use bs_food::{give, spawn};
use bs_modes::grow;
use std::alloc::{AllocError, Global};

fn move_board(alloc: Global, board: &Board, moves: &Moves) -> Result<Board, AllocError>
    requires bodies { All IsMovable board.now.snakes }
    requires sides { AreSides (wrap_of board.now) }
    ensures { IfOk result (λ next. next ≡ moved_board moves.now board.now) }
{
    let mut next = board.copy(alloc)?;
    move_snakes(&mut next.snakes, moves, board.wrap());
    Ok(next)
}

/// Adds food from the words, and then the food that the move gives.
fn refill(alloc: Global, board: &mut Board, order: &Move) -> Result<(), AllocError>
    ensures { OnOk result (board.new ≡ refilled order.now board.old) }
{
    spawn(alloc, board, order.words.as_slice())?;
    give(board, &order.food)
}

/// Grows the snakes in constrictor; in the other modes adds food.
fn replenish(alloc: Global, board: &mut Board, order: &Move) -> Result<(), AllocError>
    ensures { OnOk result (board.new ≡ replenished board.old.mode order.now board.old) }
{
    match board.mode {
        Mode::Standard => refill(alloc, board, order),
        Mode::Solo => refill(alloc, board, order),
        Mode::Constrictor => grow(alloc, board),
        Mode::Wrapped => refill(alloc, board, order),
    }
}

/// The hazards from the end of the turn on.
fn redraw(alloc: Global, board: Board, order: &Move) -> Result<Board, AllocError>
    ensures { IfOk result (λ next. next ≡ redrawn order.now board) }
{
    let hazards = hazards_after(
        alloc,
        board.width,
        board.height,
        &order.hazards,
        board.hazards,
    )?;
    Ok(Board { hazards, ..board })
}

/// Plays the rest of a turn once all seats are moved: hazards, feeding, the first eliminations,
/// collisions, growth or new food, and the hazards that the move gives. The turn number rises last.
/// `turn` moves all seats and then calls this.
pub fn finish_turn(alloc: Global, board: Board, order: &Move) -> Result<Board, AllocError>
    requires turn { board.turn < LAST_TURN }
    requires few { length board.snakes ≤ MOST_SNAKES }
    ensures { IfOk result (λ next. next ≡ finished order.now board) }
{
    let turn = board.turn + 1;
    let mut next = board;
    hurt(&mut next);
    feed(alloc, &mut next)?;
    first_out(&mut next);
    collide(&mut next);
    replenish(alloc, &mut next, order)?;
    next.turn = turn;
    redraw(alloc, next, order)
}

/// Plays one turn. A snake without a direction goes straight on; directions for ids of no living
/// snake, and words left over, are ignored.
#[tactic(auto, using(crate::proofs::Movable::legal_is_movable))]
pub fn turn(alloc: Global, board: &Board, order: &Move) -> Result<Board, AllocError>
    requires legal { IsLegal board.now }
    requires turn { board.now.turn < LAST_TURN }
    ensures value { IfOk result (λ next. next ≡ turn_of board.now order.now) }
    ensures legal { IfOk result IsLegal }
{
    let moved = move_board(alloc, board, &order.moves)?;
    finish_turn(alloc, moved, order)
}
