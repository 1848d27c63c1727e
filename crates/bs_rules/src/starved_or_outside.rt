//! The first eliminations of a turn: starved snakes and snakes off the board.

ghost use Rattle.std.specs.Prelude.{◌≡◌, ◌+◌, ◌<◌, map};
ghost use Rattle.bs_rules.specs.Elimination.{starved_or_outside_verdict, starved_or_outside_snake, starved_or_outside};

use crate::verdict::{Verdict, eliminate};
use bs_board::limits::LAST_TURN;
use bs_board::{Board, Cause, Snake, Snakes, head_of};

fn starved_or_outside_verdict(wraps: bool, width: u8, height: u8, snake: &Snake) -> Option<Verdict>
    ensures { result ≡ starved_or_outside_verdict wraps width height snake.now }
{
    if snake.health == 0 {
        Some(Verdict {
            cause: Cause::OutOfHealth,
            killer: None,
        })
    } else if wraps || head_of(snake.body.as_slice()).is_on_board(width, height) {
        None
    } else {
        Some(Verdict {
            cause: Cause::WallCollision,
            killer: None,
        })
    }
}

fn judge_snake(wraps: bool, width: u8, height: u8, turn: u16, snake: &mut Snake)
    ensures { snake.new ≡ starved_or_outside_snake wraps width height turn snake.old }
{
    if snake.is_living() {
        let verdict = starved_or_outside_verdict(wraps, width, height, snake);
        eliminate(verdict, turn, snake);
    }
}

#[tactic(auto, using(bs_modes::proofs::InPlace::set_next))]
fn judge_snakes(wraps: bool, width: u8, height: u8, turn: u16, snakes: &mut Snakes)
    ensures { snakes.new ≡ map (starved_or_outside_snake wraps width height turn) snakes.old }
{
    for seat in 0..snakes.len() {
        judge_snake(wraps, width, height, turn, snakes.seat_mut(seat));
    }
}

/// Eliminates each living snake that has starved, then each other one whose head is off the board.
/// On a wrapped board no snake is eliminated by the wall.
pub fn first_out(board: &mut Board)
    requires { board.old.turn < LAST_TURN }
    ensures { board.new ≡ starved_or_outside board.old }
{
    let wraps = board.mode.is_wrapped();
    let (width, height, turn) = (board.width, board.height, board.turn + 1);
    judge_snakes(wraps, width, height, turn, &mut board.snakes);
}
