//! The elimination of a snake.

ghost use Rattle.std.specs.Prelude.{◌≡◌};
ghost use Rattle.bs_rules.specs.Elimination.{judged};

use bs_board::{Cause, Snake};

/// How a snake is eliminated.
#[derive(Clone, Copy, Debug)]
pub struct Verdict {
    pub cause: Cause,
    /// The seat of the snake that it ran into.
    pub killer: Option<usize>,
}

/// Eliminates the snake in that turn if there is a verdict.
pub fn eliminate(verdict: Option<Verdict>, turn: u16, snake: &mut Snake)
    ensures { snake.new ≡ judged turn verdict snake.old }
{
    if let Some(verdict) = verdict {
        snake.cause = Some(verdict.cause);
        snake.killer = verdict.killer;
        snake.out = Some(turn);
    }
}
