//! When a game is over.

ghost use Rattle.std.specs.Prelude.{◌≡◌, count_by};
ghost use Rattle.bs_board.specs.boards.Over.{is_living, is_over};

use bs_board::{Board, Snake};

fn living(snakes: &[Snake]) -> usize
    ensures { result ≡ count_by is_living snakes.now }
{
    snakes.iter().filter(|snake| snake.is_living()).count()
}

/// Whether the game is over: in solo once no snake lives, in the other modes once at most one does.
pub fn over(board: &Board) -> bool
    ensures { result ≡ is_over board.now }
{
    living(board.snakes.as_slice()) <= board.mode.last_living()
}
