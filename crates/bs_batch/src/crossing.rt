//! Bodies that cross themselves.

ghost use Rattle.std.specs.Prelude.{◌≡◌, ◌↔◌, ℕ, ◌≤◌, true, All, IsTrue};
ghost use Rattle.std.specs.List.{list_any};
ghost use Rattle.bs_board.specs.declared.boards.board.Board.{Board as AnyBoard};
ghost use Rattle.bs_board.specs.boards.Cell.{is_same_cell};
ghost use Rattle.bs_board.specs.boards.Legal.{IsLegal};
ghost use Rattle.bs_batch.specs.Lasting.{CrossesLittle};
ghost use Rattle.bs_batch.specs.inner.Crossing.{CountsCrossings, HasLittleCrossing};

use bs_board::{Point, Snake};

/// Whether one of the cells is this one.
#[inline]
fn is_among(cells: &[Point], cell: Point) -> bool
    ensures { result ≡ list_any (is_same_cell cell) cells.now }
{
    cells.iter().any(|other| cell == *other)
}

/// Whether at most one part before the last is on the cell of an earlier part.
fn crosses_once(body: &[Point]) -> bool
    ensures { CountsCrossings body.now result }
{
    let mut crossings = 0usize;
    for part in 0..body.len().saturating_sub(1) {
        let again = is_among(&body[..part], body[part]);
        crossings = crossings.wrapping_add(usize::from(again));
    }
    crossings <= 1
}

/// Whether the snake is out, or its body crosses itself at most once.
fn crosses_little(snake: &Snake) -> bool
    ensures { HasLittleCrossing snake.now result }
{
    if !snake.is_living() {
        return true;
    }
    crosses_once(snake.body.as_slice())
}

/// Whether the body of each living snake crosses itself at most once.
pub fn cross_little(snakes: &[Snake]) -> bool
    ensures { (b : AnyBoard) → IsLegal b → snakes.now ≡ b.snakes → IsTrue result ↔ All (CrossesLittle b.width b.height) b.snakes }
{
    for snake in snakes {
        if !crosses_little(snake) {
            return false;
        }
    }
    true
}
