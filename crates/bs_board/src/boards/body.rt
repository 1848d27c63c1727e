//! Parts of a body.

ghost use Rattle.std.specs.Prelude.{◌≡◌};
ghost use Rattle.bs_board.specs.boards.Cell.{head_of};

use crate::boards::point::{ORIGIN, Point};

/// The first cell of a body; `ORIGIN` if the body is empty, as no body on a legal board is.
pub fn head_of(body: &[Point]) -> Point
    ensures { result ≡ head_of body.now }
{
    match body {
        [head, ..] => *head,
        [] => ORIGIN,
    }
}
