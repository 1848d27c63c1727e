//! Parts of a body after its head. Each snake of a board has at least three parts.

ghost use Rattle.std.specs.Prelude.{◌≡◌};
ghost use Rattle.bs_rules.specs.Feeding.{last_of};
ghost use Rattle.bs_rules.specs.Motion.{second_of};

use bs_board::Point;
use bs_board::boards::point::ORIGIN;

/// The second part, or the corner of the board if there is none.
pub fn second_of(body: &[Point]) -> Point
    ensures { result ≡ second_of body.now }
{
    match body {
        [_, second, ..] => *second,
        _ => ORIGIN,
    }
}

/// The last part, or the corner of the board if there is none.
pub fn last_of(body: &[Point]) -> Point
    ensures { result ≡ last_of body.now }
{
    match body {
        [.., last] => *last,
        [] => ORIGIN,
    }
}
