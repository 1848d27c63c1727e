//! The place of a turn's record.
ghost use Rattle.std.specs.Prelude.{◌≡◌, ◌+◌, ◌≤◌};
ghost use Rattle.bs_game.specs.Turns.{place_of_turn, PlaceLaw};

use bs_board::TurnNumber;

/// The index of a turn's record among the `kept` ones, the newest of which is of turn `last`;
/// `None` if it is not kept. A game keeps at most one record for each turn from 0 to `last`.
pub fn place_of_turn(kept: usize, last: u16, at: TurnNumber) -> Option<usize>
    requires { kept ≤ last + 1 }
    ensures { result ≡ place_of_turn kept last at }
{
    let at = usize::from(at.number());
    let last = usize::from(last);
    if at + kept <= last || last < at {
        None
    } else {
        Some(at + kept - (last + 1))
    }
}

/// States that in each game the board at the index from `place_of_turn` is the one of that turn.
/// Does nothing.
#[tactic(auto, using(crate::proofs::KeptTurns::places))]
pub fn place_law()
    ensures { PlaceLaw }
{}
