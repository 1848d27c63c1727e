//! Which moves of a lone game are shared among threads.
ghost use Rattle.std.specs.Prelude.{◌≡◌};
ghost use Rattle.bs_workers.specs.Sharing.{is_shared_move};

/// The distance in turns from the first shared move of a game to the second; each later one is
/// twice the one before.
const FIRST_DISTANCE: u64 = 64;

/// Whether the next move of a game is shared among threads: that of turn 0, 64, 192, 448 and so on,
/// in the first game that was begun in its row, the second, the fourth, the eighth and so on.
/// Starting a thread takes longer than a move, so a game that goes on is shared less and less.
pub fn is_shared(games: u64, turn: u16) -> bool
    ensures { result ≡ is_shared_move games turn }
{
    games.is_power_of_two() && (u64::from(turn) + FIRST_DISTANCE).is_power_of_two()
}
