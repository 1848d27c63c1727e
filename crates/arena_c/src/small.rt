//! Small games of the caller, on boards of at most 11 by 11 cells.

ghost use Rattle.std.specs.Prelude.{◌≡◌, ℕ, ◌<◌, length, slice_index, slice_index_or};
ghost use Rattle.arena_c.specs.Loading.{IsLoadStatus};
ghost use Rattle.bs_batch.specs.Advancing.{AdvancesSmall, ShowsAdvanced};
ghost use Rattle.bs_batch.specs.declared.layout.SmallGame.{SmallGame as AnyGame};
ghost use Rattle.bs_batch.specs.declared.layout.TheConstants.{SMALL_SIDE};
ghost use Rattle.bs_batch.specs.Games.{StepsSmall, words_of};
ghost use Rattle.bs_batch.specs.Listing.{ListsBody, ListsFood};
ghost use Rattle.bs_batch.specs.Loading.{FitsGame, FitsSides};
ghost use Rattle.bs_batch.specs.Saving.{SavesGameOf};
ghost use Rattle.bs_batch.specs.Showing.{IsSmallBoard, ShowsEach};
ghost use Rattle.bs_batch.specs.Starting.{StartsEach, StartsSmall, piece_of};

use crate::status::{loaded, read, status_of};
use bs_batch::{
    ManyOrders, ManyStarts, Place, SmallGame, advance_small, body_small, food_small, load_small,
    save_small, show_small, start_small, step_small,
};
use std::alloc::Global;

/// Starts each game whose byte of `which` is not 0, and returns the number of those that started. A
/// game whose settings or cells are not those of a first board is over, without a snake.
#[unsafe(no_mangle)]
pub extern "C" fn arena_small_start(games: &mut [SmallGame], starts: &ManyStarts<'_>) -> usize
    ensures { StartsEach (StartsSmall starts.now) games.old games.new result }
{
    start_small(games, starts)
}

/// Plays a turn in each game that is not over and is below turn 10,000.
#[unsafe(no_mangle)]
pub extern "C" fn arena_small_step(games: &mut [SmallGame], orders: &ManyOrders<'_>)
    ensures games { (i : ℕ) (d : AnyGame) → i < length games.old
        → StepsSmall (piece_of orders.now.moves.now i orders.now.moves_each) (words_of orders.now.words.now i orders.now.words_each)
        (piece_of orders.now.hazards.now i orders.now.hazards_each) (slice_index orders.now.damages.now i) (slice_index_or games.old i d) (slice_index_or games.new i d) }
{
    step_small(games, orders);
}

/// Writes the planes of each game into its `each` bytes: its food, then its living snakes by their
/// seats.
#[unsafe(no_mangle)]
pub extern "C" fn arena_small_planes(games: &[SmallGame], into: &mut [u8], each: usize)
    ensures { ShowsEach IsSmallBoard games.now each into.new }
{
    show_small(games, into, each);
}

/// One step of many environments: plays the turn of each game whose byte of `which` is 0, starts
/// those whose byte is 1, and writes the planes of both. The other games and their planes stay.
/// Returns the number of the games that started.
#[unsafe(no_mangle)]
pub extern "C" fn arena_small_advance(
    games: &mut [SmallGame],
    orders: &ManyOrders<'_>,
    starts: &ManyStarts<'_>,
    into: &mut [u8],
    each: usize,
) -> usize
    ensures games { StartsEach (AdvancesSmall orders.now starts.now) games.old games.new result }
    ensures planes { ShowsAdvanced IsSmallBoard starts.now games.new each into.old into.new }
{
    advance_small(games, orders, starts, into, each)
}

/// Lists the cells with food, the oldest first, as far as there is room. Returns their number.
#[unsafe(no_mangle)]
pub extern "C" fn arena_small_food(game: &SmallGame, into: &mut [Place]) -> usize
    ensures { ListsFood game.now.head game.now.food into.new result }
{
    food_small(game, into)
}

/// Lists the parts of a seat, its head first, as far as there is room. Returns their number.
#[unsafe(no_mangle)]
pub extern "C" fn arena_small_body(game: &SmallGame, seat: usize, into: &mut [Place]) -> usize
    ensures { ListsBody game.now.head game.now.bodies seat into.new result }
{
    body_small(game, seat, into)
}

/// Writes the record of the game's board, as far as there is room, and returns its length; 0 if the
/// settings are not those of a game.
#[unsafe(no_mangle)]
pub extern "C" fn arena_small_save(game: &SmallGame, into: &mut [u8]) -> usize
    ensures { SavesGameOf SMALL_SIDE game.now.head game.now.food game.now.bodies into.new result }
{
    save_small(game, into)
}

/// Makes the game of a record, whose ids are not kept. If the board does not fit or has hazards,
/// the game is over, with no living snake; after another fault it is as it was.
#[unsafe(no_mangle)]
pub extern "C" fn arena_small_load(alloc: Global, game: &mut SmallGame, bytes: &[u8]) -> u8
    ensures { IsLoadStatus (λ b. FitsSides SMALL_SIDE b × FitsGame 121 1000 b) bytes.now result (game.new ≡ game.old)
        game.new.head game.new.food game.new.plane game.new.bodies }
{
    match read(alloc, bytes) {
        Ok(board) => loaded(load_small(game, &board)),
        Err(fault) => status_of(fault),
    }
}
