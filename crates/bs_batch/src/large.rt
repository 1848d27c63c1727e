//! Large games side by side. Game i has the i-th piece of each other list.

ghost use Rattle.std.specs.Prelude.{◌≡◌, ℕ, ◌<◌, length, slice_index, slice_index_or};
ghost use Rattle.bs_batch.specs.declared.layout.LargeGame.{LargeGame as AnyGame};
ghost use Rattle.bs_batch.specs.Games.{StepsLarge, words_of};
ghost use Rattle.bs_board.specs.boards.Legal.{IsLegal};
ghost use Rattle.bs_batch.specs.Advancing.{AdvancesLarge, ShowsAdvanced, act_of};
ghost use Rattle.bs_batch.specs.Listing.{ListsBody, ListsFood};
ghost use Rattle.bs_batch.specs.Loading.{FitsGame, FitsSides, IsLoaded};
ghost use Rattle.bs_batch.specs.Saving.{SavesGameOf};
ghost use Rattle.bs_batch.specs.Showing.{IsLargeBoard, ShowsEach};
ghost use Rattle.bs_batch.specs.Starting.{StartsEach, StartsLarge, piece_of};
ghost use Rattle.bs_batch.specs.inner.Advancing.{PieceAdvanced};
ghost use Rattle.bs_batch.specs.inner.Showing.{PieceShown};

use crate::layout::{LARGE_SIDE, LargeGame, Place, is_fit};
use crate::lists::{list_body, list_food};
use crate::loading::{Misfit, is_within, load, refuse};
use crate::many::{ManyOrders, ManyStarts, act_of, cells_of, has_to_start, may_step, orders_of};
use crate::saving::save;
use crate::showing::show;
use crate::starting::{clear, start};
use crate::turns::{Orders, step};
use bs_board::Board;

/// Plays a turn of one game, if it is not over and is below turn 10,000.
#[inline]
fn step_one(game: &mut LargeGame, orders: Orders<'_>)
    ensures { StepsLarge orders.entry.moves.now orders.entry.words.now orders.entry.hazards.counts.now orders.entry.hazards.damage game.old game.new }
{
    if !may_step(&game.head, LARGE_SIDE) {
        return;
    }
    step(
        &mut game.head,
        &mut game.food,
        &mut game.plane,
        &mut game.bodies,
        orders,
    );
}

/// Plays a turn in each game that is not over and is below turn 10,000.
pub fn step_large(games: &mut [LargeGame], orders: &ManyOrders<'_>)
    ensures games { (i : ℕ) (d : AnyGame) → i < length games.old
        → StepsLarge (piece_of orders.now.moves.now i orders.now.moves_each) (words_of orders.now.words.now i orders.now.words_each)
        (piece_of orders.now.hazards.now i orders.now.hazards_each) (slice_index orders.now.damages.now i) (slice_index_or games.old i d) (slice_index_or games.new i d) }
{
    for number in 0..games.len() {
        step_one(&mut games[number], orders_of(orders, number));
    }
}

/// Starts the game of that number, if its byte of `which` is not 0. Returns whether it started.
fn start_game(game: &mut LargeGame, first: &ManyStarts<'_>, number: usize) -> bool
    ensures { StartsLarge first.now number game.old game.new result }
{
    if !has_to_start(first, number) {
        return false;
    }
    clear(&mut game.head, first.settings);
    is_fit(&first.settings, LARGE_SIDE)
        && start(
            &mut game.head,
            &mut game.food,
            &mut game.plane,
            &mut game.bodies,
            cells_of(first, number),
        )
}

/// Starts each game whose byte of `which` is not 0, and returns the number of those that started. A
/// game whose cells do not fit the settings is over, without a snake.
pub fn start_large(games: &mut [LargeGame], first: &ManyStarts<'_>) -> usize
    ensures { StartsEach (StartsLarge first.now) games.old games.new result }
{
    let mut started = 0usize;
    for number in 0..games.len() {
        let begins = start_game(&mut games[number], first, number);
        started = started.wrapping_add(usize::from(begins));
    }
    started
}

/// Writes the planes of a game into the piece of that number.
fn show_game(game: &LargeGame, into: &mut [u8], number: usize, each: usize)
    ensures { PieceShown (IsLargeBoard game.now) number each into.old into.new }
{
    let from = number.saturating_mul(each);
    if from > into.len() {
        return;
    }
    if each > into.len() - from {
        return;
    }
    if !is_fit(&game.head.settings, LARGE_SIDE) {
        return;
    }
    show(
        &game.head,
        &game.food,
        &game.bodies,
        &mut into[from..from + each],
    );
}

/// Writes the planes of each game into its `each` bytes: its food, then its living snakes by their
/// seats.
pub fn show_large(games: &[LargeGame], into: &mut [u8], each: usize)
    ensures { ShowsEach IsLargeBoard games.now each into.new }
{
    for number in 0..games.len() {
        show_game(&games[number], into, number, each);
    }
}

/// Plays a turn of the game of that number, or starts it, or leaves it, as its byte of `which` says.
/// Returns whether it started.
#[inline]
fn act(game: &mut LargeGame, orders: &ManyOrders<'_>, first: &ManyStarts<'_>, number: usize) -> bool
    ensures { AdvancesLarge orders.now first.now number game.old game.new result }
{
    let act = act_of(first, number);
    if act == 0 {
        step_one(game, orders_of(orders, number));
        return false;
    }
    if act == 1 {
        return start_game(game, first, number);
    }
    false
}

/// Writes the planes of a game that has played or was started.
#[inline]
fn show_changed(
    game: &LargeGame,
    first: &ManyStarts<'_>,
    number: usize,
    into: &mut [u8],
    each: usize,
)
    ensures { PieceAdvanced (act_of first.now number) (IsLargeBoard game.now) number each into.old into.new }
{
    if act_of(first, number) > 1 {
        return;
    }
    show_game(game, into, number, each);
}

/// One step of many environments, in one pass over the games. The byte of a game in `first.which`
/// says what is done with it: 0 plays its turn, as `step_large` does, 1 starts it, as `start_large`
/// does, and both write its planes, as `show_large` does; another byte leaves the game and its
/// planes. Returns the number of the games that started.
pub fn advance_large(
    games: &mut [LargeGame],
    orders: &ManyOrders<'_>,
    first: &ManyStarts<'_>,
    into: &mut [u8],
    each: usize,
) -> usize
    ensures games { StartsEach (AdvancesLarge orders.now first.now) games.old games.new result }
    ensures planes { ShowsAdvanced IsLargeBoard first.now games.new each into.old into.new }
{
    let mut started = 0usize;
    for number in 0..games.len() {
        let begins = act(&mut games[number], orders, first, number);
        started = started.wrapping_add(usize::from(begins));
        show_changed(&games[number], first, number, into, each);
    }
    started
}

/// Writes the record of the game's board, as far as there is room, and returns its length; 0 if the
/// settings are not those of a game.
pub fn save_large(game: &LargeGame, into: &mut [u8]) -> usize
    ensures { SavesGameOf LARGE_SIDE game.now.head game.now.food game.now.bodies into.new result }
{
    if is_fit(&game.head.settings, LARGE_SIDE) {
        save(&game.head, &game.food, &game.bodies, into)
    } else {
        0
    }
}

/// Makes the game of this board. Its ids are not kept.
pub fn load_large(game: &mut LargeGame, board: &Board) -> Result<(), Misfit>
    ensures { IsLegal board.now → IsLoaded (FitsSides LARGE_SIDE board.now × FitsGame 625 5032 board.now) board.now result game.new.head game.new.food game.new.plane game.new.bodies }
{
    if !is_within(board, LARGE_SIDE) {
        return refuse(&mut game.head, board);
    }
    load(
        &mut game.head,
        &mut game.food,
        &mut game.plane,
        &mut game.bodies,
        board,
    )
}

/// Lists the cells with food, the oldest first, as far as there is room. Returns their number.
pub fn food_large(game: &LargeGame, into: &mut [Place]) -> usize
    ensures { ListsFood game.now.head game.now.food into.new result }
{
    list_food(&game.head, &game.food, into)
}

/// Lists the parts of a seat, its head first, as far as there is room. Returns their number, 0 for
/// no seat.
pub fn body_large(game: &LargeGame, seat: usize, into: &mut [Place]) -> usize
    ensures { ListsBody game.now.head game.now.bodies seat into.new result }
{
    list_body(&game.head, &game.bodies, seat, into)
}
