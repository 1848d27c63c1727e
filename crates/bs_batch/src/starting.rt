//! The first board of a game.

ghost use Rattle.std.specs.Prelude.{◌≡◌, ◌↔◌, ◌≤◌, ◌<◌, IsTrue, [], ◌∷◌, length, replicate, take};
ghost use Rattle.bs_board.specs.boards.Cell.{is_on_board};
ghost use Rattle.bs_batch.specs.Loading.{cleared};
ghost use Rattle.bs_batch.specs.Starting.{StartsGame, point_of};
ghost use Rattle.bs_batch.specs.inner.Starting.{DropsFood, KeepsFirstFood, PlacesAll, PlacesFood, PlacesSnake, PlacesSnakes};

use crate::layout::{
    ALIVE, CONSTRICTOR, Cell, FULL_HEALTH, Head, NO_SEAT, NO_SNAKE, SEATS, Seat, Settings,
    number_of,
};
use crate::planes::{FOOD, add_food, add_part, at, remove_food};
use crate::seats::count;

/// The starting cells, one for each seat, and the cells of the first food.
#[derive(Clone, Copy)]
pub struct FirstCells<'a> {
    pub starts: &'a [Cell],
    pub food: &'a [Cell],
}

/// Makes a game of these settings that has no snake, no food and is over.
pub fn clear(head: &mut Head, settings: Settings)
    ensures { head.new ≡ cleared settings }
{
    *head = Head {
        settings,
        turn: 0,
        foods: 0,
        living: 0,
        over: 1,
        seats: [NO_SNAKE; SEATS],
    };
}

/// Sets each byte of the plane to 0.
pub fn clear_plane(plane: &mut [u8])
    ensures { plane.new ≡ replicate (length plane.old) 0 }
{
    plane.fill(0);
}

/// Whether the cell is on the board.
#[inline]
fn has(settings: &Settings, cell: Cell) -> bool
    ensures { result ≡ is_on_board settings.now.width settings.now.height (point_of cell) }
{
    cell.x < settings.width && cell.y < settings.height
}

/// Writes the three parts of a new body. False if there is no room.
fn write_first_parts(room: &mut [u16], cell: u16) -> bool
    ensures fits { IsTrue result ↔ (3 ≤ length room.old) }
    ensures body { IsTrue result → take 3 room.new ≡ cell ∷ cell ∷ cell ∷ [] }
{
    if room.len() < 3 {
        return false;
    }
    room[0] = cell;
    room[1] = cell;
    room[2] = cell;
    true
}

/// Puts a new snake on its cell. False if the cell is not on the board or is taken.
fn place_snake(
    head: &mut Head,
    plane: &mut [u8],
    bodies: &mut [u16],
    seat: usize,
    cell: Cell,
) -> bool
    requires seat { seat < SEATS }
    ensures settings { head.new.settings ≡ head.old.settings }
    ensures board { PlacesSnake seat cell head.old bodies.old plane.old head.new bodies.new plane.new result }
{
    let number = number_of(cell);
    if !has(&head.settings, cell) || at(plane, number) != 0 {
        return false;
    }
    let row = bodies.len() / SEATS;
    let start = seat * row;
    if !write_first_parts(&mut bodies[start..start + row], number) {
        return false;
    }
    add_part(plane, number);
    add_part(plane, number);
    add_part(plane, number);
    head.seats[seat] = Seat {
        parts: 3,
        out: 0,
        health: FULL_HEALTH,
        cause: ALIVE,
        killer: NO_SEAT,
        spare: 0,
    };
    true
}

fn place_snakes(head: &mut Head, plane: &mut [u8], bodies: &mut [u16], starts: &[Cell]) -> bool
    requires seats { head.old.settings.seats ≤ SEATS }
    ensures settings { head.new.settings ≡ head.old.settings }
    ensures board { PlacesSnakes starts.now head.old bodies.old plane.old head.new bodies.new plane.new result }
{
    let seats = usize::from(head.settings.seats);
    if starts.len() != seats {
        return false;
    }
    for seat in 0..seats {
        if !place_snake(head, plane, bodies, seat, starts[seat]) {
            return false;
        }
    }
    true
}

/// Writes the first food. False if a cell is not on the board or occurs twice.
fn place_food(head: &mut Head, food: &mut [u16], plane: &mut [u8], cells: &[Cell]) -> bool
    ensures settings { head.new.settings ≡ head.old.settings }
    ensures board { PlacesFood cells.now head.old plane.old head.new food.new plane.new result }
{
    for cell in cells {
        let number = number_of(*cell);
        if !has(&head.settings, *cell) || at(plane, number) >= FOOD {
            return false;
        }
        let index = usize::from(head.foods);
        if index >= food.len() {
            return false;
        }
        food[index] = number;
        add_food(plane, number);
        head.foods = head.foods.wrapping_add(1);
    }
    true
}

/// Drops the food, as constrictor does.
fn drop_food(head: &mut Head, food: &[u16], plane: &mut [u8])
    ensures settings { head.new.settings ≡ head.old.settings }
    ensures board { DropsFood food.now head.old plane.old head.new plane.new }
{
    for cell in food {
        remove_food(plane, *cell);
    }
    head.foods = 0;
}

/// Drops the food in a game of constrictor.
fn keep_first_food(head: &mut Head, food: &[u16], plane: &mut [u8])
    ensures settings { head.new.settings ≡ head.old.settings }
    ensures board { KeepsFirstFood food.now head.old plane.old head.new plane.new }
{
    if head.settings.mode == CONSTRICTOR {
        let foods = usize::from(head.foods).min(food.len());
        drop_food(head, &food[..foods], plane);
    }
}

/// Writes the cells of the board of turn 0. False if they do not fit the settings.
fn place_all(
    head: &mut Head,
    food: &mut [u16],
    plane: &mut [u8],
    bodies: &mut [u16],
    first: FirstCells<'_>,
) -> bool
    requires seats { head.old.settings.seats ≤ SEATS }
    ensures settings { head.new.settings ≡ head.old.settings }
    ensures board { PlacesAll first.entry.starts.now first.entry.food.now head.old plane.old head.new food.new plane.new bodies.new result }
{
    if !place_snakes(head, plane, bodies, first.starts) {
        return false;
    }
    place_food(head, food, plane, first.food)
}

/// Makes the board of turn 0 from a cleared game. False if the cells do not fit the settings: then
/// the game is cleared.
pub fn start(
    head: &mut Head,
    food: &mut [u16],
    plane: &mut [u8],
    bodies: &mut [u16],
    first: FirstCells<'_>,
) -> bool
    requires seats { head.old.settings.seats ≤ SEATS }
    ensures { StartsGame first.entry.starts.now first.entry.food.now head.old head.new food.new plane.new bodies.new result }
{
    let settings = head.settings;
    clear_plane(plane);
    if !place_all(head, food, plane, bodies, first) {
        clear(head, settings);
        return false;
    }
    keep_first_food(head, food, plane);
    count(head);
    true
}
