//! Makes a game of a board.

ghost use Rattle.std.specs.Prelude.{◌≡◌, ◌≢◌, ◌↔◌, ◌≤◌, ◌<◌, Some, IsTrue, length};
ghost use Rattle.bs_board.specs.declared.boards.snake.Cause.TheVariants.{Hazard as ByHazard};
ghost use Rattle.bs_board.specs.records.Record.{cause_byte, mode_byte};
ghost use Rattle.bs_batch.specs.Loading.{CanLoadLists, FitsGame, FitsSides, IsLoaded, RefusesBoard};
ghost use Rattle.bs_batch.specs.Shown.{ShowsSettings, seat_byte};
ghost use Rattle.bs_batch.specs.inner.Loading.{AddsParts, BeginsWith, IsSeatOfEight, LoadsCells, LoadsFood, LoadsSeat, LoadsSnake, LoadsSnakes, NumbersCell};

use crate::crossing::cross_little;
use crate::layout::{
    ALIVE, BODY_COLLISION, CONSTRICTOR, HEAD_COLLISION, Head, NO_SEAT, OUT_OF_HEALTH, SEATS,
    SELF_COLLISION, SOLO, STANDARD, STRIDE, Seat, Settings, WALL_COLLISION, WRAPPED,
};
use crate::planes::{PARTS, add_food, add_part, at};
use crate::seats::count;
use crate::starting::{clear, clear_plane};
use bs_board::{Board, Cause, Mode, Point, Snake};

/// The most parts on one cell of a loaded board, so that a byte counts them in every later turn.
const MOST_PARTS: u8 = 64;

/// Why a board is not loaded.
#[derive(Clone, Copy, Debug, PartialEq, Eq)]
pub enum Misfit {
    /// It has hazards.
    Hazards,
    /// A list is too long for the game, a side too long, too many parts are on one cell, or a
    /// living body crosses itself more than once.
    Room,
}

fn mode_byte(mode: Mode) -> u8
    ensures { result ≡ mode_byte mode }
{
    match mode {
        Mode::Standard => STANDARD,
        Mode::Solo => SOLO,
        Mode::Constrictor => CONSTRICTOR,
        Mode::Wrapped => WRAPPED,
    }
}

/// The byte of the cause. A board without hazards has no snake that a hazard eliminated.
fn cause_byte(cause: Option<Cause>) -> u8
    ensures { cause ≢ Some ByHazard → result ≡ cause_byte cause }
{
    match cause {
        None => ALIVE,
        Some(Cause::OutOfHealth) => OUT_OF_HEALTH,
        Some(Cause::WallCollision) => WALL_COLLISION,
        Some(Cause::SelfCollision) => SELF_COLLISION,
        Some(Cause::BodyCollision) => BODY_COLLISION,
        Some(Cause::HeadCollision) => HEAD_COLLISION,
        Some(Cause::Hazard) => OUT_OF_HEALTH,
    }
}

fn killer_byte(killer: Option<usize>) -> u8
    ensures { IsSeatOfEight killer → result ≡ seat_byte killer }
{
    match killer {
        Some(seat) if seat < SEATS => seat as u8,
        _ => NO_SEAT,
    }
}

/// The number of a cell that is on the board or next to it; 0 for another.
fn number_of(cell: Point) -> u16
    ensures { NumbersCell cell result }
{
    if -1 <= cell.x && cell.x <= 25 && -1 <= cell.y && cell.y <= 25 {
        ((cell.y + 1) as u16) * STRIDE + (cell.x + 1) as u16
    } else {
        0
    }
}

/// Writes the numbers of the cells. False if there is no room.
fn write_cells(room: &mut [u16], cells: &[Point]) -> bool
    ensures fits { IsTrue result ↔ (length cells.now ≤ length room.old) }
    ensures cells { IsTrue result → BeginsWith cells.now room.new }
{
    if cells.len() > room.len() {
        return false;
    }
    for index in 0..cells.len() {
        room[index] = number_of(cells[index]);
    }
    true
}

/// Adds the parts to the plane. False if too many are on one cell.
fn add_parts(plane: &mut [u8], body: &[u16]) -> bool
    ensures { AddsParts body.now plane.old plane.new result }
{
    for cell in body {
        if at(plane, *cell) & PARTS >= MOST_PARTS {
            return false;
        }
        add_part(plane, *cell);
    }
    true
}

/// Loads a snake into its seat and its room. False if the body is too long, or too many parts are
/// on one cell.
fn load_snake(seat: &mut Seat, plane: &mut [u8], room: &mut [u16], snake: &Snake) -> bool
    ensures { LoadsSnake snake.now plane.old seat.new plane.new room.new result }
{
    let parts = snake.body.len();
    if parts > 1024 || !write_cells(room, snake.body.as_slice()) {
        return false;
    }
    *seat = Seat {
        parts: parts as u16,
        out: snake.out.unwrap_or(0),
        health: snake.health,
        cause: cause_byte(snake.cause),
        killer: killer_byte(snake.killer),
        spare: 0,
    };
    !snake.is_living() || add_parts(plane, &room[..parts])
}

/// Loads the snake of a seat.
fn load_seat(
    head: &mut Head,
    plane: &mut [u8],
    bodies: &mut [u16],
    seat: usize,
    snake: &Snake,
) -> bool
    requires seat { seat < SEATS }
    ensures settings { head.new.settings ≡ head.old.settings }
    ensures board { LoadsSeat seat snake.now head.old bodies.old plane.old head.new bodies.new plane.new result }
{
    let row = bodies.len() / SEATS;
    let start = seat * row;
    let room = &mut bodies[start..start + row];
    load_snake(&mut head.seats[seat], plane, room, snake)
}

fn load_snakes(head: &mut Head, plane: &mut [u8], bodies: &mut [u16], snakes: &[Snake]) -> bool
    ensures settings { head.new.settings ≡ head.old.settings }
    ensures board { LoadsSnakes snakes.now head.old bodies.old plane.old head.new bodies.new plane.new result }
{
    if snakes.len() > SEATS {
        return false;
    }
    for seat in 0..snakes.len() {
        if !load_seat(head, plane, bodies, seat, &snakes[seat]) {
            return false;
        }
    }
    true
}

fn load_food(head: &mut Head, food: &mut [u16], plane: &mut [u8], cells: &[Point]) -> bool
    ensures settings { head.new.settings ≡ head.old.settings }
    ensures board { LoadsFood cells.now head.old plane.old head.new food.new plane.new result }
{
    if cells.len() > 1024 || !write_cells(food, cells) {
        return false;
    }
    for cell in cells {
        add_food(plane, number_of(*cell));
    }
    head.foods = cells.len() as u16;
    true
}

fn settings_of(board: &Board) -> Settings
    ensures seats { result.seats ≤ SEATS }
    ensures board { length board.now.snakes ≤ SEATS → ShowsSettings result board.now }
{
    Settings {
        mode: mode_byte(board.mode),
        width: board.width,
        height: board.height,
        seats: board.snakes.len().min(SEATS) as u8,
        min_food: board.min_food,
        chance: board.chance,
    }
}

/// Writes the cells of a board. False if they do not fit.
fn load_cells(
    head: &mut Head,
    food: &mut [u16],
    plane: &mut [u8],
    bodies: &mut [u16],
    board: &Board,
) -> bool
    ensures settings { head.new.settings ≡ head.old.settings }
    ensures board { LoadsCells board.now head.old plane.old head.new food.new plane.new bodies.new result }
{
    if !load_food(head, food, plane, board.food.as_slice()) {
        return false;
    }
    load_snakes(head, plane, bodies, board.snakes.as_slice())
}

/// Whether no side of the board is longer.
pub fn is_within(board: &Board, longest: u8) -> bool
    ensures { IsTrue result ↔ FitsSides longest board.now }
{
    board.width <= longest && board.height <= longest
}

/// Clears the game of a board that does not fit.
pub fn refuse(head: &mut Head, board: &Board) -> Result<(), Misfit>
    ensures { RefusesBoard board.now result head.new }
{
    clear(head, settings_of(board));
    let hazardous = board.hazards.is_some();
    if hazardous {
        Err(Misfit::Hazards)
    } else {
        Err(Misfit::Room)
    }
}

/// Makes the game of a board. If it does not fit, the game is over, without a snake.
pub fn load(
    head: &mut Head,
    food: &mut [u16],
    plane: &mut [u8],
    bodies: &mut [u16],
    board: &Board,
) -> Result<(), Misfit>
    ensures { CanLoadLists board.now (length food.new) (length plane.new) (length bodies.new) → IsLoaded (FitsGame (length food.new) (length bodies.new) board.now) board.now result head.new food.new plane.new bodies.new }
{
    let settings = settings_of(board);
    clear(head, settings);
    clear_plane(plane);
    if board.hazards.is_some() {
        return Err(Misfit::Hazards);
    }
    if !cross_little(board.snakes.as_slice()) {
        return Err(Misfit::Room);
    }
    if !load_cells(head, food, plane, bodies, board) {
        clear(head, settings);
        return Err(Misfit::Room);
    }
    head.turn = board.turn;
    count(head);
    Ok(())
}
