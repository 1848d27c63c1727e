//! Food: what is eaten, and what appears.

ghost use Rattle.std.specs.Prelude.{◌≡◌, ◌≤◌, ◌<◌, count_by, length, take};
ghost use Rattle.bs_food.specs.Spawning.{with_one_food};
ghost use Rattle.bs_batch.specs.Food.{AddsFood, RemovesEaten, Spawns};
ghost use Rattle.bs_batch.specs.inner.Food.{HasHeadAt, IsUnderHead, KeepsFood, with_food_by};
ghost use Rattle.bs_batch.specs.inner.FreeCells.{CountsFree, CountsRow, FindsFree, FindsZero, IsRow, is_zero};

use crate::layout::{ALIVE, Head, LARGE_SIDE, SEATS, STRIDE, Settings};
use crate::planes::{add_food, remove_food};
use crate::seats::{body_of, head_of};
use std::simd::u8x32;

/// Whether the snake of a seat lives and has its head on the cell.
#[inline]
fn has_head_at(head: &Head, bodies: &[u16], seat: usize, cell: u16) -> bool
    requires seat { seat < SEATS }
    ensures { HasHeadAt head.now bodies.now seat cell result }
{
    if head.seats[seat].cause != ALIVE {
        return false;
    }
    head_of(body_of(bodies, seat, head.seats[seat].parts)) == cell
}

#[inline]
fn is_under_head(head: &Head, bodies: &[u16], cell: u16) -> bool
    requires seats { head.now.settings.seats ≤ SEATS }
    ensures { IsUnderHead head.now bodies.now cell result }
{
    for seat in 0..usize::from(head.settings.seats) {
        if has_head_at(head, bodies, seat, cell) {
            return true;
        }
    }
    false
}

/// Takes the food of that index off the plane if it is gone, else moves it to the place `left`.
/// Returns the number of cells that are left so far.
#[inline]
fn keep_food(food: &mut [u16], plane: &mut [u8], index: usize, left: usize, gone: bool) -> usize
    requires index { index < length food.old }
    requires left { left ≤ index }
    ensures { KeepsFood gone index left food.old plane.old food.new plane.new result }
{
    let cell = food[index];
    if gone {
        remove_food(plane, cell);
        return left;
    }
    food[left] = cell;
    left + 1
}

/// Removes the food under living heads; the other food keeps its order.
pub fn remove_eaten(head: &mut Head, food: &mut [u16], plane: &mut [u8], bodies: &[u16])
    requires seats { head.old.settings.seats ≤ SEATS }
    ensures settings { head.new.settings ≡ head.old.settings }
    ensures board { RemovesEaten bodies.now head.old food.old plane.old head.new food.new plane.new }
{
    let count = usize::from(head.foods).min(food.len());
    let mut left = 0usize;
    for index in 0..count {
        let gone = is_under_head(head, bodies, food[index]);
        left = keep_food(food, plane, index, left, gone);
    }
    head.foods = left.min(1024) as u16;
}

/// The cells of a row of the board.
#[inline]
fn row_of<'a>(plane: &'a [u8], settings: &Settings, row: usize) -> &'a [u8]
    requires high { row < LARGE_SIDE }
    ensures short { length result.now ≤ LARGE_SIDE }
    ensures cells { IsRow settings.now plane.now row result.now }
{
    let start = (row + 1) * usize::from(STRIDE) + 1;
    let width = usize::from(settings.width.min(LARGE_SIDE));
    match plane.get(start..start + width) {
        Some(cells) => cells,
        None => &[],
    }
}

/// The number of zeros among the first lanes.
#[inline]
fn zeros_in(lanes: &[u8], width: u32) -> u32
    requires whole { 32 ≤ length lanes.now }
    requires narrow { width ≤ LARGE_SIDE }
    ensures few { result ≤ LARGE_SIDE }
    ensures count { result ≡ count_by is_zero (take width lanes.now) }
{
    let zeros = u8x32::from_slice(lanes)
        .simd_eq(u8x32::splat(0))
        .to_bitmask();
    (zeros % (1 << width)).count_ones()
}

/// The number of free cells of a row of the board, counted at once.
#[inline]
fn free_in(plane: &[u8], settings: &Settings, row: usize) -> u32
    requires high { row < LARGE_SIDE }
    ensures few { result ≤ LARGE_SIDE }
    ensures count { CountsRow settings.now plane.now row result }
{
    let start = (row + 1) * usize::from(STRIDE) + 1;
    let width = u32::from(settings.width.min(LARGE_SIDE));
    match plane.get(start..start + 32) {
        Some(lanes) => zeros_in(lanes, width),
        None => 0,
    }
}

/// The number of free cells of the board.
fn count_free(plane: &[u8], settings: &Settings) -> u32
    requires high { settings.now.height ≤ LARGE_SIDE }
    ensures { CountsFree settings.now plane.now result }
{
    let mut free = 0u32;
    for row in 0..usize::from(settings.height) {
        free = free.wrapping_add(free_in(plane, settings, row));
    }
    free
}

/// The column of the free cell of that number.
#[inline]
fn column_of(row: &[u8], number: u32) -> usize
    ensures { FindsZero row.now number result }
{
    let mut left = number;
    for (column, count) in row.iter().enumerate() {
        if *count == 0 {
            if left == 0 {
                return column;
            }
            left -= 1;
        }
    }
    0
}

/// The free cell of that number, counted row by row from the bottom left; 0 if there is none.
fn free_cell(plane: &[u8], settings: &Settings, number: u32) -> u16
    requires high { settings.now.height ≤ LARGE_SIDE }
    ensures { FindsFree settings.now plane.now number result }
{
    let mut left = number;
    for row in 0..usize::from(settings.height) {
        let free = free_in(plane, settings, row);
        if left < free {
            let cells = row_of(plane, settings, row);
            let column = column_of(cells, left).min(24);
            return ((row + 1) * usize::from(STRIDE) + column + 1) as u16;
        }
        left -= free;
    }
    0
}

/// Puts food on the free cell that the word selects.
fn place_food(head: &mut Head, food: &mut [u16], plane: &mut [u8], word: u32)
    requires high { head.old.settings.height ≤ LARGE_SIDE }
    ensures settings { head.new.settings ≡ head.old.settings }
    ensures board { AddsFood (with_one_food word) head.old food.old plane.old head.new food.new plane.new }
{
    let count = usize::from(head.foods).min(food.len());
    let free = count_free(plane, &head.settings);
    if free > 0 && count < food.len() {
        let cell = free_cell(plane, &head.settings, word % free);
        food[count] = cell;
        add_food(plane, cell);
        head.foods = head.foods.wrapping_add(1);
    }
}

/// Puts one food for each word.
fn place_missing(head: &mut Head, food: &mut [u16], plane: &mut [u8], words: &[u32])
    requires high { head.old.settings.height ≤ LARGE_SIDE }
    ensures settings { head.new.settings ≡ head.old.settings }
    ensures board { AddsFood (with_food_by words.now) head.old food.old plane.old head.new food.new plane.new }
{
    for word in words {
        place_food(head, food, plane, *word);
    }
}

/// Adds food up to the minimum, with a word for each; if there is enough, the first word decides by
/// the chance, and the second selects the cell.
pub fn spawn(head: &mut Head, food: &mut [u16], plane: &mut [u8], words: &[u32])
    requires high { head.old.settings.height ≤ LARGE_SIDE }
    ensures settings { head.new.settings ≡ head.old.settings }
    ensures board { Spawns words.now head.old food.old plane.old head.new food.new plane.new }
{
    let missing = u16::from(head.settings.min_food).saturating_sub(head.foods);
    if missing > 0 {
        let few = usize::from(missing).min(words.len());
        place_missing(head, food, plane, &words[..few]);
    } else if let [first, second, ..] = words {
        if *first % 100 < u32::from(head.settings.chance) {
            place_food(head, food, plane, *second);
        }
    }
}
