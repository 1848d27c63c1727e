//! The cells of a game as lists.

ghost use Rattle.std.specs.Prelude.{◌≡◌, ◌≤◌, ◌<◌, length};
ghost use Rattle.bs_batch.specs.Listing.{ListsBody, ListsFood};
ghost use Rattle.bs_batch.specs.inner.Listing.{ListsCells};

use crate::layout::{Head, Place, SEATS, place_of};
use crate::seats::body_of;

/// Writes as many cells as there is room for, and returns how many there are.
fn write(cells: &[u16], into: &mut [Place]) -> usize
    ensures count { result ≡ length cells.now }
    ensures places { ListsCells cells.now into.new result }
{
    let few = cells.len().min(into.len());
    for index in 0..few {
        into[index] = place_of(cells[index]);
    }
    cells.len()
}

/// Writes the cells with food, the oldest first. Returns their number; no more are written than
/// there is room for.
pub fn list_food(head: &Head, food: &[u16], into: &mut [Place]) -> usize
    ensures few { result ≤ length food.now }
    ensures cells { ListsFood head.now food.now into.new result }
{
    let count = usize::from(head.foods).min(food.len());
    write(&food[..count], into)
}

/// Writes the parts of a seat, its head first. Returns their number, 0 for no seat; no more are
/// written than there is room for.
pub fn list_body(head: &Head, bodies: &[u16], seat: usize, into: &mut [Place]) -> usize
    ensures cells { ListsBody head.now bodies.now seat into.new result }
    ensures none { SEATS ≤ seat → result ≡ 0 }
{
    if seat >= SEATS {
        return 0;
    }
    write(body_of(bodies, seat, head.seats[seat].parts), into)
}
