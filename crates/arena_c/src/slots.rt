//! Turns of many records.

ghost use Rattle.std.specs.Prelude.{◌≡◌, ◌≤◌, ◌<◌, length, min};
ghost use Rattle.arena_c.specs.Slots.{PlaysSlot, PlaysSlots, slot_bytes, turn_of_game};
ghost use Rattle.bs_calls.specs.BySeat.{turn_by_seat};

use crate::status::{OK, answered};
use bs_batch::{ManyOrders, orders_of};
use bs_calls::{SeatOrders, turn_in_place};
use std::alloc::Global;

/// The orders of one game, which give nothing of the map.
fn seat_orders<'a>(orders: &ManyOrders<'a>, number: usize) -> SeatOrders<'a>
    ensures { turn_by_seat result ≡ turn_of_game orders.now number }
{
    let own = orders_of(orders, number);
    SeatOrders {
        moves: own.moves,
        words: own.words,
        hazards: &[],
        food: &[],
        has_hazards: 0,
        has_food: 0,
    }
}

/// Plays a turn of the record in the first `count` bytes of a slot, by the orders of the game of
/// that number. Returns the status.
fn turn_slot(
    alloc: Global,
    slot: &mut [u8],
    count: &mut usize,
    orders: &ManyOrders<'_>,
    number: usize,
) -> u8
    ensures { PlaysSlot (turn_of_game orders.now number) slot.old slot.new count.old count.new result }
{
    let own = seat_orders(orders, number);
    answered(turn_in_place(alloc, slot, *count, &own), count)
}

/// Plays a turn of many records: each lies at the start of its slot, `lengths` has the length of
/// each, and the slots share `records` equally. The new record and its length take the place of the
/// old ones. Writes the status of each turn, and returns the number of turns that were played.
#[unsafe(no_mangle)]
pub extern "C" fn arena_turns(
    alloc: Global,
    records: &mut [u8],
    lengths: &mut [usize],
    statuses: &mut [u8],
    orders: &ManyOrders<'_>,
) -> usize
    ensures { PlaysSlots orders.now (slot_bytes records.old lengths.old) (min (length lengths.old) (length statuses.old))
        records.old records.new lengths.old lengths.new statuses.old statuses.new result }
{
    let each = records.len() / lengths.len().max(1);
    let slots = lengths.len().min(statuses.len());
    let mut played = 0usize;
    for number in 0..slots {
        let from = number * each;
        let slot = &mut records[from..from + each];
        let status = turn_slot(alloc, slot, &mut lengths[number], orders, number);
        statuses[number] = status;
        played = played.wrapping_add(usize::from(status == OK));
    }
    played
}
