//! Exact calls on records. Each returns a status.

ghost use Rattle.std.specs.Prelude.{◌≡◌, ◌≢◌, if◌then◌else◌, length};
ghost use Rattle.arena_c.specs.Status.{IsStatus};
ghost use Rattle.bs_board.specs.boards.Over.{is_over};
ghost use Rattle.bs_board.specs.declared.boards.board.Board.{Board as AnyBoard};
ghost use Rattle.bs_calls.specs.Records.{HasNoStart, HasNoTurn, IsRecordOf, IsStart, IsTurn, IsUnread, KeepsBehind};

use crate::status::{answered, checked, told};
use bs_calls::{SeatOrders, SeatSetup, is_legal, is_over, start, turn};
use std::alloc::Global;

/// Whether the bytes are the record of a legal board.
#[unsafe(no_mangle)]
pub extern "C" fn arena_legal(alloc: Global, bytes: &[u8]) -> u8
    ensures { IsStatus result ((b : AnyBoard) × IsRecordOf bytes.now b) (IsUnread bytes.now) }
{
    checked(is_legal(alloc, bytes))
}

/// Writes 1 if the game of the record is over, else 0. After a fault nothing is written.
#[unsafe(no_mangle)]
pub extern "C" fn arena_over(alloc: Global, bytes: &[u8], over: &mut u8) -> u8
    ensures status { IsStatus result
        ((b : AnyBoard) × IsRecordOf bytes.now b × (over.new ≡ if is_over b then 1 else 0))
        (IsUnread bytes.now) }
    ensures fault { result ≢ 0 → over.new ≡ over.old }
{
    told(is_over(alloc, bytes), over)
}

/// Writes the record of turn 0 and its length. Nothing is written behind it, and nothing at all
/// after a fault.
#[unsafe(no_mangle)]
pub extern "C" fn arena_start(
    alloc: Global,
    setup: &SeatSetup<'_>,
    into: &mut [u8],
    count: &mut usize,
) -> u8
    ensures status { IsStatus result (IsStart setup.now into.new count.new) (HasNoStart setup.now (length into.old)) }
    ensures behind { result ≡ 0 → KeepsBehind count.new into.old into.new }
    ensures fault { result ≢ 0 → (into.new ≡ into.old) × (count.new ≡ count.old) }
{
    answered(start(alloc, setup, into), count)
}

/// Plays a turn: writes the record after it and its length. Nothing is written behind it, and
/// nothing at all after a fault.
#[unsafe(no_mangle)]
pub extern "C" fn arena_turn(
    alloc: Global,
    bytes: &[u8],
    orders: &SeatOrders<'_>,
    into: &mut [u8],
    count: &mut usize,
) -> u8
    ensures status { IsStatus result (IsTurn bytes.now orders.now into.new count.new) (HasNoTurn bytes.now orders.now (length into.old)) }
    ensures behind { result ≡ 0 → KeepsBehind count.new into.old into.new }
    ensures fault { result ≢ 0 → (into.new ≡ into.old) × (count.new ≡ count.old) }
{
    answered(turn(alloc, bytes, orders, into), count)
}
