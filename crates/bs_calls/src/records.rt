//! The calls on records.

ghost use Rattle.std.specs.Prelude.{◌≡◌, ◌<◌, ◌≤◌, Some, MatchResult, IfOk, OnErr, length, take};
ghost use Rattle.bs_board.specs.boards.Legal.{IsLegal};
ghost use Rattle.bs_board.specs.boards.Over.{is_over};
ghost use Rattle.bs_board.specs.declared.boards.board.Board.{Board as AnyBoard};
ghost use Rattle.bs_board.specs.records.Record.{record_of};
ghost use Rattle.bs_calls.specs.declared.fault.Fault.TheVariants.{Room};
ghost use Rattle.bs_calls.specs.Setups.{setup_by_seat};
ghost use Rattle.bs_calls.specs.Records.{Begins, HasNoStart, HasNoTurn, IsRecordOf, IsStart, IsTurn, IsUnread, KeepsBehind};
ghost use Rattle.bs_calls.specs.inner.Records.{HasNoNext, HasNoSetup, IsFirst, IsNext};

use crate::fault::Fault;
use crate::front::front;
use crate::orders::SeatOrders;
use crate::setups::{SeatSetup, setup_by_seat};
use crate::turns::turn_by_seat;
use bs_board::limits::LAST_TURN;
use bs_board::{Board, Decode, New, decode, encode_into, size};
use bs_modes::over;
use std::alloc::Global;

/// Reads the board of a record.
fn read(alloc: Global, bytes: &[u8]) -> Result<Board, Fault>
    ensures { MatchResult result (IsRecordOf bytes.now) (IsUnread bytes.now) }
{
    match decode(alloc, bytes) {
        Ok(board) => Ok(board),
        Err(Decode::NotARecord) => Err(Fault::NotARecord),
        Err(Decode::Memory) => Err(Fault::Memory),
    }
}

/// Writes the record of a legal board, and returns its length.
#[tactic(auto, using(bs_board::proofs::records::Longest::legal_size_fits))]
fn write(board: &Board, into: &mut [u8]) -> Result<usize, Fault>
    requires { IsLegal board.now }
    ensures answer { MatchResult result
        (λ n. Begins into.new n board.now)
        (λ fault. (fault ≡ Room) × (length into.old < length (record_of board.now))) }
    ensures behind { IfOk result (λ n. KeepsBehind n into.old into.new) }
    ensures err { OnErr result (into.new ≡ into.old) }
{
    let count = size(board);
    if count > into.len() {
        return Err(Fault::Room);
    }
    encode_into(board, &mut into[..count]);
    Ok(count)
}

/// Whether the bytes are the record of a legal board: `NotARecord` if they are not.
pub fn is_legal(alloc: Global, bytes: &[u8]) -> Result<(), Fault>
    ensures { MatchResult result (λ _. (b : AnyBoard) × IsRecordOf bytes.now b) (IsUnread bytes.now) }
{
    let _board = read(alloc, bytes)?;
    Ok(())
}

/// Whether the game of a record is over.
pub fn is_over(alloc: Global, bytes: &[u8]) -> Result<bool, Fault>
    ensures { MatchResult result (λ over. (b : AnyBoard) × IsRecordOf bytes.now b × (over ≡ is_over b)) (IsUnread bytes.now) }
{
    let board = read(alloc, bytes)?;
    Ok(over(&board))
}

/// The setup, within the limits of a game.
fn setup_of(alloc: Global, seats: &SeatSetup<'_>) -> Result<New, Fault>
    ensures { MatchResult result (λ new. setup_by_seat seats.now ≡ Some new) (HasNoSetup seats.now) }
{
    match setup_by_seat(alloc, seats)? {
        Some(new) => Ok(new),
        None => Err(Fault::NotASetup),
    }
}

/// The first board of a game.
fn first(alloc: Global, seats: &SeatSetup<'_>) -> Result<Board, Fault>
    ensures { MatchResult result (IsFirst seats.now) (HasNoSetup seats.now) }
{
    let new = setup_of(alloc, seats)?;
    let board = bs_modes::start(alloc, &new)?;
    Ok(board)
}

/// Writes the first record of a game, and returns its length. Nothing is written behind it, and
/// nothing at all after an error.
pub fn start(alloc: Global, seats: &SeatSetup<'_>, into: &mut [u8]) -> Result<usize, Fault>
    ensures answer { MatchResult result (IsStart seats.now into.new) (HasNoStart seats.now (length into.old)) }
    ensures behind { IfOk result (λ n. KeepsBehind n into.old into.new) }
    ensures err { OnErr result (into.new ≡ into.old) }
{
    let board = first(alloc, seats)?;
    write(&board, into)
}

/// The board after a turn of the record's board.
fn next(alloc: Global, bytes: &[u8], orders: &SeatOrders<'_>) -> Result<Board, Fault>
    ensures { MatchResult result (IsNext bytes.now orders.now) (HasNoNext bytes.now) }
{
    let board = read(alloc, bytes)?;
    if board.turn >= LAST_TURN {
        return Err(Fault::LastTurn);
    }
    let next = turn_by_seat(alloc, board, orders)?;
    Ok(next)
}

/// Plays a turn: reads a record, writes the record after the turn, and returns its length. Nothing
/// is written behind it, and nothing at all after an error.
pub fn turn(
    alloc: Global,
    bytes: &[u8],
    orders: &SeatOrders<'_>,
    into: &mut [u8],
) -> Result<usize, Fault>
    ensures answer { MatchResult result (IsTurn bytes.now orders.now into.new) (HasNoTurn bytes.now orders.now (length into.old)) }
    ensures behind { IfOk result (λ n. KeepsBehind n into.old into.new) }
    ensures err { OnErr result (into.new ≡ into.old) }
{
    let next = next(alloc, bytes, orders)?;
    write(&next, into)
}

/// Plays a turn of the record in the first `count` bytes of a slot: writes the record after the
/// turn over it, and returns its length. Nothing is written behind it, and nothing at all after an
/// error.
pub fn turn_in_place(
    alloc: Global,
    slot: &mut [u8],
    count: usize,
    orders: &SeatOrders<'_>,
) -> Result<usize, Fault>
    ensures answer { MatchResult result
        (IsTurn (take count slot.old) orders.now slot.new)
        (HasNoTurn (take count slot.old) orders.now (length slot.old)) }
    ensures behind { IfOk result (λ n. KeepsBehind n slot.old slot.new) }
    ensures err { OnErr result (slot.new ≡ slot.old) }
{
    let next = next(alloc, front(slot, count), orders)?;
    write(&next, slot)
}
