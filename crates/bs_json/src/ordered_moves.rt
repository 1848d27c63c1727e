//! The moves of a line in the order of their ids.
ghost use Rattle.std.specs.Prelude.{◌≡◌, not, true, IfOk, IsTrue, OnOk};
ghost use Rattle.std.specs.Cmp.Lexicographic.{slice_cmp};
ghost use Rattle.std.specs.List.{position};
ghost use Rattle.std.specs.Ordering.{is_gt, nat_cmp};
ghost use Rattle.bs_board.specs.commands.Orders.{is_ascending, moves_in};
ghost use Rattle.bs_json.specs.inner.Compact.{are_plain_moves};
ghost use Rattle.bs_json.specs.inner.Sorted.{is_above, is_last, put_move};

use bs_board::{Direction, Moves};
use std::alloc::{AllocError, Global};

/// Whether the id is above the last one.
fn is_last(entries: &[(&[u8], Direction)], id: &[u8]) -> bool
    ensures { IsTrue result → is_last id.now (moves_in entries.now) ≡ true }
{
    let count = entries.len();
    if count == 0 {
        return true;
    }
    let (last, _) = entries[count - 1];
    last.cmp(id).is_lt()
}

/// Whether the id is above the last one, if there is one.
#[inline(always)]
pub(crate) fn is_above(id: &[u8], last: Option<&[u8]>) -> bool
    ensures { result ≡ is_above id.now last.entry }
{
    match last {
        Some(last) => last.cmp(id).is_lt(),
        None => true,
    }
}

/// The index of the first entry whose id is not below the id.
fn place_of(entries: &[(&[u8], Direction)], id: &[u8]) -> Option<usize>
    ensures { result ≡ position (λ entry. not (is_gt (slice_cmp nat_cmp id.now entry.0.now))) entries.now }
{
    entries.iter().position(|entry| !id.cmp(entry.0).is_gt())
}

/// Puts a move at its place; an id that is there takes its direction.
pub(crate) fn insert<'l>(
    entries: &mut Vec<(&'l [u8], Direction)>,
    id: &'l [u8],
    direction: Direction,
) -> Result<(), AllocError>
    ensures { OnOk result (moves_in entries.new.items ≡ put_move (moves_in entries.old.items) (id.now, direction)) }
{
    let Some(at) = place_of(entries.as_slice(), id) else {
        entries.push((id, direction))?;
        return Ok(());
    };
    let (other, _) = entries[at];
    if id.cmp(other).is_lt() {
        entries.insert(at, (id, direction))?;
    } else {
        entries[at] = (other, direction);
    }
    Ok(())
}

/// Puts a move at its place among those before it, whose ids ascend.
#[tactic(auto, using(crate::proofs::OrderedMoves::put_last))]
pub(crate) fn put<'l>(
    entries: &mut Vec<(&'l [u8], Direction)>,
    id: &'l [u8],
    direction: Direction,
) -> Result<(), AllocError>
    requires { is_ascending (moves_in entries.old.items) ≡ true }
    ensures { OnOk result (moves_in entries.new.items ≡ put_move (moves_in entries.old.items) (id.now, direction)) }
{
    if !is_last(entries.as_slice(), id) {
        return insert(entries, id, direction);
    }
    entries.push((id, direction))?;
    Ok(())
}

/// Packs the entries in their order.
pub(crate) fn packed(alloc: Global, entries: &[(&[u8], Direction)]) -> Result<Moves, AllocError>
    requires { are_plain_moves (moves_in entries.now) ≡ true }
    ensures { IfOk result (λ moves. moves ≡ moves_in entries.now) }
{
    let mut moves = Moves::new(alloc);
    for (id, direction) in entries {
        moves.push(id, *direction)?;
    }
    Ok(moves)
}
