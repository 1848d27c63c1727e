//! The packed form of the directions of a move: for each snake a byte for the direction, the length
//! of the id in two bytes, and the id.

ghost use Rattle.std.specs.Prelude.{IsOk, length, ◌≡◌, ◌++◌, ◌∷◌, [], List, ℕ, MatchOption, OnOk, drop, if◌then◌else◌, is_ok, ◌+◌, ◌≤◌};
ghost use Rattle.bs_board.specs.declared.boards.point.Direction.{Direction as AnyDirection};
ghost use Rattle.bs_board.specs.Texts.{is_text_below};
ghost use Rattle.smallvec.specs.SmallVec.{HasRoomFor};
ghost use Rattle.bs_board.specs.inner.Packed.{direction_byte, direction_of, packed, packed_move};

use crate::boards::point::Direction;
use crate::records::decoding::from_two_bytes;
use crate::records::encoding::two_bytes;
use crate::records::layout::cut;
use smallvec::SmallVec;
use std::alloc::AllocError;

/// The most bytes that lie in the value itself.
pub(crate) const INSIDE: usize = 32;

/// The largest number of bytes of an id. No line has a longer one.
const LONGEST: usize = 65_535;

/// The most bytes of an id that are added one by one.
const SHORT: usize = 8;

/// The bytes of room for later entries that a full list takes beside those of the next one: the
/// directions of eight snakes with ids of 20 bytes take one allocation.
const AMPLE: usize = 192;

#[inline(always)]
fn direction_byte(direction: Direction) -> u8
    ensures { result ≡ direction_byte direction }
{
    match direction {
        Direction::Up => 0,
        Direction::Down => 1,
        Direction::Left => 2,
        Direction::Right => 3,
    }
}

#[inline(always)]
fn direction_of(byte: u8) -> Direction
    ensures { result ≡ direction_of byte }
{
    match byte {
        0 => Direction::Up,
        1 => Direction::Down,
        2 => Direction::Left,
        _ => Direction::Right,
    }
}

/// Whether the first id is below the second one, by bytes.
#[inline(always)]
pub(crate) fn is_below(id: &[u8], next: &[u8]) -> bool
    ensures { result ≡ is_text_below id.now next.now }
{
    id.cmp(next).is_lt()
}

/// Splits off the first entry: its id, its direction and the later entries. `None` if there is no
/// entry.
#[inline(always)]
pub(crate) fn split_entry(bytes: &[u8]) -> Option<(&[u8], Direction, &[u8])>
    ensures { (moves : List (List ℕ × AnyDirection)) → bytes.now ≡ packed moves
        → MatchOption result (moves ≡ []) (λ found. (moves ≡ (found.0.now, found.1) ∷ drop 1 moves) × (found.2.now ≡ packed (drop 1 moves))) }
{
    match bytes {
        [direction, high, low, rest @ ..] => {
            let (id, rest) = cut(usize::from(from_two_bytes(*high, *low)), rest);
            Some((id, direction_of(*direction), rest))
        }
        _ => None,
    }
}

/// Makes room for `more` bytes. A full list takes room for later entries too.
#[inline(always)]
fn make_room(bytes: &mut SmallVec<u8, INSIDE>, more: usize) -> Result<(), AllocError>
    requires { more ≤ LONGEST + 3 }
    ensures items { bytes.new.items ≡ bytes.old.items }
    ensures ok { OnOk result (HasRoomFor bytes.new more) }
{
    if bytes.capacity() - bytes.len() < more {
        return bytes.reserve(more + AMPLE);
    }
    Ok(())
}

/// Adds the bytes of an id. Those of a short one are added one by one, which takes no call.
#[inline(always)]
fn push_id(bytes: &mut SmallVec<u8, INSIDE>, id: &[u8]) -> Result<(), AllocError>
    requires { HasRoomFor bytes.old (length id.now) }
    ensures ok { IsOk result }
    ensures items { bytes.new.items ≡ bytes.old.items ++ id.now }
{
    if id.len() > SHORT {
        return bytes.extend_from_slice(id);
    }
    for byte in id {
        bytes.push_reserved(*byte);
    }
    Ok(())
}

/// Adds an entry. An id of more than 65,535 bytes is refused as if memory ran out.
#[inline(always)]
pub(crate) fn push_entry(
    bytes: &mut SmallVec<u8, INSIDE>,
    id: &[u8],
    direction: Direction,
) -> Result<(), AllocError>
    ensures { bytes.new.items ≡ (if is_ok result then bytes.old.items ++ packed_move (id.now, direction) else bytes.old.items) }
{
    if id.len() > LONGEST {
        return Err(AllocError);
    }
    make_room(bytes, 3 + id.len())?;
    let [high, low] = two_bytes(id.len() as u16);
    bytes.push_reserved(direction_byte(direction));
    bytes.push_reserved(high);
    bytes.push_reserved(low);
    push_id(bytes, id)
}
