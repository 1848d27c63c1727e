//! The directions that a move gives to snakes.

use crate::boards::point::Direction;
use crate::commands::packed::{INSIDE, is_below, push_entry, split_entry};
use crate::id::Id;
use smallvec::SmallVec;
use std::alloc::{AllocError, Global};
use std::marker::Model;
use std::str;

/// The number of entries that a list usually has at most.
const USUAL: usize = 8;

/// The directions given to snakes by their ids, in order. They are packed into one list of bytes,
/// so that two lists are compared and copied as bytes. Up to 32 bytes lie in the value itself:
/// those of two snakes with ids of up to 13 bytes, or of eight with ids of one.
#[derive(Debug, Drop)]
pub struct Moves {
    bytes: SmallVec<u8, INSIDE>,
}

impl Model for Moves {
    ghost use Rattle.std.specs.Prelude.{ℕ, List};
    ghost use Rattle.bs_board.specs.declared.boards.point.Direction.{Direction};
    ghost use Rattle.bs_board.specs.inner.Packed.{ArePacked, unpacked};

    ghost Value = { List (List ℕ × Direction) };

    ghost view = { λ m. unpacked m.bytes.items };

    ghost invariant = { λ m. ArePacked (unpacked m.bytes.items) m.bytes.items };
}

impl Moves {
    ghost use Rattle.std.specs.Prelude.{◌≡◌, [], ◌∷◌, ◌++◌, ◌↔◌, true, IfOk, OnOk, IsTrue};
    ghost use Rattle.std.specs.Str.{is_utf8};
    ghost use Rattle.bs_board.specs.Texts.{IdsAreTexts};
    ghost use Rattle.bs_board.specs.commands.Orders.{given_to, is_ascending, moves_in};

    /// Makes a list without entries.
    #[tactic(auto, using(crate::proofs::commands::PackedMoves::none_packed, crate::proofs::commands::PackedMoves::none_unpacked))]
    pub fn new(alloc: Global) -> Moves
        ensures { result ≡ [] }
    {
        Moves {
            bytes: SmallVec::new(alloc),
        }
    }

    /// Adds an entry. Allocates only if the entries get more than 32 bytes. An id of more than
    /// 65,535 bytes, which no line has, is refused as if memory ran out.
    #[inline(always)]
    pub fn push(&mut self, id: &[u8], direction: Direction) -> Result<(), AllocError>
        requires { is_utf8 id.now ≡ true }
        ensures { OnOk result (self.new ≡ self.old ++ (id.now, direction) ∷ []) }
    {
        push_entry(&mut self.bytes, id, direction)
    }

    /// The direction given to the id of these bytes.
    #[inline(always)]
    pub fn direction_for(&self, id: &[u8]) -> Option<Direction>
        ensures { result ≡ given_to self.now id.now }
    {
        let mut left = self.bytes.as_slice();
        for _turn in 0..self.bytes.len() {
            let (own, direction, rest) = split_entry(left)?;
            if own == id {
                return Some(direction);
            }
            left = rest;
        }
        None
    }

    /// Whether each id is above the one before it, by bytes, so that no id occurs twice.
    pub fn is_ascending(&self) -> bool
        ensures { result ≡ is_ascending self.now }
    {
        let Some((first, _, rest)) = split_entry(self.bytes.as_slice()) else {
            return true;
        };
        let mut before = first;
        let mut left = rest;
        for _turn in 0..self.bytes.len() {
            let Some((id, _, rest)) = split_entry(left) else {
                return true;
            };
            if !is_below(before, id) {
                return false;
            }
            before = id;
            left = rest;
        }
        true
    }

    /// Whether both are the same list.
    #[inline(always)]
    pub fn is_same(&self, other: &Moves) -> bool
        ensures { IsTrue result ↔ self.now ≡ other.now }
    {
        self.bytes.as_slice() == other.bytes.as_slice()
    }

    /// Recalls for the prover that each id is a text.
    pub(crate) fn are_texts(&self)
        ensures { IdsAreTexts self.now }
    {
        let _bytes = &self.bytes;
    }

    /// Copies the entries out, in order.
    pub fn to_vec(&self, alloc: Global) -> Result<Vec<(Id, Direction)>, AllocError>
        ensures { IfOk result (λ entries. entries.items ≡ self.now) }
    {
        let mut entries = Vec::new(alloc);
        let mut left = self.bytes.as_slice();
        for _turn in 0..self.bytes.len() {
            let Some((id, direction, rest)) = split_entry(left) else {
                return Ok(entries);
            };
            let Ok(id) = str::from_utf8(id) else {
                unreachable!()
            };
            entries.push((Id::from_str(alloc, id)?, direction))?;
            left = rest;
        }
        Ok(entries)
    }

    /// Lends the entries, in order.
    pub fn entries(&self, alloc: Global) -> Result<Vec<(&[u8], Direction)>, AllocError>
        ensures { IfOk result (λ entries. moves_in entries.items ≡ self.now) }
    {
        let mut entries = Vec::with_capacity(alloc, USUAL)?;
        let mut left = self.bytes.as_slice();
        for _turn in 0..self.bytes.len() {
            let Some((id, direction, rest)) = split_entry(left) else {
                return Ok(entries);
            };
            entries.push((id, direction))?;
            left = rest;
        }
        Ok(entries)
    }

    /// Copies the list. Allocates only if it has more than 32 bytes.
    pub fn copy(&self, alloc: Global) -> Result<Moves, AllocError>
        ensures { IfOk result (λ moves. moves ≡ self.now) }
    {
        Ok(Moves {
            bytes: SmallVec::from_slice(alloc, self.bytes.as_slice())?,
        })
    }
}
