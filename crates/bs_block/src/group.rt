//! A group of blocks in one allocation. Each block of it returns its region when it is dropped, and
//! the last of them frees the allocation.
ghost use Rattle.std.specs.Prelude.{◌≡◌, ◌+◌, ◌*◌, ◌<◌, ◌≤◌, ◌^◌, [], ◌∷◌, ◌++◌, length, Some, None, IfOk, IfSome};
ghost use Rattle.std.specs.Arc.{arc_value};
ghost use denote.RawPtr.{◌+ₚ◌};
ghost use Rattle.bs_block.specs.Returns.{Returned};
ghost use Rattle.bs_block.specs.inner.Joins.{Adjoin, IsJoint};
ghost use Rattle.bs_block.specs.inner.Region.{IsThere};

use crate::raw::{Base, Deed, Region, allocate, deallocate};
use atomic_table::{Play, Table, TableRule};
use std::alloc::{AllocError, AllocFailed, Global};
use std::marker::Model;
use std::sync::Arc;

/// How the pieces of a group lie: `count` of `size` bytes each, side by side from `base` on.
#[derive(Clone, Copy)]
pub struct Layout {
    pub(crate) base: Base,
    pub(crate) size: usize,
    pub(crate) count: usize,
}

/// A region that is never freed if it is dropped.
pub struct Spare {
    region: Region,
}

impl Drop for Spare {
    fn drop(self) {
        let Spare { region } = self;
        region.forget();
    }
}

impl Spare {
    fn into_region(self) -> Region
        ensures { result ≡ self.region }
    {
        let Spare { region } = self;
        region
    }
}

/// Ties the word of a piece to its slot: 0 before the slot is taken, 2 while it is out, and 1 once
/// it has the region of the piece.
pub struct ReturnRule;

impl TableRule<Option<Spare>, (), Layout> for ReturnRule {
    ghost holds = { Returned };

    ghost first = { λ _. tt };
}

/// Takes the empty slot of a piece, if it was not taken before.
struct Take;

impl Play<Option<Spare>, ()> for Take {
    ghost then = { λ step before found after. found ≡ 0 → after.1 ≡ (step.word, None) ∷ [] };
}

/// Puts the slot back.
struct Give;

impl Play<Option<Spare>, ()> for Give {
    ghost then = { λ step before found after. Unit {0} };
}

/// A word and a slot for each piece.
type Returns = Table<Option<Spare>, (), Layout, ReturnRule, Global>;

/// The regions that came back, and the right to free the allocation. The blocks of the group share
/// it.
pub struct Group {
    table: Returns,
    layout: Layout,
    front: Region,
    deed: Deed<Global>,
    alloc: Global,
    ghost keyed: { table.shared.key ≡ layout },
    ghost counted: { (table.shared.table_id.words ≡ layout.count) × (table.shared.table_id.slots ≡ layout.count) },
    ghost begun: { (front.at ≡ layout.base.ptr) × (front.slots ≡ []) },
    ghost held: { (deed.at ≡ layout.base.ptr) × (deed.len ≡ layout.size * layout.count) × (deed.alloc ≡ alloc) },
    ghost few: { layout.size * layout.count < 2 ^ 63 },
    ghost lies: { IsThere layout.base.ptr },
}

/// The table of a new group.
fn returns_of(alloc: Global, layout: &Layout) -> Result<Returns, AllocError>
    ensures key { IfOk result (λ table. table.shared.key ≡ layout.now) }
    ensures counts { IfOk result (λ table. (table.shared.table_id.words ≡ layout.now.count) × (table.shared.table_id.slots ≡ layout.now.count)) }
{
    let words = vec![in alloc; 0; layout.count]?;
    let (table, _) = Table::vacant(alloc, words.as_slice(), layout.count, layout)?;
    Ok(table)
}

/// The content of the slot, if its word says that the region came back.
fn returned(word: u64, slot: Option<Spare>) -> Option<Spare>
    ensures { IfSome result (λ spare. (word ≡ 1) × (slot ≡ Some spare)) }
{
    if word == 1 { slot } else { None }
}

/// The places of both, if neither is missing.
fn joined(whole: Option<Spare>, next: Option<Spare>) -> Option<Spare>
    requires { (a b : Spare) → whole ≡ Some a → next ≡ Some b → Adjoin a.region b.region }
    ensures { IfSome result (λ spare. (a : Spare) × (b : Spare) × (whole ≡ Some a) × (next ≡ Some b) × IsJoint a.region b.region spare.region) }
{
    let whole = whole?;
    let next = next?;
    let region = whole.into_region().join(next.into_region());
    Some(Spare { region })
}

/// Joins the regions that came back to `front`, which is empty. None if one is missing.
fn gather(table: Returns, layout: Layout, front: Region) -> Option<Spare>
    requires key { table.shared.key ≡ layout }
    requires counts { (table.shared.table_id.words ≡ layout.count) × (table.shared.table_id.slots ≡ layout.count) }
    requires front { (front.at ≡ layout.base.ptr) × (front.slots ≡ []) }
    requires few { layout.size * layout.count < 2 ^ 63 }
    ensures { IfSome result (λ whole. (whole.region.at ≡ layout.base.ptr) × (length whole.region.slots ≡ layout.size * layout.count)) }
{
    let mut closed = table.close();
    let mut whole = Some(Spare { region: front });
    for number in 0..layout.count {
        let next = returned(closed.word(number), closed.take(number));
        whole = joined(whole, next);
    }
    closed.free();
    whole
}

impl Group {
    /// Returns the region of a piece.
    fn give(&self, number: usize, region: Region)
        requires there { number < self.now.layout.count }
        requires at { region.at ≡ self.now.layout.base.ptr +ₚ number * self.now.layout.size }
        requires len { length region.slots ≡ self.now.layout.size }
    {
        let shared = &self.table.shared;
        let (found, mut seat) = shared.swap_new_seat::<Take>(number, 2);
        let spare = Spare { region };
        if found != 0 {
            return;
        }
        match shared.exchange(&mut seat, number, Some(spare)) {
            None => {}
            Some(_) => unreachable!(),
        }
        shared.store::<Give>(&mut seat, number, 1);
    }

    /// Frees the allocation. Each region came back, since each block has returned its own.
    fn free(self) {
        let Group {
            table,
            layout,
            front,
            deed,
            alloc,
        } = self;
        match gather(table, layout, front) {
            Some(spare) => {
                let len = layout.size * layout.count;
                deallocate(&alloc, layout.base, len, spare.into_region(), deed);
            }
            None => deed.forget(),
        }
    }

    /// Frees the allocation of a group that has no block. `rest` is all of it.
    fn undo(self, rest: Region)
        requires at { rest.at ≡ self.layout.base.ptr }
        requires len { length rest.slots ≡ self.layout.size * self.layout.count }
    {
        let Group {
            table,
            layout,
            front,
            deed,
            alloc,
        } = self;
        front.forget();
        drop(table);
        deallocate(&alloc, layout.base, layout.size * layout.count, rest, deed);
    }

    /// Makes the group shared. `rest` is all of its allocation.
    fn share(self, rest: Region) -> Result<Pieces, AllocError>
        requires at { rest.at ≡ self.layout.base.ptr }
        requires len { length rest.slots ≡ self.layout.size * self.layout.count }
        ensures { IfOk result (λ pieces. (pieces.next ≡ 0) × ((arc_value pieces.group).layout ≡ self.layout)) }
    {
        match Arc::new(self.alloc, self) {
            Ok(group) => Ok(Pieces {
                group,
                rest,
                next: 0,
            }),
            Err(AllocFailed { value }) => {
                value.undo(rest);
                Err(AllocError)
            }
        }
    }
}

/// Gives one owner of the group up. The last one frees the group.
fn leave(group: Arc<Group, Global>) {
    if let Some(group) = Arc::into_inner(group) {
        group.free();
    }
}

/// The piece of one block. Contracts see where its region begins and how long it is.
pub struct Member {
    group: Arc<Group, Global>,
    number: usize,
}

impl Model for Member {
    ghost use Rattle.std.specs.Prelude.{◌<◌};
    ghost use Rattle.std.specs.Arc.{arc_value};
    ghost use Rattle.bs_block.specs.Returns.{Place, place_of};

    ghost Value = { Place };

    ghost view = { λ m. place_of (arc_value m.group).layout m.number };

    ghost invariant = { λ m. m.number < (arc_value m.group).layout.count };
}

impl Member {
    /// Returns the region to its group. The last block of a group frees the allocation.
    pub(crate) fn end(self, region: Region)
        requires at { region.at ≡ self.at }
        requires len { length region.slots ≡ self.len }
    {
        let Member { group, number } = self;
        group.give(number, region);
        leave(group);
    }
}

/// The pieces of a group that no block has yet.
pub(crate) struct Pieces {
    pub(crate) group: Arc<Group, Global>,
    pub(crate) rest: Region,
    pub(crate) next: usize,
    ghost at: { rest.at ≡ (arc_value group).layout.base.ptr +ₚ next * (arc_value group).layout.size },
    ghost left: { next * (arc_value group).layout.size + length rest.slots ≡ (arc_value group).layout.size * (arc_value group).layout.count },
}

/// One piece, with its region.
pub(crate) struct Piece {
    pub(crate) base: Base,
    pub(crate) region: Region,
    pub(crate) member: Member,
    ghost at: { (region.at ≡ base.ptr) × (member.at ≡ base.ptr) },
    ghost len: { length region.slots ≡ member.len },
}

impl Drop for Pieces {
    fn drop(self) {
        let Pieces {
            group,
            rest,
            next: _,
        } = self;
        rest.forget();
        leave(group);
    }
}

impl Pieces {
    /// Allocates `count` pieces of `size` bytes each.
    pub(crate) fn open(alloc: Global, size: usize, count: usize) -> Result<Pieces, AllocError>
        requires { size * count < 2 ^ 63 }
        ensures { IfOk result (λ pieces. (pieces.next ≡ 0) × ((arc_value pieces.group).layout.size ≡ size) × ((arc_value pieces.group).layout.count ≡ count)) }
    {
        let (base, region, deed) = allocate(&alloc, size * count)?;
        let layout = Layout { base, size, count };
        match returns_of(alloc, &layout) {
            Ok(table) => {
                let (front, rest) = region.cut(0);
                let group = Group {
                    table,
                    layout,
                    front,
                    deed,
                    alloc,
                };
                group.share(rest)
            }
            Err(error) => {
                deallocate(&alloc, base, size * count, region, deed);
                Err(error)
            }
        }
    }

    /// Cuts the next piece off.
    pub(crate) fn cut(self) -> Result<(Piece, Pieces), AllocError>
        requires { self.next < (arc_value self.group).layout.count }
        ensures len { IfOk result (λ parts. parts.0.member.len ≡ (arc_value self.group).layout.size) }
        ensures next { IfOk result (λ parts. (parts.1.next ≡ self.next + 1) × ((arc_value parts.1.group).layout ≡ (arc_value self.group).layout)) }
    {
        let other = Arc::try_clone(&self.group)?;
        let Pieces { group, rest, next } = self;
        let layout = group.layout;
        let (region, rest) = rest.cut(layout.size);
        let piece = Piece {
            base: layout.base.at(next * layout.size),
            region,
            member: Member {
                group: other,
                number: next,
            },
        };
        Ok((
            piece,
            Pieces {
                group,
                rest,
                next: next + 1,
            },
        ))
    }
}
