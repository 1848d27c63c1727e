//! A block and its calls. A clause sees a block as the list of its bytes.
ghost use Rattle.std.specs.Prelude.{◌≡◌, ◌+◌, ◌-◌, ◌≤◌, [], ◌++◌, length, take, replicate, IfOk, OnOk, MatchOption, IsTrue, ◌↔◌};
ghost use Rattle.std.specs.Borrow.{sem};
ghost use Rattle.bs_block.specs.Bytes.{IsCapacity, HasRoom, Overflows, Pushes, range};
ghost use Rattle.bs_block.specs.Rounding.{rounded};

use crate::group::{Member, Piece, Pieces};
use crate::raw::{Base, Deed, Region, allocate, deallocate};
use crate::rounding::round_up;
use std::alloc::{AllocError, Global};
use std::marker::Model;

/// The most bytes that a block may have.
pub const MOST_CAPACITY: usize = 1_073_741_824;

/// The most blocks that one allocation may have.
pub const MOST_BLOCKS: usize = 32;

/// Whose allocation the bytes of a block are part of.
pub enum Origin {
    /// The block's own.
    Alone(Deed<Global>),
    /// That of a group.
    Grouped(Member),
}

/// `CAP` bytes, seen as the list of those in use. `CAP` is a multiple of `UNIT`, from `UNIT` to
/// `MOST_CAPACITY`. Each append takes its size rounded up to a multiple of `UNIT`. The block alone
/// owns its bytes; dropping it frees them, those of a group once each of its blocks is dropped.
pub struct Block<const CAP: usize> {
    base: Base,
    len: usize,
    region: Region,
    origin: Origin,
    alloc: Global,
}

impl<const CAP: usize> Model for Block<CAP> {
    ghost use Rattle.std.specs.Prelude.{List, ℕ};

    ghost Value = { List ℕ };

    ghost use Rattle.bs_block.specs.inner.BlockLayout.{bytes_of, IsBlock};

    ghost view = { λ b. bytes_of b };

    ghost invariant = { λ b. IsBlock CAP b };
}

impl<const CAP: usize> Block<CAP> {
    ghost use Rattle.bs_block.specs.BlockLends.{lends_range, lends_fresh, lends_fresh_if};

    /// Makes an empty block of one allocation. Writes none of its bytes. The error is the
    /// allocator's.
    pub fn new(alloc: Global) -> Result<Self, AllocError>
        requires { IsCapacity CAP }
        ensures { IfOk result (λ b. b ≡ []) }
    {
        let (base, region, deed) = allocate(&alloc, CAP)?;
        Ok(Block {
            base,
            len: 0,
            region,
            origin: Origin::Alone(deed),
            alloc,
        })
    }

    /// Makes `n` empty blocks of one allocation and appends them. Writes none of their bytes. The
    /// error is the allocator's.
    pub fn append_group(
        alloc: Global,
        n: usize,
        blocks: &mut Vec<Block<CAP>>,
    ) -> Result<(), AllocError>
        requires capacity { IsCapacity CAP }
        requires few { n ≤ MOST_BLOCKS }
        ensures { OnOk result (blocks.new.items ≡ blocks.old.items ++ replicate n []) }
    {
        blocks.reserve(n)?;
        let mut left = Pieces::open(alloc, CAP, n)?;
        for _ in 0..n {
            let (piece, others) = left.cut()?;
            left = others;
            blocks.push_reserved(Block::of(alloc, piece));
        }
        Ok(())
    }

    /// The empty block of a piece.
    fn of(alloc: Global, piece: Piece) -> Self
        requires capacity { IsCapacity CAP }
        requires len { piece.member.len ≡ CAP }
        ensures { result ≡ [] }
    {
        let Piece {
            base,
            region,
            member,
        } = piece;
        Block {
            base,
            len: 0,
            region,
            origin: Origin::Grouped(member),
            alloc,
        }
    }

    /// The number of bytes in use.
    pub fn len(&self) -> usize
        ensures { result ≡ length self.now }
    {
        self.len
    }

    /// The number of bytes not in use.
    pub fn room(&self) -> usize
        ensures room { result + length self.now ≡ CAP }
        ensures most { result ≤ MOST_CAPACITY }
    {
        CAP - self.len
    }

    /// Empties the block. It keeps its memory.
    pub fn clear(&mut self)
        ensures { self.new ≡ [] }
    {
        self.len = 0;
    }

    /// The `n` bytes from `at` on.
    pub fn get(&self, at: usize, n: usize) -> &[u8]
        requires { at + n ≤ length self.now }
        ensures value { result.now ≡ range at n self.now }
        ensures len { length result.now ≡ n }
    {
        self.region.slice(self.base, at, n)
    }

    /// The bytes before `at`, to read, and the `n` from `at` on, to write.
    fn lend(&mut self, at: usize, n: usize) -> (&[u8], &mut [u8])
        requires { at + n ≤ length self.old }
        ensures* writes_back { sem 𝓛 (lends_range CAP.row self.entry at n result.1) }
        ensures front { result.0.now ≡ take at self.old }
        ensures run { result.1.now ≡ range at n self.old }
        ensures len { length result.1.now ≡ n }
    {
        let base = self.base;
        self.region.split(base, at, n)
    }

    /// The `n` bytes from `at` on, to write.
    pub fn get_mut(&mut self, at: usize, n: usize) -> &mut [u8]
        requires { at + n ≤ length self.old }
        ensures* writes_back { sem 𝓛 (lends_range CAP.row self.entry at n result) }
        ensures value { result.now ≡ range at n self.old }
        ensures len { length result.now ≡ n }
    {
        let (_, run) = self.lend(at, n);
        run
    }

    /// Appends the bytes, and no zeros.
    fn append(&mut self, bytes: &[u8])
        requires { length self.old + length bytes.now ≤ CAP }
        ensures bytes { self.new ≡ self.old ++ bytes.now }
        ensures len { length self.new ≡ length self.old + length bytes.now }
    {
        let (base, at) = (self.base, self.len);
        self.region.write_slice(base, at, bytes);
        self.len = at + bytes.len();
    }

    /// Appends `n` zeros.
    fn append_zeros(&mut self, n: usize)
        requires { length self.old + n ≤ CAP }
        ensures bytes { self.new ≡ self.old ++ replicate n 0 }
        ensures len { length self.new ≡ length self.old + n }
    {
        let (base, at) = (self.base, self.len);
        self.region.write_zeros(base, at, n);
        self.len = at + n;
    }

    /// The rounded size of `n` bytes, where it does not exceed the room.
    #[tactic(auto, using(crate::proofs::Rounded::rounded_above))]
    fn fitting(&self, n: usize) -> Option<usize>
        ensures { MatchOption result (Overflows CAP self.now n) (λ size. HasRoom CAP self.now n × (size ≡ rounded n)) }
    {
        let room = self.room();
        if n > room {
            return None;
        }
        let size = round_up(n);
        if size > room {
            return None;
        }
        Some(size)
    }

    /// Whether the rounded size of `n` bytes exceeds the room.
    fn overflows(&self, n: usize) -> bool
        ensures { IsTrue result ↔ Overflows CAP self.now n }
    {
        self.fitting(n).is_none()
    }

    /// Appends the bytes, then zeros up to a multiple of `UNIT`. Returns the old length, which is
    /// where the bytes begin, or `None` if their rounded size exceeds the room.
    #[tactic(auto, using(crate::proofs::Rounded::rounded_above))]
    pub fn push(&mut self, bytes: &[u8]) -> Option<usize>
        ensures { Pushes CAP self.old bytes.now result self.new }
    {
        let size = self.fitting(bytes.len())?;
        let at = self.len;
        self.append(bytes);
        self.append_zeros(size - bytes.len());
        Some(at)
    }

    /// Appends `n` zeros, rounded up to a multiple of `UNIT`. Lends the old bytes, to read, and at
    /// the same time the `n` zeros, to write. Requires `round_up(n) <= room()`.
    #[tactic(auto, using(crate::proofs::Rounded::rounded_above, crate::proofs::Runs::extended_by, crate::proofs::Runs::old_by, crate::proofs::Runs::fresh_by))]
    pub fn fill(&mut self, n: usize) -> (&[u8], &mut [u8])
        requires { HasRoom CAP self.old n }
        ensures* writes_back { sem 𝓛 (lends_fresh CAP.row self.entry n result.1) }
        ensures old { result.0.now ≡ self.old }
        ensures fresh { result.1.now ≡ replicate n 0 }
        ensures len { length result.1.now ≡ n }
    {
        let old = self.len;
        self.append_zeros(round_up(n));
        self.lend(old, n)
    }

    /// Like `fill`; `None` if the rounded size exceeds the room, and then the block is unchanged.
    pub fn split_fill(&mut self, n: usize) -> Option<(&[u8], &mut [u8])>
        ensures* writes_back { sem 𝓛 (lends_fresh_if CAP.row self.entry n result) }
        ensures parts { MatchOption result (Overflows CAP self.old n)
            (λ parts. HasRoom CAP self.old n × (parts.0.now ≡ self.old) × (parts.1.now ≡ replicate n 0)) }
    {
        if self.overflows(n) {
            return None;
        }
        Some(self.fill(n))
    }
}

impl<const CAP: usize> Drop for Block<CAP> {
    fn drop(self) {
        let Block {
            base,
            len: _,
            region,
            origin,
            alloc,
        } = self;
        match origin {
            Origin::Alone(deed) => deallocate(&alloc, base, CAP, region, deed),
            Origin::Grouped(member) => member.end(region),
        }
    }
}
