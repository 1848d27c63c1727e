//! The places of a block, each unwritten or holding a byte. All raw pointers of the crate are here.
ghost use Rattle.std.specs.Prelude.{◌≡◌, ℕ, ◌+◌, ◌<◌, ◌≤◌, ◌^◌, List, [], ◌∷◌, ◌++◌, Option, Some, None, map, length, take, drop, replicate, IfOk, ⊤};
ghost use Rattle.std.specs.Borrow.{sem};
ghost use base.Fml.{ftrue};
ghost use denote.RawPtr.{Ptr, ◌+ₚ◌};
ghost use Rattle.bs_block.specs.inner.Region.{IsThere, IsRun, spliced};
ghost use Rattle.bs_block.specs.Ownership.{region_own, region_lent, deed_owns};

use std::alloc::{AllocError, Allocator};
use std::marker::{Model, PhantomData, Send, Sync};
use std::slice;

/// Where the places begin. It owns nothing.
pub struct Base {
    ptr: *mut u8,
}

impl Clone for Base {
    ghost is_clone = { λ x y. y ≡ x };

    ghost is_infallible = { λ _. ⊤ };

    fn clone(&self) -> Result<Base, AllocError> {
        Ok(*self)
    }
}

impl Copy for Base {}

impl Base {
    /// Where the place number `at` begins.
    pub(crate) fn at(self, at: usize) -> Base
        requires { IsThere self.ptr }
        ensures { result.ptr ≡ self.ptr +ₚ at }
    {
        let ptr = unsafe { self.ptr.add(at) };
        Base { ptr }
    }
}

unsafe impl Send for Base {}

unsafe impl Sync for Base {}

/// The owner of the places. It takes no space.
pub struct Region {
    mark: PhantomData<*const u8>,
    ghost at: { Ptr },
    ghost slots: { List (Option ℕ) },
}

impl Model for Region {
    ghost also_owns = { λ p. region_own p.at p.slots };

    ghost also_shares = { λ p _ κ. region_lent p.at p.slots κ };
}

unsafe impl Send for Region {}

unsafe impl Sync for Region {}

/// The right to free the `len` bytes at `at`. It takes no space.
pub struct Deed<A: Allocator> {
    mark: PhantomData<*const A>,
    ghost at: { Ptr },
    ghost len: { ℕ },
    ghost alloc: { A },
}

impl<A: Allocator> Model for Deed<A> {
    ghost also_owns = { λ d. deed_owns (A.dealloc_token d.alloc) d.at d.len };

    ghost also_shares = { λ _ _ _. ftrue };
}

unsafe impl<A: Allocator + Send> Send for Deed<A> {}

// A `&` to it holds nothing.
unsafe impl<A: Allocator> Sync for Deed<A> {}

/// Allocates `len` places. None of them is written, so no page of them is touched.
pub(crate) fn allocate<A: Allocator>(
    alloc: &A,
    len: usize,
) -> Result<(Base, Region, Deed<A>), AllocError>
    requires { len < 2 ^ 63 }
    ensures { IfOk result (λ r. (r.1.at ≡ r.0.ptr) × (r.1.slots ≡ replicate len None) × (r.2.at ≡ r.0.ptr) × (r.2.len ≡ len) × (r.2.alloc ≡ alloc.now) × IsThere r.0.ptr) }
{
    match alloc.allocate(len, 1) {
        Ok(ptr) => Ok((
            Base { ptr },
            Region { mark: PhantomData },
            Deed { mark: PhantomData },
        )),
        Err(error) => Err(error),
    }
}

pub(crate) fn deallocate<A: Allocator>(
    alloc: &A,
    base: Base,
    len: usize,
    region: Region,
    deed: Deed<A>,
)
    requires { (region.at ≡ base.ptr) × (length region.slots ≡ len) × (deed.at ≡ base.ptr) × (deed.len ≡ len) × (deed.alloc ≡ alloc.now) }
{
    let Region { mark: _ } = region;
    let Deed { mark: _ } = deed;
    unsafe { alloc.deallocate(base.ptr, len, 1) }
}

impl Region {
    ghost use Rattle.bs_block.specs.inner.RegionLends.{lends_run};

    pub(crate) fn write(&mut self, base: Base, at: usize, byte: u8)
        requires { (base.ptr ≡ self.old.at) × (at < length self.old.slots) }
        ensures { (self.new.at ≡ self.old.at) × (self.new.slots ≡ spliced self.old.slots at 1 (byte ∷ [])) }
    {
        unsafe { base.ptr.add(at).write(byte) }
    }

    /// The `n` bytes from `at` on.
    pub(crate) fn slice(&self, base: Base, at: usize, n: usize) -> &[u8]
        requires { (base.ptr ≡ self.now.at) × IsRun self.now.slots at n }
        ensures { take n (drop at self.now.slots) ≡ map Some result.now }
    {
        unsafe { slice::from_raw_parts(base.ptr.add(at), n) }
    }

    /// The bytes before `at`, to read, and the `n` from `at` on, to write.
    pub(crate) fn split(&mut self, base: Base, at: usize, n: usize) -> (&[u8], &mut [u8])
        requires { (base.ptr ≡ self.old.at) × IsRun self.old.slots 0 at × IsRun self.old.slots at n }
        ensures* writes_back { sem 𝓛 (lends_run self.entry at n result.1) }
        ensures front { take at self.old.slots ≡ map Some result.0.now }
        ensures run { take n (drop at self.old.slots) ≡ map Some result.1.now }
    {
        unsafe {
            (
                slice::from_raw_parts(base.ptr, at),
                slice::from_raw_parts_mut(base.ptr.add(at), n),
            )
        }
    }
}

impl Region {
    /// Gives the places up: they are never freed.
    pub(crate) fn forget(self) {
        let Region { mark: _ } = self;
    }

    /// The first `at` places, and the others.
    pub(crate) fn cut(self, at: usize) -> (Region, Region)
        requires { at ≤ length self.slots }
        ensures { (result.0.at ≡ self.at) × (result.0.slots ≡ take at self.slots) × (result.1.at ≡ self.at +ₚ at) × (result.1.slots ≡ drop at self.slots) }
    {
        let Region { mark: _ } = self;
        (Region { mark: PhantomData }, Region { mark: PhantomData })
    }

    /// The places of both. The second begins where the first ends.
    pub(crate) fn join(self, next: Region) -> Region
        requires { (next.at ≡ self.at +ₚ length self.slots) × (length self.slots + length next.slots < 2 ^ 63) }
        ensures { (result.at ≡ self.at) × (result.slots ≡ self.slots ++ next.slots) }
    {
        let Region { mark: _ } = self;
        let Region { mark: _ } = next;
        Region { mark: PhantomData }
    }
}

impl<A: Allocator> Deed<A> {
    /// Gives the right up: the bytes are never freed.
    pub(crate) fn forget(self) {
        let Deed { mark: _ } = self;
    }
}

/// Safe steps over runs of places.
impl Region {
    pub(crate) fn write_slice(&mut self, base: Base, at: usize, bytes: &[u8])
        requires { (base.ptr ≡ self.old.at) × (at + length bytes.now ≤ length self.old.slots) × (length self.old.slots < 2 ^ 63) }
        ensures { (self.new.at ≡ self.old.at) × (self.new.slots ≡ spliced self.old.slots at (length bytes.now) bytes.now) }
    {
        for i in 0..bytes.len() {
            self.write(base, at + i, bytes[i]);
        }
    }

    pub(crate) fn write_zeros(&mut self, base: Base, at: usize, n: usize)
        requires { (base.ptr ≡ self.old.at) × (at + n ≤ length self.old.slots) × (length self.old.slots < 2 ^ 63) }
        ensures { (self.new.at ≡ self.old.at) × (self.new.slots ≡ spliced self.old.slots at n (replicate n 0)) }
    {
        for i in 0..n {
            self.write(base, at + i, 0);
        }
    }
}
