//! Opening a tally.
ghost use Rattle.std.specs.Prelude.{◌≤◌, IfOk};
ghost use Rattle.bs_counter.specs.Keys.{AreFirstKeys, AreKeys};

use crate::key::PartKey;
use crate::name::TallyName;
use crate::parted::Parted;
use crate::steps::{TallyTable, split};
use atomic_table::Table;
use std::alloc::{AllocError, Global};
use std::sync::Arc;

/// Opens tallies. A tally is the number of missing parts of a move, with a slot for the outcome of
/// each part; it lives as long as one of its keys.
pub struct Tally;

impl Tally {
    /// Opens a tally of `n` parts and returns its keys, in part order.
    pub fn open<T: Parted + Drop>(alloc: Global, n: usize) -> Result<Vec<PartKey<T>>, AllocError>
        requires some { 1 ≤ n }
        requires few { n ≤ 4 }
        ensures { IfOk result (λ keys. AreKeys n keys.items) }
    {
        let (_name, keys) = Tally::open_named(alloc, n)?;
        Ok(keys)
    }

    /// Like `open`, and also returns the tally's name.
    pub fn open_named<T: Parted + Drop>(
        alloc: Global,
        n: usize,
    ) -> Result<(TallyName<T>, Vec<PartKey<T>>), AllocError>
        requires some { 1 ≤ n }
        requires few { n ≤ 4 }
        ensures { IfOk result (λ opened. AreFirstKeys n n opened.0 opened.1.items) }
    {
        let mut keys = Vec::with_capacity(alloc, n)?;
        let (table, mut seat) = Table::vacant(alloc, &[n as u64], n, &n)?;
        let tally: Arc<TallyTable<T>, Global> = Arc::new(alloc, table)?;
        for part in 0..n - 1 {
            let first = split(&tally, &mut seat, part as u64, n as u64);
            keys.push_reserved(PartKey {
                tally: Arc::try_clone(&tally)?,
                seat: first,
                part,
                parts: n,
            });
        }
        let last = split(&tally, &mut seat, n as u64 - 1, n as u64);
        keys.push_reserved(PartKey {
            tally,
            seat: last,
            part: n - 1,
            parts: n,
        });
        Ok((TallyName { seat }, keys))
    }
}
