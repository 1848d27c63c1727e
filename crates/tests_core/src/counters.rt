//! Tallies of one and of four parts, the latter also finished by four threads.
use bs_counter::{Finish, PartKey, Parted, Tally};
use bs_samples::{holds, same};
use std::alloc::{AllocError, Global};
use std::sync::Wait;
use std::test::Fail;
use std::thread;
use std::thread::Threads;

/// The outcome of a part: a value beside the number of the part.
#[derive(Drop)]
struct Piece {
    part: usize,
    value: u64,
}

impl Parted for Piece {
    ghost part_of = { λ p. p.part };

    fn part(&self) -> usize {
        self.part
    }
}

/// Finishes the key's part with that value.
fn finish(key: PartKey<Piece>, value: u64) -> Finish<Piece> {
    let part = key.part();
    key.finish(Piece { part, value })
}

/// Finishes the key's part with that value. Returns the values of all parts, in order, if this was
/// the last part.
fn finish_last(alloc: Global, key: PartKey<Piece>, value: u64) -> Result<Option<Vec<u64>>, Fail> {
    match finish(key, value) {
        Finish::More(spent) => {
            drop(spent);
            Ok(None)
        }
        Finish::Last(outs) => {
            let mut values = Vec::new(alloc);
            for (place, out) in outs.as_slice().iter().enumerate() {
                let piece = out.as_ref().ok_or("an outcome")?;
                same("part", piece.part(), place)?;
                values.push(piece.value)?;
            }
            drop(outs);
            Ok(Some(values))
        }
    }
}

#[test]
fn the_only_part_is_the_last(rt: HostRuntime) -> Result<(), Fail> {
    let alloc = rt.alloc();
    let mut keys = Tally::open(alloc, 1)?;
    same("keys", keys.len(), 1)?;
    let key = keys.pop().ok_or("a key")?;
    let values = finish_last(alloc, key, 7)?.ok_or("the last part")?;
    same("values", values.as_slice(), [7].as_slice())
}

/// Finishes the part whose key is at that index, which is not the last part.
fn finish_at(
    alloc: Global,
    keys: &mut Vec<PartKey<Piece>>,
    place: usize,
    part: usize,
    value: u64,
) -> Result<(), Fail> {
    holds("a key", place < keys.len())?;
    let key = keys.remove(place);
    same("part", key.part(), part)?;
    holds("another part", finish_last(alloc, key, value)?.is_none())
}

/// The parts 3, 1, 0 and 2 of a tally of four are finished in this order.
#[test]
fn the_last_of_four_parts_gets_all_values(rt: HostRuntime) -> Result<(), Fail> {
    let alloc = rt.alloc();
    let mut keys = Tally::open(alloc, 4)?;
    same("keys", keys.len(), 4)?;
    finish_at(alloc, &mut keys, 3, 3, 13)?;
    finish_at(alloc, &mut keys, 1, 1, 11)?;
    finish_at(alloc, &mut keys, 0, 0, 10)?;
    let key = keys.pop().ok_or("a key")?;
    same("part", key.part(), 2)?;
    let values = finish_last(alloc, key, 12)?.ok_or("the last part")?;
    same("values", values.as_slice(), [10, 11, 12, 13].as_slice())
}

/// Finishes each key on a separate thread, and counts the threads whose part was the last.
fn count_last<R: Threads + Sync>(rt: &R, keys: Vec<PartKey<Piece>>) -> Result<usize, AllocError> {
    let told = thread::map_vec(
        rt,
        keys,
        &|key| -> bool { matches!(finish(key, 1), Finish::Last(_)) },
    )?;
    Ok(told.iter().filter(|last| **last).count())
}

#[test]
fn one_of_four_threads_is_the_last(rt: HostRuntime) -> Result<(), Fail> {
    for _ in 0..1000 {
        let keys = Tally::open(rt.alloc(), 4)?;
        same("last finishers", count_last(&rt, keys)?, 1)?;
    }
    Ok(())
}
