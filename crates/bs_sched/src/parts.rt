//! The parts of a game's move. A part has its key until it is taken, then its worker and the number
//! of its frame block; once it is completed it has the block and the places of its moved snakes
//! there, and once the Join is taken the block's number.
ghost use Rattle.std.specs.Prelude.{◌≡◌, ◌<◌, ◌≤◌, [], ◌∷◌, ◌++◌, List, ℕ, Some, None, IfOk, true, false, slice_get, vec_len, vec_capacity, length, map, flat_map, option_to_list, slice_index_or, MatchOption, ◌↔◌, IsTrue};
ghost use Rattle.std.specs.List.{list_all};
ghost use Rattle.bs_fiber.specs.Tickets.{bytes_of, frames_in, names_of};
ghost use Rattle.bs_sched.specs.Inputs.{job_numbers};
ghost use Rattle.bs_heap.specs.HeldBlocks.{Holds, LeavesOthers, next_number, all_given};
ghost use Rattle.bs_heap.specs.inner.Lent.{AreLent, owned_numbers};
ghost use Rattle.bs_pool.specs.Ledger.{held, reserved, drawn};
ghost use Rattle.bs_sched.specs.declared.parts.Part.TheVariants as field;
ghost use Rattle.bs_sched.specs.inner.MoveParts.{frames_of, no_parts, part_completed, part_taken, parts_begun, parts_forked, parts_idle, parts_joined, ready_part, states_of};
ghost use Rattle.bs_sched.specs.PartState as state;
ghost use Rattle.bs_sched.specs.inner.Answering.{frame_numbers, with_frames};
ghost use Rattle.bs_sched.specs.inner.PartsLayout.{block_in, is_ready_part, joined, number_in, part_in, pieces_in, state_in};
ghost use Rattle.bs_sched.specs.Frames.{Written, flattened};
ghost use Rattle.bs_sched.specs.Keyed.{IsKeyAt};
ghost use Rattle.bs_sched.specs.inner.Keyed.{AreKeysOf};
ghost use Rattle.bs_sched.specs.Lane.{has_part, is_part_done, is_part_ready};

use crate::stage::MOST_PARTS;
use bs_counter::{PartKey, TallyName};
use bs_fiber::{Done, JobKind, JobName, Moved};
use bs_pool::{Owned, Pool};
use std::alloc::{AllocError, Global};
use std::marker::Model;
use std::mem::replace;

/// One part of a move.
#[derive(Debug, Drop)]
pub(crate) enum Part<const CAP: usize> {
    /// No worker has taken it. It is taken with its key.
    Ready(PartKey<Done<CAP>>),
    /// That worker has it out, with the frame block of that number.
    Out { worker: usize, block: usize },
    /// It is completed, with the places of its moved snakes in its frame block, and the block.
    Done(Moved, Owned<CAP>),
    /// It is completed, and the frame block of that number is in the Join's ticket.
    Joining(usize),
}

/// The parts of a game's move, none while no move is in progress.
#[derive(Debug, Drop)]
pub(crate) struct MoveParts<const CAP: usize> {
    tag: u32,
    /// The tally of the newest taken command. `None` unless that is a move in a game that is not
    /// over.
    tally: Option<TallyName<Done<CAP>>>,
    /// Between the take and the completion of a move's Begin, the keys of its parts.
    keys: Vec<PartKey<Done<CAP>>>,
    list: Vec<Part<CAP>>,
}

impl<const CAP: usize> Model for MoveParts<CAP> {
    ghost use Rattle.bs_sched.specs.MoveParts.{PartsView};

    ghost Value = { PartsView };

    ghost use Rattle.bs_sched.specs.inner.PartsLayout.{view_in, AreParts};

    ghost view = { λ f. view_in f };

    ghost invariant = { λ f. AreParts f };
}

/// Makes one ready part for each key, in order.
fn push_ready<const CAP: usize>(parts: &mut Vec<Part<CAP>>, keys: &mut Vec<PartKey<Done<CAP>>>)
    requires none { parts.old.items ≡ [] }
    requires room { vec_len keys.old ≤ vec_capacity parts.old }
    ensures parts { parts.new.items ≡ map (λ key. field.Ready key) keys.old.items }
    ensures keys { keys.new.items ≡ [] }
    ensures room { vec_capacity parts.new ≡ vec_capacity parts.old }
{
    for _part in 0..keys.len() {
        let key = keys.remove(0);
        parts.push_reserved(Part::Ready(key));
    }
}

/// Takes a ready part for the worker, with the block of that number, and returns its key.
fn take_key<const CAP: usize>(
    place: &mut Part<CAP>,
    worker: usize,
    block: usize,
) -> PartKey<Done<CAP>>
    requires { is_ready_part place.old ≡ true }
    ensures place { place.new ≡ field.Out worker block }
    ensures key { place.old ≡ field.Ready result }
{
    match replace(place, Part::Out { worker, block }) {
        Part::Ready(key) => key,
        Part::Out { .. } => unreachable!(),
        Part::Done(_, _) => unreachable!(),
        Part::Joining(_) => unreachable!(),
    }
}

/// Draws a block for the tag, whose reservation is not used up.
fn draw_block<const CAP: usize>(pool: &mut Pool<CAP>, tag: u32) -> Owned<CAP>
    requires { held tag pool.old < reserved tag pool.old }
    ensures block { result.block ≡ [] }
    ensures tag { result.tag ≡ tag }
    ensures number { result.number ≡ next_number pool.old }
    ensures pool { pool.new ≡ drawn tag (next_number pool.old) pool.old }
    ensures kept { (front back : List ℕ) → Holds tag (front ++ back) pool.old → Holds tag (front ++ next_number pool.old ∷ back) pool.new }
    ensures others { LeavesOthers tag pool.old pool.new }
{
    let Some(owned) = pool.draw(tag) else {
        unreachable!()
    };
    owned
}

/// Moves the places and the block out of a completed part. The part keeps the block's number.
fn join_part<const CAP: usize>(
    place: &mut Part<CAP>,
    moved: &mut Vec<Moved>,
    frames: &mut Vec<Owned<CAP>>,
)
    requires moved { vec_len moved.old < vec_capacity moved.old }
    requires frames { vec_len frames.old < vec_capacity frames.old }
    ensures place { place.new ≡ joined place.old }
    ensures moved { moved.new.items ≡ moved.old.items ++ option_to_list (pieces_in place.old) }
    ensures moved_room { vec_capacity moved.new ≡ vec_capacity moved.old }
    ensures frames { frames.new.items ≡ frames.old.items ++ option_to_list (block_in place.old) }
    ensures frames_room { vec_capacity frames.new ≡ vec_capacity frames.old }
{
    match replace(place, Part::Joining(0)) {
        Part::Ready(key) => *place = Part::Ready(key),
        Part::Out { worker, block } => *place = Part::Out { worker, block },
        Part::Done(pieces, owned) => {
            *place = Part::Joining(owned.number());
            moved.push_reserved(pieces);
            frames.push_reserved(owned);
        }
        Part::Joining(block) => *place = Part::Joining(block),
    }
}

/// Moves the places and the blocks out of all completed parts, in part order.
fn join_all<const CAP: usize>(
    parts: &mut Vec<Part<CAP>>,
    moved: &mut Vec<Moved>,
    frames: &mut Vec<Owned<CAP>>,
)
    requires no_moved { moved.old.items ≡ [] }
    requires moved { length parts.old.items ≤ vec_capacity moved.old }
    requires no_frames { frames.old.items ≡ [] }
    requires frames { length parts.old.items ≤ vec_capacity frames.old }
    ensures parts { parts.new.items ≡ map joined parts.old.items }
    ensures room { vec_capacity parts.new ≡ vec_capacity parts.old }
    ensures moved { moved.new.items ≡ flat_map (λ s. option_to_list (pieces_in s)) parts.old.items }
    ensures frames { frames.new.items ≡ flat_map (λ s. option_to_list (block_in s)) parts.old.items }
{
    for part in 0..parts.len() {
        join_part(&mut parts[part], moved, frames);
    }
}

/// Draws that many blocks for the tag, which has none.
pub(crate) fn draw_frames<const CAP: usize>(
    pool: &mut Pool<CAP>,
    tag: u32,
    count: usize,
    frames: &mut Vec<Owned<CAP>>,
)
    requires none { frames.old.items ≡ [] }
    requires room { count ≤ vec_capacity frames.old }
    requires held { Holds tag [] pool.old }
    requires reserved { count ≤ reserved tag pool.old }
    ensures names { names_of (frames_in frames.new.items) ≡ map (λ n. (tag, n)) (frame_numbers tag count pool.old) }
    ensures pool { pool.new ≡ with_frames tag count pool.old }
    ensures kept { Holds tag (frame_numbers tag count pool.old) pool.new }
    ensures others { LeavesOthers tag pool.old pool.new }
{
    for _frame in 0..count {
        let owned = draw_block(pool, tag);
        frames.push_reserved(owned);
    }
}

/// Gives the blocks back to the pool, the last one first.
pub(crate) fn give_all<const CAP: usize>(blocks: &mut Vec<Owned<CAP>>, pool: &mut Pool<CAP>)
    requires { AreLent blocks.old.items pool.old }
    ensures none { blocks.new.items ≡ [] }
    ensures given { pool.new ≡ all_given (owned_numbers blocks.old.items) pool.old }
{
    while let Some(owned) = blocks.pop() {
        pool.give(owned);
    }
}

/// The number of a part's block, if one was drawn.
fn number_in<const CAP: usize>(part: &Part<CAP>) -> Option<usize>
    ensures { result ≡ number_in part.now }
{
    match part {
        Part::Ready(_) => None,
        Part::Out { block, .. } => Some(*block),
        Part::Done(_, owned) => Some(owned.number()),
        Part::Joining(block) => Some(*block),
    }
}

fn is_ready<const CAP: usize>(part: &Part<CAP>) -> bool
    ensures { result ≡ is_part_ready (state_in part.now) }
{
    match part {
        Part::Ready(_) => true,
        Part::Out { .. } => false,
        Part::Done(_, _) => false,
        Part::Joining(_) => false,
    }
}

/// The first part that no worker has taken.
fn first_ready<const CAP: usize>(parts: &[Part<CAP>]) -> Option<u8>
    requires { length parts.now ≤ 4 }
    ensures { MatchOption result
        ((p : ℕ) → is_part_ready (state_in (part_in parts.now p)) ≡ false)
        (λ p. is_part_ready (state_in (part_in parts.now p)) ≡ true) }
{
    for part in 0..parts.len() {
        if is_ready(&parts[part]) {
            return Some(part as u8);
        }
    }
    None
}

fn is_done<const CAP: usize>(part: &Part<CAP>) -> bool
    ensures { result ≡ is_part_done (state_in part.now) }
{
    match part {
        Part::Ready(_) => false,
        Part::Out { .. } => false,
        Part::Done(_, _) => true,
        Part::Joining(_) => true,
    }
}

/// Whether all parts are completed.
fn are_done<const CAP: usize>(parts: &[Part<CAP>]) -> bool
    ensures { result ≡ list_all (λ p. is_part_done (state_in p)) parts.now }
{
    parts.iter().all(
        |part| -> bool
            ensures { result ≡ is_part_done (state_in part.now) }
        { is_done(part) },
    )
}

fn has_part<const CAP: usize>(parts: &[Part<CAP>], worker: usize, part: usize) -> bool
    ensures { result ≡ has_part worker (state_in (part_in parts.now part)) }
{
    match parts.get(part) {
        Some(Part::Out { worker: owner, .. }) => *owner == worker,
        Some(Part::Ready(_)) => false,
        Some(Part::Done(_, _)) => false,
        Some(Part::Joining(_)) => false,
        None => false,
    }
}

fn is_named<const CAP: usize>(owned: &Owned<CAP>, tag: u32, number: usize) -> bool
    ensures { IsTrue result ↔ (owned.now.tag ≡ tag) × (owned.now.number ≡ number) }
{
    owned.tag() == tag && owned.number() == number
}

/// Whether there is exactly one block, with that tag and number.
fn is_only<const CAP: usize>(blocks: &[Owned<CAP>], tag: u32, number: usize) -> bool
    ensures { IsTrue result ↔ names_of (frames_in blocks.now) ≡ (tag, number) ∷ [] }
{
    match blocks {
        [owned] => is_named(owned, tag, number),
        _ => false,
    }
}

/// Whether the blocks are those that were drawn for the parts, in part order.
fn are_named<const CAP: usize>(blocks: &[Owned<CAP>], tag: u32, parts: &[Part<CAP>]) -> bool
    ensures { IsTrue result ↔ names_of (frames_in blocks.now) ≡ map (λ n. (tag, n)) (flattened (map number_in parts.now)) }
{
    let mut rest = blocks;
    for part in parts {
        let Some(number) = number_in(part) else {
            continue;
        };
        match rest {
            [first, others @ ..] if is_named(first, tag, number) => rest = others,
            _ => return false,
        }
    }
    rest.is_empty()
}

impl<const CAP: usize> MoveParts<CAP> {
    /// The parts of a game with no move.
    pub(crate) fn new(alloc: Global, tag: u32) -> Result<Self, AllocError>
        ensures { IfOk result (λ parts. parts ≡ no_parts tag) }
    {
        Ok(MoveParts {
            tag,
            tally: None,
            keys: Vec::new(alloc),
            list: Vec::with_capacity(alloc, MOST_PARTS)?,
        })
    }

    /// Stores the name of the begun command's tally, and the keys of its parts.
    pub(crate) fn begin(
        &mut self,
        tally: Option<TallyName<Done<CAP>>>,
        keys: Vec<PartKey<Done<CAP>>>,
    )
        requires { self.old.list ≡ [] }
        ensures { self.new ≡ parts_begun tally.entry keys.entry.items self.old }
    {
        self.tally = tally;
        self.keys = keys;
    }

    /// Starts the move: one ready part for each key.
    pub(crate) fn fork(&mut self)
        requires none { self.old.list ≡ [] }
        requires few { length self.old.keys ≤ MOST_PARTS }
        requires keys { AreKeysOf self.old.tally (length self.old.keys) self.old.keys }
        ensures { self.new ≡ parts_forked self.old }
    {
        push_ready(&mut self.list, &mut self.keys);
    }

    /// Takes a ready part for the worker: draws its block, and returns it with the part's key.
    pub(crate) fn take(
        &mut self,
        pool: &mut Pool<CAP>,
        worker: usize,
        part: usize,
    ) -> (Owned<CAP>, PartKey<Done<CAP>>)
        requires ready { slice_get self.old.list part ≡ Some ready_part }
        requires reserved { held self.old.tag pool.old < reserved self.old.tag pool.old }
        ensures block { result.0.block ≡ [] }
        ensures tag { result.0.tag ≡ self.old.tag }
        ensures number { result.0.number ≡ next_number pool.old }
        ensures key { IsKeyAt self.old.tally (length self.old.list) part result.1 }
        ensures parts { self.new ≡ part_taken part worker (next_number pool.old) self.old }
        ensures pool { pool.new ≡ drawn self.old.tag (next_number pool.old) pool.old }
        ensures kept { Holds self.old.tag (flattened (frames_of self.old).numbers) pool.old → Holds self.old.tag (flattened (frames_of self.new).numbers) pool.new }
        ensures others { LeavesOthers self.old.tag pool.old pool.new }
    {
        let owned = draw_block(pool, self.tag);
        let key = take_key(&mut self.list[part], worker, owned.number());
        (owned, key)
    }

    /// Completes a part: keeps its block, and the places of its moved snakes there.
    pub(crate) fn complete(&mut self, part: usize, moved: Moved, owned: Owned<CAP>)
        requires within { part < length self.old.list }
        requires tag { owned.tag ≡ self.old.tag }
        ensures { self.new ≡ part_completed part (record { pieces = moved; bytes = owned.entry.block }) owned.entry.number self.old }
    {
        self.list[part] = Part::Done(moved, owned);
    }

    /// Moves the places and the blocks of all parts into the Join's ticket.
    pub(crate) fn join(&mut self, moved: &mut Vec<Moved>, frames: &mut Vec<Owned<CAP>>)
        requires back { (all : List Written) × ((frames_of self.old).moved ≡ map Some all) }
        requires no_moved { moved.old.items ≡ [] }
        requires moved_room { length self.old.list ≤ vec_capacity moved.old }
        requires no_frames { frames.old.items ≡ [] }
        requires room { length self.old.list ≤ vec_capacity frames.old }
        ensures parts { self.new ≡ parts_joined self.old }
        ensures moved { moved.new.items ≡ map (λ w. w.pieces) (flattened (frames_of self.old).moved) }
        ensures bytes { bytes_of (frames_in frames.new.items) ≡ map (λ w. w.bytes) (flattened (frames_of self.old).moved) }
        ensures names { names_of (frames_in frames.new.items) ≡ map (λ n. (self.old.tag, n)) (flattened (frames_of self.old).numbers) }
    {
        join_all(&mut self.list, moved, frames);
    }

    /// Gives the blocks of the answered command back to the pool, and drops its parts and keys.
    pub(crate) fn give_back(&mut self, frames: &mut Vec<Owned<CAP>>, pool: &mut Pool<CAP>)
        requires names { names_of (frames_in frames.old.items) ≡ map (λ n. (self.old.tag, n)) (flattened (frames_of self.old).numbers) }
        requires held { Holds self.old.tag (flattened (frames_of self.old).numbers) pool.old }
        ensures parts { self.new ≡ parts_idle self.old }
        ensures blocks { frames.new.items ≡ [] }
        ensures pool { pool.new ≡ all_given (flattened (frames_of self.old).numbers) pool.old }
        ensures kept { Holds self.old.tag [] pool.new }
        ensures others { LeavesOthers self.old.tag pool.old pool.new }
    {
        give_all(frames, pool);
        self.list.clear();
        self.keys.clear();
    }

    /// Gives the parts of a game without a move in progress another tag.
    pub(crate) fn rename(&mut self, tag: u32)
        requires { self.old.list ≡ [] }
        ensures { self.new ≡ record self.old { tag = tag } }
    {
        self.tag = tag;
    }

    /// The tag of the parts' frame blocks.
    pub(crate) fn tag(&self) -> u32
        ensures { result ≡ self.now.tag }
    {
        self.tag
    }

    /// The number of parts; 0 if no move is in progress.
    pub(crate) fn count(&self) -> usize
        ensures { result ≡ length self.now.list }
    {
        self.list.len()
    }

    /// The first part that no worker has taken.
    pub(crate) fn first_ready(&self) -> Option<u8>
        requires { length self.now.list ≤ 4 }
        ensures { MatchOption result
            ((p : ℕ) → is_part_ready (slice_index_or (states_of self.now) p state.Done) ≡ false)
            (λ p. is_part_ready (slice_index_or (states_of self.now) p state.Done) ≡ true) }
    {
        first_ready(&self.list)
    }

    /// Whether all parts are completed.
    pub(crate) fn are_done(&self) -> bool
        ensures { result ≡ list_all is_part_done (states_of self.now) }
    {
        are_done(&self.list)
    }

    /// Whether the worker has that part out.
    pub(crate) fn has_out(&self, worker: usize, part: usize) -> bool
        ensures { result ≡ has_part worker (slice_index_or (states_of self.now) part state.Done) }
    {
        has_part(&self.list, worker, part)
    }

    /// The number of the block of a part.
    fn number(&self, part: usize) -> Option<usize>
        ensures { result ≡ slice_index_or (frames_of self.now).numbers part None }
    {
        match self.list.get(part) {
            None => None,
            Some(part) => number_in(part),
        }
    }

    /// Whether the blocks are those that the job was taken with.
    pub(crate) fn are_of(&self, job: JobName, blocks: &[Owned<CAP>]) -> bool
        ensures { IsTrue result ↔ names_of (frames_in blocks.now) ≡ map (λ n. (self.now.tag, n)) (job_numbers job.kind job.part (frames_of self.now).numbers) }
    {
        match job.kind {
            JobKind::Begin => blocks.is_empty(),
            JobKind::Part => match self.number(job.part as usize) {
                None => blocks.is_empty(),
                Some(number) => is_only(blocks, self.tag, number),
            },
            JobKind::Join => are_named(blocks, self.tag, self.list.as_slice()),
        }
    }
}
