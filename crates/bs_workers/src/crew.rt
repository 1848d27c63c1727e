//! The threads of a run. First they play the stays that leave, each thread with blocks of its own;
//! then the others, whose blocks fit the pool together. The calling thread starts them and waits;
//! what none has played, it plays itself.
ghost use Rattle.std.specs.Prelude.{◌≡◌, ◌+◌, ◌<◌, ◌≤◌, ◌++◌, ◌∷◌, [], if◌then◌else◌, All, None, Some, IfErr, IfOk, OnOk, is_some, length, min, slice_index_or, slice_set};
ghost use Rattle.std.specs.List.{filter};
ghost use Rattle.std.specs.Thread.{IsSync};
ghost use Rattle.bs_workers.specs.inner.PlayedRows.{is_among, is_other, rows_among};
ghost use Rattle.bs_workers.specs.inner.Stays.{ArePlayedStays, IsPlayedStay};
ghost use Rattle.bs_workers.specs.inner.Stops.{IsStopCause};
ghost use Rattle.bs_workers.specs.declared.stop.Stop.TheVariants as reason;

use crate::act::only_mover;
use crate::ahead::take_ahead;
use crate::boxed::BoxedStay;
use crate::gate::Gate;
use crate::player::{Lone, Player, needed};
use crate::stop::Stop;
use crate::turns::{Lot, Turns};
use bs_block::Block;
use std::alloc::{AllocError, Global};
use std::thread::{Threads, join};

/// What a thread has played, and the blocks that it has left.
#[derive(Drop)]
struct Ran<const CAP: usize> {
    stays: Vec<Lone<CAP>>,
    blocks: Vec<Block<CAP>>,
}

impl<const CAP: usize> Ran<CAP> {
    /// No stay, and no block.
    fn new(alloc: Global) -> Self
        ensures { result.stays.items ≡ [] }
    {
        Ran {
            stays: Vec::new(alloc),
            blocks: Vec::new(alloc),
        }
    }

    /// Adds what another thread has played, and its blocks.
    fn with(self, other: Ran<CAP>) -> Result<Self, AllocError>
        ensures stays { IfOk result (λ all. all.stays.items ≡ self.entry.stays.items ++ other.entry.stays.items) }
        ensures blocks { IfOk result (λ all. length all.blocks.items ≡ length self.entry.blocks.items + length other.entry.blocks.items) }
    {
        let Ran {
            mut stays,
            mut blocks,
        } = self;
        let Ran {
            stays: more,
            blocks: mut others,
        } = other;
        append_lones(&mut stays, more)?;
        blocks.append(&mut others)?;
        Ok(Ran { stays, blocks })
    }
}

fn put_lone<const CAP: usize>(ran: &mut Vec<Lone<CAP>>, lone: Lone<CAP>) -> Result<(), AllocError>
    ensures { OnOk result (ran.new.items ≡ ran.old.items ++ lone.entry ∷ []) }
{
    Ok(ran.push(lone)?)
}

fn append_lones<const CAP: usize>(
    all: &mut Vec<Lone<CAP>>,
    mut ran: Vec<Lone<CAP>>,
) -> Result<(), AllocError>
    ensures { OnOk result (all.new.items ≡ all.old.items ++ ran.entry.items) }
{
    all.append(&mut ran)
}

/// Moves that many blocks to a new list, or all if there are fewer.
fn draw<const CAP: usize>(
    alloc: Global,
    free: &mut Vec<Block<CAP>>,
    many: usize,
) -> Result<Vec<Block<CAP>>, AllocError>
    ensures many { IfOk result (λ drawn. length drawn.items ≡ min many (length free.old.items)) }
    ensures left { IfOk result (λ drawn. length drawn.items + length free.new.items ≡ length free.old.items) }
{
    let count = many.min(free.len());
    let mut drawn = Vec::with_capacity(alloc, count)?;
    for _ in 0..count {
        if let Some(block) = free.pop() {
            drawn.push(block)?;
        }
    }
    Ok(drawn)
}

/// Adds the blocks that no thread has taken.
fn take_back<const CAP: usize>(
    free: &mut Vec<Block<CAP>>,
    lots: Vec<Lot<CAP>>,
) -> Result<(), AllocError>
    ensures { OnOk result (length free.old.items ≤ length free.new.items) }
{
    for lot in lots {
        if let Some(mut blocks) = lot.into_blocks() {
            free.append(&mut blocks)?;
        }
    }
    Ok(())
}

/// The stay of each row, once it was played, and the blocks that no stay has.
#[derive(Drop)]
pub(crate) struct Table<const CAP: usize> {
    pub(crate) slots: Vec<Option<BoxedStay<CAP>>>,
    pub(crate) free: Vec<Block<CAP>>,
}

impl<const CAP: usize> Table<CAP> {
    /// A table in which no stay was played.
    fn new(alloc: Global, rows: usize, free: Vec<Block<CAP>>) -> Result<Self, AllocError>
        ensures { IfOk result (λ table. All (λ slot. slot ≡ None) table.slots.items) }
    {
        let mut slots = Vec::with_capacity(alloc, rows)?;
        for _ in 0..rows {
            slots.push(None)?;
        }
        Ok(Table { slots, free })
    }

    /// Keeps a stay that was played. `Failed` if there is no such row.
    fn put(&mut self, lone: Lone<CAP>) -> Result<(), Stop>
        ensures row { OnOk result (lone.entry.row < length self.old.slots.items) }
        ensures kept { OnOk result (self.new.slots.items ≡ slice_set self.old.slots.items lone.entry.row (Some lone.entry.stay)) }
        ensures cause { IfErr result (λ stop. stop ≡ reason.Failed) }
    {
        let Lone { row, stay } = lone;
        if row >= self.slots.len() {
            return Err(Stop::Failed);
        }
        self.slots[row] = Some(stay);
        Ok(())
    }

    /// Whether the stay of that row was played.
    fn has(&self, row: usize) -> bool
        ensures { result ≡ is_some (slice_index_or self.now.slots.items row None) }
    {
        row < self.slots.len() && self.slots[row].is_some()
    }
}

/// Adds the row, if it is one of those.
fn put_row(rows: &mut Vec<usize>, row: usize, is_one: bool) -> Result<(), AllocError>
    ensures { OnOk result (rows.new.items ≡ rows.old.items ++ (if is_one then row ∷ [] else [])) }
{
    if is_one {
        rows.push(row)?;
    }
    Ok(())
}

/// Whether a stay is played with those that leave, or with those that do not.
fn is_among(leaves: bool, leaving: bool) -> bool
    ensures { result ≡ is_among leaving leaves }
{
    leaves == leaving
}

/// The rows of the stays that leave, or of those that do not.
fn rows_of(alloc: Global, leaves: &[bool], leaving: bool) -> Result<Vec<usize>, AllocError>
    ensures { IfOk result (λ rows. rows.items ≡ rows_among leaves.now leaving) }
{
    let mut rows = Vec::with_capacity(alloc, leaves.len())?;
    for row in 0..leaves.len() {
        put_row(&mut rows, row, is_among(leaves[row], leaving))?;
    }
    Ok(rows)
}

/// Whether the row is another than that one.
fn is_other(left: Option<usize>, row: usize) -> bool
    ensures { result ≡ is_other left row }
{
    match left {
        Some(left) => row != left,
        None => true,
    }
}

/// The rows without that one.
fn without(alloc: Global, rows: &[usize], left: Option<usize>) -> Result<Vec<usize>, AllocError>
    ensures { IfOk result (λ others. others.items ≡ filter (is_other left) rows.now) }
{
    let mut others = Vec::with_capacity(alloc, rows.len())?;
    for row in rows {
        put_row(&mut others, *row, is_other(left, *row))?;
    }
    Ok(others)
}

impl<R: Threads + Sync, G: Gate> Player<'_, R, G> {
    /// Adds a stay that was played.
    fn add<const CAP: usize>(
        &self,
        ran: &mut Vec<Lone<CAP>>,
        lone: Lone<CAP>,
    ) -> Result<(), AllocError>
        requires before { All (λ lone. IsPlayedStay CAP self.now.workers self.now.acts.now self.now.stays.now lone.row lone.stay) ran.old.items }
        requires played { IsPlayedStay CAP self.now.workers self.now.acts.now self.now.stays.now lone.row lone.stay }
        ensures { OnOk result (All (λ lone. IsPlayedStay CAP self.now.workers self.now.acts.now self.now.stays.now lone.row lone.stay) ran.new.items) }
    {
        Ok(put_lone(ran, lone)?)
    }

    /// Plays the stay of that row, if the list has enough blocks.
    fn run_turn<const CAP: usize>(
        &self,
        thread: usize,
        row: usize,
        ran: &mut Vec<Lone<CAP>>,
        blocks: &mut Vec<Block<CAP>>,
    ) -> Result<(), Stop>
        requires { All (λ lone. IsPlayedStay CAP self.now.workers self.now.acts.now self.now.stays.now lone.row lone.stay) ran.old.items }
        ensures played { OnOk result (All (λ lone. IsPlayedStay CAP self.now.workers self.now.acts.now self.now.stays.now lone.row lone.stay) ran.new.items) }
        ensures cause { IfErr result (IsStopCause (G.may_refuse self.now.gate.now)) }
    {
        if !self.has_room::<CAP>(row, blocks.len()) {
            return Ok(());
        }
        let lone = self.play(thread, 1, row, blocks)?;
        self.add(ran, lone)?;
        Ok(())
    }

    /// Plays stays as the thread of that number until none is left. Leaves those to the caller for
    /// which it has too few blocks.
    fn run_rows<const CAP: usize>(
        &self,
        turns: &Turns<CAP>,
        thread: usize,
    ) -> Result<Ran<CAP>, Stop>
        ensures played { IfOk result (λ ran. All (λ lone. IsPlayedStay CAP self.now.workers self.now.acts.now self.now.stays.now lone.row lone.stay) ran.stays.items) }
        ensures cause { IfErr result (IsStopCause (G.may_refuse self.now.gate.now)) }
    {
        take_ahead(self.alloc);
        let mut stays = Vec::new(self.alloc);
        let mut blocks = turns.take_share(thread).unwrap_or(Vec::new(self.alloc));
        for _ in 0..turns.rows.len() {
            let Some(place) = turns.next() else {
                break;
            };
            if let Some(mut lot) = turns.take_lot(place) {
                blocks.append(&mut lot)?;
            }
            self.run_turn(thread, turns.rows[place], &mut stays, &mut blocks)?;
        }
        Ok(Ran { stays, blocks })
    }

    /// What threads return together. If several stopped, one reason is kept.
    #[tactic(auto, using(crate::proofs::Stops::kept_cause))]
    fn both<const CAP: usize>(
        &self,
        one: Result<Ran<CAP>, Stop>,
        other: Result<Ran<CAP>, Stop>,
    ) -> Result<Ran<CAP>, Stop>
        requires one { IfOk one (λ ran. All (λ lone. IsPlayedStay CAP self.now.workers self.now.acts.now self.now.stays.now lone.row lone.stay) ran.stays.items) }
        requires other { IfOk other (λ ran. All (λ lone. IsPlayedStay CAP self.now.workers self.now.acts.now self.now.stays.now lone.row lone.stay) ran.stays.items) }
        requires causes { IfErr one (IsStopCause (G.may_refuse self.now.gate.now)) × IfErr other (IsStopCause (G.may_refuse self.now.gate.now)) }
        ensures kept { IfOk result (λ all. IfOk one.entry (λ ran. IfOk other.entry (λ more. all.stays.items ≡ ran.stays.items ++ more.stays.items))) }
        ensures played { IfOk result (λ ran. All (λ lone. IsPlayedStay CAP self.now.workers self.now.acts.now self.now.stays.now lone.row lone.stay) ran.stays.items) }
        ensures cause { IfErr result (IsStopCause (G.may_refuse self.now.gate.now)) }
    {
        match one {
            Ok(ran) => match other {
                Ok(more) => Ok(ran.with(more)?),
                Err(stop) => Err(stop),
            },
            Err(stop) => match other {
                Ok(_) => Err(stop),
                Err(later) => Err(later.after(Some(stop))),
            },
        }
    }

    /// Has threads `thread` to `end - 1` play stays. The calling thread starts them, one after the
    /// other, and waits: a new thread may begin on the processor of the one that started it, and
    /// would have to wait there while that one plays.
    #[cycle(playing)]
    fn run_threads<const CAP: usize>(
        &self,
        turns: &Turns<CAP>,
        thread: usize,
        end: usize,
    ) -> Result<Ran<CAP>, Stop>
        ensures played { IfOk result (λ ran. All (λ lone. IsPlayedStay CAP self.now.workers self.now.acts.now self.now.stays.now lone.row lone.stay) ran.stays.items) }
        ensures cause { IfErr result (IsStopCause (G.may_refuse self.now.gate.now)) }
    {
        if thread >= end {
            return Ok(Ran::new(self.alloc));
        }
        let next = thread + 1;
        let one = || -> Result<Ran<CAP>, Stop>
            requires { IsSync R.row }
            ensures { IfOk result (λ ran. All (λ lone. IsPlayedStay CAP self.entry.now.workers self.entry.now.acts.now self.entry.now.stays.now lone.row lone.stay) ran.stays.items) × IfErr result (IsStopCause (G.may_refuse self.entry.now.gate.now)) }
        { self.run_rows(turns, thread) };
        let others = || -> Result<Ran<CAP>, Stop>
            requires { IsSync R.row }
            ensures { IfOk result (λ ran. All (λ lone. IsPlayedStay CAP self.entry.now.workers self.entry.now.acts.now self.entry.now.stays.now lone.row lone.stay) ran.stays.items) × IfErr result (IsStopCause (G.may_refuse self.entry.now.gate.now)) }
        { self.run_threads(turns, next, end) };
        let (ran, more) = join(self.rt, one, others);
        self.both(ran, more)
    }

    /// A list of blocks for each thread, each with as many.
    fn shares_of<const CAP: usize>(
        &self,
        threads: usize,
        free: &mut Vec<Block<CAP>>,
    ) -> Result<Vec<Lot<CAP>>, AllocError>
        ensures lots { IfOk result (λ lots. length lots.items ≡ threads) }
        ensures left { OnOk result (length free.new.items ≤ length free.old.items) }
    {
        let share = if threads == 0 {
            0
        } else {
            free.len() / threads
        };
        let mut lots = Vec::with_capacity(self.alloc, threads)?;
        for _ in 0..threads {
            lots.push(Lot::new(draw(self.alloc, free, share)?))?;
        }
        Ok(lots)
    }

    /// A list of blocks for each of the stays, with those that it reserves.
    fn lots_of<const CAP: usize>(
        &self,
        rows: &[usize],
        free: &mut Vec<Block<CAP>>,
    ) -> Result<Vec<Lot<CAP>>, AllocError>
        ensures lots { IfOk result (λ lots. length lots.items ≡ length rows.now) }
        ensures left { OnOk result (length free.new.items ≤ length free.old.items) }
    {
        let mut lots = Vec::with_capacity(self.alloc, rows.len())?;
        for row in rows {
            let many = match self.stays.rows.get(*row) {
                Some(row) => needed::<CAP>(row.get()).unwrap_or(0),
                None => 0,
            };
            lots.push(Lot::new(draw(self.alloc, free, many)?))?;
        }
        Ok(lots)
    }

    /// Keeps stays that were played.
    fn keep<const CAP: usize>(
        &self,
        mut ran: Vec<Lone<CAP>>,
        table: &mut Table<CAP>,
    ) -> Result<(), Stop>
        requires ran { All (λ lone. IsPlayedStay CAP self.now.workers self.now.acts.now self.now.stays.now lone.row lone.stay) ran.items }
        requires before { ArePlayedStays CAP self.now.workers self.now.acts.now self.now.stays.now table.old.slots.items }
        ensures played { OnOk result (ArePlayedStays CAP self.now.workers self.now.acts.now self.now.stays.now table.new.slots.items) }
        ensures cause { IfErr result (IsStopCause (G.may_refuse self.now.gate.now)) }
    {
        for _ in 0..ran.len() {
            if let Some(lone) = ran.pop() {
                table.put(lone)?;
            }
        }
        Ok(())
    }

    /// Has that many threads play the stays of these rows, which all leave or all stay open, with
    /// blocks of the list. Returns those that were played.
    fn run_stays<const CAP: usize>(
        &self,
        threads: usize,
        rows: Vec<usize>,
        leaving: bool,
        free: &mut Vec<Block<CAP>>,
    ) -> Result<Vec<Lone<CAP>>, Stop>
        ensures played { IfOk result (λ ran. All (λ lone. IsPlayedStay CAP self.now.workers self.now.acts.now self.now.stays.now lone.row lone.stay) ran.items) }
        ensures cause { IfErr result (IsStopCause (G.may_refuse self.now.gate.now)) }
    {
        let turns = if leaving {
            let shares = self.shares_of(threads, free)?;
            Turns::new(rows, shares, Vec::new(self.alloc))
        } else {
            let lots = self.lots_of(rows.as_slice(), free)?;
            Turns::new(rows, Vec::new(self.alloc), lots)
        };
        let Ran { stays, mut blocks } = self.run_threads(&turns, 0, threads)?;
        free.append(&mut blocks)?;
        let Turns { shares, lots, .. } = turns;
        take_back(free, shares)?;
        take_back(free, lots)?;
        Ok(stays)
    }

    /// Has at most that many threads play the stays of these rows, which all leave or all stay open,
    /// but for a stay that has all moves of the run. One thread plays none of them here.
    fn play_apart<const CAP: usize>(
        &self,
        threads: usize,
        rows: &[usize],
        leaving: bool,
        table: &mut Table<CAP>,
    ) -> Result<(), Stop>
        requires { ArePlayedStays CAP self.now.workers self.now.acts.now self.now.stays.now table.old.slots.items }
        ensures played { OnOk result (ArePlayedStays CAP self.now.workers self.now.acts.now self.now.stays.now table.new.slots.items) }
        ensures cause { IfErr result (IsStopCause (G.may_refuse self.now.gate.now)) }
    {
        if threads <= 1 {
            return Ok(());
        }
        let mover = only_mover(self.acts, self.stays.rows.len());
        let others = without(self.alloc, rows, mover)?;
        let threads = threads.min(others.len());
        if threads <= 1 {
            return Ok(());
        }
        let stays = self.run_stays(threads, others, leaving, &mut table.free)?;
        self.keep(stays, table)?;
        Ok(())
    }

    /// Plays the stay of that row on the calling thread, if no thread has played it. `threads`
    /// threads share its moves.
    fn play_row<const CAP: usize>(
        &self,
        threads: usize,
        row: usize,
        table: &mut Table<CAP>,
    ) -> Result<(), Stop>
        requires { ArePlayedStays CAP self.now.workers self.now.acts.now self.now.stays.now table.old.slots.items }
        ensures played { OnOk result (ArePlayedStays CAP self.now.workers self.now.acts.now self.now.stays.now table.new.slots.items) }
        ensures cause { IfErr result (IsStopCause (G.may_refuse self.now.gate.now)) }
    {
        if table.has(row) {
            return Ok(());
        }
        let lone = self.play(0, threads, row, &mut table.free)?;
        table.put(lone)?;
        Ok(())
    }

    /// Plays the stays of these rows that no thread has played.
    fn play_left<const CAP: usize>(
        &self,
        threads: usize,
        rows: &[usize],
        table: &mut Table<CAP>,
    ) -> Result<(), Stop>
        requires { ArePlayedStays CAP self.now.workers self.now.acts.now self.now.stays.now table.old.slots.items }
        ensures played { OnOk result (ArePlayedStays CAP self.now.workers self.now.acts.now self.now.stays.now table.new.slots.items) }
        ensures cause { IfErr result (IsStopCause (G.may_refuse self.now.gate.now)) }
    {
        for row in rows {
            self.play_row(threads, *row, table)?;
        }
        Ok(())
    }

    /// Plays the stays that leave, or those that do not.
    fn play_those<const CAP: usize>(
        &self,
        threads: usize,
        leaving: bool,
        table: &mut Table<CAP>,
    ) -> Result<(), Stop>
        requires { ArePlayedStays CAP self.now.workers self.now.acts.now self.now.stays.now table.old.slots.items }
        ensures played { OnOk result (ArePlayedStays CAP self.now.workers self.now.acts.now self.now.stays.now table.new.slots.items) }
        ensures cause { IfErr result (IsStopCause (G.may_refuse self.now.gate.now)) }
    {
        let rows = rows_of(self.alloc, self.stays.leaves.as_slice(), leaving)?;
        self.play_apart(threads, rows.as_slice(), leaving, table)?;
        self.play_left(threads, rows.as_slice(), table)?;
        Ok(())
    }

    /// Plays all stays on at most that many threads, with these blocks.
    #[tactic(auto, using(crate::proofs::PlayedStays::none_played))]
    pub(crate) fn play_all<const CAP: usize>(
        &self,
        threads: usize,
        free: Vec<Block<CAP>>,
    ) -> Result<Table<CAP>, Stop>
        ensures played { IfOk result (λ table. ArePlayedStays CAP self.now.workers self.now.acts.now self.now.stays.now table.slots.items) }
        ensures cause { IfErr result (IsStopCause (G.may_refuse self.now.gate.now)) }
    {
        let mut table = Table::new(self.alloc, self.stays.rows.len(), free)?;
        self.play_those(threads, true, &mut table)?;
        self.play_those(threads, false, &mut table)?;
        Ok(table)
    }
}
