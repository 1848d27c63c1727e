//! One stay of the core: its fiber, the heap of its records and the parts of its move. Clauses see
//! its lane, the places of its records and its frames.
ghost use Rattle.std.specs.Prelude.{◌≡◌, ◌≢◌, ◌<◌, ◌≤◌, ◌*◌, ◌↔◌, ◌∷◌, IsTrue, ℕ, List, All, AllPairs, true, false, [], length, map, slice_get, slice_index_or, Some, MatchOption, option_map, IfOk, OnOk, OnErr};
ghost use Rattle.bs_board.specs.declared.limits.TheConstants.{MOST_QUOTA};
ghost use Rattle.bs_board.specs.records.Record.{record_of};
ghost use Rattle.bs_fiber.specs.Expected.{IsLegalAsked, IsOf};
ghost use Rattle.bs_fiber.specs.declared.job.JobKind.TheVariants as kind;
ghost use Rattle.bs_fiber.specs.Frames.{frame_of, pieces_from};
ghost use Rattle.bs_fiber.specs.Tickets.{IsFresh, bytes_of, frames_in, names_of, ticket_in, worked_bytes};
ghost use Rattle.bs_fiber.specs.Work.{moved_part, out_seen};
ghost use Rattle.bs_game.specs.Game.{game_charge, last_board};
ghost use Rattle.bs_game.specs.View.{answer_of};
ghost use Rattle.bs_game.specs.Law.{IsFitEffect, effected};
ghost use Rattle.bs_heap.specs.Charge.{charge_of, blocks_for};
ghost use Rattle.bs_heap.specs.HeldBlocks.{Holds, IsKeptIn, LeavesOthers, all_given, next_number};
ghost use Rattle.bs_heap.specs.Packing.{numbers_of};
ghost use Rattle.bs_pool.specs.Ledger.{Ledger, drawn, reserved};
ghost use Rattle.bs_sched.specs.Courses.{IsRight};
ghost use Rattle.bs_sched.specs.inner.Frames.{LeavesBut, idle_frames, pool_taken};
ghost use Rattle.bs_sched.specs.inner.Game.{HasBlocks, IsAnswering, IsOwnTicket, IsTicketOf, answered_game, closed_game, completed_game, forked_game, game_with_part, handed_game, opened_game, own_names, pool_answered, pool_completed, taken_game};
ghost use Rattle.bs_sched.specs.Inputs.{input_for};
ghost use Rattle.bs_sched.specs.inner.Assembling.{renamed_game};
ghost use Rattle.bs_sched.specs.inner.Inputs.{board_asked, current_input};
ghost use Rattle.bs_sched.specs.Keyed.{IsKeyAt, IsKeyOf};
ghost use Rattle.bs_sched.specs.inner.Keyed.{HasKeys};
ghost use Rattle.bs_sched.specs.Lane.{goes_on, is_idle, is_in_parts, is_out, is_quiet, is_ready, kept_of, lane_command, lane_view, may_leave, occupies, with_taken};
ghost use Rattle.bs_sched.specs.inner.Lane.{HasNoneReady};
ghost use Rattle.bs_sched.specs.Answering.{AreNextParts};
ghost use Rattle.bs_sched.specs.inner.Answering.{game_here, next_answer, number_behind, pool_here};
ghost use Rattle.bs_sched.specs.Storage.{packing_after, pool_after};
ghost use Rattle.bs_sched.specs.inner.Turns.{FindsTurn};

use crate::answers::answer_expected;
use crate::cores::LEAST_CAPACITY;
use crate::fiber::Fiber;
use crate::parts::{MoveParts, draw_frames, give_all};
use crate::plan_blocks::record_tag;
use crate::stage::MOST_PARTS;
use bs_board::{Board, KeptBoard, Reply, Row, TurnNumber};
use bs_counter::{PartKey, Tally, TallyName};
use bs_fiber::{
    Contents, Done, Expected, JobKind, JobName, Moved, Out, Parts, SharedCommand, Ticket,
};
use bs_game::{Answer, Effect, place_of_turn};
use bs_heap::TagHeap;
use bs_plane::PlaneCache;
use bs_pool::{Owned, Pool};
use bs_registry::MOST_STAYS;
use std::alloc::{AllocError, Global};
use std::marker::Model;

/// One stay. Its heap keeps the records of its boards, and its parts are in the state that its
/// stage needs.
#[derive(Drop)]
pub(crate) struct Game<const CAP: usize> {
    fiber: Fiber,
    heap: TagHeap<CAP>,
    parts: MoveParts<CAP>,
    /// The plane of its last board, from its first move until it leaves.
    planes: Option<Box<PlaneCache>>,
}

impl<const CAP: usize> Model for Game<CAP> {
    ghost use Rattle.bs_sched.specs.Game.{GameView};
    ghost use Rattle.bs_sched.specs.inner.Game.{IsGame, game_in};

    ghost Value = { GameView };

    ghost view = { λ c. game_in c };

    ghost invariant = { λ c. IsGame CAP c };
}

/// Opens a tally and returns its name and keys if the next command is a move, a game runs and the
/// game is not over; else returns no keys.
fn open_keys<const CAP: usize>(
    alloc: Global,
    fiber: &Fiber,
) -> Result<(Option<TallyName<Done<CAP>>>, Vec<PartKey<Done<CAP>>>), AllocError>
    requires { 0 < length fiber.now.waiting }
    ensures { IfOk result (λ opened. (worker : ℕ) → HasKeys (with_taken worker kind.Begin 0 fiber.now) opened.0 opened.1.items) }
{
    if !fiber.next().is_move() {
        return Ok((None, Vec::new(alloc)));
    }
    let Some(parts) = fiber.parts_of_move() else {
        return Ok((None, Vec::new(alloc)));
    };
    let (tally, keys) = Tally::open_named(alloc, parts)?;
    Ok((Some(tally), keys))
}

/// Applies an answer's effect to the records.
#[inline(always)]
#[tactic(auto, using(crate::proofs::KeptRecords::nothing_left, crate::proofs::KeptRecords::record_is_small))]
fn change_records<const CAP: usize>(heap: &mut TagHeap<CAP>, pool: &mut Pool<CAP>, effect: &Effect)
    requires room { 0 < heap.old.index_room }
    requires blocks { blocks_for CAP heap.old.quota ≤ reserved heap.old.tag pool.old }
    requires held { IsKeptIn heap.old pool.old }
    requires fits { IsFitEffect heap.old.quota (charge_of heap.old.records) effect.now }
    ensures records { heap.new.records ≡ effected effect.now heap.old.records }
    ensures packing { heap.new.packing ≡ packing_after CAP (next_number pool.old) effect.now heap.old.packing }
    ensures pool { pool.new ≡ pool_after CAP heap.old.tag effect.now heap.old.packing pool.old }
    ensures tag { heap.new.tag ≡ heap.old.tag }
    ensures quota { heap.new.quota ≡ heap.old.quota }
    ensures held { IsKeptIn heap.new pool.new }
    ensures others { LeavesOthers heap.old.tag pool.old pool.new }
{
    match effect {
        Effect::Keep => {}
        Effect::Add(record) => heap.add(pool, record.as_slice()).unwrap(),
        Effect::Trim => heap.keep_last(pool),
        Effect::Drop => heap.free(pool),
    }
}

/// Removes and returns the part's single frame block.
fn only<const CAP: usize>(blocks: &mut Vec<Owned<CAP>>) -> Owned<CAP>
    requires { length blocks.old.items ≡ 1 }
    ensures one { blocks.old.items ≡ result ∷ [] }
    ensures none { blocks.new.items ≡ [] }
{
    match blocks.pop() {
        Some(owned) => owned,
        None => unreachable!(),
    }
}

impl<const CAP: usize> Game<CAP> {
    /// Makes a stay without commands for row `game`.
    pub(crate) fn new(alloc: Global, game: usize, row: Row) -> Result<Self, AllocError>
        requires wide { LEAST_CAPACITY ≤ CAP }
        requires game { game < MOST_STAYS }
        requires quota { row.quota ≤ MOST_QUOTA }
        ensures { IfOk result (λ made. made ≡ opened_game game row) }
    {
        let tag = record_tag(game);
        let heap = TagHeap::new(alloc, tag, row.quota)?;
        let parts = MoveParts::new(alloc, tag + 1)?;
        Ok(Game {
            fiber: Fiber::new(alloc, row),
            heap,
            parts,
            planes: None,
        })
    }

    /// Gives a game without a job in progress the tags of that row, and its blocks the numbers that
    /// stand in the list at their old ones. No byte moves.
    pub(crate) fn rename(&mut self, game: usize, numbers: &[usize])
        requires game { game < MOST_STAYS }
        requires idle { is_idle self.old.lane.stage ≡ true }
        requires within { All (λ number. number < length numbers.now) (numbers_of self.old.packing) }
        requires once { AllPairs (λ m n. m ≢ n) numbers.now }
        ensures { self.new ≡ renamed_game game (λ number. slice_index_or numbers.now number 0) self.old }
    {
        let tag = record_tag(game);
        self.heap.rename(tag, numbers);
        self.parts.rename(tag + 1);
    }

    /// Queues a command.
    pub(crate) fn hand(&mut self, command: SharedCommand) -> Result<(), AllocError>
        requires { self.old.lane.is_open ≡ true }
        ensures ok { OnOk result (self.new ≡ handed_game command self.old) }
        ensures err { OnErr result (self.new ≡ self.old) }
    {
        self.fiber.hand(command)
    }

    /// The name and the quota.
    pub(crate) fn row(&self) -> &Row
        ensures { result.now ≡ self.now.lane.row }
    {
        self.fiber.row()
    }

    /// Whether the stay is open.
    pub(crate) fn is_open(&self) -> bool
        ensures { result ≡ self.now.lane.is_open }
    {
        self.fiber.is_open()
    }

    /// The commands that were taken.
    pub(crate) fn taken(&self) -> &[SharedCommand]
        ensures { result.now ≡ self.now.lane.taken }
    {
        self.fiber.taken()
    }

    pub(crate) fn replies(&self) -> &[Reply]
        ensures value { result.now ≡ self.now.lane.replies }
        ensures right { IsRight self.now.lane }
    {
        self.fiber.keeps();
        self.fiber.replies()
    }

    /// Does nothing. Gives the prover a part of a stay's invariant.
    pub(crate) fn keeps(&self)
        ensures right { IsRight self.now.lane }
        ensures begun { (worker part : ℕ) → is_out worker self.now.lane kind.Begin part ≡ true → self.now.frames.numbers ≡ [] }
    {
        self.fiber.keeps();
    }

    /// The number of kept records.
    pub(crate) fn count(&self) -> usize
        ensures { result ≡ length (kept_of self.now.lane) }
    {
        self.heap.count()
    }

    /// A kept record by its index, the oldest first.
    pub(crate) fn record(&self, place: usize) -> &[u8]
        requires { place < length (kept_of self.now.lane) }
        ensures { result.now ≡ slice_index_or (kept_of self.now.lane) place [] }
    {
        self.heap.record(place)
    }

    /// The newest board, if a game runs; for a stay that has left, its last board.
    pub(crate) fn last(&self) -> Option<&KeptBoard>
        ensures { option_map (λ kept. kept.now) result ≡ last_board self.now.lane.game }
    {
        self.fiber.last()
    }

    /// Decodes the newest board; for a stay that has left, its last board.
    pub(crate) fn board(&self, alloc: Global) -> Result<Option<Board>, AllocError>
        ensures { IfOk result (λ board. board ≡ last_board self.now.lane.game) }
    {
        match self.fiber.last() {
            None => Ok(None),
            Some(last) => Ok(Some(last.board(alloc)?)),
        }
    }

    /// The charge of the records; for a stay that has left, its last charge.
    pub(crate) fn charge(&self) -> u32
        ensures { result ≡ game_charge self.now.lane.game }
    {
        match self.fiber.last_charge() {
            Some(charge) => charge,
            None => {
                self.fiber.keeps();
                self.heap.charge()
            }
        }
    }

    /// Whether all commands are answered.
    pub(crate) fn is_quiet(&self) -> bool
        ensures { result ≡ is_quiet self.now.lane }
    {
        self.fiber.is_quiet()
    }

    /// Whether the worker has the stay's Begin or Join out.
    pub(crate) fn occupies(&self, worker: usize) -> bool
        ensures { result ≡ occupies worker self.now.lane }
    {
        self.fiber.occupies(worker)
    }

    /// The number of parts of the move; 0 if no move is in progress.
    pub(crate) fn count_parts(&self) -> usize
        ensures { result ≡ length self.now.lane.parts }
    {
        self.parts.count()
    }

    /// The first part that is ready.
    fn ready_part(&self) -> Option<(JobKind, u8)>
        requires { is_in_parts self.now.lane.stage ≡ true }
        ensures { MatchOption result (HasNoneReady self.now.lane) (λ job. is_ready self.now.lane job.0 job.1 ≡ true) }
    {
        match self.parts.first_ready() {
            None => None,
            Some(part) => Some((JobKind::Part, part)),
        }
    }

    /// The Begin or the Join if it is ready.
    fn ready_job(&self) -> Option<(JobKind, u8)>
        requires { is_in_parts self.now.lane.stage ≡ false }
        ensures { MatchOption result (HasNoneReady self.now.lane) (λ job. is_ready self.now.lane job.0 job.1 ≡ true) }
    {
        match self.fiber.ready() {
            None => None,
            Some(kind) => Some((kind, 0)),
        }
    }

    /// A job that is ready, if there is one; if several parts are ready, the first.
    pub(crate) fn ready(&self) -> Option<(JobKind, u8)>
        ensures { MatchOption result (HasNoneReady self.now.lane) (λ job. is_ready self.now.lane job.0 job.1 ≡ true) }
    {
        if self.fiber.is_in_parts() {
            self.ready_part()
        } else {
            self.ready_job()
        }
    }

    /// Whether the worker has that job out.
    fn has_out(&self, worker: usize, job: JobName) -> bool
        ensures { result ≡ is_out worker self.now.lane job.kind job.part }
    {
        if job.kind == JobKind::Part {
            self.fiber.is_in_parts() && self.parts.has_out(worker, job.part as usize)
        } else {
            self.fiber.has_out(worker, job.kind, job.part)
        }
    }

    /// The index of the record of that turn among the kept ones, if it is kept.
    fn place_of(&self, at: TurnNumber) -> Option<usize>
        requires { self.now.lane.is_open ≡ true }
        ensures { FindsTurn self.now.lane.game (kept_of self.now.lane) at result }
    {
        self.fiber.keeps();
        match self.fiber.last_record() {
            None => None,
            Some(last) => place_of_turn(self.heap.count(), last.turn(), at),
        }
    }

    /// The record of the turn that a command names, if it names one that is kept.
    fn asked_record(&self, asked_turn: Option<TurnNumber>) -> Option<&[u8]>
        requires { self.now.lane.is_open ≡ true }
        ensures { option_map (λ bytes. bytes.now) result ≡ option_map record_of (board_asked asked_turn self.now.lane.game) }
    {
        match self.place_of(asked_turn?) {
            None => None,
            Some(place) => Some(self.record(place)),
        }
    }

    /// Makes the input that a job of that command is expected to have.
    fn expected<'a>(
        &'a self,
        command: &'a SharedCommand,
        seq: u64,
        worker: u32,
        job: JobName,
    ) -> Expected<'a>
        requires { self.now.lane.is_open ≡ true }
        ensures value { IsOf (input_for self.now.lane command.now seq worker job) result }
        ensures legal { IsLegalAsked result }
    {
        self.fiber.keeps();
        Expected {
            job,
            worker,
            seq,
            quota: self.fiber.quota(),
            charge: self.charge(),
            kept: self.count(),
            last: self.fiber.last_record(),
            asked: self.asked_record(command.asked_turn()),
            command,
        }
    }

    /// Whether the worker has the ticket's job out, and the ticket holds the input for it and the
    /// frame blocks that it was taken with.
    pub(crate) fn is_own(&self, worker: usize, ticket: &Ticket<CAP>) -> bool
        ensures { IsTrue result ↔ IsOwnTicket self.now worker ticket.now }
    {
        let job = ticket.job();
        let number = ticket.worker();
        if number as usize != worker || !self.has_out(worker, job) {
            return false;
        }
        self.fiber.keeps();
        let expected = self.expected(self.fiber.command(), self.fiber.seq(), number, job);
        ticket.is_of(&expected) && self.parts.are_of(job, ticket.frames())
    }

    /// Closes the stay and frees the blocks of its records. Its last board and its charge are kept.
    pub(crate) fn close(&mut self, pool: &mut Pool<CAP>)
        requires may { may_leave self.old.lane ≡ true }
        requires blocks { HasBlocks CAP self.old pool.old }
        ensures game { self.new ≡ closed_game self.old }
        ensures pool { pool.new ≡ all_given (numbers_of self.old.packing) pool.old }
        ensures blocks { HasBlocks CAP self.new pool.new }
        ensures no_frames { self.old.frames.numbers ≡ [] }
        ensures others { LeavesOthers self.old.tag pool.old pool.new }
    {
        let charge = self.charge();
        self.heap.free(pool);
        self.planes = None;
        self.fiber.close(charge);
    }

    /// Takes the Begin of the next command for the worker. If the command is a move, keeps the keys
    /// of the parts that it will have. The new ticket reuses the memory of `spent`.
    #[tactic(auto, using(crate::proofs::FitInputs::taken_input))]
    fn begin(
        &mut self,
        alloc: Global,
        worker: u32,
        job: JobName,
        spent: Option<Box<Contents<CAP>>>,
    ) -> Result<Ticket<CAP>, AllocError>
        requires kind { job.kind ≡ kind.Begin }
        requires ready { is_ready self.old.lane job.kind job.part ≡ true }
        ensures ticket { IfOk result (λ ticket. IsTicketOf self.new worker job ticket) }
        ensures ok { OnOk result (self.new ≡ taken_game worker job 0 self.new.frames.tally self.new.frames.keys self.old) }
        ensures err { OnErr result (self.new ≡ self.old) }
    {
        let (tally, keys) = open_keys(alloc, &self.fiber)?;
        let expected = self.expected(self.fiber.next(), self.fiber.next_seq(), worker, job);
        let contents = expected.to_contents(alloc, spent)?;
        self.heap.grow_index()?;
        self.fiber.begin(worker as usize)?;
        self.parts.begin(tally, keys);
        self.fiber.keeps();
        Ok(Ticket::new(contents))
    }

    /// Makes the contents of a ticket for a job of the command in progress, without parts and
    /// blocks. Reuses the memory of `spent`.
    fn new_contents(
        &self,
        alloc: Global,
        worker: u32,
        job: JobName,
        spent: Option<Box<Contents<CAP>>>,
    ) -> Result<Box<Contents<CAP>>, AllocError>
        requires { is_idle self.now.lane.stage ≡ false }
        ensures input { IfOk result (λ contents. contents.value.input ≡ current_input self.now.lane worker job) }
        ensures frames { IfOk result (λ contents. contents.value.frames.items ≡ []) }
    {
        let expected = self.expected(self.fiber.command(), self.fiber.seq(), worker, job);
        expected.to_contents(alloc, spent)
    }

    /// Takes a part for the worker, with an empty frame block and its key. The new ticket reuses
    /// the memory of `spent`.
    fn take_part(
        &mut self,
        alloc: Global,
        pool: &mut Pool<CAP>,
        worker: u32,
        job: JobName,
        spent: Option<Box<Contents<CAP>>>,
    ) -> Result<(Ticket<CAP>, PartKey<Done<CAP>>), AllocError>
        requires kind { job.kind ≡ kind.Part }
        requires ready { is_ready self.old.lane job.kind job.part ≡ true }
        requires blocks { HasBlocks CAP self.old pool.old }
        ensures ticket { IfOk result (λ taken. IsTicketOf self.new worker job taken.0) }
        ensures key { IfOk result (λ taken. IsKeyAt self.new.frames.tally (length self.new.lane.parts) job.part taken.1) }
        ensures ok { OnOk result (self.new ≡ taken_game worker job (next_number pool.old) self.new.frames.tally self.new.frames.keys self.old) }
        ensures pool { OnOk result (pool.new ≡ drawn self.old.frames.tag (next_number pool.old) pool.old) }
        ensures blocks { HasBlocks CAP self.new pool.new }
        ensures others { LeavesOthers self.old.frames.tag pool.old pool.new }
        ensures err { OnErr result (self.new ≡ self.old) }
        ensures err_pool { OnErr result (pool.new ≡ pool.old) }
    {
        let mut contents = self.new_contents(alloc, worker, job, spent)?;
        contents.frames.reserve(1)?;
        let (owned, key) = self.parts.take(pool, worker as usize, job.part as usize);
        contents.frames.push_reserved(owned);
        self.fiber.keeps();
        Ok((Ticket::new(contents), key))
    }

    /// Takes the Join for the worker, with the moved snakes and the frame blocks of all parts. The
    /// new ticket reuses the memory of `spent`.
    fn join(
        &mut self,
        alloc: Global,
        worker: u32,
        job: JobName,
        spent: Option<Box<Contents<CAP>>>,
    ) -> Result<Ticket<CAP>, AllocError>
        requires kind { job.kind ≡ kind.Join }
        requires ready { is_ready self.old.lane job.kind job.part ≡ true }
        ensures ticket { IfOk result (λ ticket. IsTicketOf self.new worker job ticket) }
        ensures ok { OnOk result (self.new ≡ taken_game worker job 0 self.new.frames.tally self.new.frames.keys self.old) }
        ensures err { OnErr result (self.new ≡ self.old) }
    {
        let mut contents = self.new_contents(alloc, worker, job, spent)?;
        contents.frames.reserve(MOST_PARTS)?;
        let mut moved = Vec::with_capacity(alloc, MOST_PARTS)?;
        self.heap.grow_index()?;
        self.fiber.join(worker as usize)?;
        self.parts.join(&mut moved, &mut contents.frames);
        contents.input.parts = Parts::from_vec(moved);
        self.fiber.keeps();
        Ok(Ticket::new(contents))
    }

    /// Takes a ready job for the worker: its ticket, and for a part its key. Reserves the memory
    /// that its completion needs. The new ticket reuses the memory of `spent`.
    pub(crate) fn take(
        &mut self,
        alloc: Global,
        pool: &mut Pool<CAP>,
        worker: u32,
        job: JobName,
        spent: Option<Box<Contents<CAP>>>,
    ) -> Result<(Ticket<CAP>, Option<PartKey<Done<CAP>>>), AllocError>
        requires ready { is_ready self.old.lane job.kind job.part ≡ true }
        requires blocks { HasBlocks CAP self.old pool.old }
        ensures ticket { IfOk result (λ taken. IsTicketOf self.new worker job taken.0) }
        ensures key { IfOk result (λ taken. IsKeyOf self.new.frames.tally (length self.new.lane.parts) job taken.1) }
        ensures ok { OnOk result (self.new ≡ taken_game worker job (next_number pool.old) self.new.frames.tally self.new.frames.keys self.old) }
        ensures pool { OnOk result (pool.new ≡ pool_taken job.kind self.old.frames.tag (next_number pool.old) pool.old) }
        ensures blocks { HasBlocks CAP self.new pool.new }
        ensures others { LeavesOthers self.old.frames.tag pool.old pool.new }
        ensures err { OnErr result (self.new ≡ self.old) }
        ensures err_pool { OnErr result (pool.new ≡ pool.old) }
    {
        match job.kind {
            JobKind::Begin => Ok((self.begin(alloc, worker, job, spent)?, None)),
            JobKind::Part => {
                let (ticket, key) = self.take_part(alloc, pool, worker, job, spent)?;
                Ok((ticket, Some(key)))
            }
            JobKind::Join => Ok((self.join(alloc, worker, job, spent)?, None)),
        }
    }

    /// Starts the move, one part for each key.
    fn fork(&mut self)
        requires begun { (worker : ℕ) × (is_out worker self.old.lane kind.Begin 0 ≡ true) }
        requires goes { goes_on self.old.lane ≡ true }
        ensures game { self.new ≡ forked_game self.old }
        ensures blocks { (pool : Ledger) → HasBlocks CAP self.old pool → HasBlocks CAP self.new pool }
    {
        self.fiber.fork();
        self.parts.fork();
    }

    /// Completes a part: keeps its block, and the places of its moved snakes there.
    fn complete_part(&mut self, part: usize, moved: Moved, owned: Owned<CAP>)
        requires out { (worker : ℕ) × (is_out worker self.old.lane kind.Part part ≡ true) }
        requires moved { moved ≡ pieces_from 0 (moved_part part (lane_view self.old.lane) (lane_command self.old.lane)) }
        requires number { slice_get self.old.frames.numbers part ≡ Some (Some owned.number) }
        requires tag { owned.tag ≡ self.old.frames.tag }
        requires holds { owned.block ≡ frame_of (moved_part part (lane_view self.old.lane) (lane_command self.old.lane)) }
        ensures { self.new ≡ game_with_part part self.old }
    {
        self.parts.complete(part, moved, owned);
        if self.parts.are_done() {
            self.fiber.end_parts();
        }
    }

    /// Answers the command: keeps the reply, changes the records, drops the keys, and gives the
    /// frame blocks back.
    fn answer(&mut self, pool: &mut Pool<CAP>, answer: Answer, blocks: &mut Vec<Owned<CAP>>)
        requires out { IsAnswering self.old (names_of (frames_in blocks.old.items)) }
        requires answer { answer ≡ answer_of (lane_view self.old.lane) (lane_command self.old.lane) }
        requires blocks { HasBlocks CAP self.old pool.old }
        ensures game { self.new ≡ answered_game CAP (next_number pool.old) self.old }
        ensures pool { pool.new ≡ pool_answered CAP self.old pool.old }
        ensures blocks { HasBlocks CAP self.new pool.new }
        ensures others { LeavesBut self.old.tag self.old.frames.tag pool.old pool.new }
    {
        self.fiber.keeps();
        change_records(&mut self.heap, pool, &answer.effect);
        self.fiber.answer(answer);
        self.parts.give_back(blocks, pool);
    }

    /// The number of parts that the next command will have, 0 if it is no move that goes on.
    pub(crate) fn next_parts(&self) -> usize
        requires { 0 < length self.now.lane.waiting }
        ensures { AreNextParts self.now.lane result }
    {
        self.fiber.next_parts()
    }

    /// The answer to the next command.
    fn next_answer(&self, alloc: Global, planes: &mut PlaneCache) -> Result<Answer, AllocError>
        requires { is_ready self.now.lane kind.Begin 0 ≡ true }
        ensures { IfOk result (λ answer. answer ≡ next_answer self.now.lane) }
    {
        let job = JobName {
            kind: JobKind::Begin,
            game: 0,
            part: 0,
        };
        self.keeps();
        let expected = self.expected(self.fiber.next(), self.fiber.next_seq(), 0, job);
        answer_expected(alloc, planes, &expected)
    }

    /// Answers the next command at once, with that cache of its plane. While the records change,
    /// that many frame blocks are drawn. After an error nothing is changed.
    fn answer_with(
        &mut self,
        alloc: Global,
        pool: &mut Pool<CAP>,
        planes: &mut PlaneCache,
        parts: usize,
    ) -> Result<(), AllocError>
        requires ready { is_ready self.old.lane kind.Begin 0 ≡ true }
        requires few { parts ≤ 4 }
        requires blocks { HasBlocks CAP self.old pool.old }
        ensures game { OnOk result (self.new ≡ game_here CAP (number_behind self.old.frames.tag parts pool.old) self.old) }
        ensures pool { OnOk result (pool.new ≡ pool_here CAP parts self.old pool.old) }
        ensures idle { self.old.frames ≡ idle_frames self.old.frames.tag self.old.frames.tally }
        ensures blocks { HasBlocks CAP self.new pool.new }
        ensures others { LeavesBut self.old.tag self.old.frames.tag pool.old pool.new }
        ensures err { OnErr result (self.new ≡ self.old) }
        ensures err_pool { OnErr result (pool.new ≡ pool.old) }
    {
        let answer = self.next_answer(alloc, planes)?;
        let mut frames = Vec::with_capacity(alloc, parts)?;
        self.heap.grow_index()?;
        self.fiber.begin(0)?;
        self.fiber.keeps();
        draw_frames(pool, self.parts.tag(), parts, &mut frames);
        change_records(&mut self.heap, pool, &answer.effect);
        give_all(&mut frames, pool);
        self.fiber.answer(answer);
        Ok(())
    }

    /// How many frame blocks to draw while the records change: none where the record lies in the
    /// current block, since the blocks that are drawn then are given back unseen.
    fn frames_to_draw(&self, pool: &Pool<CAP>, parts: usize) -> usize
        requires ready { is_ready self.now.lane kind.Begin 0 ≡ true }
        requires few { parts ≤ 4 }
        requires blocks { HasBlocks CAP self.now pool.now }
        ensures few { result ≤ 4 }
        ensures game { game_here CAP (number_behind self.now.frames.tag result pool.now) self.now ≡ game_here CAP (number_behind self.now.frames.tag parts pool.now) self.now }
        ensures pool { pool_here CAP result self.now pool.now ≡ pool_here CAP parts self.now pool.now }
    {
        if !self.heap.has_room() {
            return parts;
        }
        self.fiber.keeps();
        let _sound = pool.size();
        0
    }

    /// Answers the next command at once. After an error nothing is changed.
    pub(crate) fn answer_here(
        &mut self,
        alloc: Global,
        pool: &mut Pool<CAP>,
        parts: usize,
    ) -> Result<(), AllocError>
        requires ready { is_ready self.old.lane kind.Begin 0 ≡ true }
        requires few { parts ≤ 4 }
        requires blocks { HasBlocks CAP self.old pool.old }
        ensures game { OnOk result (self.new ≡ game_here CAP (number_behind self.old.frames.tag parts pool.old) self.old) }
        ensures pool { OnOk result (pool.new ≡ pool_here CAP parts self.old pool.old) }
        ensures idle { self.old.frames ≡ idle_frames self.old.frames.tag self.old.frames.tally }
        ensures blocks { HasBlocks CAP self.new pool.new }
        ensures others { LeavesBut self.old.tag self.old.frames.tag pool.old pool.new }
        ensures err { OnErr result (self.new ≡ self.old) }
        ensures err_pool { OnErr result (pool.new ≡ pool.old) }
    {
        let frames = self.frames_to_draw(pool, parts);
        let mut planes = match self.planes.take() {
            Some(planes) => planes,
            None => Box::new(alloc, PlaneCache::new(alloc))?,
        };
        let answered = self.answer_with(alloc, pool, &mut planes, frames);
        self.planes = Some(planes);
        answered
    }

    /// Completes a job that was out.
    pub(crate) fn complete(
        &mut self,
        pool: &mut Pool<CAP>,
        job: JobName,
        out: Out,
        blocks: &mut Vec<Owned<CAP>>,
    )
        requires out { (worker : ℕ) × (is_out worker self.old.lane job.kind job.part ≡ true) }
        requires worked { out ≡ out_seen job.kind job.part (lane_view self.old.lane) (lane_command self.old.lane) }
        requires blocks { HasBlocks CAP self.old pool.old }
        requires names { names_of (frames_in blocks.old.items) ≡ own_names self.old job }
        requires holds { bytes_of (frames_in blocks.old.items) ≡ worked_bytes job.kind job.part (lane_view self.old.lane) (lane_command self.old.lane) }
        ensures game { self.new ≡ completed_game CAP job.kind job.part (next_number pool.old) self.old }
        ensures pool { pool.new ≡ pool_completed CAP job.kind self.old pool.old }
        ensures blocks { HasBlocks CAP self.new pool.new }
        ensures others { LeavesBut self.old.tag self.old.frames.tag pool.old pool.new }
    {
        match out {
            Out::Goes => self.fork(),
            Out::Answered(answer) => self.answer(pool, answer, blocks),
            Out::Moved(moved) => self.complete_part(job.part as usize, moved, only(blocks)),
            Out::Joined(answer, _) => self.answer(pool, answer, blocks),
        }
    }
}
