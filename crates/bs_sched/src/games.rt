//! All stays of a core, and the pool of their blocks. Clauses see them as lanes and as the places
//! of their records.
ghost use Rattle.std.specs.Prelude.{◌≡◌, ◌+◌, ◌≤◌, ◌<◌, ◌∷◌, ◌++◌, [], true, false, not, All, length, OnOk, OnErr, IfOk, IfErr, IfSome, MatchOption, ◌↔◌, IsTrue, ℕ, List, None, slice_index_or, slice_set};
ghost use Rattle.std.specs.List.{list_all, list_any};
ghost use Rattle.bs_board.specs.plans.Plan.{IsFitPlan, is_fit_row};
ghost use Rattle.bs_pool.specs.Ledger.{free, opened as new_pool, size};
ghost use Rattle.bs_pool.specs.Reservations.{all_reserved};
ghost use Rattle.bs_sched.specs.Games.{after, opened, KeepsTallies, games_taken, setting_of, tally_of};
ghost use Rattle.bs_sched.specs.inner.LoneStays.{HasOneStay};
ghost use Rattle.bs_sched.specs.inner.Games.{games_completed};
ghost use Rattle.bs_sched.specs.inner.GamesLayout.{lanes_in, numbers_in, opened_games};
ghost use Rattle.bs_sched.specs.inner.Assembling.{ArePlaced, IsOnly, games_of};
ghost use Rattle.bs_sched.specs.inner.Journal.{core_of};
ghost use Rattle.bs_sched.specs.Journal.{IsItsJournal};
ghost use Rattle.bs_sched.specs.declared.event.Event.{Event};
ghost use Rattle.bs_sched.specs.Lane.{answered, is_quiet, is_ready, is_out, lane_view, lane_command, may_leave, occupies};
ghost use Rattle.bs_sched.specs.inner.Lane.{HasNoneReady};
ghost use Rattle.bs_sched.specs.Machine.{is_busy, lane_of, may_admit};
ghost use Rattle.bs_sched.specs.declared.event.Event.TheVariants as event;
ghost use Rattle.bs_block.specs.Bytes.{IsCapacity};
ghost use Rattle.bs_registry.specs.Blocks.{blocks_of, blocks_of_all};
ghost use Rattle.bs_registry.specs.OpenStays.{bears, open_of};
ghost use Rattle.bs_registry.specs.Registry.{rows_in, rows_open, with_stay};
ghost use Rattle.bs_registry.specs.Stays.{first_refusal};
ghost use Rattle.bs_sched.specs.Registry.{capacity_of, registry_of};
ghost use Rattle.bs_sched.specs.PlanBlocks.{with_row};
ghost use Rattle.bs_sched.specs.declared.opening.Open.TheVariants as cause;
ghost use Rattle.bs_fiber.specs.Tickets.{IsFresh, bytes_of, frames_in, names_of, worked_bytes};
ghost use Rattle.bs_sched.specs.Answering.{AreNextParts, answer_events, begun};
ghost use Rattle.bs_sched.specs.inner.Answering.{games_after};
ghost use Rattle.bs_fiber.specs.declared.job.JobKind.TheVariants as kind;
ghost use Rattle.bs_sched.specs.Inputs.{input_of, names_for};
ghost use Rattle.bs_sched.specs.Keyed.{IsKeyOf};
ghost use Rattle.bs_sched.specs.inner.Taking.{AreNoneOpenReady, AreNoneReadyBetween, IsReadyJob};
ghost use Rattle.bs_fiber.specs.Work.{out_seen};
ghost use Rattle.bs_sched.specs.inner.Game.{opened_game};
ghost use Rattle.bs_sched.specs.Storage.{record_tag};
ghost use Rattle.bs_sched.specs.Putting.{IsOwn, IsOwnJob};
ghost use Rattle.bs_sched.specs.Parts.{AreOwnParts, IsOwnPart};

use crate::cores::{Counts, LEAST_CAPACITY, MOST_WORKERS};
use crate::game::Game;
use crate::opening::Open;
use crate::plan_blocks::{release_row, reserve_row, reserve_rows};
use bs_board::limits::MOST_ROWS;
use bs_board::{Plan, Row, Rows};
use bs_counter::PartKey;
use bs_fiber::{Contents, Done, JobKind, JobName, Out, SharedCommand, Ticket};
use bs_pool::{Owned, Pool};
use bs_registry::{Listed, MOST_STAYS, Refusal, Registry, blocks_of, blocks_of_all, open_rows};
use std::alloc::{AllocError, Global};
use std::marker::Model;

/// All stays of a core, with the pool of their blocks.
#[derive(Drop)]
pub(crate) struct Games<const CAP: usize> {
    /// The rows of the plan, the first stays.
    rows: Rows,
    /// The last worker's number, with as many bits as an event has for it.
    workers: u32,
    failed: bool,
    list: Vec<Game<CAP>>,
    /// The open stays, which decide what may be admitted. Only these are searched for jobs.
    registry: Registry<()>,
    pool: Pool<CAP>,
}

impl<const CAP: usize> Model for Games<CAP> {
    ghost use Rattle.bs_sched.specs.Games.{GamesView};
    ghost use Rattle.bs_sched.specs.inner.GamesLayout.{games_in, IsSound};

    ghost Value = { GamesView };

    ghost view = { λ c. games_in c };

    ghost invariant = { λ c. IsSound CAP c };
}

/// Whether all commands of those stays are answered.
#[tactic(auto, using(crate::proofs::OpenRows::some_busy, crate::proofs::OpenRows::all_quiet, crate::proofs::OpenRows::number_read, crate::proofs::ListedGames::lane_read))]
fn are_quiet<const CAP: usize>(games: &[Game<CAP>], stays: &[Listed<()>]) -> bool
    requires { All (λ stay. stay.number < length games.now) stays.now }
    ensures { result ≡ list_all (λ game. is_quiet (lane_of (lanes_in games.now) game)) (numbers_in stays.now) }
{
    for place in 0..stays.len() {
        if !games[stays[place].number].is_quiet() {
            return false;
        }
    }
    true
}

/// Whether the worker has no Begin and no Join of those stays out.
#[tactic(auto, using(crate::proofs::OpenRows::some_busy, crate::proofs::OpenRows::all_quiet, crate::proofs::OpenRows::number_read, crate::proofs::ListedGames::lane_read))]
fn are_free<const CAP: usize>(games: &[Game<CAP>], stays: &[Listed<()>], worker: usize) -> bool
    requires { All (λ stay. stay.number < length games.now) stays.now }
    ensures { result ≡ list_all (λ game. not (occupies worker (lane_of (lanes_in games.now) game))) (numbers_in stays.now) }
{
    for place in 0..stays.len() {
        if games[stays[place].number].occupies(worker) {
            return false;
        }
    }
    true
}

/// Opens a stay for each row.
fn open_games<const CAP: usize>(alloc: Global, rows: &[Row]) -> Result<Vec<Game<CAP>>, AllocError>
    requires wide { LEAST_CAPACITY ≤ CAP }
    requires few { length rows.now ≤ MOST_ROWS }
    ensures { IfOk result (λ games. games.items ≡ opened_games rows.now) }
{
    let mut games = Vec::with_capacity(alloc, rows.len())?;
    for game in 0..rows.len() {
        let row = &rows[game];
        let _quota = row.quota;
        games.push(Game::new(alloc, game, row.copy(alloc)?)?)?;
    }
    Ok(games)
}

/// Lists the open stays.
#[tactic(auto, using(crate::proofs::ListedStays::one_more, crate::proofs::ListedStays::none_more, crate::proofs::ListedStays::all_open))]
fn list_open<const CAP: usize>(
    alloc: Global,
    games: &[Game<CAP>],
) -> Result<Vec<Listed<()>>, AllocError>
    ensures { IfOk result (λ stays. rows_open stays.items ≡ open_of (registry_of (lanes_in games.now))) }
{
    let mut stays = Vec::new(alloc);
    for number in 0..games.len() {
        if games[number].is_open() {
            stays.push(Listed {
                number,
                row: games[number].row().copy(alloc)?,
                kept: (),
            })?;
        }
    }
    Ok(stays)
}

/// A ready job of the stay of that row, if there is one.
fn ready_job<const CAP: usize>(game: &Game<CAP>, row: usize) -> Option<JobName>
    requires { row < MOST_STAYS }
    ensures { MatchOption result
        (HasNoneReady game.now.lane)
        (λ job. (job.game ≡ row) × (is_ready game.now.lane job.kind job.part ≡ true)) }
{
    match game.ready() {
        None => None,
        Some((kind, part)) => Some(JobName {
            kind,
            game: row as u32,
            part,
        }),
    }
}

/// The first ready job of the open stays from place `from` to place `to`, `to` excluded.
#[tactic(auto, using(crate::proofs::OpenRows::number_read, crate::proofs::ListedGames::lane_read, crate::proofs::ListedGames::many_lanes))]
fn find_job<const CAP: usize>(
    games: &[Game<CAP>],
    stays: &[Listed<()>],
    from: usize,
    to: usize,
) -> Option<JobName>
    requires few { length games.now ≤ MOST_STAYS }
    requires rows { All (λ stay. stay.number < length games.now) stays.now }
    requires within { to ≤ length stays.now }
    ensures { MatchOption result (AreNoneReadyBetween from to (numbers_in stays.now) (lanes_in games.now)) (IsReadyJob (lanes_in games.now)) }
{
    for place in from..to {
        let row = stays[place].number;
        if let Some(job) = ready_job(&games[row], row) {
            return Some(job);
        }
    }
    None
}

/// The place of the first open stay of that row or a later one; the number of open stays if there
/// is none. The row itself is looked at first: it is the place while no stay has left.
fn place_from(stays: &[Listed<()>], first: usize) -> usize
    ensures { result ≤ length stays.now }
{
    if let Some(stay) = stays.get(first) {
        if stay.number == first {
            return first;
        }
    }
    match stays.iter().position(|stay| stay.number >= first) {
        Some(place) => place,
        None => stays.len(),
    }
}

/// Lists an open row, and reserves its blocks. After an error nothing is changed.
fn list_row<const CAP: usize>(
    registry: &mut Registry<()>,
    pool: &mut Pool<CAP>,
    alloc: Global,
    row_number: usize,
    row: &Row,
) -> Result<(), AllocError>
    requires wide { LEAST_CAPACITY ≤ CAP }
    requires number { row_number < MOST_STAYS }
    requires made { registry.old.made < MOST_STAYS }
    requires new { list_any (bears row.now.game) (rows_in registry.old) ≡ false }
    requires fresh { All (λ r. r.tag < record_tag row_number) pool.old.reservations }
    requires room { all_reserved pool.old.reservations + blocks_of CAP row.now ≤ size pool.old }
    ensures listed { OnOk result (registry.new ≡ with_stay row.now tt registry.old) }
    ensures reserved { OnOk result (pool.new ≡ with_row CAP row_number row.now pool.old) }
    ensures unlisted { OnErr result (registry.new ≡ registry.old) }
    ensures unreserved { OnErr result (pool.new ≡ pool.old) }
{
    registry.push(row.copy(alloc)?, ())?;
    match reserve_row(pool, row_number, row) {
        Ok(()) => Ok(()),
        Err(error) => {
            registry.undo_push();
            Err(error)
        }
    }
}

/// Adds a new game for the next row. After an error the list is unchanged.
fn push_game<const CAP: usize>(
    list: &mut Vec<Game<CAP>>,
    alloc: Global,
    row: Row,
) -> Result<(), AllocError>
    requires wide { LEAST_CAPACITY ≤ CAP }
    requires few { length list.old.items < MOST_STAYS }
    ensures ok { OnOk result (list.new.items ≡ list.old.items ++ opened_game (length list.old.items) row ∷ []) }
    ensures err { OnErr result (list.new.items ≡ list.old.items) }
{
    let row_number = list.len();
    list.reserve(1)?;
    list.push_reserved(Game::new(alloc, row_number, row)?);
    Ok(())
}

/// Removes and returns the only game of the list.
fn only_game<const CAP: usize>(games: &mut Vec<Game<CAP>>) -> Game<CAP>
    requires { length games.old.items ≡ 1 }
    ensures { games.old.items ≡ result ∷ [] }
{
    match games.pop() {
        Some(game) => game,
        None => unreachable!(),
    }
}

impl<const CAP: usize> Games<CAP> {
    /// The stay of that row.
    #[tactic(auto, using(crate::proofs::ListedGames::lane_read))]
    pub(crate) fn game(&self, game: usize) -> &Game<CAP>
        requires { game < length self.now.lanes }
        ensures { lane_of self.now.lanes game ≡ result.now.lane }
    {
        &self.list[game]
    }

    /// Queues a command for that stay.
    pub(crate) fn hand(&mut self, game: usize, command: SharedCommand) -> Result<(), AllocError>
        requires game { game < length self.old.lanes }
        requires open { (lane_of self.old.lanes game).is_open ≡ true }
        ensures ok { OnOk result (self.new ≡ after CAP self.old (event.Hand game command)) }
        ensures err { OnErr result (self.new ≡ self.old) }
    {
        self.list[game].hand(command)
    }

    /// Stops the games: no job is taken any more.
    pub(crate) fn fail(&mut self)
        ensures { self.new ≡ record self.old { failed = true } }
    {
        self.failed = true;
    }

    pub(crate) fn has_failed(&self) -> bool
        ensures { result ≡ self.now.failed }
    {
        self.failed
    }

    pub(crate) fn count_rows(&self) -> usize
        ensures value { result ≡ length self.now.lanes }
        ensures plan { IsFitPlan self.now.rows }
        ensures few { result ≤ MOST_STAYS }
    {
        self.list.len()
    }

    pub(crate) fn workers(&self) -> usize
        ensures value { result ≡ self.now.workers }
        ensures few { result ≤ MOST_WORKERS }
    {
        self.workers as usize
    }

    /// The worker's number as an event has it.
    pub(crate) fn worker_number(&self, worker: usize) -> u32
        requires { worker ≤ self.now.workers }
        ensures { result ≡ worker }
    {
        let _last = self.workers;
        worker as u32
    }

    /// The game's row as an event has it.
    pub(crate) fn row_number(&self, game: usize) -> u32
        requires { game < length self.now.lanes }
        ensures { result ≡ game }
    {
        let _games = self.count_rows();
        game as u32
    }

    #[tactic(auto, using(crate::proofs::ListedGames::listed_games))]
    pub(crate) fn is_quiet(&self) -> bool
        ensures { result ≡ list_all is_quiet self.now.lanes }
    {
        are_quiet(&self.list, self.registry.as_slice())
    }

    /// Whether the worker has a Begin or a Join out.
    #[tactic(auto, using(crate::proofs::ListedGames::listed_games))]
    pub(crate) fn is_busy(&self, worker: usize) -> bool
        ensures { result ≡ is_busy worker self.now.lanes }
    {
        !are_free(&self.list, self.registry.as_slice(), worker)
    }

    pub(crate) fn counts(&self) -> Counts
        ensures free { result.free ≡ free self.now.storage.pool }
        ensures size { result.size ≡ size self.now.storage.pool }
        ensures all { result.free + result.held ≡ result.size }
    {
        let free = self.pool.free();
        let size = self.pool.size();
        Counts {
            free,
            held: size - free,
            size,
        }
    }

    /// Opens the games of a plan over a new pool, with no command yet.
    #[tactic(auto, using(crate::proofs::OpenedGames::opened_lanes_are, crate::proofs::OpenedGames::opened_packings, crate::proofs::OpenedGames::opened_numbers, crate::proofs::Tallies::opened_tallies))]
    pub(crate) fn open_in(
        alloc: Global,
        rows: Rows,
        mut pool: Pool<CAP>,
        workers: usize,
    ) -> Result<Self, AllocError>
        requires wide { LEAST_CAPACITY ≤ CAP }
        requires workers { workers ≤ MOST_WORKERS }
        requires pool { pool ≡ new_pool (size pool) }
        requires room { blocks_of_all CAP rows ≤ size pool }
        ensures { IfOk result (λ games. games ≡ opened CAP (size pool.entry) workers rows) }
    {
        let all = rows.as_slice();
        reserve_rows(&mut pool, all)?;
        let list = open_games(alloc, all)?;
        let registry = open_rows(alloc, &rows)?;
        Ok(Games {
            rows,
            workers: workers as u32,
            failed: false,
            list,
            registry,
            pool,
        })
    }

    /// Makes the games of stays to which events lead: those of the plan, then the admitted ones.
    #[tactic(auto, using(crate::proofs::ListedGames::many_lanes))]
    pub(crate) fn of_list(
        alloc: Global,
        rows: Rows,
        workers: usize,
        list: Vec<Game<CAP>>,
        pool: Pool<CAP>,
    ) -> Result<Self, AllocError>
        requires workers { workers ≤ MOST_WORKERS }
        requires led { (events : List Event) × IsItsJournal CAP (core_of (games_of rows workers list.items pool) events) }
        requires placed { ArePlaced list.items }
        ensures { IfOk result (λ games. games ≡ games_of rows workers list.entry.items pool.entry) }
    {
        let stays = list_open(alloc, list.as_slice())?;
        let registry = Registry::from_open(list.len(), stays);
        Ok(Games {
            rows,
            workers: workers as u32,
            failed: false,
            list,
            registry,
            pool,
        })
    }

    /// Opens the games of a plan, with no command yet.
    pub(crate) fn open(
        alloc: Global,
        plan: Plan,
        blocks: usize,
        workers: usize,
    ) -> Result<Self, Open>
        requires capacity { IsCapacity CAP }
        requires wide { LEAST_CAPACITY ≤ CAP }
        requires workers { workers ≤ MOST_WORKERS }
        ensures games { IfOk result (λ games. games ≡ opened CAP blocks workers plan.rows) }
        ensures plan { IsFitPlan plan.rows }
        ensures room { OnOk result (blocks_of_all CAP plan.rows ≤ blocks) }
        ensures short { IfErr result (λ fault. fault ≡ cause.Short → blocks < blocks_of_all CAP plan.rows) }
    {
        if blocks_of_all(CAP, plan.rows.as_slice()) > blocks {
            return Err(Open::Short);
        }
        let pool = Pool::open(alloc, blocks)?;
        Ok(Games::open_in(alloc, plan.rows, pool, workers)?)
    }

    /// Does nothing. Gives the prover that the storage of one game is that of one stay.
    pub(crate) fn keeps_one(&self)
        requires { length self.now.lanes ≡ 1 }
        ensures { HasOneStay self.now.storage }
    {
        let _list = &self.list;
    }

    /// The only game, and the pool.
    #[tactic(auto, using(crate::proofs::OnlyGame::is_only))]
    pub(crate) fn into_only(self) -> (Game<CAP>, Pool<CAP>)
        requires { length self.lanes ≡ 1 }
        ensures game { IsOnly self.entry result.0 }
        ensures pool { result.1 ≡ self.entry.storage.pool }
    {
        let Games { mut list, pool, .. } = self;
        (only_game(&mut list), pool)
    }

    /// The rows of the plan.
    pub(crate) fn plan(&self) -> &[Row]
        ensures { result.now ≡ self.now.rows }
    {
        self.rows.as_slice()
    }

    /// The rows of the plan, and the pool, of games that are no longer needed.
    pub(crate) fn into_rows_and_pool(self) -> (Rows, Pool<CAP>)
        ensures rows { result.0 ≡ self.entry.rows }
        ensures pool { result.1 ≡ self.entry.storage.pool }
    {
        let Games { rows, pool, .. } = self;
        (rows, pool)
    }

    /// The first reason against admitting that row, if there is one.
    pub(crate) fn refusal(&self, row: &Row) -> Option<Refusal>
        ensures { result ≡ first_refusal (capacity_of (setting_of CAP self.now)) (registry_of self.now.lanes) row.now }
    {
        let _workers = self.workers;
        self.registry
            .refusal(row, blocks_of(CAP, row), self.pool.unreserved())
    }

    /// Opens a stay in the next row. After an error nothing is changed.
    pub(crate) fn admit(&mut self, alloc: Global, row: Row) -> Result<usize, AllocError>
        requires fit { is_fit_row row ≡ true }
        requires may { may_admit (setting_of CAP self.old) self.old.lanes row ≡ true }
        ensures row { IfOk result (λ game. game ≡ length self.old.lanes) }
        ensures ok { OnOk result (self.new ≡ after CAP self.old (event.Admit row)) }
        ensures err { OnErr result (self.new ≡ self.old) }
    {
        let row_number = self.list.len();
        let _blocks = self.pool.size();
        list_row(&mut self.registry, &mut self.pool, alloc, row_number, &row)?;
        if let Err(error) = push_game(&mut self.list, alloc, row) {
            release_row(&mut self.pool, row_number);
            self.registry.undo_push();
            return Err(error);
        }
        Ok(row_number)
    }

    /// Closes the stay of that row, frees its blocks and ends their reservations. Its last board
    /// and its charge are kept.
    pub(crate) fn leave(&mut self, game: usize)
        requires game { game < length self.old.lanes }
        requires may { may_leave (lane_of self.old.lanes game) ≡ true }
        ensures { self.new ≡ after CAP self.old (event.Leave game) }
    {
        self.list[game].close(&mut self.pool);
        release_row(&mut self.pool, game);
        self.registry.remove(game);
    }

    /// The first ready job of the open stays at row `first` or later, else of an earlier one.
    #[inline(never)]
    #[tactic(auto, using(crate::proofs::FoundJobs::none_anywhere, crate::proofs::ListedGames::listed_games))]
    fn search(&self, first: usize) -> Option<JobName>
        ensures { MatchOption result (AreNoneOpenReady self.now.lanes) (IsReadyJob self.now.lanes) }
    {
        let stays = self.registry.as_slice();
        let from = place_from(stays, first);
        match find_job(&self.list, stays, from, stays.len()) {
            Some(job) => Some(job),
            None => find_job(&self.list, stays, 0, from),
        }
    }

    /// A ready job of the stay of that row; `None` if it has none, or if there is no such stay.
    #[inline(always)]
    #[tactic(auto, using(crate::proofs::ListedGames::lane_read, crate::proofs::ListedGames::many_lanes))]
    fn ready_at(&self, row: usize) -> Option<JobName>
        ensures { IfSome result (IsReadyJob self.now.lanes) }
    {
        let _games = self.count_rows();
        if row >= self.list.len() {
            return None;
        }
        ready_job(&self.list[row], row)
    }

    /// A ready job of the stay of row `first`, without a search; if it has none, the first one of
    /// the open stays at later rows, else of the earlier ones.
    #[inline(always)]
    pub(crate) fn find(&self, first: usize) -> Option<JobName>
        ensures { MatchOption result (AreNoneOpenReady self.now.lanes) (IsReadyJob self.now.lanes) }
    {
        match self.ready_at(first) {
            Some(job) => Some(job),
            None => self.search(first),
        }
    }

    pub(crate) fn take_job(
        &mut self,
        alloc: Global,
        worker: u32,
        job: JobName,
        spent: Option<Box<Contents<CAP>>>,
    ) -> Result<(Ticket<CAP>, Option<PartKey<Done<CAP>>>), AllocError>
        requires game { job.game < length self.old.lanes }
        requires ready { is_ready (lane_of self.old.lanes job.game) job.kind job.part ≡ true }
        ensures ticket { IfOk result (λ taken. taken.0.input ≡ input_of (lane_of self.new.lanes job.game) worker job) }
        ensures fresh { IfOk result (λ taken. IsFresh taken.0) }
        ensures names { IfOk result (λ taken. names_of taken.0.frames ≡ names_for self.new.storage job) }
        ensures key { IfOk result (λ taken. IsKeyOf (tally_of self.new.tallies job.game) (length (lane_of self.new.lanes job.game).parts) job taken.1) }
        ensures ok { OnOk result (self.new ≡ games_taken CAP self.old worker job self.new.tallies) }
        ensures tallies { OnOk result (KeepsTallies job self.old.tallies self.new.tallies) }
        ensures err { OnErr result (self.new ≡ self.old) }
    {
        self.list[job.game as usize].take(alloc, &mut self.pool, worker, job, spent)
    }

    /// The number of parts that the next command of the stay will have, 0 if it is no move that
    /// goes on.
    pub(crate) fn next_parts(&self, game: usize) -> usize
        requires game { game < length self.now.lanes }
        requires waits { 0 < length (lane_of self.now.lanes game).waiting }
        ensures { AreNextParts (lane_of self.now.lanes game) result }
    {
        self.list[game].next_parts()
    }

    /// Answers the next command of the stay at once. After an error nothing is changed.
    pub(crate) fn answer_here(
        &mut self,
        alloc: Global,
        game: usize,
        parts: usize,
    ) -> Result<(), AllocError>
        requires game { game < length self.old.lanes }
        requires ready { is_ready (lane_of self.old.lanes game) kind.Begin 0 ≡ true }
        requires parts { AreNextParts (lane_of self.old.lanes game) parts }
        ensures ok { OnOk result ((worker : ℕ) → self.new ≡ games_after CAP self.old (answer_events worker game parts)) }
        ensures lanes { OnOk result (self.new.lanes ≡ slice_set self.old.lanes game (answered (begun (lane_of self.old.lanes game)))) }
        ensures err { OnErr result (self.new ≡ self.old) }
    {
        self.list[game].answer_here(alloc, &mut self.pool, parts)
    }

    /// Completes a job that was out.
    fn complete_job(&mut self, job: JobName, out: Out, blocks: &mut Vec<Owned<CAP>>)
        requires game { job.game < length self.old.lanes }
        requires out { (worker : ℕ) × (is_out worker (lane_of self.old.lanes job.game) job.kind job.part ≡ true) }
        requires worked { out ≡ out_seen job.kind job.part (lane_view (lane_of self.old.lanes job.game)) (lane_command (lane_of self.old.lanes job.game)) }
        requires names { names_of (frames_in blocks.old.items) ≡ names_for self.old.storage job }
        requires holds { bytes_of (frames_in blocks.old.items) ≡ worked_bytes job.kind job.part (lane_view (lane_of self.old.lanes job.game)) (lane_command (lane_of self.old.lanes job.game)) }
        ensures { self.new ≡ games_completed CAP self.old job }
    {
        let game = job.game as usize;
        self.list[game].keeps();
        self.list[game].complete(&mut self.pool, job, out, blocks);
    }

    /// Whether the worker has the job out, and its ticket holds the core's input for it and the
    /// blocks that it was taken with.
    pub(crate) fn is_own(&self, worker: usize, done: &Done<CAP>) -> bool
        ensures { IsTrue result ↔ IsOwn self.now worker done.now }
    {
        let ticket = done.ticket();
        let game = ticket.job().game as usize;
        if game >= self.list.len() {
            return false;
        }
        self.list[game].is_own(worker, ticket)
    }

    /// Whether the done is of a Begin or a Join, and `is_own` holds of it.
    pub(crate) fn is_own_job(&self, worker: usize, done: &Done<CAP>) -> bool
        ensures { IsTrue result ↔ IsOwnJob self.now worker done.now }
    {
        done.ticket().job().kind != JobKind::Part && self.is_own(worker, done)
    }

    /// Completes a job of this core, and returns the contents of its ticket.
    pub(crate) fn complete(&mut self, done: Done<CAP>) -> Box<Contents<CAP>>
        requires { (worker : ℕ) × IsOwn self.old worker done }
        ensures { self.new ≡ games_completed CAP self.old done.entry.input.job }
    {
        let job = done.ticket().job();
        self.game(job.game as usize).keeps();
        let (ticket, out) = done.into_parts();
        let mut contents = ticket.into_contents();
        self.complete_job(job, out, &mut contents.frames);
        contents
    }

    /// Whether the done is of that part of that game's move, and `is_own` holds of it.
    fn is_own_part(&self, game: usize, part: usize, completed: &Option<Done<CAP>>) -> bool
        ensures { IsTrue result ↔ IsOwnPart self.now game part completed.now }
    {
        let Some(done) = completed else {
            return false;
        };
        let job = done.ticket().job();
        job.kind == JobKind::Part
            && job.game as usize == game
            && job.part as usize == part
            && self.is_own(done.ticket().worker() as usize, done)
    }

    /// Whether each done in the list is of the part with its index, in that game's move.
    fn are_own_parts_of(&self, game: usize, completed: &[Option<Done<CAP>>]) -> bool
        ensures { IsTrue result ↔ ((part : ℕ) → part < length completed.now → IsOwnPart self.now game part (slice_index_or completed.now part None)) }
    {
        for part in 0..completed.len() {
            if !self.is_own_part(game, part, &completed[part]) {
                return false;
            }
        }
        true
    }

    /// Whether these are all parts of one game's move, in part order.
    pub(crate) fn are_own_parts(&self, completed: &[Option<Done<CAP>>]) -> bool
        ensures { IsTrue result ↔ AreOwnParts self.now completed.now }
    {
        let Some(Some(first)) = completed.first() else {
            return false;
        };
        let game = first.ticket().job().game as usize;
        if game >= self.count_rows() {
            return false;
        }
        if self.game(game).count_parts() != completed.len() {
            return false;
        }
        self.are_own_parts_of(game, completed)
    }
}
