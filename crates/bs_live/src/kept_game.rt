//! A game as the records of its boards, in a pool of its own.
ghost use Rattle.std.specs.Prelude.{ℕ, List, IsTrue, Option, ◌≡◌, ◌<◌, ◌≤◌, [], length, option_copied, option_map, slice_get, slice_index_or, is_some, true, IfOk, IfSome, OnOk, OnErr, Some};
ghost use Rattle.bs_block.specs.Bytes.{IsCapacity};
ghost use Rattle.bs_board.specs.boards.Legal.{IsLegal};
ghost use Rattle.bs_board.specs.declared.boards.board.Board.{Board as AnyBoard};
ghost use Rattle.bs_board.specs.declared.commands.command.Command.TheVariants as command;
ghost use Rattle.bs_board.specs.declared.limits.TheConstants.{MOST_QUOTA};
ghost use Rattle.bs_board.specs.records.Kept.{IsLegalRecord};
ghost use Rattle.bs_board.specs.records.Record.{record_of};
ghost use Rattle.bs_game.specs.Answer.{Fits, answer_to, asked_board, view_of_game};
ghost use Rattle.bs_game.specs.Game.{board_of_turn, game_charge, last_board};
ghost use Rattle.bs_game.specs.Law.{IsFitEffect, effected};
ghost use Rattle.bs_game.specs.View.{IsFitView};
ghost use Rattle.bs_heap.specs.Charge.{blocks_for, charge_of};
ghost use Rattle.bs_heap.specs.Heap.{empty_heap};
ghost use Rattle.bs_heap.specs.HeldBlocks.{IsKeptIn};
ghost use Rattle.bs_heap.specs.declared.heap.TheConstants.{MOST_RECORD_BYTES};
ghost use Rattle.bs_pool.specs.Ledger.{opened, reserved, size, with_reservation};
ghost use Rattle.bs_live.specs.inner.Game.{game_after, newest_record, no_game};

use bs_board::{Board, Command, KeptBoard, Move, Record, Reply, TurnNumber};
use bs_game::{Answer, Effect, View, answer, place_of_turn};
use bs_heap::{MOST_RECORD_BYTES, TagHeap, blocks_for};
use bs_plane::PlaneCache;
use bs_pool::{Pool, Reserve};
use std::alloc::{AllocError, Global};
use std::marker::Model;

/// The only tag in such a pool.
const TAG: u32 = 0;

/// A game as the records of its kept boards, within a quota, in a pool of its own. Its memory is
/// that of the pool's blocks and of one entry for each kept record.
#[derive(Drop)]
pub struct KeptGame<const CAP: usize> {
    quota: u32,
    heap: TagHeap<CAP>,
    pool: Pool<CAP>,
    /// The newest record, once more.
    last: Option<Record>,
    planes: PlaneCache,
}

impl<const CAP: usize> Model for KeptGame<CAP> {
    ghost use Rattle.bs_live.specs.Game.{KeptBoards};
    ghost use Rattle.bs_live.specs.inner.Game.{IsKept, kept_in};

    ghost Value = { KeptBoards };

    ghost view = { λ k. kept_in k };

    ghost invariant = { λ k. IsKept CAP k };
}

/// Does nothing. Gives the prover the limits of a command, which its types guarantee.
fn keeps_limits(command: &Command)
    ensures { Fits command.now }
{
    match command {
        Command::New(new) => {
            let _mode = new.mode;
        }
        Command::Move(orders) => orders.fits(),
        Command::Turn(at) => {
            let _number = at.number();
        }
        Command::Show => {}
        Command::Free => {}
        Command::End => {}
        Command::Bad => {}
    }
}

/// Opens a pool of `blocks` blocks, and reserves those that records within the quota can need.
#[tactic(auto, using(crate::proofs::Blocks::all_unreserved))]
fn open_pool<const CAP: usize>(
    alloc: Global,
    quota: u32,
    blocks: usize,
) -> Result<Pool<CAP>, AllocError>
    requires capacity { IsCapacity CAP }
    requires wide { MOST_RECORD_BYTES < CAP }
    requires room { blocks_for CAP quota ≤ blocks }
    ensures { IfOk result (λ pool. pool ≡ with_reservation 0 (blocks_for CAP quota) (opened blocks)) }
{
    let mut pool = Pool::open(alloc, blocks)?;
    match pool.reserve(TAG, blocks_for(CAP, quota)) {
        Ok(()) => Ok(pool),
        Err(Reserve::Memory) => Err(AllocError),
        Err(Reserve::TagTaken) => unreachable!(),
        Err(Reserve::Short { .. }) => unreachable!(),
    }
}

/// Decodes the board of a record.
fn decoded(alloc: Global, bytes: Option<&[u8]>) -> Result<Option<Board>, AllocError>
    requires { IfSome (option_copied bytes) IsLegalRecord }
    ensures { (board : Option AnyBoard) → IfSome board IsLegal → option_copied bytes.entry ≡ option_map record_of board
        → IfOk result (λ decoded. decoded ≡ board) }
{
    match bytes {
        None => Ok(None),
        Some(bytes) => Ok(Some(Record::of_bytes(alloc, bytes)?.board(alloc)?)),
    }
}

/// Applies an answer's effect to the records.
#[tactic(auto, using(crate::proofs::Boards::record_is_small, crate::proofs::Blocks::given_size))]
fn change_records<const CAP: usize>(heap: &mut TagHeap<CAP>, pool: &mut Pool<CAP>, effect: &Effect)
    requires room { 0 < heap.old.index_room }
    requires blocks { blocks_for CAP heap.old.quota ≤ reserved heap.old.tag pool.old }
    requires held { IsKeptIn heap.old pool.old }
    requires fits { IsFitEffect heap.old.quota (charge_of heap.old.records) effect.now }
    ensures records { heap.new.records ≡ effected effect.now heap.old.records }
    ensures tag { heap.new.tag ≡ heap.old.tag }
    ensures quota { heap.new.quota ≡ heap.old.quota }
    ensures held { IsKeptIn heap.new pool.new }
    ensures size { size pool.new ≡ size pool.old }
    ensures reservations { pool.new.reservations ≡ pool.old.reservations }
{
    match effect {
        Effect::Keep => {}
        Effect::Add(record) => heap.add(pool, record.as_slice()).unwrap(),
        Effect::Trim => heap.keep_last(pool),
        Effect::Drop => heap.free(pool),
    }
}

/// The newest record after an effect.
#[tactic(auto, using(crate::proofs::Newest::newest_added, crate::proofs::Newest::newest_trimmed))]
fn renew(last: &mut Option<Record>, effect: Effect)
    ensures { (records : List (List ℕ)) → last.old ≡ newest_record records → last.new ≡ newest_record (effected effect records) }
{
    match effect {
        Effect::Keep => {}
        Effect::Add(record) => *last = Some(record),
        Effect::Trim => {}
        Effect::Drop => *last = None,
    }
}

impl<const CAP: usize> KeptGame<CAP> {
    /// Makes a game without boards, with a pool of `blocks` blocks.
    pub(crate) fn new(alloc: Global, quota: u32, blocks: usize) -> Result<Self, AllocError>
        requires capacity { IsCapacity CAP }
        requires wide { MOST_RECORD_BYTES < CAP }
        requires small { quota ≤ MOST_QUOTA }
        requires room { blocks_for CAP quota ≤ blocks }
        ensures { IfOk result (λ game. game ≡ no_game quota blocks) }
    {
        Ok(KeptGame {
            quota,
            heap: TagHeap::new(alloc, TAG, quota)?,
            pool: open_pool(alloc, quota, blocks)?,
            last: None,
            planes: PlaneCache::new(alloc),
        })
    }

    /// The charge of the kept records.
    pub(crate) fn charge(&self) -> u32
        ensures value { result ≡ game_charge self.now.game }
        ensures within { result ≤ self.now.quota }
    {
        self.heap.charge()
    }

    /// The record of the newest board, if a game runs.
    #[tactic(auto, using(crate::proofs::Boards::last_there, crate::proofs::Boards::last_gone, crate::proofs::Boards::last_is_legal))]
    fn last_record(&self) -> Option<&[u8]>
        ensures record { option_copied result ≡ option_map record_of (last_board self.now.game) }
        ensures legal { IfSome (last_board self.now.game) IsLegal }
    {
        match self.heap.count() {
            0 => None,
            count => Some(self.heap.record(count - 1)),
        }
    }

    /// The newest board, if a game runs.
    pub(crate) fn last(&self, alloc: Global) -> Result<Option<KeptBoard>, AllocError>
        ensures { IfOk result (λ board. board ≡ last_board self.now.game) }
    {
        match self.last_record() {
            None => Ok(None),
            Some(bytes) => Ok(Some(KeptBoard::of_record(Record::of_bytes(alloc, bytes)?))),
        }
    }

    /// The record of the board of that turn, if it is kept. `last` is the newest board.
    #[tactic(auto, using(crate::proofs::Boards::few_kept, crate::proofs::Boards::turn_there, crate::proofs::Boards::turn_gone))]
    fn record_of_turn(&self, last: &Board, at: TurnNumber) -> Option<&[u8]>
        requires { last_board self.now.game ≡ Some last.now }
        ensures { option_copied result ≡ option_map record_of (board_of_turn at self.now.game) }
    {
        match place_of_turn(self.heap.count(), last.turn, at) {
            None => None,
            Some(place) => Some(self.heap.record(place)),
        }
    }

    /// The record of the turn that the command names, if it names one that is kept.
    #[tactic(auto, using(crate::proofs::Boards::no_turn))]
    fn asked_record(&self, last: &Option<Board>, command: &Command) -> Option<&[u8]>
        requires { last.now ≡ last_board self.now.game }
        ensures { option_copied result ≡ option_map record_of (asked_board command.now self.now.game) }
    {
        match command {
            Command::Turn(at) => match last {
                Some(last) => self.record_of_turn(last, *at),
                None => None,
            },
            _ => None,
        }
    }

    /// Decodes what the answer to that command reads.
    fn view(&self, alloc: Global, command: &Command) -> Result<View, AllocError>
        ensures value { IfOk result (λ view. view ≡ view_of_game self.now.quota self.now.game command.now) }
        ensures fit { IfOk result IsFitView }
    {
        let quota = self.quota;
        let charge = self.charge();
        let kept = self.heap.count();
        let last = decoded(alloc, self.last_record())?;
        let asked = decoded(alloc, self.asked_record(&last, command))?;
        Ok(View {
            quota,
            charge,
            kept,
            last,
            asked,
        })
    }

    /// Answers a move in a game that runs, from the newest record, and changes the records.
    fn answer_move(&mut self, alloc: Global, orders: &Move) -> Result<Reply, AllocError>
        requires { is_some (last_board self.old.game) ≡ true }
        ensures reply { IfOk result (λ reply. reply ≡ (answer_to self.old.quota self.old.game (command.Move orders.now)).reply) }
        ensures game { OnOk result (self.new ≡ game_after (command.Move orders.now) self.old) }
        ensures err { OnErr result (self.new ≡ self.old) }
    {
        orders.fits();
        let charge = self.charge();
        self.heap.grow_index()?;
        match &self.last {
            None => unreachable!(),
            Some(last) => {
                let answer = self.planes.answer(alloc, last, orders, self.quota, charge)?;
                let Answer { reply, effect } = answer;
                change_records(&mut self.heap, &mut self.pool, &effect);
                renew(&mut self.last, effect);
                Ok(reply)
            }
        }
    }

    /// Answers a command from the decoded boards, and changes the records.
    fn answer_decoded(&mut self, alloc: Global, command: &Command) -> Result<Reply, AllocError>
        ensures reply { IfOk result (λ reply. reply ≡ (answer_to self.old.quota self.old.game command.now).reply) }
        ensures game { OnOk result (self.new ≡ game_after command.now self.old) }
        ensures err { OnErr result (self.new ≡ self.old) }
    {
        keeps_limits(command);
        let view = self.view(alloc, command)?;
        let answer = answer(alloc, &view, command)?;
        self.heap.grow_index()?;
        let Answer { reply, effect } = answer;
        change_records(&mut self.heap, &mut self.pool, &effect);
        renew(&mut self.last, effect);
        Ok(reply)
    }

    /// Answers a command and changes the records. After an error the game is unchanged.
    pub(crate) fn answer(&mut self, alloc: Global, command: &Command) -> Result<Reply, AllocError>
        ensures reply { IfOk result (λ reply. reply ≡ (answer_to self.old.quota self.old.game command.now).reply) }
        ensures game { OnOk result (self.new ≡ game_after command.now self.old) }
        ensures err { OnErr result (self.new ≡ self.old) }
    {
        match command {
            Command::Move(orders) if self.last.is_some() => self.answer_move(alloc, orders),
            _ => self.answer_decoded(alloc, command),
        }
    }
}
