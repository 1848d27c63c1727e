//! The fiber of one game: its commands, its replies and its stage. Contracts see its lane without
//! the parts of a move.
ghost use Rattle.std.specs.Prelude.{◌≡◌, ◌+◌, ◌≤◌, ◌<◌, ℕ, true, false, length, MatchOption, option_map, IfSome, OnOk, OnErr};
ghost use Rattle.bs_board.specs.boards.Over.{is_over};
ghost use Rattle.bs_board.specs.declared.boards.board.Board.{Board as AnyBoard};
ghost use Rattle.bs_board.specs.records.Record.{record_of};
ghost use Rattle.bs_fiber.specs.Work.{parts_of};
ghost use Rattle.bs_game.specs.Answer.{Fits};
ghost use Rattle.bs_sched.specs.inner.LastBoards.{last_after};
ghost use Rattle.bs_sched.specs.inner.Turns.{AreMoveParts};

use crate::stage::Stage;
use bs_board::limits::{LAST_TURN, MOST_QUOTA};
use bs_board::{Command, KeptBoard, Record, Reply, Row};
use bs_fiber::{JobKind, SharedCommand};
use bs_game::{Answer, Effect};
use std::alloc::{AllocError, Global};
use std::marker::Model;

#[derive(Debug, Drop)]
pub(crate) struct Fiber {
    row: Row,
    /// The charge of the records when the stay left, if it has.
    left: Option<u32>,
    /// All queued commands. The first `begun` were taken.
    commands: Vec<SharedCommand>,
    begun: usize,
    replies: Vec<Reply>,
    stage: Stage,
    /// The newest board, if a game runs; for a stay that has left, its last board.
    last: Option<KeptBoard>,
}

impl Model for Fiber {
    ghost use Rattle.bs_sched.specs.Lane.{Lane};
    ghost use Rattle.bs_sched.specs.inner.Insides.{lane_in, IsFiber};

    ghost Value = { Lane };

    ghost view = { lane_in };

    ghost invariant = { IsFiber };
}

/// Does nothing. Gives the prover the limits of a command, which its types guarantee.
pub(crate) fn keeps_limits(command: &Command)
    ensures { Fits command.now }
{
    match command {
        Command::New(new) => {
            let _mode = new.mode;
        }
        Command::Move(orders) => orders.fits(),
        Command::Turn(at) => {
            let _number = at.number();
        }
        Command::Show => {}
        Command::Free => {}
        Command::End => {}
        Command::Bad => {}
    }
}

/// Applies an answer's effect to the newest board.
#[inline(always)]
fn change_last(last: &mut Option<KeptBoard>, effect: Effect)
    ensures { last.new ≡ last_after effect last.old }
{
    match effect {
        Effect::Keep => {}
        Effect::Add(record) => {
            let _bytes = record.as_slice();
            *last = Some(KeptBoard::of_record(record));
        }
        Effect::Trim => {}
        Effect::Drop => *last = None,
    }
}

/// The number of parts of a move on the board of the record, one for two seats; `None` if the game
/// is over.
fn parts_of_record(last: &Record) -> Option<usize>
    ensures value { (b : AnyBoard) → last.now ≡ record_of b → MatchOption result (is_over b ≡ true) (λ parts. parts ≡ parts_of (length b.snakes)) }
    ensures runs { (b : AnyBoard) → last.now ≡ record_of b → IfSome result (λ parts. is_over b ≡ false) }
    ensures few { IfSome result (λ parts. (1 ≤ parts) × (parts ≤ 4)) }
{
    if last.is_over() {
        return None;
    }
    let _bytes = last.as_slice();
    Some((last.seats() + 1) / 2)
}

/// The number of parts of a move on the board of the record; 0 if the move is refused there.
fn parts_on(last: &Record) -> usize
    ensures value { (b : AnyBoard) → last.now ≡ record_of b → AreMoveParts b result }
    ensures few { result ≤ 4 }
{
    match parts_of_record(last) {
        None => 0,
        Some(parts) => if last.turn() >= LAST_TURN { 0 } else { parts },
    }
}

impl Fiber {
    ghost use Rattle.std.specs.Prelude.{[], ◌++◌, ◌∷◌, nat_eq, take, drop, map, Option, slice_get};
    ghost use Rattle.bs_fiber.specs.declared.job.JobKind.TheVariants as kind;
    ghost use Rattle.bs_fiber.specs.Work.{parts_of, snakes_in};
    ghost use Rattle.bs_game.specs.Game.{game_charge, last_board};
    ghost use Rattle.bs_sched.specs.Answering.{AreNextParts};
    ghost use Rattle.bs_sched.specs.Lane.{empty_lane, closed_lane, no_lane, with_waiting, with_taken, with_put, answered, is_ready, is_out, occupies, lane_command, lane_outcome, goes_on, is_idle, is_in_parts, is_quiet};
    ghost use Rattle.bs_sched.specs.inner.Lane.{HasNoneReady};
    ghost use Rattle.bs_sched.specs.inner.Insides.{IsRightWithParts};
    ghost use Rattle.bs_sched.specs.declared.stage.Stage.TheVariants as stage;

    /// The fiber of a game with no command.
    pub(crate) fn new(alloc: Global, row: Row) -> Fiber
        requires { row.quota ≤ MOST_QUOTA }
        ensures { result ≡ empty_lane row }
    {
        Fiber {
            row,
            left: None,
            commands: Vec::new(alloc),
            begun: 0,
            replies: Vec::new(alloc),
            stage: Stage::Idle,
            last: None,
        }
    }

    /// Closes the stay. It takes no more commands.
    pub(crate) fn close(&mut self, charge: u32)
        requires quiet { is_quiet self.old ≡ true }
        requires charge { charge ≡ game_charge self.old.game }
        ensures { self.new ≡ closed_lane self.old }
    {
        self.left = Some(charge);
    }

    /// Whether the stay is open.
    pub(crate) fn is_open(&self) -> bool
        ensures { result ≡ self.now.is_open }
    {
        self.left.is_none()
    }

    /// The charge of the records when the stay left, if it has.
    pub(crate) fn last_charge(&self) -> Option<u32>
        ensures { MatchOption result (self.now.is_open ≡ true) (λ charge. charge ≡ game_charge self.now.game) }
    {
        self.left
    }

    /// The newest board, if a game runs; for a stay that has left, its last board.
    pub(crate) fn last(&self) -> Option<&KeptBoard>
        ensures { option_map (λ kept. kept.now) result ≡ last_board self.now.game }
    {
        self.last.as_ref()
    }

    /// The record of that board.
    pub(crate) fn last_record(&self) -> Option<&Record>
        ensures { option_map (λ kept. kept.now) result ≡ option_map record_of (last_board self.now.game) }
    {
        match &self.last {
            None => None,
            Some(last) => Some(last.shared()),
        }
    }

    /// The number of parts of a move on that board; `None` if no game runs or it is over.
    pub(crate) fn parts_of_move(&self) -> Option<usize>
        ensures value { MatchOption result
            (IfSome (last_board self.now.game) (λ board. is_over board ≡ true))
            (λ parts. parts ≡ parts_of (length (snakes_in (last_board self.now.game)))) }
        ensures few { IfSome result (λ parts. (1 ≤ parts) × (parts ≤ 4)) }
    {
        match self.last_record() {
            None => None,
            Some(last) => parts_of_record(last),
        }
    }

    /// The name and the quota.
    pub(crate) fn row(&self) -> &Row
        ensures { result.now ≡ self.now.row }
    {
        &self.row
    }

    /// Queues a command.
    pub(crate) fn hand(&mut self, command: SharedCommand) -> Result<(), AllocError>
        requires { self.old.is_open ≡ true }
        ensures ok { OnOk result (self.new ≡ with_waiting command self.old) }
        ensures err { OnErr result (self.new ≡ self.old) }
    {
        keeps_limits(command.get());
        self.commands.push(command)?;
        Ok(())
    }

    /// Begins the first waiting command for the worker. Makes room for the reply first.
    pub(crate) fn begin(&mut self, worker: usize) -> Result<(), AllocError>
        requires { is_ready self.old kind.Begin 0 ≡ true }
        ensures ok { OnOk result (self.new ≡ with_taken worker kind.Begin 0 self.old) }
        ensures err { OnErr result (self.new ≡ self.old) }
    {
        self.replies.reserve(1)?;
        self.begun += 1;
        self.stage = Stage::Begin(worker);
        Ok(())
    }

    /// Takes the Join for the worker. Makes room for the reply first.
    pub(crate) fn join(&mut self, worker: usize) -> Result<(), AllocError>
        requires { is_ready self.old kind.Join 0 ≡ true }
        ensures ok { OnOk result (self.new ≡ with_taken worker kind.Join 0 self.old) }
        ensures err { OnErr result (self.new ≡ self.old) }
    {
        self.replies.reserve(1)?;
        self.stage = Stage::Join(Some(worker));
        Ok(())
    }

    /// Starts the move.
    pub(crate) fn fork(&mut self)
        requires begun { (worker : ℕ) × (is_out worker self.old kind.Begin 0 ≡ true) }
        requires goes { goes_on self.old ≡ true }
        ensures { self.new ≡ record self.old { stage = stage.Parts } }
    {
        self.stage = Stage::Parts;
    }

    /// Makes the Join ready. All parts of the move are completed.
    pub(crate) fn end_parts(&mut self)
        requires { is_in_parts self.old.stage ≡ true }
        ensures { self.new ≡ record self.old { stage = stage.Join None } }
    {
        self.stage = Stage::Join(None);
    }

    /// Appends the reply, keeps the newest board and ends the command.
    #[inline(always)]
    pub(crate) fn answer(&mut self, answer: Answer)
        requires out { (worker : ℕ) × (occupies worker self.old ≡ true) }
        requires reply { answer.reply ≡ (lane_outcome self.old).reply }
        requires last { last_after answer.effect (last_board self.old.game) ≡ last_board (lane_outcome self.old).game }
        ensures { self.new ≡ answered self.old }
    {
        let Answer { reply, effect } = answer;
        self.replies.push_reserved(reply);
        change_last(&mut self.last, effect);
        self.stage = Stage::Idle;
    }

    /// Recalls for the prover that the replies and the boards are those of the answered commands.
    pub(crate) fn keeps(&self)
        ensures { IsRightWithParts self.now }
    {
        let _begun = self.begun;
    }

    /// The commands that were taken.
    pub(crate) fn taken(&self) -> &[SharedCommand]
        ensures { result.now ≡ self.now.taken }
    {
        &self.commands.as_slice()[..self.begun]
    }

    /// The command that is taken next.
    pub(crate) fn next(&self) -> &SharedCommand
        requires { 0 < length self.now.waiting }
        ensures { result.now ≡ lane_command (with_taken 0 kind.Begin 0 self.now) }
    {
        &self.commands[self.begun]
    }

    /// The command that is being answered.
    pub(crate) fn command(&self) -> &SharedCommand
        requires { is_idle self.now.stage ≡ false }
        ensures { result.now ≡ lane_command self.now }
    {
        &self.commands[self.begun - 1]
    }

    /// The number of commands taken, which is the number of the newest one, counted from 1.
    pub(crate) fn seq(&self) -> u64
        ensures { result ≡ length self.now.taken }
    {
        self.begun as u64
    }

    /// The number of the command that is taken next, from 1.
    pub(crate) fn next_seq(&self) -> u64
        requires { 0 < length self.now.waiting }
        ensures { result ≡ length self.now.taken + 1 }
    {
        self.begun as u64 + 1
    }

    pub(crate) fn replies(&self) -> &[Reply]
        ensures { result.now ≡ self.now.replies }
    {
        self.replies.as_slice()
    }

    pub(crate) fn quota(&self) -> u32
        ensures { result ≡ self.now.row.quota }
    {
        self.row.quota
    }

    /// Whether all commands are answered.
    pub(crate) fn is_quiet(&self) -> bool
        ensures { result ≡ is_quiet self.now }
    {
        self.stage == Stage::Idle && self.begun == self.commands.len()
    }

    /// The number of parts that the next command will have: 0 unless it is a move that is not
    /// refused before its board is known.
    pub(crate) fn next_parts(&self) -> usize
        requires { 0 < length self.now.waiting }
        ensures { AreNextParts self.now result }
    {
        if !self.next().is_move() {
            return 0;
        }
        match self.last_record() {
            None => 0,
            Some(last) => parts_on(last),
        }
    }

    /// Whether some part of the move is not completed.
    pub(crate) fn is_in_parts(&self) -> bool
        ensures { result ≡ is_in_parts self.now.stage }
    {
        self.stage == Stage::Parts
    }

    /// Whether the worker has that Begin or Join out; `false` for a part.
    pub(crate) fn has_out(&self, worker: usize, kind: JobKind, part: u8) -> bool
        ensures { result ≡ is_out worker self.now kind part }
    {
        match (kind, self.stage) {
            (JobKind::Begin, Stage::Begin(handle)) => part == 0 && handle == worker,
            (JobKind::Join, Stage::Join(Some(handle))) => part == 0 && handle == worker,
            _ => false,
        }
    }

    /// Whether the worker has the Begin or the Join out.
    pub(crate) fn occupies(&self, worker: usize) -> bool
        ensures { result ≡ occupies worker self.now }
    {
        match self.stage {
            Stage::Begin(taker) => taker == worker,
            Stage::Join(Some(taker)) => taker == worker,
            _ => false,
        }
    }

    /// The Begin or the Join if it is ready.
    pub(crate) fn ready(&self) -> Option<JobKind>
        ensures { MatchOption result (HasNoneReady self.now) (λ job. is_ready self.now job 0 ≡ true) }
    {
        match self.stage {
            Stage::Idle => {
                if self.begun < self.commands.len() {
                    Some(JobKind::Begin)
                } else {
                    None
                }
            }
            Stage::Begin(_) => None,
            Stage::Parts => None,
            Stage::Join(None) => Some(JobKind::Join),
            Stage::Join(Some(_)) => None,
        }
    }
}
