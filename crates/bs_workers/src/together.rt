//! The player of one row: it answers each command where it is, or has threads run the parts of a
//! move.
ghost use Rattle.std.specs.Prelude.{◌≡◌, ◌≤◌, IfErr, OnOk};
ghost use Rattle.bs_sched.specs.Answering.{CanAnswer};
ghost use Rattle.bs_workers.specs.inner.Apart.{GoesOn};
ghost use Rattle.bs_workers.specs.inner.Stops.{IsStopCause};

use crate::alone::Alone;
use crate::fault::Run;
use crate::gate::Gate;
use crate::sharing::is_shared;
use crate::stop::Stop;
use crate::team::Team;
use bs_sched::NextCommand;
use std::thread::Threads;

/// The core of one row, and the threads that play it. If there are several, the caller's is number
/// 0.
#[derive(Drop)]
pub(crate) struct Together<'a, const CAP: usize, R, G> {
    pub(crate) rt: &'a R,
    pub(crate) alone: Alone<'a, CAP, G>,
    /// How many threads there are, the caller's included.
    pub(crate) threads: usize,
    /// How many games were begun that have made a move.
    pub(crate) games: u64,
}

impl<const CAP: usize, R: Threads + Sync, G: Gate> Together<'_, CAP, R, G> {
    /// The turn of the newest board of that row; 0 if there is none.
    fn turn_of(&self, row: usize) -> u16 {
        if row >= self.alone.core.rows() {
            return 0;
        }
        match self.alone.core.last(row) {
            Some(last) => last.shared().turn(),
            None => 0,
        }
    }

    /// Whether that command, the next one, is a move that threads share.
    fn is_shared(&self, next: NextCommand) -> bool {
        self.threads > 1
            && next.parts > 1
            && is_shared(self.games, self.turn_of(next.game as usize))
    }

    /// The number of games that were begun, with the one whose first move the command is.
    fn games_with(&self, next: NextCommand) -> u64 {
        if self.threads > 1 && next.parts > 0 && self.turn_of(next.game as usize) == 0 {
            self.games.saturating_add(1)
        } else {
            self.games
        }
    }

    /// Answers a move of that many parts, which the threads run.
    fn share(&mut self, parts: usize) -> Result<(), Stop>
        ensures made { OnOk result (GoesOn self.old.alone.core self.new.alone.core) }
        ensures worker { self.new.alone.worker ≡ self.old.alone.worker }
        ensures gate { self.new.alone.gate ≡ self.old.alone.gate }
        ensures cause { IfErr result (IsStopCause (G.may_refuse self.old.alone.gate.now)) }
    {
        let team = Team {
            rt: self.rt,
            alloc: self.alone.alloc,
            gate: self.alone.gate,
            row: self.alone.first,
            threads: self.threads,
        };
        team.answer(&mut self.alone.core, parts)?;
        Ok(())
    }

    /// Answers that next command where it is.
    #[inline(always)]
    fn answer_here(&mut self, next: NextCommand) -> Result<(), Stop>
        requires { CanAnswer self.old.alone.core self.old.alone.worker next.game next.parts }
        ensures made { OnOk result (GoesOn self.old.alone.core self.new.alone.core) }
        ensures worker { self.new.alone.worker ≡ self.old.alone.worker }
        ensures gate { self.new.alone.gate ≡ self.old.alone.gate }
        ensures cause { IfErr result (IsStopCause (G.may_refuse self.old.alone.gate.now)) }
    {
        match self.alone.answer(next) {
            Ok(()) => Ok(()),
            Err(Run::Memory) => Err(Stop::Memory),
            Err(Run::Broken) => Err(Stop::Refused),
        }
    }

    /// Answers the next command. Returns false if there is none.
    #[tactic(auto, using(crate::proofs::GoneOn::goes_on_none))]
    fn step(&mut self) -> Result<bool, Stop>
        requires { self.old.alone.worker ≤ self.old.alone.core.games.workers }
        ensures made { OnOk result (GoesOn self.old.alone.core self.new.alone.core) }
        ensures worker { self.new.alone.worker ≡ self.old.alone.worker }
        ensures gate { self.new.alone.gate ≡ self.old.alone.gate }
        ensures cause { IfErr result (IsStopCause (G.may_refuse self.old.alone.gate.now)) }
    {
        let Some(next) = self.alone.core.next_command(self.alone.worker) else {
            return Ok(false);
        };
        self.games = self.games_with(next);
        if self.is_shared(next) {
            self.share(next.parts as usize)?;
        } else {
            self.answer_here(next)?;
        }
        Ok(true)
    }

    /// Answers the commands that are queued, of which there are at most that many.
    #[tactic(auto, using(crate::proofs::GoneOn::goes_on_none, crate::proofs::GoneOn::goes_on_both))]
    pub(crate) fn answer_all(&mut self, commands: usize) -> Result<(), Stop>
        requires { self.old.alone.worker ≤ self.old.alone.core.games.workers }
        ensures made { OnOk result (GoesOn self.old.alone.core self.new.alone.core) }
        ensures cause { IfErr result (IsStopCause (G.may_refuse self.old.alone.gate.now)) }
    {
        for _ in 0..commands {
            if !self.step()? {
                break;
            }
        }
        Ok(())
    }
}
