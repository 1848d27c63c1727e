//! The plane of one record's board, kept with that record.
ghost use Rattle.std.specs.Prelude.{◌≡◌, IfOk, IsTrue, Some};
ghost use Rattle.bs_board.specs.declared.commands.command.Command.TheVariants as command;
ghost use Rattle.bs_game.specs.declared.view.View.{View as AnyView};
ghost use Rattle.bs_game.specs.Law.{IsFitEffect};
ghost use Rattle.bs_game.specs.View.{answer_of};
ghost use Rattle.bs_plane.specs.Running.{IsRunningView};
ghost use Rattle.bs_plane.specs.inner.Cache.{IsKeyOf};

use crate::answering::answer_move;
use crate::stepper::Stepper;
use bs_board::{Move, Record};
use bs_game::{Answer, Effect};
use std::alloc::{AllocError, Global};
use std::marker::Model;

/// What is kept beside a game so that its next move is played from record to record. Clauses see
/// nothing of it: it changes no answer.
#[derive(Debug, Drop)]
pub struct PlaneCache {
    stepper: Stepper,
    /// The record that the stepper follows.
    key: Option<Record>,
}

impl Model for PlaneCache {
    ghost use Rattle.std.specs.Prelude.{IfSome};
    ghost use Rattle.bs_plane.specs.Following.{Follows};

    ghost Value = { Unit {0} };

    ghost view = { λ _. tt };

    ghost invariant = { λ c. IfSome c.key (Follows c.stepper) };
}

/// The record that an effect adds.
fn added_record(effect: &Effect) -> Result<Option<Record>, AllocError>
    ensures { IfOk result (λ added. IsKeyOf effect.now added) }
{
    match effect {
        Effect::Keep => Ok(None),
        Effect::Add(record) => Ok(Some(record.share()?)),
        Effect::Trim => Ok(None),
        Effect::Drop => Ok(None),
    }
}

/// Whether the key is that record.
fn is_key(key: &Option<Record>, last: &Record) -> bool
    ensures { IsTrue result → key.now ≡ Some last.now }
{
    match key {
        None => false,
        Some(key) => key.as_slice() == last.as_slice(),
    }
}

impl PlaneCache {
    /// One of no record.
    pub fn new(alloc: Global) -> PlaneCache {
        PlaneCache {
            stepper: Stepper::new(alloc),
            key: None,
        }
    }

    /// Answers a move in a game that runs, from the record of its last board.
    pub fn answer(
        &mut self,
        alloc: Global,
        last: &Record,
        orders: &Move,
        quota: u32,
        charge: u32,
    ) -> Result<Answer, AllocError>
        requires { (view : AnyView) × IsRunningView quota charge last.now view }
        ensures value { IfOk result (λ answer. (view : AnyView) → IsRunningView quota charge last.now view → answer ≡ answer_of view (command.Move orders.now)) }
        ensures fits { IfOk result (λ answer. IsFitEffect quota charge answer.effect) }
    {
        if !is_key(&self.key, last) {
            self.stepper.forget();
        }
        self.key = None;
        let answer = answer_move(alloc, &mut self.stepper, last, orders, quota, charge)?;
        self.key = added_record(&answer.effect)?;
        Ok(answer)
    }
}
