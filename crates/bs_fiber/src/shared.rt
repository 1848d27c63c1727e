//! A command that several owners share.
ghost use Rattle.std.specs.Prelude.{◌≡◌, IfOk, OnOk};
ghost use Rattle.bs_fiber.specs.Asking.{asked_turn};
ghost use Rattle.bs_fiber.specs.Bare.{is_bare};
ghost use Rattle.bs_game.specs.Reasons.{is_move};

use bs_board::{Command, TurnNumber};
use std::alloc::{AllocError, Global};
use std::marker::Model;
use std::sync::Arc;

/// A reference-counted command. The core, its journal and the tickets of its jobs share it.
/// Contracts see the command.
#[derive(Debug, Drop)]
pub struct SharedCommand {
    command: Arc<Command>,
}

impl Model for SharedCommand {
    ghost use Rattle.std.specs.Arc.{arc_value};
    ghost use Rattle.bs_board.specs.declared.commands.command.Command.{Command};

    ghost Value = { Command };

    ghost view = { λ s. arc_value s.command };
}

impl SharedCommand {
    /// Moves the command into a new allocation, with one handle to it.
    pub fn new(alloc: Global, command: Command) -> Result<SharedCommand, AllocError>
        ensures { IfOk result (λ shared. shared ≡ command) }
    {
        match Arc::new(alloc, command) {
            Ok(command) => Ok(SharedCommand { command }),
            Err(_) => Err(AllocError),
        }
    }

    /// Adds a handle without allocating. Fails if the number of handles would overflow.
    pub fn share(&self) -> Result<SharedCommand, AllocError>
        ensures { IfOk result (λ shared. shared ≡ self.now) }
    {
        Ok(SharedCommand {
            command: Arc::try_clone(&self.command)?,
        })
    }

    /// Whether the command has neither a setup nor moves. Equal commands of this kind are frequent.
    pub fn is_bare(&self) -> bool
        ensures { result ≡ is_bare self.now }
    {
        match self.get() {
            Command::New(_) => false,
            Command::Move(_) => false,
            Command::Show => true,
            Command::Turn(_) => true,
            Command::Free => true,
            Command::End => true,
            Command::Bad => true,
        }
    }

    /// Whether the command is a move.
    pub fn is_move(&self) -> bool
        ensures { result ≡ is_move self.now }
    {
        matches!(self.get(), Command::Move(_))
    }

    /// The turn that a `turn` command names.
    pub fn asked_turn(&self) -> Option<TurnNumber>
        ensures { result ≡ asked_turn self.now }
    {
        match self.get() {
            Command::New(_) => None,
            Command::Move(_) => None,
            Command::Show => None,
            Command::Turn(at) => Some(*at),
            Command::Free => None,
            Command::End => None,
            Command::Bad => None,
        }
    }

    /// Replaces this handle by one to that command. Keeps it if the two commands are equal and
    /// `is_bare` holds: comparing such commands takes less time than the atomic steps of making and
    /// dropping a handle.
    pub(crate) fn hold(&mut self, command: &SharedCommand) -> Result<(), AllocError>
        ensures { OnOk result (self.new ≡ command.now) }
    {
        if self.is_bare() && self.get().is_same(command.get()) {
            return Ok(());
        }
        *self = command.share()?;
        Ok(())
    }

    /// The command.
    pub fn get(&self) -> &Command
        ensures { result.now ≡ self.now }
    {
        &self.command
    }
}
