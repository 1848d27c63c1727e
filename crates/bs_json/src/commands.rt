//! The command of a line.
ghost use Rattle.std.specs.Prelude.{◌≡◌, codes, IfOk};
ghost use Rattle.serde_json.specs.View.{view};
ghost use Rattle.bs_json.specs.Commands.{command_for, command_of, word_at, word_named};
ghost use Rattle.bs_json.specs.Values.{number_at};

use crate::moves::orders_from;
use crate::setups::setup_from;
use crate::values::{number_at, text_at};
use bs_board::limits::LAST_TURN;
use bs_board::{Command, TurnNumber, Version, Word};
use serde_json::Value;
use std::alloc::{AllocError, Global};

fn turn_at(line: &Value) -> Option<TurnNumber>
    ensures { result ≡ number_at (codes "at") LAST_TURN (view line.now) }
{
    TurnNumber::new(number_at(line, "at", u32::from(LAST_TURN))? as u16)
}

fn word_named(word: &str) -> Option<Word>
    ensures { result ≡ word_named word.now }
{
    match word {
        "new" => Some(Word::New),
        "move" => Some(Word::Move),
        "show" => Some(Word::Show),
        "turn" => Some(Word::Turn),
        "free" => Some(Word::Free),
        "end" => Some(Word::End),
        _ => None,
    }
}

fn command_for(
    alloc: Global,
    version: Version,
    word: Word,
    line: &mut Value,
) -> Result<Option<Command>, AllocError>
    ensures { IfOk result (λ command. command ≡ command_for version word (view line.old)) }
{
    Ok(match word {
        Word::New => setup_from(alloc, version, line)?.map(Command::New),
        Word::Move => orders_from(alloc, version, line)?.map(Command::Move),
        Word::Show => Some(Command::Show),
        Word::Turn => turn_at(line).map(Command::Turn),
        Word::Free => Some(Command::Free),
        Word::End => Some(Command::End),
    })
}

fn word_at(line: &Value) -> Option<Word>
    ensures { result ≡ word_at (view line.now) }
{
    word_named(text_at(line, "do")?)
}

/// Reads the command of a line in a file of that version. `None` if `do` is missing or unknown, or
/// a member is missing, of the wrong type or out of range. Takes the parts of the command out of
/// the line.
#[tactic(auto, unfolding(crate::specs::Commands::command_of))]
pub fn command_of(
    alloc: Global,
    version: Version,
    line: &mut Value,
) -> Result<Option<Command>, AllocError>
    ensures { IfOk result (λ command. command ≡ command_of version (view line.old)) }
{
    match word_at(line) {
        Some(word) => command_for(alloc, version, word, line),
        None => Ok(None),
    }
}
