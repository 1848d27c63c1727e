//! Parses the commands that have neither a setup nor moves, as a few bytes: a `Command` has the size
//! of a setup.
ghost use Rattle.std.specs.Prelude.{◌≡◌, ◌≤◌, ◌++◌, [], codes, decimal, false, length, IsTrue, IfSome};
ghost use Rattle.bs_board.specs.declared.plans.version.Version.{Version as AnyVersion};
ghost use Rattle.bs_json.specs.declared.limits.TheConstants.{MAX_LINE};
ghost use Rattle.bs_json.specs.declared.line.Line.TheVariants as a_line;
ghost use Rattle.bs_json.specs.inner.Compact.{order_text, IsCompact, IsOrderText};
ghost use Rattle.bs_json.specs.Line.{line_of};
ghost use Rattle.bs_json.specs.declared.short.ShortCommand.TheVariants as a_short;
ghost use Rattle.bs_json.specs.Short.{command_of_short};

use crate::compact::{is_exactly, split_game};
use crate::limits::MAX_LINE;
use crate::name::Name;
use crate::numbers::split_number;
use bs_board::limits::LAST_TURN;
use bs_board::{Command, TurnNumber};

/// A command that has neither a setup nor moves.
#[derive(Clone, Copy, Debug)]
pub enum ShortCommand {
    Show,
    /// The board of an earlier turn.
    Turn(TurnNumber),
    Free,
    End,
}

impl ShortCommand {
    /// The command.
    #[inline(always)]
    pub fn command(self) -> Command
        ensures { result ≡ command_of_short self }
    {
        match self {
            ShortCommand::Show => Command::Show,
            ShortCommand::Turn(at) => Command::Turn(at),
            ShortCommand::Free => Command::Free,
            ShortCommand::End => Command::End,
        }
    }

    /// Whether it is the `turn` of that number.
    fn is_turn(&self, other: TurnNumber) -> bool
        ensures { IsTrue result → a_short.Turn other ≡ self.now }
    {
        match self {
            ShortCommand::Turn(at) => at.number() == other.number(),
            ShortCommand::Show => false,
            ShortCommand::Free => false,
            ShortCommand::End => false,
        }
    }

    /// Whether the command is this one.
    #[inline(always)]
    pub fn is(&self, command: &Command) -> bool
        ensures { IsTrue result → command.now ≡ command_of_short self.now }
    {
        match command {
            Command::Turn(at) => self.is_turn(*at),
            Command::Show => matches!(self, ShortCommand::Show),
            Command::Free => matches!(self, ShortCommand::Free),
            Command::End => matches!(self, ShortCommand::End),
            Command::New(_) => false,
            Command::Move(_) => false,
            Command::Bad => false,
        }
    }
}

/// A short command, and the name of its game.
#[derive(Debug, Drop)]
pub struct ShortLine<'l> {
    pub game: Name<'l>,
    pub command: ShortCommand,
}

/// Parses a `turn` from its number on.
fn parse_turn(line: &[u8]) -> Option<TurnNumber>
    ensures { IfSome result (λ at. line.now ≡ decimal at ++ codes "}") }
{
    let (number, rest) = split_number(line)?;
    if number > u32::from(LAST_TURN) || !is_exactly(rest, b"}") {
        return None;
    }
    TurnNumber::new(number as u16)
}

/// Parses a command that has no members.
fn parse_bare_order(order: &[u8]) -> Option<ShortCommand>
    ensures text { IfSome result (λ command. order.now ≡ order_text false [] (command_of_short command)) }
    ensures compact { IfSome result (λ command. (version : AnyVersion) → IsCompact version false [] (command_of_short command)) }
{
    if is_exactly(order, b"show\"}") {
        Some(ShortCommand::Show)
    } else if is_exactly(order, b"free\"}") {
        Some(ShortCommand::Free)
    } else if is_exactly(order, b"end\"}") {
        Some(ShortCommand::End)
    } else {
        None
    }
}

/// Parses a command without words, from its name on.
#[tactic(auto, using(crate::proofs::CutTexts::order_follows))]
pub(crate) fn parse_short_order(order: &[u8]) -> Option<ShortCommand>
    ensures { IfSome result (λ command. (version : AnyVersion) → IsOrderText version order.now false (command_of_short command)) }
{
    match order.split_first_chunk::<11>() {
        Some((b"turn\",\"at\":", at)) => Some(ShortCommand::Turn(parse_turn(at)?)),
        _ => parse_bare_order(order),
    }
}

/// Whether the line may be a short command: a compact move ends in two brackets.
#[inline(always)]
fn may_be_short(line: &[u8]) -> bool
    ensures { IsTrue result → length line.now ≤ MAX_LINE }
{
    let len = line.len();
    2 <= len && len <= MAX_LINE && line[len - 2] != b'}' && line[len - 2] != b']'
}

/// Parses a line in its compact form whose command has neither a setup nor moves, in a file of any
/// version; `None` for any other line.
#[tactic(auto, using(crate::proofs::CompactLines::line_of_short))]
#[inline(always)]
pub fn read_short<'l>(line: &'l [u8]) -> Option<ShortLine<'l>>
    ensures { IfSome result (λ found. (version : AnyVersion) → line_of version line.now ≡ a_line.Command found.game (command_of_short found.command)) }
{
    if !may_be_short(line) {
        return None;
    }
    let (name, order) = split_game(line)?;
    let command = parse_short_order(order)?;
    let game = Name::lent(name);
    Some(ShortLine { game, command })
}
