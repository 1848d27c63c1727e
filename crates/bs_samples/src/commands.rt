//! Setups, moves and commands.
ghost use Rattle.std.specs.Prelude.{◌≡◌, []};
ghost use Rattle.bs_board.specs.commands.Orders.{orders_of};

use crate::boards::{Parts, cells};
use crate::check::holds;
use bs_board::limits::MOST_WORDS;
use bs_board::{Cells, Command, Direction, Id, Mode, Move, Moves, New, Point, Starts, Words};
use std::alloc::{AllocError, Global};
use std::test::Fail;

/// Names, each with a column and a row.
pub type Places<'a> = &'a [(&'a str, i16, i16)];

/// Makes the snakes of a `new`, in that order.
pub fn starts(alloc: Global, places: Places) -> Result<Starts, AllocError> {
    let mut starts = Vec::new(alloc);
    for &(name, x, y) in places {
        starts.push((Id::from_str(alloc, name)?, Point { x, y }))?;
    }
    Ok(Starts::from_vec(starts))
}

/// Makes a setup on a square board on which no food spawns. `None` if it breaks a limit.
pub fn setup(
    alloc: Global,
    mode: Mode,
    side: u8,
    places: Places,
    food: Parts,
) -> Result<Option<New>, AllocError> {
    let starts = starts(alloc, places)?;
    Ok(New::new(mode, side, side, starts, cells(alloc, food)?, 0, 0))
}

/// Makes a `new` of the snake `s` alone at (1, 1).
pub fn new_solo(alloc: Global, side: u8) -> Result<Command, Fail> {
    let new = setup(alloc, Mode::Solo, side, &[("s", 1, 1)], &[])?;
    Ok(Command::New(new.ok_or("a setup")?))
}

/// Makes a `new` of three snakes, whose moves have two parts. The first snake starts below the only
/// food.
pub fn new_of_three(alloc: Global) -> Result<Command, Fail> {
    let places = [("s", 1, 1), ("t", 5, 1), ("u", 3, 5)];
    let new = setup(alloc, Mode::Standard, 7, &places, &[(1, 2)])?;
    Ok(Command::New(new.ok_or("a setup")?))
}

/// Makes a move without directions and without words for food.
pub fn no_orders(alloc: Global) -> Move
    ensures { result ≡ orders_of [] [] }
{
    Move::new(Moves::new(alloc), Words::from_vec(Vec::new(alloc)))
}

/// Makes a `move` in which each snake goes straight on.
pub fn straight_on(alloc: Global) -> Command {
    Command::Move(no_orders(alloc))
}

/// Makes a move with these directions, in the order of their names, and these words for food.
pub fn orders(
    alloc: Global,
    directions: &[(&str, Direction)],
    words: &[u32],
) -> Result<Move, Fail> {
    let mut moves = Moves::new(alloc);
    for &(name, direction) in directions {
        moves.push(Id::from_str(alloc, name)?.as_bytes(), direction)?;
    }
    holds("names in their order", moves.is_ascending())?;
    holds("few words", words.len() <= MOST_WORDS)?;
    let words = Vec::from_slice(alloc, words)?;
    Ok(Move::new(moves, Words::from_vec(words)))
}

/// Makes a `move` of the third snake of `new_of_three`; the others go straight on.
pub fn third_goes(alloc: Global, direction: Direction) -> Result<Command, Fail> {
    Ok(Command::Move(orders(alloc, &[("u", direction)], &[])?))
}
