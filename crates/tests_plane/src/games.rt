//! Turns over a plane, compared with turns of the decoded board.
ghost use Rattle.std.specs.Prelude.{◌≡◌, IfOk, OnOk};
ghost use Rattle.bs_board.specs.boards.Legal.{IsLegal};
ghost use Rattle.bs_board.specs.records.Record.{record_of};
ghost use Rattle.bs_plane.specs.Following.{Follows};

use crate::boards::{laid, setup};
use crate::draws::Draws;
use crate::orders::orders;
use bs_board::limits::LAST_TURN;
use bs_board::{Board, Move, Point, Record, is_legal};
use bs_modes::{over, start};
use bs_plane::Stepper;
use bs_rules::turn;
use bs_samples::{Parts, holds, same, solo};
use std::alloc::{AllocError, Global};
use std::marker::Model;
use std::test::Fail;

/// The number of turns, of those over the plane, and of those of them whose move gives food.
#[derive(Clone, Copy)]
struct Counts {
    turns: u32,
    stepped: u32,
    fed: u32,
}

impl Counts {
    fn count(&mut self, stepped: bool, orders: &Move) {
        self.turns = self.turns.wrapping_add(1);
        self.stepped = self.stepped.wrapping_add(u32::from(stepped));
        let fed = stepped && orders.food.is_some();
        self.fed = self.fed.wrapping_add(u32::from(fed));
    }
}

/// A stepper that is that of the board, where it can be.
#[tactic(auto, using(crate::proofs::Loaded::loaded_follows))]
pub fn loaded(alloc: Global, board: &Board) -> Result<Stepper, AllocError>
    requires { IsLegal board.now }
    ensures { IfOk result (λ stepper. Follows stepper (record_of board.now)) }
{
    let mut stepper = Stepper::new(alloc);
    stepper.load(board)?;
    Ok(stepper)
}

/// A game: its last board, that board's record, and the stepper that follows it.
#[derive(Drop)]
struct Played {
    board: Board,
    last: Record,
    stepper: Stepper,
}

impl Model for Played {
    ghost Value = { Unit {0} };

    ghost view = { λ _. tt };

    ghost invariant = { λ p. IsLegal p.board × (p.last ≡ record_of p.board) × Follows p.stepper p.last };
}

/// A game whose last board is this one.
fn begun(alloc: Global, board: Board) -> Result<Played, AllocError>
    requires { IsLegal board }
{
    let last = Record::of(alloc, &board)?;
    let stepper = loaded(alloc, &board)?;
    Ok(Played {
        board,
        last,
        stepper,
    })
}

/// Makes the stepper that of the board.
#[tactic(auto, using(crate::proofs::Loaded::loaded_follows))]
fn load(stepper: &mut Stepper, board: &Board) -> Result<(), AllocError>
    requires { IsLegal board.now }
    ensures { OnOk result (Follows stepper.new (record_of board.now)) }
{
    stepper.load(board)
}

/// Plays the turn both ways. Returns the game after it, and whether the plane could follow.
fn play(alloc: Global, game: Played, orders: &Move) -> Result<(Played, bool), Fail> {
    let Played {
        board,
        last,
        mut stepper,
    } = game;
    holds("not the last turn", board.turn < LAST_TURN)?;
    let next = turn(alloc, &board, orders)?;
    let wanted = Record::of(alloc, &next)?;
    match stepper.step(alloc, &last, orders)? {
        None => {
            load(&mut stepper, &next)?;
            let game = Played {
                board: next,
                last: wanted,
                stepper,
            };
            Ok((game, false))
        }
        Some(record) => {
            same("the record", record.as_slice(), wanted.as_slice())?;
            let game = Played {
                board: next,
                last: record,
                stepper,
            };
            Ok((game, true))
        }
    }
}

/// Plays a drawn game of at most that many turns.
fn play_game(alloc: Global, draws: &mut Draws, most: u32, counts: &mut Counts) -> Result<(), Fail> {
    let mut game = begun(alloc, start(alloc, &setup(alloc, draws)?)?)?;
    for _ in 0..most {
        if over(&game.board) || game.board.turn >= LAST_TURN {
            return Ok(());
        }
        let orders = orders(alloc, draws, &game.board)?;
        let (next, stepped) = play(alloc, game, &orders)?;
        counts.count(stepped, &orders);
        game = next;
    }
    Ok(())
}

#[test]
fn games_over_a_plane_are_as_decoded(rt: HostRuntime) -> Result<(), Fail> {
    let mut counts = Counts {
        turns: 0,
        stepped: 0,
        fed: 0,
    };
    for seed in 0..250 {
        let mut draws = Draws::of(seed);
        play_game(rt.alloc(), &mut draws, 60, &mut counts)?;
    }
    holds(
        "most turns are over the plane",
        counts.stepped > counts.turns / 2,
    )?;
    holds(
        "a fourth of them with food that the move gives",
        counts.fed > counts.stepped / 4,
    )
}

#[test]
fn laid_boards_over_a_plane_are_as_decoded(rt: HostRuntime) -> Result<(), Fail> {
    let alloc = rt.alloc();
    let mut counts = Counts {
        turns: 0,
        stepped: 0,
        fed: 0,
    };
    for seed in 0..700 {
        let mut draws = Draws::of(seed);
        let board = laid(alloc, &mut draws)?;
        holds("a legal board", is_legal(&board))?;
        let orders = orders(alloc, &mut draws, &board)?;
        let (_, stepped) = play(alloc, begun(alloc, board)?, &orders)?;
        counts.count(stepped, &orders);
    }
    holds("many boards are over the plane", counts.stepped > 300)
}

/// A solo board of nine by nine with food on every cell but those of the snake, and with a minimum
/// of more food than that.
fn full(alloc: Global, parts: Parts) -> Result<Board, AllocError> {
    let mut board = solo(alloc, 9, 5, 50, parts)?;
    for y in 0..9 {
        for x in 0..9 {
            if !parts.contains(&(x, y)) {
                board.food.push(Point { x, y })?;
            }
        }
    }
    board.min_food = 200;
    Ok(board)
}

/// The board after a move straight on with that word, played over the plane.
fn after(alloc: Global, board: Board, word: u32) -> Result<Board, Fail> {
    holds("a legal board", is_legal(&board))?;
    let words = bs_samples::orders(alloc, &[], &[word])?;
    let (game, stepped) = play(alloc, begun(alloc, board)?, &words)?;
    holds("over the plane", stepped)?;
    Ok(game.board)
}

/// The cells of a board are counted 32 at once, row by row from the bottom left. A tail leaves the
/// only free cell of the board: the last of the first 32, the next one, the last of the second 32,
/// the next one, and the last of the board.
#[test]
fn food_on_the_only_free_cell(rt: HostRuntime) -> Result<(), Fail> {
    let alloc = rt.alloc();
    let bodies = [
        [(6, 3), (5, 3), (4, 3)],
        [(7, 3), (6, 3), (5, 3)],
        [(2, 7), (1, 7), (0, 7)],
        [(3, 7), (2, 7), (1, 7)],
        [(6, 8), (7, 8), (8, 8)],
    ];
    for parts in &bodies {
        let board = after(alloc, full(alloc, parts)?, 12_345)?;
        let [_, _, (x, y)] = *parts;
        same("the food", board.food.len(), 78)?;
        let last = board.food.as_slice().last().copied();
        same("the cell", last, Some(Point { x, y }))?;
    }
    Ok(())
}

/// The tail is two parts on one cell, and stays there.
#[test]
fn no_food_where_no_cell_is_free(rt: HostRuntime) -> Result<(), Fail> {
    let alloc = rt.alloc();
    let board = full(alloc, &[(6, 3), (5, 3), (4, 3), (4, 3)])?;
    let board = after(alloc, board, 12_345)?;
    same("the food", board.food.len(), 77)
}

/// A snake on the top row leaves 78 free cells, of which those below it have their index as number.
#[test]
fn food_on_the_free_cell_of_the_number(rt: HostRuntime) -> Result<(), Fail> {
    let alloc = rt.alloc();
    let places = [
        (0, (0, 0)),
        (31, (4, 3)),
        (32, (5, 3)),
        (63, (0, 7)),
        (64, (1, 7)),
        (72, (0, 8)),
        (77, (8, 8)),
        (78, (0, 0)),
        (109, (4, 3)),
    ];
    for &(word, (x, y)) in &places {
        let mut board = solo(alloc, 9, 5, 50, &[(3, 8), (2, 8), (1, 8)])?;
        board.min_food = 1;
        let board = after(alloc, board, word)?;
        same("the food", board.food.as_slice(), &[Point { x, y }])?;
    }
    Ok(())
}
