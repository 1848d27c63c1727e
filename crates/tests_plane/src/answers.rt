//! The answers to the moves of examples/quota_of_two_records, from the records of its game.
ghost use Rattle.std.specs.Prelude.{◌≡◌, None, Some};
ghost use Rattle.bs_board.specs.boards.Legal.{IsLegal};
ghost use Rattle.bs_game.specs.View.{IsFitView};

use bs_board::{Board, Move, Record, Refusal, Reply, Word, is_legal};
use bs_game::{Answer, Effect, View};
use bs_plane::PlaneCache;
use bs_samples::{holds, no_orders, same, solo_after};
use std::alloc::{AllocError, Global};
use std::test::Fail;

/// The view of a game with that charge and last board, whose quota holds two records.
fn view(charge: u32, kept: usize, last: Board) -> View
    ensures { result ≡ record { quota = 64; charge = charge; kept = kept; last = Some last; asked = None } }
{
    View {
        quota: 64,
        charge,
        kept,
        last: Some(last),
        asked: None,
    }
}

/// Answers the move from the record of that board.
#[tactic(auto, using(crate::proofs::Loaded::running))]
fn answered_from(
    alloc: Global,
    planes: &mut PlaneCache,
    view: &View,
    board: &Board,
    orders: &Move,
) -> Result<Answer, AllocError>
    requires legal { IsLegal board.now }
    requires fit { IsFitView view.now }
    requires last { view.now.last ≡ Some board.now }
{
    let last = Record::of(alloc, board)?;
    planes.answer(alloc, &last, orders, view.quota, view.charge)
}

/// Answers a move straight on from that board, where so many records with that charge are kept.
fn answered(
    alloc: Global,
    planes: &mut PlaneCache,
    board: &Board,
    (charge, kept): (u32, usize),
) -> Result<Answer, Fail> {
    let view = view(charge, kept, board.copy(alloc)?);
    holds("a legal board", is_legal(board))?;
    holds("a view that fits", view.is_fit())?;
    Ok(answered_from(alloc, planes, &view, board, &no_orders(alloc))?)
}

/// Checks that the answer is that refusal, and changes nothing.
fn is_refused(answer: &Answer, wanted: Refusal) -> Result<(), Fail> {
    holds("no effect", matches!(answer.effect, Effect::Keep))?;
    match &answer.reply {
        Reply::Refused(reason) => same("the reason", *reason, wanted),
        _ => Err(Fail::from("not refused")),
    }
}

/// Checks that the answer shows and adds the board after that many turns, with two records kept.
fn is_shown(alloc: Global, answer: &Answer, turn: u16) -> Result<(), Fail> {
    let board = solo_after(alloc, 5, turn)?;
    holds("a legal board", is_legal(&board))?;
    let wanted = Record::of(alloc, &board)?;
    let Reply::Shown(word, shown, charge) = &answer.reply else {
        return Err(Fail::from("not shown"));
    };
    same("word and charge", (*word, *charge), (Word::Move, 64))?;
    same("the turn", shown.board(alloc)?.turn, turn)?;
    match &answer.effect {
        Effect::Add(record) => same("the record", record.as_slice(), wanted.as_slice()),
        _ => Err(Fail::from("no record")),
    }
}

/// The moves of the transcript: its second line, its third, and its fifth, once the records but the
/// last are freed. The first is played on the decoded board, the others over its plane.
#[test]
fn quota_of_two_records(rt: HostRuntime) -> Result<(), Fail> {
    let alloc = rt.alloc();
    let mut planes = PlaneCache::new(alloc);
    let first = solo_after(alloc, 5, 0)?;
    is_shown(alloc, &answered(alloc, &mut planes, &first, (32, 1))?, 1)?;
    let next = solo_after(alloc, 5, 1)?;
    is_refused(
        &answered(alloc, &mut planes, &next, (64, 2))?,
        Refusal::Quota,
    )?;
    is_shown(alloc, &answered(alloc, &mut planes, &next, (32, 1))?, 2)
}

/// A cache that has seen another board answers as a new one does.
#[test]
fn planes_of_another_board(rt: HostRuntime) -> Result<(), Fail> {
    let alloc = rt.alloc();
    let mut planes = PlaneCache::new(alloc);
    let next = solo_after(alloc, 5, 1)?;
    is_shown(alloc, &answered(alloc, &mut planes, &next, (32, 1))?, 2)?;
    let first = solo_after(alloc, 5, 0)?;
    is_shown(alloc, &answered(alloc, &mut planes, &first, (32, 1))?, 1)
}

/// The snake of the second example has left the board at its third turn. The first of these moves is
/// played on the decoded board, so the cache has the plane of the last board at the second, and not
/// at the third.
#[test]
fn move_of_a_game_that_is_over(rt: HostRuntime) -> Result<(), Fail> {
    let alloc = rt.alloc();
    let mut planes = PlaneCache::new(alloc);
    let next = solo_after(alloc, 3, 1)?;
    let last = answered(alloc, &mut planes, &next, (32, 1))?;
    holds("a record", matches!(last.effect, Effect::Add(_)))?;
    let over = solo_after(alloc, 3, 2)?;
    for _ in 0..2 {
        is_refused(
            &answered(alloc, &mut planes, &over, (32, 1))?,
            Refusal::Over,
        )?;
    }
    Ok(())
}
