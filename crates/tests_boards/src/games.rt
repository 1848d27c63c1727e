//! Commands of small games, and their answers by the rules.
ghost use Rattle.std.specs.Prelude.{◌≡◌, [], IfOk, IsTrue, All, None, Some, option_map};
ghost use Rattle.bs_board.specs.boards.Wrap.{AreSides, wrap_of};
ghost use Rattle.bs_board.specs.declared.commands.command.Command.TheVariants as command;
ghost use Rattle.bs_game.specs.Reasons.{first_reason};
ghost use Rattle.bs_game.specs.View.{IsFitView};
ghost use Rattle.bs_rules.specs.Motion.{moved_board, IsMovable};

use bs_board::{
    Board, Command, Mode, Move, Moves, Point, Refusal, Reply, TurnNumber, Word, is_legal,
};
use bs_game::{
    Answer, Effect, View, answer, check, check_move, check_unseen, joined, joined_within,
    place_of_turn, refuse,
};
use bs_rules::move_snakes;
use bs_samples::{holds, new_solo, no_orders, same, solo, solo_after, straight_on};
use std::alloc::{AllocError, Global};
use std::test::Fail;

fn view(quota: u32, charge: u32, kept: usize, last: Option<Board>) -> View
    ensures { result ≡ record { quota = quota; charge = charge; kept = kept; last = last; asked = None } }
{
    View {
        quota,
        charge,
        kept,
        last,
        asked: None,
    }
}

/// Makes the view of a game after `turn` turns, on a board of five by five. Its quota is 64 bytes,
/// and each record takes 32.
fn view_after(alloc: Global, charge: u32, kept: usize, turn: u16) -> Result<View, AllocError> {
    Ok(view(64, charge, kept, Some(solo_after(alloc, 5, turn)?)))
}

fn answered(alloc: Global, view: &View, command: &Command) -> Result<Answer, Fail> {
    holds("a view that fits", view.is_fit())?;
    Ok(answer(alloc, view, command)?)
}

/// A reply that shows a board: its word, its charge, the board's turn and the row of the head,
/// which is in the second column; and the effect beside the reply.
#[derive(Clone, Copy)]
struct Shown {
    word: Word,
    charge: u32,
    turn: u16,
    y: i16,
    effect: &'static str,
}

/// Checks that the answer shows that board.
fn check_shown(alloc: Global, answer: &Answer, wanted: Shown) -> Result<(), Fail> {
    let Reply::Shown(word, kept, charge) = &answer.reply else {
        return Err(Fail::from("not shown"));
    };
    same(
        "word and charge",
        (*word, *charge),
        (wanted.word, wanted.charge),
    )?;
    same("effect", name(&answer.effect), wanted.effect)?;
    check_head(&kept.board(alloc)?, wanted.turn, wanted.y)
}

/// Checks that the board of one snake has that turn, and its head in the second column and that
/// row.
fn check_head(board: &Board, turn: u16, y: i16) -> Result<(), Fail> {
    same("turn", board.turn, turn)?;
    same("seats", board.snakes.len(), 1)?;
    let snake = board.snakes.as_slice().first().ok_or("a snake")?;
    same(
        "head",
        snake.body.as_slice().first().copied(),
        Some(Point { x: 1, y }),
    )
}

/// Checks that the command is answered by that board.
fn is_shown(alloc: Global, view: &View, command: &Command, wanted: Shown) -> Result<(), Fail> {
    check_shown(alloc, &answered(alloc, view, command)?, wanted)
}

/// Checks that the command is answered by a plain reply of that word and charge.
fn is_plain(
    alloc: Global,
    view: &View,
    command: &Command,
    told: (Word, u32),
    effect: &str,
) -> Result<(), Fail> {
    check_plain(&answered(alloc, view, command)?, told, effect)
}

fn check_plain(answer: &Answer, told: (Word, u32), effect: &str) -> Result<(), Fail> {
    same("effect", name(&answer.effect), effect)?;
    match &answer.reply {
        Reply::Plain(word, charge) => same("word and charge", (*word, *charge), told),
        _ => Err(Fail::from("not plain")),
    }
}

fn check_refused(answer: &Answer, reason: Refusal) -> Result<(), Fail> {
    same("effect", name(&answer.effect), "keep")?;
    match &answer.reply {
        Reply::Refused(told) => same("reason", *told, reason),
        _ => Err(Fail::from("not refused")),
    }
}

/// Checks that the command is refused for that reason.
fn is_refused(alloc: Global, view: &View, command: &Command, reason: Refusal) -> Result<(), Fail> {
    check_refused(&answered(alloc, view, command)?, reason)
}

fn name(effect: &Effect) -> &str {
    match effect {
        Effect::Keep => "keep",
        Effect::Add(_) => "add",
        Effect::Trim => "trim",
        Effect::Drop => "drop",
    }
}

/// What a move to that turn shows, with two records kept.
fn moved_to(turn: u16, y: i16) -> Shown {
    Shown {
        word: Word::Move,
        charge: 64,
        turn,
        y,
        effect: "add",
    }
}

const FIRST: Shown = Shown {
    word: Word::New,
    charge: 32,
    turn: 0,
    y: 1,
    effect: "add",
};

/// Checks what a game of one record after `turn` turns shows if its snake goes straight on.
fn check_step(alloc: Global, turn: u16, wanted: Shown) -> Result<(), Fail> {
    let view = view_after(alloc, 32, 1, turn)?;
    is_shown(alloc, &view, &straight_on(alloc), wanted)
}

/// The replies of a game whose quota holds two records.
#[test]
fn quota_of_two_records(rt: HostRuntime) -> Result<(), Fail> {
    let alloc = rt.alloc();
    is_shown(alloc, &view(64, 0, 0, None), &new_solo(alloc, 5)?, FIRST)?;
    check_step(alloc, 0, moved_to(1, 2))?;
    let two = view_after(alloc, 64, 2, 1)?;
    is_refused(alloc, &two, &straight_on(alloc), Refusal::Quota)
}

/// The same game, once its records are freed.
#[test]
fn freed_and_ended(rt: HostRuntime) -> Result<(), Fail> {
    let alloc = rt.alloc();
    let two = view_after(alloc, 64, 2, 1)?;
    is_plain(alloc, &two, &Command::Free, (Word::Free, 32), "trim")?;
    is_plain(alloc, &two, &Command::End, (Word::End, 0), "drop")?;
    check_step(alloc, 1, moved_to(2, 3))
}

fn turn_command(number: u16) -> Result<Command, Fail> {
    Ok(Command::Turn(TurnNumber::new(number).ok_or("a turn")?))
}

/// What a command that keeps both records shows.
fn kept(word: Word, turn: u16, y: i16) -> Shown {
    Shown {
        word,
        charge: 64,
        turn,
        y,
        effect: "keep",
    }
}

/// Makes the view of a game after two turns whose command names turn 1.
fn view_of_turn_1(alloc: Global) -> Result<View, AllocError> {
    let asked = solo_after(alloc, 5, 1)?;
    let last = solo_after(alloc, 5, 2)?;
    Ok(View {
        quota: 64,
        charge: 64,
        kept: 2,
        last: Some(last),
        asked: Some(asked),
    })
}

/// After two turns and a `free` before the second: turn 0 is gone, turn 1 is shown.
#[test]
fn kept_turns_are_shown(rt: HostRuntime) -> Result<(), Fail> {
    let alloc = rt.alloc();
    let view = view_after(alloc, 64, 2, 2)?;
    is_shown(alloc, &view, &Command::Show, kept(Word::Show, 2, 3))?;
    is_refused(alloc, &view, &turn_command(0)?, Refusal::NoRecord)?;
    let view = view_of_turn_1(alloc)?;
    is_shown(alloc, &view, &turn_command(1)?, kept(Word::Turn, 1, 2))
}

/// The places of the records of turns 1 and 2.
#[test]
fn places_of_turns(rt: HostRuntime) -> Result<(), Fail> {
    for (number, place) in [(0, None), (1, Some(0)), (2, Some(1)), (3, None)] {
        let at = TurnNumber::new(number).ok_or("a turn")?;
        same(
            "a place",
            (number, place_of_turn(2, 2, at)),
            (number, place),
        )?;
    }
    Ok(())
}

// The record of turn 0 on a board of three by three.
const RECORD: [u8; 26] = [
    1, 1, 3, 3, 0, 0, 0, 0, 1, 0, 0, 1, 115, 100, 0, 0, 0, 0, 0, 3, 2, 2, 2, 2, 2, 2,
];

fn check_added(effect: &Effect, wanted: &[u8]) -> Result<(), Fail> {
    match effect {
        Effect::Add(record) => same("the record", record.as_slice(), wanted),
        _ => Err(Fail::from("no record")),
    }
}

#[test]
fn first_record(rt: HostRuntime) -> Result<(), Fail> {
    let alloc = rt.alloc();
    let told = answered(alloc, &view(4096, 0, 0, None), &new_solo(alloc, 3)?)?;
    check_added(&told.effect, &RECORD)
}

/// Makes the view of a game in its last turn.
fn late(alloc: Global, mode: Mode) -> Result<View, AllocError> {
    let mut board = solo(alloc, 5, 10_000, 90, &[(1, 3), (1, 2), (1, 1)])?;
    board.mode = mode;
    Ok(view(64, 32, 1, Some(board)))
}

/// Compares the reason for which a new game is refused.
fn check_new(alloc: Global, view: &View, reason: Option<Refusal>) -> Result<(), Fail> {
    same("a new game", check(view, &new_solo(alloc, 5)?), reason)
}

/// Compares the reason for which a move is refused.
fn check_step_at(alloc: Global, view: &View, reason: Refusal) -> Result<(), Fail> {
    same("a move", check(view, &straight_on(alloc)), Some(reason))
}

#[test]
fn reasons_in_their_order(rt: HostRuntime) -> Result<(), Fail> {
    let nothing = view(64, 0, 0, None);
    let bad = check(&nothing, &Command::Bad);
    same("bad", bad, Some(Refusal::Unknown))?;
    check_new(rt.alloc(), &nothing, None)?;
    check_step_at(rt.alloc(), &nothing, Refusal::NoGame)
}

/// In its last turn a running game refuses a new game and a move.
#[test]
fn reasons_of_a_game_that_runs(rt: HostRuntime) -> Result<(), Fail> {
    let alloc = rt.alloc();
    let running = late(alloc, Mode::Solo)?;
    check_new(alloc, &running, Some(Refusal::Running))?;
    check_step_at(alloc, &running, Refusal::Limit)?;
    check_step_at(alloc, &late(alloc, Mode::Standard)?, Refusal::Over)
}

/// Moves each snake of the board straight on.
fn gone_on(alloc: Global, board: Board) -> Board
    requires bodies { All IsMovable board.snakes }
    requires sides { AreSides (wrap_of board) }
    ensures { result ≡ moved_board [] board }
{
    let mut moved = board;
    let wrap = moved.wrap();
    move_snakes(&mut moved.snakes, &Moves::new(alloc), wrap);
    moved
}

/// Whether a move is accepted.
fn is_accepted(alloc: Global, view: &View, orders: &Move) -> Result<bool, AllocError>
    ensures { IfOk result (λ yes. IsTrue yes → first_reason view.now (command.Move orders.now) ≡ None) }
{
    Ok(check(view, &Command::Move(orders.copy(alloc)?)).is_none())
}

/// Checks what the move shows if its moved board is joined by the quota and the charge alone.
fn check_joined_within(alloc: Global, view: &View, orders: &Move, moved: Board) -> Result<(), Fail>
    requires view { IsFitView view.now }
    requires passes { first_reason view.now (command.Move orders.now) ≡ None }
    requires moved { option_map (moved_board orders.now.moves) view.now.last ≡ Some moved }
{
    let told = joined_within(alloc, view.quota, view.charge, orders, moved)?;
    check_shown(alloc, &told, moved_to(1, 2))
}

/// Checks what the move shows if its moved board is joined.
fn check_joined(alloc: Global, view: &View, orders: &Move, moved: Board) -> Result<(), Fail>
    requires view { IsFitView view.now }
    requires passes { first_reason view.now (command.Move orders.now) ≡ None }
    requires moved { option_map (moved_board orders.now.moves) view.now.last ≡ Some moved }
{
    let told = joined(alloc, view, orders, moved)?;
    check_shown(alloc, &told, moved_to(1, 2))
}

/// A move whose seats were moved in parts is answered as the whole move is.
#[test]
#[tactic(auto, using(bs_rules::proofs::Movable::legal_is_movable, bs_rules::proofs::Movable::legal_has_sides))]
fn joined_turn(rt: HostRuntime) -> Result<(), Fail> {
    let alloc = rt.alloc();
    let orders = no_orders(alloc);
    let before = solo_after(alloc, 5, 0)?;
    holds("a legal board", is_legal(&before))?;
    let last = before.copy(alloc)?;
    let moved = gone_on(alloc, before);
    let view = view(64, 32, 1, Some(last));
    holds("it goes", is_accepted(alloc, &view, &orders)?)?;
    check_joined_within(alloc, &view, &orders, moved.copy(alloc)?)?;
    check_joined(alloc, &view, &orders, moved)
}

/// Whether a game runs, whether the turn that the command names is kept, and the reason.
type Unseen = (bool, bool, Option<Refusal>);

/// Compares the reasons for which the command is refused with no board seen.
fn check_blind(command: &Command, cases: &[Unseen]) -> Result<(), Fail> {
    for &(is_running, is_kept, wanted) in cases {
        let reason = check_unseen(command, is_running, is_kept);
        let found = (is_running, is_kept, reason);
        same("a reason", found, (is_running, is_kept, wanted))?;
    }
    Ok(())
}

const BAD: [Unseen; 2] = [
    (true, true, Some(Refusal::Unknown)),
    (false, false, Some(Refusal::Unknown)),
];

const TURN: [Unseen; 3] = [
    (false, false, Some(Refusal::NoGame)),
    (true, false, Some(Refusal::NoRecord)),
    (true, true, None),
];

/// The refusals of a command that need no board: by whether a game runs, and whether the turn that
/// the command names is kept.
#[test]
fn refusals_with_no_board_seen(rt: HostRuntime) -> Result<(), Fail> {
    check_blind(&Command::Bad, &BAD)?;
    check_blind(&Command::Show, &[(false, false, Some(Refusal::NoGame))])?;
    check_blind(&turn_command(9)?, &TURN)?;
    check_blind(&straight_on(rt.alloc()), &[(true, false, None)])?;
    check_refused(&refuse(Refusal::NoRecord), Refusal::NoRecord)
}

#[test]
fn moves_are_refused(rt: HostRuntime) -> Result<(), Fail> {
    for (is_over, turn, wanted) in [
        (true, 10_000, Some(Refusal::Over)),
        (false, 10_000, Some(Refusal::Limit)),
        (false, 9_999, None),
    ] {
        same(
            "a reason",
            (turn, check_move(is_over, turn)),
            (turn, wanted),
        )?;
    }
    Ok(())
}
