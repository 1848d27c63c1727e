//! The jobs of a command on a board of three snakes, as a core gives them out, and the boards by
//! the rules.
use crate::player::{
    CAP, DoneParts, core_of, finish, hand, play_one, put, put_parts, take_done, take_part,
};
use bs_board::{
    Board, Command, Direction, Mode, Point, Record, Reply, TurnNumber, Word, encode, is_legal,
};
use bs_fiber::{
    Contents, Done, Expected, Input, JobKind, JobName, Moved, Out, Piece, SharedCommand, Ticket,
};
use bs_game::{Answer, Effect};
use bs_pool::Owned;
use bs_samples::{board, cells, holds, new_of_three, same, snake, third_goes};
use bs_sched::Core;
use std::alloc::{AllocError, Global};
use std::test::Fail;

/// The game that is played: the second of two.
const GAME: usize = 1;

/// Makes a board of three snakes, the first of them below the only food.
fn before(alloc: Global) -> Result<Board, AllocError> {
    let s = snake(alloc, "s", 100, &[(1, 1), (1, 1), (1, 1)])?;
    let t = snake(alloc, "t", 100, &[(5, 1), (5, 1), (5, 1)])?;
    let u = snake(alloc, "u", 100, &[(3, 5), (3, 5), (3, 5)])?;
    let snakes = vec![in alloc; s, t, u]?;
    let mut before = board(alloc, Mode::Standard, 7, 0, snakes);
    before.food = cells(alloc, &[(1, 2)])?;
    Ok(before)
}

/// Makes the same board after a move in which the third snake goes down.
fn after(alloc: Global) -> Result<Board, AllocError> {
    let s = snake(alloc, "s", 100, &[(1, 2), (1, 1), (1, 1), (1, 1)])?;
    let t = snake(alloc, "t", 99, &[(5, 2), (5, 1), (5, 1)])?;
    let u = snake(alloc, "u", 99, &[(3, 4), (3, 5), (3, 5)])?;
    let snakes = vec![in alloc; s, t, u]?;
    Ok(board(alloc, Mode::Standard, 7, 1, snakes))
}

fn record_of(alloc: Global, board: &Board) -> Result<Vec<u8>, Fail> {
    holds("a legal board", is_legal(board))?;
    Ok(encode(alloc, board)?)
}

fn job(kind: JobKind, part: u8) -> JobName {
    JobName {
        game: 1,
        kind,
        part,
    }
}

fn third_goes_down(alloc: Global) -> Result<Command, Fail> {
    third_goes(alloc, Direction::Down)
}

/// Opens a core whose second game is at the board `before` and has that command queued.
fn core_at(alloc: Global, command: Command) -> Result<Core<CAP>, Fail> {
    let mut core = core_of(alloc, &[("a", 64), ("b", 4096)], 12)?;
    start(alloc, &mut core)?;
    hand(alloc, &mut core, GAME, command)?;
    Ok(core)
}

/// Plays the `new` of the second game.
fn start(alloc: Global, core: &mut Core<CAP>) -> Result<(), Fail> {
    hand(alloc, core, GAME, new_of_three(alloc)?)?;
    play_one(alloc, core, 1)
}

/// Runs the Begin of a move of the third snake.
fn begun(alloc: Global) -> Result<Done<CAP>, Fail> {
    let mut core = core_at(alloc, third_goes_down(alloc)?)?;
    take_done(alloc, &mut core, 1)
}

/// Checks the numbers of the ticket of a Begin.
fn check_numbers(ticket: &Ticket<CAP>) -> Result<(), Fail> {
    same("job", ticket.job(), job(JobKind::Begin, 0))?;
    same("worker", ticket.worker(), 1)?;
    same("number of the command", ticket.seq(), 2)?;
    same("quota", ticket.quota(), 4096)?;
    same("charge", ticket.charge(), 64)?;
    same("kept records", ticket.kept(), 1)
}

/// Checks what else is in the ticket of a move.
fn check_seen(ticket: &Ticket<CAP>) -> Result<(), Fail> {
    holds("a newest board", ticket.last().is_some())?;
    holds("no turn asked for", ticket.asked().is_none())?;
    holds("a move", matches!(ticket.command(), Command::Move(_)))
}

#[test]
fn begin_lets_the_move_go(rt: HostRuntime) -> Result<(), Fail> {
    let done = begun(rt.alloc())?;
    holds("the move goes", matches!(done.out(), Out::Goes))?;
    check_numbers(done.ticket())?;
    check_seen(done.ticket())
}

fn kept_of(alloc: Global, board: &Board) -> Result<Record, Fail> {
    holds("a legal board", is_legal(board))?;
    Ok(Record::of(alloc, board)?)
}

/// What a core expects of the Begin of that command, in a game whose newest board has that record.
fn expected<'a>(record: &'a Record, command: &'a SharedCommand) -> Expected<'a> {
    Expected {
        job: job(JobKind::Begin, 0),
        worker: 1,
        seq: 2,
        quota: 4096,
        charge: 64,
        kept: 1,
        last: Some(record),
        asked: None,
        command,
    }
}

/// Whether the ticket is that of the Begin of the command.
fn is_of(ticket: &Ticket<CAP>, record: &Record, command: &SharedCommand) -> bool {
    ticket.is_of(&expected(record, command))
}

#[test]
fn a_ticket_is_of_its_own_command(rt: HostRuntime) -> Result<(), Fail> {
    let alloc = rt.alloc();
    let done = begun(alloc)?;
    let record = kept_of(alloc, &before(alloc)?)?;
    let moved = SharedCommand::new(alloc, third_goes_down(alloc)?)?;
    let show = SharedCommand::new(alloc, Command::Show)?;
    let ticket = done.ticket();
    holds("the ticket of a move", is_of(ticket, &record, &moved))?;
    holds(
        "no ticket of another command",
        !is_of(ticket, &record, &show),
    )
}

/// Checks the numbers of the input, and the lengths of its records.
fn check_input(input: &Input, seq: u64, last: &[u8], asked: Option<&[u8]>) -> Result<(), Fail> {
    same("worker", input.worker, 1)?;
    same("number of the command", input.seq, seq)?;
    same("kept records", input.kept, 1)?;
    let newest = input.last.as_ref().ok_or("a newest record")?;
    same("newest record", newest.as_slice(), last)?;
    let found = input.asked.as_ref().map(|record| record.as_slice());
    same("asked record", found, asked)?;
    holds("no parts", input.parts.as_slice().is_empty())
}

/// Makes and checks the contents of the Begin of a `show`, for which the other record is named.
fn contents_of_show(
    alloc: Global,
    one: &Record,
    other: &Record,
) -> Result<Box<Contents<CAP>>, Fail> {
    let show = SharedCommand::new(alloc, Command::Show)?;
    let shown = Expected {
        asked: Some(other.as_slice()),
        ..expected(one, &show)
    };
    let contents = shown.to_contents::<CAP>(alloc, None)?;
    check_input(&contents.input, 2, one.as_slice(), Some(other.as_slice()))?;
    Ok(contents)
}

/// Makes and checks the contents of the Begin of an `end` in the memory of a spent ticket.
fn check_end_over(alloc: Global, last: &Record, spent: Box<Contents<CAP>>) -> Result<(), Fail> {
    let end = SharedCommand::new(alloc, Command::End)?;
    let later = Expected {
        job: job(JobKind::Begin, 0),
        worker: 1,
        seq: 3,
        quota: 4096,
        charge: 64,
        kept: 1,
        last: Some(last),
        asked: None,
        command: &end,
    };
    let contents = later.to_contents(alloc, Some(spent))?;
    check_input(&contents.input, 3, last.as_slice(), None)?;
    holds("end", matches!(contents.input.command.get(), Command::End))
}

#[test]
fn an_expected_input_is_made(rt: HostRuntime) -> Result<(), Fail> {
    let alloc = rt.alloc();
    let one = kept_of(alloc, &before(alloc)?)?;
    let other = kept_of(alloc, &after(alloc)?)?;
    let contents = contents_of_show(alloc, &one, &other)?;
    holds(
        "show",
        matches!(contents.input.command.get(), Command::Show),
    )?;
    check_end_over(alloc, &other, contents)
}

/// Checks whether the command is a move, and the turn that it names.
fn check_kind(
    alloc: Global,
    command: Command,
    is_move: bool,
    asked_turn: Option<TurnNumber>,
) -> Result<(), Fail> {
    let shared = SharedCommand::new(alloc, command)?;
    same("a move", shared.is_move(), is_move)?;
    same("turn that it names", shared.asked_turn(), asked_turn)
}

#[test]
fn only_a_turn_names_a_turn(rt: HostRuntime) -> Result<(), Fail> {
    let alloc = rt.alloc();
    let at = TurnNumber::new(7).ok_or("a turn")?;
    check_kind(alloc, third_goes_down(alloc)?, true, None)?;
    check_kind(alloc, Command::Turn(at), false, Some(at))?;
    check_kind(alloc, Command::Show, false, None)
}

#[test]
fn begin_answers_show(rt: HostRuntime) -> Result<(), Fail> {
    let alloc = rt.alloc();
    let mut core = core_at(alloc, Command::Show)?;
    let (_, out) = take_done(alloc, &mut core, 1)?.into_parts();
    check_answered(alloc, &out)
}

/// Checks that the answer shows the first board and keeps the records.
fn check_answered(alloc: Global, out: &Out) -> Result<(), Fail> {
    let Out::Answered(
        Answer {
            reply: Reply::Shown(Word::Show, shown, 64),
            effect: Effect::Keep,
        },
    ) = out
    else {
        return Err(Fail::from("not shown"));
    };
    let board = shown.board(alloc)?;
    same("turn", board.turn, 0)?;
    same("snakes", board.snakes.len(), 3)
}

fn moved_by(done: &Done<CAP>) -> Result<&Moved, Fail> {
    match done.out() {
        Out::Moved(moved) => Ok(moved),
        _ => Err(Fail::from("no part")),
    }
}

/// Returns the only block of the part.
fn block_of(done: &Done<CAP>) -> Result<&Owned<CAP>, Fail> {
    match done.ticket().frames() {
        [owned] => Ok(owned),
        _ => Err(Fail::from("not one block")),
    }
}

/// Checks where the snakes of a part lie in its block.
fn check_pieces(done: &Done<CAP>, expected: &[Piece]) -> Result<(), Fail> {
    same("pieces", moved_by(done)?.as_slice(), expected)
}

const FIRST: [u8; 15] = [1, 115, 99, 0, 0, 0, 0, 0, 3, 2, 3, 2, 2, 2, 2];

const SECOND: [u8; 15] = [1, 116, 99, 0, 0, 0, 0, 0, 3, 6, 3, 6, 2, 6, 2];

const THIRD: [u8; 15] = [1, 117, 99, 0, 0, 0, 0, 0, 3, 4, 5, 4, 6, 4, 6];

/// Checks that the first part wrote its two snakes into its block.
fn check_first_part(done: &Done<CAP>) -> Result<(), Fail> {
    check_pieces(done, &[Piece { at: 0, len: 15 }, Piece { at: 16, len: 15 }])?;
    let block = block_of(done)?.block();
    holds("32 bytes", block.len() == 32)?;
    same("the first snake", block.get(0, 15), FIRST.as_slice())?;
    same("the second snake", block.get(16, 15), SECOND.as_slice())
}

/// Checks that the second part wrote its one snake.
fn check_second_part(done: &Done<CAP>) -> Result<(), Fail> {
    check_pieces(done, &[Piece { at: 0, len: 15 }])?;
    let block = block_of(done)?.block();
    holds("16 bytes", block.len() == 16)?;
    same("the third snake", block.get(0, 15), THIRD.as_slice())
}

/// Runs both parts of the move. Returns the completed parts, and the number of part 0's block.
fn both_parts(alloc: Global, core: &mut Core<CAP>) -> Result<(DoneParts, usize), Fail> {
    let (first, first_key) = take_part(alloc, core, 1)?;
    let (second, second_key) = take_part(alloc, core, 1)?;
    check_first_part(&first)?;
    check_second_part(&second)?;
    let number = block_of(&first)?.number();
    holds("one part is missing", finish(first_key, first)?.is_none())?;
    let parts = finish(second_key, second)?.ok_or("the last part")?;
    Ok((parts, number))
}

/// Checks that the answer shows the board after the move and adds its record.
fn check_joined(alloc: Global, out: &Out) -> Result<(), Fail> {
    let Out::Joined(
        Answer {
            reply: Reply::Shown(Word::Move, shown, 128),
            effect: Effect::Add(record),
        },
        Some(_),
    ) = out
    else {
        return Err(Fail::from("not joined"));
    };
    same("turn", shown.board(alloc)?.turn, 1)?;
    let wanted = record_of(alloc, &after(alloc)?)?;
    same("record", record.as_slice(), wanted.as_slice())
}

/// Checks that the new record follows the snakes of part 0, and that the block of part 1 is
/// unchanged.
fn check_added(alloc: Global, done: &Done<CAP>, number: usize) -> Result<(), Fail> {
    let added = done.added().ok_or("a record in part 0's block")?;
    let wanted = record_of(alloc, &after(alloc)?)?;
    same("record", added, wanted.as_slice())?;
    let [first, second] = done.ticket().frames() else {
        return Err(Fail::from("not two blocks"));
    };
    same("block of part 0", first.number(), number)?;
    same("bytes of part 1", second.block().len(), 16)
}

fn check_join(ticket: &Ticket<CAP>) -> Result<(), Fail> {
    same("job", ticket.job(), job(JobKind::Join, 0))?;
    same("parts", ticket.parts().len(), 2)
}

#[test]
fn two_parts_are_joined(rt: HostRuntime) -> Result<(), Fail> {
    let alloc = rt.alloc();
    let mut core = core_at(alloc, third_goes_down(alloc)?)?;
    let number = play_parts(alloc, &mut core)?;
    let done = take_done(alloc, &mut core, 1)?;
    check_done_join(alloc, &done, number)?;
    put(&mut core, 1, done)
}

/// Plays the move up to its Join. Returns the number of part 0's block.
fn play_parts(alloc: Global, core: &mut Core<CAP>) -> Result<usize, Fail> {
    play_one(alloc, core, 1)?;
    let (parts, number) = both_parts(alloc, core)?;
    put_parts(core, parts)?;
    Ok(number)
}

fn check_done_join(alloc: Global, done: &Done<CAP>, number: usize) -> Result<(), Fail> {
    check_join(done.ticket())?;
    check_joined(alloc, done.out())?;
    check_added(alloc, done, number)
}
