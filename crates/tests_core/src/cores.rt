//! Cores of small plans, played job by job.
use crate::player::{
    CAP, DoneParts, core_of, finish, hand, play_all, play_one, put, put_parts, take, take_done,
    take_part,
};
use arrayvec::ArrayVec;
use bs_board::{Command, Direction, Refusal, Reply, TurnNumber, Word};
use bs_counter::{PartKey, Parted};
use bs_fiber::{Done, JobKind, JobName, SharedCommand, Ticket, work};
use bs_samples::{holds, new_of_three, new_solo, plan_of, same, straight_on, third_goes};
use bs_sched::{Core, Counts, Open, Taken, blocks_of, blocks_of_all};
use std::alloc::Global;
use std::sync::Wait;
use std::test::Fail;

/// Opens a core of one game and six blocks.
pub(crate) fn core_of_one(alloc: Global, name: &str, quota: u32) -> Result<Core<CAP>, Fail> {
    core_of(alloc, &[(name, quota)], 6)
}

/// Checks the ticket of `show`, the second command, after the first one left one record.
fn check_second_ticket(ticket: &Ticket<CAP>) -> Result<(), Fail> {
    same("number of the command", ticket.seq(), 2)?;
    same("kept records", ticket.kept(), 1)?;
    same("worker", ticket.worker(), 0)?;
    holds("show", matches!(ticket.command(), Command::Show))?;
    holds("no parts", ticket.parts().is_empty())
}

/// Checks that the ticket has the only record of the only game.
fn check_last(core: &Core<CAP>, ticket: &Ticket<CAP>) -> Result<(), Fail> {
    let last = ticket.last().ok_or("a newest record")?;
    holds("a game", core.rows() == 1)?;
    holds("one record", core.count(0) == 1)?;
    same("newest record", last.as_slice(), core.records(0, 0))
}

/// Checks the ticket of the first command.
fn check_first_ticket(ticket: &Ticket<CAP>) -> Result<(), Fail> {
    same("number of the command", ticket.seq(), 1)?;
    same("kept records", ticket.kept(), 0)?;
    holds("no newest record", ticket.last().is_none())
}

/// Plays the first command as worker 0.
fn play_first(alloc: Global, core: &mut Core<CAP>) -> Result<(), Fail> {
    let done = take_done(alloc, core, 0)?;
    check_first_ticket(done.ticket())?;
    put(core, 0, done)
}

/// Takes the second command as worker 0, and runs it.
fn take_second(alloc: Global, core: &mut Core<CAP>) -> Result<Done<CAP>, Fail> {
    holds("two workers", core.workers() == 2)?;
    let Taken::Job(ticket) = core.take(alloc, 0)? else {
        return Err(Fail::from("no job"));
    };
    check_second_ticket(&ticket)?;
    check_last(core, &ticket)?;
    Ok(work(alloc, ticket)?)
}

/// Plays two commands, the second in the memory of the first one's ticket.
fn play_over(alloc: Global, core: &mut Core<CAP>) -> Result<(), Fail> {
    hand(alloc, core, 0, Command::Show)?;
    play_first(alloc, core)?;
    let done = take_second(alloc, core)?;
    put(core, 0, done)?;
    holds("quiet", core.is_quiet())
}

/// The ticket of `show` reuses the memory of that of `new`: everything in it is the second
/// command's.
#[test]
fn a_ticket_takes_the_place_of_a_spent_one(rt: HostRuntime) -> Result<(), Fail> {
    let alloc = rt.alloc();
    let mut core = core_of_one(alloc, "a", 4096)?;
    hand(alloc, &mut core, 0, new_of_three(alloc)?)?;
    play_over(alloc, &mut core)
}

fn check_job(done: &Done<CAP>, kind: JobKind, part: u8) -> Result<(), Fail> {
    let wanted = JobName {
        game: 0,
        kind,
        part,
    };
    same("job", done.ticket().job(), wanted)
}

fn check_free(core: &Core<CAP>, free: usize) -> Result<(), Fail> {
    let counts = Counts {
        free,
        held: 6usize.saturating_sub(free),
        size: 6,
    };
    same("blocks", core.counts(), counts)
}

const TWO: [(&str, u32); 2] = [("a", 64), ("b", 64)];

/// Opens a core of two games and three workers.
fn open_two(alloc: Global, blocks: usize) -> Result<Result<Core<CAP>, Open>, Fail> {
    let plan = plan_of(alloc, &TWO)?;
    Ok(Core::<CAP>::open(alloc, plan, blocks, 3))
}

/// Compares the number of blocks that the two games need.
fn check_blocks_of_all(alloc: Global) -> Result<(), Fail> {
    let plan = plan_of(alloc, &TWO)?;
    same("blocks", blocks_of_all(CAP, plan.rows.as_slice()), 12)
}

#[test]
fn opens_within_its_blocks(rt: HostRuntime) -> Result<(), Fail> {
    let alloc = rt.alloc();
    let short = open_two(alloc, 11)?;
    same("11 blocks", short.err(), Some(Open::Short))?;

    check_blocks_of_all(alloc)?;
    let core = open_two(alloc, 12)??;
    check_twelve(&core)?;
    check_row(&core)?;
    check_opened(alloc, &core)
}

/// Checks the blocks and the workers of a core of two games that were not played.
fn check_twelve(core: &Core<CAP>) -> Result<(), Fail> {
    let counts = Counts {
        free: 12,
        held: 0,
        size: 12,
    };
    same("counts", core.counts(), counts)?;
    same("workers", core.workers(), 3)?;
    holds("quiet", core.is_quiet())
}

/// Checks the second row.
fn check_row(core: &Core<CAP>) -> Result<(), Fail> {
    holds("two games", core.rows() == 2)?;
    let row = core.row(1);
    same("quota", row.quota, 64)?;
    same("blocks", blocks_of(CAP, row), 6)
}

/// Checks that the first game was not played.
fn check_opened(alloc: Global, core: &Core<CAP>) -> Result<(), Fail> {
    holds("two games", core.rows() == 2)?;
    same("records", core.count(0), 0)?;
    same("charge", core.charge(0), 0)?;
    holds("no board", core.board(alloc, 0)?.is_none())
}

/// What the readers of a core of one game return.
#[derive(Clone, Copy, Debug, PartialEq, Eq)]
struct Readings {
    events: usize,
    counts: Counts,
    taken: usize,
    replies: usize,
    records: usize,
    charge: u32,
    is_quiet: bool,
}

fn read_all(alloc: Global, core: &Core<CAP>) -> Result<Readings, Fail> {
    holds("a game", core.rows() == 1)?;
    Ok(Readings {
        events: core.journal().to_vec(alloc)?.len(),
        counts: core.counts(),
        taken: core.taken(0).len(),
        replies: core.replies(0).len(),
        records: core.count(0),
        charge: core.charge(0),
        is_quiet: core.is_quiet(),
    })
}

/// Checks the turn of the board of a core of one game.
fn check_turn(alloc: Global, core: &Core<CAP>, turn: u16) -> Result<(), Fail> {
    holds("a game", core.rows() == 1)?;
    let board = core.board(alloc, 0)?.ok_or("a board")?;
    same("turn", board.turn, turn)
}

fn check_refused_put(core: &mut Core<CAP>, worker: usize, done: Done<CAP>) -> Result<(), Fail> {
    holds("a stray", core.put(worker, done).is_err())
}

/// While a job is out, the result of another core is a stray, and so is the job if it comes from a
/// worker that has not taken it.
fn check_two_strays(alloc: Global, core: &mut Core<CAP>, foreign: Done<CAP>) -> Result<(), Fail> {
    hand(alloc, core, 0, Command::Show)?;
    let done = take_done(alloc, core, 0)?;
    let before = read_all(alloc, core)?;
    check_refused_put(core, 0, foreign)?;
    check_refused_put(core, 1, done)?;
    same("readings", read_all(alloc, core)?, before)?;
    check_free(core, 5)?;
    same("commands taken", before.taken, 2)?;
    check_turn(alloc, core, 0)
}

/// Opens a core of one game, and takes and runs the Begin of its `new` as worker 0.
fn core_with_begin(alloc: Global) -> Result<(Core<CAP>, Done<CAP>), Fail> {
    let mut core = core_of_one(alloc, "a", 4096)?;
    hand(alloc, &mut core, 0, new_solo(alloc, 3)?)?;
    let done = take_done(alloc, &mut core, 0)?;
    Ok((core, done))
}

fn check_busy(alloc: Global, core: &mut Core<CAP>, worker: usize) -> Result<(), Fail> {
    let is_busy = matches!(take(alloc, core, worker)?, Taken::Busy);
    holds("busy", is_busy)
}

#[test]
fn results_of_another_core_are_strays(rt: HostRuntime) -> Result<(), Fail> {
    let alloc = rt.alloc();
    let (mut core, done) = core_with_begin(alloc)?;
    put_begin(alloc, &mut core, done)?;
    let (_, foreign) = core_with_begin(alloc)?;
    check_foreign(alloc, &mut core, foreign)
}

/// Completes a Begin as worker 0, which is busy before.
fn put_begin(alloc: Global, core: &mut Core<CAP>, done: Done<CAP>) -> Result<(), Fail> {
    check_job(&done, JobKind::Begin, 0)?;
    check_nothing(alloc, core, 1)?;
    check_busy(alloc, core, 0)?;
    put(core, 0, done)
}

/// Checks that the Begin of another core is a stray, before and while a job is out.
fn check_foreign(alloc: Global, core: &mut Core<CAP>, foreign: Done<CAP>) -> Result<(), Fail> {
    let foreign = check_stray(alloc, core, foreign)?;
    check_job(&foreign, JobKind::Begin, 0)?;
    check_replies(alloc, core, 1)?;
    check_two_strays(alloc, core, foreign)
}

/// Checks the number of replies.
fn check_replies(alloc: Global, core: &Core<CAP>, replies: usize) -> Result<(), Fail> {
    same("replies", read_all(alloc, core)?.replies, replies)
}

fn check_nothing(alloc: Global, core: &mut Core<CAP>, worker: usize) -> Result<(), Fail> {
    let is_nothing = matches!(take(alloc, core, worker)?, Taken::Nothing);
    holds("nothing to take", is_nothing)
}

/// Checks that the core refuses the result, and that this leaves it unchanged.
fn check_stray(alloc: Global, core: &mut Core<CAP>, done: Done<CAP>) -> Result<Done<CAP>, Fail> {
    let before = read_all(alloc, core)?;
    let Err(stray) = core.put(0, done) else {
        return Err(Fail::from("no stray"));
    };
    same("readings", read_all(alloc, core)?, before)?;
    Ok(stray.done)
}

/// Checks that the core refuses the list, and that this leaves it unchanged.
fn check_strays(alloc: Global, core: &mut Core<CAP>, parts: DoneParts) -> Result<DoneParts, Fail> {
    let before = read_all(alloc, core)?;
    let Err(strays) = core.put_parts(parts) else {
        return Err(Fail::from("not all parts of the move"));
    };
    same("readings", read_all(alloc, core)?, before)?;
    Ok(strays.parts)
}

/// A part by itself is a stray, and so is a list of it alone while the move has two parts.
fn check_part_strays(
    alloc: Global,
    core: &mut Core<CAP>,
    done: Done<CAP>,
) -> Result<Done<CAP>, Fail> {
    let done = check_stray(alloc, core, done)?;
    drop(check_strays(alloc, core, ArrayVec::new())?);
    let mut one = ArrayVec::new();
    one.push(Some(done));
    let mut one = check_strays(alloc, core, one)?;
    holds("the list of one part", one.len() == 1)?;
    Ok(one.remove(0).ok_or("the part")?)
}

/// Takes a job as that worker and checks that it is that part.
fn take_part_of(
    alloc: Global,
    core: &mut Core<CAP>,
    worker: usize,
    part: u8,
) -> Result<(Done<CAP>, PartKey<Done<CAP>>), Fail> {
    let (done, key) = take_part(alloc, core, worker)?;
    check_job(&done, JobKind::Part, part)?;
    Ok((done, key))
}

/// Both parts are out with one worker. The second is finished first, and both are completed at
/// once.
fn play_parts(alloc: Global, core: &mut Core<CAP>) -> Result<(), Fail> {
    let (one, first_key) = take_part_of(alloc, core, 0, 0)?;
    let (two, second_key) = take_part_of(alloc, core, 0, 1)?;
    check_nothing(alloc, core, 1)?;
    let one = check_part_strays(alloc, core, one)?;
    holds("one part is missing", finish(second_key, two)?.is_none())?;
    check_nothing(alloc, core, 1)?;
    let parts = finish(first_key, one)?.ok_or("the last part")?;
    check_in_order(&parts)?;
    put_parts(core, parts)
}

fn check_in_order(parts: &DoneParts) -> Result<(), Fail> {
    same("parts", parts.len(), 2)?;
    for (place, part) in parts.as_slice().iter().enumerate() {
        let done = part.as_ref().ok_or("a part")?;
        same("part", done.part(), place)?;
    }
    Ok(())
}

fn play_join(alloc: Global, core: &mut Core<CAP>) -> Result<(), Fail> {
    let join = take_done(alloc, core, 1)?;
    check_job(&join, JobKind::Join, 0)?;
    check_nothing(alloc, core, 0)?;
    holds("not quiet", !core.is_quiet())?;
    put(core, 1, join)?;
    holds("quiet", core.is_quiet())
}

/// Plays the Begin of a command as that worker.
fn play_begin(alloc: Global, core: &mut Core<CAP>, worker: usize) -> Result<(), Fail> {
    let done = take_done(alloc, core, worker)?;
    check_job(&done, JobKind::Begin, 0)?;
    put(core, worker, done)
}

#[test]
fn a_move_goes_in_parts(rt: HostRuntime) -> Result<(), Fail> {
    let alloc = rt.alloc();
    let mut core = core_of_one(alloc, "b", 4096)?;
    play_move(alloc, &mut core)?;
    check_moved(alloc, &core)
}

/// Plays a `new` and a move of two parts.
fn play_move(alloc: Global, core: &mut Core<CAP>) -> Result<(), Fail> {
    hand(alloc, core, 0, new_of_three(alloc)?)?;
    hand(alloc, core, 0, third_goes(alloc, Direction::Down)?)?;
    play_begin(alloc, core, 1)?;
    play_begin(alloc, core, 0)?;
    check_free(core, 5)?;
    play_parts(alloc, core)?;
    play_join(alloc, core)
}

/// Checks a core of one game that has answered a `new` and a move.
pub(crate) fn check_moved(alloc: Global, core: &Core<CAP>) -> Result<(), Fail> {
    check_free(core, 5)?;
    let readings = read_all(alloc, core)?;
    same("charge", readings.charge, 128)?;
    same("records", readings.records, 2)?;
    same("replies", readings.replies, 2)?;
    check_turn(alloc, core, 1)
}

/// The Begins of a `new` and of a move hold one block, for the record.
fn play_counted_begins(alloc: Global, core: &mut Core<CAP>) -> Result<(), Fail> {
    hand(alloc, core, 0, new_of_three(alloc)?)?;
    play_begin(alloc, core, 0)?;
    check_free(core, 5)?;
    hand(alloc, core, 0, third_goes(alloc, Direction::Down)?)?;
    check_free(core, 5)?;
    play_begin(alloc, core, 0)?;
    check_free(core, 5)
}

/// Each part that is taken draws a block, which stays drawn while the parts are completed.
fn play_counted_parts(alloc: Global, core: &mut Core<CAP>) -> Result<(), Fail> {
    let (one, first_key) = take_part(alloc, core, 0)?;
    check_free(core, 4)?;
    let (two, second_key) = take_part(alloc, core, 1)?;
    check_free(core, 3)?;
    holds("one part is missing", finish(second_key, two)?.is_none())?;
    check_free(core, 3)?;
    let parts = finish(first_key, one)?.ok_or("the last part")?;
    check_free(core, 3)?;
    put_parts(core, parts)?;
    check_free(core, 3)
}

/// Completing the Join gives the blocks of both parts back.
fn play_counted_join(alloc: Global, core: &mut Core<CAP>) -> Result<(), Fail> {
    let join = take_done(alloc, core, 0)?;
    check_job(&join, JobKind::Join, 0)?;
    check_free(core, 3)?;
    put(core, 0, join)?;
    check_free(core, 5)?;
    check_charge(alloc, core, 128)
}

fn check_charge(alloc: Global, core: &Core<CAP>, charge: u32) -> Result<(), Fail> {
    same("charge", read_all(alloc, core)?.charge, charge)
}

#[test]
fn each_part_holds_a_block_until_the_answer(rt: HostRuntime) -> Result<(), Fail> {
    let alloc = rt.alloc();
    let mut core = core_of_one(alloc, "b", 4096)?;
    play_counted_begins(alloc, &mut core)?;
    play_counted_parts(alloc, &mut core)?;
    play_counted_join(alloc, &mut core)
}

/// Checks that the reply to the command of that number shows a board: its word, its turn and the
/// charge.
fn check_shown(
    alloc: Global,
    core: &Core<CAP>,
    number: usize,
    (word, turn, charge): (Word, u16, u32),
) -> Result<(), Fail> {
    holds("a game", core.rows() == 1)?;
    let Some(Reply::Shown(said, kept, charged)) = core.replies(0).get(number) else {
        return Err(Fail::from("not shown"));
    };
    same("word", *said, word)?;
    same("charge", *charged, charge)?;
    same("turn", kept.board(alloc)?.turn, turn)
}

/// Checks that the reply to the command of that number is that refusal.
fn check_refused(core: &Core<CAP>, number: usize, reason: Refusal) -> Result<(), Fail> {
    holds("a game", core.rows() == 1)?;
    let Some(Reply::Refused(why)) = core.replies(0).get(number) else {
        return Err(Fail::from("not refused"));
    };
    same("reason", *why, reason)
}

fn hand_turn(alloc: Global, core: &mut Core<CAP>, turn: u16) -> Result<(), Fail> {
    let turn = TurnNumber::new(turn).ok_or("a turn")?;
    hand(alloc, core, 0, Command::Turn(turn))
}

/// A game with a quota of two records is refused a third one, frees one, and goes on.
pub(crate) fn hand_over_quota(alloc: Global, core: &mut Core<CAP>) -> Result<(), Fail> {
    hand(alloc, core, 0, new_solo(alloc, 5)?)?;
    hand(alloc, core, 0, straight_on(alloc))?;
    hand(alloc, core, 0, straight_on(alloc))?;
    hand(alloc, core, 0, Command::Free)?;
    hand(alloc, core, 0, straight_on(alloc))?;
    hand_turn(alloc, core, 0)?;
    hand_turn(alloc, core, 1)
}

/// Checks that the reply to the command of that number is plain.
fn check_plain(core: &Core<CAP>, number: usize, (word, charge): (Word, u32)) -> Result<(), Fail> {
    holds("a game", core.rows() == 1)?;
    let Some(Reply::Plain(said, charged)) = core.replies(0).get(number) else {
        return Err(Fail::from("not plain"));
    };
    same("word and charge", (*said, *charged), (word, charge))
}

pub(crate) fn check_over_quota(alloc: Global, core: &Core<CAP>) -> Result<(), Fail> {
    let readings = read_all(alloc, core)?;
    same("replies", readings.replies, 7)?;
    same("records", readings.records, 2)?;
    check_shown(alloc, core, 0, (Word::New, 0, 32))?;
    check_shown(alloc, core, 1, (Word::Move, 1, 64))?;
    check_refused(core, 2, Refusal::Quota)?;
    check_plain(core, 3, (Word::Free, 32))?;
    check_shown(alloc, core, 4, (Word::Move, 2, 64))?;
    check_refused(core, 5, Refusal::NoRecord)?;
    check_shown(alloc, core, 6, (Word::Turn, 1, 64))
}

#[test]
fn quota_of_two_records(rt: HostRuntime) -> Result<(), Fail> {
    let alloc = rt.alloc();
    let mut core = core_of_one(alloc, "a", 64)?;
    hand_over_quota(alloc, &mut core)?;
    play_all(&rt, alloc, &mut core, 2)?;
    holds("quiet", core.is_quiet())?;
    check_over_quota(alloc, &core)
}

/// Queues the shared command for the only game.
fn hand_shared(core: &mut Core<CAP>, command: &SharedCommand) -> Result<(), Fail> {
    holds("a game", core.rows() == 1)?;
    holds("an open game", core.is_open(0))?;
    Ok(core.hand(0, command.share()?)?)
}

/// Opens a core of that game in which the same command was queued twice.
fn core_with_shared(alloc: Global, name: &str, shared: &SharedCommand) -> Result<Core<CAP>, Fail> {
    let mut core = core_of_one(alloc, name, 4096)?;
    hand_shared(&mut core, shared)?;
    hand_shared(&mut core, shared)?;
    Ok(core)
}

/// A command that two cores share is answered in each of them.
#[test]
fn two_cores_hold_one_command(rt: HostRuntime) -> Result<(), Fail> {
    let alloc = rt.alloc();
    let shared = SharedCommand::new(alloc, new_solo(alloc, 3)?)?;
    for name in ["a", "b"] {
        let mut core = core_with_shared(alloc, name, &shared)?;
        play_all(&rt, alloc, &mut core, 0)?;
        check_answered_twice(alloc, &core)?;
    }
    Ok(())
}

/// Checks the replies to the same `new` twice.
fn check_answered_twice(alloc: Global, core: &Core<CAP>) -> Result<(), Fail> {
    check_replies(alloc, core, 2)?;
    check_shown(alloc, core, 0, (Word::New, 0, 32))?;
    check_refused(core, 1, Refusal::Running)
}

fn check_failed(alloc: Global, core: &mut Core<CAP>, worker: usize) -> Result<(), Fail> {
    let has_failed = matches!(take(alloc, core, worker)?, Taken::Failed);
    holds("failed", has_failed)
}

#[test]
fn jobs_come_back_after_a_failure(rt: HostRuntime) -> Result<(), Fail> {
    let alloc = rt.alloc();
    let mut core = core_of_one(alloc, "a", 64)?;
    hand(alloc, &mut core, 0, new_solo(alloc, 5)?)?;
    fail_with_a_job_out(alloc, &mut core)
}

/// Queues an `end`. The core fails while worker 0 is at the Begin of the first command.
fn fail_with_a_job_out(alloc: Global, core: &mut Core<CAP>) -> Result<(), Fail> {
    hand(alloc, core, 0, Command::End)?;
    let done = take_done(alloc, core, 0)?;
    fail(core)?;
    check_failed(alloc, core, 0)?;
    check_failed(alloc, core, 1)?;
    put(core, 0, done)?;
    check_replies(alloc, core, 1)?;
    check_failed(alloc, core, 0)
}

pub(crate) fn fail(core: &mut Core<CAP>) -> Result<(), Fail> {
    holds("not failed", !core.has_failed())?;
    core.fail();
    holds("failed", core.has_failed())
}
