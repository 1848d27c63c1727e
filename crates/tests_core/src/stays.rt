//! Stays that are admitted and leave, call by call.
use crate::player::{CAP, core_of, hand, play_one};
use bs_block::Block;
use bs_board::{Command, Refusal, Reply};
use bs_samples::{holds, new_solo, plan_of, row, same};
use bs_sched::{Admit, Core, Counts, Leave, SharedRow, blocks_of};
use std::alloc::Global;
use std::test::Fail;

/// Blocks for two stays of quota 64.
const BLOCKS: usize = 12;

fn core_with_a(alloc: Global) -> Result<Core<CAP>, Fail> {
    core_of(alloc, &[("a", 64)], BLOCKS)
}

/// Checks the answer to the admission of a stay of that name with a quota of 64.
fn check_admit(
    alloc: Global,
    core: &mut Core<CAP>,
    name: &str,
    answer: Result<usize, Admit>,
) -> Result<(), Fail> {
    same(name, core.admit(alloc, row(alloc, name, 64)?), answer)
}

/// Checks the answer to the leave of that stay.
fn check_leave(
    alloc: Global,
    core: &mut Core<CAP>,
    game: usize,
    answer: Result<(), Leave>,
) -> Result<(), Fail> {
    holds("a stay", game < core.rows())?;
    same("leave", core.leave(alloc, game), answer)
}

fn check_free(core: &Core<CAP>, free: usize) -> Result<(), Fail> {
    let counts = Counts {
        free,
        held: BLOCKS.saturating_sub(free),
        size: BLOCKS,
    };
    same("blocks", core.counts(), counts)
}

/// Checks whether the stay is open, its charge, and how many records and replies it has.
fn check_stay(
    core: &Core<CAP>,
    game: usize,
    is_open: bool,
    charge: u32,
    replies: usize,
) -> Result<(), Fail> {
    holds("a stay", game < core.rows())?;
    same("open", core.is_open(game), is_open)?;
    same("charge", core.charge(game), charge)?;
    same("records", core.count(game), 0)?;
    same("replies", core.replies(game).len(), replies)
}

/// Checks the turn of the stay's last board.
fn check_turn(alloc: Global, core: &Core<CAP>, game: usize, turn: Option<u16>) -> Result<(), Fail> {
    holds("a stay", game < core.rows())?;
    let board = core.board(alloc, game)?;
    same("turn", board.as_ref().map(|board| board.turn), turn)
}

/// Checks the number of stays that were ever open.
fn check_rows(core: &Core<CAP>, rows: usize) -> Result<(), Fail> {
    same("rows", core.rows(), rows)
}

/// Admits `b`, after which there are no blocks for another stay.
fn admit_b(alloc: Global, core: &mut Core<CAP>) -> Result<(), Fail> {
    check_admit(alloc, core, "b", Ok(1))?;
    let short = Admit::Short { free_to_reserve: 0 };
    check_admit(alloc, core, "c", Err(short))?;
    check_rows(core, 2)
}

/// Plays a command in `b`, which leaves once it is answered.
fn play_and_leave(alloc: Global, core: &mut Core<CAP>) -> Result<(), Fail> {
    hand(alloc, core, 1, new_solo(alloc, 3)?)?;
    check_leave(alloc, core, 1, Err(Leave::Busy))?;
    play_one(alloc, core, 0)?;
    check_free(core, BLOCKS - 1)?;
    check_leave(alloc, core, 1, Ok(()))?;
    check_free(core, BLOCKS)
}

/// Admits `c` once `b` has left.
fn admit_c(alloc: Global, core: &mut Core<CAP>) -> Result<(), Fail> {
    check_admit(alloc, core, "c", Ok(2))?;
    check_leave(alloc, core, 1, Err(Leave::Closed))?;
    check_turn(alloc, core, 1, Some(0))?;
    check_rows(core, 3)?;
    check_stay(core, 1, false, 32, 1)?;
    check_stay(core, 2, true, 0, 0)?;
    check_admit(alloc, core, "c", Err(Admit::NameOpen))
}

#[test]
fn a_stay_comes_and_goes(rt: HostRuntime) -> Result<(), Fail> {
    let alloc = rt.alloc();
    let mut core = core_with_a(alloc)?;
    admit_b(alloc, &mut core)?;
    play_and_leave(alloc, &mut core)?;
    admit_c(alloc, &mut core)?;
    // Three admissions and leaves; one command was queued, and its job taken and completed.
    let events = core.journal().to_vec(alloc)?;
    same("events", events.len(), 6)
}

fn check_no_game(core: &Core<CAP>, game: usize) -> Result<(), Fail> {
    holds("a stay", game < core.rows())?;
    let replies = core.replies(game);
    holds("one reply", replies.len() == 1)?;
    holds(
        "no game",
        matches!(replies[0], Reply::Refused(Refusal::NoGame)),
    )
}

/// A stay with the name of one that left starts empty, also after `fail`.
#[test]
fn a_name_comes_again(rt: HostRuntime) -> Result<(), Fail> {
    let alloc = rt.alloc();
    let mut core = core_with_a(alloc)?;
    play_again(alloc, &mut core)?;
    check_again(alloc, &core)?;
    core.fail();
    leave_again(alloc, &mut core)
}

/// Plays a command in `a`, which leaves and is admitted again, and one in the second stay.
fn play_again(alloc: Global, core: &mut Core<CAP>) -> Result<(), Fail> {
    hand(alloc, core, 0, new_solo(alloc, 5)?)?;
    play_one(alloc, core, 0)?;
    check_leave(alloc, core, 0, Ok(()))?;
    check_admit(alloc, core, "a", Ok(1))?;
    hand(alloc, core, 1, Command::Show)?;
    play_one(alloc, core, 0)
}

/// Checks that the second stay of `a` has nothing of the first.
fn check_again(alloc: Global, core: &Core<CAP>) -> Result<(), Fail> {
    check_rows(core, 2)?;
    check_stay(core, 0, false, 32, 1)?;
    check_stay(core, 1, true, 0, 1)?;
    check_turn(alloc, core, 1, None)?;
    check_no_game(core, 1)
}

/// Leaves the second stay of `a`, and admits another one.
fn leave_again(alloc: Global, core: &mut Core<CAP>) -> Result<(), Fail> {
    check_leave(alloc, core, 1, Ok(()))?;
    check_admit(alloc, core, "b", Ok(2))?;
    check_free(core, BLOCKS)
}

/// At most 64 stays are open: the next one is refused, and admitted once another has left.
#[test]
fn sixty_four_are_open(rt: HostRuntime) -> Result<(), Fail> {
    let alloc = rt.alloc();
    let mut core = core_of(alloc, &[("a", 64)], 64 * 6 + 6)?;
    fill(alloc, &mut core)?;
    check_full(alloc, &mut core)
}

/// Admits 63 stays.
fn fill(alloc: Global, core: &mut Core<CAP>) -> Result<(), Fail> {
    for number in 1..64 {
        let name = format!(in alloc; "n{number}")?;
        check_admit(alloc, core, name.as_str(), Ok(number))?;
    }
    Ok(())
}

/// Checks that no stay is admitted to a core of 64 stays until one leaves.
fn check_full(alloc: Global, core: &mut Core<CAP>) -> Result<(), Fail> {
    check_admit(alloc, core, "a", Err(Admit::NameOpen))?;
    check_admit(alloc, core, "more", Err(Admit::Full))?;
    check_leave(alloc, core, 7, Ok(()))?;
    check_admit(alloc, core, "more", Ok(64))
}

/// Closes the only stay of the core, whose blocks move to the list.
fn close(alloc: Global, core: Core<CAP>, blocks: &mut Vec<Block<CAP>>) -> Result<(), Fail> {
    holds("one stay", core.rows() == 1)?;
    holds("open", core.is_open(0))?;
    holds("quiet", core.is_quiet())?;
    core.close_alone(alloc, blocks)?;
    Ok(())
}

/// Opens a core of `b` alone, with blocks of the list.
fn open_b(alloc: Global, blocks: &mut Vec<Block<CAP>>) -> Result<Core<CAP>, Fail> {
    let row = row(alloc, "b", 64)?;
    holds("enough blocks", blocks_of(CAP, &row) <= blocks.len())?;
    Ok(Core::<CAP>::open_alone(alloc, &row, 2, blocks)?)
}

/// A stay of quota 64 reserves six blocks. Once it has left its core, they are those of the next
/// one.
#[test]
fn the_blocks_of_a_closed_core_serve_the_next(rt: HostRuntime) -> Result<(), Fail> {
    let alloc = rt.alloc();
    let mut core = core_of(alloc, &[("a", 64)], 6)?;
    hand(alloc, &mut core, 0, new_solo(alloc, 3)?)?;
    play_one(alloc, &mut core, 0)?;
    let mut blocks = Vec::new(alloc);
    close(alloc, core, &mut blocks)?;
    same("blocks of the closed core", blocks.len(), 6)?;
    let next = open_b(alloc, &mut blocks)?;
    same("blocks that are left", blocks.len(), 0)?;
    holds("one stay", next.rows() == 1)?;
    let lone = next.into_lone();
    drop(lone);
    Ok(())
}

/// All blocks of a core that was just opened are free once it is taken apart.
#[test]
fn a_new_core_is_taken_apart(rt: HostRuntime) -> Result<(), Fail> {
    let alloc = rt.alloc();
    let core = Core::<CAP>::open(alloc, plan_of(alloc, &[("a", 64)])?, BLOCKS, 2)?;
    let rest = core.into_rest(alloc)?;
    same("rows", rest.rows.as_slice().len(), 1)?;
    same("workers", rest.workers, 2)?;
    same("blocks", rest.blocks, BLOCKS)?;
    same("free", rest.free.len(), BLOCKS)
}

/// Both handles have the row.
#[test]
fn a_row_is_shared(rt: HostRuntime) -> Result<(), Fail> {
    let alloc = rt.alloc();
    let first = SharedRow::new(alloc, row(alloc, "a", 64)?)?;
    let second = first.share()?;
    same("quota", second.get().quota, 64)?;
    holds("name", second.get().game == first.get().game)
}
