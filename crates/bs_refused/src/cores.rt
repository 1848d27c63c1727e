//! A tally; and a core whose stays are admitted and leave, and whose commands are queued, and are
//! answered job by job or where they are.
use crate::fault::Fault;
use crate::page::Page;
use crate::play::{CAP, Job, answer_next, commands, hand, opened, put_job, take};
use crate::scene::{Act, Question, look, tried};
use crate::values::{bytes_of, row_of};
use bs_board::{Board, Command, Row};
use bs_counter::{PartKey, Tally};
use bs_fiber::Done;
use bs_samples::new_of_three;
use bs_sched::{Core, Counts};
use std::alloc::Global;
use std::test::Fail;

/// `Tally::open`, for a number of parts: the parts of its keys.
pub struct OpenTally;

impl Question for OpenTally {
    type On = usize;

    type Answer = Vec<usize>;

    fn call(alloc: Global, on: &usize) -> Result<Vec<usize>, Fault> {
        if *on < 1 || *on > 4 {
            return Err(Fault::OtherKey);
        }
        let keys: Vec<PartKey<Done<CAP>>> = Tally::open(alloc, *on)?;
        let mut parts = Vec::new(alloc);
        for key in &keys {
            parts.push(key.part())?;
        }
        Ok(parts)
    }
}

/// What the readers of a core return for a stay.
#[derive(Debug, Drop)]
struct StaySeen {
    row: Row,
    is_open: bool,
    taken: usize,
    replies: usize,
    charge: u32,
    records: Vec<Vec<u8>>,
}

/// What the readers of a core return.
#[derive(Debug, Drop)]
pub struct Seen {
    counts: Counts,
    workers: usize,
    events: usize,
    is_quiet: bool,
    has_failed: bool,
    stays: Vec<StaySeen>,
}

fn records_of(alloc: Global, core: &Core<CAP>, game: usize) -> Result<Vec<Vec<u8>>, Fault> {
    let mut records = Vec::new(alloc);
    if game >= core.rows() {
        return Ok(records);
    }
    for place in 0..core.count(game) {
        records.push(bytes_of(alloc, core.records(game, place))?)?;
    }
    Ok(records)
}

fn seen_stay(alloc: Global, core: &Core<CAP>, game: usize) -> Result<StaySeen, Fault> {
    let records = records_of(alloc, core, game)?;
    if game >= core.rows() {
        return Err(Fault::NoStay);
    }
    Ok(StaySeen {
        row: core.row(game).copy(alloc)?,
        is_open: core.is_open(game),
        taken: core.taken(game).len(),
        replies: core.replies(game).len(),
        charge: core.charge(game),
        records,
    })
}

fn seen_stays(alloc: Global, core: &Core<CAP>) -> Result<Vec<StaySeen>, Fault> {
    let mut stays = Vec::new(alloc);
    for game in 0..core.rows() {
        stays.push(seen_stay(alloc, core, game)?)?;
    }
    Ok(stays)
}

/// Calls the readers of a core.
pub fn seen_core(alloc: Global, core: &Core<CAP>) -> Result<Seen, Fault> {
    let stays = seen_stays(alloc, core)?;
    Ok(Seen {
        counts: core.counts(),
        workers: core.workers(),
        events: core.journal().to_vec(alloc)?.len(),
        is_quiet: core.is_quiet(),
        has_failed: core.has_failed(),
        stays,
    })
}

/// `Core::open`, with a number of blocks.
pub struct OpenCore;

impl Question for OpenCore {
    type On = usize;

    type Answer = Seen;

    fn call(alloc: Global, on: &usize) -> Result<Seen, Fault> {
        let core = opened(alloc, *on)?;
        seen_core(alloc, &core)
    }
}

/// `Core::hand`.
#[derive(Drop)]
struct Handing<'c> {
    game: usize,
    command: &'c Command,
}

impl<'c> Act for Handing<'c> {
    type State = Core<CAP>;

    type Seen = Seen;

    type Answer = ();

    fn readers(alloc: Global, state: &Core<CAP>) -> Result<Seen, Fault> {
        seen_core(alloc, state)
    }

    fn call(&self, alloc: Global, state: &mut Core<CAP>) -> Result<(), Fault> {
        hand(alloc, state, self.game, self.command)
    }
}

/// `Core::take`, by the caller's own worker.
pub struct Taking;

impl Act for Taking {
    type State = Core<CAP>;

    type Seen = Seen;

    type Answer = Option<Job>;

    fn readers(alloc: Global, state: &Core<CAP>) -> Result<Seen, Fault> {
        seen_core(alloc, state)
    }

    fn call(&self, alloc: Global, state: &mut Core<CAP>) -> Result<Option<Job>, Fault> {
        take(alloc, state, 0)
    }
}

/// `Core::answer_here`, by the caller's own worker: whether there was a command.
struct Answering;

impl Act for Answering {
    type State = Core<CAP>;

    type Seen = Seen;

    type Answer = bool;

    fn readers(alloc: Global, state: &Core<CAP>) -> Result<Seen, Fault> {
        seen_core(alloc, state)
    }

    fn call(&self, alloc: Global, state: &mut Core<CAP>) -> Result<bool, Fault> {
        answer_next(alloc, state, 0)
    }
}

/// `Core::board`, which changes nothing.
#[derive(Drop)]
struct ReadBoard {
    game: usize,
}

impl Act for ReadBoard {
    type State = Core<CAP>;

    type Seen = Seen;

    type Answer = Option<Board>;

    fn readers(alloc: Global, state: &Core<CAP>) -> Result<Seen, Fault> {
        seen_core(alloc, state)
    }

    fn call(&self, alloc: Global, state: &mut Core<CAP>) -> Result<Option<Board>, Fault> {
        if self.game >= state.rows() {
            return Err(Fault::NoStay);
        }
        Ok(state.board(alloc, self.game)?)
    }
}

/// `Core::admit`: the row of the stay.
struct Admitting;

impl Act for Admitting {
    type State = Core<CAP>;

    type Seen = Seen;

    type Answer = usize;

    fn readers(alloc: Global, state: &Core<CAP>) -> Result<Seen, Fault> {
        seen_core(alloc, state)
    }

    fn call(&self, alloc: Global, state: &mut Core<CAP>) -> Result<usize, Fault> {
        let row = row_of(alloc, "b")?;
        Ok(state.admit(alloc, row)?)
    }
}

/// `Core::leave`.
#[derive(Drop)]
struct Leaving {
    game: usize,
}

impl Act for Leaving {
    type State = Core<CAP>;

    type Seen = Seen;

    type Answer = ();

    fn readers(alloc: Global, state: &Core<CAP>) -> Result<Seen, Fault> {
        seen_core(alloc, state)
    }

    fn call(&self, alloc: Global, state: &mut Core<CAP>) -> Result<(), Fault> {
        if self.game >= state.rows() {
            return Err(Fault::NoStay);
        }
        Ok(state.leave(alloc, self.game)?)
    }
}

fn try_board(page: &mut Page, core: &mut Core<CAP>, game: usize) -> Result<(), Fault> {
    let board = tried(page, &ReadBoard { game }, core)?;
    page.line("answer", &board);
    Ok(())
}

/// Takes, runs and completes a job. Returns whether there was one.
fn play_one(page: &mut Page, core: &mut Core<CAP>) -> Result<bool, Fault> {
    match tried(page, &Taking, core)? {
        Some(job) => {
            put_job(page.alloc(), core, 0, job)?;
            Ok(true)
        }
        None => Ok(false),
    }
}

/// Takes, runs and completes jobs until none is left.
fn play_on(page: &mut Page, core: &mut Core<CAP>) -> Result<(), Fault> {
    for _ in 0..40u32 {
        if !play_one(page, core)? {
            return Ok(());
        }
    }
    Err(Fault::Busy)
}

fn hand_all(page: &mut Page, core: &mut Core<CAP>, commands: &[Command]) -> Result<(), Fault> {
    for command in commands {
        tried(page, &Handing { game: 0, command }, core)?;
    }
    Ok(())
}

fn play_commands(page: &mut Page, core: &mut Core<CAP>) -> Result<(), Fail> {
    let commands = commands(page.alloc())?;
    hand_all(page, core, commands.as_slice())?;
    play_on(page, core)?;
    Ok(try_board(page, core, 0)?)
}

/// `Core::hand`, `take` and `board`: all commands, job by job, until none is left.
pub fn play_core(page: &mut Page) -> Result<(), Fail> {
    let mut core = opened(page.alloc(), 6)?;
    play_commands(page, &mut core)
}

/// Answers commands where they are until none is left.
fn answer_on(page: &mut Page, core: &mut Core<CAP>) -> Result<(), Fault> {
    for _ in 0..40u32 {
        if !tried(page, &Answering, core)? {
            return Ok(());
        }
    }
    Err(Fault::Busy)
}

fn answer_commands(page: &mut Page, core: &mut Core<CAP>) -> Result<(), Fail> {
    let commands = commands(page.alloc())?;
    hand_all(page, core, commands.as_slice())?;
    answer_on(page, core)?;
    Ok(try_board(page, core, 0)?)
}

/// `Core::answer_here`: all commands, each where it is, until none is left.
pub fn play_here(page: &mut Page) -> Result<(), Fail> {
    let mut core = opened(page.alloc(), 6)?;
    answer_commands(page, &mut core)
}

/// Plays a game in the stay.
fn play_stay(page: &mut Page, core: &mut Core<CAP>, game: usize) -> Result<(), Fail> {
    let new = new_of_three(page.alloc())?;
    tried(
        page,
        &Handing {
            game,
            command: &new,
        },
        core,
    )?;
    Ok(play_on(page, core)?)
}

/// `Core::admit`, and a game in that stay, which is the result.
fn try_stay(page: &mut Page, core: &mut Core<CAP>) -> Result<usize, Fail> {
    let game = tried(page, &Admitting, core)?;
    page.line("answer", &game);
    play_stay(page, core, game)?;
    Ok(game)
}

/// `Core::leave`, and the board of the stay that has left.
fn try_leave(page: &mut Page, core: &mut Core<CAP>, game: usize) -> Result<(), Fault> {
    tried(page, &Leaving { game }, core)?;
    try_board(page, core, game)
}

/// Admits a game, lets it leave and admits it again; then lets all leave.
fn come_and_go(page: &mut Page, core: &mut Core<CAP>) -> Result<(), Fail> {
    let first = try_stay(page, core)?;
    try_leave(page, core, first)?;
    let second = try_stay(page, core)?;
    try_leave(page, core, 0)?;
    try_leave(page, core, second)?;
    Ok(look::<Taking>(page, "answer", core)?)
}

/// `Core::admit` and `leave`.
pub fn play_stays(page: &mut Page) -> Result<(), Fail> {
    let mut core = opened(page.alloc(), 12)?;
    come_and_go(page, &mut core)
}
