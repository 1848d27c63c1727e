//! Two games in one core, by calls that are drawn from a fixed seed. Each game is compared with the
//! same game in a core for it alone.
use crate::player::{CAP, Worked, complete, hand, take_worked};
use bs_board::{Command, Direction};
use bs_fiber::JobName;
use bs_samples::{holds, new_of_three, new_solo, plan_of, same, straight_on, third_goes};
use bs_sched::Core;
use std::alloc::Global;
use std::fmt::Write;
use std::test::Fail;

const BLOCKS: usize = 12;

const WORKERS: usize = 3;

/// The number of lists of calls.
const LISTS: u64 = 200;

/// The largest number of calls in a list.
const CALLS: u32 = 60;

/// A pseudo-random sequence from a fixed seed.
#[derive(Clone, Copy)]
struct Draws {
    state: u64,
}

impl Draws {
    fn next(&mut self, below: u64) -> u64 {
        self.state = self
            .state
            .wrapping_mul(6_364_136_223_846_793_005)
            .wrapping_add(1_442_695_040_888_963_407);
        (self.state >> 33).checked_rem(below).unwrap_or(0)
    }
}

/// A job that the worker has taken in both cores.
#[derive(Drop)]
struct Out {
    worker: usize,
    game: usize,
    shared: Worked,
    lone: Worked,
}

/// The core of both games, and the core of each of them alone.
#[derive(Drop)]
struct Hosts {
    shared: Core<CAP>,
    lone: Vec<Core<CAP>>,
    out: Vec<Out>,
}

/// Makes the commands of the two games, in the order of their lines.
fn commands(alloc: Global) -> Result<Vec<(usize, Command)>, Fail> {
    let mut commands = Vec::new(alloc);
    commands.push((0, new_solo(alloc, 5)?))?;
    commands.push((1, new_of_three(alloc)?))?;
    commands.push((0, straight_on(alloc)))?;
    commands.push((1, third_goes(alloc, Direction::Down)?))?;
    commands.push((0, Command::End))?;
    commands.push((1, Command::Show))?;
    Ok(commands)
}

fn open(alloc: Global, rows: &[(&str, u32)]) -> Result<Core<CAP>, Fail> {
    Ok(Core::<CAP>::open(alloc, plan_of(alloc, rows)?, BLOCKS, WORKERS)?)
}

fn open_hosts(alloc: Global) -> Result<Hosts, Fail> {
    let mut lone = Vec::new(alloc);
    for row in [("a", 64), ("b", 4096)] {
        lone.push(open(alloc, &[row])?)?;
    }
    Ok(Hosts {
        shared: open(alloc, &[("a", 64), ("b", 4096)])?,
        lone,
        out: Vec::new(alloc),
    })
}

/// Queues the command for its game in both cores.
fn hand_next(alloc: Global, hosts: &mut Hosts, game: usize, command: &Command) -> Result<(), Fail> {
    hand(alloc, &mut hosts.shared, game, command.copy(alloc)?)?;
    let lone = hosts.lone.get_mut(game).ok_or("a game")?;
    hand(alloc, lone, 0, command.copy(alloc)?)
}

/// Takes a job as that worker in the core of both games, and checks that the game's own core gives
/// the same job.
fn take_next(alloc: Global, hosts: &mut Hosts, worker: usize) -> Result<(), Fail> {
    let Some(shared) = take_worked(alloc, &mut hosts.shared, worker)? else {
        return Ok(());
    };
    let job = shared.done.ticket().job();
    let game = job.game as usize;
    let lone = take_alone(alloc, hosts, worker, job)?;
    hosts.out.push(Out {
        worker,
        game,
        shared,
        lone,
    })?;
    Ok(())
}

/// Takes the same job in the core of its game alone.
fn take_alone(
    alloc: Global,
    hosts: &mut Hosts,
    worker: usize,
    job: JobName,
) -> Result<Worked, Fail> {
    let core = hosts.lone.get_mut(job.game as usize).ok_or("a game")?;
    let lone = take_worked(alloc, core, worker)?.ok_or("no such job alone")?;
    let own = lone.done.ticket().job();
    same("kind and part", (own.kind, own.part), (job.kind, job.part))?;
    Ok(lone)
}

fn put_next(hosts: &mut Hosts, place: usize) -> Result<(), Fail> {
    if place >= hosts.out.len() {
        return Ok(());
    }
    let out = hosts.out.swap_remove(place);
    let core = hosts.lone.get_mut(out.game).ok_or("a game")?;
    complete(core, out.worker, out.lone)?;
    complete(&mut hosts.shared, out.worker, out.shared)
}

/// Returns all that one game of a core shows, as a text.
fn shown(alloc: Global, core: &Core<CAP>, game: usize) -> Result<String, Fail> {
    holds("a game", game < core.rows())?;
    let mut text = String::new(alloc);
    let _ = write!(text, "{} {:?}", core.charge(game), core.replies(game));
    for place in 0..core.count(game) {
        holds("a record", place < core.count(game))?;
        let _ = write!(text, " {:?}", core.records(game, place));
    }
    Ok(text)
}

fn check_alike(alloc: Global, hosts: &Hosts) -> Result<(), Fail> {
    for game in 0usize..2 {
        let lone = hosts.lone.get(game).ok_or("a game")?;
        let among = shown(alloc, &hosts.shared, game)?;
        let alone = shown(alloc, lone, 0)?;
        same("a game", among.as_str(), alone.as_str())?;
    }
    Ok(())
}

/// Makes the next call of the list: queues the next command, completes a job, or takes one. Returns
/// the number of commands queued so far.
fn call(
    alloc: Global,
    hosts: &mut Hosts,
    commands: &[(usize, Command)],
    handed: usize,
    draws: &mut Draws,
) -> Result<usize, Fail> {
    match draws.next(4) {
        0 => {
            if let Some((game, command)) = commands.get(handed) {
                hand_next(alloc, hosts, *game, command)?;
                return Ok(handed.saturating_add(1));
            }
        }
        1 => {
            let place = draws.next(1 + hosts.out.len() as u64) as usize;
            put_next(hosts, place)?;
        }
        _ => take_next(alloc, hosts, draws.next(4) as usize)?,
    }
    Ok(handed)
}

/// Returns the number of commands that a drawn list of calls answered.
fn play(alloc: Global, commands: &[(usize, Command)], draws: &mut Draws) -> Result<usize, Fail> {
    let mut hosts = open_hosts(alloc)?;
    let mut handed = 0;
    for _ in 0..CALLS {
        handed = call(alloc, &mut hosts, commands, handed, draws)?;
        check_alike(alloc, &hosts)?;
    }
    holds("two games", hosts.shared.rows() == 2)?;
    let others = hosts.shared.replies(1).len();
    Ok(hosts.shared.replies(0).len().saturating_add(others))
}

#[test]
fn games_among_others_are_as_alone(rt: HostRuntime) -> Result<(), Fail> {
    let alloc = rt.alloc();
    let commands = commands(alloc)?;
    let mut answered = 0usize;
    for seed in 0..LISTS {
        let mut draws = Draws { state: seed };
        let replies = play(alloc, commands.as_slice(), &mut draws)?;
        answered = answered.saturating_add(replies);
    }
    // most of the 1,200 commands were answered before the lists ended
    holds("most are answered", answered > 600)
}
