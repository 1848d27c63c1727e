//! One step of games in memory: one plays its turn, one is started, and one stays.

use bs_batch::{
    Cell, Head, LargeGame, ManyOrders, ManyStarts, Seat, Settings, SmallGame, advance_large,
    advance_small, step_large, step_small,
};
use bs_samples::same;
use std::test::Fail;

const SOLO: Settings = Settings {
    mode: 1,
    width: 3,
    height: 3,
    seats: 1,
    min_food: 0,
    chance: 0,
};

const NO_SEAT: Seat = Seat {
    parts: 0,
    out: 0,
    health: 0,
    cause: 0,
    killer: 0,
    spare: 0,
};

const UNUSED: Head = Head {
    settings: SOLO,
    turn: 0,
    foods: 0,
    living: 0,
    over: 1,
    seats: [NO_SEAT; 8],
};

/// The starting cells of three games.
const CENTRES: [Cell; 3] = [Cell { x: 1, y: 1 }; 3];

/// The planes of a game: no food, and the snake of three parts on its first cell.
const STARTED: [u8; 18] = [0, 0, 0, 0, 0, 0, 0, 0, 0, 0, 0, 0, 0, 3, 0, 0, 0, 0];

/// The planes after a step up: two parts are still on the first cell.
const PLAYED: [u8; 18] = [0, 0, 0, 0, 0, 0, 0, 0, 0, 0, 0, 0, 0, 2, 0, 0, 3, 0];

/// What nothing has written.
const KEPT: [u8; 18] = [9; 18];

fn small() -> SmallGame {
    SmallGame {
        head: UNUSED,
        food: [0; 121],
        plane: [0; 416],
        bodies: [0; 1000],
    }
}

fn large() -> LargeGame {
    LargeGame {
        head: UNUSED,
        food: [0; 625],
        plane: [0; 864],
        bodies: [0; 5032],
    }
}

/// The first boards, with what is done with each game.
fn first<'a>(which: &'a [u8]) -> ManyStarts<'a> {
    ManyStarts {
        starts: &CENTRES,
        food: &[],
        food_each: 0,
        which,
        settings: SOLO,
    }
}

/// A step up for each game, without words.
fn up() -> ManyOrders<'static> {
    ManyOrders {
        moves: &[0, 0, 0],
        moves_each: 1,
        words: &[],
        words_each: 0,
        hazards: &[],
        hazards_each: 0,
        damages: &[],
    }
}

/// Compares the planes of three games.
fn same_planes(planes: &[u8; 54], wanted: [[u8; 18]; 3]) -> Result<(), Fail> {
    same("the first game", &planes[..18], wanted[0].as_slice())?;
    same("the second game", &planes[18..36], wanted[1].as_slice())?;
    same("the third game", &planes[36..], wanted[2].as_slice())
}

#[test]
fn small_games_advance(_rt: HostRuntime) -> Result<(), Fail> {
    let mut games = [small(), small(), small()];
    let mut planes = [9u8; 54];
    let started = advance_small(&mut games, &up(), &first(&[1, 2, 1]), &mut planes, 18);
    same("the number of starts", started, 2)?;
    same_planes(&planes, [STARTED, KEPT, STARTED])?;
    let started = advance_small(&mut games, &up(), &first(&[0, 1]), &mut planes, 18);
    same("the number of starts", started, 1)?;
    same_planes(&planes, [PLAYED, STARTED, PLAYED])?;
    same("the turn", games[0].head.turn, 1)?;
    same("the turn", games[1].head.turn, 0)
}

#[test]
fn large_games_advance(_rt: HostRuntime) -> Result<(), Fail> {
    let mut games = [large(), large(), large()];
    let mut planes = [9u8; 54];
    let started = advance_large(&mut games, &up(), &first(&[1, 2, 1]), &mut planes, 18);
    same("the number of starts", started, 2)?;
    same_planes(&planes, [STARTED, KEPT, STARTED])?;
    let started = advance_large(&mut games, &up(), &first(&[0, 1]), &mut planes, 18);
    same("the number of starts", started, 1)?;
    same_planes(&planes, [PLAYED, STARTED, PLAYED])?;
    same("the turn", games[0].head.turn, 1)?;
    same("the turn", games[1].head.turn, 0)
}

/// What hazards cost on the cell above the first (docs/RULES.md): it is twice among those of the
/// first game, once among those of the second, and the third has no bytes.
const ABOVE: [u8; 18] = [0, 0, 0, 0, 0, 0, 0, 2, 0, 0, 0, 0, 0, 0, 0, 0, 1, 0];

/// A step up for each game, among hazards.
fn up_among() -> ManyOrders<'static> {
    ManyOrders {
        moves: &[0, 0, 0],
        moves_each: 1,
        words: &[],
        words_each: 0,
        hazards: &ABOVE,
        hazards_each: 9,
        damages: &[20, 99],
    }
}

/// Compares the snakes of three games after that step.
fn are_hurt(first: &Head, second: &Head, third: &Head) -> Result<(), Fail> {
    same("the health", first.seats[0].health, 59)?;
    same("the cause", first.seats[0].cause, 0)?;
    same("the health", second.seats[0].health, 0)?;
    same("the cause", second.seats[0].cause, 6)?;
    same("the turn", second.seats[0].out, 1)?;
    same("the end", second.over, 1)?;
    same("the health", third.seats[0].health, 99)
}

#[test]
fn small_games_among_hazards(_rt: HostRuntime) -> Result<(), Fail> {
    let mut games = [small(), small(), small()];
    let mut planes = [9u8; 54];
    let started = advance_small(&mut games, &up(), &first(&[1, 1, 1]), &mut planes, 18);
    same("the number of starts", started, 3)?;
    step_small(&mut games, &up_among());
    are_hurt(&games[0].head, &games[1].head, &games[2].head)
}

#[test]
fn large_games_among_hazards(_rt: HostRuntime) -> Result<(), Fail> {
    let mut games = [large(), large(), large()];
    let mut planes = [9u8; 54];
    let started = advance_large(&mut games, &up(), &first(&[1, 1, 1]), &mut planes, 18);
    same("the number of starts", started, 3)?;
    step_large(&mut games, &up_among());
    are_hurt(&games[0].head, &games[1].head, &games[2].head)
}
