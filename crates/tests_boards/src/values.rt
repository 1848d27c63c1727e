//! Copies of values with text or lists equal their sources; the versions of files.
use crate::compare::same_board;
use bs_board::{
    Board, Cells, Command, Direction, Hazards, Id, KeptBoard, Mode, Move, Moves, New, Point, Reply,
    Rows, Version, Word, is_legal,
};
use bs_samples::{cells, holds, orders, plan_of, same, solo_after, starts};
use std::alloc::{AllocError, Global};
use std::test::Fail;

/// Makes a reply that shows the board, and copies it.
fn copy_of_shown(alloc: Global, board: &Board) -> Result<Reply, Fail> {
    holds("a legal board", is_legal(board))?;
    let reply = Reply::Shown(Word::Show, KeptBoard::of(alloc, board)?, 64);
    Ok(reply.copy(alloc)?)
}

/// Checks that the reply shows that board.
fn check_shown(alloc: Global, reply: &Reply, board: &Board) -> Result<(), Fail> {
    let Reply::Shown(word, shown, charge) = reply else {
        return Err(Fail::from("another reply"));
    };
    same("word and charge", (*word, *charge), (Word::Show, 64))?;
    same_board("the board that is shown", &shown.board(alloc)?, board)
}

#[test]
fn boards_and_replies_are_copied(rt: HostRuntime) -> Result<(), Fail> {
    let alloc = rt.alloc();
    let board = solo_after(alloc, 3, 2)?;
    same_board("a board", &board.copy(alloc)?, &board)?;
    let solo = solo_after(alloc, 3, 1)?;
    check_shown(alloc, &copy_of_shown(alloc, &solo)?, &solo)
}

/// Compares the direction of one name.
fn check_direction(
    moves: &[(Id, Direction)],
    place: usize,
    id: &str,
    direction: Direction,
) -> Result<(), Fail> {
    let (name, to) = moves.get(place).ok_or("a direction")?;
    same("a direction", (name.as_str(), *to), (id, direction))
}

/// Compares cells that may be missing.
fn check_cells(what: &str, cells: &Option<Cells>, wanted: &[Point]) -> Result<(), Fail> {
    let cells = cells.as_ref().ok_or("cells")?;
    same(what, cells.as_slice(), wanted)
}

fn check_move(alloc: Global, copy: &Move) -> Result<(), Fail> {
    let moves = copy.moves.to_vec(alloc)?;
    same("directions", moves.len(), 2)?;
    check_direction(moves.as_slice(), 0, "a", Direction::Up)?;
    check_direction(moves.as_slice(), 1, "b", Direction::Left)?;
    same("words", copy.words.as_slice(), [5, 6].as_slice())?;
    check_cells("hazards", &copy.hazards, &[Point { x: 2, y: 3 }])?;
    check_cells("food", &copy.food, &[Point { x: 4, y: 1 }])
}

#[test]
fn a_move_is_copied(rt: HostRuntime) -> Result<(), Fail> {
    let alloc = rt.alloc();
    let directions = [("a", Direction::Up), ("b", Direction::Left)];
    let (hazards, food) = (cells(alloc, &[(2, 3)])?, cells(alloc, &[(4, 1)])?);
    let order = orders(alloc, &directions, &[5, 6])?.with_map(Some(hazards), Some(food));
    let command = Command::Move(order);
    match command.copy(alloc)? {
        Command::Move(copy) => check_move(alloc, &copy),
        _ => Err(Fail::from("another command")),
    }
}

/// Adds the direction of one snake.
fn push_direction(
    alloc: Global,
    moves: &mut Moves,
    id: &str,
    direction: Direction,
) -> Result<(), AllocError> {
    moves.push(Id::from_str(alloc, id)?.as_bytes(), direction)
}

/// Makes the directions of two snakes.
fn two_directions(alloc: Global) -> Result<Moves, AllocError> {
    let mut moves = Moves::new(alloc);
    push_direction(alloc, &mut moves, "a", Direction::Up)?;
    push_direction(alloc, &mut moves, "bc", Direction::Left)?;
    Ok(moves)
}

#[test]
fn directions_are_found_by_id(rt: HostRuntime) -> Result<(), Fail> {
    let moves = two_directions(rt.alloc())?;
    same(
        "a direction",
        moves.direction_for(b"a"),
        Some(Direction::Up),
    )?;
    same(
        "a direction",
        moves.direction_for(b"bc"),
        Some(Direction::Left),
    )?;
    same("no direction", moves.direction_for(b"b"), None)
}

/// The bytes of ten such entries do not fit into the value, nor into the first allocation.
const LONG_NAMES: [&str; 10] = [
    "a snake with an id of 32 bytes 0",
    "a snake with an id of 32 bytes 1",
    "a snake with an id of 32 bytes 2",
    "a snake with an id of 32 bytes 3",
    "a snake with an id of 32 bytes 4",
    "a snake with an id of 32 bytes 5",
    "a snake with an id of 32 bytes 6",
    "a snake with an id of 32 bytes 7",
    "a snake with an id of 32 bytes 8",
    "a snake with an id of 32 bytes 9",
];

/// Checks that the lent entries are those that were copied out.
fn check_lent(alloc: Global, moves: &Moves, copied: &[(Id, Direction)]) -> Result<(), Fail> {
    let lent = moves.entries(alloc)?;
    same("lent entries", lent.len(), copied.len())?;
    for (place, (id, to)) in lent.as_slice().iter().enumerate() {
        let (name, direction) = copied.get(place).ok_or("an entry")?;
        same("a lent id", *id, name.as_bytes())?;
        same("its direction", *to, *direction)?;
    }
    Ok(())
}

#[test]
fn directions_of_long_ids_stay(rt: HostRuntime) -> Result<(), Fail> {
    let alloc = rt.alloc();
    let mut moves = two_directions(alloc)?;
    for (count, id) in LONG_NAMES.iter().enumerate() {
        push_direction(alloc, &mut moves, id, Direction::Down)?;
        let copy = moves.copy(alloc)?;
        holds("a copy", copy.is_same(&moves))?;
        let entries = copy.to_vec(alloc)?;
        same("entries", entries.len(), count + 3)?;
        check_lent(alloc, &copy, entries.as_slice())?;
        check_direction(entries.as_slice(), 0, "a", Direction::Up)?;
        check_direction(entries.as_slice(), 1, "bc", Direction::Left)?;
        check_direction(entries.as_slice(), count + 2, id, Direction::Down)?;
    }
    Ok(())
}

#[test]
fn directions_are_compared(rt: HostRuntime) -> Result<(), Fail> {
    let alloc = rt.alloc();
    let mut moves = two_directions(alloc)?;
    holds("the same", moves.is_same(&two_directions(alloc)?))?;
    holds("ascending", moves.is_ascending())?;
    push_direction(alloc, &mut moves, "b", Direction::Left)?;
    holds("others", !moves.is_same(&two_directions(alloc)?))?;
    holds("not ascending", !moves.is_ascending())
}

/// Compares the start of one snake.
fn check_start(starts: &[(Id, Point)], place: usize, id: &str, cell: Point) -> Result<(), Fail> {
    let (name, start) = starts.get(place).ok_or("a start")?;
    same("a start", (name.as_str(), *start), (id, cell))
}

/// Hazards of that damage on one cell.
fn hazards(alloc: Global, damage: u8, place: (i16, i16)) -> Result<Hazards, Fail> {
    Ok(Hazards {
        damage,
        cells: cells(alloc, &[place])?,
    })
}

/// Makes a setup with the defaults for food.
fn two_starts(alloc: Global) -> Result<New, Fail> {
    let starts = starts(alloc, &[("s", 1, 1), ("t", 2, 0)])?;
    let food = cells(alloc, &[(0, 2)])?;
    let new = New::new(Mode::Standard, 3, 3, starts, food, 1, 15);
    Ok(new.ok_or("a setup")?)
}

fn check_setup(copy: &New) -> Result<(), Fail> {
    let sides = (copy.mode, copy.width, copy.height);
    same("sides", sides, (Mode::Standard, 3, 3))?;
    same("minimum and chance", (copy.min_food, copy.chance), (1, 15))?;
    let food = [Point { x: 0, y: 2 }];
    same("food", copy.food.as_slice(), food.as_slice())?;
    let starts = copy.snakes.as_slice();
    same("snakes", starts.len(), 2)?;
    check_start(starts, 0, "s", Point { x: 1, y: 1 })?;
    check_start(starts, 1, "t", Point { x: 2, y: 0 })?;
    let hazards = copy.hazards.as_ref().ok_or("hazards")?;
    same("their damage", hazards.damage, 14)?;
    let places = [Point { x: 1, y: 2 }];
    same("their cells", hazards.cells.as_slice(), places.as_slice())
}

/// A damage of at most 100, on cells of the board.
#[test]
fn hazards_of_a_setup(rt: HostRuntime) -> Result<(), Fail> {
    let alloc = rt.alloc();
    for (damage, place, fits) in [
        (0, (0, 0), true),
        (100, (2, 2), true),
        (101, (2, 2), false),
        (14, (3, 0), false),
        (14, (0, -1), false),
    ] {
        let new = two_starts(alloc)?.with_hazards(hazards(alloc, damage, place)?);
        let found = (damage, place, new.is_some());
        same("a setup", found, (damage, place, fits))?;
    }
    Ok(())
}

#[test]
fn a_setup_is_copied(rt: HostRuntime) -> Result<(), Fail> {
    let alloc = rt.alloc();
    let new = two_starts(alloc)?.with_hazards(hazards(alloc, 14, (1, 2))?);
    let command = Command::New(new.ok_or("a setup")?);
    match command.copy(alloc)? {
        Command::New(copy) => check_setup(&copy),
        _ => Err(Fail::from("another command")),
    }
}

fn check_row(rows: &Rows) -> Result<(), Fail> {
    let row = rows.as_slice().first().ok_or("a row")?;
    same("its row", (row.game.as_str(), row.quota), ("a", 64))
}

#[test]
fn a_plan_is_copied(rt: HostRuntime) -> Result<(), Fail> {
    let alloc = rt.alloc();
    let mut plan = plan_of(alloc, &[("a", 64)])?;
    plan.version = Version::Two;
    let copy = plan.copy(alloc)?;
    check_row(&copy.rows)?;
    same("its version", copy.version, Version::Two)
}

#[test]
fn versions_by_number(rt: HostRuntime) -> Result<(), Fail> {
    for (number, version, features) in [
        (1, Version::One, (false, false, false)),
        (2, Version::Two, (true, false, false)),
        (3, Version::Three, (true, true, false)),
        (5, Version::Five, (true, true, true)),
    ] {
        same("a version", Version::from_number(number), Some(version))?;
        same("its number", u64::from(version.number()), number)?;
        let has = (
            version.has_wrapped(),
            version.has_stays(),
            version.has_hazards(),
        );
        same("its features", (version, has), (version, features))?;
    }
    for number in [0, 4, 6, 257, 258, 259] {
        let found = (number, Version::from_number(number));
        same("no version", found, (number, None))?;
    }
    Ok(())
}
