//! Boards and moves written as texts.
use bs_board::{
    Board, Cause, Cells, Direction, Hazards, Id, Mode, Move, Point, Snake, Snakes, copy_hazards,
};
use bs_samples::orders;
use std::alloc::{AllocError, Global};
use std::test::Fail;

const NO_NUMBER: &str = "a number";

fn cell(text: &str) -> Result<Option<Point>, Fail> {
    match text.split_once(',') {
        None => Ok(None),
        Some((x, y)) => Ok(Some(Point {
            x: x.parse::<i16>().ok().ok_or(NO_NUMBER)?,
            y: y.parse::<i16>().ok().ok_or(NO_NUMBER)?,
        })),
    }
}

fn small(text: &str) -> Result<u8, Fail> {
    Ok(text.parse::<u8>().ok().ok_or(NO_NUMBER)?)
}

/// Reads the cells among the words of the text, each as "X,Y".
pub fn cells(alloc: Global, text: &str) -> Result<Cells, Fail> {
    let mut cells = Cells::new(alloc);
    for word in text.split(' ') {
        if let Some(cell) = cell(word)? {
            cells.push(cell)?;
        }
    }
    Ok(cells)
}

fn cause(word: &str) -> Option<Cause> {
    match word {
        "OutOfHealth" => Some(Cause::OutOfHealth),
        "WallCollision" => Some(Cause::WallCollision),
        "SelfCollision" => Some(Cause::SelfCollision),
        "BodyCollision" => Some(Cause::BodyCollision),
        "HeadCollision" => Some(Cause::HeadCollision),
        "Hazard" => Some(Cause::Hazard),
        _ => None,
    }
}

/// The kind of a word.
#[derive(Clone, Copy)]
enum Field {
    Cause,
    Seat,
    Turn,
}

/// The kind of the word after this one.
fn field_after(word: &str) -> Field {
    match word {
        "by" => Field::Seat,
        "in" => Field::Turn,
        _ => Field::Cause,
    }
}

/// Reads the cause, the killer and the turn of "CELLS CAUSE by SEAT in TURN", as far as they are
/// given.
fn eliminate(snake: &mut Snake, text: &str) -> Result<(), Fail> {
    let mut field = Field::Cause;
    for word in text.split(' ') {
        match field {
            Field::Seat => snake.killer = Some(usize::from(small(word)?)),
            Field::Turn => snake.out = Some(u16::from(small(word)?)),
            Field::Cause => {
                if let Some(cause) = cause(word) {
                    snake.cause = Some(cause);
                }
            }
        }
        field = field_after(word);
    }
    Ok(())
}

/// Makes a snake that is not out.
fn living(alloc: Global, id: &str, health: u8, body: Cells) -> Result<Snake, Fail> {
    Ok(Snake {
        id: Id::from_str(alloc, id)?,
        body,
        health,
        cause: None,
        killer: None,
        out: None,
    })
}

/// Reads the snake "ID HEALTH CELLS", or "ID HEALTH CELLS CAUSE by SEAT in TURN" of an eliminated
/// one.
fn snake(alloc: Global, text: &str) -> Result<Snake, Fail> {
    let (id, rest) = text.split_once(' ').ok_or("an id")?;
    let (health, rest) = rest.split_once(' ').ok_or("a health")?;
    let mut snake = living(alloc, id, small(health)?, cells(alloc, rest)?)?;
    eliminate(&mut snake, rest)?;
    Ok(snake)
}

fn snakes(alloc: Global, text: &str) -> Result<Snakes, Fail> {
    let mut snakes = Vec::new(alloc);
    for seat in text.split('|') {
        snakes.push(snake(alloc, seat)?)?;
    }
    Ok(Snakes::from_vec(snakes))
}

fn mode(word: &str) -> Mode {
    match word {
        "standard" => Mode::Standard,
        "solo" => Mode::Solo,
        "wrapped" => Mode::Wrapped,
        _ => Mode::Constrictor,
    }
}

/// Reads "WIDTHxHEIGHT", or one number for both.
fn sides(text: &str) -> Result<(u8, u8), Fail> {
    let (width, height) = text.split_once('x').unwrap_or((text, text));
    Ok((small(width)?, small(height)?))
}

/// Reads "MODE SIDES TURN MIN_FOOD" as a board without food and snakes. Its chance of food is 0.
fn empty(alloc: Global, text: &str) -> Result<Board, Fail> {
    let (mode_name, rest) = text.split_once(' ').ok_or("a mode")?;
    let (area, rest) = rest.split_once(' ').ok_or("sides")?;
    let (turn, min_food) = rest.split_once(' ').ok_or("a turn")?;
    let (width, height) = sides(area)?;
    Ok(Board {
        mode: mode(mode_name),
        width,
        height,
        turn: u16::from(small(turn)?),
        min_food: small(min_food)?,
        chance: 0,
        food: Cells::new(alloc),
        hazards: None,
        snakes: Snakes::from_vec(Vec::new(alloc)),
    })
}

/// Reads "FOOD|SNAKE|SNAKE" of the board.
fn fill(alloc: Global, board: Board, text: &str) -> Result<Board, Fail> {
    let (food, seats) = text.split_once('|').ok_or("food")?;
    let food = cells(alloc, food)?;
    let snakes = snakes(alloc, seats)?;
    Ok(Board {
        food,
        snakes,
        ..board
    })
}

/// Reads the board "MODE SIDES TURN MIN_FOOD|FOOD|SNAKE|SNAKE", whose sides are "WIDTHxHEIGHT", or
/// one number for a square. Its chance of food is 0.
pub fn board(alloc: Global, text: &str) -> Result<Board, Fail> {
    let (head, rest) = text.split_once('|').ok_or("a head")?;
    fill(alloc, empty(alloc, head)?, rest)
}

/// Reads "DAMAGE CELLS" as hazards.
pub fn hazards(alloc: Global, text: &str) -> Result<Hazards, Fail> {
    let (damage, places) = text.split_once(' ').ok_or("a damage")?;
    Ok(Hazards {
        damage: small(damage)?,
        cells: cells(alloc, places)?,
    })
}

/// Makes a board of the same game in that turn, without food and snakes. The hazards stay.
fn emptied(alloc: Global, before: &Board, turn: u8) -> Result<Board, Fail> {
    Ok(Board {
        mode: before.mode,
        width: before.width,
        height: before.height,
        turn: u16::from(turn),
        min_food: before.min_food,
        chance: before.chance,
        food: Cells::new(alloc),
        hazards: copy_hazards(&before.hazards, alloc)?,
        snakes: Snakes::from_vec(Vec::new(alloc)),
    })
}

/// Reads the board "TURN|FOOD|SNAKE|SNAKE" of the same game as another board.
pub fn board_after(alloc: Global, before: &Board, text: &str) -> Result<Board, Fail> {
    let (turn, rest) = text.split_once('|').ok_or("a turn")?;
    fill(alloc, emptied(alloc, before, small(turn)?)?, rest)
}

fn direction(text: &str) -> Result<Direction, Fail> {
    match text {
        "up" => Ok(Direction::Up),
        "down" => Ok(Direction::Down),
        "left" => Ok(Direction::Left),
        "right" => Ok(Direction::Right),
        _ => Err(Fail::from("a direction")),
    }
}

/// Reads a move from "ID=DIRECTION" and words for food, each in order.
pub fn order(alloc: Global, text: &str) -> Result<Move, Fail> {
    let mut directions = Vec::new(alloc);
    let mut words = Vec::new(alloc);
    for part in text.split(' ') {
        if let Some((id, to)) = part.split_once('=') {
            directions.push((id, direction(to)?))?;
        } else if let Ok(word) = part.parse::<u32>() {
            words.push(word)?;
        }
    }
    orders(alloc, directions.as_slice(), words.as_slice())
}
