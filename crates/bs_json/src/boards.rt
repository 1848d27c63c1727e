//! The JSON value of a board, and the texts of its mode and of causes.
ghost use Rattle.std.specs.Prelude.{◌≡◌, IfOk, None, OnOk, Some, codes, option_and_then, slice_get};
ghost use Rattle.std.specs.Option.{option_copied};
ghost use Rattle.serde_json.specs.Data.{boolean, put as with_member, string};
ghost use Rattle.serde_json.specs.View.{members_view, view};
ghost use Rattle.bs_board.specs.boards.Over.{is_over};
ghost use Rattle.bs_json.specs.Boards.{mode_text, cause_text, cause_data, killer_data, out_data, cell_data, cells_data, snake_data, snakes_data, board_data, whole_data};

use bs_board::{Board, Cause, Hazards, Mode, Point, Snake};
use serde_json::{Map, Value, json, put};
use std::alloc::{AllocError, Global};

pub fn mode_text(mode: Mode) -> &'static str
    ensures { result.now ≡ mode_text mode }
{
    match mode {
        Mode::Standard => "standard",
        Mode::Solo => "solo",
        Mode::Constrictor => "constrictor",
        Mode::Wrapped => "wrapped",
    }
}

pub fn cause_text(cause: Cause) -> &'static str
    ensures { result.now ≡ cause_text cause }
{
    match cause {
        Cause::OutOfHealth => "out-of-health",
        Cause::WallCollision => "wall-collision",
        Cause::SelfCollision => "snake-self-collision",
        Cause::BodyCollision => "snake-collision",
        Cause::HeadCollision => "head-collision",
        Cause::Hazard => "hazard",
    }
}

fn cause_value(alloc: Global, cause: Option<Cause>) -> Result<Value, AllocError>
    ensures { IfOk result (λ v. view v ≡ cause_data cause) }
{
    match cause {
        Some(cause) => Value::try_from_str(alloc, cause_text(cause)),
        None => Ok(Value::Null),
    }
}

fn out_value(out: Option<u16>) -> Value
    ensures { view result ≡ out_data out }
{
    match out {
        Some(turn) => Value::from(turn),
        None => Value::Null,
    }
}

/// The snake in the seat. `None` if there is no seat, or no snake in it.
pub fn snake_in_seat(snakes: &[Snake], seat: Option<usize>) -> Option<&Snake>
    ensures { option_copied result ≡ option_and_then (slice_get snakes.now) seat }
{
    snakes.get(seat?)
}

fn killer_value(alloc: Global, snakes: &[Snake], killer: Option<usize>) -> Result<Value, AllocError>
    ensures { IfOk result (λ v. view v ≡ killer_data snakes.now killer) }
{
    match snake_in_seat(snakes, killer) {
        Some(snake) => Value::try_from_str(alloc, snake.id.as_str()),
        None => Ok(Value::Null),
    }
}

fn cell_value(alloc: Global, cell: Point) -> Result<Value, AllocError>
    ensures { IfOk result (λ v. view v ≡ cell_data cell) }
{
    json!(in alloc; {"x": cell.x, "y": cell.y})
}

fn cells_value(alloc: Global, cells: &[Point]) -> Result<Value, AllocError>
    ensures { IfOk result (λ v. view v ≡ cells_data cells.now) }
{
    let mut values = Vec::with_capacity(alloc, cells.len())?;
    for cell in cells {
        values.push(cell_value(alloc, *cell)?)?;
    }
    Ok(Value::Array(values))
}

/// Puts the cause, the killer and the turn of an elimination.
fn put_out(
    members: &mut Map<String, Value>,
    alloc: Global,
    snakes: &[Snake],
    snake: &Snake,
) -> Result<(), AllocError>
    ensures { OnOk result (members_view members.new.entries
        ≡ with_member (codes "out") (out_data snake.now.out)
        (with_member (codes "cause") (cause_data snake.now.cause)
        (with_member (codes "by") (killer_data snakes.now snake.now.killer) (members_view members.old.entries)))) }
{
    put(
        members,
        alloc,
        "by",
        killer_value(alloc, snakes, snake.killer)?,
    )?;
    put(members, alloc, "cause", cause_value(alloc, snake.cause)?)?;
    put(members, alloc, "out", out_value(snake.out))?;
    Ok(())
}

#[tactic(auto, unfolding(crate::specs::Boards::snake_data))]
fn snake_value(alloc: Global, snakes: &[Snake], snake: &Snake) -> Result<Value, AllocError>
    ensures { IfOk result (λ v. view v ≡ snake_data snakes.now snake.now) }
{
    let mut members = Map::new(alloc);
    put_out(&mut members, alloc, snakes, snake)?;
    put_cells(&mut members, alloc, "body", snake.body.as_slice())?;
    put_whole(&mut members, alloc, "health", u16::from(snake.health))?;
    put_text(&mut members, alloc, "id", snake.id.as_str())?;
    Ok(Value::Object(members))
}

fn snakes_value(alloc: Global, snakes: &[Snake]) -> Result<Value, AllocError>
    ensures { IfOk result (λ v. view v ≡ snakes_data snakes.now) }
{
    let mut values = Vec::with_capacity(alloc, snakes.len())?;
    for snake in snakes {
        values.push(snake_value(alloc, snakes, snake)?)?;
    }
    Ok(Value::Array(values))
}

pub fn is_over(board: &Board) -> bool
    ensures { result ≡ is_over board.now }
{
    let living = board
        .snakes
        .as_slice()
        .iter()
        .filter(|snake| snake.is_living())
        .count();
    match board.mode {
        Mode::Standard | Mode::Constrictor | Mode::Wrapped => living <= 1,
        Mode::Solo => living == 0,
    }
}

fn put_cells(
    members: &mut Map<String, Value>,
    alloc: Global,
    key: &str,
    cells: &[Point],
) -> Result<(), AllocError>
    ensures { OnOk result (members_view members.new.entries
        ≡ with_member key.now (cells_data cells.now) (members_view members.old.entries)) }
{
    put(members, alloc, key, cells_value(alloc, cells)?)?;
    Ok(())
}

fn put_snakes(
    members: &mut Map<String, Value>,
    alloc: Global,
    snakes: &[Snake],
) -> Result<(), AllocError>
    ensures { OnOk result (members_view members.new.entries
        ≡ with_member (codes "snakes") (snakes_data snakes.now) (members_view members.old.entries)) }
{
    put(members, alloc, "snakes", snakes_value(alloc, snakes)?)?;
    Ok(())
}

fn put_whole(
    members: &mut Map<String, Value>,
    alloc: Global,
    key: &str,
    number: u16,
) -> Result<(), AllocError>
    ensures { OnOk result (members_view members.new.entries
        ≡ with_member key.now (whole_data number) (members_view members.old.entries)) }
{
    put(members, alloc, key, Value::from(number))?;
    Ok(())
}

fn put_text(
    members: &mut Map<String, Value>,
    alloc: Global,
    key: &str,
    text: &str,
) -> Result<(), AllocError>
    ensures { OnOk result (members_view members.new.entries
        ≡ with_member key.now (string text.now) (members_view members.old.entries)) }
{
    put(members, alloc, key, Value::try_from_str(alloc, text)?)?;
    Ok(())
}

fn put_over(
    members: &mut Map<String, Value>,
    alloc: Global,
    board: &Board,
) -> Result<(), AllocError>
    ensures { OnOk result (members_view members.new.entries
        ≡ with_member (codes "over") (boolean (is_over board.now)) (members_view members.old.entries)) }
{
    put(members, alloc, "over", Value::from(is_over(board)))?;
    Ok(())
}

/// Puts the members that come before those of hazards.
fn put_food(
    members: &mut Map<String, Value>,
    alloc: Global,
    board: &Board,
) -> Result<(), AllocError>
    ensures { OnOk result (members_view members.new.entries
        ≡ with_member (codes "food_chance") (whole_data board.now.chance)
        (with_member (codes "food") (cells_data board.now.food) (members_view members.old.entries))) }
{
    put_cells(members, alloc, "food", board.food.as_slice())?;
    put_whole(members, alloc, "food_chance", u16::from(board.chance))?;
    Ok(())
}

fn put_hazards(
    members: &mut Map<String, Value>,
    alloc: Global,
    hazards: &Hazards,
) -> Result<(), AllocError>
    ensures { OnOk result (members_view members.new.entries
        ≡ with_member (codes "hazards") (cells_data hazards.now.cells)
        (with_member (codes "hazard_damage") (whole_data hazards.now.damage) (members_view members.old.entries))) }
{
    put_whole(members, alloc, "hazard_damage", u16::from(hazards.damage))?;
    put_cells(members, alloc, "hazards", hazards.cells.as_slice())?;
    Ok(())
}

fn put_sides(
    members: &mut Map<String, Value>,
    alloc: Global,
    board: &Board,
) -> Result<(), AllocError>
    ensures { OnOk result (members_view members.new.entries
        ≡ with_member (codes "width") (whole_data board.now.width)
        (with_member (codes "turn") (whole_data board.now.turn)
        (with_member (codes "min_food") (whole_data board.now.min_food)
        (with_member (codes "height") (whole_data board.now.height) (members_view members.old.entries))))) }
{
    put_whole(members, alloc, "height", u16::from(board.height))?;
    put_whole(members, alloc, "min_food", u16::from(board.min_food))?;
    put_whole(members, alloc, "turn", board.turn)?;
    put_whole(members, alloc, "width", u16::from(board.width))?;
    Ok(())
}

fn put_state(
    members: &mut Map<String, Value>,
    alloc: Global,
    board: &Board,
) -> Result<(), AllocError>
    ensures { OnOk result (members_view members.new.entries
        ≡ with_member (codes "snakes") (snakes_data board.now.snakes)
        (with_member (codes "over") (boolean (is_over board.now))
        (with_member (codes "mode") (string (mode_text board.now.mode)) (members_view members.old.entries)))) }
{
    put_text(members, alloc, "mode", mode_text(board.mode))?;
    put_over(members, alloc, board)?;
    put_snakes(members, alloc, board.snakes.as_slice())?;
    Ok(())
}

/// Makes the JSON value of a board, as a reply shows it.
#[tactic(auto, unfolding(crate::specs::Boards::board_data))]
pub fn board_value(alloc: Global, board: &Board) -> Result<Value, AllocError>
    ensures { IfOk result (λ v. view v ≡ board_data board.now) }
{
    let mut members = Map::new(alloc);
    put_food(&mut members, alloc, board)?;
    if let Some(hazards) = &board.hazards {
        put_hazards(&mut members, alloc, hazards)?;
    }
    put_sides(&mut members, alloc, board)?;
    put_state(&mut members, alloc, board)?;
    Ok(Value::Object(members))
}
