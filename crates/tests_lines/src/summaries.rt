//! Short descriptions of parsed lines, for comparison.
use bs_board::{Cells, Command, Move, New, Plan};
use bs_json::{Line, PlanFault};
use std::alloc::{AllocError, Global};
use std::fmt::Debug;
use std::str;

/// Appends a word, then the value as its `Debug` writes it.
fn push_value<T: Debug + Copy>(
    alloc: Global,
    text: &mut String,
    word: &str,
    value: T,
) -> Result<(), AllocError> {
    text.push_str(word)?;
    text.push_str(format!(in alloc; "{value:?}")?.as_str())
}

fn push_new(alloc: Global, text: &mut String, new: &New) -> Result<(), AllocError> {
    push_value(alloc, text, "new ", new.mode)?;
    push_value(alloc, text, " ", new.width)?;
    push_value(alloc, text, "x", new.height)?;
    push_value(alloc, text, " min ", new.min_food)?;
    push_value(alloc, text, " chance ", new.chance)
}

fn push_snakes(alloc: Global, text: &mut String, new: &New) -> Result<(), AllocError> {
    for (id, cell) in new.snakes.as_slice() {
        text.push(' ')?;
        text.push_str(id.as_str())?;
        push_value(alloc, text, "@", cell.x)?;
        push_value(alloc, text, ",", cell.y)?;
    }
    Ok(())
}

fn push_food(alloc: Global, text: &mut String, food: &Cells) -> Result<(), AllocError> {
    for cell in food.as_slice() {
        push_value(alloc, text, " food ", cell.x)?;
        push_value(alloc, text, ",", cell.y)?;
    }
    Ok(())
}

fn push_move(alloc: Global, text: &mut String, order: &Move) -> Result<(), AllocError> {
    text.push_str("move")?;
    let moves = order.moves.to_vec(alloc)?;
    for (id, direction) in moves.as_slice() {
        text.push(' ')?;
        text.push_str(id.as_str())?;
        push_value(alloc, text, " ", *direction)?;
    }
    for word in order.words.as_slice() {
        push_value(alloc, text, " ", *word)?;
    }
    Ok(())
}

fn push_command(alloc: Global, text: &mut String, command: &Command) -> Result<(), AllocError> {
    match command {
        Command::New(new) => {
            push_new(alloc, text, new)?;
            push_snakes(alloc, text, new)?;
            push_food(alloc, text, &new.food)
        }
        Command::Move(order) => push_move(alloc, text, order),
        Command::Turn(at) => push_value(alloc, text, "turn ", at.number()),
        Command::Show => text.push_str("show"),
        Command::Free => text.push_str("free"),
        Command::End => text.push_str("end"),
        Command::Bad => text.push_str("a bad command"),
    }
}

/// The text of these bytes.
fn text_of(bytes: &[u8]) -> &str {
    match str::from_utf8(bytes) {
        Ok(text) => text,
        Err(_) => "no text",
    }
}

/// Describes a parsed line in a few words.
pub fn summary_of(alloc: Global, line: &Line<'_>) -> Result<String, AllocError> {
    let mut text = String::new(alloc);
    match line {
        Line::Blank => text.push_str("blank")?,
        Line::Stray(stray) => push_value(alloc, &mut text, "stray ", *stray)?,
        Line::BadAdmit => text.push_str("bad admit")?,
        Line::Admit(row) => {
            text.push_str("admit ")?;
            text.push_str(row.game.as_str())?;
            push_value(alloc, &mut text, " ", row.quota)?;
        }
        Line::Leave { game: Some(game) } => {
            text.push_str("leave ")?;
            text.push_str(text_of(game.as_bytes()))?;
        }
        Line::Leave { game: None } => text.push_str("leave nothing")?,
        Line::Bad { game } => {
            text.push_str(text_of(game.as_bytes()))?;
            text.push_str(": bad")?;
        }
        Line::Command { game, command } => {
            text.push_str(text_of(game.as_bytes()))?;
            text.push_str(": ")?;
            push_command(alloc, &mut text, command)?;
        }
    }
    Ok(text)
}

/// Describes a plan by its version, its names and its quotas, or by its fault.
pub fn summary_of_plan(
    alloc: Global,
    plan: &Result<Plan, PlanFault>,
) -> Result<String, AllocError> {
    let mut text = String::new(alloc);
    match plan {
        Ok(plan) => {
            push_value(alloc, &mut text, "version ", plan.version.number())?;
            for row in plan.rows.as_slice() {
                text.push(' ')?;
                text.push_str(row.game.as_str())?;
                push_value(alloc, &mut text, " ", row.quota)?;
            }
        }
        Err(fault) => push_value(alloc, &mut text, "", *fault)?,
    }
    Ok(text)
}
