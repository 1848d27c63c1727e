//! A setup by seats.

ghost use Rattle.std.specs.Prelude.{◌≡◌, Some, IfOk, MatchOption};
ghost use Rattle.bs_calls.specs.Setups.{fit_setup, id_of, mode_from, plain_setup, setup_by_seat, starts_from, with_hazards};

use crate::cells::{point_of, points_of};
use bs_batch::Cell;
use bs_board::{Hazards, Id, Mode, New, Starts};
use std::alloc::{AllocError, Global};

/// The setup of a game.
#[repr(C)]
#[derive(Clone, Copy)]
pub struct SeatSetup<'a> {
    /// The starting cells, one for each seat. The snakes have the ids "0", "1" and so on.
    pub starts: &'a [Cell],
    pub food: &'a [Cell],
    /// The hazards, if `has_hazards` is not 0.
    pub hazards: &'a [Cell],
    /// 0 to 3: standard, solo, constrictor, wrapped.
    pub mode: u8,
    pub width: u8,
    pub height: u8,
    pub min_food: u8,
    /// The chance of food in percent.
    pub chance: u8,
    pub has_hazards: u8,
    pub damage: u8,
}

fn mode_from(byte: u8) -> Option<Mode>
    ensures { result ≡ mode_from byte }
{
    if byte == 0 {
        Some(Mode::Standard)
    } else if byte == 1 {
        Some(Mode::Solo)
    } else if byte == 2 {
        Some(Mode::Constrictor)
    } else if byte == 3 {
        Some(Mode::Wrapped)
    } else {
        None
    }
}

fn digit_of(seat: usize) -> &'static str
    ensures { result.now ≡ id_of seat }
{
    match seat {
        0 => "0",
        1 => "1",
        2 => "2",
        3 => "3",
        4 => "4",
        5 => "5",
        6 => "6",
        7 => "7",
        _ => "8",
    }
}

fn starts_of(alloc: Global, cells: &[Cell]) -> Result<Starts, AllocError>
    ensures { IfOk result (λ starts. starts ≡ starts_from 0 cells.now) }
{
    let mut starts = Vec::with_capacity(alloc, cells.len())?;
    for seat in 0..cells.len() {
        let id = Id::from_str(alloc, digit_of(seat))?;
        starts.push((id, point_of(cells[seat])))?;
    }
    Ok(Starts::from_vec(starts))
}

/// The setup without hazards, if it is within the limits.
fn plain_setup(alloc: Global, seats: &SeatSetup<'_>, mode: Mode) -> Result<Option<New>, AllocError>
    ensures { IfOk result (λ setup. setup ≡ fit_setup (plain_setup seats.now mode)) }
{
    let starts = starts_of(alloc, seats.starts)?;
    let food = points_of(alloc, seats.food)?;
    Ok(New::new(
        mode,
        seats.width,
        seats.height,
        starts,
        food,
        seats.min_food,
        seats.chance,
    ))
}

fn with_hazards(alloc: Global, seats: &SeatSetup<'_>, setup: New) -> Result<Option<New>, AllocError>
    ensures { IfOk result (λ new. new ≡ with_hazards seats.now setup) }
{
    if seats.has_hazards == 0 {
        return Ok(Some(setup));
    }
    let cells = points_of(alloc, seats.hazards)?;
    Ok(setup.with_hazards(Hazards {
        damage: seats.damage,
        cells,
    }))
}

/// The setup, if it is within the limits of a game.
#[tactic(auto, unfolding(crate::specs::Setups::setup_by_seat))]
pub fn setup_by_seat(alloc: Global, seats: &SeatSetup<'_>) -> Result<Option<New>, AllocError>
    ensures { IfOk result (λ setup. setup ≡ setup_by_seat seats.now) }
{
    let Some(mode) = mode_from(seats.mode) else {
        return Ok(None);
    };
    match plain_setup(alloc, seats, mode)? {
        Some(setup) => with_hazards(alloc, seats, setup),
        None => Ok(None),
    }
}
