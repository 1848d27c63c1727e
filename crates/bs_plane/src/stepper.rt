//! A turn from record to record, over the plane of a game's last board.

ghost use Rattle.std.specs.Prelude.{◌≡◌, true, IfOk, IfSome, IsTrue, MatchOption, None, OnErr, OnOk};
ghost use Rattle.bs_board.specs.commands.Setup.{is_side};
ghost use Rattle.bs_board.specs.records.Layout.{cells_of};
ghost use Rattle.bs_rules.specs.Turn.{refilled};
ghost use Rattle.bs_plane.specs.Following.{Follows, IsLost, IsNextRecord};
ghost use Rattle.bs_plane.specs.Plane.{Changes, ShowsBoard, with_hazards};
ghost use Rattle.bs_plane.specs.Turn.{refilled_in};
ghost use Rattle.bs_plane.specs.inner.Answered.{IsMoveReason};
ghost use Rattle.bs_plane.specs.inner.Turn.{MayStep, PlaysFrom, Refills};

use crate::food::{keep_food, remove_eaten, spawn};
use crate::given::give;
use crate::motion::{are_alone, move_snakes};
use crate::plane::Plane;
use crate::writing::write_record;
use bs_board::limits::{LAST_TURN, LONGEST_SIDE, MOST_SNAKES, SHORTEST_SIDE};
use bs_board::{Board, BoardBytes, Hazards, Mode, Move, Point, Record};
use std::alloc::{AllocError, Global};

/// The food and the snakes of a record that is being made, and all its bytes.
#[derive(Debug, Drop)]
pub struct Draft {
    pub food: Vec<u8>,
    pub snakes: Vec<u8>,
    /// The heads of the living snakes.
    pub heads: Vec<Point>,
    pub bytes: Vec<u8>,
}

/// What is kept beside a game so that a turn is played from its last record to the next one.
#[derive(Debug, Drop)]
pub struct Stepper {
    plane: Plane,
    /// Whether the plane is that of the game's last board.
    is_current: bool,
    draft: Draft,
}

/// Adds the hazards to the plane.
fn add_hazards(plane: &mut Plane, hazards: &Option<Hazards>) -> bool
    ensures { IsTrue result → Changes (with_hazards (cells_of hazards.now)) plane.old plane.new }
{
    match hazards {
        None => true,
        Some(hazards) => plane.add_hazards(hazards.cells.as_slice()),
    }
}

/// Makes the plane that of the board. False if it cannot be.
fn show(plane: &mut Plane, board: &Board) -> Result<bool, AllocError>
    ensures { IfOk result (λ done. IsTrue done → ShowsBoard board.now plane.new) }
{
    plane.clear(board.width, board.height)?;
    if !plane.add_food(board.food.as_slice()) {
        return Ok(false);
    }
    if !add_hazards(plane, &board.hazards) {
        return Ok(false);
    }
    Ok(plane.add_snakes(board.snakes.as_slice()))
}

/// Removes what was eaten, and appends the food that is left. False if the plane cannot follow.
fn leave_food(
    plane: &mut Plane,
    board: &BoardBytes<'_>,
    heads: &[Point],
    food: &mut Vec<u8>,
) -> Result<bool, AllocError>
    ensures { IfOk result (λ done. IsTrue done → Refills (λ b. b) board.now heads.now plane.old food.old.items plane.new food.new.items) }
{
    if board.food.is_empty() {
        return Ok(true);
    }
    if !remove_eaten(plane, heads) {
        return Ok(false);
    }
    keep_food(plane, board.food, food)
}

/// Removes what was eaten, adds new food, and then the food that the move gives. False if the plane
/// cannot follow.
fn refill_food(
    plane: &mut Plane,
    board: &BoardBytes<'_>,
    orders: &Move,
    heads: &[Point],
    food: &mut Vec<u8>,
) -> Result<bool, AllocError>
    ensures { IfOk result (λ done. IsTrue done → Refills (λ b. refilled orders.now b) board.now heads.now plane.old food.old.items plane.new food.new.items) }
{
    if !leave_food(plane, board, heads, food)? {
        return Ok(false);
    }
    let words = orders.words.as_slice();
    if !spawn(plane, board.min_food, board.chance, words, food)? {
        return Ok(false);
    }
    give(plane, &orders.food, food)
}

/// The food of a turn, by the mode. False if the plane cannot follow.
fn refill(
    plane: &mut Plane,
    board: &BoardBytes<'_>,
    orders: &Move,
    heads: &[Point],
    food: &mut Vec<u8>,
) -> Result<bool, AllocError>
    ensures { IfOk result (λ done. IsTrue done → Refills (λ b. refilled_in b.mode orders.now b) board.now heads.now plane.old food.old.items plane.new food.new.items) }
{
    match board.mode {
        Mode::Constrictor => Ok(board.food.is_empty()),
        Mode::Standard => refill_food(plane, board, orders, heads, food),
        Mode::Solo => refill_food(plane, board, orders, heads, food),
        Mode::Wrapped => refill_food(plane, board, orders, heads, food),
    }
}

/// Plays the turn over the plane. False if the game is over, or if the turn is not one that the
/// plane can follow.
fn play(
    plane: &mut Plane,
    board: &BoardBytes<'_>,
    orders: &Move,
    draft: &mut Draft,
) -> Result<bool, AllocError>
    requires { MayStep board.now orders.now }
    ensures { IfOk result (λ done. IsTrue done → PlaysFrom board.now orders.now plane.old plane.new draft.new.bytes.items) }
{
    draft.snakes.clear();
    draft.heads.clear();
    draft.food.clear();
    if !move_snakes(
        plane,
        board,
        &orders.moves,
        &mut draft.snakes,
        &mut draft.heads,
    )? {
        return Ok(false);
    }
    if draft.heads.len() <= board.mode.last_living() {
        return Ok(false);
    }
    if !are_alone(plane, &draft.heads) {
        return Ok(false);
    }
    if !refill(plane, board, orders, &draft.heads, &mut draft.food)? {
        return Ok(false);
    }
    if draft.food.len() >= 131_000 {
        return Ok(false);
    }
    write_record(board, &draft.food, &draft.snakes, &mut draft.bytes)?;
    Ok(true)
}

/// Whether a board can have a side of that many cells.
fn is_side(cells: u8) -> bool
    ensures { result ≡ is_side cells }
{
    SHORTEST_SIDE <= cells && cells <= LONGEST_SIDE
}

/// Whether a turn of this board may be played over a plane.
fn may_step(board: &BoardBytes<'_>, orders: &Move) -> bool
    ensures { IsTrue result → MayStep board.now orders.now }
{
    orders.hazards.is_none()
        && is_side(board.width)
        && is_side(board.height)
        && board.turn < LAST_TURN
        && board.seats <= MOST_SNAKES
        && board.hazards.len() < 131_000
}

impl Stepper {
    /// One that is of no board.
    pub fn new(alloc: Global) -> Stepper
        ensures { IsLost result }
    {
        Stepper {
            plane: Plane::new(alloc),
            is_current: false,
            draft: Draft {
                food: Vec::new(alloc),
                snakes: Vec::new(alloc),
                heads: Vec::new(alloc),
                bytes: Vec::new(alloc),
            },
        }
    }

    /// Makes it of no board.
    pub fn forget(&mut self)
        ensures { IsLost self.new }
    {
        self.is_current = false;
    }

    /// Makes it that of the board; after an error it is of no board.
    pub fn load(&mut self, board: &Board) -> Result<(), AllocError>
        ensures ok { OnOk result (self.new.is_current ≡ true → ShowsBoard board.now self.new.plane) }
        ensures err { OnErr result (IsLost self.new) }
    {
        self.is_current = false;
        self.is_current = show(&mut self.plane, board)?;
        Ok(())
    }

    /// Plays a turn from the record of the last board to that of the next one. `None` if the turn
    /// is not one that it can follow: it is then of no board, and the turn is played on the decoded
    /// board. After an error it is of no board.
    pub fn step(
        &mut self,
        alloc: Global,
        last: &Record,
        orders: &Move,
    ) -> Result<Option<Record>, AllocError>
        requires { Follows self.old last.now }
        ensures value { IfOk result (λ next. IfSome next (IsNextRecord last.now orders.now)) }
        ensures follows { IfOk result (λ next. MatchOption next (IsLost self.new) (Follows self.new)) }
        ensures err { OnErr result (IsLost self.new) }
    {
        self.step_allowed(alloc, last, orders)
    }

    /// The body of `step`, which plays only moves that are allowed: `None` also where the game is
    /// over, or at its last turn.
    pub(crate) fn step_allowed(
        &mut self,
        alloc: Global,
        last: &Record,
        orders: &Move,
    ) -> Result<Option<Record>, AllocError>
        requires { Follows self.old last.now }
        ensures value { IfOk result (λ next. IfSome next (IsNextRecord last.now orders.now)) }
        ensures allowed { IfOk result (λ next. IfSome next (λ _. IsMoveReason last.now None)) }
        ensures follows { IfOk result (λ next. MatchOption next (IsLost self.new) (Follows self.new)) }
        ensures err { OnErr result (IsLost self.new) }
    {
        let is_current = self.is_current;
        self.is_current = false;
        let board = last.parts();
        if !is_current || !may_step(&board, orders) {
            return Ok(None);
        }
        if !play(&mut self.plane, &board, orders, &mut self.draft)? {
            return Ok(None);
        }
        let record = Record::of_bytes(alloc, &self.draft.bytes)?;
        self.is_current = true;
        Ok(Some(record))
    }
}
