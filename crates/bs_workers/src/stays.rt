//! What the acts of a run alone decide of its stays, before any of them is played.
ghost use Rattle.std.specs.Prelude.{◌≡◌, ◌≢◌, ◌++◌, ◌∷◌, [], true, false, All, IfErr, IfOk, OnOk, length, map};
ghost use Rattle.bs_board.specs.plans.Plan.{is_fit_row};
ghost use Rattle.bs_game.specs.Answer.{Fits};
ghost use Rattle.bs_sched.specs.Isolation.{HandsFit};
ghost use Rattle.bs_workers.specs.Acts.{rows_admitted};
ghost use Rattle.bs_workers.specs.inner.Stays.{AreListed, HaveLeft, event_of, step_in, with_leave};
ghost use Rattle.bs_workers.specs.declared.stop.Stop.TheVariants as reason;

use crate::act::Act;
use crate::places::{Places, places_of};
use crate::stop::Stop;
use bs_board::{Command, Row, Rows};
use bs_sched::{SharedRow, Step};
use std::alloc::{AllocError, Global};

/// The stays of a run, those of the plan and then the admitted ones, and the order of its acts.
#[derive(Drop)]
pub(crate) struct Stays {
    /// The row of each stay.
    pub(crate) rows: Vec<SharedRow>,
    /// The places of each stay's commands among the acts.
    pub(crate) places: Vec<Places>,
    /// Whether each stay leaves.
    pub(crate) leaves: Vec<bool>,
    /// The acts without their commands.
    pub(crate) order: Vec<Step>,
}

fn put_row(rows: &mut Vec<SharedRow>, row: SharedRow) -> Result<(), AllocError>
    ensures { OnOk result (rows.new.items ≡ rows.old.items ++ row ∷ []) }
{
    Ok(rows.push(row)?)
}

/// The rows of the plan, shared.
fn rows_of_plan(alloc: Global, plan: &[Row]) -> Result<Vec<SharedRow>, AllocError>
    ensures { IfOk result (λ rows. rows.items ≡ plan.now) }
{
    let mut rows = Vec::with_capacity(alloc, plan.len())?;
    for row in plan {
        put_row(&mut rows, SharedRow::new(alloc, row.copy(alloc)?)?)?;
    }
    Ok(rows)
}

/// Adds the row of the act, if it admits a stay.
fn put_admitted(rows: &mut Vec<SharedRow>, act: &Act) -> Result<(), AllocError>
    ensures { OnOk result (rows.new.items ≡ rows.old.items ++ rows_admitted (act.now ∷ [])) }
{
    match act {
        Act::Hand(_, _) => Ok(()),
        Act::Admit(row) => put_row(rows, row.share()?),
        Act::Leave(_) => Ok(()),
    }
}

/// The rows of all stays.
fn rows_of(alloc: Global, plan: &[Row], acts: &[Act]) -> Result<Vec<SharedRow>, AllocError>
    ensures { IfOk result (λ rows. rows.items ≡ plan.now ++ rows_admitted acts.now) }
{
    let mut rows = rows_of_plan(alloc, plan)?;
    for act in acts {
        put_admitted(&mut rows, act)?;
    }
    Ok(rows)
}

/// As many stays, none of which leaves.
fn none_leave(alloc: Global, stays: usize) -> Result<Vec<bool>, AllocError>
    ensures none { IfOk result (λ leaves. All (λ leave. leave ≡ false) leaves.items) }
    ensures many { IfOk result (λ leaves. length leaves.items ≡ stays) }
{
    let mut leaves = Vec::with_capacity(alloc, stays)?;
    for _ in 0..stays {
        leaves.push(false)?;
    }
    Ok(leaves)
}

/// Notes the stay that the act closes.
fn put_leave(leaves: &mut Vec<bool>, act: &Act)
    ensures { leaves.new.items ≡ with_leave act.now leaves.old.items }
{
    if let Act::Leave(stay) = act {
        let stay = *stay;
        if stay < leaves.len() {
            leaves[stay] = true;
        }
    }
}

/// Whether each of that many stays leaves.
fn leaves_of(alloc: Global, acts: &[Act], stays: usize) -> Result<Vec<bool>, AllocError>
    ensures left { IfOk result (λ leaves. HaveLeft acts.now leaves.items) }
    ensures many { IfOk result (λ leaves. length leaves.items ≡ stays) }
{
    let mut leaves = none_leave(alloc, stays)?;
    for act in acts {
        put_leave(&mut leaves, act);
    }
    Ok(leaves)
}

fn step_number(stay: usize) -> Result<u32, Stop>
    ensures number { IfOk result (λ number. number ≡ stay) }
    ensures cause { IfErr result (λ stop. stop ≡ reason.Failed) }
{
    match u32::try_from(stay) {
        Ok(number) => Ok(number),
        Err(_) => Err(Stop::Failed),
    }
}

/// The act without its command.
fn step_of(act: &Act) -> Result<Step, Stop>
    ensures step { IfOk result (λ step. step ≡ step_in act.now) }
    ensures cause { IfErr result (λ stop. stop ≢ reason.Refused) }
{
    match act {
        Act::Hand(stay, _) => Ok(Step::Hand(step_number(*stay)?)),
        Act::Admit(row) => Ok(Step::Admit(row.share()?)),
        Act::Leave(stay) => Ok(Step::Leave(step_number(*stay)?)),
    }
}

fn put_step(order: &mut Vec<Step>, step: Step) -> Result<(), AllocError>
    ensures { OnOk result (order.new.items ≡ order.old.items ++ step ∷ []) }
{
    Ok(order.push(step)?)
}

/// Does nothing. Gives the prover the limits of a command, which its types guarantee.
fn keeps_command(command: &Command)
    ensures { Fits command.now }
{
    match command {
        Command::New(new) => {
            let _mode = new.mode;
        }
        Command::Move(orders) => orders.fits(),
        Command::Turn(at) => {
            let _number = at.number();
        }
        Command::Show => {}
        Command::Free => {}
        Command::End => {}
        Command::Bad => {}
    }
}

/// Does nothing. Gives the prover the limits of a row, which its type guarantees.
fn keeps_row(row: &Row)
    ensures { is_fit_row row.now ≡ true }
{
    let _quota = row.quota;
}

/// Does nothing. Gives the prover the limits of the act's command or row.
fn keeps_limits(act: &Act)
    ensures { HandsFit (event_of act.now) }
{
    match act {
        Act::Hand(_, command) => keeps_command(command.get()),
        Act::Admit(row) => keeps_row(row.get()),
        Act::Leave(_) => {}
    }
}

/// The acts without their commands.
fn order_of(alloc: Global, acts: &[Act]) -> Result<Vec<Step>, Stop>
    ensures steps { IfOk result (λ order. order.items ≡ map step_in acts.now) }
    ensures fits { OnOk result (All HandsFit (map event_of acts.now)) }
    ensures cause { IfErr result (λ stop. stop ≢ reason.Refused) }
{
    let mut order = Vec::with_capacity(alloc, acts.len())?;
    for act in acts {
        keeps_limits(act);
        put_step(&mut order, step_of(act)?)?;
    }
    Ok(order)
}

impl Stays {
    /// The stays of a plan and of the acts.
    pub(crate) fn of_acts(alloc: Global, plan: &Rows, acts: &[Act]) -> Result<Stays, Stop>
        ensures listed { IfOk result (λ stays. AreListed plan.now acts.now stays) }
        ensures cause { IfErr result (λ stop. stop ≢ reason.Refused) }
    {
        let order = order_of(alloc, acts)?;
        let rows = rows_of(alloc, plan.as_slice(), acts)?;
        let places = places_of(alloc, acts, rows.len())?;
        let leaves = leaves_of(alloc, acts, rows.len())?;
        Ok(Stays {
            rows,
            places,
            leaves,
            order,
        })
    }
}
