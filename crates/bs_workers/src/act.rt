//! The acts of a run.
use bs_fiber::SharedCommand;
use bs_sched::SharedRow;

/// One act of a run. A row of the plan is named by its number, and admitted rows are numbered after
/// those. An act has 24 bytes: a run with several threads reads all acts a few times.
#[derive(Debug, Drop)]
pub enum Act {
    /// Queues the command for the game of that row.
    Hand(usize, SharedCommand),
    /// Admits a game, in the next row.
    Admit(SharedRow),
    /// Dismisses the game of that row.
    Leave(usize),
}

const _: () = prove!(size_of::<Act>() == 24);

/// Whether the act queues a move. Only the parts of a move can run at the same time as another job
/// of their game.
fn is_move(act: &Act) -> bool {
    match act {
        Act::Hand(_, command) => command.is_move(),
        Act::Admit(_) | Act::Leave(_) => false,
    }
}

/// The row that the act names; 0 for an admission.
fn stay_of(act: &Act) -> usize {
    match act {
        Act::Hand(stay, _) => *stay,
        Act::Admit(_) => 0,
        Act::Leave(stay) => *stay,
    }
}

/// The row of all moves of `rows` rows. `None` if there is no move, or if two rows have moves.
pub(crate) fn only_mover(acts: &[Act], rows: usize) -> Option<usize> {
    let first = acts.iter().find(|act| is_move(act))?;
    let row = stay_of(first);
    let is_other = |act: &Act| is_move(act) && stay_of(act) != row;
    if rows > 1 && acts.iter().any(is_other) {
        return None;
    }
    Some(row)
}
