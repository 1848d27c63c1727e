//! Whether a core of one row, which a thread ran alone, can be put together with others.
ghost use Rattle.std.specs.Prelude.{◌≡◌, ◌↔◌, ◌∷◌, [], IsTrue, List};
ghost use Rattle.bs_board.specs.declared.commands.command.Command.{Command};
ghost use Rattle.bs_sched.specs.Assembly.{IsQueuedFirst, RanAlone};

use crate::cores::Core;
use bs_board::Row;
use bs_registry::blocks_of;

fn is_same_row(row: &Row, other: &Row) -> bool
    ensures { IsTrue result ↔ row.now ≡ other.now }
{
    row.game == other.game && row.quota == other.quota
}

/// Whether the list is that row alone.
fn is_lone(rows: &[Row], row: &Row) -> bool
    ensures { IsTrue result → rows.now ≡ row.now ∷ [] }
{
    match rows.split_first() {
        Some((first, rest)) => rest.is_empty() && is_same_row(first, row),
        None => false,
    }
}

impl<const CAP: usize> Core<CAP> {
    /// The rows of the plan.
    fn plan(&self) -> &[Row]
        ensures { result.now ≡ self.now.games.rows }
    {
        self.games.plan()
    }

    /// Whether the core is of that row alone, with the blocks that the row reserves and as many
    /// workers; and it is idle.
    #[tactic(auto, using(crate::proofs::RanAlone::first_idle, crate::proofs::RanAlone::queued_first))]
    pub fn ran_alone(&self, row: &Row, workers: usize) -> bool
        ensures { (commands : List Command) → IsQueuedFirst commands self.now → IsTrue result
            → RanAlone CAP workers row.now commands self.now }
    {
        let _events = self.journal();
        is_lone(self.plan(), row)
            && self.workers() == workers
            && self.counts().size == blocks_of(CAP, row)
            && self.is_quiet()
    }
}
