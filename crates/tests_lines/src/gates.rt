//! What `serve` asks its gate, and that a refusal of any job is heard.
use crate::files::TWO_GAMES;
use crate::serving::{Run, is_refused, transcript};
use crate::stays::STAYS;
use bs_fiber::JobName;
use bs_samples::same;
use bs_workers::Gate;
use std::sync::atomic::AtomicUsize;
use std::sync::atomic::Ordering::SeqCst;
use std::test::Fail;

/// Refuses the jobs of that row.
#[derive(Clone, Copy)]
struct RefusedRow {
    row: u32,
}

impl Gate for RefusedRow {
    fn at(&self, _worker: usize, job: JobName) -> bool {
        job.game != self.row
    }
}

/// A refused job of either game breaks the run off, whichever thread asks, and nothing is written.
#[test]
fn a_refusal_in_any_game_is_heard(rt: HostRuntime) -> Result<(), Fail> {
    for workers in 1..5 {
        for row in 0..2 {
            let run = Run {
                file: TWO_GAMES,
                blocks: 12,
                workers,
            };
            is_refused(&rt, rt.alloc(), run, &RefusedRow { row }, "broken")?;
        }
    }
    Ok(())
}

/// A refused job of any stay that was admitted breaks the run off. Row 0 has no job.
#[test]
fn a_refusal_in_any_stay_is_heard(rt: HostRuntime) -> Result<(), Fail> {
    for workers in 1..5 {
        for row in 1..4 {
            let run = Run {
                file: STAYS,
                blocks: 12,
                workers,
            };
            is_refused(&rt, rt.alloc(), run, &RefusedRow { row }, "broken")?;
        }
    }
    Ok(())
}

/// Counts the jobs for which it is consulted.
#[derive(Drop)]
struct Counting {
    count: AtomicUsize,
}

impl Gate for Counting {
    fn at(&self, _worker: usize, _job: JobName) -> bool {
        self.count.fetch_add(1, SeqCst);
        true
    }
}

/// The gate is asked once a job, so no run is repeated: of the two games for six Begins, the parts
/// of a move of one snake and of one of three, and their Joins; of the stays for three Begins.
#[test]
fn the_gate_is_asked_once_a_job(rt: HostRuntime) -> Result<(), Fail> {
    for workers in 1..5 {
        for (file, jobs) in [(TWO_GAMES, 6 + 1 + 2 + 2), (STAYS, 3)] {
            let gate = Counting {
                count: AtomicUsize::new(0),
            };
            let run = Run {
                file,
                blocks: 12,
                workers,
            };
            transcript(&rt, rt.alloc(), run, &gate)?;
            same("jobs", gate.count.load(SeqCst), jobs)?;
        }
    }
    Ok(())
}
