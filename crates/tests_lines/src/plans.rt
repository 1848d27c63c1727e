//! Plans at both sides of each limit, and plans that reserve more blocks than there are.
use crate::serving::{Run, is_refused, is_served};
use bs_workers::OpenGate;
use std::alloc::{AllocError, Global};
use std::test::Fail;

/// The rows of a plan: their number, the number of bytes of their names, and their quota.
#[derive(Clone, Copy)]
struct Rows {
    games: u64,
    letters: usize,
    quota: u32,
}

fn name_of(alloc: Global, game: u64, letters: usize) -> Result<String, AllocError> {
    if letters == 0 {
        return Ok(String::new(alloc));
    }
    let mut name = format!(in alloc; "{game}")?;
    let rest = "g".repeat(alloc, letters.saturating_sub(name.len()))?;
    name.push_str(rest.as_str())?;
    Ok(name)
}

fn plan_of(alloc: Global, rows: Rows) -> Result<String, AllocError> {
    let mut plan = String::from_str(alloc, "{\"games\":[")?;
    for game in 0..rows.games {
        if game > 0 {
            plan.push(',')?;
        }
        let name = name_of(alloc, game, rows.letters)?;
        plan.push_str(format!(in alloc;
            "{{\"game\":\"{}\",\"quota\":{}}}",
            name.as_str(),
            rows.quota
        )?
        .as_str())?;
    }
    plan.push_str("]}")?;
    Ok(plan)
}

// A plan that is refused only for its blocks is within its limits.
#[test]
fn plans_at_their_limits(rt: HostRuntime) -> Result<(), Fail> {
    for (games, letters, quota, fault) in [
        (1, 1, 15, "plan P2"),
        (1, 1, 16, "plan P4"),
        (1, 1, 16_777_216, "plan P4"),
        (1, 1, 16_777_217, "plan P2"),
        (1, 0, 16, "plan P2"),
        (1, 64, 16, "plan P4"),
        (1, 65, 16, "plan P2"),
        (64, 2, 16, "plan P4"),
        (65, 2, 16, "plan P3"),
    ] {
        let rows = Rows {
            games,
            letters,
            quota,
        };
        let plan = plan_of(rt.alloc(), rows)?;
        let run = Run {
            file: plan.as_str(),
            blocks: 5,
            workers: 1,
        };
        is_refused(&rt, rt.alloc(), run, &OpenGate, fault)?;
    }
    Ok(())
}

const TWICE: &str = r#"{"games":[{"game":"a","quota":64},{"game":"a","quota":64}]}"#;

const TWO: &str = r#"{"games":[{"game":"a","quota":64},{"game":"b","quota":64}]}"#;

const TWO_ENDS: &str = r#"{"board":null,"charge":0,"final":true,"game":"a"}
{"board":null,"charge":0,"final":true,"game":"b"}
"#;

const LARGE: &str = r#"{"games":[{"game":"a","quota":16777216}]}"#;

const LARGE_END: &str = r#"{"board":null,"charge":0,"final":true,"game":"a"}
"#;

#[test]
fn plans_are_refused(rt: HostRuntime) -> Result<(), Fail> {
    for (file, blocks, fault) in [
        ("", 64, "plan P1"),
        (r#"{"games":1}"#, 64, "plan P1"),
        (r#"{"games":[],"version":4}"#, 64, "plan P1"),
        (r#"{"games":[{"game":"a","quota":15}]}"#, 64, "plan P2"),
        (TWICE, 64, "plan P2"),
        (TWO, 11, "plan P4"),
        (LARGE, 14, "plan P4"),
    ] {
        let run = Run {
            file,
            blocks,
            workers: 2,
        };
        is_refused(&rt, rt.alloc(), run, &OpenGate, fault)?;
    }
    Ok(())
}

// Two games of small quotas reserve 12 blocks, one of the largest quota 15.
#[test]
fn plans_have_just_enough_blocks(rt: HostRuntime) -> Result<(), Fail> {
    for (file, blocks, text) in [
        (r#"{"games":[],"version":3}"#, 64, ""),
        (TWO, 12, TWO_ENDS),
        (LARGE, 15, LARGE_END),
    ] {
        let run = Run {
            file,
            blocks,
            workers: 2,
        };
        is_served(&rt, rt.alloc(), run, text)?;
    }
    Ok(())
}
