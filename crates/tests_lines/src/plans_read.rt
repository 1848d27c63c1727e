//! How the first line of a file is parsed.
use crate::rows::{joined, rows_text};
use crate::summaries::{summary_of, summary_of_plan};
use bs_board::Version;
use bs_json::{PlanFault, read_line, read_plan};
use bs_samples::same;
use std::alloc::Global;
use std::test::Fail;

// Each row: how the plan is parsed, a bar, and its line.
const PLANS: &str = r#"version 1|{"games":[]}
version 1 a 4096|{"games":[{"game":"a","quota":4096}]}
version 1 b 16777216 a 16|{"version":1,"games":[{"game":"b","quota":16777216},{"quota":16,"game":"a","x":[]}]}
Malformed|
Malformed|{"games":1}
Malformed|{}
Malformed|[]
version 2|{"games":[],"version":2}
version 2 a 16|{"version":2,"games":[{"game":"a","quota":16}]}
version 3|{"games":[],"version":3}
version 3 a 16|{"version":3,"games":[{"game":"a","quota":16}]}
Malformed|{"games":[],"version":4}
Malformed|{"games":[],"version":0}
Malformed|{"games":[],"version":2.0}
Malformed|{"games":[],"version":"2"}
Malformed|{"games":[1],"version":null}
BadRow|{"games":[{"game":"a","quota":15}]}
BadRow|{"games":[{"game":"a","quota":16777217}]}
BadRow|{"games":[{"game":"","quota":16}]}
BadRow|{"games":[{"game":"a","quota":16},{"game":"a","quota":17}]}
BadRow|{"games":[{"quota":16}]}"#;

#[test]
fn plans_are_read(rt: HostRuntime) -> Result<(), Fail> {
    for row in PLANS.split('\n') {
        let (wanted, line) = row.split_once('|').ok_or("a bar in each row")?;
        let plan = read_plan(rt.alloc(), line.as_bytes());
        same(line, summary_of_plan(rt.alloc(), &plan)?.as_str(), wanted)?;
    }
    Ok(())
}

fn fault_of(alloc: Global, line: &[u8]) -> Option<PlanFault> {
    read_plan(alloc, line).err()
}

// Compares how a line of that many spaces is parsed after a plan, and as the plan.
fn spaces_are_read(alloc: Global, spaces: usize, wanted: &str) -> Result<(), Fail> {
    let line = vec![in alloc; b' '; spaces]?;
    let read = read_line(alloc, line.as_slice(), Version::One)?;
    same(
        "a line of spaces",
        summary_of(alloc, &read)?.as_str(),
        wanted,
    )?;
    let fault = fault_of(alloc, line.as_slice());
    same("a plan of spaces", fault, Some(PlanFault::Malformed))
}

#[test]
fn a_long_line_is_judged_first(rt: HostRuntime) -> Result<(), Fail> {
    spaces_are_read(rt.alloc(), 65_536, "blank")?;
    spaces_are_read(rt.alloc(), 65_537, "stray Long")
}

// Compares the fault of a plan of 65 games, followed by a text.
fn is_faulty(alloc: Global, what: &str, behind: &str, fault: PlanFault) -> Result<(), Fail> {
    let rows = rows_text(alloc, 65, 16)?;
    let plan = joined(alloc, &["{\"games\":[", rows.as_str(), behind, "]}"])?;
    same(what, fault_of(alloc, plan.as_bytes()), Some(fault))
}

#[test]
fn a_bad_row_is_found_before_too_many(rt: HostRuntime) -> Result<(), Fail> {
    is_faulty(rt.alloc(), "65 rows", "", PlanFault::TooMany)?;
    is_faulty(rt.alloc(), "a bad row behind 65", ",1", PlanFault::BadRow)
}
