//! The registry of open stays, call by call.
use bs_board::Id;
use bs_registry::{Listed, Refusal, Registry, open_rows};
use bs_samples::{holds, plan_of, row, same};
use std::alloc::Global;
use std::test::Fail;

/// Opens a stay of that name in the next row, unless the registry refuses it.
fn admit(
    alloc: Global,
    stays: &mut Registry<u8>,
    name: &str,
    kept: u8,
) -> Result<Option<Refusal>, Fail> {
    let row = row(alloc, name, 64)?;
    let refusal = stays.refusal(&row, 5, 5);
    if refusal == None {
        stays.push(row, kept)?;
    }
    Ok(refusal)
}

fn check_admit(
    alloc: Global,
    stays: &mut Registry<u8>,
    name: &str,
    refusal: Option<Refusal>,
) -> Result<(), Fail> {
    same(name, admit(alloc, stays, name, 7)?, refusal)
}

fn check_find<T: Drop>(
    alloc: Global,
    stays: &mut Registry<T>,
    name: &str,
    number: Option<usize>,
) -> Result<(), Fail> {
    let name = Id::from_str(alloc, name)?;
    same("found", stays.find(name.as_bytes()), number)
}

#[test]
fn a_name_is_found_while_its_stay_is_open(rt: HostRuntime) -> Result<(), Fail> {
    let alloc = rt.alloc();
    let mut stays = Registry::new(alloc);
    check_admit(alloc, &mut stays, "a", None)?;
    check_admit(alloc, &mut stays, "b", None)?;
    check_admit(alloc, &mut stays, "a", Some(Refusal::NameOpen))?;
    check_find(alloc, &mut stays, "b", Some(1))?;
    check_find(alloc, &mut stays, "a", Some(0))?;
    stays.remove(0);
    check_find(alloc, &mut stays, "a", None)?;
    check_find(alloc, &mut stays, "b", Some(1))?;
    same("made", stays.made(), 2)
}

#[test]
fn a_number_is_given_once(rt: HostRuntime) -> Result<(), Fail> {
    let alloc = rt.alloc();
    let mut stays = Registry::new(alloc);
    check_admit(alloc, &mut stays, "a", None)?;
    stays.remove(0);
    check_admit(alloc, &mut stays, "a", None)?;
    check_find(alloc, &mut stays, "a", Some(1))?;
    same("place", stays.place_of(1), Some(0))?;
    same("place", stays.place_of(0), None)
}

/// A row that is pushed and undone was never there: the next one gets its number.
#[test]
fn an_undone_row_leaves_its_number(rt: HostRuntime) -> Result<(), Fail> {
    let alloc = rt.alloc();
    let mut stays = Registry::new(alloc);
    check_admit(alloc, &mut stays, "a", None)?;
    check_admit(alloc, &mut stays, "b", None)?;
    holds("two rows", stays.made() > 1 && stays.as_slice().len() > 1)?;
    stays.undo_push();
    same("made", stays.made(), 1)?;
    check_find(alloc, &mut stays, "b", None)?;
    check_admit(alloc, &mut stays, "c", None)?;
    check_find(alloc, &mut stays, "c", Some(1))
}

/// The rows of a plan are open, with their numbers.
#[test]
fn the_rows_of_a_plan_are_open(rt: HostRuntime) -> Result<(), Fail> {
    let alloc = rt.alloc();
    let plan = plan_of(alloc, &[("a", 64), ("b", 64)])?;
    let mut stays = open_rows(alloc, &plan.rows)?;
    same("made", stays.made(), 2)?;
    check_find(alloc, &mut stays, "b", Some(1))?;
    check_find(alloc, &mut stays, "a", Some(0))?;
    check_find(alloc, &mut stays, "c", None)
}

/// Of six rows that of number 4 alone is open. The next stay has number 6.
#[test]
fn a_registry_is_made_of_open_stays(rt: HostRuntime) -> Result<(), Fail> {
    let alloc = rt.alloc();
    let mut open = Vec::new(alloc);
    open.push(Listed {
        number: 4,
        row: row(alloc, "a", 64)?,
        kept: 7u8,
    })?;
    let mut stays = Registry::from_open(6, open);
    same("made", stays.made(), 6)?;
    check_find(alloc, &mut stays, "a", Some(4))?;
    check_admit(alloc, &mut stays, "a", Some(Refusal::NameOpen))?;
    check_admit(alloc, &mut stays, "b", None)?;
    check_find(alloc, &mut stays, "b", Some(6))
}

#[test]
fn blocks_are_judged_last(rt: HostRuntime) -> Result<(), Fail> {
    let alloc = rt.alloc();
    let mut stays = Registry::new(alloc);
    check_admit(alloc, &mut stays, "a", None)?;
    let short = Refusal::Short { free_to_reserve: 4 };
    same(
        "short",
        stays.refusal(&row(alloc, "b", 64)?, 5, 4),
        Some(short),
    )?;
    same(
        "name",
        stays.refusal(&row(alloc, "a", 64)?, 5, 4),
        Some(Refusal::NameOpen),
    )?;
    // A quota of 64 bytes needs 2 blocks for its records and 4 for the parts of a move.
    same("left", stays.left_of(2_097_152, 20), 14)
}
