//! The open stays of a live host.
ghost use Rattle.std.specs.Prelude.{◌≡◌, ◌++◌, IfOk, OnOk};
ghost use Rattle.bs_host.specs.inner.LiveHost.{final_of, finals_of, live_stay, reply_of, with_answer};
ghost use Rattle.bs_registry.specs.Registry.{listed_from};

use crate::limits::BLOCK_BYTES;
use bs_board::{Command, Row};
use bs_json::TextBuffer;
use bs_live::LiveStay;
use bs_registry::{Listed, Registry, blocks_of};
use std::alloc::{AllocError, Global};

/// The open stays of a live host. A stay that leaves is dropped with its pool.
pub(crate) type LiveStays = Registry<LiveStay<BLOCK_BYTES>>;

/// Opens a stay of that row, with the blocks that its quota reserves.
pub(crate) fn open_stay(alloc: Global, row: &Row) -> Result<LiveStay<BLOCK_BYTES>, AllocError>
    ensures { IfOk result (λ stay. stay ≡ live_stay row.now) }
{
    LiveStay::open(alloc, row.copy(alloc)?, blocks_of(BLOCK_BYTES, row))
}

/// Opens a stay for each row of a plan. The stays are numbered from 0.
#[tactic(auto, using(bs_registry::proofs::Planned::one_more_listed, bs_registry::proofs::Planned::all_listed))]
pub(crate) fn list_stays(
    alloc: Global,
    rows: &[Row],
) -> Result<Vec<Listed<LiveStay<BLOCK_BYTES>>>, AllocError>
    ensures { IfOk result (λ stays. stays.items ≡ listed_from live_stay 0 rows.now) }
{
    let mut stays = Vec::with_capacity(alloc, rows.len())?;
    for number in 0..rows.len() {
        let row = rows[number].copy(alloc)?;
        let kept = open_stay(alloc, &row)?;
        stays.push(Listed { number, row, kept })?;
    }
    Ok(stays)
}

/// Answers the command in the open stay of that number, and appends its reply line.
#[tactic(auto, using(crate::proofs::LiveStays::answered_there, crate::proofs::LiveStays::none_answers, crate::proofs::LiveStays::place_inside))]
pub(crate) fn answer_in(
    stays: &mut LiveStays,
    alloc: Global,
    number: usize,
    command: &Command,
    text: &mut TextBuffer,
) -> Result<(), AllocError>
    ensures stays { OnOk result (stays.new ≡ with_answer number command.now stays.old) }
    ensures text { OnOk result (text.new.bytes ≡ text.old.bytes ++ reply_of number command.now stays.old) }
{
    match stays.place_of(number) {
        Some(place) => {
            stays.kept_mut(place).answer(alloc, command, text)?;
            Ok(())
        }
        None => Ok(()),
    }
}

/// Appends the final line of the open stay of that number.
#[tactic(auto, using(crate::proofs::LiveStays::final_there, crate::proofs::LiveStays::no_final, crate::proofs::LiveStays::place_inside))]
pub(crate) fn push_final_of(
    alloc: Global,
    stays: &LiveStays,
    number: usize,
    text: &mut TextBuffer,
) -> Result<(), AllocError>
    ensures { OnOk result (text.new.bytes ≡ text.old.bytes ++ final_of number stays.now) }
{
    match stays.place_of(number) {
        Some(place) => {
            stays.as_slice()[place].kept.push_final(alloc, text)?;
            Ok(())
        }
        None => Ok(()),
    }
}

/// Appends the final lines of all open stays, in the order of their numbers.
#[tactic(auto, using(crate::proofs::LiveStays::one_more_final, crate::proofs::LiveStays::all_final))]
pub(crate) fn push_finals(
    alloc: Global,
    stays: &[Listed<LiveStay<BLOCK_BYTES>>],
    text: &mut TextBuffer,
) -> Result<(), AllocError>
    ensures { OnOk result (text.new.bytes ≡ text.old.bytes ++ finals_of stays.now) }
{
    for index in 0..stays.len() {
        stays[index].kept.push_final(alloc, text)?;
    }
    Ok(())
}
