//! The view that a job reads: its game's boards, decoded from the records.
ghost use Rattle.std.specs.Prelude.{IfOk, IfSome};
ghost use Rattle.bs_board.specs.records.Kept.{IsLegalRecord};
ghost use Rattle.bs_game.specs.View.{IsFitView};
ghost use Rattle.bs_fiber.specs.Fit.{IsFitGame};
ghost use Rattle.bs_fiber.specs.Seeing.{IsBoardOf, IsSeen};

use crate::input::Input;
use bs_board::{Board, Record};
use bs_game::View;
use std::alloc::{AllocError, Global};

fn board_seen(alloc: Global, kept: &Option<Record>) -> Result<Option<Board>, AllocError>
    requires { IfSome kept.now IsLegalRecord }
    ensures { IfOk result (IsBoardOf kept.now) }
{
    match kept {
        None => Ok(None),
        Some(kept) => Ok(Some(kept.board(alloc)?)),
    }
}

/// Decodes the view that a job reads.
#[tactic(auto, using(crate::proofs::Seen::seen_is_fit))]
pub(crate) fn view_seen(alloc: Global, input: &Input) -> Result<View, AllocError>
    requires { IsFitGame input.now }
    ensures seen { IfOk result (λ view. IsSeen view input.now) }
    ensures fit { IfOk result IsFitView }
{
    Ok(View {
        quota: input.quota,
        charge: input.charge,
        kept: input.kept,
        last: board_seen(alloc, &input.last)?,
        asked: board_seen(alloc, &input.asked)?,
    })
}
