//! The answer to a command, from what its Begin would read: without a ticket, and for a move
//! without parts.
ghost use Rattle.std.specs.Prelude.{◌≡◌, IfOk, IfSome, option_map};
ghost use Rattle.bs_board.specs.declared.boards.board.Board.{Board as AnyBoard};
ghost use Rattle.bs_board.specs.boards.Legal.{IsLegal};
ghost use Rattle.bs_board.specs.records.Kept.{IsLegalRecord};
ghost use Rattle.bs_board.specs.records.Record.{record_of};
ghost use Rattle.bs_fiber.specs.declared.out.Out.TheVariants.{Answered};
ghost use Rattle.bs_fiber.specs.inner.Work.{shown};
ghost use Rattle.bs_fiber.specs.Fit.{IsFitGame};
ghost use Rattle.bs_fiber.specs.Seeing.{IsBoardOf, IsSeen};
ghost use Rattle.bs_game.specs.declared.view.View.{View as AnyView};
ghost use Rattle.bs_game.specs.View.{IsFitView, answer_of};
ghost use Rattle.bs_sched.specs.inner.Answers.{input_in};

use bs_board::{Board, Command, KeptBoard, Record, Word};
use bs_fiber::Expected;
use bs_game::{Answer, View, answer, check_unseen, refuse, show};
use bs_plane::PlaneCache;
use std::alloc::{AllocError, Global};

/// Decodes the board of a record.
fn board_of(alloc: Global, kept: Option<&Record>) -> Result<Option<Board>, AllocError>
    requires { IfSome (option_map (λ kept. kept.now) kept) IsLegalRecord }
    ensures { IfOk result (IsBoardOf (option_map (λ kept. kept.now) kept.entry)) }
{
    match kept {
        None => Ok(None),
        Some(kept) => Ok(Some(kept.board(alloc)?)),
    }
}

/// Decodes the board of the bytes of a record.
fn board_in(alloc: Global, bytes: Option<&[u8]>) -> Result<Option<Board>, AllocError>
    requires { IfSome (option_map (λ bytes. bytes.now) bytes) IsLegalRecord }
    ensures { IfOk result (IsBoardOf (option_map (λ bytes. bytes.now) bytes.entry)) }
{
    match bytes {
        None => Ok(None),
        Some(bytes) => {
            let kept = Record::of_bytes(alloc, bytes)?;
            Ok(Some(kept.board(alloc)?))
        }
    }
}

/// Decodes the view that the answer reads.
fn view_of(alloc: Global, expected: &Expected<'_>) -> Result<View, AllocError>
    requires { IsFitGame (input_in expected.now) }
    ensures seen { IfOk result (λ view. IsSeen view (input_in expected.now)) }
    ensures fit { IfOk result IsFitView }
{
    Ok(View {
        quota: expected.quota,
        charge: expected.charge,
        kept: expected.kept,
        last: board_of(alloc, expected.last)?,
        asked: board_in(alloc, expected.asked)?,
    })
}

/// Answers from the decoded boards.
fn answer_decoded(alloc: Global, expected: &Expected<'_>) -> Result<Answer, AllocError>
    requires { IsFitGame (input_in expected.now) }
    ensures { IfOk result (λ answer. (view : AnyView) → IsSeen view (input_in expected.now) → answer ≡ answer_of view expected.now.command.now) }
{
    let view = view_of(alloc, expected)?;
    answer(alloc, &view, expected.command.get())
}

/// Answers with the board of a record, which the reply shares.
fn show_kept(word: Word, kept: &Record, charge: u32) -> Result<Answer, AllocError>
    ensures { IfOk result (λ answer. (b : AnyBoard) → IsLegal b → kept.now ≡ record_of b → Answered answer ≡ shown word b charge) }
{
    Ok(show(word, KeptBoard::of_record(kept.share()?), charge))
}

/// Answers with the board of the bytes of a record.
fn show_copied(alloc: Global, word: Word, bytes: &[u8], charge: u32) -> Result<Answer, AllocError>
    requires { IsLegalRecord bytes.now }
    ensures { IfOk result (λ answer. (b : AnyBoard) → IsLegal b → bytes.now ≡ record_of b → Answered answer ≡ shown word b charge) }
{
    let kept = Record::of_bytes(alloc, bytes)?;
    Ok(show(word, KeptBoard::of_record(kept), charge))
}

/// Answers a command that `check_unseen` does not refuse. Decodes no board to show one, and plays a
/// move from record to record.
fn answer_unrefused(
    alloc: Global,
    planes: &mut PlaneCache,
    expected: &Expected<'_>,
) -> Result<Answer, AllocError>
    requires { IsFitGame (input_in expected.now) }
    ensures { IfOk result (λ answer. (view : AnyView) → IsSeen view (input_in expected.now) → answer ≡ answer_of view expected.now.command.now) }
{
    match (expected.command.get(), expected.last, expected.asked) {
        (Command::Show, Some(last), _) => show_kept(Word::Show, last, expected.charge),
        (Command::Turn(_), Some(_), Some(asked)) => {
            show_copied(alloc, Word::Turn, asked, expected.charge)
        }
        (Command::Move(orders), Some(last), _) => {
            planes.answer(alloc, last, orders, expected.quota, expected.charge)
        }
        _ => answer_decoded(alloc, expected),
    }
}

/// Answers a command from what its Begin is expected to read. Decodes a board only if the answer
/// depends on it.
pub(crate) fn answer_expected(
    alloc: Global,
    planes: &mut PlaneCache,
    expected: &Expected<'_>,
) -> Result<Answer, AllocError>
    requires { IsFitGame (input_in expected.now) }
    ensures { IfOk result (λ answer. (view : AnyView) → IsSeen view (input_in expected.now) → answer ≡ answer_of view expected.now.command.now) }
{
    match check_unseen(
        expected.command.get(),
        expected.last.is_some(),
        expected.asked.is_some(),
    ) {
        Some(reason) => Ok(refuse(reason)),
        None => answer_unrefused(alloc, planes, expected),
    }
}
