//! Upper bounds of the lengths of lines, computed without a pass over a board.
ghost use Rattle.std.specs.Prelude.{◌≡◌, ◌+◌, ◌*◌, ◌<◌, ◌≤◌, ◌^◌, IfSome, decimal, length};
ghost use Rattle.std.specs.Option.{option_copied};
ghost use Rattle.serde_json.specs.Written.{compact_text};
ghost use Rattle.bs_json.specs.Boards.{board_data};
ghost use Rattle.bs_json.specs.Replies.{final_line_of, last_data, reply_line_of, stray_line_of};

use crate::line::Stray;
use bs_board::{Id, KeptBoard, Reply};

/// An upper bound of the bytes of text per byte of a record's cells and ids. The worst case is a
/// cell: two bytes become at most `{"x":123,"y":123},`.
const TEXT_OF_BYTE: usize = 10;

/// An upper bound of the bytes of a board's text apart from the cells and the ids of its record:
/// names of members, numbers, and the ids of killers.
const BOARD_REST: usize = 16_384;

/// An upper bound of the bytes of a line apart from its board, its charge and the name of its game.
const LINE_REST: usize = 246;

/// An upper bound of the bytes of a stray line.
const LONGEST_STRAY: usize = 256;

/// The bytes of `null`.
const NULL: usize = 4;

/// The most bytes that one byte of a text takes in a JSON string, as in `\u001f`.
const LONGEST_ESCAPE: usize = 6;

/// An upper bound of the number of bytes of a board's text.
fn board_bound(board: &KeptBoard) -> usize
    ensures bound { length (compact_text (board_data board.now)) ≤ result }
    ensures small { result < 2 ^ 21 }
{
    TEXT_OF_BYTE * board.record().len() + BOARD_REST
}

/// An upper bound of the number of digits of a charge.
#[tactic(auto, using(crate::proofs::LineBounds::charge_bound))]
fn charge_bound(_charge: u32) -> usize
    ensures bound { length (decimal _charge) ≤ 10 }
    ensures value { result ≡ 10 }
{
    10
}

/// The bound of a line, given the bound `parts` of its board and charge together. `None` if it is
/// above `usize::MAX`.
fn line_bound(game: &Id, parts: usize) -> Option<usize>
    ensures { IfSome result (λ bound. bound ≡ 6 * length game.now + parts + 246) }
{
    let name = game.len().checked_mul(LONGEST_ESCAPE)?;
    name.checked_add(parts)?.checked_add(LINE_REST)
}

/// An upper bound of the number of bytes of a reply's line, whatever its `seq` is. `None` if it is
/// above `usize::MAX`.
pub fn reply_line_bound(game: &Id, _seq: u64, reply: &Reply) -> Option<usize>
    ensures { IfSome result (λ bound. length (reply_line_of game.now _seq reply.now) ≤ bound) }
{
    match reply {
        Reply::Shown(_, board, charge) => {
            line_bound(game, board_bound(board) + charge_bound(*charge))
        }
        Reply::Plain(_, charge) => line_bound(game, charge_bound(*charge)),
        Reply::Refused(_) => line_bound(game, 0),
    }
}

/// An upper bound of the number of bytes of a last board's text, or of `null`.
fn last_bound(board: Option<&KeptBoard>) -> usize
    ensures bound { length (compact_text (last_data (option_copied board.entry))) ≤ result }
    ensures small { result < 2 ^ 21 }
{
    match board {
        Some(board) => board_bound(board),
        None => NULL,
    }
}

/// An upper bound of the number of bytes of a final line. `None` if it is above `usize::MAX`.
pub fn final_line_bound(game: &Id, board: Option<&KeptBoard>, charge: u32) -> Option<usize>
    ensures { IfSome result (λ bound. length (final_line_of game.now (option_copied board.entry) charge) ≤ bound) }
{
    line_bound(game, last_bound(board) + charge_bound(charge))
}

/// An upper bound of the number of bytes of a stray's line, the same for all stray lines.
#[tactic(auto, using(crate::proofs::LineBounds::stray_bound))]
pub fn stray_line_bound(_line: u64, _stray: Stray) -> usize
    ensures { length (stray_line_of _line _stray) ≤ result }
{
    LONGEST_STRAY
}
