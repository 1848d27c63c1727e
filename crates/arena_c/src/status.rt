//! The statuses of arena.h.

ghost use Rattle.std.specs.Prelude.{◌≡◌, if◌then◌else◌, MatchResult};
ghost use Rattle.arena_c.specs.Status.{status_of, status_of_misfit};
ghost use Rattle.bs_calls.specs.Records.{IsRecordOf, IsUnread};

use bs_batch::Misfit;
use bs_board::{Board, Decode, decode};
use bs_calls::Fault;
use std::alloc::Global;

/// The status of a call that has its answer.
pub const OK: u8 = 0;

/// The status of a fault.
pub fn status_of(fault: Fault) -> u8
    ensures { result ≡ status_of fault }
{
    match fault {
        Fault::NotARecord => 1,
        Fault::NotASetup => 2,
        Fault::LastTurn => 3,
        Fault::Room => 4,
        Fault::Memory => 5,
    }
}

/// The status of a board that is not loaded.
pub fn status_of_misfit(misfit: Misfit) -> u8
    ensures { result ≡ status_of_misfit misfit }
{
    match misfit {
        Misfit::Room => 4,
        Misfit::Hazards => 6,
    }
}

/// The status of a call without an answer of its own.
pub fn checked(done: Result<(), Fault>) -> u8
    ensures { MatchResult done (λ _. result ≡ 0) (λ fault. result ≡ status_of fault) }
{
    match done {
        Ok(()) => OK,
        Err(fault) => status_of(fault),
    }
}

/// Writes whether a game is over, after a fault nothing, and returns the status.
pub fn told(answer: Result<bool, Fault>, over: &mut u8) -> u8
    ensures { MatchResult answer
        (λ is. (result ≡ 0) × (over.new ≡ if is then 1 else 0))
        (λ fault. (result ≡ status_of fault) × (over.new ≡ over.old)) }
{
    match answer {
        Ok(is) => {
            *over = u8::from(is);
            OK
        }
        Err(fault) => status_of(fault),
    }
}

/// Writes the length of a record, after a fault nothing, and returns the status.
pub fn answered(written: Result<usize, Fault>, count: &mut usize) -> u8
    ensures { MatchResult written
        (λ n. (result ≡ 0) × (count.new ≡ n))
        (λ fault. (result ≡ status_of fault) × (count.new ≡ count.old)) }
{
    match written {
        Ok(length) => {
            *count = length;
            OK
        }
        Err(fault) => status_of(fault),
    }
}

/// The status of a load.
pub fn loaded(done: Result<(), Misfit>) -> u8
    ensures { MatchResult done (λ _. result ≡ 0) (λ misfit. result ≡ status_of_misfit misfit) }
{
    match done {
        Ok(()) => OK,
        Err(misfit) => status_of_misfit(misfit),
    }
}

/// Reads the board of a record.
pub fn read(alloc: Global, bytes: &[u8]) -> Result<Board, Fault>
    ensures { MatchResult result (IsRecordOf bytes.now) (IsUnread bytes.now) }
{
    match decode(alloc, bytes) {
        Ok(board) => Ok(board),
        Err(Decode::NotARecord) => Err(Fault::NotARecord),
        Err(Decode::Memory) => Err(Fault::Memory),
    }
}
