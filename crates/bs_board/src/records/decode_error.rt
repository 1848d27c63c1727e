//! Why bytes were not read as a board.

use std::alloc::{AllocError, AllocFailed};
use thiserror::Error;

/// Why bytes were not read as a board.
#[derive(Clone, Copy, Debug, PartialEq, Eq, Error)]
pub enum Decode {
    /// The bytes are not the record of a legal board.
    #[error("not the record of a legal board")]
    NotARecord,
    #[error("out of memory")]
    Memory,
}

impl From<AllocError> for Decode {
    ghost use Rattle.std.specs.Prelude.{◌≡◌};
    ghost use Rattle.bs_board.specs.declared.records.decode_error.Decode.TheVariants.{Memory};

    ghost from_gives = { λ _ error. error ≡ Memory };

    fn from(_error: AllocError) -> Decode {
        Decode::Memory
    }
}

impl<T: Drop> From<AllocFailed<T>> for Decode {
    ghost use Rattle.std.specs.Prelude.{◌≡◌};
    ghost use Rattle.bs_board.specs.declared.records.decode_error.Decode.TheVariants.{Memory};

    ghost from_gives = { λ _ error. error ≡ Memory };

    fn from(_error: AllocFailed<T>) -> Decode {
        Decode::Memory
    }
}
