//! The words of a move.

ghost use Rattle.std.specs.Prelude.{◌≡◌};

use std::alloc::{AllocError, Global};
use std::marker::Model;

/// The words that decide where food appears in a turn. The first is used first.
#[derive(Debug, Drop)]
pub struct Words {
    words: Vec<u32>,
}

impl Model for Words {
    ghost use Rattle.std.specs.Prelude.{ℕ, ◌<◌, ◌^◌, List, All};

    ghost Value = { List ℕ };

    ghost view = { λ w. w.words.items };

    ghost invariant = { λ w. All (λ word. word < 2 ^ 32) w.words.items };
}

impl Words {
    ghost use Rattle.std.specs.Prelude.{◌<◌, ◌^◌, All, IfOk};

    /// Makes the list of these entries, in order.
    pub fn from_vec(words: Vec<u32>) -> Words
        ensures { result ≡ words.items }
    {
        Words { words }
    }

    /// The entries, in order.
    pub fn as_slice(&self) -> &[u32]
        ensures value { result.now ≡ self.now }
        ensures fits { All (λ word. word < 2 ^ 32) self.now }
    {
        self.words.as_slice()
    }

    /// Copies the list.
    pub fn copy(&self, alloc: Global) -> Result<Words, AllocError>
        ensures { IfOk result (λ words. words ≡ self.now) }
    {
        Ok(Words {
            words: Vec::from_slice(alloc, self.as_slice())?,
        })
    }
}
