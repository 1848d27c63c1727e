//! Short texts that name snakes and games.
ghost use Rattle.std.specs.Prelude.{◌≡◌, IfSome};

use crate::limits::LONGEST_ID;
use arrayvec::ArrayString;
use std::alloc::{AllocError, Global};
use std::marker::Model;

/// The most bytes stored in the value itself. A UUID has 36, an id of the game's own server 27;
/// with room for 64 in each value, a file took more memory and more time.
const LONGEST_INSIDE: usize = 40;

/// The storage of a text.
#[derive(Debug, Drop)]
pub(crate) enum Text {
    /// In the value itself: a copy allocates nothing.
    Inside(ArrayString<LONGEST_INSIDE>),
    /// In an allocation: a longer text.
    Apart(String),
}

/// A text that names a snake or a game: of 1 to 64 bytes in a setup, on a board and in a plan, of
/// any length in a move. Clauses see its bytes.
#[derive(Debug, Drop)]
pub struct Id {
    text: Text,
}

impl Model for Id {
    ghost use Rattle.std.specs.Prelude.{ℕ, List};
    ghost use Rattle.bs_board.specs.inner.Ids.{bytes_of};

    ghost Value = { List ℕ };

    ghost view = { λ i. bytes_of i.text };
}

/// Stores the text in the value, if it is short enough.
#[inline(always)]
fn inside(text: &str) -> Option<ArrayString<LONGEST_INSIDE>>
    ensures { IfSome result (λ short. short.bytes ≡ text.now) }
{
    ArrayString::from(text).ok()
}

impl Id {
    ghost use Rattle.std.specs.Prelude.{◌≡◌, true, IfOk, length, string_bytes};
    ghost use Rattle.std.specs.Str.{is_utf8};
    ghost use Rattle.bs_board.specs.Texts.{is_same_text, is_short_text, is_text_below};

    /// Makes the id of this text.
    pub fn from_string(text: String) -> Id
        ensures { result ≡ string_bytes text }
    {
        let text = match inside(text.as_str()) {
            Some(short) => Text::Inside(short),
            None => Text::Apart(text),
        };
        Id { text }
    }

    /// Makes an id from a copy of this text. Allocates only if the text has more than 40 bytes.
    #[inline(always)]
    pub fn from_str(alloc: Global, text: &str) -> Result<Id, AllocError>
        ensures { IfOk result (λ id. id ≡ text.now) }
    {
        let text = match inside(text) {
            Some(short) => Text::Inside(short),
            None => Text::Apart(String::from_str(alloc, text)?),
        };
        Ok(Id { text })
    }

    /// The text.
    #[inline(always)]
    pub fn as_str(&self) -> &str
        ensures { result.now ≡ self.now }
    {
        match &self.text {
            Text::Inside(short) => short.as_str(),
            Text::Apart(long) => long.as_str(),
        }
    }

    #[tactic(auto, using(crate::proofs::Utf8::is_text))]
    /// The bytes, which are UTF-8.
    #[inline(always)]
    pub fn as_bytes(&self) -> &[u8]
        ensures value { result.now ≡ self.now }
        ensures text { is_utf8 self.now ≡ true }
    {
        self.as_str().as_bytes()
    }

    /// The number of bytes.
    #[inline(always)]
    pub fn len(&self) -> usize
        ensures { result ≡ length self.now }
    {
        self.as_bytes().len()
    }

    /// Whether it has 1 to 64 bytes.
    pub fn is_short(&self) -> bool
        ensures { result ≡ is_short_text self.now }
    {
        let bytes = self.as_bytes();
        1 <= bytes.len() && bytes.len() <= LONGEST_ID
    }

    /// Whether both have the same bytes.
    #[inline(always)]
    pub fn is_same(&self, other: &Id) -> bool
        ensures { result ≡ is_same_text self.now other.now }
    {
        self.as_str() == other.as_str()
    }

    /// Whether this id is below the other one, by bytes.
    #[inline(always)]
    pub fn is_below(&self, other: &Id) -> bool
        ensures { result ≡ is_text_below self.now other.now }
    {
        self.as_str() < other.as_str()
    }

    /// Copies the id. Allocates only if the text has more than 40 bytes.
    #[inline(always)]
    pub fn copy(&self, alloc: Global) -> Result<Id, AllocError>
        ensures { IfOk result (λ id. id ≡ self.now) }
    {
        Id::from_str(alloc, self.as_str())
    }
}
