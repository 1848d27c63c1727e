//! The name of the game in a line.
use bs_board::Id;
use std::alloc::{AllocError, Global};
use std::marker::Model;

/// Where the bytes of a name are.
#[derive(Debug, Drop)]
pub(crate) enum NameText<'l> {
    /// In the line.
    Lent(&'l [u8]),
    /// In an allocation, so that a name is moved as a few words.
    Own(Box<Id>),
}

/// The name of the game in a line, of any length. Clauses see its bytes.
#[derive(Debug, Drop)]
pub struct Name<'l> {
    text: NameText<'l>,
}

impl<'l> Model for Name<'l> {
    ghost use Rattle.std.specs.Prelude.{ℕ, List};
    ghost use Rattle.bs_json.specs.inner.Names.{name_bytes};

    ghost Value = { List ℕ };

    ghost view = { λ n. name_bytes n.text };
}

impl<'l> Name<'l> {
    ghost use Rattle.std.specs.Prelude.{◌≡◌, IfOk};

    /// The name with these bytes, which are not copied.
    #[inline(always)]
    pub(crate) fn lent(bytes: &'l [u8]) -> Name<'l>
        ensures { result ≡ bytes.now }
    {
        Name {
            text: NameText::Lent(bytes),
        }
    }

    /// The name that this id is.
    pub(crate) fn own(alloc: Global, id: Id) -> Result<Name<'l>, AllocError>
        ensures { IfOk result (λ name. name ≡ id) }
    {
        Ok(Name {
            text: NameText::Own(Box::new(alloc, id)?),
        })
    }

    /// The bytes.
    #[inline(always)]
    pub fn as_bytes(&self) -> &[u8]
        ensures { result.now ≡ self.now }
    {
        match &self.text {
            NameText::Lent(bytes) => bytes,
            NameText::Own(id) => id.as_bytes(),
        }
    }
}
