//! A stay that was played, in a box.
ghost use Rattle.std.specs.Prelude.{◌≡◌, IfOk};

use bs_sched::LoneStay;
use std::alloc::{AllocError, Global};
use std::marker::Model;

/// A stay that was played. Boxed: it is moved from list to list, and has about 500 bytes.
#[derive(Drop)]
pub(crate) struct BoxedStay<const CAP: usize> {
    stay: Box<LoneStay<CAP>>,
}

impl<const CAP: usize> Model for BoxedStay<CAP> {
    ghost use Rattle.bs_sched.specs.LoneStay.{LoneView};

    ghost Value = { LoneView };

    ghost view = { λ b. b.stay.value };
}

impl<const CAP: usize> BoxedStay<CAP> {
    pub(crate) fn new(alloc: Global, stay: LoneStay<CAP>) -> Result<Self, AllocError>
        ensures { IfOk result (λ boxed. boxed ≡ stay.entry) }
    {
        let stay = Box::new(alloc, stay)?;
        Ok(BoxedStay { stay })
    }

    pub(crate) fn into_inner(self) -> LoneStay<CAP>
        ensures { result ≡ self.entry }
    {
        Box::into_inner(self.stay)
    }
}
