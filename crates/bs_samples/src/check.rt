//! The checks of a test. A test writes `same("what", left, right)?;` and ends at the first check
//! that fails.
ghost use Rattle.std.specs.Prelude.{IfOk, IsTrue};

use std::fmt::Debug;
use std::test::Fail;

/// Fails if the two differ. The failed run prints `what` and both.
pub fn same<T: PartialEq + Debug + Copy>(what: &str, left: T, right: T) -> Result<(), Fail> {
    if left == right {
        return Ok(());
    }
    Err(Fail::new(format_args!("{what}: {left:?} in place of {right:?}")))
}

/// Fails if `is_so` is false. The failed run prints `what`. After the call the prover knows that
/// `is_so` is true.
pub fn holds(what: &str, is_so: bool) -> Result<(), Fail>
    ensures { IfOk result (λ _. IsTrue is_so) }
{
    if is_so {
        return Ok(());
    }
    Err(Fail::new(format_args!("{what}: it does not hold")))
}
