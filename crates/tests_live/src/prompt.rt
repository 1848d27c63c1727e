//! When answers are written.
use crate::devices::{Client, Counting, Seen};
use crate::files::{BLOCKS, CLOSING, STAYS, answers_to};
use bs_host::serve_live;
use bs_samples::{holds, same};
use std::cell::Cell;
use std::test::Fail;

// A client that waits for each answer before it sends the next line receives it.
#[test]
fn each_answer_is_flushed_before_the_next_read(rt: HostRuntime) -> Result<(), Fail> {
    let alloc = rt.alloc();
    let seen = Seen {
        written: Cell::new(0),
        flushed: Cell::new(0),
        late: Cell::new(false),
    };
    let mut input = Client {
        lines: &STAYS,
        next: 0,
        due: 0,
        seen: &seen,
    };
    let mut output = Counting { seen: &seen };
    holds(
        "served",
        serve_live(alloc, &mut input, BLOCKS, &mut output).is_ok(),
    )?;
    holds("prompt", !seen.late.get())?;
    let answers = answers_to(alloc, usize::MAX)?;
    same(
        "the bytes",
        seen.flushed.get(),
        answers.len() + CLOSING.len(),
    )?;
    Ok(())
}
