//! Calls that are tried: the requests for memory of each are marked, and it is repeated if it
//! reported that memory ran out.
use crate::fault::Fault;
use crate::page::Page;
use std::alloc::Global;
use std::fmt::Debug;
use std::test::Fail;

/// A call that only reads its subject.
pub trait Question {
    /// The subject of the call.
    type On: Debug + Drop;

    type Answer: Debug + Drop;

    fn call(alloc: Global, on: &Self::On) -> Result<Self::Answer, Fault>;
}

/// A call that changes its subject.
pub trait Act {
    type State;
    /// What the readers of the state return.
    type Seen: Debug + Drop;

    type Answer: Drop;

    fn readers(alloc: Global, state: &Self::State) -> Result<Self::Seen, Fault>;

    fn call(&self, alloc: Global, state: &mut Self::State) -> Result<Self::Answer, Fault>;
}

fn asked<Q: Question>(page: &mut Page, on: &Q::On) -> Result<Q::Answer, Fault> {
    page.line("before", on);
    page.begin();
    let first = Q::call(page.alloc(), on);
    page.end();
    match first {
        Err(Fault::Memory) => {
            page.line("memory", on);
            Q::call(page.alloc(), on)
        }
        other => other,
    }
}

/// Plays the scene of a call.
pub fn ask<Q: Question>(mut page: Page, on: Q::On) -> Result<(), Fail> {
    let answer = asked::<Q>(&mut page, &on)?;
    page.line("answer", &answer);
    page.close()
}

/// Writes what the readers return.
pub fn look<A: Act>(page: &mut Page, what: &str, state: &A::State) -> Result<(), Fault> {
    let seen = A::readers(page.alloc(), state)?;
    page.line(what, &seen);
    Ok(())
}

/// Makes the call, and repeats it if it reported that memory ran out. Writes what the readers
/// return before each.
pub fn tried<A: Act>(page: &mut Page, act: &A, state: &mut A::State) -> Result<A::Answer, Fault> {
    look::<A>(page, "before", state)?;
    page.begin();
    let first = act.call(page.alloc(), state);
    page.end();
    match first {
        Err(Fault::Memory) => {
            look::<A>(page, "memory", state)?;
            act.call(page.alloc(), state)
        }
        other => other,
    }
}
