//! Where the commands of each stay are in a list of acts.
ghost use Rattle.std.specs.Prelude.{◌≡◌, ◌++◌, ◌∷◌, [], All, OnOk, IfOk, length};
ghost use Rattle.bs_workers.specs.inner.Apart.{HavePlaces, placed, placed_act};

use crate::act::Act;
use std::alloc::{AllocError, Global};
use std::marker::Model;

/// The places of the acts that queue a command for one stay, in order.
#[derive(Drop)]
pub(crate) struct Places {
    list: Vec<usize>,
}

impl Model for Places {
    ghost use Rattle.std.specs.Prelude.{ℕ, List};

    ghost Value = { List ℕ };

    ghost view = { λ p. p.list.items };
}

impl Places {
    pub(crate) fn as_slice(&self) -> &[usize]
        ensures { result.now ≡ self.now }
    {
        self.list.as_slice()
    }

    fn push(&mut self, place: usize) -> Result<(), AllocError>
        ensures { OnOk result (self.new ≡ self.old ++ place ∷ []) }
    {
        Ok(self.list.push(place)?)
    }
}

/// Adds a place to those of that stay, if there is the stay.
fn put_place(stays: &mut Vec<Places>, stay: usize, place: usize) -> Result<(), AllocError>
    ensures { OnOk result (stays.new.items ≡ placed stay place stays.old.items) }
{
    if stay < stays.len() {
        stays[stay].push(place)?;
    }
    Ok(())
}

/// Adds the place of the act to those of its stay, if the act is a command.
fn put_act(stays: &mut Vec<Places>, act: &Act, place: usize) -> Result<(), AllocError>
    ensures { OnOk result (stays.new.items ≡ placed_act act.now place stays.old.items) }
{
    match act {
        Act::Hand(stay, _) => put_place(stays, *stay, place),
        Act::Admit(_) => Ok(()),
        Act::Leave(_) => Ok(()),
    }
}

/// As many lists without a place, each with room for the places of one stay if all have as many.
fn no_places(alloc: Global, stays: usize, acts: usize) -> Result<Vec<Places>, AllocError>
    ensures none { IfOk result (λ places. All (λ list. list ≡ []) places.items) }
    ensures many { IfOk result (λ places. length places.items ≡ stays) }
{
    let mut places = Vec::with_capacity(alloc, stays)?;
    for _ in 0..stays {
        let list = Vec::with_capacity(alloc, acts / stays)?;
        places.push(Places { list })?;
    }
    Ok(places)
}

/// The places of the commands of each of `stays` stays.
pub(crate) fn places_of(
    alloc: Global,
    acts: &[Act],
    stays: usize,
) -> Result<Vec<Places>, AllocError>
    ensures places { IfOk result (λ places. HavePlaces acts.now places.items) }
    ensures many { IfOk result (λ places. length places.items ≡ stays) }
{
    let mut places = no_places(alloc, stays, acts.len())?;
    for place in 0..acts.len() {
        put_act(&mut places, &acts[place], place)?;
    }
    Ok(places)
}
