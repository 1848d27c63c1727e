//! The open stays.
ghost use Rattle.std.specs.Prelude.{◌≡◌, true, not, nat_eq};
ghost use Rattle.std.specs.List.{filter, list_any, position};
ghost use Rattle.bs_board.specs.Texts.{is_same_text};
ghost use Rattle.bs_registry.specs.OpenStays.{are_named_once};
ghost use Rattle.bs_registry.specs.Registry.{Listing, listing_of, rows_open};

use crate::blocks::{MOST_STAYS, blocks_of};
use crate::refusal::Refusal;
use bs_board::limits::MOST_ROWS;
use bs_board::{Id, Row, Rows};
use bs_heap::MOST_RECORD_BYTES;
use std::alloc::{AllocError, Global};
use std::marker::Model;

/// An open stay: the number of its row, its row, and what is kept for it.
#[derive(Drop)]
pub struct Listed<T> {
    pub number: usize,
    pub row: Row,
    pub kept: T,
}

/// The open stays in the order of their numbers, and the number of rows made. At most as many are
/// open as a plan may have games, so the work of a search does not grow with the rows.
#[derive(Drop)]
pub struct Registry<T> {
    made: usize,
    stays: Vec<Listed<T>>,
    /// The index after that of the name found last. The next name is often there, since the lines
    /// of a file go round its games.
    likely: usize,
}

impl<T> Model for Registry<T> {
    ghost Value = { Listing T };

    ghost view = { λ g. listing_of g.made g.stays.items };

    ghost invariant = { λ g. are_named_once (rows_open g.stays.items) ≡ true };
}

fn remove_stay<T: Drop>(stays: &mut Vec<Listed<T>>, number: usize)
    ensures { stays.new.items ≡ filter (λ stay. not (nat_eq stay.number number)) stays.old.items }
{
    stays.retain(|stay| stay.number != number);
}

fn is_named(name: &[u8], row: &Row) -> bool
    ensures { result ≡ is_same_text name.now row.now.game }
{
    name == row.game.as_bytes()
}

fn place_in<T>(stays: &[Listed<T>], name: &[u8]) -> Option<usize>
    ensures { result ≡ position (λ stay. is_same_text name.now stay.row.game) stays.now }
{
    stays.iter().position(|stay| is_named(name, &stay.row))
}

fn is_listed<T>(stays: &[Listed<T>], name: &Id) -> bool
    ensures { result ≡ list_any (λ stay. is_same_text name.now stay.row.game) stays.now }
{
    stays.iter().any(|stay| name.is_same(&stay.row.game))
}

impl<T: Drop> Registry<T> {
    ghost use Rattle.std.specs.Prelude.{◌≡◌, ◌*◌, ◌-◌, ◌≤◌, ◌<◌, ◌&&◌, false, not, nat_lt, length, slice_get, [], None, Some, OnErr, OnOk};
    ghost use Rattle.std.specs.List.{enumerate_from, list_any, position};
    ghost use Rattle.bs_registry.specs.OpenStays.{bears, blocks_in, found_in, is_full_open};
    ghost use Rattle.bs_registry.specs.inner.OpenStays.{is_named_at};
    ghost use Rattle.std.specs.Borrow.{sem};
    ghost use Rattle.bs_registry.specs.Lends.{lends_kept};
    ghost use Rattle.bs_registry.specs.Registry.{before_push, is_numbered, kept_in, rows_in, with_stay, without_stay};
    ghost use Rattle.bs_registry.specs.Stays.{refusal_in_order};

    /// An empty registry.
    pub fn new(alloc: Global) -> Registry<T>
        ensures { result ≡ listing_of 0 [] }
    {
        Registry {
            made: 0,
            stays: Vec::new(alloc),
            likely: 0,
        }
    }

    /// The registry of a plan, whose rows are all open.
    #[tactic(auto, using(crate::proofs::NamedOnce::plan_named_once))]
    pub fn from_plan(rows: &Rows, stays: Vec<Listed<T>>) -> Registry<T>
        requires { rows_open stays.items ≡ enumerate_from 0 rows.now }
        ensures { result ≡ listing_of (length rows.now) stays.items }
    {
        Registry {
            made: rows.as_slice().len(),
            stays,
            likely: 0,
        }
    }

    /// The registry of these open stays among `made` rows.
    pub fn from_open(made: usize, stays: Vec<Listed<T>>) -> Registry<T>
        requires { are_named_once (rows_open stays.items) ≡ true }
        ensures { result ≡ listing_of made stays.items }
    {
        Registry {
            made,
            stays,
            likely: 0,
        }
    }

    /// The number of rows made.
    pub fn made(&self) -> usize
        ensures { result ≡ self.now.made }
    {
        self.made
    }

    /// The open stays in the order of their numbers.
    pub fn as_slice(&self) -> &[Listed<T>]
        ensures { result.now ≡ self.now.stays }
    {
        self.stays.as_slice()
    }

    /// Whether an open stay of that name is at that index.
    fn is_at(&self, place: usize, name: &[u8]) -> bool
        ensures { result ≡ is_named_at name.now place (rows_in self.now) }
    {
        place < self.stays.len() && is_named(name, &self.stays[place].row)
    }

    /// The index of that name among the open stays. Looks at the likely index first, then at 0,
    /// since after the last game comes the first, and only then searches.
    #[tactic(auto, using(crate::proofs::NamedOnce::only_place))]
    fn place(&self, name: &[u8]) -> Option<usize>
        ensures { result ≡ position (bears name.now) (rows_in self.now) }
    {
        if self.is_at(self.likely, name) {
            return Some(self.likely);
        }
        if self.is_at(0, name) {
            return Some(0);
        }
        place_in(&self.stays, name)
    }

    /// The number of the open stay of the name with these bytes. Notes the index after it as the
    /// likely one.
    #[tactic(auto, using(crate::proofs::Rows::found_listed, crate::proofs::Found::found_nowhere))]
    pub fn find(&mut self, name: &[u8]) -> Option<usize>
        ensures found { result ≡ found_in name.now (rows_in self.old) }
        ensures after { self.new ≡ self.old }
    {
        match self.place(name) {
            Some(place) => {
                self.likely = place + 1;
                Some(self.stays[place].number)
            }
            None => None,
        }
    }

    fn has_name(&self, name: &Id) -> bool
        ensures { result ≡ list_any (bears name.now) (rows_in self.now) }
    {
        is_listed(&self.stays, name)
    }

    /// Whether no more stays can be opened.
    fn is_full(&self) -> bool
        ensures { result ≡ is_full_open self.now.made (rows_in self.now) }
    {
        !(self.stays.len() < MOST_ROWS && self.made < MOST_STAYS)
    }

    /// The number of `blocks` of `cap` bytes minus those reserved for the open stays.
    #[tactic(auto, using(crate::proofs::Rows::one_less_left))]
    pub fn left_of(&self, cap: usize, blocks: usize) -> usize
        requires { 2 * MOST_RECORD_BYTES ≤ cap }
        ensures { result ≡ blocks - blocks_in cap (rows_in self.now) }
    {
        let mut left = blocks;
        for index in 0..self.stays.len() {
            left = left.saturating_sub(blocks_of(cap, &self.stays[index].row));
        }
        left
    }

    /// The first reason against admitting a row that needs `needed` blocks where `left` are free to
    /// reserve, if there is one.
    #[tactic(auto, using(crate::proofs::Rows::unrefused))]
    pub fn refusal(&self, row: &Row, needed: usize, left: usize) -> Option<Refusal>
        ensures reason { result ≡ refusal_in_order (list_any (bears row.now.game) (rows_in self.now)) (is_full_open self.now.made (rows_in self.now)) needed left }
        ensures admits { result ≡ None → (list_any (bears row.now.game) (rows_in self.now) ≡ false) × (self.now.made < MOST_STAYS) }
    {
        if self.has_name(&row.game) {
            Some(Refusal::NameOpen)
        } else if self.is_full() {
            Some(Refusal::Full)
        } else if needed <= left {
            None
        } else {
            Some(Refusal::Short {
                free_to_reserve: left,
            })
        }
    }

    /// Opens a stay in the next row.
    pub fn push(&mut self, row: Row, kept: T) -> Result<(), AllocError>
        requires new { list_any (bears row.game) (rows_in self.old) ≡ false }
        requires room { self.old.made < MOST_STAYS }
        ensures ok { OnOk result (self.new ≡ with_stay row kept self.old) }
        ensures err { OnErr result (self.new ≡ self.old) }
    {
        self.stays.push(Listed {
            number: self.made,
            row,
            kept,
        })?;
        self.made += 1;
        Ok(())
    }

    /// Undoes the last `push`, of a stay that has not left since.
    pub fn undo_push(&mut self)
        requires made { 0 < self.old.made }
        requires open { 0 < length self.old.stays }
        ensures { self.new ≡ before_push self.old }
    {
        self.made -= 1;
        self.stays.truncate(self.stays.len() - 1);
    }

    /// The place of the open stay of that number.
    pub fn place_of(&self, number: usize) -> Option<usize>
        ensures { result ≡ position (is_numbered number) self.now.stays }
    {
        self.stays.iter().position(|stay| stay.number == number)
    }

    /// What is kept for the stay at that place, to write.
    pub fn kept_mut(&mut self, place: usize) -> &mut T
        requires { place < length self.old.stays }
        ensures value { slice_get (kept_in self.old) place ≡ Some result.now }
        ensures* writes_back { sem 𝓛 (lends_kept T.row self.entry place result) }
    {
        let stay = &mut self.stays[place];
        &mut stay.kept
    }

    /// Closes the stay of that number.
    pub fn remove(&mut self, number: usize)
        ensures { self.new ≡ without_stay number self.old }
    {
        remove_stay(&mut self.stays, number);
    }
}
