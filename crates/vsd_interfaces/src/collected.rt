//! Different numbers, in the order in which they are first added.
ghost use Rattle.std.specs.Prelude.{◌≡◌, ◌<◌, ◌≤◌, ◌∷◌, ◌++◌, [], false, length, nat_eq, slice_get, MatchOption, OnOk, Some};
ghost use Rattle.std.specs.List.{list_any, SameBelow};
ghost use Rattle.indexmap.specs.IndexSet.{insert_all, insert_key};

use std::alloc::{AllocError, Global};
use std::marker::Model;

// Makes room for a place at this number. The places that are there stay.
fn make_room(places: &mut Vec<usize>, at: usize) -> Result<(), AllocError>
    requires { at < 65536 }
    ensures room { OnOk result (at < length places.new.items) }
    ensures longer { length places.old.items ≤ length places.new.items }
    ensures kept { SameBelow places.old.items places.new.items (length places.old.items) }
{
    if at < places.len() {
        return Ok(());
    }
    places.resize(at + 1, 0)
}

/// Different numbers, in the order in which they were first added. Contracts see the list of them.
#[derive(Drop)]
pub struct Collected {
    numbers: Vec<u16>,
    // By number, where it stands in the list. At a number that isn't there it says nothing, so each answer is tested, and
    // nothing is cleared when the list is.
    places: Vec<usize>,
}

impl Model for Collected {
    ghost use Rattle.std.specs.Prelude.{ℕ, List};
    ghost use Rattle.vsd_interfaces.specs.Places.{ArePlaces};

    ghost Value = { List ℕ };

    ghost view = { λ c. c.numbers.items };

    ghost invariant = { λ c. ArePlaces c.numbers.items c.places.items };
}

impl Collected {
    /// No numbers. Takes no memory.
    pub fn new(alloc: Global) -> Collected
        ensures { result ≡ [] }
    {
        Collected {
            numbers: Vec::new(alloc),
            places: Vec::new(alloc),
        }
    }

    /// Takes all numbers out, and keeps the memory.
    pub fn clear(&mut self)
        ensures { self.new ≡ [] }
    {
        self.numbers.clear();
    }

    /// The numbers in their order, each once.
    pub(crate) fn as_slice(&self) -> &[u16]
        ensures list { result.now ≡ self.now }
        ensures once { insert_all nat_eq [] self.now ≡ self.now }
    {
        self.numbers.as_slice()
    }

    /// Where a number stands, from 0.
    pub fn place(&self, number: u16) -> Option<usize>
        ensures { MatchOption result (list_any (nat_eq number) self.now ≡ false) (λ place. slice_get self.now place ≡ Some number) }
    {
        let place = *self.places.get(usize::from(number))?;
        let there = *self.numbers.get(place)?;
        if there != number {
            return None;
        }
        Some(place)
    }

    /// Whether a number is there.
    pub(crate) fn has(&self, number: u16) -> bool
        ensures { result ≡ list_any (nat_eq number) self.now }
    {
        match self.place(number) {
            Some(_) => true,
            None => false,
        }
    }

    // Adds a number that is new.
    fn append(&mut self, number: u16) -> Result<(), AllocError>
        requires { list_any (nat_eq number) self.old ≡ false }
        ensures { OnOk result (self.new ≡ self.old ++ number ∷ []) }
    {
        let at = usize::from(number);
        make_room(&mut self.places, at)?;
        self.places[at] = self.numbers.len();
        self.numbers.push(number)?;
        Ok(())
    }

    /// Adds a number where it is new.
    pub(crate) fn add(&mut self, number: u16) -> Result<(), AllocError>
        ensures { OnOk result (self.new ≡ insert_key nat_eq self.old number) }
    {
        if self.has(number) {
            return Ok(());
        }
        self.append(number)
    }

    /// Adds numbers, each where it is new. The error is want of memory, and leaves those that were added before it.
    pub fn add_all(&mut self, more: &[u16]) -> Result<(), AllocError>
        ensures { OnOk result (self.new ≡ insert_all nat_eq self.old more.now) }
    {
        for number in more {
            self.add(*number)?;
        }
        Ok(())
    }
}
