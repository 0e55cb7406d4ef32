//! What is known of the arguments of an interface that leads to owners.
ghost use Rattle.std.specs.Prelude.{◌≡◌, ℕ, ◌<◌, ◌↔◌, ◌⊎◌, false, None, Some, List, [], length, slice_get, IsTrue, IfOk, OnOk};
ghost use Rattle.std.specs.HashMap.{get_by};
ghost use Rattle.vsd_terms.specs.declared.term.Term.{Term};
ghost use Rattle.vsd_ways.specs.Known.{same_known, ways_in, IsMarked, Meets, MeetsFor, MeetsSome};

use crate::marks::{Marks, join};
use indexmap::IndexMap;
use std::alloc::{AllocError, Global};
use std::marker::Model;
use vsd_terms::{Term, copy};

/// For each parameter of an interface the argument that it has to have, or none where any will do.
pub type Known = Vec<Option<Term>>;

/// The ways of an interface: each is what is known of arguments at which it leads to owners, and a mark for each of those
/// owners. No two know the same. Contracts see the list of the ways.
#[derive(Debug, Drop)]
pub struct Ways {
    ways: IndexMap<Known, Marks>,
}

impl Model for Ways {
    ghost use Rattle.std.specs.Coded.{codes};
    ghost use Rattle.std.specs.Prelude.{Bool, List, Option};
    ghost use Rattle.vsd_terms.specs.contracts.term.Term as contract;
    ghost use Rattle.vsd_terms.specs.declared.term.Term.{Term};
    ghost use Rattle.vsd_ways.specs.Known.{ways_in};

    ghost Value = { List (List (Option Term) × List Bool) };

    ghost coded = { Prim.hlevel (codes, contract.the_row.coded) };

    ghost view = { λ w. ways_in w.ways.entries };
}

// Joins the marks to those of the way that knows the same. False where none does.
fn join_known(ways: &mut IndexMap<Known, Marks>, known: &[Option<Term>], marks: &Marks) -> bool
    ensures there { IsTrue result → (o : ℕ) (args : List Term) → MeetsFor (ways_in ways.new.entries) o args
        ↔ (MeetsFor (ways_in ways.old.entries) o args ⊎ (IsMarked marks.now o × Meets known.now args)) }
    ensures same { result ≡ false → ways.new ≡ ways.old }
    ensures absent { result ≡ false → get_by (λ k. same_known known.now k.items) ways.old ≡ None }
{
    match ways.get_mut(known) {
        Some(there) => {
            join(there, marks);
            true
        }
        None => false,
    }
}

// What is known, in memory of its own.
fn copied(alloc: Global, known: &[Option<Term>]) -> Result<Known, AllocError>
    ensures { IfOk result (λ made. made.items ≡ known.now) }
{
    let mut made = Vec::new(alloc);
    for wanted in known {
        made.push(copied_one(alloc, wanted)?)?;
    }
    Ok(made)
}

fn copied_one(alloc: Global, wanted: &Option<Term>) -> Result<Option<Term>, AllocError>
    ensures { IfOk result (λ made. made ≡ wanted.now) }
{
    match wanted {
        Some(t) => Ok(Some(copy(alloc, t)?)),
        None => Ok(None),
    }
}

impl Ways {
    /// No ways. Takes no memory.
    pub(crate) fn new(alloc: Global) -> Ways
        ensures { result ≡ [] }
    {
        Ways {
            ways: IndexMap::new(alloc),
        }
    }

    pub(crate) fn len(&self) -> usize
        ensures { result ≡ length self.now }
    {
        self.ways.len()
    }

    /// One way: what is known, and its marks.
    pub(crate) fn at(&self, place: usize) -> (&Known, &Marks)
        requires { place < length self.now }
        ensures { slice_get self.now place ≡ Some (result.0.now.items, result.1.now) }
    {
        self.ways.get_index(place).unwrap()
    }

    /// Adds a way for the owners that are marked.
    pub(crate) fn add(&mut self, known: Known, marks: &Marks) -> Result<(), AllocError>
        ensures { OnOk result ((o : ℕ) (args : List Term) → MeetsFor self.new o args
            ↔ (MeetsFor self.old o args ⊎ (IsMarked marks.now o × Meets known.items args))) }
    {
        if !join_known(&mut self.ways, known.as_slice(), marks) {
            self.ways.insert(known, *marks)?;
        }
        Ok(())
    }

    /// The same of a way that another interface has. What is known is copied only where it is new.
    pub(crate) fn add_same(
        &mut self,
        alloc: Global,
        known: &[Option<Term>],
        marks: &Marks,
    ) -> Result<(), AllocError>
        ensures { OnOk result ((o : ℕ) (args : List Term) → MeetsFor self.new o args
            ↔ (MeetsFor self.old o args ⊎ (IsMarked marks.now o × Meets known.now args))) }
    {
        if !join_known(&mut self.ways, known, marks) {
            self.ways.insert(copied(alloc, known)?, *marks)?;
        }
        Ok(())
    }

    /// Adds a way, where there is one.
    pub(crate) fn add_some(&mut self, found: Option<Known>, marks: &Marks) -> Result<(), AllocError>
        ensures { OnOk result ((o : ℕ) (args : List Term) → MeetsFor self.new o args
            ↔ (MeetsFor self.old o args ⊎ (IsMarked marks.now o × MeetsSome found args))) }
    {
        match found {
            Some(known) => self.add(known, marks),
            None => Ok(()),
        }
    }
}
