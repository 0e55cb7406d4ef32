//! Type names, numbered in the order in which they are first seen.
ghost use Rattle.std.specs.Prelude.{◌≡◌, ◌↔◌, ◌<◌, [], ◌∷◌, ◌++◌, length, slice_get, Contains, IsTrue, IsSome, IfErr, IfOk, IfSome, OnErr, OnOk};
ghost use Rattle.vsd_terms.specs.Names.{AreNames, AddsName};

use indexmap::IndexSet;
use std::alloc::Global;
use std::marker::Model;
use thiserror::Error;

/// Why a name got no number. The names are as they were.
#[derive(Clone, Copy, Debug, PartialEq, Eq, Error)]
pub enum NamesError {
    /// The name is new, and [`Names::MOST`] names are there.
    #[error("too many names")]
    Full,
    /// There is no memory for the name.
    #[error("out of memory")]
    Memory,
}

/// Distinct names, each numbered by its place: the first seen is 0. Contracts see the list of the names.
#[derive(Debug, Drop)]
pub struct Names {
    set: IndexSet<Vec<u8>>,
}

impl Model for Names {
    ghost use Rattle.std.specs.Prelude.{ℕ, List};
    ghost use Rattle.vsd_terms.specs.Keys.{names_in};
    ghost use Rattle.vsd_terms.specs.Names.{AreNames};

    ghost Value = { List (List ℕ) };

    ghost view = { λ n. names_in n.set.keys };

    ghost invariant = { λ n. AreNames (names_in n.set.keys) };
}

impl Names {
    /// The most names that are numbered.
    pub const MOST: usize = 2048;

    /// No names. Takes no memory.
    pub fn new(alloc: Global) -> Names
        ensures { result ≡ [] }
    {
        Names {
            set: IndexSet::new(alloc),
        }
    }

    /// How many names there are, at most 2,048.
    pub fn len(&self) -> usize
        ensures count { result ≡ length self.now }
        ensures names { AreNames self.now }
    {
        self.set.len()
    }

    /// Whether there are no names.
    pub fn is_empty(&self) -> bool
        ensures { IsTrue result ↔ (self.now ≡ []) }
    {
        self.set.is_empty()
    }

    /// The number of `name`, from 0 to 2,047, where it is there.
    pub fn find(&self, name: &[u8]) -> Option<u16>
        ensures found { IfSome result (λ n. slice_get self.now n ≡ Some name.now) }
        ensures present { IsSome result ↔ Contains self.now name.now }
        ensures names { AreNames self.now }
    {
        match self.set.get_index_of(name) {
            Some(place) => Some(place as u16),
            None => None,
        }
    }

    /// The name of this number, which is from 0 to one less than the number of names.
    pub fn name(&self, number: u16) -> &[u8]
        requires { number < length self.now }
        ensures name { slice_get self.now number ≡ Some result.now }
        ensures names { AreNames self.now }
    {
        self.set.as_slice()[number as usize].as_slice()
    }

    /// The number of `name`, from 0 to 2,047, which is the next one where the name is new.
    ///
    /// `Full` comes where a new name would be the 2,049th, and `Memory` is want of memory for a new name. Both leave the
    /// names as they were.
    pub fn number(&mut self, name: &[u8]) -> Result<u16, NamesError>
        // The name is at the place of the number, and every name keeps its place.
        ensures adds { OnOk result (AddsName self.old self.new name.now) }
        ensures place { IfOk result (λ n. slice_get self.new n ≡ Some name.now) }

        ensures full { (result ≡ Err NamesError.Full)
            ↔ (¬ Contains self.old name.now) × (length self.old ≡ Names.MOST) }
        // So of a name that is there memory isn't asked for.
        ensures refused { IfErr result (λ e. ¬ Contains self.old name.now) }
        ensures err { OnErr result (self.new ≡ self.old) }
    {
        if let Some(number) = self.find(name) {
            return Ok(number);
        }
        self.append(name)
    }

    // Numbers a name that is new.
    fn append(&mut self, name: &[u8]) -> Result<u16, NamesError>
        requires { ¬ Contains self.old name.now }
        ensures adds { OnOk result (self.new ≡ self.old ++ name.now ∷ []) }
        ensures place { IfOk result (λ n. slice_get self.new n ≡ Some name.now) }
        ensures full { (result ≡ Err NamesError.Full) ↔ (length self.old ≡ Names.MOST) }
        ensures err { OnErr result (self.new ≡ self.old) }
    {
        let count = self.set.len();
        if count >= Names::MOST {
            return Err(NamesError::Full);
        }
        let Ok(key) = Vec::from_slice(*self.set.allocator(), name) else {
            return Err(NamesError::Memory);
        };
        let Ok(_) = self.set.insert(key) else {
            return Err(NamesError::Memory);
        };
        Ok(count as u16)
    }
}
