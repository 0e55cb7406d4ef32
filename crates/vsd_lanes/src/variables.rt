//! The names of a lane's variables.
ghost use Rattle.std.specs.Prelude.{◌≡◌, [], ◌∷◌, ◌++◌, OnOk, IfOk, Option, position};
ghost use Rattle.std.specs.Str.{bytes_eq};
ghost use Rattle.vsd_lanes.specs.Variables.{added, number_in};

use indexmap::IndexSet;
use sqlite_items::Items;
use std::alloc::{AllocError, Global};
use std::marker::Model;
use vsd_ast::Bytes;

/// Distinct names, each numbered by its place: the first loaded is 0. Contracts see the list of the names.
#[derive(Debug, Drop)]
pub struct Variables {
    set: IndexSet<Vec<u8>>,
}

impl Model for Variables {
    ghost use Rattle.std.specs.Prelude.{ℕ, List, length, ◌≤◌};
    ghost use Rattle.vsd_terms.specs.Keys.{names_in};

    ghost Value = { List (List ℕ) };

    ghost view = { λ v. names_in v.set.keys };

    ghost invariant = { λ v. length v.set.keys ≤ 4294967295 };
}

impl Variables {
    /// No names. Takes no memory.
    pub fn new(alloc: Global) -> Variables
        ensures { result ≡ [] }
    {
        Variables {
            set: IndexSet::new(alloc),
        }
    }

    /// The number of a name, from 0, where it is there.
    pub fn find(&self, name: &[u8]) -> Option<u32>
        ensures { result ≡ position (bytes_eq name.now) self.now }
    {
        match self.set.get_index_of(name) {
            Some(place) => Some(place as u32),
            None => None,
        }
    }

    /// The number of a name, from 0, which is the next one where the name is new.
    pub fn number(&self, name: &[u8]) -> u32
        ensures { result ≡ number_in self.now name.now }
    {
        match self.find(name) {
            Some(number) => number,
            None => self.set.len() as u32,
        }
    }

    /// Gives a name a number, unless it has one.
    ///
    /// The error is want of memory: more than 4,294,967,295 names find none.
    pub fn add(&mut self, name: &[u8]) -> Result<(), AllocError>
        ensures { OnOk result (self.new ≡ added self.old name.now) }
    {
        match self.find(name) {
            Some(_) => Ok(()),
            None => self.append(name),
        }
    }

    // Numbers a name that is new.
    fn append(&mut self, name: &[u8]) -> Result<(), AllocError>
        requires { position (bytes_eq name.now) self.old ≡ Option.None }
        ensures { OnOk result (self.new ≡ self.old ++ name.now ∷ []) }
    {
        if self.set.len() >= 4294967295 {
            return Err(AllocError);
        }
        let key = Vec::from_slice(*self.set.allocator(), name)?;
        self.set.insert(key)?;
        Ok(())
    }

    /// The names, in the order of their numbers. The error is want of memory.
    pub fn names(&self, alloc: Global) -> Result<Items<Bytes>, AllocError>
        ensures { IfOk result (λ names. names ≡ self.now) }
    {
        let mut names = Items::new(alloc);
        for key in self.set.as_slice() {
            names.push(Items::from_slice(alloc, key.as_slice())?)?;
        }
        Ok(names)
    }
}
