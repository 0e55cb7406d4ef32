//! Lists of entries in one run of memory.
ghost use Rattle.std.specs.Prelude.{◌≡◌, ◌+◌, ◌<◌, [], ◌∷◌, ◌++◌, length, slice_index_or, IfOk, OnOk};
ghost use Rattle.vsd_slots.specs.Ragged.{AreStarts, cut, with_more};

use crate::entries::Entry;
use std::alloc::{AllocError, Global};
use std::marker::Model;

/// Lists of entries that stand one after another in one run of memory. Contracts see the lists.
#[derive(Drop)]
pub(crate) struct Ragged {
    entries: Vec<Entry>,
    /// Where each list begins.
    starts: Vec<usize>,
}

impl Model for Ragged {
    ghost use Rattle.std.specs.Prelude.{List, length};
    ghost use Rattle.vsd_slots.specs.Ragged.{AreStarts, cut};
    ghost use Rattle.vsd_slots.specs.declared.entries.Entry.{Entry};

    ghost Value = { List (List Entry) };

    ghost view = { λ r. cut r.starts.items r.entries.items };

    ghost invariant = { λ r. AreStarts r.starts.items (length r.entries.items) };
}

// The end of the k-th list of a run, where each begins there.
fn end_of(starts: &[usize], k: usize, all: usize) -> usize
    requires { k < length starts.now }
    ensures { result ≡ slice_index_or starts.now (k + 1) all }
{
    if k + 1 < starts.len() {
        return starts[k + 1];
    }
    all
}

// The k-th list of a run, where each begins there.
fn list_of<'a>(entries: &'a [Entry], starts: &[usize], k: usize) -> &'a [Entry]
    requires starts { AreStarts starts.now (length entries.now) }
    requires within { k < length starts.now }
    ensures { result.now ≡ slice_index_or (cut starts.now entries.now) k [] }
{
    let start = starts[k];
    let end = end_of(starts, k, entries.len());
    &entries[start..end]
}

impl Ragged {
    /// No lists. Takes no memory.
    pub(crate) fn new(alloc: Global) -> Ragged
        ensures { result ≡ [] }
    {
        Ragged {
            entries: Vec::new(alloc),
            starts: Vec::new(alloc),
        }
    }

    /// How many lists there are.
    pub(crate) fn count(&self) -> usize
        ensures { result ≡ length self.now }
    {
        self.starts.as_slice().len()
    }

    /// The k-th list.
    pub(crate) fn list(&self, k: usize) -> &[Entry]
        requires { k < length self.now }
        ensures { result.now ≡ slice_index_or self.now k [] }
    {
        list_of(self.entries.as_slice(), self.starts.as_slice(), k)
    }

    /// Begins a list, which is empty.
    pub(crate) fn begin(&mut self) -> Result<(), AllocError>
        ensures { OnOk result (self.new ≡ self.old ++ [] ∷ []) }
    {
        let end = self.entries.as_slice().len();
        self.starts.push(end)?;
        Ok(())
    }

    /// Adds an entry at the end of the last list.
    pub(crate) fn push(&mut self, entry: Entry) -> Result<(), AllocError>
        ensures { OnOk result (self.new ≡ with_more self.old (entry ∷ [])) }
    {
        self.entries.push(entry)?;
        Ok(())
    }

    /// Adds entries at the end of the last list.
    pub(crate) fn extend(&mut self, more: &[Entry]) -> Result<(), AllocError>
        ensures { OnOk result (self.new ≡ with_more self.old more.now) }
    {
        self.entries.extend_from_slice(more)?;
        Ok(())
    }

    /// Adds a list, and gives its number.
    pub(crate) fn add(&mut self, list: &[Entry]) -> Result<usize, AllocError>
        ensures number { IfOk result (λ n. n ≡ length self.old) }
        ensures list { OnOk result (self.new ≡ self.old ++ list.now ∷ []) }
    {
        let number = self.count();
        self.begin()?;
        self.extend(list)?;
        Ok(number)
    }
}
