//! What classes have for the methods of interfaces, kept for the classes below them.
ghost use Rattle.std.specs.Prelude.{◌≡◌, ◌∷◌, ◌++◌, [], IfSome, List, OnOk};
ghost use Rattle.vsd_types.specs.TypeList.{TypeList};
ghost use Rattle.vsd_slots.specs.Kept.{AreKept, IsKept};
ghost use Rattle.vsd_slots.specs.declared.entries.Entry.{Entry};

use sqlite_items::Items;
use std::alloc::{AllocError, Global};

/// A class, an interface, and the number of the column of the class for the interface.
#[derive(Clone, Copy, Debug, Drop)]
pub(crate) struct KeptColumn {
    pub(crate) class: u16,
    pub(crate) interface: u16,
    pub(crate) number: usize,
}

/// The numbers of columns of classes for interfaces, each made once for all classes below. One is made where a class names an
/// interface that its base doesn't have, so that the slots of classes bound how many there are.
#[derive(Drop)]
pub(crate) struct Kept {
    pub(crate) columns: Items<KeptColumn>,
    // By class, where its places begin; these are by interface. A place tells which of the columns may be the one, and each
    // answer is tested, so neither says anything of a class and an interface whose column isn't kept.
    pub(crate) starts: Vec<usize>,
    pub(crate) places: Vec<usize>,
}

// What stands where there is nothing.
const NOWHERE: usize = usize::MAX;

// Where the places of class `t` begin. Room for so many is made where it has none.
fn start_of(
    starts: &mut Vec<usize>,
    places: &mut Vec<usize>,
    t: u16,
    count: u16,
) -> Result<usize, AllocError> {
    let at = usize::from(t);
    if starts.len() <= at {
        starts.resize(at + 1, NOWHERE)?;
    }
    if starts[at] == NOWHERE {
        let start = places.len();
        places.resize(start.saturating_add(usize::from(count)), NOWHERE)?;
        starts[at] = start;
    }
    Ok(starts[at])
}

impl Kept {
    /// Nothing is kept. Takes no memory.
    pub(crate) fn new(alloc: Global) -> Kept
        ensures { (c : TypeList) (columns : List (List Entry)) → AreKept c columns result }
    {
        Kept {
            columns: Items::new(alloc),
            starts: Vec::new(alloc),
            places: Vec::new(alloc),
        }
    }

    /// The number of the column of class `t` for interface `i`, where it is kept.
    pub(crate) fn number(&self, t: u16, i: u16) -> Option<usize>
        ensures { IfSome result (IsKept self.now t i) }
    {
        let start = *self.starts.get(usize::from(t))?;
        let place = *self.places.get(start.wrapping_add(usize::from(i)))?;
        let kept = *self.columns.get(place)?;
        if kept.class != t || kept.interface != i {
            return None;
        }
        Some(kept.number)
    }

    /// Keeps the number of the column of class `t` for interface `i`, which are two of so many types.
    pub(crate) fn keep(
        &mut self,
        t: u16,
        i: u16,
        number: usize,
        count: u16,
    ) -> Result<(), AllocError>
        ensures { OnOk result (self.new.columns ≡ self.old.columns ++ record { class = t; interface = i; number = number } ∷ []) }
    {
        let start = start_of(&mut self.starts, &mut self.places, t, count)?;
        let at = start.wrapping_add(usize::from(i));
        if at < self.places.len() {
            self.places[at] = self.columns.len();
        }
        self.columns.push(KeptColumn {
            class: t,
            interface: i,
            number,
        })
    }
}
