//! The slots of all classes, or the first class that is refused.
ghost use Rattle.std.specs.Prelude.{◌≡◌, ◌<◌, All, length, slice_index, IfErr, IfOk};
ghost use Rattle.vsd_check.specs.Checked.{decls_of, depths_of};
ghost use Rattle.vsd_types.specs.Types.{type_at};
ghost use Rattle.vsd_slots.specs.Entries.{AreParts, found_of};
ghost use Rattle.vsd_slots.specs.Refusals.{Passes, method_count};
ghost use Rattle.vsd_slots.specs.Implementation.{IsImplementation};
ghost use Rattle.vsd_interfaces.specs.Interfaces.{AreInterfaces};
ghost use Rattle.vsd_interfaces.specs.Tables.{IsMap, types_of};
ghost use Rattle.vsd_slots.specs.Slots.{AreSlots, AreSlotsOf, IsRefusal, map_of};

use crate::counting::first_over;
use crate::entries::{ClosedMethod, Parts, gather};
use crate::error::SlotError;
use crate::filling::fill_all;
use crate::rows::Rows;
use std::alloc::Global;
use vsd_check::Checked;
use vsd_interfaces::own;
use vsd_types::Closed;

/// The interfaces of the types of a closed list, and what implements their methods.
#[derive(Drop)]
pub struct Slots {
    pub(crate) parts: Parts,
    pub(crate) rows: Rows,
}

impl Slots {
    /// The numbers of the interfaces that a class has by what it names itself, each followed by those that it requires
    /// (ECMA-335, II.12.2). No other type has any. Takes no memory.
    pub fn interfaces<'a>(&'a self, closed: &Closed, t: u16) -> &'a [u16]
        requires slots { AreSlotsOf closed.now self.now }
        requires listed { t < length closed.now.types }
        ensures within { All (λ i. i < length closed.now.types) result.now }
        ensures interfaces { AreInterfaces closed.now.decls.list (type_at closed.now.types t) (types_of closed.now.types result.now) }
    {
        let _count = closed.count();
        own(closed, self.parts.table.reached.as_slice(), t)
    }

    /// The numbers of the interfaces of a class and of those above it, nearest class first. Takes no memory.
    pub fn all_interfaces<'a>(&'a self, closed: &Closed, t: u16) -> &'a [u16]
        requires slots { AreSlotsOf closed.now self.now }
        requires listed { t < length closed.now.types }
        ensures value { result.now ≡ map_of self.now t }
        ensures map { IsMap closed.now t result.now }
    {
        self.parts.table.maps.as_slice()[t as usize].as_slice()
    }

    /// What implements the `m`-th method of the interface at a place of [`Slots::all_interfaces`]. Takes no memory.
    pub fn implementation(
        &self,
        closed: &Closed,
        t: u16,
        place: usize,
        m: u16,
    ) -> Option<ClosedMethod>
        requires slots { AreSlotsOf closed.now self.now }
        requires listed { t < length closed.now.types }
        requires place { place < length (map_of self.now t) }
        requires method { m < method_count closed.now.decls.list (type_at closed.now.types (slice_index (map_of self.now t) place)) }
        ensures { IsImplementation closed.now.decls.list (type_at closed.now.types t) (type_at closed.now.types (slice_index (map_of self.now t) place)) m (found_of closed.now.types result) }
    {
        let number = self.rows.numbers.as_slice()[t as usize].as_slice()[place];
        self.rows.columns.list(number)[m as usize].implementation
    }
}

/// The interfaces of the types of a closed list and what implements their methods, or why there are none.
///
/// Classes are taken by number. The slots of a class are the methods of the different interfaces of it and of the classes
/// above it. `TooMany` comes for the first class with which they are too many, `Missing` for the first class that isn't
/// abstract and lacks one: the first by interface, nearest class first, and then by method. For one class `TooMany` comes
/// first.
pub fn implement(alloc: Global, checked: &Checked, closed: &Closed) -> Result<Slots, SlotError>
    // The list was closed over these declarations.
    requires { closed.now.decls ≡ decls_of checked.now }
    ensures ok { IfOk result (λ slots. AreSlots closed.now (depths_of checked.now) slots) }
    ensures passes { IfOk result (λ slots. Passes closed.now (length closed.now.types)) }
    ensures refused { IfErr result (IsRefusal closed.now) }
{
    let parts = gather(alloc, checked, closed)?;
    let end = first_over(checked, closed, &parts);
    let rows = fill_all(alloc, checked, closed, &parts, end)?;
    if end < closed.count() {
        return Err(SlotError::TooMany { class: end });
    }
    Ok(Slots { parts, rows })
}
