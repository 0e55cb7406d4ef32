//! How many methods an interface has, and how many slots classes have.
ghost use Rattle.std.specs.Prelude.{◌≡◌, ℕ, ◌+◌, ◌<◌, ◌≤◌, All, MatchOption, [], length, slice_index_or};
ghost use Rattle.vsd_check.specs.Checked.{decls_of, depths_of};
ghost use Rattle.vsd_types.specs.Types.{type_at};
ghost use Rattle.vsd_slots.specs.Entries.{AreParts};
ghost use Rattle.vsd_slots.specs.Refusals.{IsOverLimit, IsWithinLimit, is_concrete, method_count, slots_in};
ghost use Rattle.vsd_interfaces.specs.Tables.{types_of};

use crate::entries::Parts;
use vsd_check::Checked;
use vsd_methods::declaration_at;
use vsd_types::Closed;

/// The most slots that the classes of a list have together.
pub(crate) const MOST_SLOTS: u32 = 262144;

/// How many virtual methods the declaration of a type has; 0 for a built-in. Takes no memory.
pub fn count_methods(checked: &Checked, closed: &Closed, t: u16) -> u16
    requires together { closed.now.decls ≡ decls_of checked.now }
    requires within { t < length closed.now.types }
    ensures count { result ≡ method_count closed.now.decls.list (type_at closed.now.types t) }
    ensures few { result ≤ 256 }
{
    match declaration_at(checked, closed, t) {
        Some(declared) => declared.decl.methods.len() as u16,
        None => 0,
    }
}

/// Whether a type is a declared class that isn't abstract.
pub(crate) fn is_concrete(checked: &Checked, closed: &Closed, t: u16) -> bool
    requires together { closed.now.decls ≡ decls_of checked.now }
    requires within { t < length closed.now.types }
    ensures { result ≡ is_concrete closed.now.decls.list (type_at closed.now.types t) }
{
    match declaration_at(checked, closed, t) {
        Some(declared) => !declared.decl.is_interface && !declared.decl.is_abstract,
        None => false,
    }
}

/// The total with the slots of these interfaces, where it is within the limit.
pub(crate) fn add_slots(
    checked: &Checked,
    closed: &Closed,
    interfaces: &[u16],
    total: u32,
) -> Option<u32>
    requires together { closed.now.decls ≡ decls_of checked.now }
    requires within { All (λ i. i < length closed.now.types) interfaces.now }
    requires few { total ≤ MOST_SLOTS }
    ensures { MatchOption result (MOST_SLOTS < total + slots_in closed.now.decls.list (types_of closed.now.types interfaces.now))
        (λ n. (n ≡ total + slots_in closed.now.decls.list (types_of closed.now.types interfaces.now)) × (n ≤ MOST_SLOTS)) }
{
    let mut sum = total;
    for i in 0..interfaces.len() {
        sum += u32::from(count_methods(checked, closed, interfaces[i]));
        if sum > MOST_SLOTS {
            return None;
        }
    }
    Some(sum)
}

/// The first type with which there are too many slots; the count of types where there is none.
pub(crate) fn first_over(checked: &Checked, closed: &Closed, parts: &Parts) -> u16
    requires together { closed.now.decls ≡ decls_of checked.now }
    requires parts { AreParts closed.now (depths_of checked.now) parts.now.table.reached parts.now.table.maps parts.now.given }
    ensures listed { result ≤ length closed.now.types }
    ensures within { (t : ℕ) → t < result → IsWithinLimit closed.now t }
    ensures over { result < length closed.now.types → IsOverLimit closed.now result }
{
    let mut total = 0;
    for t in 0..closed.count() {
        match add_slots(
            checked,
            closed,
            parts.table.maps.as_slice()[t as usize].as_slice(),
            total,
        ) {
            Some(more) => total = more,
            None => return t,
        }
    }
    closed.count()
}
