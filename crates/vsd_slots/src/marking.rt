//! Which methods of an interface a class may have something of its own for, by the buckets of their names.
ghost use Rattle.std.specs.Prelude.{◌≡◌, ℕ, ◌<◌, None, false, length, slice_index_or, true};
ghost use Rattle.vsd_check.specs.Checked.{decls_of, depths_of};
ghost use Rattle.vsd_types.specs.Types.{declaration_of, type_at};
ghost use Rattle.vsd_methods.specs.Givens.{answer_of};
ghost use Rattle.vsd_methods.specs.Methods.{methods_in};
ghost use Rattle.vsd_slots.specs.Columns.{HasNone};
ghost use Rattle.vsd_slots.specs.Entries.{AreParts};
ghost use Rattle.vsd_slots.specs.Marks.{AreGivenMarked, AreMarked, AreNamesMarked, GiveNothing, IsFree, StaysMarked};
ghost use Rattle.vsd_slots.specs.Named.{AreBuckets, AreNamed};

use crate::entries::Parts;
use crate::named::{Named, buckets_at};
use vsd_check::Checked;
use vsd_methods::Given;
use vsd_types::Closed;

/// For each bucket whether it is marked.
pub(crate) type Marks = [bool; 256];

// The marks of these buckets.
fn marks_of(buckets: &[u8]) -> Marks
    ensures { (k : ℕ) → k < length buckets.now → IsFree result (slice_index_or buckets.now k 0) → ⊥ }
{
    let mut marks = [false; 256];
    for k in 0..buckets.len() {
        marks[buckets[k] as usize] = true;
    }
    marks
}

/// The marks of the names that the methods of class `t` have.
pub(crate) fn names_marked(closed: &Closed, named: &Named, t: u16) -> Marks
    requires named { AreNamed closed.now.decls.list named.now }
    requires class { t < length closed.now.types }
    ensures { AreNamesMarked (methods_in (declaration_of closed.now.decls.list (type_at closed.now.types t))) result }
{
    marks_of(buckets_at(closed, named, t))
}

// Marks the bucket of the method that an override is for, where it is one of interface `i`, whose methods have these buckets.
fn mark_slot(given: Option<Given>, buckets: &[u8], i: u16, marks: &mut Marks)
    ensures marked { (m : ℕ) → m < length buckets.now → IsFree marks.new (slice_index_or buckets.now m 0) → answer_of given i m ≡ None }
    ensures stays { StaysMarked marks.old marks.new }
{
    let Some(g) = given else {
        return;
    };
    if g.interface != i {
        return;
    }
    if (g.slot as usize) < buckets.len() {
        marks[buckets[g.slot as usize] as usize] = true;
    }
}

// Marks the buckets of the methods of interface `i` that overrides are for.
fn mark_given(given: &[Option<Given>], buckets: &[u8], i: u16, marks: &mut Marks)
    ensures marked { AreGivenMarked given.now i buckets.now marks.new }
    ensures stays { StaysMarked marks.old marks.new }
{
    for k in 0..given.len() {
        mark_slot(given[k], buckets, i, marks);
    }
}

/// The marks of the methods of interface `i` that class `t` has methods of the same bucket or overrides for. The interface's
/// methods have these buckets.
pub(crate) fn marked(
    checked: &Checked,
    closed: &Closed,
    parts: &Parts,
    named: &Named,
    buckets: &[u8],
    t: u16,
    i: u16,
) -> Marks
    requires together { closed.now.decls ≡ decls_of checked.now }
    requires parts { AreParts closed.now (depths_of checked.now) parts.now.table.reached parts.now.table.maps parts.now.given }
    requires named { AreNamed closed.now.decls.list named.now }
    requires buckets { AreBuckets (methods_in (declaration_of closed.now.decls.list (type_at closed.now.types i))) buckets.now }
    requires class { t < length closed.now.types }
    requires interface { i < length closed.now.types }
    ensures { AreMarked closed.now t i buckets.now result }
{
    let mut marks = names_marked(closed, named, t);
    let given = parts.given.as_slice()[t as usize].as_slice();
    mark_given(given, buckets, i, &mut marks);
    marks
}

// Whether an override is for a method of interface `i`.
fn is_for(given: Option<Given>, i: u16) -> bool
    ensures { result ≡ false → (m : ℕ) → answer_of given i m ≡ None }
{
    match given {
        Some(g) => g.interface == i,
        None => false,
    }
}

// Whether one of these overrides is for a method of interface `i`.
fn is_given(given: &[Option<Given>], i: u16) -> bool
    ensures { result ≡ false → (m : ℕ) → GiveNothing given.now i m }
{
    for k in 0..given.len() {
        if is_for(given[k], i) {
            return true;
        }
    }
    false
}

// Whether one of these buckets is marked.
fn is_marked(buckets: &[u8], marks: &Marks) -> bool
    ensures { result ≡ false → (m : ℕ) → m < length buckets.now → IsFree marks.now (slice_index_or buckets.now m 0) }
{
    for m in 0..buckets.len() {
        if marks[buckets[m] as usize] {
            return true;
        }
    }
    false
}

/// Whether class `t`, whose names have these marks, has no override for a method of interface `i` and no method that may have
/// the name of one.
pub(crate) fn has_none(
    checked: &Checked,
    closed: &Closed,
    parts: &Parts,
    named: &Named,
    marks: &Marks,
    t: u16,
    i: u16,
) -> bool
    requires together { closed.now.decls ≡ decls_of checked.now }
    requires parts { AreParts closed.now (depths_of checked.now) parts.now.table.reached parts.now.table.maps parts.now.given }
    requires named { AreNamed closed.now.decls.list named.now }
    requires marks { AreNamesMarked (methods_in (declaration_of closed.now.decls.list (type_at closed.now.types t))) marks.now }
    requires class { t < length closed.now.types }
    requires interface { i < length closed.now.types }
    ensures { result ≡ true → HasNone closed.now t i }
{
    let given = parts.given.as_slice()[t as usize].as_slice();
    let buckets = buckets_at(closed, named, i);
    !is_given(given, i) && !is_marked(buckets, marks)
}
