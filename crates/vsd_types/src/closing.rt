//! Closing: a list is filled with what types lead to, until nothing new comes.
ghost use Rattle.std.specs.Prelude.{◌≡◌, ◌+◌, ◌<◌, ◌≤◌, [], ◌++◌, All, Err, IfErr, IfOk, OnOk, Ok, Some, length, slice_get};
ghost use Rattle.indexmap.specs.IndexSet.{keys};
ghost use Rattle.vsd_ast.specs.Hierarchy.{IsHierarchy};
ghost use Rattle.vsd_ast.specs.WellFormed.{AreWellFormed};
ghost use Rattle.vsd_check.specs.Checked.{decls_of, depths_of};
ghost use Rattle.vsd_terms.specs.Substitution.{parameters_of};
ghost use Rattle.vsd_terms.specs.Text.{names_of};
ghost use Rattle.vsd_types.specs.ClosedList.{IsClosedList};
ghost use Rattle.vsd_types.specs.Closing.{Extends, add, add_all, children_at, closing, follow, is_too_deep, plain_types};
ghost use Rattle.vsd_types.specs.Entries.{IsEntry, AreKept};
ghost use Rattle.vsd_types.specs.Numbers.{AreNumbers};
ghost use Rattle.vsd_types.specs.Types.{IsClosedType, children, type_at};

use crate::children::{Children, children_of};
use crate::closed::Closed;
use crate::entry::Entry;
use crate::error::CloseError;
use crate::kind::kind_of;
use crate::origin::Origin;
use indexmap::IndexSet;
use sqlite_items::Items;
use std::alloc::{AllocError, Global};
use vsd_ast::Decl;
use vsd_check::Checked;
use vsd_terms::{Names, Term, Terms, copy, levels, place_of, print};

/// The most types that are listed.
const MOST: usize = 1024;

/// Adds a type, and gives its number. It is copied where it is new.
fn add(
    alloc: Global,
    checked: &Checked,
    types: &mut IndexSet<Term>,
    t: &Term,
) -> Result<u16, CloseError>
    requires fits { IsClosedType (decls_of checked.now).list t.now }
    requires few { length (keys types.old) ≤ 1024 }
    ensures ok { OnOk result (add (decls_of checked.now).names (keys types.old) t.now ≡ Ok (keys types.new)) }
    ensures refused { IfErr result (λ e. ¬ (e ≡ CloseError.Memory) → add (decls_of checked.now).names (keys types.old) t.now ≡ Err e) }
    ensures place { IfOk result (λ n. slice_get (keys types.new) n ≡ Some t.now) }
    ensures few { OnOk result (length (keys types.new) ≤ 1024) }
    ensures extends { OnOk result (Extends (keys types.old) (keys types.new)) }
{
    if is_too_deep(alloc, checked, t)? {
        return Err(CloseError::TooDeep);
    }
    if let Some(place) = place_of(types, t) {
        return Ok(place as u16);
    }
    let count = types.len();
    if count >= MOST {
        return Err(CloseError::TooManyTypes);
    }
    let Ok(_) = types.insert(copy(alloc, t)?) else {
        return Err(CloseError::Memory);
    };
    Ok(count as u16)
}

// Whether a type has more than 16 levels or more than 1,024 printed bytes. Only one with few levels is printed.
fn is_too_deep(alloc: Global, checked: &Checked, t: &Term) -> Result<bool, AllocError>
    requires { IsClosedType (decls_of checked.now).list t.now }
    ensures { IfOk result (λ deep. deep ≡ is_too_deep (decls_of checked.now).names t.now) }
{
    if levels(t) > 16 {
        return Ok(true);
    }
    let text = print(alloc, t, &checked.decls().names)?;
    Ok(text.len() > 1024)
}

/// Adds types in order, and gives their numbers.
fn add_each(
    alloc: Global,
    checked: &Checked,
    types: &mut IndexSet<Term>,
    more: &[Term],
) -> Result<Items<u16>, CloseError>
    requires lawful { All (IsClosedType (decls_of checked.now).list) (keys types.old) }
    requires more { All (IsClosedType (decls_of checked.now).list) more.now }
    requires few { length (keys types.old) ≤ 1024 }
    ensures ok { OnOk result (add_all (decls_of checked.now).names (Ok (keys types.old)) more.now ≡ Ok (keys types.new)) }
    ensures refused { IfErr result (λ e. ¬ (e ≡ CloseError.Memory) → add_all (decls_of checked.now).names (Ok (keys types.old)) more.now ≡ Err e) }
    ensures numbers { IfOk result (λ numbers. AreNumbers (keys types.new) numbers more.now) }
    ensures few { OnOk result (length (keys types.new) ≤ 1024) }
    ensures extends { OnOk result (Extends (keys types.old) (keys types.new)) }
    ensures lawful { OnOk result (All (IsClosedType (decls_of checked.now).list) (keys types.new)) }
{
    let mut numbers = Items::new(alloc);
    for t in more {
        numbers.push(add(alloc, checked, types, t)?)?;
    }
    Ok(numbers)
}

// The types of the declarations without parameters, in order.
fn plain_types(alloc: Global, decls: &[Decl]) -> Result<Terms, AllocError>
    ensures { IfOk result (λ made. made ≡ plain_types decls.now) }
{
    let mut made = Terms::new(alloc);
    for decl in decls {
        if decl.params.is_empty() {
            made.push(Term::Named {
                name: decl.name,
                args: Terms::new(alloc),
            })?;
        }
    }
    Ok(made)
}

// The list that has the first types and then the others.
fn start(
    alloc: Global,
    checked: &Checked,
    first: &[Term],
    others: &[Term],
) -> Result<IndexSet<Term>, CloseError>
    requires first { All (IsClosedType (decls_of checked.now).list) first.now }
    requires others { All (IsClosedType (decls_of checked.now).list) others.now }
    ensures ok { IfOk result (λ types. add_all (decls_of checked.now).names (Ok []) (first.now ++ others.now) ≡ Ok (keys types)) }
    ensures refused { IfErr result (λ e. ¬ (e ≡ CloseError.Memory) → add_all (decls_of checked.now).names (Ok []) (first.now ++ others.now) ≡ Err e) }
    ensures few { IfOk result (λ types. length (keys types) ≤ 1024) }
    ensures lawful { IfOk result (λ types. All (IsClosedType (decls_of checked.now).list) (keys types)) }
{
    let mut types = IndexSet::new(alloc);
    add_each(alloc, checked, &mut types, first)?;
    add_each(alloc, checked, &mut types, others)?;
    Ok(types)
}

// Adds what the type at a place leads to, and makes the type's entry.
fn follow(
    alloc: Global,
    checked: &Checked,
    types: &mut IndexSet<Term>,
    place: usize,
) -> Result<Entry, CloseError>
    requires within { place < length (keys types.old) }
    requires few { length (keys types.old) ≤ 1024 }
    requires lawful { All (IsClosedType (decls_of checked.now).list) (keys types.old) }
    requires well_formed { AreWellFormed (decls_of checked.now) }
    requires hierarchy { IsHierarchy (decls_of checked.now).list (depths_of checked.now) }
    ensures ok { OnOk result (follow (decls_of checked.now) (Ok (keys types.old)) place ≡ Ok (keys types.new)) }
    ensures refused { IfErr result (λ e. ¬ (e ≡ CloseError.Memory) → follow (decls_of checked.now) (Ok (keys types.old)) place ≡ Err e) }
    ensures entry { IfOk result (IsEntry (decls_of checked.now).list (keys types.new) (type_at (keys types.old) place)) }
    ensures few { OnOk result (length (keys types.new) ≤ 1024) }
    ensures extends { OnOk result (Extends (keys types.old) (keys types.new)) }
    ensures lawful { OnOk result (All (IsClosedType (decls_of checked.now).list) (keys types.new)) }
{
    let t = copy(alloc, &types.as_slice()[place])?;
    let kind = kind_of(alloc, checked, &t)?;
    let Children {
        terms,
        bases,
        interfaces,
    } = children_of(alloc, checked, &t)?;
    let children = add_each(alloc, checked, types, terms.as_slice())?;
    Ok(Entry {
        kind,
        children,
        bases,
        interfaces,
    })
}

/// Closes the types of the declarations without parameters and these roots: the types that they lead to are listed with
/// them, each once, in order of first appearance. What a type leads to is its base, then the interfaces that it names, then
/// its arguments.
///
/// A refusal is that of the first type to be added that shows one. `TooDeep` comes before `TooManyTypes` for one type.
/// `Memory` is want of memory.
pub fn close(alloc: Global, checked: &Checked, roots: &[Term]) -> Result<Closed, CloseError>
    requires { All (IsClosedType (decls_of checked.now).list) roots.now }
    ensures over { IfOk result (λ made. made.decls ≡ decls_of checked.now) }
    ensures ok { IfOk result (λ made. closing (decls_of checked.now) roots.now ≡ Ok made.types) }
    ensures refused { IfErr result (λ e. ¬ (e ≡ CloseError.Memory) → closing (decls_of checked.now) roots.now ≡ Err e) }
    ensures law { IfOk result (λ made. IsClosedList made.decls.list (plain_types made.decls.list ++ roots.now) made.types) }
{
    let plain = plain_types(alloc, checked.decls().list.as_slice())?;
    let mut types = start(alloc, checked, plain.as_slice(), roots)?;
    let mut entries = Items::new(alloc);
    'walk: while entries.len() < types.len() {
        let entry = follow(alloc, checked, &mut types, entries.len())?;
        entries.push(entry)?;
    }
    Ok(Closed {
        origin: Origin::told(checked),
        types,
        entries,
    })
}
