//! The ways of each interface, from those that require nothing upward.
ghost use Rattle.std.specs.Prelude.{◌≡◌, ℕ, ◌≤◌, ◌<◌, ◌↔◌, ◌⊎◌, List, [], length, map, slice_get, Some, All, IsTrue, IfOk, OnOk};
ghost use Rattle.vsd_terms.specs.declared.term.Term.{Term};
ghost use Rattle.vsd_terms.specs.declared.term.Term.TheVariants.{Named, Param};
ghost use Rattle.vsd_terms.specs.Size.{greatest};
ghost use Rattle.vsd_terms.specs.Substitution.{parameters_of, subst_of};
ghost use Rattle.vsd_terms.specs.Text.{names_of};
ghost use Rattle.vsd_ast.specs.declared.declarations.Decl.{Decl};
ghost use Rattle.vsd_ast.specs.declared.declarations.Located.{Located};
ghost use Rattle.vsd_ast.specs.Hierarchy.{IsInterface};
ghost use Rattle.vsd_ast.specs.Lookup.{head_of, is_lawful};
ghost use Rattle.vsd_lift.specs.Settled.{IsSettled};
ghost use Rattle.vsd_ways.specs.Found.{SomeOf};
ghost use Rattle.vsd_ways.specs.Known.{MeetsFor, owners_at_once, owners_in};
ghost use Rattle.vsd_ways.specs.Leads.{LeadsTo};
ghost use Rattle.vsd_ways.specs.Order.{IsOrder};
ghost use Rattle.vsd_ways.specs.Ways.{AreWays, IsReady, IsWays};

use crate::Ways;
use crate::binding::{all_known, back};
use crate::marks::{OWNERS_AT_ONCE, marked};
use sqlite_items::Items;
use std::alloc::{AllocError, Global};
use vsd_ast::Decl;
use vsd_lift::Hierarchy;
use vsd_terms::{Term, Terms};

// The arguments of one owner, where the interface of this name is the owner's.
fn add_owner(
    alloc: Global,
    name: u16,
    owner: &Term,
    o: usize,
    ways: &mut Ways,
) -> Result<(), AllocError>
    requires { o < owners_at_once }
    ensures { OnOk result ((p : ℕ) (args : List Term) → MeetsFor ways.new p args
        ↔ (MeetsFor ways.old p args ⊎ ((p ≡ o) × (Named name args ≡ owner.now)))) }
{
    let Term::Named { name: other, args } = owner else {
        return Ok(());
    };
    if *other != name {
        return Ok(());
    }
    let known = all_known(alloc, args.as_slice())?;
    ways.add(known, &marked(o))
}

// The arguments of each owner whose interface has this name.
fn add_own(alloc: Global, name: u16, owners: &[&Term], ways: &mut Ways) -> Result<(), AllocError>
    ensures { OnOk result ((o : ℕ) (args : List Term) → MeetsFor ways.new o args
        ↔ (MeetsFor ways.old o args ⊎ (slice_get (owners_in owners.now) o ≡ Some (Named name args)))) }
{
    for o in 0..owners.len().min(OWNERS_AT_ONCE) {
        add_owner(alloc, name, owners[o], o, ways)?;
    }
    Ok(())
}

// Whether the patterns are so many parameters in their order, as most are.
fn are_own(parameters: usize, patterns: &Terms) -> bool
    ensures { IsTrue result → (args : List Term) → length args ≡ parameters → map (subst_of args) patterns.now ≡ args }
{
    let patterns = patterns.as_slice();
    if patterns.len() != parameters {
        return false;
    }
    for i in 0..patterns.len() {
        if !is_parameter(&patterns[i], i) {
            return false;
        }
    }
    true
}

fn is_parameter(t: &Term, place: usize) -> bool
    ensures { IsTrue result ↔ (t.now ≡ Param place) }
{
    match t {
        Term::Param(other) => *other as usize == place,
        _ => false,
    }
}

// The ways that are wanted, as they are.
fn add_all(alloc: Global, wanted: &Ways, ways: &mut Ways) -> Result<(), AllocError>
    ensures { OnOk result ((o : ℕ) (args : List Term) → MeetsFor ways.new o args
        ↔ (MeetsFor ways.old o args ⊎ MeetsFor wanted.now o args)) }
{
    for i in 0..wanted.len() {
        let (known, marks) = wanted.at(i);
        ways.add_same(alloc, known.as_slice(), marks)?;
    }
    Ok(())
}

// What so many arguments have to be for `patterns` at them to meet one of the ways that are wanted.
fn add_back(
    alloc: Global,
    parameters: usize,
    patterns: &Terms,
    wanted: &Ways,
    ways: &mut Ways,
) -> Result<(), AllocError>
    requires { greatest (map parameters_of patterns.now) ≤ parameters }
    ensures { OnOk result ((o : ℕ) (args : List Term) → length args ≡ parameters → MeetsFor ways.new o args
        ↔ (MeetsFor ways.old o args ⊎ MeetsFor wanted.now o (map (subst_of args) patterns.now))) }
{
    for i in 0..wanted.len() {
        let (known, marks) = wanted.at(i);
        let found = back(alloc, parameters, patterns.as_slice(), known.as_slice())?;
        ways.add_some(found, marks)?;
    }
    Ok(())
}

// The same. Where the patterns are the parameters themselves, the ways are taken over.
fn add_through(
    alloc: Global,
    parameters: usize,
    patterns: &Terms,
    wanted: &Ways,
    ways: &mut Ways,
) -> Result<(), AllocError>
    requires { greatest (map parameters_of patterns.now) ≤ parameters }
    ensures { OnOk result ((o : ℕ) (args : List Term) → length args ≡ parameters → MeetsFor ways.new o args
        ↔ (MeetsFor ways.old o args ⊎ MeetsFor wanted.now o (map (subst_of args) patterns.now))) }
{
    if are_own(parameters, patterns) {
        return add_all(alloc, wanted, ways);
    }
    add_back(alloc, parameters, patterns, wanted, ways)
}

// What so many arguments have to be for a required interface at them to lead to the owner.
fn add_one(
    alloc: Global,
    h: &Hierarchy<'_>,
    parameters: usize,
    required: &Term,
    table: &[Ways],
    ways: &mut Ways,
) -> Result<(), AllocError>
    requires settled { IsSettled h.now.decls.now h.now.places.now h.now.depths.now }
    requires bound { parameters_of required.now ≤ parameters }
    requires named { names_of required.now ≤ length h.now.places.now }
    requires lawful { IsTrue (is_lawful h.now.decls.now required.now) }
    requires interface { IsInterface h.now.decls.now (head_of required.now) }
    requires count { length table.now ≡ length h.now.decls.now }
    ensures { OnOk result ((owners : List Term) → IsReady h.now.decls.now owners table.now required.now →
        (o : ℕ) (owner : Term) → slice_get owners o ≡ Some owner → (args : List Term) → length args ≡ parameters →
        MeetsFor ways.new o args ↔ (MeetsFor ways.old o args
        ⊎ LeadsTo h.now.decls.now (subst_of args required.now) owner)) }
{
    let Term::Named { name, args } = required else {
        return Ok(());
    };
    let place = h.places[*name as usize];
    add_through(alloc, parameters, args, &table[place as usize], ways)
}

// The same for each interface that a declaration names.
fn add_required(
    alloc: Global,
    h: &Hierarchy<'_>,
    at: usize,
    table: &[Ways],
    ways: &mut Ways,
) -> Result<(), AllocError>
    requires settled { IsSettled h.now.decls.now h.now.places.now h.now.depths.now }
    requires within { at < length h.now.decls.now }
    requires count { length table.now ≡ length h.now.decls.now }
    ensures { OnOk result ((decl : Decl) → slice_get h.now.decls.now at ≡ Some decl → (owners : List Term) →
        All (λ (i : Located). IsReady h.now.decls.now owners table.now i.term) decl.interfaces →
        (o : ℕ) (owner : Term) → slice_get owners o ≡ Some owner → (args : List Term) → length args ≡ length decl.params →
        MeetsFor ways.new o args ↔ (MeetsFor ways.old o args
        ⊎ SomeOf (λ (i : Located). LeadsTo h.now.decls.now (subst_of args i.term) owner) decl.interfaces)) }
{
    let decl = &h.decls[at];
    let interfaces = decl.interfaces.as_slice();
    for i in 0..interfaces.len() {
        add_one(
            alloc,
            h,
            decl.params.len(),
            &interfaces[i].term,
            table,
            ways,
        )?;
    }
    Ok(())
}

// The ways of one interface, where those of the interfaces that it requires are there.
fn ways_of(
    alloc: Global,
    h: &Hierarchy<'_>,
    owners: &[&Term],
    at: usize,
    table: &[Ways],
) -> Result<Ways, AllocError>
    requires settled { IsSettled h.now.decls.now h.now.places.now h.now.depths.now }
    requires within { at < length h.now.decls.now }
    requires count { length table.now ≡ length h.now.decls.now }
    ensures { IfOk result (λ ways. (decl : Decl) → slice_get h.now.decls.now at ≡ Some decl →
        All (λ (i : Located). IsReady h.now.decls.now (owners_in owners.now) table.now i.term) decl.interfaces →
        IsWays h.now.decls.now (owners_in owners.now) decl ways) }
{
    let mut ways = Ways::new(alloc);
    add_own(alloc, h.decls[at].name, owners, &mut ways)?;
    add_required(alloc, h, at, table, &mut ways)?;
    Ok(ways)
}

// So many declarations without ways.
fn no_ways(alloc: Global, count: usize) -> Result<Items<Ways>, AllocError>
    ensures { IfOk result (λ table. length table ≡ count) }
{
    let mut table = Items::new(alloc);
    for _ in 0..count {
        table.push(Ways::new(alloc))?;
    }
    Ok(table)
}

/// The ways in which each interface leads to each of the owners, by the number of its declaration. Of more owners than are
/// asked for at once only the first are.
pub fn all_ways(
    alloc: Global,
    h: &Hierarchy<'_>,
    order: &[u16],
    owners: &[&Term],
) -> Result<Items<Ways>, AllocError>
    requires settled { IsSettled h.now.decls.now h.now.places.now h.now.depths.now }
    requires order { IsOrder (length h.now.decls.now) h.now.depths.now order.now }
    ensures { IfOk result (AreWays h.now.decls.now (owners_in owners.now)) }
{
    let mut table = no_ways(alloc, h.decls.len())?;
    for i in 0..order.len() {
        let at = order[i] as usize;
        if !h.decls[at].is_interface {
            continue;
        }
        let ways = ways_of(alloc, h, owners, at, table.as_slice())?;
        table.set(at, ways);
    }
    Ok(table)
}
