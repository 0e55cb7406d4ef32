//! Whether a class has an interface.
ghost use Rattle.std.specs.Prelude.{◌≡◌, ℕ, ◌<◌, ◌≤◌, ◌↔◌, ◌⊎◌, List, length, map, slice_get, Some, IsTrue};
ghost use Rattle.vsd_terms.specs.declared.term.Term.{Term};
ghost use Rattle.vsd_ast.specs.declared.declarations.Decl.{Decl};
ghost use Rattle.vsd_ast.specs.declared.declarations.Located.{Located};
ghost use Rattle.vsd_ast.specs.Hierarchy.{IsInterface};
ghost use Rattle.vsd_ast.specs.Lookup.{head_of, is_lawful};
ghost use Rattle.vsd_terms.specs.Text.{names_of};
ghost use Rattle.vsd_lift.specs.Chain.{envs_of};
ghost use Rattle.vsd_lift.specs.Lift.{lift, AllFit, Fits, IsLadder};
ghost use Rattle.vsd_lift.specs.Settled.{IsSettled};
ghost use Rattle.vsd_ways.specs.Found.{SomeOf};
ghost use Rattle.vsd_ways.specs.Known.{IsMarked, Meets, MeetsFor, Wants};
ghost use Rattle.vsd_ways.specs.Leads.{HasInterface, IsUpward, LeadsTo};
ghost use Rattle.vsd_ways.specs.Ways.{AreWays};

use crate::Ways;
use crate::marks::{Marks, all_but, has_more, join};
use vsd_ast::Decl;
use vsd_lift::{Hierarchy, same_up};
use vsd_terms::{Term, Terms};

// Whether an argument of a class above is the one that is wanted.
fn is_wanted(
    wanted: &Option<Term>,
    decls: &[Decl],
    chain: &[usize],
    level: usize,
    argument: &Term,
) -> bool
    requires ladder { IsLadder decls.now chain.now }
    requires within { level ≤ length chain.now }
    requires fits { Fits (envs_of decls.now chain.now) level argument.now }
    ensures { IsTrue result ↔ Wants wanted.now (lift (envs_of decls.now chain.now) level argument.now) }
{
    match wanted {
        Some(term) => same_up(term, decls, chain, level, argument),
        None => true,
    }
}

// Whether arguments of a class above meet a way.
fn meets(
    known: &[Option<Term>],
    decls: &[Decl],
    chain: &[usize],
    level: usize,
    args: &[Term],
) -> bool
    requires ladder { IsLadder decls.now chain.now }
    requires within { level ≤ length chain.now }
    requires fit { AllFit (envs_of decls.now chain.now) level args.now }
    ensures { IsTrue result ↔ Meets known.now (map (lift (envs_of decls.now chain.now) level) args.now) }
{
    if args.len() != known.len() {
        return false;
    }
    for i in 0..known.len() {
        if !is_wanted(&known[i], decls, chain, level, &args[i]) {
            return false;
        }
    }
    true
}

// Marks the owners of the ways that arguments of a class above meet. A way of owners that are all marked is passed by.
fn mark_met(
    ways: &Ways,
    decls: &[Decl],
    chain: &[usize],
    level: usize,
    args: &Terms,
    found: &mut Marks,
)
    requires ladder { IsLadder decls.now chain.now }
    requires within { level ≤ length chain.now }
    requires fit { AllFit (envs_of decls.now chain.now) level args.now }
    ensures { (o : ℕ) → IsMarked found.new o ↔ (IsMarked found.old o
        ⊎ MeetsFor ways.now o (map (lift (envs_of decls.now chain.now) level) args.now)) }
{
    for i in 0..ways.len() {
        let (known, marks) = ways.at(i);
        if !has_more(found, marks) {
            continue;
        }
        if !meets(known.as_slice(), decls, chain, level, args.as_slice()) {
            continue;
        }
        join(found, marks);
    }
}

// Marks the owners to which an interface that the class at a level names leads.
fn mark_named(
    h: &Hierarchy<'_>,
    chain: &[usize],
    level: usize,
    named: &Term,
    table: &[Ways],
    found: &mut Marks,
)
    requires settled { IsSettled h.now.decls.now h.now.places.now h.now.depths.now }
    requires ladder { IsLadder h.now.decls.now chain.now }
    requires within { level ≤ length chain.now }
    requires fits { Fits (envs_of h.now.decls.now chain.now) level named.now }
    requires names { names_of named.now ≤ length h.now.places.now }
    requires lawful { IsTrue (is_lawful h.now.decls.now named.now) }
    requires interface { IsInterface h.now.decls.now (head_of named.now) }
    requires count { length table.now ≡ length h.now.decls.now }
    ensures { (owners : List Term) → AreWays h.now.decls.now owners table.now →
        (o : ℕ) (owner : Term) → slice_get owners o ≡ Some owner → IsMarked found.new o ↔ (IsMarked found.old o
        ⊎ LeadsTo h.now.decls.now (lift (envs_of h.now.decls.now chain.now) level named.now) owner) }
{
    let Term::Named { name, args } = named else {
        return;
    };
    let place = h.places[*name as usize];
    mark_met(&table[place as usize], h.decls, chain, level, args, found);
}

// The same for each interface that it names.
fn mark_level(h: &Hierarchy<'_>, chain: &[usize], level: usize, table: &[Ways], found: &mut Marks)
    requires settled { IsSettled h.now.decls.now h.now.places.now h.now.depths.now }
    requires upward { IsUpward h.now.decls.now chain.now }
    requires within { level < length chain.now }
    requires count { length table.now ≡ length h.now.decls.now }
    ensures { (owners : List Term) → AreWays h.now.decls.now owners table.now →
        (n : ℕ) → slice_get chain.now level ≡ Some n →
        (class : Decl) → slice_get h.now.decls.now n ≡ Some class →
        (o : ℕ) (owner : Term) → slice_get owners o ≡ Some owner → IsMarked found.new o ↔ (IsMarked found.old o
        ⊎ SomeOf (λ (i : Located). LeadsTo h.now.decls.now
        (lift (envs_of h.now.decls.now chain.now) level i.term) owner) class.interfaces) }
{
    let interfaces = h.decls[chain[level]].interfaces.as_slice();
    for i in 0..interfaces.len() {
        mark_named(h, chain, level, &interfaces[i].term, table, found);
    }
}

/// For each wanted one of the owners whose ways these are whether the lowest class of a chain has it: whether a class of
/// the chain names an interface that leads to it (ECMA-335, II.12.1). The marks of other owners tell nothing, and ways of
/// those alone are not compared. Takes no memory.
pub fn has_interfaces(h: &Hierarchy<'_>, chain: &[usize], table: &[Ways], wanted: &Marks) -> Marks
    requires settled { IsSettled h.now.decls.now h.now.places.now h.now.depths.now }
    requires upward { IsUpward h.now.decls.now chain.now }
    requires count { length table.now ≡ length h.now.decls.now }
    ensures { (owners : List Term) → AreWays h.now.decls.now owners table.now →
        (o : ℕ) (owner : Term) → IsMarked wanted.now o → slice_get owners o ≡ Some owner →
        IsMarked result o ↔ HasInterface h.now.decls.now chain.now owner }
{
    // An owner that isn't wanted counts as found.
    let mut found = all_but(wanted);
    for level in 0..chain.len() {
        mark_level(h, chain, level, table, &mut found);
    }
    found
}
