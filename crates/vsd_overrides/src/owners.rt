//! Whether classes have the owners of their overrides, asked for all classes at once.
ghost use Rattle.std.specs.Prelude.{◌≡◌, ℕ, ◌<◌, ◌-◌, ◌↔◌, length, List, slice_get, Some, IfOk, IsSome, IsTrue, OnOk};
ghost use Rattle.std.specs.HashMap.{get};
ghost use Rattle.vsd_ast.specs.declared.declarations.Decl.{Decl};
ghost use Rattle.vsd_lift.specs.Settled.{IsSettled};
ghost use Rattle.vsd_overrides.specs.Implements.{HasOwner};
ghost use Rattle.vsd_overrides.specs.Known.{AreKnown, AreNear, AreNearFrom, AreNumbered, IsOneClass, IsTableFor, Knows, KnowsAt, KnowsEach, TellsOf, same_question};
ghost use Rattle.vsd_overrides.specs.declared.asked.Question.{Question};
ghost use Rattle.vsd_overrides.specs.declared.numbered.Numbered.{Numbered};
ghost use Rattle.vsd_ways.specs.Known.{IsMarked};
ghost use Rattle.vsd_ways.specs.Order.{IsOrder};

use crate::asked::{Question, ask_all};
use crate::numbered::{Numbered, by_owners, end_of_class, end_of_owners};
use indexmap::IndexSet;
use std::alloc::{AllocError, Global};
use std::collections::HashMap;
use vsd_lift::{Hierarchy, chain};
use vsd_terms::Term;
use vsd_ways::{Marks, OWNERS_AT_ONCE, Ways, all_ways, has_interfaces, upward_order};

/// Whether a class has an owner, where something is known of that.
pub(crate) fn is_had<'a>(known: &HashMap<Question<'a>, bool>, question: Question<'a>) -> bool
    ensures { (ds : List Decl) → AreKnown ds (get same_question known.now) →
        Knows (get same_question known.now) question.entry.class question.entry.owner.now →
        (IsTrue result ↔ HasOwner ds question.entry.class question.entry.owner.now) }
{
    known.get(&question).copied().unwrap_or(false)
}

// Marks the owners of these questions. The first mark is that of the owner of number `first`.
fn wanted(asked: &[Numbered<'_>], first: usize) -> Marks
    requires near { AreNear first asked.now }
    ensures { (o : ℕ) (n : Numbered) → slice_get asked.now o ≡ Some n → IsMarked result (n.number - first) }
{
    let mut marks = [false; OWNERS_AT_ONCE];
    for o in 0..asked.len() {
        marks[asked[o].number - first] = true;
    }
    marks
}

// Makes known which of the owners that are asked for are had: those that are marked.
fn tell<'a>(
    asked: &[Numbered<'a>],
    first: usize,
    had: &Marks,
    known: &mut HashMap<Question<'a>, bool>,
) -> Result<(), AllocError>
    requires near { AreNear first asked.now }
    ensures known { OnOk result ((ds : List Decl) → AreKnown ds (get same_question known.old) →
        TellsOf ds asked.now first had.now → AreKnown ds (get same_question known.new)) }
    ensures each { OnOk result ((o : ℕ) → KnowsAt (get same_question known.new) asked.now o) }
    ensures before { OnOk result ((q : Question) →
        IsSome (get same_question known.old q) → IsSome (get same_question known.new q)) }
{
    for o in 0..asked.len() {
        let n = asked[o];
        known.insert(n.question, had[n.number - first])?;
    }
    Ok(())
}

// Answers questions to one class, by the ways of the owners from the one of number `first` on.
fn find_class<'a>(
    alloc: Global,
    h: &Hierarchy<'_>,
    asked: &[Numbered<'a>],
    first: usize,
    table: &[Ways],
    known: &mut HashMap<Question<'a>, bool>,
) -> Result<(), AllocError>
    requires settled { IsSettled h.now.decls.now h.now.places.now h.now.depths.now }
    requires some { 0 < length asked.now }
    requires same { IsOneClass asked.now 0 (length asked.now) }
    requires table { IsTableFor h.now.decls.now asked.now first table.now }
    requires known { AreKnown h.now.decls.now (get same_question known.old) }
    ensures known { OnOk result (AreKnown h.now.decls.now (get same_question known.new)) }
    ensures each { OnOk result ((o : ℕ) → KnowsAt (get same_question known.new) asked.now o) }
    ensures before { OnOk result ((q : Question) →
        IsSome (get same_question known.old q) → IsSome (get same_question known.new q)) }
{
    let upward = chain(alloc, h, asked[0].question.class)?;
    let marks = wanted(asked, first);
    let had = has_interfaces(h, upward.as_slice(), table, &marks);
    tell(asked, first, &had, known)
}

// Answers questions for as many owners as are asked for at once, those to one class together.
fn find<'a>(
    alloc: Global,
    h: &Hierarchy<'_>,
    order: &[u16],
    owners: &[&Term],
    asked: &[Numbered<'a>],
    known: &mut HashMap<Question<'a>, bool>,
) -> Result<(), AllocError>
    requires settled { IsSettled h.now.decls.now h.now.places.now h.now.depths.now }
    requires order { IsOrder (length h.now.decls.now) h.now.depths.now order.now }
    requires numbered { AreNumbered (length h.now.decls.now) owners.now asked.now }
    requires some { 0 < length asked.now }
    requires near { AreNearFrom asked.now 0 (length asked.now) }
    requires known { AreKnown h.now.decls.now (get same_question known.old) }
    ensures known { OnOk result (AreKnown h.now.decls.now (get same_question known.new)) }
    ensures each { OnOk result ((o : ℕ) → KnowsAt (get same_question known.new) asked.now o) }
    ensures before { OnOk result ((q : Question) →
        IsSome (get same_question known.old q) → IsSome (get same_question known.new q)) }
{
    let first = asked[0].number;
    let table = all_ways(alloc, h, order, &owners[first..])?;
    let mut from = 0;
    while from < asked.len() {
        let to = end_of_class(asked, from);
        find_class(alloc, h, &asked[from..to], first, table.as_slice(), known)?;
        from = to;
    }
    Ok(())
}

// The same of all questions.
fn find_all<'a>(
    alloc: Global,
    h: &Hierarchy<'_>,
    owners: &[&Term],
    asked: &[Numbered<'a>],
    known: &mut HashMap<Question<'a>, bool>,
) -> Result<(), AllocError>
    requires settled { IsSettled h.now.decls.now h.now.places.now h.now.depths.now }
    requires numbered { AreNumbered (length h.now.decls.now) owners.now asked.now }
    requires known { AreKnown h.now.decls.now (get same_question known.old) }
    ensures known { OnOk result (AreKnown h.now.decls.now (get same_question known.new)) }
    ensures each { OnOk result ((o : ℕ) → KnowsAt (get same_question known.new) asked.now o) }
    ensures before { OnOk result ((q : Question) →
        IsSome (get same_question known.old q) → IsSome (get same_question known.new q)) }
{
    let order = upward_order(alloc, h.depths)?;
    let mut from = 0;
    while from < asked.len() {
        let to = end_of_owners(asked, from);
        find(alloc, h, order.as_slice(), owners, &asked[from..to], known)?;
        from = to;
    }
    Ok(())
}

/// Of the owner of each override of each class whether the class has it. No ways are needed where classes name all of
/// theirs, as most do.
pub(crate) fn owners_had<'a>(
    alloc: Global,
    h: &Hierarchy<'a>,
) -> Result<HashMap<Question<'a>, bool>, AllocError>
    requires settled { IsSettled h.now.decls.now h.now.places.now h.now.depths.now }
    ensures known { IfOk result (λ known. AreKnown h.now.decls.now (get same_question known)) }
    ensures each { IfOk result (λ known. (n : ℕ) (x : Decl) → slice_get h.now.decls.now n ≡ Some x →
        KnowsEach (get same_question known) n x.overrides) }
{
    let mut known = HashMap::new(alloc);
    let mut asked = IndexSet::new(alloc);
    ask_all(alloc, h, &mut asked, &mut known)?;
    let mut owners = IndexSet::new(alloc);
    let all = by_owners(alloc, asked.as_slice(), &mut owners)?;
    find_all(alloc, h, owners.as_slice(), all.as_slice(), &mut known)?;
    Ok(known)
}
