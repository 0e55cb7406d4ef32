//! Which classes are asked whether they have an owner: those that, with the classes above them, name it nowhere.
ghost use Rattle.std.specs.Prelude.{◌≡◌, ℕ, ◌<◌, length, slice_get, Some, IsTrue, OnOk};
ghost use Rattle.std.specs.HashMap.{get};
ghost use Rattle.std.specs.HashSet.{contains};
ghost use Rattle.vsd_ast.specs.declared.declarations.Decl.{Decl};
ghost use Rattle.vsd_lift.specs.Chain.{IsChain};
ghost use Rattle.vsd_lift.specs.Settled.{IsSettled};
ghost use Rattle.vsd_overrides.specs.Known.{AreAskedOrKnown, AreKnown, AreWithin, IsAskedOrKnown, same_question};
ghost use Rattle.vsd_overrides.specs.declared.asked.Question.{Question};
ghost use Rattle.vsd_ways.specs.Leads.{HasInterface, IsUpward};

use indexmap::IndexSet;
use std::alloc::{AllocError, Global};
use std::collections::HashMap;
use vsd_lift::{Hierarchy, chain, same_up};
use vsd_terms::Term;

/// Whether the class, by the number of its declaration, has the owner.
#[derive(Clone, Copy, PartialEq, Eq, Hash)]
pub(crate) struct Question<'a> {
    pub(crate) class: usize,
    pub(crate) owner: &'a Term,
}

// Whether the class at a level names the owner itself.
fn names_at(h: &Hierarchy<'_>, chain: &[usize], level: usize, owner: &Term) -> bool
    requires settled { IsSettled h.now.decls.now h.now.places.now h.now.depths.now }
    requires upward { IsUpward h.now.decls.now chain.now }
    requires within { level < length chain.now }
    ensures { IsTrue result → HasInterface h.now.decls.now chain.now owner.now }
{
    let interfaces = h.decls[chain[level]].interfaces.as_slice();
    for i in 0..interfaces.len() {
        if same_up(owner, h.decls, chain, level, &interfaces[i].term) {
            return true;
        }
    }
    false
}

// Whether a class of the chain names the owner itself, as most do. No ways are needed then.
fn names(h: &Hierarchy<'_>, chain: &[usize], owner: &Term) -> bool
    requires settled { IsSettled h.now.decls.now h.now.places.now h.now.depths.now }
    requires upward { IsUpward h.now.decls.now chain.now }
    ensures { IsTrue result → HasInterface h.now.decls.now chain.now owner.now }
{
    for level in 0..chain.len() {
        if names_at(h, chain, level, owner) {
            return true;
        }
    }
    false
}

// Asks a question, or knows that the answer is yes, where a class of the chain names the owner.
fn ask<'a>(
    h: &Hierarchy<'_>,
    chain: &[usize],
    question: Question<'a>,
    asked: &mut IndexSet<Question<'a>>,
    known: &mut HashMap<Question<'a>, bool>,
) -> Result<(), AllocError>
    requires settled { IsSettled h.now.decls.now h.now.places.now h.now.depths.now }
    requires within { question.class < length h.now.decls.now }
    requires chained { IsChain h.now.decls.now question.class chain.now }
    requires known { AreKnown h.now.decls.now (get same_question known.old) }
    requires asked { AreWithin (length h.now.decls.now) asked.old.keys }
    ensures known { OnOk result (AreKnown h.now.decls.now (get same_question known.new)) }
    ensures asked { OnOk result (AreWithin (length h.now.decls.now) asked.new.keys) }
    ensures here { OnOk result ((q : Question) → q.class ≡ question.entry.class → q.owner.now ≡ question.entry.owner.now →
        IsAskedOrKnown (contains same_question asked.new) (get same_question known.new) q) }
    ensures before { OnOk result ((q : Question) →
        IsAskedOrKnown (contains same_question asked.old) (get same_question known.old) q →
        IsAskedOrKnown (contains same_question asked.new) (get same_question known.new) q) }
{
    if known.contains_key(&question) {
        return Ok(());
    }
    if asked.contains(&question) {
        return Ok(());
    }
    if names(h, chain, question.owner) {
        known.insert(question, true)?;
        return Ok(());
    }
    asked.insert(question)?;
    Ok(())
}

// The same of the owner of each override of a class. There is no walk upward where it has no override.
fn ask_class<'a>(
    alloc: Global,
    h: &Hierarchy<'a>,
    at: usize,
    asked: &mut IndexSet<Question<'a>>,
    known: &mut HashMap<Question<'a>, bool>,
) -> Result<(), AllocError>
    requires settled { IsSettled h.now.decls.now h.now.places.now h.now.depths.now }
    requires within { at < length h.now.decls.now }
    requires known { AreKnown h.now.decls.now (get same_question known.old) }
    requires asked { AreWithin (length h.now.decls.now) asked.old.keys }
    ensures known { OnOk result (AreKnown h.now.decls.now (get same_question known.new)) }
    ensures asked { OnOk result (AreWithin (length h.now.decls.now) asked.new.keys) }
    ensures each { OnOk result ((x : Decl) → slice_get h.now.decls.now at ≡ Some x →
        AreAskedOrKnown (contains same_question asked.new) (get same_question known.new) at x.overrides) }
    ensures before { OnOk result ((q : Question) →
        IsAskedOrKnown (contains same_question asked.old) (get same_question known.old) q →
        IsAskedOrKnown (contains same_question asked.new) (get same_question known.new) q) }
{
    let overrides = h.decls[at].overrides.as_slice();
    if overrides.is_empty() {
        return Ok(());
    }
    let upward = chain(alloc, h, at)?;
    for i in 0..overrides.len() {
        let question = Question {
            class: at,
            owner: &overrides[i].owner,
        };
        ask(h, upward.as_slice(), question, asked, known)?;
    }
    Ok(())
}

/// Of the owner of each override of each class either asks whether the class has it, or knows.
pub(crate) fn ask_all<'a>(
    alloc: Global,
    h: &Hierarchy<'a>,
    asked: &mut IndexSet<Question<'a>>,
    known: &mut HashMap<Question<'a>, bool>,
) -> Result<(), AllocError>
    requires settled { IsSettled h.now.decls.now h.now.places.now h.now.depths.now }
    requires known { AreKnown h.now.decls.now (get same_question known.old) }
    requires asked { AreWithin (length h.now.decls.now) asked.old.keys }
    ensures known { OnOk result (AreKnown h.now.decls.now (get same_question known.new)) }
    ensures asked { OnOk result (AreWithin (length h.now.decls.now) asked.new.keys) }
    ensures each { OnOk result ((n : ℕ) (x : Decl) → slice_get h.now.decls.now n ≡ Some x →
        AreAskedOrKnown (contains same_question asked.new) (get same_question known.new) n x.overrides) }
{
    for at in 0..h.decls.len() {
        ask_class(alloc, h, at, asked, known)?;
    }
    Ok(())
}
