//! The different owners that are asked for, and the order in which questions are answered.
ghost use Rattle.std.specs.Prelude.{ℕ, ◌+◌, ◌<◌, ◌≤◌, ◌↔◌, length, Contains, IfOk, IsTrue};
ghost use Rattle.vsd_overrides.specs.Known.{AreNearFrom, AreNumbered, AreWithin, HasQuestion, IsOneClass};
ghost use Rattle.vsd_overrides.specs.declared.asked.Question.{Question};
ghost use Rattle.vsd_ways.specs.Known.{owners_at_once};

use crate::asked::Question;
use indexmap::IndexSet;
use std::alloc::{AllocError, Global};
use vsd_terms::Term;
use vsd_ways::OWNERS_AT_ONCE;

/// A question, and the number of its owner among the different owners of all questions.
#[derive(Clone, Copy)]
pub(crate) struct Numbered<'a> {
    pub(crate) question: Question<'a>,
    pub(crate) number: usize,
}

// Numbers the owner of each question, in the order in which owners are first asked for.
fn number_all<'a>(
    alloc: Global,
    asked: &[Question<'a>],
    owners: &mut IndexSet<&'a Term>,
) -> Result<Vec<Numbered<'a>>, AllocError>
    ensures numbers { (count : ℕ) → AreWithin count asked.now →
        IfOk result (λ all. AreNumbered count owners.new.keys all.items) }
    ensures each { IfOk result (λ all. (q : Question) → Contains asked.now q → HasQuestion all.items q) }
{
    let mut all = Vec::new(alloc);
    for i in 0..asked.len() {
        let question = asked[i];
        let (number, _) = owners.insert_full(question.owner)?;
        all.push(Numbered { question, number })?;
    }
    Ok(all)
}

/// The same, in the order in which they are answered: the questions for as many owners as are asked for at once stand
/// together, and among these those to one class.
pub(crate) fn by_owners<'a>(
    alloc: Global,
    asked: &[Question<'a>],
    owners: &mut IndexSet<&'a Term>,
) -> Result<Vec<Numbered<'a>>, AllocError>
    ensures numbers { (count : ℕ) → AreWithin count asked.now →
        IfOk result (λ all. AreNumbered count owners.new.keys all.items) }
    ensures each { IfOk result (λ all. (q : Question) → Contains asked.now q → HasQuestion all.items q) }
{
    let mut all = number_all(alloc, asked, owners)?;
    // The sort is stable: among those for the same owners the questions keep their order, that of the classes.
    all.sort_by_key(|n| n.number / OWNERS_AT_ONCE)?;
    Ok(all)
}

/// Where the questions to the class of the one at `from` end.
pub(crate) fn end_of_class(asked: &[Numbered<'_>], from: usize) -> usize
    requires { from < length asked.now }
    ensures after { from < result }
    ensures within { result ≤ length asked.now }
    ensures same { IsOneClass asked.now from result }
{
    let class = asked[from].question.class;
    for o in from + 1..asked.len() {
        if asked[o].question.class != class {
            return o;
        }
    }
    asked.len()
}

/// Where the questions end whose owners are asked for together with that of the one at `from`. Numbers were given in the
/// order of the questions, so of all these owners that one has the least.
pub(crate) fn end_of_owners(asked: &[Numbered<'_>], from: usize) -> usize
    requires { from < length asked.now }
    ensures after { from < result }
    ensures within { result ≤ length asked.now }
    ensures near { AreNearFrom asked.now from result }
{
    let first = asked[from].number;
    for o in from + 1..asked.len() {
        if !is_near(asked[o].number, first) {
            return o;
        }
    }
    asked.len()
}

// Whether an owner is asked for where that of number `first` is the first.
fn is_near(number: usize, first: usize) -> bool
    ensures { IsTrue result ↔ ((first ≤ number) × (number < first + owners_at_once)) }
{
    if number < first {
        return false;
    }
    number - first < OWNERS_AT_ONCE
}
