//! What arguments have to be for a term to be a part of the owner.
ghost use Rattle.std.specs.Prelude.{◌≡◌, ◌<◌, ◌≤◌, ◌↔◌, List, Some, None, length, map, slice_get, IfOk, IsTrue};
ghost use Rattle.std.specs.Vec.{vec_len};
ghost use Rattle.vsd_terms.specs.declared.term.Term.{Term};
ghost use Rattle.vsd_terms.specs.Size.{greatest};
ghost use Rattle.vsd_terms.specs.Substitution.{parameters_of, subst_of};
ghost use Rattle.vsd_ways.specs.Known.{Meets, MeetsSome, Wants};

use crate::Known;
use std::alloc::{AllocError, Global};
use vsd_terms::{Term, Terms, copy, same};

// Makes known that the argument at a place is `whole`. False where another is known of it.
fn settle(alloc: Global, place: usize, whole: &Term, known: &mut Known) -> Result<bool, AllocError>
    requires { place < length known.old.items }
    ensures long { IfOk result (λ able. length known.new.items ≡ length known.old.items) }
    ensures exact { IfOk result (λ able. (args : List Term) →
        (IsTrue able × Meets known.new.items args)
        ↔ (Meets known.old.items args × (slice_get args place ≡ Some whole.now))) }
{
    if let Some(t) = &known[place] {
        return Ok(same(t, whole));
    }
    let made = copy(alloc, whole)?;
    known[place] = Some(made);
    Ok(true)
}

// Makes known what the arguments have to be for `pattern` at them to be `whole`. False where nothing would do.
#[cycle(bind)]
fn bind(alloc: Global, pattern: &Term, whole: &Term, known: &mut Known) -> Result<bool, AllocError>
    requires { parameters_of pattern.now ≤ length known.old.items }
    ensures long { IfOk result (λ able. length known.new.items ≡ length known.old.items) }
    ensures exact { IfOk result (λ able. (args : List Term) →
        (IsTrue able × Meets known.new.items args)
        ↔ (Meets known.old.items args × (subst_of args pattern.now ≡ whole.now))) }
{
    match (pattern, whole) {
        (Term::Param(place), _) => settle(alloc, *place as usize, whole, known),
        (Term::Builtin(x), Term::Builtin(y)) => Ok(*x == *y),
        (Term::Named { name: x, args: xs }, Term::Named { name: y, args: ys }) => {
            if *x == *y {
                bind_all(alloc, xs, ys, known)
            } else {
                Ok(false)
            }
        }
        _ => Ok(false),
    }
}

#[cycle(bind)]
fn bind_all(
    alloc: Global,
    patterns: &Terms,
    wholes: &Terms,
    known: &mut Known,
) -> Result<bool, AllocError>
    requires { greatest (map parameters_of patterns.now) ≤ length known.old.items }
    ensures long { IfOk result (λ able. length known.new.items ≡ length known.old.items) }
    ensures exact { IfOk result (λ able. (args : List Term) →
        (IsTrue able × Meets known.new.items args)
        ↔ (Meets known.old.items args × (map (subst_of args) patterns.now ≡ wholes.now))) }
{
    let patterns = patterns.as_slice();
    let wholes = wholes.as_slice();
    if patterns.len() != wholes.len() {
        return Ok(false);
    }
    for i in 0..patterns.len() {
        if !bind(alloc, &patterns[i], &wholes[i], known)? {
            return Ok(false);
        }
    }
    Ok(true)
}

// The same for what is wanted of a term.
fn bind_wanted(
    alloc: Global,
    pattern: &Term,
    wanted: &Option<Term>,
    known: &mut Known,
) -> Result<bool, AllocError>
    requires { parameters_of pattern.now ≤ length known.old.items }
    ensures long { IfOk result (λ able. length known.new.items ≡ length known.old.items) }
    ensures exact { IfOk result (λ able. (args : List Term) →
        (IsTrue able × Meets known.new.items args)
        ↔ (Meets known.old.items args × Wants wanted.now (subst_of args pattern.now))) }
{
    match wanted {
        Some(whole) => bind(alloc, pattern, whole, known),
        None => Ok(true),
    }
}

// Nothing, of so many arguments.
fn unknown(alloc: Global, count: usize) -> Result<Known, AllocError>
    ensures long { IfOk result (λ known. length known.items ≡ count) }
    ensures any { IfOk result (λ known.
        (args : List Term) → length args ≡ count → Meets known.items args) }
{
    let mut known = Vec::new(alloc);
    for _ in 0..count {
        known.push(None)?;
    }
    Ok(known)
}

/// All of the arguments.
pub(crate) fn all_known(alloc: Global, args: &[Term]) -> Result<Known, AllocError>
    ensures { IfOk result (λ known.
        (others : List Term) → Meets known.items others ↔ (others ≡ args.now)) }
{
    let mut known = Vec::new(alloc);
    for arg in args {
        known.push(Some(copy(alloc, arg)?))?;
    }
    Ok(known)
}

/// What so many arguments have to be for `patterns` at them to meet what is wanted. None where nothing would do.
pub(crate) fn back(
    alloc: Global,
    parameters: usize,
    patterns: &[Term],
    wanted: &[Option<Term>],
) -> Result<Option<Known>, AllocError>
    requires { greatest (map parameters_of patterns.now) ≤ parameters }
    ensures { IfOk result (λ found. (args : List Term) → length args ≡ parameters →
        MeetsSome found args ↔ Meets wanted.now (map (subst_of args) patterns.now)) }
{
    if patterns.len() != wanted.len() {
        return Ok(None);
    }
    let mut known = unknown(alloc, parameters)?;
    for i in 0..wanted.len() {
        if !bind_wanted(alloc, &patterns[i], &wanted[i], &mut known)? {
            return Ok(None);
        }
    }
    Ok(Some(known))
}
