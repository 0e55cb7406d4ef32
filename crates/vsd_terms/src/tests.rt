//! Tests of what no clause says.
use super::*;
use indexmap::IndexSet;
use std::alloc::{AllocError, Global};
use std::test::Fail;

fn wrapped(alloc: Global, name: u16, inner: Term) -> Result<Term, AllocError> {
    let mut args = Terms::new(alloc);
    args.push(inner)?;
    Ok(Term::Named { name, args })
}

// `depth` named types around a parameter.
fn nested(alloc: Global, depth: u16) -> Result<Term, AllocError> {
    let mut term = Term::Param(0);
    for name in 0..depth {
        term = wrapped(alloc, name, term)?;
    }
    Ok(term)
}

#[test]
fn measures_a_deep_term(rt: HostRuntime) -> Result<(), Fail> {
    let deep = nested(rt.alloc(), 1000)?;
    assert_eq!(rt; levels(&deep), 1001);
    assert_eq!(rt; nodes(&deep), 1001);
    let mut args = Terms::new(rt.alloc());
    args.push(nested(rt.alloc(), 3)?)?;
    args.push(Term::Builtin(Builtin::Int32))?;
    let wide = Term::Named { name: 7, args };
    assert_eq!(rt; levels(&wide), 5);
    assert_eq!(rt; nodes(&wide), 6);
    Ok(())
}

#[test]
fn finds_terms_by_their_trees(rt: HostRuntime) -> Result<(), Fail> {
    let mut terms = IndexSet::new(rt.alloc());
    for depth in 0..100 {
        assert!(rt; terms.insert(nested(rt.alloc(), depth)?)?);
    }
    assert!(rt; !terms.insert(nested(rt.alloc(), 40)?)?);
    assert_eq!(rt; place_of(&terms, &nested(rt.alloc(), 77)?), Some(77));
    assert_eq!(rt; place_of(&terms, &nested(rt.alloc(), 100)?), None);
    assert_eq!(rt; place_of(&terms, &Term::Builtin(Builtin::Object)), None);
    Ok(())
}

#[test]
fn numbers_names_up_to_the_limit(rt: HostRuntime) -> Result<(), Fail> {
    let mut names = Names::new(rt.alloc());
    for i in 0..2048u16 {
        assert!(rt; names.number(&i.to_le_bytes()) == Ok(i));
    }
    assert_eq!(rt; names.len(), 2048);
    assert!(rt; names.number(&7u16.to_le_bytes()) == Ok(7));
    assert!(rt; names.number(b"more") == Err(NamesError::Full));
    assert_eq!(rt; names.find(b"more"), None);
    assert!(rt; names.name(2047) == 2047u16.to_le_bytes().as_slice());
    Ok(())
}

// `name<!0, name<System.ValueType>>`.
fn open_pair(alloc: Global, name: u16) -> Result<Term, AllocError> {
    let mut args = Terms::new(alloc);
    args.push(Term::Param(0))?;
    args.push(wrapped(alloc, name, Term::Builtin(Builtin::ValueType))?)?;
    Ok(Term::Named { name, args })
}

fn one(alloc: Global, term: Term) -> Result<Terms, AllocError> {
    let mut terms = Terms::new(alloc);
    terms.push(term)?;
    Ok(terms)
}

#[test]
fn puts_arguments_in(rt: HostRuntime) -> Result<(), Fail> {
    let open = open_pair(rt.alloc(), 7)?;
    let args = one(rt.alloc(), Term::Builtin(Builtin::Int8))?;
    let place = Term::Param(0);
    assert!(rt; parameters(&open) as usize <= args.len());
    assert!(rt; parameters(&place) as usize <= args.len());
    let closed = subst(rt.alloc(), &open, &args)?;
    assert!(rt; parameters(&closed) == 0);
    assert!(rt; is_instance(&closed, &open, &args));
    assert!(rt; same_under(&open, &args, &open, &args));
    assert!(rt; !same_under(&open, &args, &place, &args));
    Ok(())
}

#[test]
fn prints_arguments_in_brackets(rt: HostRuntime) -> Result<(), Fail> {
    let mut names = Names::new(rt.alloc());
    let pair = names.number(b"Pair`2")?;
    let args = one(rt.alloc(), Term::Builtin(Builtin::Int8))?;
    let open = open_pair(rt.alloc(), pair)?;
    assert!(rt; parameters(&open) as usize <= args.len());
    let closed = subst(rt.alloc(), &open, &args)?;
    assert!(rt; parameters(&closed) == 0);
    assert!(rt; names_needed(&closed) as usize <= names.len());
    let text = print(rt.alloc(), &closed, &names)?;
    assert!(rt; text.as_slice() == b"Pair`2<int8,Pair`2<System.ValueType>>".as_slice());
    Ok(())
}
