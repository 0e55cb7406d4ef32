//! Tests of what no clause says.
ghost use Rattle.std.specs.Prelude.{◌≡◌, ◌∷◌, [], IfOk, length};
ghost use Rattle.vsd_ast.specs.Scripts.{IsWellFormedScript};
ghost use Rattle.std.proofs.Common.{zero, suc, ◌<◌, ◌^◌, slice_index, lit<};

use super::*;
use sqlite_items::Items;
use std::alloc::{AllocError, Global};
use std::test::Fail;
use vsd_ast::{Bytes, Host, Lane, Op, Script, Site, Var};
use vsd_rule::Resolver;
use vsd_terms::{Builtin, Term, Terms};

const TARGETS: [u32; 2] = [1, 2];

const FITS: [u32; 4] = [1, 0, 1, 1];

/// Two types and one token. The second type is compatible with the first.
struct Pairs;

impl Resolver for Pairs {
    ghost types = { λ _. 2 };

    ghost tokens = { λ _. 1 };

    ghost sel = { λ _. 1 ∷ 2 ∷ [] };

    ghost cmp = { λ _. 1 ∷ 0 ∷ 1 ∷ 1 ∷ [] };

    fn select(&self, t: u16, k: u16) -> u32 {
        TARGETS[usize::from(t) + usize::from(k)]
    }

    fn compat(&self, t: u16, u: u16) -> bool {
        FITS[usize::from(t) * 2 + usize::from(u)] == 1
    }

    ghost targets_fit = { λ _ i. elim i as (λ n. slice_index (1 ∷ 2 ∷ []) n < 2 ^ 32)
        [ zero ↦ lit< tt | suc a ↦ elim a as (λ n. slice_index (2 ∷ []) n < 2 ^ 32) [ zero ↦ lit< tt | suc b ↦ lit< tt ] ] };

    ghost answers_are_bits = { λ _ i. elim i as (λ n. slice_index (1 ∷ 0 ∷ 1 ∷ 1 ∷ []) n < 2) [
      | zero ↦ lit< tt
      | suc a ↦ elim a as (λ n. slice_index (0 ∷ 1 ∷ 1 ∷ []) n < 2) [
        | zero ↦ lit< tt
        | suc b ↦ elim b as (λ n. slice_index (1 ∷ 1 ∷ []) n < 2)
            [ zero ↦ lit< tt | suc c ↦ elim c as (λ n. slice_index (1 ∷ []) n < 2) [ zero ↦ lit< tt | suc d ↦ lit< tt ] ]
      ]
    ] };
}

/// Three roots, of which the first is an interface's.
fn roots(alloc: Global) -> Result<Terms, AllocError>
    ensures { IfOk result (λ roots. length roots ≡ 3) }
{
    let mut roots = Terms::new(alloc);
    roots.push(Term::Builtin(Builtin::Object))?;
    roots.push(Term::Builtin(Builtin::Object))?;
    roots.push(Term::Builtin(Builtin::String))?;
    Ok(roots)
}

/// A list of one thing.
fn one<T: Drop>(alloc: Global, thing: T) -> Result<Items<T>, AllocError>
    ensures { IfOk result (λ things. things ≡ thing ∷ []) }
{
    let mut things = Items::new(alloc);
    things.push(thing)?;
    Ok(things)
}

/// A script whose lane loads two types into one variable, one after the other, and calls and casts each.
fn two_loads(alloc: Global) -> Result<Script, AllocError>
    ensures lawful { IfOk result (λ script. IsWellFormedScript script) }
    ensures counts { IfOk result (λ script. (length script.roots ≡ 3) × (length script.sites ≡ 1)) }
{
    let site = Site {
        name: Bytes::from_slice(alloc, b"s")?,
        root: 0,
        slot: 0,
    };
    let host = Host {
        name: Bytes::from_slice(alloc, b"a")?,
        root: 1,
    };
    let x = Var::Own(0);
    let a = Var::Host(0);
    let ops = [
        Op::Load {
            variable: 0,
            root: 1,
        },
        Op::Call { site: 0, object: x },
        Op::Unload { variable: 0 },
        Op::Load {
            variable: 0,
            root: 2,
        },
        Op::Call { site: 0, object: x },
        Op::Cast {
            source: x,
            target: a,
        },
        Op::Cast {
            source: a,
            target: x,
        },
    ];
    let lane = Lane {
        names: one(alloc, Bytes::from_slice(alloc, b"x")?)?,
        ops: Items::from_slice(alloc, &ops)?,
    };
    Ok(Script {
        roots: roots(alloc)?,
        sites: one(alloc, site)?,
        hosts: one(alloc, host)?,
        lanes: one(alloc, lane)?,
    })
}

#[test]
fn a_variable_names_what_it_loaded_last(rt: HostRuntime) -> Result<(), Fail> {
    let alloc = rt.alloc();
    let script = two_loads(alloc)?;
    let answers = answer_lanes(alloc, &script, &[0, 0, 1], &[0], &Pairs)?;
    assert!(rt; answers.len() == 1);
    assert_eq!(rt; answers[0].as_slice(), [1, 2, 1, 0].as_slice());
    Ok(())
}

#[test]
fn a_pair_keeps_its_first_number(rt: HostRuntime) -> Result<(), Fail> {
    let tokens = number_tokens(rt.alloc(), &[(4, 1), (2, 0), (4, 1), (2, 1), (2, 0)])?;
    assert_eq!(rt; tokens.list.as_slice(), [(4, 1), (2, 0), (2, 1)].as_slice());
    assert_eq!(rt; tokens.sites.as_slice(), [0, 1, 0, 2, 1].as_slice());
    Ok(())
}
