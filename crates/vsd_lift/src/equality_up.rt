//! Equality of a term with an inherited one, without making the inherited one.
ghost use Rattle.std.specs.Prelude.{◌≡◌, ◌≤◌, ◌↔◌, length, map, IsTrue};
ghost use Rattle.vsd_lift.specs.Chain.{envs_of};
ghost use Rattle.vsd_lift.specs.Lift.{lift, AllFit, Fits, IsLadder};

use crate::resolve;
use vsd_ast::Decl;
use vsd_terms::{Term, Terms};

/// Whether `a`, of the class at level 0, is `b`, of the class at `level`, after the arguments of each `extends` between
/// are put in.
#[cycle(same_up)]
pub fn same_up(a: &Term, decls: &[Decl], chain: &[usize], level: usize, b: &Term) -> bool
    requires ladder { IsLadder decls.now chain.now }
    requires within { level ≤ length chain.now }
    requires fits { Fits (envs_of decls.now chain.now) level b.now }
    ensures { IsTrue result ↔ (a.now ≡ lift (envs_of decls.now chain.now) level b.now) }
{
    let stood = resolve(decls, chain, level, b);
    match (a, stood.term) {
        (Term::Builtin(x), Term::Builtin(y)) => *x == *y,
        (Term::Param(x), Term::Param(y)) => *x == *y,
        (Term::Named { name: x, args: xs }, Term::Named { name: y, args: ys }) => {
            *x == *y && all_same_up(xs, decls, chain, stood.level, ys)
        }
        _ => false,
    }
}

/// Whether `xs` are as many as `ys`, and each is the other one, as [`same_up`] compares them.
#[cycle(same_up)]
pub fn all_same_up(xs: &Terms, decls: &[Decl], chain: &[usize], level: usize, ys: &Terms) -> bool
    requires ladder { IsLadder decls.now chain.now }
    requires within { level ≤ length chain.now }
    requires fit { AllFit (envs_of decls.now chain.now) level ys.now }
    ensures { IsTrue result ↔ (xs.now ≡ map (lift (envs_of decls.now chain.now) level) ys.now) }
{
    let xs = xs.as_slice();
    let ys = ys.as_slice();
    if xs.len() != ys.len() {
        return false;
    }
    for i in 0..xs.len() {
        if !same_up(&xs[i], decls, chain, level, &ys[i]) {
            return false;
        }
    }
    true
}
