//! Signatures, compared along a chain.
ghost use Rattle.std.specs.Prelude.{◌≡◌, ◌≤◌, ◌↔◌, length, option_map, IsTrue, IfSome};
ghost use Rattle.vsd_lift.specs.Chain.{envs_of};
ghost use Rattle.vsd_lift.specs.Lift.{lift, lift_signature, AllFit, Fits, IsLadder};

use crate::{all_same_up, same_up};
use vsd_ast::{Decl, Signature};
use vsd_terms::Term;

/// Whether the signature `a`, of the class at level 0, is `b`, of the class at `level`: whether results and arguments
/// are, as [`same_up`] compares them.
pub fn same_signature_up(
    a: &Signature,
    decls: &[Decl],
    chain: &[usize],
    level: usize,
    b: &Signature,
) -> bool
    requires ladder { IsLadder decls.now chain.now }
    requires within { level ≤ length chain.now }
    requires result_fits { IfSome b.now.result (Fits (envs_of decls.now chain.now) level) }
    requires arguments_fit { AllFit (envs_of decls.now chain.now) level b.now.arguments }
    ensures { IsTrue result ↔ (a.now ≡ lift_signature (envs_of decls.now chain.now) level b.now) }
{
    same_result_up(&a.result, decls, chain, level, &b.result)
        && all_same_up(&a.arguments, decls, chain, level, &b.arguments)
}

// No result is `void`.
fn same_result_up(
    a: &Option<Term>,
    decls: &[Decl],
    chain: &[usize],
    level: usize,
    b: &Option<Term>,
) -> bool
    requires ladder { IsLadder decls.now chain.now }
    requires within { level ≤ length chain.now }
    requires fits { IfSome b.now (Fits (envs_of decls.now chain.now) level) }
    ensures { IsTrue result ↔ (a.now ≡ option_map (lift (envs_of decls.now chain.now) level) b.now) }
{
    match (a, b) {
        (None, None) => true,
        (Some(x), Some(y)) => same_up(x, decls, chain, level, y),
        _ => false,
    }
}
