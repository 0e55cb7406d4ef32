//! Signatures of interfaces' methods, compared at the arguments of their interfaces.
ghost use Rattle.std.specs.Prelude.{◌≡◌, ◌≤◌, ◌↔◌, length, map, IfSome, IsTrue};
ghost use Rattle.std.specs.Option.{option_map};
ghost use Rattle.vsd_overrides.specs.Matched.{subst_signature};
ghost use Rattle.vsd_terms.specs.Size.{greatest};
ghost use Rattle.vsd_terms.specs.Substitution.{parameters_of, subst_of};
ghost use Rattle.vsd_terms.specs.declared.term.Term.{Term};

use vsd_ast::Signature;
use vsd_terms::{Term, Terms, is_instance};

/// Whether two signatures are one.
pub(crate) fn same_signature(a: &Signature, b: &Signature) -> bool
    ensures { IsTrue result ↔ (a.now ≡ b.now) }
{
    a.result == b.result && a.arguments.as_slice() == b.arguments.as_slice()
}

fn is_result_at(whole: &Option<Term>, t: &Option<Term>, args: &Terms) -> bool
    requires { IfSome t.now (λ (u : Term). parameters_of u ≤ length args.now) }
    ensures { IsTrue result ↔ (whole.now ≡ option_map (subst_of args.now) t.now) }
{
    match (whole, t) {
        (None, None) => true,
        (Some(whole), Some(t)) => is_instance(whole, t, args),
        _ => false,
    }
}

fn are_arguments_at(wholes: &[Term], ts: &[Term], args: &Terms) -> bool
    requires { greatest (map parameters_of ts.now) ≤ length args.now }
    ensures { IsTrue result ↔ (wholes.now ≡ map (subst_of args.now) ts.now) }
{
    if wholes.len() != ts.len() {
        return false;
    }
    for i in 0..wholes.len() {
        if !is_instance(&wholes[i], &ts[i], args) {
            return false;
        }
    }
    true
}

/// Whether the signature `s` at the arguments is `whole`.
pub(crate) fn is_signature_at(whole: &Signature, s: &Signature, args: &Terms) -> bool
    requires result_fits { IfSome s.now.result (λ (u : Term). parameters_of u ≤ length args.now) }
    requires arguments_fit { greatest (map parameters_of s.now.arguments) ≤ length args.now }
    ensures { IsTrue result ↔ (whole.now ≡ subst_signature args.now s.now) }
{
    is_result_at(&whole.result, &s.result, args)
        && are_arguments_at(whole.arguments.as_slice(), s.arguments.as_slice(), args)
}
