//! Signatures, compared.
ghost use Rattle.std.specs.Prelude.{◌≡◌, ◌≤◌, ◌↔◌, All, IfSome, IsTrue, length, map};
ghost use Rattle.std.specs.Cmp.Lexicographic.{pointwise};
ghost use Rattle.std.specs.Option.{option_eq, option_map};
ghost use Rattle.vsd_terms.specs.Equality.{term_eq};
ghost use Rattle.vsd_terms.specs.Substitution.{parameters_of, subst_of};
ghost use Rattle.vsd_methods.specs.Methods.{Fits, same_signature, signature_at};

use vsd_ast::Signature;
use vsd_terms::{Term, Terms, is_instance, same_under};

// No result is `void`.
fn same_result(a: &Option<Term>, b: &Option<Term>) -> bool
    ensures { result ≡ option_eq term_eq a.now b.now }
{
    match (a, b) {
        (None, None) => true,
        (Some(x), Some(y)) => x == y,
        _ => false,
    }
}

/// Whether two signatures are one.
pub(crate) fn same_signature(a: &Signature, b: &Signature) -> bool
    ensures { result ≡ same_signature a.now b.now }
{
    same_result(&a.result, &b.result) && a.arguments.as_slice() == b.arguments.as_slice()
}

// Whether a result at arguments is the other one.
fn is_result_at(whole: &Option<Term>, t: &Option<Term>, args: &Terms) -> bool
    requires { IfSome t.now (λ t. parameters_of t ≤ length args.now) }
    ensures { IsTrue result ↔ (option_map (subst_of args.now) t.now ≡ whole.now) }
{
    match (whole, t) {
        (None, None) => true,
        (Some(x), Some(y)) => is_instance(x, y, args),
        _ => false,
    }
}

// Whether terms at arguments are the others, one by one.
fn are_terms_at(wholes: &[Term], ts: &[Term], args: &Terms) -> bool
    requires { All (λ t. parameters_of t ≤ length args.now) ts.now }
    ensures { IsTrue result ↔ (map (subst_of args.now) ts.now ≡ wholes.now) }
{
    if wholes.len() != ts.len() {
        return false;
    }
    for i in 0..ts.len() {
        if !is_instance(&wholes[i], &ts[i], args) {
            return false;
        }
    }
    true
}

/// Whether a signature at arguments is the other one.
pub(crate) fn is_signature_at(whole: &Signature, s: &Signature, args: &Terms) -> bool
    requires { Fits (length args.now) s.now }
    ensures { IsTrue result ↔ (signature_at args.now s.now ≡ whole.now) }
{
    is_result_at(&whole.result, &s.result, args)
        && are_terms_at(whole.arguments.as_slice(), s.arguments.as_slice(), args)
}

fn same_result_under(x: &Option<Term>, x_args: &Terms, y: &Option<Term>, y_args: &Terms) -> bool
    requires x_fits { IfSome x.now (λ t. parameters_of t ≤ length x_args.now) }
    requires y_fits { IfSome y.now (λ t. parameters_of t ≤ length y_args.now) }
    ensures { IsTrue result ↔ (option_map (subst_of x_args.now) x.now ≡ option_map (subst_of y_args.now) y.now) }
{
    match (x, y) {
        (None, None) => true,
        (Some(a), Some(b)) => same_under(a, x_args, b, y_args),
        _ => false,
    }
}

fn same_terms_under(xs: &[Term], x_args: &Terms, ys: &[Term], y_args: &Terms) -> bool
    requires xs_fit { All (λ t. parameters_of t ≤ length x_args.now) xs.now }
    requires ys_fit { All (λ t. parameters_of t ≤ length y_args.now) ys.now }
    ensures { IsTrue result ↔ (map (subst_of x_args.now) xs.now ≡ map (subst_of y_args.now) ys.now) }
{
    if xs.len() != ys.len() {
        return false;
    }
    for i in 0..xs.len() {
        if !same_under(&xs[i], x_args, &ys[i], y_args) {
            return false;
        }
    }
    true
}

/// Whether two signatures are one at the arguments of each.
pub(crate) fn same_signature_under(
    a: &Signature,
    a_args: &Terms,
    b: &Signature,
    b_args: &Terms,
) -> bool
    requires a_fits { Fits (length a_args.now) a.now }
    requires b_fits { Fits (length b_args.now) b.now }
    ensures { result ≡ same_signature (signature_at a_args.now a.now) (signature_at b_args.now b.now) }
{
    same_result_under(&a.result, a_args, &b.result, b_args)
        && same_terms_under(
            a.arguments.as_slice(),
            a_args,
            b.arguments.as_slice(),
            b_args,
        )
}
