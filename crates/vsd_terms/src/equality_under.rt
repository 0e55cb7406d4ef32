//! Equality of terms after substitution, without making the terms.
ghost use Rattle.std.specs.Prelude.{◌≡◌, ◌≤◌, ◌↔◌, length, map, IsTrue};
ghost use Rattle.vsd_terms.specs.Size.{greatest};
ghost use Rattle.vsd_terms.specs.Substitution.{parameters_of, subst_of};

use crate::{Term, Terms, same};

/// Whether `t` at the arguments `args` is `whole`.
#[cycle(is_instance)]
pub fn is_instance(whole: &Term, t: &Term, args: &Terms) -> bool
    requires { parameters_of t.now ≤ length args.now }
    ensures { IsTrue result ↔ (whole.now ≡ subst_of args.now t.now) }
{
    match (whole, t) {
        (_, Term::Param(place)) => same(whole, &args.as_slice()[*place as usize]),
        (Term::Builtin(x), Term::Builtin(y)) => *x == *y,
        (Term::Named { name: x, args: xs }, Term::Named { name: y, args: ys }) => {
            *x == *y && are_instances(xs, ys, args)
        }
        _ => false,
    }
}

#[cycle(is_instance)]
fn are_instances(wholes: &Terms, ts: &Terms, args: &Terms) -> bool
    requires { greatest (map parameters_of ts.now) ≤ length args.now }
    ensures { IsTrue result ↔ (wholes.now ≡ map (subst_of args.now) ts.now) }
{
    let wholes = wholes.as_slice();
    let ts = ts.as_slice();
    if wholes.len() != ts.len() {
        return false;
    }
    for i in 0..wholes.len() {
        if !is_instance(&wholes[i], &ts[i], args) {
            return false;
        }
    }
    true
}

/// Whether `a` at the arguments `a_args` equals `b` at the arguments `b_args`.
#[cycle(same_under)]
pub fn same_under(a: &Term, a_args: &Terms, b: &Term, b_args: &Terms) -> bool
    requires a_fits { parameters_of a.now ≤ length a_args.now }
    requires b_fits { parameters_of b.now ≤ length b_args.now }
    ensures { IsTrue result ↔ (subst_of a_args.now a.now ≡ subst_of b_args.now b.now) }
{
    match (a, b) {
        (Term::Param(place), _) => is_instance(&a_args.as_slice()[*place as usize], b, b_args),
        (_, Term::Param(place)) => is_instance(&b_args.as_slice()[*place as usize], a, a_args),
        (Term::Builtin(x), Term::Builtin(y)) => *x == *y,
        (Term::Named { name: x, args: xs }, Term::Named { name: y, args: ys }) => {
            *x == *y && all_same_under(xs, a_args, ys, b_args)
        }
        _ => false,
    }
}

#[cycle(same_under)]
fn all_same_under(xs: &Terms, x_args: &Terms, ys: &Terms, y_args: &Terms) -> bool
    requires xs_fit { greatest (map parameters_of xs.now) ≤ length x_args.now }
    requires ys_fit { greatest (map parameters_of ys.now) ≤ length y_args.now }
    ensures { IsTrue result ↔ (map (subst_of x_args.now) xs.now ≡ map (subst_of y_args.now) ys.now) }
{
    let xs = xs.as_slice();
    let ys = ys.as_slice();
    if xs.len() != ys.len() {
        return false;
    }
    for i in 0..xs.len() {
        if !same_under(&xs[i], x_args, &ys[i], y_args) {
            return false;
        }
    }
    true
}
