//! Equality of terms is that of their trees.
ghost use Rattle.std.specs.Prelude.{◌≡◌, ◌↔◌, fold, IsTrue};
ghost use Rattle.vsd_terms.specs.Equality.{writes_of};

use crate::{Term, Terms};
use std::hash::{Hash, Hasher};

impl PartialEq for Term {
    ghost use Rattle.vsd_terms.specs.Equality.{term_eq, term_eq_partial};

    ghost eq = { term_eq };

    ghost laws = { term_eq_partial };

    fn eq(&self, other: &Term) -> bool
        ensures test { result ≡ term_eq self.now other.now }
        ensures trees { IsTrue result ↔ (self.now ≡ other.now) }
    {
        same(self, other)
    }
}

impl Eq for Term {
    ghost use Rattle.vsd_terms.specs.Equality.{term_eq_equivalence};

    ghost laws = { term_eq_equivalence };
}

/// Whether `a` and `b` are one tree.
#[cycle(same)]
pub fn same(a: &Term, b: &Term) -> bool
    ensures { IsTrue result ↔ (a.now ≡ b.now) }
{
    match (a, b) {
        (Term::Builtin(x), Term::Builtin(y)) => *x == *y,
        (Term::Param(x), Term::Param(y)) => *x == *y,
        (Term::Named { name: x, args: xs }, Term::Named { name: y, args: ys }) => {
            *x == *y && same_all(xs, ys)
        }
        _ => false,
    }
}

#[cycle(same)]
fn same_all(xs: &Terms, ys: &Terms) -> bool
    ensures { IsTrue result ↔ (xs.now ≡ ys.now) }
{
    let xs = xs.as_slice();
    let ys = ys.as_slice();
    if xs.len() != ys.len() {
        return false;
    }
    for i in 0..xs.len() {
        if !same(&xs[i], &ys[i]) {
            return false;
        }
    }
    true
}

impl Hash for Term {
    ghost use Rattle.vsd_terms.specs.Equality.{writes_of, writes_of-term_eq};

    ghost hash_input = { writes_of };

    ghost respects_eq = { writes_of-term_eq };

    fn hash<H: Hasher>(&self, state: &mut H) {
        feed(self, state);
    }
}

// The variant, and then what it holds; of arguments their count first.
fn feed<H: Hasher>(t: &Term, state: &mut H)
    ensures { state.new ≡ fold H.write state.old (writes_of t.now) }
{
    match t {
        Term::Builtin(b) => {
            state.write_u8(0);
            b.hash(state);
        }
        Term::Param(place) => {
            state.write_u8(1);
            state.write_u8(*place);
        }
        Term::Named { name, args } => {
            state.write_u8(2);
            state.write_u16(*name);
            let args = args.as_slice();
            state.write_usize(args.len());
            for i in 0..args.len() {
                feed(&args[i], state);
            }
        }
    }
}
