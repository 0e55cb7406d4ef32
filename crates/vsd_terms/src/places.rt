//! Terms as the keys of a set: a term is found by its hash, without a walk over the others.
ghost use Rattle.std.specs.Prelude.{◌≡◌, ◌↔◌, slice_get, Contains, IsSome, IfSome};
ghost use Rattle.indexmap.specs.IndexSet.{keys};

use crate::Term;
use indexmap::IndexSet;

/// The place, from 0, of `t` in a set of terms, where it is there.
pub fn place_of(terms: &IndexSet<Term>, t: &Term) -> Option<usize>
    ensures found { IfSome result (λ place. slice_get (keys terms.now) place ≡ Some t.now) }
    ensures present { IsSome result ↔ Contains (keys terms.now) t.now }
{
    terms.get_index_of(t)
}
