//! How deep and how large a term is.
ghost use Rattle.std.specs.Prelude.{◌≡◌, min};
ghost use Rattle.vsd_terms.specs.Size.{levels_of, nodes_of};

use crate::Term;

/// How many levels `t` has: 1 without arguments, else 1 plus the most levels of an argument.
///
/// More than `u32::MAX` count as `u32::MAX`.
pub fn levels(t: &Term) -> u32
    ensures { result ≡ min (levels_of t.now) u32.MAX }
{
    let Term::Named { args, .. } = t else {
        return 1;
    };
    let mut most = 0u32;
    for arg in args.as_slice() {
        most = most.max(levels(arg));
    }
    most.saturating_add(1)
}

/// How many nodes `t` has: 1 plus the nodes of all its arguments.
///
/// More than `u32::MAX` count as `u32::MAX`.
pub fn nodes(t: &Term) -> u32
    ensures { result ≡ min (nodes_of t.now) u32.MAX }
{
    let Term::Named { args, .. } = t else {
        return 1;
    };
    let mut below = 0u32;
    for arg in args.as_slice() {
        below = below.saturating_add(nodes(arg));
    }
    below.saturating_add(1)
}
