//! The arguments that a declaration gives its base.
ghost use Rattle.std.specs.Prelude.{◌≡◌};
ghost use Rattle.vsd_lift.specs.Chain.{arguments_of, given_to};

use vsd_ast::Decl;
use vsd_terms::Term;

/// The arguments that `decl` gives its base after `extends` (ECMA-335, II.10.1.2). None without a base, or with one that
/// takes none.
pub fn base_arguments(decl: &Decl) -> &[Term]
    ensures { result.now ≡ given_to decl.now.base }
{
    match &decl.base {
        Some(base) => arguments(&base.term),
        None => &[],
    }
}

// The arguments of a named type; none of another.
fn arguments(t: &Term) -> &[Term]
    ensures { result.now ≡ arguments_of t.now }
{
    match t {
        Term::Named { args, .. } => args.as_slice(),
        _ => &[],
    }
}
