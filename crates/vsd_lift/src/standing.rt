//! Where a term of a class above stands once its parameters are followed.
ghost use Rattle.std.specs.Prelude.{◌≡◌, ◌≤◌, length};
ghost use Rattle.vsd_lift.specs.Chain.{envs_of};
ghost use Rattle.vsd_lift.specs.Lift.{lift, Fits, IsLadder, IsResolved};

use crate::base_arguments;
use vsd_ast::Decl;
use vsd_terms::Term;

/// A term, and the level of the class in whose parameters it is written.
#[derive(Clone, Copy)]
pub struct Standing<'a> {
    pub level: usize,
    pub term: &'a Term,
}

/// What `term` stands for, so far as parameters alone lead: a term of a lower class, that is no parameter or stands at
/// level 0.
pub fn resolve<'a>(decls: &'a [Decl], chain: &[usize], level: usize, term: &'a Term) -> Standing<'a>
    requires ladder { IsLadder decls.now chain.now }
    requires within { level ≤ length chain.now }
    requires fits { Fits (envs_of decls.now chain.now) level term.now }
    ensures same { let envs = envs_of decls.now chain.now in
        lift envs result.level result.term.now ≡ lift envs level term.now }
    ensures within { result.level ≤ length chain.now }
    ensures fits { Fits (envs_of decls.now chain.now) result.level result.term.now }
    ensures resolved { IsResolved result.level result.term.now }
{
    let mut at = level;
    let mut standing = term;
    while at > 0 {
        let Term::Param(place) = standing else {
            break;
        };
        at -= 1;
        standing = &base_arguments(&decls[chain[at]])[*place as usize];
    }
    Standing {
        level: at,
        term: standing,
    }
}
