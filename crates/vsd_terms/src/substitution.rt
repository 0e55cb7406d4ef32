//! Putting arguments in place of parameters.
ghost use Rattle.std.specs.Prelude.{◌≡◌, ◌≤◌, length, IfOk};
ghost use Rattle.vsd_terms.specs.Substitution.{parameters_of, subst_of};

use crate::{Term, Terms};
use std::alloc::{AllocError, Global};

/// How many parameters a declaration has at least where `t` may stand in it.
///
/// That is one more than the last that `t` names, and 0 where `t` names none and so is closed.
pub fn parameters(t: &Term) -> u16
    ensures { result ≡ parameters_of t.now }
{
    match t {
        Term::Builtin(_) => 0,
        Term::Param(place) => u16::from(*place) + 1,
        Term::Named { args, .. } => {
            let mut most = 0;
            for arg in args.as_slice() {
                most = most.max(parameters(arg));
            }
            most
        }
    }
}

/// A term that equals `t`. The error is want of memory.
pub fn copy(alloc: Global, t: &Term) -> Result<Term, AllocError>
    ensures { IfOk result (λ made. made ≡ t.now) }
{
    match t {
        Term::Builtin(builtin) => Ok(Term::Builtin(*builtin)),
        Term::Param(place) => Ok(Term::Param(*place)),
        Term::Named { name, args } => {
            let mut made = Terms::new(alloc);
            for arg in args.as_slice() {
                made.push(copy(alloc, arg)?)?;
            }
            Ok(Term::Named {
                name: *name,
                args: made,
            })
        }
    }
}

/// `t` with the n-th of `args` in place of parameter n, everywhere.
///
/// The arguments may have parameters of their own, which stay as they are (ECMA-335, II.9.2). The error is want of
/// memory.
pub fn subst(alloc: Global, t: &Term, args: &Terms) -> Result<Term, AllocError>
    requires { parameters_of t.now ≤ length args.now }
    ensures { IfOk result (λ made. made ≡ subst_of args.now t.now) }
{
    match t {
        Term::Builtin(builtin) => Ok(Term::Builtin(*builtin)),
        Term::Param(place) => copy(alloc, &args.as_slice()[*place as usize]),
        Term::Named { name, args: inner } => {
            let mut made = Terms::new(alloc);
            for arg in inner.as_slice() {
                made.push(subst(alloc, arg, args)?)?;
            }
            Ok(Term::Named {
                name: *name,
                args: made,
            })
        }
    }
}
