//! What a type leads to: its base, the interfaces that it names, its arguments.
ghost use Rattle.std.specs.Prelude.{◌≡◌, ◌≤◌, ◌++◌, All, length, map, IfOk, IfSome, OnOk};
ghost use Rattle.std.specs.Option.{option_to_list};
ghost use Rattle.vsd_check.specs.Checked.{decls_of};
ghost use Rattle.vsd_terms.specs.Substitution.{parameters_of, subst_of};
ghost use Rattle.vsd_types.specs.Types.{IsClosedType, base_of, builtin_base, children, declared_base, named_of};

use crate::kind::declaration;
use std::alloc::{AllocError, Global};
use vsd_ast::Decl;
use vsd_check::Checked;
use vsd_terms::{Builtin, Term, Terms, copy, subst};

/// What a type leads to.
#[derive(Drop)]
pub(crate) struct Children {
    /// Its base, the interfaces that it names, and its arguments, in this order.
    pub(crate) terms: Terms,
    /// How many of them are its base: 1 or 0.
    pub(crate) bases: usize,
    /// How many of them are interfaces.
    pub(crate) interfaces: usize,
}

/// What a type leads to.
pub(crate) fn children_of(
    alloc: Global,
    checked: &Checked,
    t: &Term,
) -> Result<Children, AllocError>
    requires { IsClosedType (decls_of checked.now).list t.now }
    ensures terms { IfOk result (λ made. made.terms ≡ children (decls_of checked.now).list t.now) }
    ensures bases { IfOk result (λ made. made.bases ≡ length (option_to_list (base_of (decls_of checked.now).list t.now))) }
    ensures interfaces { IfOk result (λ made. made.interfaces ≡ length (named_of (decls_of checked.now).list t.now)) }
{
    let mut terms = Terms::new(alloc);
    match t {
        Term::Param(_) => unreachable!(),
        Term::Builtin(builtin) => {
            push_builtin_base(&mut terms, *builtin)?;
            let bases = terms.len();
            Ok(Children {
                terms,
                bases,
                interfaces: 0,
            })
        }
        Term::Named { name, args } => {
            let decl = declaration(checked, *name);
            push_base(alloc, &mut terms, decl, args)?;
            let bases = terms.len();
            push_interfaces(alloc, &mut terms, decl, args)?;
            push_copies(alloc, &mut terms, args.as_slice())?;
            Ok(Children {
                terms,
                bases,
                interfaces: decl.interfaces.len(),
            })
        }
    }
}

fn push_builtin_base(terms: &mut Terms, builtin: Builtin) -> Result<(), AllocError>
    ensures { OnOk result (terms.new ≡ terms.old ++ option_to_list (builtin_base builtin)) }
{
    match builtin {
        Builtin::Object => Ok(()),
        Builtin::String | Builtin::ValueType => terms.push(Term::Builtin(Builtin::Object)),
        _ => terms.push(Term::Builtin(Builtin::ValueType)),
    }
}

// The base of a declared type at its arguments. A class without one has `object`.
fn push_base(alloc: Global, terms: &mut Terms, decl: &Decl, args: &Terms) -> Result<(), AllocError>
    requires { IfSome decl.now.base (λ b. parameters_of b.term ≤ length args.now) }
    ensures { OnOk result (terms.new ≡ terms.old ++ option_to_list (declared_base args.now decl.now)) }
{
    if decl.is_interface {
        return Ok(());
    }
    match &decl.base {
        None => terms.push(Term::Builtin(Builtin::Object)),
        Some(base) => terms.push(subst(alloc, &base.term, args)?),
    }
}

fn push_interfaces(
    alloc: Global,
    terms: &mut Terms,
    decl: &Decl,
    args: &Terms,
) -> Result<(), AllocError>
    requires { All (λ i. parameters_of i.term ≤ length args.now) decl.now.interfaces }
    ensures { OnOk result (terms.new ≡ terms.old ++ map (λ i. subst_of args.now i.term) decl.now.interfaces) }
{
    for interface in decl.interfaces.as_slice() {
        terms.push(subst(alloc, &interface.term, args)?)?;
    }
    Ok(())
}

fn push_copies(alloc: Global, terms: &mut Terms, more: &[Term]) -> Result<(), AllocError>
    ensures { OnOk result (terms.new ≡ terms.old ++ more.now) }
{
    for t in more {
        terms.push(copy(alloc, t)?)?;
    }
    Ok(())
}
