//! Names that stand twice, or that are those of built-in classes.
ghost use Rattle.std.specs.Prelude.{◌≡◌, ◌↔◌, ◌<◌, IsTrue, IfOk, Some, Contains, length, slice_get};
ghost use Rattle.vsd_least.specs.Least.{IsLeast};
ghost use Rattle.vsd_lawful.specs.Twice.{HasRepeat, Repeats, SameName, SameParam, IsTwice, ShowsTwice, class_names};

use crate::Scope;
use crate::methods::repeated_method;
use std::alloc::{AllocError, Global};
use vsd_ast::{Decl, Param};
use vsd_least::{earlier, shown};
use vsd_terms::Names;

fn is_redeclared(scope: &Scope, place: usize, decl: &Decl) -> bool
    requires { slice_get scope.now.list.now place ≡ Some decl.now }
    ensures { IsTrue result ↔ Repeats SameName scope.now.list.now place decl.now }
{
    match scope.place(decl.name) {
        Some(first) => first as usize != place,
        None => false,
    }
}

fn is_class_name(name: &[u8]) -> bool
    ensures { IsTrue result ↔ Contains class_names name.now }
{
    name == b"System.Object".as_slice()
        || name == b"System.String".as_slice()
        || name == b"System.ValueType".as_slice()
}

fn is_repeated(params: &[Param], place: usize, param: &Param) -> bool
    requires { slice_get params.now place ≡ Some param.now }
    ensures { IsTrue result ↔ Repeats SameParam params.now place param.now }
{
    for earlier in 0..place {
        if params[earlier].name.as_slice() == param.name.as_slice() {
            return true;
        }
    }
    false
}

fn has_repeat(params: &[Param]) -> bool
    ensures { IsTrue result ↔ HasRepeat SameParam params.now }
{
    for (place, param) in params.iter().enumerate() {
        if is_repeated(params, place, param) {
            return true;
        }
    }
    false
}

fn is_twice(scope: &Scope, names: &Names, place: usize, decl: &Decl) -> bool
    requires there { slice_get scope.now.list.now place ≡ Some decl.now }
    requires named { decl.now.name < length names.now }
    ensures { IsTrue result ↔ IsTwice names.now scope.now.list.now place decl.now }
{
    if is_redeclared(scope, place, decl) {
        return true;
    }
    if is_class_name(names.name(decl.name)) {
        return true;
    }
    has_repeat(decl.params.as_slice())
}

/// The first line at which the declaration shows what stands twice: its own, where its name is there already or is that
/// of a built-in class or two of its parameters have one name; a method's, where an earlier method has the same name and
/// signature. The error is want of memory.
pub fn twice(
    alloc: Global,
    scope: &Scope,
    names: &Names,
    place: usize,
    decl: &Decl,
) -> Result<Option<u32>, AllocError>
    requires there { slice_get scope.now.list.now place ≡ Some decl.now }
    requires named { decl.now.name < length names.now }
    ensures { IfOk result (IsLeast (ShowsTwice names.now scope.now.list.now place decl.now)) }
{
    let at_methods = repeated_method(alloc, decl.methods.as_slice())?;
    let at_class = shown(is_twice(scope, names, place, decl), decl.line);
    Ok(earlier(at_class, at_methods))
}
