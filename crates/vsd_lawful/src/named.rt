//! The lines of types that aren't declared, or that take another number of arguments.
ghost use Rattle.std.specs.Prelude.{◌≡◌};
ghost use Rattle.vsd_least.specs.Least.{IsLeast, AtSome, earlier_of, line_if};
ghost use Rattle.vsd_lawful.specs.Types.{BaseNames, InterfaceNames, MethodNames, OverrideNames, IsUnknown, IsMiscounted, ShowsUnknown, ShowsArity};

use crate::Scope;
use crate::faults::{Faults, of_override, of_signature, of_term};
use vsd_ast::{Decl, Located, Method, Override};
use vsd_least::{earlier, shown};

/// Where types are named that are not there, or that take another number of arguments.
#[derive(Clone, Copy, Debug, PartialEq, Eq)]
pub struct Lines {
    pub unknown: Option<u32>,
    pub arity: Option<u32>,
}

const NOWHERE: Lines = Lines {
    unknown: None,
    arity: None,
};

fn at(faults: Faults, line: u32) -> Lines
    ensures unknown { result.unknown ≡ line_if faults.unknown line }
    ensures arity { result.arity ≡ line_if faults.arity line }
{
    Lines {
        unknown: shown(faults.unknown, line),
        arity: shown(faults.arity, line),
    }
}

fn first(a: Lines, b: Lines) -> Lines
    ensures unknown { result.unknown ≡ earlier_of a.unknown b.unknown }
    ensures arity { result.arity ≡ earlier_of a.arity b.arity }
{
    Lines {
        unknown: earlier(a.unknown, b.unknown),
        arity: earlier(a.arity, b.arity),
    }
}

fn of_base(scope: &Scope, base: &Option<Located>) -> Lines
    ensures unknown { IsLeast (BaseNames (IsUnknown scope.now.list.now) base.now) result.unknown }
    ensures arity { IsLeast (BaseNames (IsMiscounted scope.now.list.now) base.now) result.arity }
{
    match base {
        Some(base) => at(of_term(scope, &base.term), base.line),
        None => NOWHERE,
    }
}

fn of_interfaces(scope: &Scope, interfaces: &[Located]) -> Lines
    ensures unknown { IsLeast (AtSome interfaces.now (InterfaceNames (IsUnknown scope.now.list.now))) result.unknown }
    ensures arity { IsLeast (AtSome interfaces.now (InterfaceNames (IsMiscounted scope.now.list.now))) result.arity }
{
    let mut lines = NOWHERE;
    for interface in interfaces {
        lines = first(lines, at(of_term(scope, &interface.term), interface.line));
    }
    lines
}

fn of_methods(scope: &Scope, methods: &[Method]) -> Lines
    ensures unknown { IsLeast (AtSome methods.now (MethodNames (IsUnknown scope.now.list.now))) result.unknown }
    ensures arity { IsLeast (AtSome methods.now (MethodNames (IsMiscounted scope.now.list.now))) result.arity }
{
    let mut lines = NOWHERE;
    for method in methods {
        lines = first(
            lines,
            at(of_signature(scope, &method.signature), method.line),
        );
    }
    lines
}

fn of_overrides(scope: &Scope, overrides: &[Override]) -> Lines
    ensures unknown { IsLeast (AtSome overrides.now (OverrideNames (IsUnknown scope.now.list.now))) result.unknown }
    ensures arity { IsLeast (AtSome overrides.now (OverrideNames (IsMiscounted scope.now.list.now))) result.arity }
{
    let mut lines = NOWHERE;
    for given in overrides {
        lines = first(lines, at(of_override(scope, given), given.line));
    }
    lines
}

/// The first line at which the declaration names a type that isn't declared, and the first at which it names one that
/// takes another number of arguments than stands there.
pub fn types(scope: &Scope, decl: &Decl) -> Lines
    ensures unknown { IsLeast (ShowsUnknown scope.now.list.now decl.now) result.unknown }
    ensures arity { IsLeast (ShowsArity scope.now.list.now decl.now) result.arity }
{
    let members = first(
        of_methods(scope, decl.methods.as_slice()),
        of_overrides(scope, decl.overrides.as_slice()),
    );
    let interfaces = of_interfaces(scope, decl.interfaces.as_slice());
    first(of_base(scope, &decl.base), first(interfaces, members))
}
