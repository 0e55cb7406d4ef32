//! The second pass: cycles, and what stands as a base or an interface.
ghost use Rattle.std.specs.Prelude.{◌≡◌, IfOk, MatchOption};
ghost use Rattle.vsd_ast.specs.Hierarchy.{above, AreDepths};
ghost use Rattle.vsd_ast.specs.WellFormed.{AreWellFormed};
ghost use Rattle.vsd_graph.specs.Graph.{IsCyclic};
ghost use Rattle.vsd_hierarchy.specs.Cycles.{graph_of};
ghost use Rattle.vsd_least.specs.Least.{IsLeast};
ghost use Rattle.vsd_check.specs.Conditions.{CycleAt, BadBaseAt, BadInterfaceAt};

use std::alloc::{AllocError, Global};
use vsd_ast::Decls;
use vsd_hierarchy::{bad_base, bad_interface, depths_of, first_cycle};
use vsd_lawful::Scope;
use vsd_least::earlier;

/// The first line at which a declaration has a base that may be none, and at which one names as an interface what is none.
#[derive(Clone, Copy)]
pub(crate) struct Misfits {
    pub base: Option<u32>,
    pub interface: Option<u32>,
}

pub(crate) fn misfits_of(decls: &Decls, scope: &Scope) -> Misfits
    requires { scope.now.list.now ≡ decls.now.list }
    ensures base { IsLeast (BadBaseAt decls.now) result.base }
    ensures interface { IsLeast (BadInterfaceAt decls.now) result.interface }
{
    let mut found = Misfits {
        base: None,
        interface: None,
    };
    for decl in scope.list {
        let base_here = bad_base(scope, decl);
        let base = earlier(found.base, base_here);
        let interface_here = bad_interface(scope, decl);
        let interface = earlier(found.interface, interface_here);
        found = Misfits { base, interface };
    }
    found
}
