//! How deep each declaration lies below what it names, and which declarations reach themselves.
ghost use Rattle.std.specs.Prelude.{◌≡◌, ◌↔◌, ◌+◌, ◌<◌, ◌≤◌, ◌^◌, Some, length, slice_get, IfOk, IfSome, IsTrue, MatchOption};
ghost use Rattle.std.specs.Option.{IsSomeAnd};
ghost use Rattle.vsd_ast.specs.Hierarchy.{above, AreDepths};
ghost use Rattle.vsd_graph.specs.Graph.{IsCyclic};
ghost use Rattle.vsd_least.specs.Least.{IsLeast, AtSome, Until};
ghost use Rattle.vsd_hierarchy.specs.Cycles.{followed, graph_of, ShowsCycle};

use crate::upward::{above_graph, followed_graph};
use sqlite_items::Items;
use std::alloc::{AllocError, Global};
use vsd_ast::Decl;
use vsd_graph::{place_levels, reaches_itself};
use vsd_lawful::Scope;
use vsd_least::{earlier, shown};

/// The depth of each declaration: one more than the greatest of its base and its interfaces, where a built-in type has 0.
/// None where a walk upward comes back to its declaration. The error is want of memory.
pub fn depths_of(alloc: Global, scope: &Scope) -> Result<Option<Vec<u16>>, AllocError>
    requires { length scope.now.list.now < 2 ^ 16 }
    ensures { IfOk result (λ found. MatchOption found (IsCyclic (graph_of scope.now.list.now above))
        (λ depths. AreDepths scope.now.list.now depths.items)) }
{
    let graph = above_graph(alloc, scope)?;
    place_levels(alloc, graph.as_slice())
}

fn is_no_later(found: Option<u32>, line: u32) -> bool
    ensures { IsTrue result ↔ IsSomeAnd found (λ f. f ≤ line) }
{
    match found {
        Some(found) => found <= line,
        None => false,
    }
}

// With one declaration more. Only a declaration at an earlier line than the one found is looked at.
fn look(
    alloc: Global,
    scope: &Scope,
    graph: &[Items<u16>],
    place: usize,
    decl: &Decl,
    found: Option<u32>,
) -> Result<Option<u32>, AllocError>
    requires graph { graph.now ≡ graph_of scope.now.list.now (followed scope.now.list.now) }
    requires there { slice_get scope.now.list.now place ≡ Some decl.now }
    requires least { IsLeast (AtSome scope.now.list.now (Until place (ShowsCycle scope.now.list.now))) found }
    ensures { IfOk result
        (IsLeast (AtSome scope.now.list.now (Until (place + 1) (ShowsCycle scope.now.list.now)))) }
{
    if is_no_later(found, decl.line) {
        return Ok(found);
    }
    let comes_back = reaches_itself(alloc, graph, place)?;
    Ok(earlier(found, shown(comes_back, decl.line)))
}

fn search(alloc: Global, scope: &Scope) -> Result<Option<u32>, AllocError>
    ensures { IfOk result (IsLeast (AtSome scope.now.list.now (ShowsCycle scope.now.list.now))) }
{
    let graph = followed_graph(alloc, scope)?;
    let mut found = None;
    for (place, decl) in scope.list.iter().enumerate() {
        found = look(alloc, scope, graph.as_slice(), place, decl, found)?;
    }
    Ok(found)
}

/// The first line of a class that reaches itself by bases, each a class, or of an interface that does by the interfaces that
/// it requires, each an interface (II.22.37, II.22.23). Where depths are there, none does. Where none are, a walk may still
/// change kind on its way back: then what changes it is a bad base or a bad interface. The error is want of memory.
pub fn first_cycle(
    alloc: Global,
    scope: &Scope,
    depths: &Option<Vec<u16>>,
) -> Result<Option<u32>, AllocError>
    requires { IfSome depths.now (λ depths. AreDepths scope.now.list.now depths.items) }
    ensures { IfOk result (IsLeast (AtSome scope.now.list.now (ShowsCycle scope.now.list.now))) }
{
    match depths {
        Some(_) => Ok(None),
        None => search(alloc, scope),
    }
}
