//! Which places a walk brings back to themselves.
ghost use Rattle.std.specs.Prelude.{◌≡◌, ◌↔◌, ◌<◌, length, IfOk, IsTrue};
ghost use Rattle.vsd_graph.specs.Graph.{IsClosed, ReachesItself};
ghost use Rattle.vsd_graph.specs.Seen.{Follows, Sees};

use sqlite_items::Items;
use std::alloc::{AllocError, Global};

// Marks the place, and what can be reached from it.
#[cycle(see)]
fn see(graph: &[Items<u16>], at: usize, seen: &mut Vec<bool>)
    requires within { at < length graph.now }
    requires closed { IsClosed graph.now }
    requires count { length seen.old.items ≡ length graph.now }
    ensures { Sees graph.now seen.old.items seen.new.items at }
{
    if !seen[at] {
        seen[at] = true;
        follow(graph, at, seen);
    }
}

// Marks what can be reached from the place in at least one step.
#[cycle(see)]
fn follow(graph: &[Items<u16>], at: usize, seen: &mut Vec<bool>)
    requires within { at < length graph.now }
    requires closed { IsClosed graph.now }
    requires count { length seen.old.items ≡ length graph.now }
    ensures { Follows graph.now seen.old.items seen.new.items at }
{
    for next in graph[at].as_slice() {
        see(graph, *next as usize, seen);
    }
}

/// Whether a walk of at least one step leads from the place back to it. The error is want of memory.
pub fn reaches_itself(alloc: Global, graph: &[Items<u16>], at: usize) -> Result<bool, AllocError>
    requires within { at < length graph.now }
    requires closed { IsClosed graph.now }
    ensures { IfOk result (λ comes_back. IsTrue comes_back ↔ ReachesItself graph.now at) }
{
    let mut seen = vec![in alloc; false; graph.len()]?;
    follow(graph, at, &mut seen);
    Ok(seen[at])
}
