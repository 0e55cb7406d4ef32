//! The level of each place: one more than the greatest of those that one step leads to.
ghost use Rattle.std.specs.Prelude.{◌≡◌, ◌<◌, ◌≤◌, ◌^◌, length, map, IfOk, MatchOption};
ghost use Rattle.vsd_graph.specs.Graph.{IsClosed, IsCyclic, AreLevels};
ghost use Rattle.vsd_graph.specs.Marks.{AreSound, LeadsTo, LeadsOnTo, Settles, level_in, mark_at};

use sqlite_items::Items;
use std::alloc::{AllocError, Global};

#[derive(Clone, Copy)]
enum Mark {
    Unseen,
    /// On the way to the place in hand.
    Open,
    Level(u16),
}

#[cycle(settle)]
fn settle(graph: &[Items<u16>], at: usize, marks: &mut Vec<Mark>) -> Option<u16>
    requires within { at < length graph.now }
    requires closed { IsClosed graph.now }
    requires small { length graph.now < 2 ^ 16 }
    requires sound { AreSound graph.now marks.old.items }
    requires leads { LeadsOnTo graph.now marks.old.items at }
    ensures { MatchOption result (IsCyclic graph.now) (Settles graph.now marks.old.items marks.new.items at) }
{
    match marks[at] {
        Mark::Level(level) => Some(level),
        Mark::Open => None,
        Mark::Unseen => visit(graph, at, marks),
    }
}

#[cycle(settle)]
fn visit(graph: &[Items<u16>], at: usize, marks: &mut Vec<Mark>) -> Option<u16>
    requires within { at < length graph.now }
    requires closed { IsClosed graph.now }
    requires small { length graph.now < 2 ^ 16 }
    requires sound { AreSound graph.now marks.old.items }
    requires unseen { mark_at marks.old.items at ≡ Mark.Unseen }
    requires leads { LeadsTo graph.now marks.old.items at }
    ensures { MatchOption result (IsCyclic graph.now) (Settles graph.now marks.old.items marks.new.items at) }
{
    marks[at] = Mark::Open;
    let mut most = 0;
    for next in graph[at].as_slice() {
        let level = settle(graph, *next as usize, marks)?;
        most = most.max(level);
    }
    let level = most + 1;
    marks[at] = Mark::Level(level);
    Some(level)
}

fn level_of(mark: Mark) -> u16
    ensures { result ≡ level_in mark }
{
    match mark {
        Mark::Level(level) => level,
        _ => 0,
    }
}

fn collect(alloc: Global, marks: &[Mark]) -> Result<Vec<u16>, AllocError>
    ensures { IfOk result (λ levels. levels.items ≡ map level_in marks.now) }
{
    let mut levels = Vec::with_capacity(alloc, marks.len())?;
    for mark in marks {
        levels.push(level_of(*mark))?;
    }
    Ok(levels)
}

/// The level of each place, one more than the greatest of those that one step leads to; none where a walk comes back.
/// The error is want of memory.
pub fn place_levels(alloc: Global, graph: &[Items<u16>]) -> Result<Option<Vec<u16>>, AllocError>
    requires closed { IsClosed graph.now }
    requires small { length graph.now < 2 ^ 16 }
    ensures { IfOk result
        (λ found. MatchOption found (IsCyclic graph.now) (λ levels. AreLevels graph.now levels.items)) }
{
    let mut marks = vec![in alloc; Mark::Unseen; graph.len()]?;
    for at in 0..graph.len() {
        let Some(_) = settle(graph, at, &mut marks) else {
            return Ok(None);
        };
    }
    Ok(Some(collect(alloc, &marks)?))
}
