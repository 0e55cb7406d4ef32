//! The declarations of each depth, without a walk over all of them for each.
#![tactic(auto)]

ghost use Rattle.std.specs.Prelude.{◌≡◌, ℕ, ◌+◌, ◌<◌, ◌≤◌, List, length, slice_index, IfOk};
ghost use Rattle.vsd_layers.specs.Layers.{AreLayers, IsNextAt};

use std::alloc::{AllocError, Global};

/// The declarations of each depth, by their numbers: the first of them, and after each one the next.
#[derive(Debug, Drop)]
pub struct Layers {
    /// By depth.
    first: Vec<Option<u16>>,
    /// By number.
    next: Vec<Option<u16>>,
}

impl Layers {
    /// More than the greatest depth: from this depth on there are no declarations.
    pub fn count(&self) -> usize
        ensures { (depths : List ℕ) → AreLayers depths self.now.first.items self.now.next.items →
            (n : ℕ) → n < length depths → slice_index depths n < result }
    {
        self.first.len()
    }

    /// The number of the first declaration of this depth, if it has one.
    pub fn first(&self, depth: usize) -> Option<u16>
        ensures { (depths : List ℕ) → AreLayers depths self.now.first.items self.now.next.items →
            IsNextAt depths depth 0 result }
    {
        match self.first.get(depth) {
            Some(found) => *found,
            None => None,
        }
    }

    /// The number of the next declaration of the depth of this one, if there is one.
    pub fn after(&self, at: u16) -> Option<u16>
        ensures { (depths : List ℕ) → AreLayers depths self.now.first.items self.now.next.items →
            at < length depths → IsNextAt depths (slice_index depths at) (at + 1) result }
    {
        match self.next.get(at as usize) {
            Some(found) => *found,
            None => None,
        }
    }
}

// The greatest of the depths; 0 of none.
fn deepest(depths: &[u16]) -> u16
    ensures { (i : ℕ) → i < length depths.now → slice_index depths.now i ≤ result }
{
    let mut most = 0;
    for depth in depths {
        most = most.max(*depth);
    }
    most
}

/// The declarations of these depths, depth by depth. They are numbered by their places, from 0, and are at most 1,024.
/// The error is want of memory.
pub fn by_depth(alloc: Global, depths: &[u16]) -> Result<Layers, AllocError>
    requires few { length depths.now ≤ 1024 }
    ensures { IfOk result (λ made. AreLayers depths.now made.first.items made.next.items) }
{
    let mut first = vec![in alloc; None; usize::from(deepest(depths)) + 1]?;
    let mut next = vec![in alloc; None; depths.len()]?;
    for at in (0..depths.len()).rev() {
        let depth = depths[at] as usize;
        next[at] = first[depth];
        first[depth] = Some(at as u16);
    }
    Ok(Layers { first, next })
}
