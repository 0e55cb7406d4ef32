//! The order in which interfaces get their ways.
ghost use Rattle.std.specs.Prelude.{◌+◌, ◌≤◌, length, IfOk, OnOk};
ghost use Rattle.vsd_layers.specs.Layers.{AreLayers};
ghost use Rattle.vsd_ways.specs.Order.{IsOrder, IsOrderTo};

use std::alloc::{AllocError, Global};
use vsd_layers::{Layers, by_depth};

/// The numbers of the declarations of these depths, each after those that are less deep. They are numbered by their
/// places, from 0, and are at most 1,024. The error is want of memory.
pub fn upward_order(alloc: Global, depths: &[u16]) -> Result<Vec<u16>, AllocError>
    requires few { length depths.now ≤ 1024 }
    ensures { IfOk result (λ order. IsOrder (length depths.now) depths.now order.items) }
{
    let layers = by_depth(alloc, depths)?;
    let mut order = Vec::new(alloc);
    for depth in 0..layers.count() {
        add_depth(depths, &layers, depth, &mut order)?;
    }
    Ok(order)
}

// Adds the numbers of the declarations of one depth.
fn add_depth(
    depths: &[u16],
    layers: &Layers,
    depth: usize,
    order: &mut Vec<u16>,
) -> Result<(), AllocError>
    requires few { length depths.now ≤ 1024 }
    requires layers { AreLayers depths.now layers.now.first.items layers.now.next.items }
    requires before { IsOrderTo (length depths.now) depths.now depth 0 order.old.items }
    ensures { OnOk result (IsOrderTo (length depths.now) depths.now (depth + 1) 0 order.new.items) }
{
    let mut next = layers.first(depth);
    while let Some(at) = next {
        order.push(at)?;
        next = layers.after(at);
    }
    Ok(())
}
