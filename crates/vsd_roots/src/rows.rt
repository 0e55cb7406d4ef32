//! Tables with a row for each declaration.
ghost use Rattle.std.specs.Prelude.{◌≡◌, length, IfOk, IsSome};
ghost use Rattle.vsd_roots.specs.Methods.{entry};

use crate::Place;
use sqlite_items::Items;
use std::alloc::{AllocError, Global};

/// So many rows, without entries.
pub(crate) fn empty_rows<T: Drop>(
    alloc: Global,
    count: usize,
) -> Result<Items<Items<T>>, AllocError>
    ensures { IfOk result (λ rows. length rows ≡ count) }
{
    let mut rows = Items::new(alloc);
    for _ in 0..count {
        rows.push(Items::new(alloc))?;
    }
    Ok(rows)
}

/// The entry of the method at `at`.
pub fn entry_of<T: Copy>(table: &[Items<T>], at: Place) -> T
    requires { IsSome (entry table.now at) }
    ensures { entry table.now at ≡ Some result }
{
    table[at.decl as usize].as_slice()[at.method as usize]
}
