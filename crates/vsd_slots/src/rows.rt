//! The rows of all types.
ghost use Rattle.std.specs.Prelude.{◌≡◌, ℕ, ◌<◌, [], length, slice_index_or, IfOk};

use crate::ragged::Ragged;
use sqlite_items::Items;
use std::alloc::{AllocError, Global};

/// What every type has for the methods of each of its interfaces.
#[derive(Drop)]
pub(crate) struct Rows {
    /// Each column, once for all types that have it.
    pub(crate) columns: Ragged,
    /// For each type the numbers of its columns, in the order of its interfaces.
    pub(crate) numbers: Items<Items<usize>>,
}

/// So many rows that aren't made.
pub(crate) fn no_rows(alloc: Global, count: u16) -> Result<Rows, AllocError>
    ensures count { IfOk result (λ rows. length rows.numbers ≡ count) }
    ensures none { IfOk result (λ rows. (t : ℕ) → t < count → slice_index_or rows.numbers t [] ≡ []) }
{
    let mut numbers = Items::new(alloc);
    for _ in 0..count {
        numbers.push(Items::new(alloc))?;
    }
    Ok(Rows {
        columns: Ragged::new(alloc),
        numbers,
    })
}
