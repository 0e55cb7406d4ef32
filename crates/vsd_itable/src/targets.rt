//! The targets of all types and tokens.
ghost use Rattle.std.specs.Prelude.{◌≡◌, ℕ, ◌<◌, ◌^◌, IfOk, slice_index};

use std::alloc::{AllocError, Global};

/// For each type and token, type by type, 0 where the slot is missing, else one more than a method's number.
#[derive(Debug, Drop)]
pub struct Targets {
    pub(crate) entries: Vec<u32>,
    pub(crate) ghost fits: { (i : ℕ) → slice_index entries.items i < 2 ^ 32 },
}

impl Targets {
    /// The same targets in memory of their own. The error is want of memory.
    pub(crate) fn copy(&self, alloc: Global) -> Result<Targets, AllocError>
        ensures { IfOk result (λ targets. targets.entries.items ≡ self.now.entries.items) }
    {
        let mut entries = Vec::new(alloc);
        entries.extend_from_slice(self.entries.as_slice())?;
        Ok(Targets { entries })
    }
}
