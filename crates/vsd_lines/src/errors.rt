//! Why lines weren't all written.
ghost use Rattle.std.specs.Prelude.{◌≡◌};

use std::alloc::AllocError;
use vsd_outside::Failed;

/// Why lines weren't all written. After each the sink took a first part of them.
#[derive(Clone, Copy, Debug, PartialEq, Eq, Drop)]
pub enum LinesError {
    /// A write failed, and the sink counted it. The sink didn't take all.
    Failed,
    /// Want of memory. No write failed.
    Memory,
}

impl From<AllocError> for LinesError {
    ghost use Rattle.vsd_lines.specs.declared.errors.LinesError.{LinesError};

    ghost from_gives = { λ _ e. e ≡ LinesError.Memory };

    fn from(_error: AllocError) -> LinesError {
        LinesError::Memory
    }
}

impl From<Failed> for LinesError {
    ghost use Rattle.vsd_lines.specs.declared.errors.LinesError.{LinesError};

    ghost from_gives = { λ _ e. e ≡ LinesError.Failed };

    fn from(_error: Failed) -> LinesError {
        LinesError::Failed
    }
}
