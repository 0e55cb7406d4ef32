//! Why a list of types cannot be closed.
ghost use Rattle.std.specs.Prelude.{◌≡◌};
ghost use Rattle.vsd_types.specs.declared.error.CloseError.TheVariants.{Memory};

use std::alloc::AllocError;
use thiserror::Error;

/// Why types could not be closed.
#[derive(Clone, Copy, Debug, PartialEq, Eq, Error)]
pub enum CloseError {
    /// The list would take a 1,025th type.
    #[error("too many types")]
    TooManyTypes,
    /// A type to be added has more than 16 levels or more than 1,024 printed bytes.
    #[error("too deep")]
    TooDeep,
    /// There is no memory.
    #[error("out of memory")]
    Memory,
}

impl From<AllocError> for CloseError {
    ghost from_gives = { λ _ e. e ≡ Memory };

    fn from(_error: AllocError) -> CloseError {
        CloseError::Memory
    }
}
