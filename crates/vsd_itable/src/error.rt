//! Why there are no tables.
ghost use Rattle.std.specs.Prelude.{◌≡◌};
ghost use Rattle.vsd_itable.specs.declared.error.BuildError.TheVariants.{Memory};

use std::alloc::AllocError;
use thiserror::Error;
use vsd_ast::Bytes;

/// Why there are no tables, with the line of the class's declaration and what is told of it.
#[derive(Debug, Drop, Error)]
pub enum BuildError {
    /// Nothing implements a method of an interface in a class that isn't abstract (ECMA-335, II.12.2): the texts of the class
    /// and of the interface, and the method's name, with `#k` after it where it is the k-th of that name and k is at least 2.
    #[error("line {line}: missing implementation")]
    MissingImplementation {
        line: u32,
        class: Bytes,
        interface: Bytes,
        method: Bytes,
    },
    /// With this class there are more than 262,144 slots.
    #[error("line {line}: too many slots")]
    TooManySlots {
        line: u32,
    },
    /// There is no memory.
    #[error("out of memory")]
    Memory,
}

impl From<AllocError> for BuildError {
    ghost from_gives = { λ _ e. e ≡ Memory };

    fn from(_error: AllocError) -> BuildError {
        BuildError::Memory
    }
}
