//! Why a closed list has no tables.

use std::alloc::AllocError;

/// Why a closed list has no tables, by the numbers of its types.
#[derive(Clone, Copy, Debug, PartialEq, Eq)]
pub enum SlotError {
    /// A class that isn't abstract has a method of an interface that nothing implements: the first of these classes, the
    /// interface, and the method's place.
    Missing {
        class: u16,
        interface: u16,
        method: u16,
    },
    /// With this class there are more than 262,144 slots.
    TooMany {
        class: u16,
    },
    /// There is no memory.
    Memory,
}

impl From<AllocError> for SlotError {
    ghost use Rattle.std.specs.Prelude.{◌≡◌};
    ghost use Rattle.vsd_slots.specs.declared.error.SlotError.TheVariants.{Memory};

    ghost from_gives = { λ _ e. e ≡ Memory };

    fn from(_error: AllocError) -> SlotError {
        SlotError::Memory
    }
}
