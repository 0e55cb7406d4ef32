//! What a call gets.

/// What a call gets: the method of a number, or that the slot is missing.
#[derive(Clone, Copy, Debug, PartialEq, Eq, Drop)]
pub enum Target {
    Method(u32),
    Missing,
}
