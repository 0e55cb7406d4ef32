//! What is kept of a listed type.

use crate::kind::Kind;
use sqlite_items::Items;

/// What is kept of a listed type.
#[derive(Debug, Drop)]
pub(crate) struct Entry {
    pub(crate) kind: Kind,
    /// The numbers of its base, of the interfaces that it names, and of its arguments, in this order.
    pub(crate) children: Items<u16>,
    /// How many of them are its base: 1 or 0.
    pub(crate) bases: usize,
    /// How many of them are interfaces.
    pub(crate) interfaces: usize,
}
