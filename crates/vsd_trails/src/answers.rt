//! What operations answer.

use thiserror::Error;
use vsd_words::{CellWord, Handle, HandleWord};

/// What a call went by, and what it answers.
#[derive(Clone, Copy, PartialEq, Eq, Debug)]
pub struct Answer {
    /// 0 for the missing slot, n + 1 for method n.
    pub target: u32,
    pub path: Path,
}

/// Where a call found its target.
#[derive(Clone, Copy, PartialEq, Eq, Debug)]
pub enum Path {
    /// In the row that the site's cell dispatches through (a dispatch stub).
    Stub,
    /// In the row that the bucket of token and handle names (a resolve stub).
    Bucket,
    /// In the type's tables, since neither held the pair.
    Walked(Seen),
}

/// The words by which a call saw that neither its cell nor its bucket held the pair.
#[derive(Clone, Copy, PartialEq, Eq, Debug)]
pub struct Seen {
    pub cell: CellWord,
    /// The handle of the row that the cell dispatched through, exactly where it did.
    pub expected: Option<Handle>,
    /// The handle of the row that the bucket named, exactly where it named one.
    pub entry_handle: Option<Handle>,
    /// The token of that row.
    pub entry_token: Option<u16>,
}

/// Whether the one type is compatible with the other, and whether the tables were asked.
#[derive(Clone, Copy, PartialEq, Eq, Debug)]
pub struct CastAnswer {
    pub yes: bool,
    /// No row of the cast cache held the pair.
    pub walked: bool,
}

/// The handle names no type now: its handle row has another generation, or is not live.
#[derive(Clone, Copy, PartialEq, Eq, Debug, Error)]
#[error("{handle:?} names no type now: its handle word is {found:?}")]
pub struct Unloaded {
    pub handle: Handle,
    /// The handle word that was loaded.
    pub found: HandleWord,
}

/// What a look into the resolve cache finds.
#[derive(Clone, Copy, PartialEq, Eq, Debug)]
pub enum Found {
    /// The bucket names a row of this handle and token, with this target.
    Hit(u32),
    /// The bucket names a row of this other handle and token.
    Other(Handle, u16),
    /// The bucket names no row.
    Empty,
}

/// What a sweep of limbo did.
#[derive(Clone, Copy, PartialEq, Eq, Debug)]
pub enum Swept {
    /// No row was in limbo.
    Empty,
    /// The epoch word of this caller is neither 0 nor at least the epoch of the oldest row plus 2, so
    /// the caller may protect that row.
    Blocked { caller: u16, epoch: u64 },
    /// The oldest row in limbo is free again.
    Freed(u16),
}
