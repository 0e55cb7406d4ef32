//! What a seat knows of rows.

use std::collections::LinkedList;
use vsd_words::Handle;

/// What is known of the words of a row: its handle, token and target.
pub struct KnownWords {
    pub handle: Option<Handle>,
    pub token: Option<u16>,
    pub target: Option<u32>,
}

/// A row that a pinned seat has loaded from a cell or a bucket since it pinned, which it protects.
pub struct ProtectedRow {
    pub row: u16,
    /// The site from whose cell it was loaded, if it was one.
    pub site: Option<u16>,
    /// The words of the row that it loaded.
    pub seen: KnownWords,
}

/// How a seat keeps a row.
pub enum Keeping {
    /// Not at all: the row is free, published, or another seat keeps it.
    Elsewhere,
    /// Claimed and private: no cell or bucket has named it since. With the words stored in it since.
    Private(KnownWords),
    /// Unlinked: this seat took it out of the cell or bucket that named it.
    Unlinked,
    /// Retired, and in limbo since the load of this epoch.
    Retired(u64),
}

/// How a seat keeps a row, from some step on.
pub struct KeptRow {
    pub row: u16,
    pub keeping: Keeping,
}

/// A retired row, with the epoch that its retirer loaded.
pub struct RetiredRow {
    pub row: u16,
    pub epoch: u64,
}

/// A seat's reason to answer a call on `handle` through `token` with `target`.
pub struct Evidence {
    pub handle: Handle,
    pub token: u16,
    pub target: u32,
}

/// What a seat knows of rows, and what it does with them.
pub struct RowView {
    /// Its own epoch word: 0 where it is not pinned, else one more than the epoch at which it is.
    pub pinned: u64,
    /// What its last load of the epoch found.
    pub epoch: Option<u64>,
    /// The row at which its next search for a free row begins.
    pub cursor: u16,
    /// The rows that it protects while it is pinned, the latest first.
    pub protected: LinkedList<ProtectedRow>,
    /// How it keeps each row: the first entry for a row counts, and where there is none it does not.
    pub kept: LinkedList<KeptRow>,
    /// Its retired rows, the oldest first.
    pub limbo: LinkedList<RetiredRow>,
    /// Its running sweep has passed the callers below this number.
    pub passed: u16,
    /// What it may answer calls by.
    pub evidences: LinkedList<Evidence>,
}
