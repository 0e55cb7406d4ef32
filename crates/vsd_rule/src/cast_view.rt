//! What a seat knows of cast rows.

use std::collections::LinkedList;
use vsd_words::{CastWord, Handle};

/// A look at a cast row, of which the version was loaded first.
pub struct Probe {
    /// The number of the cast row, counted over all regions.
    pub row: u32,
    pub version: u64,
    pub source: Option<Handle>,
    pub word: Option<CastWord>,
}

/// What a seat has stored in a cast row since it made the version odd.
pub struct Written {
    pub version: u64,
    pub source: Option<Handle>,
    pub word: Option<CastWord>,
}

/// A cast row of which this seat made the version odd, and what it stored there since; `None` from
/// the store on that made it even again.
pub struct CastRowWrite {
    pub row: u32,
    pub written: Option<Written>,
}

/// A seat's reason to answer a cast of `source` to `target` with `yes`.
pub struct CastEvidence {
    pub source: Handle,
    pub target: Handle,
    pub yes: bool,
}

/// What a seat knows of the cast cache.
pub struct CastView {
    /// Its latest look at a cast row.
    pub probe: Option<Probe>,
    /// The cast rows that it is writing: the first entry for a row counts.
    pub writes: LinkedList<CastRowWrite>,
    /// What it may answer casts by.
    pub evidences: LinkedList<CastEvidence>,
}
