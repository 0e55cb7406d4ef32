//! What a step is.
use crate::row_view::RetiredRow;
use std::collections::LinkedList;
use vsd_words::{CastWord, Handle};

/// The operation that a pin begins. `Nothing` is for a pin by itself.
#[derive(Clone, Copy, PartialEq, Eq, Debug)]
pub enum Doing {
    Nothing,
    Call { site: u16, handle: Handle },
    Unload { handle: Handle },
}

/// What a seat begins with a load that carries no word of it: a load of the epoch begins an
/// operation, and a load of the region a cast.
#[derive(Clone, Copy, PartialEq, Eq, Debug)]
pub enum Begins {
    Operation(Doing),
    Cast { source: Handle, target: Handle },
}

/// One of the four words of a row.
#[derive(Clone, Copy, PartialEq, Eq, Debug)]
pub enum RowWord {
    /// 0 while the row is free, else 1.
    Claim,
    Handle,
    Token,
    Target,
}

/// What a step does, to which word, and with what operands. A cast row is named by its region and
/// its number there.
pub enum Act {
    /// A load of the first word, at which a seat for the next caller is split off.
    Split,
    /// A load of the epoch, which may begin an operation.
    Epoch,
    /// A store of the epoch plus 1 in the own epoch word.
    Pin(u64),
    /// A store of 0 in the own epoch word.
    Unpin,
    /// An exchange of a row's claim word from free to claimed.
    Claim(u16),
    SetHandle(u16, Handle),
    SetToken(u16, u16),
    SetTarget(u16, u32),
    /// A load of one of a row's words.
    LoadRow(u16, RowWord),
    /// A store of free in the claim word of a row that was never named since its claim.
    Free(u16),
    /// A load of a site's cell.
    LoadCell(u16),
    /// An exchange of a site's cell from Lookup to Dispatch of a row.
    ToDispatch(u16, u16),
    /// An exchange of a site's cell from Dispatch of a row to Resolve.
    ToResolve(u16, u16),
    /// An exchange of a site's cell from Dispatch of a row to Lookup.
    ToLookup(u16, u16),
    /// A fetch and add of 1 on a token's counter.
    Count(u16),
    LoadBucket(u32),
    /// A swap of a row into a bucket.
    PutBucket(u32, u16),
    /// A swap of a bucket to empty.
    EmptyBucket(u32),
    /// A load of a row's handle word.
    LoadHandle(u16),
    /// A store of a live handle word: row, generation, number.
    Bind(u16, u32, u16),
    /// A store of a handle word that is not live: row, generation, number.
    Unbind(u16, u32, u16),
    /// A first load of a cast row's version.
    LoadVersion(u16, u32),
    LoadSource(u16, u32),
    LoadCast(u16, u32),
    /// A second load of a cast row's version.
    LoadVersionAgain(u16, u32),
    /// An exchange of a cast row's version from 0 to 1.
    ClaimCast(u16, u32),
    SetSource(u16, u32, Handle),
    SetCast(u16, u32, CastWord),
    /// A store of an even version.
    Publish(u16, u32, u64),
    /// A load of the region, which begins a cast.
    LoadRegion,
    /// An exchange of a cast row's version from an even one to the next odd one.
    ReclaimCast(u16, u32, u64),
    /// An exchange of the region to the next one.
    Grow(u16),
    /// A load of the epoch, at which a row enters limbo.
    EpochToRetire(u16),
    /// An exchange of the epoch to the next one.
    Raise(u64),
    /// A load of a caller's epoch word by a sweep.
    EpochOf(u16),
    /// A store of free in the claim word of the oldest row in limbo.
    FreeSwept(u16),
}

/// A step that a seat made: what it did, the word that it found (0 where a step answers none), and
/// the fields of the seat's view that decide steps, as they stood before it.
pub struct Step {
    pub act: Act,
    pub found: u64,
    pub cursor: u16,
    pub limbo: LinkedList<RetiredRow>,
}
