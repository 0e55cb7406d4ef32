//! The rule that the shared table keeps between any two atomic steps, as plain data. Nothing here
//! runs, but for `Sizes::lawful`.
//!
//! The table is the running side of virtual stub dispatch. A call site has an indirection cell that
//! names a row, in which stand a handle and the target of a call on it: the stub of the Book of the
//! Runtime ("Virtual Stub Dispatch"). Buckets are its resolve cache, and cast rows are the CastCache
//! of CoreCLR: an entry is read under a version that is odd while the entry is being written. Rows
//! are given back by epoch-based reclamation, as in Fraser's "Practical lock-freedom" and the crate
//! crossbeam-epoch.
//!
//! # The life of a row
//!
//! A caller claims a free row, which is then *private*: no other caller reads it. It stores a handle,
//! a token and a target for which it has evidence, and *publishes* the row in a cell or a bucket.
//! Whoever takes the row out keeps it *unlinked*, and *retires* it: loads the epoch, with which the
//! row waits in limbo. A caller that loaded the row before may be reading it still. It is free again
//! once every caller was seen unpinned, or pinned at a later epoch.
//!
//! # Why the words of a protected row stay
//!
//! A caller pins itself before it loads a cell or a bucket: it stores the epoch that it has loaded,
//! plus 1, in its own epoch word. The row that it then loads is *protected*. A row leaves its cell
//! before its retirer loads the epoch e, the epoch never falls, and nobody can begin to protect a row
//! that nothing names: so each protector's pin is at e or before. A sweep that finds a word 0, or at
//! least e + 2, has found a caller that doesn't protect the row, and never will again. So the words
//! of a protected row stay as they were loaded, whatever others do.
//!
//! # What a seat knows
//!
//! [`View`] is what one seat knows: nothing of it has bytes. The rule ties all views to the words. It
//! is proved once per kind of step that the step keeps it, whatever state it finds; so it holds for
//! every order of the callers' steps. `docs/running.md` tells the rule part by part.
#![tactic(auto)]

mod begun;
mod cast_view;
mod handle_view;
mod key;
mod resolver;
mod row_view;
mod sizes;
mod step;
mod view;
mod world;

pub use begun::Begun;
pub use cast_view::{CastEvidence, CastRowWrite, CastView, Probe, Written};
pub use handle_view::{Binding, HandleView};
pub use key::Key;
pub use resolver::Resolver;
pub use row_view::{Evidence, Keeping, KeptRow, KnownWords, ProtectedRow, RetiredRow, RowView};
pub use sizes::Sizes;
pub use step::{Act, Begins, Doing, RowWord, Step};
pub use view::{View, Who};
pub use world::World;
