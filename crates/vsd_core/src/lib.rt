//! The runtime: callers on many threads load types, call their methods through call sites, cast them, and
//! unload them, over one table of shared words.
//!
//! [`Runtime::start`] makes a runtime with its [`Caller`]s. A caller is what one thread works with: its
//! seat at the table, its hand and its own handle words. No call waits or takes memory, and none can be
//! made wrong by what other callers do meanwhile.
//!
//! ```text
//!   load    bind a handle to a type                        one step
//!   call    the method that a site means on a handle       the cell, the bucket, or the resolver
//!   cast    whether one handle's type is another's         the cast cache, or the resolver
//!   learn   the type that a handle names                   one step
//!   unload  the handle names nothing any more           a store, then each cell and bucket is purged
//!   owns    whether the caller loaded the handle and has not unloaded it    no step
//! ```
//!
//! A caller has a log: its steps since it was made come to whole operations, each with its answer and its
//! trail (`vsd_trails`). Each call adds its one entry, and `learn` none. The type of [`Caller`] keeps, between
//! any two calls, that it isn't pinned, that no operation is unfinished, and that it has the evidence for each
//! answer in its log.
//!
//! The design is that of Virtual Stub Dispatch in the Book of the Runtime, with rows that are used again by
//! epoch-based reclamation, and of CoreCLR's CastCache; `docs/running.md` tells it.
#![tactic(auto)]

mod agreement;
mod caller;
mod calls;
mod casts;
mod handles;
mod laws;
mod runtime;
mod starting;

pub use agreement::{answers_agree, own_answers_agree};
pub use caller::Caller;
pub use laws::{cast_rows_stay, protected_rows_stay};
pub use runtime::Runtime;
pub use vsd_handles::HandlesFull;
pub use vsd_rule::{Resolver, Sizes};
pub use vsd_trails::{Answer, CastAnswer, Path, Seen, Unloaded};
pub use vsd_words::{CellWord, Handle, HandleWord};

#[cfg(test)]
mod tests;
