//! The indirection cells of call sites, and the counters of misses.
//!
//! Each call site has one cell, one word of the shared table, through which its calls go (the indirection
//! cell of Virtual Stub Dispatch, Book of the Runtime):
//!
//! ```text
//!             to_dispatch                    to_resolve
//!   Lookup  -------------->  Dispatch(row)  ------------>  Resolve
//!      ^                          |
//!      +------- to_lookup --------+
//! ```
//!
//! - At *Lookup* no call has installed anything yet.
//! - *Dispatch* names a row with a handle and the target of calls on it: a dispatch stub, which answers
//!   for one handle. A call on another handle counts a miss of the site's token ([`miss`]).
//! - At *Resolve* the site's calls go to the resolve cache, since too many missed.
//!
//! Each arrow is one exchange, so two callers never both install or take out. Who puts a row in gives it
//! up, and who takes one out keeps it, *unlinked*, until it is retired: a caller that loaded the cell
//! before may be reading the row still, since [`read`] makes it protect the row until it unpins. No call
//! takes memory, and none waits. `docs/running.md` tells the rule on cells and rows.
#![tactic(auto)]

mod cells;
mod counters;

pub use cells::{read, to_dispatch, to_lookup, to_resolve};
pub use counters::miss;
