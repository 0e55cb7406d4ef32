//! A caller's hand: its seat, and beside it what the caller has to remember from step to step.
//!
//! A [`Hand`] has the row at which the next search for a free row begins, and the rows in limbo, the
//! oldest first. The hand's type keeps that cursor and limbo are those that the seat's view has, and that
//! all these rows are the table's.
//!
//! # The life of a row
//!
//! ```text
//!          claim            fill, publish            taken out            retire
//!   free --------> private ---------------> published ---------> unlinked -------> in limbo
//!    ^                |                                                               |
//!    +---- abandon ---+                                                               |
//!    +--------------------------------- sweep ----------------------------------------+
//! ```
//!
//! - [`claim`] tries eight rows at most: what it wins no other caller reads. [`fill`] stores a handle, a
//!   token and a target in it. Cells and buckets are published and taken out in the crates above.
//! - [`pin`] stores the epoch, plus 1, in the caller's epoch word; [`unpin`] stores 0. A row that a pinned
//!   caller loads from a cell or a bucket is protected: the loads of its words find what earlier ones found.
//! - [`retire`] loads the epoch e, with which the row enters limbo, and tries to raise it by one exchange.
//! - [`sweep`] loads the callers' epoch words. Once each was found 0, or at least e + 2, nobody protects the
//!   oldest row, and nobody can begin to: it is free.
//!
//! This is epoch-based reclamation, as in Fraser's "Practical lock-freedom" and the crate crossbeam-epoch,
//! with one bag per caller of at most 16 rows. So no call takes memory, and none waits: where no row was won
//! or limbo has no room for two more, the caller goes on without one. `docs/running.md` tells the rule on
//! rows, and why the words of a protected row stay.
#![tactic(auto)]

mod claims;
mod hand;
mod limbo;
mod pins;
mod retiring;
mod words;

pub use claims::{abandon, claim, fill};
pub use hand::Hand;
pub use limbo::Limbo;
pub use pins::{pin, unpin};
pub use retiring::{retire, room, sweep};
pub use vsd_trails::Swept;
pub use words::{row_handle, row_target, row_token};
