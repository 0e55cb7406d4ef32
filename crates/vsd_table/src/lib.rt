//! The shared table of the runtime: words of 64 bits that change in single atomic steps, under the
//! rule of `vsd_rule`, and the seats through which callers make these steps.
//!
//! The table has the indirection cells of call sites, the rows that they dispatch through, and the
//! buckets of the resolve cache (Book of the Runtime, "Virtual Stub Dispatch"), the cast rows
//! (CastCache of CoreCLR), the words of handles, and an epoch with a word per caller (epoch-based
//! reclamation, as in crossbeam-epoch).
//!
//! # Steps
//!
//! [`layout`] makes a table with one [`Seated`] per caller. Each method of a seat is one step: one
//! load, store, swap, exchange, or fetch and add of one word. All steps stand in one order. A step
//! takes no memory and waits for nobody. Callers, sites, tokens, rows, buckets and regions are numbered
//! from 0, each below the count of them that [`Sizes`] has; handle rows are the hosts', and then 64 of each
//! caller. It ensures
//!
//! - that the table is the same, and that the seat's view is exactly this one afterwards: so callers
//!   compose steps by their views, and no step stays uncounted;
//! - what the rule tells of the word found: its range, that a protected row's word is found again, what
//!   the caller's own words are.
//!
//! What a step asks is what its caller must know for the rule to be kept: a row's words are stored
//! only while the row is private, a row is published only with an evidence for its target, and a row
//! is freed only once a sweep has passed every caller.
//!
//! # One form for all kinds of step
//!
//! A proof sees a step by its word and its operands alone. So a kind of step says what it is given,
//! which word and operands that makes, and what it tells of its seat (`specs/StepKind.antt`). Methods of
//! any kind are `load`, `store`, `swap`, `exchange` and `add` (`stepping.rt`); each step method is one of
//! them with its kind, and its proof is that its kind keeps the rule. `docs/running.md` lists the steps,
//! and tells how one is added.
#![tactic(auto)]

mod bucket_kinds;
mod buckets;
mod cast_kinds;
mod casts;
mod cell_kinds;
mod cells;
mod epoch_kinds;
mod handle_kinds;
mod handles;
mod limbo;
mod limbo_kinds;
mod offsets;
mod opening;
mod pinning;
mod row_kinds;
mod rows;
mod seated;
mod shared;
mod step_kind;
mod stepping;
#[cfg(test)]
mod tests;

pub use opening::layout;
pub use seated::Seated;
pub use shared::Shared;
pub use vsd_rule::{Doing, Resolver, RowWord, Sizes};
