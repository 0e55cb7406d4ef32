//! Unloads of types over the shared table, beside the calls and casts of other callers.
//!
//! [`unload`] makes a handle that its caller owns name no loaded type any more, and takes it out of what
//! would answer calls for it, so that its rows are free for others:
//!
//! - it pins the caller, and first stores the handle word, not live: from here on no walk on the handle is
//!   answered;
//! - it loads the cell of every site, and where that dispatches through a row of the handle (a dispatch stub
//!   of Virtual Stub Dispatch, Book of the Runtime) tries to take the row out and leave the cell at Lookup;
//! - it loads every bucket of the resolve cache, and where that names a row of the handle swaps it empty;
//! - it unpins, and sweeps the oldest row in the caller's limbo.
//!
//! A row that was taken out is retired, and free again once nobody protects it. Where limbo has no room for
//! two more rows nothing is taken out any more; an exchange that was lost is not tried again. So an unload
//! never waits, and a row of the handle may stay: it answers for the type that the handle named, which no
//! later load into the handle's row changes, since that is a handle of its own.
//!
//! Each function's steps are its trail, a program that `vsd_trails` defines. `docs/running.md` tells an
//! unload step by step.
#![tactic(auto)]

mod buckets;
mod cells;
mod due;
mod unloading;

pub use unloading::unload;
