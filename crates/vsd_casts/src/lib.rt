//! Casts over the shared table, answered by many callers at once.
//!
//! [`cast`] answers whether the type that one handle names is compatible with the type of another (ECMA-335, I.8.7). It takes
//! the answer from the first of these that has it, as the cast helpers of CoreCLR do over its CastCache:
//!
//! - the cast cache: a row that holds the pair;
//! - the types' tables, by way of a resolver: the types are those that the two handle words name, if both are loaded. The
//!   source's word is loaded first. Then the pair's answer is put into the cache, where the next cast finds it.
//!
//! A caller that finds another writing the row, or loses its exchange, has its answer all the same: nothing waits or is tried
//! again, and no memory is taken. A cast pins nothing: a look at a row needs no more than the row's version, so a row is
//! rewritten while others read it, and a reader that was overtaken has a miss.
//!
//! The function's steps are its trail, a program that `vsd_trails` defines: at most 39 steps, which are 1 load of the region,
//! 8 probes of 4 loads, 2 handle words and 4 steps of a write. `docs/running.md` tells a cast step by step, with a picture of
//! the regions.
#![tactic(auto)]

mod casting;
#[cfg(test)]
mod tests;

pub use casting::cast;
pub use vsd_trails::CastAnswer;
