//! The resolve cache: buckets that name rows, found by a hash of token and handle.
//!
//! It answers the calls of sites whose cells don't (the hash table behind the resolve stubs of Virtual
//! Stub Dispatch, Book of the Runtime). All sites share it, and a pair of token and handle has one bucket,
//! which names at most one row:
//!
//! ```text
//!   find   load the bucket; of the row that it names load the handle and the token;
//!          where both are the pair's load the target
//!   put    swap a filled row in; the row that came out, if any, is the caller's to retire
//!   purge  swap the bucket empty, likewise
//!   look   load a bucket, for whoever goes over all of them
//! ```
//!
//! A swap is one step, so each row comes out once and to one caller. A row that was loaded from a bucket
//! is protected by its loader until that unpins, so its three words are of one pair, whatever is swapped
//! in meanwhile. No call takes memory, and none waits. `docs/running.md` tells the rule on buckets and
//! rows.
#![tactic(auto)]

mod buckets;
mod finding;

pub use buckets::{look, purge, put};
pub use finding::find;
pub use vsd_trails::Found;
