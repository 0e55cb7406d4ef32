//! Interface calls over the shared table, answered by many callers at once.
//!
//! [`call`] pins its caller, answers, unpins, and sweeps the oldest row in the caller's limbo. It takes the
//! answer from the first of these that has it, as in Virtual Stub Dispatch (Book of the Runtime):
//!
//! - the site's cell: its row has the handle (a dispatch stub). Where the row has another handle, the call
//!   counts a miss, and after enough of them takes the row out and leaves the cell at Resolve;
//! - the bucket of the pair of token and handle: its row has both (a resolve stub);
//! - the type's tables, by way of a resolver: the type is the one that the handle's word names, if it is
//!   loaded. Then a row of the pair goes into the bucket, where the next call finds it, and the row that
//!   came out is retired.
//!
//! A call whose cell was at Lookup also puts a row of the pair there. A caller that finds no free row, has no
//! room in limbo, or loses an exchange has its answer all the same: nothing waits or is tried again.
//!
//! Each function's steps are its trail, a program that `vsd_trails` defines. `docs/running.md` tells the
//! words, the rule that each step keeps, and what it says of answers.
#![tactic(auto)]

mod caching;
mod calling;
mod installing;
mod patching;
mod stubs;
mod walking;

pub use calling::call;
