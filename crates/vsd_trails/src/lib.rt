//! What each operation on the shared table does, as a program whose runs are lists of atomic steps.
//! Nothing here runs but the types of answers: contracts of the crates above cite the definitions
//! in `specs/`, and the functions of `laws` and `operations` ensure what follows from them.
//!
//! A **program** (`specs/Programs.antt`) asks for one step, looks at the word that the step found,
//! and goes on; it may look at the caller's cursor and limbo, and it ends in an answer. The list of
//! steps that one run makes is its **trail**. Since the words that were found and the fields at the
//! beginning decide everything, a trail has one answer, and no proper prefix of it is a trail.
//!
//! ```text
//!   call     pin, load the cell
//!              Dispatch(r): r has the handle -> r's target (a dispatch stub)
//!                           else count the miss; patch the cell to Resolve and retire r
//!              bucket: its row has the handle and the token -> its target (a resolve stub)
//!                      else load the handle word: not live -> Unloaded
//!                           else walk; a row of the pair into the bucket, the one that came out is retired
//!              the cell was Lookup: a row of the pair into the cell
//!            unpin, sweep the oldest row of limbo
//!   cast     load the region, probe eight rows; without a hit both handle words, and one row written
//!   load     store a live handle word
//!   unload   pin, store the handle word; purge each cell and each bucket; unpin, sweep
//! ```
//!
//! Cells, dispatch and resolve stubs are those of Virtual Stub Dispatch in the Book of the Runtime,
//! the versioned rows of the cast cache those of CoreCLR's CastCache, and limbo with its epochs is
//! epoch-based reclamation. `docs/running.md` has the words and the rule of the shared table.
//!
//! The **log** of a caller (`specs/Logs.antt`) is what its steps come to: a step that begins an
//! operation begins a trail, a whole trail adds one entry, and steps that belong to no trail add
//! none. One definition (`begun` in `specs/Operations.antt`) says which step begins what.
#![tactic(auto)]

mod answers;
mod casting;
pub mod laws;
pub mod operations;

pub use answers::{Answer, CastAnswer, Found, Path, Seen, Swept, Unloaded};
pub use casting::{Find, Lost, Miss, Put};
