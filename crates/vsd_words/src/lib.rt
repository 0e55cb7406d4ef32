//! The words of the shared table, each one `u64`, and the two hashes that place a pair in a cache.
//!
//! Callers change the shared table by single atomic steps on single words. So all that has to change at once stands in one
//! word, packed by a formula of sums and products:
//!
//! ```text
//!   handle        row + 32768 * generation                                         names a type while it is loaded
//!   handle word   live + 2 * immortal + 4 * number + 262144 * generation            what the table has for a row of handles
//!   cell          0 at Lookup, 1 at Resolve, 2 + row at Dispatch                    what a call site does next
//!   cast word     2 * target + yes, over the packed target                          what a cast row has beside its source
//! ```
//!
//! Cells are the indirection cells of Virtual Stub Dispatch (Book of the Runtime), and a cast word keeps the answer in the low
//! bit of the target as the CastCache of CoreCLR does. A generation tells apart the types that had one row of handles: a word
//! that was read before a row was bound again names nothing afterwards.
//!
//! `pack` is the formula; `unpack` gives a value exactly for the words that pack one in range, so no word has two readings;
//! `of_packing` reads without a test where such a word is known to stand. `bucket_of` and `home_of` place a pair of token and
//! handle, and a pair of handles, by multiplicative hashing. Nothing here takes memory. `docs/running.md` tells where the words
//! lie and who may change them.
#![tactic(auto)]

pub use cast_word::CastWord;
pub use cell_word::CellWord;
pub use handle::Handle;
pub use handle_word::HandleWord;
pub use hash::{bucket_of, home_of};

mod cast_word;
mod cell_word;
mod handle;
mod handle_word;
mod hash;
#[cfg(test)]
mod tests;
