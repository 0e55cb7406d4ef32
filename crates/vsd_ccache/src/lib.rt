//! The cast cache: rows that hold a pair of handles with the answer of a cast between them, found by a hash of the pair.
//!
//! It is the CastCache of CoreCLR. An entry has a version, the source, and the target with the answer in the low bit. It is
//! read and written as under a sequence lock: the version is odd while one caller writes the row, and no reader takes a row
//! whose version it did not load twice, the same, even and not 0. So a reader never waits, and a writer waits for nobody.
//!
//! # Regions and probes
//!
//! The rows lie in regions, of which each has twice as many as the one before. One word says which region is in use: it only
//! grows, and casts go to a new region from then on, whose rows fill anew. In it a pair has eight rows, from its home on and
//! round the end:
//!
//! ```text
//!   region 0   128 rows
//!   region 1   256 rows
//!   region j   128 * 2^j rows         home      home + 7
//!              ........................|v v v v v v v v|.........
//! ```
//!
//! # A look and a write
//!
//! ```text
//!   find   load the region; of each of the eight rows load the version, the source, the cast word, and the version again
//!            both versions are equal, even and not 0, and the row has the pair -> Hit(answer)
//!            no row was so                                                     -> Miss(region, home, the versions loaded first)
//!            probe_first and probe_others are its two halves: the first row, and the other seven
//!   put    a version was 0          -> the first such row
//!          none was, a next region  -> one exchange of the region to it      won: Grew         lost: Grow(region found)
//!          none was, no next region -> the row at (source + target) mod 8
//!          that row's version v is odd, or 2^62                              -> Busy(v), nothing is tried
//!          else one exchange of the version from v to v + 1                  lost: Claim(version found)
//!                 won: store the source, the cast word, and the version v + 2      -> Written
//! ```
//!
//! Only the caller whose exchange made a version odd stores in the row, and it stores what it has evidence of. So where both
//! versions that a reader loads are the same even one, the two words between were written together, and the answer is the
//! world's for the types that the two handles name. A version stops at 2^62, and its row then stays as it is.
//!
//! No call takes memory, and none waits. What a caller finds of another's write is a miss; what it fails to write is written
//! at another cast. `docs/running.md` tells a cast step by step, and the rule on cast rows.
#![tactic(auto)]

mod finding;
mod probing;
mod putting;
mod regions;

pub use finding::{First, FirstMiss, find, probe_first, probe_others};
pub use putting::put;
pub use vsd_trails::{Find, Lost, Miss, Put};
