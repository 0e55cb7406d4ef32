//! What a script answers: the type that each variable of a lane names at each operation, and so the target of each call
//! and the value of each cast, from plain tables; and the numbers of dispatch tokens.
#![tactic(auto)]

mod answering;
mod laws;
mod numbering;

pub use answering::answer_lanes;
pub use laws::{latest_load_law, numbering_law};
pub use numbering::{Tokens, number_tokens, pairs_of_sites};

#[cfg(test)]
mod tests;
