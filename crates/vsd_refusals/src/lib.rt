//! Why a text is refused: the first refusal of its stages, and the line that is written for it.
#![tactic(auto)]

mod lines;
mod refusal;

pub use lines::refusal_line;
pub use refusal::Refusal;
