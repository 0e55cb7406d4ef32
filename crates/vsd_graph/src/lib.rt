//! Directed graphs: the levels of their places where no walk comes back, and else which places reach themselves.
#![tactic(auto)]

mod levels;
mod reaching;

pub use levels::place_levels;
pub use reaching::reaches_itself;
