//! Lanes of a script: how their operations are read, and what they mean with repeats written out.
#![tactic(auto)]

mod ground;
mod laws;
mod lookup;
mod meaning;
mod operations;
mod reading;
mod repeats;
mod tree;
mod types;
mod variables;

pub use ground::Ground;
pub use laws::{
    lanes_are_decided, lanes_call_concrete_objects, lanes_mean_their_items, lanes_use_what_lives,
    operations_are_read_as_made,
};
pub use lookup::{host_in, numbered, site_in};
pub use operations::{Step, assigned};
pub use reading::{Fresh, Object, Own, Reading, Role, show};
pub use repeats::{Body, MOST_DIGITS, Verb, lane};
pub use tree::{Halt, Item, Live, Refusal, Running, Written};
pub use types::Types;
pub use variables::Variables;
