//! Which declarations are lawful, and what lawful ones tell: the place of each name's declaration, depths, the roots of
//! methods, and what overrides implement.
#![tactic(auto)]

mod checked;
mod checking;
mod earliest;
mod implementing;
mod lawful;
mod overriding;
mod refusal;
mod settling;
mod shape;

pub use checked::Checked;
pub use checking::check;
pub use refusal::{Cause, CheckError, Shown};
