//! Closed types: every type that lawful declarations and a list of types lead to, each with a number.
#![tactic(auto)]

mod children;
mod closed;
mod closing;
mod entry;
mod error;
mod kind;
mod origin;

pub use closed::Closed;
pub use closing::close;
pub use error::CloseError;
