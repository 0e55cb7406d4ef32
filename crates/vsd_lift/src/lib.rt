//! Types and signatures of a class above, compared with those of a class below it.
//!
//! A type that a class inherits is written with the parameters of the class above. What it is in the class below comes
//! from putting in the arguments of each `extends` between (ECMA-335, II.9.9, II.10.3). That term can be far larger than
//! what is written, up to two to the number of classes, so it is never made: a comparison goes down the written term of
//! the class below, and follows a parameter of a class above to its argument when it meets one.
//!
//! A chain lists declarations by their numbers, from the lowest class upward. The class at level 0 is the lowest.
#![tactic(auto)]

mod equality_up;
mod given;
mod hierarchy;
mod signatures;
mod standing;
mod upward;

pub use equality_up::{all_same_up, same_up};
pub use given::base_arguments;
pub use hierarchy::Hierarchy;
pub use signatures::same_signature_up;
pub use standing::{Standing, resolve};
pub use upward::{chain, extended, places};
