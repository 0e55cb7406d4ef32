//! Tests that cross crates of the reading side, over whole texts.
#![tactic(auto)]

#[cfg(test)]
mod builtin_types;
#[cfg(test)]
mod checking;
#[cfg(test)]
mod names;
#[cfg(test)]
mod scripts;
