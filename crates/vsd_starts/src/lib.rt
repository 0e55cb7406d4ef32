//! Tests of the first programs of the running side that the README and `docs/library.md` show.
#![tactic(auto)]

#[cfg(test)]
mod starts;
