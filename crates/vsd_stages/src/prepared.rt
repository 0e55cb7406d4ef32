//! Answers that are ready to be written.
use vsd_ast::{Bytes, Script};

/// A script with its answers, and the texts that its lines name.
#[derive(Drop)]
pub struct Prepared {
    pub(crate) script: Script,
    /// The token of each site.
    pub(crate) site_tokens: Vec<u16>,
    /// The texts of the methods that are called, by the methods' numbers.
    pub(crate) method_texts: Vec<Bytes>,
    /// The texts of the tokens' slots.
    pub(crate) slot_texts: Vec<Bytes>,
    /// The answers of each lane, call by call and cast by cast.
    pub(crate) answers: Vec<Vec<u32>>,
}
