//! What the cast cache answers.

/// A pair that no probe of the cast cache held, and what `put` needs to know of the probes.
#[derive(Clone, Copy, PartialEq, Eq, Debug)]
pub struct Miss {
    pub region: u16,
    /// The row of the first probe.
    pub home: u32,
    /// The version first loaded at each probe.
    pub versions: [u64; 8],
}

/// What a look into the cast cache finds.
#[derive(Clone, Copy, PartialEq, Eq, Debug)]
pub enum Find {
    /// The pair, with its answer.
    Hit(bool),
    Miss(Miss),
}

/// What became of the answer of a cast that missed.
#[derive(Clone, Copy, PartialEq, Eq, Debug)]
pub enum Put {
    /// It stands in a row now.
    Written,
    /// The next region is in use now.
    Grew,
    Nothing(Lost),
}

/// Why nothing was written.
#[derive(Clone, Copy, PartialEq, Eq, Debug)]
pub enum Lost {
    /// The version of the chosen row is odd or at its end.
    Busy(u64),
    /// The exchange of the chosen row's version found this word.
    Claim(u64),
    /// The exchange of the region found this word.
    Grow(u64),
}
