//! The sizes of a table.
ghost use Rattle.std.specs.Prelude.{IsTrue, ◌↔◌};
ghost use Rattle.vsd_words.specs.Hash.{IsBucketCount};
ghost use Rattle.vsd_rule.specs.Sizes.{LawfulSizes, LawfulCounts, LawfulRows};

/// How large a table is.
#[derive(Clone, Copy, PartialEq, Eq, Debug)]
pub struct Sizes {
    /// Callers, 1 to 16. Each has 64 handle rows.
    pub callers: u16,
    /// Call sites, 0 to 256, each with a cell.
    pub sites: u16,
    /// Dispatch tokens, 0 to 256, each with a counter of misses.
    pub tokens: u16,
    /// Rows that cells and buckets name, 0 to 1,024.
    pub rows: u16,
    /// Buckets of the resolve cache, a power of two from 1 to 1,024.
    pub buckets: u16,
    /// Hosts, 0 to 256: types that are loaded from the start.
    pub hosts: u16,
    /// Regions of the cast cache, 1 to 6.
    pub regions: u16,
    /// The count of misses at which a dispatch cell is patched, 1 to 1,000.
    pub miss: u64,
}

impl Sizes {
    /// Whether each size is in the range that its field tells.
    pub fn lawful(&self) -> bool
        ensures { IsTrue result ↔ LawfulSizes self.now }
    {
        self.has_lawful_counts() && self.has_lawful_rows() && self.has_lawful_buckets()
    }

    fn has_lawful_counts(&self) -> bool
        ensures { IsTrue result ↔ LawfulCounts self.now }
    {
        self.callers >= 1
            && self.callers <= 16
            && self.hosts <= 256
            && self.regions >= 1
            && self.regions <= 6
    }

    fn has_lawful_rows(&self) -> bool
        ensures { IsTrue result ↔ LawfulRows self.now }
    {
        self.sites <= 256
            && self.tokens <= 256
            && self.rows <= 1024
            && self.miss >= 1
            && self.miss <= 1000
    }

    fn has_lawful_buckets(&self) -> bool
        ensures { IsTrue result ↔ IsBucketCount self.now.buckets }
    {
        self.buckets.is_power_of_two() && self.buckets <= 1024
    }
}
