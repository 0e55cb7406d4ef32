//! Where the words of a table lie.
ghost use Rattle.std.specs.Prelude.{◌≡◌, ◌<◌, ◌≤◌};
ghost use Rattle.vsd_rule.specs.Sizes.{LawfulSizes};
ghost use Rattle.vsd_rule.specs.Layout.{cast_rows};
ghost use Rattle.vsd_table.specs.Offsets.{AreOffsets};

use vsd_rule::Sizes;

/// Where the words of a table lie, by purpose: the number of the first of each.
#[derive(Clone, Copy)]
pub(crate) struct Offsets {
    pub(crate) counts: usize,
    pub(crate) cells: usize,
    pub(crate) rows: usize,
    pub(crate) buckets: usize,
    pub(crate) handles: usize,
    pub(crate) region: usize,
    pub(crate) casts: usize,
    /// How many words there are.
    pub(crate) end: usize,
}

impl Offsets {
    pub(crate) fn of(sizes: Sizes) -> Offsets
        requires { LawfulSizes sizes }
        ensures offsets { AreOffsets result sizes }
        ensures few { result.end < 33000 }
    {
        let counts = 8 + 8 * usize::from(sizes.callers);
        // No counter lies on the cache line of a cell, which every call through a stub loads.
        let cells = counts + usize::from(sizes.tokens) + 7;
        let rows = cells + usize::from(sizes.sites);
        let buckets = rows + 4 * usize::from(sizes.rows);
        let handles = buckets + usize::from(sizes.buckets);
        let region = handles + usize::from(sizes.hosts) + 64 * usize::from(sizes.callers);
        let casts = region + 1;
        Offsets {
            counts,
            cells,
            rows,
            buckets,
            handles,
            region,
            casts,
            end: casts + 3 * cast_rows(sizes),
        }
    }
}

/// How many rows the cast regions have together.
#[tactic(auto, using(crate::proofs::Powers::few_regions), unfolding(vsd_rule::specs::Layout::cast_rows))]
fn cast_rows(sizes: Sizes) -> usize
    requires { LawfulSizes sizes }
    ensures rows { result ≡ cast_rows sizes }
    ensures few { result ≤ 8064 }
{
    128 * ((1 << sizes.regions) - 1)
}
