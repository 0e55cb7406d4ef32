//! The shared table under its rule.
ghost use Rattle.std.specs.Prelude.{◌≡◌, ◌+◌, ◌*◌, ◌^◌, ◌<◌, ◌≤◌, IfSome};
ghost use Rattle.vsd_words.specs.declared.cell_word.CellWord.TheVariants.{Dispatch};
ghost use Rattle.vsd_words.specs.CellWord.{packed_cell};
ghost use Rattle.vsd_rule.specs.Sizes.{LawfulSizes};
ghost use Rattle.vsd_rule.specs.Layout.{word_count, pin_at, counts_from, cells_from, buckets_from, row_word_at, handles_from, handle_rows, region_at, casts_from, cast_row};
ghost use Rattle.vsd_rule.specs.RowSteps.{offset_of, packed_bucket};
ghost use Rattle.vsd_table.specs.Offsets.{AreOffsets, SameSizes};

use crate::offsets::Offsets;
use atomic_table::{Table, TableRule};
use std::alloc::Global;
use vsd_rule::{Key, RowWord, Sizes, View};
use vsd_words::CellWord;

/// The rule of `vsd_rule`, as the rule of a table that began with the words of opening.
pub(crate) struct SharedRule;

impl TableRule<(), View, Key> for SharedRule {
    ghost use Rattle.vsd_rule.specs.Moves.{root_view};
    ghost use Rattle.vsd_table.specs.Opened.{Ruled};

    ghost holds = { λ key s. Ruled key s.words s.views };

    ghost first = { root_view };
}

/// The words that all callers share, with their sizes. The rule on them holds between any two steps.
#[derive(Drop)]
pub struct Shared {
    pub(crate) table: Table<(), View, Key, SharedRule, Global>,
    pub(crate) sizes: Sizes,
    pub(crate) offsets: Offsets,
    ghost lawful: { LawfulSizes sizes },
    ghost known: { SameSizes sizes table.shared.key.sizes },
    ghost counted: { table.shared.table_id.words ≡ word_count sizes },
    ghost located: { AreOffsets offsets sizes },
    ghost few: { offsets.end < 33000 },
}

impl Shared {
    ghost use Rattle.vsd_table.specs.Seating.{key_of};

    /// The sizes that the table was laid out with.
    pub fn sizes(&self) -> Sizes
        ensures known { result ≡ (key_of self.now).sizes }
        ensures lawful { LawfulSizes result }
    {
        self.sizes
    }

    /// Where a caller's epoch word lies.
    #[inline]
    pub(crate) fn pin_index(&self, caller: u16) -> usize
        requires { caller < (key_of self.now).sizes.callers }
        ensures index { result ≡ pin_at caller }
        ensures within { result < self.now.table.shared.table_id.words }
    {
        8 + 8 * usize::from(caller)
    }

    /// Where a token's counter lies.
    #[inline]
    pub(crate) fn count_index(&self, token: u16) -> usize
        requires { token < (key_of self.now).sizes.tokens }
        ensures index { result ≡ counts_from (key_of self.now).sizes + token }
        ensures within { result < self.now.table.shared.table_id.words }
    {
        self.offsets.counts + usize::from(token)
    }

    /// Where a site's cell lies.
    #[inline]
    pub(crate) fn cell_index(&self, site: u16) -> usize
        requires { site < (key_of self.now).sizes.sites }
        ensures index { result ≡ cells_from (key_of self.now).sizes + site }
        ensures within { result < self.now.table.shared.table_id.words }
    {
        self.offsets.cells + usize::from(site)
    }

    /// Where a bucket lies.
    #[inline]
    pub(crate) fn bucket_index(&self, bucket: u32) -> usize
        requires { bucket < (key_of self.now).sizes.buckets }
        ensures index { result ≡ buckets_from (key_of self.now).sizes + bucket }
        ensures within { result < self.now.table.shared.table_id.words }
    {
        self.offsets.buckets + bucket as usize
    }

    /// The word of a cell that dispatches through the row.
    #[inline]
    pub(crate) fn packed_dispatch(&self, row: u16) -> u64
        requires { row < (key_of self.now).sizes.rows }
        ensures { result ≡ packed_cell (Dispatch row) }
    {
        CellWord::Dispatch(row).pack()
    }

    /// The row that a bucket's word names: one less than the word, or `None` at 0.
    #[inline]
    pub(crate) fn unpacked_bucket(&self, word: u64) -> Option<u16>
        requires { word ≤ (key_of self.now).sizes.rows }
        ensures packing { word ≡ packed_bucket result }
        ensures in_table { IfSome result (λ row. row < (key_of self.now).sizes.rows) }
    {
        let row = word.checked_sub(1)?;
        Some(row as u16)
    }

    /// Where one of a row's four words lies.
    #[inline]
    pub(crate) fn row_word_index(&self, row: u16, which: RowWord) -> usize
        requires { row < (key_of self.now).sizes.rows }
        ensures index { result ≡ row_word_at (key_of self.now).sizes row (offset_of which) }
        ensures within { result < self.now.table.shared.table_id.words }
    {
        self.offsets.rows + (4 * usize::from(row) + offset_of(which))
    }

    /// Where the word of a handle row lies.
    #[inline]
    pub(crate) fn handle_index(&self, row: u16) -> usize
        requires { row < handle_rows (key_of self.now).sizes }
        ensures index { result ≡ handles_from (key_of self.now).sizes + row }
        ensures within { result < self.now.table.shared.table_id.words }
    {
        self.offsets.handles + usize::from(row)
    }

    /// Where the region in use lies.
    #[inline]
    pub(crate) fn region_index(&self) -> usize
        ensures index { result ≡ region_at (key_of self.now).sizes }
        ensures within { result < self.now.table.shared.table_id.words }
        ensures few { (key_of self.now).sizes.regions ≤ 6 }
    {
        self.offsets.region
    }

    /// Where the version of a cast row lies. Its source and its cast word lie next to it.
    #[inline]
    pub(crate) fn cast_index(&self, region: u16, row: u32) -> usize
        requires region { region < (key_of self.now).sizes.regions }
        requires row { row < 128 * 2 ^ region }
        ensures index { result ≡ casts_from (key_of self.now).sizes + 3 * cast_row region row }
        ensures within { result + 2 < self.now.table.shared.table_id.words }
    {
        self.offsets.casts + 3 * cast_row(region, row)
    }
}

/// The number of a cast row, counted over all regions.
#[inline]
#[tactic(auto, using(crate::proofs::Powers::few_regions), unfolding(vsd_rule::specs::Layout::cast_row))]
fn cast_row(region: u16, row: u32) -> usize
    requires { region < 6 }
    ensures number { result ≡ cast_row region row }
    ensures few { result < 8192 + row }
{
    128 * ((1 << region) - 1) + row as usize
}

/// Which of a row's four words it is.
#[inline]
fn offset_of(which: RowWord) -> usize
    ensures value { result ≡ offset_of which }
    ensures few { result < 4 }
{
    match which {
        RowWord::Claim => 0,
        RowWord::Handle => 1,
        RowWord::Token => 2,
        RowWord::Target => 3,
    }
}
