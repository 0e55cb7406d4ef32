//! The steps on the region and on cast rows, which are read and written as under a sequence lock: an odd version says
//! that its row is being written, and a reader loads the version before and after the other two words. Regions are numbered
//! from 0, and the rows of region `r` from 0 to below 128 * 2^`r`.
ghost use Rattle.std.specs.Prelude.{◌≡◌, ◌<◌, ◌≤◌, ◌+◌, ◌*◌, ◌%◌, ◌^◌, ℕ, ◌∷◌, Bool, Some, IsTrue, ◌↔◌};
ghost use Rattle.vsd_words.specs.declared.handle.Handle.{Handle};
ghost use Rattle.vsd_words.specs.Handle.{HandleInRange, IsHandlePacking};
ghost use Rattle.vsd_words.specs.CastWord.{CastWordInRange, IsCastPacking};
ghost use Rattle.vsd_words.specs.declared.cast_word.CastWord.{CastWord};
ghost use Rattle.vsd_rule.specs.declared.cast_view.Written.{Written};
ghost use Rattle.vsd_rule.specs.declared.step.Begins.TheVariants.{Cast};
ghost use Rattle.vsd_rule.specs.Layout.{cast_row};
ghost use Rattle.vsd_rule.specs.Casts.{write_of};
ghost use Rattle.vsd_rule.specs.Evidence.{HasCastEvidence, CastsAgree};
ghost use Rattle.vsd_rule.specs.CastSteps.{after_region, after_grow, after_version, after_source, after_cast_word, after_version_again, after_claim_cast, after_reclaim_cast, after_set_source, after_set_cast, after_publish};
ghost use Rattle.vsd_table.specs.Seating.{key_of, view_of, begun_of, Belongs, Becomes, BecomesWith};

use crate::cast_kinds::{
    ClaimCast, Grow, LoadCast, LoadRegion, LoadSource, LoadVersion, LoadVersionAgain, Publish,
    ReclaimCast, SetCast, SetSource,
};
use crate::seated::Seated;
use crate::shared::Shared;
use vsd_rule::Begins;
use vsd_words::{CastWord, Handle};

impl Seated {
    /// Loads the region in use, and begins a cast of `source` to `target`. Answers the region's number, below the
    /// sizes' `regions`.
    #[inline]
    pub fn region(&mut self, table: &Shared, source: Handle, target: Handle) -> u16
        requires seat { Belongs table.now self.old }
        ensures step { BecomesWith self.old self.new (after_region (view_of self.old) result) (Cast source target ∷ begun_of self.old) }
        ensures seat { Belongs table.now self.new }
        ensures lawful { result < (key_of table.now).sizes.regions }
    {
        let index = table.region_index();
        let found = self.load::<LoadRegion>(table, index);
        self.begun = self.begun.and(&Begins::Cast { source, target });
        found as u16
    }

    /// Makes the next region the one in use, where `region`, which isn't the last, still is. Answers whether it was, and the
    /// number of the region found, below the sizes' `regions`.
    #[inline]
    pub fn grow(&mut self, table: &Shared, region: u16) -> (bool, u16)
        requires seat { Belongs table.now self.old }
        requires last { region + 1 < (key_of table.now).sizes.regions }
        ensures step { Becomes self.old self.new (after_grow (view_of self.old) region result.1) }
        ensures seat { Belongs table.now self.new }
        ensures won { IsTrue result.0 ↔ result.1 ≡ region }
        ensures lawful { result.1 < (key_of table.now).sizes.regions }
    {
        let index = table.region_index();
        let old = u64::from(region);
        let found = self.exchange::<Grow>(table, index, old, old + 1);
        (found == old, found as u16)
    }

    /// Loads a cast row's version, at most 2^62, at which a look at it begins.
    #[inline]
    pub fn version(&mut self, table: &Shared, region: u16, row: u32) -> u64
        requires seat { Belongs table.now self.old }
        requires region { region < (key_of table.now).sizes.regions }
        requires row { row < 128 * 2 ^ region }
        ensures step { Becomes self.old self.new (after_version (view_of self.old) region row result) }
        ensures seat { Belongs table.now self.new }
        ensures small { result ≤ 2 ^ 62 }
    {
        let index = table.cast_index(region, row);
        self.load::<LoadVersion>(table, index)
    }

    /// Loads a cast row's source.
    #[inline]
    pub fn source(&mut self, table: &Shared, region: u16, row: u32) -> Handle
        requires seat { Belongs table.now self.old }
        requires region { region < (key_of table.now).sizes.regions }
        requires row { row < 128 * 2 ^ region }
        ensures step { Becomes self.old self.new (after_source (view_of self.old) region row result) }
        ensures seat { Belongs table.now self.new }
        ensures in_range { HandleInRange result }
    {
        let index = table.cast_index(region, row);
        let found = self.load::<LoadSource>(table, index + 1);
        handle_of(found)
    }

    /// Loads a cast row's cast word: its target and its answer.
    #[inline]
    pub fn cast_word(&mut self, table: &Shared, region: u16, row: u32) -> CastWord
        requires seat { Belongs table.now self.old }
        requires region { region < (key_of table.now).sizes.regions }
        requires row { row < 128 * 2 ^ region }
        ensures step { Becomes self.old self.new (after_cast_word (view_of self.old) region row result) }
        ensures seat { Belongs table.now self.new }
        ensures in_range { CastWordInRange result }
    {
        let index = table.cast_index(region, row);
        let found = self.load::<LoadCast>(table, index + 2);
        cast_word_of(found)
    }

    /// Loads a cast row's version again. Where it is the one that was loaded first, even and not 0, the two words that
    /// were loaded between are an evidence of their cast.
    #[inline]
    pub fn version_again(&mut self, table: &Shared, region: u16, row: u32) -> u64
        requires seat { Belongs table.now self.old }
        requires region { region < (key_of table.now).sizes.regions }
        requires row { row < 128 * 2 ^ region }
        ensures step { Becomes self.old self.new (after_version_again (view_of self.old) region row result) }
        ensures seat { Belongs table.now self.new }
        ensures agree { CastsAgree (view_of self.new) }
    {
        let index = table.cast_index(region, row);
        self.load::<LoadVersionAgain>(table, index)
    }

    /// Makes the version of a cast row that was never written odd, by one exchange from 0 to 1. Answers whether it was
    /// won, and the version found.
    #[inline]
    pub fn claim_cast(&mut self, table: &Shared, region: u16, row: u32) -> (bool, u64)
        requires seat { Belongs table.now self.old }
        requires region { region < (key_of table.now).sizes.regions }
        requires row { row < 128 * 2 ^ region }
        ensures step { Becomes self.old self.new (after_claim_cast (view_of self.old) region row result.1) }
        ensures seat { Belongs table.now self.new }
        ensures won { IsTrue result.0 ↔ result.1 ≡ 0 }
    {
        let index = table.cast_index(region, row);
        let found = self.exchange::<ClaimCast>(table, index, 0, 1);
        (found == 0, found)
    }

    /// Makes an even version of a cast row, above 0 and below 2^62, odd, by one exchange to the next. Answers whether it was
    /// won, and the version found.
    #[inline]
    pub fn reclaim_cast(
        &mut self,
        table: &Shared,
        region: u16,
        row: u32,
        version: u64,
    ) -> (bool, u64)
        requires seat { Belongs table.now self.old }
        requires region { region < (key_of table.now).sizes.regions }
        requires row { row < 128 * 2 ^ region }
        requires even { version % 2 ≡ 0 }
        requires written { 0 < version }
        requires small { version < 2 ^ 62 }
        ensures step { Becomes self.old self.new (after_reclaim_cast (view_of self.old) region row version result.1) }
        ensures seat { Belongs table.now self.new }
        ensures won { IsTrue result.0 ↔ result.1 ≡ version }
    {
        let index = table.cast_index(region, row);
        let found = self.exchange::<ReclaimCast>(table, index, version, version + 1);
        (found == version, found)
    }

    /// Stores the source of a cast row whose version this caller made odd. The caller has an evidence of a cast from it.
    #[inline]
    pub fn set_source(&mut self, table: &Shared, region: u16, row: u32, source: Handle)
        requires seat { Belongs table.now self.old }
        requires region { region < (key_of table.now).sizes.regions }
        requires row { row < 128 * 2 ^ region }
        requires writing { (w : Written) × (write_of (cast_row region row) (view_of self.old).casts.writes ≡ Some w) }
        requires source { HandleInRange source }
        requires evidence { (target : Handle) × (given : Bool) × HasCastEvidence (view_of self.old) source target given }
        ensures step { Becomes self.old self.new (after_set_source (view_of self.old) region row source) }
        ensures seat { Belongs table.now self.new }
    {
        let index = table.cast_index(region, row);
        self.store::<SetSource>(table, index + 1, source.pack());
    }

    /// Stores the cast word of a cast row whose version this caller made odd. The caller has an evidence of such a cast.
    #[inline]
    pub fn set_cast(&mut self, table: &Shared, region: u16, row: u32, word: CastWord)
        requires seat { Belongs table.now self.old }
        requires region { region < (key_of table.now).sizes.regions }
        requires row { row < 128 * 2 ^ region }
        requires writing { (w : Written) × (write_of (cast_row region row) (view_of self.old).casts.writes ≡ Some w) }
        requires word { CastWordInRange word }
        requires evidence { (source : Handle) × HasCastEvidence (view_of self.old) source word.target word.yes }
        ensures step { Becomes self.old self.new (after_set_cast (view_of self.old) region row word) }
        ensures seat { Belongs table.now self.new }
    {
        let index = table.cast_index(region, row);
        self.store::<SetCast>(table, index + 2, word.pack());
    }

    /// Stores `version`, the next even one, of a cast row whose version this caller made odd. The source and the cast word
    /// that it stored since then are an evidence of the caller.
    #[inline]
    pub fn publish(&mut self, table: &Shared, region: u16, row: u32, version: u64)
        requires seat { Belongs table.now self.old }
        requires region { region < (key_of table.now).sizes.regions }
        requires row { row < 128 * 2 ^ region }
        requires written { (w : Written) × (source : Handle) × (word : CastWord) × (write_of (cast_row region row) (view_of self.old).casts.writes ≡ Some w)
            × (w.version + 1 ≡ version) × (w.source ≡ Some source) × (w.word ≡ Some word) × HasCastEvidence (view_of self.old) source word.target word.yes }
        ensures step { Becomes self.old self.new (after_publish (view_of self.old) region row version) }
        ensures seat { Belongs table.now self.new }
    {
        let index = table.cast_index(region, row);
        self.store::<Publish>(table, index, version);
    }
}

/// The handle that a word packs.
#[inline]
fn handle_of(word: u64) -> Handle
    requires { (h : Handle) × IsHandlePacking h word }
    ensures { IsHandlePacking result word }
{
    Handle::of_packing(word)
}

/// The cast word that a word packs.
#[inline]
fn cast_word_of(word: u64) -> CastWord
    requires { (w : CastWord) × IsCastPacking w word }
    ensures { IsCastPacking result word }
{
    CastWord::of_packing(word)
}
