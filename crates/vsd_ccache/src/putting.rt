//! What a cast that missed writes.
ghost use Rattle.std.specs.Prelude.{◌≡◌, ◌<◌, ◌+◌, ◌%◌, Some, IfSome, IsTrue, nat_eq, false};
ghost use Rattle.std.specs.List.{position};
ghost use Rattle.vsd_words.specs.Handle.{HandleInRange, packed_handle};
ghost use Rattle.vsd_rule.specs.Layout.{cast_row};
ghost use Rattle.vsd_rule.specs.Casts.{write_of};
ghost use Rattle.vsd_rule.specs.CastSteps.{nothing_written};
ghost use Rattle.vsd_rule.specs.Evidence.{HasCastEvidence};
ghost use Rattle.vsd_table.specs.Seating.{key_of, view_of, Belongs};
ghost use Rattle.vsd_trails.specs.declared.casting.Put.TheVariants.{Written};
ghost use Rattle.vsd_trails.specs.CastTrails.{region_size, is_busy, making_odd, publishing, writing, growing, putting_cast};
ghost use Rattle.vsd_rows.specs.Makes.{Makes};
ghost use Rattle.vsd_ccache.specs.Looks.{IsMissOf, WritesCasts};
ghost use Rattle.vsd_ccache.specs.Tells.{Tells, PutTells};

use crate::regions::probe_row;
use vsd_rows::Hand;
use vsd_table::Shared;
use vsd_trails::{Lost, Miss, Put};
use vsd_words::{CastWord, Handle};

/// Puts the answer of a cast that missed into the cache, with evidence of it. The row is the first probe's
/// whose version was first loaded as 0. Where there is none and a next region is there, one exchange makes
/// that the region in use, and nothing is written. Where there is none in the last region, the row is the
/// one that the sum of the two packed handles, modulo 8, chooses.
///
/// - `Written`: one exchange made the row's version odd, and the row now has the pair.
/// - `Grew`: the exchange of the region was won.
/// - `Busy`: the chosen row's version, which it carries, is odd or at least 2^62. Nothing was tried.
/// - `Claim`, `Grow`: the one exchange, of the version or of the region, found the word that it carries.
pub fn put(
    table: &Shared,
    hand: &mut Hand,
    miss: Miss,
    source: Handle,
    target: Handle,
    yes: bool,
) -> Put
    requires seat { Belongs table.now hand.old.seated }
    requires source { HandleInRange source }
    requires target { HandleInRange target }
    requires miss { IsMissOf (key_of table.now) source target miss }
    requires evidence { HasCastEvidence (view_of hand.old.seated) source target yes }
    ensures trail { Makes hand.old.seated hand.new.seated (putting_cast (key_of table.now) miss source target yes) result }
    ensures tells { Tells hand.old.seated hand.new.seated (λ trail. PutTells (key_of table.now) miss source target yes trail result) }
    ensures changes { WritesCasts (view_of hand.old.seated) (view_of hand.new.seated) }
    ensures seat { Belongs table.now hand.new.seated }
{
    if let Some(i) = first_unused(&miss) {
        return write(table, hand, miss, i, source, target, yes);
    }
    if miss.region + 1 < table.sizes().regions {
        return grow(table, hand, miss, source, target, yes);
    }
    let i = chosen_by(source, target);
    write(table, hand, miss, i, source, target, yes)
}

/// The first probe whose version was first loaded as 0.
fn first_unused(miss: &Miss) -> Option<usize>
    ensures first { result ≡ position (λ version. nat_eq version 0) miss.now.versions }
    ensures within { IfSome result (λ i. i < 8) }
{
    miss.versions.iter().position(|version| *version == 0)
}

/// The probe that the two handles choose.
fn chosen_by(source: Handle, target: Handle) -> usize
    requires source { HandleInRange source }
    requires target { HandleInRange target }
    ensures chosen { result ≡ (packed_handle source + packed_handle target) % 8 }
    ensures within { result < 8 }
{
    ((source.pack() + target.pack()) % 8) as usize
}

/// Tries one exchange of the region to the next.
fn grow(
    table: &Shared,
    hand: &mut Hand,
    miss: Miss,
    source: Handle,
    target: Handle,
    yes: bool,
) -> Put
    requires seat { Belongs table.now hand.old.seated }
    requires next { miss.region + 1 < (key_of table.now).sizes.regions }
    ensures trail { Makes hand.old.seated hand.new.seated (growing (key_of table.now) miss source target yes) result }
    ensures changes { WritesCasts (view_of hand.old.seated) (view_of hand.new.seated) }
    ensures seat { Belongs table.now hand.new.seated }
{
    let (won, found) = hand.seated.grow(table, miss.region);
    if won {
        Put::Grew
    } else {
        Put::Nothing(Lost::Grow(u64::from(found)))
    }
}

/// Writes the row of the i-th probe, where its version allows it and one exchange of it is won.
fn write(
    table: &Shared,
    hand: &mut Hand,
    miss: Miss,
    i: usize,
    source: Handle,
    target: Handle,
    yes: bool,
) -> Put
    requires seat { Belongs table.now hand.old.seated }
    requires source { HandleInRange source }
    requires target { HandleInRange target }
    requires miss { IsMissOf (key_of table.now) source target miss }
    requires probe { i < 8 }
    requires evidence { HasCastEvidence (view_of hand.old.seated) source target yes }
    ensures trail { Makes hand.old.seated hand.new.seated (writing (key_of table.now) miss source target yes i) result }
    ensures changes { WritesCasts (view_of hand.old.seated) (view_of hand.new.seated) }
    ensures seat { Belongs table.now hand.new.seated }
{
    let version = miss.versions[i];
    if is_busy(version) {
        return Put::Nothing(Lost::Busy(version));
    }
    let row = probe_row(miss.region, miss.home, i);
    let (won, found) = make_odd(table, hand, miss.region, row, version);
    if !won {
        return Put::Nothing(Lost::Claim(found));
    }
    let word = CastWord { target, yes };
    publish(table, hand, miss.region, row, version, source, word);
    Put::Written
}

/// Whether a version is odd, so that another caller is writing its row, or at its end.
fn is_busy(version: u64) -> bool
    ensures { result ≡ is_busy version }
{
    version % 2 == 1 || version >= 1 << 62
}

/// Tries one exchange of a row's version, which is even, to the next. Answers whether it was won, and the
/// version found.
fn make_odd(table: &Shared, hand: &mut Hand, region: u16, row: u32, version: u64) -> (bool, u64)
    requires seat { Belongs table.now hand.old.seated }
    requires region { region < (key_of table.now).sizes.regions }
    requires row { row < region_size region }
    requires free { is_busy version ≡ false }
    ensures trail { Makes hand.old.seated hand.new.seated (making_odd region row version) result.1 }
    ensures won { result.0 ≡ nat_eq result.1 version }
    ensures writing { IsTrue result.0 →
        write_of (cast_row region row) (view_of hand.new.seated).casts.writes ≡ Some (nothing_written (version + 1)) }
    ensures changes { WritesCasts (view_of hand.old.seated) (view_of hand.new.seated) }
    ensures seat { Belongs table.now hand.new.seated }
{
    if version == 0 {
        hand.seated.claim_cast(table, region, row)
    } else {
        hand.seated.reclaim_cast(table, region, row, version)
    }
}

/// Stores the source, the cast word and the next even version in a row whose version this caller made odd.
fn publish(
    table: &Shared,
    hand: &mut Hand,
    region: u16,
    row: u32,
    version: u64,
    source: Handle,
    word: CastWord,
)
    requires seat { Belongs table.now hand.old.seated }
    requires region { region < (key_of table.now).sizes.regions }
    requires row { row < region_size region }
    requires free { is_busy version ≡ false }
    requires source { HandleInRange source }
    requires target { HandleInRange word.target }
    requires writing { write_of (cast_row region row) (view_of hand.old.seated).casts.writes ≡ Some (nothing_written (version + 1)) }
    requires evidence { HasCastEvidence (view_of hand.old.seated) source word.target word.yes }
    ensures trail { Makes hand.old.seated hand.new.seated (publishing region row source word version) Written }
    ensures changes { WritesCasts (view_of hand.old.seated) (view_of hand.new.seated) }
    ensures seat { Belongs table.now hand.new.seated }
{
    hand.seated.set_source(table, region, row, source);
    hand.seated.set_cast(table, region, row, word);
    hand.seated.publish(table, region, row, version + 2);
}
