//! A look at one row of the cast cache.
ghost use Rattle.std.specs.Prelude.{◌≡◌, ◌<◌};
ghost use Rattle.vsd_words.specs.Handle.{HandleInRange};
ghost use Rattle.vsd_rule.specs.Evidence.{CastsAgree};
ghost use Rattle.vsd_table.specs.Seating.{key_of, view_of, Belongs};
ghost use Rattle.vsd_trails.specs.CastTrails.{region_size, probing_row, is_hit};
ghost use Rattle.vsd_trails.specs.Words.{same_handle};
ghost use Rattle.vsd_rows.specs.Makes.{Makes};
ghost use Rattle.vsd_ccache.specs.Looks.{LooksAtCasts, probed_of, LookTells};

use vsd_rows::Hand;
use vsd_table::Shared;
use vsd_words::{CastWord, Handle};

/// What a look at a row finds.
#[derive(Clone, Copy, PartialEq, Eq, Debug)]
pub(crate) enum RowLook {
    /// The pair, with its answer.
    Hit(bool),
    /// Another pair, or a row that was written meanwhile or never; with the version loaded first.
    Miss(u64),
}

/// Loads the row's version, its source, its cast word, and the version again. Where that is a hit the
/// caller has evidence of its answer.
#[inline]
pub(crate) fn probe(
    table: &Shared,
    hand: &mut Hand,
    region: u16,
    row: u32,
    source: Handle,
    target: Handle,
) -> RowLook
    requires seat { Belongs table.now hand.old.seated }
    requires region { region < (key_of table.now).sizes.regions }
    requires row { row < region_size region }
    requires source { HandleInRange source }
    requires target { HandleInRange target }
    ensures trail { Makes hand.old.seated hand.new.seated (probing_row source target region row) (probed_of result) }
    ensures changes { LooksAtCasts (view_of hand.old.seated) (view_of hand.new.seated) }
    ensures tells { LookTells (view_of hand.new.seated) source target result }
    ensures agree { CastsAgree (view_of hand.new.seated) }
    ensures seat { Belongs table.now hand.new.seated }
{
    let version = hand.seated.version(table, region, row);
    let s = hand.seated.source(table, region, row);
    let w = hand.seated.cast_word(table, region, row);
    let again = hand.seated.version_again(table, region, row);
    if is_hit(source, target, version, s, w, again) {
        RowLook::Hit(w.yes)
    } else {
        RowLook::Miss(version)
    }
}

/// Whether the words that were loaded of a row, its version first and last, hold the pair.
#[inline]
fn is_hit(source: Handle, target: Handle, version: u64, s: Handle, w: CastWord, again: u64) -> bool
    requires source { HandleInRange source }
    requires target { HandleInRange target }
    requires s { HandleInRange s }
    requires w { HandleInRange w.target }
    ensures { result ≡ is_hit source target version s w again }
{
    version == again
        && version % 2 == 0
        && version != 0
        && is_same(s, source)
        && is_same(w.target, target)
}

/// Whether two handles are one, by their words: those of a row need not be taken apart.
#[inline]
fn is_same(g: Handle, h: Handle) -> bool
    requires g { HandleInRange g }
    requires h { HandleInRange h }
    ensures { result ≡ same_handle g h }
{
    g.pack() == h.pack()
}
