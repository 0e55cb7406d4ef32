//! The search for a pair.
ghost use Rattle.std.specs.Prelude.{[], ◌∷◌};
ghost use Rattle.vsd_words.specs.Handle.{HandleInRange};
ghost use Rattle.vsd_rule.specs.Evidence.{CastsAgree};
ghost use Rattle.vsd_table.specs.Seating.{key_of, view_of, Belongs};
ghost use Rattle.vsd_trails.specs.CastTrails.{probing, finding_cast};
ghost use Rattle.vsd_rows.specs.Makes.{Makes};
ghost use Rattle.vsd_ccache.specs.Looks.{LooksAtCasts, FoundFor, IsFirstMissOf, FirstFoundFor};
ghost use Rattle.vsd_ccache.specs.Begun.{BeginsLook};
ghost use Rattle.vsd_ccache.specs.Tells.{Tells, FindTells};

use crate::probing::{RowLook, probe};
use crate::regions::{probe_row, region_size};
use vsd_rows::Hand;
use vsd_table::Shared;
use vsd_trails::{Find, Miss};
use vsd_words::{Handle, home_of};

/// What the first probe of a look finds.
#[derive(Clone, Copy, PartialEq, Eq, Debug)]
pub enum First {
    /// The pair, with its answer.
    Hit(bool),
    /// Another pair, or a row that was written meanwhile or never.
    Miss(FirstMiss),
}

/// A look whose first probe missed: the region that was loaded, the pair's home in it, and the version that the probe
/// loaded first.
#[derive(Clone, Copy, PartialEq, Eq, Debug)]
pub struct FirstMiss {
    pub region: u16,
    pub home: u32,
    pub version: u64,
}

/// Looks the pair up: loads the region in use, and probes eight rows of it from the pair's home on, until
/// one is a hit. A probe is a hit exactly where both loads of its row's version found the same, which is
/// even and not 0, and the row's source and target are the pair's.
///
/// `Hit` has the answer, of which the caller then has evidence. `Miss` comes only where no probe was a
/// hit; it has the region, the row of the first probe, and the version that each probe loaded first.
pub fn find(table: &Shared, hand: &mut Hand, source: Handle, target: Handle) -> Find
    requires seat { Belongs table.now hand.old.seated }
    requires source { HandleInRange source }
    requires target { HandleInRange target }
    ensures trail { Makes hand.old.seated hand.new.seated (finding_cast source target) result }
    ensures tells { Tells hand.old.seated hand.new.seated (λ trail. FindTells source target trail result) }
    ensures changes { LooksAtCasts (view_of hand.old.seated) (view_of hand.new.seated) }
    ensures found { FoundFor (key_of table.now) (view_of hand.new.seated) source target result }
    ensures agree { CastsAgree (view_of hand.new.seated) }
    ensures seat { Belongs table.now hand.new.seated }
{
    match probe_first(table, hand, source, target) {
        First::Hit(yes) => Find::Hit(yes),
        First::Miss(first) => probe_others(table, hand, first, source, target),
    }
}

/// Begins a look: loads the region in use, and probes the row at the pair's home. Most casts end here, so it is a function
/// of its own, which makes no list of versions. `Hit` and `Miss` come as in `find`.
#[inline]
pub fn probe_first(table: &Shared, hand: &mut Hand, source: Handle, target: Handle) -> First
    requires seat { Belongs table.now hand.old.seated }
    requires source { HandleInRange source }
    requires target { HandleInRange target }
    ensures begins { BeginsLook hand.old.seated hand.new.seated source target result }
    ensures changes { LooksAtCasts (view_of hand.old.seated) (view_of hand.new.seated) }
    ensures found { FirstFoundFor (key_of table.now) (view_of hand.new.seated) source target result }
    ensures agree { CastsAgree (view_of hand.new.seated) }
    ensures seat { Belongs table.now hand.new.seated }
{
    let region = hand.seated.region(table, source, target);
    let home = home_of(source, target, region_size(region));
    let row = probe_row(region, home, 0);
    match probe(table, hand, region, row, source, target) {
        RowLook::Hit(yes) => First::Hit(yes),
        RowLook::Miss(version) => First::Miss(FirstMiss {
            region,
            home,
            version,
        }),
    }
}

/// Ends a look whose first probe missed: probes the other seven rows, until one is a hit. `Hit` and `Miss` come as in
/// `find`, and `Miss` has the first probe's version too.
pub fn probe_others(
    table: &Shared,
    hand: &mut Hand,
    first: FirstMiss,
    source: Handle,
    target: Handle,
) -> Find
    requires seat { Belongs table.now hand.old.seated }
    requires source { HandleInRange source }
    requires target { HandleInRange target }
    requires first { IsFirstMissOf (key_of table.now) source target first }
    ensures trail { Makes hand.old.seated hand.new.seated (probing source target first.region first.home 7 1 (first.version ∷ [])) result }
    ensures changes { LooksAtCasts (view_of hand.old.seated) (view_of hand.new.seated) }
    ensures found { FoundFor (key_of table.now) (view_of hand.new.seated) source target result }
    ensures agree { CastsAgree (view_of hand.new.seated) }
    ensures seat { Belongs table.now hand.new.seated }
{
    let mut versions = [first.version; 8];
    for i in 1..8 {
        let row = probe_row(first.region, first.home, i);
        match probe(table, hand, first.region, row, source, target) {
            RowLook::Hit(yes) => return Find::Hit(yes),
            RowLook::Miss(version) => versions[i] = version,
        }
    }
    Find::Miss(Miss {
        region: first.region,
        home: first.home,
        versions,
    })
}
