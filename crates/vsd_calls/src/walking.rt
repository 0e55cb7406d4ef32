//! The part of a call that finds its target in the type's tables.
ghost use Rattle.std.specs.Prelude.{◌≡◌, ◌<◌, IfOk, IsOk};
ghost use Rattle.vsd_words.specs.Handle.{HandleInRange};
ghost use Rattle.vsd_rule.specs.Layout.{handle_rows};
ghost use Rattle.vsd_rule.specs.Lists.{site_token};
ghost use Rattle.vsd_rule.specs.Evidence.{HasEvidence};
ghost use Rattle.vsd_table.specs.Seating.{key_of, view_of, Belongs};
ghost use Rattle.vsd_trails.specs.CallTrails.{walking};
ghost use Rattle.vsd_rows.specs.Makes.{Makes};
ghost use Rattle.vsd_rows.specs.Leaving.{Stays};
ghost use Rattle.vsd_handles.specs.OwnRows.{IsSure};

use crate::caching::cache;
use crate::installing::install;
use vsd_handles::type_of;
use vsd_rows::Hand;
use vsd_table::{Resolver, Shared};
use vsd_trails::{Answer, Path, Seen, Unloaded};
use vsd_words::{CellWord, Handle};

/// Loads the handle's word. Where it is loaded, asks the tables for the target of its type, puts the pair
/// into its bucket, and installs it in a cell that was at Lookup. `Unloaded` comes exactly where the word
/// has another generation or is not live.
#[inline(always)]
pub(crate) fn walk<R: Resolver>(
    table: &Shared,
    resolver: &R,
    hand: &mut Hand,
    site: u16,
    token: u16,
    h: Handle,
    cell: CellWord,
    seen: Seen,
) -> Result<Answer, Unloaded>
    requires seat { Belongs table.now hand.old.seated }
    requires types { (key_of table.now).world.types ≡ R.types resolver.now }
    requires tokens { (key_of table.now).sizes.tokens ≡ R.tokens resolver.now }
    requires sel { (key_of table.now).world.sel ≡ R.sel resolver.now }
    requires site { site < (key_of table.now).sizes.sites }
    requires token { token ≡ site_token (key_of table.now) site }
    requires token_in { token < (key_of table.now).sizes.tokens }
    requires handle { HandleInRange h }
    requires row { h.row < handle_rows (key_of table.now).sizes }
    requires some { 0 < h.generation }
    ensures trail { Makes hand.old.seated hand.new.seated (walking (key_of table.now) site h cell seen) result }
    ensures complete { IsSure (view_of hand.old.seated) h → IsOk result }
    ensures evidence { IfOk result (λ a. HasEvidence (view_of hand.new.seated) h token a.target) }
    ensures stays { Stays (view_of hand.old.seated) (view_of hand.new.seated) }
    ensures seat { Belongs table.now hand.new.seated }
{
    let number = type_of(table, hand, h)?;
    let target = resolver.select(number, token);
    cache(table, hand, token, h, target);
    install(table, hand, site, token, h, cell, target);
    Ok(Answer {
        target,
        path: Path::Walked(seen),
    })
}
