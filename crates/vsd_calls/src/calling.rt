//! A call: pin, look at the cell and at the bucket, walk where neither holds the pair, unpin and sweep.
ghost use Rattle.std.specs.Prelude.{◌≡◌, ◌+◌, ◌<◌, ℕ, Some, IfOk, IsOk};
ghost use Rattle.vsd_words.specs.declared.cell_word.CellWord.TheVariants.{Dispatch};
ghost use Rattle.vsd_words.specs.Handle.{HandleInRange};
ghost use Rattle.vsd_rule.specs.Layout.{handle_rows};
ghost use Rattle.vsd_rule.specs.Lists.{site_token, target_of};
ghost use Rattle.vsd_rule.specs.Facts.{Knows};
ghost use Rattle.vsd_rule.specs.Evidence.{HasEvidence};
ghost use Rattle.vsd_rule.specs.RowSteps.{nothing_known};
ghost use Rattle.vsd_table.specs.Seating.{key_of, view_of, Belongs};
ghost use Rattle.vsd_trails.specs.CallTrails.{answering, calling};
ghost use Rattle.vsd_rows.specs.Makes.{Makes};
ghost use Rattle.vsd_rows.specs.Hands.{HasSeen};
ghost use Rattle.vsd_trails.specs.Operations.{called};
ghost use Rattle.vsd_rows.specs.Logged.{LogsOne};
ghost use Rattle.vsd_rows.specs.Leaving.{Stays};
ghost use Rattle.vsd_handles.specs.OwnRows.{IsSure};
ghost use Rattle.vsd_calls.specs.Parts.{resolving};
ghost use Rattle.vsd_calls.specs.Shown.{ShowsPath, ShowsBucket, ShowsCell, ShowsSweep};

use crate::installing::install;
use crate::stubs::{CellLook, stub};
use crate::walking::walk;
use vsd_cells::read;
use vsd_rcache::find;
use vsd_rows::{Hand, pin, sweep, unpin};
use vsd_table::{Doing, Resolver, Shared};
use vsd_trails::{Answer, Found, Path, Seen, Unloaded};
use vsd_words::{CellWord, Handle};

/// Answers a call of the site, whose token is `token`, on the handle. Where it is answered, the caller has
/// the evidence for its target, which is the world's answer for every type that the caller knows the handle
/// to name: 0 for the missing slot, else one more than a method's number.
///
/// `Unloaded` comes only where neither the site's cell nor the pair's bucket held it, and the handle's word
/// has another generation or is not live. It carries that handle, which the caller does not own and which is
/// no host's, and its word. Either way the caller is unpinned again and its limbo swept once.
#[inline]
pub fn call<R: Resolver>(
    table: &Shared,
    resolver: &R,
    hand: &mut Hand,
    site: u16,
    token: u16,
    h: Handle,
) -> Result<Answer, Unloaded>
    requires seat { Belongs table.now hand.old.seated }
    requires unpinned { (view_of hand.old.seated).rows.pinned ≡ 0 }
    requires types { (key_of table.now).world.types ≡ R.types resolver.now }
    requires tokens { (key_of table.now).sizes.tokens ≡ R.tokens resolver.now }
    requires sel { (key_of table.now).world.sel ≡ R.sel resolver.now }
    requires site { site < (key_of table.now).sizes.sites }
    requires token { token ≡ site_token (key_of table.now) site }
    requires token_in { token < (key_of table.now).sizes.tokens }
    requires handle { HandleInRange h }
    requires row { h.row < handle_rows (key_of table.now).sizes }
    requires some { 0 < h.generation }
    ensures trail { Makes hand.old.seated hand.new.seated (calling (key_of table.now) site h) result }
    ensures logged { LogsOne (key_of table.now) hand.old.seated hand.new.seated (called site h result)
        (52 + (key_of table.now).sizes.callers) }
    ensures path { ShowsPath (key_of table.now) site h hand.old.seated hand.new.seated result }
    ensures bucket { ShowsBucket (key_of table.now) site h hand.old.seated hand.new.seated result }
    ensures cell { ShowsCell (key_of table.now) site h hand.old.seated hand.new.seated result }
    ensures sweep { ShowsSweep (key_of table.now) hand.old.seated hand.new.seated }
    ensures complete { IsSure (view_of hand.old.seated) h → IsOk result }
    ensures evidence { IfOk result (λ a. HasEvidence (view_of hand.new.seated) h token a.target) }
    ensures world { IfOk result (λ a. (number : ℕ) → Knows (view_of hand.new.seated).handles h number
        → a.target ≡ target_of (key_of table.now) number token) }
    ensures unpinned { (view_of hand.new.seated).rows.pinned ≡ 0 }
    ensures owned { (view_of hand.new.seated).handles.owned ≡ (view_of hand.old.seated).handles.owned }
    ensures seat { Belongs table.now hand.new.seated }
{
    pin(table, hand, Doing::Call { site, handle: h });
    let cell = read(table, hand, site);
    let answer = answer(table, resolver, hand, site, token, h, cell);
    unpin(table, hand);
    sweep(table, hand);
    answer
}

/// Answers by the cell that was loaded, or by the bucket, or by a walk.
#[inline]
fn answer<R: Resolver>(
    table: &Shared,
    resolver: &R,
    hand: &mut Hand,
    site: u16,
    token: u16,
    h: Handle,
    cell: CellWord,
) -> Result<Answer, Unloaded>
    requires seat { Belongs table.now hand.old.seated }
    requires pinned { 0 < (view_of hand.old.seated).rows.pinned }
    requires types { (key_of table.now).world.types ≡ R.types resolver.now }
    requires tokens { (key_of table.now).sizes.tokens ≡ R.tokens resolver.now }
    requires sel { (key_of table.now).world.sel ≡ R.sel resolver.now }
    requires site { site < (key_of table.now).sizes.sites }
    requires token { token ≡ site_token (key_of table.now) site }
    requires token_in { token < (key_of table.now).sizes.tokens }
    requires handle { HandleInRange h }
    requires row { h.row < handle_rows (key_of table.now).sizes }
    requires some { 0 < h.generation }
    requires in_table { (row : ℕ) → cell ≡ Dispatch row → row < (key_of table.now).sizes.rows }
    requires named { (row : ℕ) → cell ≡ Dispatch row → HasSeen (view_of hand.old.seated) row (Some site) nothing_known }
    ensures trail { Makes hand.old.seated hand.new.seated (answering (key_of table.now) site h cell) result }
    ensures complete { IsSure (view_of hand.old.seated) h → IsOk result }
    ensures evidence { IfOk result (λ a. HasEvidence (view_of hand.new.seated) h token a.target) }
    ensures stays { Stays (view_of hand.old.seated) (view_of hand.new.seated) }
    ensures seat { Belongs table.now hand.new.seated }
{
    match stub(table, hand, site, token, h, cell) {
        CellLook::Hit(target) => Ok(Answer {
            target,
            path: Path::Stub,
        }),
        CellLook::Miss(expected) => resolve(table, resolver, hand, site, token, h, cell, expected),
    }
}

/// Answers by the bucket, or by a walk. `expected` is the other handle of the row that the cell named.
#[inline]
fn resolve<R: Resolver>(
    table: &Shared,
    resolver: &R,
    hand: &mut Hand,
    site: u16,
    token: u16,
    h: Handle,
    cell: CellWord,
    expected: Option<Handle>,
) -> Result<Answer, Unloaded>
    requires seat { Belongs table.now hand.old.seated }
    requires pinned { 0 < (view_of hand.old.seated).rows.pinned }
    requires types { (key_of table.now).world.types ≡ R.types resolver.now }
    requires tokens { (key_of table.now).sizes.tokens ≡ R.tokens resolver.now }
    requires sel { (key_of table.now).world.sel ≡ R.sel resolver.now }
    requires site { site < (key_of table.now).sizes.sites }
    requires token { token ≡ site_token (key_of table.now) site }
    requires token_in { token < (key_of table.now).sizes.tokens }
    requires handle { HandleInRange h }
    requires row { h.row < handle_rows (key_of table.now).sizes }
    requires some { 0 < h.generation }
    ensures trail { Makes hand.old.seated hand.new.seated (resolving (key_of table.now) site h cell expected) result }
    ensures complete { IsSure (view_of hand.old.seated) h → IsOk result }
    ensures evidence { IfOk result (λ a. HasEvidence (view_of hand.new.seated) h token a.target) }
    ensures stays { Stays (view_of hand.old.seated) (view_of hand.new.seated) }
    ensures seat { Belongs table.now hand.new.seated }
{
    match find(table, hand, token, h) {
        Found::Hit(target) => {
            install(table, hand, site, token, h, cell, target);
            Ok(Answer {
                target,
                path: Path::Bucket,
            })
        }
        Found::Other(g, t) => {
            let seen = Seen {
                cell,
                expected,
                entry_handle: Some(g),
                entry_token: Some(t),
            };
            walk(table, resolver, hand, site, token, h, cell, seen)
        }
        Found::Empty => {
            let seen = Seen {
                cell,
                expected,
                entry_handle: None,
                entry_token: None,
            };
            walk(table, resolver, hand, site, token, h, cell, seen)
        }
    }
}
