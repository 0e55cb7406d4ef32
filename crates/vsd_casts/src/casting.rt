//! A cast: look the pair up, and where no row holds it ask the types' tables and put the answer into the cache.
ghost use Rattle.std.specs.Prelude.{◌≡◌, ◌<◌, ℕ, IfOk, IfErr, IsOk};
ghost use Rattle.std.specs.Int.{from_bool};
ghost use Rattle.vsd_words.specs.Handle.{HandleInRange};
ghost use Rattle.vsd_rule.specs.Layout.{handle_rows};
ghost use Rattle.vsd_rule.specs.Lists.{compatible};
ghost use Rattle.vsd_rule.specs.Facts.{Knows};
ghost use Rattle.vsd_rule.specs.Evidence.{HasCastEvidence};
ghost use Rattle.vsd_table.specs.Seating.{key_of, view_of, Belongs};
ghost use Rattle.vsd_trails.specs.declared.casting.Find.TheVariants as find;
ghost use Rattle.vsd_trails.specs.CastTrails.{casting_by, casting};
ghost use Rattle.vsd_trails.specs.Operations.{cast_to};
ghost use Rattle.vsd_rows.specs.Makes.{Makes};
ghost use Rattle.vsd_rows.specs.Logged.{LogsOne};
ghost use Rattle.vsd_rows.specs.Leaving.{Stays};
ghost use Rattle.vsd_handles.specs.OwnRows.{IsSure};
ghost use Rattle.vsd_ccache.specs.Looks.{IsMissOf, IsFirstMissOf};
ghost use Rattle.vsd_ccache.specs.Tells.{Tells};
ghost use Rattle.vsd_casts.specs.Answers.{AnswerTells};
ghost use Rattle.vsd_casts.specs.Parts.{ArePair, EndsLook};

use vsd_ccache::{First, FirstMiss, probe_first, probe_others, put};
use vsd_handles::type_of;
use vsd_rows::Hand;
use vsd_table::{Resolver, Shared};
use vsd_trails::{CastAnswer, Find, Miss, Unloaded};
use vsd_words::Handle;

/// Answers whether the type that `source` names is compatible with the one that `target` names. Where it is
/// answered, the caller has the evidence for its answer, which is the world's for every two types that the
/// caller knows the two handles to name. `walked` is true exactly where no row that was looked at held the pair.
///
/// `Unloaded` comes only where no row held the pair, and exactly where the source's word, which is loaded
/// first, or else the target's, has another generation or is not live. It carries that handle, which the
/// caller does not own and which is no host's, and its word.
#[inline(always)]
pub fn cast<R: Resolver>(
    table: &Shared,
    resolver: &R,
    hand: &mut Hand,
    source: Handle,
    target: Handle,
) -> Result<CastAnswer, Unloaded>
    requires seat { Belongs table.now hand.old.seated }
    requires types { (key_of table.now).world.types ≡ R.types resolver.now }
    requires cmp { (key_of table.now).world.cmp ≡ R.cmp resolver.now }
    requires source { HandleInRange source }
    requires source_row { source.row < handle_rows (key_of table.now).sizes }
    requires some_source { 0 < source.generation }
    requires target { HandleInRange target }
    requires target_row { target.row < handle_rows (key_of table.now).sizes }
    requires some_target { 0 < target.generation }
    ensures trail { Makes hand.old.seated hand.new.seated (casting (key_of table.now) source target) result }
    ensures logged { LogsOne (key_of table.now) hand.old.seated hand.new.seated (cast_to source target result) 39 }
    ensures tells { Tells hand.old.seated hand.new.seated (λ trail. AnswerTells source target trail result) }
    ensures complete { IsSure (view_of hand.old.seated) source → IsSure (view_of hand.old.seated) target → IsOk result }
    ensures cause { IfErr result (λ u. ¬ IsSure (view_of hand.old.seated) u.handle) }
    ensures evidence { IfOk result (λ a. HasCastEvidence (view_of hand.new.seated) source target a.yes) }
    ensures world { IfOk result (λ a. (number other : ℕ) → Knows (view_of hand.new.seated).handles source number
        → Knows (view_of hand.new.seated).handles target other → from_bool a.yes ≡ compatible (key_of table.now) number other) }
    ensures stays { Stays (view_of hand.old.seated) (view_of hand.new.seated) }
    ensures seat { Belongs table.now hand.new.seated }
{
    match probe_first(table, hand, source, target) {
        First::Hit(yes) => Ok(CastAnswer { yes, walked: false }),
        First::Miss(first) => go_on(table, resolver, hand, first, source, target),
    }
}

/// Hands a cast whose first probe missed on. What a function has in memory is cleared where it begins, also where it is
/// compiled into its caller: so it is a function of its own, to which a hit does not come, and it takes the answer apart.
#[inline(always)]
fn go_on<R: Resolver>(
    table: &Shared,
    resolver: &R,
    hand: &mut Hand,
    first: FirstMiss,
    source: Handle,
    target: Handle,
) -> Result<CastAnswer, Unloaded>
    requires seat { Belongs table.now hand.old.seated }
    requires types { (key_of table.now).world.types ≡ R.types resolver.now }
    requires cmp { (key_of table.now).world.cmp ≡ R.cmp resolver.now }
    requires pair { ArePair (key_of table.now) source target }
    requires first { IsFirstMissOf (key_of table.now) source target first }
    ensures trail { EndsLook hand.old.seated hand.new.seated (key_of table.now) source target first result }
    ensures complete { IsSure (view_of hand.old.seated) source → IsSure (view_of hand.old.seated) target → IsOk result }
    ensures cause { IfErr result (λ u. ¬ IsSure (view_of hand.old.seated) u.handle) }
    ensures evidence { IfOk result (λ a. HasCastEvidence (view_of hand.new.seated) source target a.yes) }
    ensures world { IfOk result (λ a. (number other : ℕ) → Knows (view_of hand.new.seated).handles source number
        → Knows (view_of hand.new.seated).handles target other → from_bool a.yes ≡ compatible (key_of table.now) number other) }
    ensures stays { Stays (view_of hand.old.seated) (view_of hand.new.seated) }
    ensures seat { Belongs table.now hand.new.seated }
{
    match look_on(table, resolver, hand, first, source, target) {
        Ok(answer) => Ok(answer),
        Err(unloaded) => Err(unloaded),
    }
}

/// Answers a cast whose first probe missed. Most casts don't come here.
#[inline(never)]
fn look_on<R: Resolver>(
    table: &Shared,
    resolver: &R,
    hand: &mut Hand,
    first: FirstMiss,
    source: Handle,
    target: Handle,
) -> Result<CastAnswer, Unloaded>
    requires seat { Belongs table.now hand.old.seated }
    requires types { (key_of table.now).world.types ≡ R.types resolver.now }
    requires cmp { (key_of table.now).world.cmp ≡ R.cmp resolver.now }
    requires pair { ArePair (key_of table.now) source target }
    requires first { IsFirstMissOf (key_of table.now) source target first }
    ensures trail { EndsLook hand.old.seated hand.new.seated (key_of table.now) source target first result }
    ensures complete { IsSure (view_of hand.old.seated) source → IsSure (view_of hand.old.seated) target → IsOk result }
    ensures cause { IfErr result (λ u. ¬ IsSure (view_of hand.old.seated) u.handle) }
    ensures evidence { IfOk result (λ a. HasCastEvidence (view_of hand.new.seated) source target a.yes) }
    ensures world { IfOk result (λ a. (number other : ℕ) → Knows (view_of hand.new.seated).handles source number
        → Knows (view_of hand.new.seated).handles target other → from_bool a.yes ≡ compatible (key_of table.now) number other) }
    ensures stays { Stays (view_of hand.old.seated) (view_of hand.new.seated) }
    ensures seat { Belongs table.now hand.new.seated }
{
    match probe_others(table, hand, first, source, target) {
        Find::Hit(yes) => Ok(CastAnswer { yes, walked: false }),
        Find::Miss(miss) => walk(table, resolver, hand, miss, source, target),
    }
}

/// Loads both handle words. Where both are loaded, asks the tables for the answer of their types, and puts it
/// into the cache.
fn walk<R: Resolver>(
    table: &Shared,
    resolver: &R,
    hand: &mut Hand,
    miss: Miss,
    source: Handle,
    target: Handle,
) -> Result<CastAnswer, Unloaded>
    requires seat { Belongs table.now hand.old.seated }
    requires types { (key_of table.now).world.types ≡ R.types resolver.now }
    requires cmp { (key_of table.now).world.cmp ≡ R.cmp resolver.now }
    requires pair { ArePair (key_of table.now) source target }
    requires miss { IsMissOf (key_of table.now) source target miss }
    ensures trail { Makes hand.old.seated hand.new.seated (casting_by (key_of table.now) source target (find.Miss miss)) result }
    ensures complete { IsSure (view_of hand.old.seated) source → IsSure (view_of hand.old.seated) target → IsOk result }
    ensures cause { IfErr result (λ u. ¬ IsSure (view_of hand.old.seated) u.handle) }
    ensures evidence { IfOk result (λ a. HasCastEvidence (view_of hand.new.seated) source target a.yes) }
    ensures world { IfOk result (λ a. (number other : ℕ) → Knows (view_of hand.new.seated).handles source number
        → Knows (view_of hand.new.seated).handles target other → from_bool a.yes ≡ compatible (key_of table.now) number other) }
    ensures stays { Stays (view_of hand.old.seated) (view_of hand.new.seated) }
    ensures seat { Belongs table.now hand.new.seated }
{
    let number = type_of(table, hand, source)?;
    let other = type_of(table, hand, target)?;
    let yes = resolver.compat(number, other);
    put(table, hand, miss, source, target, yes);
    Ok(CastAnswer { yes, walked: true })
}
