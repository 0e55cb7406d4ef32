//! The three loops that carry all repetition.
ghost use Rattle.std.specs.Prelude.{◌≡◌, ◌≢◌, ℕ, suc, Bool, List, Option};
ghost use Rattle.vsd_grammar.specs.Grammar.{items, tested, tried, turns, Outcome, run};
ghost use Rattle.vsd_grammar.specs.Input.{Input, class_at, left};
ghost use Rattle.vsd_grammar.specs.Productions.{Reads, scan};
ghost use Rattle.vsd_grammar.specs.Loops.{ComputesOfToken, ComputesFirst, Computes₂, ReadsAs, ReadsFrom, one_turn};
ghost use Rattle.vsd_grammar.specs.declared.token_class.TokenClass.{TokenClass};
ghost use Rattle.vsd_grammar.specs.declared.turn.Turn.{Turn};
ghost use Rattle.vsd_grammar.specs.declared.cause.Cause.{Cause};

use crate::cause::Cause;
use crate::cursor::Cursor;
use crate::syntax_error::Stop;
use crate::token_class::TokenClass;
use crate::turn::Turn;
use sqlite_items::Items;
use std::alloc::Global;

/// One or more items with commas between, at most `most`.
///
/// `first` is given the class and the bytes of a token, and says why that token is refused where it can't begin an
/// item; it is asked before the limit is, and the cause of one too many is `many`. A refusal of an item is that of
/// `item`, and want of memory is `Stop::Memory`. It reads as `separated` of the grammar does, since that is `items` of
/// the reading of its item.
pub fn separated<T: Drop, W, F>(
    alloc: Global,
    cursor: &mut Cursor<'_>,
    first: W,
    many: Cause,
    most: usize,
    item: F,
) -> Result<Items<T>, Stop>
where
    W: Fn(TokenClass, &[u8]) -> Option<Cause>,
    F: Fn(&mut Cursor<'_>) -> Result<T, Stop>,
    requires first { W.IsAlwaysCallable first }
    requires item { F.IsAlwaysCallable item }
    ensures { (f : TokenClass → List ℕ → Option Cause) (p : Input → Outcome T) → ComputesOfToken (W.post first) f
        → ReadsAs (F.post item) p → Reads (items f many p most cursor.old) result cursor.new }
{
    let mut found = Items::new(alloc);
    'items: while found.len() < most {
        found.push(one_of(cursor, &first, &item)?)?;
        if !cursor.eat(TokenClass::Symbol(b',')) {
            return Ok(found);
        }
    }
    Err(cursor.refuse(first(cursor.class(), cursor.bytes()).unwrap_or(many)))
}

/// One item, if nothing speaks against its first token.
fn one_of<T, W, F>(cursor: &mut Cursor<'_>, first: &W, item: &F) -> Result<T, Stop>
where
    W: Fn(TokenClass, &[u8]) -> Option<Cause>,
    F: Fn(&mut Cursor<'_>) -> Result<T, Stop>,
    requires first { W.IsAlwaysCallable first.now }
    requires item { F.IsAlwaysCallable item.now }
    ensures { (f : TokenClass → List ℕ → Option Cause) (p : Input → Outcome T) → ComputesOfToken (W.post first.now) f
        → ReadsAs (F.post item.now) p
        → Reads (tested (tried f cursor.old) cursor.old (p cursor.old)) result cursor.new }
{
    match first(cursor.class(), cursor.bytes()) {
        Some(cause) => Err(cursor.refuse(cause)),
        None => item(cursor),
    }
}

/// Items up to a token at which to stop. Each takes a token at least, and goes on from what the one before gave.
///
/// An item that takes no token is refused as unexpected; a refusal or want of memory is that of the item.
/// It reads as `until` of the grammar does, since that is `turns` of the reading of its item.
pub fn until<S: Drop, W, F>(cursor: &mut Cursor<'_>, state: S, stop: W, item: F) -> Result<S, Stop>
where
    W: Fn(TokenClass) -> bool,
    F: Fn(&mut Cursor<'_>, S) -> Result<S, Stop>,
    requires stop { W.IsAlwaysCallable stop }
    requires item { F.IsAlwaysCallable item }
    ensures { (f : TokenClass → S → Bool) (step : S → Input → Outcome S) → ComputesFirst (W.post stop) f
        → ReadsFrom (F.post item) step
        → Reads (turns f step (suc (left cursor.old)) state cursor.old) result cursor.new }
{
    let mut state = state;
    for _turn in 0..cursor.left() + 1 {
        if stop(cursor.class()) {
            return Ok(state);
        }
        state = one_turn(cursor, state, &item)?;
    }
    Err(cursor.refuse(Cause::Unexpected))
}

/// One item, which has to take a token.
fn one_turn<S, F>(cursor: &mut Cursor<'_>, state: S, item: &F) -> Result<S, Stop>
where
    S: Drop,
    F: Fn(&mut Cursor<'_>, S) -> Result<S, Stop>,
    requires { F.IsAlwaysCallable item.now }
    ensures { (step : S → Input → Outcome S) → ReadsFrom (F.post item.now) step
        → Reads (one_turn step state cursor.old) result cursor.new }
{
    let before = cursor.index();
    match item(cursor, state) {
        Ok(after) => {
            if before < cursor.index() {
                Ok(after)
            } else {
                Err(cursor.refuse(Cause::Unexpected))
            }
        }
        Err(stop) => Err(stop),
    }
}

/// Tokens one by one, each passed over as its turn says, up to one at which it says to stop.
///
/// A refusal is that of a turn, or that of the end as unexpected where no turn stops before it.
pub fn scan<S: Copy, F>(cursor: &mut Cursor<'_>, state: S, turn: F) -> Result<S, Stop>
where
    F: Fn(TokenClass, S) -> Turn<S>,
    requires { F.IsAlwaysCallable turn }
    ensures reads { (f : TokenClass → S → Turn S) → Computes₂ (F.post turn) f
        → Reads (run _ (scan _ f state) cursor.old) result cursor.new }
    ensures sure { result ≢ Err Stop.Memory }
{
    let mut state = state;
    for _turn in 0..cursor.left() + 1 {
        match turn(cursor.class(), state) {
            Turn::Stop => return Ok(state),
            Turn::Refuse(cause) => return Err(cursor.refuse(cause)),
            Turn::Pass(next) => {
                cursor.pass()?;
                state = next;
            }
        }
    }
    Err(cursor.refuse(Cause::Unexpected))
}
