//! Repeats, whose bodies have operations and repeats.
ghost use Rattle.std.specs.Prelude.{◌≡◌, ℕ};
ghost use Rattle.vsd_grammar.specs.Grammar.{run};
ghost use Rattle.vsd_grammar.specs.Input.{same_class};
ghost use Rattle.vsd_grammar.specs.Productions.{Reads};
ghost use Rattle.vsd_lanes.specs.Setting.{Setting, setting_of};
ghost use Rattle.vsd_lanes.specs.Productions as spec;
ghost use Rattle.vsd_lanes.specs.Steps.{ReadsStep};

use crate::ground::Ground;
use crate::meaning::rounds;
use crate::operations::{Step, call, cast, load, unload};
use crate::reading::Reading;
use crate::tree::{Halt, Item, Running};
use crate::variables::Variables;
use sqlite_items::Items;
use std::alloc::Global;
use vsd_grammar::{Cause, Cursor, Keyword, Stop, TokenClass, spelled_number, until};
use vsd_terms::Terms;

/// The most rounds of a repeat.
const MOST_ROUNDS: u32 = 200000;

/// The most decimal digits of a number in a script.
pub const MOST_DIGITS: usize = 6;

/// How deep repeats may nest.
const MOST_DEEP: u8 = 8;

/// A lane so far, and the parts of its innermost open braces so far.
#[derive(Debug, Drop)]
pub struct Body {
    pub lane: Reading,
    pub items: Items<Item>,
}

/// The word of an operation.
#[derive(Clone, Copy, Debug, PartialEq, Eq, Drop)]
pub enum Verb {
    Load,
    Unload,
    Call,
    Cast,
    Repeat,
}

fn verb_of(class: TokenClass) -> Option<Verb>
    ensures { result ≡ spec.verb_of class }
{
    match class {
        TokenClass::Word(Keyword::Load) => Some(Verb::Load),
        TokenClass::Word(Keyword::Unload) => Some(Verb::Unload),
        TokenClass::Word(Keyword::Call) => Some(Verb::Call),
        TokenClass::Word(Keyword::Cast) => Some(Verb::Cast),
        TokenClass::Word(Keyword::Repeat) => Some(Verb::Repeat),
        _ => None,
    }
}

/// The Number of a repeat.
#[tactic(auto, unfolding(crate::specs::Productions::times))]
fn times(cursor: &mut Cursor<'_>) -> Result<u32, Stop>
    ensures { Reads (run _ spec.times cursor.old) result cursor.new }
{
    let times = spelled_number(cursor, 1, MOST_ROUNDS, MOST_DIGITS)?;
    cursor.pass()?;
    Ok(times)
}

/// Whether a token of this class closes braces.
fn is_close(class: TokenClass) -> bool
    ensures { result ≡ same_class spec.closing class }
{
    vsd_grammar::same_class(TokenClass::Symbol(b'}'), class)
}

/// One part more.
#[tactic(auto, unfolding(crate::specs::Productions::one_more))]
fn one_more<F>(cursor: &mut Cursor<'_>, op: &F, body: Body) -> Result<Body, Stop>
where
    F: Fn(&mut Cursor<'_>, Reading) -> Result<Step, Stop>,
    requires { F.IsAlwaysCallable op.now }
    ensures { (e : Setting) (room : ℕ) → ReadsStep (F.post op.now) (λ s. run _ (spec.op e room s))
        → Reads (run _ (spec.one_more (spec.op e room) body) cursor.old) result cursor.new }
{
    let Body { lane, mut items } = body;
    let (lane, item) = op(cursor, lane)?;
    items.push(item)?;
    Ok(Body { lane, items })
}

/// Parts up to the brace that closes them.
fn more<F>(cursor: &mut Cursor<'_>, op: &F, body: Body) -> Result<Body, Stop>
where
    F: Fn(&mut Cursor<'_>, Reading) -> Result<Step, Stop>,
    requires { F.IsAlwaysCallable op.now }
    ensures { (e : Setting) (room : ℕ) → ReadsStep (F.post op.now) (λ s. run _ (spec.op e room s))
        → Reads (run _ (spec.more (spec.op e room) body) cursor.old) result cursor.new }
{
    let item = |inner: &mut Cursor<'_>, body: Body| one_more(inner, op, body);
    until(cursor, body, is_close, item)
}

/// One part or more.
#[tactic(auto, unfolding(crate::specs::Productions::some))]
fn some<F>(alloc: Global, cursor: &mut Cursor<'_>, op: &F, lane: Reading) -> Result<Body, Stop>
where
    F: Fn(&mut Cursor<'_>, Reading) -> Result<Step, Stop>,
    requires { F.IsAlwaysCallable op.now }
    ensures { (e : Setting) (room : ℕ) → ReadsStep (F.post op.now) (λ s. run _ (spec.op e room s))
        → Reads (run _ (spec.some (spec.op e room) lane) cursor.old) result cursor.new }
{
    let items = Items::new(alloc);
    let first = one_more(cursor, op, Body { lane, items })?;
    more(cursor, op, first)
}

/// The lane after further rounds of what was read; `}` is at hand.
fn settled(
    cursor: &Cursor<'_>,
    ground: &Ground<'_>,
    times: u32,
    items: &Items<Item>,
    lane: Reading,
) -> Result<Reading, Stop>
    ensures { Reads (run _ (spec.settled lane (spec.again ground.now.room times items.now lane.running)) cursor.now)
        result cursor.now }
{
    let Reading {
        variables,
        roots,
        mut running,
    } = lane;
    match rounds(ground.room, times, items, &mut running) {
        Ok(()) => Ok(Reading {
            variables,
            roots,
            running,
        }),
        Err(Halt::Memory) => Err(Stop::Memory),
        Err(Halt::Refused(refusal)) => Err(cursor.refuse_at(refusal.at, refusal.cause)),
    }
}

/// The end of a repeat: the rounds after the first, and `}`, which is at hand.
#[tactic(auto, unfolding(crate::specs::Productions::closed))]
fn closed(
    cursor: &mut Cursor<'_>,
    ground: &Ground<'_>,
    times: u32,
    body: Body,
) -> Result<Step, Stop>
    ensures { Reads (run _ (spec.closed (setting_of ground.now) times body) cursor.old) result cursor.new }
{
    let Body { lane, items } = body;
    let lane = settled(cursor, ground, times.saturating_sub(1), &items, lane)?;
    cursor.expect(TokenClass::Symbol(b'}'))?;
    let item = Item::Repeat { times, body: items };
    Ok((lane, item))
}

/// `repeat`, which is at hand, its Number and its body.
#[tactic(auto, unfolding(crate::specs::Productions::repeated))]
fn repeated<F>(
    alloc: Global,
    cursor: &mut Cursor<'_>,
    ground: &Ground<'_>,
    op: &F,
    lane: Reading,
) -> Result<Step, Stop>
where
    F: Fn(&mut Cursor<'_>, Reading) -> Result<Step, Stop>,
    requires { F.IsAlwaysCallable op.now }
    ensures { (room : ℕ) → ReadsStep (F.post op.now) (λ s. run _ (spec.op (setting_of ground.now) room s))
        → Reads (run _ (spec.repeated (setting_of ground.now) (spec.op (setting_of ground.now) room) lane) cursor.old) result cursor.new }
{
    cursor.pass()?;
    let times = times(cursor)?;
    cursor.expect(TokenClass::Symbol(b'{'))?;
    let body = some(alloc, cursor, op, lane)?;
    closed(cursor, ground, times, body)
}

/// An operation or a repeat, where so many more braces may open.
#[cycle(nested)]
#[tactic(auto, unfolding(crate::specs::Productions::op_with))]
fn op(
    alloc: Global,
    cursor: &mut Cursor<'_>,
    ground: &Ground<'_>,
    room: u8,
    lane: Reading,
) -> Result<Step, Stop>
    ensures { Reads (run _ (spec.op (setting_of ground.now) room lane) cursor.old) result cursor.new }
{
    match verb_of(cursor.class()) {
        None => Err(cursor.refuse(Cause::Unexpected)),
        Some(Verb::Load) => load(alloc, cursor, ground, lane),
        Some(Verb::Unload) => unload(cursor, ground, lane),
        Some(Verb::Call) => call(cursor, ground, lane),
        Some(Verb::Cast) => cast(cursor, ground, lane),
        Some(Verb::Repeat) => deeper(alloc, cursor, ground, room, lane),
    }
}

/// `repeat`, which is at hand, where so many braces may open.
#[cycle(nested)]
fn deeper(
    alloc: Global,
    cursor: &mut Cursor<'_>,
    ground: &Ground<'_>,
    room: u8,
    lane: Reading,
) -> Result<Step, Stop>
    ensures { Reads (run _ (spec.deeper (setting_of ground.now) room lane) cursor.old) result cursor.new }
{
    if room == 0 {
        return Err(cursor.refuse(Cause::TooDeep));
    }
    let below = room - 1;
    let inner = |cursor: &mut Cursor<'_>, lane: Reading| -> Result<Step, Stop>
        ensures { Reads (run _ (spec.op (setting_of ground.entry.now) below lane) cursor.old) result cursor.new }
    { op(alloc, cursor, ground, below, lane) };
    repeated(alloc, cursor, ground, &inner, lane)
}

/// Operations up to the brace that closes a lane.
fn all(
    alloc: Global,
    cursor: &mut Cursor<'_>,
    ground: &Ground<'_>,
    body: Body,
) -> Result<Body, Stop>
    ensures { Reads (run _ (spec.more (spec.op (setting_of ground.now) spec.most_deep) body) cursor.old) result cursor.new }
{
    let inner = |cursor: &mut Cursor<'_>, lane: Reading| -> Result<Step, Stop>
        ensures { Reads (run _ (spec.op (setting_of ground.entry.now) spec.most_deep lane) cursor.old) result cursor.new }
    { op(alloc, cursor, ground, MOST_DEEP, lane) };
    more(cursor, &inner, body)
}

/// `lane`, which is at hand, and its operations in braces, after these roots.
///
/// A refusal is the first that its production comes to, where a repeat's body is read again for each of its rounds. Want
/// of memory is `Stop::Memory`.
#[tactic(auto, unfolding(crate::specs::Productions::lane))]
pub fn lane(
    alloc: Global,
    cursor: &mut Cursor<'_>,
    ground: &Ground<'_>,
    roots: Terms,
) -> Result<Body, Stop>
    ensures { Reads (run _ (spec.lane (setting_of ground.now) roots) cursor.old) result cursor.new }
{
    cursor.pass()?;
    cursor.expect(TokenClass::Symbol(b'{'))?;
    let body = all(alloc, cursor, ground, empty(alloc, roots))?;
    cursor.expect(TokenClass::Symbol(b'}'))?;
    Ok(body)
}

/// A lane without operations, after these roots.
fn empty(alloc: Global, roots: Terms) -> Body
    ensures { result ≡ spec.empty roots }
{
    let running = Running {
        live: Items::new(alloc),
        ops: Items::new(alloc),
    };
    let lane = Reading {
        variables: Variables::new(alloc),
        roots,
        running,
    };
    Body {
        lane,
        items: Items::new(alloc),
    }
}
