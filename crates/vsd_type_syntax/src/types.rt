//! Types, whose arguments are types.
ghost use Rattle.std.specs.Prelude.{◌≡◌, ℕ, Option, Bool};
ghost use Rattle.vsd_grammar.specs.Grammar.{G, run, items, Outcome};
ghost use Rattle.vsd_grammar.specs.Input.{Input, lookahead_of, class_at, same_class};
ghost use Rattle.vsd_grammar.specs.Loops.{ReadsAs};
ghost use Rattle.vsd_grammar.specs.declared.cause.Cause.{Cause};
ghost use Rattle.vsd_grammar.specs.Productions.{Reads};
ghost use Rattle.vsd_terms.specs.declared.term.Term.{Term};
ghost use Rattle.vsd_type_syntax.specs.Types as spec;
ghost use Rattle.vsd_type_syntax.specs.More.{ReadsMore};

use crate::named::{
    bare, builtin_name, builtin_word, closed, no_arguments, parameter, scoped_cause, unsigned,
};
use crate::rules::TypeRules;
use crate::starts::{Special, Start, special_of, start_at, suffix_of};
use sqlite_items::Items;
use std::alloc::Global;
use vsd_grammar::{
    Cause, Cursor, Form, MOST_NODES, Stop, TokenClass, is_name, name, separated, spelled_name,
};
use vsd_terms::Term;

/// The most levels below that of a written term.
const MOST_BELOW: u8 = 15;

/// What follows the name of a type, which has this index and number. `more` reads what begins with `<`.
#[tactic(auto, unfolding(crate::specs::Types::after_name))]
fn after_name<R: TypeRules, M>(
    alloc: Global,
    cursor: &mut Cursor<'_>,
    rules: &R,
    more: &M,
    index: usize,
    number: u16,
) -> Result<Term, Stop>
where
    M: Fn(&mut Cursor<'_>, usize, u16) -> Result<Term, Stop>,
    requires { M.IsAlwaysCallable more.now }
    ensures { (room : Option ℕ) → ReadsMore (M.post more.now) (λ index number. run _ (spec.more_of (R.rules rules.now) room index number))
        → Reads (run _ (spec.after_name (R.rules rules.now) (spec.more_of (R.rules rules.now) room) index number) cursor.old) result cursor.new }
{
    if cursor.sees(TokenClass::Symbol(b'<')) {
        more(cursor, index, number)
    } else {
        bare(alloc, cursor, rules, index, number)
    }
}

/// A type whose name, which is at hand, stands after no scope and isn't built in.
#[tactic(auto, unfolding(crate::specs::Types::resolved_name))]
fn resolved_name<R: TypeRules, M>(
    alloc: Global,
    cursor: &mut Cursor<'_>,
    rules: &R,
    more: &M,
    index: usize,
) -> Result<Term, Stop>
where
    M: Fn(&mut Cursor<'_>, usize, u16) -> Result<Term, Stop>,
    requires { M.IsAlwaysCallable more.now }
    ensures { (room : Option ℕ) → ReadsMore (M.post more.now) (λ index number. run _ (spec.more_of (R.rules rules.now) room index number))
        → Reads (run _ (spec.resolved_name (R.rules rules.now) (spec.more_of (R.rules rules.now) room) index) cursor.old) result cursor.new }
{
    let bytes = spelled_name(cursor)?;
    let number = rules.resolve(cursor, bytes)?;
    cursor.pass()?;
    after_name(alloc, cursor, rules, more, index, number)
}

/// A name that isn't built in, which is at hand, after a scope or not.
fn other_name<R: TypeRules, M>(
    alloc: Global,
    cursor: &mut Cursor<'_>,
    rules: &R,
    more: &M,
    scoped: bool,
) -> Result<Term, Stop>
where
    M: Fn(&mut Cursor<'_>, usize, u16) -> Result<Term, Stop>,
    requires { M.IsAlwaysCallable more.now }
    ensures { (room : Option ℕ)
        → ReadsMore (M.post more.now) (λ index number. run _ (spec.more_of (R.rules rules.now) room index number))
        → Reads (run _ (spec.other_name (R.rules rules.now) (spec.more_of (R.rules rules.now) room) scoped (lookahead_of cursor.old)) cursor.old) result cursor.new }
{
    if scoped {
        return Err(cursor.refuse(scoped_cause(rules, cursor.bytes())));
    }
    let index = cursor.index();
    resolved_name(alloc, cursor, rules, more, index)
}

/// The name of a type, after a scope or not, and what follows it.
#[tactic(auto, unfolding(crate::specs::Types::named))]
fn named<R: TypeRules, M>(
    alloc: Global,
    cursor: &mut Cursor<'_>,
    rules: &R,
    more: &M,
    scoped: bool,
) -> Result<Term, Stop>
where
    M: Fn(&mut Cursor<'_>, usize, u16) -> Result<Term, Stop>,
    requires { M.IsAlwaysCallable more.now }
    ensures { (room : Option ℕ)
        → ReadsMore (M.post more.now) (λ index number. run _ (spec.more_of (R.rules rules.now) room index number))
        → Reads (run _ (spec.named (R.rules rules.now) (spec.more_of (R.rules rules.now) room) scoped) cursor.old) result cursor.new }
{
    if !is_name(cursor.class()) {
        return Err(cursor.refuse(Cause::Unexpected));
    }
    match special_of(cursor.bytes()) {
        Special::Builtin(builtin) => builtin_name(cursor, builtin),
        Special::Refused(form) => Err(cursor.refuse(Cause::Unsupported(form))),
        Special::Nothing => other_name(alloc, cursor, rules, more, scoped),
    }
}

/// The name of an assembly and `]`, after a `[`, before the name of a type.
#[tactic(auto, unfolding(crate::specs::Types::bracketed))]
fn bracketed<R: TypeRules, M>(
    alloc: Global,
    cursor: &mut Cursor<'_>,
    rules: &R,
    more: &M,
) -> Result<Term, Stop>
where
    M: Fn(&mut Cursor<'_>, usize, u16) -> Result<Term, Stop>,
    requires { M.IsAlwaysCallable more.now }
    ensures { (room : Option ℕ)
        → ReadsMore (M.post more.now) (λ index number. run _ (spec.more_of (R.rules rules.now) room index number))
        → Reads (run _ (spec.bracketed (R.rules rules.now) (spec.more_of (R.rules rules.now) room)) cursor.old) result cursor.new }
{
    let _scope = name(cursor)?;
    cursor.expect(TokenClass::Symbol(b']'))?;
    named(alloc, cursor, rules, more, true)
}

/// `[`, which is at hand, the name of an assembly and `]`, before the name of a type.
#[tactic(auto, unfolding(crate::specs::Types::scoped))]
fn scoped<R: TypeRules, M>(
    alloc: Global,
    cursor: &mut Cursor<'_>,
    rules: &R,
    more: &M,
) -> Result<Term, Stop>
where
    M: Fn(&mut Cursor<'_>, usize, u16) -> Result<Term, Stop>,
    requires { M.IsAlwaysCallable more.now }
    ensures { (room : Option ℕ)
        → ReadsMore (M.post more.now) (λ index number. run _ (spec.more_of (R.rules rules.now) room index number))
        → Reads (run _ (spec.scoped (R.rules rules.now) (spec.more_of (R.rules rules.now) room)) cursor.old) result cursor.new }
{
    cursor.pass()?;
    bracketed(alloc, cursor, rules, more)
}

/// `class` or `valuetype`, which is at hand, before a type that is named.
#[tactic(auto, unfolding(crate::specs::Types::keyworded))]
fn keyworded<R: TypeRules, M>(
    alloc: Global,
    cursor: &mut Cursor<'_>,
    rules: &R,
    more: &M,
) -> Result<Term, Stop>
where
    M: Fn(&mut Cursor<'_>, usize, u16) -> Result<Term, Stop>,
    requires { M.IsAlwaysCallable more.now }
    ensures { (room : Option ℕ)
        → ReadsMore (M.post more.now) (λ index number. run _ (spec.more_of (R.rules rules.now) room index number))
        → Reads (run _ (spec.keyworded (R.rules rules.now) (spec.more_of (R.rules rules.now) room)) cursor.old) result cursor.new }
{
    cursor.pass()?;
    if cursor.sees(TokenClass::Symbol(b'[')) {
        scoped(alloc, cursor, rules, more)
    } else {
        named(alloc, cursor, rules, more, false)
    }
}

/// A type that begins so.
fn started<R: TypeRules, M>(
    alloc: Global,
    cursor: &mut Cursor<'_>,
    rules: &R,
    more: &M,
    start: Start,
) -> Result<Term, Stop>
where
    M: Fn(&mut Cursor<'_>, usize, u16) -> Result<Term, Stop>,
    requires { M.IsAlwaysCallable more.now }
    ensures { (room : Option ℕ)
        → ReadsMore (M.post more.now) (λ index number. run _ (spec.more_of (R.rules rules.now) room index number))
        → Reads (run _ (spec.started (R.rules rules.now) (spec.more_of (R.rules rules.now) room) start) cursor.old) result cursor.new }
{
    match start {
        Start::Parameter => parameter(cursor, rules),
        Start::Keyworded => keyworded(alloc, cursor, rules, more),
        Start::Scope => scoped(alloc, cursor, rules, more),
        Start::Builtin(builtin) => builtin_word(cursor, builtin),
        Start::Unsigned => unsigned(cursor),
        Start::Name => named(alloc, cursor, rules, more, false),
        Start::Refused(cause) => Err(cursor.refuse(cause)),
    }
}

/// No form that isn't supported goes on after this type.
#[tactic(auto, unfolding(crate::specs::Types::suffixed))]
fn suffixed(cursor: &Cursor<'_>, term: Term) -> Result<Term, Stop>
    ensures { Reads (run _ (spec.suffixed term) cursor.now) result cursor.now }
{
    match suffix_of(cursor.class()) {
        Some(form) => Err(cursor.refuse(Cause::Unsupported(form))),
        None => Ok(term),
    }
}

/// A type, or a named one alone.
#[tactic(auto, unfolding(crate::specs::Types::type_by))]
fn type_by<R: TypeRules, M>(
    alloc: Global,
    cursor: &mut Cursor<'_>,
    rules: &R,
    more: &M,
    only_named: bool,
) -> Result<Term, Stop>
where
    M: Fn(&mut Cursor<'_>, usize, u16) -> Result<Term, Stop>,
    requires { M.IsAlwaysCallable more.now }
    ensures { (room : Option ℕ)
        → ReadsMore (M.post more.now) (λ index number. run _ (spec.more_of (R.rules rules.now) room index number))
        → Reads (run _ (spec.type_by (R.rules rules.now) (spec.more_of (R.rules rules.now) room) only_named) cursor.old) result cursor.new }
{
    let start = start_at(only_named, cursor.class());
    let term = started(alloc, cursor, rules, more, start)?;
    suffixed(cursor, term)
}

/// What is known of a token that begins an argument: nothing.
fn any_first(class: TokenClass, bytes: &[u8]) -> Option<Cause>
    ensures { result ≡ spec.any_first class bytes.now }
{
    let _ = class;
    let _ = bytes;
    None
}

/// `<`, which is at hand, types with commas between, and `>`, after a name of this index and number.
#[tactic(auto, unfolding(crate::specs::Types::arguments))]
fn arguments<R: TypeRules, A>(
    alloc: Global,
    cursor: &mut Cursor<'_>,
    rules: &R,
    argument: &A,
    index: usize,
    number: u16,
) -> Result<Term, Stop>
where
    A: Fn(&mut Cursor<'_>) -> Result<Term, Stop>,
    requires { A.IsAlwaysCallable argument.now }
    ensures { (room : ℕ) → ReadsAs (A.post argument.now) (run _ (spec.type_of (R.rules rules.now) room Bool.false))
        → Reads (run _ (spec.arguments (R.rules rules.now) (spec.type_of (R.rules rules.now) room Bool.false) index number) cursor.old) result cursor.new }
{
    cursor.node_at(index)?;
    cursor.pass()?;
    let args = list(alloc, cursor, argument)?;
    closed(cursor, rules, index, number, args)
}

/// Types with commas between.
fn list<A>(alloc: Global, cursor: &mut Cursor<'_>, argument: &A) -> Result<Items<Term>, Stop>
where
    A: Fn(&mut Cursor<'_>) -> Result<Term, Stop>,
    requires { A.IsAlwaysCallable argument.now }
    ensures { (p : Input → Outcome Term) → ReadsAs (A.post argument.now) p
        → Reads (items spec.any_first Cause.TooDeep p 64 cursor.old) result cursor.new }
{
    let item = |inner: &mut Cursor<'_>| argument(inner);
    separated(
        alloc,
        cursor,
        any_first,
        Cause::TooDeep,
        usize::from(MOST_NODES),
        item,
    )
}

/// A type with arguments of at most so many levels, or a named one alone.
fn type_below<R: TypeRules, A>(
    alloc: Global,
    cursor: &mut Cursor<'_>,
    rules: &R,
    argument: &A,
    only_named: bool,
) -> Result<Term, Stop>
where
    A: Fn(&mut Cursor<'_>) -> Result<Term, Stop>,
    requires { A.IsAlwaysCallable argument.now }
    ensures { (room : ℕ) → ReadsAs (A.post argument.now) (run _ (spec.type_of (R.rules rules.now) room Bool.false))
        → Reads (run _ (spec.type_by (R.rules rules.now) (spec.more_of (R.rules rules.now) (Option.Some room)) only_named) cursor.old) result cursor.new }
{
    let more = |inner: &mut Cursor<'_>, index: usize, number: u16| -> Result<Term, Stop>
        requires { A.IsAlwaysCallable argument.now }
        ensures { (room : ℕ)
            → ReadsAs (A.post argument.entry.now) (run _ (spec.type_of (R.rules rules.entry.now) room Bool.false))
            → Reads (run _ (spec.more_of (R.rules rules.entry.now) (Option.Some room) index number) inner.old) result inner.new }
    { arguments(alloc, inner, rules, argument, index, number) };
    type_by(alloc, cursor, rules, &more, only_named)
}

/// A type with at most so many levels below its own, or a named one alone.
fn type_of<R: TypeRules>(
    alloc: Global,
    cursor: &mut Cursor<'_>,
    rules: &R,
    room: u8,
    only_named: bool,
) -> Result<Term, Stop>
    ensures { Reads (run _ (spec.type_of (R.rules rules.now) room only_named) cursor.old) result cursor.new }
{
    if room == 0 {
        return type_by(alloc, cursor, rules, &no_arguments, only_named);
    }
    let below = room - 1;
    let argument = |inner: &mut Cursor<'_>| -> Result<Term, Stop>
        ensures { Reads (run _ (spec.type_of (R.rules rules.entry.now) below Bool.false) inner.old) result inner.new }
    { type_of(alloc, inner, rules, below, false) };
    type_below(alloc, cursor, rules, &argument, only_named)
}

/// A written term: a type, or, where only a named one may stand, a named type, `object`, `string` or `System.ValueType`.
///
/// It has at most 16 levels and 64 nodes. A refusal is unexpected at the first token that can't go on, or shows a form
/// that isn't supported; the `<` that opens a 17th level, and the token that names a 65th node, are refused as too
/// deep. A name, a parameter and a number of arguments are refused as the rules say. Want of memory is `Stop::Memory`.
#[tactic(auto, unfolding(crate::specs::Types::written))]
pub fn written<R: TypeRules>(
    alloc: Global,
    cursor: &mut Cursor<'_>,
    rules: &R,
    only_named: bool,
) -> Result<Term, Stop>
    ensures { Reads (run _ (spec.written (R.rules rules.now) only_named) cursor.old) result cursor.new }
{
    cursor.begin_term();
    type_of(alloc, cursor, rules, MOST_BELOW, only_named)
}

/// A written term whose first token, a `[`, was passed over already; it is refused as `written` refuses. Want of memory
/// is `Stop::Memory`.
#[tactic(auto, unfolding(crate::specs::Types::written_rest))]
pub fn written_rest<R: TypeRules>(
    alloc: Global,
    cursor: &mut Cursor<'_>,
    rules: &R,
) -> Result<Term, Stop>
    ensures { Reads (run _ (spec.written_rest (R.rules rules.now)) cursor.old) result cursor.new }
{
    cursor.begin_term();
    let term = outermost_rest(alloc, cursor, rules)?;
    suffixed(cursor, term)
}

/// A type of the first level, after a `[`.
fn outermost_rest<R: TypeRules>(
    alloc: Global,
    cursor: &mut Cursor<'_>,
    rules: &R,
) -> Result<Term, Stop>
    ensures { Reads (run _ (spec.bracketed (R.rules rules.now) (spec.more_of (R.rules rules.now) (Option.Some 14))) cursor.old)
        result cursor.new }
{
    let more = |inner: &mut Cursor<'_>, index: usize, number: u16| -> Result<Term, Stop>
        ensures { Reads (run _ (spec.more_of (R.rules rules.entry.now) (Option.Some 14) index number) inner.old) result inner.new }
    { outermost_arguments(alloc, inner, rules, index, number) };
    bracketed(alloc, cursor, rules, &more)
}

/// The arguments of a type of the first level.
fn outermost_arguments<R: TypeRules>(
    alloc: Global,
    cursor: &mut Cursor<'_>,
    rules: &R,
    index: usize,
    number: u16,
) -> Result<Term, Stop>
    ensures { Reads (run _ (spec.more_of (R.rules rules.now) (Option.Some 14) index number) cursor.old) result cursor.new }
{
    let argument = |inner: &mut Cursor<'_>| -> Result<Term, Stop>
        ensures { Reads (run _ (spec.type_of (R.rules rules.entry.now) 14 Bool.false) inner.old) result inner.new }
    { type_of(alloc, inner, rules, MOST_BELOW - 1, false) };
    arguments(alloc, cursor, rules, &argument, index, number)
}

/// A written term after which a `[` may stand, which ends it; otherwise it is refused as `written` refuses. Want of
/// memory is `Stop::Memory`.
#[tactic(auto, unfolding(crate::specs::Types::written_open))]
pub fn written_open<R: TypeRules>(
    alloc: Global,
    cursor: &mut Cursor<'_>,
    rules: &R,
) -> Result<Term, Stop>
    ensures { Reads (run _ (spec.written_open (R.rules rules.now)) cursor.old) result cursor.new }
{
    cursor.begin_term();
    let term = outermost(alloc, cursor, rules)?;
    suffixed_open(cursor, term)
}

/// A type of the first level, without what may stand after it.
#[tactic(auto, unfolding(crate::specs::Types::outermost))]
fn outermost<R: TypeRules>(alloc: Global, cursor: &mut Cursor<'_>, rules: &R) -> Result<Term, Stop>
    ensures { Reads (run _ (spec.outermost (R.rules rules.now)) cursor.old) result cursor.new }
{
    let start = start_at(false, cursor.class());
    outermost_by(alloc, cursor, rules, start)
}

/// A type of the first level that begins so.
fn outermost_by<R: TypeRules>(
    alloc: Global,
    cursor: &mut Cursor<'_>,
    rules: &R,
    start: Start,
) -> Result<Term, Stop>
    ensures { Reads (run _ (spec.started (R.rules rules.now) (spec.more_of (R.rules rules.now) (Option.Some 14)) start) cursor.old)
        result cursor.new }
{
    let more = |inner: &mut Cursor<'_>, index: usize, number: u16| -> Result<Term, Stop>
        ensures { Reads (run _ (spec.more_of (R.rules rules.entry.now) (Option.Some 14) index number) inner.old) result inner.new }
    { outermost_arguments(alloc, inner, rules, index, number) };
    started(alloc, cursor, rules, &more, start)
}

/// The form that a token after a type shows where a `[` may stand.
fn open_suffix(cursor: &Cursor<'_>) -> Option<Form>
    ensures { result ≡ spec.open_suffix_by (same_class spec.left_bracket (class_at cursor.now)) (class_at cursor.now) }
{
    if cursor.sees(TokenClass::Symbol(b'[')) {
        None
    } else {
        suffix_of(cursor.class())
    }
}

/// No form that isn't supported goes on after this type, but that a `[` may stand there.
#[tactic(auto, unfolding(crate::specs::Types::suffixed_open))]
fn suffixed_open(cursor: &Cursor<'_>, term: Term) -> Result<Term, Stop>
    ensures { Reads (run _ (spec.suffixed_open term) cursor.now) result cursor.now }
{
    match open_suffix(cursor) {
        Some(form) => Err(cursor.refuse(Cause::Unsupported(form))),
        None => Ok(term),
    }
}
