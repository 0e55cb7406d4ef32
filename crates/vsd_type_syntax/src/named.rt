//! The parts of a type: built-in types, parameters, names.
ghost use Rattle.std.specs.Prelude.{◌≡◌, ℕ, length, Option, option_map};
ghost use Rattle.vsd_grammar.specs.Grammar.{G, run};
ghost use Rattle.vsd_grammar.specs.Input.{Input};
ghost use Rattle.vsd_grammar.specs.Productions.{Reads};
ghost use Rattle.vsd_terms.specs.declared.term.Term.{Term};
ghost use Rattle.vsd_type_syntax.specs.Types as spec;

use crate::rules::TypeRules;
use crate::starts::unsigned_of;
use sqlite_items::Items;
use std::alloc::Global;
use vsd_grammar::{Cause, Cursor, Form, Stop, TokenClass};
use vsd_terms::{Builtin, Term};

/// No name of a nested class goes on after this type.
#[tactic(auto, unfolding(crate::specs::Types::unnested))]
pub fn unnested(cursor: &Cursor<'_>, term: Term) -> Result<Term, Stop>
    ensures { Reads (run _ (spec.unnested term) cursor.now) result cursor.now }
{
    if cursor.sees(TokenClass::Symbol(b'/')) {
        return Err(cursor.refuse(Cause::Unsupported(Form::Nested)));
    }
    Ok(term)
}

/// A built-in type, by its word, which is at hand.
#[tactic(auto, unfolding(crate::specs::Types::builtin_word))]
pub fn builtin_word(cursor: &mut Cursor<'_>, builtin: Builtin) -> Result<Term, Stop>
    ensures { Reads (run _ (spec.builtin_word builtin) cursor.old) result cursor.new }
{
    cursor.node()?;
    cursor.pass()?;
    Ok(Term::Builtin(builtin))
}

/// A built-in type, by its name, which is at hand.
#[tactic(auto, unfolding(crate::specs::Types::builtin_name))]
pub fn builtin_name(cursor: &mut Cursor<'_>, builtin: Builtin) -> Result<Term, Stop>
    ensures { Reads (run _ (spec.builtin_name builtin) cursor.old) result cursor.new }
{
    let term = builtin_word(cursor, builtin)?;
    unnested(cursor, term)
}

/// `unsigned`, which is at hand, and a word of a signed type.
#[tactic(auto, unfolding(crate::specs::Types::unsigned))]
pub fn unsigned(cursor: &mut Cursor<'_>) -> Result<Term, Stop>
    ensures { Reads (run _ spec.unsigned cursor.old) result cursor.new }
{
    cursor.pass()?;
    match unsigned_of(cursor.class()) {
        Some(builtin) => builtin_word(cursor, builtin),
        None => Err(cursor.refuse(Cause::Unexpected)),
    }
}

/// `!`, which is at hand, and a parameter.
#[tactic(auto, unfolding(crate::specs::Types::parameter))]
pub fn parameter<R: TypeRules>(cursor: &mut Cursor<'_>, rules: &R) -> Result<Term, Stop>
    ensures { Reads (run _ (spec.parameter (R.rules rules.now)) cursor.old) result cursor.new }
{
    if !rules.has_parameters() {
        return Err(cursor.refuse(Cause::Unexpected));
    }
    cursor.pass()?;
    if cursor.sees(TokenClass::Symbol(b'!')) {
        return Err(cursor.refuse(Cause::Unsupported(Form::GenericMethod)));
    }
    match rules.parameter(cursor.class(), cursor.bytes()) {
        Some(place) => parameter_name(cursor, place),
        None => Err(cursor.refuse(Cause::Unexpected)),
    }
}

/// The parameter at this place, whose name is at hand.
fn parameter_name(cursor: &mut Cursor<'_>, place: u8) -> Result<Term, Stop>
    ensures { Reads (run _ (spec.parameter_by (Option.Some place)) cursor.old) result cursor.new }
{
    cursor.node()?;
    cursor.pass()?;
    Ok(Term::Param(place))
}

/// Why a name after a scope is refused that is not built in; an empty one is no name.
pub fn scoped_cause<R: TypeRules>(rules: &R, name: &[u8]) -> Cause
    ensures { result ≡ spec.scoped_cause (R.rules rules.now) name.now }
{
    if name.len() == 0 {
        Cause::Unexpected
    } else {
        rules.foreign(name)
    }
}

/// A refusal for this cause, if there is one, at the token of this index.
pub fn shown_at(cursor: &Cursor<'_>, index: usize, cause: Option<Cause>) -> Result<(), Stop>
    ensures { Reads (run _ (spec.shown_at index cause) cursor.now) result cursor.now }
{
    match cause {
        Some(cause) => Err(cursor.refuse_at(index, cause)),
        None => Ok(()),
    }
}

/// A type without arguments, after its name, which has this index and number.
#[tactic(auto, unfolding(crate::specs::Types::bare))]
pub fn bare<R: TypeRules>(
    alloc: Global,
    cursor: &mut Cursor<'_>,
    rules: &R,
    index: usize,
    number: u16,
) -> Result<Term, Stop>
    ensures { Reads (run _ (spec.bare (R.rules rules.now) index number) cursor.old) result cursor.new }
{
    shown_at(cursor, index, rules.arity(number, 0))?;
    cursor.node_at(index)?;
    let args = Items::new(alloc);
    unnested(cursor, Term::Named { name: number, args })
}

/// The end of a type's arguments.
#[tactic(auto, unfolding(crate::specs::Types::closed))]
pub fn closed<R: TypeRules>(
    cursor: &mut Cursor<'_>,
    rules: &R,
    index: usize,
    number: u16,
    args: Items<Term>,
) -> Result<Term, Stop>
    ensures { Reads (run _ (spec.closed (R.rules rules.now) index number args) cursor.old) result cursor.new }
{
    cursor.must_see(TokenClass::Symbol(b'>'))?;
    shown_at(cursor, index, rules.arity(number, args.len()))?;
    cursor.pass()?;
    Ok(Term::Named { name: number, args })
}

/// A `<` where no further level may be, after a name of this index.
#[tactic(auto, unfolding(crate::specs::Types::no_arguments))]
pub fn no_arguments(cursor: &mut Cursor<'_>, index: usize, number: u16) -> Result<Term, Stop>
    ensures { Reads (run _ (spec.no_arguments index number) cursor.old) result cursor.new }
{
    let _ = number;
    cursor.node_at(index)?;
    Err(cursor.refuse(Cause::TooDeep))
}
