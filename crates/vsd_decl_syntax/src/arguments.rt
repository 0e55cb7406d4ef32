//! The arguments of a method.
ghost use Rattle.std.specs.Prelude.{◌≡◌};
ghost use Rattle.vsd_grammar.specs.Grammar.{run};
ghost use Rattle.vsd_grammar.specs.Productions.{Reads};
ghost use Rattle.vsd_decl_syntax.specs.Parameters.{rules_of};
ghost use Rattle.vsd_decl_syntax.specs.Signatures as spec;

use crate::rules::DeclRules;
use sqlite_items::Items;
use std::alloc::Global;
use vsd_grammar::{
    Cause, Counted, Cursor, Form, Keyword, Stop, TokenClass, Turn, is_name, name, same_class, scan,
    separated,
};
use vsd_terms::Term;
use vsd_type_syntax::{first_cause, written, written_rest};

/// The most arguments of a method.
const MOST_ARGUMENTS: usize = 16;

/// What was read of the marks before an argument's type: `[in]`, `[out]` and `[opt]`, which aren't kept.
#[derive(Clone, Copy, Debug, PartialEq, Eq, Drop)]
pub enum Marks {
    /// Whole marks.
    Between,
    /// A `[`, which opens a mark or the scope of the type.
    Opened,
    /// A `[` and the word of a mark.
    Marked,
}

fn is_mark(class: TokenClass) -> bool
    ensures { result ≡ spec.is_mark class }
{
    match class {
        TokenClass::Word(Keyword::In) => true,
        TokenClass::Word(Keyword::Out) => true,
        TokenClass::Word(Keyword::Optional) => true,
        _ => false,
    }
}

fn mark_turn(class: TokenClass, marks: Marks) -> Turn<Marks>
    ensures { result ≡ spec.mark_turn class marks }
{
    match marks {
        Marks::Between => {
            if same_class(TokenClass::Symbol(b'['), class) {
                Turn::Pass(Marks::Opened)
            } else {
                Turn::Stop
            }
        }
        Marks::Opened => {
            if is_mark(class) {
                Turn::Pass(Marks::Marked)
            } else {
                Turn::Stop
            }
        }
        Marks::Marked => {
            if same_class(TokenClass::Symbol(b']'), class) {
                Turn::Pass(Marks::Between)
            } else {
                Turn::Refuse(Cause::Unexpected)
            }
        }
    }
}

#[tactic(auto, unfolding(crate::specs::Signatures::marked))]
fn marked(cursor: &mut Cursor<'_>) -> Result<Marks, Stop>
    ensures { Reads (run _ spec.marked cursor.old) result cursor.new }
{
    scan(cursor, Marks::Between, mark_turn)
}

#[tactic(auto, unfolding(crate::specs::Signatures::argument_start))]
fn argument_start(
    alloc: Global,
    cursor: &mut Cursor<'_>,
    rules: &DeclRules<'_>,
) -> Result<Term, Stop>
    ensures { Reads (run _ (spec.argument_start (rules_of rules.now.of_owner rules.now.params.now)) cursor.old) result cursor.new }
{
    if cursor.sees(TokenClass::Directive(Keyword::Ellipsis)) {
        return Err(cursor.refuse(Cause::Unsupported(Form::Vararg)));
    }
    written(alloc, cursor, rules, false)
}

/// The type of an argument, after its marks.
fn argument_type(
    alloc: Global,
    cursor: &mut Cursor<'_>,
    rules: &DeclRules<'_>,
    marks: Marks,
) -> Result<Term, Stop>
    ensures { Reads (run _ (spec.argument_type (rules_of rules.now.of_owner rules.now.params.now) marks) cursor.old)
        result cursor.new }
{
    match marks {
        Marks::Between => argument_start(alloc, cursor, rules),
        Marks::Opened => written_rest(alloc, cursor, rules),
        Marks::Marked => Err(cursor.refuse(Cause::Unexpected)),
    }
}

/// The name of an argument of this type, which isn't kept.
#[tactic(auto, unfolding(crate::specs::Signatures::then_name))]
fn then_name(cursor: &mut Cursor<'_>, term: Term) -> Result<Term, Stop>
    ensures { Reads (run _ (spec.then_name term) cursor.old) result cursor.new }
{
    if is_name(cursor.class()) {
        let _name = name(cursor)?;
    }
    Ok(term)
}

#[tactic(auto, unfolding(crate::specs::Signatures::argument))]
fn argument(alloc: Global, cursor: &mut Cursor<'_>, rules: &DeclRules<'_>) -> Result<Term, Stop>
    ensures { Reads (run _ (spec.argument (rules_of rules.now.of_owner rules.now.params.now)) cursor.old) result cursor.new }
{
    let marks = marked(cursor)?;
    let term = argument_type(alloc, cursor, rules, marks)?;
    then_name(cursor, term)
}

/// Why a token is refused that can't begin an argument.
fn argument_first(class: TokenClass, bytes: &[u8]) -> Option<Cause>
    ensures { result ≡ spec.argument_first class bytes.now }
{
    if same_class(TokenClass::Directive(Keyword::Ellipsis), class) {
        return Some(Cause::Unsupported(Form::Vararg));
    }
    first_cause(false, class, bytes)
}

#[tactic(auto, unfolding(crate::specs::Signatures::argument_list))]
fn argument_list(
    alloc: Global,
    cursor: &mut Cursor<'_>,
    rules: &DeclRules<'_>,
) -> Result<Items<Term>, Stop>
    ensures { Reads (run _ (spec.argument_list (rules_of rules.now.of_owner rules.now.params.now)) cursor.old) result cursor.new }
{
    let item = |inner: &mut Cursor<'_>| -> Result<Term, Stop>
        ensures { Reads (run _ (spec.argument (rules_of rules.entry.now.of_owner rules.entry.now.params.now)) inner.old)
            result inner.new }
    { argument(alloc, inner, rules) };
    let many = Cause::TooMany(Counted::Arguments);
    separated(alloc, cursor, argument_first, many, MOST_ARGUMENTS, item)
}

/// The arguments of a method, between parentheses.
#[tactic(auto, unfolding(crate::specs::Signatures::arguments))]
pub fn arguments(
    alloc: Global,
    cursor: &mut Cursor<'_>,
    rules: &DeclRules<'_>,
) -> Result<Items<Term>, Stop>
    ensures { Reads (run _ (spec.arguments (rules_of rules.now.of_owner rules.now.params.now)) cursor.old) result cursor.new }
{
    cursor.expect(TokenClass::Symbol(b'('))?;
    if cursor.sees(TokenClass::Symbol(b')')) {
        cursor.pass()?;
        return Ok(Items::new(alloc));
    }
    let arguments = argument_list(alloc, cursor, rules)?;
    cursor.expect(TokenClass::Symbol(b')'))?;
    Ok(arguments)
}
