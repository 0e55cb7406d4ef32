//! The call form and the result of a method.
ghost use Rattle.std.specs.Prelude.{◌≡◌};
ghost use Rattle.vsd_grammar.specs.Grammar.{run};
ghost use Rattle.vsd_grammar.specs.Productions.{Reads};
ghost use Rattle.vsd_decl_syntax.specs.Parameters.{rules_of};
ghost use Rattle.vsd_decl_syntax.specs.Signatures as spec;

use crate::rules::DeclRules;
use std::alloc::Global;
use vsd_grammar::{Cause, Cursor, Form, Keyword, Stop, TokenClass};
use vsd_terms::Term;
use vsd_type_syntax::written;

#[tactic(auto, unfolding(crate::specs::Signatures::no_vararg))]
fn no_vararg(cursor: &Cursor<'_>) -> Result<(), Stop>
    ensures { Reads (run _ spec.no_vararg cursor.now) result cursor.now }
{
    if cursor.sees(TokenClass::Word(Keyword::Vararg)) {
        return Err(cursor.refuse(Cause::Unsupported(Form::Vararg)));
    }
    Ok(())
}

/// `instance`, if it is there.
#[tactic(auto, unfolding(crate::specs::Signatures::instance))]
pub fn instance(cursor: &mut Cursor<'_>) -> Result<(), Stop>
    ensures { Reads (run _ spec.instance cursor.old) result cursor.new }
{
    let _ = cursor.eat(TokenClass::Word(Keyword::Instance));
    no_vararg(cursor)
}

/// `instance` and `default`, if they are there.
#[tactic(auto, unfolding(crate::specs::Signatures::call_form))]
pub fn call_form(cursor: &mut Cursor<'_>) -> Result<(), Stop>
    ensures { Reads (run _ spec.call_form cursor.old) result cursor.new }
{
    let _ = cursor.eat(TokenClass::Word(Keyword::Instance));
    let _ = cursor.eat(TokenClass::Word(Keyword::Default));
    no_vararg(cursor)
}

/// `void`, which is no result, or a type.
#[tactic(auto, unfolding(crate::specs::Signatures::result_type))]
pub fn result_type(
    alloc: Global,
    cursor: &mut Cursor<'_>,
    rules: &DeclRules<'_>,
) -> Result<Option<Term>, Stop>
    ensures { Reads (run _ (spec.result_type (rules_of rules.now.of_owner rules.now.params.now)) cursor.old) result cursor.new }
{
    if cursor.sees(TokenClass::Word(Keyword::Void)) {
        cursor.pass()?;
        return Ok(None);
    }
    let term = written(alloc, cursor, rules, false)?;
    Ok(Some(term))
}
