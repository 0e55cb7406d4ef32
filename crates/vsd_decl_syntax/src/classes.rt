//! Classes and interfaces.
ghost use Rattle.std.specs.Prelude.{◌≡◌, ◌≤◌, true, length};
ghost use Rattle.vsd_grammar.specs.Grammar.{run};
ghost use Rattle.vsd_decl_syntax.specs.Parameters.{most_params};
ghost use Rattle.vsd_grammar.specs.Productions.{Reads};
ghost use Rattle.vsd_decl_syntax.specs.Classes as spec;
ghost use Rattle.vsd_type_syntax.specs.Types.{first_cause};

use crate::members::{Members, members_of};
use crate::params::params;
use crate::rules::DeclRules;
use sqlite_items::Items;
use std::alloc::Global;
use vsd_ast::{Decl, Located, Param};
use vsd_grammar::{
    Cause, Counted, Cursor, Form, Keyword, Stop, TokenClass, Turn, numbered_name, scan, separated,
};
use vsd_type_syntax::{first_cause, written};

/// The most interfaces that a declaration names.
const MOST_INTERFACES: usize = 64;

/// What the attributes of a class or an interface say.
#[derive(Clone, Copy, Debug, PartialEq, Eq, Drop)]
pub struct ClassAttributes {
    pub is_interface: bool,
    pub is_abstract: bool,
    pub sealed: bool,
}

fn attribute_turn(word: Keyword, found: ClassAttributes) -> Turn<ClassAttributes>
    ensures { result ≡ spec.attribute_turn word found }
{
    let mut found = found;
    match word {
        Keyword::Nested => return Turn::Refuse(Cause::Unsupported(Form::Nested)),
        Keyword::Interface => found.is_interface = true,
        Keyword::Abstract => found.is_abstract = true,
        Keyword::Sealed => found.sealed = true,
        Keyword::Public
        | Keyword::Private
        | Keyword::Auto
        | Keyword::Sequential
        | Keyword::Explicit
        | Keyword::Ansi
        | Keyword::Unicode
        | Keyword::AutoChar
        | Keyword::BeforeFieldInit
        | Keyword::Serializable
        | Keyword::SpecialName
        | Keyword::RuntimeSpecialName
        | Keyword::Import => {}
        _ => return Turn::Stop,
    }
    Turn::Pass(found)
}

fn class_turn(class: TokenClass, found: ClassAttributes) -> Turn<ClassAttributes>
    ensures { result ≡ spec.class_turn class found }
{
    match class {
        TokenClass::Word(word) => attribute_turn(word, found),
        _ => Turn::Stop,
    }
}

#[tactic(auto, unfolding(crate::specs::Classes::class_attributes))]
fn class_attributes(cursor: &mut Cursor<'_>) -> Result<ClassAttributes, Stop>
    ensures { Reads (run _ spec.class_attributes cursor.old) result cursor.new }
{
    let none = ClassAttributes {
        is_interface: false,
        is_abstract: false,
        sealed: false,
    };
    scan(cursor, none, class_turn)
}

#[tactic(auto, unfolding(crate::specs::Classes::no_extern))]
fn no_extern(cursor: &Cursor<'_>) -> Result<(), Stop>
    ensures { Reads (run _ spec.no_extern cursor.now) result cursor.now }
{
    if cursor.sees(TokenClass::Word(Keyword::Extern)) {
        return Err(cursor.refuse(Cause::Unsupported(Form::TypeForwarding)));
    }
    Ok(())
}

/// A named type or a built-in class, with the line of its first token.
#[tactic(auto, unfolding(crate::specs::Classes::located))]
fn located(alloc: Global, cursor: &mut Cursor<'_>, params: &[Param]) -> Result<Located, Stop>
    requires { length params.now ≤ most_params }
    ensures { Reads (run _ (spec.located params.now) cursor.old) result cursor.new }
{
    let rules = DeclRules {
        params,
        of_owner: false,
    };
    let line = cursor.line();
    let term = written(alloc, cursor, &rules, true)?;
    Ok(Located { term, line })
}

#[tactic(auto, unfolding(crate::specs::Classes::base))]
fn base(alloc: Global, cursor: &mut Cursor<'_>, params: &[Param]) -> Result<Option<Located>, Stop>
    requires { length params.now ≤ most_params }
    ensures { Reads (run _ (spec.base params.now) cursor.old) result cursor.new }
{
    if !cursor.sees(TokenClass::Word(Keyword::Extends)) {
        return Ok(None);
    }
    cursor.pass()?;
    let base = located(alloc, cursor, params)?;
    Ok(Some(base))
}

#[tactic(auto, unfolding(crate::specs::Classes::interface_list))]
fn interface_list(
    alloc: Global,
    cursor: &mut Cursor<'_>,
    params: &[Param],
) -> Result<Items<Located>, Stop>
    requires { length params.now ≤ most_params }
    ensures { Reads (run _ (spec.interface_list params.now) cursor.old) result cursor.new }
{
    let first = |class: TokenClass, bytes: &[u8]| -> Option<Cause>
        ensures { result ≡ first_cause true class bytes.now }
    { first_cause(true, class, bytes) };
    let item = |inner: &mut Cursor<'_>| -> Result<Located, Stop>
        requires { length params.now ≤ most_params }
        ensures { Reads (run _ (spec.located params.entry.now) inner.old) result inner.new }
    { located(alloc, inner, params) };
    let many = Cause::TooMany(Counted::Interfaces);
    separated(alloc, cursor, first, many, MOST_INTERFACES, item)
}

#[tactic(auto, unfolding(crate::specs::Classes::interfaces))]
fn interfaces(
    alloc: Global,
    cursor: &mut Cursor<'_>,
    params: &[Param],
) -> Result<Items<Located>, Stop>
    requires { length params.now ≤ most_params }
    ensures { Reads (run _ (spec.interfaces params.now) cursor.old) result cursor.new }
{
    if !cursor.sees(TokenClass::Word(Keyword::Implements)) {
        return Ok(Items::new(alloc));
    }
    cursor.pass()?;
    interface_list(alloc, cursor, params)
}

/// The members of a declaration, between braces.
#[tactic(auto, unfolding(crate::specs::Classes::block))]
fn block(
    alloc: Global,
    cursor: &mut Cursor<'_>,
    is_interface: bool,
    params: &[Param],
) -> Result<Members, Stop>
    requires { length params.now ≤ most_params }
    ensures { Reads (run _ (spec.block is_interface params.now) cursor.old) result cursor.new }
{
    cursor.expect(TokenClass::Symbol(b'{'))?;
    let members = members_of(alloc, cursor, is_interface, params)?;
    cursor.expect(TokenClass::Symbol(b'}'))?;
    Ok(members)
}

/// What follows the parameters of a declaration.
#[tactic(auto, unfolding(crate::specs::Classes::class_from))]
fn class_from(
    alloc: Global,
    cursor: &mut Cursor<'_>,
    line: u32,
    attributes: ClassAttributes,
    name: u16,
    params: Items<Param>,
) -> Result<Decl, Stop>
    requires { length params ≤ most_params }
    ensures { Reads (run _ (spec.class_from line attributes name params) cursor.old) result cursor.new }
{
    let base = base(alloc, cursor, params.as_slice())?;
    let interfaces = interfaces(alloc, cursor, params.as_slice())?;
    let Members { methods, overrides } = block(
        alloc,
        cursor,
        attributes.is_interface,
        params.as_slice(),
    )?;
    Ok(Decl {
        name,
        line,
        is_interface: attributes.is_interface,
        is_abstract: attributes.is_abstract,
        sealed: attributes.sealed,
        params,
        base,
        interfaces,
        methods,
        overrides,
    })
}

/// A class or an interface, whose `.class` is at hand.
///
/// A refusal is the first that its production comes to, and want of memory is `Stop::Memory`.
#[tactic(auto, unfolding(crate::specs::Classes::class_))]
pub fn class(alloc: Global, cursor: &mut Cursor<'_>) -> Result<Decl, Stop>
    ensures { Reads (run _ spec.class_ cursor.old) result cursor.new }
{
    let line = cursor.line();
    cursor.pass()?;
    no_extern(cursor)?;
    let attributes = class_attributes(cursor)?;
    let name = numbered_name(cursor)?;
    let params = params(alloc, cursor)?;
    class_from(alloc, cursor, line, attributes, name, params)
}
