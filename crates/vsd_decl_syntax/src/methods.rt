//! Methods: their attributes, which of them are kept, their bodies.
ghost use Rattle.std.specs.Prelude.{◌≡◌, ◌≢◌, ◌<◌, ◌≤◌, length};
ghost use Rattle.vsd_grammar.specs.Grammar.{run};
ghost use Rattle.vsd_decl_syntax.specs.Parameters.{most_params};
ghost use Rattle.vsd_grammar.specs.Input.{same_class};
ghost use Rattle.vsd_grammar.specs.Skipping.{closing, skip as spec_skip};
ghost use Rattle.vsd_grammar.specs.Productions.{Reads};
ghost use Rattle.vsd_decl_syntax.specs.Methods as spec;

use crate::arguments::arguments;
use crate::members::Members;
use crate::overrides::body_override;
use crate::rules::{DeclRules, owned_name};
use crate::signatures::{call_form, result_type};
use sqlite_items::Items;
use std::alloc::Global;
use vsd_ast::{Access, Method, Override, Param, Signature};
use vsd_grammar::{
    Cause, Counted, Cursor, Form, Keyword, Stop, TokenClass, Turn, plain_words, same_class, scan,
    skip, until,
};

/// The most virtual methods of a declaration.
const MOST_METHODS: usize = 256;

/// What the attributes of a method say.
#[derive(Clone, Copy, Debug, PartialEq, Eq, Drop)]
pub struct MethodAttributes {
    pub access: Access,
    pub is_static: bool,
    pub is_final: bool,
    pub is_virtual: bool,
    pub is_abstract: bool,
    pub newslot: bool,
}

/// What becomes of a method with its attributes.
#[derive(Clone, Copy, Debug, PartialEq, Eq, Drop)]
pub enum Choice {
    Kept,
    /// It is passed over.
    Passed,
    Refused(Cause),
}

fn attribute_turn(word: Keyword, found: MethodAttributes) -> Turn<MethodAttributes>
    ensures { result ≡ spec.attribute_turn word found }
{
    let mut found = found;
    match word {
        Keyword::Public => found.access = Access::Public,
        Keyword::Private => found.access = Access::Private,
        Keyword::Family
        | Keyword::Assembly
        | Keyword::FamilyOrAssembly
        | Keyword::FamilyAndAssembly
        | Keyword::PrivateScope => found.access = Access::Other,
        Keyword::Static => found.is_static = true,
        Keyword::Final => found.is_final = true,
        Keyword::Virtual => found.is_virtual = true,
        Keyword::Abstract => found.is_abstract = true,
        Keyword::NewSlot => found.newslot = true,
        Keyword::Strict
        | Keyword::HideBySignature
        | Keyword::SpecialName
        | Keyword::RuntimeSpecialName
        | Keyword::RequireSecurityObject => {}
        _ => return Turn::Stop,
    }
    Turn::Pass(found)
}

fn method_turn(class: TokenClass, found: MethodAttributes) -> Turn<MethodAttributes>
    ensures { result ≡ spec.method_turn class found }
{
    match class {
        TokenClass::Word(word) => attribute_turn(word, found),
        _ => Turn::Stop,
    }
}

#[tactic(auto, unfolding(crate::specs::Methods::method_attributes))]
fn method_attributes(cursor: &mut Cursor<'_>) -> Result<MethodAttributes, Stop>
    ensures { Reads (run _ spec.method_attributes cursor.old) result cursor.new }
{
    let none = MethodAttributes {
        access: Access::Other,
        is_static: false,
        is_final: false,
        is_virtual: false,
        is_abstract: false,
        newslot: false,
    };
    scan(cursor, none, method_turn)
}

fn kept_if(room: bool) -> Choice
    ensures { result ≡ spec.kept_if room }
{
    if room {
        Choice::Kept
    } else {
        Choice::Refused(Cause::TooMany(Counted::Methods))
    }
}

fn interface_choice(found: MethodAttributes, room: bool) -> Choice
    ensures { result ≡ spec.interface_choice found room }
{
    if found.is_static {
        return Choice::Refused(Cause::Unsupported(Form::StaticInterfaceMethod));
    }
    if !found.is_abstract {
        return Choice::Refused(Cause::Unsupported(Form::DefaultInterfaceMethod));
    }
    if !found.is_virtual {
        return Choice::Refused(Cause::Unexpected);
    }
    kept_if(room)
}

fn class_choice(found: MethodAttributes, room: bool) -> Choice
    ensures { result ≡ spec.class_choice found room }
{
    if found.is_virtual {
        if found.is_static {
            return Choice::Refused(Cause::Unexpected);
        }
        return kept_if(room);
    }
    if found.is_abstract {
        return Choice::Refused(Cause::Unexpected);
    }
    Choice::Passed
}

fn choice_of(is_interface: bool, found: MethodAttributes, room: bool) -> Choice
    ensures { result ≡ spec.choice_of is_interface found room }
{
    if is_interface {
        interface_choice(found, room)
    } else {
        class_choice(found, room)
    }
}

fn is_override(class: TokenClass) -> bool
    ensures { result ≡ spec.is_override class }
{
    same_class(TokenClass::Directive(Keyword::DotOverride), class)
}

/// An override at the outermost level of a body, or what is passed over up to the next.
#[tactic(auto, unfolding(crate::specs::Methods::body_item))]
fn body_item(
    alloc: Global,
    cursor: &mut Cursor<'_>,
    params: &[Param],
    own: u16,
    found: Items<Override>,
) -> Result<Items<Override>, Stop>
    requires { length params.now ≤ most_params }
    ensures { Reads (run _ (spec.body_item params.now own found) cursor.old) result cursor.new }
{
    if is_override(cursor.class()) {
        return body_override(alloc, cursor, params, own, found);
    }
    skip_to_override(cursor)?;
    Ok(found)
}

/// Passes over a part of a body, up to the next override at its outermost level or to its end.
fn skip_to_override(cursor: &mut Cursor<'_>) -> Result<u32, Stop>
    ensures { Reads (run _ (spec_skip spec.is_override) cursor.old) result cursor.new }
{
    skip(cursor, is_override)
}

/// Whether a brace closes what is around it here.
pub fn closes(class: TokenClass) -> bool
    ensures { result ≡ same_class closing class }
{
    same_class(TokenClass::Symbol(b'}'), class)
}

#[tactic(auto, unfolding(crate::specs::Methods::body_items))]
fn body_items(
    alloc: Global,
    cursor: &mut Cursor<'_>,
    params: &[Param],
    own: u16,
    found: Items<Override>,
) -> Result<Items<Override>, Stop>
    requires { length params.now ≤ most_params }
    ensures { Reads (run _ (spec.body_items params.now own found) cursor.old) result cursor.new }
{
    let item = |inner: &mut Cursor<'_>, more: Items<Override>| -> Result<Items<Override>, Stop>
        requires { length params.now ≤ most_params }
        ensures { Reads (run _ (spec.body_item params.entry.now own more) inner.old) result inner.new }
    { body_item(alloc, inner, params, own, more) };
    until(cursor, found, closes, item)
}

/// A body between braces, which is passed over but for its overrides.
#[tactic(auto, unfolding(crate::specs::Methods::body))]
fn body(
    alloc: Global,
    cursor: &mut Cursor<'_>,
    params: &[Param],
    own: u16,
    found: Items<Override>,
) -> Result<Items<Override>, Stop>
    requires { length params.now ≤ most_params }
    ensures { Reads (run _ (spec.body params.now own found) cursor.old) result cursor.new }
{
    cursor.expect(TokenClass::Symbol(b'{'))?;
    let more = body_items(alloc, cursor, params, own, found)?;
    cursor.expect(TokenClass::Symbol(b'}'))?;
    Ok(more)
}

#[tactic(auto, unfolding(crate::specs::Methods::no_generic))]
fn no_generic(cursor: &Cursor<'_>) -> Result<(), Stop>
    ensures { Reads (run _ spec.no_generic cursor.now) result cursor.now }
{
    if cursor.sees(TokenClass::Symbol(b'<')) {
        return Err(cursor.refuse(Cause::Unsupported(Form::GenericMethod)));
    }
    Ok(())
}

/// The result, the name and the arguments of a method, and the words after them.
#[tactic(auto, unfolding(crate::specs::Methods::header))]
fn header(
    alloc: Global,
    cursor: &mut Cursor<'_>,
    params: &[Param],
    line: u32,
    attributes: MethodAttributes,
) -> Result<Method, Stop>
    requires { length params.now ≤ most_params }
    ensures { Reads (run _ (spec.header params.now line attributes) cursor.old) result cursor.new }
{
    let rules = DeclRules {
        params,
        of_owner: false,
    };
    call_form(cursor)?;
    let result = result_type(alloc, cursor, &rules)?;
    let name = owned_name(alloc, cursor)?;
    no_generic(cursor)?;
    let arguments = arguments(alloc, cursor, &rules)?;
    plain_words(cursor)?;
    let signature = Signature { result, arguments };
    Ok(Method {
        name,
        line,
        access: attributes.access,
        newslot: attributes.newslot,
        is_final: attributes.is_final,
        is_abstract: attributes.is_abstract,
        signature,
    })
}

/// A method that is kept, after those found, of which there are fewer than 256.
#[tactic(auto, unfolding(crate::specs::Methods::kept))]
fn kept(
    alloc: Global,
    cursor: &mut Cursor<'_>,
    params: &[Param],
    line: u32,
    attributes: MethodAttributes,
    found: Members,
) -> Result<Members, Stop>
    requires room { length found.methods < 256 }
    requires few { length params.now ≤ most_params }
    ensures { Reads (run _ (spec.kept params.now line attributes found) cursor.old) result cursor.new }
{
    let Members {
        mut methods,
        overrides,
    } = found;
    let method = header(alloc, cursor, params, line, attributes)?;
    let own = methods.len() as u16;
    let overrides = body(alloc, cursor, params, own, overrides)?;
    methods.push(method)?;
    Ok(Members { methods, overrides })
}

/// Whether what is passed over ends before a token of this class: a directive that is no constructor's name, or `%%`.
fn ends_item(class: TokenClass) -> bool
    ensures { result ≡ spec.ends_item class }
{
    match class {
        TokenClass::Directive(Keyword::DotConstructor) => false,
        TokenClass::Directive(Keyword::DotClassConstructor) => false,
        TokenClass::Directive(_) => true,
        TokenClass::Percents => true,
        _ => false,
    }
}

/// Passes over the rest of an item: up to the next directive outside of its braces, to the brace that closes what is
/// around it, or to `%%`.
pub fn skip_item(cursor: &mut Cursor<'_>) -> Result<u32, Stop>
    ensures reads { Reads (run _ (spec_skip spec.ends_item) cursor.old) result cursor.new }
    ensures sure { result ≢ Err Stop.Memory }
{
    skip(cursor, ends_item)
}

/// A method, whose `.method` is at hand, after the members found: one that isn't virtual is passed over in a class.
///
/// What its attributes show is refused at `.method`, and so is a 257th virtual method.
#[tactic(auto, unfolding(crate::specs::Methods::method))]
pub fn method(
    alloc: Global,
    cursor: &mut Cursor<'_>,
    is_interface: bool,
    params: &[Param],
    found: Members,
) -> Result<Members, Stop>
    requires { length params.now ≤ most_params }
    ensures { Reads (run _ (spec.method is_interface params.now found) cursor.old) result cursor.new }
{
    let index = cursor.index();
    let line = cursor.line();
    cursor.pass()?;
    let attributes = method_attributes(cursor)?;
    let room = found.methods.len() < MOST_METHODS;
    match choice_of(is_interface, attributes, room) {
        Choice::Refused(cause) => Err(cursor.refuse_at(index, cause)),
        Choice::Passed => {
            skip_item(cursor)?;
            Ok(found)
        }
        Choice::Kept => kept(alloc, cursor, params, line, attributes, found),
    }
}
