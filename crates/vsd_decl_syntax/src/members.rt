//! The members of a declaration.
ghost use Rattle.std.specs.Prelude.{◌≡◌, ◌≢◌, ◌≤◌, length};
ghost use Rattle.vsd_grammar.specs.Grammar.{run};
ghost use Rattle.vsd_decl_syntax.specs.Parameters.{most_params};
ghost use Rattle.vsd_grammar.specs.Productions.{Reads};
ghost use Rattle.vsd_decl_syntax.specs.Members as spec;

use crate::methods::{closes, method, skip_item};
use crate::overrides::class_override;
use sqlite_items::Items;
use std::alloc::Global;
use vsd_ast::{Method, Override, Param};
use vsd_grammar::{Cause, Cursor, Form, Keyword, Stop, TokenClass, until};

/// The members that are kept.
#[derive(Debug, Drop)]
pub struct Members {
    pub methods: Items<Method>,
    pub overrides: Items<Override>,
}

/// What a token begins where a member may stand.
#[derive(Clone, Copy, Debug, PartialEq, Eq, Drop)]
pub enum Kind {
    Method,
    Override,
    /// An item that is passed over.
    Passed,
    Refused(Cause),
}

fn directive_kind(word: Keyword) -> Kind
    ensures { result ≡ spec.directive_kind word }
{
    match word {
        Keyword::DotMethod => Kind::Method,
        Keyword::DotOverride => Kind::Override,
        Keyword::DotField
        | Keyword::DotProperty
        | Keyword::DotEvent
        | Keyword::DotCustom
        | Keyword::DotPack
        | Keyword::DotSize
        | Keyword::DotParam
        | Keyword::DotInterfaceImpl
        | Keyword::DotData
        | Keyword::DotPermissionSet
        | Keyword::DotLanguage
        | Keyword::DotLine => Kind::Passed,
        Keyword::DotClass => Kind::Refused(Cause::Unsupported(Form::Nested)),
        Keyword::DotNamespace => Kind::Refused(Cause::Unsupported(Form::Namespace)),
        _ => Kind::Refused(Cause::Unexpected),
    }
}

fn kind_of(class: TokenClass) -> Kind
    ensures { result ≡ spec.kind_of class }
{
    match class {
        TokenClass::Directive(word) => directive_kind(word),
        _ => Kind::Refused(Cause::Unexpected),
    }
}

/// An item that is passed over: up to the next directive outside of its braces, to the brace that closes what is around
/// it, or to `%%`. The end, and `%%` within its braces, are refused as unexpected. Takes no memory.
#[tactic(auto, unfolding(crate::specs::Members::passed))]
pub fn passed(cursor: &mut Cursor<'_>) -> Result<(), Stop>
    ensures reads { Reads (run _ spec.passed cursor.old) result cursor.new }
    ensures sure { result ≢ Err Stop.Memory }
{
    cursor.pass()?;
    skip_item(cursor)?;
    Ok(())
}

#[tactic(auto, unfolding(crate::specs::Members::overridden))]
fn overridden(
    alloc: Global,
    cursor: &mut Cursor<'_>,
    params: &[Param],
    found: Members,
) -> Result<Members, Stop>
    requires { length params.now ≤ most_params }
    ensures { Reads (run _ (spec.overridden params.now found) cursor.old) result cursor.new }
{
    let Members { methods, overrides } = found;
    let overrides = class_override(alloc, cursor, params, overrides)?;
    Ok(Members { methods, overrides })
}

#[tactic(auto, unfolding(crate::specs::Members::member))]
fn member(
    alloc: Global,
    cursor: &mut Cursor<'_>,
    is_interface: bool,
    params: &[Param],
    found: Members,
) -> Result<Members, Stop>
    requires { length params.now ≤ most_params }
    ensures { Reads (run _ (spec.member is_interface params.now found) cursor.old) result cursor.new }
{
    match kind_of(cursor.class()) {
        Kind::Method => method(alloc, cursor, is_interface, params, found),
        Kind::Override => overridden(alloc, cursor, params, found),
        Kind::Passed => {
            passed(cursor)?;
            Ok(found)
        }
        Kind::Refused(cause) => Err(cursor.refuse(cause)),
    }
}

/// The members of a declaration with these parameters, up to the brace that closes it.
#[tactic(auto, unfolding(crate::specs::Members::members))]
pub fn members_of(
    alloc: Global,
    cursor: &mut Cursor<'_>,
    is_interface: bool,
    params: &[Param],
) -> Result<Members, Stop>
    requires { length params.now ≤ most_params }
    ensures { Reads (run _ (spec.members is_interface params.now) cursor.old) result cursor.new }
{
    let none = Members {
        methods: Items::new(alloc),
        overrides: Items::new(alloc),
    };
    let item = |inner: &mut Cursor<'_>, found: Members| -> Result<Members, Stop>
        requires { length params.now ≤ most_params }
        ensures { Reads (run _ (spec.member is_interface params.entry.now found) inner.old) result inner.new }
    { member(alloc, inner, is_interface, params, found) };
    until(cursor, none, closes, item)
}
