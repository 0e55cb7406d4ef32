//! The items of a text, and its declarations as a whole.
ghost use Rattle.std.specs.Prelude.{◌≡◌};
ghost use Rattle.vsd_grammar.specs.Grammar.{run};
ghost use Rattle.vsd_grammar.specs.Input.{same_class};
ghost use Rattle.vsd_grammar.specs.Productions.{Reads};
ghost use Rattle.vsd_grammar.specs.declared.token_class.TokenClass.TheVariants.{Percents};
ghost use Rattle.vsd_decls.specs.Grammar as spec;

use sqlite_items::Items;
use std::alloc::Global;
use vsd_ast::Decl;
use vsd_decl_syntax::{class, passed};
use vsd_grammar::{
    Cause, Counted, Cursor, Form, Keyword, Stop, TokenClass, same_class, spelled_number, until,
};

/// The most declarations of a text.
const MOST_TYPES: usize = 1024;

/// What a token begins where an item of a text may stand.
#[derive(Clone, Copy, Debug, PartialEq, Eq, Drop)]
pub enum Item {
    Class,
    /// An item that is passed over.
    Passed,
    Refused(Cause),
}

fn directive_item(word: Keyword) -> Item
    ensures { result ≡ spec.directive_item word }
{
    match word {
        Keyword::DotClass => Item::Class,
        Keyword::DotAssembly
        | Keyword::DotModule
        | Keyword::DotImageBase
        | Keyword::DotFile
        | Keyword::DotStackReserve
        | Keyword::DotSubsystem
        | Keyword::DotCorFlags
        | Keyword::DotCustom
        | Keyword::DotField
        | Keyword::DotMethod
        | Keyword::DotData
        | Keyword::DotManifestResource
        | Keyword::DotPermissionSet
        | Keyword::DotLanguage
        | Keyword::DotLine
        | Keyword::DotVtableFixup => Item::Passed,
        Keyword::DotNamespace => Item::Refused(Cause::Unsupported(Form::Namespace)),
        _ => Item::Refused(Cause::Unexpected),
    }
}

fn item_of(class: TokenClass) -> Item
    ensures { result ≡ spec.item_of class }
{
    match class {
        TokenClass::Directive(word) => directive_item(word),
        _ => Item::Refused(Cause::Unexpected),
    }
}

/// There is room for one more declaration, or the token at hand is refused.
fn room_for_class(cursor: &Cursor<'_>, room: bool) -> Result<(), Stop>
    ensures { Reads (run _ (spec.room_for_class room) cursor.now) result cursor.now }
{
    if room {
        Ok(())
    } else {
        Err(cursor.refuse(Cause::TooMany(Counted::Types)))
    }
}

/// A class or an interface, after those found.
#[tactic(auto, unfolding(crate::specs::Grammar::another))]
fn another(
    alloc: Global,
    cursor: &mut Cursor<'_>,
    mut found: Items<Decl>,
) -> Result<Items<Decl>, Stop>
    ensures { Reads (run _ (spec.another found) cursor.old) result cursor.new }
{
    room_for_class(cursor, found.len() < MOST_TYPES)?;
    let decl = class(alloc, cursor)?;
    found.push(decl)?;
    Ok(found)
}

#[tactic(auto, unfolding(crate::specs::Grammar::one_item))]
fn one_item(alloc: Global, cursor: &mut Cursor<'_>, found: Items<Decl>) -> Result<Items<Decl>, Stop>
    ensures { Reads (run _ (spec.one_item found) cursor.old) result cursor.new }
{
    match item_of(cursor.class()) {
        Item::Class => another(alloc, cursor, found),
        Item::Passed => {
            passed(cursor)?;
            Ok(found)
        }
        Item::Refused(cause) => Err(cursor.refuse(cause)),
    }
}

fn separates(class: TokenClass) -> bool
    ensures { result ≡ same_class Percents class }
{
    same_class(TokenClass::Percents, class)
}

/// The items of a text, up to the `%%` that ends them.
#[tactic(auto, unfolding(crate::specs::Grammar::items))]
fn items(alloc: Global, cursor: &mut Cursor<'_>) -> Result<Items<Decl>, Stop>
    ensures { Reads (run _ spec.items cursor.old) result cursor.new }
{
    let item = |inner: &mut Cursor<'_>, found: Items<Decl>| -> Result<Items<Decl>, Stop>
        ensures { Reads (run _ (spec.one_item found) inner.old) result inner.new }
    { one_item(alloc, inner, found) };
    until(cursor, Items::new(alloc), separates, item)
}

/// `vsd 1`, with which a text begins.
#[tactic(auto, unfolding(crate::specs::Grammar::heading))]
fn heading(cursor: &mut Cursor<'_>) -> Result<(), Stop>
    ensures { Reads (run _ spec.heading cursor.old) result cursor.new }
{
    cursor.expect(TokenClass::Word(Keyword::Vsd))?;
    let _ = spelled_number(cursor, 1, 1, 1)?;
    cursor.pass()
}

/// The declarations of a text, from its first token to the `%%` after them.
#[tactic(auto, unfolding(crate::specs::Grammar::declarations))]
pub fn declarations(alloc: Global, cursor: &mut Cursor<'_>) -> Result<Items<Decl>, Stop>
    ensures { Reads (run _ spec.declarations cursor.old) result cursor.new }
{
    heading(cursor)?;
    let found = items(alloc, cursor)?;
    cursor.expect(TokenClass::Percents)?;
    Ok(found)
}
