//! Tests of what no clause says.
use crate::cause::{Cause, Counted, Form};
use crate::cursor::{Cursor, line_of};
use crate::keyword::{Keyword, keyword_of};
use crate::loops::{separated, until};
use crate::naming::{is_name, name, numbered_name, plain_words};
use crate::syntax_error::{Stop, SyntaxError};
use crate::token_class::TokenClass;
use sqlite_items::Items;
use std::alloc::Global;
use std::test::Fail;
use vsd_terms::Names;
use vsd_text::{LexError, lex};

/// The classes of the first tokens of a text.
fn classes(alloc: Global, text: &[u8]) -> Result<[TokenClass; 6], LexError> {
    let tokens = lex(alloc, text)?;
    let mut cursor = Cursor::new(text, tokens.as_slice(), 0, Names::new(alloc));
    let mut found = [TokenClass::End; 6];
    for class in found.iter_mut() {
        *class = cursor.class();
        let _ = cursor.pass();
    }
    Ok(found)
}

#[test]
fn a_word_with_a_point_is_a_directive(rt: HostRuntime) -> Result<(), Fail> {
    let found = classes(rt.alloc(), b"class .class .more more;")?;
    assert!(rt; found[0] == TokenClass::Word(Keyword::Class));
    assert!(rt; found[1] == TokenClass::Directive(Keyword::DotClass));
    assert!(rt; found[2] == TokenClass::Directive(Keyword::Other));
    assert!(rt; found[3] == TokenClass::Word(Keyword::Other));
    assert!(rt; found[4] == TokenClass::Symbol(b';'));
    assert!(rt; found[5] == TokenClass::End);
    Ok(())
}

fn first(class: TokenClass, bytes: &[u8]) -> Option<Cause> {
    if !is_name(class) || bytes.is_empty() {
        return Some(Cause::Unexpected);
    }
    if bytes == b"System.Enum".as_slice() {
        return Some(Cause::Unsupported(Form::Enum));
    }
    None
}

/// Reads at most two names with commas between, and gives their numbers.
fn two_names(alloc: Global, text: &[u8]) -> Result<Items<u16>, Stop> {
    let Ok(tokens) = lex(alloc, text) else {
        return Err(Stop::Memory);
    };
    let mut cursor = Cursor::new(text, tokens.as_slice(), 0, Names::new(alloc));
    let many = Cause::TooMany(Counted::Arguments);
    separated(alloc, &mut cursor, first, many, 2, numbered_name)
}

/// The refusal of such a list at the token of this index, which decided it itself.
fn refused(cause: Cause, at: usize) -> Option<Stop> {
    Some(Stop::Refused(SyntaxError { at, by: at, cause }))
}

#[test]
fn a_list_has_items_with_commas_between(rt: HostRuntime) -> Result<(), Fail> {
    let found = two_names(rt.alloc(), b"a, a}").ok();
    assert!(rt; found.is_some_and(|names| names.as_slice() == [0, 0].as_slice()));
    let unexpected = Cause::Unexpected;
    let many = Cause::TooMany(Counted::Arguments);
    assert!(rt; two_names(rt.alloc(), b"a,").err() == refused(unexpected, 2));
    assert!(rt; two_names(rt.alloc(), b"a, b, ;").err() == refused(unexpected, 4));
    assert!(rt; two_names(rt.alloc(), b"a, b, c").err() == refused(many, 4));
    assert!(rt; two_names(rt.alloc(), b"a, b, ''").err() == refused(unexpected, 4));
    let enumeration = Cause::Unsupported(Form::Enum);
    assert!(rt; two_names(rt.alloc(), b"a, b, System.Enum").err() == refused(enumeration, 4));
    Ok(())
}

fn closes(class: TokenClass) -> bool {
    class == TokenClass::Symbol(b'}')
}

fn count_name(cursor: &mut Cursor<'_>, count: u32) -> Result<u32, Stop> {
    name(cursor)?;
    Ok(count.saturating_add(1))
}

/// Counts the names up to a closing brace, and gives the index of the token after them.
fn names_in_braces(alloc: Global, text: &[u8]) -> Result<(u32, usize), Stop> {
    let Ok(tokens) = lex(alloc, text) else {
        return Err(Stop::Memory);
    };
    let mut cursor = Cursor::new(text, tokens.as_slice(), 0, Names::new(alloc));
    let count = until(&mut cursor, 0, closes, count_name)?;
    Ok((count, cursor.index()))
}

#[test]
fn items_end_before_their_closing_token(rt: HostRuntime) {
    let unexpected = Cause::Unexpected;
    assert!(rt; names_in_braces(rt.alloc(), b"a b c } d") == Ok((3, 3)));
    assert!(rt; names_in_braces(rt.alloc(), b"a b").err() == refused(unexpected, 2));
    assert!(rt; names_in_braces(rt.alloc(), b"a .b }").err() == refused(unexpected, 1));
}

/// Passes over words, and gives the line of the token after them.
fn line_after_words(alloc: Global, text: &[u8]) -> Result<u32, Stop> {
    let Ok(tokens) = lex(alloc, text) else {
        return Err(Stop::Memory);
    };
    let mut cursor = Cursor::new(text, tokens.as_slice(), 0, Names::new(alloc));
    plain_words(&mut cursor)?;
    Ok(line_of(tokens.as_slice(), cursor.index()))
}

#[test]
fn plain_words_end_before_a_directive(rt: HostRuntime) {
    assert!(rt; line_after_words(rt.alloc(), b"cil managed\n.x") == Ok(2));
    assert!(rt; line_after_words(rt.alloc(), b"cil\nmanaged\n\n") == Ok(2));
    assert!(rt; line_after_words(rt.alloc(), b"\n\n") == Ok(1));
}

/// Each word of the grammars of declarations and scripts, and of the forms that are refused, in the order in which
/// their productions have them.
#[test]
fn each_word_has_its_key(rt: HostRuntime) {
    let words: [(&[u8], Keyword); 100] = [
        (b"vsd", Keyword::Vsd),
        (b".class", Keyword::DotClass),
        (b"extends", Keyword::Extends),
        (b"implements", Keyword::Implements),
        (b"public", Keyword::Public),
        (b"private", Keyword::Private),
        (b"abstract", Keyword::Abstract),
        (b"sealed", Keyword::Sealed),
        (b"interface", Keyword::Interface),
        (b"auto", Keyword::Auto),
        (b"sequential", Keyword::Sequential),
        (b"explicit", Keyword::Explicit),
        (b"ansi", Keyword::Ansi),
        (b"unicode", Keyword::Unicode),
        (b"autochar", Keyword::AutoChar),
        (b"beforefieldinit", Keyword::BeforeFieldInit),
        (b"serializable", Keyword::Serializable),
        (b"specialname", Keyword::SpecialName),
        (b"rtspecialname", Keyword::RuntimeSpecialName),
        (b"import", Keyword::Import),
        (b".method", Keyword::DotMethod),
        (b"instance", Keyword::Instance),
        (b"default", Keyword::Default),
        (b"void", Keyword::Void),
        (b"family", Keyword::Family),
        (b"assembly", Keyword::Assembly),
        (b"famorassem", Keyword::FamilyOrAssembly),
        (b"famandassem", Keyword::FamilyAndAssembly),
        (b"privatescope", Keyword::PrivateScope),
        (b"static", Keyword::Static),
        (b"final", Keyword::Final),
        (b"virtual", Keyword::Virtual),
        (b"strict", Keyword::Strict),
        (b"hidebysig", Keyword::HideBySignature),
        (b"newslot", Keyword::NewSlot),
        (b"reqsecobj", Keyword::RequireSecurityObject),
        (b"in", Keyword::In),
        (b"out", Keyword::Out),
        (b"opt", Keyword::Optional),
        (b"class", Keyword::Class),
        (b"valuetype", Keyword::ValueType),
        (b"object", Keyword::Object),
        (b"string", Keyword::String),
        (b"bool", Keyword::Bool),
        (b"char", Keyword::Char),
        (b"unsigned", Keyword::Unsigned),
        (b"int8", Keyword::Int8),
        (b"int16", Keyword::Int16),
        (b"int32", Keyword::Int32),
        (b"int64", Keyword::Int64),
        (b"uint8", Keyword::Uint8),
        (b"uint16", Keyword::Uint16),
        (b"uint32", Keyword::Uint32),
        (b"uint64", Keyword::Uint64),
        (b"float32", Keyword::Float32),
        (b"float64", Keyword::Float64),
        (b".override", Keyword::DotOverride),
        (b"with", Keyword::With),
        (b"method", Keyword::Method),
        (b".ctor", Keyword::DotConstructor),
        (b".cctor", Keyword::DotClassConstructor),
        (b".assembly", Keyword::DotAssembly),
        (b".module", Keyword::DotModule),
        (b".imagebase", Keyword::DotImageBase),
        (b".file", Keyword::DotFile),
        (b".stackreserve", Keyword::DotStackReserve),
        (b".subsystem", Keyword::DotSubsystem),
        (b".corflags", Keyword::DotCorFlags),
        (b".custom", Keyword::DotCustom),
        (b".field", Keyword::DotField),
        (b".data", Keyword::DotData),
        (b".mresource", Keyword::DotManifestResource),
        (b".permissionset", Keyword::DotPermissionSet),
        (b".language", Keyword::DotLanguage),
        (b".line", Keyword::DotLine),
        (b".vtfixup", Keyword::DotVtableFixup),
        (b".property", Keyword::DotProperty),
        (b".event", Keyword::DotEvent),
        (b".pack", Keyword::DotPack),
        (b".size", Keyword::DotSize),
        (b".param", Keyword::DotParam),
        (b".interfaceimpl", Keyword::DotInterfaceImpl),
        (b"nested", Keyword::Nested),
        (b"extern", Keyword::Extern),
        (b".namespace", Keyword::DotNamespace),
        (b"native", Keyword::Native),
        (b"typedref", Keyword::TypedReference),
        (b"modreq", Keyword::ModifierRequired),
        (b"modopt", Keyword::ModifierOptional),
        (b"marshal", Keyword::Marshal),
        (b"vararg", Keyword::Vararg),
        (b"...", Keyword::Ellipsis),
        (b"site", Keyword::Site),
        (b"host", Keyword::Host),
        (b"lane", Keyword::Lane),
        (b"load", Keyword::Load),
        (b"unload", Keyword::Unload),
        (b"call", Keyword::Call),
        (b"cast", Keyword::Cast),
        (b"repeat", Keyword::Repeat),
    ];
    for (word, key) in words {
        assert!(rt; keyword_of(word) == key);
    }
    let others: [&[u8]; 8] = [
        b"",
        b"i",
        b"Class",
        b"classs",
        b"clasS",
        b".clasp",
        b"cil",
        b"beforefieldinits",
    ];
    for word in others {
        assert!(rt; keyword_of(word) == Keyword::Other);
    }
}
