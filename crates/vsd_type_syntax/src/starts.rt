//! What a token at a type's place begins, and what a token after a type shows.
ghost use Rattle.std.specs.Prelude.{◌≡◌};
ghost use Rattle.vsd_type_syntax.specs.Starts as spec;

use vsd_grammar::{Cause, Form, Keyword, TokenClass};
use vsd_terms::Builtin;

/// What a token begins where a type may stand.
#[derive(Clone, Copy, Debug, PartialEq, Eq, Drop)]
pub enum Start {
    /// `!`
    Parameter,
    /// `class` or `valuetype`
    Keyworded,
    /// `[`, before the name of an assembly.
    Scope,
    /// The word of a built-in type.
    Builtin(Builtin),
    /// `unsigned`
    Unsigned,
    /// A name.
    Name,
    /// No type, or a form that isn't supported.
    Refused(Cause),
}

/// What a type's name means by itself, with a scope or without.
#[derive(Clone, Copy, Debug, PartialEq, Eq, Drop)]
pub enum Special {
    /// It is one of the three built-in classes that have a name.
    Builtin(Builtin),
    /// It is the base of enums or of delegates.
    Refused(Form),
    /// It has no meaning of its own.
    Nothing,
}

fn word_start(word: Keyword) -> Start
    ensures { result ≡ spec.word_start word }
{
    match word {
        Keyword::Class | Keyword::ValueType => Start::Keyworded,
        Keyword::Object => Start::Builtin(Builtin::Object),
        Keyword::String => Start::Builtin(Builtin::String),
        Keyword::Bool => Start::Builtin(Builtin::Bool),
        Keyword::Char => Start::Builtin(Builtin::Char),
        Keyword::Int8 => Start::Builtin(Builtin::Int8),
        Keyword::Int16 => Start::Builtin(Builtin::Int16),
        Keyword::Int32 => Start::Builtin(Builtin::Int32),
        Keyword::Int64 => Start::Builtin(Builtin::Int64),
        Keyword::Uint8 => Start::Builtin(Builtin::Uint8),
        Keyword::Uint16 => Start::Builtin(Builtin::Uint16),
        Keyword::Uint32 => Start::Builtin(Builtin::Uint32),
        Keyword::Uint64 => Start::Builtin(Builtin::Uint64),
        Keyword::Float32 => Start::Builtin(Builtin::Float32),
        Keyword::Float64 => Start::Builtin(Builtin::Float64),
        Keyword::Unsigned => Start::Unsigned,
        Keyword::Native => Start::Refused(Cause::Unsupported(Form::NativeInt)),
        Keyword::TypedReference => Start::Refused(Cause::Unsupported(Form::TypedReference)),
        Keyword::Method => Start::Refused(Cause::Unsupported(Form::Pointer)),
        _ => Start::Name,
    }
}

fn symbol_start(symbol: u8) -> Start
    ensures { result ≡ spec.symbol_start symbol }
{
    if symbol == b'!' {
        Start::Parameter
    } else if symbol == b'[' {
        Start::Scope
    } else {
        Start::Refused(Cause::Unexpected)
    }
}

fn start_of(class: TokenClass) -> Start
    ensures { result ≡ spec.start_of class }
{
    match class {
        TokenClass::Word(word) => word_start(word),
        TokenClass::Quoted => Start::Name,
        TokenClass::Symbol(symbol) => symbol_start(symbol),
        _ => Start::Refused(Cause::Unexpected),
    }
}

fn is_class(builtin: Builtin) -> bool
    ensures { result ≡ spec.is_class builtin }
{
    match builtin {
        Builtin::Object | Builtin::String | Builtin::ValueType => true,
        _ => false,
    }
}

fn named_start(start: Start) -> Start
    ensures { result ≡ spec.named_start start }
{
    match start {
        Start::Parameter | Start::Unsigned => Start::Refused(Cause::Unexpected),
        Start::Builtin(builtin) => {
            if is_class(builtin) {
                start
            } else {
                Start::Refused(Cause::Unexpected)
            }
        }
        _ => start,
    }
}

/// What a token of this class begins where a type may stand, or only a named one, `object`, `string` or
/// `System.ValueType`.
pub(crate) fn start_at(only_named: bool, class: TokenClass) -> Start
    ensures { result ≡ spec.start_at only_named class }
{
    if only_named {
        named_start(start_of(class))
    } else {
        start_of(class)
    }
}

/// The type that `unsigned` and this word name.
pub(crate) fn unsigned_of(class: TokenClass) -> Option<Builtin>
    ensures { result ≡ spec.unsigned_of class }
{
    match class {
        TokenClass::Word(Keyword::Int8) => Some(Builtin::Uint8),
        TokenClass::Word(Keyword::Int16) => Some(Builtin::Uint16),
        TokenClass::Word(Keyword::Int32) => Some(Builtin::Uint32),
        TokenClass::Word(Keyword::Int64) => Some(Builtin::Uint64),
        _ => None,
    }
}

/// What a type's name means by itself.
#[tactic(auto, unfolding(crate::specs::Starts::special_of))]
pub(crate) fn special_of(name: &[u8]) -> Special
    ensures { result ≡ spec.special_of name.now }
{
    if name == b"System.Object".as_slice() {
        return Special::Builtin(Builtin::Object);
    }
    if name == b"System.String".as_slice() {
        return Special::Builtin(Builtin::String);
    }
    if name == b"System.ValueType".as_slice() {
        return Special::Builtin(Builtin::ValueType);
    }
    if name == b"System.Enum".as_slice() {
        return Special::Refused(Form::Enum);
    }
    if name == b"System.MulticastDelegate".as_slice() {
        return Special::Refused(Form::Delegate);
    }
    if name == b"System.Delegate".as_slice() {
        return Special::Refused(Form::Delegate);
    }
    Special::Nothing
}

fn symbol_suffix(symbol: u8) -> Option<Form>
    ensures { result ≡ spec.symbol_suffix symbol }
{
    if symbol == b'[' {
        Some(Form::Array)
    } else if symbol == b'&' {
        Some(Form::Pointer)
    } else if symbol == b'*' {
        Some(Form::Pointer)
    } else {
        None
    }
}

/// The form that a token after a type shows.
pub(crate) fn suffix_of(class: TokenClass) -> Option<Form>
    ensures { result ≡ spec.suffix_of class }
{
    match class {
        TokenClass::Symbol(symbol) => symbol_suffix(symbol),
        TokenClass::Word(Keyword::ModifierRequired) => Some(Form::Modifier),
        TokenClass::Word(Keyword::ModifierOptional) => Some(Form::Modifier),
        TokenClass::Word(Keyword::Marshal) => Some(Form::Marshal),
        _ => None,
    }
}
