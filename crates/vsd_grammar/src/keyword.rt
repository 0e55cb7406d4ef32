//! The words of the grammar and of the forms that it refuses.
ghost use Rattle.std.specs.Prelude.{◌≡◌, ◌≤◌, ◌<◌, length, map, slice_get};
ghost use Rattle.vsd_grammar.specs.Words.{keyword_of, key_by, slot_of, begins_with_point};

use sqlite_items::at;

/// The key of a Word token: the word of the grammar that it spells, if it does.
#[derive(Clone, Copy, Debug, PartialEq, Eq, Drop)]
pub enum Keyword {
    /// A Word that the grammar has not.
    Other,
    /// `.class`
    DotClass,
    /// `.assembly`
    DotAssembly,
    /// `.module`
    DotModule,
    /// `.imagebase`
    DotImageBase,
    /// `.file`
    DotFile,
    /// `.stackreserve`
    DotStackReserve,
    /// `.subsystem`
    DotSubsystem,
    /// `.corflags`
    DotCorFlags,
    /// `.custom`
    DotCustom,
    /// `.field`
    DotField,
    /// `.method`
    DotMethod,
    /// `.data`
    DotData,
    /// `.mresource`
    DotManifestResource,
    /// `.permissionset`
    DotPermissionSet,
    /// `.language`
    DotLanguage,
    /// `.line`
    DotLine,
    /// `.vtfixup`
    DotVtableFixup,
    /// `.property`
    DotProperty,
    /// `.event`
    DotEvent,
    /// `.pack`
    DotPack,
    /// `.size`
    DotSize,
    /// `.param`
    DotParam,
    /// `.interfaceimpl`
    DotInterfaceImpl,
    /// `.namespace`
    DotNamespace,
    /// `.override`
    DotOverride,
    /// `.ctor`
    DotConstructor,
    /// `.cctor`
    DotClassConstructor,
    /// `...`
    Ellipsis,
    /// `vsd`
    Vsd,
    /// `extern`
    Extern,
    /// `nested`
    Nested,
    /// `public`
    Public,
    /// `private`
    Private,
    /// `abstract`
    Abstract,
    /// `sealed`
    Sealed,
    /// `interface`
    Interface,
    /// `auto`
    Auto,
    /// `sequential`
    Sequential,
    /// `explicit`
    Explicit,
    /// `ansi`
    Ansi,
    /// `unicode`
    Unicode,
    /// `autochar`
    AutoChar,
    /// `beforefieldinit`
    BeforeFieldInit,
    /// `serializable`
    Serializable,
    /// `specialname`
    SpecialName,
    /// `rtspecialname`
    RuntimeSpecialName,
    /// `import`
    Import,
    /// `extends`
    Extends,
    /// `implements`
    Implements,
    /// `family`
    Family,
    /// `assembly`
    Assembly,
    /// `famorassem`
    FamilyOrAssembly,
    /// `famandassem`
    FamilyAndAssembly,
    /// `privatescope`
    PrivateScope,
    /// `static`
    Static,
    /// `final`
    Final,
    /// `virtual`
    Virtual,
    /// `strict`
    Strict,
    /// `hidebysig`
    HideBySignature,
    /// `newslot`
    NewSlot,
    /// `reqsecobj`
    RequireSecurityObject,
    /// `instance`
    Instance,
    /// `default`
    Default,
    /// `void`
    Void,
    /// `vararg`
    Vararg,
    /// `in`
    In,
    /// `out`
    Out,
    /// `opt`
    Optional,
    /// `class`
    Class,
    /// `valuetype`
    ValueType,
    /// `object`
    Object,
    /// `string`
    String,
    /// `bool`
    Bool,
    /// `char`
    Char,
    /// `unsigned`
    Unsigned,
    /// `int8`
    Int8,
    /// `int16`
    Int16,
    /// `int32`
    Int32,
    /// `int64`
    Int64,
    /// `uint8`
    Uint8,
    /// `uint16`
    Uint16,
    /// `uint32`
    Uint32,
    /// `uint64`
    Uint64,
    /// `float32`
    Float32,
    /// `float64`
    Float64,
    /// `method`
    Method,
    /// `native`
    Native,
    /// `typedref`
    TypedReference,
    /// `modreq`
    ModifierRequired,
    /// `modopt`
    ModifierOptional,
    /// `marshal`
    Marshal,
    /// `with`
    With,
    /// `site`
    Site,
    /// `host`
    Host,
    /// `lane`
    Lane,
    /// `load`
    Load,
    /// `unload`
    Unload,
    /// `call`
    Call,
    /// `cast`
    Cast,
    /// `repeat`
    Repeat,
}

/// Each word of the grammar with its key.
static WORDS: [(&[u8], Keyword); 100] = [
    (b".class", Keyword::DotClass),
    (b".assembly", Keyword::DotAssembly),
    (b".module", Keyword::DotModule),
    (b".imagebase", Keyword::DotImageBase),
    (b".file", Keyword::DotFile),
    (b".stackreserve", Keyword::DotStackReserve),
    (b".subsystem", Keyword::DotSubsystem),
    (b".corflags", Keyword::DotCorFlags),
    (b".custom", Keyword::DotCustom),
    (b".field", Keyword::DotField),
    (b".method", Keyword::DotMethod),
    (b".data", Keyword::DotData),
    (b".mresource", Keyword::DotManifestResource),
    (b".permissionset", Keyword::DotPermissionSet),
    (b".language", Keyword::DotLanguage),
    (b".line", Keyword::DotLine),
    (b".vtfixup", Keyword::DotVtableFixup),
    (b".property", Keyword::DotProperty),
    (b".event", Keyword::DotEvent),
    (b".pack", Keyword::DotPack),
    (b".size", Keyword::DotSize),
    (b".param", Keyword::DotParam),
    (b".interfaceimpl", Keyword::DotInterfaceImpl),
    (b".namespace", Keyword::DotNamespace),
    (b".override", Keyword::DotOverride),
    (b".ctor", Keyword::DotConstructor),
    (b".cctor", Keyword::DotClassConstructor),
    (b"...", Keyword::Ellipsis),
    (b"vsd", Keyword::Vsd),
    (b"extern", Keyword::Extern),
    (b"nested", Keyword::Nested),
    (b"public", Keyword::Public),
    (b"private", Keyword::Private),
    (b"abstract", Keyword::Abstract),
    (b"sealed", Keyword::Sealed),
    (b"interface", Keyword::Interface),
    (b"auto", Keyword::Auto),
    (b"sequential", Keyword::Sequential),
    (b"explicit", Keyword::Explicit),
    (b"ansi", Keyword::Ansi),
    (b"unicode", Keyword::Unicode),
    (b"autochar", Keyword::AutoChar),
    (b"beforefieldinit", Keyword::BeforeFieldInit),
    (b"serializable", Keyword::Serializable),
    (b"specialname", Keyword::SpecialName),
    (b"rtspecialname", Keyword::RuntimeSpecialName),
    (b"import", Keyword::Import),
    (b"extends", Keyword::Extends),
    (b"implements", Keyword::Implements),
    (b"family", Keyword::Family),
    (b"assembly", Keyword::Assembly),
    (b"famorassem", Keyword::FamilyOrAssembly),
    (b"famandassem", Keyword::FamilyAndAssembly),
    (b"privatescope", Keyword::PrivateScope),
    (b"static", Keyword::Static),
    (b"final", Keyword::Final),
    (b"virtual", Keyword::Virtual),
    (b"strict", Keyword::Strict),
    (b"hidebysig", Keyword::HideBySignature),
    (b"newslot", Keyword::NewSlot),
    (b"reqsecobj", Keyword::RequireSecurityObject),
    (b"instance", Keyword::Instance),
    (b"default", Keyword::Default),
    (b"void", Keyword::Void),
    (b"vararg", Keyword::Vararg),
    (b"in", Keyword::In),
    (b"out", Keyword::Out),
    (b"opt", Keyword::Optional),
    (b"class", Keyword::Class),
    (b"valuetype", Keyword::ValueType),
    (b"object", Keyword::Object),
    (b"string", Keyword::String),
    (b"bool", Keyword::Bool),
    (b"char", Keyword::Char),
    (b"unsigned", Keyword::Unsigned),
    (b"int8", Keyword::Int8),
    (b"int16", Keyword::Int16),
    (b"int32", Keyword::Int32),
    (b"int64", Keyword::Int64),
    (b"uint8", Keyword::Uint8),
    (b"uint16", Keyword::Uint16),
    (b"uint32", Keyword::Uint32),
    (b"uint64", Keyword::Uint64),
    (b"float32", Keyword::Float32),
    (b"float64", Keyword::Float64),
    (b"method", Keyword::Method),
    (b"native", Keyword::Native),
    (b"typedref", Keyword::TypedReference),
    (b"modreq", Keyword::ModifierRequired),
    (b"modopt", Keyword::ModifierOptional),
    (b"marshal", Keyword::Marshal),
    (b"with", Keyword::With),
    (b"site", Keyword::Site),
    (b"host", Keyword::Host),
    (b"lane", Keyword::Lane),
    (b"load", Keyword::Load),
    (b"unload", Keyword::Unload),
    (b"call", Keyword::Call),
    (b"cast", Keyword::Cast),
    (b"repeat", Keyword::Repeat),
];

/// The place in the table of the word of each slot, and 0 where a slot has none. No two words have one slot.
static SLOTS: [u8; 512] = [
    0, 18, 0, 98, 0, 0, 0, 76, 0, 0, 0, 0, 0, 63, 0, 0, 38, 0, 0, 97, 5, 0, 0, 0, 61, 0, 0, 0, 0,
    0, 0, 0, 0, 30, 0, 0, 0, 0, 0, 51, 0, 0, 0, 0, 0, 0, 0, 0, 0, 0, 0, 91, 0, 22, 0, 0, 0, 0, 0,
    0, 39, 0, 0, 0, 53, 0, 0, 0, 0, 0, 0, 32, 0, 0, 0, 0, 0, 0, 0, 0, 0, 0, 69, 0, 0, 0, 0, 0, 0,
    0, 0, 0, 0, 0, 0, 0, 0, 0, 0, 0, 60, 0, 59, 0, 65, 34, 66, 12, 0, 0, 0, 0, 96, 0, 0, 0, 0, 0,
    0, 0, 0, 85, 0, 0, 0, 35, 10, 0, 0, 0, 16, 0, 0, 0, 0, 48, 0, 0, 0, 78, 52, 0, 0, 0, 0, 80, 0,
    0, 0, 0, 58, 0, 0, 0, 0, 0, 0, 0, 0, 64, 0, 99, 25, 31, 28, 0, 0, 0, 0, 0, 0, 0, 0, 0, 0, 67,
    0, 0, 56, 0, 0, 0, 0, 0, 0, 0, 0, 0, 0, 93, 0, 0, 0, 0, 0, 11, 0, 0, 0, 0, 0, 0, 0, 0, 0, 0, 0,
    0, 0, 0, 29, 0, 0, 6, 0, 0, 0, 0, 0, 0, 54, 72, 0, 84, 9, 0, 0, 0, 0, 0, 0, 0, 0, 0, 0, 0, 20,
    47, 0, 0, 0, 0, 0, 0, 7, 0, 0, 0, 0, 0, 0, 0, 0, 0, 0, 0, 0, 0, 0, 0, 21, 0, 33, 26, 0, 0, 0,
    0, 0, 0, 0, 77, 0, 0, 0, 0, 0, 82, 0, 0, 0, 0, 0, 17, 0, 0, 75, 0, 0, 0, 0, 19, 0, 0, 0, 0, 0,
    0, 23, 0, 0, 0, 0, 0, 0, 0, 0, 0, 0, 0, 0, 0, 0, 4, 74, 0, 2, 0, 0, 0, 0, 0, 0, 87, 0, 0, 0,
    14, 0, 0, 0, 0, 0, 0, 0, 0, 0, 0, 0, 0, 0, 44, 0, 0, 0, 92, 0, 0, 0, 0, 13, 0, 0, 0, 0, 83, 0,
    0, 0, 0, 55, 0, 0, 50, 70, 0, 0, 3, 0, 0, 0, 45, 0, 0, 0, 0, 0, 0, 57, 49, 0, 95, 0, 0, 0, 0,
    0, 0, 24, 43, 0, 0, 0, 0, 0, 0, 0, 0, 0, 0, 0, 0, 0, 40, 0, 88, 0, 0, 0, 81, 0, 0, 0, 0, 0, 0,
    0, 0, 0, 0, 0, 0, 0, 0, 79, 0, 0, 0, 0, 0, 42, 0, 0, 46, 0, 15, 0, 0, 8, 41, 0, 0, 0, 0, 0, 0,
    0, 0, 73, 0, 0, 0, 0, 0, 0, 0, 0, 94, 0, 0, 0, 0, 0, 89, 0, 0, 90, 0, 71, 27, 62, 0, 0, 0, 0,
    0, 0, 0, 0, 68, 0, 0, 0, 86, 0, 0, 0, 0, 0, 36, 1, 0, 0, 37, 0, 0, 0, 0, 0, 0, 0, 0, 0, 0, 0,
    0, 0, 0, 0, 0, 0, 0,
];

/// The fewest bytes of a word of the grammar.
const FEWEST_BYTES: usize = 2;

/// The most bytes of a word of the grammar.
const MOST_BYTES: usize = 15;

/// The slot that a word would have, by its length and three of its bytes.
#[tactic(auto, unfolding(crate::specs::Words::slot_of))]
fn slot_of(word: &[u8]) -> usize
    requires fewest { 2 ≤ length word.now }
    requires most { length word.now ≤ 15 }
    ensures value { result ≡ slot_of word.now }
    ensures inside { result < 512 }
{
    let first = word[0] as usize;
    let second = word[1] as usize;
    let last = word[word.len() - 1] as usize;
    (101 * word.len() + 424 * first + 191 * second + 190 * last) % 512
}

/// The key of a Word, found by its slot.
#[tactic(auto, using(crate::proofs::Keys::key_short, crate::proofs::Keys::key_long))]
pub fn keyword_of(word: &[u8]) -> Keyword
    ensures { result ≡ keyword_of word.now }
{
    if word.len() < FEWEST_BYTES {
        return Keyword::Other;
    }
    if word.len() > MOST_BYTES {
        return Keyword::Other;
    }
    key_in(&WORDS, SLOTS[slot_of(word)] as usize, word)
}

/// The key of the entry at this place of a table, if that is this word.
fn key_in(table: &[(&[u8], Keyword)], place: usize, word: &[u8]) -> Keyword
    ensures { result ≡ key_by
        (slice_get (map (λ entry. (entry.0.now, entry.1)) table.entry.now) place) word.now }
{
    match at(table, place) {
        Some(entry) => {
            if entry.0 == word {
                entry.1
            } else {
                Keyword::Other
            }
        }
        None => Keyword::Other,
    }
}

/// Whether the word begins with a point.
pub fn begins_with_point(word: &[u8]) -> bool
    ensures { result ≡ begins_with_point word.now }
{
    match word {
        [first, ..] => *first == b'.',
        [] => false,
    }
}
