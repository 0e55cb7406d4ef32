//! Declarations of classes and interfaces (ECMA-335, II.9 to II.12).

use sqlite_items::Items;
use vsd_terms::{Names, Term, Terms};

/// The bytes of a name, 1 to 255, without quotes.
pub type Bytes = Items<u8>;

/// The sign of a type parameter: how the arguments at its place may vary (II.9.5).
#[derive(Clone, Copy, Debug, PartialEq, Eq, Drop)]
pub enum Sign {
    /// `+`: covariant.
    Plus,
    /// `-`: contravariant.
    Minus,
    /// No sign: invariant.
    Plain,
}

/// A type parameter of a declaration.
#[derive(Debug, Drop)]
pub struct Param {
    pub name: Bytes,
    pub sign: Sign,
}

/// A term with the line of its first token, from 1.
#[derive(Debug, Drop)]
pub struct Located {
    pub term: Term,
    pub line: u32,
}

/// What a method gives and takes. No result is `void`.
#[derive(Debug, Drop)]
pub struct Signature {
    pub result: Option<Term>,
    /// At most 16.
    pub arguments: Terms,
}

/// Who may name a method (II.15.4.2). The last access word that is written counts.
#[derive(Clone, Copy, Debug, PartialEq, Eq, Drop)]
pub enum Access {
    Public,
    Private,
    /// Another access word, or none.
    Other,
}

/// A virtual method (II.10.3, II.15.4.2.3). Other methods of a class are not kept.
#[derive(Debug, Drop)]
pub struct Method {
    pub name: Bytes,
    /// The line of its `.method` word, from 1.
    pub line: u32,
    pub access: Access,
    pub newslot: bool,
    pub is_final: bool,
    pub is_abstract: bool,
    pub signature: Signature,
}

/// What implements the method that an override names.
#[derive(Debug, Drop)]
pub enum Implementer {
    /// The method in whose body the override stands, by its place among the declaration's methods.
    Own(u16),
    /// The method that stands after `with`: the class that is written before its name, its name and its signature.
    Named {
        owner: Term,
        name: Bytes,
        signature: Signature,
    },
}

/// An explicit implementation of an interface's method (II.10.3.2).
#[derive(Debug, Drop)]
pub struct Override {
    /// The line of its `.override` word, from 1.
    pub line: u32,
    /// The interface whose method is implemented.
    pub owner: Term,
    pub name: Bytes,
    /// The signature in the long form, with the word `method`, whose parameters are those of the owner's
    /// declaration. None in the short form.
    pub signature: Option<Signature>,
    pub body: Implementer,
}

/// A class or an interface.
#[derive(Debug, Drop)]
pub struct Decl {
    /// The number of its name.
    pub name: u16,
    /// The line of its `.class` word, from 1.
    pub line: u32,
    pub is_interface: bool,
    pub is_abstract: bool,
    pub sealed: bool,
    /// At most 8.
    pub params: Items<Param>,
    pub base: Option<Located>,
    /// The interfaces that it names after `implements`, at most 64. Those of an interface are the ones it requires.
    pub interfaces: Items<Located>,
    /// Its virtual methods, at most 256.
    pub methods: Items<Method>,
    /// Its overrides, at most 256.
    pub overrides: Items<Override>,
}

/// The declarations of a text.
#[derive(Debug, Drop)]
pub struct Decls {
    /// The type names that were seen, at most 2,048.
    pub names: Names,
    /// In the order of the text, at most 1,024.
    pub list: Items<Decl>,
    /// The index of the token after `%%`.
    pub rest: u32,
}
