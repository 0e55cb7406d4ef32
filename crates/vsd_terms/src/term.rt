//! What a written type is: a named type with arguments, a parameter, or a built-in type.

use sqlite_items::Items;

/// A type that every text knows.
///
/// The base of `string` and of `System.ValueType` is `object`, and that of each type below them is
/// `System.ValueType` (ECMA-335, I.8.2.2).
#[derive(Clone, Copy, Debug, PartialEq, Eq, Hash)]
pub enum Builtin {
    Object,
    String,
    ValueType,
    Bool,
    Char,
    Int8,
    Int16,
    Int32,
    Int64,
    Uint8,
    Uint16,
    Uint32,
    Uint64,
    Float32,
    Float64,
}

/// Terms in their order, which contracts see as a list.
pub type Terms = Items<Term>;

/// A type as it is written.
#[derive(Debug, Drop)]
pub enum Term {
    /// The type of this number in the table of names, at its arguments in order.
    Named { name: u16, args: Terms },
    /// The parameter at this place, from 0, of the declaration that the term stands in.
    Param(u8),
    Builtin(Builtin),
}
