//! Why a token is refused.

/// A form of ilasm that is recognised and not supported.
#[derive(Clone, Copy, Debug, PartialEq, Eq, Drop)]
pub enum Form {
    /// A class in a class, or the name of one (ECMA-335, II.10.6).
    Nested,
    /// `.class extern` (II.6.8).
    TypeForwarding,
    /// `.namespace`.
    Namespace,
    /// The type `System.Enum` (II.14.3).
    Enum,
    /// The type `System.MulticastDelegate` or `System.Delegate` (II.14.6).
    Delegate,
    /// A type of another assembly, but for three built-in classes (II.7.3).
    ForeignType,
    /// A constraint of a type parameter (II.10.1.7).
    Constraint,
    /// Parameters of a method, or a use of one (II.9).
    GenericMethod,
    /// An array type (II.14.1, II.14.2).
    Array,
    /// A managed, unmanaged or method pointer (II.14.4, II.14.5).
    Pointer,
    /// A type that begins with `native`.
    NativeInt,
    /// The type `typedref`.
    TypedReference,
    /// A custom modifier (II.7.1.1).
    Modifier,
    /// How a value is marshalled (II.7.4).
    Marshal,
    /// Arguments in a number that varies (II.15.3).
    Vararg,
    /// A static method of an interface.
    StaticInterfaceMethod,
    /// A method of an interface that has a body.
    DefaultInterfaceMethod,
}

/// What declarations may have only so many of.
#[derive(Clone, Copy, Debug, PartialEq, Eq, Drop)]
pub enum Counted {
    /// Declarations: 1,024.
    Types,
    /// Type names: 2,048.
    Names,
    /// Parameters of a declaration: 8.
    Parameters,
    /// Interfaces that a declaration names: 64.
    Interfaces,
    /// Virtual methods of a declaration: 256.
    Methods,
    /// Overrides of a declaration: 256.
    Overrides,
    /// Arguments of a method: 16.
    Arguments,
    /// Bytes of a name: 255.
    NameBytes,
}

/// What a script may have only so many of.
#[derive(Clone, Copy, Debug, PartialEq, Eq, Drop)]
pub enum Listed {
    /// Call sites: 256.
    Sites,
    /// Hosts: 256.
    Hosts,
    /// Lanes: 64.
    Lanes,
}

/// Why a token is refused, in declarations or in a script.
#[derive(Clone, Copy, Debug, PartialEq, Eq, Drop)]
pub enum Cause {
    /// No production goes on with this token.
    Unexpected,
    /// A form of ilasm that is recognised and not supported.
    Unsupported(Form),
    /// One more in declarations than may be there.
    TooMany(Counted),
    /// A written term has too many levels or nodes, or repeats nest too deep.
    TooDeep,
    /// A name in a script that nothing has.
    UnknownName,
    /// A name in a script that something has already.
    Twice,
    /// One more live variable of a lane than the 32 that it may have.
    TooManyLive,
    /// One more operation than the 200,000 that all lanes may have.
    TooManyOperations,
    /// One more in a script than may be there.
    TooManyListed(Listed),
    /// An object whose type is no concrete class.
    NotConcrete,
    /// A method that an interface has not.
    UnknownMethod,
    /// Another number of arguments than a declaration has parameters.
    Arity,
}
