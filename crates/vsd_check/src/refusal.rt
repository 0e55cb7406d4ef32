//! Why declarations are refused.
ghost use Rattle.std.specs.Prelude.{◌≡◌, Some};
ghost use Rattle.vsd_check.specs.Refusals.{refusal_of};

use std::alloc::AllocError;
use thiserror::Error;

/// A condition that lawful declarations don't show, in the order in which those of one line count.
#[derive(Clone, Copy, Debug, PartialEq, Eq)]
pub enum Cause {
    Twice,
    UnknownType,
    Arity,
    Cycle,
    BadBase,
    BadInterface,
    VarianceMisplaced,
    VariantClass,
    OverridesFinal,
    AbstractInConcrete,
    OverrideUnknown,
    OverrideTwice,
}

/// A condition that shows, with its line, from 1.
#[derive(Clone, Copy, Debug, PartialEq, Eq)]
pub struct Shown {
    pub line: u32,
    pub cause: Cause,
}

/// Why declarations are refused, with the line of the first of what refuses them.
///
/// A cause of an earlier pass comes first; within a pass the first line, and at one line the cause that stands first here.
/// The first pass has `Twice`, `UnknownType`, `Arity` and `VariantClass`, the second `Cycle`, `BadBase` and
/// `BadInterface`, the third the others.
#[derive(Clone, Copy, Debug, PartialEq, Eq, Error)]
pub enum CheckError {
    /// A declaration's name is there already or is that of a built-in class, or two of its parameters have one name: the
    /// line of the (later) declaration. Two virtual methods of a declaration have one name and signature: the line of the
    /// later method (ECMA-335, II.22.20, II.22.26, II.22.37).
    #[error("line {line}: twice")]
    Twice { line: u32 },
    /// A type isn't declared: the line of a base's or an interface's first token, of a method for its signature, of an
    /// override for its terms.
    #[error("line {line}: unknown type")]
    UnknownType { line: u32 },
    /// A type has another number of arguments than its declaration has parameters (II.9.4), at a line as for
    /// `UnknownType`.
    #[error("line {line}: arity")]
    Arity { line: u32 },
    /// A class reaches itself by bases, or an interface by the interfaces that it requires: the line of the declaration.
    #[error("line {line}: cycle")]
    Cycle { line: u32 },
    /// An interface has a base, or a base is an interface, a sealed class, a value type or `string`: the line of the
    /// declaration (II.10.1.4, II.12, II.13).
    #[error("line {line}: bad base")]
    BadBase { line: u32 },
    /// What is named as an interface is none: the line of its first token (II.22.23).
    #[error("line {line}: bad interface")]
    BadInterface { line: u32 },
    /// A method or a required interface of an interface breaks variance validity: its line (II.9.7).
    #[error("line {line}: variance misplaced")]
    VarianceMisplaced { line: u32 },
    /// A parameter of a class has a sign: the line of the declaration (II.9.5).
    #[error("line {line}: variant class")]
    VariantClass { line: u32 },
    /// A virtual method without `newslot` overrides a final one: its line (II.15.4.2.2).
    #[error("line {line}: overrides final")]
    OverridesFinal { line: u32 },
    /// A class that isn't abstract has a slot whose method is abstract: the line of the declaration.
    #[error("line {line}: abstract in concrete")]
    AbstractInConcrete { line: u32 },
    /// An override implements nothing: its line. Its owner is no interface that the class has, or the owner has no such
    /// method, or the class has no such method, or their signatures differ at the owner's arguments, or the override
    /// stands in an interface (II.10.3.2, II.12.2).
    #[error("line {line}: override unknown")]
    OverrideUnknown { line: u32 },
    /// An override implements the method that an earlier one of its declaration with the same owner implements: the line
    /// of the later one (II.10.3.2).
    #[error("line {line}: override twice")]
    OverrideTwice { line: u32 },
    /// There is no memory.
    #[error("out of memory")]
    Memory,
}

impl From<AllocError> for CheckError {
    ghost use Rattle.std.specs.Prelude.{◌≡◌};
    ghost use Rattle.vsd_check.specs.declared.refusal.CheckError.TheVariants.{Memory};

    ghost from_gives = { λ _ e. e ≡ Memory };

    fn from(_error: AllocError) -> CheckError {
        CheckError::Memory
    }
}

/// The refusal for what shows.
pub(crate) fn refusal(shown: Shown) -> CheckError
    ensures { refusal_of result ≡ Some shown }
{
    let line = shown.line;
    match shown.cause {
        Cause::Twice => CheckError::Twice { line },
        Cause::UnknownType => CheckError::UnknownType { line },
        Cause::Arity => CheckError::Arity { line },
        Cause::Cycle => CheckError::Cycle { line },
        Cause::BadBase => CheckError::BadBase { line },
        Cause::BadInterface => CheckError::BadInterface { line },
        Cause::VarianceMisplaced => CheckError::VarianceMisplaced { line },
        Cause::VariantClass => CheckError::VariantClass { line },
        Cause::OverridesFinal => CheckError::OverridesFinal { line },
        Cause::AbstractInConcrete => CheckError::AbstractInConcrete { line },
        Cause::OverrideUnknown => CheckError::OverrideUnknown { line },
        Cause::OverrideTwice => CheckError::OverrideTwice { line },
    }
}
