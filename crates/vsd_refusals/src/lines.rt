//! The lines that are written for refused texts.
ghost use Rattle.std.specs.Prelude.{◌≡◌, ◌++◌, codes, Some, IfOk};
ghost use Rattle.vsd_refusals.specs.Lines.{build_line, check_line, close_line, decl_line, lex_line, missing_text, refusal_line, refused, script_line};

use crate::refusal::Refusal;
use std::alloc::{AllocError, Global};
use vsd_check::CheckError;
use vsd_decls::{DeclError, counted_text, form_text};
use vsd_itable::BuildError;
use vsd_script::{ScriptError, listed_text};
use vsd_text::LexError;
use vsd_types::CloseError;

/// The line for a refusal: `refused`, the line of the text or 0 where none is meant, the refusal's number, and what is
/// wrong. Want of memory is no refusal of a text, and has no line. The error is want of memory, here or in the refusal.
pub fn refusal_line(alloc: Global, refusal: &Refusal) -> Result<Vec<u8>, AllocError>
    ensures { IfOk result (λ line. refusal_line refusal.now ≡ Some line.items) }
{
    match refusal {
        Refusal::Lex(error) => lex_line(alloc, *error),
        Refusal::Decl(error) => decl_line(alloc, *error),
        Refusal::Check(error) => check_line(alloc, *error),
        Refusal::Script(error) => script_line(alloc, *error),
        Refusal::Close(error) => close_line(alloc, *error),
        Refusal::Build(error) => build_line(alloc, error),
    }
}

fn lex_line(alloc: Global, error: LexError) -> Result<Vec<u8>, AllocError>
    ensures { IfOk result (λ line. lex_line error ≡ Some line.items) }
{
    match error {
        LexError::BadByte { line } => refused(alloc, line, 1, "bad byte"),
        LexError::OpenComment { line } => refused(alloc, line, 2, "open comment"),
        LexError::OpenQuote { line } => refused(alloc, line, 3, "open quote"),
        LexError::TooLong => refused(alloc, 0, 4, "too long"),
        LexError::Memory => Err(AllocError),
    }
}

fn decl_line(alloc: Global, error: DeclError) -> Result<Vec<u8>, AllocError>
    ensures { IfOk result (λ line. decl_line error ≡ Some line.items) }
{
    match error {
        DeclError::Unexpected { line } => refused(alloc, line, 10, "unexpected"),
        DeclError::Unsupported { line, what } => refused(alloc, line, 11, form_text(what)),
        DeclError::TooMany { line, what } => too_many(alloc, line, 12, counted_text(what)),
        DeclError::TooDeep { line } => refused(alloc, line, 13, "too deep"),
        DeclError::Memory => Err(AllocError),
    }
}

fn check_line(alloc: Global, error: CheckError) -> Result<Vec<u8>, AllocError>
    ensures { IfOk result (λ line. check_line error ≡ Some line.items) }
{
    match error {
        CheckError::Twice { line } => refused(alloc, line, 30, "twice"),
        CheckError::UnknownType { line } => refused(alloc, line, 31, "unknown type"),
        CheckError::Arity { line } => refused(alloc, line, 32, "arity"),
        CheckError::Cycle { line } => refused(alloc, line, 33, "cycle"),
        CheckError::BadBase { line } => refused(alloc, line, 34, "bad base"),
        CheckError::BadInterface { line } => refused(alloc, line, 35, "bad interface"),
        CheckError::VarianceMisplaced { line } => refused(alloc, line, 36, "variance misplaced"),
        CheckError::VariantClass { line } => refused(alloc, line, 37, "variant class"),
        CheckError::OverridesFinal { line } => refused(alloc, line, 38, "overrides final"),
        CheckError::AbstractInConcrete { line } => refused(alloc, line, 39, "abstract in concrete"),
        CheckError::OverrideUnknown { line } => refused(alloc, line, 40, "override unknown"),
        CheckError::OverrideTwice { line } => refused(alloc, line, 41, "override twice"),
        CheckError::Memory => Err(AllocError),
    }
}

fn script_line(alloc: Global, error: ScriptError) -> Result<Vec<u8>, AllocError>
    ensures { IfOk result (λ line. script_line error ≡ Some line.items) }
{
    match error {
        ScriptError::Unexpected { line } => refused(alloc, line, 20, "unexpected"),
        ScriptError::UnknownName { line } => refused(alloc, line, 21, "unknown name"),
        ScriptError::Twice { line } => refused(alloc, line, 22, "twice"),
        ScriptError::TooManyLive { line } => refused(alloc, line, 23, "too many live"),
        ScriptError::TooManyOps { line } => refused(alloc, line, 24, "too many operations"),
        ScriptError::TooMany { line, what } => too_many(alloc, line, 25, listed_text(what)),
        ScriptError::NotConcrete { line } => refused(alloc, line, 26, "not concrete"),
        ScriptError::UnknownMethod { line } => refused(alloc, line, 27, "unknown method"),
        ScriptError::Arity { line } => refused(alloc, line, 28, "arity"),
        ScriptError::TooDeep { line } => refused(alloc, line, 29, "too deep"),
        ScriptError::Memory => Err(AllocError),
    }
}

fn close_line(alloc: Global, error: CloseError) -> Result<Vec<u8>, AllocError>
    ensures { IfOk result (λ line. close_line error ≡ Some line.items) }
{
    match error {
        CloseError::TooManyTypes => refused(alloc, 0, 50, "too many types"),
        CloseError::TooDeep => refused(alloc, 0, 51, "too deep"),
        CloseError::Memory => Err(AllocError),
    }
}

fn build_line(alloc: Global, error: &BuildError) -> Result<Vec<u8>, AllocError>
    ensures { IfOk result (λ line. build_line error.now ≡ Some line.items) }
{
    match error {
        BuildError::MissingImplementation {
            line,
            class,
            interface,
            method,
        } => {
            let (class, interface) = (class.as_slice(), interface.as_slice());
            let what = missing_text(alloc, class, interface, method.as_slice())?;
            refused_by_names(alloc, *line, 60, &what)
        }
        BuildError::TooManySlots { line } => refused(alloc, *line, 61, "too many slots"),
        BuildError::Memory => Err(AllocError),
    }
}

/// What a class lacks: its closed type, and the slot by the closed interface.
fn missing_text(
    alloc: Global,
    class: &[u8],
    interface: &[u8],
    method: &[u8],
) -> Result<Vec<u8>, AllocError>
    ensures { IfOk result (λ bytes. bytes.items ≡ missing_text class.now interface.now method.now) }
{
    let mut bytes = Vec::new(alloc);
    bytes.extend_from_slice(b"missing ")?;
    bytes.extend_from_slice(class)?;
    bytes.extend_from_slice(b" ")?;
    bytes.extend_from_slice(interface)?;
    bytes.extend_from_slice(b"::")?;
    bytes.extend_from_slice(method)?;
    Ok(bytes)
}

/// A line whose text is made of names.
fn refused_by_names(
    alloc: Global,
    line: u32,
    number: u32,
    what: &[u8],
) -> Result<Vec<u8>, AllocError>
    ensures { IfOk result (λ bytes. bytes.items ≡ refused line number what.now) }
{
    let mut bytes = format!(in alloc; "refused {line} {number} ")?.into_bytes();
    bytes.extend_from_slice(what)?;
    bytes.extend_from_slice(b"\n")?;
    Ok(bytes)
}

fn refused(alloc: Global, line: u32, number: u32, what: &str) -> Result<Vec<u8>, AllocError>
    ensures { IfOk result (λ bytes. bytes.items ≡ refused line number what.now) }
{
    Ok(format!(in alloc; "refused {line} {number} {what}\n")?.into_bytes())
}

fn too_many(alloc: Global, line: u32, number: u32, what: &str) -> Result<Vec<u8>, AllocError>
    ensures { IfOk result (λ bytes. bytes.items ≡ refused line number (codes "too many " ++ what.now)) }
{
    Ok(format!(in alloc; "refused {line} {number} too many {what}\n")?.into_bytes())
}
