//! Why no answers come.
ghost use Rattle.std.specs.Prelude.{◌≡◌};
ghost use Rattle.vsd_stages.specs.Stopping.{stopped_build, stopped_check, stopped_close, stopped_decl, stopped_lex, stopped_script};

use vsd_check::CheckError;
use vsd_decls::DeclError;
use vsd_itable::BuildError;
use vsd_refusals::Refusal;
use vsd_script::ScriptError;
use vsd_text::LexError;
use vsd_types::CloseError;

/// Why no answers come: a text's first refusal, or want of memory.
#[derive(Debug, Drop)]
pub enum Stopped {
    /// The text is refused; it is never want of memory.
    Refused(Refusal),
    /// Want of memory.
    Memory,
}

/// What an error of lexing stops with.
pub(crate) fn stopped_lex(error: LexError) -> Stopped
    ensures { result ≡ stopped_lex error }
{
    match error {
        LexError::Memory => Stopped::Memory,
        error => Stopped::Refused(Refusal::Lex(error)),
    }
}

/// What an error of the reading of declarations stops with.
pub(crate) fn stopped_decl(error: DeclError) -> Stopped
    ensures { result ≡ stopped_decl error }
{
    match error {
        DeclError::Memory => Stopped::Memory,
        error => Stopped::Refused(Refusal::Decl(error)),
    }
}

/// What an error of the check of declarations stops with.
pub(crate) fn stopped_check(error: CheckError) -> Stopped
    ensures { result ≡ stopped_check error }
{
    match error {
        CheckError::Memory => Stopped::Memory,
        error => Stopped::Refused(Refusal::Check(error)),
    }
}

/// What an error of the reading of the script stops with.
pub(crate) fn stopped_script(error: ScriptError) -> Stopped
    ensures { result ≡ stopped_script error }
{
    match error {
        ScriptError::Memory => Stopped::Memory,
        error => Stopped::Refused(Refusal::Script(error)),
    }
}

/// What an error of closing stops with.
pub(crate) fn stopped_close(error: CloseError) -> Stopped
    ensures { result ≡ stopped_close error }
{
    match error {
        CloseError::Memory => Stopped::Memory,
        error => Stopped::Refused(Refusal::Close(error)),
    }
}

/// What an error of building tables stops with.
pub(crate) fn stopped_build(error: BuildError) -> Stopped
    ensures { result ≡ stopped_build error }
{
    match error {
        BuildError::Memory => Stopped::Memory,
        error => Stopped::Refused(Refusal::Build(error)),
    }
}
