//! The refusals of all stages.

use vsd_check::CheckError;
use vsd_decls::DeclError;
use vsd_itable::BuildError;
use vsd_script::ScriptError;
use vsd_text::LexError;
use vsd_types::CloseError;

/// Why a text is refused: the error of the stage that refused it, in the order of the stages. A refusal that a run carries
/// is never want of memory.
#[derive(Debug, Drop)]
pub enum Refusal {
    /// The text has no tokens: 1 to 4.
    Lex(LexError),
    /// Its tokens are no declarations: 10 to 13.
    Decl(DeclError),
    /// Its declarations aren't lawful: 30 to 41.
    Check(CheckError),
    /// What follows the declarations is no script: 20 to 29.
    Script(ScriptError),
    /// Its types can't be closed: 50 and 51.
    Close(CloseError),
    /// Its classes have too many slots, or lack one: 60 and 61.
    Build(BuildError),
}
