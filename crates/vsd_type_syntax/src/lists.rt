//! The first test of a list of types.
ghost use Rattle.std.specs.Prelude.{◌≡◌};
ghost use Rattle.vsd_type_syntax.specs.Types as spec;

use crate::starts::{Special, Start, special_of, start_at};
use vsd_grammar::{Cause, TokenClass};

fn name_cause(empty: bool, special: Special) -> Option<Cause>
    ensures { result ≡ spec.name_cause empty special }
{
    match special {
        Special::Builtin(_) => None,
        Special::Refused(form) => Some(Cause::Unsupported(form)),
        Special::Nothing => { if empty { Some(Cause::Unexpected) } else { None } }
    }
}

/// Why a token of this class, with these bytes, is refused that can't begin a type, or a named one, `object`, `string`
/// or `System.ValueType` alone: as unexpected, or as a form that isn't supported.
#[tactic(auto, unfolding(crate::specs::Types::first_cause))]
pub fn first_cause(only_named: bool, class: TokenClass, bytes: &[u8]) -> Option<Cause>
    ensures { result ≡ spec.first_cause only_named class bytes.now }
{
    match start_at(only_named, class) {
        Start::Refused(cause) => Some(cause),
        Start::Name => name_cause(bytes.len() == 0, special_of(bytes)),
        _ => None,
    }
}
