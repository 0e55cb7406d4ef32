//! What differs between the readers of declarations and of scripts.
ghost use Rattle.std.specs.Prelude.{◌≡◌};
ghost use Rattle.vsd_grammar.specs.Grammar.{run, count};
ghost use Rattle.vsd_grammar.specs.Productions.{Reads};
ghost use Rattle.vsd_type_syntax.specs.Types.{Rules};

use vsd_grammar::{Cause, Cursor, Stop, TokenClass};

/// What names and parameters stand for, where types are read.
pub trait TypeRules {
    ghost rules: { Self → Rules };

    /// The number of a name that is not built in, has 1 to 255 bytes and stands after no scope; the name is at hand.
    ///
    /// A name without a number is refused at the token at hand, as the rules say. Want of memory is `Stop::Memory`.
    fn resolve(&self, cursor: &mut Cursor<'_>, name: &[u8]) -> Result<u16, Stop>
        ensures { Reads (run _ (count _ ((rules self.now).resolve name.now)) cursor.old) result cursor.new };

    /// Why a name after a scope is refused that is not built in. It has a byte at least, and may have more than 255.
    fn foreign(&self, name: &[u8]) -> Cause
        ensures { result ≡ (rules self.now).foreign name.now };

    /// Whether `!` may begin a type.
    fn has_parameters(&self) -> bool
        ensures { result ≡ (rules self.now).has_parameters };

    /// The place, from 0, of the parameter that a token of this class, with these bytes, names after `!`.
    fn parameter(&self, class: TokenClass, bytes: &[u8]) -> Option<u8>
        ensures { result ≡ (rules self.now).parameter class bytes.now };

    /// Why so many arguments are refused of the type with this number.
    fn arity(&self, number: u16, count: usize) -> Option<Cause>
        ensures { result ≡ (rules self.now).arity number count };
}
