//! Numbers in decimal digits.
ghost use Rattle.std.specs.Prelude.{◌≡◌, ◌≢◌, ◌≤◌, ◌<◌, ◌^◌, length, IfOk, IfSome};
ghost use Rattle.vsd_grammar.specs.Grammar.{run};
ghost use Rattle.vsd_grammar.specs.Productions.{Reads, digits_from, spelled_number};

use crate::cause::Cause;
use crate::cursor::Cursor;
use crate::syntax_error::Stop;
use crate::token_class::TokenClass;

/// The number whose decimal digits these are, and none where a byte is no digit.
fn value_of(digits: &[u8]) -> Option<u32>
    requires { length digits.now ≤ 9 }
    ensures { result ≡ digits_from 0 digits.now }
{
    let mut value = 0u32;
    for digit in digits {
        if *digit < b'0' || *digit > b'9' {
            return None;
        }
        value = 10 * value + u32::from(*digit - b'0');
    }
    Some(value)
}

/// The number at hand, which is not passed over: from `low` to `high`, in at most `most` decimal digits, of which the
/// first ones may be 0. Any other token is refused as unexpected.
#[tactic(auto, unfolding(crate::specs::Productions::spelled_number))]
pub fn spelled_number(cursor: &Cursor<'_>, low: u32, high: u32, most: usize) -> Result<u32, Stop>
    requires { most ≤ 9 }
    ensures reads { Reads (run _ (spelled_number low high most) cursor.now) result cursor.now }
    ensures sure { result ≢ Err Stop.Memory }
{
    let digits = cursor.bytes();
    if !cursor.sees(TokenClass::Number) {
        return Err(cursor.refuse(Cause::Unexpected));
    }
    if digits.len() > most {
        return Err(cursor.refuse(Cause::Unexpected));
    }
    match value_of(digits) {
        Some(value) if low <= value && value <= high => Ok(value),
        _ => Err(cursor.refuse(Cause::Unexpected)),
    }
}
