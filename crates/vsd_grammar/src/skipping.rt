//! What is passed over token by token.
ghost use Rattle.std.specs.Prelude.{◌≡◌, ◌≢◌, ◌<◌, ◌≤◌, ◌+◌, Bool, IfOk};
ghost use Rattle.vsd_grammar.specs.Grammar.{run};
ghost use Rattle.vsd_grammar.specs.Loops.{Computes};
ghost use Rattle.vsd_grammar.specs.Productions.{Reads};
ghost use Rattle.vsd_grammar.specs.Skipping.{skip, skip_turn, close_turn, passes_at_most};
ghost use Rattle.vsd_grammar.specs.declared.token_class.TokenClass.{TokenClass};

use crate::cause::Cause;
use crate::cursor::{Cursor, same_class};
use crate::syntax_error::Stop;
use crate::token_class::TokenClass;
use crate::turn::Turn;

/// Passes over tokens with their braces in pairs, up to a brace that closes what is around them or to a token outside
/// of their braces at which to stop.
///
/// `%%` where it is no token at which to stop, and the end, are refused as unexpected. Takes no memory.
pub fn skip<W>(cursor: &mut Cursor<'_>, stops: W) -> Result<u32, Stop>
where
    W: Fn(TokenClass) -> bool,
    requires { W.IsAlwaysCallable stops }
    ensures reads { (f : TokenClass → Bool) → Computes (W.post stops) f
        → Reads (run _ (skip f) cursor.old) result cursor.new }
    ensures sure { result ≢ Err Stop.Memory }
{
    let mut depth = 0;
    for _turn in 0..cursor.left() + 1 {
        match skip_turn(&stops, cursor.class(), depth) {
            Turn::Stop => return Ok(depth),
            Turn::Refuse(cause) => return Err(cursor.refuse(cause)),
            Turn::Pass(next) => {
                cursor.pass()?;
                depth = next;
            }
        }
    }
    Err(cursor.refuse(Cause::Unexpected))
}

/// What is done at a token of this class within so many open braces.
fn skip_turn<W>(stops: &W, class: TokenClass, depth: u32) -> Turn<u32>
where
    W: Fn(TokenClass) -> bool,
    requires callable { W.IsAlwaysCallable stops.now }
    requires small { depth ≤ 4194305 }
    ensures value { (f : TokenClass → Bool) → Computes (W.post stops.now) f → result ≡ skip_turn f class depth }
    ensures near { passes_at_most (depth + 1) result }
{
    if same_class(TokenClass::Symbol(b'{'), class) {
        Turn::Pass(depth + 1)
    } else if same_class(TokenClass::Symbol(b'}'), class) {
        close_turn(depth)
    } else if depth == 0 && stops(class) {
        Turn::Stop
    } else if same_class(TokenClass::Percents, class) {
        Turn::Refuse(Cause::Unexpected)
    } else {
        Turn::Pass(depth)
    }
}

/// What is done at a brace that closes one of so many.
fn close_turn(depth: u32) -> Turn<u32>
    ensures value { result ≡ close_turn depth }
    ensures near { passes_at_most (depth + 1) result }
{
    if depth == 0 {
        Turn::Stop
    } else {
        Turn::Pass(depth - 1)
    }
}
