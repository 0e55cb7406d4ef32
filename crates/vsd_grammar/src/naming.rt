//! Names, which declarations and scripts read alike.
ghost use Rattle.std.specs.Prelude.{◌≡◌, ◌≢◌};
ghost use Rattle.vsd_grammar.specs.Grammar.{run};
ghost use Rattle.vsd_grammar.specs.Productions.{Reads, ReadsBy, is_name, spelled_name, name, numbered_name, plain_turn, plain_words};

use crate::cause::{Cause, Counted};
use crate::cursor::Cursor;
use crate::loops::scan;
use crate::syntax_error::Stop;
use crate::token_class::TokenClass;
use crate::turn::Turn;

/// The most bytes of a name.
const MOST_BYTES: usize = 255;

/// Whether a name may stand at a token of this class.
pub fn is_name(class: TokenClass) -> bool
    ensures { result ≡ is_name class }
{
    match class {
        TokenClass::Word(_) | TokenClass::Quoted => true,
        _ => false,
    }
}

/// The bytes of the name at hand, 1 to 255, which is not passed over.
///
/// A token that is no name, and a name of no bytes, are refused as unexpected, and a name of more than 255 bytes as too
/// many bytes. Takes no memory.
#[tactic(auto, unfolding(crate::specs::Productions::spelled_name))]
pub fn spelled_name<'a>(cursor: &Cursor<'a>) -> Result<&'a [u8], Stop>
    ensures reads { ReadsBy (λ b. b.now) (run _ spelled_name cursor.now) result cursor.now }
    ensures sure { result ≢ Err Stop.Memory }
{
    let bytes = cursor.bytes();
    if !is_name(cursor.class()) {
        return Err(cursor.refuse(Cause::Unexpected));
    }
    if bytes.len() == 0 {
        return Err(cursor.refuse(Cause::Unexpected));
    }
    if bytes.len() > MOST_BYTES {
        return Err(cursor.refuse(Cause::TooMany(Counted::NameBytes)));
    }
    Ok(bytes)
}

/// A name, which lasts as long as the text. It is refused as `spelled_name` refuses. Takes no memory.
#[tactic(auto, unfolding(crate::specs::Productions::name))]
pub fn name<'a>(cursor: &mut Cursor<'a>) -> Result<&'a [u8], Stop>
    ensures reads { ReadsBy (λ b. b.now) (run _ name cursor.old) result cursor.new }
    ensures sure { result ≢ Err Stop.Memory }
{
    let bytes = spelled_name(cursor)?;
    cursor.pass()?;
    Ok(bytes)
}

/// The number of a name, from 0 to 2,047.
///
/// It is refused as `spelled_name` refuses, and then as [`Cursor::number`] refuses. Want of memory is `Stop::Memory`.
#[tactic(auto, unfolding(crate::specs::Productions::numbered_name))]
pub fn numbered_name(cursor: &mut Cursor<'_>) -> Result<u16, Stop>
    ensures { Reads (run _ numbered_name cursor.old) result cursor.new }
{
    let bytes = spelled_name(cursor)?;
    let number = cursor.number(bytes)?;
    cursor.pass()?;
    Ok(number)
}

/// Words that do not begin with a point, as many as there are. Any other token ends them, and so does the end: none is
/// refused. Takes no memory.
#[tactic(auto, unfolding(crate::specs::Productions::plain_words))]
pub fn plain_words(cursor: &mut Cursor<'_>) -> Result<(), Stop>
    ensures reads { Reads (run _ plain_words cursor.old) result cursor.new }
    ensures sure { result ≢ Err Stop.Memory }
{
    scan(cursor, (), plain_turn)
}

fn plain_turn(class: TokenClass, state: ()) -> Turn<()>
    ensures { result ≡ plain_turn class state }
{
    match class {
        TokenClass::Word(_) => Turn::Pass(state),
        _ => Turn::Stop,
    }
}
