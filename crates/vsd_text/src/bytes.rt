//! The classes of bytes.
ghost use Rattle.std.specs.Prelude.{◌≡◌, ℕ, Bool, IsTrue};
ghost use Rattle.vsd_text.specs.Bytes.{is_of_class, is_run_byte, is_quoted_byte, is_line_byte};

/// What a byte is where a token or what stands between tokens may begin.
#[derive(Clone, Copy)]
pub(crate) enum ByteClass {
    /// Begins a Word.
    Letter,
    /// Begins a Number.
    Digit,
    /// Is a Symbol, whatever follows.
    Symbol,
    /// Separates tokens, and ends no line.
    Space,
    /// Separates tokens and ends a line.
    LineFeed,
    /// `:` or `%`: a Symbol, or one token with a second such byte.
    Twin,
    /// A quote or `/`: what it opens depends on the bytes after it.
    Opening,
    /// Begins nothing.
    Bad,
}

// One letter a class, for the table.
const L: ByteClass = ByteClass::Letter;

const D: ByteClass = ByteClass::Digit;

const Y: ByteClass = ByteClass::Symbol;

const S: ByteClass = ByteClass::Space;

const N: ByteClass = ByteClass::LineFeed;

const T: ByteClass = ByteClass::Twin;

const O: ByteClass = ByteClass::Opening;

const B: ByteClass = ByteClass::Bad;

// The class of each byte: a look-up is faster than the comparisons.
static CLASSES: [ByteClass; 256] = [
    B, B, B, B, B, B, B, B, B, S, N, B, B, S, B, B, B, B, B, B, B, B, B, B, B, B, B, B, B, B, B, B,
    S, Y, O, Y, L, T, Y, O, Y, Y, Y, Y, Y, Y, L, O, D, D, D, D, D, D, D, D, D, D, T, Y, Y, Y, Y, L,
    L, L, L, L, L, L, L, L, L, L, L, L, L, L, L, L, L, L, L, L, L, L, L, L, L, L, L, Y, Y, Y, Y, L,
    L, L, L, L, L, L, L, L, L, L, L, L, L, L, L, L, L, L, L, L, L, L, L, L, L, L, L, Y, Y, Y, Y, B,
    B, B, B, B, B, B, B, B, B, B, B, B, B, B, B, B, B, B, B, B, B, B, B, B, B, B, B, B, B, B, B, B,
    B, B, B, B, B, B, B, B, B, B, B, B, B, B, B, B, B, B, B, B, B, B, B, B, B, B, B, B, B, B, B, B,
    B, B, B, B, B, B, B, B, B, B, B, B, B, B, B, B, B, B, B, B, B, B, B, B, B, B, B, B, B, B, B, B,
    B, B, B, B, B, B, B, B, B, B, B, B, B, B, B, B, B, B, B, B, B, B, B, B, B, B, B, B, B, B, B, B,
];

/// The class of the byte.
pub(crate) fn class_of(byte: u8) -> ByteClass
    ensures { IsTrue (is_of_class result byte) }
{
    CLASSES[byte as usize]
}

/// A test of one byte.
pub(crate) trait ByteTest {
    ghost passes: { ℕ → Bool };

    fn passes(byte: u8) -> bool
        ensures { result ≡ passes byte };
}

/// Passes the bytes of a Word or a Number.
pub(crate) struct RunByte;

impl ByteTest for RunByte {
    ghost passes = { is_run_byte };

    fn passes(byte: u8) -> bool {
        matches!(class_of(byte), ByteClass::Letter | ByteClass::Digit)
    }
}

/// Passes the bytes between single quotes.
pub(crate) struct QuotedByte;

impl ByteTest for QuotedByte {
    ghost passes = { is_quoted_byte };

    #[tactic(auto, unfolding(crate::specs::Bytes::is_quoted_byte))]
    fn passes(byte: u8) -> bool {
        matches!(byte, b' '..=b'&' | b'('..=b'[' | b']'..=b'~')
    }
}

/// Passes every byte but a line feed.
pub(crate) struct LineByte;

impl ByteTest for LineByte {
    ghost passes = { is_line_byte };

    #[tactic(auto, unfolding(crate::specs::Bytes::is_line_byte, crate::specs::Bytes::is_line_feed))]
    fn passes(byte: u8) -> bool {
        byte != b'\n'
    }
}
