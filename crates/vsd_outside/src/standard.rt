//! Standard input and output: the trusted edge. What they give and take isn't told.
ghost use Rattle.std.specs.Prelude.{◌≡◌, ◌≢◌, ℕ, None, IfErr};
ghost use Rattle.std.specs.Io.{ReadsAtMost, WritesAtMost};
ghost use Rattle.std.specs.Io.KnownBytes.{ReadConsumes, WriteAppends};
ghost use Rattle.std.specs.IoError.{error_kind};
ghost use Rattle.std.specs.declared.io.ErrorKind.{ErrorKind};

use crate::sinks::Sink;
use crate::sources::{Failed, Source};
use std::io::{Error, ErrorKind, Read, Result as IoResult, Stdin, Stdout, Write};

/// Standard input. It tells no bytes. It counts each read that the system refused; one that a signal
/// interrupts is tried again, and is no fault.
#[derive(Drop)]
pub struct StdSource {
    input: Stdin,
    faults: u64,
}

impl StdSource {
    /// Standard input, as the runtime gives it, without a fault so far.
    pub fn new(input: Stdin) -> StdSource
        ensures { ⟦<StdSource as Source>⟧.faults result ≡ 0 }
    {
        StdSource { input, faults: 0 }
    }
}

impl Source for StdSource {
    ghost left = { λ _. None };

    ghost faults = { λ s. s.faults };

    ghost never_fails = { λ _. ⊥ };

    fn read(&mut self, into: &mut [u8]) -> Result<usize, Failed> {
        if let Ok(n) = read_uninterrupted(&mut self.input, into) {
            return Ok(n);
        }
        self.faults = self.faults.saturating_add(1);
        Err(Failed)
    }
}

/// Standard output. It tells no bytes. It counts each write that the system refused or that took nothing
/// of a piece that isn't empty; one that a signal interrupts is tried again, and is no fault.
#[derive(Drop)]
pub struct StdSink {
    output: Stdout,
    faults: u64,
}

impl StdSink {
    /// Standard output, as the runtime gives it, without a fault so far.
    pub fn new(output: Stdout) -> StdSink
        ensures { ⟦<StdSink as Sink>⟧.faults result ≡ 0 }
    {
        StdSink { output, faults: 0 }
    }
}

impl Sink for StdSink {
    ghost taken = { λ _. None };

    ghost faults = { λ s. s.faults };

    ghost has_room = { λ _ _. ⊥ };

    fn write(&mut self, piece: &[u8]) -> Result<usize, Failed> {
        if let Ok(n) = write_uninterrupted(&mut self.output, piece) {
            if n > 0 || piece.is_empty() {
                return Ok(n);
            }
        }
        self.faults = self.faults.saturating_add(1);
        Err(Failed)
    }
}

/// How often a read or write that a signal interrupts is tried: in practice until it isn't interrupted.
const TRIES: u64 = u64::MAX;

/// One read, tried again where a signal interrupts it. Of a reader that tells its bytes, those given are the next,
/// and none come only at its end.
pub(crate) fn read_uninterrupted<R: Read>(reader: &mut R, into: &mut [u8]) -> IoResult<usize>
    ensures bound { ReadsAtMost result into.new }
    ensures bytes { ReadConsumes (R.remaining reader.old) (R.remaining reader.new) result into.new }
    ensures tried_again { IfErr result (λ error. error_kind error ≢ ErrorKind.Interrupted) }
{
    for _ in 0..TRIES {
        match reader.read(into) {
            Err(error) if error.kind() == ErrorKind::Interrupted => {}
            result => return result,
        }
    }
    Err(Error::from(ErrorKind::TimedOut))
}

/// One write, tried again where a signal interrupts it. A writer that tells its bytes took those that are told.
pub(crate) fn write_uninterrupted<W: Write>(writer: &mut W, piece: &[u8]) -> IoResult<usize>
    ensures bound { WritesAtMost result piece.now }
    ensures bytes { WriteAppends (W.contents writer.old) (W.contents writer.new) result piece.now }
    ensures tried_again { IfErr result (λ error. error_kind error ≢ ErrorKind.Interrupted) }
{
    for _ in 0..TRIES {
        match writer.write(piece) {
            Err(error) if error.kind() == ErrorKind::Interrupted => {}
            result => return result,
        }
    }
    Err(Error::from(ErrorKind::TimedOut))
}
