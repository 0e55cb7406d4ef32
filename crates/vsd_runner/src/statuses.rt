//! How a run ends.
ghost use Rattle.std.specs.Prelude.{◌≡◌};
ghost use Rattle.vsd_runner.specs.Refusals.{number_of};

use vsd_refusals::Refusal;

/// How a run ended.
#[derive(Debug, Drop)]
pub enum Status {
    /// The source was read to its end, the text was accepted and all answers were written.
    Done,
    /// The words are no command. `refused words` was written.
    Words,
    /// The text is refused. One line was written that says why.
    Refused(Refusal),
    /// A read failed, and the source counted it. Nothing was written.
    ReadFault,
    /// A write failed, and the sink counted it. A prefix of what was to be written was taken, often nothing
    /// and never all.
    WriteFault,
    /// Want of memory. A first part of the answers was written, often nothing.
    Memory,
}

/// The exit status of the program, from 0 to 6; no way to end has 1. `docs/language.md` lists them.
pub fn number(status: &Status) -> u8
    ensures { result ≡ number_of status.now }
{
    match status {
        Status::Done => 0,
        Status::Words => 2,
        Status::Refused(_) => 3,
        Status::ReadFault => 4,
        Status::WriteFault => 5,
        Status::Memory => 6,
    }
}
