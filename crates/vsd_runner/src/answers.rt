//! What a text answers, and writing it.
ghost use Rattle.std.specs.Prelude.{◌≡◌, ◌≤◌, ℕ, ◌<◌, length};
ghost use Rattle.vsd_outside.specs.Faults.{Rose};
ghost use Rattle.vsd_runner.specs.Written.{Writes};
ghost use Rattle.vsd_runner.specs.Outcomes.{WriteCounted};
ghost use Rattle.vsd_stages.specs.Endings.{refused};
ghost use Rattle.vsd_stages.specs.Settling.{IsOneEnding};
ghost use Rattle.vsd_stages.specs.Stages.{Ends};

use crate::statuses::Status;
use std::alloc::Global;
use vsd_outside::{Failed, Sink, write_whole};
use vsd_refusals::{Refusal, refusal_line};
use vsd_stages::{LinesError, Stopped, answer, write_answers};

/// Writes what a text answers, or the line of its first refusal, and says how that ends.
pub(crate) fn write_for<K: Sink>(alloc: Global, text: &[u8], sink: &mut K) -> Status
    ensures writes { Writes text.now (K.taken sink.old) (K.taken sink.new) (sink.new ≡ sink.old)
        (λ needed. (size : ℕ) → K.has_room sink.old size → size < needed) result }
    ensures counted { WriteCounted (Rose (K.faults sink.old) (K.faults sink.new))
        (K.faults sink.new ≡ K.faults sink.old) result }
    ensures never_falls { K.faults sink.old ≤ K.faults sink.new }
{
    match answer(alloc, text) {
        Ok(prepared) => match write_answers(alloc, &prepared, sink) {
            Ok(()) => Status::Done,
            Err(LinesError::Failed) => Status::WriteFault,
            Err(LinesError::Memory) => Status::Memory,
        },
        Err(Stopped::Refused(refusal)) => refuse(alloc, text, refusal, sink),
        Err(Stopped::Memory) => Status::Memory,
    }
}

/// Writes the line of the first refusal of a text.
fn refuse<K: Sink>(alloc: Global, text: &[u8], refusal: Refusal, sink: &mut K) -> Status
    requires { IsOneEnding (Ends text.now) (refused refusal) }
    ensures writes { Writes text.now (K.taken sink.old) (K.taken sink.new) (sink.new ≡ sink.old)
        (λ needed. (size : ℕ) → K.has_room sink.old size → size < needed) result }
    ensures counted { WriteCounted (Rose (K.faults sink.old) (K.faults sink.new))
        (K.faults sink.new ≡ K.faults sink.old) result }
    ensures never_falls { K.faults sink.old ≤ K.faults sink.new }
{
    let Ok(line) = refusal_line(alloc, &refusal) else {
        return Status::Memory;
    };
    match write_whole(sink, &line) {
        Ok(()) => Status::Refused(refusal),
        Err(Failed) => Status::WriteFault,
    }
}
