//! Writing a whole text.
ghost use Rattle.std.specs.Prelude.{◌≡◌, ℕ, ◌-◌, ◌<◌, ◌≤◌, length, OnOk, OnErr};
ghost use Rattle.std.specs.Io.KnownBytes.{append_known};
ghost use Rattle.vsd_outside.specs.Faults.{Rose};
ghost use Rattle.vsd_outside.specs.Pieces.{TakesPart};

use crate::sinks::Sink;
use crate::sources::Failed;

/// Writes the bytes in order, in pieces as large as the sink takes. At `Failed`, which comes at the first
/// write that failed, the sink took a prefix of them, and not all, and counted a fault.
pub fn write_whole<K: Sink>(sink: &mut K, bytes: &[u8]) -> Result<(), Failed>
    ensures ok { OnOk result (K.taken sink.new ≡ append_known (K.taken sink.old) bytes.now) }
    ensures part { OnErr result (TakesPart (K.taken sink.old) (K.taken sink.new) bytes.now) }

    // A fault is counted exactly where a write failed.
    ensures fault { OnErr result (Rose (K.faults sink.old) (K.faults sink.new)) }
    ensures no_fault { OnOk result (K.faults sink.new ≡ K.faults sink.old) }
    ensures never_falls { K.faults sink.old ≤ K.faults sink.new }

    // Bytes for which there surely is room are written, and room shrinks by them, at most.
    ensures sure { OnErr result ((size : ℕ) → K.has_room sink.old size → size < length bytes.now) }
    ensures room_left { OnOk result ((size : ℕ)
        → K.has_room sink.old size → K.has_room sink.new (size - length bytes.now)) }
{
    let mut at = 0;
    while at < bytes.len() {
        at += sink.write(&bytes[at..])?;
    }
    Ok(())
}
