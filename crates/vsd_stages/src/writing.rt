//! The lines of answers.
ghost use Rattle.std.specs.Prelude.{◌≡◌, ℕ, ◌-◌, ◌≤◌, length, OnOk, IfErr};
ghost use Rattle.std.specs.Io.KnownBytes.{append_known};
ghost use Rattle.vsd_outside.specs.Faults.{Rose};
ghost use Rattle.vsd_lines.specs.Moving.{AtError, CutShort, Front};
ghost use Rattle.vsd_stages.specs.Settling.{IsWritable, bytes_of};

use crate::prepared::Prepared;
use std::alloc::Global;
use vsd_lines::{LinesError, write_lines};
use vsd_outside::Sink;

/// Writes the lines of answers, in pages of about 64 KB. After an error the sink took a first part of them: at `Memory`, want
/// of memory, perhaps nothing or all, at `Failed`, which comes exactly where the sink counted a fault, not all.
#[tactic(auto, unfolding(crate::specs::Settling::bytes_of))]
pub fn write_answers<K: Sink>(
    alloc: Global,
    prepared: &Prepared,
    sink: &mut K,
) -> Result<(), LinesError>
    requires { IsWritable prepared.now }
    ensures ok { OnOk result (K.taken sink.new ≡ append_known (K.taken sink.old) (bytes_of prepared.now)) }
    ensures part { IfErr result (AtError
        (CutShort (K.taken sink.old) (K.taken sink.new) (K.has_room sink.old) (bytes_of prepared.now))
        (Front (K.taken sink.old) (K.taken sink.new) (bytes_of prepared.now))) }

    // A fault is counted exactly where a write failed.
    ensures counted { IfErr result (AtError (Rose (K.faults sink.old) (K.faults sink.new)) (K.faults sink.new ≡ K.faults sink.old)) }
    ensures no_fault { OnOk result (K.faults sink.new ≡ K.faults sink.old) }
    ensures never_falls { K.faults sink.old ≤ K.faults sink.new }
{
    write_lines(
        alloc,
        &prepared.script,
        &prepared.site_tokens,
        &prepared.method_texts,
        &prepared.slot_texts,
        &prepared.answers,
        sink,
    )
}
