//! Pages, which are written when they are full.
ghost use Rattle.std.specs.Prelude.{◌≡◌, ℕ, ◌<◌, ◌≤◌, [], length, OnOk, OnErr};
ghost use Rattle.vsd_outside.specs.Faults.{Rose};
ghost use Rattle.vsd_lines.specs.Moving.{Carries, CutShort, page_size};

use vsd_outside::{Failed, Sink, write_whole};

/// A page that has as many bytes as this is written.
pub(crate) const PAGE: usize = 65_536;

/// Writes the page where it is full, and empties it; else nothing is written.
pub(crate) fn turn<K: Sink>(sink: &mut K, page: &mut Vec<u8>) -> Result<(), Failed>
    ensures waits { length page.old.items < page_size → (sink.new ≡ sink.old) × (page.new.items ≡ page.old.items) }
    ensures full { page_size ≤ length page.old.items → OnOk result (page.new.items ≡ []) }
    ensures carries { OnOk result (Carries (K.taken sink.old) (K.taken sink.new) (K.has_room sink.old) (K.has_room sink.new)
        page.old.items page.new.items []) }
    ensures cut { OnErr result (CutShort (K.taken sink.old) (K.taken sink.new) (K.has_room sink.old) page.old.items) }
    ensures fault { OnErr result (Rose (K.faults sink.old) (K.faults sink.new)) }
    ensures no_fault { OnOk result (K.faults sink.new ≡ K.faults sink.old) }
    ensures never_falls { K.faults sink.old ≤ K.faults sink.new }
{
    if page.len() < PAGE {
        return Ok(());
    }
    finish(sink, page)
}

/// Writes the page, and empties it.
pub(crate) fn finish<K: Sink>(sink: &mut K, page: &mut Vec<u8>) -> Result<(), Failed>
    ensures carries { OnOk result (Carries (K.taken sink.old) (K.taken sink.new) (K.has_room sink.old) (K.has_room sink.new)
        page.old.items page.new.items []) }
    ensures empty { OnOk result (page.new.items ≡ []) }
    ensures cut { OnErr result (CutShort (K.taken sink.old) (K.taken sink.new) (K.has_room sink.old) page.old.items) }
    ensures fault { OnErr result (Rose (K.faults sink.old) (K.faults sink.new)) }
    ensures no_fault { OnOk result (K.faults sink.new ≡ K.faults sink.old) }
    ensures never_falls { K.faults sink.old ≤ K.faults sink.new }
{
    write_whole(sink, page)?;
    page.clear();
    Ok(())
}
