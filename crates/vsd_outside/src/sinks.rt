//! What takes bytes.
ghost use Rattle.std.specs.Prelude.{◌≡◌, ℕ, ◌-◌, ◌<◌, ◌≤◌, List, Option, length, IfOk, OnOk, OnErr};
ghost use Rattle.std.specs.Io.KnownBytes.{append_known};
ghost use Rattle.vsd_outside.specs.Faults.{Rose};
ghost use Rattle.vsd_outside.specs.Pieces.{moved};

use crate::sources::Failed;

/// What takes bytes, in order.
pub trait Sink {
    // The bytes taken so far, where the sink tells them.
    ghost taken: { Self → Option (List ℕ) };

    // How many faults there were: a u64 that never falls and stands still at its limit.
    ghost faults: { Self → ℕ };

    // The sink surely takes this many more bytes without a fault. A sink that can't promise it claims no
    // such thing.
    ghost has_room: { Self → ℕ → Type 0 };

    /// Takes the first bytes of `piece`, at least one where it isn't empty, and gives their number: at
    /// most the length of `piece`. `Failed` took nothing, and is the only answer at which a fault is
    /// counted: to take nothing of a piece that isn't empty is one. A call doesn't change whether the
    /// sink tells its bytes.
    fn write(&mut self, piece: &[u8]) -> Result<usize, Failed>
        ensures bound { IfOk result (λ n. n ≤ length piece.now) }
        ensures some { IfOk result (λ n. 0 < length piece.now → 0 < n) }
        ensures bytes { taken self.new ≡ append_known (taken self.old) (moved result piece.now) }

        // A fault is counted exactly where the write failed.
        ensures fault { OnErr result (Rose (faults self.old) (faults self.new)) }
        ensures no_fault { OnOk result (faults self.new ≡ faults self.old) }
        ensures never_falls { faults self.old ≤ faults self.new }

        // A piece for which there surely is room is taken, and room shrinks by what was taken, at most.
        ensures sure { OnErr result ((size : ℕ) → has_room self.old size → size < length piece.now) }
        ensures room_left { IfOk result (λ n.
            (size : ℕ) → has_room self.old size → has_room self.new (size - n)) };
}
