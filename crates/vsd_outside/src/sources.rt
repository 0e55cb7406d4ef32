//! What gives bytes.
ghost use Rattle.std.specs.Prelude.{◌≡◌, ℕ, ◌<◌, ◌≤◌, List, Option, length, IfOk, OnOk, OnErr};
ghost use Rattle.std.specs.Io.KnownBytes.{prepend_known, IsAtEnd};
ghost use Rattle.vsd_outside.specs.Faults.{Rose};
ghost use Rattle.vsd_outside.specs.Pieces.{moved};

/// A read or a write that moved no byte. It comes exactly where the source or sink counted a fault in
/// that call.
#[derive(Clone, Copy, Debug, PartialEq, Eq)]
pub struct Failed;

/// What gives bytes, in order, until it is at its end.
pub trait Source {
    // The bytes that are left, where the source tells them.
    ghost left: { Self → Option (List ℕ) };

    // How many faults there were: a u64 that never falls and stands still at its limit.
    ghost faults: { Self → ℕ };

    // No read fails from here on. A source that can't promise it claims no such thing.
    ghost never_fails: { Self → Type 0 };

    /// Takes the next bytes of the source into a prefix of `into`, and gives their number: at most as
    /// many as `into` has room for. 0 for a room that isn't empty is the end. `Failed` took nothing, and
    /// is the only answer at which a fault is counted. What stands in `into` after the bytes that were
    /// given, or after `Failed`, isn't told. A call doesn't change whether the source tells its bytes.
    fn read(&mut self, into: &mut [u8]) -> Result<usize, Failed>
        ensures bound { IfOk result (λ n. n ≤ length into.new) }
        ensures bytes { left self.old ≡ prepend_known (moved result into.new) (left self.new) }
        ensures end { IfOk result (λ n. n ≡ 0 → 0 < length into.new → IsAtEnd (left self.new)) }

        // A fault is counted exactly where the read failed.
        ensures fault { OnErr result (Rose (faults self.old) (faults self.new)) }
        ensures no_fault { OnOk result (faults self.new ≡ faults self.old) }
        ensures never_falls { faults self.old ≤ faults self.new }

        ensures sure { OnErr result (¬ never_fails self.old) }
        ensures stays_sure { never_fails self.old → never_fails self.new };
}
