//! A sink into memory.
ghost use Rattle.std.specs.Prelude.{◌≡◌, ℕ, ◌+◌, ◌-◌, ◌<◌, ◌≤◌, List, Some, [], min, length, vec_len, vec_capacity, IfOk, IsOk, IsErr, OnOk, OnErr, Contains, is_ok, if◌then◌else◌};
ghost use Rattle.std.specs.Io.KnownBytes.{append_known};
ghost use Rattle.vsd_outside.specs.Faults.{Rose, one_more};
ghost use Rattle.vsd_outside.specs.Pieces.{moved};
ghost use Rattle.vsd_outside.specs.Memory.{MemoryStore, HasRoom};

use crate::sinks::Sink;
use crate::sources::Failed;
use std::alloc::{AllocError, Global};
use std::marker::Model;

/// A sink that takes bytes up to a capacity and fails at listed calls: for tests of what writes.
#[derive(Drop)]
pub struct MemorySink {
    bytes: Vec<u8>,
    capacity: usize,
    fail: Vec<u64>,
    calls: u64,
    faults: u64,
}

impl Model for MemorySink {
    ghost Value = { MemoryStore };

    ghost view = { λ s. record {
      taken = s.bytes.items;
      capacity = s.capacity;
      failing = s.fail.items;
      calls = s.calls;
      faults = s.faults;
    } };

    ghost invariant = { λ s. (vec_len s.bytes ≤ s.capacity) × (s.capacity ≤ vec_capacity s.bytes) };
}

impl MemorySink {
    /// An empty sink for `capacity` bytes, which takes their memory at once, and fails at the calls in
    /// `fail`, counted from 1. With an empty list and room for what is written it never fails. The error
    /// is want of memory.
    pub fn new(alloc: Global, capacity: usize, fail: Vec<u64>) -> Result<MemorySink, AllocError>
        ensures empty { IfOk result (λ sink. sink ≡ record {
          taken = [];
          capacity = capacity;
          failing = fail.items;
          calls = 0;
          faults = 0;
        }) }
        ensures room { fail.items ≡ []
            → IfOk result (λ sink. ⟦<MemorySink as Sink>⟧.has_room sink capacity) }
    {
        Ok(MemorySink {
            bytes: Vec::with_capacity(alloc, capacity)?,
            capacity,
            fail,
            calls: 0,
            faults: 0,
        })
    }

    /// The bytes taken so far, in order.
    pub fn bytes(&self) -> &[u8]
        ensures { result.now ≡ self.now.taken }
    {
        self.bytes.as_slice()
    }

    /// Counts a fault.
    fn fault(&mut self) -> Failed
        ensures { self.new ≡ record self.old { faults = one_more self.old.faults } }
    {
        self.faults = self.faults.saturating_add(1);
        Failed
    }
}

impl Sink for MemorySink {
    ghost taken = { λ s. Some s.taken };

    ghost faults = { λ s. s.faults };

    ghost has_room = { HasRoom };

    /// Fails exactly at the listed calls, and where a piece that isn't empty finds no room. Else takes
    /// what fits.
    fn write(&mut self, piece: &[u8]) -> Result<usize, Failed>
        ensures bound { IfOk result (λ n. n ≤ length piece.now) }
        ensures some { IfOk result (λ n. 0 < length piece.now → 0 < n) }
        ensures bytes { Some self.new.taken ≡ append_known (Some self.old.taken) (moved result piece.now) }
        ensures fault { OnErr result (Rose self.old.faults self.new.faults) }
        ensures no_fault { OnOk result (self.new.faults ≡ self.old.faults) }
        ensures never_falls { self.old.faults ≤ self.new.faults }
        ensures sure { OnErr result ((size : ℕ) → HasRoom self.old size → size < length piece.now) }
        ensures room_left { IfOk result (λ n.
            (size : ℕ) → HasRoom self.old size → HasRoom self.new (size - n)) }

        ensures fails_as_listed { Contains self.old.failing (one_more self.old.calls) → IsErr result }
        ensures fails_where_full { 0 < length piece.now
            → self.old.capacity ≤ length self.old.taken → IsErr result }
        ensures succeeds { ¬ Contains self.old.failing (one_more self.old.calls)
            → length self.old.taken < self.old.capacity → IsOk result }
        ensures takes_nothing { ¬ Contains self.old.failing (one_more self.old.calls)
            → length piece.now ≡ 0 → IsOk result }
        ensures takes_what_fits { IfOk result (λ n.
            n ≡ min (length piece.now) (self.old.capacity - length self.old.taken)) }
        ensures counts { (self.new.calls ≡ one_more self.old.calls)
            × (self.new.faults ≡ (if is_ok result then self.old.faults else one_more self.old.faults)) }
        ensures keeps { (self.new.capacity ≡ self.old.capacity) × (self.new.failing ≡ self.old.failing) }
    {
        self.calls = self.calls.saturating_add(1);
        if self.fail.contains(&self.calls) {
            return Err(self.fault());
        }
        let n = piece.len().min(self.capacity - self.bytes.len());
        if n == 0 && !piece.is_empty() {
            return Err(self.fault());
        }
        self.bytes.extend_from_slice(&piece[..n]).unwrap();
        Ok(n)
    }
}
