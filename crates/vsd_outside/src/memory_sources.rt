//! Sources over bytes in memory.
ghost use Rattle.std.specs.Prelude.{◌≡◌, ◌≢◌, ◌↔◌, ℕ, ◌+◌, ◌<◌, ◌≤◌, List, Some, [], min, length, take, drop, vec_len, IfOk, IsOk, IsErr, OnOk, OnErr, Contains, is_ok, if◌then◌else◌};
ghost use Rattle.std.specs.Io.KnownBytes.{prepend_known, IsAtEnd};
ghost use Rattle.vsd_outside.specs.Faults.{Rose, one_more};
ghost use Rattle.vsd_outside.specs.Pieces.{moved};
ghost use Rattle.vsd_outside.specs.Memory.{MemorySupply};

use crate::sources::{Failed, Source};
use std::marker::Model;

/// A source that fails at listed calls and gives its bytes in pieces: for tests of what reads.
#[derive(Drop)]
pub struct MemorySource {
    bytes: Vec<u8>,
    at: usize,
    chunk: usize,
    fail: Vec<u64>,
    calls: u64,
    faults: u64,
}

impl Model for MemorySource {
    ghost Value = { MemorySupply };

    ghost view = { λ s. record {
      left = drop s.at s.bytes.items;
      chunk = s.chunk;
      failing = s.fail.items;
      calls = s.calls;
      faults = s.faults;
    } };

    ghost invariant = { λ s. (s.at ≤ vec_len s.bytes) × (0 < s.chunk) };
}

impl MemorySource {
    /// A source of these bytes that gives at most `chunk` bytes a call, at least 1, and fails at the calls
    /// in `fail`, counted from 1. With an empty list it never fails.
    pub fn new(bytes: Vec<u8>, chunk: usize, fail: Vec<u64>) -> MemorySource
        requires { 0 < chunk }
        ensures whole { result ≡ record {
          left = bytes.items;
          chunk = chunk;
          failing = fail.items;
          calls = 0;
          faults = 0;
        } }
        ensures sure { fail.items ≡ [] → ⟦<MemorySource as Source>⟧.never_fails result }
    {
        MemorySource {
            bytes,
            at: 0,
            chunk,
            fail,
            calls: 0,
            faults: 0,
        }
    }
}

impl Source for MemorySource {
    ghost left = { λ s. Some s.left };

    ghost faults = { λ s. s.faults };

    ghost never_fails = { λ s. s.failing ≡ [] };

    /// Fails exactly at the listed calls, and else gives as much as the room, the chunk and the bytes
    /// left allow.
    fn read(&mut self, into: &mut [u8]) -> Result<usize, Failed>
        ensures bound { IfOk result (λ n. n ≤ length into.new) }
        ensures bytes { Some self.old.left ≡ prepend_known (moved result into.new) (Some self.new.left) }
        ensures end { IfOk result (λ n. n ≡ 0 → 0 < length into.new → IsAtEnd (Some self.new.left)) }
        ensures fault { OnErr result (Rose self.old.faults self.new.faults) }
        ensures no_fault { OnOk result (self.new.faults ≡ self.old.faults) }
        ensures never_falls { self.old.faults ≤ self.new.faults }
        ensures sure { OnErr result (self.old.failing ≢ []) }
        ensures stays_sure { self.old.failing ≡ [] → self.new.failing ≡ [] }

        ensures fails_as_listed { IsErr result ↔ Contains self.old.failing (one_more self.old.calls) }
        ensures gives_all_it_may { IfOk result (λ n.
            n ≡ min self.old.chunk (min (length into.new) (length self.old.left))) }
        ensures counts { (self.new.calls ≡ one_more self.old.calls)
            × (self.new.faults ≡ (if is_ok result then self.old.faults else one_more self.old.faults)) }
        ensures keeps { (self.new.chunk ≡ self.old.chunk) × (self.new.failing ≡ self.old.failing) }
    {
        self.calls = self.calls.saturating_add(1);
        if self.fail.contains(&self.calls) {
            self.faults = self.faults.saturating_add(1);
            return Err(Failed);
        }
        let room = into.len().min(self.chunk);
        let n = copy_front(&self.bytes[self.at..], &mut into[..room]);
        self.at += n;
        Ok(n)
    }
}

/// A source over bytes in memory that never fails.
#[derive(Drop)]
pub struct SureSource {
    bytes: Vec<u8>,
    at: usize,
}

impl Model for SureSource {
    ghost Value = { List ℕ };

    ghost view = { λ s. drop s.at s.bytes.items };

    ghost invariant = { λ s. s.at ≤ vec_len s.bytes };
}

impl SureSource {
    /// A source of these bytes.
    pub fn new(bytes: Vec<u8>) -> SureSource
        ensures whole { result ≡ bytes.items }
        ensures sure { ⟦<SureSource as Source>⟧.never_fails result }
    {
        SureSource { bytes, at: 0 }
    }
}

impl Source for SureSource {
    ghost left = { λ s. Some s };

    ghost faults = { λ _. 0 };

    ghost never_fails = { λ _. Unit {0} };

    /// Gives as much as the room and the bytes left allow.
    fn read(&mut self, into: &mut [u8]) -> Result<usize, Failed>
        ensures bound { IfOk result (λ n. n ≤ length into.new) }
        ensures bytes { Some self.old ≡ prepend_known (moved result into.new) (Some self.new) }
        ensures end { IfOk result (λ n. n ≡ 0 → 0 < length into.new → IsAtEnd (Some self.new)) }

        ensures succeeds { IsOk result }
        ensures gives_all_it_may { IfOk result (λ n. n ≡ min (length into.new) (length self.old)) }
    {
        let n = copy_front(&self.bytes[self.at..], into);
        self.at += n;
        Ok(n)
    }
}

/// Copies what fits of `from` to the start of `into`, and gives its length.
fn copy_front(from: &[u8], into: &mut [u8]) -> usize
    ensures size { result ≡ min (length from.now) (length into.old) }
    ensures front { take result into.new ≡ take result from.now }
{
    let n = from.len().min(into.len());
    into[..n].copy_from_slice(&from[..n]);
    n
}
