//! A square matrix of bits.
ghost use Rattle.std.specs.Prelude.{◌≡◌, ℕ, ◌+◌, ◌*◌, ◌/◌, ◌^◌, ◌<◌, ◌≤◌, ◌↔◌, All, IsTrue, IfOk, bit_or, length, slice_index, slice_set, vec_len};

use std::alloc::{AllocError, Global};

/// A bit for each two of some types, a row of words for the first.
#[derive(Debug, Drop)]
pub(crate) struct Matrix {
    pub(crate) count: u16,
    /// How many words a row has.
    pub(crate) width: usize,
    pub(crate) words: Vec<u64>,
    pub(crate) ghost wide: { count ≤ 64 * width },
    pub(crate) ghost long: { vec_len words ≡ count * width },
    pub(crate) ghost fits: { All (λ word. word < 2 ^ 64) words.items },
}

impl Matrix {
    ghost use Rattle.vsd_compat.specs.Matrices.{IsSet, bits_of};
    ghost use Rattle.vsd_compat.specs.Moving.{Adds, Moves};

    /// No bit is set.
    pub(crate) fn new(alloc: Global, count: u16) -> Result<Matrix, AllocError>
        requires { count ≤ 1024 }
        ensures count { IfOk result (λ m. m.count ≡ count) }
        ensures none { IfOk result (λ m. (t u : ℕ) → IsSet (bits_of m) t u → ⊥) }
    {
        let width = (usize::from(count) + 63) / 64;
        let mut words = Vec::new(alloc);
        words.resize(usize::from(count) * width, 0)?;
        Ok(Matrix {
            count,
            width,
            words,
        })
    }

    /// The same bits in memory of their own. The error is want of memory.
    pub(crate) fn copy(&self, alloc: Global) -> Result<Matrix, AllocError>
        ensures count { IfOk result (λ m. m.count ≡ self.now.count) }
        ensures bits { IfOk result (λ m. bits_of m ≡ bits_of self.now) }
    {
        let mut words = Vec::new(alloc);
        words.extend_from_slice(self.words.as_slice())?;
        Ok(Matrix {
            count: self.count,
            width: self.width,
            words,
        })
    }

    /// Whether the bit of `t` and `u` is set.
    pub(crate) fn get(&self, t: u16, u: u16) -> bool
        requires first { t < self.now.count }
        requires second { u < self.now.count }
        ensures { IsTrue result ↔ IsSet (bits_of self.now) t u }
    {
        let t = usize::from(t);
        let u = usize::from(u);
        (self.words[t * self.width + u / 64] >> (u % 64)) & 1 == 1
    }

    /// Sets the bit of `t` and `u`, and says whether that changes anything.
    pub(crate) fn set(&mut self, t: u16, u: u16) -> bool
        requires first { t < self.old.count }
        requires second { u < self.old.count }
        ensures moves { Moves self.old self.new result }
        ensures adds { Adds self.old.count (bits_of self.old) (bits_of self.new) (λ i j. (i ≡ t) × (j ≡ u)) }
    {
        let t = usize::from(t);
        let u = usize::from(u);
        self.put(t * self.width + u / 64, 1 << (u % 64))
    }

    /// Sets in the row of `to` what is set in the row of `from`, and says whether that changes anything.
    pub(crate) fn absorb(&mut self, to: u16, from: u16) -> bool
        requires to { to < self.old.count }
        requires from { from < self.old.count }
        ensures moves { Moves self.old self.new result }
        ensures adds { Adds self.old.count (bits_of self.old) (bits_of self.new) (λ i j. (i ≡ to) × IsSet (bits_of self.old) from j) }
    {
        let width = self.width;
        let to = usize::from(to) * width;
        let from = usize::from(from) * width;
        let mut changed = false;
        for k in 0..width {
            let bits = self.words[from + k];
            let moved = self.put(to + k, bits);
            changed |= moved;
        }
        changed
    }

    // Sets the bits of a word at a place, and says whether that changes anything.
    fn put(&mut self, place: usize, bits: u64) -> bool
        requires { place < vec_len self.old.words }
        ensures after { self.new.words.items ≡ slice_set self.old.words.items place (bit_or (slice_index self.old.words.items place) bits) }
        ensures moves { Moves self.old self.new result }
    {
        let old = self.words[place];
        let new = old | bits;
        if new == old {
            return false;
        }
        self.words[place] = new;
        true
    }
}
