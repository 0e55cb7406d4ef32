//! Reading a source to its end, or to a limit.
ghost use Rattle.std.specs.Prelude.{◌≡◌, ◌+◌, ◌<◌, ◌≤◌, ◌++◌, take, length, vec_len, IfOk, IfErr, OnOk};
ghost use Rattle.std.specs.Io.KnownBytes.{prepend_known, IsAtEnd};
ghost use Rattle.vsd_outside.specs.Faults.{Rose};
ghost use Rattle.vsd_outside.specs.Reading.{GivesUpTo, Counted};

use crate::sources::{Failed, Source};
use std::alloc::{AllocError, Global};

/// How many bytes one call asks a source for, at most.
const PIECE: usize = 65_536;

/// Why a source wasn't read as far as it was to be.
#[derive(Clone, Copy, Debug, PartialEq, Eq)]
pub enum ReadError {
    /// A read failed.
    Failed,
    /// Want of memory. No read failed.
    Memory,
}

impl From<AllocError> for ReadError {
    ghost use Rattle.vsd_outside.specs.declared.reading.ReadError.{ReadError};

    ghost from_gives = { λ _ e. e ≡ ReadError.Memory };

    fn from(_error: AllocError) -> ReadError {
        ReadError::Memory
    }
}

impl From<Failed> for ReadError {
    ghost use Rattle.vsd_outside.specs.declared.reading.ReadError.{ReadError};

    ghost from_gives = { λ _ e. e ≡ ReadError.Failed };

    fn from(_error: Failed) -> ReadError {
        ReadError::Failed
    }
}

/// Reads the source to its end, or to `limit` bytes: never more. After an error the source has given as
/// many bytes as were read before it, and they are lost. `Failed` comes at the first read that failed, which
/// the source counted. `Memory` is want of memory, and then no read failed.
pub fn read_up_to<S: Source>(
    alloc: Global,
    source: &mut S,
    limit: usize,
) -> Result<Vec<u8>, ReadError>
    ensures read { IfOk result (λ text.
        GivesUpTo limit (S.left source.old) (S.left source.new) text.items) }

    // A fault is counted exactly where a read failed.
    ensures counted { IfErr result (Counted (Rose (S.faults source.old) (S.faults source.new))
        (S.faults source.new ≡ S.faults source.old)) }
    ensures no_fault { OnOk result (S.faults source.new ≡ S.faults source.old) }
    ensures never_falls { S.faults source.old ≤ S.faults source.new }

    ensures sure { S.never_fails source.old → IfErr result (λ error. error ≡ ReadError.Memory) }
    ensures stays_sure { S.never_fails source.old → S.never_fails source.new }
{
    let mut piece = zeroes(alloc, PIECE)?;
    let mut text = Vec::new(alloc);
    while text.len() < limit {
        let room = PIECE.min(limit - text.len());
        if read_piece(source, &mut piece[..room], &mut text)? == 0 {
            break;
        }
    }
    Ok(text)
}

/// Adds the bytes of one read to the text, and gives their number.
fn read_piece<S: Source>(
    source: &mut S,
    piece: &mut [u8],
    text: &mut Vec<u8>,
) -> Result<usize, ReadError>
    ensures bound { IfOk result (λ n. n ≤ length piece.new) }
    ensures adds { IfOk result (λ n. text.new.items ≡ text.old.items ++ take n piece.new) }
    ensures grows { IfOk result (λ n. vec_len text.new ≡ vec_len text.old + n) }
    ensures bytes { IfOk result (λ n. S.left source.old ≡ prepend_known (take n piece.new) (S.left source.new)) }
    ensures end { IfOk result (λ n. n ≡ 0 → 0 < length piece.new → IsAtEnd (S.left source.new)) }
    ensures counted { IfErr result (Counted (Rose (S.faults source.old) (S.faults source.new))
        (S.faults source.new ≡ S.faults source.old)) }
    ensures no_fault { OnOk result (S.faults source.new ≡ S.faults source.old) }
    ensures never_falls { S.faults source.old ≤ S.faults source.new }
    ensures sure { S.never_fails source.old → IfErr result (λ error. error ≡ ReadError.Memory) }
    ensures stays_sure { S.never_fails source.old → S.never_fails source.new }
{
    let n = source.read(piece)?;
    text.extend_from_slice(&piece[..n])?;
    Ok(n)
}

/// A buffer of this size.
fn zeroes(alloc: Global, size: usize) -> Result<Vec<u8>, AllocError>
    ensures { IfOk result (λ buffer. vec_len buffer ≡ size) }
{
    vec![in alloc; 0u8; size]
}
